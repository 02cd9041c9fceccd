//! Members of partitioned data sets: where they end, and the TTRs in the user data of their entries.
#![tactic(auto)]

mod ends;

pub use ends::end_of;
pub use vol_model::move_ttrs;
