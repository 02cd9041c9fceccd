//! The cards of IEBUPDTE: records of source members, the functions that statements order, and what these make of records
//! (Utilities GC28-6586, in this project's profile).
#![tactic(auto)]

mod laws;
mod lines;
mod merging;
mod orders;
mod records;
mod requests;

pub use laws::{numbers_law, others_law, unchanged_law};
pub use lines::{CardLine, line_of};
pub use merging::{Choice, choose, number, number_fits, numbering_after, rises};
pub use orders::{Function, Order, Setting, Target, is_change, orders_of, reads_old, takes_data};
pub use records::{CardRecord, is_before, record_of};
pub use requests::{Heading, Numbering, Range, Request, Verb, request_of};
