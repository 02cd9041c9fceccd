//! Chains of blocks that hold entries in the order of their names: how a chain comes to hold another list,
//! so that a stop between two writes leaves the old list or the new one, and how such a chain is read.
//!
//! What a chain stands for is defined in `chain_spec`.
#![tactic(auto)]

mod cutting;
mod entry;
mod keeping;
mod planning;
mod writes;

pub use entry::ChainEntry;
pub use keeping::kept;
pub use planning::plan;
pub use writes::Plan;

#[cfg(test)]
mod tests;
