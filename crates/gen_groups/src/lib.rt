//! Generation data groups: the names of generations relative to the newest, and which of them go when a group is full
//! (Utilities GC28-6586, in this project's profile).
#![tactic(auto)]

mod laws;
mod names;

pub use laws::{limit_law, relative_law};
pub use names::{generation, is_generation, leaving, overflow, relative};

#[cfg(test)]
mod tests;
