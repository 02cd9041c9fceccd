//! The free tracks of a pack as a list of runs: which tracks are chosen for a request, and the list
//! with tracks removed or inserted.
//!
//! Such a list is in ascending order, and no run of it touches another: they are the maximal runs
//! of its tracks. Tracks are counted from 0 over the volume. `choose`, `remove` and `insert` take no
//! memory.
#![tactic(auto)]

mod choosing;
mod edits;
mod extents;
mod longest;
mod owned;
mod units;

pub use choosing::choose;
pub use edits::{insert, remove, remove_all};
pub use extents::{Extents, NoSpace};
pub use owned::{free_runs, lowest_twice};

#[cfg(test)]
mod tests;
