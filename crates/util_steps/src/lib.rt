//! Steps that the utilities share, on any machine: the calls of a machine, the reading of a data set block by block, the
//! volume of a serial, the lines of items, and the loop over the items of a program.
#![tactic(auto)]

mod calls;
mod copying;
mod expiry;
mod items;
mod reports;
mod volumes;

pub use calls::{Fault, SetRef, apply, begin, commit, put_block, put_bytes};
pub use copying::{empty, next_block, place_behind};
pub use expiry::is_unexpired;
pub use items::{Items, run_items};
pub use reports::{report, say};
pub use volumes::find_volume;
