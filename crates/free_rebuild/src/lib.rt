//! The free space of a pack as its VTOC shows it: the chain of format 5 DSCBs, and the repair of a VTOC that a
//! stop left unfinished.
//!
//! A change of a VTOC begins with `mark`, which tells in format 4 that an update is under way, and ends with
//! `conclude`, which writes the free space anew and tells that none is.
#![tactic(auto)]

mod chain;
mod checks;
mod clearing;
mod durable;
mod highest;
mod repair;
mod settled;
mod slots;
mod space;
mod update;

pub use chain::write_free;
pub use durable::{make_durable, put_durably};
pub use repair::rebuild;
pub use settled::is_settled;
pub use update::{conclude, mark};
