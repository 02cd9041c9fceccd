//! The shelf of a machine over pack images: the packs that are mounted on the units of a hall.
#![tactic(auto)]

mod area_start;
mod blocks;
mod committing;
mod libraries;
mod machine;
mod open_err;
mod open_failure;
mod opening;
mod operations;
mod puts;
mod reads;
mod reporting;
mod writer;
mod writing;

pub use machine::HallShelf;
pub use open_err::OpenErr;
