//! Entries put into the directories of partitioned data sets, and taken out, block by block in an
//! order that a stop leaves undone or done; and directories packed (STOW of System Control Blocks
//! GC28-6628; the order of the writes: this project's profile).
#![tactic(auto)]

mod blocks;
mod changing;
mod entries;
mod laws;
mod packings;
mod repacking;
mod storing;

pub use changing::{drop_entry, enter};
pub use packings::Packing;
pub use repacking::{pack, packing};
