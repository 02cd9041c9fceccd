//! What a packing is. A module can't hold `Packing` and `packing` both.
use pds_directory::{Dir, DirEntry};
use sorted_chain::Plan;

/// How a directory that was read comes to be packed.
#[derive(Drop)]
pub struct Packing {
    // The directory.
    pub(crate) dir: Dir,
    // The writes of its blocks.
    pub(crate) plan: Plan<DirEntry>,
}
