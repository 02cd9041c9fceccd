//! A catalog in memory.
use crate::reading::Branches;

/// A catalog that was read.
#[derive(Debug, Drop)]
pub struct Tree {
    /// How many blocks a track holds, from 1.
    pub per_track: u8,
    /// How many blocks the catalog has.
    pub blocks: u32,
    /// Its chains, in the order in which they are read: after each chain, for each of its entries in order,
    /// that entry's chain with all below it.
    pub branches: Branches,
}
