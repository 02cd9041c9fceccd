//! Chains of blocks: the root of the catalog, its indexes and those of generation data groups.
use crate::blocks::CatEntries;
use vol_model::{Listed, Names, Place};

/// What a chain of blocks is.
#[derive(Clone, Copy, Debug, PartialEq, Eq, Drop)]
pub enum Level {
    /// The root of the catalog.
    Root,
    /// An index below it.
    Plain,
    /// The index of a generation data group.
    Generation,
}

/// Blocks of a chain in their order, each with its number in the catalog and its entries. The blocks of a
/// catalog are numbered from 0, track by track.
pub type ChainBlocks = Listed<(u32, CatEntries)>;

/// A chain of blocks.
#[derive(Debug, Drop)]
pub struct Chain {
    /// The way to it; no names of the root.
    pub names: Names,
    /// What it is.
    pub level: Level,
    /// Its blocks.
    pub blocks: ChainBlocks,
}

/// A chain that is to be read.
#[derive(Debug, Drop)]
pub struct Lead {
    /// The way to it.
    pub names: Names,
    /// What it is.
    pub level: Level,
    /// The TTR of its first block, relative to the catalog's first track.
    pub place: Place,
}

/// A chain that is to be read, and the block that leads there.
#[derive(Debug, Drop)]
pub struct Visit {
    /// The chain.
    pub lead: Lead,
    /// The track of the block that leads there, from the catalog's first track on.
    pub from: u32,
}
