//! Blocks of a catalog that are to be written.
use catalog_blocks::CatBlock;

/// A block that is to be written.
#[derive(Debug, Drop)]
pub struct BlockWrite {
    /// Its number in the catalog.
    pub number: u32,
    /// What it is to hold.
    pub block: CatBlock,
}
