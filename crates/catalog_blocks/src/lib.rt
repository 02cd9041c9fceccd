//! The blocks of the catalog, both ways (the catalog of System Control Blocks GC28-6628; the content of
//! its blocks: this project's profile), and what a catalog in blocks stands for.
#![tactic(auto)]

mod blocks;
mod chains;
mod decoding;
mod encoding;

pub use blocks::{BadBlock, CatBlock, CatEntries, CatEntry};
pub use chains::{Chain, ChainBlocks, Lead, Level, Visit};
pub use decoding::decode_block;
pub use encoding::{block_bytes, encode_block};

#[cfg(test)]
mod tests;
