//! Records of blocks, both ways, in the formats F, FB, V, VB, VS, VBS and U. Block, record and
//! segment descriptors are those of OS/360; a block is handed over as the data of one record on the
//! pack, without its count and key.
#![tactic(auto)]

mod deblock;
mod formats;
mod joiner;
mod laws;
mod marks;
mod packer;
mod packing;
mod pieces;
mod spanning;

pub use deblock::Deblock;
pub use formats::{Format, FormatErr};
pub use joiner::{JoinErr, Joiner};
pub use laws::{
    fault_law, joining_law, packing_law, read_back_law, reading_law, spanned_packing_law,
};
pub use marks::BlockMark;
pub use packer::{PackErr, Packer};
pub use pieces::BlockErr;
