//! The directories of partitioned data sets: read, and their blocks spelled (System Control Blocks GC28-6628).
#![tactic(auto)]

mod decoding;
mod dir;
mod encoding;
mod ends;
mod entry;
mod packed;
mod reading;
mod records;

pub use decoding::{DirBlock, read_block};
pub use dir::{Dir, DirWalk};
pub use encoding::block_bytes;
pub use ends::{find_end, read_up_to};
pub use entry::{DirEntry, copy_of};
pub use packed::is_packed;
pub use reading::{read_dir, walk_dir};
pub use records::is_directory_record;
