//! The blocks of sequential and partitioned data sets: checked, read and written (records of a track in the layout of a
//! Hercules image; LSTAR of System Control Blocks, GC28-6628).
#![tactic(auto)]

mod checking;
mod held;
mod holding;
mod last;
mod lengths;
mod members;
mod read_buf;
mod reading;
mod writer;
mod writing;

pub use checking::{check_part_records, check_records};
pub use last::{is_before, last_of};
pub use members::{is_open_ended, read_part_block, read_part_into};
pub use read_buf::{Reach, ReadBuf};
pub use reading::{read_block, read_into};
pub use writer::{PutErr, Writer};
pub use writing::{abandon, begin, commit, put};
