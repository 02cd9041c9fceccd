//! The records of a track, read in one read and written one at a time.
#![tactic(auto)]

mod appending;
mod buffer;
mod error;
mod places;

pub use appending::{append, seal};
pub use buffer::{TrackBuf, read_records, update};
pub use error::TrackErr;
