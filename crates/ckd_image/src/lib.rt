//! Images of disk packs in the CKD layout of Hercules: devices, header, tracks, and what fits a track.
#![tactic(auto)]

mod device;
mod fit;
mod header;
mod record;
mod track;
mod writing;

pub use device::DiskType;
pub use fit::{balance, fits};
pub use header::{Geometry, HEADER_LEN, Header, ImageErr};
pub use record::{COUNT_LEN, RecordParts, record_at};
pub use track::{BadCount, FRONT_LEN, track_of};
pub use writing::{push_end, push_front, push_record, written_records_law, written_track_law};

#[cfg(test)]
mod tests;
