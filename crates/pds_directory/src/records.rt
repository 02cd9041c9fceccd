//! The records that stand in a directory.
ghost use Rattle.std.specs.Prelude.{◌≡◌, ◌≤◌, ◌-◌, Some, length, slice_get};
ghost use Rattle.std.specs.Option.{option_map};
ghost use Rattle.pack_spec.specs.Directories.{is_directory_record, is_end_record};

use track_records::TrackBuf;

// The bytes of a directory block's key.
const KEY_LEN: usize = 8;

// The bytes of its data.
const DATA_LEN: usize = 256;

/// Whether Rr of a buffer can be a block of a directory: its key has 8 bytes, and its data 256.
pub fn is_directory_record(buf: &TrackBuf, r: u8) -> bool
    requires first { 1 ≤ r }
    requires last { r ≤ length buf.now.records }
    ensures { option_map is_directory_record (slice_get buf.now.records (r - 1)) ≡ Some result }
{
    buf.key(r).len() == KEY_LEN && buf.data(r).len() == DATA_LEN
}

// Whether Rr of a buffer is an end-of-file record.
pub(crate) fn is_end_record(buf: &TrackBuf, r: u8) -> bool
    requires first { 1 ≤ r }
    requires last { r ≤ length buf.now.records }
    ensures { option_map is_end_record (slice_get buf.now.records (r - 1)) ≡ Some result }
{
    buf.key(r).is_empty() && buf.data(r).is_empty()
}
