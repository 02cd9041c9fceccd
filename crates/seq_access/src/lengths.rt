//! How long a block may be.
ghost use Rattle.std.specs.Prelude.{◌≡◌, ◌≤◌, ◌-◌, Some, length, slice_get};
ghost use Rattle.std.specs.Option.{option_map};
ghost use Rattle.pack_spec.specs.Blocks.{is_block};
ghost use Rattle.pack_spec.specs.Directories.{is_directory_record, is_end_record};

use track_records::TrackBuf;

// The most bytes of a key.
const MOST_KEY: usize = 255;

// The most bytes of data.
const MOST_DATA: usize = 32_760;

// The bytes of a directory block's key.
const DIRECTORY_KEY: usize = 8;

// The bytes of its data.
const DIRECTORY_DATA: usize = 256;

// Whether Rr of a buffer can be a block.
pub(crate) fn is_block(buf: &TrackBuf, r: u8) -> bool
    requires first { 1 ≤ r }
    requires last { r ≤ length buf.now.records }
    ensures { option_map is_block (slice_get buf.now.records (r - 1)) ≡ Some result }
{
    buf.key(r).len() <= MOST_KEY && buf.data(r).len() <= MOST_DATA
}

// Whether Rr of a buffer can be a block of a directory.
pub(crate) fn is_directory_record(buf: &TrackBuf, r: u8) -> bool
    requires first { 1 ≤ r }
    requires last { r ≤ length buf.now.records }
    ensures { option_map is_directory_record (slice_get buf.now.records (r - 1)) ≡ Some result }
{
    buf.key(r).len() == DIRECTORY_KEY && buf.data(r).len() == DIRECTORY_DATA
}

// Whether Rr of a buffer is an end-of-file record.
pub(crate) fn is_end_record(buf: &TrackBuf, r: u8) -> bool
    requires first { 1 ≤ r }
    requires last { r ≤ length buf.now.records }
    ensures { option_map is_end_record (slice_get buf.now.records (r - 1)) ≡ Some result }
{
    buf.key(r).len() == 0 && buf.data(r).len() == 0
}

// The lengths of the key and the data of a record.
pub(crate) type Lengths = (u8, u16);
