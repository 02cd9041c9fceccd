//! What the records in a buffer take on their track.
ghost use Rattle.std.specs.Prelude.{◌≡◌, ◌≤◌, ◌+◌, true, length, map, take, IsTrue};
ghost use Rattle.std.specs.List.{list_all};
ghost use Rattle.ckd_image.specs.Fit.{balance, fits};
ghost use Rattle.pack_spec.specs.Blocks.{is_block};
ghost use Rattle.track_records.specs.Appends.{end_of};
ghost use Rattle.seq_access.specs.Writing.{sizes};

use crate::checking::are_blocks;
use crate::lengths::Lengths;
use ckd_image::{COUNT_LEN, DiskType, FRONT_LEN, balance, fits};
use track_records::TrackBuf;

// The bytes of an end marker.
const END_LEN: usize = 8;

// Whether each record of a buffer can be a block, and a track of this size takes an end marker after them.
pub(crate) fn is_roomy(buf: &TrackBuf, track_size: u32) -> bool
    requires { length buf.now.records ≤ 255 }
    ensures roomy { IsTrue result → (list_all is_block buf.now.records ≡ true)
        × (end_of buf.now + 8 ≤ track_size) }
    ensures enough { list_all is_block buf.now.records ≡ true → end_of buf.now + 8 ≤ track_size → IsTrue result }
{
    are_blocks(buf, buf.len() as u8) && end_of(buf) + END_LEN <= track_size as usize
}

// Where the records in a buffer end on their track, in bytes from its home address.
fn end_of(buf: &TrackBuf) -> usize
    requires few { length buf.now.records ≤ 255 }
    requires blocks { list_all is_block buf.now.records ≡ true }
    ensures { result ≡ end_of buf.now }
{
    let mut at = FRONT_LEN;
    for index in 0..buf.len() {
        let r = index as u8 + 1;
        at += COUNT_LEN + buf.key(r).len() + buf.data(r).len();
    }
    at
}

// The lengths of the records in a buffer.
fn lengths_of(buf: &TrackBuf) -> ([Lengths; 255], usize)
    requires few { length buf.now.records ≤ 255 }
    requires blocks { list_all is_block buf.now.records ≡ true }
    ensures count { result.1 ≡ length buf.now.records }
    ensures size { length result.0 ≡ 255 }
    ensures lengths { take result.1 result.0 ≡ map sizes buf.now.records }
{
    let mut lengths = [(0, 0); 255];
    for index in 0..buf.len() {
        let r = index as u8 + 1;
        lengths[index] = (buf.key(r).len() as u8, buf.data(r).len() as u16);
    }
    (lengths, buf.len())
}

// Whether a record of these lengths fits a track after those in a buffer.
pub(crate) fn fits_behind(device: DiskType, buf: &TrackBuf, new: Lengths) -> bool
    requires few { length buf.now.records ≤ 255 }
    requires blocks { list_all is_block buf.now.records ≡ true }
    ensures { result ≡ fits device (map sizes buf.now.records) new.0 new.1 }
{
    let (lengths, count) = lengths_of(buf);
    fits(device, &lengths[..count], new.0, new.1)
}

// The balance of a track with the records in a buffer.
pub(crate) fn balance_of(device: DiskType, buf: &TrackBuf) -> u16
    requires few { length buf.now.records ≤ 255 }
    requires blocks { list_all is_block buf.now.records ≡ true }
    ensures { result ≡ balance device (map sizes buf.now.records) }
{
    let (lengths, count) = lengths_of(buf);
    balance(device, &lengths[..count])
}
