//! Tracks that are written in memory, part by part.
ghost use Rattle.std.specs.Prelude.{◌≡◌, ℕ, ◌+◌, ◌-◌, ◌<◌, ◌≤◌, ◌++◌, List, length, take, vec_len, replicate, OnOk, OnErr, Some, None};
ghost use Rattle.ckd_image.specs.Track.{AreRecords, IsRecord, IsTrack, Record, end_marker, record_bytes, records_bytes};
ghost use Rattle.ckd_image.specs.Reading.{records_of};
ghost use Rattle.ckd_image.specs.Writing.{front_bytes, record_on, track_bytes};

use crate::record::{COUNT_LEN, RecordParts};
use crate::track::END_MARKER;
use std::alloc::AllocError;

/// Adds the home address and R0 of a track, which stand before R1.
///
/// The layout is that of `track_of`. The byte before the track's CC and HH is 0, R0 names the track too, and its
/// eight bytes of data are 0. The one error is want of memory, and on it nothing is added.
pub fn push_front(bytes: &mut Vec<u8>, cylinder: u16, head: u16) -> Result<(), AllocError>
    ensures added { OnOk result (bytes.new.items ≡ bytes.old.items ++ front_bytes cylinder head) }
    ensures kept { OnErr result (bytes.new.items ≡ bytes.old.items) }
{
    let [cc_high, cc_low] = cylinder.to_be_bytes();
    let [hh_high, hh_low] = head.to_be_bytes();
    bytes.extend_from_slice(&[
        0, cc_high, cc_low, hh_high, hh_low, cc_high, cc_low, hh_high, hh_low, 0, 0, 0, 8, 0, 0, 0,
        0, 0, 0, 0, 0,
    ])
}

/// Adds the record R = `number` of a track: its count, which names the track, its key and its data.
///
/// The key has at most 255 bytes, and the data 65,535. The one error is want of memory, and on it nothing is added.
pub fn push_record(
    bytes: &mut Vec<u8>,
    cylinder: u16,
    head: u16,
    number: u8,
    parts: RecordParts<'_>,
) -> Result<(), AllocError>
    requires key_fits { length parts.key.now < 256 }
    requires data_fits { length parts.data.now < 65536 }
    ensures added { OnOk result (bytes.new.items ≡ bytes.old.items ++ record_bytes number (record_on cylinder head parts.entry.key.now parts.entry.data.now)) }
    ensures kept { OnErr result (bytes.new.items ≡ bytes.old.items) }
{
    let [cc_high, cc_low] = cylinder.to_be_bytes();
    let [hh_high, hh_low] = head.to_be_bytes();
    let key_len = parts.key.len() as u8;
    let [dl_high, dl_low] = (parts.data.len() as u16).to_be_bytes();
    bytes.reserve(COUNT_LEN + parts.key.len() + parts.data.len())?;
    bytes
        .extend_from_slice(&[
            cc_high, cc_low, hh_high, hh_low, number, key_len, dl_high, dl_low,
        ])
        .unwrap();
    bytes.extend_from_slice(parts.key).unwrap();
    bytes.extend_from_slice(parts.data).unwrap();
    Ok(())
}

/// Adds the end marker of a track, and zeros after it until there are `end` bytes; none where there are as many.
///
/// The one error is want of memory, and on it nothing is added.
pub fn push_end(bytes: &mut Vec<u8>, end: usize) -> Result<(), AllocError>
    ensures added { OnOk result (bytes.new.items ≡ bytes.old.items ++ (end_marker ++ replicate (end - (vec_len bytes.old + 8)) 0)) }
    ensures kept { OnErr result (bytes.new.items ≡ bytes.old.items) }
{
    let rest = end.saturating_sub(bytes.len() + END_MARKER.len());
    bytes.reserve(END_MARKER.len() + rest)?;
    bytes.extend_from_slice(END_MARKER).unwrap();
    bytes.resize(bytes.len() + rest, 0).unwrap();
    Ok(())
}

/// Records that are added one after the other are a list of records: their bytes are those of the list, and they may
/// stand on a track where each of them may.
///
/// A record that `push_record` adds may stand on a track of any cylinder below 65,535.
pub fn written_records_law()
    ensures one { (cylinder head r : ℕ) (key content : List ℕ) → cylinder < 65535 → r < 256 → length key < 256 → length content < 65536 → IsRecord r (record_on cylinder head key content) }
    ensures bytes { (r : ℕ) (front back : List Record) → records_bytes r (front ++ back) ≡ records_bytes r front ++ records_bytes (r + length front) back }
    ensures stand { (r : ℕ) (front back : List Record) → AreRecords r front → AreRecords (r + length front) back → AreRecords r (front ++ back) }
{}

/// What is written is read back: the front, records from R1 on and the end marker are a track with these records,
/// whatever stands after them. Up to one of its records, those up to it are read.
pub fn written_track_law()
    ensures track { (cylinder head : ℕ) (records : List Record) (rest : List ℕ) → AreRecords 1 records → IsTrack cylinder head records (track_bytes cylinder head records rest) }
    ensures whole { (cylinder head : ℕ) (records : List Record) (rest : List ℕ) → AreRecords 1 records → records_of cylinder head None (track_bytes cylinder head records rest) ≡ Some records }
    ensures up_to { (cylinder head r : ℕ) (records : List Record) (rest : List ℕ) → AreRecords 1 records → r ≤ length records → records_of cylinder head (Some r) (track_bytes cylinder head records rest) ≡ Some (take r records) }
{}
