//! The grammar of a track.
ghost use Rattle.std.specs.Prelude.{◌≡◌, ◌+◌, ◌*◌, ◌≤◌, ◌<◌, ◌==◌, if◌then◌else◌, List, length, true, false, Some, None, IfOk, OnErr, IfErr, IfSome, IfNone};
ghost use Rattle.ckd_image.specs.Track.{Record, Follows, BreaksAt};
ghost use Rattle.ckd_image.specs.Reading.{records_of, is_at_end, record_length, is_record_at, records_behind, records_to_end, records_up_to};
ghost use Rattle.ckd_image.specs.Break.{break_of, marker_length, front_pattern, pattern_break, record_break, break_behind, break_to_end, break_up_to};
ghost use Rattle.ckd_image.specs.Walk.{IsReadingOf};

use crate::record::{COUNT_LEN, DATA_LENGTH_AT, KEY_LENGTH_AT, NUMBER_AT};
use byteorder::{BigEndian, ByteOrder};

/// The bytes of the home address and R0 of a track, which stand before R1.
pub const FRONT_LEN: usize = 21;

// What stands after the last record.
pub(crate) const END_MARKER: &[u8; 8] = &[0xFF; 8];

/// Where a track breaks the grammar: the offset of the first byte that no such track has there, or
/// the number of bytes where they run out.
#[derive(Clone, Copy, Debug, PartialEq, Eq)]
pub struct BadCount {
    /// From 0, in bytes from the track's home address.
    pub at: u32,
}

/// The number of records after R0 of a track: up to the record R = `upto`, or to the end marker.
///
/// The layout is that of a Hercules CKD image: the home address, R0 without a key and with eight bytes
/// of data, then R1, R2 and so on, each after its count, R rising by one, and eight X'FF'. Free are the
/// first byte, the cylinder and head of each count, keys, data, and all bytes after the end marker. Up
/// to R = `upto` no end marker is needed, but at least eight bytes after that record.
pub fn track_of(bytes: &[u8], cylinder: u16, head: u16, upto: Option<u8>) -> Result<u8, BadCount>
    // The records that are read are those by which the bytes follow the grammar, and no others are.
    ensures reads { IfOk result (λ n. (records : List Record) × (records_of cylinder head upto bytes.now ≡ Some records) × Follows cylinder head upto records bytes.now × (n ≡ length records)) }
    ensures only { (records : List Record) → Follows cylinder head upto records bytes.now → records_of cylinder head upto bytes.now ≡ Some records }
    ensures refuses { OnErr result (records_of cylinder head upto bytes.now ≡ None) }
    ensures breaks { IfErr result (λ e. BreaksAt cylinder head upto bytes.now e.at) }
{
    match walk(bytes, cylinder, head, upto) {
        Ok(records) => Ok(records),
        Err(at) => Err(BadCount { at: at as u32 }),
    }
}

// The number of records after R0 of a track, or the offset of the byte at which it breaks.
fn walk(bytes: &[u8], cylinder: u16, head: u16, upto: Option<u8>) -> Result<u8, usize>
    ensures reading { IsReadingOf (break_of cylinder head upto bytes.now) (records_of cylinder head upto bytes.now) result }
    ensures bound { IfErr result (λ at. at ≤ 255 * 65798 + 29) }
    ensures last_fits { OnErr result (IfSome upto (λ r. r < 256)) }
{
    if let Some(at) = pattern_break(&front_pattern(cylinder, head), bytes) {
        return Err(at);
    }
    match records_behind(&bytes[FRONT_LEN..], upto) {
        Ok(records) => Ok(records),
        Err(at) => Err(FRONT_LEN + at),
    }
}

// The number of records after R0, of which these bytes begin with R1, or the offset at which they break.
fn records_behind(bytes: &[u8], upto: Option<u8>) -> Result<u8, usize>
    ensures reading { IsReadingOf (break_behind upto bytes.now) (records_behind upto bytes.now) result }
    ensures bound { IfErr result (λ at. at ≤ 255 * 65798 + 8) }
    ensures last_fits { IfSome upto (λ r. r < 256) }
{
    match upto {
        None => records_to_end(bytes),
        Some(last) => records_up_to(bytes, last),
    }
}

// The bytes of the home address and R0 that are judged: the track's CC and HH, R, KL and DL.
fn front_pattern(cylinder: u16, head: u16) -> [Option<u8>; FRONT_LEN]
    ensures { result ≡ front_pattern cylinder head }
{
    let [cc_high, cc_low] = cylinder.to_be_bytes();
    let [hh_high, hh_low] = head.to_be_bytes();
    [
        None,
        Some(cc_high),
        Some(cc_low),
        Some(hh_high),
        Some(hh_low),
        None,
        None,
        None,
        None,
        Some(0),
        Some(0),
        Some(0),
        Some(8),
        None,
        None,
        None,
        None,
        None,
        None,
        None,
        None,
    ]
}

// The first place where the bytes run out, or aren't those of the pattern.
fn pattern_break(pattern: &[Option<u8>], bytes: &[u8]) -> Option<usize>
    ensures place { result ≡ pattern_break pattern.now bytes.now }
    ensures within { IfSome result (λ at. at < length pattern.now) }
    ensures room { IfNone result (length pattern.now ≤ length bytes.now) }
{
    for (at, judged) in pattern.iter().enumerate() {
        if at >= bytes.len() {
            return Some(at);
        }
        match *judged {
            None => {}
            Some(expected) => {
                if bytes[at] != expected {
                    return Some(at);
                }
            }
        }
    }
    None
}

// The number of records from R1 on to the end marker, or the offset at which they break.
fn records_to_end(bytes: &[u8]) -> Result<u8, usize>
    ensures reading { IsReadingOf (break_to_end 255 1 bytes.now) (records_to_end 255 1 bytes.now) result }
    ensures bound { IfErr result (λ at. at ≤ 255 * 65798 + 8) }
{
    let mut at = 0;
    for passed in 0..u8::MAX {
        let rest = &bytes[at..];
        if is_at_end(rest) {
            return Ok(passed);
        }
        match record_len(rest, passed + 1, true) {
            Ok(len) => at += len,
            Err(inside) => return Err(at + inside),
        }
    }
    let rest = &bytes[at..];
    if is_at_end(rest) {
        Ok(u8::MAX)
    } else {
        Err(at + marker_len(rest))
    }
}

// The number of records from R1 on up to R = `last`, or the offset at which they, or the eight bytes
// after them, break.
fn records_up_to(bytes: &[u8], last: u8) -> Result<u8, usize>
    ensures reading { IsReadingOf (break_up_to last 1 bytes.now) (records_up_to last 1 bytes.now) result }
    ensures bound { IfErr result (λ at. at ≤ 255 * 65798 + 8) }
{
    let mut at = 0;
    for passed in 0..last {
        let rest = &bytes[at..];
        let r = passed + 1;
        if is_at_end(rest) {
            return Err(at + marker_in_count(r));
        }
        match record_len(rest, r, false) {
            Ok(len) => at += len,
            Err(inside) => return Err(at + inside),
        }
    }
    if bytes.len() - at >= END_MARKER.len() {
        Ok(last)
    } else {
        Err(bytes.len())
    }
}

// The length in bytes of Rr at the front, where no end marker stands, or the offset at which the bytes
// stop being those of an Rr. Where the track may end there, X'FF' may also be the begin of a marker, and
// the offset is that of the first byte that fits neither.
fn record_len(bytes: &[u8], r: u8, may_end: bool) -> Result<usize, usize>
    ensures whole { IfOk result (λ n. (record_break may_end r bytes.now ≡ None) × (is_record_at r bytes.now ≡ true) × (n ≡ record_length bytes.now) × (n ≤ length bytes.now)) }
    ensures broken { IfErr result (λ at. (record_break may_end r bytes.now ≡ Some at) × (is_record_at r bytes.now ≡ false)) }
    ensures most { IfOk result (λ n. n ≤ 65798) }
    ensures bound { IfErr result (λ at. at ≤ 65798) }
{
    let have = bytes.len();
    if have <= NUMBER_AT {
        return Err(have);
    }
    if bytes[NUMBER_AT] != r {
        return Err(if may_end {
            NUMBER_AT.max(marker_len(bytes))
        } else {
            NUMBER_AT
        });
    }
    if have < COUNT_LEN {
        return Err(have);
    }
    let data_len = BigEndian::read_u16(&bytes[DATA_LENGTH_AT..COUNT_LEN]);
    let len = COUNT_LEN + usize::from(bytes[KEY_LENGTH_AT]) + usize::from(data_len);
    if have < len { Err(have) } else { Ok(len) }
}

// How many bytes of an end marker might begin the count of Rr: CC and HH, and for R255 also R, KL
// and the first byte of DL.
fn marker_in_count(r: u8) -> usize
    ensures { result ≡ (if r == 255 then 7 else 4) }
{
    if r == u8::MAX { 7 } else { 4 }
}

// Whether the bytes begin with an end marker.
fn is_at_end(bytes: &[u8]) -> bool
    ensures { result ≡ is_at_end bytes.now }
{
    bytes.starts_with(END_MARKER)
}

// How many of the first eight bytes are X'FF' from the front on.
fn marker_len(bytes: &[u8]) -> usize
    ensures count { result ≡ marker_length bytes.now }
    ensures bound { result ≤ 8 }
{
    bytes
        .iter()
        .take(END_MARKER.len())
        .take_while(|byte| **byte == 0xFF)
        .count()
}
