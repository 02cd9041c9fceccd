//! Where the records of a track stand.
ghost use Rattle.std.specs.Prelude.{◌≡◌, ◌≤◌, ◌+◌, [], length, IsTrue, vec_capacity, Some, IfOk, IfErr, OnErr};
ghost use Rattle.ckd_image.specs.Reading.{records_of};
ghost use Rattle.track_records.specs.Buffers.{are_places, places_from, records_at};
ghost use Rattle.track_records.specs.Reads.{IsBrokenTrack};

use crate::error::TrackErr;
use ckd_image::{BadCount, FRONT_LEN, record_at, track_of};

// Puts the offsets of the records after R0 of a track, up to the record R = `upto` or to the end
// marker, into an empty vector that has room for them, and gives their number; puts none where the
// track breaks the grammar.
pub(crate) fn put_places(
    bytes: &[u8],
    cylinder: u16,
    head: u16,
    upto: Option<u8>,
    places: &mut Vec<usize>,
) -> Result<u8, TrackErr>
    requires empty { places.old.items ≡ [] }
    requires room { 255 ≤ vec_capacity places.old }
    ensures count { IfOk result (λ n. length places.new.items ≡ n) }
    ensures records { IfOk result (λ _. records_of cylinder head upto bytes.now
        ≡ Some (records_at bytes.now places.new.items)) }
    ensures are { IsTrue (are_places 1 21 bytes.now places.new.items) }
    ensures broken { IfErr result (λ e. IsBrokenTrack cylinder head upto bytes.now e) }
    ensures none { OnErr result (places.new.items ≡ []) }
    ensures error { IfErr result (λ e. e ≡ TrackErr.Device → ⊥) }
    ensures room { 255 ≤ vec_capacity places.new }
{
    match track_of(bytes, cylinder, head, upto) {
        Ok(count) => {
            walk(bytes, count, places);
            Ok(count)
        }
        Err(BadCount { at }) => Err(TrackErr::BadCount { at }),
    }
}

// Puts the offsets of so many records, from R1 on, into an empty vector that has room for them.
fn walk(bytes: &[u8], count: u8, places: &mut Vec<usize>)
    requires empty { places.old.items ≡ [] }
    requires room { 255 ≤ vec_capacity places.old }
    requires stand { IsTrue (are_places 1 21 bytes.now (places_from 21 count bytes.now)) }
    requires front { 21 ≤ length bytes.now }
    ensures places { places.new.items ≡ places_from 21 count bytes.now }
    ensures room { 255 ≤ vec_capacity places.new }
{
    let mut at = FRONT_LEN;
    for passed in 0..count {
        let (_parts, rest) = record_at(&bytes[at..], passed + 1).unwrap();
        places.push(at).unwrap();
        at = bytes.len() - rest.len();
    }
}
