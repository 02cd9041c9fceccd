//! A buffer for the records of one track, and what reads and writes them.
ghost use Rattle.std.specs.Prelude.{◌≡◌, ◌≤◌, ◌+◌, ◌-◌, ◌++◌, [], length, Some, IsTrue, IfOk, IfErr, OnOk, OnErr, slice_get};
ghost use Rattle.std.specs.Option.{option_map};
ghost use Rattle.hall_core.specs.Facts.{DeviceCall, unit_of};
ghost use Rattle.stop_model.specs.Files.{AfterWrite, patched};
ghost use Rattle.hall_core.specs.Images.{image_of};
ghost use Rattle.stop_model.specs.Moments.{Same};
ghost use Rattle.pack_spec.specs.Label.{records_on, track_bytes};
ghost use Rattle.track_records.specs.Buffers.{IsContentOf, IsPartOf};
ghost use Rattle.track_records.specs.Calls.{HasTrack, TrackCall};
ghost use Rattle.track_records.specs.Reads.{IsBroken};
ghost use Rattle.track_records.specs.Updates.{HasLengths, offset_of, with_parts};
ghost use Rattle.track_records.specs.Written.{place_of, IsUpdated, StandsOn};

use crate::error::TrackErr;
use crate::places::put_places;
use ckd_image::{COUNT_LEN, Geometry, HEADER_LEN, RecordParts, record_at};
use hall_core::{Device, Hall, HallErr};
use std::alloc::{AllocError, Global};
use std::marker::Model;

// The most records after R0 of a track.
const MOST_RECORDS: usize = 255;

/// The records of one track, as they were read or written last.
///
/// A buffer is made for the tracks of packs of one geometry and takes all of its memory then. Records
/// are counted by their R, from 1 to 255.
#[derive(Debug, Drop)]
pub struct TrackBuf {
    pub(crate) geometry: Geometry,
    pub(crate) unit: u8,
    pub(crate) track: u16,
    pub(crate) bytes: Vec<u8>,
    pub(crate) places: Vec<usize>,
}

impl Model for TrackBuf {
    ghost use Rattle.std.specs.Prelude.{◌≡◌, ◌≤◌, length, vec_capacity, IsTrue};
    ghost use Rattle.track_records.specs.Buffers.{Buffer, records_at, are_places};

    ghost Value = { Buffer };

    ghost view = { λ b. record { geometry = b.geometry; unit = b.unit; track = b.track; records = records_at b.bytes.items b.places.items } };

    ghost invariant = { λ b. IsTrue (are_places 1 21 b.bytes.items b.places.items) × ((255 ≤ vec_capacity b.places) × (length b.bytes.items ≡ b.geometry.track_size)) };
}

impl TrackBuf {
    /// A buffer without records for the tracks of a pack of this geometry. Fails only for want of memory.
    pub fn new(alloc: Global, geometry: &Geometry) -> Result<TrackBuf, AllocError>
        ensures { IfOk result (λ b. b ≡ record
            { geometry = geometry.now; unit = 0; track = 0; records = [] }) }
    {
        let bytes = vec![in alloc; 0; geometry.track_size as usize]?;
        let places = Vec::with_capacity(alloc, MOST_RECORDS)?;
        Ok(TrackBuf {
            geometry: *geometry,
            unit: 0,
            track: 0,
            bytes,
            places,
        })
    }

    /// Makes it the empty buffer of a track, which is counted from 0 over the unit.
    pub fn clear(&mut self, unit: u8, track: u16)
        ensures { self.new ≡ record self.old { unit = unit; track = track; records = [] } }
    {
        self.unit = unit;
        self.track = track;
        self.places.clear();
    }

    /// The number of records after R0 that the buffer holds.
    pub fn len(&self) -> usize
        ensures { result ≡ length self.now.records }
    {
        self.places.len()
    }

    /// The track that the buffer is of, counted from 0 over the unit.
    pub fn track(&self) -> u16
        ensures { result ≡ self.now.track }
    {
        self.track
    }

    /// The key of Rr, at most 255 bytes.
    pub fn key(&self, r: u8) -> &[u8]
        requires first { 1 ≤ r }
        requires last { r ≤ length self.now.records }
        ensures { option_map (λ x. x.key) (slice_get self.now.records (r - 1)) ≡ Some result.now }
    {
        self.parts(r).key
    }

    /// The data of Rr, at most 65,535 bytes.
    pub fn data(&self, r: u8) -> &[u8]
        requires first { 1 ≤ r }
        requires last { r ≤ length self.now.records }
        ensures { option_map (λ x. x.data) (slice_get self.now.records (r - 1)) ≡ Some result.now }
    {
        self.parts(r).data
    }

    // Puts this key and these data in the place of those of Rr, which have the same lengths, and gives
    // the offset of the key from the track's home address.
    fn put(&mut self, r: u8, key: &[u8], payload: &[u8]) -> usize
        requires first { 1 ≤ r }
        requires there { HasLengths self.old.records (r - 1) (length key.now) (length payload.now) }
        ensures place { result ≡ 21 + offset_of self.old.records (r - 1) + 8 }
        ensures inside { result + length (key.now ++ payload.now) ≤ self.old.geometry.track_size }
        ensures buffer { self.new ≡ record self.old
            { records = with_parts (r - 1) key.now payload.now self.old.records } }
    {
        let place = self.places[usize::from(r) - 1] + COUNT_LEN;
        put_parts(&mut self.bytes, place, key, payload);
        place
    }

    // The key and the data of Rr, one after the other.
    fn content(&self, r: u8) -> &[u8]
        requires first { 1 ≤ r }
        requires last { r ≤ length self.now.records }
        ensures { IsContentOf (slice_get self.now.records (r - 1)) result.now }
    {
        let at = self.places[usize::from(r) - 1];
        let bytes = &self.bytes[at..];
        let (parts, _rest) = record_at(bytes, r).unwrap();
        &bytes[COUNT_LEN..COUNT_LEN + parts.key.len() + parts.data.len()]
    }

    // The key and the data of Rr.
    fn parts(&self, r: u8) -> RecordParts<'_>
        requires first { 1 ≤ r }
        requires last { r ≤ length self.now.records }
        ensures { IsPartOf (slice_get self.now.records (r - 1)) result.key.now result.data.now }
    {
        let at = self.places[usize::from(r) - 1];
        let (parts, _rest) = record_at(&self.bytes[at..], r).unwrap();
        parts
    }
}

/// Reads the records after R0 of a track into the buffer, up to the record R = `upto` or to the end
/// marker, and gives their number.
///
/// The track is counted from 0 over the unit. It is read in one read, and follows the grammar of
/// `track_of` in `ckd_image`, that of a Hercules image.
///
/// `BadCount` names the byte at which the track breaks that grammar, before R = `upto` is whole or
/// before the end marker; so it does where the record that is asked for isn't there. `Device` comes only
/// where the read failed and the count of device faults rose. After an error the buffer holds no record.
pub fn read_records<H: Hall>(
    hall: &mut H,
    unit: u8,
    track: u16,
    upto: Option<u8>,
    buf: &mut TrackBuf,
) -> Result<u8, TrackErr>
    requires { HasTrack (H.facts hall.old).units unit buf.old.geometry track }
    ensures count { IfOk result (λ n. length buf.new.records ≡ n) }
    ensures buffer { buf.new ≡ record buf.old
        { unit = unit; track = track; records = buf.new.records } }
    ensures none { OnErr result (buf.new.records ≡ []) }
    ensures read { IsTrue H.tells → IfOk result
        (λ _. records_on (image_of (H.meaning hall.old).state (H.facts hall.old) unit)
        buf.old.geometry upto track ≡ Some buf.new.records) }
    ensures broken { IsTrue H.tells → IfErr result
        (λ e. IsBroken (image_of (H.meaning hall.old).state (H.facts hall.old) unit)
        buf.old.geometry upto track e) }
    ensures files { IsTrue H.tells → Same (H.meaning hall.old) (H.meaning hall.new) }
    ensures faults { TrackCall (H.facts hall.old) (H.facts hall.new) result }
{
    buf.unit = unit;
    buf.track = track;
    buf.places.clear();
    let geometry = buf.geometry;
    let Ok(()) = fill(hall, unit, geometry, track, &mut buf.bytes) else {
        return Err(TrackErr::Device);
    };
    let heads = u16::from(geometry.device.heads());
    put_places(
        &buf.bytes,
        track / heads,
        track % heads,
        upto,
        &mut buf.places,
    )
}

// Fills a vector of a track's length with the bytes of a track; one read.
fn fill<H: Hall>(
    hall: &mut H,
    unit: u8,
    geometry: Geometry,
    track: u16,
    bytes: &mut Vec<u8>,
) -> Result<(), HallErr>
    requires track { HasTrack (H.facts hall.old).units unit geometry track }
    requires room { length bytes.old.items ≡ geometry.track_size }
    ensures size { length bytes.new.items ≡ geometry.track_size }
    ensures read { IsTrue H.tells → OnOk result
        (bytes.new.items ≡ track_bytes (image_of (H.meaning hall.old).state (H.facts hall.old) unit)
        geometry track) }
    ensures files { IsTrue H.tells → Same (H.meaning hall.old) (H.meaning hall.new) }
    ensures faults { DeviceCall (H.facts hall.old) (H.facts hall.new) result }
{
    let at = HEADER_LEN as u64 + u64::from(track) * u64::from(geometry.track_size);
    hall.read(unit, at, bytes)
}

/// Writes this key and these data over those of Rr, which have the same lengths, in one write.
///
/// The write is pending until a sync is done. The error comes only where the count of device faults
/// rose; the write is then pending too, or it was not begun. The buffer holds the new key and data
/// whatever the answer is, so that after an error its track is to be read again.
pub fn update<H: Hall>(
    hall: &mut H,
    buf: &mut TrackBuf,
    r: u8,
    key: &[u8],
    payload: &[u8],
) -> Result<(), Device>
    requires track { HasTrack (H.facts hall.old).units buf.old.unit buf.old.geometry buf.old.track }
    requires first { 1 ≤ r }
    requires there { HasLengths buf.old.records (r - 1) (length key.now) (length payload.now) }
    ensures files { IsTrue H.tells → AfterWrite (unit_of (H.facts hall.old).units buf.old.unit).name
        (place_of buf.old (r - 1)) (key.now ++ payload.now) (H.meaning hall.old)
        (H.meaning hall.new) result }
    ensures record { let image = image_of (H.meaning hall.old).state
        (H.facts hall.old) buf.old.unit in
        IsTrue H.tells → OnOk result (StandsOn image buf.old
        → IsUpdated buf.old (r - 1) key.now payload.now image
        (image_of (H.meaning hall.new).state (H.facts hall.new) buf.old.unit)
        × StandsOn (image_of (H.meaning hall.new).state (H.facts hall.new) buf.old.unit) buf.new) }
    ensures buffer { buf.new ≡ record buf.old
        { records = with_parts (r - 1) key.now payload.now buf.old.records } }
    ensures faults { DeviceCall (H.facts hall.old) (H.facts hall.new) result }
{
    let place = buf.put(r, key, payload);
    let at = HEADER_LEN as u64
        + u64::from(buf.track) * u64::from(buf.geometry.track_size)
        + place as u64;
    hall.write(buf.unit, at, buf.content(r))?;
    Ok(())
}

// Puts a key and data one after the other at an offset of the bytes.
pub(crate) fn put_parts(bytes: &mut [u8], at: usize, key: &[u8], payload: &[u8])
    requires { at + length (key.now ++ payload.now) ≤ length bytes.old }
    ensures { bytes.new ≡ patched bytes.old at (key.now ++ payload.now) }
{
    let middle = at + key.len();
    bytes[at..middle].copy_from_slice(key);
    bytes[middle..middle + payload.len()].copy_from_slice(payload);
}
