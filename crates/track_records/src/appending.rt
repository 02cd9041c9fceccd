//! What writes after the last record of a track.
ghost use Rattle.std.specs.Prelude.{◌≡◌, ◌≤◌, ◌<◌, ◌+◌, ◌*◌, ◌/◌, ◌%◌, ◌++◌, [], ◌∷◌, length, IsTrue, IfOk, OnOk, vec_capacity, if◌then◌else◌};
ghost use Rattle.ckd_image.specs.Track.{end_marker, record_bytes};
ghost use Rattle.ckd_image.specs.Writing.{front_bytes, record_on};
ghost use Rattle.hall_core.specs.Facts.{DeviceCall, name_in};
ghost use Rattle.hall_core.specs.Images.{image_of};
ghost use Rattle.pack_spec.specs.Label.{heads_of};
ghost use Rattle.stop_model.specs.Files.{AfterWrite, patched};
ghost use Rattle.track_records.specs.Appends.{IsAppended, IsPutBehind, IsSealed, MayContinue, continuation, end_of, place_behind, record_of, with_more};
ghost use Rattle.track_records.specs.Buffers.{are_places, records_at};
ghost use Rattle.track_records.specs.Calls.{HasTrack};
ghost use Rattle.track_records.specs.Updates.{offset_of};
ghost use Rattle.track_records.specs.Written.{StandsOn};

use crate::buffer::{TrackBuf, put_parts};
use ckd_image::{COUNT_LEN, FRONT_LEN, Geometry, HEADER_LEN, record_at};
use hall_core::{Device, Hall};

// What stands after the last record of a track.
const END_MARKER: [u8; 8] = [0xFF; 8];

/// Writes a record after the last one of the buffer, and the end marker after it, in one write, and
/// gives its R.
///
/// If the buffer holds no record, the write begins with the home address and R0: the track begins anew.
/// The write is pending until a sync is done. The error comes only where the count of device faults
/// rose; the write is then pending too, or it was not begun. The buffer holds the record whatever the
/// answer is, so that after an error its track is to be read again.
pub fn append<H: Hall>(
    hall: &mut H,
    buf: &mut TrackBuf,
    key: &[u8],
    payload: &[u8],
) -> Result<u8, Device>
    requires track { HasTrack (H.facts hall.old).units buf.old.unit buf.old.geometry buf.old.track }
    requires few { length buf.old.records < 255 }
    requires key_fits { length key.now < 256 }
    requires data_fits { length payload.now < 65536 }
    requires room { end_of buf.old + (8 + length key.now + length payload.now) + 8
        ≤ buf.old.geometry.track_size }
    ensures files { IsTrue H.tells → AfterWrite (name_in (H.facts hall.old) buf.old.unit)
        (place_behind buf.old) (continuation buf.old (record_of buf.old key.now payload.now ∷ []))
        (H.meaning hall.old) (H.meaning hall.new) result }
    ensures pending { let image = image_of (H.meaning hall.old).state
        (H.facts hall.old) buf.old.unit in
        IsTrue H.tells → MayContinue image buf.old
        → IsAppended buf.old key.now payload.now image (patched image (place_behind buf.old)
        (continuation buf.old (record_of buf.old key.now payload.now ∷ []))) }
    ensures record { let image = image_of (H.meaning hall.old).state
        (H.facts hall.old) buf.old.unit in
        IsTrue H.tells → OnOk result (MayContinue image buf.old
        → IsAppended buf.old key.now payload.now image
        (image_of (H.meaning hall.new).state (H.facts hall.new) buf.old.unit)
        × StandsOn (image_of (H.meaning hall.new).state (H.facts hall.new) buf.old.unit) buf.new) }
    ensures buffer { buf.new ≡ with_more buf.old (record_of buf.old key.now payload.now ∷ []) }
    ensures number { IfOk result (λ r. r ≡ length buf.new.records) }
    ensures faults { DeviceCall (H.facts hall.old) (H.facts hall.new) result }
{
    let (start, end) = put_next(
        &mut buf.bytes,
        &mut buf.places,
        buf.geometry,
        buf.track,
        key,
        payload,
    );
    write_part(
        hall,
        buf.unit,
        buf.geometry,
        buf.track,
        start,
        &buf.bytes[start..end],
    )?;
    Ok(buf.places.len() as u8)
}

/// Writes the end marker after the last record of the buffer, in one write.
///
/// If the buffer holds no record, the write begins with the home address and R0: the track begins anew,
/// and has no record. The write is pending until a sync is done. The error comes only where the count of
/// device faults rose; the write is then pending too, or it was not begun.
pub fn seal<H: Hall>(hall: &mut H, buf: &mut TrackBuf) -> Result<(), Device>
    requires track { HasTrack (H.facts hall.old).units buf.old.unit buf.old.geometry buf.old.track }
    requires few { length buf.old.records ≤ 255 }
    requires room { end_of buf.old + 8 ≤ buf.old.geometry.track_size }
    ensures files { IsTrue H.tells → AfterWrite (name_in (H.facts hall.old) buf.old.unit)
        (place_behind buf.old) (continuation buf.old []) (H.meaning hall.old) (H.meaning hall.new)
        result }
    ensures pending { let image = image_of (H.meaning hall.old).state
        (H.facts hall.old) buf.old.unit in
        IsTrue H.tells → MayContinue image buf.old
        → IsSealed buf.old image
        (patched image (place_behind buf.old) (continuation buf.old [])) }
    ensures record { let image = image_of (H.meaning hall.old).state
        (H.facts hall.old) buf.old.unit in
        IsTrue H.tells → OnOk result (MayContinue image buf.old
        → IsSealed buf.old image
        (image_of (H.meaning hall.new).state (H.facts hall.new) buf.old.unit)
        × StandsOn (image_of (H.meaning hall.new).state (H.facts hall.new) buf.old.unit) buf.new) }
    ensures buffer { buf.new ≡ buf.old }
    ensures faults { DeviceCall (H.facts hall.old) (H.facts hall.new) result }
{
    let (start, end) = put_end(&mut buf.bytes, &buf.places, buf.geometry, buf.track);
    write_part(
        hall,
        buf.unit,
        buf.geometry,
        buf.track,
        start,
        &buf.bytes[start..end],
    )
}

// Writes bytes over those of a track, from an offset on, in one write.
fn write_part<H: Hall>(
    hall: &mut H,
    unit: u8,
    geometry: Geometry,
    track: u16,
    start: usize,
    part: &[u8],
) -> Result<(), Device>
    requires track { HasTrack (H.facts hall.old).units unit geometry track }
    requires inside { start + length part.now ≤ geometry.track_size }
    ensures files { IsTrue H.tells → AfterWrite (name_in (H.facts hall.old) unit)
        (512 + track * geometry.track_size + start) part.now (H.meaning hall.old)
        (H.meaning hall.new) result }
    ensures faults { DeviceCall (H.facts hall.old) (H.facts hall.new) result }
{
    let at = HEADER_LEN as u64 + u64::from(track) * u64::from(geometry.track_size) + start as u64;
    hall.write(unit, at, part)?;
    Ok(())
}

// Puts a record and the end marker after the records of a track, and gives where what is to be written
// begins and ends.
fn put_next(
    bytes: &mut [u8],
    places: &mut Vec<usize>,
    geometry: Geometry,
    track: u16,
    key: &[u8],
    payload: &[u8],
) -> (usize, usize)
    requires are { IsTrue (are_places 1 21 bytes.old places.old.items) }
    requires few { length places.old.items < 255 }
    requires places { 255 ≤ vec_capacity places.old }
    requires key_fits { length key.now < 256 }
    requires data_fits { length payload.now < 65536 }
    requires room { let xs = records_at bytes.old places.old.items in
        21 + offset_of xs (length xs) + (8 + length key.now + length payload.now) + 8
        ≤ length bytes.old }
    ensures put { let cylinder = track / heads_of geometry in
        let head = track % heads_of geometry in
        IsPutBehind cylinder head (record_on cylinder head key.now payload.now ∷ []) bytes.old
        places.old.items bytes.new places.new.items result }
    ensures places { 255 ≤ vec_capacity places.new }
{
    let at = end_of(bytes, places);
    let number = places.len() as u8 + 1;
    let heads = geometry.device.heads();
    let cylinder = track / heads;
    let head = track % heads;
    let start = begin(bytes, cylinder, head, at, places.is_empty());
    put_record(bytes, at, cylinder, head, number, key, payload);
    places.push(at).unwrap();
    (
        start,
        at + COUNT_LEN + key.len() + payload.len() + END_MARKER.len(),
    )
}

// Puts the end marker after the records of a track, and gives where what is to be written begins and
// ends.
fn put_end(bytes: &mut [u8], places: &[usize], geometry: Geometry, track: u16) -> (usize, usize)
    requires are { IsTrue (are_places 1 21 bytes.old places.now) }
    requires few { length places.now ≤ 255 }
    requires room { let xs = records_at bytes.old places.now in
        21 + offset_of xs (length xs) + 8 ≤ length bytes.old }
    ensures put { IsPutBehind (track / heads_of geometry) (track % heads_of geometry) [] bytes.old
        places.now bytes.new places.now result }
{
    let at = end_of(bytes, places);
    let heads = geometry.device.heads();
    let start = begin(bytes, track / heads, track % heads, at, places.is_empty());
    let end = at + END_MARKER.len();
    bytes[at..end].copy_from_slice(&END_MARKER);
    (start, end)
}

// Where the records of a track end: the first byte after the last of them, or after R0.
fn end_of(bytes: &[u8], places: &[usize]) -> usize
    requires are { IsTrue (are_places 1 21 bytes.now places.now) }
    requires few { length places.now ≤ 255 }
    ensures { let xs = records_at bytes.now places.now in result ≡ 21 + offset_of xs (length xs) }
{
    if places.is_empty() {
        return FRONT_LEN;
    }
    let at = places[places.len() - 1];
    let (_parts, rest) = record_at(&bytes[at..], places.len() as u8).unwrap();
    bytes.len() - rest.len()
}

// Puts the home address and R0 at the begin of a track that has no records, and gives where what is to
// be written after an offset begins.
fn begin(bytes: &mut [u8], cylinder: u16, head: u16, at: usize, fresh: bool) -> usize
    requires { 21 ≤ length bytes.old }
    ensures start { result ≡ (if fresh then 0 else at) }
    ensures front { bytes.new
        ≡ (if fresh then patched bytes.old 0 (front_bytes cylinder head) else bytes.old) }
{
    if !fresh {
        return at;
    }
    let [cc_high, cc_low] = cylinder.to_be_bytes();
    let [hh_high, hh_low] = head.to_be_bytes();
    bytes[..FRONT_LEN].copy_from_slice(&[
        0, cc_high, cc_low, hh_high, hh_low, cc_high, cc_low, hh_high, hh_low, 0, 0, 0, 8, 0, 0, 0,
        0, 0, 0, 0, 0,
    ]);
    0
}

// Puts a record at an offset of a track's bytes, and the end marker after it.
fn put_record(
    bytes: &mut [u8],
    at: usize,
    cylinder: u16,
    head: u16,
    number: u8,
    key: &[u8],
    payload: &[u8],
)
    requires key_fits { length key.now < 256 }
    requires data_fits { length payload.now < 65536 }
    requires room { at + (8 + length key.now + length payload.now) + 8 ≤ length bytes.old }
    ensures { bytes.new ≡ patched bytes.old at
        (record_bytes number (record_on cylinder head key.now payload.now) ++ end_marker) }
{
    let [cc_high, cc_low] = cylinder.to_be_bytes();
    let [hh_high, hh_low] = head.to_be_bytes();
    let [dl_high, dl_low] = (payload.len() as u16).to_be_bytes();
    let count = [
        cc_high,
        cc_low,
        hh_high,
        hh_low,
        number,
        key.len() as u8,
        dl_high,
        dl_low,
    ];
    put_parts(bytes, at, &count, key);
    put_parts(bytes, at + COUNT_LEN + key.len(), payload, &END_MARKER);
}
