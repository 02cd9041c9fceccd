//! One record of a data set, written over and made durable.
ghost use Rattle.std.specs.Prelude.{◌≡◌, ◌≤◌, ◌<◌, ◌-◌, ◌&&◌, ◌==◌, ℕ, false, IfOk, IsTrue, OnOk, Some, length, slice_get};
ghost use Rattle.std.specs.Option.{option_map};
ghost use Rattle.hall_core.specs.Facts.{DeviceCall, unit_of};
ghost use Rattle.hall_core.specs.Images.{image_in};
ghost use Rattle.stop_model.specs.Moments.{IsDurable, Same};
ghost use Rattle.pack_spec.specs.Label.{records_on, tracks_of};
ghost use Rattle.track_records.specs.Calls.{HasTrack};
ghost use Rattle.track_records.specs.Updates.{HasLengths};
ghost use Rattle.vtoc_index.specs.Index.{IsMounted, IsOfUnit};
ghost use Rattle.vtoc_sets.specs.Sets.{HasSet};
ghost use Rattle.set_records.specs.Rewriting.{AreHeld, HasRecord, HoldsRecord, IsReadUpTo, RewritesRecord};

use dscb_codec::F1;
use free_rebuild::make_durable;
use hall_core::{Device, Hall};
use track_records::{TrackBuf, TrackErr, read_records, update};
use vol_model::Place;
use vtoc_index::Vol;
use vtoc_sets::track_at;

/// Writes this key and these data over those of a record of a data set, which have the same lengths, and makes that
/// durable. Its place counts the tracks of the set from 0, and the records of a track from 1.
///
/// A stop leaves the image as before, or with that record. `Device` comes only where the count of its faults rose;
/// then the write is pending, done, or not begun.
pub fn rewrite_record<H: Hall>(
    hall: &mut H,
    vol: &mut Vol,
    set: &F1,
    place: Place,
    key: &[u8],
    payload: &[u8],
) -> Result<(), Device>
    requires unit { IsOfUnit (H.facts hall.old).units vol.old }
    requires record_number { 1 ≤ place.r }
    requires set { let image = image_in (H.meaning hall.old) (H.facts hall.old) vol.old.unit in
        IsTrue H.tells → HasSet image vol.old set.now }
    requires there { let image = image_in (H.meaning hall.old) (H.facts hall.old) vol.old.unit in
        IsTrue H.tells → HasRecord image vol.old set.now place (length key.now) (length payload.now) }
    requires durable { IsTrue H.tells → IsDurable (H.meaning hall.old) }
    ensures files { IsTrue H.tells → RewritesRecord
        (unit_of (H.facts hall.old).units vol.old.unit).name vol.old set.now place key.now payload.now
        vol.new.buf (H.meaning hall.old) (H.meaning hall.new) result }
    ensures others { vol.new ≡ record vol.old { buf = vol.new.buf } }
    ensures unit { IsOfUnit (H.facts hall.new).units vol.new }
    ensures faults { DeviceCall (H.facts hall.old) (H.facts hall.new) result }
{
    hold_record(hall, vol, set, place, key.len(), payload.len())?;
    update(hall, &mut vol.buf, place.r, key, payload)?;
    make_durable(hall)
}

// Makes the buffer of the index hold the records of a set's track up to one whose key and data have these lengths.
fn hold_record<H: Hall>(
    hall: &mut H,
    vol: &mut Vol,
    set: &F1,
    place: Place,
    keys: usize,
    contents: usize,
) -> Result<(), Device>
    requires unit { IsOfUnit (H.facts hall.old).units vol.old }
    requires record_number { 1 ≤ place.r }
    requires set { let image = image_in (H.meaning hall.old) (H.facts hall.old) vol.old.unit in
        IsTrue H.tells → HasSet image vol.old set.now }
    requires there { let image = image_in (H.meaning hall.old) (H.facts hall.old) vol.old.unit in
        IsTrue H.tells → HasRecord image vol.old set.now place keys contents }
    ensures held { let image = image_in (H.meaning hall.old) (H.facts hall.old) vol.old.unit in
        IsTrue H.tells → OnOk result (HoldsRecord image vol.new set.now place) }
    ensures lengths { OnOk result (HasLengths vol.new.buf.records (place.r - 1) keys contents) }
    ensures track { OnOk result (HasTrack (H.facts hall.new).units vol.new.buf.unit
        vol.new.buf.geometry vol.new.buf.track) }
    ensures same { IsTrue H.tells → Same (H.meaning hall.old) (H.meaning hall.new) }
    ensures others { vol.new ≡ record vol.old { buf = vol.new.buf } }
    ensures unit { IsOfUnit (H.facts hall.new).units vol.new }
    ensures faults { DeviceCall (H.facts hall.old) (H.facts hall.new) result }
{
    let Some(track) = track_at(vol, set, place.tt) else {
        hall.differs(vol.unit, vol.vtoc.start);
        return Err(Device);
    };
    if !holds_record(hall, vol, track, place.r, keys, contents)? {
        hall.differs(vol.unit, track);
        return Err(Device);
    }
    Ok(())
}

// Reads a track up to a record; whether it could be read so far, and that record has a key and data of these lengths.
fn holds_record<H: Hall>(
    hall: &mut H,
    vol: &mut Vol,
    track: u16,
    r: u8,
    keys: usize,
    contents: usize,
) -> Result<bool, Device>
    requires unit { IsOfUnit (H.facts hall.old).units vol.old }
    requires track { track < tracks_of vol.old.geometry }
    requires first { 1 ≤ r }
    requires mounted { let image = image_in (H.meaning hall.old) (H.facts hall.old) vol.old.unit in
        IsTrue H.tells → IsMounted image vol.old }
    ensures held { let image = image_in (H.meaning hall.old) (H.facts hall.old) vol.old.unit in
        IsTrue H.tells → IfOk result (λ held. AreHeld held keys contents
        (records_on image vol.old.geometry (Some r) track) vol.new.buf.records (r - 1)) }
    ensures lengths { IfOk result (λ held. IsTrue held
        → HasLengths vol.new.buf.records (r - 1) keys contents) }
    ensures track { vol.new.buf.track ≡ track }
    ensures same { IsTrue H.tells → Same (H.meaning hall.old) (H.meaning hall.new) }
    ensures others { vol.new ≡ record vol.old { buf = vol.new.buf } }
    ensures unit { IsOfUnit (H.facts hall.new).units vol.new }
    ensures faults { DeviceCall (H.facts hall.old) (H.facts hall.new) result }
{
    if !read_up_to(hall, vol, track, r)? {
        return Ok(false);
    }
    Ok(has_record(&vol.buf, r, keys, contents))
}

// Reads a track up to a record; whether it could be read so far.
fn read_up_to<H: Hall>(hall: &mut H, vol: &mut Vol, track: u16, r: u8) -> Result<bool, Device>
    requires unit { IsOfUnit (H.facts hall.old).units vol.old }
    requires track { track < tracks_of vol.old.geometry }
    requires mounted { let image = image_in (H.meaning hall.old) (H.facts hall.old) vol.old.unit in
        IsTrue H.tells → IsMounted image vol.old }
    ensures read { let image = image_in (H.meaning hall.old) (H.facts hall.old) vol.old.unit in
        IsTrue H.tells → IfOk result (λ read. IsReadUpTo read
        (records_on image vol.old.geometry (Some r) track) vol.new.buf.records) }
    ensures track { vol.new.buf.track ≡ track }
    ensures same { IsTrue H.tells → Same (H.meaning hall.old) (H.meaning hall.new) }
    ensures others { vol.new ≡ record vol.old { buf = vol.new.buf } }
    ensures unit { IsOfUnit (H.facts hall.new).units vol.new }
    ensures faults { DeviceCall (H.facts hall.old) (H.facts hall.new) result }
{
    match read_records(hall, vol.unit, track, Some(r), &mut vol.buf) {
        Ok(_count) => Ok(true),
        Err(TrackErr::BadCount { .. }) => Ok(false),
        Err(TrackErr::Device) => Err(Device),
    }
}

// Whether a buffer holds Rr, with a key and data of these lengths.
fn has_record(buf: &TrackBuf, r: u8, keys: usize, contents: usize) -> bool
    requires { 1 ≤ r }
    ensures lengths { IsTrue result → HasLengths buf.now.records (r - 1) keys contents }
    ensures other { result ≡ false → HasLengths buf.now.records (r - 1) keys contents → ⊥ }
{
    usize::from(r) <= buf.len() && are_lengths(buf, r, keys, contents)
}

// Whether the key and the data of Rr of a buffer have these lengths.
fn are_lengths(buf: &TrackBuf, r: u8, keys: usize, contents: usize) -> bool
    requires first { 1 ≤ r }
    requires last { r ≤ length buf.now.records }
    ensures { option_map (λ x. (length x.key == keys) && (length x.data == contents))
        (slice_get buf.now.records (r - 1)) ≡ Some result }
{
    buf.key(r).len() == keys && buf.data(r).len() == contents
}
