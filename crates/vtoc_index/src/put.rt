//! One slot of a VTOC, written over.
ghost use Rattle.std.specs.Prelude.{◌≡◌, ◌⊎◌, ◌<◌, ◌≤◌, ◌+◌, ◌-◌, [], length, filter, nat_le, slice_index, List, IsOk, IsTrue, OnOk};
ghost use Rattle.hall_core.specs.Facts.{Attached, DeviceCall, unit_of};
ghost use Rattle.hall_core.specs.Images.{image_in};
ghost use Rattle.stop_model.specs.Moments.{Same};
ghost use Rattle.track_records.specs.Calls.{HasTrack};
ghost use Rattle.track_records.specs.Updates.{HasLengths};
ghost use Rattle.track_records.specs.Written.{StandsOn};
ghost use Rattle.vtoc_index.specs.Index.{AreFirsts, IsIndexOf, address_in, IsOfUnit, slots_in_front, track_index};
ghost use Rattle.vtoc_index.specs.Puts.{AfterPut, HasSlot, IsHeld, IsWith};

use crate::vol::Vol;
use dscb_codec::{Dscb, encode};
use hall_core::{Device, Hall};
use pack_spec::layout::{DATA_LEN, KEY_LEN};
use pack_spec::record_address;
use track_records::{TrackBuf, TrackErr, read_records, update};

// Where a slot stands.
#[derive(Clone, Copy)]
struct Place {
    // The track, counted from 0 over the unit.
    track: u16,
    // The R of its record there.
    number: u8,
}

/// Changes one slot of the VTOC, counted from 0 over its tracks, in one write of its 140 bytes.
///
/// The write is pending until a sync is done; a stop leaves it whole or absent. `Device` comes where the
/// track can't be read, or no slot is found there any more, with nothing written; or where the write fails,
/// which is pending then or was not begun. Then the index keeps the old DSCB, its buffer may have the new
/// one, and it may be the index of no image any more, so no slot can be put by it.
///
/// The bytes follow System Control Blocks, GC28-6628; that one write holds them is this project's profile.
pub fn put_slot<H: Hall>(hall: &mut H, vol: &mut Vol, slot: u32, dscb: &Dscb) -> Result<(), Device>
    requires unit { IsOfUnit (H.facts hall.old).units vol.old }
    requires slot { slot < length vol.old.slots.items }
    requires index { let image = image_in (H.meaning hall.old) (H.facts hall.old) vol.old.unit in
        IsTrue H.tells → IsIndexOf image vol.old }
    ensures files { let image = image_in (H.meaning hall.old) (H.facts hall.old) vol.old.unit in
        IsTrue H.tells → AfterPut (unit_of (H.facts hall.old).units vol.old.unit).name vol.old slot
        dscb.now vol.new image (image_in (H.meaning hall.new) (H.facts hall.new) vol.old.unit)
        (H.meaning hall.old) (H.meaning hall.new) result }
    ensures index { IsWith slot dscb.now vol.old vol.new result }
    ensures unit { IsOfUnit (H.facts hall.new).units vol.new }
    ensures faults { DeviceCall (H.facts hall.old) (H.facts hall.new) result }
{
    let place = place_of(vol, slot);
    let bytes = encode(dscb);
    hold(hall, vol.unit, place, &mut vol.buf)?;
    let (key, payload) = bytes.split_at(KEY_LEN);
    update(hall, &mut vol.buf, place.number, key, payload)?;
    vol.slots[slot as usize] = *dscb;
    Ok(())
}

/// The address CCHHR of a slot of the VTOC: cylinder and head, two bytes each with the high one first, and
/// record (System Control Blocks GC28-6628).
pub fn slot_address(vol: &Vol, slot: u32) -> [u8; 5]
    requires unit { (units : List Attached) × IsOfUnit units vol.now }
    requires slot { slot < length vol.now.slots.items }
    ensures { result ≡ address_in vol.now slot }
{
    let place = place_of(vol, slot);
    record_address(vol.geometry, place.track, place.number)
}

// Where a slot stands.
fn place_of(vol: &Vol, slot: u32) -> Place
    requires firsts { AreFirsts 0 vol.now.firsts.items (length vol.now.slots.items) }
    requires few { length vol.now.firsts.items ≤ 257 }
    requires fits { vol.now.vtoc.start + length vol.now.firsts.items < 65536 }
    requires slot { slot < length vol.now.slots.items }
    ensures inside { track_index vol.now.firsts.items slot < length vol.now.firsts.items }
    ensures track { result.track ≡ vol.now.vtoc.start + track_index vol.now.firsts.items slot }
    ensures number { result.number ≡ slots_in_front vol.now.firsts.items slot + 1 }
{
    let index = index_of(vol, slot);
    let front = slot - vol.firsts[index];
    Place {
        track: vol.vtoc.start + index as u16,
        number: front as u8 + 1,
    }
}

// Which track of the VTOC holds a slot, counted from 0.
fn index_of(vol: &Vol, slot: u32) -> usize
    requires firsts { AreFirsts 0 vol.now.firsts.items (length vol.now.slots.items) }
    requires slot { slot < length vol.now.slots.items }
    ensures exact { result ≡ track_index vol.now.firsts.items slot }
    ensures inside { result < length vol.now.firsts.items }
    ensures low { slice_index vol.now.firsts.items result ≤ slot }
    ensures near { slot < slice_index vol.now.firsts.items result + 255 }
{
    passed(&vol.firsts, slot) - 1
}

// How many of these first slots don't stand after a slot.
fn passed(firsts: &[u32], slot: u32) -> usize
    ensures { result ≡ length (filter (λ first. nat_le first slot) firsts.now) }
{
    firsts.iter().filter(|first| **first <= slot).count()
}

// Makes the buffer hold a record of its unit that is a slot; reads the track where it doesn't.
fn hold<H: Hall>(hall: &mut H, unit: u8, place: Place, buf: &mut TrackBuf) -> Result<(), Device>
    requires unit { buf.old.unit ≡ unit }
    requires track { HasTrack (H.facts hall.old).units unit buf.old.geometry place.track }
    requires first { 1 ≤ place.number }
    requires there { let image = image_in (H.meaning hall.old) (H.facts hall.old) unit in
        IsTrue H.tells → HasSlot image buf.old.geometry place.track place.number }
    requires held { let image = image_in (H.meaning hall.old) (H.facts hall.old) unit in
        IsTrue H.tells → IsHeld image buf.old }
    ensures buffer { OnOk result (buf.new
        ≡ record buf.old { track = place.track; records = buf.new.records }) }
    ensures kept { (buf.new.geometry ≡ buf.old.geometry) × (buf.new.unit ≡ buf.old.unit) }
    ensures lengths { OnOk result (HasLengths buf.new.records (place.number - 1) 44 96) }
    ensures stands { IsTrue H.tells → OnOk result
        (StandsOn (image_in (H.meaning hall.new) (H.facts hall.new) unit) buf.new) }
    ensures files { IsTrue H.tells → Same (H.meaning hall.old) (H.meaning hall.new) }
    ensures faults { DeviceCall (H.facts hall.old) (H.facts hall.new) result }
{
    fetch(hall, unit, place, buf)?;
    if !holds_slot(buf, place.number) {
        hall.differs(unit, place.track);
        return Err(Device);
    }
    Ok(())
}

// Makes the buffer hold a record of its unit, where there is one; reads the track where it doesn't, and only
// there. All of the track is read, since a later slot of it may be put next.
fn fetch<H: Hall>(hall: &mut H, unit: u8, place: Place, buf: &mut TrackBuf) -> Result<(), Device>
    requires unit { buf.old.unit ≡ unit }
    requires track { HasTrack (H.facts hall.old).units unit buf.old.geometry place.track }
    requires first { 1 ≤ place.number }
    requires there { let image = image_in (H.meaning hall.old) (H.facts hall.old) unit in
        IsTrue H.tells → HasSlot image buf.old.geometry place.track place.number }
    requires held { let image = image_in (H.meaning hall.old) (H.facts hall.old) unit in
        IsTrue H.tells → IsHeld image buf.old }
    ensures buffer { buf.new ≡ record buf.old { track = place.track; records = buf.new.records } }
    ensures again { buf.old.track ≡ place.track → place.number ≤ length buf.old.records
        → IsOk result × (buf.new ≡ buf.old) }
    ensures stands { let image = image_in (H.meaning hall.old) (H.facts hall.old) unit in
        IsTrue H.tells → OnOk result ((place.number ≤ length buf.new.records)
        × StandsOn image buf.new) }
    ensures files { IsTrue H.tells → Same (H.meaning hall.old) (H.meaning hall.new) }
    ensures faults { DeviceCall (H.facts hall.old) (H.facts hall.new) result }
{
    if buf.track() == place.track && usize::from(place.number) <= buf.len() {
        return Ok(());
    }
    match read_records(hall, unit, place.track, None, buf) {
        Ok(_count) => Ok(()),
        Err(TrackErr::BadCount { .. }) => {
            hall.differs(unit, place.track);
            Err(Device)
        }
        Err(TrackErr::Device) => Err(Device),
    }
}

// Whether the buffer holds Rr, and that has the lengths of a slot.
#[tactic(auto, using(crate::proofs::HeldLemmas::slot_tested, crate::proofs::HeldLemmas::slot_untested))]
fn holds_slot(buf: &TrackBuf, r: u8) -> bool
    requires { 1 ≤ r }
    ensures slot { IsTrue result → HasLengths buf.now.records (r - 1) 44 96 }
    ensures other { r ≤ length buf.now.records → HasLengths buf.now.records (r - 1) 44 96
        → IsTrue result }
{
    if usize::from(r) > buf.len() {
        return false;
    }
    let (key, payload) = (buf.key(r), buf.data(r));
    key.len() == KEY_LEN && payload.len() == DATA_LEN
}
