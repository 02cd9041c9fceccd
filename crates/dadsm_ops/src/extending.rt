//! More extents for a data set.
ghost use Rattle.std.specs.Prelude.{◌≡◌, ◌≤◌, ◌<◌, ◌+◌, ℕ, List, length, true, false, slice_get, vec_len, IfOk, IfErr, IfSome, IsErrOf, IsOk, IsTrue, OnOk, Some, None, Ok};
ghost use Rattle.std.specs.Str.{bytes_eq};
ghost use Rattle.std.specs.Vec.{vec_capacity};
ghost use Rattle.hall_core.specs.Facts.{Attached, DeviceCall, unit_of};
ghost use Rattle.hall_core.specs.Told.{ImageHas};
ghost use Rattle.stop_model.specs.Moments.{IsDurable};
ghost use Rattle.dscb_codec.specs.declared.Dscb.{Dscb};
ghost use Rattle.dscb_codec.specs.declared.F3.{F3};
ghost use Rattle.ebcdic_names.specs.declared.names.Dsn.{Dsn};
ghost use Rattle.pack_spec.specs.Settled.{IsMarked, IsSettledVtoc};
ghost use Rattle.pack_spec.specs.Slots.{slots_of_vtoc};
ghost use Rattle.pack_spec.specs.Volume.{attr_of, volume_of};
ghost use Rattle.free_rebuild.specs.Updates.{Marks};
ghost use Rattle.space_alloc.specs.Units.{listed};
ghost use Rattle.vol_model.specs.Shelf.{extend_on, is_catalog, secondary_asked, secondary_choice};
ghost use Rattle.vol_model.specs.declared.contents.Volume.{Volume};
ghost use Rattle.vol_model.specs.declared.refusals.Refusal.{Refusal};
ghost use Rattle.vtoc_index.specs.Index.{IsMounted, IsOfUnit, address_in};
ghost use Rattle.vtoc_index.specs.Names.{AreByName, name_at};
ghost use Rattle.vtoc_sets.specs.Sets.{leads_to};
ghost use Rattle.dadsm_ops.specs.Allocating.{AreExtents, Decides, HaveSameNames, open_slots};
ghost use Rattle.dadsm_ops.specs.Extending.{HasExtension, HasMore, HoldAdded, HoldsFurther, HoldsSet, IsForFurther, IsLedTo, IsReadable, IsRefused, MayBeAdded, added_type, f1_with, further_slots};
ghost use Rattle.dadsm_ops.specs.Operations.{DoesOperation, InVtoc, Operates, StoreCall};

use crate::added::{
    EMPTY_F3, added_type, f1_with, f3_with, further_slots, secondary_asked, secondary_request,
};
use crate::allocating::open_slot;
use crate::new_set::extent_count;
use crate::planning::{runs_left, take_runs};
use dscb_codec::{Dscb, F1, F3};
use free_rebuild::{conclude, mark, put_durably};
use hall_core::{Device, Hall};
use pack_spec::layout::{MOST_EXTENTS, OWN_EXTENTS};
use space_alloc::{Extents, choose};
use vol_model::{Attr, Refusal, StoreErr};
use vtoc_index::{Vol, slot_address};
use vtoc_sets::{attr_of, set_at, slots_for, slots_of_sets};

/// More tracks for a data set, whose format 1 a slot holds, by the secondary quantity of its request for space.
///
/// The set isn't the catalog, and its body can be read. The index is that of the image of its unit, which is settled
/// as far as the VTOC goes; no write is pending. In this order, each made durable before the next: format 4 with
/// the bit of an interrupted update; the format 3 with the added extents, where the set has more than three then; the
/// format 1, which counts them and so decides the operation; the chain of free space; format 4 with the right counts
/// and the bit off (System Control Blocks GC28-6628).
///
/// It is refused, in this order, where the free tracks don't serve the quantity (`NoSpace`), where the set would have
/// more than 16 extents (`ExtentsFull`), and where the VTOC has fewer slots than are needed then (`VtocFull`). It takes
/// no memory: the list of free runs has room for 6 more. `Device` comes only where the count of its faults rose. The
/// index is that of the new image after `Ok`, and may be that of no image after `Device`.
pub fn extend<H: Hall>(hall: &mut H, vol: &mut Vol, slot: u32) -> Result<(), StoreErr>
    requires unit { IsOfUnit (H.facts hall.old).units vol.old }
    requires names { AreByName (name_at vol.old.slots.items) vol.old.by_name.items }
    requires set { HoldsSet vol.old.slots.items slot }
    requires room { vec_len vol.old.free + 6 ≤ vec_capacity vol.old.free }
    requires mounted { ImageHas H.Hall hall.old vol.old.unit (λ image. IsMounted image vol.old) }
    requires body { ImageHas H.Hall hall.old vol.old.unit (λ image.
        (name : List ℕ) → name_at vol.old.slots.items slot ≡ Some name → IsReadable image name) }
    requires settled { ImageHas H.Hall hall.old vol.old.unit IsSettledVtoc }
    requires durable { IsTrue H.tells → IsDurable (H.meaning hall.old) }
    ensures files { (dsn : Dsn) → name_at vol.old.slots.items slot ≡ Some dsn.bytes
        → IsTrue H.tells → Operates (unit_of (H.facts hall.old).units vol.old.unit).name
        (extend_on dsn) vol.new (InVtoc vol.new) (H.meaning hall.old) (H.meaning hall.new)
        result }
    ensures unit { IsOfUnit (H.facts hall.new).units vol.new }
    ensures names { OnOk result (AreByName (name_at vol.new.slots.items) vol.new.by_name.items) }
    ensures index { vol.new ≡ record vol.old {
      slots = vol.new.slots;
      free = vol.new.free;
      buf = vol.new.buf;
    } }
    ensures refused { (r : Refusal) → IsErrOf result (StoreErr.Refused r)
        → (hall.new ≡ hall.old) × (vol.new ≡ vol.old) }
    ensures memory { ¬ IsErrOf result StoreErr.Memory }
    ensures room { vec_capacity vol.new.free ≡ vec_capacity vol.old.free }
    ensures faults { StoreCall (H.facts hall.old) (H.facts hall.new) result }
{
    let set = set_at(vol, slot);
    let extents = plan(vol, &set)?;
    match carry_out(hall, vol, slot, &set, &extents) {
        Ok(()) => Ok(()),
        Err(Device) => Err(StoreErr::Device),
    }
}

// The tracks for the secondary quantity of a set, or that there are none.
fn chosen(vol: &Vol, attr: &Attr) -> Result<Extents, Refusal>
    requires unit { (units : List Attached) × IsOfUnit units vol.now }
    ensures few { IfOk result (λ e. e.n ≤ 5) }
    ensures written { IfOk result (λ e. AreExtents (listed e)) }
    ensures chosen { IfOk result (λ e. (image : List ℕ) (volume : Volume) → IsMounted image vol.now
        → volume_of image ≡ Ok volume → secondary_choice volume attr.now ≡ Some (listed e)) }
    ensures refused { IfErr result (λ r. (image : List ℕ) (volume : Volume) → IsMounted image vol.now
        → volume_of image ≡ Ok volume → (secondary_choice volume attr.now ≡ None)
        × (r ≡ Refusal.NoSpace (secondary_asked attr.now))) }
{
    let Some(request) = secondary_request(attr) else {
        return Err(Refusal::NoSpace {
            asked: secondary_asked(attr),
        });
    };
    match choose(&vol.free, &vol.geometry, &request) {
        Ok(extents) => Ok(extents),
        Err(none) => Err(Refusal::NoSpace { asked: none.asked }),
    }
}

// The tracks that a data set gets, or the first reason why it gets none.
fn more_extents(vol: &Vol, set: &F1) -> Result<Extents, Refusal>
    requires unit { (units : List Attached) × IsOfUnit units vol.now }
    ensures few { IfOk result (λ e. e.n ≤ 5) }
    ensures total { IfOk result (λ e. set.now.extents + length (listed e) ≤ 16) }
    ensures written { IfOk result (λ e. AreExtents (listed e)) }
    ensures more { IfOk result (λ e. (image : List ℕ) (volume : Volume) → IsMounted image vol.now
        → volume_of image ≡ Ok volume → HasMore set.now volume (listed e)) }
    ensures refused { IfErr result (λ r. IsRefused vol.now set.now r) }
{
    let extents = chosen(vol, &attr_of(set))?;
    let count = extent_count(extents);
    if u16::from(set.extents) + u16::from(count) > u16::from(MOST_EXTENTS) {
        return Err(Refusal::ExtentsFull);
    }
    Ok(extents)
}

// The tracks that a data set gets, or the first reason why it gets none, that for want of slots too.
fn plan(vol: &Vol, set: &F1) -> Result<Extents, Refusal>
    requires unit { (units : List Attached) × IsOfUnit units vol.now }
    ensures few { IfOk result (λ e. e.n ≤ 5) }
    ensures total { IfOk result (λ e. set.now.extents + length (listed e) ≤ 16) }
    ensures written { IfOk result (λ e. AreExtents (listed e)) }
    ensures plan { IfOk result (λ e. (image : List ℕ) (slot : ℕ) → IsMounted image vol.now
        → slice_get vol.now.slots.items slot ≡ Some (Dscb.F1 set.now)
        → HasExtension image set.now (listed e)) }
    ensures refused { IfErr result (λ r. IsRefused vol.now set.now r) }
{
    let extents = more_extents(vol, set)?;
    let sets = slots_of_sets(vol) + further_slots(set.extents, &extents);
    let slots = slots_for(runs_left(vol, &extents), sets);
    if slots > vol.slots.len() as u32 {
        return Err(Refusal::VtocFull { slots });
    }
    Ok(extents)
}

// Writes what is planned, each step durable before the next: else a stop could leave added tracks that the chain shows
// as free, with no bit on.
fn carry_out<H: Hall>(
    hall: &mut H,
    vol: &mut Vol,
    slot: u32,
    set: &F1,
    extents: &Extents,
) -> Result<(), Device>
    requires unit { IsOfUnit (H.facts hall.old).units vol.old }
    requires names { AreByName (name_at vol.old.slots.items) vol.old.by_name.items }
    requires set { slice_get vol.old.slots.items slot ≡ Some (Dscb.F1 set.now) }
    requires catalog { is_catalog set.now.name ≡ false }
    requires more { MayBeAdded set.now extents.now }
    requires room { vec_len vol.old.free + 6 ≤ vec_capacity vol.old.free }
    requires plan { ImageHas H.Hall hall.old vol.old.unit (λ image.
        HasExtension image set.now (listed extents.now)) }
    requires mounted { ImageHas H.Hall hall.old vol.old.unit (λ image. IsMounted image vol.old) }
    requires body { ImageHas H.Hall hall.old vol.old.unit (λ image. IsReadable image set.now.name) }
    requires settled { ImageHas H.Hall hall.old vol.old.unit IsSettledVtoc }
    requires durable { IsTrue H.tells → IsDurable (H.meaning hall.old) }
    ensures files { (dsn : Dsn) → set.now.name ≡ dsn.bytes → IsTrue H.tells
        → DoesOperation (unit_of (H.facts hall.old).units vol.old.unit).name (extend_on dsn) vol.new
        (InVtoc vol.new) (H.meaning hall.old) (H.meaning hall.new) result }
    ensures unit { IsOfUnit (H.facts hall.new).units vol.new }
    ensures names { OnOk result (AreByName (name_at vol.new.slots.items) vol.new.by_name.items) }
    ensures index { vol.new ≡ record vol.old {
      slots = vol.new.slots;
      free = vol.new.free;
      buf = vol.new.buf;
    } }
    ensures room { vec_capacity vol.new.free ≡ vec_capacity vol.old.free }
    ensures faults { DeviceCall (H.facts hall.old) (H.facts hall.new) result }
{
    mark(hall, vol)?;
    let pointer = put_added(hall, vol, slot, set, extents)?;
    put_extended(hall, vol, slot, set, extents, pointer)?;
    conclude(hall, vol)
}

// The format 3 that a DSCB is, where the pointer of a data set leads to its slot.
fn led_to(vol: &Vol, set: &F1, slot: u32, dscb: &Dscb) -> Option<F3>
    requires unit { (units : List Attached) × IsOfUnit units vol.now }
    requires slot { slot < length vol.now.slots.items }
    ensures found { IfSome result (λ h. (dscb.now ≡ Dscb.F3 h)
        × (bytes_eq (address_in vol.now slot) set.now.pointer ≡ true)) }
    ensures none { result ≡ None → leads_to vol.now set.now slot dscb.now ≡ false }
{
    match dscb {
        Dscb::F3(further) if slot_address(vol, slot) == set.pointer => Some(*further),
        _ => None,
    }
}

// The format 3 to which the pointer of a data set leads, with its slot.
fn further_of(vol: &Vol, set: &F1) -> Option<(u32, F3)>
    requires unit { (units : List Attached) × IsOfUnit units vol.now }
    ensures found { IfSome result (λ p. IsLedTo vol.now set.now p.0 p.1) }
    ensures none { result ≡ None → (slot : ℕ) (d : Dscb)
        → slice_get vol.now.slots.items slot ≡ Some d → leads_to vol.now set.now slot d ≡ false }
{
    for (slot, dscb) in vol.slots.iter().enumerate() {
        if let Some(further) = led_to(vol, set, slot as u32, dscb) {
            return Some((slot as u32, further));
        }
    }
    None
}

// The slot for the format 3 of a data set that gets extents, and what it holds: both are there on each hall that tells
// its content.
fn place_for<H: Hall>(hall: &mut H, vol: &Vol, set: &F1) -> Result<(u32, F3), Device>
    requires unit { IsOfUnit (H.facts hall.old).units vol.now }
    requires room { IsTrue H.tells → set.now.extents ≤ 3 → 1 ≤ open_slots vol.now.slots.items }
    requires own { IsTrue H.tells → 3 < set.now.extents
        → (slot : ℕ) × (h : F3) × IsLedTo vol.now set.now slot h }
    ensures found { IfOk result (λ p. IsForFurther vol.now set.now p.0 p.1) }
    ensures hall { OnOk result (hall.new ≡ hall.old) }
    ensures told { IsTrue H.tells → IsOk result }
    ensures faults { DeviceCall (H.facts hall.old) (H.facts hall.new) result }
{
    if set.extents <= OWN_EXTENTS {
        let slot = open_slot(hall, vol)?;
        return Ok((slot, EMPTY_F3));
    }
    match further_of(vol, set) {
        Some(found) => Ok(found),
        None => {
            hall.differs(vol.unit, vol.vtoc.start);
            Err(Device)
        }
    }
}

// Puts the format 3 with the added extents where the data set has more than three then, and gives the pointer of its
// format 1.
fn put_added<H: Hall>(
    hall: &mut H,
    vol: &mut Vol,
    slot: u32,
    set: &F1,
    extents: &Extents,
) -> Result<[u8; 5], Device>
    requires unit { IsOfUnit (H.facts hall.old).units vol.old }
    requires set { slice_get vol.old.slots.items slot ≡ Some (Dscb.F1 set.now) }
    requires more { MayBeAdded set.now extents.now }
    requires slots { IsTrue H.tells
        → further_slots set.now.extents (listed extents.now) ≤ open_slots vol.old.slots.items }
    requires mounted { ImageHas H.Hall hall.old vol.old.unit (λ image. IsMounted image vol.old) }
    requires marked { ImageHas H.Hall hall.old vol.old.unit (λ image.
        IsMarked (slots_of_vtoc image vol.old.geometry vol.old.vtoc)) }
    requires durable { IsTrue H.tells → IsDurable (H.meaning hall.old) }
    ensures files { IsTrue H.tells → Marks (unit_of (H.facts hall.old).units vol.old.unit).name
        vol.new (H.meaning hall.old) (H.meaning hall.new) result }
    ensures added { ImageHas H.Hall hall.new vol.old.unit (λ image.
        IfOk result (HoldAdded (slots_of_vtoc image vol.old.geometry vol.old.vtoc)
        vol.old.geometry (added_type (attr_of set.now)) slot set.now (listed extents.now))) }
    ensures format_3 { 3 < set.now.extents + length (listed extents.now) → OnOk result (HoldsFurther
        vol.old vol.new.slots.items set.now (added_type (attr_of set.now)) (listed extents.now)) }
    ensures set { OnOk result (slice_get vol.new.slots.items slot ≡ Some (Dscb.F1 set.now)) }
    ensures names { OnOk result (HaveSameNames vol.old.slots.items vol.new.slots.items) }
    ensures others { vol.new ≡ record vol.old { slots = vol.new.slots; buf = vol.new.buf } }
    ensures unit { IsOfUnit (H.facts hall.new).units vol.new }
    ensures faults { DeviceCall (H.facts hall.old) (H.facts hall.new) result }
{
    if set.extents + extent_count(*extents) <= OWN_EXTENTS {
        return Ok(set.pointer);
    }
    let place = place_for(hall, vol, set)?;
    let kind = added_type(&attr_of(set));
    let more = f3_with(&place.1, &vol.geometry, kind, set.extents, extents);
    put_durably(hall, vol, place.0, &Dscb::F3(more))?;
    Ok(slot_address(vol, place.0))
}

// Puts the format 1 with the added extents, which decides the operation; the index has the free runs without their
// tracks then.
fn put_extended<H: Hall>(
    hall: &mut H,
    vol: &mut Vol,
    slot: u32,
    set: &F1,
    extents: &Extents,
    pointer: [u8; 5],
) -> Result<(), Device>
    requires unit { IsOfUnit (H.facts hall.old).units vol.old }
    requires names { AreByName (name_at vol.old.slots.items) vol.old.by_name.items }
    requires set { slice_get vol.old.slots.items slot ≡ Some (Dscb.F1 set.now) }
    requires catalog { is_catalog set.now.name ≡ false }
    requires more { MayBeAdded set.now extents.now }
    requires room { vec_len vol.old.free + 6 ≤ vec_capacity vol.old.free }
    requires plan { ImageHas H.Hall hall.old vol.old.unit (λ image.
        HasExtension image set.now (listed extents.now)) }
    requires added { ImageHas H.Hall hall.old vol.old.unit (λ image.
        HoldAdded (slots_of_vtoc image vol.old.geometry vol.old.vtoc) vol.old.geometry
        (added_type (attr_of set.now)) slot set.now (listed extents.now) pointer) }
    requires mounted { ImageHas H.Hall hall.old vol.old.unit (λ image. IsMounted image vol.old) }
    requires body { ImageHas H.Hall hall.old vol.old.unit (λ image. IsReadable image set.now.name) }
    requires marked { ImageHas H.Hall hall.old vol.old.unit (λ image.
        IsMarked (slots_of_vtoc image vol.old.geometry vol.old.vtoc)) }
    requires durable { IsTrue H.tells → IsDurable (H.meaning hall.old) }
    ensures files { (dsn : Dsn) → set.now.name ≡ dsn.bytes → IsTrue H.tells
        → Decides (unit_of (H.facts hall.old).units vol.old.unit).name (extend_on dsn) vol.new
        (H.meaning hall.old) (H.meaning hall.new) result }
    ensures format_1 { OnOk result (slice_get vol.new.slots.items slot ≡ Some (Dscb.F1
        (f1_with vol.old.geometry (added_type (attr_of set.now)) (listed extents.now) pointer set.now))) }
    ensures unit { IsOfUnit (H.facts hall.new).units vol.new }
    ensures names { OnOk result (AreByName (name_at vol.new.slots.items) vol.new.by_name.items) }
    ensures index { vol.new ≡ record vol.old {
      slots = vol.new.slots;
      free = vol.new.free;
      buf = vol.new.buf;
    } }
    ensures room { vec_capacity vol.new.free ≡ vec_capacity vol.old.free }
    ensures faults { DeviceCall (H.facts hall.old) (H.facts hall.new) result }
{
    let kind = added_type(&attr_of(set));
    let more = f1_with(set, &vol.geometry, kind, extents, pointer);
    put_durably(hall, vol, slot, &Dscb::F1(more))?;
    take_runs(vol, extents);
    Ok(())
}
