//! A new data set.
ghost use Rattle.std.specs.Prelude.{◌≡◌, ◌≤◌, ◌<◌, ◌+◌, ◌^◌, IsOk, false, vec_len, IfOk, IsErrOf, IsTrue, OnOk, Ok, Some, length};
ghost use Rattle.std.specs.Vec.{vec_capacity};
ghost use Rattle.hall_core.specs.Facts.{DeviceCall, unit_of};
ghost use Rattle.hall_core.specs.Told.{ImageHas};
ghost use Rattle.hall_core.specs.Images.{image_in};
ghost use Rattle.stop_model.specs.Moments.{IsDurable};
ghost use Rattle.pack_spec.specs.Settled.{IsMarked, IsSettledVtoc};
ghost use Rattle.pack_spec.specs.Blocks.{owned_tracks};
ghost use Rattle.pack_spec.specs.Slots.{slots_of_vtoc};
ghost use Rattle.pack_spec.specs.Volume.{volume_of};
ghost use Rattle.free_rebuild.specs.Updates.{Marks};
ghost use Rattle.space_alloc.specs.Units.{listed};
ghost use Rattle.vol_model.specs.Places.{directory_end, tracks_in};
ghost use Rattle.vol_model.specs.Shelf.{allocate_on, is_catalog, lacks_room, new_attr};
ghost use Rattle.vol_model.specs.declared.contents.Volume.{Volume};
ghost use Rattle.vol_model.specs.declared.refusals.Refusal.{Refusal};
ghost use Rattle.vtoc_index.specs.Free.{open_slot};
ghost use Rattle.vtoc_index.specs.Index.{IsMounted, IsOfUnit};
ghost use Rattle.vtoc_index.specs.Names.{AreByName, name_at};
ghost use Rattle.dadsm_ops.specs.Allocating.{AreExtents, AreTracksOf, Decides, GivesDirectory, HasDirectory, HasPlan, HasFurtherIfMany, HaveSameNames, HoldsDscb, InNewSet, IsNewName, PutsDirectory, extent_type, new_f1, new_tracks, open_slots, own_slots};
ghost use Rattle.dadsm_ops.specs.Formatting.{AreSpare};
ghost use Rattle.dadsm_ops.specs.Operations.{DoesOperation, HasVtocOf, Operates, StoreCall, image_named};

use crate::formatting::format_directory;
use crate::new_set::{extent_type, new_attr, new_f1, new_f3};
use crate::planning::{own_slots, plan, take_runs};
use dscb_codec::Dscb;
use ebcdic_names::Dsn;
use free_rebuild::{conclude, mark, put_durably};
use hall_core::{Device, Hall};
use space_alloc::Extents;
use std::alloc::AllocError;
use vol_model::{Attr, Request, StoreErr};
use vtoc_index::{Vol, enter_name, free_slot, slot_address};

/// A new data set on the volume, of any name but SYSCTLG, with `dir` directory blocks: 0 for a set that isn't
/// partitioned.
///
/// The index is that of the image of its unit, which is settled as far as the VTOC goes; no write is pending.
/// In this order, each made durable before the next: format 4 with the bit of an interrupted update; a format 3
/// where there are more than three extents; the directory, on the first of the set's tracks; the format 1, which
/// decides the operation; the chain of free space; format 4 with the right counts and the bit off (System Control
/// Blocks GC28-6628).
///
/// It is refused, in this order, where the volume has a set of the name (`SetExists`), where the organization
/// is that of a partitioned set and there are no directory blocks, or the other way round (`WrongKind`), where the
/// free tracks don't serve the request (`NoSpace`), where the VTOC has fewer slots than are needed then
/// (`VtocFull`), and where the directory doesn't fit the tracks (`NoRoom`). Memory is taken for its name alone,
/// before the first write: the list of free runs has room for 6 more. `Device` comes only where the count of its
/// faults rose. The index is that of the new image after `Ok`, and may be that of no image after `Device`.
pub fn allocate<H: Hall>(
    hall: &mut H,
    vol: &mut Vol,
    dsn: &Dsn,
    attr: &Attr,
    request: &Request,
    dir: u32,
) -> Result<(), StoreErr>
    requires unit { IsOfUnit (H.facts hall.old).units vol.old }
    requires names { AreByName (name_at vol.old.slots.items) vol.old.by_name.items }
    requires room { vec_len vol.old.free + 6 ≤ vec_capacity vol.old.free }
    requires catalog { is_catalog dsn.now.bytes ≡ false }
    requires dir { dir ≤ 2000 }
    requires quantities { request.now.secondary < 2 ^ 24 }
    requires mounted { ImageHas H.Hall hall.old vol.old.unit (λ image. IsMounted image vol.old) }
    requires settled { ImageHas H.Hall hall.old vol.old.unit IsSettledVtoc }
    requires durable { IsTrue H.tells → IsDurable (H.meaning hall.old) }
    ensures files { IsTrue H.tells → Operates (unit_of (H.facts hall.old).units vol.old.unit).name
        (allocate_on dsn.now attr.now request.now dir) vol.new (InNewSet request.now dir vol.new)
        (H.meaning hall.old) (H.meaning hall.new) result }
    ensures directory { GivesDirectory H.Hall request.now dir vol.old vol.new hall.old hall.new
        result }
    ensures unit { IsOfUnit (H.facts hall.new).units vol.new }
    ensures names { OnOk result (AreByName (name_at vol.new.slots.items) vol.new.by_name.items) }
    ensures index { HasVtocOf vol.old vol.new }
    ensures refused { (r : Refusal) → IsErrOf result (StoreErr.Refused r)
        → (hall.new ≡ hall.old) × (vol.new ≡ vol.old) }
    ensures memory { IsErrOf result StoreErr.Memory → (hall.new ≡ hall.old)
        × (vol.new ≡ record vol.old { by_name = vol.new.by_name })
        × (vol.new.by_name.items ≡ vol.old.by_name.items) }
    ensures room { vec_capacity vol.new.free ≡ vec_capacity vol.old.free }
    ensures faults { StoreCall (H.facts hall.old) (H.facts hall.new) result }
{
    let extents = plan(vol, dsn, attr, request, dir)?;
    let Ok(()) = reserve_name(vol) else {
        return Err(StoreErr::Memory);
    };
    match carry_out(hall, vol, dsn, attr, request, &extents, dir) {
        Ok(()) => Ok(()),
        Err(Device) => Err(StoreErr::Device),
    }
}

// Takes memory for one more slot in the order of names.
fn reserve_name(vol: &mut Vol) -> Result<(), AllocError>
    ensures others { vol.new ≡ record vol.old { by_name = vol.new.by_name } }
    ensures items { vol.new.by_name.items ≡ vol.old.by_name.items }
    ensures room { OnOk result (vec_len vol.new.by_name < vec_capacity vol.new.by_name) }
{
    vol.by_name.reserve(1)
}

// Writes what is planned, each step durable before the next: else a stop could leave a new set whose tracks the
// chain shows as free, with no bit on, or one whose directory is none yet.
fn carry_out<H: Hall>(
    hall: &mut H,
    vol: &mut Vol,
    dsn: &Dsn,
    attr: &Attr,
    request: &Request,
    extents: &Extents,
    dir: u32,
) -> Result<(), Device>
    requires unit { IsOfUnit (H.facts hall.old).units vol.old }
    requires name { IsNewName vol.old dsn.now.bytes }
    requires catalog { is_catalog dsn.now.bytes ≡ false }
    requires quantities { request.now.secondary < 2 ^ 24 }
    requires few { extents.now.n ≤ 5 }
    requires written { AreExtents (listed extents.now) }
    requires dir { dir ≤ 2000 }
    requires tracks { AreTracksOf vol.old.geometry (listed extents.now) }
    requires tracks_room { lacks_room vol.old.geometry.device dsn.now.bytes dir
        (tracks_in (listed extents.now)) ≡ false }
    requires room { vec_len vol.old.free + 6 ≤ vec_capacity vol.old.free }
    requires plan { ImageHas H.Hall hall.old vol.old.unit (λ image.
        HasPlan image dsn.now attr.now request.now dir (listed extents.now)) }
    requires mounted { ImageHas H.Hall hall.old vol.old.unit (λ image. IsMounted image vol.old) }
    requires settled { ImageHas H.Hall hall.old vol.old.unit IsSettledVtoc }
    requires durable { IsTrue H.tells → IsDurable (H.meaning hall.old) }
    ensures files { IsTrue H.tells → DoesOperation (unit_of (H.facts hall.old).units vol.old.unit).name
        (allocate_on dsn.now attr.now request.now dir) vol.new (InNewSet request.now dir vol.new)
        (H.meaning hall.old) (H.meaning hall.new) result }
    ensures directory { GivesDirectory H.Hall request.now dir vol.old vol.new hall.old hall.new
        result }
    ensures unit { IsOfUnit (H.facts hall.new).units vol.new }
    ensures names { OnOk result (AreByName (name_at vol.new.slots.items) vol.new.by_name.items) }
    ensures index { HasVtocOf vol.old vol.new }
    ensures room { vec_capacity vol.new.free ≡ vec_capacity vol.old.free }
    ensures faults { DeviceCall (H.facts hall.old) (H.facts hall.new) result }
{
    mark(hall, vol)?;
    let pointer = put_further(hall, vol, request, extents)?;
    put_directory(hall, vol, extents, dir)?;
    put_set(hall, vol, dsn, attr, request, extents, pointer, dir)?;
    conclude(hall, vol)
}

// Writes the directory of a new set onto its tracks, which nothing owns, if it has one, and makes it durable.
fn put_directory<H: Hall>(
    hall: &mut H,
    vol: &mut Vol,
    extents: &Extents,
    dir: u32,
) -> Result<(), Device>
    requires unit { IsOfUnit (H.facts hall.old).units vol.old }
    requires most { dir ≤ 2000 }
    requires few { extents.now.n ≤ 5 }
    requires written { AreExtents (listed extents.now) }
    requires tracks { AreTracksOf vol.old.geometry (listed extents.now) }
    requires room { 1 ≤ dir → (directory_end vol.old.geometry.device dir).tt
        < length (owned_tracks (listed extents.now)) }
    requires spare { let image = image_in (H.meaning hall.old) (H.facts hall.old) vol.old.unit in
        (volume : Volume) → volume_of image ≡ Ok volume
        → IsTrue H.tells → AreSpare volume (listed extents.now) }
    requires mounted { ImageHas H.Hall hall.old vol.old.unit (λ image. IsMounted image vol.old) }
    requires marked { ImageHas H.Hall hall.old vol.old.unit (λ image.
        IsMarked (slots_of_vtoc image vol.old.geometry vol.old.vtoc)) }
    requires durable { IsTrue H.tells → IsDurable (H.meaning hall.old) }
    ensures files { IsTrue H.tells
        → PutsDirectory (unit_of (H.facts hall.old).units vol.old.unit).name (listed extents.now)
        dir vol.new (H.meaning hall.old) (H.meaning hall.new) result }
    ensures others { vol.new ≡ record vol.old { buf = vol.new.buf } }
    ensures unit { IsOfUnit (H.facts hall.new).units vol.new }
    ensures faults { DeviceCall (H.facts hall.old) (H.facts hall.new) result }
{
    if dir == 0 {
        return Ok(());
    }
    format_directory(hall, vol, extents, dir)
}

// The lowest slot that may take a DSCB while an update is under way, which is there on each hall that tells its
// content.
pub(crate) fn open_slot<H: Hall>(hall: &mut H, vol: &Vol) -> Result<u32, Device>
    requires unit { IsOfUnit (H.facts hall.old).units vol.now }
    requires some { IsTrue H.tells → 1 ≤ open_slots vol.now.slots.items }
    ensures found { IfOk result (λ slot. open_slot vol.now.slots.items ≡ Some slot) }
    ensures hall { OnOk result (hall.new ≡ hall.old) }
    ensures told { IsTrue H.tells → IsOk result }
    ensures faults { DeviceCall (H.facts hall.old) (H.facts hall.new) result }
{
    match free_slot(vol) {
        Some(slot) => Ok(slot),
        None => {
            hall.differs(vol.unit, vol.vtoc.start);
            Err(Device)
        }
    }
}

// Puts a format 3 where there are more than three extents, and gives its address, or zeros.
fn put_further<H: Hall>(
    hall: &mut H,
    vol: &mut Vol,
    request: &Request,
    extents: &Extents,
) -> Result<[u8; 5], Device>
    requires unit { IsOfUnit (H.facts hall.old).units vol.old }
    requires few { extents.now.n ≤ 5 }
    requires written { AreExtents (listed extents.now) }
    requires slots { IsTrue H.tells → own_slots (listed extents.now) ≤ open_slots vol.old.slots.items }
    requires mounted { ImageHas H.Hall hall.old vol.old.unit (λ image. IsMounted image vol.old) }
    requires marked { ImageHas H.Hall hall.old vol.old.unit (λ image.
        IsMarked (slots_of_vtoc image vol.old.geometry vol.old.vtoc)) }
    requires durable { IsTrue H.tells → IsDurable (H.meaning hall.old) }
    ensures files { IsTrue H.tells → Marks (unit_of (H.facts hall.old).units vol.old.unit).name
        vol.new (H.meaning hall.old) (H.meaning hall.new) result }
    ensures third { ImageHas H.Hall hall.new vol.old.unit (λ image.
        IfOk result (HasFurtherIfMany (slots_of_vtoc image vol.old.geometry vol.old.vtoc)
        vol.old.geometry (extent_type request.now.unit) (listed extents.now))) }
    ensures slots { IsTrue H.tells → OnOk result (1 ≤ open_slots vol.new.slots.items) }
    ensures names { OnOk result (HaveSameNames vol.old.slots.items vol.new.slots.items) }
    ensures others { vol.new ≡ record vol.old { slots = vol.new.slots; buf = vol.new.buf } }
    ensures unit { IsOfUnit (H.facts hall.new).units vol.new }
    ensures faults { DeviceCall (H.facts hall.old) (H.facts hall.new) result }
{
    if own_slots(extents) == 1 {
        return Ok([0; 5]);
    }
    let slot = open_slot(hall, vol)?;
    let further = new_f3(&vol.geometry, extent_type(request.unit), extents);
    put_durably(hall, vol, slot, &Dscb::F3(further))?;
    Ok(slot_address(vol, slot))
}

// Puts the format 1, which decides the operation; the index has the free runs without its tracks then, and its name.
fn put_set<H: Hall>(
    hall: &mut H,
    vol: &mut Vol,
    dsn: &Dsn,
    attr: &Attr,
    request: &Request,
    extents: &Extents,
    pointer: [u8; 5],
    dir: u32,
) -> Result<(), Device>
    requires unit { IsOfUnit (H.facts hall.old).units vol.old }
    requires name { IsNewName vol.old dsn.now.bytes }
    requires catalog { is_catalog dsn.now.bytes ≡ false }
    requires quantities { request.now.secondary < 2 ^ 24 }
    requires few { extents.now.n ≤ 5 }
    requires written { AreExtents (listed extents.now) }
    requires room { vec_len vol.old.free + 6 ≤ vec_capacity vol.old.free }
    requires slots { IsTrue H.tells → 1 ≤ open_slots vol.old.slots.items }
    requires dir { dir ≤ 2000 }
    requires plan { ImageHas H.Hall hall.old vol.old.unit (λ image.
        HasPlan image dsn.now attr.now request.now dir (listed extents.now)) }
    requires body { ImageHas H.Hall hall.old vol.old.unit (λ image.
        HasDirectory image vol.old.geometry (listed extents.now) dir) }
    requires third { ImageHas H.Hall hall.old vol.old.unit (λ image.
        HasFurtherIfMany (slots_of_vtoc image vol.old.geometry vol.old.vtoc) vol.old.geometry
        (extent_type request.now.unit) (listed extents.now) pointer) }
    requires mounted { ImageHas H.Hall hall.old vol.old.unit (λ image. IsMounted image vol.old) }
    requires marked { ImageHas H.Hall hall.old vol.old.unit (λ image.
        IsMarked (slots_of_vtoc image vol.old.geometry vol.old.vtoc)) }
    requires durable { IsTrue H.tells → IsDurable (H.meaning hall.old) }
    ensures files { IsTrue H.tells → Decides (unit_of (H.facts hall.old).units vol.old.unit).name
        (allocate_on dsn.now attr.now request.now dir) vol.new (H.meaning hall.old)
        (H.meaning hall.new) result }
    ensures format_1 { OnOk result (HoldsDscb vol.new.slots.items (Dscb.F1 (new_f1 dsn.now.bytes
        vol.old.serial.bytes (new_attr dsn.now.bytes attr.now request.now) vol.old.geometry
        (extent_type request.now.unit) (listed extents.now) pointer dir))) }
    ensures unit { IsOfUnit (H.facts hall.new).units vol.new }
    ensures names { OnOk result (AreByName (name_at vol.new.slots.items) vol.new.by_name.items) }
    ensures index { HasVtocOf vol.old vol.new }
    ensures room { vec_capacity vol.new.free ≡ vec_capacity vol.old.free }
    ensures faults { DeviceCall (H.facts hall.old) (H.facts hall.new) result }
{
    let slot = open_slot(hall, vol)?;
    let set = new_f1(
        dsn,
        &vol.serial,
        &new_attr(attr, request),
        &vol.geometry,
        extent_type(request.unit),
        extents,
        pointer,
        dir,
    );
    put_durably(hall, vol, slot, &Dscb::F1(set))?;
    take_runs(vol, extents);
    enter_name(vol, slot);
    Ok(())
}
