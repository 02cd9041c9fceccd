//! Writes of slots that are made durable.
ghost use Rattle.std.specs.Prelude.{◌≡◌, ◌<◌, ◌≤◌, length, slice_index_or, true, IsTrue, OnOk};
ghost use Rattle.hall_core.specs.Facts.{DeviceCall, unit_of};
ghost use Rattle.hall_core.specs.Images.{image_in};
ghost use Rattle.stop_model.specs.Files.{AfterSync};
ghost use Rattle.stop_model.specs.Moments.{IsDurable};
ghost use Rattle.pack_spec.specs.FreeChain.{entries_of};
ghost use Rattle.pack_spec.specs.Label.{heads_of};
ghost use Rattle.vtoc_index.specs.Bits.{with_bit};
ghost use Rattle.vtoc_index.specs.Index.{IsIndexOf, IsOfUnit, address_in};
ghost use Rattle.vtoc_index.specs.Names.{AreByName, name_at};
ghost use Rattle.vtoc_index.specs.Puts.{IsReplaced};
ghost use Rattle.free_rebuild.specs.Chain.{IsOpenAt, chained};
ghost use Rattle.free_rebuild.specs.Clearing.{AreCleared};
ghost use Rattle.free_rebuild.specs.Durable.{PutsDurably, StaysAlike};

use crate::chain::write_free;
use crate::clearing::clear_unused;
use dscb_codec::Dscb;
use hall_core::{Device, Hall};
use vtoc_index::{Vol, put_slot, set_bit};

/// Puts a DSCB into a slot, counted from 0 over the tracks of the VTOC, by one write, and makes it durable.
///
/// A stop leaves the image as before, or with that slot. `Device` comes only where the count of its faults rose; then
/// the write is pending, done, or not begun, and the index may be that of no image any more.
pub fn put_durably<H: Hall>(
    hall: &mut H,
    vol: &mut Vol,
    slot: u32,
    dscb: &Dscb,
) -> Result<(), Device>
    requires unit { IsOfUnit (H.facts hall.old).units vol.old }
    requires slot { slot < length vol.old.slots.items }
    requires index { let image = image_in (H.meaning hall.old) (H.facts hall.old) vol.old.unit in
        IsTrue H.tells → IsIndexOf image vol.old }
    requires durable { IsTrue H.tells → IsDurable (H.meaning hall.old) }
    ensures files { IsTrue H.tells → PutsDurably
        (unit_of (H.facts hall.old).units vol.old.unit).name vol.old slot dscb.now vol.new
        (H.meaning hall.old) (H.meaning hall.new) result }
    ensures index { OnOk result (IsReplaced slot dscb.now vol.old vol.new) }
    ensures others { vol.new ≡ record vol.old { slots = vol.new.slots; buf = vol.new.buf } }
    ensures unit { IsOfUnit (H.facts hall.new).units vol.new }
    ensures faults { DeviceCall (H.facts hall.old) (H.facts hall.new) result }
{
    put_slot(hall, vol, slot, dscb)?;
    make_durable(hall)
}

// Sets the bit of an interrupted update, durably.
pub(crate) fn mark_durably<H: Hall>(hall: &mut H, vol: &mut Vol) -> Result<(), Device>
    requires unit { IsOfUnit (H.facts hall.old).units vol.old }
    requires some { IsTrue H.tells → 1 ≤ length vol.old.slots.items }
    requires index { let image = image_in (H.meaning hall.old) (H.facts hall.old) vol.old.unit in
        IsTrue H.tells → IsIndexOf image vol.old }
    requires durable { IsTrue H.tells → IsDurable (H.meaning hall.old) }
    ensures files { let d = with_bit true (slice_index_or vol.old.slots.items 0 Dscb.F0) in
        IsTrue H.tells → PutsDurably (unit_of (H.facts hall.old).units vol.old.unit).name
        vol.old 0 d vol.new (H.meaning hall.old) (H.meaning hall.new) result }
    ensures index { let d = with_bit true (slice_index_or vol.old.slots.items 0 Dscb.F0) in
        OnOk result (IsReplaced 0 d vol.old vol.new) }
    ensures others { vol.new ≡ record vol.old { slots = vol.new.slots; buf = vol.new.buf } }
    ensures unit { IsOfUnit (H.facts hall.new).units vol.new }
    ensures faults { DeviceCall (H.facts hall.old) (H.facts hall.new) result }
{
    set_bit(hall, vol, true)?;
    make_durable(hall)
}

// Clears what belongs to nothing, and makes that durable.
pub(crate) fn clear_durably<H: Hall>(hall: &mut H, vol: &mut Vol) -> Result<(), Device>
    requires unit { IsOfUnit (H.facts hall.old).units vol.old }
    requires index { let image = image_in (H.meaning hall.old) (H.facts hall.old) vol.old.unit in
        IsTrue H.tells → IsIndexOf image vol.old }
    requires durable { IsTrue H.tells → IsDurable (H.meaning hall.old) }
    ensures files { IsTrue H.tells → StaysAlike (unit_of (H.facts hall.old).units vol.old.unit).name
        vol.old (H.meaning hall.old) (H.meaning hall.new) result }
    ensures slots { OnOk result (AreCleared (address_in vol.old) (length vol.old.slots.items)
        vol.old.slots.items vol.new.slots.items) }
    ensures index { let image = image_in (H.meaning hall.new) (H.facts hall.new) vol.old.unit in
        IsTrue H.tells → OnOk result (IsIndexOf image vol.new) }
    ensures durable { IsTrue H.tells → OnOk result (IsDurable (H.meaning hall.new)) }
    ensures others { vol.new ≡ record vol.old { slots = vol.new.slots; buf = vol.new.buf } }
    ensures unit { IsOfUnit (H.facts hall.new).units vol.new }
    ensures faults { DeviceCall (H.facts hall.old) (H.facts hall.new) result }
{
    clear_unused(hall, vol)?;
    make_durable(hall)
}

// Writes the chain of free space, and makes it durable.
pub(crate) fn write_durably<H: Hall>(hall: &mut H, vol: &mut Vol) -> Result<(), Device>
    requires unit { IsOfUnit (H.facts hall.old).units vol.old }
    requires index { let image = image_in (H.meaning hall.old) (H.facts hall.old) vol.old.unit in
        IsTrue H.tells → IsIndexOf image vol.old }
    requires first { IsTrue H.tells → IsOpenAt vol.old.slots.items 1 }
    requires durable { IsTrue H.tells → IsDurable (H.meaning hall.old) }
    ensures files { IsTrue H.tells → StaysAlike (unit_of (H.facts hall.old).units vol.old.unit).name
        vol.old (H.meaning hall.old) (H.meaning hall.new) result }
    ensures chain { OnOk result (vol.new.slots.items ≡ chained (address_in vol.old)
        vol.old.slots.items 1 (entries_of (heads_of vol.old.geometry) vol.old.free.items)) }
    ensures index { let image = image_in (H.meaning hall.new) (H.facts hall.new) vol.old.unit in
        IsTrue H.tells → OnOk result (IsIndexOf image vol.new) }
    ensures durable { IsTrue H.tells → OnOk result (IsDurable (H.meaning hall.new)) }
    ensures names { AreByName (name_at vol.old.slots.items) vol.old.by_name.items
        → OnOk result (AreByName (name_at vol.new.slots.items) vol.new.by_name.items) }
    ensures others { vol.new ≡ record vol.old { slots = vol.new.slots; buf = vol.new.buf } }
    ensures unit { IsOfUnit (H.facts hall.new).units vol.new }
    ensures faults { DeviceCall (H.facts hall.old) (H.facts hall.new) result }
{
    write_free(hall, vol)?;
    make_durable(hall)
}

/// Makes the writes durable. After an error they are pending as before.
pub fn make_durable<H: Hall>(hall: &mut H) -> Result<(), Device>
    ensures files { IsTrue H.tells → AfterSync (H.meaning hall.old) (H.meaning hall.new) result }
    ensures faults { DeviceCall (H.facts hall.old) (H.facts hall.new) result }
{
    hall.sync()?;
    Ok(())
}
