//! What belongs to nothing in a VTOC, cleared.
ghost use Rattle.std.specs.Prelude.{◌≡◌, ◌<◌, ◌≤◌, List, length, slice_set, IsTrue, OnOk, if◌then◌else◌};
ghost use Rattle.std.specs.List.{list_any};
ghost use Rattle.hall_core.specs.Facts.{Attached, DeviceCall, unit_of};
ghost use Rattle.hall_core.specs.Images.{image_in};
ghost use Rattle.vtoc_index.specs.Index.{IsIndexOf, IsOfUnit, address_in};
ghost use Rattle.free_rebuild.specs.Clearing.{AreCleared, clear_at, is_extra_at};
ghost use Rattle.free_rebuild.specs.Stops.{KeepsAlike};

use crate::slots::is_extra;
use dscb_codec::Dscb;
use hall_core::{Device, Hall};
use vtoc_index::{Vol, put_slot, slot_address};

// Clears the slots after slot 1 that belong to nothing: format 5 DSCBs, and each format 3 that no data set
// leads to. The writes are pending until a sync is done; a stop leaves any of them.
pub(crate) fn clear_unused<H: Hall>(hall: &mut H, vol: &mut Vol) -> Result<(), Device>
    requires unit { IsOfUnit (H.facts hall.old).units vol.old }
    requires index { let image = image_in (H.meaning hall.old) (H.facts hall.old) vol.old.unit in
        IsTrue H.tells → IsIndexOf image vol.old }
    ensures files { IsTrue H.tells → KeepsAlike (unit_of (H.facts hall.old).units vol.old.unit).name
        vol.old (H.meaning hall.old) (H.meaning hall.new) result }
    ensures slots { OnOk result (AreCleared (address_in vol.old) (length vol.old.slots.items)
        vol.old.slots.items vol.new.slots.items) }
    ensures index { let image = image_in (H.meaning hall.new) (H.facts hall.new) vol.old.unit in
        IsTrue H.tells → OnOk result (IsIndexOf image vol.new) }
    ensures others { vol.new ≡ record vol.old { slots = vol.new.slots; buf = vol.new.buf } }
    ensures unit { IsOfUnit (H.facts hall.new).units vol.new }
    ensures faults { DeviceCall (H.facts hall.old) (H.facts hall.new) result }
{
    for slot in 2..vol.slots.len() {
        clear_slot(hall, vol, slot as u32)?;
    }
    Ok(())
}

// Clears a slot after slot 1, where it belongs to nothing.
fn clear_slot<H: Hall>(hall: &mut H, vol: &mut Vol, slot: u32) -> Result<(), Device>
    requires unit { IsOfUnit (H.facts hall.old).units vol.old }
    requires behind { 2 ≤ slot }
    requires slot { slot < length vol.old.slots.items }
    requires index { let image = image_in (H.meaning hall.old) (H.facts hall.old) vol.old.unit in
        IsTrue H.tells → IsIndexOf image vol.old }
    ensures files { IsTrue H.tells → KeepsAlike (unit_of (H.facts hall.old).units vol.old.unit).name
        vol.old (H.meaning hall.old) (H.meaning hall.new) result }
    ensures slots { OnOk result (vol.new.slots.items
        ≡ clear_at (address_in vol.old slot) vol.old.slots.items slot) }
    ensures index { let image = image_in (H.meaning hall.new) (H.facts hall.new) vol.old.unit in
        IsTrue H.tells → OnOk result (IsIndexOf image vol.new) }
    ensures others { vol.new ≡ record vol.old { slots = vol.new.slots; buf = vol.new.buf } }
    ensures unit { IsOfUnit (H.facts hall.new).units vol.new }
    ensures faults { DeviceCall (H.facts hall.old) (H.facts hall.new) result }
{
    if belongs_to_nothing(vol, slot) {
        put_slot(hall, vol, slot, &Dscb::F0)?;
    }
    Ok(())
}

// Whether what a slot holds belongs to nothing.
fn belongs_to_nothing(vol: &Vol, slot: u32) -> bool
    requires unit { (units : List Attached) × IsOfUnit units vol.now }
    requires slot { slot < length vol.now.slots.items }
    ensures { result ≡ is_extra_at (address_in vol.now slot) vol.now.slots.items slot }
{
    let address = slot_address(vol, slot);
    is_extra(&vol.slots, &address, &vol.slots[slot as usize])
}
