//! The chain of format 5 DSCBs, written.
ghost use Rattle.std.specs.Prelude.{◌≡◌, ◌<◌, ◌≤◌, ◌+◌, List, length, replicate, IsTrue, OnOk, Some, if◌then◌else◌};
ghost use Rattle.hall_core.specs.Facts.{Attached, DeviceCall, unit_of};
ghost use Rattle.hall_core.specs.Images.{image_in};
ghost use Rattle.pack_spec.specs.FreeChain.{dscbs_for, entries_in, entries_of};
ghost use Rattle.pack_spec.specs.Label.{heads_of};
ghost use Rattle.vtoc_index.specs.Index.{IsIndexOf, IsOfUnit, address_in};
ghost use Rattle.vtoc_index.specs.Names.{AreByName, name_at};
ghost use Rattle.free_rebuild.specs.Chain.{IsOpenAt, chained, next_or, space_of};
ghost use Rattle.free_rebuild.specs.Stops.{KeepsAlike};

use crate::checks::check_front;
use crate::slots::next_open;
use crate::space::{dscbs_for, space_dscb};
use dscb_codec::Dscb;
use hall_core::{Device, Hall};
use vtoc_index::{Vol, put_slot, slot_address};

// A DSCB of the chain, and the slot of the next one.
#[derive(Clone, Copy)]
struct Link {
    dscb: Dscb,
    next: u32,
}

/// Writes the chain of format 5 DSCBs, which lists the free runs of the index: from slot 1 on, 26 entries a
/// DSCB, the later ones in the lowest slots that are free or of format 5.
///
/// The writes are pending until a sync is done; a stop leaves any of them. `Device` comes only where the count of
/// its faults rose.
pub fn write_free<H: Hall>(hall: &mut H, vol: &mut Vol) -> Result<(), Device>
    requires unit { IsOfUnit (H.facts hall.old).units vol.old }
    requires index { let image = image_in (H.meaning hall.old) (H.facts hall.old) vol.old.unit in
        IsTrue H.tells → IsIndexOf image vol.old }
    requires first { IsTrue H.tells → IsOpenAt vol.old.slots.items 1 }
    ensures files { IsTrue H.tells → KeepsAlike (unit_of (H.facts hall.old).units vol.old.unit).name
        vol.old (H.meaning hall.old) (H.meaning hall.new) result }
    ensures chain { OnOk result (vol.new.slots.items ≡ chained (address_in vol.old)
        vol.old.slots.items 1 (entries_of (heads_of vol.old.geometry) vol.old.free.items)) }
    ensures index { let image = image_in (H.meaning hall.new) (H.facts hall.new) vol.old.unit in
        IsTrue H.tells → OnOk result (IsIndexOf image vol.new) }
    ensures names { AreByName (name_at vol.old.slots.items) vol.old.by_name.items
        → OnOk result (AreByName (name_at vol.new.slots.items) vol.new.by_name.items) }
    ensures others { vol.new ≡ record vol.old { slots = vol.new.slots; buf = vol.new.buf } }
    ensures unit { IsOfUnit (H.facts hall.new).units vol.new }
    ensures faults { DeviceCall (H.facts hall.old) (H.facts hall.new) result }
{
    check_front(hall, vol)?;
    write_chain(hall, vol)
}

// The same where slot 1 is open.
fn write_chain<H: Hall>(hall: &mut H, vol: &mut Vol) -> Result<(), Device>
    requires unit { IsOfUnit (H.facts hall.old).units vol.old }
    requires few { length vol.old.free.items ≤ 65535 }
    requires index { let image = image_in (H.meaning hall.old) (H.facts hall.old) vol.old.unit in
        IsTrue H.tells → IsIndexOf image vol.old }
    requires first { IsOpenAt vol.old.slots.items 1 }
    ensures files { IsTrue H.tells → KeepsAlike (unit_of (H.facts hall.old).units vol.old.unit).name
        vol.old (H.meaning hall.old) (H.meaning hall.new) result }
    ensures chain { OnOk result (vol.new.slots.items ≡ chained (address_in vol.old)
        vol.old.slots.items 1 (entries_of (heads_of vol.old.geometry) vol.old.free.items)) }
    ensures index { let image = image_in (H.meaning hall.new) (H.facts hall.new) vol.old.unit in
        IsTrue H.tells → OnOk result (IsIndexOf image vol.new) }
    ensures others { vol.new ≡ record vol.old { slots = vol.new.slots; buf = vol.new.buf } }
    ensures unit { IsOfUnit (H.facts hall.new).units vol.new }
    ensures faults { DeviceCall (H.facts hall.old) (H.facts hall.new) result }
{
    let count = dscbs_for(vol.free.len());
    let mut slot = 1;
    for number in 0..count {
        let link = link_at(vol, slot, number, number + 1 < count);
        put_slot(hall, vol, slot, &link.dscb)?;
        slot = link.next;
    }
    Ok(())
}

// The DSCB of this number in the chain, which stands in a slot and leads to the next one, if there are more.
fn link_at(vol: &Vol, slot: u32, number: usize, more: bool) -> Link
    requires unit { (units : List Attached) × IsOfUnit units vol.now }
    requires slot { slot < length vol.now.slots.items }
    requires number { number < 2522 }
    ensures next { result.next ≡ (if more then next_or vol.now.slots.items slot else slot) }
    ensures inside { result.next < length vol.now.slots.items }
    ensures dscb { result.dscb ≡ space_of
        (entries_in (heads_of vol.now.geometry) vol.now.free.items number)
        (if more then address_in vol.now result.next else replicate 5 0) }
{
    let next = if more { next_slot(vol, slot) } else { slot };
    let pointer = if more {
        slot_address(vol, next)
    } else {
        [0; 5]
    };
    Link {
        dscb: space_dscb(&vol.free, vol.geometry.device.heads(), number, pointer),
        next,
    }
}

// The first slot after one that is free, or of format 5; that slot itself where there is none.
fn next_slot(vol: &Vol, slot: u32) -> u32
    requires few { length vol.now.slots.items ≤ 65535 }
    requires slot { slot < length vol.now.slots.items }
    ensures next { result ≡ next_or vol.now.slots.items slot }
    ensures inside { result < length vol.now.slots.items }
{
    match next_open(&vol.slots, slot as usize + 1) {
        Some(next) => next as u32,
        None => slot,
    }
}
