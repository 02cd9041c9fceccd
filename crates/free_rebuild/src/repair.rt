//! The repair of a VTOC.
ghost use Rattle.std.specs.Prelude.{◌≡◌, ◌≤◌, length, slice_index_or, IsErrOf, IsTrue, OnOk};
ghost use Rattle.hall_core.specs.Facts.{DeviceCall, ReportedCall, unit_of};
ghost use Rattle.hall_core.specs.Told.{ImageHas};
ghost use Rattle.stop_model.specs.Moments.{IsDurable};
ghost use Rattle.vtoc_index.specs.Index.{IsIndexOf, IsMounted, IsOfUnit, address_in};
ghost use Rattle.vtoc_index.specs.Names.{AreByName, name_at};
ghost use Rattle.vtoc_index.specs.Puts.{IsReplaced};
ghost use Rattle.free_rebuild.specs.Chain.{IsOpenAt};
ghost use Rattle.free_rebuild.specs.Clearing.{free_in, highest_among, with_counts};
ghost use Rattle.free_rebuild.specs.Durable.{PutsDurably};
ghost use Rattle.free_rebuild.specs.Repairs.{Repairs};
ghost use Rattle.free_rebuild.specs.Updates.{KeepsIndex};

use crate::checks::check_front;
use crate::durable::{clear_durably, mark_durably, put_durably, write_durably};
use crate::highest::highest_in;
use crate::slots::{free_count, with_counts};
use dscb_codec::Dscb;
use hall_core::{Device, Hall};
use vol_model::WorkErr;
use vtoc_index::Vol;

/// Repairs the VTOC of a volume: format 4 with the bit of an interrupted update on; what belongs to nothing
/// cleared; the chain of free space; format 4 with both bits off and the right counts. Each is made durable
/// before the next.
///
/// A stop at any moment leaves an image that stands for the same volume, and that is guarded or has the VTOC
/// of its entry, so a repair that was stopped may be done again. It takes no memory; `Device` comes only where
/// the count of its faults rose. After it the index may be that of no image.
pub fn rebuild<H: Hall>(hall: &mut H, vol: &mut Vol) -> Result<(), WorkErr>
    requires unit { IsOfUnit (H.facts hall.old).units vol.old }
    requires mounted { ImageHas H.Hall hall.old vol.old.unit (λ image. IsMounted image vol.old) }
    requires durable { IsTrue H.tells → IsDurable (H.meaning hall.old) }
    ensures files { IsTrue H.tells → Repairs (unit_of (H.facts hall.old).units vol.old.unit).name
        vol.new (H.meaning hall.old) (H.meaning hall.new) result }
    ensures names { AreByName (name_at vol.old.slots.items) vol.old.by_name.items
        → OnOk result (AreByName (name_at vol.new.slots.items) vol.new.by_name.items) }
    ensures others { vol.new ≡ record vol.old { slots = vol.new.slots; buf = vol.new.buf } }
    ensures unit { IsOfUnit (H.facts hall.new).units vol.new }
    ensures memory { ¬ IsErrOf result WorkErr.Memory }
    ensures faults { ReportedCall (IsErrOf result WorkErr.Device) (H.facts hall.old)
        (H.facts hall.new) }
{
    match rebuild_all(hall, vol) {
        Ok(()) => Ok(()),
        Err(Device) => Err(WorkErr::Device),
    }
}

// The steps of a repair, where slot 1 is open.
fn rebuild_all<H: Hall>(hall: &mut H, vol: &mut Vol) -> Result<(), Device>
    requires unit { IsOfUnit (H.facts hall.old).units vol.old }
    requires mounted { ImageHas H.Hall hall.old vol.old.unit (λ image. IsMounted image vol.old) }
    requires durable { IsTrue H.tells → IsDurable (H.meaning hall.old) }
    ensures files { IsTrue H.tells → Repairs (unit_of (H.facts hall.old).units vol.old.unit).name
        vol.new (H.meaning hall.old) (H.meaning hall.new) result }
    ensures index { KeepsIndex H.Hall hall.new vol.old vol.new result }
    ensures faults { DeviceCall (H.facts hall.old) (H.facts hall.new) result }
{
    check_front(hall, vol)?;
    rebuild_checked(hall, vol)
}

// The steps of a repair, each made durable: else a stop could leave an old chain, or a part of the new one,
// over which no bit is on.
fn rebuild_checked<H: Hall>(hall: &mut H, vol: &mut Vol) -> Result<(), Device>
    requires unit { IsOfUnit (H.facts hall.old).units vol.old }
    requires first { IsOpenAt vol.old.slots.items 1 }
    requires mounted { ImageHas H.Hall hall.old vol.old.unit (λ image. IsMounted image vol.old) }
    requires durable { IsTrue H.tells → IsDurable (H.meaning hall.old) }
    ensures files { IsTrue H.tells → Repairs (unit_of (H.facts hall.old).units vol.old.unit).name
        vol.new (H.meaning hall.old) (H.meaning hall.new) result }
    ensures index { KeepsIndex H.Hall hall.new vol.old vol.new result }
    ensures faults { DeviceCall (H.facts hall.old) (H.facts hall.new) result }
{
    mark_durably(hall, vol)?;
    clear_durably(hall, vol)?;
    write_durably(hall, vol)?;
    settle(hall, vol)
}

// Clears both bits, and tells how many DSCBs are free and which format 1 is the last, durably.
pub(crate) fn settle<H: Hall>(hall: &mut H, vol: &mut Vol) -> Result<(), Device>
    requires unit { IsOfUnit (H.facts hall.old).units vol.old }
    requires some { 1 ≤ length vol.old.slots.items }
    requires index { ImageHas H.Hall hall.old vol.old.unit (λ image. IsIndexOf image vol.old) }
    requires durable { IsTrue H.tells → IsDurable (H.meaning hall.old) }
    ensures files { let items = vol.old.slots.items in
        let d = with_counts (free_in items) (highest_among (address_in vol.old) items)
        (slice_index_or items 0 Dscb.F0) in
        IsTrue H.tells → PutsDurably (unit_of (H.facts hall.old).units vol.old.unit).name
        vol.old 0 d vol.new (H.meaning hall.old) (H.meaning hall.new) result }
    ensures index { let items = vol.old.slots.items in
        let d = with_counts (free_in items) (highest_among (address_in vol.old) items)
        (slice_index_or items 0 Dscb.F0) in
        OnOk result (IsReplaced 0 d vol.old vol.new) }
    ensures others { vol.new ≡ record vol.old { slots = vol.new.slots; buf = vol.new.buf } }
    ensures unit { IsOfUnit (H.facts hall.new).units vol.new }
    ensures faults { DeviceCall (H.facts hall.old) (H.facts hall.new) result }
{
    let off = with_counts(free_count(&vol.slots), highest_in(vol), vol.slots[0]);
    put_durably(hall, vol, 0, &off)
}
