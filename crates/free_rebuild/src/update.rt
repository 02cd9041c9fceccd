//! The two ends of each change of a VTOC.
ghost use Rattle.std.specs.Prelude.{◌≡◌, slice_index_or, true, IsTrue, OnOk};
ghost use Rattle.hall_core.specs.Facts.{DeviceCall, unit_of};
ghost use Rattle.hall_core.specs.Told.{ImageHas};
ghost use Rattle.stop_model.specs.Moments.{IsDurable};
ghost use Rattle.pack_spec.specs.Settled.{IsMarked};
ghost use Rattle.pack_spec.specs.Slots.{slots_of_vtoc};
ghost use Rattle.vtoc_index.specs.Bits.{with_bit};
ghost use Rattle.vtoc_index.specs.Index.{IsIndexOf, IsMounted, IsOfUnit};
ghost use Rattle.vtoc_index.specs.Names.{AreByName, name_at};
ghost use Rattle.vtoc_index.specs.Puts.{IsReplaced};
ghost use Rattle.free_rebuild.specs.Chain.{IsOpenAt};
ghost use Rattle.free_rebuild.specs.Durable.{IsRewritten, StaysAlike};
ghost use Rattle.free_rebuild.specs.Updates.{Concludes, KeepsIndex, Marks};

use crate::chain::write_free;
use crate::checks::check_front;
use crate::clearing::clear_unused;
use crate::durable::{make_durable, mark_durably};
use crate::repair::settle;
use dscb_codec::Dscb;
use hall_core::{Device, Hall};
use vtoc_index::Vol;

/// Begins a change of the VTOC: sets the bit of an interrupted update in format 4, durably.
///
/// A stop leaves the image as before, or with that bit. `Device` comes only where the count of its faults rose;
/// then the index may be that of no image.
pub fn mark<H: Hall>(hall: &mut H, vol: &mut Vol) -> Result<(), Device>
    requires unit { IsOfUnit (H.facts hall.old).units vol.old }
    requires mounted { ImageHas H.Hall hall.old vol.old.unit (λ image. IsMounted image vol.old) }
    requires durable { IsTrue H.tells → IsDurable (H.meaning hall.old) }
    ensures files { IsTrue H.tells → Marks (unit_of (H.facts hall.old).units vol.old.unit).name
        vol.new (H.meaning hall.old) (H.meaning hall.new) result }
    ensures index { let d = with_bit true (slice_index_or vol.old.slots.items 0 Dscb.F0) in
        OnOk result (IsReplaced 0 d vol.old vol.new) }
    ensures names { AreByName (name_at vol.old.slots.items) vol.old.by_name.items
        → OnOk result (AreByName (name_at vol.new.slots.items) vol.new.by_name.items) }
    ensures others { vol.new ≡ record vol.old { slots = vol.new.slots; buf = vol.new.buf } }
    ensures unit { IsOfUnit (H.facts hall.new).units vol.new }
    ensures faults { DeviceCall (H.facts hall.old) (H.facts hall.new) result }
{
    mark_durably(hall, vol)
}

/// Ends a change of the VTOC of an image whose format 4 has a bit of an interrupted update on: clears what
/// belongs to nothing and writes the chain of free space, in one sync; then writes format 4 with both bits off
/// and the right counts, and syncs.
///
/// A stop leaves an image that stands for the same volume and is guarded. It takes no memory; `Device` comes
/// only where the count of its faults rose; then the index may be that of no image.
pub fn conclude<H: Hall>(hall: &mut H, vol: &mut Vol) -> Result<(), Device>
    requires unit { IsOfUnit (H.facts hall.old).units vol.old }
    requires mounted { ImageHas H.Hall hall.old vol.old.unit (λ image. IsMounted image vol.old) }
    requires marked { ImageHas H.Hall hall.old vol.old.unit (λ image.
        IsMarked (slots_of_vtoc image vol.old.geometry vol.old.vtoc)) }
    requires durable { IsTrue H.tells → IsDurable (H.meaning hall.old) }
    ensures files { IsTrue H.tells → Concludes (unit_of (H.facts hall.old).units vol.old.unit).name
        vol.new (H.meaning hall.old) (H.meaning hall.new) result }
    ensures names { AreByName (name_at vol.old.slots.items) vol.old.by_name.items
        → OnOk result (AreByName (name_at vol.new.slots.items) vol.new.by_name.items) }
    ensures others { vol.new ≡ record vol.old { slots = vol.new.slots; buf = vol.new.buf } }
    ensures unit { IsOfUnit (H.facts hall.new).units vol.new }
    ensures faults { DeviceCall (H.facts hall.old) (H.facts hall.new) result }
{
    check_front(hall, vol)?;
    conclude_checked(hall, vol)
}

// The same where slot 1 is open. The chain is durable before the bits go off: else a stop could leave them off
// over an old chain.
fn conclude_checked<H: Hall>(hall: &mut H, vol: &mut Vol) -> Result<(), Device>
    requires unit { IsOfUnit (H.facts hall.old).units vol.old }
    requires first { IsOpenAt vol.old.slots.items 1 }
    requires mounted { ImageHas H.Hall hall.old vol.old.unit (λ image. IsMounted image vol.old) }
    requires marked { ImageHas H.Hall hall.old vol.old.unit (λ image.
        IsMarked (slots_of_vtoc image vol.old.geometry vol.old.vtoc)) }
    requires durable { IsTrue H.tells → IsDurable (H.meaning hall.old) }
    ensures files { IsTrue H.tells → Concludes (unit_of (H.facts hall.old).units vol.old.unit).name
        vol.new (H.meaning hall.old) (H.meaning hall.new) result }
    ensures index { KeepsIndex H.Hall hall.new vol.old vol.new result }
    ensures faults { DeviceCall (H.facts hall.old) (H.facts hall.new) result }
{
    rewrite_durably(hall, vol)?;
    settle(hall, vol)
}

// Clears what belongs to nothing and writes the chain of free space, in one sync.
fn rewrite_durably<H: Hall>(hall: &mut H, vol: &mut Vol) -> Result<(), Device>
    requires unit { IsOfUnit (H.facts hall.old).units vol.old }
    requires index { ImageHas H.Hall hall.old vol.old.unit (λ image. IsIndexOf image vol.old) }
    requires first { IsTrue H.tells → IsOpenAt vol.old.slots.items 1 }
    requires durable { IsTrue H.tells → IsDurable (H.meaning hall.old) }
    ensures files { IsTrue H.tells → StaysAlike (unit_of (H.facts hall.old).units vol.old.unit).name
        vol.old (H.meaning hall.old) (H.meaning hall.new) result }
    ensures slots { OnOk result (IsRewritten vol.old vol.new.slots.items) }
    ensures index { ImageHas H.Hall hall.new vol.old.unit (λ image.
        OnOk result (IsIndexOf image vol.new)) }
    ensures durable { IsTrue H.tells → OnOk result (IsDurable (H.meaning hall.new)) }
    ensures names { AreByName (name_at vol.old.slots.items) vol.old.by_name.items
        → OnOk result (AreByName (name_at vol.new.slots.items) vol.new.by_name.items) }
    ensures others { vol.new ≡ record vol.old { slots = vol.new.slots; buf = vol.new.buf } }
    ensures unit { IsOfUnit (H.facts hall.new).units vol.new }
    ensures faults { DeviceCall (H.facts hall.old) (H.facts hall.new) result }
{
    clear_unused(hall, vol)?;
    write_free(hall, vol)?;
    make_durable(hall)
}
