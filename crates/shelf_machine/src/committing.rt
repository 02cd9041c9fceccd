//! The blocks that a writer put, made those of their data set.
ghost use Rattle.std.specs.Prelude.{◌≡◌, List, Some, true, IsErrOf, IsTrue, OnOk};
ghost use Rattle.hall_core.specs.Facts.{DeviceCall, ReportedCall};
ghost use Rattle.vol_model.specs.Calls.{sound_after};
ghost use Rattle.vol_model.specs.Places.{Content};
ghost use Rattle.vol_model.specs.Shelf.{written};
ghost use Rattle.vol_model.specs.Writing.{blocks_for, target_body, writes};
ghost use Rattle.vol_model.specs.declared.refusals.Refusal.{Refusal};
ghost use Rattle.vol_model.specs.declared.refusals.Refusal.TheVariants.{NoRoom};
ghost use Rattle.shelf_machine.specs.Committing.{ClosesOn, CommitsOn, writer_after};
ghost use Rattle.shelf_machine.specs.Machine.{AreIndexes, AreInOrder, base_of, placed_in, shelf_under, units_of};
ghost use Rattle.shelf_machine.specs.Opening.{names_of};
ghost use Rattle.shelf_machine.specs.OpenWriters.{HasWriter};
ghost use Rattle.shelf_machine.specs.Pending.{HasSlot};
ghost use Rattle.shelf_machine.specs.ReadyPacks.{AreReady, caches_of, vols_of};

use crate::puts::place_ends;
use crate::writer::Writer;
use crate::writing::{abandoned, settle};
use hall_core::{Device, Hall};
use pack_machine::Pack;
use seq_access::commit;
use vol_model::MachErr;

// Closes a writer: places the end-of-file blocks that an area wants yet, and makes its blocks those of its data set.
pub(crate) fn close_writer<H: Hall>(
    hall: &mut H,
    packs: &mut Vec<Pack>,
    writer: &mut Writer,
    done: &mut u64,
) -> Result<(), MachErr>
    requires writer { HasWriter H.tells (H.facts hall.old) (H.meaning hall.old) packs.old.items writer.old }
    ensures shelf { IsTrue H.tells → ClosesOn (H.facts hall.old).units (H.facts hall.new).units
        (vols_of packs.old.items) (vols_of packs.new.items) writer.old writer.new (H.meaning hall.old)
        (H.meaning hall.new) done.old done.new result }
    ensures indexes { AreIndexes (H.facts hall.new).units (vols_of packs.new.items) }
    ensures ready { sound_after result ≡ true → AreReady H.tells (H.facts hall.new) (H.meaning hall.new)
        packs.new.items }
    ensures slot { sound_after result ≡ true → HasSlot (vols_of packs.new.items) (writer_after result writer.new) }
    ensures base { base_of (H.facts hall.new) (vols_of packs.new.items)
        ≡ base_of (H.facts hall.old) (vols_of packs.old.items) }
    ensures refused { (r : Refusal) → IsErrOf result (MachErr.Refused r) → r ≡ NoRoom }
    ensures memory { IsErrOf result MachErr.Memory → ⊥ }
    ensures print { IsErrOf result MachErr.Print → ⊥ }
    ensures faults { ReportedCall (IsErrOf result MachErr.Device) (H.facts hall.old)
        (H.facts hall.new) }
{
    match place_ends(hall, packs, writer, done) {
        Ok(()) => match commit_on(hall, packs, *writer) {
            Ok(()) => {
                *done = done.saturating_add(1);
                Ok(())
            }
            Err(Device) => Err(MachErr::Device),
        },
        Err(error) => Err(error),
    }
}

// The writer that stays after a close: one that was abandoned, whose blocks aren't those of its set.
pub(crate) fn left_of(closed: &Result<(), MachErr>, writer: Writer) -> Option<Writer>
    ensures { result ≡ writer_after closed.now writer }
{
    match closed {
        Ok(()) => None,
        Err(_) => abandoned(Some(writer)),
    }
}

// Makes all blocks that a writer placed those of its data set, durably. Where it placed none, all is made durable that an
// earlier call left pending.
fn commit_on<H: Hall>(hall: &mut H, packs: &mut Vec<Pack>, writer: Writer) -> Result<(), Device>
    requires writer { HasWriter H.tells (H.facts hall.old) (H.meaning hall.old) packs.old.items writer }
    ensures shelf { let names = names_of (H.facts hall.old).units (units_of (vols_of packs.old.items)) in
        let names' = names_of (H.facts hall.new).units (units_of (vols_of packs.new.items)) in
        let shelf = shelf_under names (H.meaning hall.old).state in
        let placed = placed_in (H.meaning hall.old).state (H.facts hall.old).units (vols_of packs.old.items) writer in
        IsTrue H.tells → (cs : List Content)
        → placed.puts ≡ written writer.mode (target_body shelf placed.target) cs
        → CommitsOn (writes placed.target (blocks_for shelf placed.target cs)) names names'
        (H.facts hall.new).units (vols_of packs.old.items) (vols_of packs.new.items)
        (caches_of packs.new.items) (H.meaning hall.old)
        (H.meaning hall.new) result }
    ensures indexes { AreIndexes (H.facts hall.new).units (vols_of packs.new.items) }
    ensures order { OnOk result (AreInOrder (vols_of packs.new.items)) }
    ensures base { base_of (H.facts hall.new) (vols_of packs.new.items)
        ≡ base_of (H.facts hall.old) (vols_of packs.old.items) }
    ensures faults { DeviceCall (H.facts hall.old) (H.facts hall.new) result }
{
    let pack = &mut packs[usize::from(writer.v)];
    pack.cache.buf.forget();
    if writer.inner.blocks == 0 {
        return settle(hall, &mut Some(writer));
    }
    commit(hall, &mut pack.vol, writer.inner)
}
