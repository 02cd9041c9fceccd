//! A writer of blocks on one of several packs, and the sync that makes durable what an abandoned one put.
ghost use Rattle.std.specs.Prelude.{◌≡◌, ◌<◌, ◌≤◌, ℕ, List, length, true, None, Some, IfOk, IfSome, IsErrOf, IsOk, IsTrue, OnErr, OnOk};
ghost use Rattle.hall_core.specs.Facts.{Attached, DeviceCall, ReportedCall};
ghost use Rattle.stop_model.specs.Files.{File};
ghost use Rattle.stop_model.specs.Moments.{IsDurable};
ghost use Rattle.vol_model.specs.Calls.{sound_after};
ghost use Rattle.vol_model.specs.Lawful.{IsLawfulOp};
ghost use Rattle.vol_model.specs.Writing.{begin_refusal, begun, body_on};
ghost use Rattle.vol_model.specs.declared.contents.Shelf.{Shelf};
ghost use Rattle.vtoc_index.specs.Index.{IsOfUnit, first_named};
ghost use Rattle.vtoc_index.specs.Names.{AreByName, name_at};
ghost use Rattle.shelf_machine.specs.Fronts.{IsFrontIn};
ghost use Rattle.shelf_machine.specs.Machine.{AreIndexes, AreInOrder, AreKept, base_of, is_open_in, placed_in, shelf_under, units_of, writer_in};
ghost use Rattle.shelf_machine.specs.Opening.{names_of};
ghost use Rattle.shelf_machine.specs.OpenWriters.{HasWriter, KeepsPuts};
ghost use Rattle.shelf_machine.specs.Pending.{HasSlot, IsBegunAt, IsBegunOn, IsFor, IsInSlot, IsPendingBy, Settles, closed};
ghost use Rattle.pack_machine.specs.Reads.{HasVolume};
ghost use Rattle.shelf_machine.specs.Putting.{DidPut, IsDue, PutsOn};
ghost use Rattle.shelf_machine.specs.ReadyPacks.{AreAlike, AreReady, LeavesPacks, caches_of, vols_of};
ghost use Rattle.pack_machine.specs.Ready.{reported};

use crate::operations::{extend_at, operate};
use crate::writer::Writer;
use ebcdic_names::Dsn;
use hall_core::{Device, Hall};
use pack_machine::{AreaStart, Pack};
use seq_access::{PutErr, abandon, begin, put};
use std::alloc::Global;
use vol_model::{Mode, Op, Place, StoreErr, is_catalog};
use vtoc_index::{Vol, find};

// Makes durable what an abandoned writer put, and forgets that writer. Where there is none nothing is called.
pub(crate) fn settle<H: Hall>(hall: &mut H, writer: &mut Option<Writer>) -> Result<(), Device>
    requires durable { IsTrue H.tells → writer.old ≡ None → IsDurable (H.meaning hall.old) }
    ensures files { IsTrue H.tells → Settles (H.meaning hall.old) (H.meaning hall.new) result }
    ensures done { OnOk result (writer.new ≡ None) }
    ensures failed { OnErr result (writer.new ≡ writer.old) }
    ensures faults { DeviceCall (H.facts hall.old) (H.facts hall.new) result }
{
    let Some(_) = *writer else {
        return Ok(());
    };
    match hall.sync() {
        Ok(()) => {
            *writer = None;
            Ok(())
        }
        Err(_) => Err(Device),
    }
}

// The writer, closed: what it put is pending still, and none of the set's.
pub(crate) fn abandoned(writer: Option<Writer>) -> Option<Writer>
    ensures { result ≡ closed writer }
{
    let mut writer = writer?;
    abandon(writer.inner);
    writer.is_open = false;
    Some(writer)
}

// Does an operation on one of the packs, once nothing is pending.
pub(crate) fn operate_settled<H: Hall>(
    alloc: Global,
    hall: &mut H,
    packs: &mut Vec<Pack>,
    writer: &mut Option<Writer>,
    op: &Op,
) -> Result<(), StoreErr>
    requires ready { AreReady H.tells (H.facts hall.old) (H.meaning hall.old)
        packs.old.items }
    requires lawful { IsLawfulOp op.now }
    requires slot { HasSlot (vols_of packs.old.items) writer.old }
    requires pending { IsTrue H.tells → IsPendingBy (H.meaning hall.old) (H.facts hall.old).units
        (vols_of packs.old.items) writer.old }
    ensures leaves { LeavesPacks H.tells op.now (H.facts hall.old) (H.facts hall.new)
        (H.meaning hall.old) (H.meaning hall.new) packs.old.items packs.new.items result }
    ensures writer { sound_after (reported result) ≡ true → writer.new ≡ None }
{
    match settle(hall, writer) {
        Ok(()) => operate(alloc, hall, packs, op),
        Err(_) => Err(StoreErr::Device),
    }
}

// Opens a writer on a data set to which blocks can be written, once nothing is pending; false where there is no such set.
pub(crate) fn open_writer<H: Hall>(
    hall: &mut H,
    packs: &mut Vec<Pack>,
    writer: &mut Option<Writer>,
    v: u8,
    dsn: &Dsn,
    mode: Mode,
    front: AreaStart,
) -> Result<bool, Device>
    requires ready { AreReady H.tells (H.facts hall.old) (H.meaning hall.old)
        packs.old.items }
    requires pending { IsTrue H.tells → IsPendingBy (H.meaning hall.old) (H.facts hall.old).units
        (vols_of packs.old.items) writer.old }
    requires slot { HasSlot (vols_of packs.old.items) writer.old }
    requires well { let shelf = shelf_under (names_of (H.facts hall.old).units (units_of (vols_of packs.old.items)))
        (H.meaning hall.old).state in
        IsTrue H.tells → begin_refusal shelf (record { v = v; dsn = dsn.now; mode = mode }) ≡ None }
    requires front { let shelf = shelf_under (names_of (H.facts hall.old).units (units_of (vols_of packs.old.items)))
        (H.meaning hall.old).state in
        IsTrue H.tells → IsFrontIn mode front (body_on shelf v dsn.now.bytes) }
    ensures files { IsTrue H.tells → Settles (H.meaning hall.old) (H.meaning hall.new) result }
    ensures opened { IfOk result (λ is. is ≡ is_open_in writer.new) }
    ensures slot { HasSlot (vols_of packs.old.items) writer.new }
    ensures pending { IsTrue H.tells → IsPendingBy (H.meaning hall.new) (H.facts hall.new).units
        (vols_of packs.old.items) writer.new }
    ensures writer { IsTrue H.tells → IfOk result (λ is. is ≡ true
        → writer_in (H.meaning hall.new).state (H.facts hall.new).units (vols_of packs.old.items) writer.new
        ≡ begun (record { v = v; dsn = dsn.now; mode = mode })) }
    ensures failed { OnErr result (writer.new ≡ writer.old) }
    ensures same { AreAlike packs.old.items packs.new.items }
    ensures faults { DeviceCall (H.facts hall.old) (H.facts hall.new) result }
{
    match settle(hall, writer) {
        Ok(()) => {
            *writer = writer_on(hall, packs, v, dsn, mode, front);
            Ok(writer.is_some())
        }
        Err(_) => Err(Device),
    }
}

// A writer after the blocks of the data set of this name on the pack of this number, where there is one.
fn writer_on<H: Hall>(
    hall: &mut H,
    packs: &mut Vec<Pack>,
    v: u8,
    dsn: &Dsn,
    mode: Mode,
    front: AreaStart,
) -> Option<Writer>
    requires order { AreInOrder (vols_of packs.old.items) }
    ensures slot { HasSlot (vols_of packs.old.items) result }
    ensures target { IfSome result (IsFor v dsn.now mode) }
    ensures begun { (files : List File) (attached : List Attached) → AreIndexes attached (vols_of packs.old.items)
        → AreKept files attached (vols_of packs.old.items)
        → let shelf = shelf_under (names_of attached (units_of (vols_of packs.old.items))) files in
        begin_refusal shelf (record { v = v; dsn = dsn.now; mode = mode }) ≡ None
        → IsFrontIn mode front (body_on shelf v dsn.now.bytes)
        → IfSome result (IsBegunOn files attached (vols_of packs.old.items)) }
    ensures hall { hall.new ≡ hall.old }
    ensures same { AreAlike packs.old.items packs.new.items }
{
    let k = usize::from(v);
    if k >= packs.len() {
        return None;
    }
    writer_at(hall, &mut packs[k].vol, v, dsn, mode, front)
}

// The same on this pack.
fn writer_at<H: Hall>(
    hall: &mut H,
    vol: &mut Vol,
    v: u8,
    dsn: &Dsn,
    mode: Mode,
    front: AreaStart,
) -> Option<Writer>
    requires names { AreByName (name_at vol.old.slots.items) vol.old.by_name.items }
    ensures slot { IfSome result (IsInSlot vol.old) }
    ensures target { IfSome result (IsFor v dsn.now mode) }
    ensures begun { (shelf : Shelf) (n : ℕ) (has : HasVolume shelf n vol.old)
        → begin_refusal shelf (record { v = n; dsn = dsn.now; mode = mode }) ≡ None
        → IsFrontIn mode front (body_on shelf n dsn.now.bytes)
        → IfSome result (IsBegunAt has.image vol.old) }
    ensures same { (hall.new ≡ hall.old) × (vol.new ≡ vol.old) }
{
    if is_catalog(dsn) {
        return None;
    }
    let Some(slot) = find(vol, dsn) else {
        return None;
    };
    let Ok(inner) = begin(hall, vol, slot, front.end) else {
        unreachable!()
    };
    Some(Writer {
        v,
        dsn: *dsn,
        mode,
        inner,
        owes_end_of_file: front.owes_end_of_file,
        is_open: true,
    })
}

// Puts a block after those of the open writer, where its set owns a track for it.
pub(crate) fn put_on_owned_track<H: Hall>(
    hall: &mut H,
    packs: &mut Vec<Pack>,
    writer: &mut Writer,
    key: &[u8],
    payload: &[u8],
) -> Result<Place, PutErr>
    requires writer { HasWriter H.tells (H.facts hall.old) (H.meaning hall.old) packs.old.items writer.old }
    requires key { length key.now ≤ 255 }
    requires payload { length payload.now ≤ 32760 }
    requires due { IsDue writer.old (key.now, payload.now) }
    ensures files { let names = names_of (H.facts hall.old).units (units_of (vols_of packs.old.items)) in
        IsTrue H.tells → PutsOn names (H.facts hall.new).units (vols_of packs.old.items)
        (vols_of packs.new.items) (caches_of packs.new.items) writer.new (H.meaning hall.old) (H.meaning hall.new) result }
    ensures did { let names = names_of (H.facts hall.old).units (units_of (vols_of packs.old.items)) in
        let files = (H.meaning hall.old).state in
        IsTrue H.tells → DidPut (shelf_under names files)
        (placed_in files (H.facts hall.old).units (vols_of packs.old.items) writer.old) (key.now, payload.now)
        (placed_in (H.meaning hall.new).state (H.facts hall.new).units (vols_of packs.new.items) writer.new)
        result }
    ensures indexes { AreIndexes (H.facts hall.new).units (vols_of packs.new.items) }
    ensures ready { ¬ IsErrOf result PutErr.Device → AreReady H.tells (H.facts hall.new) (H.meaning hall.new)
        packs.new.items }
    ensures slot { HasSlot (vols_of packs.new.items) (Some writer.new) }
    ensures same { writer.new ≡ record writer.old { inner = writer.new.inner } }
    ensures placed { OnOk result (0 < writer.new.inner.blocks) }
    ensures stands { OnErr result (writer.new ≡ writer.old) }
    ensures base { base_of (H.facts hall.new) (vols_of packs.new.items)
        ≡ base_of (H.facts hall.old) (vols_of packs.old.items) }
    ensures faults { ReportedCall (IsErrOf result PutErr.Device) (H.facts hall.old)
        (H.facts hall.new) }
{
    let pack = &mut packs[usize::from(writer.v)];
    pack.cache.buf.forget();
    put(hall, &mut pack.vol, &mut writer.inner, key, payload)
}

// More tracks for the set of the open writer, once what it put is durable; it stands after the same blocks then.
pub(crate) fn make_room<H: Hall>(
    hall: &mut H,
    packs: &mut Vec<Pack>,
    writer: &mut Writer,
) -> Result<(), StoreErr>
    requires writer { HasWriter H.tells (H.facts hall.old) (H.meaning hall.old) packs.old.items writer.old }
    ensures leaves { LeavesPacks H.tells (Op.Extend writer.old.v writer.old.dsn) (H.facts hall.old) (H.facts hall.new)
        (H.meaning hall.old) (H.meaning hall.new) packs.old.items packs.new.items result }
    ensures stands { KeepsPuts H.tells (H.facts hall.old) (H.facts hall.new) (H.meaning hall.old)
        (H.meaning hall.new) packs.old.items packs.new.items writer.old writer.new result }
    ensures memory { ¬ IsErrOf result StoreErr.Memory }
    ensures low { writer.old.inner.last.tt < 65536 }
{
    // read, so that its range is known
    let _track = writer.inner.last.tt;
    match hall.sync() {
        Ok(()) => extend_durably(hall, packs, writer),
        Err(_) => Err(StoreErr::Device),
    }
}

// The same, where all is durable already.
fn extend_durably<H: Hall>(
    hall: &mut H,
    packs: &mut Vec<Pack>,
    writer: &mut Writer,
) -> Result<(), StoreErr>
    requires writer { HasWriter H.tells (H.facts hall.old) (H.meaning hall.old) packs.old.items writer.old }
    requires durable { IsTrue H.tells → IsDurable (H.meaning hall.old) }
    ensures leaves { LeavesPacks H.tells (Op.Extend writer.old.v writer.old.dsn) (H.facts hall.old) (H.facts hall.new)
        (H.meaning hall.old) (H.meaning hall.new) packs.old.items packs.new.items result }
    ensures stands { KeepsPuts H.tells (H.facts hall.old) (H.facts hall.new) (H.meaning hall.old)
        (H.meaning hall.new) packs.old.items packs.new.items writer.old writer.new result }
    ensures memory { ¬ IsErrOf result StoreErr.Memory }
{
    extend_at(hall, packs, writer.v, &writer.dsn)?;
    match find_slot(hall, &packs[usize::from(writer.v)].vol, writer) {
        Ok(()) => Ok(()),
        Err(Device) => Err(StoreErr::Device),
    }
}

// Makes the slot of the writer that of its set in this index; there is one on each hall that tells its content.
fn find_slot<H: Hall>(hall: &mut H, vol: &Vol, writer: &mut Writer) -> Result<(), Device>
    requires unit { IsOfUnit (H.facts hall.old).units vol.now }
    requires names { AreByName (name_at vol.now.slots.items) vol.now.by_name.items }
    requires named { IsTrue H.tells
        → (slot : ℕ) × (first_named writer.old.dsn.bytes vol.now.slots.items ≡ Some slot) }
    ensures slot { OnOk result (first_named writer.old.dsn.bytes vol.now.slots.items
        ≡ Some writer.new.inner.slot) }
    ensures others { let inner = record (writer.old.inner) { slot = writer.new.inner.slot } in
        writer.new ≡ record writer.old { inner = inner } }
    ensures told { IsTrue H.tells → IsOk result }
    ensures hall { OnOk result (hall.new ≡ hall.old) }
    ensures faults { DeviceCall (H.facts hall.old) (H.facts hall.new) result }
{
    let Some(slot) = find(vol, &writer.dsn) else {
        hall.differs(vol.unit, vol.vtoc.start);
        return Err(Device);
    };
    writer.inner.slot = slot;
    Ok(())
}
