//! Operations on a pack.
ghost use Rattle.std.specs.Prelude.{◌≡◌, ◌≤◌, ◌<◌, ◌^◌, ℕ, List, false, IsErrOf, IsTrue, OnErr, OnOk, Some};
ghost use Rattle.hall_core.specs.Facts.{Attached, unit_of};
ghost use Rattle.hall_core.specs.Images.{image_in};
ghost use Rattle.vol_model.specs.Lawful.{IsLawfulOp};
ghost use Rattle.vol_model.specs.Shelf.{allocate_on, empty_on, extend_on, is_catalog, rename_on, scratch_on, step_on};
ghost use Rattle.vol_model.specs.declared.refusals.Refusal.{Refusal};
ghost use Rattle.vol_model.specs.declared.requests.Op.{Op};
ghost use Rattle.vtoc_index.specs.Index.{IsMounted, IsOfUnit};
ghost use Rattle.vtoc_index.specs.Names.{AreByName, name_at};
ghost use Rattle.pack_spec.specs.Settled.{IsSettledVtoc};
ghost use Rattle.pack_spec.specs.Volume.{volume_of};
ghost use Rattle.stop_model.specs.Moments.{IsDurable};
ghost use Rattle.dadsm_ops.specs.Allocating.{HasDirectory, InNewSet, new_tracks};
ghost use Rattle.dadsm_ops.specs.Operations.{InVtoc, Operates, StoreCall, image_named};
ghost use Rattle.vtoc_sets.specs.Sets.{volume_in};
ghost use Rattle.pack_machine.specs.Known.{HoldLibraries, ListsBroken};
ghost use Rattle.mount_repair.specs.Sets.{HasRoom, IsRoomed};
ghost use Rattle.pack_machine.specs.NewSets.{first_track, without_first};
ghost use Rattle.pack_machine.specs.Ready.{IsReady, IsSamePack, Leaves};

use crate::entries::{drop_on, enter_on};
use crate::pack::Pack;
use crate::pack_cache::PackCache;
use crate::refusals::{slot_of, slot_to_empty, slot_to_extend};
use crate::unread::{forget, rename as rename_unread};
use dadsm_ops::{allocate, empty, extend, rename, scratch};
use ebcdic_names::Dsn;
use hall_core::{Device, Hall};
use std::alloc::Global;
use vol_model::{Attr, Op, Refusal, Request, StoreErr, is_catalog};
use vtoc_index::{Vol, find};
use vtoc_sets::track_at;

/// Does an operation on a pack. One on the catalog, which isn't kept yet, answers `Memory`.
#[tactic(auto, unfolding(vol_model::specs::Shelf::step_on))]
pub fn operate_pack<H: Hall>(
    alloc: Global,
    hall: &mut H,
    pack: &mut Pack,
    op: &Op,
) -> Result<(), StoreErr>
    requires ready { IsReady H.tells (H.facts hall.old) (H.meaning hall.old) pack.old }
    requires durable { IsTrue H.tells → IsDurable (H.meaning hall.old) }
    requires lawful { IsLawfulOp op.now }
    ensures leaves { Leaves H.tells (step_on op.now)
        (H.facts hall.old) (H.facts hall.new) (H.meaning hall.old) (H.meaning hall.new)
        pack.old pack.new result }
{
    match op {
        Op::Allocate {
            dsn,
            attr,
            request,
            dir,
            ..
        } => allocate_on(hall, pack, dsn, attr, request, *dir),
        Op::Rename { old, new, .. } => rename_on(hall, pack, old, new),
        Op::Scratch { dsn, .. } => scratch_on(hall, pack, dsn),
        Op::Extend { dsn, .. } => extend_on(hall, pack, dsn),
        Op::Empty { dsn, attr, .. } => empty_on(hall, pack, dsn, attr),
        Op::Enter {
            dsn,
            entry,
            replace,
            ..
        } => enter_on(alloc, hall, pack, dsn, entry, *replace),
        Op::Drop { dsn, name, .. } => drop_on(alloc, hall, pack, dsn, name),
        _ => Err(StoreErr::Memory),
    }
}

// Makes a data set on a pack. A SYSCTLG, whose catalog isn't kept yet, answers `Memory`.
fn allocate_on<H: Hall>(
    hall: &mut H,
    pack: &mut Pack,
    dsn: &Dsn,
    attr: &Attr,
    request: &Request,
    dir: u32,
) -> Result<(), StoreErr>
    requires ready { IsReady H.tells (H.facts hall.old) (H.meaning hall.old) pack.old }
    requires durable { IsTrue H.tells → IsDurable (H.meaning hall.old) }
    requires dir { dir ≤ 2000 }
    requires quantities { request.now.secondary < 2 ^ 24 }
    ensures leaves { Leaves H.tells (allocate_on dsn.now attr.now request.now dir)
        (H.facts hall.old) (H.facts hall.new) (H.meaning hall.old) (H.meaning hall.new)
        pack.old pack.new result }
{
    if is_catalog(dsn) {
        return Err(StoreErr::Memory);
    }
    pack.cache.buf.forget();
    allocate_set(
        hall,
        &mut pack.vol,
        &mut pack.cache,
        dsn,
        attr,
        request,
        dir,
    )
}

// Makes a data set on a volume, and forgets what was held of a scratched one that began on the same track.
fn allocate_set<H: Hall>(
    hall: &mut H,
    vol: &mut Vol,
    known: &mut PackCache,
    dsn: &Dsn,
    attr: &Attr,
    request: &Request,
    dir: u32,
) -> Result<(), StoreErr>
    requires unit { IsOfUnit (H.facts hall.old).units vol.old }
    requires names { AreByName (name_at vol.old.slots.items) vol.old.by_name.items }
    requires mounted { let image = image_in (H.meaning hall.old) (H.facts hall.old) vol.old.unit in
        IsTrue H.tells → IsMounted image vol.old }
    requires settled { let image = image_in (H.meaning hall.old) (H.facts hall.old) vol.old.unit in
        IsTrue H.tells → IsSettledVtoc image }
    requires room { HasRoom vol.old }
    requires durable { IsTrue H.tells → IsDurable (H.meaning hall.old) }
    requires catalog { is_catalog dsn.now.bytes ≡ false }
    requires dir { dir ≤ 2000 }
    requires quantities { request.now.secondary < 2 ^ 24 }
    ensures files { IsTrue H.tells → Operates (unit_of (H.facts hall.old).units vol.old.unit).name
        (allocate_on dsn.now attr.now request.now dir) vol.new (InNewSet request.now dir vol.new)
        (H.meaning hall.old) (H.meaning hall.new) result }
    ensures directory { let name = (unit_of (H.facts hall.old).units vol.old.unit).name in
        IsTrue H.tells → OnOk result (HasDirectory (image_named (H.meaning hall.new).state name)
        vol.new.geometry (new_tracks request.now dir
        (volume_of (image_named (H.meaning hall.old).state name))) dir) }
    ensures unit { IsOfUnit (H.facts hall.new).units vol.new }
    ensures names { OnOk result (AreByName (name_at vol.new.slots.items) vol.new.by_name.items) }
    ensures index { IsSamePack vol.old vol.new }
    ensures refused { (r : Refusal) → IsErrOf result (StoreErr.Refused r) → vol.new ≡ vol.old }
    ensures memory { IsErrOf result StoreErr.Memory → IsRoomed vol.old vol.new }
    ensures known { known.new ≡ record known.old { libraries = known.new.libraries } }
    ensures libraries { let name = (unit_of (H.facts hall.old).units vol.old.unit).name in
        let image = image_named (H.meaning hall.new).state name in
        IsTrue H.tells → OnOk result (known.new.libraries.items
        ≡ without_first (first_track dsn.now.bytes (volume_in image vol.new)) known.old.libraries.items) }
    ensures failed { OnErr result (known.new ≡ known.old) }
    ensures faults { StoreCall (H.facts hall.old) (H.facts hall.new) result }
{
    allocate(hall, vol, dsn, attr, request, dir)?;
    forget_first(vol, known, dsn);
    Ok(())
}

// Forgets the libraries of a pack that begin where its data set of this name does.
fn forget_first(vol: &Vol, known: &mut PackCache, dsn: &Dsn)
    requires unit { (units : List Attached) × IsOfUnit units vol.now }
    requires names { AreByName (name_at vol.now.slots.items) vol.now.by_name.items }
    ensures rest { known.new ≡ record known.old { libraries = known.new.libraries } }
    ensures libraries { (image : List ℕ) → IsMounted image vol.now → known.new.libraries.items
        ≡ without_first (first_track dsn.now.bytes (volume_in image vol.now)) known.old.libraries.items }
{
    let Some((_, set)) = slot_of(vol, dsn) else {
        return;
    };
    let Some(start) = track_at(vol, &set, 0) else {
        return;
    };
    known.libraries.retain(|library| library.start != start);
}

// Renames a data set of a pack.
fn rename_on<H: Hall>(hall: &mut H, pack: &mut Pack, old: &Dsn, new: &Dsn) -> Result<(), StoreErr>
    requires ready { IsReady H.tells (H.facts hall.old) (H.meaning hall.old) pack.old }
    requires durable { IsTrue H.tells → IsDurable (H.meaning hall.old) }
    ensures leaves { Leaves H.tells (rename_on old.now new.now)
        (H.facts hall.old) (H.facts hall.new) (H.meaning hall.old) (H.meaning hall.new)
        pack.old pack.new result }
{
    pack.cache.buf.forget();
    match rename(hall, &mut pack.vol, old, new) {
        Ok(()) => {
            rename_unread(&mut pack.cache.unread, old, new);
            Ok(())
        }
        Err(error) => Err(error),
    }
}

// Removes a data set of a pack.
fn scratch_on<H: Hall>(hall: &mut H, pack: &mut Pack, dsn: &Dsn) -> Result<(), StoreErr>
    requires ready { IsReady H.tells (H.facts hall.old) (H.meaning hall.old) pack.old }
    requires durable { IsTrue H.tells → IsDurable (H.meaning hall.old) }
    ensures leaves { Leaves H.tells (scratch_on dsn.now)
        (H.facts hall.old) (H.facts hall.new) (H.meaning hall.old) (H.meaning hall.new)
        pack.old pack.new result }
{
    pack.cache.buf.forget();
    match scratch_set(hall, &mut pack.vol, dsn) {
        Ok(()) => {
            forget(&mut pack.cache.unread, dsn);
            Ok(())
        }
        Err(error) => Err(error),
    }
}

// Removes a data set of a volume.
fn scratch_set<H: Hall>(hall: &mut H, vol: &mut Vol, dsn: &Dsn) -> Result<(), StoreErr>
    requires unit { IsOfUnit (H.facts hall.old).units vol.old }
    requires names { AreByName (name_at vol.old.slots.items) vol.old.by_name.items }
    requires mounted { let image = image_in (H.meaning hall.old) (H.facts hall.old) vol.old.unit in
        IsTrue H.tells → IsMounted image vol.old }
    requires room { HasRoom vol.old }
    requires durable { IsTrue H.tells → IsDurable (H.meaning hall.old) }
    ensures files { IsTrue H.tells → Operates (unit_of (H.facts hall.old).units vol.old.unit).name
        (scratch_on dsn.now) vol.new (InVtoc vol.new) (H.meaning hall.old)
        (H.meaning hall.new) result }
    ensures unit { IsOfUnit (H.facts hall.new).units vol.new }
    ensures names { OnOk result (AreByName (name_at vol.new.slots.items) vol.new.by_name.items) }
    ensures index { IsSamePack vol.old vol.new }
    ensures refused { (r : Refusal) → IsErrOf result (StoreErr.Refused r) → vol.new ≡ vol.old }
    ensures memory { ¬ IsErrOf result StoreErr.Memory }
    ensures faults { StoreCall (H.facts hall.old) (H.facts hall.new) result }
{
    let Some(slot) = find(vol, dsn) else {
        return Err(StoreErr::Refused(Refusal::NoSet));
    };
    match scratch(hall, vol, slot) {
        Ok(()) => Ok(()),
        Err(Device) => Err(StoreErr::Device),
    }
}

// Empties a data set of a pack.
fn empty_on<H: Hall>(hall: &mut H, pack: &mut Pack, dsn: &Dsn, attr: &Attr) -> Result<(), StoreErr>
    requires ready { IsReady H.tells (H.facts hall.old) (H.meaning hall.old) pack.old }
    requires durable { IsTrue H.tells → IsDurable (H.meaning hall.old) }
    ensures leaves { Leaves H.tells (empty_on dsn.now attr.now)
        (H.facts hall.old) (H.facts hall.new) (H.meaning hall.old) (H.meaning hall.new)
        pack.old pack.new result }
{
    pack.cache.buf.forget();
    empty_set(hall, &mut pack.vol, &pack.cache, dsn, attr)
}

// Empties a data set of a volume. An unreadable one is refused: by that which is known of the bodies. A partitioned one wants
// memory unless its library is held.
fn empty_set<H: Hall>(
    hall: &mut H,
    vol: &mut Vol,
    known: &PackCache,
    dsn: &Dsn,
    attr: &Attr,
) -> Result<(), StoreErr>
    requires unit { IsOfUnit (H.facts hall.old).units vol.old }
    requires names { AreByName (name_at vol.old.slots.items) vol.old.by_name.items }
    requires mounted { let image = image_in (H.meaning hall.old) (H.facts hall.old) vol.old.unit in
        IsTrue H.tells → IsMounted image vol.old }
    requires bodies { let image = image_in (H.meaning hall.old) (H.facts hall.old) vol.old.unit in
        IsTrue H.tells → ListsBroken (volume_in image vol.old) known.now.unread.items }
    requires library { let image = image_in (H.meaning hall.old) (H.facts hall.old) vol.old.unit in
        IsTrue H.tells → HoldLibraries image vol.old known.now.libraries.items }
    requires durable { IsTrue H.tells → IsDurable (H.meaning hall.old) }
    ensures files { IsTrue H.tells → Operates (unit_of (H.facts hall.old).units vol.old.unit).name
        (empty_on dsn.now attr.now) vol.new (InVtoc vol.new) (H.meaning hall.old)
        (H.meaning hall.new) result }
    ensures unit { IsOfUnit (H.facts hall.new).units vol.new }
    ensures names { OnOk result (AreByName (name_at vol.new.slots.items) vol.new.by_name.items) }
    ensures index { IsSamePack vol.old vol.new }
    ensures refused { (r : Refusal) → IsErrOf result (StoreErr.Refused r) → vol.new ≡ vol.old }
    ensures memory { IsErrOf result StoreErr.Memory → IsRoomed vol.old vol.new }
    ensures faults { StoreCall (H.facts hall.old) (H.facts hall.new) result }
{
    let slot = match slot_to_empty(vol, known, dsn) {
        Ok(slot) => slot,
        Err(error) => return Err(error),
    };
    match empty(hall, vol, slot, attr) {
        Ok(()) => Ok(()),
        Err(Device) => Err(StoreErr::Device),
    }
}

/// Extends a data set of a pack.
pub fn extend_on<H: Hall>(hall: &mut H, pack: &mut Pack, dsn: &Dsn) -> Result<(), StoreErr>
    requires ready { IsReady H.tells (H.facts hall.old) (H.meaning hall.old) pack.old }
    requires durable { IsTrue H.tells → IsDurable (H.meaning hall.old) }
    ensures leaves { Leaves H.tells (extend_on dsn.now)
        (H.facts hall.old) (H.facts hall.new) (H.meaning hall.old) (H.meaning hall.new)
        pack.old pack.new result }
    ensures files { IsTrue H.tells → Operates (unit_of (H.facts hall.old).units pack.old.vol.unit).name
        (extend_on dsn.now) pack.new.vol (InVtoc pack.new.vol) (H.meaning hall.old)
        (H.meaning hall.new) result }
    ensures refused { (r : Refusal) → IsErrOf result (StoreErr.Refused r) → pack.new.vol ≡ pack.old.vol }
    ensures memory { ¬ IsErrOf result StoreErr.Memory }
{
    pack.cache.buf.forget();
    extend_set(hall, &mut pack.vol, &pack.cache, dsn)
}

// More extents for a data set of a volume. An unreadable one is refused: by that which is known of the bodies.
fn extend_set<H: Hall>(
    hall: &mut H,
    vol: &mut Vol,
    known: &PackCache,
    dsn: &Dsn,
) -> Result<(), StoreErr>
    requires unit { IsOfUnit (H.facts hall.old).units vol.old }
    requires names { AreByName (name_at vol.old.slots.items) vol.old.by_name.items }
    requires mounted { let image = image_in (H.meaning hall.old) (H.facts hall.old) vol.old.unit in
        IsTrue H.tells → IsMounted image vol.old }
    requires bodies { let image = image_in (H.meaning hall.old) (H.facts hall.old) vol.old.unit in
        IsTrue H.tells → ListsBroken (volume_in image vol.old) known.now.unread.items }
    requires settled { let image = image_in (H.meaning hall.old) (H.facts hall.old) vol.old.unit in
        IsTrue H.tells → IsSettledVtoc image }
    requires room { HasRoom vol.old }
    requires durable { IsTrue H.tells → IsDurable (H.meaning hall.old) }
    ensures files { IsTrue H.tells → Operates (unit_of (H.facts hall.old).units vol.old.unit).name
        (extend_on dsn.now) vol.new (InVtoc vol.new) (H.meaning hall.old)
        (H.meaning hall.new) result }
    ensures unit { IsOfUnit (H.facts hall.new).units vol.new }
    ensures names { OnOk result (AreByName (name_at vol.new.slots.items) vol.new.by_name.items) }
    ensures index { IsSamePack vol.old vol.new }
    ensures refused { (r : Refusal) → IsErrOf result (StoreErr.Refused r) → vol.new ≡ vol.old }
    ensures memory { ¬ IsErrOf result StoreErr.Memory }
    ensures faults { StoreCall (H.facts hall.old) (H.facts hall.new) result }
{
    match slot_to_extend(vol, known, dsn) {
        Ok(slot) => extend(hall, vol, slot),
        Err(refusal) => Err(StoreErr::Refused(refusal)),
    }
}
