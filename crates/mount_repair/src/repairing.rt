//! The repair of a pack that was scanned.
ghost use Rattle.std.specs.Prelude.{◌≡◌, ◌<◌, ◌∷◌, [], List, true, is_some, length, IfOk, IsErrOf, IsTrue, OnOk};
ghost use Rattle.free_rebuild.specs.Repairs.{Repairs};
ghost use Rattle.free_rebuild.specs.Updates.{KeepsIndex};
ghost use Rattle.hall_core.specs.Facts.{ReportedCall, unit_of};
ghost use Rattle.hall_core.specs.Told.{ImageHas};
ghost use Rattle.hall_core.specs.Images.{image_in};
ghost use Rattle.stop_model.specs.Moments.{IsDurable};
ghost use Rattle.stow_ops.specs.Packing.{IsSomePacking};
ghost use Rattle.vtoc_index.specs.Calls.{MountCall};
ghost use Rattle.vtoc_index.specs.Index.{IsMounted, IsOfUnit};
ghost use Rattle.vtoc_index.specs.Names.{AreByName, name_at};
ghost use Rattle.mount_repair.specs.Repairs.{MountsPack, PacksDirs, RepairsPack};
ghost use Rattle.mount_repair.specs.Scans.{AreSound, AreUnpacked, CanBePacked, IsScanOf, IsScanOn, KeepsLibraries};
ghost use Rattle.mount_repair.specs.declared.scanned.Unpacked.{Unpacked};

use crate::scanned::{Scan, Unpacked};
use crate::scanning::scan;
use free_rebuild::{is_settled, rebuild};
use hall_core::{Device, Hall};
use std::alloc::Global;
use stow_ops::pack;
use vol_model::WorkErr;
use vtoc_index::{MountErr, Vol};

/// Repairs a pack that was scanned: its VTOC, where that isn't settled, and then each directory that isn't packed, from the
/// first block to the last. What is settled isn't written to.
///
/// A stop at any moment leaves an image that stands for the same volume, and that is guarded or has the VTOC of its entry, so
/// a repair that was stopped may be done again. It takes no memory; `Device` comes only where the count of its faults rose.
pub fn repair<H: Hall>(hall: &mut H, scan: Scan) -> Result<Scan, WorkErr>
    requires unit { IsScanOn (H.facts hall.old).units scan.vol.unit scan }
    requires scan { ImageHas H.Hall hall.old scan.vol.unit (λ image. IsScanOf image scan) }
    requires durable { IsTrue H.tells → IsDurable (H.meaning hall.old) }
    ensures files { IsTrue H.tells → RepairsPack (unit_of (H.facts hall.old).units scan.vol.unit).name
        (H.meaning hall.old) (H.meaning hall.new) result }
    ensures settled { IfOk result (λ s. s.settled ≡ true) }
    ensures index { IfOk result (λ s. s.vol ≡ record scan.vol { slots = s.vol.slots; buf = s.vol.buf }) }
    ensures volume { IfOk result (λ s. s.volume ≡ scan.volume) }
    ensures unit { IfOk result (IsScanOn (H.facts hall.new).units scan.vol.unit) }
    ensures memory { ¬ IsErrOf result WorkErr.Memory }
    ensures faults { ReportedCall (IsErrOf result WorkErr.Device) (H.facts hall.old)
        (H.facts hall.new) }
{
    if scan.settled {
        return Ok(scan);
    }
    let mut scan = scan;
    repair_vtoc(hall, &mut scan.vol)?;
    pack_all(hall, &mut scan.vol, &scan.unpacked)?;
    scan.unpacked.clear();
    scan.settled = true;
    Ok(scan)
}

// Repairs the VTOC of a pack, unless it is settled: then nothing is called.
fn repair_vtoc<H: Hall>(hall: &mut H, vol: &mut Vol) -> Result<(), WorkErr>
    requires unit { IsOfUnit (H.facts hall.old).units vol.old }
    requires mounted { ImageHas H.Hall hall.old vol.old.unit (λ image. IsMounted image vol.old) }
    requires durable { IsTrue H.tells → IsDurable (H.meaning hall.old) }
    ensures files { IsTrue H.tells → Repairs (unit_of (H.facts hall.old).units vol.old.unit).name
        vol.new (H.meaning hall.old) (H.meaning hall.new) result }
    ensures index { KeepsIndex H.Hall hall.new vol.old vol.new result }
    ensures memory { ¬ IsErrOf result WorkErr.Memory }
    ensures faults { ReportedCall (IsErrOf result WorkErr.Device) (H.facts hall.old)
        (H.facts hall.new) }
{
    if is_settled(vol) {
        return Ok(());
    }
    rebuild(hall, vol)
}

// Packs directories, one after another.
fn pack_all<H: Hall>(hall: &mut H, vol: &mut Vol, unpacked: &[Unpacked]) -> Result<(), WorkErr>
    requires unit { IsOfUnit (H.facts hall.old).units vol.old }
    requires names { AreByName (name_at vol.old.slots.items) vol.old.by_name.items }
    requires sound { AreSound vol.old.slots.items unpacked.now }
    requires mounted { ImageHas H.Hall hall.old vol.old.unit (λ image. IsMounted image vol.old) }
    requires unpacked { ImageHas H.Hall hall.old vol.old.unit (λ image.
        AreUnpacked image vol.old unpacked.now) }
    requires durable { IsTrue H.tells → IsDurable (H.meaning hall.old) }
    ensures files { IsTrue H.tells → PacksDirs (unit_of (H.facts hall.old).units vol.old.unit).name
        vol.new [] (H.meaning hall.old) (H.meaning hall.new) result }
    ensures libraries { let image = image_in (H.meaning hall.old) (H.facts hall.old) vol.old.unit in
        let image' = image_in (H.meaning hall.new) (H.facts hall.new) vol.old.unit in
        IsTrue H.tells → OnOk result (KeepsLibraries image vol.old unpacked.now image' vol.new) }
    ensures others { vol.new ≡ record vol.old { buf = vol.new.buf } }
    ensures unit { IsOfUnit (H.facts hall.new).units vol.new }
    ensures memory { ¬ IsErrOf result WorkErr.Memory }
    ensures faults { ReportedCall (IsErrOf result WorkErr.Device) (H.facts hall.old)
        (H.facts hall.new) }
{
    for dir in unpacked {
        pack_one(hall, vol, dir)?;
    }
    Ok(())
}

// Packs the first of the directories that aren't packed.
fn pack_one<H: Hall>(hall: &mut H, vol: &mut Vol, dir: &Unpacked) -> Result<(), WorkErr>
    requires unit { IsOfUnit (H.facts hall.old).units vol.old }
    requires names { AreByName (name_at vol.old.slots.items) vol.old.by_name.items }
    requires set { is_some (name_at vol.old.slots.items dir.now.slot) ≡ true }
    requires packing { IsSomePacking dir.now.packing }
    requires mounted { ImageHas H.Hall hall.old vol.old.unit (λ image. IsMounted image vol.old) }
    requires can { ImageHas H.Hall hall.old vol.old.unit (λ image.
        CanBePacked image vol.old dir.now) }
    requires durable { IsTrue H.tells → IsDurable (H.meaning hall.old) }
    ensures files { ImageHas H.Hall hall.old vol.old.unit (λ image.
        (rest : List Unpacked) → AreUnpacked image vol.old (dir.now ∷ rest)
        → PacksDirs (unit_of (H.facts hall.old).units vol.old.unit).name vol.new rest
        (H.meaning hall.old) (H.meaning hall.new) result) }
    ensures libraries { let image = image_in (H.meaning hall.old) (H.facts hall.old) vol.old.unit in
        let image' = image_in (H.meaning hall.new) (H.facts hall.new) vol.old.unit in
        IsTrue H.tells → OnOk result (KeepsLibraries image vol.old (dir.now ∷ []) image' vol.new) }
    ensures others { vol.new ≡ record vol.old { buf = vol.new.buf } }
    ensures unit { IsOfUnit (H.facts hall.new).units vol.new }
    ensures memory { ¬ IsErrOf result WorkErr.Memory }
    ensures faults { ReportedCall (IsErrOf result WorkErr.Device) (H.facts hall.old)
        (H.facts hall.new) }
{
    match pack(hall, vol, dir.slot, &dir.packing) {
        Ok(()) => Ok(()),
        Err(Device) => Err(WorkErr::Device),
    }
}

/// Mounts the pack on a unit: scans it, and repairs it where it isn't settled.
///
/// The error is that of the scan, or `Device`.
pub fn mount<H: Hall>(alloc: Global, hall: &mut H, unit: u8) -> Result<Scan, MountErr>
    requires unit { unit < length (H.facts hall.old).units }
    requires durable { IsTrue H.tells → IsDurable (H.meaning hall.old) }
    ensures files { IsTrue H.tells → MountsPack (unit_of (H.facts hall.old).units unit).name
        (H.meaning hall.old) (H.meaning hall.new) result }
    ensures settled { IfOk result (λ s. s.settled ≡ true) }
    ensures unit { IfOk result (IsScanOn (H.facts hall.new).units unit) }
    ensures faults { MountCall (H.facts hall.old) (H.facts hall.new) result }
{
    let scanned = scan(alloc, hall, unit)?;
    match repair(hall, scanned) {
        Ok(scan) => Ok(scan),
        Err(_) => Err(MountErr::Device),
    }
}
