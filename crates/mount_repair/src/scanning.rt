//! A pack read: its index, what its data sets are, and whether it is settled.
ghost use Rattle.std.specs.Prelude.{◌≡◌, ◌↔◌, ◌<◌, ℕ, List, length, IfErr, IfOk, IsErrOf, IsTrue, OnOk};
ghost use Rattle.hall_core.specs.Images.{image_in};
ghost use Rattle.pack_spec.specs.Settled.{IsSettled};
ghost use Rattle.stop_model.specs.Moments.{Same};
ghost use Rattle.vtoc_index.specs.Calls.{MountCall};
ghost use Rattle.vtoc_index.specs.Index.{IsMounted, IsOfUnit, IsReason};
ghost use Rattle.vtoc_index.specs.Names.{AreByName, name_at};
ghost use Rattle.mount_repair.specs.Scans.{IsScanOn, Scans};
ghost use Rattle.mount_repair.specs.Sets.{HasRoom, IsRoomed};
ghost use Rattle.mount_repair.specs.Settled.{is_settled};

use crate::scanned::Scan;
use crate::walk::walk_sets;
use free_rebuild::is_settled;
use hall_core::Hall;
use pack_spec::layout::MOST_EXTENTS;
use std::alloc::{AllocError, Global};
use vtoc_index::{MountErr, Vol, read_vtoc};

/// Reads the pack on a unit: its index, and each sequential and partitioned data set once, up to its last block.
/// The directories that are packed are kept, for those who go on with the pack.
///
/// It is scanned where the pack mounts, else the first rule of mounting that is broken is answered. It is settled where
/// format 4 has neither bit of an unfinished update, its counts are right, format 5 lists the free space, nothing in the
/// VTOC is unused, and each directory that can be read is packed. Nothing is written. All memory of a repair is taken
/// here. `Memory` and `Device` say nothing of the pack, and `Device` comes only where the count of device faults rose.
pub fn scan<H: Hall>(alloc: Global, hall: &mut H, unit: u8) -> Result<Scan, MountErr>
    requires { unit < length (H.facts hall.old).units }
    ensures image { let image = image_in (H.meaning hall.old) (H.facts hall.old) unit in
        IsTrue H.tells → Scans image result }
    ensures unit { IfOk result (IsScanOn (H.facts hall.old).units unit) }
    ensures same { IsTrue H.tells → Same (H.meaning hall.old) (H.meaning hall.new) }
    ensures faults { MountCall (H.facts hall.old) (H.facts hall.new) result }
    ensures file { ¬ IsErrOf result MountErr.NoFile }
{
    let mut vol = read_index(alloc, hall, unit)?;
    let walk = walk_sets(alloc, hall, &mut vol)?;
    let settled = is_settled(&vol) && walk.unpacked.is_empty();
    Ok(Scan {
        vol,
        volume: walk.volume,
        settled,
        libraries: walk.libraries,
        unpacked: walk.unpacked,
    })
}

/// The test `is_settled`, by which a check of a pack says whether it is settled, passes exactly where it is.
pub fn settled_law()
    ensures { (image : List ℕ) → IsTrue (is_settled image) ↔ IsSettled image }
{}

// The index of the pack on a unit, with room for free runs.
fn read_index<H: Hall>(alloc: Global, hall: &mut H, unit: u8) -> Result<Vol, MountErr>
    requires { unit < length (H.facts hall.old).units }
    ensures mounted { let image = image_in (H.meaning hall.old) (H.facts hall.old) unit in
        IsTrue H.tells → IfOk result (IsMounted image) }
    ensures refused { let image = image_in (H.meaning hall.old) (H.facts hall.old) unit in
        IsTrue H.tells → IfErr result (IsReason image) }
    ensures unit { IfOk result (λ vol. (vol.unit ≡ unit) × IsOfUnit (H.facts hall.old).units vol) }
    ensures names { IfOk result (λ vol. AreByName (name_at vol.slots.items) vol.by_name.items) }
    ensures room { IfOk result HasRoom }
    ensures same { IsTrue H.tells → Same (H.meaning hall.old) (H.meaning hall.new) }
    ensures faults { MountCall (H.facts hall.old) (H.facts hall.new) result }
    ensures file { ¬ IsErrOf result MountErr.NoFile }
{
    let mut vol = read_vtoc(alloc, hall, unit)?;
    reserve_runs(&mut vol)?;
    Ok(vol)
}

// Takes room for as many free runs as the pack can have, and for those that the extents of a removed
// data set make.
fn reserve_runs(vol: &mut Vol) -> Result<(), AllocError>
    ensures index { IsRoomed vol.old vol.new }
    ensures room { OnOk result (HasRoom vol.new) }
{
    let tracks = usize::from(vol.geometry.cylinders) * usize::from(vol.geometry.device.heads());
    vol.free.reserve(tracks / 2 + usize::from(MOST_EXTENTS) + 1)
}
