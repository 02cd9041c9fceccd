//! A file, attached and read as a pack, or scanned.
ghost use Rattle.std.specs.Prelude.{◌≡◌, ◌≤◌, [], IsTrue, IsErrOf, IfOk, IfErr};
ghost use Rattle.stop_model.specs.Counts.{Rose};
ghost use Rattle.hall_core.specs.Facts.{unit_of};
ghost use Rattle.stop_model.specs.Moments.{Same};
ghost use Rattle.vtoc_index.specs.Index.{IsOfUnit};
ghost use Rattle.vtoc_index.specs.Names.{AreByName, name_at};
ghost use Rattle.volume_manager.specs.Mount.{IsPackIn, IsScanIn, RefusesFile};
ghost use Rattle.volume_manager.specs.Run.{AttachesAtMost};

use crate::attach::attach;
use hall_core::Hall;
use mount_repair::{Scan, scan};
use std::alloc::Global;
use vtoc_index::{MountErr, Vol, read_vtoc};

/// Attaches a file, and reads the index of the pack in it.
///
/// `NoFile` comes where the file is missing, `Device` where the device failed, and `Memory` where memory
/// ran out; any other error is the first rule of mounting that the image breaks. Nothing but the time
/// changes, also after an error, but that the file may be attached then.
#[tactic(auto, using(stop_model::proofs::MomentLemmas::same_then))]
pub fn mount<H: Hall>(alloc: Global, hall: &mut H, file: &str) -> Result<Vol, MountErr>
    requires { (H.facts hall.old).units ≡ [] }
    ensures mounted { IsTrue H.tells → IfOk result (IsPackIn file.now (H.meaning hall.old).state) }
    ensures refused { IsTrue H.tells → IfErr result (RefusesFile file.now (H.meaning hall.old).state) }
    ensures unit { IfOk result (λ vol. IsOfUnit (H.facts hall.new).units vol × ((unit_of (H.facts
        hall.new).units vol.unit).name ≡ file.now)) }
    ensures names { IfOk result (λ vol. AreByName (name_at vol.slots.items) vol.by_name.items) }
    ensures files { IsTrue H.tells → Same (H.meaning hall.old) (H.meaning hall.new) }
    ensures units { AttachesAtMost file.now (H.facts hall.old) (H.facts hall.new) }
    ensures references { (H.facts hall.new).references ≡ (H.facts hall.old).references }
    ensures prints { (H.facts hall.old).print_faults ≤ (H.facts hall.new).print_faults }
    ensures later { (H.facts hall.old).dev_faults ≤ (H.facts hall.new).dev_faults }
    ensures device { IsErrOf result MountErr.Device
        → Rose (H.facts hall.old).dev_faults (H.facts hall.new).dev_faults }
{
    let unit = attach(hall, file)?;
    read_vtoc(alloc, hall, unit)
}

/// Attaches a file, and scans the pack in it. The errors and what is left are those of [`mount`].
#[tactic(auto, using(stop_model::proofs::MomentLemmas::same_then))]
pub fn scan_file<H: Hall>(alloc: Global, hall: &mut H, file: &str) -> Result<Scan, MountErr>
    requires { (H.facts hall.old).units ≡ [] }
    ensures scanned { IsTrue H.tells → IfOk result (IsScanIn file.now (H.meaning hall.old).state) }
    ensures refused { IsTrue H.tells → IfErr result (RefusesFile file.now (H.meaning hall.old).state) }
    ensures files { IsTrue H.tells → Same (H.meaning hall.old) (H.meaning hall.new) }
    ensures units { AttachesAtMost file.now (H.facts hall.old) (H.facts hall.new) }
    ensures references { (H.facts hall.new).references ≡ (H.facts hall.old).references }
    ensures prints { (H.facts hall.old).print_faults ≤ (H.facts hall.new).print_faults }
    ensures later { (H.facts hall.old).dev_faults ≤ (H.facts hall.new).dev_faults }
    ensures device { IsErrOf result MountErr.Device
        → Rose (H.facts hall.old).dev_faults (H.facts hall.new).dev_faults }
{
    let unit = attach(hall, file)?;
    scan(alloc, hall, unit)
}
