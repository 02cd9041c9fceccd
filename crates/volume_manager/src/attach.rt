//! Files, attached as units.
ghost use Rattle.std.specs.Prelude.{◌≡◌, ◌≢◌, ◌⊎◌, ◌≤◌, ◌<◌, ◌++◌, [], ◌∷◌, ℕ, List, length, map, IsTrue, IsErrOf, IfOk, IfErr, OnOk, OnErr, Some, None};
ghost use Rattle.hall_core.specs.Facts.{Attached, IsAttached};
ghost use Rattle.shelf_machine.specs.Opening.{AreApart};
ghost use Rattle.stop_model.specs.Counts.{Rose};
ghost use Rattle.stop_model.specs.Files.{file_of};
ghost use Rattle.stop_model.specs.Moments.{Same};
ghost use Rattle.vol_model.specs.declared.TheConstants.{MAX_UNITS};
ghost use Rattle.volume_manager.specs.Run.{AttachesFirst, NoCountFell};
ghost use Rattle.volume_manager.specs.Task.{missing_of};

use hall_core::{Hall, HallErr};
use vtoc_index::MountErr;

/// Attaches a file as the next unit, and gives the number of that.
///
/// `NoFile` comes where the file is missing, `Device` where the device failed, and `Memory` where memory ran out.
/// Nothing but the time changes of the files; an error attaches nothing.
pub fn attach<H: Hall>(hall: &mut H, file: &str) -> Result<u8, MountErr>
    requires few { length (H.facts hall.old).units < 255 }
    requires once { ¬ IsAttached (H.facts hall.old).units file.now }
    ensures files { IsTrue H.tells → Same (H.meaning hall.old) (H.meaning hall.new) }
    ensures there { IsTrue H.tells → OnOk result ((image : List ℕ)
        × (file_of (H.meaning hall.old).state file.now ≡ Some image)) }
    ensures missing { IsTrue H.tells → IsErrOf result MountErr.NoFile
        → file_of (H.meaning hall.old).state file.now ≡ None }
    ensures added { IfOk result (λ unit. (unit ≡ length (H.facts hall.old).units) × ((size : ℕ)
        × ((H.facts hall.new).units ≡ (H.facts hall.old).units ++ record { name = file.now; size = size } ∷ []))) }
    ensures stays { OnErr result ((H.facts hall.new).units ≡ (H.facts hall.old).units) }
    ensures error { IfErr result (λ e. (e ≡ MountErr.NoFile) ⊎ ((e ≡ MountErr.Device) ⊎ (e ≡ MountErr.Memory))) }
    ensures device { IsErrOf result MountErr.Device → Rose (H.facts hall.old).dev_faults (H.facts hall.new).dev_faults }
    ensures later { NoCountFell (H.facts hall.old) (H.facts hall.new) }
    ensures references { (H.facts hall.new).references ≡ (H.facts hall.old).references }
{
    match hall.attach(file) {
        Ok(unit) => Ok(unit),
        Err(HallErr::Missing) => Err(MountErr::NoFile),
        Err(HallErr::Failed | HallErr::Exists) => Err(MountErr::Device),
        Err(HallErr::Memory) => Err(MountErr::Memory),
    }
}

/// A file that is refused.
#[derive(Clone, Copy, Debug, PartialEq, Eq)]
pub struct Refused<'a> {
    /// Its name.
    pub file: &'a str,
    /// Why it is refused.
    pub why: MountErr,
}

/// Attaches files as units, in order, up to the first that is refused.
///
/// Nothing but the time changes of the files. The reasons are those of [`attach`].
pub fn attach_all<'a, H: Hall>(hall: &mut H, files: &[&'a str]) -> Result<(), Refused<'a>>
    requires none { (H.facts hall.old).units ≡ [] }
    requires few { length files.now ≤ MAX_UNITS }
    requires apart { AreApart (map (λ f. f.now) files.now) }
    ensures files { IsTrue H.tells → Same (H.meaning hall.old) (H.meaning hall.new) }
    ensures there { IsTrue H.tells → OnOk result
        (missing_of (H.meaning hall.old).state (map (λ f. f.now) files.now) ≡ None) }
    ensures missing { IsTrue H.tells → IfErr result (λ e. e.why ≡ MountErr.NoFile
        → missing_of (H.meaning hall.old).state (map (λ f. f.now) files.now) ≡ Some e.file.now) }
    ensures attached { OnOk result
        (map (λ (u : Attached). u.name) (H.facts hall.new).units ≡ map (λ f. f.now) files.now) }
    ensures units { AttachesFirst (map (λ f. f.now) files.now) (H.facts hall.old) (H.facts hall.new) }
    ensures error { IfErr result (λ e. (e.why ≡ MountErr.NoFile)
        ⊎ ((e.why ≡ MountErr.Device) ⊎ (e.why ≡ MountErr.Memory))) }
    ensures device { IfErr result (λ e. e.why ≡ MountErr.Device
        → Rose (H.facts hall.old).dev_faults (H.facts hall.new).dev_faults) }
    ensures later { NoCountFell (H.facts hall.old) (H.facts hall.new) }
    ensures references { (H.facts hall.new).references ≡ (H.facts hall.old).references }
{
    for file in files {
        if let Err(why) = attach(hall, file) {
            return Err(Refused { file, why });
        }
    }
    Ok(())
}
