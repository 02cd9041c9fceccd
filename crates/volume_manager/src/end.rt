//! The text with which the program ends.
ghost use Rattle.std.specs.Prelude.{◌≡◌, ◌≢◌, ◌≤◌, ◌⊎◌, IsTrue};
ghost use Rattle.stop_model.specs.Counts.{Rose};
ghost use Rattle.volume_manager.specs.Lines.{unit_line};
ghost use Rattle.volume_manager.specs.Run.{FollowsTask, LeavesFiles, NoCountFell, PrintsText, status_of};
ghost use Rattle.volume_manager.specs.Task.{Says};

use crate::cause::Cause;
use crate::text::unit_line;
use hall_core::Hall;
use std::alloc::Global;
use vtoc_index::MountErr;

/// Prints a text, and ends as given, or by a print fault.
pub fn end<H: Hall>(hall: &mut H, text: &[u8], ended: Result<u8, Cause>) -> Result<u8, Cause>
    requires { (status_of ended ≤ 21) ⊎ (status_of ended ≡ 26) }
    ensures text { IsTrue H.tells → PrintsText text.now (H.meaning hall.old) (H.meaning hall.new) (status_of result) }
    ensures status { (status_of result ≡ status_of ended) ⊎ (status_of result ≡ 24) }
    ensures print { status_of result ≡ 24 → Rose (H.facts hall.old).print_faults (H.facts hall.new).print_faults }
    ensures later { NoCountFell (H.facts hall.old) (H.facts hall.new) }
    ensures references { (H.facts hall.new).references ≡ (H.facts hall.old).references }
    ensures units { (H.facts hall.new).units ≡ (H.facts hall.old).units }
{
    let Ok(()) = hall.print(text) else {
        return Err(Cause::Print);
    };
    ended
}

/// Prints why a file is refused, unless that is a fault of the device or want of memory, and ends so.
pub fn refuse<H: Hall>(alloc: Global, hall: &mut H, file: &str, why: MountErr) -> Result<u8, Cause>
    ensures task { IsTrue H.tells → why ≢ MountErr.Memory → why ≢ MountErr.Device
        → FollowsTask (Says 21 (unit_line file.now why)) (H.meaning hall.old) (H.meaning hall.new) (status_of result) }
    ensures silent { (why ≡ MountErr.Memory) ⊎ (why ≡ MountErr.Device) → hall.new ≡ hall.old }
    ensures files { IsTrue H.tells → LeavesFiles (H.meaning hall.old) (H.meaning hall.new) }
    ensures faults { (status_of result ≡ 22) ⊎ (status_of result ≡ 25) → hall.new ≡ hall.old }
    ensures device { why ≡ MountErr.Device → status_of result ≡ 22 }
    ensures memory { why ≡ MountErr.Memory → status_of result ≡ 25 }
    ensures status { why ≢ MountErr.Device → (status_of result ≡ 21) ⊎ ((status_of result ≡ 24) ⊎ (status_of result ≡ 25)) }
    ensures print { status_of result ≡ 24 → Rose (H.facts hall.old).print_faults (H.facts hall.new).print_faults }
    ensures later { NoCountFell (H.facts hall.old) (H.facts hall.new) }
    ensures references { (H.facts hall.new).references ≡ (H.facts hall.old).references }
    ensures units { (H.facts hall.new).units ≡ (H.facts hall.old).units }
{
    match why {
        MountErr::Device => Err(Cause::Device),
        MountErr::Memory => Err(Cause::Memory),
        why => {
            let line = unit_line(alloc, file, why)?;
            end(hall, &line, Err(Cause::Unit))
        }
    }
}
