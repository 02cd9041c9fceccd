//! A new pack.
ghost use Rattle.std.specs.Prelude.{◌≡◌, ◌≢◌, ◌⊎◌, [], IsTrue};
ghost use Rattle.command_words.specs.Requests.{IsProper};
ghost use Rattle.stop_model.specs.Counts.{Rose};
ghost use Rattle.stop_model.specs.Files.{file_of};
ghost use Rattle.stop_model.specs.Moments.{IsDurable};
ghost use Rattle.volume_manager.specs.Lines.{exists_line};
ghost use Rattle.volume_manager.specs.Run.{FileFacts, FollowsTask, IsFinal, LeavesFiles, NoCountFell, PrintsText, status_of};
ghost use Rattle.volume_manager.specs.Task.{init_task};

use crate::cause::Cause;
use crate::end::end;
use crate::text::{exists_line, init_line};
use command_words::NewPack;
use hall_core::Hall;
use pack_init::InitErr;
use std::alloc::Global;

/// Makes a new pack in a file, and gives the status: 0 where it is made, 21 where the file is there already, or the
/// status of a fault or of want of memory.
pub fn init<H: Hall>(alloc: Global, hall: &mut H, file: &str, pack: &NewPack) -> Result<u8, Cause>
    requires none { (H.facts hall.old).units ≡ [] }
    requires pack { IsProper pack.now }
    ensures task { IsTrue H.tells → FollowsTask (init_task pack.now file.now (file_of (H.meaning hall.old).state file.now))
        (H.meaning hall.old) (H.meaning hall.new) (status_of result) }
    ensures refused { IsTrue H.tells → status_of result ≡ 21 → LeavesFiles (H.meaning hall.old) (H.meaning hall.new) }
    ensures silent { IsTrue H.tells → (status_of result ≡ 22) ⊎ (status_of result ≡ 25)
        → (H.meaning hall.new).printed ≡ (H.meaning hall.old).printed }
    ensures durable { IsTrue H.tells → IsFinal (status_of result) ⊎ (status_of result ≡ 25) → IsDurable (H.meaning hall.new) }
    ensures facts { FileFacts file.now (H.facts hall.old) (H.facts hall.new) (status_of result) }
{
    let line = init_line(alloc, &pack.serial)?;
    match pack_init::init(alloc, hall, file, &pack.geometry, &pack.serial, pack.vtoc) {
        Ok(()) => end(hall, &line, Ok(0)),
        Err(InitErr::Exists) => refuse(alloc, hall, file),
        Err(InitErr::Memory) => Err(Cause::Memory),
        Err(InitErr::Device) => Err(Cause::Device),
    }
}

// Prints that the file is there already.
fn refuse<H: Hall>(alloc: Global, hall: &mut H, file: &str) -> Result<u8, Cause>
    ensures text { IsTrue H.tells → status_of result ≢ 25 → PrintsText (exists_line file.now) (H.meaning hall.old) (H.meaning hall.new) (status_of result) }
    ensures memory { status_of result ≡ 25 → hall.new ≡ hall.old }
    ensures status { (status_of result ≡ 21) ⊎ ((status_of result ≡ 24) ⊎ (status_of result ≡ 25)) }
    ensures print { status_of result ≡ 24 → Rose (H.facts hall.old).print_faults (H.facts hall.new).print_faults }
    ensures later { NoCountFell (H.facts hall.old) (H.facts hall.new) }
    ensures references { (H.facts hall.new).references ≡ (H.facts hall.old).references }
    ensures units { (H.facts hall.new).units ≡ (H.facts hall.old).units }
{
    let line = exists_line(alloc, file)?;
    end(hall, &line, Err(Cause::Unit))
}
