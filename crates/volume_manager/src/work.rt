//! Jobs on a shelf that is open.
ghost use Rattle.std.specs.Prelude.{◌≡◌, ◌≤◌, ◌⊎◌, ℕ, List, true, false, IsTrue, Ok};
ghost use Rattle.job_runner.specs.Jobs.{jobs_work};
ghost use Rattle.pack_spec.specs.Shelf.{shelf_of};
ghost use Rattle.shelf_machine.specs.Opening.{images_named};
ghost use Rattle.shelf_machine.specs.Parts.{PromisesSafety, hall_of, is_open, is_sound, meaning_of, pack_names};
ghost use Rattle.stop_model.specs.Counts.{Rose};
ghost use Rattle.stop_model.specs.Files.{File};
ghost use Rattle.stop_model.specs.Moments.{IsDurable};
ghost use Rattle.vol_model.specs.Calls.{Files};
ghost use Rattle.vol_model.specs.declared.contents.Shelf.{Shelf};
ghost use Rattle.volume_manager.specs.Run.{LeavesShelf, NoCountFell, OnlySynced, RunsItems, status_of};

use crate::cause::Cause;
use hall_core::Hall;
use job_deck::Job;
use job_runner::run_jobs;
use shelf_machine::HallShelf;
use std::alloc::Global;
use vol_model::Stop;

/// Runs jobs on a shelf that is open, makes all writes durable, and gives the status and the hall: the highest
/// condition code, or the status of a fault of the device, 22, of the printer, 24, or of want of memory, 25.
///
/// After a fault the hall is one that a stop may leave; after want of memory a prefix of the jobs is done, durably.
pub fn work<H: Hall>(
    alloc: Global,
    machine: HallShelf<H>,
    jobs: &[Job],
    date: [u8; 3],
) -> (Result<u8, Cause>, H)
    requires sound { is_sound machine ≡ true }
    requires closed { is_open machine ≡ false }
    ensures items { IsTrue H.tells → (shelf : Shelf) (t : ℕ) (before : List File)
        → shelf_of (images_named before (pack_names machine)) ≡ Ok shelf → (meaning_of machine).state ≡ shelf
        → t ≤ (H.meaning (hall_of machine)).clock
        → LeavesShelf (pack_names machine) shelf (H.meaning (hall_of machine)) t
        → PromisesSafety machine t (Files before)
        → RunsItems (pack_names machine) shelf (jobs_work date jobs.now shelf).items t before
        (H.meaning (hall_of machine)).printed (H.meaning result.1) (status_of result.0) }
    ensures durable { IsTrue H.tells → status_of result.0 ≡ 25 → IsDurable (H.meaning result.1) }
    ensures status { (status_of result.0 ≤ 16) ⊎ ((status_of result.0 ≡ 22) ⊎ ((status_of result.0 ≡ 24) ⊎ (status_of result.0 ≡ 25))) }
    ensures device { status_of result.0 ≡ 22
        → Rose (H.facts (hall_of machine)).dev_faults (H.facts result.1).dev_faults }
    ensures print { status_of result.0 ≡ 24
        → Rose (H.facts (hall_of machine)).print_faults (H.facts result.1).print_faults }
    ensures later { NoCountFell (H.facts (hall_of machine)) (H.facts result.1) }
    ensures units { (H.facts result.1).units ≡ (H.facts (hall_of machine)).units }
    ensures references { (H.facts result.1).references ≡ (H.facts (hall_of machine)).references }
{
    let mut machine = machine;
    let ran = run_jobs(alloc, &mut machine, jobs, date);
    let mut hall = machine.close();
    let ended = match ran {
        Ok(ran) => finish(&mut hall, Ok(ran.code)),
        Err(Stop::Device) => Err(Cause::Device),
        Err(Stop::Print) => Err(Cause::Print),
        Err(Stop::Memory) => finish(&mut hall, Err(Cause::Memory)),
    };
    (ended, hall)
}

// Makes all writes durable, and ends as given, or by a device fault.
fn finish<H: Hall>(hall: &mut H, ended: Result<u8, Cause>) -> Result<u8, Cause>
    requires { (status_of ended ≤ 16) ⊎ (status_of ended ≡ 25) }
    ensures files { IsTrue H.tells → OnlySynced (H.meaning hall.old) (H.meaning hall.new) (status_of result) }
    ensures status { (status_of result ≡ status_of ended) ⊎ (status_of result ≡ 22) }
    ensures device { status_of result ≡ 22 → Rose (H.facts hall.old).dev_faults (H.facts hall.new).dev_faults }
    ensures later { NoCountFell (H.facts hall.old) (H.facts hall.new) }
    ensures prints { (H.facts hall.new).print_faults ≡ (H.facts hall.old).print_faults }
    ensures units { (H.facts hall.new).units ≡ (H.facts hall.old).units }
    ensures references { (H.facts hall.new).references ≡ (H.facts hall.old).references }
{
    let Ok(()) = hall.sync() else {
        return Err(Cause::Device);
    };
    ended
}
