//! Jobs, one after another.
ghost use Rattle.std.specs.Prelude.{◌≡◌, ◌≤◌, ◌+◌, ℕ, List, [], Err, false, max, IsTrue, IsFalse, IfOk};
ghost use Rattle.job_deck.specs.declared.job.Job.{Job};
ghost use Rattle.util_steps.specs.Accepted.{AreAccepted};
ghost use Rattle.vol_model.specs.Calls.{Keeps};
ghost use Rattle.vol_model.specs.Events.{events_of};
ghost use Rattle.vol_model.specs.Runs.{RunCall};
ghost use Rattle.vol_model.specs.declared.contents.Shelf.{Shelf};
ghost use Rattle.util_steps.specs.Taking.{IsReady};
ghost use Rattle.job_runner.specs.Jobs.{body_work, job_work, jobs_work, steps_work};
ghost use Rattle.job_runner.specs.Parts.{Does};
ghost use Rattle.job_runner.specs.Resolving.{DoesWork, steps_counted};

use crate::frames::{say_code, say_fault, say_job};
use crate::steps::{higher, run_step};
use job_deck::{JclErr, Job, Step};
use std::alloc::Global;
use vol_model::{Machine, Stop};

/// What a run of jobs came to.
#[derive(Clone, Copy, Debug, PartialEq, Eq)]
pub struct Ran {
    /// The highest condition code.
    pub code: u8,
    /// How many steps began, which is the number of those whose first line stands in the listing.
    pub steps: u32,
}

// Two runs, one after another.
fn both(first: Ran, second: Ran) -> Ran
    ensures code { result.code ≡ max first.code second.code }
    ensures steps { result.steps ≡ steps_counted (first.steps + second.steps) }
{
    Ran {
        code: higher(first.code, second.code),
        steps: first.steps.saturating_add(second.steps),
    }
}

// Runs steps in order, up to one that ends the job.
fn run_steps<M: Machine>(
    alloc: Global,
    machine: &mut M,
    date: &[u8; 3],
    steps: &[Step],
) -> Result<Ran, Stop>
    requires { IsReady M.Machine machine.old }
    ensures works { Does M.Machine (DoesWork M.tells_prints (steps_work date.now steps.now (M.meaning machine.old).state)) machine.old machine.new result }
    ensures small { IfOk result (λ ran. ran.code ≤ 16) }
{
    let mut ran = Ran { code: 0, steps: 0 };
    let mut rest = steps;
    loop {
        let (step, behind) = match rest.split_first() {
            Some(parts) => parts,
            None => return Ok(ran),
        };
        let end = run_step(alloc, machine, date, step)?;
        let one = Ran {
            code: end.code,
            steps: 1,
        };
        ran = both(ran, one);
        if end.ends_job {
            return Ok(ran);
        }
        rest = behind;
    }
}

// Says what is wrong with a job, which isn't run.
fn refuse_job<M: Machine>(alloc: Global, machine: &mut M, fault: &JclErr) -> Result<Ran, Stop>
    requires { IsReady M.Machine machine.old }
    ensures works { Does M.Machine (DoesWork M.tells_prints (body_work [] (Err fault.now) (M.meaning machine.old).state)) machine.old machine.new result }
    ensures small { IfOk result (λ ran. ran.code ≤ 16) }
{
    let code = say_fault(alloc, machine, fault)?;
    Ok(Ran { code, steps: 0 })
}

// What a job does between its lines.
fn run_body<M: Machine>(
    alloc: Global,
    machine: &mut M,
    date: &[u8; 3],
    job: &Job,
) -> Result<Ran, Stop>
    requires { IsReady M.Machine machine.old }
    ensures works { Does M.Machine (DoesWork M.tells_prints (body_work date.now job.now.steps (M.meaning machine.old).state)) machine.old machine.new result }
    ensures small { IfOk result (λ ran. ran.code ≤ 16) }
{
    match &job.steps {
        Ok(steps) => run_steps(alloc, machine, date, steps.as_slice()),
        Err(fault) => refuse_job(alloc, machine, fault),
    }
}

// Runs a job with its lines.
fn run_job<M: Machine>(
    alloc: Global,
    machine: &mut M,
    date: &[u8; 3],
    job: &Job,
) -> Result<Ran, Stop>
    requires { IsReady M.Machine machine.old }
    ensures works { Does M.Machine (DoesWork M.tells_prints (job_work date.now job.now (M.meaning machine.old).state)) machine.old machine.new result }
    ensures small { IfOk result (λ ran. ran.code ≤ 16) }
{
    say_job(alloc, machine, &job.name)?;
    let ran = run_body(alloc, machine, date, job)?;
    say_code(alloc, machine, "JOB", Some(job.name), ran.code)?;
    Ok(ran)
}

/// Runs the jobs of a deck in order, on the date of the run, and gives their highest condition code and the number of steps
/// that began.
///
/// A job prints its first line, its steps and its code. A refused job isn't run; its fault is printed, and its code is 16.
/// A step prints its first line, resolves its DDs in order, runs its program, deletes the data sets that its DDs delete, and
/// prints its code, the highest of its items. A DD that is refused ends the job: the program isn't run, the code is 12, and
/// the data sets of the DDs before it are deleted all the same. A program that isn't known is `NO-PROGRAM` with 16, and
/// no DD of its step is looked at. An operation is done before its line is printed, and a line before the next operation.
///
/// `Device` and `Print` come where the machine's count of those faults rose, and `Memory` where memory ran out. What was
/// done and printed before stays.
pub fn run_jobs<M: Machine>(
    alloc: Global,
    machine: &mut M,
    jobs: &[Job],
    date: [u8; 3],
) -> Result<Ran, Stop>
    requires sound { IsTrue (M.status machine.old).is_sound }
    requires closed { IsFalse (M.status machine.old).is_open }
    ensures works { IsTrue M.tells → DoesWork M.tells_prints (jobs_work date jobs.now (M.meaning machine.old).state) (M.meaning machine.old) (M.meaning machine.new) (M.status machine.old).done (M.status machine.new).done result }
    ensures small { IfOk result (λ ran. ran.code ≤ 16) }
    ensures promise { IsTrue M.tells → Keeps (M.meaning machine.old).clock (M.promise machine.old) (M.promise machine.new) }
    ensures faults { RunCall false (M.status machine.old) (M.status machine.new) result }
{
    let mut ran = Ran { code: 0, steps: 0 };
    let mut rest = jobs;
    loop {
        let (job, behind) = match rest.split_first() {
            Some(parts) => parts,
            None => return Ok(ran),
        };
        let one = run_job(alloc, machine, &date, job)?;
        ran = both(ran, one);
        rest = behind;
    }
}

/// None of the operations in jobs is refused, each on the shelf on which it stands.
pub fn accepted_law()
    ensures { (date : List ℕ) (jobs : List Job) (shelf : Shelf)
        → AreAccepted shelf (events_of (jobs_work date jobs shelf).items) }
{}
