//! The steps of jobs.
ghost use Rattle.std.specs.Prelude.{◌≡◌, ◌≤◌, [], ◌∷◌, false, codes, max, IfOk, if◌then◌else◌};
ghost use Rattle.util_syntax.specs.Listing.{named_line};
ghost use Rattle.util_steps.specs.Items.{items_along};
ghost use Rattle.util_steps.specs.Taking.{IsReady, RunsItems};
ghost use Rattle.job_runner.specs.DataSets.{Definitions, definitions};
ghost use Rattle.job_runner.specs.Dispositions.{deleted};
ghost use Rattle.job_runner.specs.Jobs.{behind_definitions, ends_job, program_step, program_unless, step_body, step_items};
ghost use Rattle.job_runner.specs.Parts.{Does, DoesCoded, and_next, says};
ghost use Rattle.job_runner.specs.Resolving.{DoesStep, IsDefined};

use crate::definitions::{Defined, define};
use crate::dispositions::{Deletion, delete_all};
use crate::frames::{say_code, say_no_program, say_step};
use crate::programs::{Program, program_named, run_program};
use job_deck::Step;
use std::alloc::Global;
use util_syntax::StepIn;
use vol_model::{Machine, Stop};

/// How a step ended.
#[derive(Clone, Copy, Debug, PartialEq, Eq)]
pub struct StepEnd {
    /// Its condition code.
    pub code: u8,
    /// Whether it ends its job, since a DD is refused.
    pub ends_job: bool,
}

/// The higher of two codes.
pub fn higher(a: u8, b: u8) -> u8
    ensures { result ≡ max a b }
{
    if a < b { b } else { a }
}

// Runs the program of a step, unless a DD is refused.
fn run_unless<M: Machine>(
    alloc: Global,
    machine: &mut M,
    is_refused: bool,
    program: Program,
    step: &StepIn,
) -> Result<u8, Stop>
    requires { IsReady M.Machine machine.old }
    ensures { RunsItems M.Machine (program_unless is_refused program step.now) machine.old machine.new result }
{
    if is_refused {
        Ok(0)
    } else {
        run_program(alloc, machine, program, step)
    }
}

// Runs the program of a step, unless a DD is refused, and deletes data sets after it.
fn finish<M: Machine>(
    alloc: Global,
    machine: &mut M,
    is_refused: bool,
    program: Program,
    step: &StepIn,
    deletions: &[Deletion],
) -> Result<u8, Stop>
    requires { IsReady M.Machine machine.old }
    ensures { RunsItems M.Machine (λ shelf. and_next shelf (program_unless is_refused program step.now shelf) (λ s. items_along (deleted step.now.date) s deletions.now)) machine.old machine.new result }
{
    let code = run_unless(alloc, machine, is_refused, program, step)?;
    let after = delete_all(alloc, machine, &step.date, deletions)?;
    Ok(higher(code, after))
}

// What stands after the DDs of a step.
fn run_defined<M: Machine>(
    alloc: Global,
    machine: &mut M,
    date: &[u8; 3],
    program: Program,
    step: &Step,
    defined: Defined,
) -> Result<u8, Stop>
    requires { IsReady M.Machine machine.old }
    ensures items { Does M.Machine (λ old new n m r. (d : Definitions) → IsDefined d defined → DoesCoded M.tells_prints (behind_definitions date.now program step.now d old.state) old new n m r) machine.old machine.new result }
    ensures small { IfOk result (λ code. code ≤ 16) }
{
    let Defined {
        table,
        deletions,
        is_refused,
    } = defined;
    let step_in = StepIn {
        pgm: step.pgm,
        parm: step.parm.copy(alloc)?,
        card: step.card,
        date: *date,
        dds: table,
    };
    finish(alloc, machine, is_refused, program, &step_in, &deletions)
}

// The code of the DDs of a step.
fn definition_code(is_refused: bool) -> u8
    ensures { result ≡ (if is_refused then 12 else 0) }
{
    if is_refused { 12 } else { 0 }
}

// What a step of a program does between its lines.
fn run_known<M: Machine>(
    alloc: Global,
    machine: &mut M,
    date: &[u8; 3],
    program: Program,
    step: &Step,
) -> Result<StepEnd, Stop>
    requires { IsReady M.Machine machine.old }
    ensures step { Does M.Machine (DoesStep M.tells_prints (program_step date.now program step.now (M.meaning machine.old).state) ((definitions date.now step.now.dds (M.meaning machine.old).state).is_refused)) machine.old machine.new result }
    ensures small { IfOk result (λ end. end.code ≤ 16) }
{
    let defined = define(alloc, machine, date, step.dds.as_slice())?;
    let ends_job = defined.is_refused;
    let code = run_defined(alloc, machine, date, program, step, defined)?;
    Ok(StepEnd {
        code: higher(definition_code(ends_job), code),
        ends_job,
    })
}

// A step whose program isn't known.
fn refuse_program<M: Machine>(alloc: Global, machine: &mut M, step: &Step) -> Result<StepEnd, Stop>
    requires { IsReady M.Machine machine.old }
    ensures step { Does M.Machine (DoesStep M.tells_prints (says 16 (named_line step.now.card (codes "NO-PROGRAM") step.now.pgm) ∷ []) false) machine.old machine.new result }
    ensures small { IfOk result (λ end. end.code ≤ 16) }
{
    let code = say_no_program(alloc, machine, step)?;
    Ok(StepEnd {
        code,
        ends_job: false,
    })
}

// What a step does between its lines.
#[tactic(auto, unfolding(crate::specs::Jobs::step_body, crate::specs::Jobs::ends_job))]
fn run_body<M: Machine>(
    alloc: Global,
    machine: &mut M,
    date: &[u8; 3],
    step: &Step,
) -> Result<StepEnd, Stop>
    requires { IsReady M.Machine machine.old }
    ensures step { Does M.Machine (DoesStep M.tells_prints (step_body date.now step.now (M.meaning machine.old).state) (ends_job date.now step.now (M.meaning machine.old).state)) machine.old machine.new result }
    ensures small { IfOk result (λ end. end.code ≤ 16) }
{
    match program_named(&step.pgm) {
        Some(program) => run_known(alloc, machine, date, program, step),
        None => refuse_program(alloc, machine, step),
    }
}

/// Runs a step: its first line, its DDs, its program, unless a DD is refused, its dispositions and its code.
pub fn run_step<M: Machine>(
    alloc: Global,
    machine: &mut M,
    date: &[u8; 3],
    step: &Step,
) -> Result<StepEnd, Stop>
    requires { IsReady M.Machine machine.old }
    ensures step { Does M.Machine (DoesStep M.tells_prints (step_items date.now step.now (M.meaning machine.old).state) (ends_job date.now step.now (M.meaning machine.old).state)) machine.old machine.new result }
    ensures small { IfOk result (λ end. end.code ≤ 16) }
{
    say_step(alloc, machine, step)?;
    let end = run_body(alloc, machine, date, step)?;
    say_code(alloc, machine, "STEP", step.name, end.code)?;
    Ok(end)
}
