//! The lines that frame jobs and steps, on a machine.
ghost use Rattle.std.specs.Prelude.{codes};
ghost use Rattle.util_syntax.specs.Listing.{jcl_line, named_line};
ghost use Rattle.util_steps.specs.Taking.{IsReady, TakesItem};
ghost use Rattle.job_runner.specs.Lines.{code_line, job_line, kind_words, step_line};
ghost use Rattle.job_runner.specs.Parts.{says};

use crate::lines::{code_line, fault_line, job_line, step_line};
use ebcdic_names::Name8;
use job_deck::{JclErr, Step};
use std::alloc::Global;
use util_steps::report;
use util_syntax::no_program_line;
use vol_model::{Machine, Stop};

/// Prints the first line of a job.
pub fn say_job<M: Machine>(alloc: Global, machine: &mut M, name: &Name8) -> Result<u8, Stop>
    requires { IsReady M.Machine machine.old }
    ensures { TakesItem M.Machine (λ shelf. says 0 (job_line name.now)) machine.old machine.new result }
{
    let line = job_line(alloc, name)?;
    report(machine, &line, 0)
}

/// Prints the line of the fault that refuses a job.
pub fn say_fault<M: Machine>(alloc: Global, machine: &mut M, fault: &JclErr) -> Result<u8, Stop>
    requires { IsReady M.Machine machine.old }
    ensures { TakesItem M.Machine (λ shelf. says 16 (jcl_line fault.now.card fault.now.column (kind_words fault.now.kind))) machine.old machine.new result }
{
    let line = fault_line(alloc, fault)?;
    report(machine, &line, 16)
}

/// Prints the first line of a step.
pub fn say_step<M: Machine>(alloc: Global, machine: &mut M, step: &Step) -> Result<u8, Stop>
    requires { IsReady M.Machine machine.old }
    ensures { TakesItem M.Machine (λ shelf. says 0 (step_line step.now.name step.now.pgm)) machine.old machine.new result }
{
    let line = step_line(alloc, step.name, &step.pgm)?;
    report(machine, &line, 0)
}

/// Says that the program of a step isn't known.
pub fn say_no_program<M: Machine>(alloc: Global, machine: &mut M, step: &Step) -> Result<u8, Stop>
    requires { IsReady M.Machine machine.old }
    ensures { TakesItem M.Machine (λ shelf. says 16 (named_line step.now.card (codes "NO-PROGRAM") step.now.pgm)) machine.old machine.new result }
{
    let line = no_program_line(alloc, step.card, &step.pgm)?;
    report(machine, &line, 16)
}

/// Prints the last line of a job or of a step, by its word.
pub fn say_code<M: Machine>(
    alloc: Global,
    machine: &mut M,
    word: &str,
    name: Option<Name8>,
    code: u8,
) -> Result<u8, Stop>
    requires { IsReady M.Machine machine.old }
    ensures { TakesItem M.Machine (λ shelf. says 0 (code_line word.now name code)) machine.old machine.new result }
{
    let line = code_line(alloc, word, name, code)?;
    report(machine, &line, 0)
}
