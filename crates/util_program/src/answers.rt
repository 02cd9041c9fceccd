//! The lines that answer statements, their faults, and steps that lack a DD.
ghost use Rattle.std.specs.Prelude.{◌≡◌, IsTrue};
ghost use Rattle.util_steps.specs.Taking.{IsReady, TakesItem};
ghost use Rattle.util_syntax.specs.Program.{no_dd_item, syntax_item};
ghost use Rattle.util_program.specs.Outcomes.{outcome_item, steps_item};

use ebcdic_names::Name8;
use std::alloc::Global;
use util_steps::report;
use util_syntax::{Object, Outcome, SynErr, item_line, no_dd_line, syntax_line};
use vol_model::{Machine, Stop};

/// Answers the fault of a statement by `SYNTAX` and its kind, with 12.
pub fn report_fault<M: Machine>(
    alloc: Global,
    machine: &mut M,
    card: u32,
    kind: SynErr,
) -> Result<u8, Stop>
    requires { IsReady M.Machine machine.old }
    ensures item { TakesItem M.Machine (λ shelf. syntax_item card kind) machine.old machine.new result }
    ensures state { IsTrue M.tells → (M.meaning machine.new).state ≡ (M.meaning machine.old).state }
{
    let line = syntax_line(alloc, card, kind)?;
    report(machine, &line, 12)
}

/// Says by `NO-DD` that a step lacks a DD, with 16.
pub fn report_no_dd<M: Machine>(
    alloc: Global,
    machine: &mut M,
    card: u32,
    name: &Name8,
) -> Result<u8, Stop>
    requires { IsReady M.Machine machine.old }
    ensures item { TakesItem M.Machine (λ shelf. no_dd_item card name.now) machine.old machine.new result }
    ensures state { IsTrue M.tells → (M.meaning machine.new).state ≡ (M.meaning machine.old).state }
{
    let line = no_dd_line(alloc, card, name)?;
    report(machine, &line, 16)
}

/// Answers a statement by what became of it, with the code of that.
pub fn report_outcome<M: Machine>(
    alloc: Global,
    machine: &mut M,
    card: u32,
    operation: &str,
    object: &Object,
    outcome: Outcome,
) -> Result<u8, Stop>
    requires { IsReady M.Machine machine.old }
    ensures item { TakesItem M.Machine (λ shelf. outcome_item card operation.now object.now outcome) machine.old machine.new result }
    ensures state { IsTrue M.tells → (M.meaning machine.new).state ≡ (M.meaning machine.old).state }
{
    let line = item_line(alloc, card, operation, object, outcome)?;
    report(machine, &line, outcome.code())
}

/// Answers a statement by what its steps came to.
pub fn report_steps<M: Machine>(
    alloc: Global,
    machine: &mut M,
    card: u32,
    operation: &str,
    object: &Object,
    answer: Result<(), Outcome>,
) -> Result<u8, Stop>
    requires { IsReady M.Machine machine.old }
    ensures item { TakesItem M.Machine (λ shelf. steps_item card operation.now object.now answer) machine.old machine.new result }
    ensures state { IsTrue M.tells → (M.meaning machine.new).state ≡ (M.meaning machine.old).state }
{
    let outcome = Outcome::of(answer);
    report_outcome(alloc, machine, card, operation, object, outcome)
}
