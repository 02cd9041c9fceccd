//! The operations of DDs and dispositions on a machine, and the lines that answer them.
ghost use Rattle.std.specs.Prelude.{◌≡◌, ◌≤◌, [], ◌∷◌, IsTrue, IfOk};
ghost use Rattle.vol_model.specs.Did.{answered};
ghost use Rattle.vol_model.specs.Lawful.{IsLawfulOp};
ghost use Rattle.vol_model.specs.Writing.{did_apply};
ghost use Rattle.util_steps.specs.Taking.{IsReady, Takes, TakesItem};
ghost use Rattle.job_runner.specs.DataSets.{code_for, operation_item, outcome_for};
ghost use Rattle.job_runner.specs.Parts.{Does, DoesItems};

use ebcdic_names::Dsn;
use std::alloc::Global;
use util_steps::report;
use util_syntax::{Object, Outcome, item_line};
use vol_model::{MachErr, Machine, Op, Refusal, Stop};

/// What the line of an operation names: the card of its DD, and the data set.
#[derive(Clone, Copy, Debug, PartialEq, Eq)]
pub struct Subject {
    /// The number of the DD's first card in the deck, from 1.
    pub card: u32,
    /// The name of the set.
    pub dsn: Dsn,
}

fn outcome_for(answer: Result<(), Refusal>) -> Outcome
    ensures { result ≡ outcome_for answer }
{
    match answer {
        Ok(()) => Outcome::Done,
        Err(refusal) => Outcome::Refused(refusal),
    }
}

fn code_for(refused: u8, answer: Result<(), Refusal>) -> u8
    requires { refused ≤ 16 }
    ensures code { result ≡ code_for refused answer }
    ensures small { result ≤ 16 }
{
    match answer {
        Ok(()) => 0,
        Err(_) => refused,
    }
}

// Does an operation. A refusal is answered; memory that runs out, or a failed device, ends the run.
fn perform<M: Machine>(machine: &mut M, op: &Op) -> Result<Result<(), Refusal>, Stop>
    requires ready { IsReady M.Machine machine.old }
    requires lawful { IsLawfulOp op.now }
    ensures { Takes M.Machine (λ shelf. did_apply shelf op.now) machine.old machine.new result }
{
    match machine.apply(op) {
        Ok(()) => Ok(Ok(())),
        Err(MachErr::Refused(refusal)) => Ok(Err(refusal)),
        Err(MachErr::Memory) => Err(Stop::Memory),
        Err(MachErr::Device) => Err(Stop::Device),
        Err(MachErr::Print) => unreachable!(),
    }
}

/// Prints the line of an operation that is answered so, by its word; its code is `refused` where it is refused.
pub fn answer<M: Machine>(
    alloc: Global,
    machine: &mut M,
    subject: &Subject,
    word: &str,
    refused: u8,
    answer: Result<(), Refusal>,
) -> Result<u8, Stop>
    requires ready { IsReady M.Machine machine.old }
    requires small { refused ≤ 16 }
    ensures { TakesItem M.Machine (λ shelf. operation_item subject.now.card word.now subject.now.dsn refused (answered answer)) machine.old machine.new result }
{
    let object = Object::Name(subject.dsn);
    let line = item_line(alloc, subject.card, word, &object, outcome_for(answer))?;
    report(machine, &line, code_for(refused, answer))
}

/// Does an operation, and prints its line.
pub fn operate<M: Machine>(
    alloc: Global,
    machine: &mut M,
    subject: &Subject,
    word: &str,
    refused: u8,
    op: &Op,
) -> Result<Result<(), Refusal>, Stop>
    requires ready { IsReady M.Machine machine.old }
    requires small { refused ≤ 16 }
    requires lawful { IsLawfulOp op.now }
    ensures item { Does M.Machine (DoesItems M.tells_prints (operation_item subject.now.card word.now subject.now.dsn refused (did_apply (M.meaning machine.old).state op.now) ∷ [])) machine.old machine.new result }
    ensures answer { IsTrue M.tells → IfOk result (λ a. a ≡ (did_apply (M.meaning machine.old).state op.now).answer) }
{
    let done = perform(machine, op)?;
    answer(alloc, machine, subject, word, refused, done)?;
    Ok(done)
}
