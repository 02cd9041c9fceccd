//! The members of a copy, one after another.
ghost use Rattle.std.specs.Prelude.{◌≡◌, ◌≤◌, ◌<◌, ◌+◌, ◌++◌, ◌∷◌, [], if◌then◌else◌, List, vec_capacity, vec_len, IsTrue, IfOk};
ghost use Rattle.std.specs.List.{AllByRecursion};
ghost use Rattle.util_steps.specs.Steps.{AreApart};
ghost use Rattle.util_steps.specs.Taking.{IsReady};
ghost use Rattle.iebcopy_util.specs.declared.tasks.MemberCopy.{MemberCopy};
ghost use Rattle.iebcopy_util.specs.Copying.{member_copied};
ghost use Rattle.iebcopy_util.specs.Items.{Course, copy_code, follow, member_item, members, outcome_of, stopped};
ghost use Rattle.iebcopy_util.specs.Steps.{RunsCourse, RunsWhole};
ghost use Rattle.iebcopy_util.specs.Tasks.{IsLawfulMemberCopy};

use crate::copying::{Copy, copy_member};
use crate::tasks::MemberCopy;
use std::alloc::Global;
use util_steps::{SetRef, say};
use util_syntax::{Object, Outcome, item_line};
use vol_model::{BlockBuf, Machine, Refusal, Stop};

/// What became of items.
#[derive(Clone, Copy, Debug, PartialEq, Eq)]
pub struct Ending {
    /// Their highest code.
    pub code: u8,
    /// Whether more of their kind follow.
    pub goes_on: bool,
}

// What became of a copy.
fn outcome_of(answer: &Result<Option<Copy>, Outcome>) -> Outcome
    ensures { result ≡ outcome_of answer.now }
{
    match answer {
        Ok(_) => Outcome::Done,
        Err(outcome) => *outcome,
    }
}

// The condition code of a copy: 4 where a member is there already, or isn't.
fn copy_code(outcome: Outcome) -> u8
    ensures code { result ≡ copy_code outcome }
    ensures small { result ≤ 12 }
{
    match outcome {
        Outcome::Refused(Refusal::MemberExists) => 4,
        Outcome::Refused(Refusal::NoMember) => 4,
        _ => outcome.code(),
    }
}

// Copies a member and answers it, where these copies were made before.
fn do_member<M: Machine>(
    alloc: Global,
    machine: &mut M,
    buf: &mut BlockBuf,
    card: u32,
    out: &SetRef,
    copies: &[Copy],
    task: &MemberCopy,
) -> Result<Result<Option<Copy>, Outcome>, Stop>
    requires ready { IsReady M.Machine machine.old }
    requires apart { IsTrue M.tells → AreApart out.now task.now.source.set }
    requires lawful { IsLawfulMemberCopy task.now }
    ensures { RunsWhole M.Machine (λ shelf. member_item card out.now task.now (member_copied shelf out.now copies.now task.now) ∷ []) (λ shelf answer. answer ≡ (member_copied shelf out.now copies.now task.now).answer) machine.old machine.new result }
{
    let answer = copy_member(alloc, machine, buf, out, copies, task)?;
    let object = Object::Member {
        set: out.dsn,
        name: task.name,
    };
    let outcome = outcome_of(&answer);
    let line = item_line(alloc, card, "COPY", &object, outcome)?;
    say(machine, &line)?;
    Ok(answer)
}

// Whether more members follow a copy, which is put to those made before.
fn remember(copies: &mut Vec<Copy>, answer: Result<Option<Copy>, Outcome>) -> bool
    requires room { vec_len copies.old < vec_capacity copies.old }
    ensures follow { (more : List Copy → Course) → follow answer (λ xs. more (copies.old.items ++ xs)) ≡ (if result then more copies.new.items else stopped) }
    ensures len { vec_len copies.new ≤ vec_len copies.old + 1 }
    ensures capacity { vec_capacity copies.old ≤ vec_capacity copies.new }
{
    match answer {
        Ok(Some(copy)) => {
            copies.push(copy).unwrap();
            true
        }
        Ok(None) | Err(Outcome::Refused(Refusal::MemberExists)) => true,
        Err(_) => false,
    }
}

/// Copies members and answers each; a refusal ends them, but that a member is there.
pub fn copy_members<M: Machine>(
    alloc: Global,
    machine: &mut M,
    buf: &mut BlockBuf,
    card: u32,
    out: &SetRef,
    tasks: &[MemberCopy],
) -> Result<Ending, Stop>
    requires ready { IsReady M.Machine machine.old }
    requires apart { IsTrue M.tells → AllByRecursion (λ (t : MemberCopy). AreApart out.now t.source.set) tasks.now }
    requires lawful { AllByRecursion IsLawfulMemberCopy tasks.now }
    ensures course { RunsCourse M.Machine (λ shelf. members shelf card out.now [] tasks.now) machine.old machine.new result }
    ensures small { IfOk result (λ ending. ending.code ≤ 16) }
{
    let mut copies = Vec::with_capacity(alloc, tasks.len())?;
    let mut code = 0;
    let mut rest = tasks;
    loop {
        let (task, behind) = match rest.split_first() {
            Some(parts) => parts,
            None => return Ok(Ending {
                code,
                goes_on: true,
            }),
        };
        let answer = do_member(alloc, machine, buf, card, out, &copies, task)?;
        let outcome = outcome_of(&answer);
        code = code.max(copy_code(outcome));
        let goes_on = remember(&mut copies, answer);
        if !goes_on {
            return Ok(Ending {
                code,
                goes_on: false,
            });
        }
        rest = behind;
    }
}
