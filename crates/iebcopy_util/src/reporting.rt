//! The members that are selected, and that no input has.
ghost use Rattle.std.specs.Prelude.{◌≡◌, ◌≤◌, [], ◌∷◌, IsTrue, IfOk};
ghost use Rattle.util_steps.specs.Taking.{IsReady, TakesItem};
ghost use Rattle.iebcopy_util.specs.Items.{items_missing, missing_item};
ghost use Rattle.iebcopy_util.specs.Steps.{RunsCoded};

use crate::requests::Pick;
use crate::tasks::{MemberCopy, is_taken};
use std::alloc::Global;
use util_steps::{SetRef, report};
use util_syntax::{Object, Outcome, item_line};
use vol_model::{Machine, Refusal, Stop};

// Answers a member that is selected, and that no input has.
fn report_absent<M: Machine>(
    alloc: Global,
    machine: &mut M,
    card: u32,
    out: &SetRef,
    pick: &Pick,
) -> Result<u8, Stop>
    requires { IsReady M.Machine machine.old }
    ensures item { TakesItem M.Machine (λ shelf. missing_item card out.now pick.now) machine.old machine.new result }
    ensures state { IsTrue M.tells → (M.meaning machine.new).state ≡ (M.meaning machine.old).state }
{
    let object = Object::Member {
        set: out.dsn,
        name: pick.name,
    };
    let outcome = Outcome::Refused(Refusal::NoMember);
    let line = item_line(alloc, card, "COPY", &object, outcome)?;
    report(machine, &line, 4)
}

// Answers a member that is selected, if no input has it.
fn report_pick<M: Machine>(
    alloc: Global,
    machine: &mut M,
    card: u32,
    out: &SetRef,
    tasks: &[MemberCopy],
    pick: &Pick,
) -> Result<u8, Stop>
    requires { IsReady M.Machine machine.old }
    ensures items { RunsCoded M.Machine (λ shelf. items_missing card out.now tasks.now (pick.now ∷ [])) machine.old machine.new result }
    ensures small { IfOk result (λ code. code ≤ 16) }
{
    if is_taken(&pick.name, tasks) {
        return Ok(0);
    }
    report_absent(alloc, machine, card, out, pick)
}

/// Answers the members that are selected, and that no input has.
pub fn report_missing<M: Machine>(
    alloc: Global,
    machine: &mut M,
    card: u32,
    out: &SetRef,
    tasks: &[MemberCopy],
    picks: &[Pick],
) -> Result<u8, Stop>
    requires { IsReady M.Machine machine.old }
    ensures items { RunsCoded M.Machine (λ shelf. items_missing card out.now tasks.now picks.now) machine.old machine.new result }
    ensures small { IfOk result (λ code. code ≤ 16) }
{
    let mut code = 0;
    let mut rest = picks;
    loop {
        let (pick, behind) = match rest.split_first() {
            Some(parts) => parts,
            None => return Ok(code),
        };
        let own = report_pick(alloc, machine, card, out, tasks, pick)?;
        code = code.max(own);
        rest = behind;
    }
}
