//! IEBCOPY in a step.
ghost use Rattle.std.specs.Prelude.{◌≡◌, ◌≤◌, [], IsTrue, IsErrOf, IfOk};
ghost use Rattle.std.specs.List.{AllByRecursion};
ghost use Rattle.std.specs.Result.{result_map_both};
ghost use Rattle.util_steps.specs.Steps.{AreApart};
ghost use Rattle.util_steps.specs.Taking.{IsReady, Reads, RunsItems, TakesItem};
ghost use Rattle.util_syntax.specs.Program.{no_dd_item, syntax_item};
ghost use Rattle.iebcopy_util.specs.declared.tasks.MemberCopy.{MemberCopy};
ghost use Rattle.iebcopy_util.specs.Items.{copy_items, ends_with, iebcopy_items, members, missing, order_if, order_items, orders_items, picks_in, refused_item, tasks_if, with_missing};
ghost use Rattle.iebcopy_util.specs.Sets.{library, sets_of};
ghost use Rattle.iebcopy_util.specs.Steps.{EndsWhole, RunsCoded, RunsCourse};
ghost use Rattle.iebcopy_util.specs.Tasks.{IsLawfulChoice, IsLawfulOrder, IsLawfulMemberCopy};

use crate::members::{Ending, copy_members};
use crate::orders::{Choice, CopyOrder, Order, orders_of};
use crate::reporting::report_missing;
use crate::requests::Pick;
use crate::sets::{Sets, is_among, sets_of};
use crate::tasks::{MemberCopy, RefusedSet, tasks_of};
use ebcdic_names::{Dsn, Name8};
use record_files::{Purpose, find_set};
use std::alloc::Global;
use util_program::{report_fault, report_no_dd, report_outcome};
use util_steps::SetRef;
use util_syntax::{Object, Outcome, SYSIN, StatementFault, StepIn, sysin_statements};
use vol_model::{BlockBuf, Machine, Stop};

/// Runs IEBCOPY in a step (Utilities GC28-6586, in this project's profile), and gives the step's
/// code.
///
/// SYSIN has the statements; it is cards or DUMMY, else the step ends with `NO-DD` and 16.
/// SYSPRINT isn't needed.
///
/// - `COPY OUTDD=dd,INDD=dd` or `INDD=(dd,(dd,R),..)` copies members of the inputs, one after
///   another, to the output; with R they replace members of their names. A DD that is no data set
///   is `NO-DD` with 16, and ends the step.
/// - `SELECT MEMBER=name` or `MEMBER=(name,(name,new),(name,,R),(name,new,R),..)` after it takes
///   these members alone, each from the first input that has it.
/// - `EXCLUDE MEMBER=name` or `MEMBER=(name,..)` after it takes all members but these.
///
/// An output that is an input is `SAME-SET`, and the first data set that is no library that can be
/// read is refused; no member is copied then. Each member is copied and then answered by one line.
/// A blank output takes the attributes of the first input. A member that is there already and
/// isn't replaced has code 4, as one that is selected and that no input has; any other refusal has
/// 8, or 12 for `BAD-RECORD`, and ends the copy. Any other statement is `SYNTAX BAD-OPERAND` with
/// 12, and ends the step.
///
/// Where memory runs out on a roomy machine, each member is copied as a whole or not at all.
pub fn run<M: Machine>(alloc: Global, machine: &mut M, step: &StepIn) -> Result<u8, Stop>
    requires { IsReady M.Machine machine.old }
    ensures runs { RunsItems M.Machine (iebcopy_items step.now) machine.old machine.new result }
    ensures memory { IsTrue M.tells → IsTrue M.roomy → IsErrOf result Stop.Memory → EndsWhole (iebcopy_items step.now (M.meaning machine.old).state) (M.meaning machine.old).state (M.meaning machine.new).state }
{
    run_step(alloc, machine, step)
}

// Does the items of a step.
fn run_step<M: Machine>(alloc: Global, machine: &mut M, step: &StepIn) -> Result<u8, Stop>
    requires { IsReady M.Machine machine.old }
    ensures items { RunsCoded M.Machine (iebcopy_items step.now) machine.old machine.new result }
    ensures small { IfOk result (λ code. code ≤ 16) }
{
    let Some(items) = sysin_statements(alloc, step)? else {
        return report_no_dd(alloc, machine, step.card, &SYSIN);
    };
    let orders = orders_of(alloc, &items)?;
    run_orders(alloc, machine, step, &orders)
}

// Does what statements order.
fn run_orders<M: Machine>(
    alloc: Global,
    machine: &mut M,
    step: &StepIn,
    orders: &[Order],
) -> Result<u8, Stop>
    requires ready { IsReady M.Machine machine.old }
    requires lawful { AllByRecursion IsLawfulOrder orders.now }
    ensures items { RunsCoded M.Machine (λ shelf. orders_items step.now shelf orders.now) machine.old machine.new result }
    ensures small { IfOk result (λ code. code ≤ 16) }
{
    let mut buf = BlockBuf::new(alloc)?;
    let mut code = 0;
    let mut rest = orders;
    loop {
        let (order, behind) = match rest.split_first() {
            Some(parts) => parts,
            None => return Ok(code),
        };
        let ending = do_order(alloc, machine, &mut buf, step, order)?;
        code = code.max(ending.code);
        if !ending.goes_on {
            return Ok(code);
        }
        rest = behind;
    }
}

// Does an order.
fn do_order<M: Machine>(
    alloc: Global,
    machine: &mut M,
    buf: &mut BlockBuf,
    step: &StepIn,
    order: &Order,
) -> Result<Ending, Stop>
    requires ready { IsReady M.Machine machine.old }
    requires lawful { IsLawfulOrder order.now }
    ensures course { RunsCourse M.Machine (λ shelf. order_items step.now shelf order.now) machine.old machine.new result }
    ensures small { IfOk result (λ ending. ending.code ≤ 16) }
{
    match order {
        Order::Copy(copy) => do_copy(alloc, machine, buf, step, copy),
        Order::Fault(fault) => end_in_fault(alloc, machine, *fault),
    }
}

// Answers the fault of a statement, which ends the step.
fn end_in_fault<M: Machine>(
    alloc: Global,
    machine: &mut M,
    fault: StatementFault,
) -> Result<Ending, Stop>
    requires { IsReady M.Machine machine.old }
    ensures course { RunsCourse M.Machine (λ shelf. ends_with (syntax_item fault.card fault.kind)) machine.old machine.new result }
    ensures small { IfOk result (λ ending. ending.code ≤ 16) }
{
    let code = report_fault(alloc, machine, fault.card, fault.kind)?;
    Ok(Ending {
        code,
        goes_on: false,
    })
}

// Says that the step lacks a DD, which ends it.
fn end_without_dd<M: Machine>(
    alloc: Global,
    machine: &mut M,
    card: u32,
    name: &Name8,
) -> Result<Ending, Stop>
    requires { IsReady M.Machine machine.old }
    ensures course { RunsCourse M.Machine (λ shelf. ends_with (no_dd_item card name.now)) machine.old machine.new result }
    ensures small { IfOk result (λ ending. ending.code ≤ 16) }
{
    let code = report_no_dd(alloc, machine, card, name)?;
    Ok(Ending {
        code,
        goes_on: false,
    })
}

// Does a copy, or says that a DD of it is missing.
fn do_copy<M: Machine>(
    alloc: Global,
    machine: &mut M,
    buf: &mut BlockBuf,
    step: &StepIn,
    copy: &CopyOrder,
) -> Result<Ending, Stop>
    requires ready { IsReady M.Machine machine.old }
    requires choice { IsLawfulChoice copy.now.choice }
    ensures course { RunsCourse M.Machine (λ shelf. order_if step.now shelf copy.now (sets_of step.now.dds copy.now.dds)) machine.old machine.new result }
    ensures small { IfOk result (λ ending. ending.code ≤ 16) }
{
    let sets = match sets_of(alloc, step, &copy.dds)? {
        Ok(sets) => sets,
        Err(name) => return end_without_dd(alloc, machine, step.card, &name),
    };
    let code = copy_sets(alloc, machine, buf, copy.card, &copy.choice, &sets)?;
    Ok(Ending {
        code,
        goes_on: true,
    })
}

// Answers a copy that isn't done for the sake of a data set.
fn report_refused<M: Machine>(
    alloc: Global,
    machine: &mut M,
    card: u32,
    dsn: &Dsn,
    outcome: Outcome,
) -> Result<u8, Stop>
    requires { IsReady M.Machine machine.old }
    ensures item { TakesItem M.Machine (λ shelf. refused_item card dsn.now outcome) machine.old machine.new result }
    ensures state { IsTrue M.tells → (M.meaning machine.new).state ≡ (M.meaning machine.old).state }
{
    report_outcome(alloc, machine, card, "COPY", &Object::Name(*dsn), outcome)
}

// Copies members of data sets to another, or answers the first that isn't fit for it.
fn copy_sets<M: Machine>(
    alloc: Global,
    machine: &mut M,
    buf: &mut BlockBuf,
    card: u32,
    choice: &Choice,
    sets: &Sets,
) -> Result<u8, Stop>
    requires ready { IsReady M.Machine machine.old }
    requires choice { IsLawfulChoice choice.now }
    ensures items { RunsCoded M.Machine (λ shelf. copy_items shelf card choice.now sets.now) machine.old machine.new result }
    ensures small { IfOk result (λ code. code ≤ 16) }
{
    if is_among(&sets.out, sets.inputs.as_slice()) {
        return report_refused(alloc, machine, card, &sets.out.dsn, Outcome::SameSet);
    }
    match find_tasks(alloc, machine, choice, sets)? {
        Ok(tasks) => copy_tasks(alloc, machine, buf, card, choice, &sets.out, &tasks),
        Err(refused) => {
            let outcome = Outcome::Refused(refused.refusal);
            report_refused(alloc, machine, card, &refused.dsn, outcome)
        }
    }
}

// The members that are copied, or the first of the data sets that is no library.
fn find_tasks<M: Machine>(
    alloc: Global,
    machine: &mut M,
    choice: &Choice,
    sets: &Sets,
) -> Result<Result<Vec<MemberCopy>, RefusedSet>, Stop>
    requires ready { IsReady M.Machine machine.old }
    requires choice { IsLawfulChoice choice.now }
    ensures reads { Reads M.Machine (λ shelf answer. result_map_both (λ v. v.items) (λ f. f) answer ≡ tasks_if shelf choice.now sets.now.out sets.now.inputs (library shelf sets.now.out)) machine.old machine.new result }
    ensures lawful { IfOk result (λ answer. IfOk answer (λ tasks. AllByRecursion IsLawfulMemberCopy tasks.items)) }
{
    match find_set(machine, Purpose::Members, &sets.out)? {
        Ok(_) => tasks_of(alloc, machine, choice, sets.inputs.as_slice()),
        Err(refusal) => Ok(Err(RefusedSet {
            dsn: sets.out.dsn,
            refusal,
        })),
    }
}

// The members that a choice names.
fn picks_in(choice: &Choice) -> &[Pick]
    ensures { result.now ≡ picks_in choice.now }
{
    match choice {
        Choice::Select(picks) => picks.as_slice(),
        _ => &[],
    }
}

// Copies members, and answers those that are selected and that no input has.
fn copy_tasks<M: Machine>(
    alloc: Global,
    machine: &mut M,
    buf: &mut BlockBuf,
    card: u32,
    choice: &Choice,
    out: &SetRef,
    tasks: &[MemberCopy],
) -> Result<u8, Stop>
    requires ready { IsReady M.Machine machine.old }
    requires apart { IsTrue M.tells → AllByRecursion (λ (t : MemberCopy). AreApart out.now t.source.set) tasks.now }
    requires lawful { AllByRecursion IsLawfulMemberCopy tasks.now }
    ensures items { RunsCoded M.Machine (λ shelf. with_missing card out.now (missing choice.now tasks.now) (members shelf card out.now [] tasks.now)) machine.old machine.new result }
    ensures small { IfOk result (λ code. code ≤ 16) }
{
    let ending = copy_members(alloc, machine, buf, card, out, tasks)?;
    if !ending.goes_on {
        return Ok(ending.code);
    }
    let code = report_missing(alloc, machine, card, out, tasks, picks_in(choice))?;
    Ok(ending.code.max(code))
}
