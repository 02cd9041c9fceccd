//! IEBGENER in a step.
ghost use Rattle.std.specs.Prelude.{◌≡◌, ◌≤◌, ◌-◌, [], drop, length, map, option_map, slice_get, take, IfOk};
ghost use Rattle.std.specs.Map.{lookup};
ghost use Rattle.std.specs.Option.{option_copied};
ghost use Rattle.util_steps.specs.Taking.{IsReady, RunsItems, TakesItem};
ghost use Rattle.util_syntax.specs.Items.{item_view};
ghost use Rattle.util_syntax.specs.Program.{sysin};
ghost use Rattle.util_syntax.specs.Step.{same_name};
ghost use Rattle.record_files.specs.Inputs.{input_view};
ghost use Rattle.iebgener_util.specs.declared.orders.State.TheVariants.{Begun};
ghost use Rattle.iebgener_util.specs.Orders.{orders_of};
ghost use Rattle.iebgener_util.specs.Items.{copy_item, iebgener_items, input_in, names_for, object_for, order_item, order_items, replacing, statements_if};
ghost use Rattle.output_files.specs.Members.{names_view};

use crate::copying::{RecordCopy, copy_records};
use crate::orders::{Order, OutputOrder, orders_of};
use crate::requests::Names;
use ebcdic_names::Name8;
use output_files::{Names as MemberNames, Output, SYSUT1, SYSUT2, end_without_dd, set_in};
use record_files::Input;
use std::alloc::{AllocError, Global};
use util_program::{report_fault, report_steps};
use util_steps::{Items, SetRef, run_items};
use util_syntax::{DdIn, Item, Object, SYSIN, StepIn, sysin_statements};
use vol_model::{Machine, Stop};

/// Runs IEBGENER in a step (Utilities GC28-6586, in this project's profile), and gives the step's code, the highest of
/// its copies.
///
/// It copies the records of SYSUT1, cards, a sequential data set or a member, to SYSUT2: to a sequential data set, which
/// is emptied before unless its DD says that records go after its own, or to a member of a library. SYSIN is cards or
/// DUMMY, and may be missing. The first of these DDs that is missing or of another kind is `NO-DD`, with 16. SYSPRINT
/// isn't needed.
///
/// - `GENERATE` with numbers that limit nothing stands first or not at all.
/// - `MEMBER NAME=(name,alias,..)` begins a member, and goes before a member that the DD names. Its own name replaces an
///   entry; another name that is there already is `MEMBER-EXISTS`.
/// - `RECORD IDENT=(length,'text',column),FIELD=(length,from,,to)` edits a group of records, which stay as they are where
///   there is no FIELD. Groups follow each other, from member to member; a member without a group takes all records that
///   are left. What stands after the last group is dropped.
///
/// Any other statement, or one out of its place, is `SYNTAX BAD-OPERAND` with 12; the member before it that may still
/// take statements isn't written, and the step ends. Each member, or else the one copy, is answered by one line, by the
/// card of its MEMBER, or of the first statement, or of EXEC. A refusal has code 8, and `BAD-RECORD` 12; neither ends the
/// step.
pub fn run<M: Machine>(alloc: Global, machine: &mut M, step: &StepIn) -> Result<u8, Stop>
    requires { IsReady M.Machine machine.old }
    ensures { RunsItems M.Machine (iebgener_items step.now) machine.old machine.new result }
{
    let Some(statements) = optional_statements(alloc, step)? else {
        return end_without_dd(alloc, machine, step.card, &SYSIN);
    };
    let Some(input) = input_in(step.dds.get(&SYSUT1)) else {
        return end_without_dd(alloc, machine, step.card, &SYSUT1);
    };
    let Some(output) = set_in(step.dds.get(&SYSUT2)) else {
        return end_without_dd(alloc, machine, step.card, &SYSUT2);
    };
    run_statements(alloc, machine, step.card, input, output, &statements)
}

// Does what statements order, in a step whose EXEC is on this card.
fn run_statements<M: Machine>(
    alloc: Global,
    machine: &mut M,
    exec: u32,
    input: Input<'_>,
    output: Output,
    statements: &[Item],
) -> Result<u8, Stop>
    requires { IsReady M.Machine machine.old }
    ensures { RunsItems M.Machine (λ shelf. order_items (input_view input.entry) output [] shelf (orders_of exec (Begun None) (map item_view statements.now))) machine.old machine.new result }
{
    let orders = orders_of(alloc, exec, statements)?;
    run_orders(alloc, machine, input, output, &orders)
}

// The statements of SYSIN, which may be missing; `None` where it is neither cards nor DUMMY.
fn optional_statements(alloc: Global, step: &StepIn) -> Result<Option<Vec<Item>>, AllocError>
    ensures { IfOk result (λ found. option_map (λ v. map item_view v.items) found
        ≡ statements_if (lookup (same_name sysin) step.now.dds)) }
{
    match step.dds.get(&SYSIN) {
        Some(_) => sysin_statements(alloc, step),
        None => Ok(Some(Vec::new(alloc))),
    }
}

// The cards, or the data set or member, that a DD gives.
fn input_in(dd: Option<&DdIn>) -> Option<Input<'_>>
    ensures { option_map input_view result ≡ input_in (option_map (λ d. d.now) dd.entry) }
{
    if let Some(DdIn::Cards(cards)) = dd {
        return Some(Input::Cards(cards.as_slice()));
    }
    match set_in(dd) {
        Some(output) => Some(Input::From {
            set: output.to,
            member: output.member,
        }),
        None => None,
    }
}

// The order at this place, from 0, if there is one.
fn order_at(orders: &[Order], at: usize) -> Option<&Order>
    ensures { option_copied result ≡ slice_get orders.now at }
{
    orders.get(at)
}

// The orders in front of this place.
fn orders_before(orders: &[Order], at: usize) -> &[Order]
    requires { at ≤ length orders.now }
    ensures { result.now ≡ take at orders.now }
{
    &orders[..at]
}

// What is left of the orders of a step.
#[derive(Drop)]
struct Work<'a> {
    alloc: Global,
    input: Input<'a>,
    output: Output,
    orders: &'a [Order],
    // How many of them are done.
    done: usize,
}

impl<M: Machine> Items<M> for Work<'_> {
    ghost items = { λ work shelf. order_items (input_view work.input) work.output (take work.done work.orders.now) shelf (drop work.done work.orders.now) };

    ghost most = { λ work. length work.orders.now - work.done };

    fn next(&mut self, machine: &mut M) -> Result<Option<u8>, Stop> {
        match order_at(self.orders, self.done) {
            Some(order) => {
                let before = orders_before(self.orders, self.done);
                let code = do_order(
                    self.alloc,
                    machine,
                    &self.input,
                    &self.output,
                    before,
                    order,
                )?;
                self.done += 1;
                Ok(Some(code))
            }
            None => Ok(None),
        }
    }
}

// Does orders one after another.
fn run_orders<M: Machine>(
    alloc: Global,
    machine: &mut M,
    input: Input<'_>,
    output: Output,
    orders: &[Order],
) -> Result<u8, Stop>
    requires { IsReady M.Machine machine.old }
    ensures { RunsItems M.Machine (λ shelf. order_items (input_view input.entry) output [] shelf orders.now) machine.old machine.new result }
{
    let mut work = Work {
        alloc,
        input,
        output,
        orders,
        done: 0,
    };
    run_items(machine, &mut work)
}

// Does an order after others, or answers the fault of a statement.
#[tactic(auto, unfolding(crate::specs::Items::order_item))]
fn do_order<M: Machine>(
    alloc: Global,
    machine: &mut M,
    input: &Input<'_>,
    output: &Output,
    before: &[Order],
    order: &Order,
) -> Result<u8, Stop>
    requires { IsReady M.Machine machine.old }
    ensures { TakesItem M.Machine (λ shelf. order_item shelf (input_view input.now) output.now before.now order.now) machine.old machine.new result }
{
    match order {
        Order::Write(part) => do_output(alloc, machine, input, output, before, part),
        Order::Fault(fault) => report_fault(alloc, machine, fault.card, fault.kind),
    }
}

// The names by which a member replaces one.
fn replacing(name: Name8, aliases: &[Name8]) -> MemberNames<'_>
    ensures { names_view result ≡ replacing name aliases.now }
{
    MemberNames {
        name,
        aliases,
        replaces: true,
        aliases_replace: false,
    }
}

// The names of the member that is written, if one is.
fn names_for<'a>(names: &'a Option<Names>, member: &Option<Name8>) -> Option<MemberNames<'a>>
    ensures { option_map names_view result ≡ names_for names.now member.now }
{
    match names {
        Some(names) => Some(replacing(names.name, names.aliases.as_slice())),
        None => match member {
            Some(name) => Some(replacing(*name, &[])),
            None => None,
        },
    }
}

// Copies records to the member of a MEMBER, or else to that of the DD or to the set.
fn do_output<M: Machine>(
    alloc: Global,
    machine: &mut M,
    input: &Input<'_>,
    output: &Output,
    before: &[Order],
    order: &OutputOrder,
) -> Result<u8, Stop>
    requires { IsReady M.Machine machine.old }
    ensures { TakesItem M.Machine (λ shelf. copy_item shelf order.now.card (input_view input.now) output.now (names_for order.now.names output.now.member) before.now order.now.edits) machine.old machine.new result }
{
    let copy = RecordCopy {
        input: *input,
        output: *output,
        names: names_for(&order.names, &output.member),
        before,
        edits: order.edits.as_slice(),
    };
    answer(alloc, machine, order.card, &copy)
}

// What a line names: the member, or the set.
fn object_for(to: &SetRef, names: &Option<MemberNames<'_>>) -> Object
    ensures { result ≡ object_for to.now (option_map names_view names.now) }
{
    match names {
        Some(names) => Object::Member {
            set: to.dsn,
            name: names.name,
        },
        None => Object::Name(to.dsn),
    }
}

// Copies, and answers the copy.
fn answer<M: Machine>(
    alloc: Global,
    machine: &mut M,
    card: u32,
    copy: &RecordCopy<'_>,
) -> Result<u8, Stop>
    requires { IsReady M.Machine machine.old }
    ensures { TakesItem M.Machine (λ shelf. copy_item shelf card (input_view copy.now.input) copy.now.output (option_map names_view copy.now.names) copy.now.before.now copy.now.edits.now) machine.old machine.new result }
{
    let answer = copy_records(alloc, machine, copy)?;
    let object = object_for(&copy.output.to, &copy.names);
    report_steps(alloc, machine, card, "COPY", &object, answer)
}
