//! The statements of SYSIN, one after another.
ghost use Rattle.std.specs.Prelude.{◌≡◌, ℕ, List, [], ◌∷◌, length, map};
ghost use Rattle.vol_model.specs.declared.contents.Shelf.{Shelf};
ghost use Rattle.vol_model.specs.Events.{Item as LineItem};
ghost use Rattle.util_steps.specs.Items.{items_along};
ghost use Rattle.util_steps.specs.Taking.{IsReady, RunsItems, TakesItem};
ghost use Rattle.util_syntax.specs.Items.{StatementView, item_view};
ghost use Rattle.util_syntax.specs.Program.{no_dd_item, statement_view, sysin};
ghost use Rattle.util_program.specs.Statements.{program_items, statement_item};

use crate::answers::{report_fault, report_no_dd};
use std::alloc::Global;
use util_steps::{Items, run_items};
use util_syntax::{Item, SYSIN, Statement, StepIn, sysin_statements};
use vol_model::{Machine, Stop};

/// A program that does the statements of SYSIN one after another.
pub trait Program<M: Machine> {
    /// The item of a statement on a shelf.
    ghost item: { Self → Shelf → StatementView → LineItem };

    /// Does a statement, its operations and then its lines, and gives its code.
    fn answer(&self, machine: &mut M, statement: &Statement) -> Result<u8, Stop>
        requires { IsReady M.Machine machine.old }
        ensures { TakesItem M.Machine (λ shelf. item self.now shelf (statement_view statement.now)) machine.old machine.new result };
}

/// Runs a program in a step, and gives the step's code, the highest of its statements.
///
/// SYSIN has the statements; it is cards or DUMMY, else the step ends with `NO-DD` and 16. A statement that can't be read
/// is answered by `SYNTAX` with 12, and the next one is done all the same.
pub fn run_program<M: Machine, P: Program<M>>(
    alloc: Global,
    machine: &mut M,
    step: &StepIn,
    program: &P,
) -> Result<u8, Stop>
    requires { IsReady M.Machine machine.old }
    ensures { RunsItems M.Machine (program_items (P.item program.now) step.now) machine.old machine.new result }
{
    match sysin_statements(alloc, step)? {
        Some(items) => run_statements(alloc, machine, program, &items),
        None => report_no_sysin(alloc, machine, step.card),
    }
}

// What is left of the statements of a step.
#[derive(Drop)]
struct Statements<'a, P> {
    alloc: Global,
    program: &'a P,
    rest: &'a [Item],
}

impl<M: Machine, P: Program<M>> Items<M> for Statements<'_, P> {
    ghost items = { λ work shelf. items_along (statement_item (P.item work.program.now)) shelf (map item_view work.rest.now) };

    ghost most = { λ work. length work.rest.now };

    fn next(&mut self, machine: &mut M) -> Result<Option<u8>, Stop> {
        match self.rest.split_first() {
            Some((first, others)) => {
                let code = do_statement(self.alloc, machine, self.program, first)?;
                self.rest = others;
                Ok(Some(code))
            }
            None => Ok(None),
        }
    }
}

// Does statements one after another.
fn run_statements<M: Machine, P: Program<M>>(
    alloc: Global,
    machine: &mut M,
    program: &P,
    items: &[Item],
) -> Result<u8, Stop>
    requires { IsReady M.Machine machine.old }
    ensures { RunsItems M.Machine (λ shelf. items_along (statement_item (P.item program.now)) shelf (map item_view items.now)) machine.old machine.new result }
{
    let mut work = Statements {
        alloc,
        program,
        rest: items,
    };
    run_items(machine, &mut work)
}

// Does a statement, or answers its fault.
fn do_statement<M: Machine, P: Program<M>>(
    alloc: Global,
    machine: &mut M,
    program: &P,
    item: &Item,
) -> Result<u8, Stop>
    requires { IsReady M.Machine machine.old }
    ensures { TakesItem M.Machine (λ shelf. statement_item (P.item program.now) shelf (item_view item.now)) machine.old machine.new result }
{
    match item {
        Item::Stmt(statement) => program.answer(machine, statement),
        Item::Fault { card, kind, .. } => report_fault(alloc, machine, *card, *kind),
    }
}

// Says that a step has no SYSIN, which is its one item.
#[tactic(auto, using(util_steps::proofs::Taking::runs_one))]
fn report_no_sysin<M: Machine>(alloc: Global, machine: &mut M, card: u32) -> Result<u8, Stop>
    requires { IsReady M.Machine machine.old }
    ensures { RunsItems M.Machine (λ shelf. no_dd_item card sysin ∷ []) machine.old machine.new result }
{
    report_no_dd(alloc, machine, card, &SYSIN)
}
