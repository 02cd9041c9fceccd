//! IEHPROGM in a step.
ghost use Rattle.util_steps.specs.Taking.{IsReady, RunsItems, TakesItem};
ghost use Rattle.iehprogm_util.specs.Items.{iehprogm_items, request_item, statement_item};
ghost use Rattle.iehprogm_util.specs.Requests.{IsLawfulRequest};

use crate::requests::{Request, request_of};
use crate::steps::do_request;
use std::alloc::Global;
use util_program::{Program, report_fault, report_steps, run_program};
use util_syntax::{Statement, StepIn, SynErr};
use vol_model::{Machine, Stop};

/// Runs IEHPROGM in a step (Utilities GC28-6586, in this project's profile), and gives the step's code, the highest of
/// its statements.
///
/// SYSIN has the statements; it is cards or DUMMY, else the step ends with `NO-DD` and 16. SYSPRINT isn't needed. Each
/// statement is done and then answered by one line, in the order of the cards:
///
/// - `RENAME DSNAME=old,VOL=dev=serial,NEWNAME=new` gives a data set another name.
/// - `RENAME DSNAME=dsn,VOL=dev=serial,MEMBER=old,NEWNAME=new` renames a member of a partitioned
///   set: its entry is entered under the new name, which no member may have yet, and then dropped
///   under the old one. So the directory needs room for both, else it is `DIR-FULL`.
/// - `SCRATCH DSNAME=dsn,VOL=dev=serial[,PURGE]` lets a data set go; without PURGE one whose expiration date is later
///   than the date of the run is `EXPIRES`.
/// - `SCRATCH DSNAME=dsn,VOL=dev=serial,MEMBER=member[,PURGE]` drops the entry of a member; when the
///   set expires isn't asked.
///
/// A refusal has code 8. Any other statement, and one without these operands, is `SYNTAX BAD-OPERAND` with 12, and the
/// next statement is done all the same.
pub fn run<M: Machine>(alloc: Global, machine: &mut M, step: &StepIn) -> Result<u8, Stop>
    requires { IsReady M.Machine machine.old }
    ensures { RunsItems M.Machine (iehprogm_items step.now) machine.old machine.new result }
{
    let program = Iehprogm {
        alloc,
        date: step.date,
    };
    run_program(alloc, machine, step, &program)
}

// The program, with the date of the run.
#[derive(Drop)]
struct Iehprogm {
    alloc: Global,
    date: [u8; 3],
}

impl<M: Machine> Program<M> for Iehprogm {
    ghost item = { λ program. statement_item program.date };

    fn answer(&self, machine: &mut M, statement: &Statement) -> Result<u8, Stop> {
        match request_of(statement) {
            Some(request) => answer(self.alloc, machine, &self.date, statement.card, &request),
            None => report_fault(self.alloc, machine, statement.card, SynErr::BadOperand),
        }
    }
}

// Does what a statement asks for, and answers it.
fn answer<M: Machine>(
    alloc: Global,
    machine: &mut M,
    date: &[u8; 3],
    card: u32,
    request: &Request,
) -> Result<u8, Stop>
    requires ready { IsReady M.Machine machine.old }
    requires lawful { IsLawfulRequest request.now }
    ensures { TakesItem M.Machine (λ shelf. request_item date.now shelf card request.now) machine.old machine.new result }
{
    let answer = do_request(machine, date, request)?;
    report_steps(
        alloc,
        machine,
        card,
        request.operation(),
        &request.object(),
        answer,
    )
}
