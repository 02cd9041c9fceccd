//! What becomes of the data sets of a step after it.
ghost use Rattle.std.specs.Prelude.{◌≡◌, codes, length};
ghost use Rattle.vol_model.specs.declared.requests.Op.TheVariants.{Scratch};
ghost use Rattle.vol_model.specs.Writing.{did_apply};
ghost use Rattle.util_steps.specs.Items.{items_along};
ghost use Rattle.util_steps.specs.Taking.{IsReady, RunsItems, TakesItem};
ghost use Rattle.util_syntax.specs.declared.listing.Object.TheVariants.{Name};
ghost use Rattle.util_syntax.specs.declared.listing.Outcome.TheVariants.{Expires};
ghost use Rattle.util_syntax.specs.Listing.{item_line};
ghost use Rattle.job_runner.specs.DataSets.{operation_item};
ghost use Rattle.job_runner.specs.Dispositions.{deleted, deletion_as, deletion_for, says_delete};
ghost use Rattle.job_runner.specs.Parts.{says};

use crate::operations::{Subject, operate};
use ebcdic_names::Dsn;
use job_deck::{Dd, DdAfter, DdWhat};
use std::alloc::Global;
use util_steps::{Items, is_unexpired, report, run_items};
use util_syntax::{DdIn, Object, Outcome, item_line};
use vol_model::{Machine, Op, Stop};

/// A data set that a DD deletes.
#[derive(Clone, Copy, Debug, PartialEq, Eq)]
pub struct Deletion {
    /// The number of the DD's first card in the deck, from 1.
    pub card: u32,
    /// The number of the set's volume on the shelf, from 0.
    pub v: u8,
    /// The name of the set.
    pub dsn: Dsn,
}

// Whether a DD says DELETE.
fn says_delete(what: &DdWhat) -> bool
    ensures { result ≡ says_delete what.now }
{
    match what {
        DdWhat::Set(set) => matches!(set.after, DdAfter::Delete),
        _ => false,
    }
}

// The set that a DD gives, to be deleted.
fn deletion_as(card: u32, given: &DdIn) -> Option<Deletion>
    ensures { result ≡ deletion_as card given.now }
{
    match given {
        DdIn::Set { v, dsn, .. } => Some(Deletion {
            card,
            v: *v,
            dsn: *dsn,
        }),
        _ => None,
    }
}

/// The data set that a DD deletes after its step, if it does.
#[tactic(auto, unfolding(crate::specs::Dispositions::deletion_for))]
pub fn deletion_for(dd: &Dd, given: &DdIn) -> Option<Deletion>
    ensures { result ≡ deletion_for (dd.now, given.now) }
{
    if says_delete(&dd.what) {
        deletion_as(dd.card, given)
    } else {
        None
    }
}

// Says that a data set is unexpired.
fn say_expires<M: Machine>(alloc: Global, machine: &mut M, deletion: &Deletion) -> Result<u8, Stop>
    requires { IsReady M.Machine machine.old }
    ensures { TakesItem M.Machine (λ shelf. says 8 (item_line deletion.now.card (codes "DELETE") (Name deletion.now.dsn) Expires)) machine.old machine.new result }
{
    let object = Object::Name(deletion.dsn);
    let line = item_line(alloc, deletion.card, "DELETE", &object, Outcome::Expires)?;
    report(machine, &line, 8)
}

// Scratches a data set, and says so.
fn scratch<M: Machine>(alloc: Global, machine: &mut M, deletion: &Deletion) -> Result<u8, Stop>
    requires { IsReady M.Machine machine.old }
    ensures { TakesItem M.Machine (λ shelf. operation_item deletion.now.card (codes "DELETE") deletion.now.dsn 8 (did_apply shelf (Scratch deletion.now.v deletion.now.dsn))) machine.old machine.new result }
{
    let subject = Subject {
        card: deletion.card,
        dsn: deletion.dsn,
    };
    let op = Op::Scratch {
        v: deletion.v,
        dsn: deletion.dsn,
    };
    match operate(alloc, machine, &subject, "DELETE", 8, &op)? {
        Ok(()) => Ok(0),
        Err(_) => Ok(8),
    }
}

// Deletes a data set, unless it is unexpired.
fn delete<M: Machine>(
    alloc: Global,
    machine: &mut M,
    date: &[u8; 3],
    deletion: &Deletion,
) -> Result<u8, Stop>
    requires { IsReady M.Machine machine.old }
    ensures { TakesItem M.Machine (λ shelf. deleted date.now shelf deletion.now) machine.old machine.new result }
{
    if is_unexpired(machine, date, deletion.v, &deletion.dsn)? {
        say_expires(alloc, machine, deletion)
    } else {
        scratch(alloc, machine, deletion)
    }
}

// What is left of the deletions of a step.
#[derive(Drop)]
struct Deletions<'a> {
    alloc: Global,
    date: [u8; 3],
    rest: &'a [Deletion],
}

impl<M: Machine> Items<M> for Deletions<'_> {
    ghost items = { λ work shelf. items_along (deleted work.date) shelf work.rest.now };

    ghost most = { λ work. length work.rest.now };

    fn next(&mut self, machine: &mut M) -> Result<Option<u8>, Stop> {
        match self.rest.split_first() {
            Some((first, behind)) => {
                let code = delete(self.alloc, machine, &self.date, first)?;
                self.rest = behind;
                Ok(Some(code))
            }
            None => Ok(None),
        }
    }
}

/// Deletes the data sets of a step one after another, and gives the highest code: 8 where one is refused or unexpired,
/// and else 0.
pub fn delete_all<M: Machine>(
    alloc: Global,
    machine: &mut M,
    date: &[u8; 3],
    deletions: &[Deletion],
) -> Result<u8, Stop>
    requires { IsReady M.Machine machine.old }
    ensures { RunsItems M.Machine (λ shelf. items_along (deleted date.now) shelf deletions.now) machine.old machine.new result }
{
    let mut work = Deletions {
        alloc,
        date: *date,
        rest: deletions,
    };
    run_items(machine, &mut work)
}
