//! Reads the input of a function once, before anything is done.
ghost use Rattle.std.specs.Prelude.{◌≡◌, false, None, IsTrue, IfOk};
ghost use Rattle.record_blocks.specs.Formats.{first_fault};
ghost use Rattle.vol_model.specs.declared.contents.Shelf.{Shelf};
ghost use Rattle.vol_model.specs.Calls.{Keeps};
ghost use Rattle.vol_model.specs.Runs.{RunCall};
ghost use Rattle.util_steps.specs.Steps.{RunsNothing};
ghost use Rattle.util_steps.specs.Taking.{IsReady};
ghost use Rattle.record_files.specs.Attributes.{format_with};
ghost use Rattle.record_files.specs.Inputs.{Found, ReadsAs, input_view, known_of, records_of};
ghost use Rattle.iebupdte_util.specs.Checking.{Opens, Walks, cards_for, checked, is_ordered, ranges_for};

use crate::edited::EditedRecords;
use record_files::{Input, RecordInput, Taken, open_input};
use std::alloc::{AllocError, Global};
use update_forms::{CardRecord, Function, Range, is_change, rises, takes_data};
use util_syntax::Outcome;
use vol_model::{Machine, Stop};

// The ranges of old records that a function drops: CHANGE alone has them.
fn ranges_for(function: &Function) -> &[Range]
    ensures { result.now ≡ ranges_for function.now }
{
    if is_change(function.heading.verb) {
        function.ranges.as_slice()
    } else {
        &[]
    }
}

// The cards that a function writes: REPRO has none.
fn cards_for(function: &Function) -> &[CardRecord]
    ensures { result.now ≡ cards_for function.now }
{
    if takes_data(function.heading.verb) {
        function.data_cards.as_slice()
    } else {
        &[]
    }
}

/// Begins with the first of the records that a function writes. The one error is want of memory.
pub fn open_records<'a>(
    alloc: Global,
    input: &Input<'a>,
    known: &RecordInput,
    function: &'a Function,
) -> Result<EditedRecords<'a>, AllocError>
    requires { first_fault (format_with known.now.attr) ≡ None }
    ensures { IfOk result (λ records. (shelf : Shelf) (found : Found) → ReadsAs shelf (input_view input.now) found → known.now ≡ known_of found → Opens function.now (records_of found) records shelf) }
{
    let reader = open_input(alloc, input, known)?;
    let ranges = ranges_for(function);
    let cards = cards_for(function);
    Ok(EditedRecords::new(alloc, reader, ranges, cards, function.numbering))
}

// Reads all records; false where a fault ends them.
fn walk<M: Machine>(machine: &mut M, records: &mut EditedRecords<'_>) -> Result<bool, Stop>
    requires { IsReady M.Machine machine.old }
    ensures walked { IsTrue M.tells → IfOk result (λ whole. Walks whole records.old records.new (M.meaning machine.old).state) }
    ensures runs { IsTrue M.tells → RunsNothing M.tells_prints (M.meaning machine.old) (M.meaning machine.new) result }
    ensures promise { IsTrue M.tells → Keeps (M.meaning machine.old).clock (M.promise machine.old) (M.promise machine.new) }
    ensures count { (M.status machine.new).done ≡ (M.status machine.old).done }
    ensures faults { RunCall false (M.status machine.old) (M.status machine.new) result }
{
    loop {
        match records.advance(machine)? {
            Taken::Record => (),
            Taken::End => return Ok(true),
            Taken::Broken => return Ok(false),
        }
    }
}

// Whether the sequences and numbers of a function are in order, where old records rise or not and numbers fit or not.
fn is_ordered(function: &Function, rising: bool, fits: bool) -> bool
    ensures { result ≡ is_ordered function.now rising fits }
{
    if is_change(function.heading.verb) {
        rising && rises(function.data_cards.as_slice()) && fits
    } else {
        fits
    }
}

/// Reads the input of a function once: `BadRecord` where it has a fault, and `SeqOrder` where old records or cards of a
/// CHANGE don't rise, or where a number has more than eight digits.
pub fn check_function<M: Machine>(
    alloc: Global,
    machine: &mut M,
    input: &Input<'_>,
    known: &RecordInput,
    function: &Function,
) -> Result<Result<(), Outcome>, Stop>
    requires ready { IsReady M.Machine machine.old }
    requires read { first_fault (format_with known.now.attr) ≡ None }
    ensures checked { IsTrue M.tells → (found : Found) → ReadsAs (M.meaning machine.old).state (input_view input.now) found → known.now ≡ known_of found → IfOk result (λ answer. answer ≡ checked function.now (records_of found)) }
    ensures runs { IsTrue M.tells → RunsNothing M.tells_prints (M.meaning machine.old) (M.meaning machine.new) result }
    ensures promise { IsTrue M.tells → Keeps (M.meaning machine.old).clock (M.promise machine.old) (M.promise machine.new) }
    ensures count { (M.status machine.new).done ≡ (M.status machine.old).done }
    ensures faults { RunCall false (M.status machine.old) (M.status machine.new) result }
{
    let mut records = open_records(alloc, input, known, function)?;
    if !walk(machine, &mut records)? {
        return Ok(Err(Outcome::BadRecord));
    }
    if is_ordered(function, records.olds.rising, records.fits) {
        Ok(Ok(()))
    } else {
        Ok(Err(Outcome::SeqOrder))
    }
}
