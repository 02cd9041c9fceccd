//! Puts the blocks of records by the open writer of a machine.
ghost use Rattle.std.specs.Prelude.{◌≡◌, ◌≤◌, ◌<◌, [], ◌++◌, true, false, ℕ, List, Bool, Option, length, unwrap_or, IsTrue, IsErr, IfOk, OnOk};
ghost use Rattle.record_blocks.specs.Packer.{blocks_given, blocks_with, format_of, is_waiting};
ghost use Rattle.record_files.specs.Advancing.{HasLast, forgetting};
ghost use Rattle.record_files.specs.Calls.{AdvancesOn, IsWriting, PutsCall};
ghost use Rattle.record_files.specs.Streams.{Stream, at_end, at_fault, with_record};
ghost use Rattle.record_files.specs.RecordWriter.{blocks_to_come, coming, held_by, held_if};
ghost use Rattle.record_files.specs.Writing.{Coming, coming_of};

use crate::record_writer::RecordWriter;
use record_blocks::PackErr;
use std::mem;
use util_steps::{Fault, put_bytes};
use vol_model::{Machine, Place, Stop};

// The place of the first block, once one more is put at this place.
fn earlier(start: Option<Place>, place: Place) -> Place
    ensures { result ≡ unwrap_or start place }
{
    start.unwrap_or(place)
}

// Puts a block that was held back, if there was one, and keeps where the first that is put stands.
fn put_held<M: Machine>(
    machine: &mut M,
    start: &mut Option<Place>,
    holds: bool,
    held: &[u8],
) -> Result<Result<(), Fault>, Stop>
    requires writing { IsWriting M.Machine machine.old }
    requires fits { length held.now ≤ 32760 }
    ensures advances { IsTrue M.tells → (more : List (List ℕ)) (broken : Bool) → HasLast broken more → AdvancesOn M.Machine (coming_of (held_if holds held.now ++ more) broken) (coming_of more broken) start.old start.new machine.old machine.new result }
    ensures call { PutsCall M.Machine machine.old machine.new result }
{
    if !holds {
        return Ok(Ok(()));
    }
    match put_bytes(machine, &[], held)? {
        Ok(place) => {
            *start = Some(earlier(*start, place));
            Ok(Ok(()))
        }
        Err(fault) => Ok(Err(fault)),
    }
}

// The next block, if it is finished, is held back, and the one before it is put.
fn pass_on<M: Machine>(
    machine: &mut M,
    writer: &mut RecordWriter,
    full: bool,
) -> Result<Result<(), Fault>, Stop>
    requires writing { IsWriting M.Machine machine.old }
    requires fits { full ≡ true → length writer.old.next.items ≤ 32760 }
    ensures advances { IsTrue M.tells → (more : List (List ℕ)) (broken : Bool) → AdvancesOn M.Machine (coming_of (held_by writer.old ++ blocks_given full writer.old.next.items more) broken) (coming_of (held_by writer.new ++ more) broken) writer.old.start writer.new.start machine.old machine.new result }
    ensures packer { writer.new.packer ≡ writer.old.packer }
    ensures call { PutsCall M.Machine machine.old machine.new result }
{
    if !full {
        return Ok(Ok(()));
    }
    if let Err(fault) = put_held(machine, &mut writer.start, writer.holds, &writer.held)? {
        return Ok(Err(fault));
    }
    mem::swap(&mut writer.held, &mut writer.next);
    writer.holds = true;
    Ok(Ok(()))
}

// Passes on a further finished block of the record that was packed last; false where there is none.
fn pull_next<M: Machine>(
    machine: &mut M,
    writer: &mut RecordWriter,
) -> Result<Result<bool, Fault>, Stop>
    requires { IsWriting M.Machine machine.old }
    ensures advances { IsTrue M.tells → (records : List (List ℕ)) (broken : Bool) → AdvancesOn M.Machine (coming_of (blocks_to_come writer.old records) broken) (coming_of (blocks_to_come writer.new records) broken) writer.old.start writer.new.start machine.old machine.new (forgetting result) }
    ensures fewer { IfOk result (λ answer. IfOk answer (λ full. full ≡ true → length (blocks_with writer.new.packer []) < length (blocks_with writer.old.packer []))) }
    ensures idle { IfOk result (λ answer. IfOk answer (λ full. full ≡ false → is_waiting writer.new.packer ≡ false)) }
    ensures format { format_of writer.new.packer ≡ format_of writer.old.packer }
    ensures call { PutsCall M.Machine machine.old machine.new result }
{
    let full = writer.packer.pull(&mut writer.next)?;
    match pass_on(machine, writer, full)? {
        Ok(()) => Ok(Ok(full)),
        Err(fault) => Ok(Err(fault)),
    }
}

// Passes on all further finished blocks of the record that was packed last.
fn pull_all<M: Machine>(
    machine: &mut M,
    writer: &mut RecordWriter,
) -> Result<Result<(), Fault>, Stop>
    requires { IsWriting M.Machine machine.old }
    ensures advances { IsTrue M.tells → (records : List (List ℕ)) (broken : Bool) → AdvancesOn M.Machine (coming_of (blocks_to_come writer.old records) broken) (coming_of (blocks_to_come writer.new records) broken) writer.old.start writer.new.start machine.old machine.new result }
    ensures idle { IfOk result (λ answer. OnOk answer (is_waiting writer.new.packer ≡ false)) }
    ensures format { format_of writer.new.packer ≡ format_of writer.old.packer }
    ensures call { PutsCall M.Machine machine.old machine.new result }
{
    loop {
        match pull_next(machine, writer)? {
            Ok(true) => (),
            Ok(false) => return Ok(Ok(())),
            Err(fault) => return Ok(Err(fault)),
        }
    }
}

/// Ends the records by a fault: the blocks that are finished are put, and the last one isn't.
pub fn break_off<M: Machine>(
    machine: &mut M,
    writer: &mut RecordWriter,
) -> Result<Result<(), Fault>, Stop>
    requires writing { IsWriting M.Machine machine.old }
    requires idle { is_waiting writer.old.packer ≡ false }
    ensures broken { IfOk result (λ answer. IsErr answer) }
    ensures advances { IsTrue M.tells → (rest : Coming) (start : Option Place) → AdvancesOn M.Machine (coming writer.old at_fault) rest writer.old.start start machine.old machine.new result }
    ensures call { PutsCall M.Machine machine.old machine.new result }
{
    let full = writer.packer.finish(&mut writer.next)?;
    match pass_on(machine, writer, full)? {
        Ok(()) => Ok(Err(Fault::BadRecord)),
        Err(fault) => Ok(Err(fault)),
    }
}

/// Packs a record. One that is too long for the format is a fault, by which the records end.
pub fn put_record<M: Machine>(
    machine: &mut M,
    writer: &mut RecordWriter,
    rec: &[u8],
) -> Result<Result<(), Fault>, Stop>
    requires writing { IsWriting M.Machine machine.old }
    requires idle { is_waiting writer.old.packer ≡ false }
    ensures advances { IsTrue M.tells → (st : Stream) → AdvancesOn M.Machine (coming writer.old (with_record rec.now st)) (coming writer.new st) writer.old.start writer.new.start machine.old machine.new result }
    ensures idle { IfOk result (λ answer. OnOk answer (is_waiting writer.new.packer ≡ false)) }
    ensures format { IfOk result (λ answer. OnOk answer (format_of writer.new.packer ≡ format_of writer.old.packer)) }
    ensures call { PutsCall M.Machine machine.old machine.new result }
{
    let full = match writer.packer.push(rec, &mut writer.next) {
        Ok(full) => full,
        Err(PackErr::TooLong { .. }) => return break_off(machine, writer),
        Err(PackErr::Memory) => return Err(Stop::Memory),
    };
    if let Err(fault) = pass_on(machine, writer, full)? {
        return Ok(Err(fault));
    }
    pull_all(machine, writer)
}

/// Ends the records: all blocks are put.
pub fn finish<M: Machine>(
    machine: &mut M,
    writer: &mut RecordWriter,
) -> Result<Result<(), Fault>, Stop>
    requires writing { IsWriting M.Machine machine.old }
    requires idle { is_waiting writer.old.packer ≡ false }
    ensures advances { IsTrue M.tells → AdvancesOn M.Machine (coming writer.old at_end) (coming_of [] false) writer.old.start writer.new.start machine.old machine.new result }
    ensures call { PutsCall M.Machine machine.old machine.new result }
{
    let full = writer.packer.finish(&mut writer.next)?;
    if let Err(fault) = pass_on(machine, writer, full)? {
        return Ok(Err(fault));
    }
    put_held(machine, &mut writer.start, writer.holds, &writer.held)
}
