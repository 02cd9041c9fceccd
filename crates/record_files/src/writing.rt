//! Writes records to a data set, or to a library as a member.
ghost use Rattle.std.specs.Prelude.{◌≡◌, false, None, Ok, [], List, IsTrue, IfOk};
ghost use Rattle.record_blocks.specs.Formats.{first_fault};
ghost use Rattle.record_blocks.specs.Packer.{is_waiting};
ghost use Rattle.vol_model.specs.declared.answers.Mode.TheVariants as modes;
ghost use Rattle.vol_model.specs.declared.contents.Block.{Block};
ghost use Rattle.vol_model.specs.declared.contents.Shelf.{Shelf};
ghost use Rattle.vol_model.specs.Writing.{begun};
ghost use Rattle.util_steps.specs.Copying.{source, target};
ghost use Rattle.util_steps.specs.Taking.{IsReady, Takes};
ghost use Rattle.record_files.specs.Advancing.{first_place_put, forgetting, start_in};
ghost use Rattle.record_files.specs.Calls.{AdvancesOn, IsWriting, PutsCall, TakesKnowing};
ghost use Rattle.record_files.specs.Attributes.{format_in};
ghost use Rattle.record_files.specs.Members.{member_start};
ghost use Rattle.record_files.specs.RecordWriter.{coming};
ghost use Rattle.record_files.specs.Sources.{KeepsOthers};
ghost use Rattle.record_files.specs.Writing.{appended, coming_of, packed, rewritten, written};

use crate::attributes::format_in;
use crate::members::start_of;
use crate::putting::{break_off, finish, put_record};
use crate::record_writer::RecordWriter;
use crate::sources::RecordSource;
use crate::taken::Taken;
use record_blocks::Format;
use std::alloc::Global;
use util_steps::{Fault, SetRef, begin, commit, empty};
use vol_model::{Attr, BlockBuf, Machine, Mode, Place, Stop};

// Puts the blocks of records by a writer of records.
fn put_all<M: Machine, R: RecordSource<M>>(
    machine: &mut M,
    records: &mut R,
    writer: &mut RecordWriter,
) -> Result<Result<(), Fault>, Stop>
    requires writing { IsWriting M.Machine machine.old }
    requires idle { is_waiting writer.old.packer ≡ false }
    ensures advances { IsTrue M.tells → AdvancesOn M.Machine (coming writer.old (R.stream records.old (M.meaning machine.old).state)) (coming_of [] false) writer.old.start writer.new.start machine.old machine.new result }
    ensures call { PutsCall M.Machine machine.old machine.new result }
{
    loop {
        match records.next(machine)? {
            Taken::Record => (),
            Taken::End => return finish(machine, writer),
            Taken::Broken => return break_off(machine, writer),
        }
        if let Err(fault) = put_record(machine, writer, records.record())? {
            return Ok(Err(fault));
        }
    }
}

// Puts the blocks of records, and gives the place of the first.
fn put_records<M: Machine, R: RecordSource<M>>(
    alloc: Global,
    machine: &mut M,
    records: &mut R,
    format: Format,
) -> Result<Result<Option<Place>, Fault>, Stop>
    requires writing { IsWriting M.Machine machine.old }
    requires lawful { first_fault format ≡ None }
    ensures advances { IsTrue M.tells → AdvancesOn M.Machine (packed format (R.stream records.old (M.meaning machine.old).state)) (coming_of [] false) None (start_in result) machine.old machine.new (forgetting result) }
    ensures call { PutsCall M.Machine machine.old machine.new result }
{
    let mut writer = RecordWriter::new(alloc, format)?;
    match put_all(machine, records, &mut writer)? {
        Ok(()) => Ok(Ok(writer.start)),
        Err(fault) => Ok(Err(fault)),
    }
}

// Writes records by a writer that has just begun, closes it, and gives the place of the first block.
fn fill<M: Machine, R: RecordSource<M>>(
    alloc: Global,
    machine: &mut M,
    records: &mut R,
    format: Format,
) -> Result<Result<Option<Place>, Fault>, Stop>
    requires writing { IsWriting M.Machine machine.old }
    requires begins { IsTrue M.tells → M.writer machine.old ≡ begun (M.writer machine.old).target }
    requires lawful { first_fault format ≡ None }
    ensures takes { Takes M.Machine (λ shelf. written shelf (M.writer machine.old).target (packed format (R.stream records.old shelf))) machine.old machine.new (forgetting result) }
    ensures start { IsTrue M.tells → IfOk result (λ answer. IfOk answer (λ first. first ≡ first_place_put (M.meaning machine.old).state (M.writer machine.old).target (packed format (R.stream records.old (M.meaning machine.old).state)).blocks)) }
{
    match put_records(alloc, machine, records, format) {
        Ok(Ok(first)) => match commit(machine)? {
            Ok(()) => Ok(Ok(first)),
            Err(fault) => Ok(Err(fault)),
        },
        Ok(Err(fault)) => {
            machine.abandon();
            Ok(Err(fault))
        }
        Err(Stop::Memory) => {
            machine.abandon();
            Err(Stop::Memory)
        }
        Err(Stop::Device) => Err(Stop::Device),
        Err(Stop::Print) => Err(Stop::Print),
    }
}

/// Writes records after the blocks of a data set, as a member's or not, and gives the place of the first block. The format
/// is one that `Format::check` accepts.
///
/// A fault of the records is `BadRecord`, and so is a record that is longer than the format takes, or a block without
/// data: nothing is written then, but the set may own more tracks.
pub fn write_records<M: Machine, R: RecordSource<M>>(
    alloc: Global,
    machine: &mut M,
    records: &mut R,
    to: &SetRef,
    mode: Mode,
    format: Format,
) -> Result<Result<Option<Place>, Fault>, Stop>
    requires ready { IsReady M.Machine machine.old }
    requires lawful { first_fault format ≡ None }
    ensures takes { Takes M.Machine (λ shelf. appended shelf to.now mode (packed format (R.stream records.old shelf))) machine.old machine.new (forgetting result) }
    ensures start { IsTrue M.tells → IfOk result (λ answer. IfOk answer (λ first. first ≡ first_place_put (M.meaning machine.old).state (target to.now mode) (packed format (R.stream records.old (M.meaning machine.old).state)).blocks)) }
{
    if let Err(fault) = begin(machine, to, mode)? {
        return Ok(Err(fault));
    }
    fill(alloc, machine, records, format)
}

/// Writes records after those of a sequential data set.
pub fn add_records<M: Machine, R: RecordSource<M>>(
    alloc: Global,
    machine: &mut M,
    records: &mut R,
    to: &SetRef,
    format: Format,
) -> Result<Result<(), Fault>, Stop>
    requires ready { IsReady M.Machine machine.old }
    requires lawful { first_fault format ≡ None }
    ensures { Takes M.Machine (λ shelf. appended shelf to.now modes.Fill (packed format (R.stream records.old shelf))) machine.old machine.new result }
{
    match write_records(alloc, machine, records, to, Mode::Fill, format)? {
        Ok(_) => Ok(Ok(())),
        Err(fault) => Ok(Err(fault)),
    }
}

/// Writes records in the place of those of a data set, which takes the record format, the option codes and the lengths of
/// these attributes. The records are those of other sets, which are the same once this one is empty.
pub fn rewrite_set<M: Machine, R: RecordSource<M>>(
    alloc: Global,
    machine: &mut M,
    records: &mut R,
    to: &SetRef,
    attr: &Attr,
) -> Result<Result<(), Fault>, Stop>
    requires ready { IsReady M.Machine machine.old }
    requires lawful { first_fault (format_in attr.now) ≡ None }
    ensures { TakesKnowing M.Machine (λ shelf st. (u : Shelf) → KeepsOthers to.now shelf u → R.stream records.old u ≡ st) (λ shelf st. rewritten shelf to.now attr.now (packed (format_in attr.now) st)) machine.old machine.new result }
{
    if let Err(fault) = empty(machine, to, attr)? {
        return Ok(Err(fault));
    }
    add_records(alloc, machine, records, to, format_in(attr))
}

/// Writes records to a library as a member, which no entry names yet, and gives the place where it begins: that of its
/// first block, or without any that of its end-of-file block.
pub fn write_member<M: Machine, R: RecordSource<M>>(
    alloc: Global,
    machine: &mut M,
    records: &mut R,
    to: &SetRef,
    format: Format,
) -> Result<Result<Place, Fault>, Stop>
    requires ready { IsReady M.Machine machine.old }
    requires lawful { first_fault format ≡ None }
    ensures takes { TakesKnowing M.Machine (λ shelf bs. source shelf to.now ≡ Ok bs) (λ shelf bs. appended shelf to.now modes.Area (packed format (R.stream records.old shelf))) machine.old machine.new (forgetting result) }
    ensures start { IsTrue M.tells → (bs : List Block) → source (M.meaning machine.old).state to.now ≡ Ok bs → IfOk result (λ answer. IfOk answer (λ place. place ≡ member_start (M.meaning machine.old).state (M.meaning machine.new).state to.now (packed format (R.stream records.old (M.meaning machine.old).state)).blocks)) }
{
    let mut buf = BlockBuf::new(alloc)?;
    let first = match write_records(alloc, machine, records, to, Mode::Area, format)? {
        Ok(first) => first,
        Err(fault) => return Ok(Err(fault)),
    };
    match start_of(machine, &mut buf, to, first)? {
        Ok(place) => Ok(Ok(place)),
        Err(fault) => Ok(Err(fault)),
    }
}
