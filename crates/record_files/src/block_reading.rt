//! Reads the records of blocks, segment by segment.
ghost use Rattle.std.specs.Prelude.{◌≡◌, ◌≤◌, ◌<◌, ◌&&◌, ℕ, List, false, OnOk, IsTrue, IfOk};
ghost use Rattle.record_blocks.specs.Blocks.{piece};
ghost use Rattle.record_blocks.specs.Reading.{Reading, empty_reading, with_segment};
ghost use Rattle.vol_model.specs.declared.contents.Shelf.{Shelf};
ghost use Rattle.vol_model.specs.Lawful.{IsLawfulBlock};
ghost use Rattle.vol_model.specs.Places.{is_before, is_end_of_file};
ghost use Rattle.util_steps.specs.Copying.{behind_place};
ghost use Rattle.util_steps.specs.Steps.{IsOnward};
ghost use Rattle.record_files.specs.Calls.{ReadsBeside};
ghost use Rattle.record_files.specs.Joined.{GoesOn, StepGives, is_left_open, records_left};
ghost use Rattle.record_files.specs.Reader.{HasTaken, block_stream, in_block, most_left};
ghost use Rattle.record_files.specs.Streams.{Stream};
ghost use Rattle.record_files.specs.Stays.{block_stays};

use crate::block_records::BlockRecords;
use crate::sources::RecordSource;
use crate::taken::{Step, Taken};
use record_blocks::{BlockMark, JoinErr, Joiner};
use std::alloc::AllocError;
use util_steps::{next_block, place_behind};
use vol_model::{BlockBuf, Machine, Place, Stop};

// Puts a record in the place of the one before.
fn keep(rec: &mut Vec<u8>, bytes: &[u8]) -> Result<(), AllocError>
    ensures { OnOk result (rec.new.items ≡ bytes.now) }
{
    rec.clear();
    rec.extend_from_slice(bytes)
}

// Takes a segment: a record of its own, or, where segments are joined, a part of one.
fn join(
    joiner: &mut Option<Joiner>,
    rec: &mut Vec<u8>,
    code: u8,
    bytes: &[u8],
) -> Result<Step, AllocError>
    requires { code ≤ 3 }
    ensures { IfOk result (λ step. (r : Reading) → StepGives step (records_left joiner.old (with_segment (piece code bytes.now) r)) rec.new.items (records_left joiner.new r)) }
{
    let Some(joiner) = joiner else {
        keep(rec, bytes)?;
        return Ok(Step::Record);
    };
    match joiner.push(code, bytes) {
        Ok(true) => {
            keep(rec, joiner.whole())?;
            Ok(Step::Record)
        }
        Ok(false) => Ok(Step::Part),
        Err(JoinErr::Memory) => Err(AllocError),
        Err(JoinErr::BadSegment) => Ok(Step::Broken),
        Err(JoinErr::TooLong { .. }) => Ok(Step::Broken),
    }
}

// Takes the next segment of the block that is read; `None` where none is left of it.
fn take_segment(reader: &mut BlockRecords) -> Result<Option<Step>, AllocError>
    ensures { IfOk result (λ taken. HasTaken taken reader.old reader.new) }
{
    let Some(mut mark) = reader.mark else {
        return Ok(None);
    };
    let bytes = match mark.next(reader.format, reader.buf.payload()) {
        Ok(Some(bytes)) => bytes,
        Ok(None) => return Ok(None),
        Err(_) => return Ok(Some(Step::Broken)),
    };
    let step = join(&mut reader.joiner, &mut reader.rec, mark.code(), bytes)?;
    reader.mark = Some(mark);
    Ok(Some(step))
}

/// Whether a block ends a member.
pub fn is_end_of_file(buf: &BlockBuf) -> bool
    ensures { result ≡ is_end_of_file buf.now }
{
    buf.key().is_empty() && buf.payload().is_empty()
}

// Whether a block ends the member that is read, if one is.
fn ends_member(within: bool, buf: &BlockBuf) -> bool
    ensures { result ≡ (within && is_end_of_file buf.now) }
{
    within && is_end_of_file(buf)
}

// Whether a record is still open.
fn is_open(joiner: &Option<Joiner>) -> bool
    ensures { result ≡ is_left_open joiner.now }
{
    match joiner {
        Some(joiner) => match joiner.finish() {
            Ok(()) => false,
            Err(_) => true,
        },
        None => false,
    }
}

// The end of the segments, at which no record may be open.
fn end(joiner: &Option<Joiner>) -> Step
    ensures gives { (rec : List ℕ) (others : Stream) → StepGives result (records_left joiner.now empty_reading) rec others }
    ensures last { GoesOn result → ⊥ }
{
    if is_open(joiner) {
        Step::Broken
    } else {
        Step::End
    }
}

// The place after a block that was found at or after a place.
fn next_place(place: Place, buf: &BlockBuf) -> Place
    requires onward { is_before buf.now.place place ≡ false }
    requires lawful { IsLawfulBlock buf.now }
    ensures after { result ≡ behind_place buf.now.place }
    ensures onward { IsOnward place result }
{
    place_behind(buf.place())
}

// Reads the next block, of which nothing is taken yet, where nothing is left of the one before.
fn read_next<M: Machine>(machine: &mut M, reader: &mut BlockRecords) -> Result<Step, Stop>
    requires sound { IsTrue (M.status machine.old).is_sound }
    requires empty { in_block reader.old ≡ empty_reading }
    ensures reads { ReadsBeside M.Machine (λ shelf step. StepGives step (block_stream reader.old shelf) reader.new.rec.items (block_stream reader.new shelf)) machine.old machine.new result }
    ensures fewer { IfOk result (λ step. GoesOn step → most_left reader.new < most_left reader.old) }
{
    reader.mark = None;
    match next_block(machine, &reader.set, reader.place, &mut reader.buf)? {
        Ok(true) => (),
        Ok(false) => return Ok(end(&reader.joiner)),
        Err(_) => return Ok(Step::Broken),
    }
    if ends_member(reader.within, &reader.buf) {
        return Ok(end(&reader.joiner));
    }
    reader.place = next_place(reader.place, &reader.buf);
    reader.mark = Some(BlockMark::new(reader.format, reader.buf.payload()));
    Ok(Step::Part)
}

// Takes the next segment, of this block or, where nothing is left of it, by reading the next.
fn step<M: Machine>(machine: &mut M, reader: &mut BlockRecords) -> Result<Step, Stop>
    requires sound { IsTrue (M.status machine.old).is_sound }
    ensures reads { ReadsBeside M.Machine (λ shelf step. StepGives step (block_stream reader.old shelf) reader.new.rec.items (block_stream reader.new shelf)) machine.old machine.new result }
    ensures fewer { IfOk result (λ step. GoesOn step → most_left reader.new < most_left reader.old) }
{
    match take_segment(reader)? {
        Some(step) => Ok(step),
        None => read_next(machine, reader),
    }
}

impl<M: Machine> RecordSource<M> for BlockRecords {
    ghost stream = { λ records shelf. block_stream records shelf };

    ghost given = { λ records. records.rec.items };

    ghost most = { λ records. most_left records };

    fn next(&mut self, machine: &mut M) -> Result<Taken, Stop> {
        loop {
            match step(machine, self)? {
                Step::Record => return Ok(Taken::Record),
                Step::Part => (),
                Step::End => return Ok(Taken::End),
                Step::Broken => return Ok(Taken::Broken),
            }
        }
    }

    fn record(&self) -> &[u8] {
        self.rec.as_slice()
    }

    ghost stays = { λ records s u kept. block_stays records s u kept };
}
