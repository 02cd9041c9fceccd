//! The records of an input.
ghost use Rattle.std.specs.Prelude.{◌≡◌, ◌<◌, IfOk, None};
ghost use Rattle.record_blocks.specs.Formats.{first_fault};
ghost use Rattle.vol_model.specs.declared.contents.Shelf.{Shelf};
ghost use Rattle.record_files.specs.Attributes.{format_with};
ghost use Rattle.record_files.specs.Inputs.{Found, ReadsAs, input_view, known_of, records_of};
ghost use Rattle.record_files.specs.Reader.{reader_given, reader_most, reader_stream};
ghost use Rattle.record_files.specs.Stays.{reader_stays};

use crate::block_records::BlockRecords;
use crate::card_records::CardRecords;
use crate::inputs::{Input, RecordInput, input_format};
use crate::sources::RecordSource;
use crate::taken::Taken;
use std::alloc::{AllocError, Global};
use vol_model::{Machine, Stop};

/// Gives the records of cards, of a data set or of a member.
#[derive(Drop)]
pub enum RecordReader<'a> {
    /// Those of cards.
    Cards(CardRecords<'a>),
    /// Those of the blocks of a set or a member.
    Blocks(BlockRecords),
}

/// Begins with the first record of an input of which this is known. Its format is one that `Format::check` accepts. The
/// one error is want of memory.
pub fn open_input<'a>(
    alloc: Global,
    input: &Input<'a>,
    known: &RecordInput,
) -> Result<RecordReader<'a>, AllocError>
    requires { first_fault (format_with known.now.attr) ≡ None }
    ensures { IfOk result (λ reader. (shelf : Shelf) (found : Found) → ReadsAs shelf (input_view input.now) found → known.now ≡ known_of found → reader_stream reader shelf ≡ records_of found) }
{
    match input {
        Input::Cards(cards) => Ok(RecordReader::Cards(CardRecords::new(alloc, cards))),
        Input::From { set, .. } => {
            let format = input_format(&known.attr);
            Ok(RecordReader::Blocks(BlockRecords::new(alloc, format, set, known.start)?))
        }
    }
}

impl RecordReader<'_> {
    /// The record that was given last.
    pub fn last_record(&self) -> &[u8]
        ensures { result.now ≡ reader_given self.now }
    {
        match self {
            RecordReader::Cards(records) => records.rec.as_slice(),
            RecordReader::Blocks(records) => records.rec.as_slice(),
        }
    }
}

impl<M: Machine> RecordSource<M> for RecordReader<'_> {
    ghost stream = { λ reader shelf. reader_stream reader shelf };

    ghost given = { λ reader. reader_given reader };

    ghost most = { λ reader. reader_most reader };

    fn next(&mut self, machine: &mut M) -> Result<Taken, Stop> {
        match self {
            RecordReader::Cards(records) => records.next(machine),
            RecordReader::Blocks(records) => records.next(machine),
        }
    }

    fn record(&self) -> &[u8] {
        self.last_record()
    }

    ghost stays = { λ reader s u kept. reader_stays reader s u kept };
}
