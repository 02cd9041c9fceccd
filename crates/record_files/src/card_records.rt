//! The records of cards.
ghost use Rattle.std.specs.Prelude.{◌≡◌, ◌<◌, [], ℕ, List, length, refl, IsTrue, IfOk};
ghost use Rattle.ebcdic_names.specs.Names.{byte_of};
ghost use Rattle.vol_model.specs.declared.contents.Shelf.{Shelf};
ghost use Rattle.record_files.specs.Reading.{card_records};
ghost use Rattle.record_files.specs.Streams.{in_ebcdic};

use crate::sources::RecordSource;
use crate::taken::Taken;
use card_text::Card;
use ebcdic_names::to_ebcdic;
use std::alloc::{AllocError, Global};
use vol_model::{Machine, Stop};

/// Gives the records of cards: 80 bytes each, in EBCDIC.
#[derive(Drop)]
pub struct CardRecords<'a> {
    alloc: Global,
    // The cards that are left, each after its number in the deck.
    cards: &'a [(u32, Card)],
    // The record that was given last.
    pub(crate) rec: Vec<u8>,
}

impl<'a> CardRecords<'a> {
    /// Begins with the first of these cards.
    pub fn new(alloc: Global, cards: &'a [(u32, Card)]) -> CardRecords<'a>
        ensures { result.cards.now ≡ cards.now }
    {
        CardRecords {
            alloc,
            cards,
            rec: Vec::new(alloc),
        }
    }
}

impl<M: Machine> RecordSource<M> for CardRecords<'_> {
    ghost stream = { λ records shelf. card_records records.cards.now };

    ghost given = { λ records. records.rec.items };

    ghost most = { λ records. length records.cards.now };

    fn next(&mut self, machine: &mut M) -> Result<Taken, Stop> {
        let Some((first, others)) = self.cards.split_first() else {
            return Ok(Taken::End);
        };
        match in_ebcdic(self.alloc, &first.1.bytes) {
            Ok(rec) => self.rec = rec,
            Err(AllocError) => return Err(Stop::Memory),
        }
        self.cards = others;
        Ok(Taken::Record)
    }

    fn record(&self) -> &[u8] {
        self.rec.as_slice()
    }

    ghost stays = { λ records s u kept. refl };
}

// The byte of a character in EBCDIC.
#[tactic(auto, unfolding(ebcdic_names::specs::Names::byte_of))]
fn byte_of(character: u8) -> u8
    ensures { result ≡ byte_of character }
{
    to_ebcdic(character).unwrap_or(0x40)
}

/// Characters in EBCDIC; a blank stands for one that has no byte there. The one error is want of memory.
pub fn in_ebcdic(alloc: Global, text: &[u8]) -> Result<Vec<u8>, AllocError>
    ensures { IfOk result (λ bytes. bytes.items ≡ in_ebcdic text.now) }
{
    let mut bytes = Vec::new(alloc);
    for character in text {
        bytes.push(byte_of(*character))?;
    }
    Ok(bytes)
}
