//! Cards from a source.
ghost use Rattle.std.specs.Prelude.{◌≡◌, ◌≤◌, [], length, IsTrue, IfOk, IfErr, OnOk, Ok, Err};
ghost use Rattle.stop_model.specs.Counts.{Rose};
ghost use Rattle.deck_cards.specs.Deck.{deck, Refuses};
ghost use Rattle.deck_cards.specs.declared.reader.DeckErr.TheVariants as deck_err;

use crate::reader::{DeckErr, Reader};
use card_text::Card;
use hall_core::{Cards, ReadFault};
use std::alloc::Global;

// The bytes that are read at a time.
const PIECE: usize = 4096;

impl From<ReadFault> for DeckErr {
    ghost from_gives = { λ _ e. e ≡ deck_err.Read };

    fn from(_fault: ReadFault) -> DeckErr {
        DeckErr::Read
    }
}

/// Reads the cards of a deck, to the end of its source or to the byte that refuses it.
///
/// A line feed ends a line, and one carriage return before it is dropped; so does the end of input, where an empty rest
/// is no line. Shorter lines are filled with blanks up to column 80. `Long`, `Wide` and `Byte` come exactly where the
/// bytes have that fault first, from the left; `Read` only where the source failed. A source that doesn't tell its
/// bytes gives some cards or an error.
pub fn read_deck<C: Cards>(alloc: Global, cards: &mut C) -> Result<Vec<Card>, DeckErr>
    ensures cards { IsTrue C.tells → IfOk result (λ v. deck (C.left cards.old) ≡ Ok v.items) }
    ensures few { IfOk result (λ v. length v.items ≤ 100000) }
    ensures end { IsTrue C.tells → OnOk result (C.left cards.new ≡ []) }
    ensures causes { IfErr result (λ e. Refuses e (IsTrue C.tells → deck (C.left cards.old) ≡ Err e)
        (Rose (C.faults cards.old) (C.faults cards.new))) }
    ensures later { C.faults cards.old ≤ C.faults cards.new }
{
    let mut reader = Reader::new(alloc);
    let mut bytes = [0; PIECE];
    'reads: loop {
        let count = cards.read(&mut bytes)?;
        if count == 0 {
            return reader.finish();
        }
        reader.feed_all(&bytes[..count])?;
    }
}
