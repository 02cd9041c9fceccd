//! Cards, and places on them.
ghost use Rattle.std.specs.Prelude.{◌≡◌, ◌≤◌, length, position, reverse, IfOk};
ghost use Rattle.std.specs.List.{take_while};
ghost use Rattle.card_text.specs.Cards.{is_space, statement_characters, missing_place, first_place, has_number, cards_up_to};

use crate::characters::{Character, characters_of};
use crate::nesting::Mark;
use std::alloc::{AllocError, Global};

/// A card of 80 columns.
#[derive(Clone, Copy, Debug, PartialEq, Eq)]
pub struct Card {
    /// The characters of columns 1 to 80, in ASCII.
    pub bytes: [u8; 80],
}

/// A card after its number in the deck, from 1.
pub type Numbered = (u32, Card);

/// A column of a card.
#[derive(Clone, Copy, Debug, PartialEq, Eq)]
pub struct CardColumn {
    /// The number of the card in the deck, from 1.
    pub card: u32,
    /// The column, from 1.
    pub column: u8,
}

// Columns 1 to 71 have the text of a statement.
const WIDTH: usize = 71;

/// The characters of columns 1 to 71 of a card, which begins in quotes where `quoted` says so.
///
/// The one error is want of memory.
#[tactic(auto, unfolding(crate::specs::Cards::statement_characters))]
pub fn statement_characters(
    alloc: Global,
    quoted: bool,
    card: &Numbered,
) -> Result<Vec<Character>, AllocError>
    ensures { IfOk result (λ text. text.items ≡ statement_characters quoted card.now) }
{
    characters_of(alloc, quoted, card.0, &card.1.bytes[..WIDTH])
}

// The number of blanks at the end of columns.
fn trailing_blanks(columns: &[u8]) -> usize
    ensures count { result ≡ length (take_while is_space (reverse columns.now)) }
    ensures within { result ≤ length columns.now }
{
    columns
        .iter()
        .rev()
        .take_while(|byte| **byte == b' ')
        .count()
}

/// The place of a part that is missing at the end of a card: the second column after the last of columns 1 to 71
/// that isn't blank.
#[tactic(auto, unfolding(crate::specs::Cards::missing_place))]
pub fn missing_place(card: &Numbered) -> CardColumn
    ensures { result ≡ missing_place card.now }
{
    let blanks = trailing_blanks(&card.1.bytes[..WIDTH]);
    CardColumn {
        card: card.0,
        column: (WIDTH + 2 - blanks) as u8,
    }
}

/// The place of the first of these characters, and `end` where there is none.
pub fn first_place(end: CardColumn, text: &[Mark]) -> CardColumn
    ensures { result ≡ first_place end text.now }
{
    match text.first() {
        Some(first) => CardColumn {
            card: first.character.card,
            column: first.character.column,
        },
        None => end,
    }
}

// The index of the first card of this number.
fn card_at(cards: &[Numbered], number: u32) -> Option<usize>
    ensures { result ≡ position (has_number number) cards.now }
{
    cards.iter().position(|card| card.0 == number)
}

/// How many of the cards after a first one there are up to the card of this number: 0 where the first has it, and
/// all where none has it.
#[tactic(auto, unfolding(crate::specs::Cards::cards_up_to))]
pub fn cards_up_to(card: &Numbered, others: &[Numbered], number: u32) -> usize
    ensures { result ≡ cards_up_to card.now others.now number }
{
    if card.0 == number {
        return 0;
    }
    match card_at(others, number) {
        Some(at) => at.saturating_add(1),
        None => others.len(),
    }
}
