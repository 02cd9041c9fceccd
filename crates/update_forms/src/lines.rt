//! The cards of SYSIN: data, and statements.
ghost use Rattle.std.specs.Prelude.{◌≡◌, map, IfOk};
ghost use Rattle.util_syntax.specs.Items.{item_view};
ghost use Rattle.update_forms.specs.Lines.{is_statement, line_of, line_with, uncovered};

use crate::records::{CardRecord, record_of};
use crate::requests::{Request, request_of};
use card_text::Card;
use std::alloc::{AllocError, Global};
use util_syntax::{Item, StatementFault, bad_operand, statements};

/// What a card of SYSIN is.
#[derive(Clone, Copy)]
pub enum CardLine {
    /// Data, on the card of this number.
    Data(u32, CardRecord),
    /// A statement, on the card of this number, with what it asks for.
    Asked(u32, Request),
    /// A statement with a fault.
    Faulty(StatementFault),
}

// Whether a card begins `./`.
fn is_statement(card: &Card) -> bool
    ensures { result ≡ is_statement card.now }
{
    card.bytes[0] == b'.' && card.bytes[1] == b'/'
}

// A card with blanks in its first two columns.
fn uncovered(card: &Card) -> Card
    ensures { result ≡ uncovered card.now }
{
    let mut bytes = card.bytes;
    bytes[..2].copy_from_slice(b"  ");
    Card { bytes }
}

// What the one statement of a card asks for, or its fault.
#[tactic(auto, unfolding(crate::specs::Lines::line_with))]
fn line_with(card: u32, items: &[Item]) -> CardLine
    ensures { result ≡ line_with card (map item_view items.now) }
{
    let Some((item, _)) = items.split_first() else {
        return CardLine::Faulty(bad_operand(card));
    };
    match item {
        Item::Fault { card, kind, .. } => CardLine::Faulty(StatementFault {
            card: *card,
            kind: *kind,
        }),
        Item::Stmt(statement) => match request_of(statement) {
            Some(request) => CardLine::Asked(statement.card, request),
            None => CardLine::Faulty(bad_operand(statement.card)),
        },
    }
}

/// What a card is: data, or, where it begins `./`, a statement by itself, which can't continue. The one error is want of
/// memory.
#[tactic(auto, unfolding(crate::specs::Lines::line_of))]
pub fn line_of(alloc: Global, card: &(u32, Card)) -> Result<CardLine, AllocError>
    ensures { IfOk result (λ line. line ≡ line_of card.now) }
{
    if !is_statement(&card.1) {
        return Ok(CardLine::Data(card.0, record_of(&card.1)));
    }
    let cards = [(card.0, uncovered(&card.1))];
    let items = statements(alloc, &cards)?;
    Ok(line_with(card.0, &items))
}
