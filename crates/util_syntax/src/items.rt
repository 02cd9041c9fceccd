//! The utility statements on cards.
ghost use Rattle.std.specs.Prelude.{◌≡◌, ◌<◌, ◌≤◌, ◌-◌, ◌++◌, length, map, position, IfOk, IfSome, OnOk};
ghost use Rattle.std.specs.Result.{result_map_both};
ghost use Rattle.card_text.specs.Cards.{has_number};
ghost use Rattle.card_text.specs.Operands.{operand_view};
ghost use Rattle.util_syntax.specs.Items.{goes_on, continues, continued, joined, joined_view, optional_name, operation, head, field_operands, refused, finished, read, read_view, is_comment, item_view, cards_after, items_of};

use crate::operands::{Fault, SynErr, operands};
use card_text::{
    Card, CardColumn, Character, Numbered, Operand, bytes_of, ends_in_comma, field_part,
    first_word, in_quotes, missing_place, name_of, nested, past_blanks, statement_characters,
};
use ebcdic_names::Name8;
use std::alloc::{AllocError, Global};

// The index of column 72, where a character says that the operands go on on the next card.
const MARK: usize = 71;

/// A statement of a utility (Utilities GC28-6586).
#[derive(Drop)]
pub struct Statement {
    /// The number of its first card in the deck, from 1.
    pub card: u32,
    /// The name in front of its operation, if it has one.
    pub name: Option<Name8>,
    /// Its operation.
    pub op: Name8,
    /// Its operands, in order.
    pub operands: Vec<Operand>,
}

/// A statement, or the first fault of one.
#[derive(Drop)]
pub enum Item {
    /// A statement.
    Stmt(Statement),
    /// A fault.
    Fault {
        /// The number of its card in the deck, from 1.
        card: u32,
        /// The column, from 1, in which the faulty part begins, or would begin.
        column: u8,
        /// What is wrong.
        kind: SynErr,
    },
}

// Whether operands that end so on a card go on on the next one.
#[tactic(auto, unfolding(crate::specs::Items::goes_on))]
fn goes_on(field: &[Character], card: &Numbered) -> bool
    ensures { result ≡ goes_on field.now card.now }
{
    ends_in_comma(field) || card.1.bytes[MARK] != b' '
}

// Whether operands can go on on a card.
#[tactic(auto, unfolding(crate::specs::Items::continues))]
fn continues(card: &Numbered) -> bool
    ensures { result ≡ continues card.now }
{
    card.1.bytes[0] == b' '
}

// Adds the operands of a card on which they go on.
#[tactic(auto, unfolding(crate::specs::Items::continued))]
fn add_card(alloc: Global, field: &mut Vec<Character>, card: &Numbered) -> Result<(), AllocError>
    ensures { OnOk result (field.new.items ≡ continued field.old.items card.now) }
{
    let text = statement_characters(alloc, in_quotes(field), card)?;
    field.extend_from_slice(field_part(past_blanks(&text)))
}

// The operands of a statement.
#[derive(Drop)]
struct Joined {
    // Their characters.
    field: Vec<Character>,
    // The last card that has some.
    last: Numbered,
    // Whether a card is missing after it.
    missing: bool,
}

// The operands of which the first stand on a card.
#[tactic(auto, unfolding(crate::specs::Items::joined))]
fn join(
    alloc: Global,
    first: &[Character],
    card: &Numbered,
    others: &[Numbered],
) -> Result<Joined, AllocError>
    ensures { IfOk result (λ j. joined_view j ≡ joined first.now card.now others.now) }
{
    let mut field = first.to_vec(alloc)?;
    let mut last = *card;
    for next in others {
        let follows = continues(next);
        if !goes_on(&field, &last) {
            return Ok(Joined {
                field,
                last,
                missing: false,
            });
        }
        if !follows {
            return Ok(Joined {
                field,
                last,
                missing: true,
            });
        }
        add_card(alloc, &mut field, next)?;
        last = *next;
    }
    let missing = goes_on(&field, &last);
    Ok(Joined {
        field,
        last,
        missing,
    })
}

// The name and the operation of a statement.
#[derive(Clone, Copy)]
struct Head {
    name: Option<Name8>,
    op: Name8,
}

// The name that a text is, if it isn't empty.
#[tactic(auto, unfolding(crate::specs::Items::optional_name))]
fn optional_name(
    alloc: Global,
    text: &[Character],
) -> Result<Result<Option<Name8>, SynErr>, AllocError>
    ensures { IfOk result (λ r. r ≡ optional_name text.now) }
{
    if text.is_empty() {
        return Ok(Ok(None));
    }
    match name_of(&bytes_of(alloc, text)?) {
        Some(name) => Ok(Ok(Some(name))),
        None => Ok(Err(SynErr::BadOperand)),
    }
}

// The operation that a text on a card is.
#[tactic(auto, unfolding(crate::specs::Items::operation))]
fn operation(
    alloc: Global,
    card: &Numbered,
    text: &[Character],
) -> Result<Result<Name8, Fault>, AllocError>
    ensures { IfOk result (λ r. r ≡ operation card.now text.now) }
{
    let Some(first) = text.first() else {
        return Ok(Err(Fault {
            place: missing_place(card),
            kind: SynErr::NoOperation,
        }));
    };
    match name_of(&bytes_of(alloc, text)?) {
        Some(op) => Ok(Ok(op)),
        None => Ok(Err(Fault {
            place: CardColumn {
                card: first.card,
                column: first.column,
            },
            kind: SynErr::BadOperand,
        })),
    }
}

// The name and the operation of a statement, or the fault of the first of them that has one.
#[tactic(auto, unfolding(crate::specs::Items::head))]
fn read_head(
    alloc: Global,
    card: &Numbered,
    name: &[Character],
    op: &[Character],
) -> Result<Result<Head, Fault>, AllocError>
    ensures { IfOk result (λ r. r ≡ head card.now name.now op.now) }
{
    let name = match optional_name(alloc, name)? {
        Ok(name) => name,
        Err(kind) => {
            return Ok(Err(Fault {
                place: CardColumn {
                    card: card.0,
                    column: 1,
                },
                kind,
            }));
        }
    };
    match operation(alloc, card, op)? {
        Ok(op) => Ok(Ok(Head { name, op })),
        Err(fault) => Ok(Err(fault)),
    }
}

// The operands of a field, or their first fault.
#[tactic(auto, unfolding(crate::specs::Items::field_operands))]
fn field_operands(alloc: Global, joined: &Joined) -> Result<Result<Vec<Operand>, Fault>, AllocError>
    ensures { IfOk result (λ r. result_map_both (λ v. map operand_view v.items) (λ e. e) r
        ≡ field_operands (joined_view joined.now)) }
{
    if joined.field.is_empty() {
        return Ok(Ok(Vec::new(alloc)));
    }
    let marks = nested(alloc, &joined.field)?;
    operands(alloc, joined.missing, missing_place(&joined.last), &marks)
}

// What is read, and the number of the card after which reading goes on.
#[derive(Drop)]
struct Read {
    item: Item,
    last: u32,
}

// The fault as what is read.
fn refused(fault: Fault) -> Read
    ensures { read_view result ≡ refused fault }
{
    let Fault { place, kind } = fault;
    Read {
        item: Item::Fault {
            card: place.card,
            column: place.column,
            kind,
        },
        last: place.card,
    }
}

// A statement whose name and operation are known, or its fault.
#[tactic(auto, unfolding(crate::specs::Items::finished))]
fn finish(alloc: Global, card: u32, head: Head, joined: &Joined) -> Result<Read, AllocError>
    ensures { IfOk result (λ r. read_view r ≡ finished card head (joined_view joined.now)) }
{
    match field_operands(alloc, joined)? {
        Err(fault) => Ok(refused(fault)),
        Ok(operands) => {
            if joined.missing {
                return Ok(refused(Fault {
                    place: missing_place(&joined.last),
                    kind: SynErr::ContinuationMissing,
                }));
            }
            Ok(Read {
                item: Item::Stmt(Statement {
                    card,
                    name: head.name,
                    op: head.op,
                    operands,
                }),
                last: joined.last.0,
            })
        }
    }
}

// The statement or the fault that begins on a card.
#[tactic(auto, unfolding(crate::specs::Items::read, crate::specs::Items::read_with))]
fn read_statement(alloc: Global, card: &Numbered, others: &[Numbered]) -> Result<Read, AllocError>
    ensures { IfOk result (λ r. read_view r ≡ read card.now others.now) }
{
    let text = statement_characters(alloc, false, card)?;
    let (name, behind_name) = first_word(&text);
    let (op, behind_op) = first_word(past_blanks(behind_name));
    match read_head(alloc, card, name, op)? {
        Err(fault) => Ok(refused(fault)),
        Ok(head) => {
            let joined = join(alloc, field_part(past_blanks(behind_op)), card, others)?;
            finish(alloc, card.0, head, &joined)
        }
    }
}

#[tactic(auto, unfolding(crate::specs::Items::is_comment))]
fn is_comment(card: &Numbered) -> bool
    ensures { result ≡ is_comment card.now }
{
    card.1.bytes[0] == b'*'
}

// The index of the first card of this number.
fn card_at(cards: &[Numbered], number: u32) -> Option<usize>
    ensures at { result ≡ position (has_number number) cards.now }
    ensures within { IfSome result (λ at. at < length cards.now) }
{
    cards.iter().position(|card| card.0 == number)
}

// The cards after the one of this number.
#[tactic(auto, using(card_text::proofs::Lists::cuts))]
fn cards_after(cards: &[Numbered], number: u32) -> &[Numbered]
    ensures cards { result.now ≡ cards_after number cards.now }
    ensures fewer { length result.now ≤ length cards.now - 1 }
{
    match card_at(cards, number) {
        Some(at) => &cards[at + 1..],
        None => &[],
    }
}

/// The statements on cards, in order, each or its first fault (Utilities GC28-6586, in this project's profile).
///
/// A statement stands in columns 1 to 71: a name from column 1 on, where that isn't blank, then blanks, the operation,
/// blanks, and operands up to the first blank outside quotes, parted by commas. Operands that end in a comma, or a
/// character in column 72, go on at the first column of the next card that isn't blank, and column 1 of that card is
/// blank. A card with `*` in column 1 is a comment. After a fault reading goes on at the card after the one on which it
/// stands. The one error is want of memory.
#[tactic(auto, using(crate::proofs::Reading::reading))]
pub fn statements(alloc: Global, cards: &[(u32, Card)]) -> Result<Vec<Item>, AllocError>
    ensures { IfOk result (λ v. map item_view v.items ≡ items_of cards.now) }
{
    let mut items = Vec::new(alloc);
    let mut rest = cards;
    'statements: loop {
        let (card, others) = match rest.split_first() {
            Some(parts) => parts,
            None => return Ok(items),
        };
        if is_comment(card) {
            rest = others;
        } else {
            let Read { item, last } = read_statement(alloc, card, others)?;
            items.push(item)?;
            rest = cards_after(rest, last);
        }
    }
}
