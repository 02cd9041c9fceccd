//! The parts of a statement.
ghost use Rattle.std.specs.Prelude.{◌≡◌, ◌++◌, IfOk, OnOk};
ghost use Rattle.job_deck.specs.Statements.{is_either, operation_of, behind_slashes, card_operation, name_on, first_operands, joined, statement, blank_name, name_or_blank, column_of, name_faults, operation_column, operation_fault};

use crate::deck::DeckCard;
use crate::faults::{JclErr, JclKind, fault_at};
use crate::jcl_cards::add_card;
use card_text::{
    CardColumn, Character, Numbered, Text, bytes_of, ends_in_comma, field_part, first_word,
    missing_place, name_of, past_blanks, statement_characters,
};
use ebcdic_names::{Listed, Name8};
use std::alloc::{AllocError, Global};

// The operation of a statement.
#[derive(Clone, Copy)]
pub enum Operation {
    Missing,
    Job,
    Exec,
    Dd,
    Other,
}

// The operands of a statement.
#[derive(Drop)]
pub struct Joined {
    // Their characters.
    pub field: Listed<Character>,
    // The last card of the statement.
    pub last: Numbered,
    // Whether a card is missing after the last.
    pub missing: bool,
}

// A statement of JCL.
#[derive(Drop)]
pub struct Statement {
    // Its first card.
    pub card: Numbered,
    pub name: Text,
    pub operation: Listed<Character>,
    pub operands: Joined,
}

// Whether a text is one of two.
pub fn is_either(one: &[u8], other: &[u8], text: &[u8]) -> bool
    ensures { result ≡ is_either one.now other.now text.now }
{
    text == one || text == other
}

// The operation that a word names.
#[tactic(auto, unfolding(crate::specs::Statements::operation_of))]
pub fn operation_of(word: &[u8]) -> Operation
    ensures { result ≡ operation_of word.now }
{
    if word.is_empty() {
        Operation::Missing
    } else if word == b"JOB".as_slice() {
        Operation::Job
    } else if word == b"EXEC".as_slice() {
        Operation::Exec
    } else if word == b"DD".as_slice() {
        Operation::Dd
    } else {
        Operation::Other
    }
}

// The characters of a card after its two slashes.
#[tactic(auto, unfolding(crate::specs::Statements::behind_slashes))]
fn behind_slashes(alloc: Global, card: &Numbered) -> Result<Vec<Character>, AllocError>
    ensures { IfOk result (λ v. v.items ≡ behind_slashes card.now) }
{
    let mut text = statement_characters(alloc, false, card)?;
    if text.len() < 2 {
        text.clear();
        return Ok(text);
    }
    text[2..].to_vec(alloc)
}

// The operation of a card.
#[tactic(auto, unfolding(crate::specs::Statements::card_operation))]
pub fn card_operation(alloc: Global, card: &Numbered) -> Result<Operation, AllocError>
    ensures { IfOk result (λ operation. operation ≡ card_operation card.now) }
{
    let text = behind_slashes(alloc, card)?;
    let (_, behind_name) = first_word(&text);
    let (operation, _) = first_word(past_blanks(behind_name));
    Ok(operation_of(&bytes_of(alloc, operation)?))
}

// The name on the first card of a statement.
#[tactic(auto, unfolding(crate::specs::Statements::name_on))]
pub fn name_on(alloc: Global, card: &Numbered) -> Result<Vec<u8>, AllocError>
    ensures { IfOk result (λ name. name.items ≡ name_on card.now) }
{
    let text = behind_slashes(alloc, card)?;
    let (name, _) = first_word(&text);
    bytes_of(alloc, name)
}

// The operands on the first card of a statement.
#[tactic(auto, unfolding(crate::specs::Statements::first_operands))]
pub fn first_operands(alloc: Global, card: &Numbered) -> Result<Vec<Character>, AllocError>
    ensures { IfOk result (λ field. field.items ≡ first_operands card.now) }
{
    let text = behind_slashes(alloc, card)?;
    let (_, behind_name) = first_word(&text);
    let (_, behind_operation) = first_word(past_blanks(behind_name));
    field_part(past_blanks(behind_operation)).to_vec(alloc)
}

// The operands of a statement, which begin so on its first card, with those of the cards that continue it.
#[tactic(auto, unfolding(crate::specs::Statements::joined))]
fn join(
    alloc: Global,
    first: Vec<Character>,
    card: &Numbered,
    others: &[DeckCard],
) -> Result<Joined, AllocError>
    ensures { IfOk result (λ j. j ≡ joined first.items card.now others.now) }
{
    let mut field = first;
    let mut last = *card;
    for next in others {
        add_card(alloc, &mut field, &next.card)?;
        last = next.card;
    }
    let missing = ends_in_comma(&field);
    Ok(Joined {
        field: Listed::from_vec(field),
        last,
        missing,
    })
}

// The statement on a card and those that continue it.
#[tactic(auto, unfolding(crate::specs::Statements::statement))]
pub fn statement_of(
    alloc: Global,
    card: &Numbered,
    others: &[DeckCard],
) -> Result<Statement, AllocError>
    ensures { IfOk result (λ s. s ≡ statement card.now others.now) }
{
    let text = behind_slashes(alloc, card)?;
    let (_, behind_name) = first_word(&text);
    let (operation, _) = first_word(past_blanks(behind_name));
    let operands = join(alloc, first_operands(alloc, card)?, card, others)?;
    Ok(Statement {
        card: *card,
        name: Text::from_vec(name_on(alloc, card)?),
        operation: Listed::from_vec(operation.to_vec(alloc)?),
        operands,
    })
}

// The name of eight blanks in EBCDIC.
const BLANK_NAME: Name8 = Name8 { bytes: [0x40; 8] };

pub fn blank_name() -> Name8
    ensures { result ≡ blank_name }
{
    BLANK_NAME
}

// The name of a statement, or blanks where it has none of one level.
pub fn name_or_blank(name: &[u8]) -> Name8
    ensures { result ≡ name_or_blank name.now }
{
    match name_of(name) {
        Some(name) => name,
        None => blank_name(),
    }
}

pub fn column_of(card: &Numbered, column: u8) -> CardColumn
    ensures { result ≡ column_of card.now column }
{
    CardColumn {
        card: card.0,
        column,
    }
}

// Adds the fault of a statement's name.
#[tactic(auto, unfolding(crate::specs::Statements::name_faults))]
pub fn add_name_fault(
    faults: &mut Vec<JclErr>,
    needed: bool,
    statement: &Statement,
) -> Result<(), AllocError>
    ensures { OnOk result (faults.new.items ≡ faults.old.items ++ name_faults needed statement.now) }
{
    let name = statement.name.as_slice();
    if name.is_empty() {
        if needed {
            let place = missing_place(&statement.operands.last);
            faults.push(fault_at(place, JclKind::BadName))?;
        }
        return Ok(());
    }
    if name_of(name).is_none() {
        faults.push(fault_at(column_of(&statement.card, 3), JclKind::BadName))?;
    }
    Ok(())
}

fn operation_column(word: &[Character]) -> u8
    ensures { result ≡ operation_column word.now }
{
    match word.first() {
        Some(first) => first.column,
        None => 0,
    }
}

// The fault of a statement that has no operation, or none that is taken.
#[tactic(auto, unfolding(crate::specs::Statements::operation_fault))]
pub fn operation_fault(statement: &Statement) -> JclErr
    ensures { result ≡ operation_fault statement.now }
{
    let word = statement.operation.as_slice();
    if word.is_empty() {
        fault_at(missing_place(&statement.card), JclKind::NoOperation)
    } else {
        fault_at(
            column_of(&statement.card, operation_column(word)),
            JclKind::BadOperation,
        )
    }
}
