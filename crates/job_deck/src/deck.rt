//! How the cards of a deck are divided into jobs, steps and statements.
ghost use Rattle.std.specs.Prelude.{◌≡◌, ◌<◌, ◌≤◌, [], length, position, IfOk, IfSome};
ghost use Rattle.std.specs.List.{before_first};
ghost use Rattle.job_deck.specs.Deck.{role_of, operands_up_to, cards_of, begins_job, divides, is_comment_card, begins_step, begins_statement, continues_none, continuation, cards_behind, is_delimiter, data_of, behind_data};

use crate::jcl_cards::{add_card, continues, ends_data, is_comment, is_end, is_jcl};
use crate::statements::{Operation, card_operation, first_operands};
use card_text::{Card, Character, Numbered, ends_in_comma};
use std::alloc::{AllocError, Global};

// What a card of a deck is.
#[derive(Clone, Copy)]
pub enum Role {
    // A card that doesn't begin with two slashes.
    NotJcl,
    // A comment.
    Comment,
    // A null statement: two slashes and blanks.
    Null,
    // A card that continues the statement in front of it.
    Continuation,
    // The first card of another statement.
    Statement(Operation),
}

// A card of a deck with its number and its role.
#[derive(Clone, Copy)]
pub struct DeckCard {
    pub card: Numbered,
    pub role: Role,
}

// What a card is after a statement with these operands.
#[tactic(auto, unfolding(crate::specs::Deck::role_of))]
fn role_of(alloc: Global, before: &[Character], card: &Numbered) -> Result<Role, AllocError>
    ensures { IfOk result (λ role. role ≡ role_of before.now card.now) }
{
    if !is_jcl(card) {
        return Ok(Role::NotJcl);
    }
    if is_comment(card) {
        return Ok(Role::Comment);
    }
    if is_end(card) {
        return Ok(Role::Null);
    }
    if ends_in_comma(before) && continues(card) {
        return Ok(Role::Continuation);
    }
    Ok(Role::Statement(card_operation(alloc, card)?))
}

// The operands of a statement up to a card.
fn operands_up_to(
    alloc: Global,
    before: Vec<Character>,
    card: &Numbered,
    role: Role,
) -> Result<Vec<Character>, AllocError>
    ensures { IfOk result (λ field. field.items ≡ operands_up_to before.items card.now role) }
{
    match role {
        Role::Continuation => {
            let mut field = before;
            add_card(alloc, &mut field, card)?;
            Ok(field)
        }
        Role::Statement(_) => first_operands(alloc, card),
        _ => Ok(Vec::new(alloc)),
    }
}

// The cards of a deck with their numbers, from 1, and their roles.
pub fn cards_of(alloc: Global, deck: &[Card]) -> Result<Vec<DeckCard>, AllocError>
    requires { length deck.now ≤ 100000 }
    ensures { IfOk result (λ cards. cards.items ≡ cards_of 1 [] deck.now) }
{
    let mut number = 1u32;
    let mut operands = Vec::new(alloc);
    let mut cards = Vec::new(alloc);
    for card in deck {
        let card = (number, *card);
        let role = role_of(alloc, &operands, &card)?;
        operands = operands_up_to(alloc, operands, &card, role)?;
        cards.push(DeckCard { card, role })?;
        number += 1;
    }
    Ok(cards)
}

pub fn is_comment_card(card: &DeckCard) -> bool
    ensures { result ≡ is_comment_card card.now }
{
    matches!(card.role, Role::Comment)
}

pub fn begins_job(card: &DeckCard) -> bool
    ensures { result ≡ begins_job card.now }
{
    matches!(card.role, Role::Statement(Operation::Job))
}

// Whether a card begins a job or ends one.
pub fn divides(card: &DeckCard) -> bool
    ensures { result ≡ divides card.now }
{
    begins_job(card) || matches!(card.role, Role::Null)
}

pub fn begins_step(card: &DeckCard) -> bool
    ensures { result ≡ begins_step card.now }
{
    matches!(card.role, Role::Statement(Operation::Exec))
}

// Whether a card is the first of a statement, or a comment.
pub fn begins_statement(card: &DeckCard) -> bool
    ensures { result ≡ begins_statement card.now }
{
    matches!(card.role, Role::Comment | Role::Statement(_))
}

fn continues_none(card: &DeckCard) -> bool
    ensures { result ≡ continues_none card.now }
{
    !matches!(card.role, Role::Continuation)
}

fn is_delimiter(card: &DeckCard) -> bool
    ensures { result ≡ is_delimiter card.now }
{
    ends_data(&card.card)
}

// The index of the first card that begins a job or ends one.
fn division_at(cards: &[DeckCard]) -> Option<usize>
    ensures at { result ≡ position divides cards.now }
    ensures within { IfSome result (λ at. at < length cards.now) }
{
    cards.iter().position(|card| divides(card))
}

// The cards up to the next that begins a job or ends one.
#[tactic(auto, using(card_text::proofs::Lists::cuts))]
pub fn before_division(cards: &[DeckCard]) -> &[DeckCard]
    ensures { result.now ≡ before_first divides cards.now }
{
    match division_at(cards) {
        Some(at) => &cards[..at],
        None => cards,
    }
}

// The index of the first card that begins a step.
fn step_at(cards: &[DeckCard]) -> Option<usize>
    ensures at { result ≡ position begins_step cards.now }
    ensures within { IfSome result (λ at. at < length cards.now) }
{
    cards.iter().position(|card| begins_step(card))
}

// The cards up to the next that begins a step.
#[tactic(auto, using(card_text::proofs::Lists::cuts))]
pub fn before_step(cards: &[DeckCard]) -> &[DeckCard]
    ensures { result.now ≡ before_first begins_step cards.now }
{
    match step_at(cards) {
        Some(at) => &cards[..at],
        None => cards,
    }
}

// The index of the first card that begins a statement.
fn statement_at(cards: &[DeckCard]) -> Option<usize>
    ensures at { result ≡ position begins_statement cards.now }
    ensures within { IfSome result (λ at. at < length cards.now) }
{
    cards.iter().position(|card| begins_statement(card))
}

// The cards up to the next that begins a statement.
#[tactic(auto, using(card_text::proofs::Lists::cuts))]
pub fn before_statement(cards: &[DeckCard]) -> &[DeckCard]
    ensures { result.now ≡ before_first begins_statement cards.now }
{
    match statement_at(cards) {
        Some(at) => &cards[..at],
        None => cards,
    }
}

// The index of the first card that continues no statement.
fn end_at(cards: &[DeckCard]) -> Option<usize>
    ensures at { result ≡ position continues_none cards.now }
    ensures within { IfSome result (λ at. at < length cards.now) }
{
    cards.iter().position(|card| continues_none(card))
}

// The cards in front that continue a statement, and those after them.
#[tactic(auto, using(card_text::proofs::Lists::cuts))]
pub fn split_continuation(cards: &[DeckCard]) -> (&[DeckCard], &[DeckCard])
    ensures continuation { result.0.now ≡ continuation cards.now }
    ensures behind { result.1.now ≡ cards_behind cards.now }
{
    match end_at(cards) {
        Some(at) => (&cards[..at], &cards[at..]),
        None => (cards, &[]),
    }
}

// The index of the first delimiter.
fn delimiter_at(cards: &[DeckCard]) -> Option<usize>
    ensures at { result ≡ position is_delimiter cards.now }
    ensures within { IfSome result (λ at. at < length cards.now) }
{
    cards.iter().position(|card| is_delimiter(card))
}

// The data in front, and the cards after the delimiter that ends them.
#[tactic(auto, using(card_text::proofs::Lists::cuts))]
pub fn split_data(cards: &[DeckCard]) -> (&[DeckCard], &[DeckCard])
    ensures cards { result.0.now ≡ data_of cards.now }
    ensures behind { result.1.now ≡ behind_data cards.now }
{
    match delimiter_at(cards) {
        Some(at) => (&cards[..at], &cards[at + 1..]),
        None => (cards, &[]),
    }
}
