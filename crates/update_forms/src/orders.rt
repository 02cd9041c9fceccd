//! The functions that the cards of SYSIN order.
ghost use Rattle.std.specs.Prelude.{◌≡◌, ◌++◌, ◌∷◌, [], List, ℕ, IfOk, OnOk};
ghost use Rattle.card_text.specs.declared.cards.Card.{Card};
ghost use Rattle.update_forms.specs.Lines.{line_of};
ghost use Rattle.update_forms.specs.Orders.{alias_at, begun, closed, data_at, detail_at, first_at, fits_name, goes_on, has_place, heading_at, is_change, is_sequential, numbering_at, orders_from, orders_of, range_at, reads_old, refused, request_at, stepped, takes_data, takes_numbering, with_order};

use crate::lines::{CardLine, line_of};
use crate::records::CardRecord;
use crate::requests::{Heading, Numbering, Range, Request, Verb};
use card_text::Card;
use ebcdic_names::{Listed, Name8};
use std::alloc::{AllocError, Global};
use util_syntax::{StatementFault, bad_operand};

/// What SYSUT2 is.
#[derive(Clone, Copy, Debug, PartialEq, Eq)]
pub enum Target {
    /// A partitioned data set: each function names a member.
    Library,
    /// A sequential data set, or one that has no organization yet: one function without a name.
    Sequential,
    /// Another data set, or none.
    OtherKind,
}

/// What decides where statements have a place.
#[derive(Clone, Copy, Debug, PartialEq, Eq)]
pub struct Setting {
    /// Whether there is no old data set: PARM=NEW.
    pub fresh: bool,
    /// What SYSUT2 is.
    pub target: Target,
}

/// A function with its statements and its data.
#[derive(Drop)]
pub struct Function {
    /// The number of its card, from 1.
    pub card: u32,
    /// What it does, and the name of its member.
    pub heading: Heading,
    /// How its records are numbered, if they are.
    pub numbering: Option<Numbering>,
    /// The numbers of old records that are dropped.
    pub ranges: Listed<Range>,
    /// The other names of its member, in order.
    pub aliases: Listed<Name8>,
    /// The cards that are its data, in order.
    pub data_cards: Listed<CardRecord>,
}

/// What cards order.
#[derive(Drop)]
pub enum Order {
    /// A function is done.
    Write(Function),
    /// Nothing: a card has a fault, which ends the step.
    Fault(StatementFault),
}

// What stands open between two cards.
#[derive(Drop)]
enum State {
    // Nothing yet.
    Begun,
    // A function, which takes further cards.
    Open(Function),
    // Nothing more, after a fault or ENDUP.
    Ended,
}

// What a card orders, and what stands open after it.
#[derive(Drop)]
struct Stepped {
    order: Option<Order>,
    next: State,
}

/// Whether a function reads an old member or set.
pub fn reads_old(verb: Verb) -> bool
    ensures { result ≡ reads_old verb }
{
    match verb {
        Verb::Add | Verb::Repl => false,
        Verb::Repro | Verb::Change => true,
    }
}

/// Whether it is CHANGE.
pub fn is_change(verb: Verb) -> bool
    ensures { result ≡ is_change verb }
{
    match verb {
        Verb::Change => true,
        _ => false,
    }
}

/// Whether it takes cards of data.
pub fn takes_data(verb: Verb) -> bool
    ensures { result ≡ takes_data verb }
{
    match verb {
        Verb::Repro => false,
        _ => true,
    }
}

fn fits_name(target: Target, name: Option<Name8>) -> bool
    ensures { result ≡ fits_name target name }
{
    match target {
        Target::Library => name.is_some(),
        Target::Sequential => name.is_none(),
        Target::OtherKind => true,
    }
}

fn is_sequential(target: Target) -> bool
    ensures { result ≡ is_sequential target }
{
    match target {
        Target::Sequential => true,
        _ => false,
    }
}

// Whether a function has a place.
fn has_place(setting: Setting, heading: Heading) -> bool
    ensures { result ≡ has_place setting heading }
{
    !(setting.fresh && reads_old(heading.verb)) && fits_name(setting.target, heading.name)
}

// A function that begins.
fn begun(alloc: Global, card: u32, heading: Heading) -> Function
    ensures { result ≡ begun card heading }
{
    Function {
        card,
        heading,
        numbering: None,
        ranges: Listed::from_vec(Vec::new(alloc)),
        aliases: Listed::from_vec(Vec::new(alloc)),
        data_cards: Listed::from_vec(Vec::new(alloc)),
    }
}

// Whether a function takes a NUMBER.
fn takes_numbering(function: &Function, numbering: Numbering) -> bool
    ensures { result ≡ takes_numbering function.now numbering }
{
    if function.numbering.is_some() {
        return false;
    }
    if is_change(function.heading.verb) {
        numbering.all
    } else {
        !numbering.all
    }
}

fn goes_on(state: State) -> Stepped
    ensures { result ≡ goes_on state }
{
    Stepped {
        order: None,
        next: state,
    }
}

fn refused(card: u32) -> Stepped
    ensures { result ≡ refused card }
{
    Stepped {
        order: Some(Order::Fault(bad_operand(card))),
        next: State::Ended,
    }
}

// Begins the first function.
fn begin(alloc: Global, setting: Setting, card: u32, heading: Heading) -> Stepped
    ensures { result ≡ heading_at setting State.Begun card heading }
{
    if has_place(setting, heading) {
        goes_on(State::Open(begun(alloc, card, heading)))
    } else {
        refused(card)
    }
}

// Begins a function after one, which is done.
fn begin_next(
    alloc: Global,
    setting: Setting,
    function: Function,
    card: u32,
    heading: Heading,
) -> Stepped
    ensures { result ≡ heading_at setting (State.Open function) card heading }
{
    if has_place(setting, heading) && !is_sequential(setting.target) {
        Stepped {
            order: Some(Order::Write(function)),
            next: State::Open(begun(alloc, card, heading)),
        }
    } else {
        refused(card)
    }
}

// Takes a NUMBER.
fn take_numbering(function: Function, card: u32, numbering: Numbering) -> Stepped
    ensures { result ≡ numbering_at function card numbering }
{
    if !takes_numbering(&function, numbering) {
        return refused(card);
    }
    let mut function = function;
    function.numbering = Some(numbering);
    goes_on(State::Open(function))
}

// Takes a DELETE.
fn take_range(function: Function, card: u32, range: Range) -> Result<Stepped, AllocError>
    ensures { IfOk result (λ s. s ≡ range_at function card range) }
{
    if !is_change(function.heading.verb) {
        return Ok(refused(card));
    }
    let mut function = function;
    function.ranges.push(range)?;
    Ok(goes_on(State::Open(function)))
}

// Takes an ALIAS.
fn take_alias(
    setting: Setting,
    function: Function,
    card: u32,
    name: Name8,
) -> Result<Stepped, AllocError>
    ensures { IfOk result (λ s. s ≡ alias_at setting function card name) }
{
    if is_sequential(setting.target) {
        return Ok(refused(card));
    }
    let mut function = function;
    function.aliases.push(name)?;
    Ok(goes_on(State::Open(function)))
}

// Takes a statement after a function.
fn take_detail(
    alloc: Global,
    setting: Setting,
    function: Function,
    card: u32,
    request: Request,
) -> Result<Stepped, AllocError>
    ensures { IfOk result (λ s. s ≡ detail_at setting function card request) }
{
    match request {
        Request::Function(heading) => Ok(begin_next(alloc, setting, function, card, heading)),
        Request::Number(numbering) => Ok(take_numbering(function, card, numbering)),
        Request::Delete(range) => take_range(function, card, range),
        Request::Alias(name) => take_alias(setting, function, card, name),
        Request::EndUp => Ok(Stepped {
            order: Some(Order::Write(function)),
            next: State::Ended,
        }),
    }
}

// Takes the first statement.
fn take_first(alloc: Global, setting: Setting, card: u32, request: Request) -> Stepped
    ensures { result ≡ first_at setting card request }
{
    match request {
        Request::Function(heading) => begin(alloc, setting, card, heading),
        Request::EndUp => goes_on(State::Ended),
        _ => refused(card),
    }
}

// Takes a card of data after a function.
fn take_data(function: Function, card: u32, data_card: CardRecord) -> Result<Stepped, AllocError>
    ensures { IfOk result (λ s. s ≡ data_at (State.Open function) card data_card) }
{
    if !takes_data(function.heading.verb) {
        return Ok(refused(card));
    }
    let mut function = function;
    function.data_cards.push(data_card)?;
    Ok(goes_on(State::Open(function)))
}

// Takes a card.
#[tactic(auto, unfolding(crate::specs::Orders::stepped))]
fn step(
    alloc: Global,
    setting: Setting,
    state: State,
    line: CardLine,
) -> Result<Stepped, AllocError>
    ensures { IfOk result (λ s. s ≡ stepped setting state line) }
{
    match state {
        State::Ended => Ok(goes_on(State::Ended)),
        State::Begun => match line {
            CardLine::Data(card, _) => Ok(refused(card)),
            CardLine::Asked(card, request) => Ok(take_first(alloc, setting, card, request)),
            CardLine::Faulty(fault) => Ok(Stepped {
                order: Some(Order::Fault(fault)),
                next: State::Ended,
            }),
        },
        State::Open(function) => match line {
            CardLine::Data(card, data_card) => take_data(function, card, data_card),
            CardLine::Asked(card, request) => take_detail(alloc, setting, function, card, request),
            CardLine::Faulty(fault) => Ok(Stepped {
                order: Some(Order::Fault(fault)),
                next: State::Ended,
            }),
        },
    }
}

// Puts an order after others.
fn push_order(orders: &mut Vec<Order>, order: Option<Order>) -> Result<(), AllocError>
    ensures { OnOk result (orders.new.items ≡ orders.old.items ++ with_order order []) }
{
    match order {
        Some(order) => {
            orders.push(order)?;
            Ok(())
        }
        None => Ok(()),
    }
}

// Orders the function that stands open at the end.
fn close(orders: &mut Vec<Order>, state: State) -> Result<(), AllocError>
    ensures { OnOk result (orders.new.items ≡ orders.old.items ++ closed state) }
{
    match state {
        State::Begun => Ok(()),
        State::Open(function) => {
            orders.push(Order::Write(function))?;
            Ok(())
        }
        State::Ended => Ok(()),
    }
}

// Takes a card, and puts what it orders after the other orders.
fn take(
    alloc: Global,
    orders: &mut Vec<Order>,
    setting: Setting,
    state: State,
    card: &(u32, Card),
) -> Result<State, AllocError>
    ensures { IfOk result (λ next. (more : List (ℕ × Card)) → orders.old.items ++ orders_from setting state (card.now ∷ more) ≡ orders.new.items ++ orders_from setting next more) }
{
    let line = line_of(alloc, card)?;
    let stepped = step(alloc, setting, state, line)?;
    let Stepped { order, next } = stepped;
    push_order(orders, order)?;
    Ok(next)
}

/// The functions that the cards of SYSIN order, in order, each with the statements and the data after it.
///
/// A fault ends the orders, and the function before it that may still take cards is none. Cards after ENDUP aren't read.
/// The one error is want of memory.
pub fn orders_of(
    alloc: Global,
    setting: Setting,
    cards: &[(u32, Card)],
) -> Result<Vec<Order>, AllocError>
    ensures { IfOk result (λ orders. orders.items ≡ orders_of setting cards.now) }
{
    let mut orders = Vec::new(alloc);
    let mut state = State::Begun;
    for card in cards {
        state = take(alloc, &mut orders, setting, state, card)?;
    }
    close(&mut orders, state)?;
    Ok(orders)
}
