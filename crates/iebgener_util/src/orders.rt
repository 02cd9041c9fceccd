//! The parts of the input that the statements of a step order to be written.
ghost use Rattle.std.specs.Prelude.{◌≡◌, ◌++◌, ◌∷◌, [], None, is_none, ℕ, List, map, IfOk, OnOk};
ghost use Rattle.util_syntax.specs.Program.{bad_operand};
ghost use Rattle.util_syntax.specs.Items.{ItemView, item_view};
ghost use Rattle.iebgener_util.specs.Orders.{asked, closed, first_card, generate_at, member_at, member_behind, new_part, orders_at, orders_of, record_at, with_edit};

use crate::requests::{Edit, Names, Request, request_of};
use std::alloc::{AllocError, Global};
use util_syntax::{Item, StatementFault, bad_operand};
use vol_model::Listed;

/// A part of the input that is written by itself.
#[derive(Debug, Drop)]
pub struct OutputOrder {
    /// The number of the card that its line names.
    pub card: u32,
    /// The names of its member, where a MEMBER begins it.
    pub names: Option<Names>,
    /// How its groups of records are edited. Without a group all records that are left stay as they are.
    pub edits: Listed<Edit>,
}

/// What statements order.
#[derive(Debug, Drop)]
pub enum Order {
    /// A part is written.
    Write(OutputOrder),
    /// Nothing: a statement has a fault, which ends the step.
    Fault(StatementFault),
}

// What stands open between two statements.
#[derive(Debug, Drop)]
enum State {
    // Nothing; a GENERATE may stand on this card.
    Begun(Option<u32>),
    // A part, which takes further statements.
    Open(OutputOrder),
    // Nothing more, since a statement had a fault.
    Ended,
}

// What a statement asks for, after its card, or its fault.
#[tactic(auto, unfolding(crate::specs::Orders::asked))]
fn asked(alloc: Global, item: &Item) -> Result<Result<(u32, Request), StatementFault>, AllocError>
    ensures { IfOk result (λ found. found ≡ asked (item_view item.now)) }
{
    let statement = match item {
        Item::Stmt(statement) => statement,
        Item::Fault { card, kind, .. } => {
            return Ok(Err(StatementFault {
                card: *card,
                kind: *kind,
            }));
        }
    };
    match request_of(alloc, statement)? {
        Some(request) => Ok(Ok((statement.card, request))),
        None => Ok(Err(bad_operand(statement.card))),
    }
}

// A part on a card, without edits yet.
fn new_part(alloc: Global, card: u32, names: Option<Names>) -> OutputOrder
    ensures { result ≡ new_part card names }
{
    OutputOrder {
        card,
        names,
        edits: Listed::from_vec(Vec::new(alloc)),
    }
}

// The card of a step that begins: that of its first statement, or this one.
fn first_card(card: u32, first: Option<u32>) -> u32
    ensures { result ≡ first_card card first }
{
    first.unwrap_or(card)
}

// Orders the part that stands open at the end.
fn close(alloc: Global, orders: &mut Vec<Order>, exec: u32, state: State) -> Result<(), AllocError>
    ensures { OnOk result (orders.new.items ≡ orders.old.items ++ closed exec state) }
{
    match state {
        State::Begun(first) => {
            orders.push(Order::Write(new_part(alloc, first_card(exec, first), None)))?;
            Ok(())
        }
        State::Open(part) => {
            orders.push(Order::Write(part))?;
            Ok(())
        }
        State::Ended => Ok(()),
    }
}

// Ends the orders by a statement that has no place.
fn refuse(orders: &mut Vec<Order>, card: u32) -> Result<State, AllocError>
    ensures { IfOk result (λ next. (exec : ℕ) (more : List ItemView) → orders.old.items ++ Order.Fault (bad_operand card) ∷ [] ≡ orders.new.items ++ orders_of exec next more) }
{
    orders.push(Order::Fault(bad_operand(card)))?;
    Ok(State::Ended)
}

// Takes a GENERATE.
fn take_generate(orders: &mut Vec<Order>, state: State, card: u32) -> Result<State, AllocError>
    ensures { IfOk result (λ next. (exec : ℕ) (more : List ItemView) → orders.old.items ++ generate_at state card (λ s. orders_of exec s more) ≡ orders.new.items ++ orders_of exec next more) }
{
    match state {
        State::Begun(None) => Ok(State::Begun(Some(card))),
        _ => refuse(orders, card),
    }
}

// A part that edits one more group.
fn with_edit(part: OutputOrder, edit: Edit) -> Result<OutputOrder, AllocError>
    ensures { IfOk result (λ p. p ≡ with_edit part edit) }
{
    let OutputOrder { card, names, edits } = part;
    let mut edits = edits.into_vec();
    edits.push(edit)?;
    Ok(OutputOrder {
        card,
        names,
        edits: Listed::from_vec(edits),
    })
}

// Takes a RECORD.
fn take_record(
    alloc: Global,
    orders: &mut Vec<Order>,
    state: State,
    card: u32,
    edit: Edit,
) -> Result<State, AllocError>
    ensures { IfOk result (λ next. (exec : ℕ) (more : List ItemView) → orders.old.items ++ record_at state card edit (λ s. orders_of exec s more) ≡ orders.new.items ++ orders_of exec next more) }
{
    match state {
        State::Begun(first) => {
            let part = new_part(alloc, first_card(card, first), None);
            Ok(State::Open(with_edit(part, edit)?))
        }
        State::Open(part) => Ok(State::Open(with_edit(part, edit)?)),
        State::Ended => refuse(orders, card),
    }
}

// Whether no MEMBER begins a part.
fn is_unnamed(part: &OutputOrder) -> bool
    ensures { result ≡ is_none part.now.names }
{
    match part.names {
        Some(_) => false,
        None => true,
    }
}

// Takes a MEMBER after a part.
fn begin_behind(
    alloc: Global,
    orders: &mut Vec<Order>,
    part: OutputOrder,
    card: u32,
    names: Names,
) -> Result<State, AllocError>
    ensures { IfOk result (λ next. (exec : ℕ) (more : List ItemView) → orders.old.items ++ member_behind part.names part card names (λ s. orders_of exec s more) ≡ orders.new.items ++ orders_of exec next more) }
{
    if is_unnamed(&part) {
        return refuse(orders, card);
    }
    orders.push(Order::Write(part))?;
    Ok(State::Open(new_part(alloc, card, Some(names))))
}

// Takes a MEMBER.
fn take_member(
    alloc: Global,
    orders: &mut Vec<Order>,
    state: State,
    card: u32,
    names: Names,
) -> Result<State, AllocError>
    ensures { IfOk result (λ next. (exec : ℕ) (more : List ItemView) → orders.old.items ++ member_at state card names (λ s. orders_of exec s more) ≡ orders.new.items ++ orders_of exec next more) }
{
    match state {
        State::Begun(_) => Ok(State::Open(new_part(alloc, card, Some(names)))),
        State::Open(part) => begin_behind(alloc, orders, part, card, names),
        State::Ended => refuse(orders, card),
    }
}

// Takes what a statement asks for.
#[tactic(auto, unfolding(crate::specs::Orders::orders_at))]
fn take_request(
    alloc: Global,
    orders: &mut Vec<Order>,
    state: State,
    card: u32,
    request: Request,
) -> Result<State, AllocError>
    ensures { IfOk result (λ next. (exec : ℕ) (more : List ItemView) → orders.old.items ++ orders_at state (Ok (card, request)) (λ s. orders_of exec s more) ≡ orders.new.items ++ orders_of exec next more) }
{
    match request {
        Request::Generate => take_generate(orders, state, card),
        Request::Record(edit) => take_record(alloc, orders, state, card, edit),
        Request::Member(names) => take_member(alloc, orders, state, card, names),
    }
}

// Takes a statement, or the fault of one.
fn take(
    alloc: Global,
    orders: &mut Vec<Order>,
    state: State,
    item: &Item,
) -> Result<State, AllocError>
    ensures { IfOk result (λ next. (exec : ℕ) (more : List ItemView) → orders.old.items ++ orders_of exec state (item_view item.now ∷ more) ≡ orders.new.items ++ orders_of exec next more) }
{
    if let State::Ended = state {
        return Ok(State::Ended);
    }
    match asked(alloc, item)? {
        Ok((card, request)) => take_request(alloc, orders, state, card, request),
        Err(fault) => {
            orders.push(Order::Fault(fault))?;
            Ok(State::Ended)
        }
    }
}

/// What the statements of a step order, in order, in a step whose EXEC is on this card.
///
/// Each MEMBER begins a part of the input, to which the RECORDs after it belong; without a MEMBER there is one part. A
/// GENERATE stands first or not at all, and a MEMBER not after a RECORD that belongs to none. A fault ends the orders,
/// and the part before it that may still take statements is none. The one error is want of memory.
pub fn orders_of(alloc: Global, exec: u32, items: &[Item]) -> Result<Vec<Order>, AllocError>
    ensures { IfOk result (λ orders. orders.items ≡ orders_of exec (State.Begun None) (map item_view items.now)) }
{
    let mut orders = Vec::new(alloc);
    let mut state = State::Begun(None);
    for item in items {
        state = take(alloc, &mut orders, state, item)?;
    }
    close(alloc, &mut orders, exec, state)?;
    Ok(orders)
}
