//! The copies that the statements of a step order.
ghost use Rattle.std.specs.Prelude.{◌≡◌, ◌++◌, ◌∷◌, [], List, map, IfOk, OnOk};
ghost use Rattle.std.specs.Result.{result_map_both};
ghost use Rattle.util_syntax.specs.Items.{ItemView, item_view};
ghost use Rattle.iebcopy_util.specs.Orders.{asked, chosen, closed, copy_order, opened_card, orders_at, orders_of};

use crate::requests::{CopyDds, Pick, Request, request_of};
use ebcdic_names::Name8;
use std::alloc::{AllocError, Global};
use util_syntax::{Item, StatementFault, bad_operand};
use vol_model::Listed;

/// The members that are copied.
#[derive(Debug, Drop)]
pub enum Choice {
    /// All.
    All,
    /// These alone.
    Select(Listed<Pick>),
    /// All but these.
    Exclude(Listed<Name8>),
}

/// A copy of members.
#[derive(Debug, Drop)]
pub struct CopyOrder {
    /// The number of the card that its lines name.
    pub card: u32,
    /// The DDs of its output and inputs.
    pub dds: CopyDds,
    /// The members that are copied.
    pub choice: Choice,
}

/// What statements order.
#[derive(Debug, Drop)]
pub enum Order {
    /// A copy.
    Copy(CopyOrder),
    /// Nothing: a statement has a fault, which ends the step.
    Fault(StatementFault),
}

// A COPY that may still take a SELECT or an EXCLUDE.
#[derive(Debug, Drop)]
struct Opened {
    // The number of its card.
    card: u32,
    // The DDs that it names.
    dds: CopyDds,
}

// What stands open between two statements.
#[derive(Debug, Drop)]
enum State {
    // Nothing.
    Idle,
    // A COPY.
    Open(Opened),
    // Nothing more, since a statement had a fault.
    Ended,
}

// What a statement asks for, after its card, or its fault.
#[tactic(auto, unfolding(crate::specs::Orders::asked))]
fn asked(alloc: Global, item: &Item) -> Result<Result<(u32, Request), StatementFault>, AllocError>
    ensures { IfOk result (λ found. found ≡ asked (item_view item.now)) }
{
    let statement = match item {
        Item::Stmt(statement) => statement,
        Item::Fault { card, kind, .. } => {
            return Ok(Err(StatementFault {
                card: *card,
                kind: *kind,
            }));
        }
    };
    match request_of(alloc, statement)? {
        Some(request) => Ok(Ok((statement.card, request))),
        None => Ok(Err(bad_operand(statement.card))),
    }
}

// The copy of a COPY.
fn copy_order(card: u32, opened: Opened, choice: Choice) -> Order
    ensures { result ≡ copy_order card opened choice }
{
    Order::Copy(CopyOrder {
        card,
        dds: opened.dds,
        choice,
    })
}

// Orders the copy of a COPY that takes no further statement.
fn close(orders: &mut Vec<Order>, state: State) -> Result<(), AllocError>
    ensures { OnOk result (orders.new.items ≡ orders.old.items ++ closed state) }
{
    match state {
        State::Open(opened) => {
            let card = opened.card;
            orders.push(copy_order(card, opened, Choice::All))?;
            Ok(())
        }
        _ => Ok(()),
    }
}

// The card of the COPY before, or of the statement itself.
fn opened_card(state: &State, card: u32) -> u32
    ensures { result ≡ opened_card state.now card }
{
    match state {
        State::Open(opened) => opened.card,
        _ => card,
    }
}

// Orders the copy of the COPY before with a choice of members, of which the lines name a card.
fn choose(
    orders: &mut Vec<Order>,
    state: State,
    card: u32,
    own: u32,
    choice: Choice,
) -> Result<State, AllocError>
    ensures { IfOk result (λ next. (more : List ItemView) → orders.old.items ++ chosen state card own choice (λ s. orders_of s more) ≡ orders.new.items ++ orders_of next more) }
{
    match state {
        State::Open(opened) => {
            orders.push(copy_order(card, opened, choice))?;
            Ok(State::Idle)
        }
        _ => {
            orders.push(Order::Fault(bad_operand(own)))?;
            Ok(State::Ended)
        }
    }
}

// Takes what a statement asks for.
#[tactic(auto, unfolding(crate::specs::Orders::orders_at))]
fn take_request(
    orders: &mut Vec<Order>,
    state: State,
    card: u32,
    request: Request,
) -> Result<State, AllocError>
    ensures { IfOk result (λ next. (more : List ItemView) → orders.old.items ++ orders_at state (Ok (card, request)) (λ s. orders_of s more) ≡ orders.new.items ++ orders_of next more) }
{
    match request {
        Request::Copy(dds) => {
            close(orders, state)?;
            Ok(State::Open(Opened { card, dds }))
        }
        Request::Select(picks) => choose(orders, state, card, card, Choice::Select(picks)),
        Request::Exclude(names) => {
            let line = opened_card(&state, card);
            choose(orders, state, line, card, Choice::Exclude(names))
        }
    }
}

// Takes a statement, or the fault of one.
fn take(
    alloc: Global,
    orders: &mut Vec<Order>,
    state: State,
    item: &Item,
) -> Result<State, AllocError>
    ensures { IfOk result (λ next. (more : List ItemView) → orders.old.items ++ orders_of state (item_view item.now ∷ more) ≡ orders.new.items ++ orders_of next more) }
{
    if let State::Ended = state {
        return Ok(State::Ended);
    }
    match asked(alloc, item)? {
        Ok((card, request)) => take_request(orders, state, card, request),
        Err(fault) => {
            orders.push(Order::Fault(fault))?;
            Ok(State::Ended)
        }
    }
}

/// What the statements of a step order, in order.
///
/// A COPY goes with the SELECT or the EXCLUDE after it, or else copies all members. A SELECT or
/// an EXCLUDE that follows no such COPY is `BadOperand`. A fault ends the orders, and the COPY
/// before it that may still take a statement is none. The one error is want of memory.
pub fn orders_of(alloc: Global, items: &[Item]) -> Result<Vec<Order>, AllocError>
    ensures { IfOk result (λ orders. orders.items ≡ orders_of State.Idle (map item_view items.now)) }
{
    let mut orders = Vec::new(alloc);
    let mut state = State::Idle;
    for item in items {
        state = take(alloc, &mut orders, state, item)?;
    }
    close(&mut orders, state)?;
    Ok(orders)
}
