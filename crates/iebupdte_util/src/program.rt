//! IEBUPDTE in a step.
ghost use Rattle.std.specs.Prelude.{◌≡◌, [], ◌∷◌, length, option_map, IfOk};
ghost use Rattle.std.specs.Map.{lookup};
ghost use Rattle.card_text.specs.declared.cards.Card.{Card};
ghost use Rattle.util_steps.specs.Items.{items_along};
ghost use Rattle.util_steps.specs.Taking.{IsReady, Reads, RunsItems, TakesItem};
ghost use Rattle.iebupdte_util.specs.Items.{cards_in, function_item, iebupdte_items, is_new, object_for, old_in, order_item, setting_of, target_if, verb_word};
ghost use Rattle.update_forms.specs.Orders.{orders_of};

use crate::updating::{Sets, set_attr, update};
use card_text::Card;
use ebcdic_names::{Dsn, Name8};
use output_files::{Output, SYSUT1, SYSUT2, end_without_dd, set_in};
use std::alloc::Global;
use update_forms::{Function, Order, Setting, Target, Verb, orders_of};
use util_program::{report_fault, report_steps};
use util_steps::{Items, SetRef, run_items};
use util_syntax::{DdIn, Object, SYSIN, StepIn};
use vol_model::{Attr, Machine, Stop, is_catalog};

/// Runs IEBUPDTE in a step (Utilities GC28-6586, in this project's profile), and gives the step's code, the highest of
/// its functions.
///
/// SYSUT1 is the old library or sequential data set, SYSUT2 the new one, both F or FB with records of 80 bytes. With
/// PARM=NEW there is no SYSUT1, and REPRO and CHANGE have no place. SYSIN is cards or DUMMY. The first of SYSIN, SYSUT2
/// and SYSUT1 that is missing or of another kind is `NO-DD`, with 16. SYSPRINT isn't needed.
///
/// A card of SYSIN that begins `./` is a statement by itself; every other card is data of the function before it.
///
/// - `ADD NAME=m` and `REPL NAME=m` write the cards after them; the member of an ADD must not be there.
/// - `REPRO NAME=m` copies an old member.
/// - `CHANGE NAME=m` puts cards among the records of an old member, each in the place of the record of its columns 73 to
///   80, or else in its order. Old records and cards must rise strictly by these columns, else `SEQ-ORDER`.
/// - `DELETE SEQ1=a,SEQ2=b`, after a CHANGE, drops old records; a card in such a range stays.
/// - `NUMBER NEW1=n,INCR=i`, in a CHANGE with `SEQ1=ALL`, numbers the records in columns 73 to 80 by eight digits; a
///   number past 99999999 is `SEQ-ORDER`.
/// - `ALIAS NAME=a` enters another name of the member, which takes the place of any entry of that name.
/// - `ENDUP`, or the end of the cards, ends the step.
///
/// NAME is missing where SYSUT2 is sequential, which takes one function; it is emptied before, unless its DD says that
/// records go after its own. LIST, LEVEL and SOURCE aren't read. A statement of another form, or out of its place, is
/// `SYNTAX BAD-OPERAND` with 12: the function before it that may still take cards isn't done, and the step ends. Each
/// function is answered by one line, by its card. A refusal has code 8, `BAD-RECORD` and `SEQ-ORDER` 12; none ends the
/// step, and a function that has one of these two has done nothing. Where memory runs out, no writer stays open, and the
/// first operations of a function may be done: no name is entered before its blocks.
pub fn run<M: Machine>(alloc: Global, machine: &mut M, step: &StepIn) -> Result<u8, Stop>
    requires { IsReady M.Machine machine.old }
    ensures { RunsItems M.Machine (iebupdte_items step.now) machine.old machine.new result }
{
    let Some(cards) = cards_in(step.dds.get(&SYSIN)) else {
        return end_without_dd(alloc, machine, step.card, &SYSIN);
    };
    let Some(out) = set_in(step.dds.get(&SYSUT2)) else {
        return end_without_dd(alloc, machine, step.card, &SYSUT2);
    };
    let fresh = is_new(step);
    let dd = set_in(step.dds.get(&SYSUT1));
    let Some(old) = old_in(fresh, dd) else {
        return end_without_dd(alloc, machine, step.card, &SYSUT1);
    };
    run_cards(alloc, machine, Sets { old, out }, cards)
}

// The cards of a DD, none of DUMMY.
fn cards_in(dd: Option<&DdIn>) -> Option<&[(u32, Card)]>
    ensures { option_map (λ cards. cards.now) result ≡ cards_in (option_map (λ d. d.now) dd.entry) }
{
    match dd {
        Some(DdIn::Dummy) => Some(&[]),
        Some(DdIn::Cards(cards)) => Some(cards.as_slice()),
        _ => None,
    }
}

// Whether the step has PARM=NEW.
fn is_new(step: &StepIn) -> bool
    ensures { result ≡ is_new step.now }
{
    let word: &[u8] = b"NEW";
    word == step.parm.as_slice()
}

// The old data set, which there is none of with PARM=NEW.
fn old_in(fresh: bool, dd: Option<Output>) -> Option<Option<SetRef>>
    ensures { result ≡ old_in fresh dd }
{
    if fresh {
        return Some(None);
    }
    match dd {
        Some(output) => Some(Some(output.to)),
        None => None,
    }
}

// What SYSUT2 is, by its attributes.
fn target_if(name: &Dsn, attr: &Option<Attr>) -> Target
    ensures { result ≡ target_if name.now.bytes attr.now }
{
    let Some(attr) = attr else {
        return Target::OtherKind;
    };
    if is_catalog(name) {
        Target::OtherKind
    } else if attr.dsorg / 512 == 1 {
        Target::Library
    } else if attr.dsorg / 512 == 32 || attr.dsorg == 0 {
        Target::Sequential
    } else {
        Target::OtherKind
    }
}

// Where statements have a place.
fn find_setting<M: Machine>(machine: &mut M, sets: &Sets) -> Result<Setting, Stop>
    requires { IsReady M.Machine machine.old }
    ensures { Reads M.Machine (λ shelf setting. setting ≡ setting_of shelf sets.now) machine.old machine.new result }
{
    let attr = set_attr(machine, &sets.out.to)?;
    Ok(Setting {
        fresh: sets.old.is_none(),
        target: target_if(&sets.out.to.dsn, &attr),
    })
}

// Does what cards order.
fn run_cards<M: Machine>(
    alloc: Global,
    machine: &mut M,
    sets: Sets,
    cards: &[(u32, Card)],
) -> Result<u8, Stop>
    requires { IsReady M.Machine machine.old }
    ensures { RunsItems M.Machine (λ shelf. items_along (order_item sets) shelf (orders_of (setting_of shelf sets) cards.now)) machine.old machine.new result }
{
    let setting = find_setting(machine, &sets)?;
    run_ordered(alloc, machine, sets, setting, cards)
}

// Does what cards order in a setting.
fn run_ordered<M: Machine>(
    alloc: Global,
    machine: &mut M,
    sets: Sets,
    setting: Setting,
    cards: &[(u32, Card)],
) -> Result<u8, Stop>
    requires { IsReady M.Machine machine.old }
    ensures { RunsItems M.Machine (λ shelf. items_along (order_item sets) shelf (orders_of setting cards.now)) machine.old machine.new result }
{
    let orders = orders_of(alloc, setting, cards)?;
    run_orders(alloc, machine, sets, &orders)
}

// What is left of the orders of a step.
#[derive(Drop)]
struct Work<'a> {
    alloc: Global,
    sets: Sets,
    rest: &'a [Order],
}

impl<M: Machine> Items<M> for Work<'_> {
    ghost items = { λ work shelf. items_along (order_item work.sets) shelf work.rest.now };

    ghost most = { λ work. length work.rest.now };

    fn next(&mut self, machine: &mut M) -> Result<Option<u8>, Stop> {
        match self.rest.split_first() {
            Some((first, others)) => {
                let code = do_order(self.alloc, machine, &self.sets, first)?;
                self.rest = others;
                Ok(Some(code))
            }
            None => Ok(None),
        }
    }
}

// Does orders one after another.
fn run_orders<M: Machine>(
    alloc: Global,
    machine: &mut M,
    sets: Sets,
    orders: &[Order],
) -> Result<u8, Stop>
    requires { IsReady M.Machine machine.old }
    ensures { RunsItems M.Machine (λ shelf. items_along (order_item sets) shelf orders.now) machine.old machine.new result }
{
    let mut work = Work {
        alloc,
        sets,
        rest: orders,
    };
    run_items(machine, &mut work)
}

// Does a function, or answers the fault of a card.
#[tactic(auto, unfolding(crate::specs::Items::order_item))]
fn do_order<M: Machine>(
    alloc: Global,
    machine: &mut M,
    sets: &Sets,
    order: &Order,
) -> Result<u8, Stop>
    requires { IsReady M.Machine machine.old }
    ensures { TakesItem M.Machine (λ shelf. order_item sets.now shelf order.now) machine.old machine.new result }
{
    match order {
        Order::Write(function) => answer(alloc, machine, sets, function),
        Order::Fault(fault) => report_fault(alloc, machine, fault.card, fault.kind),
    }
}

// The operation that a line names.
fn verb_word(verb: Verb) -> &'static str
    ensures { result.now ≡ verb_word verb }
{
    match verb {
        Verb::Add => "ADD",
        Verb::Repl => "REPL",
        Verb::Repro => "REPRO",
        Verb::Change => "CHANGE",
    }
}

// What a line names: the member, or the set.
fn object_for(to: &SetRef, name: Option<Name8>) -> Object
    ensures { result ≡ object_for to.now name }
{
    match name {
        Some(name) => Object::Member { set: to.dsn, name },
        None => Object::Name(to.dsn),
    }
}

// Does a function, and answers it.
fn answer<M: Machine>(
    alloc: Global,
    machine: &mut M,
    sets: &Sets,
    function: &Function,
) -> Result<u8, Stop>
    requires { IsReady M.Machine machine.old }
    ensures { TakesItem M.Machine (λ shelf. function_item shelf sets.now function.now) machine.old machine.new result }
{
    let answer = update(alloc, machine, sets, function)?;
    let word = verb_word(function.heading.verb);
    let object = object_for(&sets.out.to, function.heading.name);
    report_steps(alloc, machine, function.card, word, &object, answer)
}
