//! What a function reads and writes.
ghost use Rattle.std.specs.Prelude.{◌≡◌, false, None, option_map};
ghost use Rattle.record_blocks.specs.Formats.{first_fault};
ghost use Rattle.vol_model.specs.Did.{with_reason};
ghost use Rattle.util_steps.specs.Taking.{IsReady, Reads, Takes};
ghost use Rattle.util_program.specs.Outcomes.{outcome_for};
ghost use Rattle.record_files.specs.Attributes.{format_in, format_with};
ghost use Rattle.record_files.specs.Calls.{TakesKnowing};
ghost use Rattle.record_files.specs.Inputs.{input_view, records_of};
ghost use Rattle.record_files.specs.Writing.{packed};
ghost use Rattle.output_files.specs.Members.{AreLawful, names_view};
ghost use Rattle.output_files.specs.Outputs.{KnowsSets, is_same, write_output};
ghost use Rattle.iebupdte_util.specs.Checking.{edits};
ghost use Rattle.iebupdte_util.specs.Items.{all_hold_cards, edited_to, holds_cards, is_add, names_of, old_attr, set_attr, source_of, updated, updated_with};

use crate::checking::{check_function, open_records};
use output_files::{Names, Output, find_output, is_same, write_output};
use record_blocks::Format;
use record_files::{
    Input, RecordInput, find_input, format_in, found_both, input_format, output_attr,
};
use std::alloc::Global;
use update_forms::{Function, Heading, Verb, reads_old};
use util_program::outcome_for;
use util_steps::SetRef;
use util_syntax::Outcome;
use vol_model::{Attr, Machine, Stop};

/// The data sets of a step.
#[derive(Clone, Copy)]
pub struct Sets {
    /// The old one, unless there is none: with PARM=NEW.
    pub old: Option<SetRef>,
    /// The new one.
    pub out: Output,
}

// Whether a format is F or FB, with records of 80 bytes.
#[tactic(auto, unfolding(crate::specs::Items::holds_cards))]
fn holds_cards(format: &Format) -> bool
    ensures { result ≡ holds_cards format.now }
{
    format.check().is_ok() && format.recfm & 0xC0 == 0x80 && format.lrecl == 80
}

// Whether the old set, what is read and the output have such formats.
fn all_hold_cards(old: &Option<Attr>, input: &Option<Attr>, attr: &Attr) -> bool
    ensures { result ≡ all_hold_cards old.now (format_with input.now) attr.now }
{
    holds_cards(&input_format(old))
        && (holds_cards(&input_format(input)) && holds_cards(&format_in(attr)))
}

/// The attributes of a data set, if it is there.
pub fn set_attr<M: Machine>(machine: &mut M, set: &SetRef) -> Result<Option<Attr>, Stop>
    requires { IsReady M.Machine machine.old }
    ensures { Reads M.Machine (λ shelf attr. attr ≡ set_attr shelf set.now) machine.old machine.new result }
{
    match machine.attr(set.v, &set.dsn)? {
        Some(info) => Ok(Some(info.attr)),
        None => Ok(None),
    }
}

// The attributes of the old data set, if there is one.
fn old_attr<M: Machine>(machine: &mut M, old: &Option<SetRef>) -> Result<Option<Attr>, Stop>
    requires { IsReady M.Machine machine.old }
    ensures { Reads M.Machine (λ shelf attr. attr ≡ old_attr shelf old.now) machine.old machine.new result }
{
    match old {
        Some(set) => set_attr(machine, set),
        None => Ok(None),
    }
}

// What a function reads: the old member or set, and nothing for ADD and REPL.
fn source_of<'a>(sets: &Sets, heading: &Heading) -> Input<'a>
    ensures { input_view result ≡ source_of sets.now heading.now }
{
    if !reads_old(heading.verb) {
        return Input::Cards(&[]);
    }
    match sets.old {
        Some(set) => Input::From {
            set,
            member: heading.name,
        },
        None => Input::Cards(&[]),
    }
}

fn is_add(verb: Verb) -> bool
    ensures { result ≡ is_add verb }
{
    match verb {
        Verb::Add => true,
        _ => false,
    }
}

// The names of the member that a function writes, if it writes one.
fn names_of(function: &Function) -> Option<Names<'_>>
    ensures { option_map names_view result ≡ names_of function.now }
{
    match function.heading.name {
        Some(name) => Some(Names {
            name,
            aliases: function.aliases.as_slice(),
            replaces: !is_add(function.heading.verb),
            aliases_replace: true,
        }),
        None => None,
    }
}

/// Does a function: writes its records to a member of a library and enters that, or to a sequential data set.
///
/// What it reads and writes must be there, of its kind and readable; the member of an ADD must not. Of two refusals the
/// lower number counts. Then `DCB` comes where a format isn't F or FB of 80, `SAME-SET` where a sequential output is the
/// input, and what the input has against it. `NO-ROOM` and `DIR-FULL` alone come later.
pub fn update<M: Machine>(
    alloc: Global,
    machine: &mut M,
    sets: &Sets,
    function: &Function,
) -> Result<Result<(), Outcome>, Stop>
    requires { IsReady M.Machine machine.old }
    ensures { Takes M.Machine (λ shelf. updated shelf sets.now function.now) machine.old machine.new result }
{
    let input = source_of(sets, &function.heading);
    let names = names_of(function);
    let known = find_input(machine, &input)?;
    let own = find_output(machine, &sets.out, &names)?;
    match found_both(known, own) {
        Ok((known, own)) => {
            let attr = output_attr(&sets.out.dcb, &own.attr, &known.attr);
            update_with(alloc, machine, sets, function, &known, &attr)
        }
        Err(refusal) => Ok(Err(Outcome::Refused(refusal))),
    }
}

// Does a function whose output has these attributes, unless a format doesn't serve or a sequential output is the input.
fn update_with<M: Machine>(
    alloc: Global,
    machine: &mut M,
    sets: &Sets,
    function: &Function,
    known: &RecordInput,
    attr: &Attr,
) -> Result<Result<(), Outcome>, Stop>
    requires ready { IsReady M.Machine machine.old }
    requires lawful { AreLawful (names_of function.now) }
    ensures { TakesKnowing M.Machine (KnowsSets (source_of sets.now function.now.heading) known.now sets.now.out.to) (λ shelf found. updated_with shelf sets.now function.now found attr.now) machine.old machine.new result }
{
    let old = old_attr(machine, &sets.old)?;
    if !all_hold_cards(&old, &known.attr, attr) {
        return Ok(Err(Outcome::Dcb));
    }
    if is_same(
        &source_of(sets, &function.heading),
        &sets.out.to,
        &names_of(function),
    ) {
        return Ok(Err(Outcome::SameSet));
    }
    edit_to(alloc, machine, sets, function, known, attr)
}

// Reads the input of a function once, and then writes its records.
fn edit_to<M: Machine>(
    alloc: Global,
    machine: &mut M,
    sets: &Sets,
    function: &Function,
    known: &RecordInput,
    attr: &Attr,
) -> Result<Result<(), Outcome>, Stop>
    requires ready { IsReady M.Machine machine.old }
    requires lawful { AreLawful (names_of function.now) }
    requires read { first_fault (format_with known.now.attr) ≡ None }
    requires written { first_fault (format_in attr.now) ≡ None }
    requires apart { is_same (source_of sets.now function.now.heading) sets.now.out.to (names_of function.now) ≡ false }
    ensures { TakesKnowing M.Machine (KnowsSets (source_of sets.now function.now.heading) known.now sets.now.out.to) (λ shelf found. edited_to shelf sets.now.out function.now attr.now (records_of found)) machine.old machine.new result }
{
    let input = source_of(sets, &function.heading);
    match check_function(alloc, machine, &input, known, function)? {
        Ok(()) => write_edited(alloc, machine, sets, function, known, attr),
        Err(outcome) => Ok(Err(outcome)),
    }
}

// Writes the records of a function, whose fault is an outcome.
fn write_edited<M: Machine>(
    alloc: Global,
    machine: &mut M,
    sets: &Sets,
    function: &Function,
    known: &RecordInput,
    attr: &Attr,
) -> Result<Result<(), Outcome>, Stop>
    requires ready { IsReady M.Machine machine.old }
    requires lawful { AreLawful (names_of function.now) }
    requires read { first_fault (format_with known.now.attr) ≡ None }
    requires written { first_fault (format_in attr.now) ≡ None }
    requires apart { is_same (source_of sets.now function.now.heading) sets.now.out.to (names_of function.now) ≡ false }
    ensures { TakesKnowing M.Machine (KnowsSets (source_of sets.now function.now.heading) known.now sets.now.out.to) (λ shelf found. with_reason outcome_for (write_output shelf sets.now.out (names_of function.now) attr.now (packed (format_in attr.now) (edits function.now (records_of found))))) machine.old machine.new result }
{
    let input = source_of(sets, &function.heading);
    let names = names_of(function);
    let mut records = open_records(alloc, &input, known, function)?;
    match write_output(alloc, machine, &mut records, &sets.out, attr, &names)? {
        Ok(()) => Ok(Ok(())),
        Err(fault) => Ok(Err(outcome_for(fault))),
    }
}
