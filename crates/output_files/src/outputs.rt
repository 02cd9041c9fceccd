//! What a step writes: a sequential data set, or a member of a library.
ghost use Rattle.std.specs.Prelude.{◌≡◌, ◌∷◌, [], false, None, Ok, option_map, IfOk};
ghost use Rattle.std.specs.List.{list_any};
ghost use Rattle.record_blocks.specs.Formats.{first_fault};
ghost use Rattle.util_steps.specs.Copying.{source};
ghost use Rattle.util_steps.specs.Taking.{IsReady, Reads, RunsItems};
ghost use Rattle.util_syntax.specs.Program.{no_dd_item};
ghost use Rattle.record_files.specs.Attributes.{FindsSet, format_in};
ghost use Rattle.record_files.specs.Calls.{TakesKnowing};
ghost use Rattle.record_files.specs.Inputs.{input_view};
ghost use Rattle.record_files.specs.Members.{ends_directory};
ghost use Rattle.record_files.specs.Writing.{packed};
ghost use Rattle.output_files.specs.Members.{AreLawful, all_names, names_view, stored};
ghost use Rattle.output_files.specs.Outputs.{GivesTo, found_output, is_same, purpose_of, set_in, write_output};

use crate::members::{Names, enter, find_library};
use ebcdic_names::Name8;
use jcl_forms::Dcb;
use record_files::{
    Input, Purpose, RecordSource, add_records, find_set, format_in, rewrite_set, write_member,
};
use std::alloc::Global;
use util_program::report_no_dd;
use util_steps::{Fault, SetRef};
use util_syntax::DdIn;
use vol_model::{Attr, Machine, Refusal, SetInfo, Stop};

/// SYSUT1 in EBCDIC.
pub const SYSUT1: Name8 = Name8 {
    bytes: [0xE2, 0xE8, 0xE2, 0xE4, 0xE3, 0xF1, 0x40, 0x40],
};

/// SYSUT2 in EBCDIC.
pub const SYSUT2: Name8 = Name8 {
    bytes: [0xE2, 0xE8, 0xE2, 0xE4, 0xE3, 0xF2, 0x40, 0x40],
};

/// What is written.
#[derive(Clone, Copy)]
pub struct Output {
    /// The data set.
    pub to: SetRef,
    /// The member that its DD names.
    pub member: Option<Name8>,
    /// Whether records go after those that it has, where it is sequential.
    pub append: bool,
    /// The attributes that its DD gives.
    pub dcb: Dcb,
}

/// The data set that a DD gives, with the member that is meant.
pub fn set_in(dd: Option<&DdIn>) -> Option<Output>
    ensures { result ≡ set_in (option_map (λ d. d.now) dd.entry) }
{
    match dd {
        Some(
            DdIn::Set {
                v,
                dsn,
                member,
                append,
                dcb,
            },
        ) => Some(Output {
            to: SetRef { v: *v, dsn: *dsn },
            member: *member,
            append: *append,
            dcb: *dcb,
        }),
        _ => None,
    }
}

/// Says that a step lacks a DD, which is its one item.
#[tactic(auto, using(util_steps::proofs::Taking::runs_one))]
pub fn end_without_dd<M: Machine>(
    alloc: Global,
    machine: &mut M,
    card: u32,
    name: &Name8,
) -> Result<u8, Stop>
    requires { IsReady M.Machine machine.old }
    ensures { RunsItems M.Machine (λ shelf. no_dd_item card name.now ∷ []) machine.old machine.new result }
{
    report_no_dd(alloc, machine, card, name)
}

/// Whether an input is this sequential data set.
pub fn is_same(input: &Input<'_>, to: &SetRef, names: &Option<Names<'_>>) -> bool
    ensures { result ≡ is_same (input_view input.now) to.now (option_map names_view names.now) }
{
    match input {
        Input::Cards(_) => false,
        Input::From { set, .. } => match names {
            Some(_) => false,
            None => set.v == to.v && set.dsn == to.dsn,
        },
    }
}

// What a sequential output is found for.
fn purpose_of(output: &Output) -> Purpose
    ensures { result ≡ purpose_of output.now }
{
    if output.append {
        Purpose::Records
    } else {
        Purpose::Rewrite
    }
}

/// What is told of the output, or why it can't be written to.
pub fn find_output<M: Machine>(
    machine: &mut M,
    output: &Output,
    names: &Option<Names<'_>>,
) -> Result<Result<SetInfo, Refusal>, Stop>
    requires { IsReady M.Machine machine.old }
    ensures reads { Reads M.Machine (λ shelf answer. FindsSet answer (found_output shelf output.now (option_map names_view names.now))) machine.old machine.new result }
    ensures lawful { IfOk result (λ answer. IfOk answer (λ info. AreLawful (option_map names_view names.now))) }
{
    match names {
        Some(names) => find_library(machine, &output.to, names),
        None => find_set(machine, purpose_of(output), &output.to),
    }
}

// Writes records to a library as a member, and enters its names.
fn write_named<M: Machine, R: RecordSource<M>>(
    alloc: Global,
    machine: &mut M,
    records: &mut R,
    to: &SetRef,
    attr: &Attr,
    names: &Names<'_>,
) -> Result<Result<(), Fault>, Stop>
    requires ready { IsReady M.Machine machine.old }
    requires written { first_fault (format_in attr.now) ≡ None }
    requires lawful { list_any ends_directory (all_names (names_view names.now)) ≡ false }
    ensures { TakesKnowing M.Machine (λ shelf bs. source shelf to.now ≡ Ok bs) (λ shelf bs. stored shelf to.now (names_view names.now) (packed (format_in attr.now) (R.stream records.old shelf))) machine.old machine.new result }
{
    let place = match write_member(alloc, machine, records, to, format_in(attr))? {
        Ok(place) => place,
        Err(fault) => return Ok(Err(fault)),
    };
    enter(alloc, machine, to, place, names)
}

/// Writes records to a member and enters that, or to a sequential data set, after its own or in their place.
pub fn write_output<M: Machine, R: RecordSource<M>>(
    alloc: Global,
    machine: &mut M,
    records: &mut R,
    output: &Output,
    attr: &Attr,
    names: &Option<Names<'_>>,
) -> Result<Result<(), Fault>, Stop>
    requires ready { IsReady M.Machine machine.old }
    requires written { first_fault (format_in attr.now) ≡ None }
    requires lawful { AreLawful (option_map names_view names.now) }
    ensures { TakesKnowing M.Machine (GivesTo output.now.to (option_map names_view names.now) (R.stream records.old)) (λ shelf st. write_output shelf output.now (option_map names_view names.now) attr.now (packed (format_in attr.now) st)) machine.old machine.new result }
{
    let to = &output.to;
    match names {
        Some(names) => write_named(alloc, machine, records, to, attr, names),
        None if output.append => add_records(alloc, machine, records, to, format_in(attr)),
        None => rewrite_set(alloc, machine, records, to, attr),
    }
}
