//! The copy of records from cards, a data set or a member to a data set or a member.
ghost use Rattle.std.specs.Prelude.{◌≡◌, false, None, option_map};
ghost use Rattle.record_blocks.specs.Formats.{first_fault};
ghost use Rattle.util_steps.specs.Taking.{IsReady, Takes};
ghost use Rattle.record_files.specs.Attributes.{format_in, format_with};
ghost use Rattle.record_files.specs.Calls.{TakesKnowing};
ghost use Rattle.record_files.specs.Inputs.{input_view};
ghost use Rattle.output_files.specs.Members.{AreLawful, names_view};
ghost use Rattle.output_files.specs.Outputs.{KnowsSets, is_same, write_output};
ghost use Rattle.iebgener_util.specs.Items.{blocks_in, copied, copied_with, formats_clash, is_fixed};

use crate::edited::EditedRecords;
use crate::editing::have_fields;
use crate::orders::Order;
use crate::requests::Edit;
use output_files::{Names, Output, find_output, is_same, write_output};
use record_blocks::Format;
use record_files::{
    Input, RecordInput, find_input, format_in, found_both, input_format, open_input, output_attr,
};
use std::alloc::Global;
use util_program::outcome_for;
use util_steps::Fault;
use util_syntax::Outcome;
use vol_model::{Attr, Machine, Stop};

/// A copy that a step asks for.
#[derive(Clone, Copy)]
pub struct RecordCopy<'a> {
    /// What is read.
    pub input: Input<'a>,
    /// What is written.
    pub output: Output,
    /// The names of the member that is written, if one is.
    pub names: Option<Names<'a>>,
    /// The orders before, whose records are passed over.
    pub before: &'a [Order],
    /// How records are edited; none stands for records that stay as they are.
    pub edits: &'a [Edit],
}

// Whether records have one length.
fn is_fixed(format: &Format) -> bool
    ensures { result ≡ is_fixed format.now }
{
    format.recfm & 0xC0 == 0x80
}

// Whether formats don't serve: one breaks a rule, or fields are laid out and the records of the output don't have one
// length.
#[tactic(auto, unfolding(crate::specs::Items::formats_clash))]
fn formats_clash(edits: bool, input: &Format, output: &Format) -> bool
    ensures { result ≡ formats_clash edits input.now output.now }
{
    input.check().is_err() || output.check().is_err() || (edits && !is_fixed(output))
}

/// Copies the records of an input to a sequential data set, which is emptied before unless records go after its own, or
/// to a member of a library.
///
/// Both sets must be there, of their kind and readable; a member that is read must be there, and another name of one that
/// is written must not. Of two refusals the lower number counts. Then `DCB` comes where the formats don't serve, and
/// `SAME-SET` where a sequential output is the input. `NO-ROOM`, `DIR-FULL` and `BAD-RECORD` alone come later.
pub fn copy_records<M: Machine>(
    alloc: Global,
    machine: &mut M,
    copy: &RecordCopy<'_>,
) -> Result<Result<(), Outcome>, Stop>
    requires { IsReady M.Machine machine.old }
    ensures { Takes M.Machine (λ shelf. copied shelf (input_view copy.now.input) copy.now.output (option_map names_view copy.now.names) copy.now.before.now copy.now.edits.now) machine.old machine.new result }
{
    let known = find_input(machine, &copy.input)?;
    let own = find_output(machine, &copy.output, &copy.names)?;
    match found_both(known, own) {
        Ok((known, own)) => {
            let attr = output_attr(&copy.output.dcb, &own.attr, &known.attr);
            copy_with(alloc, machine, copy, &known, &attr)
        }
        Err(refusal) => Ok(Err(Outcome::Refused(refusal))),
    }
}

// Copies records to an output of these attributes, unless the formats don't serve or a sequential output is the input.
fn copy_with<M: Machine>(
    alloc: Global,
    machine: &mut M,
    copy: &RecordCopy<'_>,
    known: &RecordInput,
    attr: &Attr,
) -> Result<Result<(), Outcome>, Stop>
    requires ready { IsReady M.Machine machine.old }
    requires lawful { AreLawful (option_map names_view copy.now.names) }
    ensures { TakesKnowing M.Machine (KnowsSets (input_view copy.now.input) known.now copy.now.output.to) (λ shelf found. copied_with shelf (input_view copy.now.input) copy.now.output (option_map names_view copy.now.names) copy.now.before.now copy.now.edits.now found attr.now) machine.old machine.new result }
{
    let format = input_format(&known.attr);
    if formats_clash(have_fields(copy.edits), &format, &format_in(attr)) {
        return Ok(Err(Outcome::Dcb));
    }
    if is_same(&copy.input, &copy.output.to, &copy.names) {
        return Ok(Err(Outcome::SameSet));
    }
    match write_edited(alloc, machine, copy, known, attr)? {
        Ok(()) => Ok(Ok(())),
        Err(fault) => Ok(Err(outcome_for(fault))),
    }
}

// Writes the records of an input, edited.
fn write_edited<M: Machine>(
    alloc: Global,
    machine: &mut M,
    copy: &RecordCopy<'_>,
    known: &RecordInput,
    attr: &Attr,
) -> Result<Result<(), Fault>, Stop>
    requires ready { IsReady M.Machine machine.old }
    requires read { first_fault (format_with known.now.attr) ≡ None }
    requires written { first_fault (format_in attr.now) ≡ None }
    requires apart { is_same (input_view copy.now.input) copy.now.output.to (option_map names_view copy.now.names) ≡ false }
    requires lawful { AreLawful (option_map names_view copy.now.names) }
    ensures { TakesKnowing M.Machine (KnowsSets (input_view copy.now.input) known.now copy.now.output.to) (λ shelf found. write_output shelf copy.now.output (option_map names_view copy.now.names) attr.now (blocks_in (format_in attr.now) copy.now.before.now copy.now.edits.now found)) machine.old machine.new result }
{
    let reader = open_input(alloc, &copy.input, known)?;
    let mut records = EditedRecords::new(alloc, reader, attr.lrecl, copy.before, copy.edits);
    write_output(
        alloc,
        machine,
        &mut records,
        &copy.output,
        attr,
        &copy.names,
    )
}
