//! What is read: cards, a data set or a member.
ghost use Rattle.std.specs.Prelude.{◌≡◌};
ghost use Rattle.util_steps.specs.Taking.{IsReady, Reads};
ghost use Rattle.record_files.specs.Attributes.{format_with, found_both};
ghost use Rattle.record_files.specs.Inputs.{IsFound, found_input, from, input_view};

use crate::attributes::{Purpose, find_set, first_refusal, format_in};
use crate::members::find_member;
use card_text::Card;
use ebcdic_names::Name8;
use record_blocks::Format;
use util_steps::SetRef;
use vol_model::{Attr, Machine, Place, Refusal, SetInfo, Stop};

// The format of cards: F, 80, 80.
const CARDS: Format = Format {
    recfm: 0x80,
    lrecl: 80,
    blksize: 80,
};

/// What is read.
#[derive(Clone, Copy)]
pub enum Input<'a> {
    /// Cards, each after its number in the deck.
    Cards(&'a [(u32, Card)]),
    /// A data set, or a member of one.
    From {
        /// The data set.
        set: SetRef,
        /// The member that is meant, if one is.
        member: Option<Name8>,
    },
}

/// What is known of an input before it is read.
#[derive(Clone, Copy, Debug, PartialEq, Eq)]
pub struct RecordInput {
    /// Its attributes, if it is a data set.
    pub attr: Option<Attr>,
    /// Where its member begins, if one is read.
    pub start: Option<Place>,
}

/// Both that were found, or of their refusals the one of the lower number.
pub fn found_both(
    known: Result<RecordInput, Refusal>,
    own: Result<SetInfo, Refusal>,
) -> Result<(RecordInput, SetInfo), Refusal>
    ensures { result ≡ found_both known own }
{
    match known {
        Ok(known) => match own {
            Ok(own) => Ok((known, own)),
            Err(refusal) => Err(refusal),
        },
        Err(refusal) => match own {
            Ok(_) => Err(refusal),
            Err(other) => Err(first_refusal(refusal, other)),
        },
    }
}

// What is known of a data set that is read, or why it can't be.
fn find_source<M: Machine>(
    machine: &mut M,
    set: &SetRef,
    member: Option<Name8>,
) -> Result<Result<RecordInput, Refusal>, Stop>
    requires { IsReady M.Machine machine.old }
    ensures { Reads M.Machine (λ shelf answer. IsFound answer (found_input shelf (from set.now member))) machine.old machine.new result }
{
    match member {
        Some(name) => match find_member(machine, set, &name)? {
            Ok((info, place)) => Ok(Ok(RecordInput {
                attr: Some(info.attr),
                start: Some(place),
            })),
            Err(refusal) => Ok(Err(refusal)),
        },
        None => match find_set(machine, Purpose::Records, set)? {
            Ok(info) => Ok(Ok(RecordInput {
                attr: Some(info.attr),
                start: None,
            })),
            Err(refusal) => Ok(Err(refusal)),
        },
    }
}

/// What is known of an input, or why it can't be read: a data set must be sequential, a member's partitioned, and the
/// member must be there.
pub fn find_input<M: Machine>(
    machine: &mut M,
    input: &Input<'_>,
) -> Result<Result<RecordInput, Refusal>, Stop>
    requires { IsReady M.Machine machine.old }
    ensures { Reads M.Machine (λ shelf answer. IsFound answer (found_input shelf (input_view input.now))) machine.old machine.new result }
{
    match input {
        Input::Cards(_) => Ok(Ok(RecordInput {
            attr: None,
            start: None,
        })),
        Input::From { set, member } => find_source(machine, set, *member),
    }
}

/// The format of an input with these attributes, or of cards.
pub fn input_format(attr: &Option<Attr>) -> Format
    ensures { result ≡ format_with attr.now }
{
    match attr {
        Some(attr) => format_in(attr),
        None => CARDS,
    }
}
