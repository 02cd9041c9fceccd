//! DSN.
ghost use Rattle.std.specs.Prelude.{◌≡◌, option_map};
ghost use Rattle.jcl_forms.specs.DataSet.{part_of, closed_part, part_behind, takes_name, data_set_of};

use crate::numbers::number_below;
use crate::parts::parted;
use card_text::{data_set_name_of, name_of};
use ebcdic_names::{Dsn, Name8};

/// What a DSN means of the set, or of the generation group, that it names.
#[derive(Clone, Copy, Debug, PartialEq, Eq)]
pub enum DdPart {
    /// The whole set.
    Whole,
    /// A member of a partitioned set.
    Member(Name8),
    /// A generation of a group, counted from its newest, which is 0.
    Generation(i32),
}

// What the text between the parentheses after a name means.
#[tactic(auto, unfolding(crate::specs::DataSet::part_of))]
fn part_of(text: &[u8]) -> Option<DdPart>
    ensures { result ≡ part_of text.now }
{
    match text {
        [] => None,
        [b'0'] => Some(DdPart::Generation(0)),
        [b'+', digits @ ..] => Some(DdPart::Generation(number_below(1 << 31, digits)? as i32)),
        [b'-', digits @ ..] => Some(DdPart::Generation(-(number_below(1 << 31, digits)? as i32))),
        _ => Some(DdPart::Member(name_of(text)?)),
    }
}

// What a text means that ends in a closing parenthesis.
#[tactic(auto, unfolding(crate::specs::DataSet::closed_part))]
fn closed_part(text: &[u8]) -> Option<DdPart>
    ensures { result ≡ closed_part text.now }
{
    match text.last() {
        Some(b')') => part_of(&text[..text.len() - 1]),
        _ => None,
    }
}

// What is meant by the text after an opening parenthesis, if there is one.
fn part_behind(text: Option<&[u8]>) -> Option<DdPart>
    ensures { result ≡ part_behind (option_map (λ t. t.now) text.entry) }
{
    match text {
        Some(text) => closed_part(text),
        None => Some(DdPart::Whole),
    }
}

// Whether a name leaves the room that its part needs.
fn takes_name(part: DdPart, name: &[u8]) -> bool
    ensures { result ≡ takes_name part name.now }
{
    match part {
        DdPart::Generation(_) => name.len() < 36,
        _ => true,
    }
}

/// The name that a value of DSN gives, and what of it is meant: `name`, `name(member)`, `name(+n)`, `name(0)` or `name(-n)`.
///
/// The name of a group has at most 35 characters.
#[tactic(auto, unfolding(crate::specs::DataSet::data_set_of))]
pub fn data_set_of(text: &[u8]) -> Option<(Dsn, DdPart)>
    ensures { result ≡ data_set_of text.now }
{
    let (name, behind) = parted(b'(', text);
    let part = part_behind(behind)?;
    if takes_name(part, name) {
        Some((data_set_name_of(name)?, part))
    } else {
        None
    }
}
