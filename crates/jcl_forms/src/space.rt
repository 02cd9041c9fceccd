//! SPACE.
ghost use Rattle.std.specs.Prelude.{◌≡◌, option_map};
ghost use Rattle.jcl_forms.specs.SpaceRequest.{ask_of, amounts_of, contiguity_of, space_with, begins_list, space_behind, space_of};

use crate::numbers::number_or_zero;
use crate::parts::{inner, others, parted};
use card_text::number_of;
use vol_model::MAX_DIR;

/// The unit of the quantities of a SPACE.
#[derive(Clone, Copy, Debug, PartialEq, Eq)]
pub enum SpaceAsk {
    /// Tracks.
    Tracks,
    /// Cylinders.
    Cylinders,
    /// Blocks of this many bytes.
    Length(u32),
}

/// The space that a new set asks for.
#[derive(Clone, Copy, Debug, PartialEq, Eq)]
pub struct Space {
    /// The unit of the first two quantities.
    pub ask: SpaceAsk,
    /// What the set gets when it is made.
    pub primary: u32,
    /// What an extension adds, less than 2^24.
    pub secondary: u32,
    /// The blocks of the directory, at most [`MAX_DIR`].
    pub dir: u32,
    /// Whether the primary quantity has to be in one extent.
    pub contig: bool,
}

// The quantities of a SPACE.
#[derive(Clone, Copy)]
struct Amounts {
    primary: u32,
    secondary: u32,
    directory: u32,
}

#[tactic(auto, unfolding(crate::specs::SpaceRequest::ask_of))]
fn ask_of(word: &[u8]) -> Option<SpaceAsk>
    ensures { result ≡ ask_of word.now }
{
    if word == b"TRK".as_slice() {
        Some(SpaceAsk::Tracks)
    } else if word == b"CYL".as_slice() {
        Some(SpaceAsk::Cylinders)
    } else {
        Some(SpaceAsk::Length(number_of(word)?))
    }
}

// The quantities that a list has, without its parentheses.
#[tactic(auto, unfolding(crate::specs::SpaceRequest::amounts_of))]
fn amounts_of(text: &[u8]) -> Option<Amounts>
    ensures { result ≡ amounts_of text.now }
{
    let secondary = others(text);
    let (directory, further) = parted(b',', others(secondary));
    if further.is_some() {
        return None;
    }
    Some(Amounts {
        primary: number_of(parted(b',', text).0)?,
        secondary: number_or_zero(1 << 24, parted(b',', secondary).0)?,
        directory: number_or_zero(MAX_DIR + 1, directory)?,
    })
}

// Whether the text after the quantities asks for one extent.
#[tactic(auto, unfolding(crate::specs::SpaceRequest::contiguity_of))]
fn contiguity_of(text: &[u8]) -> Option<bool>
    ensures { result ≡ contiguity_of text.now }
{
    if text.is_empty() {
        Some(false)
    } else if text == b",,CONTIG".as_slice() {
        Some(true)
    } else {
        None
    }
}

fn space_with(
    ask: Option<SpaceAsk>,
    amounts: Option<Amounts>,
    contiguity: Option<bool>,
) -> Option<Space>
    ensures { result ≡ space_with ask amounts contiguity }
{
    let ask = ask?;
    let amounts = amounts?;
    Some(Space {
        ask,
        primary: amounts.primary,
        secondary: amounts.secondary,
        dir: amounts.directory,
        contig: contiguity?,
    })
}

fn begins_list(text: &[u8]) -> bool
    ensures { result ≡ begins_list text.now }
{
    match text.first() {
        Some(first) => *first == b'(',
        None => false,
    }
}

// The space that a unit and the text after its comma ask for.
#[tactic(auto, unfolding(crate::specs::SpaceRequest::space_behind))]
fn space_behind(unit: &[u8], text: &[u8]) -> Option<Space>
    ensures { result ≡ space_behind unit.now text.now }
{
    if begins_list(text) {
        let (amounts, rest) = parted(b')', &text[1..]);
        space_with(ask_of(unit), amounts_of(amounts), contiguity_of(rest?))
    } else {
        let (primary, _) = parted(b',', text);
        let rest = &text[primary.len()..];
        space_with(ask_of(unit), amounts_of(primary), contiguity_of(rest))
    }
}

/// The space that a value of SPACE asks for: `(TRK,..)`, `(CYL,..)` or `(length,..)` with `primary` or
/// `(primary,secondary,directory)`, then `,,CONTIG` if it has to be contiguous.
///
/// The secondary and the directory quantity may be missing or empty.
#[tactic(auto, unfolding(crate::specs::SpaceRequest::space_of))]
pub fn space_of(text: &[u8]) -> Option<Space>
    ensures { result ≡ space_of text.now }
{
    let (unit, behind) = parted(b',', inner(text)?);
    space_behind(unit, behind?)
}
