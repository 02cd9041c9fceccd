//! Characters in parentheses.
ghost use Rattle.std.specs.Prelude.{◌≡◌, ◌<◌, ◌+◌, ◌^◌, ◌∷◌, length, drop, position, IfOk, IfSome};
ghost use Rattle.std.specs.List.{list_any, slice_split};
ghost use Rattle.card_text.specs.Nesting.{depth_behind, nested, is_separator, other_pieces, closes_none, is_open_behind, ends_open, is_unbalanced};

use crate::characters::{Character, quoted_behind};
use std::alloc::{AllocError, Global};

/// A character with the number of parentheses around it.
#[derive(Clone, Copy, Debug, PartialEq, Eq)]
pub struct Mark {
    /// The character.
    pub character: Character,
    /// How many parentheses are open before it.
    pub depth: usize,
}

// The number of parentheses that are open after a character.
fn depth_behind(depth: usize, character: &Character) -> usize
    requires { depth + 1 < 2 ^ 64 }
    ensures { result ≡ depth_behind depth character.now }
{
    if character.quoted {
        return depth;
    }
    match character.byte {
        b'(' => depth + 1,
        b')' => depth.saturating_sub(1),
        _ => depth,
    }
}

/// Each character with the number of parentheses around it. Parentheses in quotes don't count.
///
/// The one error is want of memory.
pub fn nested(alloc: Global, text: &[Character]) -> Result<Vec<Mark>, AllocError>
    ensures { IfOk result (λ marks. marks.items ≡ nested 0 text.now) }
{
    let mut depth = 0;
    let mut marks = Vec::new(alloc);
    for character in text {
        marks.push(Mark {
            character: *character,
            depth,
        })?;
        depth = depth_behind(depth, character);
    }
    Ok(marks)
}

impl Mark {
    // Whether this is a comma outside quotes with that many parentheses around it.
    fn is_separator(&self, depth: usize) -> bool
        ensures { result ≡ is_separator depth self.now }
    {
        self.character.byte == b',' && !self.character.quoted && self.depth == depth
    }

    // Whether this is a closing parenthesis that closes none.
    fn closes_none(&self) -> bool
        ensures { result ≡ closes_none self.now }
    {
        self.character.byte == b')' && !self.character.quoted && self.depth == 0
    }
}

// The index of the first comma of that depth.
fn comma_at(depth: usize, marks: &[Mark]) -> Option<usize>
    ensures at { result ≡ position (is_separator depth) marks.now }
    ensures within { IfSome result (λ at. at < length marks.now) }
{
    marks.iter().position(|mark| mark.is_separator(depth))
}

/// The piece up to the first comma outside quotes that has `depth` parentheses around it, and what follows the comma.
#[tactic(auto, using(crate::proofs::Lists::cuts))]
pub fn first_piece(depth: usize, marks: &[Mark]) -> (&[Mark], Option<&[Mark]>)
    ensures pieces { slice_split (is_separator depth) marks.now ≡ result.0.now ∷ other_pieces depth result.1 }
    ensures shorter { IfSome result.1 (λ rest. length rest.now < length marks.now) }
    ensures behind { IfSome result.1 (λ rest. rest.now ≡ drop (length result.0.now + 1) marks.now) }
{
    match comma_at(depth, marks) {
        Some(at) => (&marks[..at], Some(&marks[at + 1..])),
        None => (marks, None),
    }
}

// Whether a parenthesis is open after a character.
fn is_open_behind(mark: &Mark) -> bool
    ensures { result ≡ is_open_behind mark.now }
{
    match mark.character.byte {
        b'(' if !mark.character.quoted => true,
        b')' if !mark.character.quoted => mark.depth > 1,
        _ => mark.depth != 0,
    }
}

// Whether a piece ends within quotes or parentheses.
fn ends_open(piece: &[Mark]) -> bool
    ensures { result ≡ ends_open piece.now }
{
    match piece.last() {
        Some(last) => quoted_behind(last.character.quoted, last.character.byte)
            || is_open_behind(last),
        None => false,
    }
}

// Whether a piece has a parenthesis that closes none.
fn has_stray(piece: &[Mark]) -> bool
    ensures { result ≡ list_any closes_none piece.now }
{
    piece.iter().any(|mark| mark.closes_none())
}

/// Whether a parenthesis or a quote of a piece has no partner in it.
pub fn is_unbalanced(piece: &[Mark]) -> bool
    ensures { result ≡ is_unbalanced piece.now }
{
    has_stray(piece) || ends_open(piece)
}
