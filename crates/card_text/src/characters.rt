//! The characters of cards, each with its place.
ghost use Rattle.std.specs.Prelude.{◌≡◌, ◌<◌, ◌≤◌, length, not, position, IfOk, IfSome};
ghost use Rattle.card_text.specs.Characters.{quoted_behind, characters_of, is_blank, is_field_end, first_word, behind_word, past_blanks, field_part, in_quotes, ends_in_comma, bytes_of};

use std::alloc::{AllocError, Global};

/// A character of a card with its place.
#[derive(Clone, Copy, Debug, PartialEq, Eq)]
pub struct Character {
    /// The character, in ASCII.
    pub byte: u8,
    /// Whether an odd number of quotes stands before it in the statement's operands.
    pub quoted: bool,
    /// The number of its card in the deck, from 1.
    pub card: u32,
    /// Its column, from 1.
    pub column: u8,
}

// Whether what follows a character is in quotes.
pub fn quoted_behind(quoted: bool, byte: u8) -> bool
    ensures { result ≡ quoted_behind quoted byte }
{
    if byte == b'\'' { !quoted } else { quoted }
}

/// The characters of the first columns of the card of this number, which begin in quotes where `quoted` says so.
///
/// The one error is want of memory.
pub fn characters_of(
    alloc: Global,
    quoted: bool,
    card: u32,
    columns: &[u8],
) -> Result<Vec<Character>, AllocError>
    requires { length columns.now ≤ 80 }
    ensures { IfOk result (λ text. text.items ≡ characters_of quoted card 1 columns.now) }
{
    let mut quoted = quoted;
    let mut column = 1;
    let mut text = Vec::new(alloc);
    for byte in columns {
        text.push(Character {
            byte: *byte,
            quoted,
            card,
            column,
        })?;
        quoted = quoted_behind(quoted, *byte);
        column += 1;
    }
    Ok(text)
}

impl Character {
    fn is_blank(&self) -> bool
        ensures { result ≡ is_blank self.now }
    {
        self.byte == b' '
    }

    // Whether this is a blank outside quotes.
    fn is_field_end(&self) -> bool
        ensures { result ≡ is_field_end self.now }
    {
        self.byte == b' ' && !self.quoted
    }
}

// The index of the first blank.
fn blank_at(text: &[Character]) -> Option<usize>
    ensures at { result ≡ position is_blank text.now }
    ensures within { IfSome result (λ at. at < length text.now) }
{
    text.iter().position(|c| c.is_blank())
}

/// The word in front, up to the first blank, and what follows it, from that blank on.
#[tactic(auto, using(crate::proofs::Lists::cuts))]
pub fn first_word(text: &[Character]) -> (&[Character], &[Character])
    ensures word { result.0.now ≡ first_word text.now }
    ensures behind { result.1.now ≡ behind_word text.now }
{
    match blank_at(text) {
        Some(at) => (&text[..at], &text[at..]),
        None => (text, &[]),
    }
}

// The index of the first character that isn't a blank.
fn nonblank_at(text: &[Character]) -> Option<usize>
    ensures at { result ≡ position (λ c. not (is_blank c)) text.now }
    ensures within { IfSome result (λ at. at < length text.now) }
{
    text.iter().position(|c| !c.is_blank())
}

/// The characters from the first on that isn't a blank.
#[tactic(auto, using(crate::proofs::Lists::cuts))]
pub fn past_blanks(text: &[Character]) -> &[Character]
    ensures { result.now ≡ past_blanks text.now }
{
    match nonblank_at(text) {
        Some(at) => &text[at..],
        None => &[],
    }
}

// The index of the first blank outside quotes.
fn field_end_at(text: &[Character]) -> Option<usize>
    ensures at { result ≡ position is_field_end text.now }
    ensures within { IfSome result (λ at. at < length text.now) }
{
    text.iter().position(|c| c.is_field_end())
}

/// The characters up to the first blank outside quotes.
#[tactic(auto, using(crate::proofs::Lists::cuts))]
pub fn field_part(text: &[Character]) -> &[Character]
    ensures { result.now ≡ field_part text.now }
{
    match field_end_at(text) {
        Some(at) => &text[..at],
        None => text,
    }
}

/// Whether what follows these characters is in quotes.
pub fn in_quotes(field: &[Character]) -> bool
    ensures { result ≡ in_quotes field.now }
{
    match field.last() {
        Some(last) => quoted_behind(last.quoted, last.byte),
        None => false,
    }
}

/// Whether these characters end in a comma outside quotes.
pub fn ends_in_comma(field: &[Character]) -> bool
    ensures { result ≡ ends_in_comma field.now }
{
    match field.last() {
        Some(last) => last.byte == b',' && !last.quoted,
        None => false,
    }
}

/// The characters without their places.
///
/// The one error is want of memory.
pub fn bytes_of(alloc: Global, text: &[Character]) -> Result<Vec<u8>, AllocError>
    ensures { IfOk result (λ bytes. bytes.items ≡ bytes_of text.now) }
{
    text.iter().map(|c| c.byte).collect(alloc)
}
