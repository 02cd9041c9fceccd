//! The values of operands: words, texts in quotes and lists.
ghost use Rattle.std.specs.Prelude.{◌≡◌, ◌<◌, ◌≤◌, ◌+◌, [], length, map, IfOk, option_map};
ghost use Rattle.std.specs.List.{slice_split};
ghost use Rattle.card_text.specs.Nesting.{is_separator};
ghost use Rattle.card_text.specs.Values.{in_word, has_word_characters, is_word, is_closing_quote, is_in_quotes, has_quotes_around, is_quoted, text_of, kept, unquoted, opens, closes, all_deeper, inner, item, items, lists, value};
ghost use Rattle.card_text.specs.Tree.{as_list, as_word, trees, value_view};

use crate::nesting::{Mark, first_piece};
use crate::text::Text;
use std::alloc::{AllocError, Global};

/// How deep lists nest in an operand, in this project's profile.
pub const LEVELS: u8 = 8;

/// The value of an operand (Utilities GC28-6586).
#[derive(Drop)]
pub enum Value {
    /// Nothing between two commas. It stands in lists alone.
    Empty,
    /// A word: characters other than `,`, `(`, `)`, `'`, `=` and the blank.
    Word(Text),
    /// A text in quotes, without them, and with one quote for each two within it.
    Quoted(Text),
    /// The items in parentheses, at least one.
    List(Vec<Value>),
}

impl Value {
    /// The word, if this is one.
    pub fn as_word(&self) -> Option<&[u8]>
        ensures { option_map (λ text. text.now) result ≡ as_word (value_view self.now) }
    {
        match self {
            Value::Word(text) => Some(text.as_slice()),
            _ => None,
        }
    }

    /// The items, if this is a list.
    pub fn as_list(&self) -> Option<&[Value]>
        ensures { option_map (λ items. trees (map value_view items.now)) result
            ≡ as_list (value_view self.now) }
    {
        match self {
            Value::List(items) => Some(items),
            _ => None,
        }
    }
}

impl Mark {
    // Whether this may stand in a word.
    fn in_word(&self) -> bool
        ensures { result ≡ in_word self.now }
    {
        !matches!(
            self.character.byte,
            b',' | b'(' | b')' | b'\'' | b'=' | b' '
        )
    }

    // Whether this is a quote that ends what is in quotes.
    fn is_closing_quote(&self) -> bool
        ensures { result ≡ is_closing_quote self.now }
    {
        self.character.byte == b'\'' && self.character.quoted
    }

    // Whether this is in quotes or a quote.
    fn is_in_quotes(&self) -> bool
        ensures { result ≡ is_in_quotes self.now }
    {
        self.character.byte == b'\'' || self.character.quoted
    }
}

fn has_word_characters(text: &[Mark]) -> bool
    ensures { result ≡ has_word_characters text.now }
{
    text.iter().all(|mark| mark.in_word())
}

/// Whether a text is a word: not empty, and without `,`, `(`, `)`, `'`, `=` and blanks.
pub fn is_word(text: &[Mark]) -> bool
    ensures { result ≡ is_word text.now }
{
    !text.is_empty() && has_word_characters(text)
}

fn has_quotes_around(text: &[Mark]) -> bool
    ensures { result ≡ has_quotes_around text.now }
{
    text.iter().all(|mark| mark.is_in_quotes())
}

/// Whether a text is in quotes as a whole.
pub fn is_quoted(text: &[Mark]) -> bool
    ensures { result ≡ is_quoted text.now }
{
    !text.is_empty() && has_quotes_around(text)
}

/// The characters without their places.
///
/// The one error is want of memory.
pub fn text_of(alloc: Global, text: &[Mark]) -> Result<Text, AllocError>
    ensures { IfOk result (λ bytes. bytes ≡ text_of text.now) }
{
    let bytes = text.iter().map(|mark| mark.character.byte).collect(alloc)?;
    Ok(Text::from_vec(bytes))
}

// The characters but the quotes that end what is in quotes.
fn kept(alloc: Global, text: &[Mark]) -> Result<Vec<u8>, AllocError>
    ensures { IfOk result (λ bytes. bytes.items ≡ kept text.now) }
{
    text.iter()
        .filter(|mark| !mark.is_closing_quote())
        .map(|mark| mark.character.byte)
        .collect(alloc)
}

/// What a text that is in quotes as a whole has between them, with one quote for each two.
///
/// The one error is want of memory.
pub fn unquoted(alloc: Global, text: &[Mark]) -> Result<Text, AllocError>
    requires { 0 < length text.now }
    ensures { IfOk result (λ bytes. bytes ≡ unquoted text.now) }
{
    Ok(Text::from_vec(kept(alloc, &text[1..])?))
}

impl Mark {
    // Whether this opens a parenthesis within that many others.
    fn opens(&self, depth: usize) -> bool
        ensures { result ≡ opens depth self.now }
    {
        self.character.byte == b'(' && !self.character.quoted && self.depth == depth
    }

    // Whether this closes a parenthesis.
    fn closes(&self) -> bool
        ensures { result ≡ closes self.now }
    {
        self.character.byte == b')' && !self.character.quoted
    }
}

// Whether all characters are in more than that many parentheses.
fn all_deeper(depth: usize, text: &[Mark]) -> bool
    ensures { result ≡ all_deeper depth text.now }
{
    text.iter().all(|mark| mark.depth > depth)
}

/// What stands in the parentheses around a whole text, which has `depth` parentheses around it.
pub fn inner(depth: usize, text: &[Mark]) -> Option<&[Mark]>
    ensures { option_map (λ within. within.now) result ≡ inner depth text.now }
{
    if text.len() < 2 {
        return None;
    }
    let last = text.len() - 1;
    if text[0].opens(depth) && text[last].closes() && all_deeper(depth, &text[1..]) {
        Some(&text[1..last])
    } else {
        None
    }
}

/// The value that a text is, if it is a word, a text in quotes or a list.
///
/// The text has `depth` parentheses around it, and lists nest at most `levels` deep in it. The one error is want of
/// memory.
#[cycle(read)]
pub fn read_value(
    alloc: Global,
    levels: u8,
    depth: usize,
    text: &[Mark],
) -> Result<Option<Value>, AllocError>
    requires { depth + levels ≤ 255 }
    ensures { IfOk result (λ v. option_map value_view v ≡ value levels depth text.now) }
{
    if is_word(text) {
        return Ok(Some(Value::Word(text_of(alloc, text)?)));
    }
    if is_quoted(text) {
        return Ok(Some(Value::Quoted(unquoted(alloc, text)?)));
    }
    match list(alloc, levels, depth, text)? {
        Some(items) => Ok(Some(Value::List(items))),
        None => Ok(None),
    }
}

// The items of a text that is a list.
#[cycle(read)]
#[tactic(auto, using(crate::proofs::Levels::levels))]
fn list(
    alloc: Global,
    levels: u8,
    depth: usize,
    text: &[Mark],
) -> Result<Option<Vec<Value>>, AllocError>
    requires { depth + levels ≤ 255 }
    ensures { IfOk result (λ v. option_map (λ vs. map value_view vs.items) v ≡ lists levels depth text.now) }
{
    if levels == 0 {
        return Ok(None);
    }
    match inner(depth, text) {
        Some(within) => items(alloc, levels - 1, depth + 1, within),
        None => Ok(None),
    }
}

// An item of a list, which may be empty.
#[cycle(read)]
fn item(alloc: Global, levels: u8, depth: usize, text: &[Mark]) -> Result<Option<Value>, AllocError>
    requires { depth + levels ≤ 255 }
    ensures { IfOk result (λ v. option_map value_view v ≡ item (value levels depth) text.now) }
{
    if text.is_empty() {
        Ok(Some(Value::Empty))
    } else {
        read_value(alloc, levels, depth, text)
    }
}

// The items of a list.
#[cycle(read)]
fn items(
    alloc: Global,
    levels: u8,
    depth: usize,
    text: &[Mark],
) -> Result<Option<Vec<Value>>, AllocError>
    requires { depth + levels ≤ 255 }
    ensures { IfOk result (λ v. option_map (λ vs. map value_view vs.items) v
        ≡ items (value levels depth) [] (slice_split (is_separator depth) text.now)) }
{
    let mut found = Vec::new(alloc);
    let mut rest = text;
    'pieces: loop {
        let (piece, others) = first_piece(depth, rest);
        match item(alloc, levels, depth, piece)? {
            Some(value) => found.push(value)?,
            None => return Ok(None),
        }
        match others {
            Some(behind) => rest = behind,
            None => return Ok(Some(found)),
        }
    }
}
