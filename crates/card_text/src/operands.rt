//! Operands: values, and values after a keyword.
ghost use Rattle.std.specs.Prelude.{◌≡◌, ◌<◌, length, position, IfOk, IfSome, option_map};
ghost use Rattle.card_text.specs.Operands.{is_equals, keyed, serial_value, pair, keyed_value, with_key, operand, operand_view};
ghost use Rattle.card_text.specs.Tree.{value_view};

use crate::names::name_of;
use crate::nesting::Mark;
use crate::values::{LEVELS, Value, is_quoted, is_word, read_value, text_of};
use ebcdic_names::Name8;
use std::alloc::{AllocError, Global};

/// An operand of a statement.
#[derive(Drop)]
pub struct Operand {
    /// Its keyword, if it has one.
    pub key: Option<Name8>,
    /// Its value.
    pub value: Value,
}

impl Mark {
    // Whether this is an equals sign.
    fn is_equals(&self) -> bool
        ensures { result ≡ is_equals self.now }
    {
        self.character.byte == b'='
    }
}

// The index of the first equals sign.
fn equals_at(text: &[Mark]) -> Option<usize>
    ensures at { result ≡ position is_equals text.now }
    ensures within { IfSome result (λ at. at < length text.now) }
{
    text.iter().position(|mark| mark.is_equals())
}

/// The word before the first equals sign and what follows that sign, if a word stands there.
pub fn keyed(text: &[Mark]) -> Option<(&[Mark], &[Mark])>
    ensures { option_map (λ parts. (parts.0.now, parts.1.now)) result ≡ keyed text.now }
{
    match equals_at(text) {
        Some(at) if is_word(&text[..at]) => Some((&text[..at], &text[at + 1..])),
        _ => None,
    }
}

// The value after a device word: a word or a list.
fn serial_value(alloc: Global, text: &[Mark]) -> Result<Option<Value>, AllocError>
    ensures { IfOk result (λ v. option_map value_view v ≡ serial_value text.now) }
{
    if is_quoted(text) {
        Ok(None)
    } else {
        read_value(alloc, LEVELS, 0, text)
    }
}

// The list of a device word and the value after it.
fn pair(alloc: Global, device: &[Mark], value: Value) -> Result<Value, AllocError>
    ensures { IfOk result (λ v. value_view v ≡ pair device.now (value_view value)) }
{
    let mut items = Vec::new(alloc);
    items.push(Value::Word(text_of(alloc, device)?))?;
    items.push(value)?;
    Ok(Value::List(items))
}

// The value after a keyword.
fn keyed_value(alloc: Global, text: &[Mark]) -> Result<Option<Value>, AllocError>
    ensures { IfOk result (λ v. option_map value_view v ≡ keyed_value text.now) }
{
    let Some((device, behind)) = keyed(text) else {
        return read_value(alloc, LEVELS, 0, text);
    };
    match serial_value(alloc, behind)? {
        Some(value) => Ok(Some(pair(alloc, device, value)?)),
        None => Ok(None),
    }
}

// The operand of a keyword and what follows its equals sign.
fn with_key(alloc: Global, key: &[Mark], text: &[Mark]) -> Result<Option<Operand>, AllocError>
    ensures { IfOk result (λ o. option_map operand_view o ≡ with_key key.now text.now) }
{
    let Some(name) = name_of(text_of(alloc, key)?.as_slice()) else {
        return Ok(None);
    };
    match keyed_value(alloc, text)? {
        Some(value) => Ok(Some(Operand {
            key: Some(name),
            value,
        })),
        None => Ok(None),
    }
}

/// The operand that a text is, if it has one of the forms that statements take (Utilities GC28-6586).
///
/// It is a value, or `KEY=` and a value, where the keyword is a name of one level. After `KEY=`, `dev=serial` and
/// `dev=(serial,..)` are the list of the word and the value. The text has no parentheses around it, and lists nest at
/// most eight deep in it. The one error is want of memory.
pub fn read_operand(alloc: Global, text: &[Mark]) -> Result<Option<Operand>, AllocError>
    ensures { IfOk result (λ o. option_map operand_view o ≡ operand text.now) }
{
    if let Some((key, behind)) = keyed(text) {
        return with_key(alloc, key, behind);
    }
    match read_value(alloc, LEVELS, 0, text)? {
        Some(value) => Ok(Some(Operand { key: None, value })),
        None => Ok(None),
    }
}
