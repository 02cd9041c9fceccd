//! The operands of statements by their keywords, and the forms of their values.
ghost use Rattle.std.specs.Prelude.{◌≡◌, map, find, count_by, option_map, option_and_then, IfOk, IfSome};
ghost use Rattle.std.specs.Option.{option_copied};
ghost use Rattle.card_text.specs.declared.operands.Operand.{Operand};
ghost use Rattle.card_text.specs.Operands.{operand_view};
ghost use Rattle.card_text.specs.Tree.{as_list, as_word, trees, value_view};
ghost use Rattle.util_syntax.specs.Forms.{IsMemberName, member_in, member_of, is_named, has_keyword, is_flag, value_of, flag_of, if_given, data_set_in, pair_of, is_device_word, serial_behind, volume_in, data_set_of, volume_of, data_sets_among, data_sets_in};

use card_text::{Operand, Value, data_set_name_of, name_of, volume_serial_of};
use ckd_image::DiskType;
use ebcdic_names::{Dsn, Name8, Serial};
use std::alloc::{AllocError, Global};

// The devices that a card can name.
const DEVICES: [DiskType; 4] = [
    DiskType::D2311,
    DiskType::D2314,
    DiskType::D3330,
    DiskType::D3350,
];

/// Whether a name is this word in ASCII.
#[tactic(auto, unfolding(crate::specs::Forms::is_named))]
pub fn is_named(name: &Name8, word: &[u8]) -> bool
    ensures { result ≡ is_named word.now name.now }
{
    match name_of(word) {
        Some(other) => other == *name,
        None => false,
    }
}

/// Whether an operand has this keyword.
pub fn has_keyword(operand: &Operand, word: &[u8]) -> bool
    ensures { result ≡ has_keyword word.now (operand_view operand.now) }
{
    match &operand.key {
        Some(key) => is_named(key, word),
        None => false,
    }
}

/// Whether an operand is this word alone.
pub fn is_flag(operand: &Operand, word: &[u8]) -> bool
    ensures { result ≡ is_flag word.now (operand_view operand.now) }
{
    if operand.key.is_some() {
        return false;
    }
    match operand.value.as_word() {
        Some(text) => word == text,
        None => false,
    }
}

// How many operands have this keyword.
fn keyword_count(operands: &[Operand], word: &[u8]) -> usize
    ensures { result ≡ count_by (has_keyword word.now) (map operand_view operands.now) }
{
    operands
        .iter()
        .filter(|operand| has_keyword(operand, word))
        .count()
}

// How many operands are this word alone.
fn flag_count(operands: &[Operand], word: &[u8]) -> usize
    ensures { result ≡ count_by (is_flag word.now) (map operand_view operands.now) }
{
    operands
        .iter()
        .filter(|operand| is_flag(operand, word))
        .count()
}

// The first operand with this keyword.
fn first_with<'a>(operands: &'a [Operand], word: &[u8]) -> Option<&'a Operand>
    ensures { option_copied result ≡ find (λ (o : Operand). has_keyword word.now (operand_view o)) operands.now }
{
    operands.iter().find(|operand| has_keyword(operand, word))
}

// The same over the views of the operands.
fn first_seen<'a>(operands: &'a [Operand], word: &[u8]) -> Option<&'a Operand>
    ensures { option_map (λ o. operand_view o.now) result ≡ find (has_keyword word.now) (map operand_view operands.now) }
{
    first_with(operands, word)
}

/// The value of the operand with a keyword, if one operand has it, and no second.
#[tactic(auto, unfolding(crate::specs::Forms::value_of))]
pub fn value_of<'a>(operands: &'a [Operand], word: &[u8]) -> Option<&'a Value>
    ensures { option_map (λ v. value_view v.now) result ≡ value_of word.now (map operand_view operands.now) }
{
    if keyword_count(operands, word) != 1 {
        return None;
    }
    match first_seen(operands, word) {
        Some(operand) => Some(&operand.value),
        None => None,
    }
}

/// Whether a word stands among the operands; `None` where it stands twice.
#[tactic(auto, unfolding(crate::specs::Forms::flag_of))]
pub fn flag_of(operands: &[Operand], word: &[u8]) -> Option<bool>
    ensures { result ≡ flag_of word.now (map operand_view operands.now) }
{
    match flag_count(operands, word) {
        0 => Some(false),
        1 => Some(true),
        _ => None,
    }
}

/// The data set name that a value is.
#[tactic(auto, unfolding(crate::specs::Forms::data_set_in))]
pub fn data_set_in(value: &Value) -> Option<Dsn>
    ensures { result ≡ data_set_in (value_view value.now) }
{
    match value.as_word() {
        Some(text) => data_set_name_of(text),
        None => None,
    }
}

// Whether a word names a device.
fn is_device(word: &[u8]) -> bool
    ensures { result ≡ is_device_word word.now }
{
    DEVICES
        .iter()
        .any(|device| word == device.device_word().as_bytes())
}

// The two items of a list.
fn pair_of(value: &Value) -> Option<(&Value, &Value)>
    ensures { option_map (λ pair. (value_view pair.0.now, value_view pair.1.now)) result
        ≡ option_and_then pair_of (as_list (value_view value.now)) }
{
    let items = value.as_list()?;
    let (first, others) = items.split_first()?;
    let (second, rest) = others.split_first()?;
    if rest.is_empty() {
        Some((first, second))
    } else {
        None
    }
}

// The serial of a volume after its device.
fn serial_behind(device: &Value, serial: &Value) -> Option<Serial>
    ensures { result ≡ serial_behind (as_word (value_view device.now)) (as_word (value_view serial.now)) }
{
    let device = device.as_word()?;
    let serial = serial.as_word()?;
    if is_device(device) {
        volume_serial_of(serial)
    } else {
        None
    }
}

/// The serial that a value `dev=serial` gives, where the device is `2311`, `2314`, `3330` or `3350`.
#[tactic(auto, unfolding(crate::specs::Forms::volume_in))]
pub fn volume_in(value: &Value) -> Option<Serial>
    ensures { result ≡ volume_in (value_view value.now) }
{
    match pair_of(value) {
        Some((device, serial)) => serial_behind(device, serial),
        None => None,
    }
}

/// The data set name after a keyword, if one operand has that, and no second.
#[tactic(auto, unfolding(crate::specs::Forms::data_set_of))]
pub fn data_set_of(operands: &[Operand], word: &[u8]) -> Option<Dsn>
    ensures { result ≡ data_set_of word.now (map operand_view operands.now) }
{
    match value_of(operands, word) {
        Some(value) => data_set_in(value),
        None => None,
    }
}

/// The serial of the volume after a keyword, if one operand has that, and no second.
#[tactic(auto, unfolding(crate::specs::Forms::volume_of))]
pub fn volume_of(operands: &[Operand], word: &[u8]) -> Option<Serial>
    ensures { result ≡ volume_of word.now (map operand_view operands.now) }
{
    match value_of(operands, word) {
        Some(value) => volume_in(value),
        None => None,
    }
}

// The data set names that values are.
fn data_sets_among(alloc: Global, items: &[Value]) -> Result<Option<Vec<Dsn>>, AllocError>
    ensures { IfOk result (λ found. option_map (λ v. v.items) found
        ≡ data_sets_among (trees (map value_view items.now))) }
{
    let mut names = Vec::new(alloc);
    for item in items {
        match data_set_in(item) {
            Some(name) => names.push(name)?,
            None => return Ok(None),
        }
    }
    Ok(Some(names))
}

/// The data set names that a value lists, of which one may stand without parentheses.
///
/// The one error is want of memory.
#[tactic(auto, unfolding(crate::specs::Forms::data_sets_in))]
pub fn data_sets_in(alloc: Global, value: &Value) -> Result<Option<Vec<Dsn>>, AllocError>
    ensures { IfOk result (λ found. option_map (λ v. v.items) found ≡ data_sets_in (value_view value.now)) }
{
    if let Some(items) = value.as_list() {
        return data_sets_among(alloc, items);
    }
    match data_set_in(value) {
        Some(name) => {
            let mut names = Vec::new(alloc);
            names.push(name)?;
            Ok(Some(names))
        }
        None => Ok(None),
    }
}

/// The serial of the volume after a keyword, which may be missing; `None` where it stands twice, or has another form.
#[tactic(auto, unfolding(crate::specs::Forms::if_given, crate::specs::Forms::volume_of))]
pub fn volume_if_given(operands: &[Operand], word: &[u8]) -> Option<Option<Serial>>
    ensures { result ≡ if_given volume_in word.now (map operand_view operands.now) }
{
    if keyword_count(operands, word) == 0 {
        return Some(None);
    }
    match volume_of(operands, word) {
        Some(serial) => Some(Some(serial)),
        None => None,
    }
}

/// The data set names after a keyword, which may be missing; `None` where it stands twice, or has another form.
///
/// The one error is want of memory.
#[tactic(auto, unfolding(crate::specs::Forms::if_given))]
pub fn data_sets_if_given(
    alloc: Global,
    operands: &[Operand],
    word: &[u8],
) -> Result<Option<Option<Vec<Dsn>>>, AllocError>
    ensures { IfOk result (λ found. option_map (λ o. option_map (λ v. v.items) o) found
        ≡ if_given data_sets_in word.now (map operand_view operands.now)) }
{
    if keyword_count(operands, word) == 0 {
        return Ok(Some(None));
    }
    let Some(value) = value_of(operands, word) else {
        return Ok(None);
    };
    match data_sets_in(alloc, value)? {
        Some(names) => Ok(Some(Some(names))),
        None => Ok(None),
    }
}

/// The name of a member that a value is.
#[tactic(auto, unfolding(crate::specs::Forms::member_in))]
pub fn member_in(value: &Value) -> Option<Name8>
    ensures name { result ≡ member_in (value_view value.now) }
    ensures lawful { IfSome result IsMemberName }
{
    match value.as_word() {
        Some(text) => name_of(text),
        None => None,
    }
}

/// The name of a member after a keyword, if one operand has that, and no second.
#[tactic(auto, unfolding(crate::specs::Forms::member_of))]
pub fn member_of(operands: &[Operand], word: &[u8]) -> Option<Name8>
    ensures name { result ≡ member_of word.now (map operand_view operands.now) }
    ensures lawful { IfSome result IsMemberName }
{
    match value_of(operands, word) {
        Some(value) => member_in(value),
        None => None,
    }
}
