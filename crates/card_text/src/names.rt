//! Names and numbers on cards.
ghost use Rattle.std.specs.Prelude.{◌≡◌, ◌≤◌, length, true};
ghost use Rattle.card_text.specs.Names.{has_only_ascii, name_of, data_set_name_of, volume_serial_of, is_digit, has_only_digits, decimal_value, number_of};

use ebcdic_names::{Dsn, Name8, Serial};

// The digits that a number may have.
const DIGITS: usize = 8;

fn has_only_ascii(text: &[u8]) -> bool
    ensures { result ≡ has_only_ascii text.now }
{
    text.iter().all(|byte| *byte < 128)
}

/// The name that a text is, if it is one level without a hyphen, as `Name8::read` takes it.
#[tactic(auto, using(crate::proofs::Ascii::ascii))]
pub fn name_of(text: &[u8]) -> Option<Name8>
    ensures { result ≡ name_of text.now }
{
    if !has_only_ascii(text) {
        return None;
    }
    match str::from_utf8(text) {
        Ok(text) => Name8::read(text).ok(),
        Err(_) => None,
    }
}

/// The data set name that a text is, if `Dsn::read` takes it.
#[tactic(auto, using(crate::proofs::Ascii::ascii))]
pub fn data_set_name_of(text: &[u8]) -> Option<Dsn>
    ensures { result ≡ data_set_name_of text.now }
{
    if !has_only_ascii(text) {
        return None;
    }
    match str::from_utf8(text) {
        Ok(text) => Dsn::read(text).ok(),
        Err(_) => None,
    }
}

/// The volume serial that a text is, if `Serial::read` takes it.
#[tactic(auto, using(crate::proofs::Ascii::ascii))]
pub fn volume_serial_of(text: &[u8]) -> Option<Serial>
    ensures { result ≡ volume_serial_of text.now }
{
    if !has_only_ascii(text) {
        return None;
    }
    match str::from_utf8(text) {
        Ok(text) => Serial::read(text).ok(),
        Err(_) => None,
    }
}

fn is_digit(byte: u8) -> bool
    ensures { result ≡ is_digit byte }
{
    byte >= b'0' && byte <= b'9'
}

fn has_only_digits(text: &[u8]) -> bool
    ensures { result ≡ has_only_digits text.now }
{
    text.iter().all(|byte| is_digit(*byte))
}

// The number that up to eight digits write.
#[tactic(auto, using(crate::proofs::Digits::digits))]
fn decimal_value(digits: &[u8]) -> u32
    requires short { length digits.now ≤ 8 }
    requires digits { has_only_digits digits.now ≡ true }
    ensures { result ≡ decimal_value 0 digits.now }
{
    let mut number = 0u32;
    for byte in digits {
        number = 10 * number + u32::from(*byte - b'0');
    }
    number
}

/// The number that a text writes in decimal, if it is one to eight digits.
pub fn number_of(text: &[u8]) -> Option<u32>
    ensures { result ≡ number_of text.now }
{
    if text.is_empty() || text.len() > DIGITS || !has_only_digits(text) {
        return None;
    }
    Some(decimal_value(text))
}
