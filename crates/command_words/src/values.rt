//! The values of options.
ghost use Rattle.std.specs.Prelude.{◌≡◌, ◌≤◌, IfSome, map};
ghost use Rattle.std.specs.Str.{bytes_eq};
ghost use Rattle.std.specs.List.{list_any};
ghost use Rattle.command_words.specs.Values.{are_distinct, device_named, number_up_to, serial_word};

use ckd_image::DiskType;
use ebcdic_names::Serial;
use jcl_forms::number_below;

/// The number of one to six digits, from 1 to `limit`, that a word is.
#[tactic(auto, unfolding(crate::specs::Values::number_up_to))]
pub fn number_up_to(limit: u16, word: &str) -> Option<u16>
    ensures value { result ≡ number_up_to limit word.now }
    ensures some { IfSome result (λ n. 1 ≤ n) }
    ensures small { IfSome result (λ n. n ≤ limit) }
{
    if word.len() > 6 {
        return None;
    }
    match number_below(u32::from(limit) + 1, word.as_bytes()) {
        None | Some(0) => None,
        Some(number) => Some(number as u16),
    }
}

/// The device that a word names: 2311, 2314, 3330 or 3350.
#[tactic(auto, unfolding(crate::specs::Values::device_named))]
pub fn device_named(word: &str) -> Option<DiskType>
    ensures { result ≡ device_named word.now }
{
    match word {
        "2311" => Some(DiskType::D2311),
        "2314" => Some(DiskType::D2314),
        "3330" => Some(DiskType::D3330),
        "3350" => Some(DiskType::D3350),
        _ => None,
    }
}

/// The serial that a word is: one to six capital letters, digits, `@`, `#` or `$`.
#[tactic(auto, unfolding(crate::specs::Values::serial_word))]
pub fn serial_word(word: &str) -> Option<Serial>
    ensures { result ≡ serial_word word.now }
{
    match Serial::read(word) {
        Ok(serial) => Some(serial),
        Err(_) => None,
    }
}

// Whether a word is one of these.
fn is_among(word: &str, words: &[&str]) -> bool
    ensures { result ≡ list_any (λ w. bytes_eq word.now w.now) words.now }
{
    words.iter().any(|other| word == *other)
}

/// Whether no two of these words are equal.
#[tactic(auto, unfolding(crate::specs::Values::are_distinct))]
pub fn are_distinct(words: &[&str]) -> bool
    ensures { result ≡ are_distinct (map (λ w. w.now) words.now) }
{
    match words.split_first() {
        None => true,
        Some((word, others)) => !is_among(word, others) && are_distinct(others),
    }
}
