//! Records of source members.
ghost use Rattle.std.specs.Prelude.{◌≡◌, ◌≤◌, ◌++◌, ◌∷◌, [], take, drop, map, IfOk};
ghost use Rattle.ebcdic_names.specs.Names.{byte_of};
ghost use Rattle.update_forms.specs.Records.{eight_digits, is_before, last_digit, record_of, sequence, stands_before, with_number};

use card_text::Card;
use ebcdic_names::to_ebcdic;
use std::alloc::{AllocError, Global};

/// A card as a record of a source member, in EBCDIC. Columns 73 to 80 are its sequence number.
#[derive(Clone, Copy, Debug, PartialEq, Eq)]
pub struct CardRecord {
    /// Columns 1 to 80.
    pub bytes: [u8; 80],
}

// How many columns stand before the sequence number.
const TEXT: usize = 72;

// The byte of a character in EBCDIC.
#[tactic(auto, unfolding(ebcdic_names::specs::Names::byte_of))]
fn byte_of(character: u8) -> u8
    ensures { result ≡ byte_of character }
{
    to_ebcdic(character).unwrap_or(0x40)
}

/// A card in EBCDIC; a blank stands for a character that has no byte there.
pub fn record_of(card: &Card) -> CardRecord
    ensures { result ≡ record_of card.now }
{
    let mut bytes = [0x40; 80];
    for at in 0..80 {
        bytes[at] = byte_of(card.bytes[at]);
    }
    CardRecord { bytes }
}

// The last digit of a number in EBCDIC.
fn last_digit(n: u32) -> u8
    ensures { result ≡ last_digit n }
{
    0xF0 + (n % 10) as u8
}

// The last eight digits of a number.
#[tactic(auto, unfolding(crate::specs::Records::eight_digits))]
pub fn eight_digits(n: u32) -> [u8; 8]
    ensures { result ≡ eight_digits n }
{
    [
        last_digit(n / 10_000_000),
        last_digit(n / 1_000_000),
        last_digit(n / 100_000),
        last_digit(n / 10_000),
        last_digit(n / 1_000),
        last_digit(n / 100),
        last_digit(n / 10),
        last_digit(n),
    ]
}

// The text of a record in front of its sequence number.
fn text(rec: &[u8]) -> &[u8]
    ensures { result.now ≡ take 72 rec.now }
{
    if rec.len() < TEXT {
        return rec;
    }
    &rec[..TEXT]
}

/// A record with this number as its sequence. The one error is want of memory.
#[tactic(auto, unfolding(crate::specs::Records::with_number))]
pub fn with_number(alloc: Global, n: u32, rec: &[u8]) -> Result<Vec<u8>, AllocError>
    ensures { IfOk result (λ new. new.items ≡ with_number n rec.now) }
{
    let mut new = Vec::from_slice(alloc, text(rec))?;
    new.extend_from_slice(&eight_digits(n))?;
    Ok(new)
}

/// Whether one sequence stands before another.
#[tactic(auto, unfolding(crate::specs::Records::stands_before))]
pub fn stands_before(sequence: &[u8], other: &[u8]) -> bool
    ensures { result ≡ stands_before sequence.now other.now }
{
    sequence.cmp(other).is_lt()
}

/// The sequence of a record.
pub fn sequence(rec: &[u8]) -> &[u8]
    ensures { result.now ≡ sequence rec.now }
{
    if rec.len() < TEXT {
        return &[];
    }
    &rec[TEXT..]
}

/// Whether the sequence of one record stands before that of another.
pub fn is_before(rec: &[u8], other: &[u8]) -> bool
    ensures { result ≡ is_before rec.now other.now }
{
    stands_before(sequence(rec), sequence(other))
}
