//! The parts of lines of a listing.
ghost use Rattle.std.specs.Prelude.{◌≡◌, ◌++◌, OnOk};
ghost use Rattle.ebcdic_names.specs.Names.{shown};
ghost use Rattle.util_syntax.specs.Lines.{card_number, next_word};

use ebcdic_names::{to_ascii, without_blanks};
use itoa::Buffer;
use std::alloc::AllocError;

// As many zeros as a card's number has digits, at least.
const ZEROS: [u8; 5] = [b'0'; 5];

// Adds a card's number, in at least five digits.
#[tactic(auto, unfolding(crate::specs::Lines::card_number))]
pub fn push_card(line: &mut Vec<u8>, card: u32) -> Result<(), AllocError>
    ensures { OnOk result (line.new.items ≡ line.old.items ++ card_number card) }
{
    let mut buffer = Buffer::new();
    let digits = buffer.format(card);
    line.extend_from_slice(&ZEROS[..ZEROS.len().saturating_sub(digits.len())])?;
    line.extend_from_slice(digits.as_bytes())
}

// Adds a word after a blank.
pub fn push_word(line: &mut Vec<u8>, word: &[u8]) -> Result<(), AllocError>
    ensures { OnOk result (line.new.items ≡ line.old.items ++ next_word word.now) }
{
    line.push(b' ')?;
    line.extend_from_slice(word)
}

// Adds a name in ASCII, without the blanks after it.
#[tactic(auto, unfolding(ebcdic_names::specs::Names::shown))]
pub fn push_shown(line: &mut Vec<u8>, name: &[u8]) -> Result<(), AllocError>
    ensures { OnOk result (line.new.items ≡ line.old.items ++ shown name.now) }
{
    for byte in without_blanks(name) {
        line.push(to_ascii(*byte))?;
    }
    Ok(())
}
