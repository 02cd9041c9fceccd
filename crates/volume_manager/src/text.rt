//! The texts that the program prints.
ghost use Rattle.std.specs.Prelude.{◌≡◌, ◌++◌, List, ℕ, IfOk, OnOk};
ghost use Rattle.volume_manager.specs.Lines.{broken_place, check_line, check_text, deck_line, exists_line, init_line, settled_word, unread_line, words_line, unit_line, name_line, names_listing};

use crate::reason::{push_deck_reason, push_number, push_reason};
use ebcdic_names::{Serial, push_name_in_ascii};
use job_deck::DeckErr;
use pack_machine::Unread;
use std::alloc::{AllocError, Global};
use vtoc_index::MountErr;

/// Where the words are refused.
pub const WORDS_LINE: &[u8; 13] = b"VOLMAN WORDS\n";

/// The line that says why a file is refused.
#[tactic(auto, unfolding(crate::specs::Lines::unit_line))]
pub fn unit_line(alloc: Global, file: &str, why: MountErr) -> Result<Vec<u8>, AllocError>
    ensures { IfOk result (λ line. line.items ≡ unit_line file.now why) }
{
    let mut line = Vec::from_slice(alloc, b"VOLMAN UNIT ")?;
    line.extend_from_slice(file.as_bytes())?;
    line.push(b' ')?;
    push_reason(&mut line, why)?;
    line.push(b'\n')?;
    Ok(line)
}

/// The line that says why a deck is refused.
#[tactic(auto, unfolding(crate::specs::Lines::deck_line))]
pub fn deck_line(alloc: Global, why: DeckErr) -> Result<Vec<u8>, AllocError>
    ensures { IfOk result (λ line. line.items ≡ deck_line why) }
{
    let mut line = Vec::from_slice(alloc, b"VOLMAN DECK ")?;
    push_deck_reason(&mut line, why)?;
    line.push(b'\n')?;
    Ok(line)
}

// The word for a pack that is settled, or isn't.
fn settled_word(settled: bool) -> &'static str
    ensures { result.now ≡ settled_word settled }
{
    if settled { " SETTLED" } else { " UNSETTLED" }
}

/// The line that says whether the pack of this serial is settled, and then one for each data set whose body can't be read.
#[tactic(auto, unfolding(crate::specs::Lines::check_text))]
pub fn check_text(
    alloc: Global,
    serial: &Serial,
    settled: bool,
    unread: &[Unread],
) -> Result<Vec<u8>, AllocError>
    ensures { IfOk result (λ text. text.items ≡ check_text serial.now.bytes settled unread.now) }
{
    let mut text = check_line(alloc, serial, settled)?;
    for set in unread {
        push_unread(&mut text, set)?;
    }
    Ok(text)
}

// Adds the line of a data set whose body can't be read.
#[tactic(auto, unfolding(crate::specs::Lines::unread_line))]
fn push_unread(text: &mut Vec<u8>, set: &Unread) -> Result<(), AllocError>
    ensures { OnOk result (text.new.items ≡ text.old.items ++ unread_line set.now) }
{
    text.extend_from_slice(b"UNREADABLE ")?;
    push_broken_place(text, set)?;
    text.push(b'\n')?;
    Ok(())
}

// Adds the name of a data set, and the first relative track that breaks its body.
#[tactic(auto, unfolding(crate::specs::Lines::broken_place))]
fn push_broken_place(text: &mut Vec<u8>, set: &Unread) -> Result<(), AllocError>
    ensures { OnOk result (text.new.items ≡ text.old.items ++ broken_place set.now) }
{
    push_name_in_ascii(text, &set.dsn.bytes)?;
    push_number(text, u64::from(set.track))
}

// The line that says whether the pack of this serial is settled.
#[tactic(auto, unfolding(crate::specs::Lines::check_line))]
fn check_line(alloc: Global, serial: &Serial, settled: bool) -> Result<Vec<u8>, AllocError>
    ensures { IfOk result (λ line. line.items ≡ check_line serial.now.bytes settled) }
{
    let mut line = Vec::from_slice(alloc, b"CHECK ")?;
    push_name_in_ascii(&mut line, &serial.bytes)?;
    line.extend_from_slice(settled_word(settled).as_bytes())?;
    line.push(b'\n')?;
    Ok(line)
}

/// The line that says that the file of a new pack is there already.
#[tactic(auto, unfolding(crate::specs::Lines::exists_line))]
pub fn exists_line(alloc: Global, file: &str) -> Result<Vec<u8>, AllocError>
    ensures { IfOk result (λ line. line.items ≡ exists_line file.now) }
{
    let mut line = Vec::from_slice(alloc, b"VOLMAN UNIT ")?;
    line.extend_from_slice(file.as_bytes())?;
    line.extend_from_slice(b" EXISTS\n")?;
    Ok(line)
}

/// The line that says that a new pack was made.
#[tactic(auto, unfolding(crate::specs::Lines::init_line))]
pub fn init_line(alloc: Global, serial: &Serial) -> Result<Vec<u8>, AllocError>
    ensures { IfOk result (λ line. line.items ≡ init_line serial.now.bytes) }
{
    let mut line = Vec::from_slice(alloc, b"INIT ")?;
    push_name_in_ascii(&mut line, &serial.bytes)?;
    line.push(b'\n')?;
    Ok(line)
}

/// The names, each on a line without the blanks after it.
#[tactic(auto, unfolding(crate::specs::Lines::names_listing))]
pub fn listing(alloc: Global, names: &[[u8; 44]]) -> Result<Vec<u8>, AllocError>
    ensures { IfOk result (λ text. text.items ≡ names_listing names.now) }
{
    let mut text = Vec::new(alloc);
    for name in names {
        push_name(&mut text, name)?;
    }
    Ok(text)
}

// Adds a name and the end of its line.
#[tactic(auto, unfolding(crate::specs::Lines::name_line))]
fn push_name(text: &mut Vec<u8>, name: &[u8]) -> Result<(), AllocError>
    ensures { OnOk result (text.new.items ≡ text.old.items ++ name_line name.now) }
{
    push_name_in_ascii(text, name)?;
    text.push(b'\n')?;
    Ok(())
}
