//! Why a pack isn't mounted, or a deck isn't taken, in words.
ghost use Rattle.std.specs.Prelude.{◌≡◌, ◌++◌, ◌∷◌, [], OnOk};
ghost use Rattle.volume_manager.specs.Lines.{deck_reason, image_reason, number_text, reason_of, with_numbers};

use ckd_image::ImageErr;
use itoa::Buffer;
use job_deck::DeckErr;
use std::alloc::AllocError;
use vtoc_index::MountErr;

/// Adds the reason: the word for its cause, as `BAD-CHAIN` for `BadChain`, and its numbers in decimal.
///
/// A header that is refused has its own reason.
#[tactic(auto, unfolding(crate::specs::Lines::reason_of))]
pub fn push_reason(text: &mut Vec<u8>, why: MountErr) -> Result<(), AllocError>
    ensures { OnOk result (text.new.items ≡ text.old.items ++ reason_of why) }
{
    match why {
        MountErr::NoFile => push_words(text, "NO-FILE", &[]),
        MountErr::Image(fault) => push_image_reason(text, fault),
        MountErr::NoLabel => push_words(text, "NO-LABEL", &[]),
        MountErr::BadVtoc => push_words(text, "BAD-VTOC", &[]),
        MountErr::VtocTrack { track } => push_words(text, "VTOC-TRACK", &[u64::from(track)]),
        MountErr::NoFormat4 => push_words(text, "NO-FORMAT4", &[]),
        MountErr::NoFormat5 => push_words(text, "NO-FORMAT5", &[]),
        MountErr::BadDscb { slot, byte } => push_dscb(text, "BAD-DSCB", slot, byte),
        MountErr::UnsupportedDscb { slot, byte } => push_dscb(text, "UNSUPPORTED-DSCB", slot, byte),
        MountErr::UnsupportedExtent { slot } => push_slot(text, "UNSUPPORTED-EXTENT", slot),
        MountErr::BadExtent { slot } => push_slot(text, "BAD-EXTENT", slot),
        MountErr::BadChain { slot } => push_slot(text, "BAD-CHAIN", slot),
        MountErr::DuplicateName { slot, other } => push_slots(text, "DUPLICATE-NAME", slot, other),
        MountErr::Overlap { track } => push_words(text, "OVERLAP", &[u64::from(track)]),
        MountErr::VtocFull { slots } => push_slot(text, "VTOC-FULL", slots),
        MountErr::SameSerial { unit, other } => push_units(text, "SAME-SERIAL", unit, other),
        MountErr::Memory => push_words(text, "MEMORY", &[]),
        MountErr::Device => push_words(text, "DEVICE", &[]),
    }
}

/// Adds why a deck is refused: the word for the fault, its card from 1, and its column from 1.
#[tactic(auto, unfolding(crate::specs::Lines::deck_reason))]
pub fn push_deck_reason(text: &mut Vec<u8>, why: DeckErr) -> Result<(), AllocError>
    ensures { OnOk result (text.new.items ≡ text.old.items ++ deck_reason why) }
{
    match why {
        DeckErr::Long => push_words(text, "LONG", &[]),
        DeckErr::Wide { card } => push_words(text, "WIDE", &[u64::from(card)]),
        DeckErr::Byte { card, column } => push_place(text, "BYTE", card, column),
        DeckErr::Read => push_words(text, "READ", &[]),
        DeckErr::Memory => push_words(text, "MEMORY", &[]),
    }
}

// Adds the reason for which a header is refused.
#[tactic(auto, unfolding(crate::specs::Lines::image_reason))]
fn push_image_reason(text: &mut Vec<u8>, why: ImageErr) -> Result<(), AllocError>
    ensures { OnOk result (text.new.items ≡ text.old.items ++ image_reason why) }
{
    match why {
        ImageErr::Compressed => push_words(text, "COMPRESSED", &[]),
        ImageErr::BadMagic => push_words(text, "BAD-MAGIC", &[]),
        ImageErr::BadType(code) => push_words(text, "BAD-TYPE", &[u64::from(code)]),
        ImageErr::BadHeads(heads) => push_words(text, "BAD-HEADS", &[u64::from(heads)]),
        ImageErr::BadTrackSize(size) => push_words(text, "BAD-TRACK-SIZE", &[u64::from(size)]),
        ImageErr::MultiFile => push_words(text, "MULTI-FILE", &[]),
        ImageErr::BadLength(len) => push_words(text, "BAD-LENGTH", &[len]),
    }
}

// Adds a word, and the number of a slot after it.
fn push_slot(text: &mut Vec<u8>, word: &str, slot: u32) -> Result<(), AllocError>
    ensures { OnOk result (text.new.items ≡ text.old.items ++ with_numbers word.now (slot ∷ [])) }
{
    push_words(text, word, &[u64::from(slot)])
}

// Adds a word, the number of a slot, and its format byte.
fn push_dscb(text: &mut Vec<u8>, word: &str, slot: u32, byte: u8) -> Result<(), AllocError>
    ensures { OnOk result (text.new.items ≡ text.old.items ++ with_numbers word.now (slot ∷ byte ∷ [])) }
{
    push_words(text, word, &[u64::from(slot), u64::from(byte)])
}

// Adds a word, and the numbers of two slots.
fn push_slots(text: &mut Vec<u8>, word: &str, slot: u32, other: u32) -> Result<(), AllocError>
    ensures { OnOk result (text.new.items ≡ text.old.items ++ with_numbers word.now (slot ∷ other ∷ [])) }
{
    push_words(text, word, &[u64::from(slot), u64::from(other)])
}

// Adds a word, and the numbers of two units.
fn push_units(text: &mut Vec<u8>, word: &str, unit: u8, other: u8) -> Result<(), AllocError>
    ensures { OnOk result (text.new.items ≡ text.old.items ++ with_numbers word.now (unit ∷ other ∷ [])) }
{
    push_words(text, word, &[u64::from(unit), u64::from(other)])
}

// Adds a word, and a card and a column.
fn push_place(text: &mut Vec<u8>, word: &str, card: u32, column: u8) -> Result<(), AllocError>
    ensures { OnOk result (text.new.items ≡ text.old.items ++ with_numbers word.now (card ∷ column ∷ [])) }
{
    push_words(text, word, &[u64::from(card), u64::from(column)])
}

// Adds a word, and numbers after it.
fn push_words(text: &mut Vec<u8>, word: &str, numbers: &[u64]) -> Result<(), AllocError>
    ensures { OnOk result (text.new.items ≡ text.old.items ++ with_numbers word.now numbers.now) }
{
    text.extend_from_slice(word.as_bytes())?;
    for number in numbers {
        push_number(text, *number)?;
    }
    Ok(())
}

/// Adds a number in decimal, after a blank.
pub fn push_number(text: &mut Vec<u8>, number: u64) -> Result<(), AllocError>
    ensures { OnOk result (text.new.items ≡ text.old.items ++ number_text number) }
{
    text.push(b' ')?;
    text.extend_from_slice(Buffer::new().format(number).as_bytes())
}
