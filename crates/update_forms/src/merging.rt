//! What comes next of old records and of cards, and its number.
ghost use Rattle.std.specs.Prelude.{◌≡◌, option_map, IfOk, Some};
ghost use Rattle.std.specs.List.{list_any};
ghost use Rattle.update_forms.specs.Editing.{is_within, rises, rises_after, stays};
ghost use Rattle.update_forms.specs.Merging.{choice_of, number_fits, number_given, numbering_after, old_choice, both_choice};
ghost use Rattle.update_forms.specs.Records.{records_in};

use crate::records::{CardRecord, eight_digits, is_before, sequence, stands_before, with_number};
use crate::requests::{Numbering, Range};
use std::alloc::{AllocError, Global};

// The highest number of eight digits.
const LAST: u64 = 99_999_999;

/// What comes next of an old record and of a card.
#[derive(Clone, Copy)]
pub enum Choice {
    /// The old record.
    Old,
    /// None: the old record is dropped.
    Drop,
    /// The card, before the old record.
    Card,
    /// The card, in the place of the old record.
    Instead,
    /// None: neither is left.
    End,
}

// Whether the sequence of a record lies in a range.
fn is_within(rec: &[u8], range: &Range) -> bool
    ensures { result ≡ is_within rec.now range.now }
{
    let sequence = sequence(rec);
    !stands_before(sequence, &eight_digits(range.from))
        && !stands_before(&eight_digits(range.to), sequence)
}

// Whether the sequence of a record lies in one of these ranges.
fn is_in_any(ranges: &[Range], rec: &[u8]) -> bool
    ensures { result ≡ list_any (is_within rec.now) ranges.now }
{
    ranges.iter().any(|range| is_within(rec, range))
}

// Whether it lies in none of them.
#[tactic(auto, unfolding(crate::specs::Editing::stays))]
fn stays(ranges: &[Range], rec: &[u8]) -> bool
    ensures { result ≡ stays ranges.now rec.now }
{
    !is_in_any(ranges, rec)
}

// What comes of an old record, before which no card comes.
fn old_choice(ranges: &[Range], old: &[u8]) -> Choice
    ensures { result ≡ old_choice ranges.now old.now }
{
    if stays(ranges, old) {
        Choice::Old
    } else {
        Choice::Drop
    }
}

// What comes next of an old record and of a card.
fn both_choice(ranges: &[Range], old: &[u8], card: &CardRecord) -> Choice
    ensures { result ≡ both_choice ranges.now old.now card.now.bytes }
{
    if is_before(&card.bytes, old) {
        Choice::Card
    } else if is_before(old, &card.bytes) {
        old_choice(ranges, old)
    } else {
        Choice::Instead
    }
}

/// What comes next of an old record and of a card, where they are left: the one of the lower sequence, and the card of
/// the same. An old record in one of the ranges is dropped.
#[tactic(auto, unfolding(crate::specs::Merging::choice_of))]
pub fn choose(ranges: &[Range], old: Option<&[u8]>, card: Option<&CardRecord>) -> Choice
    ensures { result ≡ choice_of ranges.now (option_map (λ r. r.now) old.entry) (option_map (λ c. c.now.bytes) card.entry) }
{
    match old {
        Some(old) => match card {
            Some(card) => both_choice(ranges, old, card),
            None => old_choice(ranges, old),
        },
        None => match card {
            Some(_) => Choice::Card,
            None => Choice::End,
        },
    }
}

/// Whether the number of the next record, if it has one, has at most eight digits.
pub fn number_fits(numbering: Option<Numbering>) -> bool
    ensures { result ≡ number_fits numbering }
{
    match numbering {
        Some(numbers) => numbers.first <= LAST,
        None => true,
    }
}

/// A record with its number, if it has one of eight digits. The one error is want of memory.
pub fn number(
    alloc: Global,
    numbering: Option<Numbering>,
    rec: &[u8],
) -> Result<Vec<u8>, AllocError>
    ensures { IfOk result (λ new. new.items ≡ number_given numbering rec.now) }
{
    if let Some(numbers) = numbering {
        if numbers.first <= LAST {
            return with_number(alloc, numbers.first as u32, rec);
        }
    }
    Vec::from_slice(alloc, rec)
}

/// How the records after the next one are numbered.
pub fn numbering_after(numbering: Option<Numbering>) -> Option<Numbering>
    ensures { result ≡ numbering_after numbering }
{
    let numbers = numbering?;
    if numbers.first > LAST {
        return numbering;
    }
    Some(Numbering {
        first: numbers.first + u64::from(numbers.step),
        ..numbers
    })
}

// Whether one card stands before the first of others, and each of these before the next.
fn rises_after(card: &CardRecord, others: &[CardRecord]) -> bool
    ensures { result ≡ rises_after card.now.bytes (records_in others.now) }
{
    let mut last = card;
    for next in others {
        if !is_before(&last.bytes, &next.bytes) {
            return false;
        }
        last = next;
    }
    true
}

/// Whether cards rise strictly by their sequences.
#[tactic(auto, unfolding(crate::specs::Editing::rises))]
pub fn rises(cards: &[CardRecord]) -> bool
    ensures { result ≡ rises (records_in cards.now) }
{
    match cards.split_first() {
        Some((card, others)) => rises_after(card, others),
        None => true,
    }
}
