//! DISP.
ghost use Rattle.std.specs.Prelude.{◌≡◌};
ghost use Rattle.jcl_forms.specs.Disposition.{status_of, default_after, named_after, after_of, disposition_of};

use crate::parts::{items, others, parted};

/// The status of a set when its step begins.
#[derive(Clone, Copy, Debug, PartialEq, Eq)]
pub enum DdStatus {
    /// The step makes it.
    New,
    /// It is there, for this step alone.
    Old,
    /// It is there, and others may read it.
    Shr,
    /// It is there and is written after its last block, or the step makes it.
    Mod,
}

/// What becomes of a set after its step.
#[derive(Clone, Copy, Debug, PartialEq, Eq)]
pub enum DdAfter {
    /// It is scratched.
    Delete,
    /// It stays.
    Keep,
    /// It is entered in the catalog.
    Catlg,
    /// Its entry in the catalog is removed.
    Uncatlg,
}

// The status that a word names.
#[tactic(auto, unfolding(crate::specs::Disposition::status_of))]
fn status_of(word: &[u8]) -> Option<DdStatus>
    ensures { result ≡ status_of word.now }
{
    if word.is_empty() || word == b"NEW".as_slice() {
        Some(DdStatus::New)
    } else if word == b"OLD".as_slice() {
        Some(DdStatus::Old)
    } else if word == b"SHR".as_slice() {
        Some(DdStatus::Shr)
    } else if word == b"MOD".as_slice() {
        Some(DdStatus::Mod)
    } else {
        None
    }
}

fn default_after(status: DdStatus) -> DdAfter
    ensures { result ≡ default_after status }
{
    match status {
        DdStatus::New => DdAfter::Delete,
        _ => DdAfter::Keep,
    }
}

#[tactic(auto, unfolding(crate::specs::Disposition::named_after))]
fn named_after(word: &[u8]) -> Option<DdAfter>
    ensures { result ≡ named_after word.now }
{
    if word == b"DELETE".as_slice() {
        Some(DdAfter::Delete)
    } else if word == b"KEEP".as_slice() {
        Some(DdAfter::Keep)
    } else if word == b"CATLG".as_slice() {
        Some(DdAfter::Catlg)
    } else if word == b"UNCATLG".as_slice() {
        Some(DdAfter::Uncatlg)
    } else {
        None
    }
}

// What becomes of a set of this status, as a word says.
#[tactic(auto, unfolding(crate::specs::Disposition::after_of))]
fn after_of(status: DdStatus, word: &[u8]) -> Option<DdAfter>
    ensures { result ≡ after_of status word.now }
{
    if word.is_empty() {
        Some(default_after(status))
    } else {
        named_after(word)
    }
}

/// The status that a value of DISP gives, and what becomes of the set: a word, or a list of one or two.
///
/// A missing status is NEW. A missing second word is DELETE for NEW and KEEP otherwise.
#[tactic(auto, unfolding(crate::specs::Disposition::disposition_of))]
pub fn disposition_of(text: &[u8]) -> Option<(DdStatus, DdAfter)>
    ensures { result ≡ disposition_of text.now }
{
    if text.is_empty() {
        return None;
    }
    let words = items(text);
    let status = status_of(parted(b',', words).0)?;
    let after = after_of(status, others(words))?;
    Some((status, after))
}
