//! Joining the segments of VS and VBS into records.
ghost use Rattle.std.specs.Prelude.{◌≡◌, ◌≤◌, ◌<◌, length, if◌then◌else◌, Some, None, OnOk, OnErr, true};
ghost use Rattle.record_blocks.specs.Packing.{longest};
ghost use Rattle.record_blocks.specs.Segments.{begins, ends};
ghost use Rattle.record_blocks.specs.Segments.{bytes_with};

use crate::formats::Format;
use std::alloc::{AllocError, Global};

/// Why segments are no records.
#[derive(Clone, Copy, Debug, PartialEq, Eq)]
pub enum JoinErr {
    /// A segment that begins a record where one is open, one that goes on where none is, or the end
    /// where one is open.
    BadSegment,
    /// The record is longer than LRECL - 4.
    TooLong {
        /// The number of bytes that were joined.
        len: usize,
    },
    /// Memory ran out.
    Memory,
}

impl From<AllocError> for JoinErr {
    ghost use Rattle.record_blocks.specs.declared.joiner.JoinErr.TheVariants as join;

    ghost from_gives = { λ _ e. e ≡ join.Memory };

    fn from(_: AllocError) -> Self {
        JoinErr::Memory
    }
}

// Whether a segment begins a record.
fn begins(code: u8) -> bool
    ensures { result ≡ begins code }
{
    code == 0 || code == 1
}

// Whether a segment ends a record.
fn ends(code: u8) -> bool
    ensures { result ≡ ends code }
{
    code == 0 || code == 2
}

// The length of a record up to a segment.
fn joined_len(begun: bool, body: &[u8], bytes: &[u8]) -> usize
    ensures { result ≡ length (bytes_with (if begun then Some body.now else None) bytes.now) }
{
    if begun {
        body.len() + bytes.len()
    } else {
        bytes.len()
    }
}

// The bytes of a record up to a segment.
fn grow(alloc: Global, begun: bool, body: &mut Vec<u8>, bytes: &[u8]) -> Result<(), AllocError>
    ensures ok { OnOk result (body.new.items ≡ bytes_with (if begun then Some body.old.items else None) bytes.now) }
    ensures err { OnErr result (body.new.items ≡ body.old.items) }
{
    if begun {
        return body.extend_from_slice(bytes);
    }
    *body = Vec::from_slice(alloc, bytes)?;
    Ok(())
}

/// Joins the segments of VS and VBS blocks into records, one after another.
#[derive(Drop)]
pub struct Joiner {
    alloc: Global,
    format: Format,
    begun: bool,
    done: bool,
    body: Vec<u8>,
    ghost fits: { length body.items ≤ longest format },
}

impl Joiner {
    ghost use Rattle.std.specs.Prelude.{List, [], Ok, Err, IfOk, IfErr, false};
    ghost use Rattle.record_blocks.specs.Formats.{first_fault};
    ghost use Rattle.record_blocks.specs.Blocks.{Segment, piece};
    ghost use Rattle.record_blocks.specs.Packing.{is_spanned};
    ghost use Rattle.record_blocks.specs.Joining.{joined_records, bytes_taken};
    ghost use Rattle.record_blocks.specs.Joiner.{open_of, whole_of, records_with, IsFresh, RecordsFollow, HasCause, IsUnchanged, Takes};

    /// Begins with no record. The format is VS or VBS, and `Format::check` accepts it.
    pub fn new(alloc: Global, format: Format) -> Result<Joiner, AllocError>
        requires lawful { first_fault format ≡ None }
        requires spanned { is_spanned format ≡ true }
        ensures records { IfOk result (λ j. IsFresh format j) }
        ensures none { IfOk result (λ j. open_of j ≡ None) }
        ensures format { IfOk result (λ j. j.format ≡ format) }
        ensures whole { IfOk result (λ j. whole_of j ≡ []) }
    {
        let body = Vec::new(alloc);
        Ok(Joiner {
            alloc,
            format,
            begun: false,
            done: false,
            body,
        })
    }

    /// Takes the next segment, with its code of at most 3, and answers whether a record is now
    /// whole.
    ///
    /// `BadSegment` where a code 0 or 1 meets an open record, or a code 2 or 3 meets none;
    /// `TooLong` where the joined bytes are more than LRECL - 4; `Memory` if memory runs out. After
    /// an error the joiner is as before.
    #[tactic(auto, unfolding(crate::specs::Joining::joined_records))]
    pub fn push(&mut self, code: u8, bytes: &[u8]) -> Result<bool, JoinErr>
        requires { code ≤ 3 }
        ensures records { IfOk result (λ whole. RecordsFollow (piece code bytes.now) whole self.old self.new) }
        ensures part { IfOk result (λ whole. whole ≡ false → whole_of self.new ≡ []) }
        ensures takes { IfOk result (λ whole. Takes (piece code bytes.now) whole self.old self.new) }
        ensures err { IfErr result (λ e. HasCause e (piece code bytes.now) self.old) }
        ensures unchanged { OnErr result (IsUnchanged self.old self.new) }
    {
        self.check(code, bytes)?;
        grow(self.alloc, self.begun, &mut self.body, bytes)?;
        self.done = ends(code);
        self.begun = !self.done;
        Ok(self.done)
    }

    // Whether a segment may follow.
    fn check(&self, code: u8, bytes: &[u8]) -> Result<(), JoinErr>
        ensures ok { OnOk result (bytes_taken (longest self.now.format) (open_of self.now) (piece code bytes.now) ≡ Ok (bytes_with (open_of self.now) bytes.now)) }
        ensures fits { OnOk result (length (bytes_with (open_of self.now) bytes.now) ≤ longest self.now.format) }
        ensures err { IfErr result (λ e. bytes_taken (longest self.now.format) (open_of self.now) (piece code bytes.now) ≡ Err e) }
    {
        if begins(code) == self.begun {
            return Err(JoinErr::BadSegment);
        }
        let len = joined_len(self.begun, &self.body, bytes);
        if len > self.format.longest() {
            return Err(JoinErr::TooLong { len });
        }
        Ok(())
    }

    /// The record that the last segment made whole, and else no bytes.
    pub fn whole(&self) -> &[u8]
        ensures { result.now ≡ whole_of self.now }
    {
        if self.done { &self.body } else { &[] }
    }

    /// For the end of the blocks: `BadSegment` where a record is still open.
    #[tactic(auto, unfolding(crate::specs::Joining::joined_records))]
    pub fn finish(&self) -> Result<(), JoinErr>
        ensures ok { OnOk result (records_with self.now [] ≡ Ok []) }
        ensures err { IfErr result (λ e. records_with self.now [] ≡ Err e) }
    {
        if self.begun {
            Err(JoinErr::BadSegment)
        } else {
            Ok(())
        }
    }
}
