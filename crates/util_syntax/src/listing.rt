//! The lines of a listing that answer items, and those of faults.
ghost use Rattle.std.specs.Prelude.{◌≡◌, ◌++◌, codes, IfOk, OnOk};
ghost use Rattle.std.specs.Fmt.{decimal};
ghost use Rattle.ebcdic_names.specs.Names.{shown};
ghost use Rattle.util_syntax.specs.Lines.{card_number, next_word};
ghost use Rattle.util_syntax.specs.Listing.{object_text, outcome_text, item_line, syntax_words, syntax_line, named_line, jcl_line};

use crate::lines::{push_card, push_shown, push_word};
use crate::operands::SynErr;
use ebcdic_names::{Dsn, Name8, Serial};
use itoa::Buffer;
use std::alloc::{AllocError, Global};
use vol_model::{Line, Refusal};

/// What the line of an item names.
#[derive(Clone, Copy, Debug, PartialEq, Eq)]
pub enum Object {
    /// A data set, or a node of a catalog by its names joined by periods.
    Name(Dsn),
    /// A member of a partitioned set, printed as `set(member)`.
    Member {
        /// The set.
        set: Dsn,
        /// The member.
        name: Name8,
    },
    /// A volume by its serial.
    Volume(Serial),
}

/// What became of an item, in this project's profile.
#[derive(Clone, Copy, Debug, PartialEq, Eq)]
pub enum Outcome {
    /// It was done: `OK`.
    Done,
    /// An operation was refused: the refusal in capitals with hyphens, without its numbers.
    Refused(Refusal),
    /// The data set is unexpired: `EXPIRES`.
    Expires,
    /// The attributes of a data set don't fit: `DCB`.
    Dcb,
    /// Input and output are one data set: `SAME-SET`.
    SameSet,
    /// A place that a directory entry carries isn't in the member: `BAD-TTR`.
    BadTtr,
    /// A record breaks the format of its set: `BAD-RECORD`.
    BadRecord,
    /// Sequence numbers don't rise: `SEQ-ORDER`.
    SeqOrder,
}

impl Outcome {
    /// Its words in a listing.
    #[tactic(auto, unfolding(crate::specs::Listing::outcome_text))]
    pub fn words(self) -> &'static str
        ensures { result.now ≡ outcome_text self }
    {
        match self {
            Outcome::Done => "OK",
            Outcome::Refused(refusal) => refusal.words(),
            Outcome::Expires => "EXPIRES",
            Outcome::Dcb => "DCB",
            Outcome::SameSet => "SAME-SET",
            Outcome::BadTtr => "BAD-TTR",
            Outcome::BadRecord => "BAD-RECORD",
            Outcome::SeqOrder => "SEQ-ORDER",
        }
    }
}

// Adds what a line names, after a blank.
#[tactic(auto, unfolding(crate::specs::Listing::object_text))]
fn push_object(line: &mut Vec<u8>, object: &Object) -> Result<(), AllocError>
    ensures { OnOk result (line.new.items ≡ line.old.items ++ next_word (object_text object.now)) }
{
    line.push(b' ')?;
    match object {
        Object::Name(name) => push_shown(line, &name.bytes),
        Object::Member { set, name } => push_member(line, set, name),
        Object::Volume(serial) => push_shown(line, &serial.bytes),
    }
}

// Adds a set and its member.
fn push_member(line: &mut Vec<u8>, set: &Dsn, name: &Name8) -> Result<(), AllocError>
    ensures { OnOk result (line.new.items
        ≡ line.old.items ++ shown set.now.bytes ++ codes "(" ++ shown name.now.bytes ++ codes ")") }
{
    push_shown(line, &set.bytes)?;
    line.push(b'(')?;
    push_shown(line, &name.bytes)?;
    line.push(b')')?;
    Ok(())
}

/// The line of an item: the card on which it begins, its operation, what it names, and what became of it, parted by
/// one blank.
///
/// The card counts from 1, and its number has five digits, with zeros in front, and more only where it needs them. The
/// operation is a word in ASCII, without blanks. Names stand without the blanks after them. The one error is want of
/// memory.
#[tactic(auto, unfolding(crate::specs::Listing::item_line))]
pub fn item_line(
    alloc: Global,
    card: u32,
    operation: &str,
    object: &Object,
    outcome: Outcome,
) -> Result<Line, AllocError>
    ensures { IfOk result (λ line. line ≡ item_line card operation.now object.now outcome) }
{
    let mut line = Vec::new(alloc);
    push_card(&mut line, card)?;
    push_word(&mut line, operation.as_bytes())?;
    push_object(&mut line, object)?;
    push_word(&mut line, outcome.words().as_bytes())?;
    Line::ended(line)
}

impl SynErr {
    /// Its words in a listing: its name in capitals with hyphens.
    #[tactic(auto, unfolding(crate::specs::Listing::syntax_words))]
    pub fn words(self) -> &'static str
        ensures { result.now ≡ syntax_words self }
    {
        match self {
            SynErr::NoOperation => "NO-OPERATION",
            SynErr::BadOperand => "BAD-OPERAND",
            SynErr::Unbalanced => "UNBALANCED",
            SynErr::ContinuationMissing => "CONTINUATION-MISSING",
        }
    }
}

/// The line of a fault of a statement: `ccccc SYNTAX kind`, by the card on which the fault stands.
///
/// The one error is want of memory.
#[tactic(auto, unfolding(crate::specs::Listing::syntax_line))]
pub fn syntax_line(alloc: Global, card: u32, kind: SynErr) -> Result<Line, AllocError>
    ensures { IfOk result (λ line. line ≡ syntax_line card kind) }
{
    let mut line = Vec::new(alloc);
    push_card(&mut line, card)?;
    push_word(&mut line, b"SYNTAX".as_slice())?;
    push_word(&mut line, kind.words().as_bytes())?;
    Line::ended(line)
}

// The line of a card, a word and a name.
#[tactic(auto, unfolding(crate::specs::Listing::named_line))]
fn named_line(alloc: Global, card: u32, word: &str, name: &Name8) -> Result<Line, AllocError>
    ensures { IfOk result (λ line. line ≡ named_line card word.now name.now) }
{
    let mut line = Vec::new(alloc);
    push_card(&mut line, card)?;
    push_word(&mut line, word.as_bytes())?;
    line.push(b' ')?;
    push_shown(&mut line, &name.bytes)?;
    Line::ended(line)
}

/// The line of a step that lacks a DD: `ccccc NO-DD ddname`, by the step's EXEC card.
///
/// The one error is want of memory.
pub fn no_dd_line(alloc: Global, card: u32, name: &Name8) -> Result<Line, AllocError>
    ensures { IfOk result (λ line. line ≡ named_line card (codes "NO-DD") name.now) }
{
    named_line(alloc, card, "NO-DD", name)
}

/// The line of a step whose program isn't known: `ccccc NO-PROGRAM pgm`, by the step's EXEC card.
///
/// The one error is want of memory.
pub fn no_program_line(alloc: Global, card: u32, name: &Name8) -> Result<Line, AllocError>
    ensures { IfOk result (λ line. line ≡ named_line card (codes "NO-PROGRAM") name.now) }
{
    named_line(alloc, card, "NO-PROGRAM", name)
}

// Adds a number in decimal after a blank.
fn push_number(line: &mut Vec<u8>, number: u8) -> Result<(), AllocError>
    ensures { OnOk result (line.new.items ≡ line.old.items ++ next_word (decimal number)) }
{
    let mut buffer = Buffer::new();
    let digits = buffer.format(number);
    push_word(line, digits.as_bytes())
}

/// The line of a fault of a job: `ccccc column JCL kind`, by the card and the column of the fault.
///
/// The kind is a word in ASCII, without blanks. The one error is want of memory.
#[tactic(auto, unfolding(crate::specs::Listing::jcl_line))]
pub fn jcl_line(alloc: Global, card: u32, column: u8, kind: &str) -> Result<Line, AllocError>
    ensures { IfOk result (λ line. line ≡ jcl_line card column kind.now) }
{
    let mut line = Vec::new(alloc);
    push_card(&mut line, card)?;
    push_number(&mut line, column)?;
    push_word(&mut line, b"JCL".as_slice())?;
    push_word(&mut line, kind.as_bytes())?;
    Line::ended(line)
}
