//! What the statements of IEBUPDTE ask for.
ghost use Rattle.std.specs.Prelude.{◌≡◌, codes, map, option_map};
ghost use Rattle.std.specs.List.{count_by, list_all};
ghost use Rattle.card_text.specs.declared.operands.Operand.{Operand};
ghost use Rattle.card_text.specs.Operands.{operand_view};
ghost use Rattle.card_text.specs.Tree.{value_view};
ghost use Rattle.util_syntax.specs.Forms.{has_keyword, if_given, member_in, value_of};
ghost use Rattle.util_syntax.specs.Program.{statement_view};
ghost use Rattle.update_forms.specs.Requests.{alias_of, all_in, detail_of, has_none, heading_of, is_heading_operand, is_numbering_operand, is_range_operand, number_in, number_with, numbering_of, numbering_with, range_of, range_with, request_of, stands_once, verb_of};

use card_text::number_of;
use ebcdic_names::Name8;
use util_syntax::{
    Operand, Statement, Value, has_keyword, is_named, member_in, member_of, value_of,
};

/// What a function does with its member.
#[derive(Clone, Copy, Debug, PartialEq, Eq)]
pub enum Verb {
    /// ADD: writes the cards after it, as a new member.
    Add,
    /// REPL: writes the cards after it.
    Repl,
    /// REPRO: copies the old member.
    Repro,
    /// CHANGE: puts the cards after it among the records of the old member.
    Change,
}

/// A function that begins.
#[derive(Clone, Copy, Debug, PartialEq, Eq)]
pub struct Heading {
    /// What it does.
    pub verb: Verb,
    /// The name of its member, where one is given.
    pub name: Option<Name8>,
}

/// How records are numbered, in columns 73 to 80.
#[derive(Clone, Copy, Debug, PartialEq, Eq)]
pub struct Numbering {
    /// The number of the first, which has at most eight digits.
    pub first: u64,
    /// How much the numbers rise.
    pub step: u32,
    /// Whether SEQ1=ALL stands there, which CHANGE asks for.
    pub all: bool,
}

/// Sequence numbers, from one to another, both at most 99,999,999.
#[derive(Clone, Copy, Debug, PartialEq, Eq)]
pub struct Range {
    /// The first.
    pub from: u32,
    /// The last; where it is below the first there is none.
    pub to: u32,
}

/// What a statement asks for.
#[derive(Clone, Copy, Debug, PartialEq, Eq)]
pub enum Request {
    /// A function begins.
    Function(Heading),
    /// NUMBER: the records of the function are numbered.
    Number(Numbering),
    /// DELETE: the old records of these numbers are dropped.
    Delete(Range),
    /// ALIAS: the member has this name too.
    Alias(Name8),
    /// ENDUP: nothing more is read.
    EndUp,
}

// How many operands have this keyword.
fn keyword_count(operands: &[Operand], word: &[u8]) -> usize
    ensures { result ≡ count_by (has_keyword word.now) (map operand_view operands.now) }
{
    operands
        .iter()
        .filter(|operand| has_keyword(operand, word))
        .count()
}

// Whether one operand has this keyword at most.
fn stands_once(operands: &[Operand], word: &[u8]) -> bool
    ensures { result ≡ stands_once word.now (map operand_view operands.now) }
{
    keyword_count(operands, word) <= 1
}

// The number that a value is.
fn number_in(value: &Value) -> Option<u32>
    ensures { result ≡ number_in (value_view value.now) }
{
    match value.as_word() {
        Some(text) => number_of(text),
        None => None,
    }
}

// Whether a value is the word ALL.
fn all_in(value: &Value) -> Option<bool>
    ensures { result ≡ all_in (value_view value.now) }
{
    match value.as_word() {
        Some(text) => {
            let word: &[u8] = b"ALL";
            if word == text { Some(true) } else { None }
        }
        None => None,
    }
}

// The number with a keyword, if one operand has that, and no second.
#[tactic(auto, unfolding(crate::specs::Requests::number_with))]
fn number_with(operands: &[Operand], word: &[u8]) -> Option<u32>
    ensures { result ≡ number_with word.now (map operand_view operands.now) }
{
    match value_of(operands, word) {
        Some(value) => number_in(value),
        None => None,
    }
}

// The name, if one is given.
#[tactic(auto, unfolding(util_syntax::specs::Forms::if_given))]
fn name_if_given(operands: &[Operand]) -> Option<Option<Name8>>
    ensures { result ≡ if_given member_in (codes "NAME") (map operand_view operands.now) }
{
    if keyword_count(operands, b"NAME") == 0 {
        return Some(None);
    }
    match value_of(operands, b"NAME") {
        Some(value) => match member_in(value) {
            Some(name) => Some(Some(name)),
            None => None,
        },
        None => None,
    }
}

// Whether SEQ1=ALL is given.
#[tactic(auto, unfolding(util_syntax::specs::Forms::if_given))]
fn all_if_given(operands: &[Operand]) -> Option<Option<bool>>
    ensures { result ≡ if_given all_in (codes "SEQ1") (map operand_view operands.now) }
{
    if keyword_count(operands, b"SEQ1") == 0 {
        return Some(None);
    }
    match value_of(operands, b"SEQ1") {
        Some(value) => match all_in(value) {
            Some(all) => Some(Some(all)),
            None => None,
        },
        None => None,
    }
}

fn is_heading_operand(operand: &Operand) -> bool
    ensures { result ≡ is_heading_operand (operand_view operand.now) }
{
    has_keyword(operand, b"NAME")
        || (has_keyword(operand, b"LIST")
            || (has_keyword(operand, b"LEVEL") || has_keyword(operand, b"SOURCE")))
}

// Whether a function takes each of these operands.
fn each_of_heading(operands: &[Operand]) -> bool
    ensures { result ≡ list_all (λ (o : Operand). is_heading_operand (operand_view o)) operands.now }
{
    operands.iter().all(|operand| is_heading_operand(operand))
}

// Whether it takes all of them, seen so.
fn all_of_heading(operands: &[Operand]) -> bool
    ensures { result ≡ list_all is_heading_operand (map operand_view operands.now) }
{
    each_of_heading(operands)
}

#[tactic(auto, unfolding(crate::specs::Requests::heading_of))]
fn heading_of(verb: Verb, operands: &[Operand]) -> Option<Heading>
    ensures { result ≡ heading_of verb (map operand_view operands.now) }
{
    let fits = all_of_heading(operands)
        && (stands_once(operands, b"LIST")
            && (stands_once(operands, b"LEVEL") && stands_once(operands, b"SOURCE")));
    if !fits {
        return None;
    }
    match name_if_given(operands) {
        Some(name) => Some(Heading { verb, name }),
        None => None,
    }
}

fn is_numbering_operand(operand: &Operand) -> bool
    ensures { result ≡ is_numbering_operand (operand_view operand.now) }
{
    has_keyword(operand, b"NEW1")
        || (has_keyword(operand, b"INCR") || has_keyword(operand, b"SEQ1"))
}

// Whether NUMBER takes each of these operands.
fn each_of_numbering(operands: &[Operand]) -> bool
    ensures { result ≡ list_all (λ (o : Operand). is_numbering_operand (operand_view o)) operands.now }
{
    operands.iter().all(|operand| is_numbering_operand(operand))
}

// Whether it takes all of them, seen so.
fn all_of_numbering(operands: &[Operand]) -> bool
    ensures { result ≡ list_all is_numbering_operand (map operand_view operands.now) }
{
    each_of_numbering(operands)
}

fn numbering_with(
    first: Option<u32>,
    step: Option<u32>,
    all: Option<Option<bool>>,
) -> Option<Numbering>
    ensures { result ≡ numbering_with first step all }
{
    let first = first?;
    let step = step?;
    let all = all?;
    Some(Numbering {
        first: u64::from(first),
        step,
        all: all.is_some(),
    })
}

#[tactic(auto, unfolding(crate::specs::Requests::numbering_of))]
fn numbering_of(operands: &[Operand]) -> Option<Numbering>
    ensures { result ≡ numbering_of (map operand_view operands.now) }
{
    if !all_of_numbering(operands) {
        return None;
    }
    numbering_with(
        number_with(operands, b"NEW1"),
        number_with(operands, b"INCR"),
        all_if_given(operands),
    )
}

fn is_range_operand(operand: &Operand) -> bool
    ensures { result ≡ is_range_operand (operand_view operand.now) }
{
    has_keyword(operand, b"SEQ1") || has_keyword(operand, b"SEQ2")
}

// Whether DELETE takes each of these operands.
fn each_of_range(operands: &[Operand]) -> bool
    ensures { result ≡ list_all (λ (o : Operand). is_range_operand (operand_view o)) operands.now }
{
    operands.iter().all(|operand| is_range_operand(operand))
}

// Whether it takes all of them, seen so.
fn all_of_range(operands: &[Operand]) -> bool
    ensures { result ≡ list_all is_range_operand (map operand_view operands.now) }
{
    each_of_range(operands)
}

fn range_with(from: Option<u32>, to: Option<u32>) -> Option<Range>
    ensures { result ≡ range_with from to }
{
    let from = from?;
    let to = to?;
    Some(Range { from, to })
}

#[tactic(auto, unfolding(crate::specs::Requests::range_of))]
fn range_of(operands: &[Operand]) -> Option<Range>
    ensures { result ≡ range_of (map operand_view operands.now) }
{
    if !all_of_range(operands) {
        return None;
    }
    range_with(
        number_with(operands, b"SEQ1"),
        number_with(operands, b"SEQ2"),
    )
}

// Whether each of these operands has the keyword NAME.
fn each_of_alias(operands: &[Operand]) -> bool
    ensures { result ≡ list_all (λ (o : Operand). has_keyword (codes "NAME") (operand_view o)) operands.now }
{
    operands.iter().all(|operand| has_keyword(operand, b"NAME"))
}

// Whether all of them have it, seen so.
fn all_of_alias(operands: &[Operand]) -> bool
    ensures { result ≡ list_all (has_keyword (codes "NAME")) (map operand_view operands.now) }
{
    each_of_alias(operands)
}

#[tactic(auto, unfolding(crate::specs::Requests::alias_of))]
fn alias_of(operands: &[Operand]) -> Option<Name8>
    ensures { result ≡ alias_of (map operand_view operands.now) }
{
    if !all_of_alias(operands) {
        return None;
    }
    member_of(operands, b"NAME")
}

// Whether there is no operand.
fn has_none(operands: &[Operand]) -> bool
    ensures { result ≡ has_none (map operand_view operands.now) }
{
    match operands.split_first() {
        Some(_) => false,
        None => true,
    }
}

// The function of this name.
#[tactic(auto, unfolding(crate::specs::Requests::verb_of))]
fn verb_of(op: &Name8) -> Option<Verb>
    ensures { result ≡ verb_of op.now }
{
    if is_named(op, b"ADD") {
        Some(Verb::Add)
    } else if is_named(op, b"REPL") {
        Some(Verb::Repl)
    } else if is_named(op, b"REPRO") {
        Some(Verb::Repro)
    } else if is_named(op, b"CHANGE") {
        Some(Verb::Change)
    } else {
        None
    }
}

// What a statement asks for that isn't a function.
#[tactic(auto, unfolding(crate::specs::Requests::detail_of))]
fn detail_of(statement: &Statement) -> Option<Request>
    ensures { result ≡ detail_of (statement_view statement.now) }
{
    if is_named(&statement.op, b"NUMBER") {
        return numbering_of(&statement.operands).map(Request::Number);
    }
    if is_named(&statement.op, b"DELETE") {
        return range_of(&statement.operands).map(Request::Delete);
    }
    if is_named(&statement.op, b"ALIAS") {
        return alias_of(&statement.operands).map(Request::Alias);
    }
    if is_named(&statement.op, b"ENDUP") && has_none(&statement.operands) {
        Some(Request::EndUp)
    } else {
        None
    }
}

/// What a statement asks for; `None` where it hasn't the form of its operation, or its operation isn't one of these:
///
/// - `ADD`, `REPL`, `REPRO` or `CHANGE` with `NAME=m`, which may be missing, and `LIST`, `LEVEL` and `SOURCE` with any
///   value, each once at most
/// - `NUMBER NEW1=n,INCR=i` with `SEQ1=ALL` or without it
/// - `DELETE SEQ1=a,SEQ2=b`
/// - `ALIAS NAME=a`
/// - `ENDUP`
///
/// Numbers have one to eight digits. It takes no memory.
#[tactic(auto, unfolding(crate::specs::Requests::request_of))]
pub fn request_of(statement: &Statement) -> Option<Request>
    ensures { result ≡ request_of (statement_view statement.now) }
{
    match verb_of(&statement.op) {
        Some(verb) => heading_of(verb, &statement.operands).map(Request::Function),
        None => detail_of(statement),
    }
}
