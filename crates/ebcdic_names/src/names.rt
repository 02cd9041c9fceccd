//! Data set names, names of one level and volume serials.

ghost use Rattle.std.specs.Prelude.{◌≡◌, ◌≢◌, ◌≤◌, ◌==◌, ◌-◌, ◌++◌, ◌∷◌, [], ℕ, List, chars, length, replicate, reverse, slice_get, take_while, OnOk, OnErr, Some};
ghost use Rattle.std.specs.Fmt.{DisplaysOnOk};
ghost use Rattle.ebcdic_names.specs.Names.{begins_level, byte_of, char_faults, continues_level, dsn_of, ends_level, is_digit, level_allows, level_fault, name8_of, name_fault, padded, serial_allows, serial_fault, serial_faults, serial_of, shown, without_blanks};

use crate::{to_ascii, to_ebcdic};
use std::alloc::AllocError;
use std::fmt;

// The EBCDIC blank.
const BLANK: u8 = 0x40;

// The forms of a name.
#[derive(Clone, Copy)]
enum NameForm {
    // Levels joined by periods, as of a data set.
    Levels,
    // One level, as of a member.
    OneLevel,
}

/// Why a text is no name. Levels and characters are numbered from 0, and what is counted are characters,
/// not bytes: code points, where the text isn't ASCII.
#[derive(Clone, Copy, Debug, PartialEq, Eq, Drop)]
pub enum NameErr {
    /// The text is empty.
    Empty,
    /// The text has too many characters: more than 44, or more than six for a volume serial.
    TooLong,
    /// The level of this number, 0 to 22, is empty or longer than eight characters.
    BadLevel(u8),
    /// The character of this number, 0 to 43, isn't allowed there.
    BadChar(u8),
}

/// A data set name in EBCDIC. One that `read` gives is a name with blanks after it; one from a pack has
/// the bytes that stand there. Names are ordered by their bytes.
#[derive(Clone, Copy, Debug, PartialEq, Eq, PartialOrd, Ord)]
pub struct Dsn {
    /// The 44 bytes, as the key of a format 1 DSCB has them (System Control Blocks, GC28-6628).
    pub bytes: [u8; 44],
}

/// A name of up to eight characters in EBCDIC, as of a member. One that `read` gives is a name with blanks
/// after it; one from a pack has the bytes that stand there. Names are ordered by their bytes.
#[derive(Clone, Copy, Debug, PartialEq, Eq, PartialOrd, Ord)]
pub struct Name8 {
    /// The eight bytes, as an entry of a partitioned set's directory has them (System Control
    /// Blocks, GC28-6628).
    pub bytes: [u8; 8],
}

/// A volume serial in EBCDIC. One that `read` gives is a serial with blanks after it; one from a pack has
/// the bytes that stand there. Serials are ordered by their bytes.
#[derive(Clone, Copy, Debug, PartialEq, Eq, PartialOrd, Ord)]
pub struct Serial {
    /// The six bytes, as the volume label has them (System Control Blocks, GC28-6628).
    pub bytes: [u8; 6],
}

impl Dsn {
    /// The data set name of a text, as Utilities GC28-6586 has it: levels joined by periods.
    ///
    /// A level is one to eight capital letters, digits, `@`, `#`, `$` and `-`, and neither a digit nor
    /// `-` can be its first. A text of no character is `Empty` and one of more than 44 `TooLong`,
    /// whatever they are. Of other faults the leftmost is answered: `BadLevel` at the end of an empty
    /// level and at the ninth character of one, even if that isn't allowed, and `BadChar` at any other
    /// character that isn't.
    pub fn read(text: &str) -> Result<Dsn, NameErr>
        ensures { result ≡ dsn_of (chars text.now) }
    {
        match name_fault(NameForm::Levels, text) {
            None => Ok(Dsn {
                bytes: encode(text),
            }),
            Some(fault) => Err(fault),
        }
    }
}

impl Name8 {
    /// The name of a text of one level without `-`, as Utilities GC28-6586 has it.
    ///
    /// It is one to eight capital letters, digits, `@`, `#` and `$`, and a digit can't be its first. It is
    /// judged as a data set name of one level: a ninth character is `BadLevel(0)`, unless one before it
    /// isn't allowed, and only a text of more than 44 is `TooLong`. A period is `BadChar`, as `-` is.
    pub fn read(text: &str) -> Result<Name8, NameErr>
        ensures { result ≡ name8_of (chars text.now) }
    {
        match name_fault(NameForm::OneLevel, text) {
            None => Ok(Name8 {
                bytes: encode(text),
            }),
            Some(fault) => Err(fault),
        }
    }
}

impl Serial {
    /// The volume serial of a text, as Utilities GC28-6586 has it: one to six capital letters,
    /// digits, `@`, `#` or `$`, in any order.
    ///
    /// `Empty` and `TooLong` (above six characters) are judged first; else the first character that
    /// isn't allowed is `BadChar`. `BadLevel` never comes.
    pub fn read(text: &str) -> Result<Serial, NameErr>
        ensures { result ≡ serial_of (chars text.now) }
    {
        match serial_fault(text) {
            None => Ok(Serial {
                bytes: encode(text),
            }),
            Some(fault) => Err(fault),
        }
    }
}

// The first fault of a volume serial.
fn serial_fault(text: &str) -> Option<NameErr>
    ensures { result ≡ serial_fault (chars text.now) }
{
    let length = characters(text);
    if length == 0 {
        return Some(NameErr::Empty);
    }
    if length > 6 {
        return Some(NameErr::TooLong);
    }
    serial_char_fault(text)
}

// The first character that can't be in a volume serial.
fn serial_char_fault(text: &str) -> Option<NameErr>
    requires { length (chars text.now) ≤ 6 }
    ensures { result ≡ slice_get (serial_faults 0 (chars text.now)) 0 }
{
    let mut place = 0u8;
    for c in text.chars() {
        if !serial_allows(c) {
            return Some(NameErr::BadChar(place));
        }
        place += 1;
    }
    None
}

// The number of characters of a text.
fn characters(text: &str) -> usize
    ensures { result ≡ length (chars text.now) }
{
    text.chars().count()
}

// The first fault of a name.
fn name_fault(form: NameForm, text: &str) -> Option<NameErr>
    ensures { result ≡ name_fault form (chars text.now) }
{
    let length = characters(text);
    if length == 0 {
        return Some(NameErr::Empty);
    }
    if length > 44 {
        return Some(NameErr::TooLong);
    }
    level_fault(form, text)
}

// The first fault of a name's levels.
fn level_fault(form: NameForm, text: &str) -> Option<NameErr>
    requires { length (chars text.now) ≤ 44 }
    ensures { result ≡ level_fault form (chars text.now) }
{
    let mut level = 0u8;
    let mut at = 0u8;
    let mut place = 0u8;
    for c in text.chars() {
        if ends_level(form, c) {
            if at == 0 {
                return Some(NameErr::BadLevel(level));
            }
            level += 1;
            at = 0;
        } else {
            if let Some(fault) = char_fault(form, level, at, place, c) {
                return Some(fault);
            }
            at += 1;
        }
        place += 1;
    }
    if at == 0 {
        Some(NameErr::BadLevel(level))
    } else {
        None
    }
}

// The fault of a character, the at-th of its level: the ninth makes the level too long, before it is judged.
#[tactic(auto, unfolding(crate::specs::Names::char_faults))]
fn char_fault(form: NameForm, level: u8, at: u8, place: u8, c: char) -> Option<NameErr>
    ensures { result ≡ slice_get (char_faults form level at place c) 0 }
{
    if at == 8 {
        return Some(NameErr::BadLevel(level));
    }
    if !level_allows(form, at, c) {
        return Some(NameErr::BadChar(place));
    }
    None
}

// Whether a character ends a level.
fn ends_level(form: NameForm, c: char) -> bool
    ensures { result ≡ ends_level form c }
{
    match form {
        NameForm::Levels => c == '.',
        NameForm::OneLevel => false,
    }
}

// Whether a character may be in a volume serial.
fn serial_allows(c: char) -> bool
    ensures { result ≡ serial_allows c }
{
    begins_level(c) || is_digit(c)
}

// Whether a character may stand at this place of a level.
fn level_allows(form: NameForm, at: u8, c: char) -> bool
    ensures { result ≡ level_allows form at c }
{
    begins_level(c) || at > 0 && continues_level(form, c)
}

// Whether a level may go on with a character that it can't begin with.
fn continues_level(form: NameForm, c: char) -> bool
    ensures { result ≡ continues_level form c }
{
    match form {
        NameForm::Levels => is_digit(c) || c == '-',
        NameForm::OneLevel => is_digit(c),
    }
}

// Whether a level may begin with a character.
fn begins_level(c: char) -> bool
    ensures { result ≡ begins_level c }
{
    'A' <= c && c <= 'Z' || c == '@' || c == '#' || c == '$'
}

// Whether a character is a decimal digit.
fn is_digit(c: char) -> bool
    ensures { result ≡ is_digit c }
{
    '0' <= c && c <= '9'
}

// The EBCDIC bytes of a text with blanks after them.
fn encode<const N: usize>(text: &str) -> [u8; N]
    requires { length (chars text.now) ≤ N }
    ensures { result ≡ padded N (chars text.now) }
{
    let mut bytes = [BLANK; N];
    let mut at = 0usize;
    for c in text.chars() {
        bytes[at] = byte_of(c);
        at += 1;
    }
    bytes
}

// The EBCDIC byte of a character. Each character of a name has one; the blank for the others only fills in.
fn byte_of(c: char) -> u8
    ensures { result ≡ byte_of c }
{
    if c > '~' {
        return BLANK;
    }
    to_ebcdic(c as u32 as u8).unwrap_or(BLANK)
}

impl fmt::Display for Dsn {
    ghost output = { λ name. Some (shown name.bytes) };

    fn fmt<W: fmt::Write>(&self, f: &mut fmt::Formatter<W>) -> fmt::Result {
        write_characters(&self.bytes, f)
    }
}

impl fmt::Display for Name8 {
    ghost output = { λ name. Some (shown name.bytes) };

    fn fmt<W: fmt::Write>(&self, f: &mut fmt::Formatter<W>) -> fmt::Result {
        write_characters(&self.bytes, f)
    }
}

impl fmt::Display for Serial {
    ghost output = { λ serial. Some (shown serial.bytes) };

    fn fmt<W: fmt::Write>(&self, f: &mut fmt::Formatter<W>) -> fmt::Result {
        write_characters(&self.bytes, f)
    }
}

// Writes the characters of a name without the blanks after them.
fn write_characters<W: fmt::Write>(bytes: &[u8], f: &mut fmt::Formatter<W>) -> fmt::Result
    ensures { DisplaysOnOk W.write_str_gives f.old result (Some (shown bytes.now)) f.new }
{
    for e in without_blanks(bytes) {
        f.write_char(char::from(to_ascii(*e)))?;
    }
    Ok(())
}

/// The bytes of a name without the blanks, X'40', after them.
///
/// Blanks before or between other bytes stay, and a name of blanks alone gives no bytes.
pub fn without_blanks(bytes: &[u8]) -> &[u8]
    ensures name { result.now ≡ without_blanks bytes.now }
    ensures blanks { bytes.now ≡ result.now ++ replicate (length bytes.now - length result.now) 0x40 }
    ensures end { (front : List ℕ) → result.now ≢ front ++ 0x40 ∷ [] }
{
    &bytes[..bytes.len() - trailing_blanks(bytes)]
}

/// Adds a name in ASCII as `Display` prints it: without the blanks, X'40', after it.
///
/// A name of blanks alone adds nothing. The one error is want of memory, and on it nothing is added.
#[tactic(auto, unfolding(crate::specs::Names::shown))]
pub fn push_name_in_ascii(text: &mut Vec<u8>, name: &[u8]) -> Result<(), AllocError>
    ensures added { OnOk result (text.new.items ≡ text.old.items ++ shown name.now) }
    ensures kept { OnErr result (text.new.items ≡ text.old.items) }
{
    let characters = without_blanks(name);
    text.reserve(characters.len())?;
    for byte in characters {
        text.push(to_ascii(*byte)).unwrap();
    }
    Ok(())
}

// The number of blanks that bytes end with.
fn trailing_blanks(bytes: &[u8]) -> usize
    ensures count { result ≡ length (take_while (λ b. b == 0x40) (reverse bytes.now)) }
    ensures fits { result ≤ length bytes.now }
{
    bytes.iter().rev().take_while(|b| **b == BLANK).count()
}
