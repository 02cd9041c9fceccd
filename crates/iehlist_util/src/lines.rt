//! The lines of listings.
ghost use Rattle.std.specs.Prelude.{◌≡◌, ◌≤◌, ◌<◌, ◌++◌, IfOk, OnOk};
ghost use Rattle.std.specs.Fmt.{decimal};
ghost use Rattle.ebcdic_names.specs.Names.{shown};
ghost use Rattle.util_syntax.specs.Lines.{next_word};
ghost use Rattle.iehlist_util.specs.Lines.{attribute_words, date_word, directory_line, entry_line, extent_line, format_letter, format_word, hex_byte, hex_bytes, hex_digit, hex_number, left_in, letter_if, organization_word, padded_number, right_in, set_line, space_words, user_word, volume_line, word_and_number};

use ebcdic_names::{Dsn, push_name_in_ascii};
use itoa::Buffer;
use std::alloc::{AllocError, Global};
use vol_model::{Entry, Line, Run, SetInfo, VolumeInfo};

// The most columns that are filled in front of a number.
const MOST_COLUMNS: usize = 5;

const BLANKS: [u8; 44] = [b' '; 44];

const ZEROS: [u8; MOST_COLUMNS] = [b'0'; MOST_COLUMNS];

// The columns of a data set name.
const NAME_COLUMNS: usize = 44;

// The columns of a member's name.
const MEMBER_COLUMNS: usize = 8;

// The columns of a record format.
const FORMAT_COLUMNS: usize = 4;

// Adds a word after a blank.
fn push_word(line: &mut Vec<u8>, word: &[u8]) -> Result<(), AllocError>
    ensures { OnOk result (line.new.items ≡ line.old.items ++ next_word word.now) }
{
    line.push(b' ')?;
    line.extend_from_slice(word)
}

// Adds a text, and blanks after it up to so many columns.
#[tactic(auto, unfolding(crate::specs::Lines::left_in))]
fn push_left(line: &mut Vec<u8>, columns: usize, text: &[u8]) -> Result<(), AllocError>
    requires { columns ≤ 44 }
    ensures { OnOk result (line.new.items ≡ line.old.items ++ left_in columns text.now) }
{
    line.extend_from_slice(text)?;
    line.extend_from_slice(&BLANKS[..columns.saturating_sub(text.len())])
}

// Adds a number, and blanks in front of it up to so many columns.
#[tactic(auto, unfolding(crate::specs::Lines::padded_number))]
fn push_right(line: &mut Vec<u8>, columns: usize, number: u32) -> Result<(), AllocError>
    requires { columns ≤ 44 }
    ensures { OnOk result (line.new.items ≡ line.old.items ++ right_in columns number) }
{
    let mut buffer = Buffer::new();
    let digits = buffer.format(number);
    line.extend_from_slice(&BLANKS[..columns.saturating_sub(digits.len())])?;
    line.extend_from_slice(digits.as_bytes())
}

// Adds a number, and zeros in front of it up to so many columns.
#[tactic(auto, unfolding(crate::specs::Lines::padded_number))]
fn push_padded(line: &mut Vec<u8>, columns: usize, number: u32) -> Result<(), AllocError>
    requires { columns ≤ 5 }
    ensures { OnOk result (line.new.items ≡ line.old.items ++ padded_number columns 48 number) }
{
    let mut buffer = Buffer::new();
    let digits = buffer.format(number);
    line.extend_from_slice(&ZEROS[..columns.saturating_sub(digits.len())])?;
    line.extend_from_slice(digits.as_bytes())
}

// Adds a number in decimal after a blank.
fn push_number(line: &mut Vec<u8>, number: u32) -> Result<(), AllocError>
    ensures { OnOk result (line.new.items ≡ line.old.items ++ next_word (decimal number)) }
{
    let mut buffer = Buffer::new();
    let digits = buffer.format(number);
    push_word(line, digits.as_bytes())
}

// Adds a word and a number.
fn push_numbered(line: &mut Vec<u8>, word: &str, number: u32) -> Result<(), AllocError>
    ensures { OnOk result (line.new.items ≡ line.old.items ++ word_and_number word.now number) }
{
    push_word(line, word.as_bytes())?;
    push_number(line, number)
}

// Adds a number in so many columns after a blank.
fn push_column(line: &mut Vec<u8>, columns: usize, number: u32) -> Result<(), AllocError>
    requires { columns ≤ 44 }
    ensures { OnOk result (line.new.items ≡ line.old.items ++ next_word (right_in columns number)) }
{
    line.push(b' ')?;
    push_right(line, columns, number)
}

// Adds a name in ASCII after a blank.
fn push_name(line: &mut Vec<u8>, name: &[u8]) -> Result<(), AllocError>
    ensures { OnOk result (line.new.items ≡ line.old.items ++ next_word (shown name.now)) }
{
    line.push(b' ')?;
    push_name_in_ascii(line, name)
}

/// The line of a volume: `VTOC serial device CYLS n FREE t RUNS r SLOTS s`, with what is free: tracks, the runs in
/// which they lie, and slots of the VTOC.
///
/// It ends with a line feed. The one error is want of memory.
#[tactic(auto, unfolding(crate::specs::Lines::volume_line))]
pub fn volume_line(alloc: Global, info: &VolumeInfo) -> Result<Line, AllocError>
    ensures { IfOk result (λ line. line ≡ volume_line info.now) }
{
    let mut line = Vec::new(alloc);
    line.extend_from_slice(b"VTOC".as_slice())?;
    push_name(&mut line, &info.serial.bytes)?;
    push_word(&mut line, info.geometry.device.device_word().as_bytes())?;
    push_numbered(&mut line, "CYLS", u32::from(info.geometry.cylinders))?;
    push_numbered(&mut line, "FREE", info.free_tracks)?;
    push_numbered(&mut line, "RUNS", info.free_runs)?;
    push_numbered(&mut line, "SLOTS", info.free_slots)?;
    Line::ended(line)
}

// DSORG in two letters.
#[tactic(auto, unfolding(crate::specs::Lines::organization_word))]
fn organization_word(dsorg: u16) -> &'static str
    ensures { result.now ≡ organization_word dsorg }
{
    match dsorg / 512 {
        32 => "PS",
        1 => "PO",
        16 => "DA",
        64 => "IS",
        _ => "??",
    }
}

// The letter of a record format by the first two bits of RECFM.
fn format_letter(bits: u8) -> u8
    ensures { result ≡ format_letter bits }
{
    match bits {
        2 => b'F',
        1 => b'V',
        3 => b'U',
        _ => b'?',
    }
}

// Adds a letter where a bit is set.
fn push_letter(word: &mut Vec<u8>, recfm: u8, bit: u8, letter: u8) -> Result<(), AllocError>
    ensures { OnOk result (word.new.items ≡ word.old.items ++ letter_if recfm bit letter) }
{
    if recfm & bit != 0 {
        word.push(letter)?;
    }
    Ok(())
}

// RECFM in letters.
#[tactic(auto, unfolding(crate::specs::Lines::format_word))]
fn format_word(alloc: Global, recfm: u8) -> Result<Vec<u8>, AllocError>
    ensures { IfOk result (λ word. word.items ≡ format_word recfm) }
{
    let mut word = Vec::new(alloc);
    word.push(format_letter(recfm / 64))?;
    push_letter(&mut word, recfm, 0x10, b'B')?;
    push_letter(&mut word, recfm, 0x08, b'S')?;
    push_letter(&mut word, recfm, 0x04, b'A')?;
    push_letter(&mut word, recfm, 0x02, b'M')?;
    Ok(word)
}

// Adds a date as yyddd after a blank.
#[tactic(auto, unfolding(crate::specs::Lines::date_word))]
fn push_date(line: &mut Vec<u8>, date: &[u8; 3]) -> Result<(), AllocError>
    ensures { OnOk result (line.new.items ≡ line.old.items ++ next_word (date_word date.now)) }
{
    let year = u32::from(date[0]);
    let day = u32::from(date[1]) * 256 + u32::from(date[2]);
    line.push(b' ')?;
    push_padded(line, 2, year % 100)?;
    push_padded(line, 3, day % 1000)
}

// Adds the organization, the record format and the lengths of a data set.
fn push_attributes(line: &mut Vec<u8>, alloc: Global, info: &SetInfo) -> Result<(), AllocError>
    ensures { OnOk result (line.new.items ≡ line.old.items ++ attribute_words info.now) }
{
    push_word(line, organization_word(info.attr.dsorg).as_bytes())?;
    line.push(b' ')?;
    push_left(line, FORMAT_COLUMNS, &format_word(alloc, info.attr.recfm)?)?;
    push_column(line, 5, u32::from(info.attr.lrecl))?;
    push_column(line, 5, u32::from(info.attr.blksize))
}

// Adds the extents and tracks of a data set, and the dates of its creation and expiration.
fn push_space(line: &mut Vec<u8>, info: &SetInfo) -> Result<(), AllocError>
    ensures { OnOk result (line.new.items ≡ line.old.items ++ space_words info.now) }
{
    push_column(line, 2, u32::from(info.extents))?;
    push_column(line, 5, info.tracks)?;
    push_date(line, &info.attr.created)?;
    push_date(line, &info.attr.expires)
}

/// The line of a data set: its name in 44 columns, then DSORG (`PS`, `PO`, `DA`, `IS` or `??`), RECFM (`F`, `V`, `U` or
/// `?`, and `B`, `S`, `A`, `M`), LRECL and BLKSIZE in bytes, the numbers of its extents and tracks, and the dates of its
/// creation and expiration as yyddd.
///
/// It ends with a line feed. The one error is want of memory.
#[tactic(auto, unfolding(crate::specs::Lines::set_line))]
pub fn set_line(alloc: Global, name: &Dsn, info: &SetInfo) -> Result<Line, AllocError>
    ensures { IfOk result (λ line. line ≡ set_line name.now.bytes info.now) }
{
    let mut shown = Vec::new(alloc);
    push_name_in_ascii(&mut shown, &name.bytes)?;
    let mut line = Vec::new(alloc);
    push_left(&mut line, NAME_COLUMNS, &shown)?;
    push_attributes(&mut line, alloc, info)?;
    push_space(&mut line, info)?;
    Line::ended(line)
}

/// The line of an extent: its number in the data set, from 1, its first track on the volume, from 0, and the number of
/// its tracks.
///
/// It ends with a line feed. The one error is want of memory.
#[tactic(auto, unfolding(crate::specs::Lines::extent_line))]
pub fn extent_line(alloc: Global, number: u8, run: &Run) -> Result<Line, AllocError>
    ensures { IfOk result (λ line. line ≡ extent_line number run.now) }
{
    let mut line = Vec::new(alloc);
    line.extend_from_slice(b"  EXTENT".as_slice())?;
    push_column(&mut line, 2, u32::from(number))?;
    line.extend_from_slice(b" START".as_slice())?;
    push_column(&mut line, 5, u32::from(run.start))?;
    line.extend_from_slice(b" LENGTH".as_slice())?;
    push_column(&mut line, 5, u32::from(run.len))?;
    Line::ended(line)
}

/// The line of a directory: `PDS dsn DIRECTORY n MEMBERS m`, with the numbers of its blocks and of its entries.
///
/// It ends with a line feed. The one error is want of memory.
#[tactic(auto, unfolding(crate::specs::Lines::directory_line))]
pub fn directory_line(
    alloc: Global,
    name: &Dsn,
    blocks: u32,
    members: u32,
) -> Result<Line, AllocError>
    ensures { IfOk result (λ line. line ≡ directory_line name.now.bytes blocks members) }
{
    let mut line = Vec::new(alloc);
    line.extend_from_slice(b"PDS".as_slice())?;
    push_name(&mut line, &name.bytes)?;
    push_numbered(&mut line, "DIRECTORY", blocks)?;
    push_numbered(&mut line, "MEMBERS", members)?;
    Line::ended(line)
}

// A hexadecimal digit, in capitals.
fn hex_digit(value: u8) -> u8
    requires { value < 16 }
    ensures { result ≡ hex_digit value }
{
    if value < 10 {
        b'0' + value
    } else {
        b'A' + (value - 10)
    }
}

// Adds a byte in two hexadecimal digits.
fn push_hex(line: &mut Vec<u8>, byte: u8) -> Result<(), AllocError>
    ensures { OnOk result (line.new.items ≡ line.old.items ++ hex_byte byte) }
{
    line.push(hex_digit(byte / 16))?;
    line.push(hex_digit(byte % 16))?;
    Ok(())
}

// Adds bytes in hexadecimal.
fn push_hex_bytes(line: &mut Vec<u8>, bytes: &[u8]) -> Result<(), AllocError>
    ensures { OnOk result (line.new.items ≡ line.old.items ++ hex_bytes bytes.now) }
{
    for byte in bytes {
        push_hex(line, *byte)?;
    }
    Ok(())
}

// Adds a byte in hexadecimal after a blank.
fn push_hex_byte(line: &mut Vec<u8>, byte: u8) -> Result<(), AllocError>
    ensures { OnOk result (line.new.items ≡ line.old.items ++ next_word (hex_byte byte)) }
{
    line.push(b' ')?;
    push_hex(line, byte)
}

// Adds a number in four hexadecimal digits after a blank.
fn push_hex_number(line: &mut Vec<u8>, number: u16) -> Result<(), AllocError>
    ensures { OnOk result (line.new.items ≡ line.old.items ++ next_word (hex_number number)) }
{
    push_hex_byte(line, (number / 256) as u8)?;
    push_hex(line, (number % 256) as u8)
}

// Adds user data in hexadecimal after a blank, where there are any.
fn push_user(line: &mut Vec<u8>, user: &[u8]) -> Result<(), AllocError>
    ensures { OnOk result (line.new.items ≡ line.old.items ++ user_word user.now) }
{
    if user.is_empty() {
        return Ok(());
    }
    line.push(b' ')?;
    push_hex_bytes(line, user)
}

/// The line of an entry of a directory: its name in eight columns, then in hexadecimal TT and R of its place, its C byte
/// and, where there are any, its user data.
///
/// It ends with a line feed. The one error is want of memory.
#[tactic(auto, unfolding(crate::specs::Lines::entry_line))]
pub fn entry_line(alloc: Global, entry: &Entry) -> Result<Line, AllocError>
    ensures { IfOk result (λ line. line ≡ entry_line entry.now) }
{
    let mut shown = Vec::new(alloc);
    push_name_in_ascii(&mut shown, &entry.name.bytes)?;
    let mut line = Vec::new(alloc);
    push_left(&mut line, MEMBER_COLUMNS, &shown)?;
    push_hex_number(&mut line, entry.place.tt)?;
    push_hex_byte(&mut line, entry.place.r)?;
    push_hex_byte(&mut line, entry.flags)?;
    push_user(&mut line, entry.user.as_slice())?;
    Line::ended(line)
}
