//! EBCDIC, the code of names and texts on OS/360 packs.
#![tactic(auto)]

ghost use Rattle.std.specs.Prelude.{◌≡◌, ◌≤◌, ◌<◌, ℕ, MatchOption, Contains, Some};
ghost use Rattle.ebcdic_names.specs.CodePage.{ascii_of, code_page, ebcdic_of};

// The characters of the 256 bytes, sixteen a row. A byte that has none prints as a period.
#[rattlefmt::skip]
static ASCII: [u8; 256] = [
    b'.', b'.', b'.', b'.', b'.', b'.', b'.', b'.', b'.', b'.', b'.', b'.', b'.', b'.', b'.', b'.',
    b'.', b'.', b'.', b'.', b'.', b'.', b'.', b'.', b'.', b'.', b'.', b'.', b'.', b'.', b'.', b'.',
    b'.', b'.', b'.', b'.', b'.', b'.', b'.', b'.', b'.', b'.', b'.', b'.', b'.', b'.', b'.', b'.',
    b'.', b'.', b'.', b'.', b'.', b'.', b'.', b'.', b'.', b'.', b'.', b'.', b'.', b'.', b'.', b'.',
    b' ', b'.', b'.', b'.', b'.', b'.', b'.', b'.', b'.', b'.', b'.', b'.', b'<', b'(', b'+', b'|',
    b'&', b'.', b'.', b'.', b'.', b'.', b'.', b'.', b'.', b'.', b'!', b'$', b'*', b')', b';', b'.',
    b'-', b'/', b'.', b'.', b'.', b'.', b'.', b'.', b'.', b'.', b'.', b',', b'%', b'_', b'>', b'?',
    b'.', b'.', b'.', b'.', b'.', b'.', b'.', b'.', b'.', b'`', b':', b'#', b'@', b'\'', b'=', b'"',
    b'.', b'a', b'b', b'c', b'd', b'e', b'f', b'g', b'h', b'i', b'.', b'.', b'.', b'.', b'.', b'.',
    b'.', b'j', b'k', b'l', b'm', b'n', b'o', b'p', b'q', b'r', b'.', b'.', b'.', b'.', b'.', b'.',
    b'.', b'~', b's', b't', b'u', b'v', b'w', b'x', b'y', b'z', b'.', b'.', b'.', b'.', b'.', b'.',
    b'^', b'.', b'.', b'.', b'.', b'.', b'.', b'.', b'.', b'.', b'[', b']', b'.', b'.', b'.', b'.',
    b'{', b'A', b'B', b'C', b'D', b'E', b'F', b'G', b'H', b'I', b'.', b'.', b'.', b'.', b'.', b'.',
    b'}', b'J', b'K', b'L', b'M', b'N', b'O', b'P', b'Q', b'R', b'.', b'.', b'.', b'.', b'.', b'.',
    b'\\', b'.', b'S', b'T', b'U', b'V', b'W', b'X', b'Y', b'Z', b'.', b'.', b'.', b'.', b'.', b'.',
    b'0', b'1', b'2', b'3', b'4', b'5', b'6', b'7', b'8', b'9', b'.', b'.', b'.', b'.', b'.', b'.',
];

/// The printable ASCII character, 32 to 126, of an EBCDIC byte in code page 037.
///
/// A byte that stands for none of these 95 characters gives a period.
pub fn to_ascii(e: u8) -> u8
    ensures { result ≡ ascii_of e }
{
    ASCII[e as usize]
}

// The EBCDIC bytes of the characters from the blank to the tilde, in the order of ASCII.
#[rattlefmt::skip]
static EBCDIC: [u8; 95] = [
    0x40, 0x5A, 0x7F, 0x7B, 0x5B, 0x6C, 0x50, 0x7D, 0x4D, 0x5D, 0x5C, 0x4E, 0x6B, 0x60, 0x4B, 0x61,
    0xF0, 0xF1, 0xF2, 0xF3, 0xF4, 0xF5, 0xF6, 0xF7, 0xF8, 0xF9, 0x7A, 0x5E, 0x4C, 0x7E, 0x6E, 0x6F,
    0x7C, 0xC1, 0xC2, 0xC3, 0xC4, 0xC5, 0xC6, 0xC7, 0xC8, 0xC9, 0xD1, 0xD2, 0xD3, 0xD4, 0xD5, 0xD6,
    0xD7, 0xD8, 0xD9, 0xE2, 0xE3, 0xE4, 0xE5, 0xE6, 0xE7, 0xE8, 0xE9, 0xBA, 0xE0, 0xBB, 0xB0, 0x6D,
    0x79, 0x81, 0x82, 0x83, 0x84, 0x85, 0x86, 0x87, 0x88, 0x89, 0x91, 0x92, 0x93, 0x94, 0x95, 0x96,
    0x97, 0x98, 0x99, 0xA2, 0xA3, 0xA4, 0xA5, 0xA6, 0xA7, 0xA8, 0xA9, 0xC0, 0x4F, 0xD0, 0xA1,
];

/// The EBCDIC byte, in code page 037, of a printable ASCII character, 32 to 126.
///
/// Any other byte gives `None`.
pub fn to_ebcdic(c: u8) -> Option<u8>
    ensures { result ≡ ebcdic_of c }
{
    if c < b' ' {
        return None;
    }
    if c > b'~' {
        return None;
    }
    Some(EBCDIC[usize::from(c - b' ')])
}

/// The two ways of the code page undo one another: the byte of each of the 95 printable characters
/// has that character, and the character of each byte of the code page has that byte.
pub fn code_page_law()
    ensures character { (c : ℕ) → 32 ≤ c → c < 127 → MatchOption (ebcdic_of c) ⊥ (λ e. ascii_of e ≡ c) }
    ensures byte { (e : ℕ) → Contains code_page e → ebcdic_of (ascii_of e) ≡ Some e }
{}

mod lists;
mod names;

pub use lists::{Listed, Text};
pub use names::{Dsn, Name8, NameErr, Serial, push_name_in_ascii, without_blanks};

#[cfg(test)]
mod tests;
