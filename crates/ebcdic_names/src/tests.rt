use super::{Dsn, Name8, NameErr, Serial, push_name_in_ascii, to_ascii, to_ebcdic};
use std::test::Fail;

// The characters of the code page, each row after the byte of its first character.
const ROWS: [(u8, &[u8]); 16] = [
    (0x40, b" "),
    (0x4B, b".<(+|&"),
    (0x5A, b"!$*);"),
    (0x60, b"-/"),
    (0x6B, b",%_>?"),
    (0x79, b"`:#@'=\""),
    (0x81, b"abcdefghi"),
    (0x91, b"jklmnopqr"),
    (0xA1, b"~stuvwxyz"),
    (0xB0, b"^"),
    (0xBA, b"[]"),
    (0xC0, b"{ABCDEFGHI"),
    (0xD0, b"}JKLMNOPQR"),
    (0xE0, b"\\"),
    (0xE2, b"STUVWXYZ"),
    (0xF0, b"0123456789"),
];

#[test]
fn whole_code_page(rt: HostRuntime) {
    let mut page = [b'.'; 256];
    for (first, characters) in ROWS {
        for (byte, character) in (first..=0xFF).zip(characters) {
            page[usize::from(byte)] = *character;
            assert_eq!(rt; to_ebcdic(*character), Some(byte), "of {character}");
        }
    }
    for byte in 0..=0xFF {
        assert_eq!(rt; to_ascii(byte), page[usize::from(byte)], "at {byte:02X}");
    }
    for character in (0..32).chain(127..=0xFF) {
        assert_eq!(rt; to_ebcdic(character), None, "of {character}");
    }
}

// Data set names that are refused, each with its error.
const BAD_DSNS: [(&str, NameErr); 8] = [
    ("", NameErr::Empty),
    (
        "?????????????????????????????????????????????",
        NameErr::TooLong,
    ),
    ("A..B", NameErr::BadLevel(1)),
    ("A.B.", NameErr::BadLevel(2)),
    ("A2345678?", NameErr::BadLevel(0)),
    ("A2345678é.?", NameErr::BadLevel(0)),
    ("SYS1.1A", NameErr::BadChar(5)),
    ("A.-B", NameErr::BadChar(2)),
];

// The same of names of one level.
const BAD_NAMES: [(&str, NameErr); 5] = [
    ("A.B", NameErr::BadChar(1)),
    ("A23-", NameErr::BadChar(3)),
    ("A23456789", NameErr::BadLevel(0)),
    (
        "A2345678901234567890123456789012345678901234",
        NameErr::BadLevel(0),
    ),
    (
        "A23456789012345678901234567890123456789012345",
        NameErr::TooLong,
    ),
];

// The same of volume serials.
const BAD_SERIALS: [(&str, NameErr); 3] = [
    ("", NameErr::Empty),
    ("?234567", NameErr::TooLong),
    ("AB-1", NameErr::BadChar(2)),
];

#[test]
fn names_and_their_faults(rt: HostRuntime) -> Result<(), Fail> {
    for (text, fault) in BAD_DSNS {
        assert_eq!(rt; Dsn::read(text), Err(fault), "{text}");
    }
    for (text, fault) in BAD_NAMES {
        assert_eq!(rt; Name8::read(text), Err(fault), "{text}");
    }
    for (text, fault) in BAD_SERIALS {
        assert_eq!(rt; Serial::read(text), Err(fault), "{text}");
    }
    let mut bytes = [0x40; 44];
    bytes[..6].copy_from_slice(&[0xE2, 0xE8, 0xE2, 0xF1, 0x4B, 0xC1]);
    let name = Dsn { bytes };
    assert_eq!(rt; Dsn::read("SYS1.A"), Ok(name));
    let alloc = rt.alloc();
    let shown = name.to_string(alloc)?;
    assert_eq!(rt; shown.as_str(), "SYS1.A");
    // Blanks in front of and between other bytes stay.
    let mut text = Vec::from_slice(alloc, b"> ")?;
    push_name_in_ascii(&mut text, &[0x40, 0xC1, 0x40, 0x00, 0x40, 0x40])?;
    assert_eq!(rt; text.as_slice(), b">  A .".as_slice());
    Ok(())
}
