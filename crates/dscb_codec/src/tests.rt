//! DSCBs of a data set and of a VTOC, as they stand on a pack.
ghost use Rattle.std.specs.Prelude.{◌<◌};

use super::*;
use std::process::Abort;

// Each text is the 140 bytes of a DSCB, field by field in the order of its format, in hexadecimal.
// Reserved bytes hold their own offset.
const FORMAT_1_TEXT: &str = "\
    E2E8E2F14BD3C9D5D2D3C9C2 40404040404040404040404040404040 40404040404040404040404040404040 \
    F1 E5D6D3F0F0F1 0001 4A007B 63016D \
    02 4C 3D \
    C9C2D4D6E2E5E2F24040404040 4B4C4D4E4F5051 \
    0200 C0 20 0E29 0050 0A 0103 81 \
    C8000005 001203 0BB8 6768 \
    81000001000000040013 01010007000200070009 00000000000000000000 0000000105";

const FORMAT_4_TEXT: &str = "\
    04040404040404040404040404040404040404040404 04040404040404040404040404040404040404040404 \
    F4 0000000112 0102 00C80000 0003 84 01 3C3D \
    00CB000A 0E29 51 14 13 01 0219 10 0A \
    4C4D4E4F505152535455565758595A5B5C5D5E5F606162636465666768 \
    01000000000100000009 \
    737475767778797A7B7C7D7E7F808182838485868788898A8B";

// The value of a hexadecimal digit.
fn digit_of(digit: u8) -> u8
    ensures { result < 16 }
{
    match digit {
        b'0'..=b'9' => digit - b'0',
        b'A'..=b'F' => digit - b'A' + 10,
        _ => 0,
    }
}

// The bytes that a text spells, whose blanks count for nothing.
fn bytes_of(rt: &impl Abort, text: &str) -> [u8; 140] {
    let mut bytes = [0; 140];
    let mut count = 0;
    for digit in text.bytes().filter(|digit| *digit != b' ') {
        assert!(rt; count < 280);
        bytes[count / 2] = bytes[count / 2] % 16 * 16 + digit_of(digit);
        count += 1;
    }
    assert_eq!(rt; count, 280);
    bytes
}

#[test]
fn format_1_with_two_extents(rt: HostRuntime) {
    let mut name = [0x40; 44];
    name[..12].copy_from_slice(&[
        0xE2, 0xE8, 0xE2, 0xF1, 0x4B, 0xD3, 0xC9, 0xD5, 0xD2, 0xD3, 0xC9, 0xC2,
    ]);
    let expected = F1 {
        name,
        serial: [0xE5, 0xD6, 0xD3, 0xF0, 0xF0, 0xF1],
        volseq: 1,
        created: [74, 0, 123],
        expires: [99, 1, 109],
        extents: 2,
        dir_used: 76,
        res61: [61],
        system: [
            0xC9, 0xC2, 0xD4, 0xD6, 0xE2, 0xE5, 0xE2, 0xF2, 0x40, 0x40, 0x40, 0x40, 0x40,
        ],
        res75: [75, 76, 77, 78, 79, 80, 81],
        dsorg: 0x0200,
        recfm: 0xC0,
        optcd: 0x20,
        blksize: 3625,
        lrecl: 80,
        keylen: 10,
        rkp: 259,
        indicators: 0x81,
        scalo: 0xC800_0005,
        lstar: [0, 18, 3],
        balance: 3000,
        res103: [103, 104],
        runs: [
            [0x81, 0, 0, 1, 0, 0, 0, 4, 0, 19],
            [1, 1, 0, 7, 0, 2, 0, 7, 0, 9],
            [0; 10],
        ],
        pointer: [0, 0, 0, 1, 5],
    };
    let bytes = bytes_of(&rt, FORMAT_1_TEXT);
    assert_eq!(rt; decode(&bytes), Ok(Dscb::F1(expected)));
    assert_eq!(rt; encode(&Dscb::F1(expected)), bytes);
}

#[test]
fn format_4_with_each_field(rt: HostRuntime) {
    let bytes = bytes_of(&rt, FORMAT_4_TEXT);
    let Ok(Dscb::F4(found)) = decode(&bytes) else {
        panic!(&rt; "format 4 is refused")
    };
    assert_eq!(rt; found.id, [4; 44]);
    assert_eq!(rt; found.highest, [0, 0, 0, 1, 0x12]);
    assert_eq!(rt;
        (found.free, found.next_alt, found.alternates),
        (258, 0x00C8_0000, 3)
    );
    assert_eq!(rt;
        (found.indicators, found.extents, found.res60),
        (0x84, 1, [60, 61])
    );
    assert_eq!(rt; (found.size, found.capacity), (0x00CB_000A, 3625));
    assert_eq!(rt;
        (found.i, found.l, found.k, found.flag, found.tolerance),
        (81, 20, 19, 1, 537)
    );
    assert_eq!(rt; (found.dscbs, found.dirs), (16, 10));
    assert_eq!(rt; (found.res76[0], found.res76[28]), (76, 104));
    assert_eq!(rt; found.vtoc, [1, 0, 0, 0, 0, 1, 0, 0, 0, 9]);
    assert_eq!(rt; (found.res115[0], found.res115[24]), (115, 139));
    assert_eq!(rt; encode(&Dscb::F4(found)), bytes);
}
