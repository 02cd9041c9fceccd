//! From the 140 bytes of a slot to the fields of its DSCB.
ghost use Rattle.std.specs.Prelude.{◌≡◌, ◌+◌, ◌*◌, ◌≤◌, ◌<◌};
ghost use Rattle.dscb_codec.specs.Layout.{byte, decoded, f1_of, f3_of, f4_of, f5_of, half, is_zeros, part, rows, word};

use crate::{
    Dscb, DscbErr, F1, F3, F4, F5, FORMAT_1, FORMAT_2, FORMAT_3, FORMAT_4, FORMAT_5, FORMAT_6,
    FORMAT_AT,
};

// The N bytes of a field.
fn array_at<const N: usize>(bytes: &[u8; 140], at: usize) -> [u8; N]
    requires { at + N ≤ 140 }
    ensures { result ≡ part bytes.now at N }
{
    let mut items = [0; N];
    items.copy_from_slice(&bytes[at..at + N]);
    items
}

// The M rows of N bytes of a field.
fn rows_at<const N: usize, const M: usize>(bytes: &[u8; 140], at: usize) -> [[u8; N]; M]
    requires nonempty { 0 < N }
    requires room { at + N * M ≤ 140 }
    ensures { result ≡ rows bytes.now at M N }
{
    let (found, _) = bytes[at..at + N * M].as_chunks();
    let mut rows = [[0; N]; M];
    rows.copy_from_slice(found);
    rows
}

// The field of one byte.
fn byte_at(bytes: &[u8; 140], at: usize) -> u8
    requires { at < 140 }
    ensures { result ≡ byte bytes.now at }
{
    bytes[at]
}

// The number in a field of two bytes.
fn halfword_at(bytes: &[u8; 140], at: usize) -> u16
    requires { at + 2 ≤ 140 }
    ensures { result ≡ half bytes.now at }
{
    u16::from_be_bytes(array_at(bytes, at))
}

// The number in a field of four bytes.
fn word_at(bytes: &[u8; 140], at: usize) -> u32
    requires { at + 4 ≤ 140 }
    ensures { result ≡ word bytes.now at }
{
    u32::from_be_bytes(array_at(bytes, at))
}

#[tactic(auto, unfolding(crate::specs::Layout::f1_of))]
fn f1_of(bytes: &[u8; 140]) -> F1
    ensures { result ≡ f1_of bytes.now }
{
    F1 {
        name: array_at(bytes, 0),
        serial: array_at(bytes, 45),
        volseq: halfword_at(bytes, 51),
        created: array_at(bytes, 53),
        expires: array_at(bytes, 56),
        extents: byte_at(bytes, 59),
        dir_used: byte_at(bytes, 60),
        res61: array_at(bytes, 61),
        system: array_at(bytes, 62),
        res75: array_at(bytes, 75),
        dsorg: halfword_at(bytes, 82),
        recfm: byte_at(bytes, 84),
        optcd: byte_at(bytes, 85),
        blksize: halfword_at(bytes, 86),
        lrecl: halfword_at(bytes, 88),
        keylen: byte_at(bytes, 90),
        rkp: halfword_at(bytes, 91),
        indicators: byte_at(bytes, 93),
        scalo: word_at(bytes, 94),
        lstar: array_at(bytes, 98),
        balance: halfword_at(bytes, 101),
        res103: array_at(bytes, 103),
        runs: rows_at(bytes, 105),
        pointer: array_at(bytes, 135),
    }
}

#[tactic(auto, unfolding(crate::specs::Layout::f3_of))]
fn f3_of(bytes: &[u8; 140]) -> F3
    ensures { result ≡ f3_of bytes.now }
{
    F3 {
        id: word_at(bytes, 0),
        front: rows_at(bytes, 4),
        back: rows_at(bytes, 45),
        pointer: array_at(bytes, 135),
    }
}

#[tactic(auto, unfolding(crate::specs::Layout::f4_of))]
fn f4_of(bytes: &[u8; 140]) -> F4
    ensures { result ≡ f4_of bytes.now }
{
    F4 {
        id: array_at(bytes, 0),
        highest: array_at(bytes, 45),
        free: halfword_at(bytes, 50),
        next_alt: word_at(bytes, 52),
        alternates: halfword_at(bytes, 56),
        indicators: byte_at(bytes, 58),
        extents: byte_at(bytes, 59),
        res60: array_at(bytes, 60),
        size: word_at(bytes, 62),
        capacity: halfword_at(bytes, 66),
        i: byte_at(bytes, 68),
        l: byte_at(bytes, 69),
        k: byte_at(bytes, 70),
        flag: byte_at(bytes, 71),
        tolerance: halfword_at(bytes, 72),
        dscbs: byte_at(bytes, 74),
        dirs: byte_at(bytes, 75),
        res76: array_at(bytes, 76),
        vtoc: array_at(bytes, 105),
        res115: array_at(bytes, 115),
    }
}

#[tactic(auto, unfolding(crate::specs::Layout::f5_of))]
fn f5_of(bytes: &[u8; 140]) -> F5
    ensures { result ≡ f5_of bytes.now }
{
    F5 {
        id: word_at(bytes, 0),
        front: rows_at(bytes, 4),
        back: rows_at(bytes, 45),
        pointer: array_at(bytes, 135),
    }
}

fn are_zeros(bytes: &[u8; 140]) -> bool
    ensures { result ≡ is_zeros bytes.now }
{
    bytes.iter().all(|byte| *byte == 0)
}

/// The DSCB that the 140 bytes of a slot's key and data are.
///
/// The byte at 44 tells the format, and no other byte is judged, but for format 0, whose bytes are
/// all zero. It is `Unsupported` for X'F2' and X'F6', and `BadFormat` for any other byte than
/// X'F1', X'F3', X'F4' and X'F5', for zero too where another byte isn't zero; both carry that byte.
#[tactic(auto, unfolding(crate::specs::Layout::decoded))]
pub fn decode(bytes: &[u8; 140]) -> Result<Dscb, DscbErr>
    ensures { result ≡ decoded bytes.now }
{
    match bytes[FORMAT_AT] {
        FORMAT_1 => Ok(Dscb::F1(f1_of(bytes))),
        FORMAT_3 => Ok(Dscb::F3(f3_of(bytes))),
        FORMAT_4 => Ok(Dscb::F4(f4_of(bytes))),
        FORMAT_5 => Ok(Dscb::F5(f5_of(bytes))),
        format @ (FORMAT_2 | FORMAT_6) => Err(DscbErr::Unsupported(format)),
        _ if are_zeros(bytes) => Ok(Dscb::F0),
        format => Err(DscbErr::BadFormat(format)),
    }
}
