//! From the fields of a DSCB to the 140 bytes of its slot.
ghost use Rattle.std.specs.Prelude.{◌≡◌, ◌+◌, ◌*◌, ◌^◌, ◌≤◌, ◌<◌, ◌++◌, ℕ, List, Ok, length, map, take};
ghost use Rattle.std.specs.List.{concat};
ghost use Rattle.std.specs.Int.{w16, w32, to_be_bytes};
ghost use Rattle.dscb_codec.specs.Layout.{AreBytes, AreRows, decoded, f1_of, f3_of, f4_of, f5_of, format_byte};

use crate::{Dscb, F1, F3, F4, F5, FORMAT_1, FORMAT_3, FORMAT_4, FORMAT_5};

// A number in a field of two bytes.
fn halfword_bytes(number: u16) -> [u8; 2]
    ensures bytes { result ≡ to_be_bytes w16 number }
    ensures fits { number < 2 ^ 16 }
{
    number.to_be_bytes()
}

// A number in a field of four bytes.
fn word_bytes(number: u32) -> [u8; 4]
    ensures bytes { result ≡ to_be_bytes w32 number }
    ensures fits { number < 2 ^ 32 }
{
    number.to_be_bytes()
}

// Copies a part to its place and gives the offset after it. Nothing is said of the bytes from there on: parts
// are copied from front to back, so these are still to come.
fn copy_part(out: &mut [u8], from: usize, part: &[u8]) -> usize
    requires { from + length part.now ≤ length out.old }
    ensures front { take result out.new ≡ take from out.old ++ part.now }
    ensures behind { result ≡ from + length part.now }
    ensures inside { result ≤ length out.old }
{
    let behind = from + part.len();
    out[from..behind].copy_from_slice(part);
    behind
}

// The same of a row, whose length its type gives.
fn copy_row<const N: usize>(out: &mut [u8], from: usize, row: &[u8; N]) -> usize
    requires { from + N ≤ length out.old }
    ensures front { take result out.new ≡ take from out.old ++ row.now }
    ensures behind { result ≡ from + N }
    ensures wide { length row.now ≡ N }
{
    copy_part(out, from, row)
}

// The bytes of a field of rows.
fn flat<const N: usize, const M: usize, const T: usize>(rows: &[[u8; N]; M]) -> [u8; T]
    requires { T ≡ N * M }
    ensures bytes { result ≡ concat rows.now }
    ensures rows { AreRows N M rows.now }
{
    let mut out = [0; T];
    let mut at = 0;
    for row in rows {
        at = copy_row(&mut out, at, row);
    }
    out
}

// The bytes of the fields, one after another.
fn joined(parts: &[&[u8]]) -> [u8; 140]
    requires { length (concat (map (λ part. part.now) parts.now)) ≡ 140 }
    ensures { result ≡ concat (map (λ part. part.now) parts.now) }
{
    let mut out = [0; 140];
    let mut at = 0;
    for part in parts {
        at = copy_part(&mut out, at, part);
    }
    out
}

fn f1_bytes(f: &F1) -> [u8; 140]
    ensures format { format_byte result ≡ FORMAT_1 }
    ensures fields { f1_of result ≡ f.now }
    ensures only { (bytes : List ℕ) → length bytes ≡ 140 → AreBytes bytes
        → format_byte bytes ≡ FORMAT_1 → f1_of bytes ≡ f.now → bytes ≡ result }
{
    let runs: [u8; 30] = flat(&f.runs);
    joined(&[
        &f.name,
        &[FORMAT_1],
        &f.serial,
        &halfword_bytes(f.volseq),
        &f.created,
        &f.expires,
        &[f.extents, f.dir_used],
        &f.res61,
        &f.system,
        &f.res75,
        &halfword_bytes(f.dsorg),
        &[f.recfm, f.optcd],
        &halfword_bytes(f.blksize),
        &halfword_bytes(f.lrecl),
        &[f.keylen],
        &halfword_bytes(f.rkp),
        &[f.indicators],
        &word_bytes(f.scalo),
        &f.lstar,
        &halfword_bytes(f.balance),
        &f.res103,
        &runs,
        &f.pointer,
    ])
}

fn f3_bytes(f: &F3) -> [u8; 140]
    ensures format { format_byte result ≡ FORMAT_3 }
    ensures fields { f3_of result ≡ f.now }
    ensures only { (bytes : List ℕ) → length bytes ≡ 140 → AreBytes bytes
        → format_byte bytes ≡ FORMAT_3 → f3_of bytes ≡ f.now → bytes ≡ result }
{
    let front: [u8; 40] = flat(&f.front);
    let back: [u8; 90] = flat(&f.back);
    joined(&[&word_bytes(f.id), &front, &[FORMAT_3], &back, &f.pointer])
}

fn f4_bytes(f: &F4) -> [u8; 140]
    ensures format { format_byte result ≡ FORMAT_4 }
    ensures fields { f4_of result ≡ f.now }
    ensures only { (bytes : List ℕ) → length bytes ≡ 140 → AreBytes bytes
        → format_byte bytes ≡ FORMAT_4 → f4_of bytes ≡ f.now → bytes ≡ result }
{
    joined(&[
        &f.id,
        &[FORMAT_4],
        &f.highest,
        &halfword_bytes(f.free),
        &word_bytes(f.next_alt),
        &halfword_bytes(f.alternates),
        &[f.indicators, f.extents],
        &f.res60,
        &word_bytes(f.size),
        &halfword_bytes(f.capacity),
        &[f.i, f.l, f.k, f.flag],
        &halfword_bytes(f.tolerance),
        &[f.dscbs, f.dirs],
        &f.res76,
        &f.vtoc,
        &f.res115,
    ])
}

fn f5_bytes(f: &F5) -> [u8; 140]
    ensures format { format_byte result ≡ FORMAT_5 }
    ensures fields { f5_of result ≡ f.now }
    ensures only { (bytes : List ℕ) → length bytes ≡ 140 → AreBytes bytes
        → format_byte bytes ≡ FORMAT_5 → f5_of bytes ≡ f.now → bytes ≡ result }
{
    let front: [u8; 40] = flat(&f.front);
    let back: [u8; 90] = flat(&f.back);
    joined(&[&word_bytes(f.id), &front, &[FORMAT_5], &back, &f.pointer])
}

/// The 140 bytes of a slot's key and data that a DSCB has.
///
/// The reserved bytes are fields too, so no other bytes decode to this DSCB: of one that was decoded these are
/// the bytes that it came from.
pub fn encode(dscb: &Dscb) -> [u8; 140]
    ensures decoded { decoded result ≡ Ok dscb.now }
    ensures only { (bytes : List ℕ) → length bytes ≡ 140 → AreBytes bytes
        → decoded bytes ≡ Ok dscb.now → bytes ≡ result }
{
    match dscb {
        Dscb::F0 => [0; 140],
        Dscb::F1(f) => f1_bytes(f),
        Dscb::F3(f) => f3_bytes(f),
        Dscb::F4(f) => f4_bytes(f),
        Dscb::F5(f) => f5_bytes(f),
    }
}
