//! A block of the catalog, read from its bytes.
ghost use Rattle.std.specs.Prelude.{◌≡◌, ◌+◌, ◌%◌, ◌≤◌, length, map, take, IfOk};
ghost use Rattle.catalog_blocks.specs.Blocks.{AreForBlock, Decodes, block_in, breaks, entries_from, front_entry, front_length, front_number, front_place, is_link};

use crate::blocks::{BadBlock, CatBlock, CatEntries, CatEntry, FRONT_LEN};
use ebcdic_names::Name8;
use std::alloc::{AllocError, Global};
use vol_model::{Place, Text};

// The bytes of an entry's name.
const NAME_LEN: usize = 8;

// The bytes that count the used ones.
pub(crate) const COUNT_LEN: usize = 2;

// The name of a link entry.
pub(crate) const LINK_NAME: [u8; 8] = [0xFF; 8];

/// What the 256 bytes of a block of the catalog hold.
///
/// Two bytes count the used ones, themselves among them, 14 to 256; then come the entries in the order
/// of their names, and a link entry, which ends the block. `At` carries the first byte, from 0, that
/// breaks this form; what stands after the used bytes isn't judged. `Memory` comes if memory runs out
/// (the catalog of System Control Blocks GC28-6628; its blocks: this project's profile).
pub fn decode_block(alloc: Global, bytes: &[u8; 256]) -> Result<CatBlock, BadBlock>
    ensures block { Decodes result (block_in bytes.now) }
    ensures entries { IfOk result (λ b. AreForBlock b.entries) }
{
    let used = usize::from(u16::from_be_bytes([bytes[0], bytes[1]]));
    if used < COUNT_LEN + FRONT_LEN || used > bytes.len() {
        return Err(BadBlock::At(0));
    }
    entries_in(alloc, &bytes[COUNT_LEN..used])
}

// What the used bytes of a block hold.
fn entries_in(alloc: Global, bytes: &[u8]) -> Result<CatBlock, BadBlock>
    requires { length bytes.now ≤ 254 }
    ensures { Decodes result (entries_from (length bytes.now) 2 0 bytes.now) }
{
    let mut entries = CatEntries::new(alloc);
    let mut rest = bytes;
    let mut at = COUNT_LEN as u16;
    let mut bound: u128 = 0;
    while !breaks(rest, bound) {
        if is_link(rest) {
            let next = front_place(rest);
            return Ok(CatBlock { entries, next });
        }
        let len = front_length(rest);
        let Ok(entry) = front_entry(alloc, rest) else {
            return Err(BadBlock::Memory);
        };
        let Ok(()) = entries.push(entry) else {
            return Err(BadBlock::Memory);
        };
        bound = front_number(rest) + 1;
        at += len as u16;
        rest = &rest[len..];
    }
    Err(BadBlock::At(at))
}

// Whether no entry can stand at the front of bytes, with a name from this number on.
fn breaks(bytes: &[u8], bound: u128) -> bool
    ensures { result ≡ breaks bound bytes.now }
{
    bytes.len() < FRONT_LEN
        || bytes.len() < front_length(bytes)
        || front_number(bytes) < bound
        || (is_link(bytes) && bytes.len() != FRONT_LEN)
}

// The bytes of the entry at the front.
fn front_length(bytes: &[u8]) -> usize
    requires { 12 ≤ length bytes.now }
    ensures { result ≡ front_length bytes.now }
{
    FRONT_LEN + 2 * usize::from(bytes[11])
}

// The number that its name spells.
fn front_number(bytes: &[u8]) -> u128
    requires { 12 ≤ length bytes.now }
    ensures { result ≡ front_number bytes.now }
{
    u128::from(u64::from_be_bytes(front_name(bytes).bytes))
}

// Whether it is a link entry.
fn is_link(bytes: &[u8]) -> bool
    requires { 12 ≤ length bytes.now }
    ensures { result ≡ is_link bytes.now }
{
    bytes[..NAME_LEN] == LINK_NAME[..]
}

// Its name.
fn front_name(bytes: &[u8]) -> Name8
    requires { 12 ≤ length bytes.now }
    ensures { result ≡ record { bytes = take 8 bytes.now } }
{
    let mut name = [0; 8];
    name.copy_from_slice(&bytes[..NAME_LEN]);
    Name8 { bytes: name }
}

// Its TTR.
fn front_place(bytes: &[u8]) -> Place
    requires { 12 ≤ length bytes.now }
    ensures { result ≡ front_place bytes.now }
{
    Place {
        tt: u16::from_be_bytes([bytes[8], bytes[9]]),
        r: bytes[10],
    }
}

// The entry itself. The error comes if memory runs out.
fn front_entry(alloc: Global, bytes: &[u8]) -> Result<CatEntry, AllocError>
    requires front { 12 ≤ length bytes.now }
    requires inside { front_length bytes.now ≤ length bytes.now }
    ensures { IfOk result (λ e. e ≡ front_entry bytes.now) }
{
    let len = front_length(bytes);
    Ok(CatEntry {
        name: front_name(bytes),
        place: front_place(bytes),
        payload: Text::from_vec(Vec::from_slice(alloc, &bytes[FRONT_LEN..len])?),
    })
}
