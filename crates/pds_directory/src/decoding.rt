//! What a directory block holds.
ghost use Rattle.std.specs.Prelude.{◌≡◌, ◌≢◌, ◌%◌, ◌≤◌, [], length, map, take, IfOk, IfSome};
ghost use Rattle.std.specs.Option.{option_map};
ghost use Rattle.pack_spec.specs.Directories.{block_entries, entries_from, front_entry, front_length, rise_from};
ghost use Rattle.pds_directory.specs.Entries.{AreOfBlock, IsFront, stored_of};

use crate::encoding::COUNT_LEN;
use crate::entry::{DirEntry, END_NAME, FRONT_LEN};
use ebcdic_names::Name8;
use std::alloc::{AllocError, Global};
use vol_model::{Entry, Place, Text};

// The bytes of an entry's name.
const NAME_LEN: usize = 8;

/// What a directory block holds.
#[derive(Debug, Drop)]
pub struct DirBlock {
    /// Its entries, in the order of their names.
    pub entries: Vec<DirEntry>,
    /// Whether the end entry stands after them, so that the block ends the directory.
    pub ends: bool,
}

// What stands at the front of the used bytes of a block.
#[derive(Clone, Copy)]
pub(crate) enum Front {
    // An entry, which takes so many bytes.
    Entry(usize),
    // The entry that ends the directory.
    End,
    // An entry that leaves the bytes.
    Broken,
}

/// What the 256 bytes of a directory block hold; `None` where they break its format.
///
/// They break it where the count of used bytes isn't 2 to 256, where an entry leaves these bytes,
/// or where the names don't rise (System Control Blocks GC28-6628; which blocks can't be read: this
/// project's profile). The error comes if memory runs out.
pub fn read_block(alloc: Global, bytes: &[u8]) -> Result<Option<DirBlock>, AllocError>
    requires { length bytes.now ≡ 256 }
    ensures block { IfOk result (λ found. option_map stored_of found
        ≡ block_entries (map (λ x. x % 256) bytes.now)) }
    ensures entries { IfOk result (λ found. IfSome found (λ b. AreOfBlock b.entries.items b.ends)) }
{
    let used = usize::from(u16::from_be_bytes([bytes[0], bytes[1]]));
    if used < COUNT_LEN || used > bytes.len() {
        return Ok(None);
    }
    let Some(block) = entries_in(alloc, &bytes[COUNT_LEN..used])? else {
        return Ok(None);
    };
    if !rise(&block.entries) {
        return Ok(None);
    }
    Ok(Some(block))
}

// The entries in the used bytes of a block, up to the one that ends the directory; `None` where one
// leaves the bytes.
fn entries_in(alloc: Global, bytes: &[u8]) -> Result<Option<DirBlock>, AllocError>
    ensures { IfOk result (λ found. option_map stored_of found
        ≡ entries_from (length bytes.now) bytes.now) }
{
    let mut entries = Vec::new(alloc);
    let mut rest = bytes;
    while !rest.is_empty() {
        let len = match front_of(rest) {
            Front::Entry(len) => len,
            Front::End => {
                return Ok(Some(DirBlock {
                    entries,
                    ends: true,
                }));
            }
            Front::Broken => return Ok(None),
        };
        entries.push(front_entry(alloc, rest)?)?;
        rest = &rest[len..];
    }
    Ok(Some(DirBlock {
        entries,
        ends: false,
    }))
}

// What stands at the front of the used bytes of a block, of which there are some.
fn front_of(bytes: &[u8]) -> Front
    requires { bytes.now ≢ [] }
    ensures { IsFront bytes.now result }
{
    if bytes.len() < FRONT_LEN {
        return Front::Broken;
    }
    if bytes[..NAME_LEN] == END_NAME[..] {
        return Front::End;
    }
    let len = FRONT_LEN + 2 * usize::from(bytes[11] % 32);
    if bytes.len() < len {
        return Front::Broken;
    }
    Front::Entry(len)
}

// The entry at the front of bytes.
fn front_entry(alloc: Global, bytes: &[u8]) -> Result<DirEntry, AllocError>
    requires front { 12 ≤ length bytes.now }
    requires inside { front_length bytes.now ≤ length bytes.now }
    ensures { IfOk result (λ e. e ≡ front_entry bytes.now) }
{
    let flags = bytes[11];
    let len = FRONT_LEN + 2 * usize::from(flags % 32);
    Ok(DirEntry::new(Entry {
        name: front_name(bytes),
        place: Place {
            tt: u16::from_be_bytes([bytes[8], bytes[9]]),
            r: bytes[10],
        },
        flags,
        user: Text::from_vec(Vec::from_slice(alloc, &bytes[FRONT_LEN..len])?),
    }))
}

// The name at the front of bytes.
fn front_name(bytes: &[u8]) -> Name8
    requires { 8 ≤ length bytes.now }
    ensures { result ≡ record { bytes = take 8 bytes.now } }
{
    let mut name = [0; 8];
    name.copy_from_slice(&bytes[..NAME_LEN]);
    Name8 { bytes: name }
}

// Whether the names of entries rise.
fn rise(entries: &[DirEntry]) -> bool
    ensures { result ≡ rise_from 0 entries.now }
{
    let mut bound: u128 = 0;
    for entry in entries {
        let number = u128::from(u64::from_be_bytes(entry.entry().name.bytes));
        if number < bound {
            return false;
        }
        bound = number + 1;
    }
    true
}
