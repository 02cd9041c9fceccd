//! The key and the data of a directory block.
ghost use Rattle.std.specs.Prelude.{◌≡◌, ◌+◌, ◌≤◌, ◌++◌, Some, length, map, take, drop};
ghost use Rattle.std.specs.List.{concat};
ghost use Rattle.chain_spec.specs.Cut.{total};
ghost use Rattle.vol_model.specs.Slots.{entry_size};
ghost use Rattle.pack_spec.specs.Directories.{block_entries};
ghost use Rattle.pds_directory.specs.Entries.{AreForBlock, AreSized, IsSized};
ghost use Rattle.pds_directory.specs.Spelling.{block_data, block_key, entry_bytes};

use crate::entry::{DirEntry, END_NAME};

// The bytes of a block's data.
const DATA_LEN: usize = 256;

// Those of its bytes that count the used ones.
pub(crate) const COUNT_LEN: usize = 2;

// The entry that ends a directory.
const END_ENTRY: [u8; 12] = [0xFF, 0xFF, 0xFF, 0xFF, 0xFF, 0xFF, 0xFF, 0xFF, 0, 0, 0, 0];

/// The key and the data of a directory block with these entries, the last of the directory or not.
///
/// The entries are in the order of their names and fit the block, with the end entry where it is the
/// last; a block that isn't the last has at least one. The key is the last name in the block. Two bytes
/// of the data count those that are used, themselves among them; then come the entries, and zeros
/// (System Control Blocks GC28-6628). No memory is taken.
pub fn block_bytes(entries: &[DirEntry], last: bool) -> ([u8; 8], [u8; 256])
    requires { AreForBlock entries.now last }
    ensures key { result.0 ≡ block_key entries.now last }
    ensures bytes { result.1 ≡ block_data entries.now last }
    ensures reads { block_entries result.1 ≡ Some (record { entries = entries.now; ends = last }) }
{
    let mut data = [0; DATA_LEN];
    let mut at = put_entries(&mut data, entries);
    if last {
        at = put_part(&mut data, at, &END_ENTRY);
    }
    put_part(&mut data, 0, &(at as u16).to_be_bytes());
    (key_of(entries, last), data)
}

// The last name in a block with these entries.
fn key_of(entries: &[DirEntry], last: bool) -> [u8; 8]
    ensures { result ≡ block_key entries.now last }
{
    if last {
        return END_NAME;
    }
    match entries.last() {
        Some(entry) => entry.entry().name.bytes,
        None => END_NAME,
    }
}

// Puts entries after the count of a block's zeros, and gives the offset after them.
fn put_entries(data: &mut [u8], entries: &[DirEntry]) -> usize
    requires fit { 2 + total entry_size entries.now ≤ length data.old }
    ensures behind { result ≡ 2 + total entry_size entries.now }
    ensures bytes { data.new ≡ take 2 data.old ++ concat (map entry_bytes entries.now)
        ++ drop (2 + total entry_size entries.now) data.old }
    ensures sized { AreSized entries.now }
{
    let mut at = COUNT_LEN;
    for entry in entries {
        at = put_entry(data, at, entry);
    }
    at
}

// Puts an entry at an offset, and gives the offset after it.
fn put_entry(data: &mut [u8], at: usize, entry: &DirEntry) -> usize
    requires { at + entry_size entry.now ≤ length data.old }
    ensures behind { result ≡ at + entry_size entry.now }
    ensures bytes { data.new
        ≡ take at data.old ++ entry_bytes entry.now ++ drop (at + entry_size entry.now) data.old }
    ensures sized { IsSized entry.now }
{
    let entry = entry.entry();
    let [tt_high, tt_low] = entry.place.tt.to_be_bytes();
    let front = [tt_high, tt_low, entry.place.r, entry.flags];
    let behind = put_part(data, at, &entry.name.bytes);
    let behind = put_part(data, behind, &front);
    put_part(data, behind, entry.user.as_slice())
}

// Puts bytes at an offset, and gives the offset after them.
fn put_part(data: &mut [u8], at: usize, part: &[u8]) -> usize
    requires { at + length part.now ≤ length data.old }
    ensures behind { result ≡ at + length part.now }
    ensures bytes { data.new
        ≡ take at data.old ++ part.now ++ drop (at + length part.now) data.old }
{
    let behind = at + part.len();
    data[at..behind].copy_from_slice(part);
    behind
}
