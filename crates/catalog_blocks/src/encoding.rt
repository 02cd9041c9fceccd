//! The bytes of a block of the catalog.
ghost use Rattle.std.specs.Prelude.{◌≡◌, ◌+◌, ◌≤◌, ◌++◌, Ok, length, map, take, drop};
ghost use Rattle.std.specs.List.{concat};
ghost use Rattle.chain_spec.specs.Cut.{total};
ghost use Rattle.catalog_blocks.specs.Blocks.{AreForBlock, block_in, cat_size};
ghost use Rattle.catalog_blocks.specs.Spelling.{AreSized, IsSized, block_data, entry_bytes, link_bytes};

use crate::blocks::{CatBlock, CatEntry};
use crate::decoding::{COUNT_LEN, LINK_NAME};
use vol_model::Place;

// The bytes of a block.
const DATA_LEN: usize = 256;

/// The 256 bytes of a block of the catalog.
///
/// Its entries are in the order of their names and fit the block beside its link entry. Two bytes count
/// those that are used, themselves among them; then come the entries, the link entry, and zeros (the
/// catalog of System Control Blocks GC28-6628; its blocks: this project's profile). No memory is taken.
pub fn encode_block(block: &CatBlock) -> [u8; 256]
    requires { AreForBlock block.now.entries }
    ensures bytes { result ≡ block_data block.now }
    ensures reads { block_in result ≡ Ok block.now }
{
    block_bytes(block.entries.as_slice(), block.next)
}

/// The bytes of a block with these entries, and this next block in its chain.
pub fn block_bytes(entries: &[CatEntry], next: Place) -> [u8; 256]
    requires { AreForBlock entries.now }
    ensures bytes { result ≡ block_data (record { entries = entries.now; next = next }) }
    ensures reads { block_in result ≡ Ok (record { entries = entries.now; next = next }) }
{
    let mut data = [0; DATA_LEN];
    let at = put_entries(&mut data, entries);
    let used = put_link(&mut data, at, next);
    put_part(&mut data, 0, &(used as u16).to_be_bytes());
    data
}

// Puts entries after the count of a block's zeros, and gives the offset after them.
fn put_entries(data: &mut [u8], entries: &[CatEntry]) -> usize
    requires fit { 2 + total cat_size entries.now ≤ length data.old }
    requires block { length data.old ≤ 256 }
    ensures end { result ≡ 2 + total cat_size entries.now }
    ensures bytes { data.new ≡ take 2 data.old ++ concat (map entry_bytes entries.now)
        ++ drop (2 + total cat_size entries.now) data.old }
    ensures sized { AreSized entries.now }
{
    let mut at = COUNT_LEN;
    for entry in entries {
        at = put_entry(data, at, entry);
    }
    at
}

// Puts an entry at an offset, and gives the offset after it.
fn put_entry(data: &mut [u8], at: usize, entry: &CatEntry) -> usize
    requires fit { at + cat_size entry.now ≤ length data.old }
    requires block { length data.old ≤ 256 }
    ensures end { result ≡ at + cat_size entry.now }
    ensures bytes { data.new
        ≡ take at data.old ++ entry_bytes entry.now ++ drop (at + cat_size entry.now) data.old }
    ensures sized { IsSized entry.now }
{
    let [tt_high, tt_low] = entry.place.tt.to_be_bytes();
    let front = [
        tt_high,
        tt_low,
        entry.place.r,
        (entry.payload.len() / 2) as u8,
    ];
    let end = put_part(data, at, &entry.name.bytes);
    let end = put_part(data, end, &front);
    put_part(data, end, entry.payload.as_slice())
}

// Puts a link entry at an offset, and gives the offset after it.
fn put_link(data: &mut [u8], at: usize, next: Place) -> usize
    requires { at + 12 ≤ length data.old }
    ensures end { result ≡ at + 12 }
    ensures bytes { data.new ≡ take at data.old ++ link_bytes next ++ drop (at + 12) data.old }
{
    let [tt_high, tt_low] = next.tt.to_be_bytes();
    let front = [tt_high, tt_low, next.r, 0];
    let end = put_part(data, at, &LINK_NAME);
    put_part(data, end, &front)
}

// Puts bytes at an offset, and gives the offset after them.
fn put_part(data: &mut [u8], at: usize, part: &[u8]) -> usize
    requires { at + length part.now ≤ length data.old }
    ensures end { result ≡ at + length part.now }
    ensures bytes { data.new
        ≡ take at data.old ++ part.now ++ drop (at + length part.now) data.old }
{
    let end = at + part.len();
    data[at..end].copy_from_slice(part);
    end
}
