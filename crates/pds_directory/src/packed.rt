//! Whether a directory that was read is packed.
ghost use Rattle.std.specs.Prelude.{◌≡◌, ◌≤◌, ◌∷◌, ◌++◌, ◌&&◌, List, false, length, map, not, nat_eq, vec_items};
ghost use Rattle.std.specs.Option.{option_map_or};
ghost use Rattle.chain_spec.specs.Cut.{AllFit, first_size, total};
ghost use Rattle.chain_spec.specs.Kept.{joined};
ghost use Rattle.pack_spec.specs.Directories.{rise_from};
ghost use Rattle.vol_model.specs.Slots.{entry_size};
ghost use Rattle.vol_model.specs.declared.contents.Block.{Block};
ghost use Rattle.vol_model.specs.declared.contents.Entry.{Entry};
ghost use Rattle.pds_directory.specs.Directories.{IsLawfulDir, IsRead};
ghost use Rattle.pds_directory.specs.Packed.{are_full, is_packed};

use crate::dir::Dir;
use crate::entry::{DirEntry, FRONT_LEN};

// The bytes that a block has for entries.
const ROOM: usize = 254;

/// Whether a directory that was read is packed: the names of its entries rise, and no block has room
/// for the first entry of the next, which is the end entry where the last block has no other (this
/// project's profile). No memory is taken.
pub fn is_packed(dir: &Dir) -> bool
    requires { IsLawfulDir dir.now }
    ensures { (directory : List Block) → IsRead directory dir.now
        → result ≡ is_packed directory }
{
    all_rise(&dir.blocks) && are_full(&dir.blocks)
}

// Whether the names of the entries of blocks rise.
fn all_rise(blocks: &[Vec<DirEntry>]) -> bool
    ensures { result ≡ rise_from 0 (joined (map vec_items blocks.now)) }
{
    let mut bound: u128 = 0;
    for block in blocks {
        let Some(next) = bound_after(bound, block) else {
            return false;
        };
        bound = next;
    }
    true
}

// The number from which names can rise after those of these entries; `None` where these don't rise
// from a number.
fn bound_after(bound: u128, entries: &[DirEntry]) -> Option<u128>
    ensures { (more : List Entry) → rise_from bound (entries.now ++ more)
        ≡ option_map_or (λ next. rise_from next more) result false }
{
    let mut next = bound;
    for entry in entries {
        let number = u128::from(u64::from_be_bytes(entry.entry().name.bytes));
        if number < next {
            return None;
        }
        next = number + 1;
    }
    Some(next)
}

// Whether no block has room for the first entry of the next.
fn are_full(blocks: &[Vec<DirEntry>]) -> bool
    requires { AllFit entry_size 254 12 (map vec_items blocks.now) }
    ensures { result ≡ are_full (map vec_items blocks.now) }
{
    let mut rest = blocks;
    while let [block, behind @ ..] = rest {
        if has_room(block, behind) {
            return false;
        }
        rest = behind;
    }
    true
}

// Whether a block has room for the first entry of those after it.
fn has_room(block: &[DirEntry], behind: &[Vec<DirEntry>]) -> bool
    requires { AllFit entry_size 254 12 (block.now ∷ map vec_items behind.now) }
    ensures { are_full (block.now ∷ map vec_items behind.now)
        ≡ (not result && are_full (map vec_items behind.now)) }
{
    match behind {
        [] => false,
        [next, others @ ..] => used_by(block) + first_size(next, others.is_empty()) <= ROOM,
    }
}

// The bytes that the entries of a block take.
fn used_by(entries: &[DirEntry]) -> usize
    requires { total entry_size entries.now ≤ 254 }
    ensures { result ≡ total entry_size entries.now }
{
    let mut used = 0;
    for entry in entries {
        used += size_of(entry);
    }
    used
}

// The bytes of a block's first entry: those of the end entry, where the last block has no other.
fn first_size(entries: &[DirEntry], last: bool) -> usize
    requires { total entry_size entries.now ≤ 254 }
    ensures { (others : List (List Entry)) → last ≡ nat_eq (length others) 0
        → result ≡ first_size entry_size 12 entries.now others }
{
    match entries.first() {
        Some(entry) => size_of(entry),
        None if last => FRONT_LEN,
        None => 0,
    }
}

// The bytes of an entry.
fn size_of(entry: &DirEntry) -> usize
    requires { entry_size entry.now ≤ 254 }
    ensures { result ≡ entry_size entry.now }
{
    FRONT_LEN + entry.entry().user.len()
}
