// The writes by which a chain comes to hold a new list.

ghost use Rattle.std.specs.Prelude.{◌≡◌, ℕ, ◌<◌, ◌≤◌, ◌-◌, ◌^◌, ◌↔◌, IfOk, IsTrue, length, map, vec_items};
ghost use Rattle.chain_spec.specs.Cut.{total};
ghost use Rattle.chain_spec.specs.Kept.{joined};
ghost use Rattle.sorted_chain.specs.Plan.{IsPlan, write_of};

use crate::cutting::cut;
use crate::entry::ChainEntry;
use crate::writes::Plan;
use std::alloc::{AllocError, Global};

// The sum of the sizes of these entries.
fn size_of<E: ChainEntry>(entries: &[E]) -> u64
    requires { length entries.now < 2 ^ 32 }
    ensures { result ≡ total E.bytes entries.now }
{
    let mut sum: u64 = 0;
    for entry in entries {
        sum += u64::from(entry.size());
    }
    sum
}

// What is left of a number when the sizes of these entries are taken from it, down to none.
fn less<E: ChainEntry>(from: u64, entries: &[E]) -> u64
    ensures { result ≡ from - total E.bytes entries.now }
{
    let mut left = from;
    for entry in entries {
        left = left.saturating_sub(u64::from(entry.size()));
    }
    left
}

// Whether the new entries take more bytes than those of the old blocks.
fn outgrows<E: ChainEntry>(old: &[Vec<E>], new: &[E]) -> bool
    requires { length new.now < 2 ^ 32 }
    ensures { IsTrue result ↔ (total E.bytes (joined (map vec_items old.now)) < total E.bytes new.now) }
{
    let mut more = size_of(new);
    for block in old {
        more = less(more, block);
    }
    more > 0
}

/// How a chain of these old blocks comes to hold the new list.
///
/// A stop between two writes leaves a chain that reads as the old list or the new one, where one entry of a
/// cut list with rising names is inserted, removed or replaced; and as the new one, where that is what is
/// kept of blocks that each fit. `room` is the number of bytes that a block has for entries, `end` what the
/// end entry takes of the last block, 0 where there is none. The plan names every block of the new chain; a
/// write of a block that stays as it was may be left out. The error comes if memory runs out.
pub fn plan<E: ChainEntry>(
    alloc: Global,
    old: &[Vec<E>],
    new: &[E],
    room: u16,
    end: u16,
) -> Result<Plan<E>, AllocError>
    requires room { 242 ≤ room }
    requires end_fits { end ≤ room }
    requires few_old { length old.now < 2 ^ 32 - 1 }
    requires few_new { length new.now < 2 ^ 32 - 1 }
    ensures { IfOk result (λ made. IsPlan E.name E.bytes room end (map vec_items old.now) new.now
        made.blocks (map write_of (vec_items made.writes))) }
{
    let mut writes = cut(alloc, new, room, end)?;
    let blocks = writes.len() as u32;
    // Where the list grows, entries move to later blocks, so these are written first; else they move to
    // earlier ones. No entry leaves its block before it stands in the other.
    if outgrows(old, new) {
        writes.reverse();
        return Ok(Plan { blocks, writes });
    }
    Ok(Plan { blocks, writes })
}
