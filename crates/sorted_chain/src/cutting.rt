// The cut of a list of entries into blocks.

ghost use Rattle.std.specs.Prelude.{◌≡◌, ℕ, ◌<◌, ◌≤◌, ◌+◌, ◌-◌, ◌^◌, ◌++◌, ◌∷◌, [], List, IfOk, length, map, vec_items};
ghost use Rattle.sorted_chain.specs.Cutting.{IsForward, IsOpen};
ghost use Rattle.sorted_chain.specs.Plan.{write_of};

use crate::entry::ChainEntry;
use std::alloc::{AllocError, Global};
use std::mem;

// A cut that is being made: the writes of the blocks that are full, and the open block with the bytes
// that its entries take.
#[derive(Drop)]
struct Cutting<E> {
    done: Vec<(u32, Vec<E>)>,
    block: Vec<E>,
    used: u32,
}

// Adds an entry to a cut, in the open block or in the next.
fn add<E: ChainEntry>(
    alloc: Global,
    cutting: &mut Cutting<E>,
    entry: E,
    room: u16,
) -> Result<(), AllocError>
    requires room { 242 ≤ room }
    requires places { length (vec_items cutting.old.done) < 2 ^ 32 - 1 }
    ensures entries { (end : ℕ) (es : List E) →
        IsOpen E.bytes room end (map write_of (vec_items cutting.old.done)) (vec_items cutting.old.block) cutting.old.used es →
        IfOk result (λ _. IsOpen E.bytes room end (map write_of (vec_items cutting.new.done)) (vec_items cutting.new.block) cutting.new.used (es ++ entry ∷ [])) }
    ensures one_more { length (vec_items cutting.new.done) ≤ length (vec_items cutting.old.done) + 1 }
{
    let size = u32::from(entry.size());
    if cutting.used > u32::from(room) - size {
        let place = cutting.done.len() as u32;
        let mut next = Vec::new(alloc);
        next.push(entry)?;
        let full = mem::replace(&mut cutting.block, next);
        cutting.done.push((place, full))?;
        cutting.used = size;
        return Ok(());
    }
    cutting.block.push(entry)?;
    cutting.used += size;
    Ok(())
}

// The writes of a cut that has all its entries: the open block takes the end entry, or one more block does.
fn finish<E: ChainEntry>(
    alloc: Global,
    cutting: Cutting<E>,
    room: u16,
    end: u16,
) -> Result<Vec<(u32, Vec<E>)>, AllocError>
    requires end_fits { end ≤ room }
    requires places { length (vec_items cutting.done) < 2 ^ 32 - 1 }
    ensures { (es : List E) →
        IsOpen E.bytes room end (map write_of (vec_items cutting.done)) (vec_items cutting.block) cutting.used es →
        IfOk result (λ writes. IsForward E.bytes room end es (map write_of (vec_items writes))) }
{
    let Cutting {
        mut done,
        block,
        used,
    } = cutting;
    let place = done.len() as u32;
    done.push((place, block))?;
    if used <= u32::from(room - end) {
        return Ok(done);
    }
    done.push((place + 1, Vec::new(alloc)))?;
    Ok(done)
}

/// The writes of the cut of these entries, from the first block to the last.
pub(crate) fn cut<E: ChainEntry>(
    alloc: Global,
    new: &[E],
    room: u16,
    end: u16,
) -> Result<Vec<(u32, Vec<E>)>, AllocError>
    requires room { 242 ≤ room }
    requires end_fits { end ≤ room }
    requires few { length new.now < 2 ^ 32 - 1 }
    ensures { IfOk result (λ writes. IsForward E.bytes room end new.now (map write_of (vec_items writes))) }
{
    let mut cutting = Cutting {
        done: Vec::new(alloc),
        block: Vec::new(alloc),
        used: 0,
    };
    for entry in new {
        let copied = entry.copy(alloc)?;
        add(alloc, &mut cutting, copied, room)?;
    }
    finish(alloc, cutting, room, end)
}
