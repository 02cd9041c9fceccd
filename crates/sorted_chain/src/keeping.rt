// The entries of a chain that are kept.

ghost use Rattle.std.specs.Prelude.{◌≡◌, ◌≤◌, ◌↔◌, ◌++◌, ◌∷◌, [], List, IfOk, IsTrue, map, vec_items};
ghost use Rattle.chain_spec.specs.Kept.{bound_after, joined, kept};

use crate::entry::ChainEntry;
use std::alloc::{AllocError, Global};

// Whether an entry is kept after these, which were kept.
fn follows<E: ChainEntry>(entries: &[E], entry: &E) -> bool
    ensures { (es : List E) → entries.now ≡ kept E.name es →
        IsTrue result ↔ (bound_after E.name 0 es ≤ E.name entry.now) }
{
    match entries.last() {
        Some(last) => last.before(entry),
        None => true,
    }
}

// Keeps a further entry, where it follows.
fn keep_one<E: ChainEntry>(alloc: Global, entries: &mut Vec<E>, entry: &E) -> Result<(), AllocError>
    ensures { (es : List E) → vec_items entries.old ≡ kept E.name es →
        IfOk result (λ _. vec_items entries.new ≡ kept E.name (es ++ entry.now ∷ [])) }
{
    if follows(entries, entry) {
        let copied = entry.copy(alloc)?;
        entries.push(copied)?;
        return Ok(());
    }
    Ok(())
}

// Keeps of further entries those that follow.
fn keep<E: ChainEntry>(alloc: Global, entries: &mut Vec<E>, more: &[E]) -> Result<(), AllocError>
    ensures { (es : List E) → vec_items entries.old ≡ kept E.name es →
        IfOk result (λ _. vec_items entries.new ≡ kept E.name (es ++ more.now)) }
{
    for entry in more {
        keep_one(alloc, entries, entry)?;
    }
    Ok(())
}

/// The entries of a chain that count: those whose name is greater than every name kept before.
///
/// So a chain on which a plan was stopped reads as the old list or the new one. The error comes if memory
/// runs out.
pub fn kept<E: ChainEntry>(alloc: Global, blocks: &[Vec<E>]) -> Result<Vec<E>, AllocError>
    ensures { IfOk result (λ entries. vec_items entries ≡ kept E.name (joined (map vec_items blocks.now))) }
{
    let mut entries = Vec::new(alloc);
    for block in blocks {
        keep(alloc, &mut entries, block)?;
    }
    Ok(entries)
}
