//! The entries of a chain that are kept.
ghost use Rattle.std.specs.Prelude.{◌≡◌, ◌↔◌, ◌≤◌, ◌++◌, ◌∷◌, [], IfOk, IsTrue, List, ℕ};
ghost use Rattle.chain_spec.specs.Kept.{bound_after, kept};
ghost use Rattle.catalog_blocks.specs.Blocks.{name_number};
ghost use Rattle.catalog_blocks.specs.declared.blocks.CatEntry.{CatEntry};
ghost use Rattle.catalog_blocks.specs.Trees.{located_entries};
ghost use Rattle.catalog_plan.specs.Located.{located, located_number};

use catalog_blocks::{CatEntries, CatEntry, ChainBlocks};
use sorted_chain::ChainEntry;
use std::alloc::{AllocError, Global};
use vol_model::Listed;

/// An entry with the number of the block that holds it.
pub type Located = (u32, CatEntry);

/// The number that an entry's name spells.
pub fn name_number(entry: &CatEntry) -> u64
    ensures { result ≡ name_number entry.now }
{
    u64::from_be_bytes(entry.name.bytes)
}

// Whether an entry is kept after these, which were kept.
fn follows(held: &[Located], entry: &CatEntry) -> bool
    ensures { (ps : List (ℕ × CatEntry)) → held.now ≡ kept located_number ps
        → IsTrue result ↔ (bound_after located_number 0 ps ≤ name_number entry.now) }
{
    match held.last() {
        Some(last) => last.1.before(entry),
        None => true,
    }
}

// Keeps a further entry of a block, where it follows.
fn keep_one(
    alloc: Global,
    held: &mut Listed<Located>,
    number: u32,
    entry: &CatEntry,
) -> Result<(), AllocError>
    ensures { (ps : List (ℕ × CatEntry)) → held.old ≡ kept located_number ps
        → IfOk result (λ _. held.new ≡ kept located_number (ps ++ (number, entry.now) ∷ [])) }
{
    if follows(held.as_slice(), entry) {
        let copied = entry.copy(alloc)?;
        held.push((number, copied))?;
        return Ok(());
    }
    Ok(())
}

// Keeps of a block's entries those that follow.
fn keep(
    alloc: Global,
    held: &mut Listed<Located>,
    number: u32,
    entries: &[CatEntry],
) -> Result<(), AllocError>
    ensures { (ps : List (ℕ × CatEntry)) → held.old ≡ kept located_number ps
        → IfOk result (λ _. held.new ≡ kept located_number (ps ++ located number entries.now)) }
{
    for entry in entries {
        keep_one(alloc, held, number, entry)?;
    }
    Ok(())
}

/// The kept entries of a chain of these blocks, the control entry first. The error comes if memory runs
/// out.
pub(crate) fn kept_entries(
    alloc: Global,
    blocks: &[(u32, CatEntries)],
) -> Result<Listed<Located>, AllocError>
    ensures { IfOk result (λ held. held ≡ kept located_number (located_entries blocks.now)) }
{
    let mut held = Listed::new(alloc);
    for (number, entries) in blocks {
        keep(alloc, &mut held, *number, entries.as_slice())?;
    }
    Ok(held)
}
