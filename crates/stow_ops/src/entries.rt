//! The entries of a directory, one of which is put in or taken out.
ghost use Rattle.std.specs.Prelude.{◌≡◌, ◌⊎◌, ◌≤◌, ℕ, true, false, length, position, IfOk, IfErr, IsErrOf, IsTrue, OnOk};
ghost use Rattle.std.specs.Str.{bytes_eq};
ghost use Rattle.chain_spec.specs.Kept.{Rises};
ghost use Rattle.pack_spec.specs.Directories.{name_number};
ghost use Rattle.vol_model.specs.declared.contents.Entry.{Entry};
ghost use Rattle.vol_model.specs.declared.refusals.Refusal.{Refusal};
ghost use Rattle.vol_model.specs.Shelf.{has_member};
ghost use Rattle.pds_directory.specs.Entries.{IsNamed};
ghost use Rattle.stow_ops.specs.Entries.{HasDropped, HasEntered, IsPlaceOf, StandsAt};

use crate::laws::name_law;
use ebcdic_names::Name8;
use pds_directory::{DirEntry, copy_of};
use sorted_chain::ChainEntry;
use std::alloc::Global;
use vol_model::{Entry, Refusal, StoreErr};

// Entries, in the order of their names, with one more; where one has its name, that goes if it is
// to be replaced.
pub(crate) fn with_entry(
    alloc: Global,
    mut entries: Vec<DirEntry>,
    entry: &Entry,
    replace: bool,
) -> Result<Vec<DirEntry>, StoreErr>
    requires rise { Rises name_number entries.items }
    ensures entered { IfOk result (λ after. HasEntered entry.now entries.items after.items) }
    ensures replaced { OnOk result (replace ≡ true
        ⊎ ((at : ℕ) → StandsAt entries.items entry.now at → ⊥)) }
    ensures refused { (r : Refusal) → IsErrOf result (StoreErr.Refused r)
        → (r ≡ Refusal.MemberExists) × (replace ≡ false)
        × ((at : ℕ) × StandsAt entries.items entry.now at) }
    ensures device { ¬ IsErrOf result StoreErr.Device }
    ensures named { IsNamed entry.now }
{
    name_law(entry);
    let Ok(copy) = copy_of(alloc, entry) else {
        return Err(StoreErr::Memory);
    };
    let new = DirEntry::new(copy);
    let at = place_of(&entries, &new);
    if !stands_at(&entries, &new, at) {
        let Ok(()) = entries.insert(at, new) else {
            return Err(StoreErr::Memory);
        };
        return Ok(entries);
    }
    if !replace {
        return Err(StoreErr::Refused(Refusal::MemberExists));
    }
    entries[at] = new;
    Ok(entries)
}

// Where an entry stands among others, which are in the order of their names, or would stand.
fn place_of(entries: &[DirEntry], entry: &DirEntry) -> usize
    ensures within { result ≤ length entries.now }
    ensures place { IsPlaceOf entries.now entry.now result }
{
    for (at, other) in entries.iter().enumerate() {
        if !other.before(entry) {
            return at;
        }
    }
    entries.len()
}

// Whether an entry of the same name stands where one stands or would stand.
fn stands_at(entries: &[DirEntry], entry: &DirEntry, at: usize) -> bool
    requires { IsPlaceOf entries.now entry.now at }
    ensures stands { IsTrue result → StandsAt entries.now entry.now at }
    ensures free { result ≡ false → StandsAt entries.now entry.now at → ⊥ }
{
    match entries.get(at) {
        Some(other) => !entry.before(other),
        None => false,
    }
}

// Entries without the one of a name.
pub(crate) fn without_entry(
    mut entries: Vec<DirEntry>,
    name: &Name8,
) -> Result<Vec<DirEntry>, Refusal>
    ensures dropped { IfOk result (λ after. HasDropped name.now.bytes entries.items after.items) }
    ensures refused { IfErr result (λ r. (r ≡ Refusal.NoMember)
        × (has_member name.now.bytes entries.items ≡ false)) }
{
    let Some(at) = index_of(&entries, name) else {
        return Err(Refusal::NoMember);
    };
    drop(entries.remove(at));
    Ok(entries)
}

// Where the entry of a name stands among others.
fn index_of(entries: &[DirEntry], name: &Name8) -> Option<usize>
    ensures { result ≡ position (λ (e : Entry). bytes_eq e.name.bytes name.now.bytes) entries.now }
{
    entries.iter().position(|other| other.entry().name == *name)
}
