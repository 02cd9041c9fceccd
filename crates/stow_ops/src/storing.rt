//! The entries of a directory written, block by block.
ghost use Rattle.std.specs.Prelude.{◌≡◌, ◌⊎◌, ◌≤◌, ◌<◌, ◌+◌, ℕ, None, List, true, is_some, length, map, nat_eq, slice_get, vec_items, IfOk, IsErrOf, IsTrue, OnErr, OnOk, Result, Some};
ghost use Rattle.std.specs.List.{AllByRecursion};
ghost use Rattle.dscb_codec.specs.declared.F1.{F1};
ghost use Rattle.hall_core.specs.Facts.{DeviceCall, unit_of};
ghost use Rattle.hall_core.specs.Images.{image_in};
ghost use Rattle.stop_model.specs.Moments.{IsDurable};
ghost use Rattle.chain_spec.specs.Kept.{joined, kept};
ghost use Rattle.pack_spec.specs.Directories.{name_number};
ghost use Rattle.sorted_chain.specs.Plan.{write_of};
ghost use Rattle.vol_model.specs.Slots.{directory_needed};
ghost use Rattle.vol_model.specs.declared.contents.Block.{Block};
ghost use Rattle.vol_model.specs.declared.contents.Entry.{Entry};
ghost use Rattle.vol_model.specs.declared.contents.Volume.{Volume};
ghost use Rattle.vol_model.specs.declared.refusals.Refusal.{Refusal};
ghost use Rattle.vtoc_index.specs.Index.{IsOfUnit};
ghost use Rattle.vtoc_index.specs.Names.{name_at};
ghost use Rattle.pds_directory.specs.Directories.{IsLawfulDir, IsOfRecord, IsPacked, IsPartIn, IsReadIn, IsReadablePart, broken_in, directory_in, entries_read};
ghost use Rattle.pds_directory.specs.Entries.{AreForBlock};
ghost use Rattle.free_rebuild.specs.Operations.{Operates, StoreCall};
ghost use Rattle.stow_ops.specs.Stores.{AreForDir, CanBeWritten, CarriesOut, DifferOn, IsDirPlan, IsLeft, IsToHave, MakesEntries, WritesBlock, directory_tracks, with_writes};

use crate::blocks::write_block;
use dscb_codec::{Dscb, F1};
use hall_core::{Device, Hall};
use pds_directory::{Dir, DirEntry};
use sorted_chain::{Plan, plan};
use std::alloc::{AllocError, Global};
use vol_model::{Entry, Refusal, StoreErr};
use vtoc_index::Vol;
use vtoc_sets::set_at;

// The bytes that a directory block has for entries, and those of the end entry.
pub(crate) const ROOM: u16 = 254;

pub(crate) const END_LEN: u16 = 12;

// Makes these the entries of a directory that was read, one of whose entries changes. All memory is
// taken before the first write.
pub(crate) fn store<H: Hall>(
    alloc: Global,
    hall: &mut H,
    vol: &mut Vol,
    slot: u32,
    dir: &mut Dir,
    entries: &[DirEntry],
) -> Result<(), StoreErr>
    requires unit { IsOfUnit (H.facts hall.old).units vol.old }
    requires set { is_some (name_at vol.old.slots.items slot) ≡ true }
    requires dir { IsLawfulDir dir.old }
    requires entries { AreForDir entries.now }
    requires change { let image = image_in (H.meaning hall.old) (H.facts hall.old) vol.old.unit in
        IsTrue H.tells → (f : F1) → slice_get vol.old.slots.items slot ≡ Some (Dscb.F1 f)
        → IsToHave image vol.old f dir.old entries.now }
    requires durable { IsTrue H.tells → IsDurable (H.meaning hall.old) }
    ensures files { let image = image_in (H.meaning hall.old) (H.facts hall.old) vol.old.unit in
        IsTrue H.tells → (f : F1) (operation : Volume → Result Volume Refusal)
        → slice_get vol.old.slots.items slot ≡ Some (Dscb.F1 f)
        → MakesEntries operation image f (length dir.old.places.items) entries.now
        → Operates (unit_of (H.facts hall.old).units vol.old.unit).name operation vol.new
        (DifferOn vol.old.geometry (directory_tracks image vol.old f)) (H.meaning hall.old)
        (H.meaning hall.new) result }
    ensures packed { let image' = image_in (H.meaning hall.new) (H.facts hall.new) vol.old.unit in
        IsTrue H.tells → (f : F1) → slice_get vol.old.slots.items slot ≡ Some (Dscb.F1 f)
        → OnOk result (IsPacked (directory_in image' vol.new f)) }
    ensures dir { let image' = image_in (H.meaning hall.new) (H.facts hall.new) vol.old.unit in
        IsTrue H.tells → (f : F1) → slice_get vol.old.slots.items slot ≡ Some (Dscb.F1 f)
        → OnOk result (IsReadIn image' vol.new f dir.new) }
    ensures lawful { IsLawfulDir dir.new }
    ensures entries { OnOk result
        (entries.now ≡ kept name_number (joined (entries_read dir.new))) }
    ensures stays { OnErr result (dir.new ≡ dir.old) }
    ensures refused { (r : Refusal) → IsErrOf result (StoreErr.Refused r)
        → (hall.new ≡ hall.old) × (vol.new ≡ vol.old) }
    ensures memory { IsErrOf result StoreErr.Memory → (hall.new ≡ hall.old) × (vol.new ≡ vol.old) }
    ensures others { vol.new ≡ record vol.old { buf = vol.new.buf } }
    ensures unit { IsOfUnit (H.facts hall.new).units vol.new }
    ensures faults { StoreCall (H.facts hall.old) (H.facts hall.new) result }
{
    let set = set_at(vol, slot);
    let plan = planned(alloc, dir, entries)?;
    let Ok(blocks) = empty_blocks(alloc, plan.blocks) else {
        return Err(StoreErr::Memory);
    };
    match carry_out(hall, vol, &set, dir, &plan) {
        Ok(()) => {
            dir.blocks = written(plan.writes, blocks);
            Ok(())
        }
        Err(Device) => Err(StoreErr::Device),
    }
}

// So many blocks without entries.
fn empty_blocks(alloc: Global, count: u32) -> Result<Vec<Vec<DirEntry>>, AllocError>
    ensures { IfOk result (λ blocks. length blocks.items ≡ count) }
{
    let mut blocks = Vec::new(alloc);
    for _ in 0..count {
        blocks.push(Vec::new(alloc))?;
    }
    Ok(blocks)
}

// Blocks, with those of these writes put in their places.
fn written(writes: Vec<(u32, Vec<DirEntry>)>, mut blocks: Vec<Vec<DirEntry>>) -> Vec<Vec<DirEntry>>
    requires { AllByRecursion (λ (w : ℕ × List Entry). w.0 < length blocks.items)
        (map write_of (vec_items writes)) }
    ensures { map vec_items result.items
        ≡ with_writes (map write_of (vec_items writes)) (map vec_items blocks.items) }
{
    for (at, block) in writes {
        blocks[at as usize] = block;
    }
    blocks
}

// How a directory that was read comes to hold these entries, unless they need more blocks than it
// has.
fn planned(alloc: Global, dir: &Dir, entries: &[DirEntry]) -> Result<Plan<DirEntry>, StoreErr>
    requires dir { IsLawfulDir dir.now }
    requires entries { AreForDir entries.now }
    ensures plan { IfOk result (λ made. IsDirPlan (entries_read dir.now) entries.now made.blocks
        (map write_of (vec_items made.writes))) }
    ensures fits { IfOk result (λ made. made.blocks ≤ length dir.now.places.items) }
    ensures full { (r : Refusal) → IsErrOf result (StoreErr.Refused r)
        → (r ≡ Refusal.DirFull (directory_needed entries.now))
        × (length dir.now.places.items < directory_needed entries.now) }
    ensures device { ¬ IsErrOf result StoreErr.Device }
{
    let Ok(made) = plan(alloc, &dir.blocks, entries, ROOM, END_LEN) else {
        return Err(StoreErr::Memory);
    };
    if made.blocks as usize > dir.places.len() {
        return Err(StoreErr::Refused(Refusal::DirFull {
            blocks: made.blocks,
        }));
    }
    Ok(made)
}

// Writes the blocks of a plan in its order, each durable before the next, but for those that stay
// as they are.
pub(crate) fn carry_out<H: Hall>(
    hall: &mut H,
    vol: &mut Vol,
    set: &F1,
    dir: &Dir,
    plan: &Plan<DirEntry>,
) -> Result<(), Device>
    requires unit { IsOfUnit (H.facts hall.old).units vol.old }
    requires places { AllByRecursion IsOfRecord dir.now.places.items }
    requires writes { CanBeWritten (length dir.now.places.items) plan.now.blocks
        (map write_of (vec_items plan.now.writes)) }
    requires plan { (entries : List Entry) × IsDirPlan (entries_read dir.now) entries
        plan.now.blocks (map write_of (vec_items plan.now.writes)) }
    requires part { let image = image_in (H.meaning hall.old) (H.facts hall.old) vol.old.unit in
        IsTrue H.tells → IsReadablePart image vol.old set.now
        × IsReadIn image vol.old set.now dir.now }
    requires durable { IsTrue H.tells → IsDurable (H.meaning hall.old) }
    ensures files { IsTrue H.tells
        → CarriesOut (unit_of (H.facts hall.old).units vol.old.unit).name vol.old set.now
        plan.now.blocks (map write_of (vec_items plan.now.writes)) vol.new
        (H.meaning hall.old) (H.meaning hall.new) result }
    ensures others { vol.new ≡ record vol.old { buf = vol.new.buf } }
    ensures unit { IsOfUnit (H.facts hall.new).units vol.new }
    ensures faults { DeviceCall (H.facts hall.old) (H.facts hall.new) result }
{
    for write in &plan.writes {
        write_unless(hall, vol, set, dir, plan.blocks, write.0, &write.1)?;
    }
    Ok(())
}

// Writes a block of a directory that is to have so many blocks, unless it is as it was read.
fn write_unless<H: Hall>(
    hall: &mut H,
    vol: &mut Vol,
    set: &F1,
    dir: &Dir,
    blocks: u32,
    at: u32,
    entries: &[DirEntry],
) -> Result<(), Device>
    requires unit { IsOfUnit (H.facts hall.old).units vol.old }
    requires few { at < blocks }
    requires place { at < length dir.now.places.items }
    requires places { AllByRecursion IsOfRecord dir.now.places.items }
    requires entries { AreForBlock entries.now (nat_eq (at + 1) blocks) }
    requires part { let image = image_in (H.meaning hall.old) (H.facts hall.old) vol.old.unit in
        IsTrue H.tells → IsPartIn image vol.old set.now }
    requires there { let image = image_in (H.meaning hall.old) (H.facts hall.old) vol.old.unit in
        IsTrue H.tells → dir.now.places.items
        ≡ map (λ (b : Block). b.place) (directory_in image vol.old set.now) }
    requires whole { let image = image_in (H.meaning hall.old) (H.facts hall.old) vol.old.unit in
        IsTrue H.tells → broken_in image vol.old set.now ≡ None }
    requires durable { IsTrue H.tells → IsDurable (H.meaning hall.old) }
    ensures files { IsTrue H.tells
        → ((hall.new ≡ hall.old) × (vol.new ≡ vol.old)
        × IsLeft dir.now blocks at entries.now result)
        ⊎ WritesBlock (unit_of (H.facts hall.old).units vol.old.unit).name vol.old set.now at
        (record { entries = entries.now; ends = nat_eq (at + 1) blocks }) vol.new
        (H.meaning hall.old) (H.meaning hall.new) result }
    ensures others { vol.new ≡ record vol.old { buf = vol.new.buf } }
    ensures unit { IsOfUnit (H.facts hall.new).units vol.new }
    ensures faults { DeviceCall (H.facts hall.old) (H.facts hall.new) result }
{
    if stays(dir, blocks, at, entries) {
        return Ok(());
    }
    let place = dir.places[at as usize];
    write_block(hall, vol, set, place, entries, at + 1 == blocks)
}

// Whether a block of a directory that is to have so many blocks is as it was read: its entries,
// and whether it is the last.
fn stays(dir: &Dir, blocks: u32, at: u32, entries: &[DirEntry]) -> bool
    requires { at < blocks }
    ensures { IsTrue result → (slice_get (entries_read dir.now) at ≡ Some entries.now)
        × (nat_eq (at + 1) (length (entries_read dir.now)) ≡ nat_eq (at + 1) blocks) }
{
    let k = at as usize;
    match dir.blocks.get(k) {
        Some(old) => { (k + 1 == dir.blocks.len()) == (at + 1 == blocks) && are_same(old, entries) }
        None => false,
    }
}

// Whether entries are the same.
fn are_same(old: &[DirEntry], new: &[DirEntry]) -> bool
    ensures { IsTrue result → old.now ≡ new.now }
{
    if old.len() != new.len() {
        return false;
    }
    for (at, entry) in old.iter().enumerate() {
        if !is_same(entry.entry(), new[at].entry()) {
            return false;
        }
    }
    true
}

// Whether two entries are one.
fn is_same(old: &Entry, new: &Entry) -> bool
    ensures { IsTrue result → old.now ≡ new.now }
{
    old.name == new.name
        && old.place == new.place
        && old.flags == new.flags
        && old.user.as_slice() == new.user.as_slice()
}
