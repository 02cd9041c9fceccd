//! Entries of the directories on a pack.
ghost use Rattle.std.specs.Prelude.{◌≡◌, ℕ, List, slice_get, Err, IfErr, IfOk, IsTrue, OnErr, Result, Some};
ghost use Rattle.dscb_codec.specs.declared.Dscb.{Dscb};
ghost use Rattle.dscb_codec.specs.declared.F1.{F1};
ghost use Rattle.hall_core.specs.Facts.{Attached};
ghost use Rattle.chain_spec.specs.Kept.{joined, kept};
ghost use Rattle.pack_spec.specs.Directories.{name_number};
ghost use Rattle.pds_directory.specs.Directories.{IsLawfulDir, IsReadablePart, entries_read};
ghost use Rattle.stop_model.specs.Moments.{IsDurable};
ghost use Rattle.vol_model.specs.Lawful.{IsLawfulEntry};
ghost use Rattle.vol_model.specs.Shelf.{drop_on, enter_on, on_directory};
ghost use Rattle.vol_model.specs.declared.answers.StoreErr.{StoreErr};
ghost use Rattle.vol_model.specs.declared.contents.Entry.{Entry};
ghost use Rattle.vol_model.specs.declared.contents.Volume.{Volume};
ghost use Rattle.vol_model.specs.declared.refusals.Refusal.{Refusal};
ghost use Rattle.vtoc_index.specs.Index.{IsMounted, IsOfUnit, first_named};
ghost use Rattle.vtoc_index.specs.Names.{AreByName, name_at};
ghost use Rattle.vtoc_sets.specs.Sets.{volume_in};
ghost use Rattle.pack_machine.specs.Entries.{FailsOnDirectory, IsPutBack, TakesLibrary, answer_to};
ghost use Rattle.pack_machine.specs.Known.{ListsBroken};
ghost use Rattle.pack_machine.specs.Ready.{IsReady, Leaves};

use crate::libraries::{keep, lend_library};
use crate::pack::Pack;
use crate::pack_cache::PackCache;
use crate::reads::write_refusal_in;
use crate::refusals::slot_of;
use dscb_codec::F1;
use ebcdic_names::{Dsn, Name8};
use hall_core::Hall;
use mount_repair::Library;
use pds_directory::{Dir, DirEntry};
use std::alloc::Global;
use stow_ops::{drop_entry, enter};
use vol_model::{Entry, Mode, Refusal, StoreErr};
use vtoc_index::Vol;

// Puts an entry into the directory of a data set of a pack.
pub(crate) fn enter_on<H: Hall>(
    alloc: Global,
    hall: &mut H,
    pack: &mut Pack,
    dsn: &Dsn,
    entry: &Entry,
    replace: bool,
) -> Result<(), StoreErr>
    requires ready { IsReady H.tells (H.facts hall.old) (H.meaning hall.old) pack.old }
    requires durable { IsTrue H.tells → IsDurable (H.meaning hall.old) }
    requires entry { IsLawfulEntry entry.now }
    ensures leaves { Leaves H.tells (enter_on dsn.now entry.now replace)
        (H.facts hall.old) (H.facts hall.new) (H.meaning hall.old) (H.meaning hall.new)
        pack.old pack.new result }
{
    let (slot, library) = take_library(alloc, hall, pack, dsn)?;
    let Library {
        start,
        mut dir,
        entries,
    } = library;
    let entered = enter(alloc, hall, &mut pack.vol, slot, &mut dir, entry, replace);
    give_back(&mut pack.cache.libraries, start, dir, entries, entered)
}

// Takes the entry of a name out of the directory of a data set of a pack.
pub(crate) fn drop_on<H: Hall>(
    alloc: Global,
    hall: &mut H,
    pack: &mut Pack,
    dsn: &Dsn,
    name: &Name8,
) -> Result<(), StoreErr>
    requires ready { IsReady H.tells (H.facts hall.old) (H.meaning hall.old) pack.old }
    requires durable { IsTrue H.tells → IsDurable (H.meaning hall.old) }
    ensures leaves { Leaves H.tells (drop_on dsn.now name.now)
        (H.facts hall.old) (H.facts hall.new) (H.meaning hall.old) (H.meaning hall.new)
        pack.old pack.new result }
{
    let (slot, library) = take_library(alloc, hall, pack, dsn)?;
    let Library {
        start,
        mut dir,
        entries,
    } = library;
    let dropped = drop_entry(alloc, hall, &mut pack.vol, slot, &mut dir, name);
    give_back(&mut pack.cache.libraries, start, dir, entries, dropped)
}

// Takes the library of the partitioned data set of this name, whose body can be read, out of those of a pack, or reads it;
// gives the slot of its format 1 too.
fn take_library<H: Hall>(
    alloc: Global,
    hall: &mut H,
    pack: &mut Pack,
    dsn: &Dsn,
) -> Result<(u32, Library), StoreErr>
    requires ready { IsReady H.tells (H.facts hall.old) (H.meaning hall.old) pack.old }
    requires durable { IsTrue H.tells → IsDurable (H.meaning hall.old) }
    ensures taken { IfOk result (λ p. TakesLibrary H.tells dsn.now (H.facts hall.old)
        (H.facts hall.new) (H.meaning hall.old) (H.meaning hall.new) pack.old pack.new p.0 p.1) }
    ensures failed { IfErr result (λ e. FailsOnDirectory H.tells dsn.now (H.facts hall.old)
        (H.facts hall.new) (H.meaning hall.old) (H.meaning hall.new) pack.old pack.new e) }
{
    pack.cache.buf.forget();
    let (slot, set) = match slot_of_library(&pack.vol, &pack.cache, dsn) {
        Ok(found) => found,
        Err(refusal) => return Err(StoreErr::Refused(refusal)),
    };
    match lend_library(alloc, hall, &mut pack.vol, &mut pack.cache, slot, &set) {
        Ok(library) => Ok((slot, library)),
        Err(error) => Err(error),
    }
}

// Puts a library back after the others, with the entries that it had or those that a change of it gave, and gives what the
// change answered.
fn give_back(
    libraries: &mut Vec<Library>,
    start: u16,
    dir: Dir,
    entries: Vec<DirEntry>,
    changed: Result<Vec<DirEntry>, StoreErr>,
) -> Result<(), StoreErr>
    requires lawful { IsLawfulDir dir }
    requires now { IfOk changed (λ list. list.items ≡ kept name_number (joined (entries_read dir))) }
    requires before { OnErr changed (entries.items ≡ kept name_number (joined (entries_read dir))) }
    ensures answer { result ≡ answer_to changed }
    ensures libraries { IsPutBack start dir libraries.old.items libraries.new.items }
{
    match changed {
        Ok(entries) => {
            keep(
                libraries,
                Library {
                    start,
                    dir,
                    entries,
                },
            );
            Ok(())
        }
        Err(error) => {
            keep(
                libraries,
                Library {
                    start,
                    dir,
                    entries,
                },
            );
            Err(error)
        }
    }
}

// The slot of the partitioned data set of this name, whose body can be read, and its format 1, or why it has no directory to
// change.
fn slot_of_library(vol: &Vol, known: &PackCache, dsn: &Dsn) -> Result<(u32, F1), Refusal>
    requires unit { (units : List Attached) × IsOfUnit units vol.now }
    requires names { AreByName (name_at vol.now.slots.items) vol.now.by_name.items }
    ensures slot { IfOk result (λ p. first_named dsn.now.bytes vol.now.slots.items ≡ Some p.0) }
    ensures set { IfOk result (λ p. slice_get vol.now.slots.items p.0 ≡ Some (Dscb.F1 p.1)) }
    ensures part { IfOk result (λ p. (image : List ℕ) → IsMounted image vol.now
        → ListsBroken (volume_in image vol.now) known.now.unread.items
        → (p.1.name ≡ dsn.now.bytes) × IsReadablePart image vol.now p.1) }
    ensures refused { IfErr result (λ r. (image : List ℕ)
        (operation : ℕ → List Entry → Result Volume Refusal) → IsMounted image vol.now
        → ListsBroken (volume_in image vol.now) known.now.unread.items
        → on_directory dsn.now (volume_in image vol.now) operation ≡ Err r) }
{
    if let Some(refusal) = write_refusal_in(vol, known, dsn, Mode::Area) {
        return Err(refusal);
    }
    match slot_of(vol, dsn) {
        Some(found) => Ok(found),
        None => Err(Refusal::NoSet),
    }
}
