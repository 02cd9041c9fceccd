//! The directories of the partitioned data sets of several packs, each held from its reading on.
ghost use Rattle.std.specs.Prelude.{◌≡◌, ◌==◌, [], IsTrue, IsErrOf, IfErr, IfOk, IfSome, None, Some, find, slice_get};
ghost use Rattle.std.specs.List.{AllByRecursion};
ghost use Rattle.std.specs.Option.{option_copied};
ghost use Rattle.vol_model.specs.Lawful.{IsLawfulEntry};
ghost use Rattle.vol_model.specs.Writing.{body_on};
ghost use Rattle.pack_machine.specs.Libraries.{HoldsLibrary, IsAnswered, entries_held, entry_has, library_at, size_by, size_held};
ghost use Rattle.shelf_machine.specs.Machine.{shelf_under, units_of};
ghost use Rattle.shelf_machine.specs.Opening.{names_of};
ghost use Rattle.shelf_machine.specs.ReadyPacks.{AreReady, RestPacks, caches_of, vols_of};

use crate::reads::pack_at;
use ebcdic_names::{Dsn, Name8};
use hall_core::Hall;
use mount_repair::Library;
use pack_machine::{Pack, cached_directory_on};
use pds_directory::{DirEntry, copy_of};
use std::alloc::Global;
use vol_model::{Entry, ReadErr, WorkErr};

// Holds the directory of a partitioned data set: its number among those that are held of the pack; `None` where the data
// set has none.
pub(crate) fn cached_directory<H: Hall>(
    alloc: Global,
    hall: &mut H,
    packs: &mut Vec<Pack>,
    v: u8,
    dsn: &Dsn,
) -> Result<Option<usize>, ReadErr>
    requires ready { AreReady H.tells (H.facts hall.old) (H.meaning hall.old)
        packs.old.items }
    ensures library { let shelf = shelf_under (names_of (H.facts hall.old).units
        (units_of (vols_of packs.old.items))) (H.meaning hall.old).state in IsTrue H.tells
        → HoldsLibrary result (body_on shelf v dsn.now.bytes) (λ at. library_at (caches_of packs.new.items) v at) }
    ensures rest { RestPacks (IsErrOf result ReadErr.Device) H.tells (H.facts hall.old) (H.facts hall.new)
        (H.meaning hall.old) (H.meaning hall.new) packs.old.items packs.new.items }
{
    let k = usize::from(v);
    if k >= packs.len() {
        return Ok(None);
    }
    cached_directory_on(alloc, hall, &mut packs[k], dsn)
}

// The library of a number, of those that are held of the pack of this number.
fn library_at(packs: &Vec<Pack>, v: u8, at: usize) -> Option<&Library>
    ensures { option_copied result ≡ library_at (caches_of packs.now.items) v at }
{
    match pack_at(packs, v) {
        Some(pack) => library_in(pack, at),
        None => None,
    }
}

// The library of a number, of those that are held of a pack.
fn library_in(pack: &Pack, at: usize) -> Option<&Library>
    ensures { option_copied result ≡ slice_get pack.now.cache.libraries.items at }
{
    pack.cache.libraries.get(at)
}

// The number of its blocks; 0 where there is none.
fn blocks_at(packs: &Vec<Pack>, v: u8, at: usize) -> u32
    ensures { result ≡ size_held (library_at (caches_of packs.now.items) v at) }
{
    match library_at(packs, v, at) {
        Some(library) => library.dir.places.len() as u32,
        None => 0,
    }
}

// Its entries; none where there is none.
fn entries_at(packs: &Vec<Pack>, v: u8, at: usize) -> &[DirEntry]
    ensures entries { result.now ≡ entries_held (library_at (caches_of packs.now.items) v at) }
    ensures lawful { AllByRecursion IsLawfulEntry result.now }
{
    match library_at(packs, v, at) {
        Some(library) => &library.entries,
        None => &[],
    }
}

// The number of blocks of the directory of a data set of the pack of this number, by the answer of the call that was to
// hold it.
pub(crate) fn size_of(
    held: Result<Option<usize>, ReadErr>,
    packs: &Vec<Pack>,
    v: u8,
) -> Result<u32, WorkErr>
    ensures size { IfOk result (λ size. size
        ≡ size_by held (λ at. size_held (library_at (caches_of packs.now.items) v at))) }
    ensures read { IfOk result (λ size. IsAnswered held) }
    ensures device { IsErrOf result WorkErr.Device → IsErrOf held ReadErr.Device }
    ensures failed { IsErrOf held ReadErr.Device → IsErrOf result WorkErr.Device }
{
    match held {
        Ok(Some(at)) => Ok(blocks_at(packs, v, at)),
        Ok(None) => Ok(0),
        Err(ReadErr::Unreadable(_)) => Ok(0),
        Err(ReadErr::Memory) => Err(WorkErr::Memory),
        Err(ReadErr::Device) => Err(WorkErr::Device),
    }
}

// The entry of this name in the library of a number, of those that are held of the pack of this number.
pub(crate) fn entry_named(
    alloc: Global,
    packs: &Vec<Pack>,
    v: u8,
    at: usize,
    name: &Name8,
) -> Result<Option<Entry>, ReadErr>
    ensures entry { IfOk result (λ found. found ≡ find (entry_has name.now.bytes)
        (entries_held (library_at (caches_of packs.now.items) v at))) }
    ensures lawful { IfOk result (λ found. IfSome found IsLawfulEntry) }
    ensures memory { IfErr result (λ e. e ≡ ReadErr.Memory) }
{
    let entries = entries_at(packs, v, at);
    match find_named(entries, name) {
        Some(entry) => copied(alloc, entry),
        None => Ok(None),
    }
}

// The k-th entry in it.
pub(crate) fn entry_at(
    alloc: Global,
    packs: &Vec<Pack>,
    v: u8,
    at: usize,
    k: u32,
) -> Result<Option<Entry>, ReadErr>
    ensures entry { IfOk result (λ found. found
        ≡ slice_get (entries_held (library_at (caches_of packs.now.items) v at)) k) }
    ensures lawful { IfOk result (λ found. IfSome found IsLawfulEntry) }
    ensures memory { IfErr result (λ e. e ≡ ReadErr.Memory) }
{
    let entries = entries_at(packs, v, at);
    match entries.get(k as usize) {
        Some(entry) => copied(alloc, entry),
        None => Ok(None),
    }
}

// The first entry of this name.
fn find_named<'a>(entries: &'a [DirEntry], name: &Name8) -> Option<&'a DirEntry>
    ensures { option_copied result ≡ find (entry_has name.now.bytes) entries.now }
{
    entries.iter().find(|entry| has_name(entry, name))
}

// Whether an entry has this name.
fn has_name(entry: &DirEntry, name: &Name8) -> bool
    ensures { result ≡ entry_has name.now.bytes entry.now }
{
    entry.entry().name.bytes == name.bytes
}

// A copy of an entry.
fn copied(alloc: Global, entry: &DirEntry) -> Result<Option<Entry>, ReadErr>
    ensures entry { IfOk result (λ found. found ≡ Some entry.now) }
    ensures memory { IfErr result (λ e. e ≡ ReadErr.Memory) }
{
    match copy_of(alloc, entry.entry()) {
        Ok(copy) => Ok(Some(copy)),
        Err(_) => Err(ReadErr::Memory),
    }
}
