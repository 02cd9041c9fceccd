//! The directories of the partitioned data sets of a pack, each held from its reading on.
ghost use Rattle.std.specs.Prelude.{◌≡◌, ◌==◌, ◌++◌, ℕ, List, [], ◌∷◌, length, IsTrue, IsErrOf, IfErr, IfOk, IfSome, None, OnErr, Some, find, position, slice_get};
ghost use Rattle.std.specs.Option.{option_copied};
ghost use Rattle.hall_core.specs.Facts.{Attached, DeviceCall, ReportedCall};
ghost use Rattle.hall_core.specs.Images.{image_in};
ghost use Rattle.stop_model.specs.Moments.{Same};
ghost use Rattle.pds_directory.specs.Directories.{IsLawfulDir, IsPartIn, IsReadablePart, owned_in};
ghost use Rattle.seq_access.specs.Bodies.{end_in, part_in};
ghost use Rattle.seq_access.specs.Reading.{HoldsTrack};
ghost use Rattle.vol_model.specs.Writing.{body_on};
ghost use Rattle.vol_model.specs.declared.answers.StoreErr.{StoreErr};
ghost use Rattle.vol_model.specs.declared.refusals.Refusal.{Refusal};
ghost use Rattle.vtoc_index.specs.Index.{IsOfUnit};
ghost use Rattle.vol_model.specs.declared.contents.Shelf.{Shelf};
ghost use Rattle.vtoc_sets.specs.Sets.{volume_in};
ghost use Rattle.dadsm_ops.specs.Operations.{StoreCall};
ghost use Rattle.pack_machine.specs.Blocks.{IsOnImage, IsPartOn};
ghost use Rattle.pack_machine.specs.Known.{HoldLibraries};
ghost use Rattle.pack_machine.specs.Libraries.{AreOthers, HoldsLibrary, HoldsPart, IsKeptBehind, IsLent, IsLibraryAt, IsMadeFrom, IsVacancyOf, ReadsLibrary, is_vacant_by, library_from};
ghost use Rattle.pack_machine.specs.Ready.{IsReady, Rest};

use crate::pack::Pack;
use crate::pack_cache::PackCache;
use crate::reads::kind_in;
use crate::refusals::slot_of;
use dscb_codec::{Dscb, F1};
use ebcdic_names::Dsn;
use hall_core::{Device, Hall};
use mount_repair::{Library, library_of};
use pds_directory::{Dir, find_end, read_dir};
use seq_access::{Reach, ReadBuf, is_before, last_of};
use std::alloc::Global;
use std::mem;
use vol_model::{Kind, Place, ReadErr, StoreErr};
use vtoc_index::Vol;
use vtoc_sets::track_at;

/// Holds the directory of a partitioned data set of a pack: its number among those that are held; `None` where the data set
/// has none.
///
/// `Device` comes only where the count of device faults rose.
pub fn cached_directory_on<H: Hall>(
    alloc: Global,
    hall: &mut H,
    pack: &mut Pack,
    dsn: &Dsn,
) -> Result<Option<usize>, ReadErr>
    requires ready { IsReady H.tells (H.facts hall.old) (H.meaning hall.old) pack.old }
    ensures library { let image = image_in (H.meaning hall.old) (H.facts hall.old) pack.old.vol.unit in
        IsTrue H.tells → (shelf : Shelf) (n : ℕ)
        → slice_get shelf.volumes n ≡ Some (volume_in image pack.old.vol)
        → HoldsLibrary result (body_on shelf n dsn.now.bytes)
        (λ at. slice_get pack.new.cache.libraries.items at) }
    ensures rest { Rest (IsErrOf result ReadErr.Device) H.tells (H.facts hall.old) (H.facts hall.new)
        (H.meaning hall.old) (H.meaning hall.new) pack.old pack.new }
{
    let Some((slot, set)) = slot_of(&pack.vol, dsn) else {
        return Ok(None);
    };
    match kind_in(&pack.cache, &set) {
        Kind::Part => {
            match cached_directory_of(alloc, hall, &mut pack.vol, &mut pack.cache, slot, &set) {
                Ok(at) => Ok(Some(at)),
                Err(error) => Err(error),
            }
        }
        Kind::Unreadable(track) => Err(ReadErr::Unreadable(track)),
        _ => Ok(None),
    }
}

// The same of a partitioned data set whose body can be read, by the slot of its format 1.
fn cached_directory_of<H: Hall>(
    alloc: Global,
    hall: &mut H,
    vol: &mut Vol,
    known: &mut PackCache,
    slot: u32,
    set: &F1,
) -> Result<usize, ReadErr>
    requires unit { IsOfUnit (H.facts hall.old).units vol.old }
    requires buffer { known.old.buf.records.geometry ≡ vol.old.geometry }
    requires slot { slice_get vol.old.slots.items slot ≡ Some (Dscb.F1 set.now) }
    requires known { let image = image_in (H.meaning hall.old) (H.facts hall.old) vol.old.unit in
        IsTrue H.tells → IsOnImage image vol.old known.old }
    requires part { let image = image_in (H.meaning hall.old) (H.facts hall.old) vol.old.unit in
        IsTrue H.tells → IsReadablePart image vol.old set.now }
    ensures library { let image = image_in (H.meaning hall.old) (H.facts hall.old) vol.old.unit in
        IsTrue H.tells → HoldsPart result (part_in image vol.old set.now)
        known.new.libraries.items }
    ensures known { let image = image_in (H.meaning hall.old) (H.facts hall.old) vol.old.unit in
        IsTrue H.tells → HoldLibraries image vol.old known.new.libraries.items }
    ensures unread { known.new.unread ≡ known.old.unread }
    ensures vol { vol.new ≡ vol.old }
    ensures buffer { known.new.buf.records.geometry ≡ vol.old.geometry }
    ensures held { let image = image_in (H.meaning hall.old) (H.facts hall.old) vol.old.unit in
        IsTrue H.tells → HoldsTrack image known.new.buf }
    ensures same { IsTrue H.tells → Same (H.meaning hall.old) (H.meaning hall.new) }
    ensures faults { ReportedCall (IsErrOf result ReadErr.Device) (H.facts hall.old)
        (H.facts hall.new) }
{
    let Some(start) = track_at(vol, set, 0) else {
        hall.differs(vol.unit, vol.vtoc.start);
        return Err(ReadErr::Device);
    };
    if let Some(at) = place_of(&known.libraries, start) {
        return Ok(at);
    }
    match read_directory(alloc, hall, vol, &mut known.buf, slot, set, start) {
        Ok(library) => add(&mut known.libraries, library),
        Err(error) => Err(error),
    }
}

// The number of the library, among these, of the data set that begins on a track.
fn place_of(libraries: &[Library], start: u16) -> Option<usize>
    ensures { result ≡ position (λ (l : Library). l.start == start) libraries.now }
{
    libraries.iter().position(|library| library.start == start)
}

// Puts a library after others, and gives its number among them.
fn add(libraries: &mut Vec<Library>, library: Library) -> Result<usize, ReadErr>
    ensures added { IfOk result (λ at. (at ≡ length libraries.old.items)
        × (libraries.new.items ≡ libraries.old.items ++ library ∷ [])) }
    ensures failed { OnErr result (libraries.new.items ≡ libraries.old.items) }
    ensures memory { IfErr result (λ e. e ≡ ReadErr.Memory) }
{
    let at = libraries.len();
    match libraries.push(library) {
        Ok(()) => Ok(at),
        Err(_) => Err(ReadErr::Memory),
    }
}

// Takes the library of a partitioned data set, whose format 1 stands in this slot, out of those that are held, or reads it.
pub(crate) fn lend_library<H: Hall>(
    alloc: Global,
    hall: &mut H,
    vol: &mut Vol,
    known: &mut PackCache,
    slot: u32,
    set: &F1,
) -> Result<Library, StoreErr>
    requires unit { IsOfUnit (H.facts hall.old).units vol.old }
    requires buffer { known.old.buf.records.geometry ≡ vol.old.geometry }
    requires slot { slice_get vol.old.slots.items slot ≡ Some (Dscb.F1 set.now) }
    requires part { let image = image_in (H.meaning hall.old) (H.facts hall.old) vol.old.unit in
        IsTrue H.tells → IsReadablePart image vol.old set.now }
    requires libraries { let image = image_in (H.meaning hall.old) (H.facts hall.old) vol.old.unit in
        IsTrue H.tells → HoldLibraries image vol.old known.old.libraries.items }
    ensures library { let image = image_in (H.meaning hall.old) (H.facts hall.old) vol.old.unit in
        IsTrue H.tells → IfOk result (IsLibraryAt image vol.old set.now) }
    ensures others { IfOk result (λ l. AreOthers l.start known.old.libraries.items
        known.new.libraries.items) }
    ensures failed { OnErr result (known.new.libraries ≡ known.old.libraries) }
    ensures refused { (r : Refusal) → ¬ IsErrOf result (StoreErr.Refused r) }
    ensures unread { known.new.unread ≡ known.old.unread }
    ensures vol { vol.new ≡ vol.old }
    ensures buffer { known.new.buf.records.geometry ≡ vol.old.geometry }
    ensures reach { known.old.buf.reach ≡ Reach.Nothing → known.new.buf.reach ≡ Reach.Nothing }
    ensures same { IsTrue H.tells → Same (H.meaning hall.old) (H.meaning hall.new) }
    ensures faults { StoreCall (H.facts hall.old) (H.facts hall.new) result }
{
    let Some(start) = track_at(vol, set, 0) else {
        hall.differs(vol.unit, vol.vtoc.start);
        return Err(StoreErr::Device);
    };
    if let Some(library) = take(&mut known.libraries, start) {
        return Ok(library);
    }
    match read_directory(alloc, hall, vol, &mut known.buf, slot, set, start) {
        Ok(library) => Ok(library),
        Err(ReadErr::Memory) => Err(StoreErr::Memory),
        Err(ReadErr::Device) => Err(StoreErr::Device),
        Err(ReadErr::Unreadable(_)) => {
            hall.differs(vol.unit, vol.vtoc.start);
            Err(StoreErr::Device)
        }
    }
}

// Takes the library of the data set that begins on a track out of others.
fn take(libraries: &mut Vec<Library>, start: u16) -> Option<Library>
    ensures taken { result ≡ library_from libraries.old.items start }
    ensures others { AreOthers start libraries.old.items libraries.new.items }
    ensures none { result ≡ None → libraries.new ≡ libraries.old }
{
    let at = place_of(libraries, start)?;
    let library = libraries.remove(at);
    libraries.retain(|other| other.start != start);
    Some(library)
}

// Puts a library after others; where memory runs out it is forgotten, and will be read again.
pub(crate) fn keep(libraries: &mut Vec<Library>, library: Library)
    ensures { IsKeptBehind library libraries.old.items libraries.new.items }
{
    let _ = libraries.push(library);
}

// Reads the directory of a partitioned data set that begins on a track, whose format 1 stands in this slot. The buffer holds
// no track then.
fn read_directory<H: Hall>(
    alloc: Global,
    hall: &mut H,
    vol: &mut Vol,
    buf: &mut ReadBuf,
    slot: u32,
    set: &F1,
    start: u16,
) -> Result<Library, ReadErr>
    requires unit { IsOfUnit (H.facts hall.old).units vol.old }
    requires buffer { buf.old.records.geometry ≡ vol.old.geometry }
    requires slot { slice_get vol.old.slots.items slot ≡ Some (Dscb.F1 set.now) }
    requires part { let image = image_in (H.meaning hall.old) (H.facts hall.old) vol.old.unit in
        IsTrue H.tells → IsPartIn image vol.old set.now }
    ensures library { let image = image_in (H.meaning hall.old) (H.facts hall.old) vol.old.unit in
        IsTrue H.tells → slice_get (owned_in image vol.old set.now) 0 ≡ Some start
        → ReadsLibrary result image vol.old set.now }
    ensures start { IfOk result (λ l. l.start ≡ start) }
    ensures vol { vol.new ≡ vol.old }
    ensures buffer { buf.new.records.geometry ≡ vol.old.geometry }
    ensures reach { buf.new.reach ≡ Reach.Nothing }
    ensures same { IsTrue H.tells → Same (H.meaning hall.old) (H.meaning hall.new) }
    ensures faults { ReportedCall (IsErrOf result ReadErr.Device) (H.facts hall.old)
        (H.facts hall.new) }
{
    lend(vol, buf);
    let read = read_dir(alloc, hall, vol, slot);
    take_back(vol, buf);
    library_from(alloc, read, start)
}

// Lends a buffer of reads to an index, empty, and keeps the index's.
fn lend(vol: &mut Vol, buf: &mut ReadBuf)
    ensures { IsLent vol.old vol.new buf.old buf.new }
{
    buf.forget();
    buf.records.clear(vol.unit, vol.vtoc.start);
    mem::swap(&mut vol.buf, &mut buf.records);
}

// Takes it back, and gives the index its own.
fn take_back(vol: &mut Vol, buf: &mut ReadBuf)
    ensures vol { vol.new ≡ record vol.old { buf = buf.old.records } }
    ensures buf { buf.new ≡ record buf.old { records = vol.old.buf } }
{
    mem::swap(&mut vol.buf, &mut buf.records);
}

// The library of a directory, where it was read, of a data set that begins on this track.
fn library_from(alloc: Global, read: Result<Dir, ReadErr>, start: u16) -> Result<Library, ReadErr>
    requires { IfOk read IsLawfulDir }
    ensures library { IsMadeFrom read start result }
    ensures device { IsErrOf result ReadErr.Device → IsErrOf read ReadErr.Device }
    ensures failed { IsErrOf read ReadErr.Device → IsErrOf result ReadErr.Device }
{
    match read {
        Ok(dir) => match library_of(alloc, dir, start) {
            Ok(library) => Ok(library),
            Err(_) => Err(ReadErr::Memory),
        },
        Err(error) => Err(error),
    }
}

// The place of the end-of-file record of a partitioned data set's directory, whose body can be read. No memory is taken.
pub(crate) fn end_of<H: Hall>(
    hall: &mut H,
    vol: &mut Vol,
    known: &mut PackCache,
    set: &F1,
) -> Result<Place, Device>
    requires unit { IsOfUnit (H.facts hall.old).units vol.old }
    requires buffer { known.old.buf.records.geometry ≡ vol.old.geometry }
    requires known { let image = image_in (H.meaning hall.old) (H.facts hall.old) vol.old.unit in
        IsTrue H.tells → IsOnImage image vol.old known.old }
    requires part { let image = image_in (H.meaning hall.old) (H.facts hall.old) vol.old.unit in
        IsTrue H.tells → (on : IsOnImage image vol.old known.old)
        → IsPartOn image vol.old set.now (body_on on.shelf on.number set.now.name) }
    ensures end { let image = image_in (H.meaning hall.old) (H.facts hall.old) vol.old.unit in
        IsTrue H.tells → IfOk result (λ end. end ≡ end_in image vol.old set.now) }
    ensures vol { vol.new ≡ vol.old }
    ensures others { known.new ≡ record known.old { buf = known.new.buf } }
    ensures buffer { known.new.buf.records.geometry ≡ vol.old.geometry }
    ensures held { let image = image_in (H.meaning hall.old) (H.facts hall.old) vol.old.unit in
        IsTrue H.tells → HoldsTrack image known.new.buf }
    ensures same { IsTrue H.tells → Same (H.meaning hall.old) (H.meaning hall.new) }
    ensures faults { DeviceCall (H.facts hall.old) (H.facts hall.new) result }
{
    if let Some(end) = held_end(vol, &known.libraries, set) {
        return Ok(end);
    }
    lend(vol, &mut known.buf);
    let found = find_end(hall, vol, set);
    take_back(vol, &mut known.buf);
    found
}

// The library of a partitioned data set, if it is held.
fn held_of<'a>(vol: &Vol, libraries: &'a [Library], set: &F1) -> Option<&'a Library>
    requires unit { (units : List Attached) × IsOfUnit units vol.now }
    ensures { IfSome (option_copied result) (λ l. (image : List ℕ)
        → IsReadablePart image vol.now set.now → HoldLibraries image vol.now libraries.now
        → IsLibraryAt image vol.now set.now l) }
{
    let start = track_at(vol, set, 0)?;
    held_from(libraries, start)
}

// That of the data set that begins on a track.
fn held_from(libraries: &[Library], start: u16) -> Option<&Library>
    ensures { option_copied result ≡ library_from libraries.now start }
{
    libraries.iter().find(|library| library.start == start)
}

// The place of the directory's end, if the library is held.
fn held_end(vol: &Vol, libraries: &[Library], set: &F1) -> Option<Place>
    requires unit { (units : List Attached) × IsOfUnit units vol.now }
    ensures { IfSome result (λ end. (image : List ℕ) → IsReadablePart image vol.now set.now
        → HoldLibraries image vol.now libraries.now → end ≡ end_in image vol.now set.now) }
{
    let library = held_of(vol, libraries, set)?;
    Some(library.dir.end)
}

// Whether a partitioned data set, whose body can be read, has no entry and no block, if its library is held.
pub(crate) fn vacancy(vol: &Vol, libraries: &[Library], set: &F1) -> Option<bool>
    requires unit { (units : List Attached) × IsOfUnit units vol.now }
    ensures { (image : List ℕ) → IsReadablePart image vol.now set.now
        → HoldLibraries image vol.now libraries.now
        → IsVacancyOf result (part_in image vol.now set.now) set.now.lstar }
{
    let library = held_of(vol, libraries, set)?;
    Some(is_vacant(library, set))
}

// The same of its library.
fn is_vacant(library: &Library, set: &F1) -> bool
    ensures { result ≡ is_vacant_by library.now set.now.lstar }
{
    library.entries.len() == 0 && !is_before(library.dir.end, last_of(set))
}
