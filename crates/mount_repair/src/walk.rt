//! The data sets of a pack walked: what each is, and which directories aren't packed.
ghost use Rattle.std.specs.Prelude.{◌≡◌, ◌<◌, ◌⊎◌, ◌++◌, ◌∷◌, [], true, is_some, slice_get, vec_len, IfErr, IfOk, IsErrOf, IsTrue, OnOk, Some};
ghost use Rattle.dscb_codec.specs.declared.F1.{F1};
ghost use Rattle.hall_core.specs.Told.{ImageHas};
ghost use Rattle.stop_model.specs.Moments.{Same};
ghost use Rattle.vtoc_index.specs.Calls.{MountCall};
ghost use Rattle.vtoc_index.specs.Index.{IsMounted, IsOfUnit};
ghost use Rattle.vtoc_index.specs.Names.{AreByName, name_at};
ghost use Rattle.vol_model.specs.Reading.{kind_of};
ghost use Rattle.pds_directory.specs.Directories.{IsLawfulDir, IsPartIn};
ghost use Rattle.seq_access.specs.Bodies.{IsSetIn, part_in};
ghost use Rattle.mount_repair.specs.Scans.{AreSound};
ghost use Rattle.mount_repair.specs.Sets.{body_at};
ghost use Rattle.mount_repair.specs.Walks.{Holds, HoldsFrom, IsKindUnread, IsKindWalked, IsWalkOf, Notes, NotesSet, WalksSet};

use crate::library::{Library, library_of};
use crate::scanned::Unpacked;
use dscb_codec::{Dscb, F1};
use ebcdic_names::Dsn;
use hall_core::Hall;
use pds_directory::{Dir, is_packed, walk_dir};
use seq_access::{check_part_records, check_records};
use std::alloc::Global;
use stow_ops::packing;
use vol_model::{CheckErr, Kind, ReadErr};
use vtoc_index::{MountErr, Vol};
use vtoc_sets::{BodyKind, body_kind, track_at};

// What a walk over the data sets of a pack noted: the name and the kind of each, and the directories, packed or not.
#[derive(Drop)]
pub(crate) struct Walk {
    pub(crate) volume: Vec<(Dsn, Kind)>,
    pub(crate) libraries: Vec<Library>,
    pub(crate) unpacked: Vec<Unpacked>,
}

// Walks the data sets of a pack in the order of their names. Nothing is written.
pub(crate) fn walk_sets<H: Hall>(
    alloc: Global,
    hall: &mut H,
    vol: &mut Vol,
) -> Result<Walk, MountErr>
    requires unit { IsOfUnit (H.facts hall.old).units vol.old }
    requires names { AreByName (name_at vol.old.slots.items) vol.old.by_name.items }
    requires mounted { ImageHas H.Hall hall.old vol.old.unit (λ image. IsMounted image vol.old) }
    ensures walk { ImageHas H.Hall hall.old vol.old.unit (λ image.
        IfOk result (IsWalkOf image vol.old)) }
    ensures sound { IfOk result (λ walk. AreSound vol.old.slots.items walk.unpacked.items) }
    ensures mounted { ImageHas H.Hall hall.old vol.old.unit (λ image. IsMounted image vol.new) }
    ensures others { vol.new ≡ record vol.old { buf = vol.new.buf } }
    ensures unit { IsOfUnit (H.facts hall.new).units vol.new }
    ensures why { IfErr result (λ e. (e ≡ MountErr.Memory) ⊎ (e ≡ MountErr.Device)) }
    ensures same { IsTrue H.tells → Same (H.meaning hall.old) (H.meaning hall.new) }
    ensures faults { MountCall (H.facts hall.old) (H.facts hall.new) result }
{
    let mut walk = Walk {
        volume: Vec::new(alloc),
        libraries: Vec::new(alloc),
        unpacked: Vec::new(alloc),
    };
    for k in 0..vol.by_name.len() {
        let slot = slot_at(vol, k);
        walk_set(alloc, hall, vol, slot, &mut walk)?;
    }
    Ok(walk)
}

// The slot of the k-th data set in the order of their names.
fn slot_at(vol: &Vol, k: usize) -> u32
    requires { k < vec_len vol.now.by_name }
    ensures { slice_get vol.now.by_name.items k ≡ Some result }
{
    vol.by_name[k]
}

// Walks the data set whose format 1 a slot holds.
fn walk_set<H: Hall>(
    alloc: Global,
    hall: &mut H,
    vol: &mut Vol,
    slot: u32,
    walk: &mut Walk,
) -> Result<(), MountErr>
    requires unit { IsOfUnit (H.facts hall.old).units vol.old }
    requires set { is_some (name_at vol.old.slots.items slot) ≡ true }
    requires mounted { ImageHas H.Hall hall.old vol.old.unit (λ image. IsMounted image vol.old) }
    ensures walk { ImageHas H.Hall hall.old vol.old.unit (λ image.
        (f : F1) → slice_get vol.old.slots.items slot ≡ Some (Dscb.F1 f)
        → OnOk result (WalksSet image vol.old slot f walk.old walk.new)) }
    ensures sound { AreSound vol.old.slots.items walk.old.unpacked.items
        → OnOk result (AreSound vol.old.slots.items walk.new.unpacked.items) }
    ensures mounted { ImageHas H.Hall hall.old vol.old.unit (λ image. IsMounted image vol.new) }
    ensures others { vol.new ≡ record vol.old { buf = vol.new.buf } }
    ensures unit { IsOfUnit (H.facts hall.new).units vol.new }
    ensures why { IfErr result (λ e. (e ≡ MountErr.Memory) ⊎ (e ≡ MountErr.Device)) }
    ensures same { IsTrue H.tells → Same (H.meaning hall.old) (H.meaning hall.new) }
    ensures faults { MountCall (H.facts hall.old) (H.facts hall.new) result }
{
    let set = set_at(vol, slot);
    let kind = walk_body(alloc, hall, vol, slot, &set, walk)?;
    list(&mut walk.volume, &set, kind)
}

// The format 1 in a slot.
fn set_at(vol: &Vol, slot: u32) -> F1
    requires { is_some (name_at vol.now.slots.items slot) ≡ true }
    ensures { slice_get vol.now.slots.items slot ≡ Some (Dscb.F1 result) }
{
    match &vol.slots[slot as usize] {
        Dscb::F1(set) => *set,
        _ => unreachable!(),
    }
}

// Puts the name and the kind of a data set after the others.
fn list(volume: &mut Vec<(Dsn, Kind)>, set: &F1, kind: Kind) -> Result<(), MountErr>
    ensures done { OnOk result (volume.new.items
        ≡ volume.old.items ++ (record { bytes = set.now.name }, kind) ∷ []) }
    ensures memory { IfErr result (λ e. e ≡ MountErr.Memory) }
{
    match volume.push((Dsn { bytes: set.name }, kind)) {
        Ok(()) => Ok(()),
        Err(_) => Err(MountErr::Memory),
    }
}

// Walks a data set by its format 1, which stands in this slot, and gives the kind of its body.
fn walk_body<H: Hall>(
    alloc: Global,
    hall: &mut H,
    vol: &mut Vol,
    slot: u32,
    set: &F1,
    walk: &mut Walk,
) -> Result<Kind, MountErr>
    requires unit { IsOfUnit (H.facts hall.old).units vol.old }
    requires slot { slice_get vol.old.slots.items slot ≡ Some (Dscb.F1 set.now) }
    requires set { ImageHas H.Hall hall.old vol.old.unit (λ image. IsSetIn image vol.old set.now) }
    ensures kind { ImageHas H.Hall hall.old vol.old.unit (λ image.
        IfOk result (λ kind. kind ≡ kind_of (body_at image vol.old set.now))) }
    ensures notes { NotesSet H.Hall hall.old vol.old slot set.now walk.old walk.new result }
    ensures mounted { ImageHas H.Hall hall.old vol.old.unit (λ image. IsMounted image vol.new) }
    ensures others { vol.new ≡ record vol.old { buf = vol.new.buf } }
    ensures unit { IsOfUnit (H.facts hall.new).units vol.new }
    ensures why { IfErr result (λ e. (e ≡ MountErr.Memory) ⊎ (e ≡ MountErr.Device)) }
    ensures same { IsTrue H.tells → Same (H.meaning hall.old) (H.meaning hall.new) }
    ensures faults { MountCall (H.facts hall.old) (H.facts hall.new) result }
{
    match body_kind(set) {
        BodyKind::Seq => kind_walked(Kind::Seq, check_records(hall, vol, set)),
        BodyKind::Part => walk_part(alloc, hall, vol, slot, set, walk),
        BodyKind::Catalog => Ok(Kind::Unreadable(0)),
        BodyKind::Other => Ok(Kind::Other),
    }
}

// The kind of a body, by the walk over its records.
fn kind_walked(kind: Kind, walked: Result<(), CheckErr>) -> Result<Kind, MountErr>
    ensures { IsKindWalked kind walked result }
{
    match walked {
        Ok(()) => Ok(kind),
        Err(CheckErr::Unreadable(track)) => Ok(Kind::Unreadable(track)),
        Err(CheckErr::Device) => Err(MountErr::Device),
    }
}

// Walks a partitioned data set by its format 1, which stands in this slot: its directory, and then all its records.
fn walk_part<H: Hall>(
    alloc: Global,
    hall: &mut H,
    vol: &mut Vol,
    slot: u32,
    set: &F1,
    walk: &mut Walk,
) -> Result<Kind, MountErr>
    requires unit { IsOfUnit (H.facts hall.old).units vol.old }
    requires slot { slice_get vol.old.slots.items slot ≡ Some (Dscb.F1 set.now) }
    requires part { ImageHas H.Hall hall.old vol.old.unit (λ image.
        IsPartIn image vol.old set.now) }
    ensures kind { ImageHas H.Hall hall.old vol.old.unit (λ image.
        IfOk result (λ kind. kind ≡ kind_of (part_in image vol.old set.now))) }
    ensures notes { NotesSet H.Hall hall.old vol.old slot set.now walk.old walk.new result }
    ensures mounted { ImageHas H.Hall hall.old vol.old.unit (λ image. IsMounted image vol.new) }
    ensures others { vol.new ≡ record vol.old { buf = vol.new.buf } }
    ensures unit { IsOfUnit (H.facts hall.new).units vol.new }
    ensures why { IfErr result (λ e. (e ≡ MountErr.Memory) ⊎ (e ≡ MountErr.Device)) }
    ensures same { IsTrue H.tells → Same (H.meaning hall.old) (H.meaning hall.new) }
    ensures faults { MountCall (H.facts hall.old) (H.facts hall.new) result }
{
    let found = match walk_dir(alloc, hall, vol, slot) {
        Ok(found) => found,
        Err(error) => return unread(error),
    };
    match check_part_records(hall, vol, set, found.dir.end, found.whole) {
        Ok(()) => note(
            alloc,
            slot,
            track_at(vol, set, 0),
            found.dir,
            &mut walk.libraries,
            &mut walk.unpacked,
        ),
        Err(CheckErr::Unreadable(track)) => Ok(Kind::Unreadable(track)),
        Err(CheckErr::Device) => Err(MountErr::Device),
    }
}

// The kind of a body whose directory can't be read.
fn unread(error: ReadErr) -> Result<Kind, MountErr>
    ensures { IsKindUnread error result }
{
    match error {
        ReadErr::Unreadable(track) => Ok(Kind::Unreadable(track)),
        ReadErr::Memory => Err(MountErr::Memory),
        ReadErr::Device => Err(MountErr::Device),
    }
}

// Notes a directory that was read, of the data set that begins on this track: it is kept where it is packed, and else how it
// comes to be packed. The kind is that of its body.
fn note(
    alloc: Global,
    slot: u32,
    start: Option<u16>,
    dir: Dir,
    libraries: &mut Vec<Library>,
    unpacked: &mut Vec<Unpacked>,
) -> Result<Kind, MountErr>
    requires { IsLawfulDir dir }
    ensures kind { IfOk result (λ kind. kind ≡ Kind.Part) }
    ensures noted { OnOk result (Notes slot dir unpacked.old.items unpacked.new.items) }
    ensures held { OnOk result (Holds start dir libraries.old.items libraries.new.items) }
    ensures memory { IfErr result (λ e. e ≡ MountErr.Memory) }
{
    if is_packed(&dir) {
        hold(alloc, start, dir, libraries)?;
        return Ok(Kind::Part);
    }
    let packing = packing(alloc, dir)?;
    add(unpacked, Unpacked { slot, packing })?;
    Ok(Kind::Part)
}

// Keeps the directory of the data set that begins on this track, if it has one.
fn hold(
    alloc: Global,
    start: Option<u16>,
    dir: Dir,
    libraries: &mut Vec<Library>,
) -> Result<(), MountErr>
    requires { IsLawfulDir dir }
    ensures held { OnOk result (HoldsFrom start dir libraries.old.items libraries.new.items) }
    ensures memory { IfErr result (λ e. e ≡ MountErr.Memory) }
{
    let Some(start) = start else {
        return Ok(());
    };
    let library = library_of(alloc, dir, start)?;
    match libraries.push(library) {
        Ok(()) => Ok(()),
        Err(_) => Err(MountErr::Memory),
    }
}

// Puts a directory after the others that aren't packed.
fn add(unpacked: &mut Vec<Unpacked>, dir: Unpacked) -> Result<(), MountErr>
    ensures done { OnOk result (unpacked.new.items ≡ unpacked.old.items ++ dir ∷ []) }
    ensures memory { IfErr result (λ e. e ≡ MountErr.Memory) }
{
    match unpacked.push(dir) {
        Ok(()) => Ok(()),
        Err(_) => Err(MountErr::Memory),
    }
}
