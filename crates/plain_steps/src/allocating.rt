//! Data sets get tracks: a new one, and one that is extended.
ghost use Rattle.std.specs.Prelude.{◌≡◌, ◌∷◌, [], ◌+◌, ◌*◌, ◌/◌, ◌==◌, IfOk, if◌then◌else◌, count_by, length, max, nat_lt, not};
ghost use Rattle.vol_model.specs.declared.contents.DataSet.{DataSet};
ghost use Rattle.ckd_image.specs.Device.{row_of};
ghost use Rattle.vol_model.specs.declared.catalogs.CatBody.TheVariants.{Tree};
ghost use Rattle.vol_model.specs.Order.{in_order};
ghost use Rattle.vol_model.specs.Places.{tracks_in};
ghost use Rattle.vol_model.specs.Shelf.{allocate_on, extend_on, extend_set, extended_by, flags_of, if_room, if_slots, is_catalog, is_partitioned, lacks_room, new_attr, new_body, secondary_asked, secondary_choice, with_new};
ghost use Rattle.vol_model.specs.Slots.{slots_needed};

use crate::choosing::choice;
use crate::copies::Copies;
use crate::directories::is_partitioned;
use crate::emptying::is_sequential;
use crate::lists::with_copies;
use crate::places::directory_end;
use crate::sets::{Change, has_set, set_of, with_set};
use crate::sorting::in_order;
use crate::space::free_runs;
use ckd_image::DiskType;
use ebcdic_names::Dsn;
use std::alloc::{AllocError, Global};
use vol_model::{
    Attr, Blocks, Body, CatBody, DataSet, DataSets, Entries, Nodes, Refusal, Request, Run, Runs,
    SpaceUnit, Volume, is_catalog,
};

/// The number of tracks of extents.
pub fn tracks_in(runs: &[Run]) -> Result<u32, AllocError>
    ensures { IfOk result (λ tracks. tracks ≡ tracks_in runs.now) }
{
    let mut tracks: u32 = 0;
    for run in runs {
        tracks = tracks.checked_add(u32::from(run.len)).ok_or(AllocError)?;
    }
    Ok(tracks)
}

// Whether a data set has more than three extents.
fn is_long(set: &DataSet) -> bool
    ensures { result ≡ nat_lt 3 (length set.now.extents) }
{
    3 < set.extents.len()
}

// How many data sets have more than three extents.
fn count_long(sets: &[DataSet]) -> usize
    ensures { result ≡ count_by (λ (x : DataSet). nat_lt 3 (length x.extents)) sets.now }
{
    sets.iter().filter(|set| is_long(set)).count()
}

// The slots for so many free runs, so many data sets, and so many of these with more than three extents.
fn slots_of(runs: usize, sets: usize, long: usize) -> Result<u32, AllocError>
    ensures { IfOk result (λ slots. slots ≡ 1 + max 1 ((runs + 25) / 26) + sets + long) }
{
    let lists = runs.checked_add(25).ok_or(AllocError)? / 26;
    let free = lists.max(1).checked_add(1).ok_or(AllocError)?;
    let firsts = free.checked_add(sets).ok_or(AllocError)?;
    let slots = firsts.checked_add(long).ok_or(AllocError)?;
    u32::try_from(slots).map_err(|_| AllocError)
}

/// The slots of the VTOC that a volume needs.
#[tactic(auto, unfolding(vol_model::specs::Slots::slots_needed))]
pub fn slots_needed(alloc: Global, volume: &Volume) -> Result<u32, AllocError>
    ensures { IfOk result (λ slots. slots ≡ slots_needed volume.now) }
{
    let runs = free_runs(alloc, volume)?;
    let sets = volume.sets.as_slice();
    slots_of(runs.len(), sets.len(), count_long(sets))
}

// The body of a new data set, with so many directory blocks.
fn new_body(
    alloc: Global,
    device: DiskType,
    name: &Dsn,
    attr: &Attr,
    dir: u32,
) -> Result<Body, AllocError>
    ensures { IfOk result (λ body. body ≡ new_body device name.now.bytes attr.now dir) }
{
    if is_catalog(name) {
        Ok(Body::Catalog)
    } else if is_sequential(name, attr) {
        Ok(Body::Seq(Blocks::new(alloc)))
    } else if is_partitioned(name, attr) {
        Ok(Body::Part {
            dir,
            end: directory_end(alloc, device, dir)?,
            entries: Entries::new(alloc),
            blocks: Blocks::new(alloc),
        })
    } else {
        Ok(Body::Other)
    }
}

// The flags of a request for space.
fn flags_of(unit: SpaceUnit, contig: bool) -> u8
    ensures { result ≡ flags_of unit contig }
{
    match unit {
        SpaceUnit::Track => { if contig { 0x88 } else { 0x80 } }
        SpaceUnit::Cylinder => { if contig { 0xC8 } else { 0xC0 } }
    }
}

// The attributes of a new data set; the catalog's are given.
fn new_attr(name: &Dsn, attr: &Attr, request: &Request) -> Attr
    ensures { result ≡ new_attr name.now.bytes attr.now request.now }
{
    let asked = Attr {
        scalo: flags_of(request.unit, request.contig),
        secondary: request.secondary,
        ..*attr
    };
    if is_catalog(name) {
        Attr {
            dsorg: 0x2000,
            recfm: 0x80,
            blksize: 256,
            keylen: 8,
            ..asked
        }
    } else {
        asked
    }
}

// Whether a directory, or for the catalog one block, doesn't fit in so many tracks.
fn lacks_room(
    alloc: Global,
    device: DiskType,
    name: &Dsn,
    dir: u32,
    tracks: u32,
) -> Result<bool, AllocError>
    ensures { IfOk result (λ lacks. lacks ≡ lacks_room device name.now.bytes dir tracks) }
{
    if is_catalog(name) {
        return Ok(tracks == 0);
    }
    if dir == 0 {
        return Ok(false);
    }
    let end = directory_end(alloc, device, dir)?;
    Ok(tracks <= u32::from(end.tt))
}

// The catalog of a volume with a new data set of so many tracks.
fn new_catalog(
    alloc: Global,
    volume: &Volume,
    name: &Dsn,
    tracks: u32,
) -> Result<Option<CatBody>, AllocError>
    ensures { IfOk result (λ catalog. catalog ≡ (if is_catalog name.now.bytes then Some (Tree (tracks * (row_of volume.now.geometry.device).directory_blocks_per_track) []) else volume.now.catalog)) }
{
    if !is_catalog(name) {
        return volume.catalog.copy(alloc);
    }
    let per_track = volume.geometry.device.directory_blocks_per_track();
    let blocks = tracks.checked_mul(u32::from(per_track)).ok_or(AllocError)?;
    Ok(Some(CatBody::Tree {
        blocks,
        nodes: Nodes::new(alloc),
    }))
}

// Data sets with one more, in the order of their names.
fn with_first(alloc: Global, set: DataSet, sets: &[DataSet]) -> Result<DataSets, AllocError>
    ensures { IfOk result (λ after. after ≡ in_order (set ∷ sets.now)) }
{
    let mut all = DataSets::new(alloc);
    all.push(set)?;
    let all = with_copies(alloc, all, sets)?;
    in_order(alloc, all.as_slice())
}

// The volume with a new data set on these tracks.
fn with_new(
    alloc: Global,
    dsn: &Dsn,
    attr: &Attr,
    request: &Request,
    dir: u32,
    volume: &Volume,
    runs: Runs,
) -> Result<Volume, AllocError>
    ensures { IfOk result (λ after. after ≡ with_new dsn.now attr.now request.now dir volume.now runs) }
{
    let catalog = new_catalog(alloc, volume, dsn, tracks_in(runs.as_slice())?)?;
    let set = DataSet {
        name: *dsn,
        attr: new_attr(dsn, attr, request),
        extents: runs,
        body: new_body(alloc, volume.geometry.device, dsn, attr, dir)?,
    };
    Ok(Volume {
        serial: volume.serial,
        geometry: volume.geometry,
        vtoc: volume.vtoc,
        slots: volume.slots,
        sets: with_first(alloc, set, volume.sets.as_slice())?,
        catalog,
    })
}

// The volume, unless it needs more slots than it has, or there is no room.
fn if_room(
    alloc: Global,
    lacks: bool,
    volume: Volume,
) -> Result<Result<Volume, Refusal>, AllocError>
    ensures { IfOk result (λ after. after ≡ if_room lacks volume) }
{
    let needed = slots_needed(alloc, &volume)?;
    if volume.slots < needed {
        return Ok(Err(Refusal::VtocFull { slots: needed }));
    }
    if lacks {
        return Ok(Err(Refusal::NoRoom));
    }
    Ok(Ok(volume))
}

// Whether a new data set of so many directory blocks is of the wrong kind: it has them if it is partitioned.
fn is_wrong_kind(name: &Dsn, attr: &Attr, dir: u32) -> bool
    ensures { result ≡ (if dir == 0 then is_partitioned name.now.bytes attr.now else not (is_partitioned name.now.bytes attr.now)) }
{
    if dir == 0 {
        is_partitioned(name, attr)
    } else {
        !is_partitioned(name, attr)
    }
}

/// The volume with a new data set, or why that is refused.
#[tactic(auto, unfolding(vol_model::specs::Shelf::allocate_on))]
pub fn allocate_on(
    alloc: Global,
    dsn: &Dsn,
    attr: &Attr,
    request: &Request,
    dir: u32,
    volume: &Volume,
) -> Result<Result<Volume, Refusal>, AllocError>
    ensures { IfOk result (λ after. after ≡ allocate_on dsn.now attr.now request.now dir volume.now) }
{
    if has_set(volume, dsn) {
        return Ok(Err(Refusal::SetExists));
    }
    if is_wrong_kind(dsn, attr, dir) {
        return Ok(Err(Refusal::WrongKind));
    }
    match choice(alloc, volume, request.unit, request.contig, request.primary)? {
        Some(runs) => allocated(alloc, dsn, attr, request, dir, volume, runs),
        None => Ok(Err(Refusal::NoSpace {
            asked: request.primary,
        })),
    }
}

// The volume with a new data set on these tracks, unless there is no room.
fn allocated(
    alloc: Global,
    dsn: &Dsn,
    attr: &Attr,
    request: &Request,
    dir: u32,
    volume: &Volume,
    runs: Runs,
) -> Result<Result<Volume, Refusal>, AllocError>
    ensures { IfOk result (λ after. after
        ≡ if_room (lacks_room volume.now.geometry.device dsn.now.bytes dir (tracks_in runs)) (with_new dsn.now attr.now request.now dir volume.now runs)) }
{
    let tracks = tracks_in(runs.as_slice())?;
    let lacks = lacks_room(alloc, volume.geometry.device, dsn, dir, tracks)?;
    if_room(
        alloc,
        lacks,
        with_new(alloc, dsn, attr, request, dir, volume, runs)?,
    )
}

// The choice for a set's secondary quantity; there is none where it has no such quantity.
fn secondary_choice(alloc: Global, volume: &Volume, attr: &Attr) -> Result<Option<Runs>, AllocError>
    ensures { IfOk result (λ found. found ≡ secondary_choice volume.now attr.now) }
{
    if attr.secondary == 0 {
        return Ok(None);
    }
    match attr.scalo / 64 {
        3 => choice(alloc, volume, SpaceUnit::Cylinder, false, attr.secondary),
        2 => choice(alloc, volume, SpaceUnit::Track, false, attr.secondary),
        _ => Ok(None),
    }
}

// The quantity that an extension asks for.
fn secondary_asked(attr: &Attr) -> u32
    ensures { result ≡ secondary_asked attr.now }
{
    if 128 <= attr.scalo { attr.secondary } else { 0 }
}

// More extents for a data set.
#[derive(Drop)]
struct MoreExtents<'a> {
    runs: &'a [Run],
}

impl Change for MoreExtents<'_> {
    ghost use Rattle.vol_model.specs.Shelf.{with_extents};

    ghost change = { λ more set. with_extents more.runs.now set };

    fn change(&self, alloc: Global, set: &DataSet) -> Result<DataSet, AllocError> {
        Ok(DataSet {
            name: set.name,
            attr: set.attr,
            extents: with_copies(alloc, set.extents.copy(alloc)?, self.runs)?,
            body: set.body.copy(alloc)?,
        })
    }
}

// The volume, unless it needs more slots than it has.
fn if_slots(alloc: Global, volume: Volume) -> Result<Result<Volume, Refusal>, AllocError>
    ensures { IfOk result (λ after. after ≡ if_slots volume) }
{
    let needed = slots_needed(alloc, &volume)?;
    if volume.slots < needed {
        return Ok(Err(Refusal::VtocFull { slots: needed }));
    }
    Ok(Ok(volume))
}

// The volume with these extents for a data set, or why that is refused.
fn extended_by(
    alloc: Global,
    dsn: &Dsn,
    volume: &Volume,
    set: &DataSet,
    runs: &[Run],
) -> Result<Result<Volume, Refusal>, AllocError>
    ensures { IfOk result (λ after. after ≡ extended_by dsn.now volume.now set.now runs.now) }
{
    let extents = set.extents.len().checked_add(runs.len()).ok_or(AllocError)?;
    if 16 < extents {
        return Ok(Err(Refusal::ExtentsFull));
    }
    if_slots(alloc, with_set(alloc, volume, dsn, &MoreExtents { runs })?)
}

// The volume with a data set extended, or why that is refused.
fn extend_set(
    alloc: Global,
    dsn: &Dsn,
    volume: &Volume,
    set: &DataSet,
) -> Result<Result<Volume, Refusal>, AllocError>
    ensures { IfOk result (λ after. after ≡ extend_set dsn.now volume.now set.now) }
{
    if is_catalog(dsn) {
        return Ok(Err(Refusal::WrongKind));
    }
    if let Body::Unreadable(track) = &set.body {
        return Ok(Err(Refusal::Unreadable(*track)));
    }
    match secondary_choice(alloc, volume, &set.attr)? {
        Some(runs) => extended_by(alloc, dsn, volume, set, runs.as_slice()),
        None => Ok(Err(Refusal::NoSpace {
            asked: secondary_asked(&set.attr),
        })),
    }
}

/// The volume with a data set extended by its secondary quantity, or why that is refused.
#[tactic(auto, unfolding(vol_model::specs::Shelf::extend_on))]
pub fn extend_on(
    alloc: Global,
    dsn: &Dsn,
    volume: &Volume,
) -> Result<Result<Volume, Refusal>, AllocError>
    ensures { IfOk result (λ after. after ≡ extend_on dsn.now volume.now) }
{
    match set_of(volume, dsn) {
        Some(set) => extend_set(alloc, dsn, volume, set),
        None => Ok(Err(Refusal::NoSet)),
    }
}
