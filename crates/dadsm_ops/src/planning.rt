//! What a new data set gets, judged before anything is written.
ghost use Rattle.std.specs.Prelude.{◌≡◌, ◌≤◌, ◌<◌, ◌+◌, ◌-◌, ℕ, List, length, vec_len, IfOk, IfErr, OnOk, Ok, Err, false};
ghost use Rattle.std.specs.Vec.{vec_capacity};
ghost use Rattle.hall_core.specs.Facts.{Attached};
ghost use Rattle.pack_spec.specs.Volume.{volume_of};
ghost use Rattle.space_alloc.specs.Edits.{AreWithout, between};
ghost use Rattle.space_alloc.specs.Units.{listed};
ghost use Rattle.vol_model.specs.Shelf.{allocate_on, is_catalog, is_partitioned, lacks_room};
ghost use Rattle.vol_model.specs.Places.{tracks_in};
ghost use Rattle.vol_model.specs.Space.{AreMaximal, EndBy};
ghost use Rattle.vol_model.specs.declared.contents.Run.{Run};
ghost use Rattle.vol_model.specs.declared.contents.Volume.{Volume};
ghost use Rattle.vol_model.specs.declared.refusals.Refusal.{Refusal};
ghost use Rattle.vtoc_index.specs.Index.{IsMounted, IsOfUnit};
ghost use Rattle.vtoc_index.specs.Names.{AreByName, name_at};
ghost use Rattle.dadsm_ops.specs.Allocating.{AreExtents, AreTracksOf, HasChoice, HasPlan, IsAbsent, cut_by, own_slots};

use crate::formatting::lacks_room;
use crate::new_set::extent_count;
use ebcdic_names::Dsn;
use pack_spec::layout::OWN_EXTENTS;
use space_alloc::{Extents, choose, remove_all};
use vol_model::{Attr, Refusal, Request, Run, is_catalog};
use vtoc_index::{Vol, find};
use vtoc_sets::{slots_for, slots_of_sets, tracks_in};

// Whether the name and the organization are those of a partitioned data set.
fn is_partitioned(dsn: &Dsn, attr: &Attr) -> bool
    ensures { result ≡ is_partitioned dsn.now.bytes attr.now }
{
    !is_catalog(dsn) && attr.dsorg / 512 == 1
}

// The tracks for a new data set with so many directory blocks, or the first reason why it gets none.
fn chosen(
    vol: &Vol,
    dsn: &Dsn,
    attr: &Attr,
    request: &Request,
    dir: u32,
) -> Result<Extents, Refusal>
    requires unit { (units : List Attached) × IsOfUnit units vol.now }
    requires names { AreByName (name_at vol.now.slots.items) vol.now.by_name.items }
    ensures few { IfOk result (λ e. e.n ≤ 5) }
    ensures written { IfOk result (λ e. AreExtents (listed e)) }
    ensures tracks { IfOk result (λ e. AreTracksOf vol.now.geometry (listed e)) }
    ensures absent { OnOk result (IsAbsent dsn.now.bytes vol.now.slots.items) }
    ensures chosen { IfOk result (λ e. (image : List ℕ) (volume : Volume) → IsMounted image vol.now
        → volume_of image ≡ Ok volume
        → HasChoice dsn.now attr.now request.now dir volume (listed e)) }
    ensures refused { IfErr result (λ r. (image : List ℕ) (volume : Volume) → IsMounted image vol.now
        → volume_of image ≡ Ok volume → allocate_on dsn.now attr.now request.now dir volume ≡ Err r) }
{
    if find(vol, dsn).is_some() {
        return Err(Refusal::SetExists);
    }
    if is_partitioned(dsn, attr) != (dir > 0) {
        return Err(Refusal::WrongKind);
    }
    match choose(&vol.free, &vol.geometry, request) {
        Ok(extents) => Ok(extents),
        Err(none) => Err(Refusal::NoSpace { asked: none.asked }),
    }
}

// How many runs are left of the tracks from one up to another without those of extents.
fn pieces(low: u16, high: u16, taken: &[Run]) -> u32
    requires within { EndBy 65535 taken.now }
    ensures runs { result ≡ length (cut_by taken.now (between low high)) }
    ensures few { result ≤ high - low }
{
    if high <= low {
        return 0;
    }
    match taken {
        [] => 1,
        [first, rest @ ..] => {
            pieces(low, first.start.min(high), rest)
                + pieces(low.max(first.start + first.len), high, rest)
        }
    }
}

// How many free runs are left without the tracks of extents.
fn count_without(free: &[Run], taken: &[Run]) -> u32
    requires maximal { AreMaximal free.now }
    requires within { EndBy 65535 free.now }
    requires taken_within { EndBy 65535 taken.now }
    ensures { result ≡ length (cut_by taken.now free.now) }
{
    let mut left = 0;
    for run in free {
        left += pieces(run.start, run.start + run.len, taken);
    }
    left
}

// How many free runs a volume has without the tracks of extents.
pub(crate) fn runs_left(vol: &Vol, extents: &Extents) -> u32
    requires unit { (units : List Attached) × IsOfUnit units vol.now }
    requires few { extents.now.n ≤ 5 }
    requires written { AreExtents (listed extents.now) }
    ensures { (left : List Run) × AreWithout vol.now.free.items (listed extents.now) left
        × (result ≡ length left) }
{
    count_without(&vol.free, &extents.runs[..usize::from(extents.n)])
}

// Removes the tracks of extents from the free runs of a volume.
pub(crate) fn take_runs(vol: &mut Vol, extents: &Extents)
    requires unit { (units : List Attached) × IsOfUnit units vol.old }
    requires few { extents.now.n ≤ 5 }
    requires written { AreExtents (listed extents.now) }
    requires room { vec_len vol.old.free + 6 ≤ vec_capacity vol.old.free }
    ensures runs { AreWithout vol.old.free.items (listed extents.now) vol.new.free.items }
    ensures others { vol.new ≡ record vol.old { free = vol.new.free } }
    ensures room { vec_capacity vol.new.free ≡ vec_capacity vol.old.free }
{
    remove_all(&mut vol.free, &extents.runs[..usize::from(extents.n)]);
}

// The tracks of extents.
fn tracks_of(extents: &Extents) -> u32
    requires few { extents.now.n ≤ 5 }
    requires written { AreExtents (listed extents.now) }
    ensures { result ≡ tracks_in (listed extents.now) }
{
    tracks_in(&extents.runs[..usize::from(extents.n)])
}

// The slots that a new data set takes.
pub(crate) fn own_slots(extents: &Extents) -> u32
    requires few { extents.now.n ≤ 5 }
    ensures slots { result ≡ own_slots (listed extents.now) }
    ensures few { result ≤ 2 }
{
    if extent_count(*extents) > OWN_EXTENTS {
        2
    } else {
        1
    }
}

// The tracks that a new data set gets, or the first reason why it gets nothing.
pub(crate) fn plan(
    vol: &Vol,
    dsn: &Dsn,
    attr: &Attr,
    request: &Request,
    dir: u32,
) -> Result<Extents, Refusal>
    requires unit { (units : List Attached) × IsOfUnit units vol.now }
    requires names { AreByName (name_at vol.now.slots.items) vol.now.by_name.items }
    requires catalog { is_catalog dsn.now.bytes ≡ false }
    requires dir { dir ≤ 2000 }
    ensures few { IfOk result (λ e. e.n ≤ 5) }
    ensures written { IfOk result (λ e. AreExtents (listed e)) }
    ensures tracks { IfOk result (λ e. AreTracksOf vol.now.geometry (listed e)) }
    ensures room { IfOk result (λ e. lacks_room vol.now.geometry.device dsn.now.bytes dir
        (tracks_in (listed e)) ≡ false) }
    ensures absent { OnOk result (IsAbsent dsn.now.bytes vol.now.slots.items) }
    ensures plan { IfOk result (λ e. (image : List ℕ) → IsMounted image vol.now
        → HasPlan image dsn.now attr.now request.now dir (listed e)) }
    ensures refused { IfErr result (λ r. (image : List ℕ) (volume : Volume) → IsMounted image vol.now
        → volume_of image ≡ Ok volume → allocate_on dsn.now attr.now request.now dir volume ≡ Err r) }
{
    let extents = chosen(vol, dsn, attr, request, dir)?;
    let sets = slots_of_sets(vol) + own_slots(&extents);
    let slots = slots_for(runs_left(vol, &extents), sets);
    if slots > vol.slots.len() as u32 {
        return Err(Refusal::VtocFull { slots });
    }
    if lacks_room(vol.geometry.device, dir, tracks_of(&extents)) {
        return Err(Refusal::NoRoom);
    }
    Ok(extents)
}
