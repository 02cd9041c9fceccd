//! A data set removed.
ghost use Rattle.std.specs.Prelude.{◌≡◌, ◌≤◌, ◌<◌, ◌+◌, ℕ, List, true, length, is_some, slice_get, vec_len, IsTrue, OnOk, Some};
ghost use Rattle.std.specs.Vec.{vec_capacity};
ghost use Rattle.ckd_image.specs.Device.{row_of};
ghost use Rattle.ckd_image.specs.Header.{HasGeometry};
ghost use Rattle.ebcdic_names.specs.declared.names.Dsn.{Dsn};
ghost use Rattle.hall_core.specs.Facts.{Attached, DeviceCall, unit_of};
ghost use Rattle.hall_core.specs.Told.{ImageHas};
ghost use Rattle.stop_model.specs.Moments.{IsDurable};
ghost use Rattle.pack_spec.specs.Label.{tracks_of};
ghost use Rattle.vol_model.specs.Shelf.{scratch_on};
ghost use Rattle.vol_model.specs.Space.{AreMaximal, EndBy, covers, is_in};
ghost use Rattle.vtoc_index.specs.Index.{IsMounted, IsOfUnit};
ghost use Rattle.vtoc_index.specs.Names.{AreByName, IsForgotten, name_at};
ghost use Rattle.dscb_codec.specs.declared.Dscb.{Dscb};
ghost use Rattle.vtoc_sets.specs.Sets.{HasSet, extents_in};
ghost use Rattle.dadsm_ops.specs.Operations.{DoesOperation, HasVtocOf, InVtoc};
ghost use Rattle.dadsm_ops.specs.Scratching.{AreFreed, usable_tracks};

use ckd_image::Geometry;
use dscb_codec::{Dscb, F1};
use free_rebuild::{conclude, mark, put_durably};
use hall_core::{Device, Hall};
use pack_spec::layout::MOST_EXTENTS;
use space_alloc::insert;
use vol_model::Run;
use vtoc_index::{Vol, forget_name};
use vtoc_sets::run_at;

// No track.
const NO_RUN: Run = Run { start: 0, len: 0 };

/// Removes the data set whose format 1 a slot holds.
///
/// The index is that of the image of its unit, and no write is pending. Each of these is made durable before
/// the next: format 4 with the bit of an interrupted update; zeros over the set's format 1 (System Control
/// Blocks GC28-6628), which decides the operation; zeros over its format 3, and the chain of free space;
/// format 4 with the right counts and both bits off. A stop at any moment leaves an image that stands for the
/// volume with the set or without it, and that is guarded where it was.
///
/// It takes no memory: the list of free runs has room for 16 more. `Device` comes only where the count of its
/// faults rose; then the index may be that of no image.
pub fn scratch<H: Hall>(hall: &mut H, vol: &mut Vol, slot: u32) -> Result<(), Device>
    requires unit { IsOfUnit (H.facts hall.old).units vol.old }
    requires names { AreByName (name_at vol.old.slots.items) vol.old.by_name.items }
    requires set { is_some (name_at vol.old.slots.items slot) ≡ true }
    requires room { vec_len vol.old.free + 16 ≤ vec_capacity vol.old.free }
    requires mounted { ImageHas H.Hall hall.old vol.old.unit (λ image. IsMounted image vol.old) }
    requires durable { IsTrue H.tells → IsDurable (H.meaning hall.old) }
    ensures files { (dsn : Dsn) → name_at vol.old.slots.items slot ≡ Some dsn.bytes
        → IsTrue H.tells → DoesOperation (unit_of (H.facts hall.old).units vol.old.unit).name
        (scratch_on dsn) vol.new (InVtoc vol.new) (H.meaning hall.old) (H.meaning hall.new)
        result }
    ensures unit { IsOfUnit (H.facts hall.new).units vol.new }
    ensures names { OnOk result (AreByName (name_at vol.new.slots.items) vol.new.by_name.items) }
    ensures index { HasVtocOf vol.old vol.new }
    ensures room { vec_capacity vol.new.free ≡ vec_capacity vol.old.free }
    ensures faults { DeviceCall (H.facts hall.old) (H.facts hall.new) result }
{
    mark(hall, vol)?;
    let runs = runs_at(vol, slot);
    put_durably(hall, vol, slot, &Dscb::F0)?;
    forget_set(vol, slot, &runs);
    conclude(hall, vol)
}

// Takes a data set, whose format 1 a slot held, out of the index: these are its tracks.
fn forget_set(vol: &mut Vol, slot: u32, runs: &[Run])
    requires unit { (units : List Attached) × IsOfUnit units vol.old }
    requires room { vec_len vol.old.free + length runs.now ≤ vec_capacity vol.old.free }
    ensures free { AreFreed (usable_tracks vol.old.geometry) vol.old.free.items runs.now
        vol.new.free.items }
    ensures names { (before : List Dscb) → AreByName (name_at before) vol.old.by_name.items
        → IsForgotten slot before vol.old.slots.items
        → AreByName (name_at vol.new.slots.items) vol.new.by_name.items }
    ensures others { vol.new ≡ record vol.old { free = vol.new.free; by_name = vol.new.by_name } }
    ensures room { vec_capacity vol.new.free ≡ vec_capacity vol.old.free }
{
    release(&mut vol.free, vol.geometry, runs);
    forget_name(vol, slot);
}

// The extents of the data set whose format 1 a slot holds; the places after them have no track.
fn runs_at(vol: &Vol, slot: u32) -> [Run; 16]
    requires unit { (units : List Attached) × IsOfUnit units vol.now }
    requires slot { slot < length vol.now.slots.items }
    ensures { (image : List ℕ) (set : F1)
        → slice_get vol.now.slots.items slot ≡ Some (Dscb.F1 set) → HasSet image vol.now set
        → (track : ℕ) → covers result track ≡ covers (extents_in image vol.now set) track }
{
    match &vol.slots[slot as usize] {
        Dscb::F1(set) => runs_of(vol, set),
        _ => [NO_RUN; 16],
    }
}

// The extents of a data set; the places after them have no track.
fn runs_of(vol: &Vol, set: &F1) -> [Run; 16]
    requires unit { (units : List Attached) × IsOfUnit units vol.now }
    ensures { (image : List ℕ) → HasSet image vol.now set.now
        → (track : ℕ) → covers result track ≡ covers (extents_in image vol.now set.now) track }
{
    let mut runs = [NO_RUN; 16];
    for k in 0..MOST_EXTENTS {
        if let Some(run) = run_at(vol, set, k) {
            runs[usize::from(k)] = run;
        }
    }
    runs
}

// The tracks of the cylinders that aren't alternates.
fn usable_tracks(geometry: Geometry) -> u16
    requires whole { (len : ℕ) × HasGeometry len geometry }
    ensures { result ≡ usable_tracks geometry }
{
    geometry.cylinders.min(geometry.device.primary_cylinders()) * geometry.device.heads()
}

// The part of a run on the first tracks, so many of these.
fn first_part(run: Run, tracks: u16) -> Run
    ensures within { result.start + result.len ≤ tracks }
    ensures tracks { (track : ℕ) → track < tracks → is_in track result ≡ is_in track run }
{
    let start = run.start.min(tracks);
    let end = run.start.saturating_add(run.len).min(tracks);
    Run {
        start,
        len: end - start,
    }
}

// Makes the tracks of runs free again, as far as data sets may have them.
fn release(free: &mut Vec<Run>, geometry: Geometry, runs: &[Run])
    requires whole { (len : ℕ) × HasGeometry len geometry }
    requires room { vec_len free.old + length runs.now ≤ vec_capacity free.old }
    requires maximal { AreMaximal free.old.items }
    requires within { EndBy (tracks_of geometry) free.old.items }
    ensures freed { AreFreed (usable_tracks geometry) free.old.items runs.now free.new.items }
    ensures capacity { vec_capacity free.new ≡ vec_capacity free.old }
{
    let tracks = usable_tracks(geometry);
    for run in runs {
        insert(free, first_part(*run, tracks));
    }
}
