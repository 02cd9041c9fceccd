//! The tracks that a volume owns, those that are free, and the slots that it needs.
ghost use Rattle.std.specs.Prelude.{◌≡◌, ◌⊎◌, ℕ, List, ◌+◌, ◌*◌, ◌/◌, ◌≤◌, ◌++◌, [], map, max, IfErr, IfOk, IsErrOf, IsTrue, OnOk, length, slice_get, nat_lt, if◌then◌else◌};
ghost use Rattle.std.specs.List.{list_all};
ghost use Rattle.std.specs.Option.{option_copied};
ghost use Rattle.ckd_image.specs.Device.{row_of};
ghost use Rattle.ckd_image.specs.Header.{HasGeometry};
ghost use Rattle.pack_spec.specs.Label.{tracks_of};
ghost use Rattle.pack_spec.specs.Owned.{volume_faults};
ghost use Rattle.pack_spec.specs.Rules.{has_extents, set_in, slots_faults};
ghost use Rattle.pack_spec.specs.Vtoc.{is_extent, run_of_extent};
ghost use Rattle.pack_spec.specs.Volume.{data_set_of, data_sets_in, volume_with};
ghost use Rattle.vol_model.specs.Lawful.{IsOnPack};
ghost use Rattle.vol_model.specs.Space.{AreMaximal, EndBy, free_runs, usable_cylinders};
ghost use Rattle.vtoc_index.specs.Owned.{AreOwned, HasMore};

use crate::MountErr;
use crate::extent::{Row, run_of};
use crate::set_extents::counted_extents;
use ckd_image::Geometry;
use dscb_codec::{Dscb, F1};
use pack_spec::VtocSlot;
use pack_spec::layout::OWN_EXTENTS;
use space_alloc::{free_runs, lowest_twice};
use std::alloc::{AllocError, Global};
use vol_model::Run;

// The free runs that one format 5 lists.
const RUNS_OF_FORMAT_5: u32 = 26;

// What the data sets in slots own and need.
#[derive(Drop)]
pub(crate) struct Owned {
    // Track 0, the tracks of the VTOC, and the extents of the data sets in the order of their slots.
    pub runs: Vec<Run>,
    // The slots of the data sets: one for each, and one more for each of more than three extents.
    pub slots: u32,
}

// The free runs of a volume that breaks no rule as a whole; else the first such rule that it breaks: a track that is
// owned twice goes before slots that are wanting.
pub(crate) fn free_runs_in(
    alloc: Global,
    geometry: Geometry,
    vtoc: Run,
    slots: &[VtocSlot],
) -> Result<Vec<Run>, MountErr>
    requires whole { (len : ℕ) × HasGeometry len geometry }
    requires vtoc { IsOnPack geometry vtoc }
    requires few { length slots.now ≤ 65535 }
    requires good { slots_faults geometry slots.now ≡ [] }
    ensures free { (tracks : List (List ℕ)) (label : List ℕ) →
        let volume = volume_with geometry tracks label vtoc slots.now in
        IfOk result (λ free. (volume_faults volume ≡ []) × (free.items ≡ free_runs volume)) }
    ensures runs { IfOk result (λ free. AreMaximal free.items
        × EndBy (tracks_of geometry) free.items) }
    ensures refused { (tracks : List (List ℕ)) (label : List ℕ) →
        let volume = volume_with geometry tracks label vtoc slots.now in
        IfErr result (λ e. (e ≡ MountErr.Memory)
        ⊎ (slice_get (volume_faults volume) 0 ≡ Some e)) }
    ensures device { IsErrOf result MountErr.Device → ⊥ }
    ensures file { IsErrOf result MountErr.NoFile → ⊥ }
{
    let mut owned = owned_by_sets(alloc, geometry, vtoc, slots)?;
    if let Some(track) = lowest_twice(&mut owned.runs)? {
        return Err(MountErr::Overlap { track });
    }
    let mut free = free_runs(alloc, usable_tracks(geometry), &owned.runs)?;
    let needed = slots_for(free.len() as u32, owned.slots);
    if (slots.len() as u32) < needed {
        return Err(MountErr::VtocFull { slots: needed });
    }
    free.reserve(slots.len() * RUNS_OF_FORMAT_5 as usize)?;
    Ok(free)
}

// The tracks of the cylinders that may hold data sets: those of the pack that aren't alternates.
fn usable_tracks(geometry: Geometry) -> u16
    requires { (len : ℕ) × HasGeometry len geometry }
    ensures { result ≡ usable_cylinders geometry * (row_of geometry.device).heads }
{
    geometry.cylinders.min(geometry.device.primary_cylinders()) * geometry.device.heads()
}

// The slots that a volume needs: one for its format 4, one for each started 26 free runs, but at least one, and
// those of its data sets.
fn slots_for(runs: u32, sets: u32) -> u32
    requires runs { runs ≤ 65535 }
    requires sets { sets ≤ 131070 }
    ensures { result ≡ 1 + max 1 ((runs + 25) / 26) + sets }
{
    1 + 1.max((runs + RUNS_OF_FORMAT_5 - 1) / RUNS_OF_FORMAT_5) + sets
}

// What the data sets in slots own and need.
fn owned_by_sets(
    alloc: Global,
    geometry: Geometry,
    vtoc: Run,
    slots: &[VtocSlot],
) -> Result<Owned, AllocError>
    requires whole { (len : ℕ) × HasGeometry len geometry }
    requires vtoc { IsOnPack geometry vtoc }
    requires few { length slots.now ≤ 65535 }
    requires good { slots_faults geometry slots.now ≡ [] }
    ensures owned { (tracks : List (List ℕ)) → IfOk result
        (AreOwned geometry vtoc (data_sets_in geometry tracks slots.now)) }
    ensures few { IfOk result (λ owned. owned.slots ≤ 2 * length slots.now) }
{
    let mut owned = Owned {
        runs: Vec::new(alloc),
        slots: 0,
    };
    owned.runs.push(Run { start: 0, len: 1 })?;
    owned.runs.push(vtoc)?;
    for slot in slots {
        if let Some(set) = set_in(slot) {
            owned.add(alloc, geometry, slots, set)?;
        }
    }
    Ok(owned)
}

// The format 1 that a slot holds.
fn set_in(slot: &VtocSlot) -> Option<&F1>
    ensures { option_copied result ≡ set_in slot.now.content }
{
    match &slot.content {
        Ok(Dscb::F1(set)) => Some(set),
        _ => None,
    }
}

impl Owned {
    // Adds the extents of a data set and the slots that it needs.
    #[tactic(auto, unfolding(pack_spec::specs::Volume::data_set_of))]
    fn add(
        &mut self,
        alloc: Global,
        geometry: Geometry,
        slots: &[VtocSlot],
        set: &F1,
    ) -> Result<(), AllocError>
        requires whole { (len : ℕ) × HasGeometry len geometry }
        requires good { IsTrue (has_extents geometry slots.now set.now) }
        requires few { self.old.slots ≤ 131068 }
        ensures more { (tracks : List (List ℕ)) → OnOk result
            (HasMore geometry (data_set_of geometry tracks slots.now set.now) self.old self.new) }
        ensures few { OnOk result (self.new.slots ≤ self.old.slots + 2) }
    {
        let rows = counted_extents(alloc, slots, set)?;
        push_runs(&mut self.runs, geometry, &rows)?;
        self.slots += slots_of_set(rows.len());
        Ok(())
    }
}

// The slots of a data set with so many extents.
fn slots_of_set(extents: usize) -> u32
    ensures { result ≡ (if nat_lt 3 extents then 2 else 1) }
{
    if extents > usize::from(OWN_EXTENTS) {
        2
    } else {
        1
    }
}

// Puts the tracks of extents after other runs.
fn push_runs(runs: &mut Vec<Run>, geometry: Geometry, rows: &[Row]) -> Result<(), AllocError>
    requires whole { (len : ℕ) × HasGeometry len geometry }
    requires good { IsTrue (list_all (is_extent geometry) rows.now) }
    ensures { OnOk result (runs.new.items
        ≡ runs.old.items ++ map (run_of_extent geometry) rows.now) }
{
    for row in rows {
        runs.push(run_of(geometry, row))?;
    }
    Ok(())
}
