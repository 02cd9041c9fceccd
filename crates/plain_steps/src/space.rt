//! The free tracks of a volume, and which of them are chosen for a request.
ghost use Rattle.std.specs.Prelude.{◌≡◌, ◌-◌, ◌*◌, ◌≤◌, IfOk, OnOk, filter, not};
ghost use Rattle.std.specs.List.{list_all, list_any, range_with_len};
ghost use Rattle.vol_model.specs.declared.contents.DataSet.{DataSet};
ghost use Rattle.vol_model.specs.Space.{count_of, covers, free_runs, free_units, is_in, is_unowned, runs_of, size_of, usable_cylinders, with_front};

use ckd_image::Geometry;
use std::alloc::{AllocError, Global};
use vol_model::{DataSet, Run, Runs, SpaceUnit, Volume};

// Whether the track lies in the run.
fn is_in(track: u32, run: &Run) -> bool
    ensures { result ≡ is_in track run.now }
{
    u32::from(run.start) <= track && track < u32::from(run.start) + u32::from(run.len)
}

// Whether the track lies in one of these runs.
fn covers(runs: &[Run], track: u32) -> bool
    ensures { result ≡ covers runs.now track }
{
    runs.iter().any(|run| is_in(track, run))
}

// Whether a data set owns the track.
fn owns(set: &DataSet, track: u32) -> bool
    ensures { result ≡ covers set.now.extents track }
{
    covers(set.extents.as_slice(), track)
}

// Whether one of these data sets owns the track.
fn any_owns(sets: &[DataSet], track: u32) -> bool
    ensures { result ≡ list_any (λ (x : DataSet). covers x.extents track) sets.now }
{
    sets.iter().any(|set| owns(set, track))
}

// Whether the track is track 0, or in the VTOC or in an extent.
fn is_owned(volume: &Volume, track: u32) -> bool
    ensures { result ≡ not (is_unowned volume.now track) }
{
    track == 0 || (is_in(track, &volume.vtoc) || any_owns(volume.sets.as_slice(), track))
}

// Whether it is none of these.
fn is_unowned(volume: &Volume, track: u32) -> bool
    ensures { result ≡ is_unowned volume.now track }
{
    !is_owned(volume, track)
}

// The cylinders that may hold data sets.
pub(crate) fn usable_cylinders(geometry: &Geometry) -> u16
    ensures { result ≡ usable_cylinders geometry.now }
{
    geometry.cylinders.min(geometry.device.primary_cylinders())
}

// The tracks of a unit.
pub(crate) fn size_of(heads: u16, unit: SpaceUnit) -> u16
    ensures { result ≡ size_of heads unit }
{
    match unit {
        SpaceUnit::Track => 1,
        SpaceUnit::Cylinder => heads,
    }
}

// How many units so many cylinders have.
pub(crate) fn count_of(cylinders: u16, heads: u16, unit: SpaceUnit) -> u32
    ensures { result ≡ count_of cylinders heads unit }
{
    match unit {
        SpaceUnit::Track => u32::from(cylinders) * u32::from(heads),
        SpaceUnit::Cylinder => u32::from(cylinders),
    }
}

// Whether so many tracks from one on are free.
fn are_free(volume: &Volume, first: u32, end: u32) -> bool
    requires { first ≤ end }
    ensures { result ≡ list_all (is_unowned volume.now) (range_with_len first (end - first)) }
{
    (first..end).all(|track| is_unowned(volume, track))
}

// Whether all tracks of a unit are free.
fn is_free_unit(volume: &Volume, size: u16, unit: u32) -> Result<bool, AllocError>
    ensures { IfOk result (λ so. so ≡ list_all (is_unowned volume.now) (range_with_len (unit * size) size)) }
{
    let first = unit.checked_mul(u32::from(size)).ok_or(AllocError)?;
    let end = first.checked_add(u32::from(size)).ok_or(AllocError)?;
    Ok(are_free(volume, first, end))
}

// Of the first units of a size, those all of whose tracks are free.
#[tactic(auto, using(crate::proofs::Rows::filter_kept, crate::proofs::Rows::filter_passed))]
pub(crate) fn free_units(
    alloc: Global,
    volume: &Volume,
    size: u16,
    count: u32,
) -> Result<Vec<u32>, AllocError>
    ensures { IfOk result (λ units. units.items ≡ free_units (is_unowned volume.now) size count) }
{
    let mut units = Vec::new(alloc);
    for unit in 0..count {
        if is_free_unit(volume, size, unit)? {
            units.push(unit)?;
        }
    }
    Ok(units)
}

// Puts one more unit in front of runs.
fn add_front(runs: &mut Vec<Run>, unit: u32) -> Result<(), AllocError>
    ensures { OnOk result (runs.new.items ≡ with_front unit runs.old.items) }
{
    let start = u16::try_from(unit).map_err(|_| AllocError)?;
    if let Some(first) = runs.first().copied() {
        if u32::from(first.start) == unit + 1 {
            let len = first.len.checked_add(1).ok_or(AllocError)?;
            runs[0] = Run { start, len };
            return Ok(());
        }
    }
    runs.insert(0, Run { start, len: 1 })?;
    Ok(())
}

// Units, of which the lowest is the first, in runs as long as can be.
pub(crate) fn runs_of(alloc: Global, units: &[u32]) -> Result<Runs, AllocError>
    ensures { IfOk result (λ runs. runs ≡ runs_of units.now) }
{
    let mut runs = Vec::new(alloc);
    let mut at = units.len();
    while at > 0 {
        at -= 1;
        add_front(&mut runs, units[at])?;
    }
    Ok(Runs::from_vec(runs))
}

/// The runs in which the free tracks of a volume lie, each as long as can be, the lowest first.
pub fn free_runs(alloc: Global, volume: &Volume) -> Result<Runs, AllocError>
    ensures { IfOk result (λ runs. runs ≡ free_runs volume.now) }
{
    let heads = volume.geometry.device.heads();
    let tracks = u32::from(usable_cylinders(&volume.geometry)) * u32::from(heads);
    runs_of(alloc, free_tracks(alloc, volume, tracks)?.as_slice())
}

// The first tracks that are free, the lowest first.
#[tactic(auto, using(crate::proofs::Rows::filter_kept, crate::proofs::Rows::filter_passed))]
fn free_tracks(alloc: Global, volume: &Volume, tracks: u32) -> Result<Vec<u32>, AllocError>
    ensures { IfOk result (λ free. free.items ≡ filter (is_unowned volume.now) (range_with_len 0 tracks)) }
{
    let mut free = Vec::new(alloc);
    for track in 0..tracks {
        if is_unowned(volume, track) {
            free.push(track)?;
        }
    }
    Ok(free)
}
