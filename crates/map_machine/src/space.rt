//! The free space of a volume, counted.
ghost use Rattle.std.specs.Prelude.{◌≡◌, ◌*◌, ◌^◌, ◌<◌, ◌≤◌, length, nat_lt, not};
ghost use Rattle.std.specs.List.{list_any};
ghost use Rattle.ckd_image.specs.Device.{row_of};
ghost use Rattle.vol_model.specs.Lawful.{IsLawfulVolume};
ghost use Rattle.vol_model.specs.Reading.{volume_info};
ghost use Rattle.vol_model.specs.Slots.{slots_for};
ghost use Rattle.vol_model.specs.Space.{covers, free_runs, free_tracks, is_in, is_unowned, usable_cylinders};

use ckd_image::Geometry;
use vol_model::{DataSet, Run, Volume, VolumeInfo};

// How many tracks are free, and in how many runs they lie.
#[derive(Clone, Copy, Debug)]
pub(crate) struct FreeSpace {
    pub(crate) tracks: u32,
    pub(crate) runs: u32,
}

// Whether a track lies in a run.
fn is_in(track: u32, run: Run) -> bool
    ensures { result ≡ is_in track run }
{
    let start = u32::from(run.start);
    start <= track && track < start + u32::from(run.len)
}

// Whether a track lies in one of these runs.
fn covers(runs: &[Run], track: u32) -> bool
    ensures { result ≡ covers runs.now track }
{
    runs.iter().any(|run| is_in(track, *run))
}

// Whether a data set owns a track.
fn owns(set: &DataSet, track: u32) -> bool
    ensures { result ≡ covers set.now.extents track }
{
    covers(set.extents.as_slice(), track)
}

// Whether one of these data sets owns a track.
fn any_owns(sets: &[DataSet], track: u32) -> bool
    ensures { result ≡ list_any (λ (x : DataSet). covers x.extents track) sets.now }
{
    sets.iter().any(|set| owns(set, track))
}

// Whether a track is track 0, or in the VTOC or in an extent.
fn is_owned(volume: &Volume, track: u32) -> bool
    ensures { result ≡ not (is_unowned volume.now track) }
{
    track == 0 || (is_in(track, volume.vtoc) || any_owns(volume.sets.as_slice(), track))
}

// Whether it is none of these.
fn is_unowned(volume: &Volume, track: u32) -> bool
    ensures { result ≡ is_unowned volume.now track }
{
    !is_owned(volume, track)
}

// The number of tracks that may hold data sets.
fn usable_tracks(geometry: Geometry) -> u32
    ensures bound { result < 2 ^ 32 }
    ensures tracks { result ≡ usable_cylinders geometry * (row_of geometry.device).heads }
{
    let device = geometry.device;
    let cylinders = geometry.cylinders.min(device.primary_cylinders());
    u32::from(cylinders) * u32::from(device.heads())
}

// The free space of a volume, counted from its last track down: a free track in front of one that isn't free ends a run.
fn free_space(volume: &Volume) -> FreeSpace
    ensures tracks { result.tracks ≡ length (free_tracks volume.now) }
    ensures runs { result.runs ≡ length (free_runs volume.now) }
{
    let mut space = FreeSpace { tracks: 0, runs: 0 };
    let mut is_next_free = false;
    let mut track = usable_tracks(volume.geometry);
    while track > 0 {
        track -= 1;
        let is_free = is_unowned(volume, track);
        if is_free {
            space.tracks += 1;
            if !is_next_free {
                space.runs += 1;
            }
        }
        is_next_free = is_free;
    }
    space
}

// Whether a data set has a second slot of the VTOC, for its extents past the third.
fn has_second_slot(set: &DataSet) -> bool
    ensures { result ≡ nat_lt 3 (length set.now.extents) }
{
    3 < set.extents.len()
}

// The slots that so many free runs and these data sets need.
fn slots_for(runs: u32, sets: &[DataSet]) -> u32
    requires { slots_for runs sets.now ≤ 65535 }
    ensures { result ≡ slots_for runs sets.now }
{
    let lists = runs.div_ceil(26).max(1);
    let second = sets.iter().filter(|set| has_second_slot(set)).count();
    1 + lists + sets.len() as u32 + second as u32
}

// A lawful volume in short.
#[tactic(auto, unfolding(vol_model::specs::Reading::volume_info, vol_model::specs::Slots::slots_needed))]
pub(crate) fn volume_info(volume: &Volume) -> VolumeInfo
    requires { IsLawfulVolume volume.now }
    ensures { result ≡ volume_info volume.now }
{
    let space = free_space(volume);
    VolumeInfo {
        serial: volume.serial,
        geometry: volume.geometry,
        free_tracks: space.tracks,
        free_runs: space.runs,
        free_slots: volume.slots - slots_for(space.runs, volume.sets.as_slice()),
    }
}
