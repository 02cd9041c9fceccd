//! The tracks of a new pack, in memory.
ghost use Rattle.std.specs.Prelude.{◌≡◌, ◌*◌, vec_len, IfOk};
ghost use Rattle.pack_spec.specs.New.{IsNewPack, slots_of_track};
ghost use Rattle.pack_init.specs.Layout.{empty_bytes, vtoc_track, vtoc_tracks};

use crate::layout::address_of;
use ckd_image::Geometry;
use pack_spec::layout::Slot;
use pack_spec::slots_track;
use std::alloc::{AllocError, Global};

/// The bytes of home address, R0 and end marker.
pub const EMPTY_LEN: usize = 29;

/// The tracks of the VTOC, whose first two slots are these.
///
/// The one error is want of memory.
pub fn vtoc_tracks(
    alloc: Global,
    geometry: &Geometry,
    vtoc: u16,
    slot_0: &Slot,
    slot_1: &Slot,
) -> Result<Vec<u8>, AllocError>
    requires { IsNewPack geometry.now vtoc }
    ensures bytes { IfOk result (λ tracks. tracks.items
        ≡ vtoc_tracks geometry.now slot_0.now slot_1.now vtoc) }
    ensures len { IfOk result (λ tracks. vec_len tracks ≡ vtoc * geometry.now.track_size) }
{
    let mut tracks = Vec::new(alloc);
    for track in 1..vtoc + 1 {
        let bytes = vtoc_track(alloc, geometry, vtoc, slot_0, slot_1, track)?;
        tracks.extend_from_slice(&bytes)?;
    }
    Ok(tracks)
}

// One of them, counted from 0 over the pack.
#[tactic(auto, unfolding(crate::specs::Layout::vtoc_track))]
fn vtoc_track(
    alloc: Global,
    geometry: &Geometry,
    vtoc: u16,
    slot_0: &Slot,
    slot_1: &Slot,
    track: u16,
) -> Result<Vec<u8>, AllocError>
    requires { IsNewPack geometry.now vtoc }
    ensures bytes { IfOk result (λ bytes. bytes.items
        ≡ vtoc_track geometry.now slot_0.now slot_1.now track) }
    ensures len { IfOk result (λ bytes. vec_len bytes ≡ geometry.now.track_size) }
{
    let slots = slots_of_track(alloc, geometry, slot_0, slot_1, track)?;
    let at = address_of(geometry, track);
    slots_track(alloc, at, &slots, geometry.track_size as usize)
}

// The slots on it: the first track has these two in front, and all others are free.
fn slots_of_track(
    alloc: Global,
    geometry: &Geometry,
    slot_0: &Slot,
    slot_1: &Slot,
    track: u16,
) -> Result<Vec<Slot>, AllocError>
    ensures { IfOk result (λ slots. slots.items
        ≡ slots_of_track geometry.now slot_0.now slot_1.now track) }
{
    let mut slots = Vec::new(alloc);
    if track == 1 {
        slots.push(*slot_0)?;
        slots.push(*slot_1)?;
    }
    slots.resize(usize::from(geometry.device.dscbs_per_track()), [0; 140])?;
    Ok(slots)
}

/// What stands at the begin of a track without records, after which a new file has zeros.
pub fn empty_track(geometry: &Geometry, track: u16) -> [u8; EMPTY_LEN]
    ensures { result ≡ empty_bytes geometry.now track }
{
    let at = address_of(geometry, track);
    let [cc_high, cc_low] = at.cylinder.to_be_bytes();
    let [hh_high, hh_low] = at.head.to_be_bytes();
    [
        0, cc_high, cc_low, hh_high, hh_low, cc_high, cc_low, hh_high, hh_low, 0, 0, 0, 8, 0, 0, 0,
        0, 0, 0, 0, 0, 0xFF, 0xFF, 0xFF, 0xFF, 0xFF, 0xFF, 0xFF, 0xFF,
    ]
}
