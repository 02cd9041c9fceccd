//! The extent of the VTOC, and its slots.
ghost use Rattle.std.specs.Prelude.{◌≡◌, ℕ, ◌≤◌, ◌+◌, ◌-◌, ◌++◌, take, length, IsTrue, IfOk, IfErr, IfNone, IfSome, IsErrOf, Some, Ok, Err, slice_get, option_and_then};
ghost use Rattle.ckd_image.specs.Header.{HasGeometry};
ghost use Rattle.pack_spec.specs.Label.{is_inside, track_of_address, tracks_of};
ghost use Rattle.pack_spec.specs.Vtoc.{first_slot, vtoc_by};
ghost use Rattle.vtoc_index.specs.Reading.{IsExtent, slot_of};

use crate::extent::{Extent, is_extent};
use ckd_image::Geometry;
use pack_spec::layout::{DATA_LEN, KEY_LEN, MOST_VTOC_TRACKS, SLOT_LEN, Slot, VTOC_EXTENT_AT};
use pack_spec::{Address, MountErr};
use track_records::TrackBuf;
use vol_model::Run;

// The extent of the VTOC that begins at an address of the label, where the buffer holds the first slot there.
pub(crate) fn extent_held(buf: &TrackBuf, geometry: Geometry, at: Address) -> Result<Run, MountErr>
    requires whole { (len : ℕ) × HasGeometry len geometry }
    requires inside { IsTrue (is_inside geometry at) }
    ensures found { IfOk result (λ vtoc. vtoc_by geometry at (first_slot (take 1 buf.now.records))
        ≡ Ok vtoc) }
    ensures refused { IfErr result (λ e. vtoc_by geometry at (first_slot (take 1 buf.now.records))
        ≡ Err e) }
    ensures extent { IfOk result (IsExtent geometry at) }
    ensures device { IsErrOf result MountErr.Device → ⊥ }
    ensures file { IsErrOf result MountErr.NoFile → ⊥ }
{
    match first_slot(buf) {
        Some(slot) => match vtoc_extent(geometry, at, &slot) {
            Some(vtoc) => Ok(vtoc),
            None => Err(MountErr::BadVtoc),
        },
        None => Err(MountErr::VtocTrack {
            track: at.track(geometry),
        }),
    }
}

// The extent of the VTOC in its first slot, where that is one of 1 to 257 tracks of the image that has its
// first track at the address in the label. Neither its type and its sequence nor the format of the slot is
// judged.
fn vtoc_extent(geometry: Geometry, at: Address, slot: &Slot) -> Option<Run>
    requires { (len : ℕ) × HasGeometry len geometry }
    ensures good { IfSome result (λ vtoc. vtoc_by geometry at (Some slot.now) ≡ Ok vtoc) }
    ensures bad { IfNone result (vtoc_by geometry at (Some slot.now) ≡ Err MountErr.BadVtoc) }
    ensures extent { IfSome result (IsExtent geometry at) }
{
    let mut row = [0; 10];
    row.copy_from_slice(&slot[VTOC_EXTENT_AT..VTOC_EXTENT_AT + 10]);
    if !is_extent(geometry, &row) {
        return None;
    }
    let extent = Extent::read(&row);
    if extent.lower != at {
        return None;
    }
    let start = extent.lower.track(geometry);
    let last = extent.upper.track(geometry);
    if last - start >= MOST_VTOC_TRACKS {
        return None;
    }
    Some(Run {
        start,
        len: last - start + 1,
    })
}

// The slot that is R1 in the buffer, if it is one.
fn first_slot(buf: &TrackBuf) -> Option<Slot>
    ensures { result ≡ first_slot (take 1 buf.now.records) }
{
    if buf.len() == 0 {
        return None;
    }
    slot_held(buf, 1)
}

// The slot that is Rr in the buffer, if it has a slot's lengths.
pub(crate) fn slot_held(buf: &TrackBuf, r: u8) -> Option<Slot>
    requires first { 1 ≤ r }
    requires last { r ≤ length buf.now.records }
    ensures { option_and_then slot_of (slice_get buf.now.records (r - 1)) ≡ result }
{
    let key = buf.key(r);
    let content = buf.data(r);
    if key.len() != KEY_LEN || content.len() != DATA_LEN {
        return None;
    }
    let mut slot = [0; SLOT_LEN];
    join(&mut slot, key, content);
    Some(slot)
}

// Fills the bytes with two parts, one after the other.
fn join(bytes: &mut [u8], front: &[u8], back: &[u8])
    requires { length bytes.old ≡ length front.now + length back.now }
    ensures { bytes.new ≡ front.now ++ back.now }
{
    bytes[..front.len()].copy_from_slice(front);
    bytes[front.len()..].copy_from_slice(back);
}
