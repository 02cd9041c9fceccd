//! The extents of a data set, by the DSCBs of formats 1 and 3 in an index (System Control Blocks, GC28-6628).
ghost use Rattle.std.specs.Prelude.{◌≡◌, ℕ, List, [], ◌++◌, ◌<◌, length, slice_get, IsTrue, Some};
ghost use Rattle.std.specs.Option.{option_copied, option_map_or};
ghost use Rattle.std.specs.List.{find};
ghost use Rattle.ckd_image.specs.Header.{HasGeometry};
ghost use Rattle.hall_core.specs.Facts.{Attached};
ghost use Rattle.pack_spec.specs.Rules.{counted_extents, further_extents, is_led_to};
ghost use Rattle.pack_spec.specs.Slots.{slots_of_vtoc};
ghost use Rattle.pack_spec.specs.Vtoc.{is_extent, run_of_extent};
ghost use Rattle.vol_model.specs.Places.{tracks_in};
ghost use Rattle.vtoc_index.specs.Index.{IsIndexOf, IsOfUnit};
ghost use Rattle.vtoc_sets.specs.Sets.{HasSet, extents_in, leads_to, rows_of};

use ckd_image::Geometry;
use dscb_codec::{Dscb, F1, F3};
use pack_spec::Address;
use pack_spec::layout::{Extent, LOWER_AT, MOST_EXTENTS, OWN_EXTENTS, UPPER_AT};
use vol_model::Run;
use vtoc_index::{Vol, slot_address};

// Whether a slot is the format 3 to which the pointer of a data set leads.
fn leads_to(vol: &Vol, set: &F1, slot: u32, dscb: &Dscb) -> bool
    requires unit { (units : List Attached) × IsOfUnit units vol.now }
    requires slot { slot < length vol.now.slots.items }
    ensures { result ≡ leads_to vol.now set.now slot dscb.now }
{
    slot_address(vol, slot) == set.pointer && matches!(dscb, Dscb::F3(_))
}

// The format 3 that a DSCB is.
fn as_format_3(dscb: &Dscb) -> Option<&F3>
    ensures { rows_of (option_copied result) ≡ further_extents (Ok dscb.now) }
{
    match dscb {
        Dscb::F3(further) => Some(further),
        _ => None,
    }
}

// The format 3 to which the pointer of a data set leads.
fn format_3_of<'a>(vol: &'a Vol, set: &F1) -> Option<&'a F3>
    requires unit { (units : List Attached) × IsOfUnit units vol.now }
    ensures { (image : List ℕ) → IsIndexOf image vol.now → rows_of (option_copied result)
        ≡ option_map_or (λ s. further_extents s.content) (find (is_led_to set.now)
        (slots_of_vtoc image vol.now.geometry vol.now.vtoc)) [] }
{
    for (slot, dscb) in vol.slots.iter().enumerate() {
        if leads_to(vol, set, slot as u32, dscb) {
            return as_format_3(dscb);
        }
    }
    None
}

// The k-th extent of a format 3, from 0.
fn further_at(further: &F3, k: u8) -> Option<Extent>
    ensures { result ≡ slice_get (further.now.front ++ further.now.back) k }
{
    let k = usize::from(k);
    if k < further.front.len() {
        further.front.get(k).copied()
    } else {
        further.back.get(k - further.front.len()).copied()
    }
}

// The k-th extent that a data set counts, from 0, as its DSCBs have it.
fn extent_at(vol: &Vol, set: &F1, k: u8) -> Option<Extent>
    requires unit { (units : List Attached) × IsOfUnit units vol.now }
    ensures { (image : List ℕ) → IsIndexOf image vol.now → result ≡ slice_get
        (counted_extents (slots_of_vtoc image vol.now.geometry vol.now.vtoc) set.now) k }
{
    if set.extents <= k {
        return None;
    }
    if k < OWN_EXTENTS {
        return Some(set.runs[usize::from(k)]);
    }
    further_at(format_3_of(vol, set)?, k - OWN_EXTENTS)
}

// The tracks of an extent, if it is one of the pack.
fn run_of(geometry: Geometry, extent: &Extent) -> Option<Run>
    requires whole { (len : ℕ) × HasGeometry len geometry }
    ensures { IsTrue (is_extent geometry extent.now)
        → result ≡ Some (run_of_extent geometry extent.now) }
{
    let lower = Address::read(extent, LOWER_AT);
    let upper = Address::read(extent, UPPER_AT);
    if !lower.is_inside(geometry) || !upper.is_inside(geometry) {
        return None;
    }
    let start = lower.track(geometry);
    let last = upper.track(geometry).checked_sub(start)?;
    Some(Run {
        start,
        len: last + 1,
    })
}

/// The k-th extent of a data set, from 0, by its format 1; `None` where it has no such extent.
///
/// The format 1 is one of the index. Tracks are counted from 0 over the volume.
pub fn run_at(vol: &Vol, set: &F1, k: u8) -> Option<Run>
    requires unit { (units : List Attached) × IsOfUnit units vol.now }
    ensures { (image : List ℕ) → HasSet image vol.now set.now
        → result ≡ slice_get (extents_in image vol.now set.now) k }
{
    run_of(vol.geometry, &extent_at(vol, set, k)?)
}

/// How much space a data set has.
#[derive(Clone, Copy, Debug)]
pub struct Space {
    /// How many extents it has, at most 16.
    pub extents: u8,
    /// How many tracks these have together.
    pub tracks: u32,
}

/// The extents of a data set and their tracks, counted, by its format 1, which is one of the index.
pub fn space_of(vol: &Vol, set: &F1) -> Space
    requires unit { (units : List Attached) × IsOfUnit units vol.now }
    ensures extents { (image : List ℕ) → HasSet image vol.now set.now
        → result.extents ≡ length (extents_in image vol.now set.now) }
    ensures tracks { (image : List ℕ) → HasSet image vol.now set.now
        → result.tracks ≡ tracks_in (extents_in image vol.now set.now) }
{
    let mut space = Space {
        extents: 0,
        tracks: 0,
    };
    for k in 0..MOST_EXTENTS {
        if let Some(run) = run_at(vol, set, k) {
            space.extents += 1;
            space.tracks += u32::from(run.len);
        }
    }
    space
}
