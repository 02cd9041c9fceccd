//! The tracks of a data set, in relative order.
ghost use Rattle.std.specs.Prelude.{◌≡◌, ◌<◌, ℕ, List, slice_get, IfSome, Some, ◌+◌};
ghost use Rattle.ckd_image.specs.Header.{HasGeometry};
ghost use Rattle.hall_core.specs.Facts.{Attached};
ghost use Rattle.pack_spec.specs.Label.{tracks_of};
ghost use Rattle.vtoc_index.specs.Index.{IsOfUnit};
ghost use Rattle.vtoc_sets.specs.Sets.{HasSet, owned_in};

use crate::extents::run_at;
use ckd_image::Geometry;
use dscb_codec::F1;
use pack_spec::layout::MOST_EXTENTS;
use vol_model::Run;
use vtoc_index::Vol;

/// The track of the volume that is the k-th of a data set, from 0, by its format 1; `None` where it has no such track.
pub fn track_at(vol: &Vol, set: &F1, k: u16) -> Option<u16>
    requires unit { (units : List Attached) × IsOfUnit units vol.now }
    ensures track { (image : List ℕ) → HasSet image vol.now set.now
        → result ≡ slice_get (owned_in image vol.now set.now) k }
    ensures inside { IfSome result (λ track. track < tracks_of vol.now.geometry) }
{
    let mut left = k;
    for index in 0..MOST_EXTENTS {
        let run = run_at(vol, set, index)?;
        if left < run.len {
            return track_in(vol.geometry, run, left);
        }
        left -= run.len;
    }
    None
}

// The k-th track of a run, from 0, where the pack has it.
fn track_in(geometry: Geometry, run: Run, k: u16) -> Option<u16>
    requires whole { (len : ℕ) × HasGeometry len geometry }
    ensures track { run.start + k < tracks_of geometry → result ≡ Some (run.start + k) }
    ensures inside { IfSome result (λ track. track < tracks_of geometry) }
{
    let track = u32::from(run.start) + u32::from(k);
    let tracks = u32::from(geometry.cylinders) * u32::from(geometry.device.heads());
    if track < tracks {
        Some(track as u16)
    } else {
        None
    }
}
