//! The space of a volume in short.
ghost use Rattle.std.specs.Prelude.{◌≡◌, ℕ, List};
ghost use Rattle.hall_core.specs.Facts.{Attached};
ghost use Rattle.vol_model.specs.Reading.{volume_info};
ghost use Rattle.vtoc_index.specs.Index.{IsMounted, IsOfUnit};
ghost use Rattle.vtoc_sets.specs.Sets.{volume_in};

use vol_model::VolumeInfo;
use vtoc_index::Vol;
use vtoc_sets::{slots_needed, tracks_in};

/// A volume in short.
#[tactic(auto, unfolding(vol_model::specs::Reading::volume_info))]
pub fn volume_info(vol: &Vol) -> VolumeInfo
    requires unit { (units : List Attached) × IsOfUnit units vol.now }
    ensures { (image : List ℕ) → IsMounted image vol.now
        → result ≡ volume_info (volume_in image vol.now) }
{
    VolumeInfo {
        serial: vol.serial,
        geometry: vol.geometry,
        free_tracks: tracks_in(&vol.free),
        free_runs: vol.free.len() as u32,
        free_slots: (vol.slots.len() as u32).saturating_sub(slots_needed(vol)),
    }
}
