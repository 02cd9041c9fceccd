//! The slots that a volume needs, and the tracks of its free runs, counted.
ghost use Rattle.std.specs.Prelude.{◌≡◌, ℕ, List, ◌+◌, ◌/◌, ◌^◌, ◌<◌, ◌≤◌, max};
ghost use Rattle.hall_core.specs.Facts.{Attached};
ghost use Rattle.vol_model.specs.Places.{tracks_in};
ghost use Rattle.vtoc_index.specs.Index.{IsMounted, IsOfUnit};
ghost use Rattle.vol_model.specs.Slots.{slots_needed};
ghost use Rattle.vtoc_sets.specs.Sets.{TakesSlots, slots_taken, volume_in};

use crate::extents::run_at;
use dscb_codec::Dscb;
use pack_spec::layout::OWN_EXTENTS;
use vol_model::Run;
use vtoc_index::Vol;

// The free runs that one format 5 lists.
const RUNS_OF_FORMAT_5: u32 = 26;

/// The number of tracks in runs.
pub fn tracks_in(runs: &[Run]) -> u32
    requires { tracks_in runs.now < 2 ^ 32 }
    ensures { result ≡ tracks_in runs.now }
{
    runs.iter().map(|run| u32::from(run.len)).sum()
}

// The slots that a data set takes, with this DSCB: two where it has more extents than its format 1 holds. Another
// DSCB takes none for itself.
fn slots_of(vol: &Vol, dscb: &Dscb) -> u32
    requires unit { (units : List Attached) × IsOfUnit units vol.now }
    ensures few { result ≤ 2 }
    ensures slots { (image : List ℕ) → TakesSlots image vol.now dscb.now result }
{
    let Dscb::F1(set) = dscb else {
        return 0;
    };
    match run_at(vol, set, OWN_EXTENTS) {
        Some(_) => 2,
        None => 1,
    }
}

/// The slots that all data sets of a volume take: one each, and one more for each that has more than three extents.
pub fn slots_of_sets(vol: &Vol) -> u32
    requires unit { (units : List Attached) × IsOfUnit units vol.now }
    ensures few { result ≤ 131070 }
    ensures slots { (image : List ℕ) → IsMounted image vol.now
        → result ≡ slots_taken (volume_in image vol.now).sets }
{
    let mut slots = 0;
    for dscb in &vol.slots {
        slots += slots_of(vol, dscb);
    }
    slots
}

/// The slots that a volume needs, by the number of its free runs and the slots that its data sets take: one for its
/// format 4, one for each started 26 free runs, but at least one, and those of its data sets.
pub fn slots_for(runs: u32, sets: u32) -> u32
    requires runs { runs ≤ 65535 }
    requires sets { sets ≤ 131072 }
    ensures { result ≡ 1 + max 1 ((runs + 25) / 26) + sets }
{
    1 + 1.max((runs + RUNS_OF_FORMAT_5 - 1) / RUNS_OF_FORMAT_5) + sets
}

/// The slots that a volume needs, by its index.
pub fn slots_needed(vol: &Vol) -> u32
    requires unit { (units : List Attached) × IsOfUnit units vol.now }
    ensures { (image : List ℕ) → IsMounted image vol.now
        → result ≡ slots_needed (volume_in image vol.now) }
{
    slots_for(vol.free.len() as u32, slots_of_sets(vol))
}
