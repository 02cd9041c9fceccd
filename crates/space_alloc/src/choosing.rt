//! Which of the free tracks are chosen for a request.
ghost use Rattle.std.specs.Prelude.{◌≡◌, ℕ, ◌+◌, ◌*◌, ◌<◌, ◌≤◌, IfOk};
ghost use Rattle.ckd_image.specs.Device.{row_of};
ghost use Rattle.vol_model.specs.Space.{EndBy, AreMaximal};
ghost use Rattle.vol_model.specs.Space.{chosen, size_of};
ghost use Rattle.space_alloc.specs.Units.{units, listed, Answers, Chooses};

use crate::extents::{Extents, NoSpace};
use crate::longest::longest_first;
use crate::units::{extent_of, first_fit};
use ckd_image::Geometry;
use vol_model::{Request, Run, SpaceUnit};

#[tactic(auto, unfolding(vol_model::specs::Space::chosen))]
// The extents for `n` units: the front of the lowest run that has so many, or the longest runs.
fn choose_units(free: &[Run], size: u16, n: u32, contig: bool) -> Result<Extents, NoSpace>
    requires size { 0 < size }
    requires within { EndBy 65535 free.now }
    ensures choice { Answers result n (chosen size contig (units size free.now) n) }
    ensures few { IfOk result (λ e. e.n ≤ 5) }
    ensures within { IfOk result (λ e. EndBy 65535 (listed e)) }
{
    if n == 0 {
        return Ok(Extents::none());
    }
    if let Some(run) = first_fit(free, size, n) {
        return Ok(Extents::none().with(extent_of(size, n as u16, run)));
    }
    if contig {
        return Err(NoSpace { asked: n });
    }
    match longest_first(free, size, n) {
        Some(extents) => Ok(extents),
        None => Err(NoSpace { asked: n }),
    }
}

// The tracks of a unit.
fn size_of(geometry: &Geometry, unit: SpaceUnit) -> u16
    ensures size { result ≡ size_of (row_of geometry.now.device).heads unit }
    ensures some { 0 < result }
{
    match unit {
        SpaceUnit::Track => 1,
        SpaceUnit::Cylinder => geometry.device.heads(),
    }
}

/// The extents for the primary quantity of a request, from the free tracks of a pack.
///
/// `free` has the maximal runs of the free tracks in ascending order, none past track 65,534.
///
/// The extent is the front of the lowest run that has as many tracks as asked. Where no run has
/// them and the request needn't be contiguous, the extents are the longest runs, the lower of equal
/// ones first, at most five, the last one cut to what is left. For cylinders the same is done over
/// the cylinders all of whose tracks are free. A request for 0 gets no extent.
///
/// `NoSpace` comes where this gives fewer tracks or cylinders than asked. The order of choice is
/// this project's profile.
pub fn choose(free: &[Run], geometry: &Geometry, request: &Request) -> Result<Extents, NoSpace>
    requires maximal { AreMaximal free.now }
    requires within { EndBy 65535 free.now }
    ensures choice { Chooses free.now geometry.now request.now result }
    ensures few { IfOk result (λ e. e.n ≤ 5) }
    ensures within { IfOk result (λ e. EndBy 65535 (listed e)) }
{
    choose_units(
        free,
        size_of(geometry, request.unit),
        request.primary,
        request.contig,
    )
}
