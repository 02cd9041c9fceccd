//! The choice of tracks for a request. An extent that has no number for its first track or its tracks isn't given; no
//! volume of a device comes to one.
ghost use Rattle.std.specs.Prelude.{◌≡◌, [], IfOk, None, find, nat_le};
ghost use Rattle.std.specs.Option.{option_copied};
ghost use Rattle.vol_model.specs.declared.contents.Run.{Run};
ghost use Rattle.vol_model.specs.Space.{by_run, choice, chosen, extent_of, is_behind, is_longer, left_after, longest_first, longest_from};

use crate::space::{count_of, free_units, runs_of, size_of, usable_cylinders};
use std::alloc::{AllocError, Global};
use vol_model::{Run, Runs, SpaceUnit, Volume};

// The most extents of a choice.
const MOST: u8 = 5;

// The tracks of the first units of a run of units.
fn extent_of(size: u16, n: u32, run: Run) -> Result<Run, AllocError>
    ensures { IfOk result (λ extent. extent ≡ extent_of size n run) }
{
    let start = run.start.checked_mul(size).ok_or(AllocError)?;
    let units = u16::try_from(n).map_err(|_| AllocError)?;
    let len = units.checked_mul(size).ok_or(AllocError)?;
    Ok(Run { start, len })
}

// Whether a run stands after the last one that was taken.
fn is_behind(last: Option<Run>, run: &Run) -> bool
    ensures { result ≡ is_behind last run.now }
{
    match last {
        None => true,
        Some(taken) => run.len < taken.len || (run.len == taken.len && taken.start < run.start),
    }
}

// Whether a run is longer than the longest so far.
fn is_longer(run: &Run, best: Option<Run>) -> bool
    ensures { result ≡ is_longer run.now best }
{
    match best {
        None => true,
        Some(best) => best.len < run.len,
    }
}

// The longest of the runs that stand after the last one that was taken, the first of them.
fn longest_behind(last: Option<Run>, runs: &[Run]) -> Option<Run>
    ensures { result ≡ longest_from None (left_after last runs.now) }
{
    let mut best = None;
    for run in runs {
        if is_behind(last, run) && is_longer(run, best) {
            best = Some(*run);
        }
    }
    best
}

// So many units in at most so many runs, the longest first, after the extents that were taken so far.
#[tactic(auto, using(crate::proofs::Longest::longest_none, crate::proofs::Longest::longest_end, crate::proofs::Longest::longest_fit, crate::proofs::Longest::longest_next))]
fn longest_first(
    alloc: Global,
    size: u16,
    most: u8,
    last: Option<Run>,
    runs: &[Run],
    mut taken: Runs,
    n: u32,
) -> Result<Option<Runs>, AllocError>
    ensures { IfOk result (λ found. found ≡ longest_first size most last runs.now taken n) }
{
    if most == 0 {
        return Ok(None);
    }
    let Some(run) = longest_behind(last, runs) else {
        return Ok(None);
    };
    let len = u32::from(run.len);
    if n <= len {
        taken.push(extent_of(size, n, run)?)?;
        return Ok(Some(taken));
    }
    taken.push(extent_of(size, len, run)?)?;
    longest_first(alloc, size, most - 1, Some(run), runs, taken, n - len)
}

// Whether a run has so many units.
fn has_units(n: u32, run: &Run) -> bool
    ensures { result ≡ nat_le n run.now.len }
{
    n <= u32::from(run.len)
}

// The lowest of these runs that has so many units.
fn first_fit(n: u32, runs: &[Run]) -> Option<&Run>
    ensures { option_copied result ≡ find (λ (r : Run). nat_le n r.len) runs.now }
{
    runs.iter().find(|run| has_units(n, run))
}

// The front of a run that has so many; else, unless they must lie in one run, at most five runs, the longest first.
fn by_run(
    alloc: Global,
    size: u16,
    contig: bool,
    runs: &[Run],
    n: u32,
    found: Option<Run>,
) -> Result<Option<Runs>, AllocError>
    ensures { IfOk result (λ chosen. chosen ≡ by_run size contig runs.now n found) }
{
    if let Some(run) = found {
        let mut extents = Runs::new(alloc);
        extents.push(extent_of(size, n, run)?)?;
        return Ok(Some(extents));
    }
    if contig {
        return Ok(None);
    }
    longest_first(alloc, size, MOST, None, runs, Runs::new(alloc), n)
}

// So many units of the maximal runs of free ones.
#[tactic(auto, unfolding(vol_model::specs::Space::chosen))]
fn chosen(
    alloc: Global,
    size: u16,
    contig: bool,
    runs: &[Run],
    n: u32,
) -> Result<Option<Runs>, AllocError>
    ensures { IfOk result (λ found. found ≡ chosen size contig runs.now n) }
{
    if n == 0 {
        return Ok(Some(Runs::new(alloc)));
    }
    by_run(alloc, size, contig, runs, n, first_fit(n, runs).copied())
}

/// The choice of a volume's free tracks for a quantity in a unit, if there is one.
#[tactic(auto, unfolding(vol_model::specs::Space::choice, vol_model::specs::Space::choice_from))]
pub fn choice(
    alloc: Global,
    volume: &Volume,
    unit: SpaceUnit,
    contig: bool,
    n: u32,
) -> Result<Option<Runs>, AllocError>
    ensures { IfOk result (λ found. found ≡ choice volume.now unit contig n) }
{
    let heads = volume.geometry.device.heads();
    let size = size_of(heads, unit);
    let count = count_of(usable_cylinders(&volume.geometry), heads, unit);
    let units = free_units(alloc, volume, size, count)?;
    let runs = runs_of(alloc, units.as_slice())?;
    chosen(alloc, size, contig, runs.as_slice(), n)
}
