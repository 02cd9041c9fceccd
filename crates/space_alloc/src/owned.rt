//! The runs of tracks that a volume owns: a track that two of them have, and the tracks that none has.
ghost use Rattle.std.specs.Prelude.{◌≡◌, ℕ, ◌+◌, ◌≤◌, not, IfOk, OnOk};
ghost use Rattle.std.specs.List.{All};
ghost use Rattle.std.specs.List.Sorted.{IsNonDecreasingBy, IsPermutation};
ghost use Rattle.vol_model.specs.Space.{AreRunsOf, EndBy, covers};
ghost use Rattle.space_alloc.specs.Owned.{IsLowestTwice, first_early};

use crate::edits::{insert, remove_all};
use std::alloc::{AllocError, Global};
use vol_model::Run;

/// The lowest track that two of some runs have, or more, counted from 0 over the volume.
///
/// Each run has a track, and none reaches past track 65,534. The runs are sorted by their starts. The one
/// error is want of memory.
pub fn lowest_twice(runs: &mut Vec<Run>) -> Result<Option<u16>, AllocError>
    requires some { All (λ r. 1 ≤ r.len) runs.old.items }
    requires within { EndBy 65535 runs.old.items }
    ensures lowest { IfOk result (IsLowestTwice runs.old.items) }
    ensures permutation { IsPermutation runs.old.items runs.new.items }
{
    sort_by_start(runs)?;
    Ok(first_early(runs))
}

// Sorts runs by their starts.
fn sort_by_start(runs: &mut Vec<Run>) -> Result<(), AllocError>
    requires within { EndBy 65535 runs.old.items }
    ensures permutation { IsPermutation runs.old.items runs.new.items }
    ensures sorted { OnOk result (IsNonDecreasingBy (λ r. r.start) runs.new.items) }
    ensures within { EndBy 65535 runs.new.items }
{
    runs.sort_by_key(|run| run.start)?;
    Ok(())
}

// The start of the first run that begins before the one in front of it ends.
fn first_early(runs: &[Run]) -> Option<u16>
    requires { EndBy 65535 runs.now }
    ensures { result ≡ first_early 0 runs.now }
{
    let mut end = 0;
    for run in runs {
        if run.start < end {
            return Some(run.start);
        }
        end = run.start + run.len;
    }
    None
}

/// The maximal free runs of a pack: those of its first tracks, so many of these, that no owned run has.
///
/// No owned run reaches past track 65,534. The one error is want of memory.
pub fn free_runs(alloc: Global, tracks: u16, owned: &[Run]) -> Result<Vec<Run>, AllocError>
    requires { EndBy 65535 owned.now }
    ensures { IfOk result (λ free. AreRunsOf (λ t. not (covers owned.now t)) tracks free.items) }
{
    let mut free = Vec::with_capacity(alloc, owned.len() + 2)?;
    let all = Run {
        start: 0,
        len: tracks,
    };
    insert(&mut free, all);
    remove_all(&mut free, owned);
    Ok(free)
}
