//! Tracks removed from a list of free runs, and inserted into it.
ghost use Rattle.std.specs.Prelude.{◌≡◌, ℕ, ◌+◌, ◌-◌, ◌<◌, ◌≤◌, [], ◌∷◌, length};
ghost use Rattle.std.specs.Prelude.{vec_len};
ghost use Rattle.std.specs.List.{insert};
ghost use Rattle.std.specs.Vec.{vec_capacity};
ghost use Rattle.vol_model.specs.Space.{EndBy, AreMaximal};
ghost use Rattle.space_alloc.specs.Edits.{AreWithout, AreWith, cut_all, join};

use vol_model::Run;

/// Removes the tracks of a run from the free runs; those that aren't free already stay so.
///
/// `free` has maximal runs in ascending order and room for one more, and has maximal runs again.
/// Neither a run of it nor `run` reaches past track 65,534.
pub fn remove(free: &mut Vec<Run>, run: Run)
    requires room { vec_len free.old < vec_capacity free.old }
    requires maximal { AreMaximal free.old.items }
    requires within { EndBy 65535 free.old.items }
    requires run_within { run.start + run.len ≤ 65535 }
    ensures runs { AreWithout free.old.items (run ∷ []) free.new.items }
    ensures within { EndBy 65535 free.new.items }
    ensures len { vec_len free.new ≤ vec_len free.old + 1 }
    ensures capacity { vec_capacity free.new ≡ vec_capacity free.old }
{
    if run.len > 0 {
        cut(free, run.start, run.start + run.len);
    }
}

/// Removes the tracks of several runs from the free runs, as `remove` does of one.
///
/// `free` has room for as many more runs.
pub fn remove_all(free: &mut Vec<Run>, runs: &[Run])
    requires room { vec_len free.old + length runs.now < vec_capacity free.old }
    requires maximal { AreMaximal free.old.items }
    requires within { EndBy 65535 free.old.items }
    requires runs_within { EndBy 65535 runs.now }
    ensures runs { AreWithout free.old.items runs.now free.new.items }
    ensures within { EndBy 65535 free.new.items }
    ensures len { vec_len free.new ≤ vec_len free.old + length runs.now }
    ensures capacity { vec_capacity free.new ≡ vec_capacity free.old }
{
    for run in runs {
        remove(free, *run);
    }
}

// Inserts a run at a place of a list that has room for it.
fn put(free: &mut Vec<Run>, at: usize, run: Run)
    requires place { at ≤ vec_len free.old }
    requires room { vec_len free.old < vec_capacity free.old }
    ensures items { free.new.items ≡ insert free.old.items at run }
    ensures len { vec_len free.new ≡ vec_len free.old + 1 }
    ensures capacity { vec_capacity free.new ≡ vec_capacity free.old }
{
    let _ = free.insert(at, run);
}

// Removes the tracks from one up to another.
fn cut(free: &mut Vec<Run>, low: u16, high: u16)
    requires room { vec_len free.old < vec_capacity free.old }
    requires maximal { AreMaximal free.old.items }
    requires within { EndBy 65535 free.old.items }
    requires some { low < high }
    ensures items { free.new.items ≡ cut_all low high free.old.items }
    ensures len { vec_len free.new ≤ vec_len free.old + 1 }
    ensures capacity { vec_capacity free.new ≡ vec_capacity free.old }
{
    let mut at = 0;
    while at < free.len() {
        let here = free[at];
        let end = here.start + here.len;
        if high <= here.start {
            return;
        }
        if end <= low {
            at += 1;
            continue;
        }
        let left = Run {
            start: here.start,
            len: low.saturating_sub(here.start),
        };
        let right = Run {
            start: high,
            len: end.saturating_sub(high),
        };
        if right.len > 0 {
            if left.len > 0 {
                free[at] = left;
                put(free, at + 1, right);
                return;
            }
            free[at] = right;
            return;
        }
        if left.len > 0 {
            free[at] = left;
            at += 1;
            continue;
        }
        free.remove(at);
    }
}

/// Inserts the tracks of a run into the free runs, merged with the runs that it touches or overlaps.
///
/// `free` has maximal runs in ascending order and room for one more, and has maximal runs again.
/// Neither a run of it nor `run` reaches past track 65,534.
pub fn insert(free: &mut Vec<Run>, run: Run)
    requires room { vec_len free.old < vec_capacity free.old }
    requires maximal { AreMaximal free.old.items }
    requires within { EndBy 65535 free.old.items }
    requires run_within { run.start + run.len ≤ 65535 }
    ensures runs { AreWith free.old.items run free.new.items }
    ensures within { EndBy 65535 free.new.items }
    ensures len { vec_len free.new ≤ vec_len free.old + 1 }
    ensures capacity { vec_capacity free.new ≡ vec_capacity free.old }
{
    if run.len > 0 {
        join(free, run.start, run.start + run.len);
    }
}

// Inserts the tracks from one up to another.
fn join(free: &mut Vec<Run>, low: u16, high: u16)
    requires room { vec_len free.old < vec_capacity free.old }
    requires within { EndBy 65535 free.old.items }
    requires some { low < high }
    ensures items { free.new.items ≡ join low high free.old.items }
    ensures len { vec_len free.new ≤ vec_len free.old + 1 }
    ensures capacity { vec_capacity free.new ≡ vec_capacity free.old }
{
    let mut start = low;
    let mut end = high;
    let mut at = 0;
    while at < free.len() {
        let here = free[at];
        if here.start + here.len < start {
            at += 1;
            continue;
        }
        if end < here.start {
            break;
        }
        start = start.min(here.start);
        end = end.max(here.start + here.len);
        free.remove(at);
    }
    let joined = Run {
        start,
        len: end - start,
    };
    put(free, at, joined);
}
