//! The choice of several runs, the longest first.
ghost use Rattle.std.specs.Prelude.{◌≡◌, ℕ, [], ◌+◌, ◌*◌, ◌<◌, ◌≤◌, None, IfSome};
ghost use Rattle.std.specs.Option.{option_map};
ghost use Rattle.vol_model.specs.Space.{EndBy};
ghost use Rattle.vol_model.specs.Space.{is_behind, is_longer, longest_from, left_after, longest_first};
ghost use Rattle.space_alloc.specs.Units.{units, listed, better};

use crate::extents::{Extents, MOST_EXTENTS};
use crate::units::{extent_of, units_in};
use vol_model::Run;

// Whether a run stands after the last one that was taken, in the order of choice.
fn is_behind(last: Option<Run>, run: Run) -> bool
    ensures { result ≡ is_behind last run }
{
    match last {
        None => true,
        Some(last) => run.len < last.len || (run.len == last.len && last.start < run.start),
    }
}

// Whether a run is longer than the longest so far.
fn is_longer(run: Run, best: Option<Run>) -> bool
    ensures { result ≡ is_longer run best }
{
    match best {
        None => true,
        Some(best) => best.len < run.len,
    }
}

// The longest run so far of those after the last one that was taken, with one more run of units.
fn better(last: Option<Run>, best: Option<Run>, units: Run) -> Option<Run>
    ensures { result ≡ better last best units }
{
    if units.len > 0 && is_behind(last, units) && is_longer(units, best) {
        Some(units)
    } else {
        best
    }
}

// The longest run of units after the last one that was taken, and the lowest of these.
fn next_longest(free: &[Run], size: u16, last: Option<Run>) -> Option<Run>
    requires size { 0 < size }
    requires within { EndBy 65535 free.now }
    ensures longest { result ≡ longest_from None (left_after last (units size free.now)) }
    ensures within { IfSome result (λ r. (r.start + r.len) * size ≤ 65535) }
{
    let mut best: Option<Run> = None;
    for run in free {
        let units = units_in(size, *run);
        best = better(last, best, units);
    }
    best
}

// So many units in at most five runs, the longest first.
pub fn longest_first(free: &[Run], size: u16, n: u32) -> Option<Extents>
    requires size { 0 < size }
    requires within { EndBy 65535 free.now }
    ensures longest { option_map listed result
        ≡ longest_first size 5 None (units size free.now) [] n }
    ensures few { IfSome result (λ e. e.n ≤ 5) }
    ensures within { IfSome result (λ e. EndBy 65535 (listed e)) }
{
    let mut extents = Extents::none();
    let mut left = n;
    let mut last = None;
    while extents.n < MOST_EXTENTS {
        let best = next_longest(free, size, last)?;
        if left <= u32::from(best.len) {
            return Some(extents.with(extent_of(size, left as u16, best)));
        }
        extents = extents.with(extent_of(size, best.len, best));
        left -= u32::from(best.len);
        last = Some(best);
    }
    None
}
