//! Runs of tracks in units of one track or of a cylinder.
ghost use Rattle.std.specs.Prelude.{◌≡◌, ℕ, ◌+◌, ◌*◌, ◌<◌, ◌≤◌, nat_le, find, IfSome};
ghost use Rattle.vol_model.specs.Space.{EndBy};
ghost use Rattle.vol_model.specs.Space.{extent_of};
ghost use Rattle.space_alloc.specs.Units.{first_from, units_in, units};

use vol_model::Run;

// The first unit that doesn't begin below a track.
fn first_from(size: u16, track: u16) -> u16
    requires size { 0 < size }
    requires within { track ≤ 65535 }
    ensures { result ≡ first_from size track }
{
    if track % size == 0 {
        track / size
    } else {
        track / size + 1
    }
}

// The units that lie wholly in a run of tracks; of none the length is 0.
pub fn units_in(size: u16, run: Run) -> Run
    requires size { 0 < size }
    requires within { run.start + run.len ≤ 65535 }
    ensures units { result ≡ units_in size run }
    ensures inside { 0 < result.len
        → (result.start + result.len) * size ≤ run.start + run.len }
{
    let first = first_from(size, run.start);
    let last = (run.start + run.len) / size;
    Run {
        start: first,
        len: last.saturating_sub(first),
    }
}

// The tracks of the first `n` units of a run of units.
pub fn extent_of(size: u16, n: u16, run: Run) -> Run
    requires few { n ≤ run.len }
    requires within { (run.start + run.len) * size ≤ 65535 }
    ensures tracks { result ≡ extent_of size n run }
    ensures within { result.start + result.len ≤ 65535 }
{
    Run {
        start: run.start * size,
        len: n * size,
    }
}

// The lowest run of units that has so many.
pub fn first_fit(free: &[Run], size: u16, n: u32) -> Option<Run>
    requires size { 0 < size }
    requires asked { 0 < n }
    requires within { EndBy 65535 free.now }
    ensures found { result ≡ find (λ (r : Run). nat_le n r.len) (units size free.now) }
    ensures within { IfSome result (λ r. (n ≤ r.len) × ((r.start + r.len) * size ≤ 65535)) }
{
    for run in free {
        let units = units_in(size, *run);
        if n <= u32::from(units.len) {
            return Some(units);
        }
    }
    None
}
