//! The extents that are chosen for a request.
ghost use Rattle.std.specs.Prelude.{◌≡◌, ◌+◌, ◌<◌, ◌≤◌, [], ◌∷◌, ◌++◌};
ghost use Rattle.space_alloc.specs.Units.{listed};

use vol_model::Run;

/// The most extents that are chosen for one request.
pub const MOST_EXTENTS: u8 = 5;

/// The extents for a request, in the order in which they were chosen; they are never merged.
#[derive(Clone, Copy, Debug, PartialEq, Eq)]
pub struct Extents {
    /// The number of extents, 0 to 5.
    pub n: u8,
    /// The extents, in the first places; the other places say nothing.
    pub runs: [Run; 5],
}

/// The free tracks of a pack don't serve a request.
#[derive(Clone, Copy, Debug, PartialEq, Eq)]
pub struct NoSpace {
    /// The quantity that was asked, in the unit of the request: tracks or cylinders.
    pub asked: u32,
}

impl Extents {
    // No extent.
    pub fn none() -> Extents
        ensures count { result.n ≡ 0 }
        ensures list { listed result ≡ [] }
    {
        Extents {
            n: 0,
            runs: [Run { start: 0, len: 0 }; 5],
        }
    }

    // The same extents with one more after them.
    pub fn with(self, run: Run) -> Extents
        requires { self.n < 5 }
        ensures count { result.n ≡ self.n + 1 }
        ensures list { listed result ≡ listed self ++ run ∷ [] }
    {
        let mut runs = self.runs;
        runs[self.n as usize] = run;
        Extents {
            n: self.n + 1,
            runs,
        }
    }
}
