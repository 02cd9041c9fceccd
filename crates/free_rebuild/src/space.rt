//! The DSCBs that list free space.
ghost use Rattle.std.specs.Prelude.{◌≡◌, ◌+◌, ◌*◌, ◌≤◌, ◌<◌, ◌++◌, Ok, length, map, slice_index_or};
ghost use Rattle.std.specs.List.{range_with_len};
ghost use Rattle.vol_model.specs.declared.contents.Run.{Run};
ghost use Rattle.pack_spec.specs.FreeChain.{dscbs_for, entries_in, entry_of, no_entry, whole_cylinders};
ghost use Rattle.free_rebuild.specs.Chain.{space_of};

use dscb_codec::{Dscb, F5};
use vol_model::Run;

// The entries of a DSCB.
pub(crate) const ENTRIES: usize = 26;

// Those in its key.
const FRONT: usize = 8;

// The first word of a format 5.
const ID: u32 = 0x05050505;

// An entry, in its five bytes.
type Entry = [u8; 5];

// How many DSCBs list so many runs.
pub(crate) fn dscbs_for(runs: usize) -> usize
    requires { runs ≤ 65535 }
    ensures { result ≡ dscbs_for runs }
{
    runs.div_ceil(ENTRIES).max(1)
}

// The cylinders that lie whole in a run.
fn whole_cylinders(heads: u16, run: Run) -> u32
    requires { 1 ≤ heads }
    ensures { result ≡ whole_cylinders heads run }
{
    let heads = u32::from(heads);
    let start = u32::from(run.start);
    let end = (start + u32::from(run.len)) / heads;
    end.saturating_sub((start + heads - 1) / heads)
}

// The entry of a run.
fn entry_of(heads: u16, run: Run) -> Entry
    requires some { 1 ≤ heads }
    requires few { heads ≤ 30 }
    ensures { result ≡ entry_of heads run }
{
    let cylinders = whole_cylinders(heads, run);
    let tracks = u32::from(run.len) - cylinders * u32::from(heads);
    let [s0, s1] = run.start.to_be_bytes();
    let [c0, c1] = (cylinders as u16).to_be_bytes();
    [s0, s1, c0, c1, tracks as u8]
}

// The entry of this number; past the last run there is none.
fn entry_at(free: &[Run], heads: u16, number: usize) -> Entry
    requires some { 1 ≤ heads }
    requires few { heads ≤ 30 }
    ensures { result ≡ slice_index_or (map (entry_of heads) free.now) number no_entry }
{
    match free.get(number) {
        Some(run) => entry_of(heads, *run),
        None => [0; 5],
    }
}

// So many entries from a number on.
fn entries_from<const N: usize>(free: &[Run], heads: u16, first: usize) -> [Entry; N]
    requires some { 1 ≤ heads }
    requires few { heads ≤ 30 }
    requires fits { first + N < 1048576 }
    ensures { result ≡ map (λ j. slice_index_or (map (entry_of heads) free.now) j no_entry)
        (range_with_len first N) }
{
    let mut entries = [[0; 5]; N];
    for i in 0..N {
        entries[i] = entry_at(free, heads, first + i);
    }
    entries
}

// The DSCB of this number in the chain that lists these runs, which leads to an address.
pub(crate) fn space_dscb(free: &[Run], heads: u16, number: usize, pointer: [u8; 5]) -> Dscb
    requires some { 1 ≤ heads }
    requires few { heads ≤ 30 }
    requires fits { number < 2522 }
    ensures { result ≡ space_of (entries_in heads free.now number) pointer }
{
    let first = ENTRIES * number;
    Dscb::F5(F5 {
        id: ID,
        front: entries_from(free, heads, first),
        back: entries_from(free, heads, first + FRONT),
        pointer,
    })
}
