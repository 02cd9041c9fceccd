//! Where the last block of a data set stands.
ghost use Rattle.std.specs.Prelude.{◌≡◌, ◌==◌, ◌&&◌};
ghost use Rattle.std.specs.Option.{option_map_or};
ghost use Rattle.pack_spec.specs.Blocks.{has_no_block, last_of, upto_last};
ghost use Rattle.pack_spec.specs.Directories.{read_to};
ghost use Rattle.vol_model.specs.Places.{is_before};

use dscb_codec::F1;
use vol_model::Place;

// Whether no block stands in a data set.
pub(crate) fn has_no_block(set: &F1) -> bool
    ensures { result ≡ has_no_block set.now.lstar }
{
    set.lstar == [0, 0, 0]
}

/// The place of the last block of a data set, which LSTAR gives as TTR: a relative track, from 0, and a record.
pub fn last_of(set: &F1) -> Place
    ensures { result ≡ last_of set.now.lstar }
{
    let [tt_high, tt_low, r] = set.lstar;
    Place {
        tt: u16::from_be_bytes([tt_high, tt_low]),
        r,
    }
}

// Up to which record a relative track is read: the last block on its track, and else the end marker.
pub(crate) fn upto_last(last: Place, k: u16) -> Option<u8>
    ensures { result ≡ upto_last last k }
{
    if k == last.tt { Some(last.r) } else { None }
}

// Whether the last block is a relative track's record 0, which can't be one.
pub(crate) fn is_record_0(last: Place, k: u16) -> bool
    ensures { result ≡ ((k == last.tt) && (last.r == 0)) }
{
    k == last.tt && last.r == 0
}

/// Whether a place stands before another.
pub fn is_before(p: Place, q: Place) -> bool
    ensures { result ≡ is_before p q }
{
    p.tt < q.tt || (p.tt == q.tt && p.r < q.r)
}

// Up to which place a partitioned data set is read: that of the last block, if it stands after the directory's end, and
// else that end.
pub(crate) fn read_to(set: &F1, end: Place) -> Place
    ensures { result ≡ read_to end set.now.lstar }
{
    let last = last_of(set);
    if is_before(end, last) { last } else { end }
}

// The place of the last record that is read: that of the last block, and of a partitioned set, by its directory's end, at
// least that.
pub(crate) fn last_read(set: &F1, end: Option<Place>) -> Place
    ensures { result ≡ option_map_or (λ p. read_to p set.now.lstar) end (last_of set.now.lstar) }
{
    match end {
        Some(end) => read_to(set, end),
        None => last_of(set),
    }
}
