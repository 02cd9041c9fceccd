//! The TTRs in the user data of a directory entry, where its member is copied.
ghost use Rattle.std.specs.Prelude.{◌≡◌, position};
ghost use Rattle.vol_model.specs.Moving.{GivesTtr, Moves, copied_place, is_place, moved, ttr_count};

use crate::answers::BadTtr;
use crate::contents::Place;

/// Moves the TTRs in the user data of an entry from the places of a member's blocks to those of their copies.
///
/// The C byte of the entry says how many there are. They stand first, in four bytes each: TT, R and a zero. One that
/// names the k-th of the old places becomes the k-th of the new ones, and one of zeros stays. Where another stands
/// there, a fourth byte isn't zero, or the data end before the last TTR does, it is `BadTtr`, and nothing is changed.
#[tactic(auto, unfolding(crate::specs::Moving::moved))]
pub fn move_ttrs(user: &mut [u8], flags: u8, from: &[Place], to: &[Place]) -> Result<(), BadTtr>
    ensures { Moves result (moved from.now to.now (ttr_count flags) user.old) user.old user.new }
{
    move_first(user, flags / 32 % 4, from, to)
}

// Moves so many TTRs at the front of user data; the later ones first, since nothing is changed where one of them can't be.
#[tactic(auto, unfolding(crate::specs::Moving::moved))]
fn move_first(user: &mut [u8], count: u8, from: &[Place], to: &[Place]) -> Result<(), BadTtr>
    ensures { Moves result (moved from.now to.now count user.old) user.old user.new }
{
    if count == 0 {
        return Ok(());
    }
    let Some((first, rest)) = user.split_first_chunk_mut::<4>() else {
        return Err(BadTtr);
    };
    let moved = moved_ttr(*first, from, to)?;
    move_first(rest, count - 1, from, to)?;
    *first = moved;
    Ok(())
}

// What stands for a TTR afterwards.
#[tactic(auto, unfolding(crate::specs::Moving::moved))]
fn moved_ttr(ttr: [u8; 4], from: &[Place], to: &[Place]) -> Result<[u8; 4], BadTtr>
    ensures { GivesTtr result ttr from.now to.now }
{
    let [high, low, record, fourth] = ttr;
    if fourth != 0 {
        return Err(BadTtr);
    }
    let place = Place {
        tt: u16::from(high) * 256 + u16::from(low),
        r: record,
    };
    if place.tt == 0 && place.r == 0 {
        return Ok(ttr);
    }
    let copy = copy_of(place, from, to).ok_or(BadTtr)?;
    Ok([(copy.tt / 256) as u8, (copy.tt % 256) as u8, copy.r, 0])
}

// The place of the copy of the block at a place.
fn copy_of(place: Place, from: &[Place], to: &[Place]) -> Option<Place>
    ensures { result ≡ copied_place from.now to.now place }
{
    let k = index_of(place, from)?;
    to.get(k).copied()
}

// Where a place stands first among others.
fn index_of(place: Place, places: &[Place]) -> Option<usize>
    ensures { result ≡ position (is_place place) places.now }
{
    places.iter().position(|other| is_place(place, other))
}

// Whether two places are one.
fn is_place(place: Place, other: &Place) -> bool
    ensures { result ≡ is_place place other.now }
{
    other.tt == place.tt && other.r == place.r
}
