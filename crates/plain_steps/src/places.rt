//! Where blocks stand in a data set. A place that has no number for its track or its record isn't given; no lawful
//! volume comes to one.
ghost use Rattle.std.specs.Prelude.{◌≡◌, ◌++◌, IfOk, length, replicate};
ghost use Rattle.vol_model.specs.declared.contents.Body.TheVariants.{Seq};
ghost use Rattle.vol_model.specs.Places.{directory_end, directory_lengths, directory_place, front_lengths, last_place, lengths_on, next_place, place_behind};

use ckd_image::{DiskType, fits};
use std::alloc::{AllocError, Global};
use vol_model::{Block, Body, Place};

// A directory block's key and data.
const DIRECTORY_LENGTHS: (u8, u16) = (8, 256);

// The lengths of a block's key and data, if a record may have them.
pub(crate) fn lengths_of(key: &[u8], payload: &[u8]) -> Result<(u8, u16), AllocError>
    ensures { IfOk result (λ lengths. lengths ≡ (length key.now, length payload.now)) }
{
    let kl = u8::try_from(key.len()).map_err(|_| AllocError)?;
    let dl = u16::try_from(payload.len()).map_err(|_| AllocError)?;
    Ok((kl, dl))
}

// The place after the last record, where that track's records have these lengths.
fn place_behind(
    device: DiskType,
    last: Place,
    earlier: &[(u8, u16)],
    new: (u8, u16),
) -> Result<Place, AllocError>
    ensures { IfOk result (λ place. place ≡ place_behind device last earlier.now new) }
{
    if fits(device, earlier, new.0, new.1) {
        let r = last.r.checked_add(1).ok_or(AllocError)?;
        Ok(Place { tt: last.tt, r })
    } else {
        let tt = last.tt.checked_add(1).ok_or(AllocError)?;
        Ok(Place { tt, r: 1 })
    }
}

// The lengths of so many directory blocks.
fn directory_blocks(alloc: Global, n: u8) -> Result<Vec<(u8, u16)>, AllocError>
    ensures { IfOk result (λ lengths. lengths.items ≡ replicate n directory_lengths) }
{
    let mut lengths = Vec::new(alloc);
    lengths.resize(usize::from(n), DIRECTORY_LENGTHS)?;
    Ok(lengths)
}

// The place of the n-th block of a new directory, from 0.
fn directory_place(alloc: Global, device: DiskType, n: u32) -> Result<Place, AllocError>
    ensures { IfOk result (λ place. place ≡ directory_place device n) }
{
    let mut place = Place { tt: 0, r: 1 };
    for _ in 0..n {
        let earlier = directory_blocks(alloc, place.r)?;
        place = place_behind(device, place, earlier.as_slice(), DIRECTORY_LENGTHS)?;
    }
    Ok(place)
}

/// The place of the end-of-file record after a new directory of so many blocks.
#[tactic(auto, unfolding(vol_model::specs::Places::directory_end))]
pub fn directory_end(alloc: Global, device: DiskType, n: u32) -> Result<Place, AllocError>
    ensures { IfOk result (λ place. place ≡ directory_end device n) }
{
    let last = directory_place(alloc, device, n.saturating_sub(1))?;
    let earlier = directory_blocks(alloc, last.r)?;
    place_behind(device, last, earlier.as_slice(), (0, 0))
}

// The last block's place, or this one.
fn last_place(first: Place, blocks: &[Block]) -> Place
    ensures { result ≡ last_place first blocks.now }
{
    let mut place = first;
    for block in blocks {
        place = block.place;
    }
    place
}

// Lengths, with those of the blocks on a track after them.
fn with_lengths_on(
    mut before: Vec<(u8, u16)>,
    tt: u16,
    blocks: &[Block],
) -> Result<Vec<(u8, u16)>, AllocError>
    ensures { IfOk result (λ lengths. lengths.items ≡ before.items ++ lengths_on tt blocks.now) }
{
    for block in blocks {
        if block.place.tt == tt {
            before.push(lengths_of(block.key.as_slice(), block.payload.as_slice())?)?;
        }
    }
    Ok(before)
}

// What stands before the first block on a track of a partitioned set.
fn front_lengths(alloc: Global, end: Place, tt: u16) -> Result<Vec<(u8, u16)>, AllocError>
    ensures { IfOk result (λ lengths. lengths.items ≡ front_lengths end tt) }
{
    if end.tt != tt {
        return Ok(Vec::new(alloc));
    }
    let mut lengths = directory_blocks(alloc, end.r.saturating_sub(1))?;
    lengths.push((0, 0))?;
    Ok(lengths)
}

/// The place of the next block of a body, of this key and data.
#[tactic(auto, unfolding(vol_model::specs::Places::next_place))]
pub fn next_place(
    alloc: Global,
    device: DiskType,
    body: &Body,
    key: &[u8],
    payload: &[u8],
) -> Result<Place, AllocError>
    ensures { IfOk result (λ place. place ≡ next_place device body.now (key.now, payload.now)) }
{
    match body {
        Body::Seq(blocks) => place_in_blocks(alloc, device, blocks.as_slice(), key, payload),
        Body::Part { end, blocks, .. } => {
            let blocks = blocks.as_slice();
            let last = last_place(*end, blocks);
            let front = front_lengths(alloc, *end, last.tt)?;
            let earlier = with_lengths_on(front, last.tt, blocks)?;
            place_behind(device, last, earlier.as_slice(), lengths_of(key, payload)?)
        }
        _ => Ok(Place { tt: 0, r: 1 }),
    }
}

// The place of the next block of a sequential set.
#[tactic(auto, unfolding(vol_model::specs::Places::next_place))]
fn place_in_blocks(
    alloc: Global,
    device: DiskType,
    blocks: &[Block],
    key: &[u8],
    payload: &[u8],
) -> Result<Place, AllocError>
    ensures { IfOk result (λ place. place ≡ next_place device (Seq blocks.now) (key.now, payload.now)) }
{
    let Some((first, rest)) = blocks.split_first() else {
        return Ok(Place { tt: 0, r: 1 });
    };
    let last = last_place(first.place, rest);
    let earlier = with_lengths_on(Vec::new(alloc), last.tt, blocks)?;
    place_behind(device, last, earlier.as_slice(), lengths_of(key, payload)?)
}
