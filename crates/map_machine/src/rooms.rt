//! The places of blocks that are put, and whether there is room for them.
ghost use Rattle.std.specs.Prelude.{◌≡◌, ◌∷◌, [], ◌++◌, IfOk, drop, length};
ghost use Rattle.map_machine.specs.Plans.{IsCommit, IsPut};
ghost use Rattle.map_machine.specs.Rooms.{room_in, target_in};
ghost use Rattle.vol_model.specs.Shelf.{put_first};
ghost use Rattle.vol_model.specs.Writing.{at_close, begin_refusal, blocks_for, device_on, next_up, place_on, placed_on, room_for, so_far, target_body, tracks_on, writes};

use crate::past::{Target, Writer};
use crate::reads::set_on;
use ckd_image::DiskType;
use ebcdic_names::Dsn;
use plain_steps::{
    Content, Contents, Copies, copy_items, fits_a_track, next_place, placed, put_first, put_last,
    tracks_in, with_blocks, with_copies, write_refusal,
};
use std::alloc::{AllocError, Global};
use vol_model::{Block, Blocks, Body, Mode, Op, Place, Refusal, Shelf};

// The room for a content.
#[derive(Clone, Copy, Debug)]
pub(crate) enum Room {
    // A track that the set owns.
    Owned,
    // A track that is wanted.
    Wanted,
    // None: it fits no track.
    Never,
}

// The device of the volume of this number.
#[tactic(auto, unfolding(vol_model::specs::Writing::device_on))]
fn device_on(shelf: &Shelf, v: u8) -> DiskType
    ensures { result ≡ device_on shelf.now v }
{
    match shelf.volumes.get(usize::from(v)) {
        Some(volume) => volume.geometry.device,
        None => DiskType::D2311,
    }
}

// A copy of the body of a target.
#[tactic(auto, unfolding(vol_model::specs::Writing::body_on))]
pub(crate) fn target_body(alloc: Global, shelf: &Shelf, target: &Target) -> Result<Body, AllocError>
    ensures { IfOk result (λ body. body ≡ target_body shelf.now (target_in target.now)) }
{
    match set_on(shelf, target.v, &target.dsn) {
        Some(set) => set.body.copy(alloc),
        None => Ok(Body::Other),
    }
}

// The number of tracks of a data set.
#[tactic(auto, unfolding(vol_model::specs::Writing::tracks_on))]
fn tracks_on(shelf: &Shelf, v: u8, dsn: &Dsn) -> Result<u32, AllocError>
    ensures { IfOk result (λ tracks. tracks ≡ tracks_on shelf.now v dsn.now.bytes) }
{
    match set_on(shelf, v, dsn) {
        Some(set) => tracks_in(set.extents.as_slice()),
        None => Ok(0),
    }
}

// Contents placed after the body of a target.
pub(crate) fn placed_on(
    alloc: Global,
    shelf: &Shelf,
    target: &Target,
    contents: &[Content],
) -> Result<Blocks, AllocError>
    ensures { IfOk result (λ blocks. blocks ≡ placed_on shelf.now (target_in target.now) contents.now) }
{
    let body = target_body(alloc, shelf, target)?;
    placed(alloc, device_on(shelf, target.v), &body, contents)
}

// The place of the next content after others.
pub(crate) fn place_on(
    alloc: Global,
    shelf: &Shelf,
    target: &Target,
    before: &[Content],
    content: &Content,
) -> Result<Place, AllocError>
    ensures { IfOk result (λ place. place ≡ place_on shelf.now (target_in target.now) before.now content.now) }
{
    let blocks = placed_on(alloc, shelf, target, before)?;
    let body = target_body(alloc, shelf, target)?;
    let body = with_blocks(alloc, &body, blocks)?;
    let device = device_on(shelf, target.v);
    next_place(
        alloc,
        device,
        &body,
        content.0.as_slice(),
        content.1.as_slice(),
    )
}

// The room for a content after others.
#[tactic(auto, unfolding(vol_model::specs::Writing::room_for))]
pub(crate) fn room_for(
    alloc: Global,
    shelf: &Shelf,
    target: &Target,
    before: &[Content],
    content: &Content,
) -> Result<Room, AllocError>
    ensures { IfOk result (λ room. room_in room ≡ room_for shelf.now (target_in target.now) before.now content.now) }
{
    if !fits_a_track(device_on(shelf, target.v), content)? {
        return Ok(Room::Never);
    }
    let place = place_on(alloc, shelf, target, before, content)?;
    if u32::from(place.tt) < tracks_on(shelf, target.v, &target.dsn)? {
        Ok(Room::Owned)
    } else {
        Ok(Room::Wanted)
    }
}

// What stands after the body of a writer's set so far.
pub(crate) fn so_far(
    alloc: Global,
    mode: Mode,
    body: &Body,
    puts: &[Content],
) -> Result<Contents, AllocError>
    ensures { IfOk result (λ before. before ≡ so_far mode body.now puts.now) }
{
    if puts.is_empty() {
        return Ok(Contents::new(alloc));
    }
    with_copies(alloc, put_first(alloc, mode, body)?, puts)
}

// What must find room where a content is put after earlier ones.
pub(crate) fn next_up(
    alloc: Global,
    mode: Mode,
    body: &Body,
    puts: &[Content],
    content: &Content,
) -> Result<Contents, AllocError>
    ensures { IfOk result (λ coming. coming ≡ next_up mode body.now puts.now (content.now ∷ [])) }
{
    let mut coming = if puts.is_empty() {
        put_first(alloc, mode, body)?
    } else {
        Contents::new(alloc)
    };
    coming.push(content.copy(alloc)?)?;
    Ok(coming)
}

// What must find room where a writer with these puts is closed.
pub(crate) fn at_close(
    alloc: Global,
    mode: Mode,
    body: &Body,
    puts: &[Content],
) -> Result<Contents, AllocError>
    ensures { IfOk result (λ last. last ≡ at_close mode body.now puts.now) }
{
    let first = if puts.is_empty() {
        put_first(alloc, mode, body)?
    } else {
        Contents::new(alloc)
    };
    with_copies(alloc, first, put_last(alloc, mode)?.as_slice())
}

// The blocks after the first so many.
fn behind(blocks: &[Block], n: usize) -> &[Block]
    ensures { result.now ≡ drop n blocks.now }
{
    if n <= blocks.len() { &blocks[n..] } else { &[] }
}

// The blocks of these contents where they are written to a target.
pub(crate) fn blocks_for(
    alloc: Global,
    shelf: &Shelf,
    target: &Target,
    contents: &[Content],
) -> Result<Blocks, AllocError>
    ensures { IfOk result (λ blocks. blocks ≡ blocks_for shelf.now (target_in target.now) contents.now) }
{
    let body = target_body(alloc, shelf, target)?;
    let first = put_first(alloc, target.mode, &body)?;
    let n = first.len();
    let all = with_copies(alloc, first, contents)?;
    let blocks = placed_on(alloc, shelf, target, all.as_slice())?;
    copy_items(alloc, behind(blocks.as_slice(), n))
}

// The place of a content after all that was put.
pub(crate) fn put_place(
    alloc: Global,
    shelf: &Shelf,
    target: &Target,
    puts: &[Content],
    content: &Content,
) -> Result<Place, AllocError>
    ensures { IfOk result (λ place. place ≡ place_on shelf.now (target_in target.now) (put_first target.now.mode (target_body shelf.now (target_in target.now)) ++ puts.now) content.now) }
{
    let body = target_body(alloc, shelf, target)?;
    let before = with_copies(alloc, put_first(alloc, target.mode, &body)?, puts)?;
    place_on(alloc, shelf, target, before.as_slice(), content)
}

// Why a target can't be written to.
#[tactic(auto, unfolding(vol_model::specs::Writing::begin_refusal))]
pub(crate) fn begin_refusal(shelf: &Shelf, target: &Target) -> Option<Refusal>
    ensures { result ≡ begin_refusal shelf.now (target_in target.now) }
{
    match shelf.volumes.get(usize::from(target.v)) {
        Some(volume) => write_refusal(target.mode, &target.dsn, volume),
        None => Some(Refusal::NoVolume),
    }
}

// What a put needs: the place of its block, what stands in front, what must find room, and all puts with it.
#[derive(Debug, Drop)]
pub(crate) struct Put {
    pub(crate) place: Place,
    pub(crate) before: Contents,
    pub(crate) coming: Contents,
    pub(crate) puts: Contents,
}

// What a put of this key and data needs.
pub(crate) fn put_of(
    alloc: Global,
    shelf: &Shelf,
    writer: &Writer,
    key: &[u8],
    payload: &[u8],
) -> Result<Put, AllocError>
    ensures { IfOk result (IsPut shelf.now writer.now (key.now, payload.now)) }
{
    let target = writer.target;
    let puts = writer.puts.as_slice();
    let content = (copy_items(alloc, key)?, copy_items(alloc, payload)?);
    let body = target_body(alloc, shelf, &target)?;
    let mut after = copy_items(alloc, puts)?;
    let place = put_place(alloc, shelf, &target, puts, &content)?;
    let before = so_far(alloc, target.mode, &body, puts)?;
    let coming = next_up(alloc, target.mode, &body, puts, &content)?;
    after.push(content)?;
    Ok(Put {
        place,
        before,
        coming,
        puts: after,
    })
}

// What a commit needs: what stands in front, what must find room, and the operation.
#[derive(Debug, Drop)]
pub(crate) struct Commit {
    pub(crate) before: Contents,
    pub(crate) coming: Contents,
    pub(crate) op: Op,
}

// The operation that puts blocks into a set.
pub(crate) fn writes(target: &Target, blocks: Blocks) -> Op
    ensures { result ≡ writes (target_in target.now) blocks }
{
    match target.mode {
        Mode::Fill => Op::Fill {
            v: target.v,
            dsn: target.dsn,
            blocks,
        },
        Mode::Area => Op::Area {
            v: target.v,
            dsn: target.dsn,
            blocks,
        },
    }
}

// What a commit of this writer needs.
pub(crate) fn commit_of(alloc: Global, shelf: &Shelf, writer: &Writer) -> Result<Commit, AllocError>
    ensures { IfOk result (IsCommit shelf.now writer.now) }
{
    let target = writer.target;
    let puts = writer.puts.as_slice();
    let body = target_body(alloc, shelf, &target)?;
    let before = so_far(alloc, target.mode, &body, puts)?;
    let coming = at_close(alloc, target.mode, &body, puts)?;
    let blocks = blocks_for(alloc, shelf, &target, puts)?;
    Ok(Commit {
        before,
        coming,
        op: writes(&target, blocks),
    })
}

// The room for a content after others, and these with it.
pub(crate) fn room_and_next(
    alloc: Global,
    shelf: &Shelf,
    target: &Target,
    mut before: Contents,
    content: &Content,
) -> Result<(Room, Contents), AllocError>
    ensures { IfOk result (λ next. (room_in next.0 ≡ room_for shelf.now (target_in target.now) before content.now) × (next.1 ≡ before ++ content.now ∷ [])) }
{
    let room = room_for(alloc, shelf, target, before.as_slice(), content)?;
    before.push(content.copy(alloc)?)?;
    Ok((room, before))
}
