//! Blocks are written after those of a data set.
ghost use Rattle.std.specs.Prelude.{◌≡◌, ◌∷◌, [], ◌++◌, IfOk, OnOk};
ghost use Rattle.vol_model.specs.Places.{end_of_file, fits_a_track, is_end_of_file, is_open_ended, next_block, placed, with_blocks};
ghost use Rattle.vol_model.specs.Shelf.{blocks_of, fits_mode, put_first, put_last, with_written, write_on, write_refusal, written};

use crate::copies::Copies;
use crate::directories::is_partitioned;
use crate::emptying::is_sequential;
use crate::lists::with_copies;
use crate::places::{lengths_of, next_place};
use crate::sets::{Change, set_of, with_set};
use ckd_image::{DiskType, fits};
use ebcdic_names::Dsn;
use std::alloc::{AllocError, Global};
use vol_model::{
    Attr, Block, Blocks, Body, DataSet, Listed, Mode, Refusal, Text, Volume, is_catalog,
};

/// What a block holds: its key, and its data.
pub type Content = (Text, Text);

/// Contents of blocks.
pub type Contents = Listed<Content>;

// A content as the next block of a body.
fn next_block(
    alloc: Global,
    device: DiskType,
    body: &Body,
    content: &Content,
) -> Result<Block, AllocError>
    ensures { IfOk result (λ block. block ≡ next_block device body.now content.now) }
{
    let place = next_place(
        alloc,
        device,
        body,
        content.0.as_slice(),
        content.1.as_slice(),
    )?;
    Ok(Block {
        place,
        key: content.0.copy(alloc)?,
        payload: content.1.copy(alloc)?,
    })
}

// Puts a block after those of a body, if it has blocks.
fn add_block(body: &mut Body, block: Block) -> Result<(), AllocError>
    ensures { OnOk result (body.new ≡ with_blocks body.old (block ∷ [])) }
{
    match body {
        Body::Seq(blocks) => blocks.push(block),
        Body::Part { blocks, .. } => blocks.push(block),
        _ => Ok(()),
    }
}

/// Contents as the blocks after a body, each at its next place.
pub fn placed(
    alloc: Global,
    device: DiskType,
    body: &Body,
    contents: &[Content],
) -> Result<Blocks, AllocError>
    ensures { IfOk result (λ blocks. blocks ≡ placed device body.now contents.now) }
{
    let mut so_far = body.copy(alloc)?;
    let mut blocks = Blocks::new(alloc);
    for content in contents {
        let block = next_block(alloc, device, &so_far, content)?;
        blocks.push(block.copy(alloc)?)?;
        add_block(&mut so_far, block)?;
    }
    Ok(blocks)
}

// The blocks of a body; none of one that isn't sequential or partitioned.
fn blocks_of(body: &Body) -> &[Block]
    ensures { result.now ≡ blocks_of body.now }
{
    match body {
        Body::Seq(blocks) => blocks.as_slice(),
        Body::Part { blocks, .. } => blocks.as_slice(),
        _ => &[],
    }
}

// Whether the block ends a member.
fn is_end_of_file(block: &Block) -> bool
    ensures { result ≡ is_end_of_file block.now }
{
    block.key.len() == 0 && block.payload.len() == 0
}

// Whether there are blocks, and the last of them doesn't end a member.
fn is_open_ended(blocks: &[Block]) -> bool
    ensures { result ≡ is_open_ended blocks.now }
{
    let mut is_open = false;
    for block in blocks {
        is_open = !is_end_of_file(block);
    }
    is_open
}

// Puts an end-of-file block's content after others.
fn add_end(alloc: Global, contents: &mut Contents) -> Result<(), AllocError>
    ensures { OnOk result (contents.new ≡ contents.old ++ end_of_file ∷ []) }
{
    contents.push((Text::new(alloc), Text::new(alloc)))
}

/// What a mode of writing puts first: before an area an end-of-file block, where the last member has none.
pub fn put_first(alloc: Global, mode: Mode, body: &Body) -> Result<Contents, AllocError>
    ensures { IfOk result (λ first. first ≡ put_first mode body.now) }
{
    let mut first = Contents::new(alloc);
    if mode == Mode::Area && is_open_ended(blocks_of(body)) {
        add_end(alloc, &mut first)?;
    }
    Ok(first)
}

/// What it puts last: after an area an end-of-file block.
pub fn put_last(alloc: Global, mode: Mode) -> Result<Contents, AllocError>
    ensures { IfOk result (λ last. last ≡ put_last mode) }
{
    let mut last = Contents::new(alloc);
    if mode == Mode::Area {
        add_end(alloc, &mut last)?;
    }
    Ok(last)
}

/// All that stands after a body when these contents were written.
pub fn written(
    alloc: Global,
    mode: Mode,
    body: &Body,
    contents: &[Content],
) -> Result<Contents, AllocError>
    ensures { IfOk result (λ all. all ≡ written mode body.now contents.now) }
{
    let all = with_copies(alloc, put_first(alloc, mode, body)?, contents)?;
    with_copies(alloc, all, put_last(alloc, mode)?.as_slice())
}

/// Whether the track formula lets a content onto an empty track. One whose lengths have no numbers isn't judged.
pub fn fits_a_track(device: DiskType, content: &Content) -> Result<bool, AllocError>
    ensures { IfOk result (λ fits. fits ≡ fits_a_track device content.now) }
{
    let (key, data) = lengths_of(content.0.as_slice(), content.1.as_slice())?;
    Ok(fits(device, &[], key, data))
}

/// A body with more blocks after its last.
pub fn with_blocks(alloc: Global, body: &Body, blocks: Blocks) -> Result<Body, AllocError>
    ensures { IfOk result (λ after. after ≡ with_blocks body.now blocks) }
{
    match body {
        Body::Seq(old) => Ok(Body::Seq(with_copies(alloc, old.copy(alloc)?, blocks.as_slice())?)),
        Body::Part {
            dir,
            end,
            entries,
            blocks: old,
        } => Ok(Body::Part {
            dir: *dir,
            end: *end,
            entries: entries.copy(alloc)?,
            blocks: with_copies(alloc, old.copy(alloc)?, blocks.as_slice())?,
        }),
        _ => body.copy(alloc),
    }
}

// Contents that are written after the blocks of a data set.
#[derive(Drop)]
struct NewContents<'a> {
    device: DiskType,
    mode: Mode,
    contents: &'a [Content],
}

impl Change for NewContents<'_> {
    ghost use Rattle.vol_model.specs.Shelf.{with_written};

    ghost change = { λ new set. with_written new.device new.mode new.contents.now set };

    fn change(&self, alloc: Global, set: &DataSet) -> Result<DataSet, AllocError> {
        let all = written(alloc, self.mode, &set.body, self.contents)?;
        let blocks = placed(alloc, self.device, &set.body, all.as_slice())?;
        Ok(DataSet {
            name: set.name,
            attr: set.attr,
            extents: set.extents.copy(alloc)?,
            body: with_blocks(alloc, &set.body, blocks)?,
        })
    }
}

// Whether a set is of the kind that a mode of writing needs.
fn fits_mode(mode: Mode, name: &Dsn, attr: &Attr) -> bool
    ensures { result ≡ fits_mode mode name.now.bytes attr.now }
{
    match mode {
        Mode::Fill => is_sequential(name, attr),
        Mode::Area => is_partitioned(name, attr),
    }
}

/// Why a set can't be written to.
#[tactic(auto, unfolding(vol_model::specs::Shelf::write_refusal))]
pub fn write_refusal(mode: Mode, dsn: &Dsn, volume: &Volume) -> Option<Refusal>
    ensures { result ≡ write_refusal mode dsn.now volume.now }
{
    let Some(set) = set_of(volume, dsn) else {
        return Some(Refusal::NoSet);
    };
    if !fits_mode(mode, dsn, &set.attr) {
        return Some(Refusal::WrongKind);
    }
    match &set.body {
        Body::Unreadable(track) => Some(Refusal::Unreadable(*track)),
        _ => None,
    }
}

/// The volume with contents written after the blocks of a data set, or why that is refused.
#[tactic(auto, unfolding(vol_model::specs::Shelf::write_on))]
pub fn write_on(
    alloc: Global,
    mode: Mode,
    dsn: &Dsn,
    contents: &[Content],
    volume: &Volume,
) -> Result<Result<Volume, Refusal>, AllocError>
    ensures { IfOk result (λ after. after ≡ write_on mode dsn.now contents.now volume.now) }
{
    if let Some(refusal) = write_refusal(mode, dsn, volume) {
        return Ok(Err(refusal));
    }
    let device = volume.geometry.device;
    let change = NewContents {
        device,
        mode,
        contents,
    };
    Ok(Ok(with_set(alloc, volume, dsn, &change)?))
}
