//! An operation on a volume.
ghost use Rattle.std.specs.Prelude.{◌≡◌, IfOk, map};
ghost use Rattle.vol_model.specs.declared.catalogs.CatNode.TheVariants.{Group, Index};
ghost use Rattle.vol_model.specs.declared.answers.Mode.TheVariants.{Area, Fill};
ghost use Rattle.vol_model.specs.Places.{content};
ghost use Rattle.vol_model.specs.Shelf.{built, on_catalog, step_on, write_on};

use crate::allocating::{allocate_on, extend_on};
use crate::catalogs::{CatalogedSet, DroppedNode, NewAlias, NewIndex, UncatalogedSet, on_catalog};
use crate::copies::Copies;
use crate::directories::{drop_on, enter_on};
use crate::emptying::empty_on;
use crate::sets::{rename_on, scratch_on};
use crate::writing::{Contents, write_on};
use ebcdic_names::Dsn;
use std::alloc::{AllocError, Global};
use vol_model::{Block, CatNode, CatPath, Mode, Op, Refusal, Volume};

// What blocks hold.
fn contents_of(alloc: Global, blocks: &[Block]) -> Result<Contents, AllocError>
    ensures { IfOk result (λ contents. contents ≡ map content blocks.now) }
{
    let mut contents = Contents::new(alloc);
    for block in blocks {
        contents.push((block.key.copy(alloc)?, block.payload.copy(alloc)?))?;
    }
    Ok(contents)
}

// The volume with the contents of blocks written after those of a data set, or why that is refused.
fn write_blocks_on(
    alloc: Global,
    mode: Mode,
    dsn: &Dsn,
    blocks: &[Block],
    volume: &Volume,
) -> Result<Result<Volume, Refusal>, AllocError>
    ensures { IfOk result (λ after. after ≡ write_on mode dsn.now (map content blocks.now) volume.now) }
{
    let contents = contents_of(alloc, blocks)?;
    write_on(alloc, mode, dsn, contents.as_slice(), volume)
}

// The volume with a new index in its catalog, or why that is refused.
fn build_index_on(
    alloc: Global,
    path: &CatPath,
    volume: &Volume,
) -> Result<Result<Volume, Refusal>, AllocError>
    ensures { IfOk result (λ after. after ≡ on_catalog (built path.now Index) volume.now) }
{
    let node = CatNode::Index;
    on_catalog(alloc, &NewIndex { path, node: &node }, volume)
}

// The volume with a new group in its catalog, or why that is refused.
fn build_group_on(
    alloc: Global,
    path: &CatPath,
    limit: u8,
    empty: bool,
    delete: bool,
    volume: &Volume,
) -> Result<Result<Volume, Refusal>, AllocError>
    ensures { IfOk result (λ after. after ≡ on_catalog (built path.now (Group limit empty delete)) volume.now) }
{
    let node = CatNode::Group {
        limit,
        empty,
        delete,
    };
    on_catalog(alloc, &NewIndex { path, node: &node }, volume)
}

/// The volume after an operation on it, or the first reason for which that is refused.
#[tactic(auto, unfolding(vol_model::specs::Shelf::step_on))]
pub fn step_on(
    alloc: Global,
    op: &Op,
    volume: &Volume,
) -> Result<Result<Volume, Refusal>, AllocError>
    ensures { IfOk result (λ after. after ≡ step_on op.now volume.now) }
{
    match op {
        Op::Allocate {
            dsn,
            attr,
            request,
            dir,
            ..
        } => allocate_on(alloc, dsn, attr, request, *dir, volume),
        Op::Extend { dsn, .. } => extend_on(alloc, dsn, volume),
        Op::Scratch { dsn, .. } => scratch_on(alloc, dsn, volume),
        Op::Rename { old, new, .. } => rename_on(alloc, old, new, volume),
        Op::Empty { dsn, attr, .. } => empty_on(alloc, dsn, attr, volume),
        Op::Fill { dsn, blocks, .. } => {
            write_blocks_on(alloc, Mode::Fill, dsn, blocks.as_slice(), volume)
        }
        Op::Area { dsn, blocks, .. } => {
            write_blocks_on(alloc, Mode::Area, dsn, blocks.as_slice(), volume)
        }
        Op::Enter {
            dsn,
            entry,
            replace,
            ..
        } => enter_on(alloc, dsn, entry, *replace, volume),
        Op::Drop { dsn, name, .. } => drop_on(alloc, dsn, name, volume),
        Op::BuildIndex { path, .. } => build_index_on(alloc, path, volume),
        Op::BuildGroup {
            path,
            limit,
            empty,
            delete,
            ..
        } => build_group_on(alloc, path, *limit, *empty, *delete, volume),
        Op::DropNode { path, .. } => on_catalog(alloc, &DroppedNode { path }, volume),
        Op::Catalog {
            path,
            vols,
            replace,
            ..
        } => on_catalog(
            alloc,
            &CatalogedSet {
                path,
                vols,
                replace: *replace,
            },
            volume,
        ),
        Op::Uncatalog { path, .. } => on_catalog(alloc, &UncatalogedSet { path }, volume),
        Op::Alias { name, of, .. } => on_catalog(
            alloc,
            &NewAlias {
                name: *name,
                of: *of,
            },
            volume,
        ),
    }
}
