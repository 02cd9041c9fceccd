//! What a shelf tells, read by read.
ghost use Rattle.std.specs.Prelude.{◌≡◌, ◌≤◌, IsErrOf, IsFalse, find, length, not, slice_get};
ghost use Rattle.std.specs.List.{AllByRecursion};
ghost use Rattle.std.specs.Option.{option_copied};
ghost use Rattle.vol_model.specs.Places.{is_before, tracks_in};
ghost use Rattle.std.specs.Str.{bytes_eq};
ghost use Rattle.map_machine.specs.Reads.{Copied, body_in, catalog_in};
ghost use Rattle.vol_model.specs.Lawful.{IsLawfulBlock};
ghost use Rattle.vol_model.specs.Reading.{FirstOf, IsBlank, LeavesBlank, Picks, ReadsInto, blocks_from, directory_size, entries_in, extent_on, kind_of, name_on, nodes_in, readable, set_info};
ghost use Rattle.vol_model.specs.Shelf.{blocks_of, has_name};
ghost use Rattle.vol_model.specs.Trees.{child_at, named_path, node_at, true_path};
ghost use Rattle.vol_model.specs.Writing.{set_on};

use ebcdic_names::{Dsn, Name8};
use plain_steps::{Copies, Node, child_at, named_path, node_at, true_path};
use std::alloc::Global;
use vol_model::{
    Block, BlockBuf, Body, CatBody, CatNode, CatPath, CheckErr, DataSet, Entry, Kind, Place,
    ReadErr, Run, SetInfo, Shelf, Volume,
};

// The data set of this name on the volume of this number.
#[tactic(auto, unfolding(vol_model::specs::Writing::set_on))]
pub(crate) fn set_on<'a>(shelf: &'a Shelf, v: u8, dsn: &Dsn) -> Option<&'a DataSet>
    ensures { option_copied result ≡ set_on shelf.now v dsn.now.bytes }
{
    let volume = shelf.volumes.get(usize::from(v))?;
    set_of(volume.sets.as_slice(), dsn)
}

// The data set of this name.
fn set_of<'a>(sets: &'a [DataSet], dsn: &Dsn) -> Option<&'a DataSet>
    ensures { option_copied result ≡ find (has_name dsn.now.bytes) sets.now }
{
    sets.iter().find(|set| has_name(set, dsn))
}

// Whether a data set has this name.
fn has_name(set: &DataSet, dsn: &Dsn) -> bool
    ensures { result ≡ has_name dsn.now.bytes set.now }
{
    set.name == *dsn
}

// The name of the k-th data set of a volume.
#[tactic(auto, unfolding(vol_model::specs::Reading::name_on))]
pub(crate) fn name_on(shelf: &Shelf, v: u8, k: u32) -> Option<Dsn>
    ensures { result ≡ name_on shelf.now v k }
{
    let volume = shelf.volumes.get(usize::from(v))?;
    let set = volume.sets.get(k as usize)?;
    Some(set.name)
}

// The k-th extent of a data set.
#[tactic(auto, unfolding(vol_model::specs::Reading::extent_on))]
pub(crate) fn extent_on(shelf: &Shelf, v: u8, dsn: &Dsn, k: u8) -> Option<Run>
    ensures { result ≡ extent_on shelf.now v dsn.now.bytes k }
{
    let set = set_on(shelf, v, dsn)?;
    set.extents.get(usize::from(k)).copied()
}

// The kind of a body.
pub(crate) fn kind_of(body: &Body) -> Kind
    ensures { result ≡ kind_of body.now }
{
    match body {
        Body::Seq(_) => Kind::Seq,
        Body::Part { .. } => Kind::Part,
        Body::Catalog => Kind::Catalog,
        Body::Other => Kind::Other,
        Body::Unreadable(track) => Kind::Unreadable(*track),
    }
}

// The number of blocks of a directory; 0 where there is none.
pub(crate) fn directory_size(body: &Body) -> u32
    ensures { result ≡ directory_size body.now }
{
    match body {
        Body::Part { dir, .. } => *dir,
        _ => 0,
    }
}

// The number of tracks of at most 16 extents.
pub(crate) fn tracks_in(runs: &[Run]) -> u32
    requires { length runs.now ≤ 16 }
    ensures { result ≡ tracks_in runs.now }
{
    let mut tracks = 0;
    for run in runs {
        tracks += u32::from(run.len);
    }
    tracks
}

// A data set of at most 16 extents in short.
#[tactic(auto, unfolding(vol_model::specs::Reading::set_info))]
pub(crate) fn set_info(set: &DataSet) -> SetInfo
    requires { length set.now.extents ≤ 16 }
    ensures { result ≡ set_info set.now }
{
    SetInfo {
        attr: set.attr,
        kind: kind_of(&set.body),
        extents: set.extents.len() as u8,
        tracks: tracks_in(set.extents.as_slice()),
        dir: directory_size(&set.body),
    }
}

// Whether one place stands before another.
pub(crate) fn is_before(p: Place, q: Place) -> bool
    ensures { result ≡ is_before p q }
{
    p.tt < q.tt || (p.tt == q.tt && p.r < q.r)
}

// Whether a block stands at or after a place.
fn stands_from(block: &Block, from: Place) -> bool
    ensures { result ≡ not (is_before block.now.place from) }
{
    !is_before(block.place, from)
}

// The first of some blocks at or after a place.
fn block_from(blocks: &[Block], from: Place) -> Option<&Block>
    ensures { option_copied result ≡ find (λ (b : Block). not (is_before b.place from)) blocks.now }
{
    blocks.iter().find(|block| stands_from(block, from))
}

// A copy of what was found.
fn copy_found<T: Copies>(alloc: Global, found: Option<&T>) -> Result<Option<T>, ReadErr>
    ensures { Copied result (option_copied found.entry) }
{
    let Some(value) = found else {
        return Ok(None);
    };
    match value.copy(alloc) {
        Ok(copy) => Ok(Some(copy)),
        Err(_) => Err(ReadErr::Memory),
    }
}

// The entry of this name in the directory of a set.
pub(crate) fn entry_in(
    alloc: Global,
    set: Option<&DataSet>,
    name: &Name8,
) -> Result<Option<Entry>, ReadErr>
    ensures value { Picks result (entries_in (body_in (option_copied set.entry))) (λ es. find (λ (e : Entry). bytes_eq e.name.bytes name.now.bytes) es) }
    ensures device { IsErrOf result ReadErr.Device → ⊥ }
{
    let Some(set) = set else {
        return Ok(None);
    };
    match &set.body {
        Body::Part { entries, .. } => copy_found(alloc, entry_of(entries.as_slice(), name)),
        Body::Unreadable(track) => Err(ReadErr::Unreadable(*track)),
        _ => Ok(None),
    }
}

// The entry of this name.
fn entry_of<'a>(entries: &'a [Entry], name: &Name8) -> Option<&'a Entry>
    ensures { option_copied result ≡ find (λ (e : Entry). bytes_eq e.name.bytes name.now.bytes) entries.now }
{
    entries.iter().find(|entry| entry.name == *name)
}

// The k-th entry in the directory of a set.
pub(crate) fn entry_at_in(
    alloc: Global,
    set: Option<&DataSet>,
    k: u32,
) -> Result<Option<Entry>, ReadErr>
    ensures value { Picks result (entries_in (body_in (option_copied set.entry))) (λ es. slice_get es k) }
    ensures device { IsErrOf result ReadErr.Device → ⊥ }
{
    let Some(set) = set else {
        return Ok(None);
    };
    match &set.body {
        Body::Part { entries, .. } => copy_found(alloc, entries.get(k as usize)),
        Body::Unreadable(track) => Err(ReadErr::Unreadable(*track)),
        _ => Ok(None),
    }
}

// The first block of a set at or after a place.
pub(crate) fn block_in(
    alloc: Global,
    set: Option<&DataSet>,
    from: Place,
) -> Result<Option<Block>, ReadErr>
    ensures value { Picks result (readable (body_in (option_copied set.entry))) (λ bs. find (λ (b : Block). not (is_before b.place from)) bs) }
    ensures device { IsErrOf result ReadErr.Device → ⊥ }
{
    let Some(set) = set else {
        return Ok(None);
    };
    match &set.body {
        Body::Seq(blocks) => copy_found(alloc, block_from(blocks.as_slice(), from)),
        Body::Part { blocks, .. } => copy_found(alloc, block_from(blocks.as_slice(), from)),
        Body::Unreadable(track) => Err(ReadErr::Unreadable(*track)),
        _ => Ok(None),
    }
}

// The node at a path of the catalog of a volume.
pub(crate) fn node_in(
    alloc: Global,
    volume: Option<&Volume>,
    path: &CatPath,
) -> Result<Option<CatNode>, ReadErr>
    ensures value { Picks result (nodes_in (catalog_in (option_copied volume.entry))) (λ nodes. node_at nodes (named_path nodes path.now)) }
    ensures device { IsErrOf result ReadErr.Device → ⊥ }
{
    let Some(volume) = volume else {
        return node_of(alloc, &[], path);
    };
    match &volume.catalog {
        Some(CatBody::Tree { nodes, .. }) => node_of(alloc, nodes.as_slice(), path),
        Some(CatBody::Unreadable(track)) => Err(ReadErr::Unreadable(*track)),
        None => node_of(alloc, &[], path),
    }
}

// The node at a path.
fn node_of(alloc: Global, nodes: &[Node], path: &CatPath) -> Result<Option<CatNode>, ReadErr>
    ensures { Copied result (node_at nodes.now (named_path nodes.now path.now)) }
{
    match named_path(alloc, nodes, path) {
        Ok(named) => copy_found(alloc, node_at(nodes, named.names.as_slice())),
        Err(_) => Err(ReadErr::Memory),
    }
}

// The last name of the k-th node below a path of the catalog of a volume.
pub(crate) fn child_in(
    alloc: Global,
    volume: Option<&Volume>,
    path: &CatPath,
    k: u32,
) -> Result<Option<Name8>, ReadErr>
    ensures value { Picks result (nodes_in (catalog_in (option_copied volume.entry))) (λ nodes. child_at nodes (true_path nodes path.now) k) }
    ensures device { IsErrOf result ReadErr.Device → ⊥ }
{
    let Some(volume) = volume else {
        return child_of(alloc, &[], path, k);
    };
    match &volume.catalog {
        Some(CatBody::Tree { nodes, .. }) => child_of(alloc, nodes.as_slice(), path, k),
        Some(CatBody::Unreadable(track)) => Err(ReadErr::Unreadable(*track)),
        None => child_of(alloc, &[], path, k),
    }
}

// The last name of the k-th node below a path.
fn child_of(alloc: Global, nodes: &[Node], path: &CatPath, k: u32) -> Result<Option<Name8>, ReadErr>
    ensures { Copied result (child_at nodes.now (true_path nodes.now path.now) k) }
{
    let Ok(way) = true_path(alloc, nodes, path) else {
        return Err(ReadErr::Memory);
    };
    match child_at(alloc, nodes, &way, k as usize) {
        Ok(child) => Ok(child),
        Err(_) => Err(ReadErr::Memory),
    }
}

// The blocks of a body; none of one that isn't sequential or partitioned.
fn blocks_of(body: &Body) -> &[Block]
    ensures { result.now ≡ blocks_of body.now }
{
    match body {
        Body::Seq(blocks) => blocks.as_slice(),
        Body::Part { blocks, .. } => blocks.as_slice(),
        _ => &[],
    }
}

// Puts the first of some lawful blocks at or after a place into a block; false, and a blank block, where there is none.
fn put_first_from(blocks: &[Block], from: Place, block: &mut BlockBuf) -> bool
    requires { AllByRecursion IsLawfulBlock blocks.now }
    ensures found { FirstOf result (blocks_from from blocks.now) block.new }
    ensures blank { IsFalse result → IsBlank block.new }
{
    match block_from(blocks, from) {
        Some(found) => {
            block.set(found.place, found.key.as_slice(), found.payload.as_slice());
            true
        }
        None => {
            block.clear();
            false
        }
    }
}

// Puts the first block of a set at or after a place into a block; false where there is none.
pub(crate) fn block_into(
    set: Option<&DataSet>,
    from: Place,
    block: &mut BlockBuf,
) -> Result<bool, CheckErr>
    requires { AllByRecursion IsLawfulBlock (blocks_of (body_in (option_copied set))) }
    ensures value { ReadsInto result (readable (body_in (option_copied set.entry))) from block.new }
    ensures blank { LeavesBlank result block.new }
    ensures device { IsErrOf result CheckErr.Device → ⊥ }
{
    let Some(set) = set else {
        block.clear();
        return Ok(false);
    };
    if let Body::Unreadable(track) = &set.body {
        block.clear();
        return Err(CheckErr::Unreadable(*track));
    }
    Ok(put_first_from(blocks_of(&set.body), from, block))
}
