//! The catalog of a volume: the blocks that its nodes need, and what operations make of it.
ghost use Rattle.std.specs.Prelude.{◌≡◌, ◌∷◌, [], ◌+◌, ℕ, IfOk, map, if◌then◌else◌};
ghost use Rattle.vol_model.specs.Shelf.{on_catalog, with_nodes};
ghost use Rattle.vol_model.specs.Slots.{catalog_needed, index_needed};
ghost use Rattle.vol_model.specs.Trees.{Node, has_index, node_size, way};

use crate::below::nodes_below;
use crate::copies::Copies;
use crate::needed::{Measured, needed_from};
use crate::nodes::{aliased, built, cataloged, has_index, node_dropped, uncataloged};
use crate::ways::Node;
use ebcdic_names::Name8;
use std::alloc::{AllocError, Global};
use vol_model::{CatBody, CatNode, CatPath, Nodes, Refusal, VolRefs, Volume};

// Bytes of an entry with others in front of it.
fn add_bytes(front: u64, bytes: u64) -> Result<u64, AllocError>
    ensures { IfOk result (λ size. size ≡ front + bytes) }
{
    front.checked_add(bytes).ok_or(AllocError)
}

// The bytes of a node's entry in a block.
fn node_size(node: &CatNode) -> Result<u64, AllocError>
    ensures { IfOk result (λ size. size ≡ node_size node.now) }
{
    match node {
        CatNode::Index => Ok(12),
        CatNode::Group { .. } => Ok(16),
        CatNode::Set { vols } => {
            let volumes = (vols.len() as u64).checked_mul(12).ok_or(AllocError)?;
            add_bytes(14, volumes)
        }
        CatNode::Alias { .. } => Ok(20),
        CatNode::Other { payload, .. } => add_bytes(12, payload.len() as u64),
    }
}

impl Measured for u64 {
    ghost size = { λ bytes. bytes };

    fn size(&self) -> Result<u64, AllocError> {
        Ok(*self)
    }
}

// The bytes of an index's entries, with a control entry of so many bytes in front.
fn entry_sizes(alloc: Global, control: u64, nodes: &[Node]) -> Result<Vec<u64>, AllocError>
    ensures { IfOk result (λ sizes. sizes.items ≡ control ∷ map (λ (x : Node). node_size x.1) nodes.now) }
{
    let mut sizes = Vec::new(alloc);
    sizes.push(control)?;
    for node in nodes {
        sizes.push(node_size(&node.1)?)?;
    }
    Ok(sizes)
}

// The blocks that the index at a way needs, with a control entry of so many bytes in front.
fn index_needed(
    alloc: Global,
    control: u64,
    nodes: &[Node],
    names: &[Name8],
) -> Result<u32, AllocError>
    ensures { IfOk result (λ blocks. blocks ≡ index_needed control nodes.now (way names.now)) }
{
    let below = nodes_below(alloc, nodes, names)?;
    let sizes = entry_sizes(alloc, control, below.as_slice())?;
    needed_from(242, 0, 0, sizes.as_slice())
}

// The blocks that the index of a node needs; none where it has no index.
fn own_needed(alloc: Global, nodes: &[Node], node: &Node) -> Result<u32, AllocError>
    ensures { IfOk result (λ blocks. blocks ≡ (if has_index node.now.1 then index_needed 18 nodes.now node.now.0 else 0)) }
{
    if has_index(&node.1) {
        index_needed(alloc, 18, nodes, node.0.names.as_slice())
    } else {
        Ok(0)
    }
}

// The blocks that a catalog needs: those of its root, and of each index and group.
#[tactic(auto, unfolding(vol_model::specs::Slots::catalog_needed))]
fn catalog_needed(alloc: Global, nodes: &[Node]) -> Result<u32, AllocError>
    ensures { IfOk result (λ blocks. blocks ≡ catalog_needed nodes.now) }
{
    let root: [Name8; 0] = [];
    let mut blocks = index_needed(alloc, 22, nodes, root.as_slice())?;
    for node in nodes {
        let own = own_needed(alloc, nodes, node)?;
        blocks = blocks.checked_add(own).ok_or(AllocError)?;
    }
    Ok(blocks)
}

// The volume with these nodes in its catalog, unless they need more blocks than it has.
fn with_nodes(
    alloc: Global,
    volume: &Volume,
    blocks: u32,
    nodes: Nodes,
) -> Result<Result<Volume, Refusal>, AllocError>
    ensures { IfOk result (λ after. after ≡ with_nodes volume.now blocks nodes) }
{
    let needed = catalog_needed(alloc, nodes.as_slice())?;
    if blocks < needed {
        return Ok(Err(Refusal::CatalogFull { blocks: needed }));
    }
    Ok(Ok(Volume {
        serial: volume.serial,
        geometry: volume.geometry,
        vtoc: volume.vtoc,
        slots: volume.slots,
        sets: volume.sets.copy(alloc)?,
        catalog: Some(CatBody::Tree { blocks, nodes }),
    }))
}

/// A change of the nodes of a catalog.
pub trait NodesChange {
    ghost use Rattle.std.specs.Prelude.{List, Result};
    ghost use Rattle.vol_model.specs.declared.refusals.Refusal.{Refusal};
    ghost use Rattle.vol_model.specs.Trees.{Node};

    ghost change: { Self → List Node → Result (List Node) Refusal };

    /// What becomes of the nodes, or why that is refused.
    fn change(&self, alloc: Global, nodes: &[Node]) -> Result<Result<Nodes, Refusal>, AllocError>
        ensures { IfOk result (λ after. after ≡ change self.now nodes.now) };
}

/// The volume after a change of the nodes of its catalog, or why that is refused.
#[tactic(auto, unfolding(vol_model::specs::Shelf::on_catalog))]
pub fn on_catalog<C: NodesChange>(
    alloc: Global,
    change: &C,
    volume: &Volume,
) -> Result<Result<Volume, Refusal>, AllocError>
    ensures { IfOk result (λ after. after ≡ on_catalog (C.change change.now) volume.now) }
{
    match &volume.catalog {
        None => Ok(Err(Refusal::NoCatalog)),
        Some(CatBody::Unreadable(track)) => Ok(Err(Refusal::Unreadable(*track))),
        Some(CatBody::Tree { blocks, nodes }) => match change.change(alloc, nodes.as_slice())? {
            Ok(after) => with_nodes(alloc, volume, *blocks, after),
            Err(refusal) => Ok(Err(refusal)),
        },
    }
}

/// A new index, or group.
#[derive(Drop)]
pub struct NewIndex<'a> {
    /// The way to it.
    pub path: &'a CatPath,
    /// The index, or group.
    pub node: &'a CatNode,
}

impl NodesChange for NewIndex<'_> {
    ghost use Rattle.vol_model.specs.Shelf.{built};

    ghost change = { λ new nodes. built new.path.now new.node.now nodes };

    fn change(&self, alloc: Global, nodes: &[Node]) -> Result<Result<Nodes, Refusal>, AllocError> {
        built(alloc, self.path, self.node, nodes)
    }
}

/// An index, a group or an alias that goes.
#[derive(Drop)]
pub struct DroppedNode<'a> {
    /// The way to it.
    pub path: &'a CatPath,
}

impl NodesChange for DroppedNode<'_> {
    ghost use Rattle.vol_model.specs.Shelf.{node_dropped};

    ghost change = { λ old nodes. node_dropped old.path.now nodes };

    fn change(&self, alloc: Global, nodes: &[Node]) -> Result<Result<Nodes, Refusal>, AllocError> {
        node_dropped(alloc, self.path, nodes)
    }
}

/// A data set that is cataloged.
#[derive(Drop)]
pub struct CatalogedSet<'a> {
    /// The way to it.
    pub path: &'a CatPath,
    /// Its volumes.
    pub vols: &'a VolRefs,
    /// Whether one at the path is replaced.
    pub replace: bool,
}

impl NodesChange for CatalogedSet<'_> {
    ghost use Rattle.vol_model.specs.Shelf.{cataloged};

    ghost change = { λ new nodes. cataloged new.path.now new.vols.now new.replace nodes };

    fn change(&self, alloc: Global, nodes: &[Node]) -> Result<Result<Nodes, Refusal>, AllocError> {
        cataloged(alloc, self.path, self.vols, self.replace, nodes)
    }
}

/// A data set that is cataloged no more.
#[derive(Drop)]
pub struct UncatalogedSet<'a> {
    /// The way to it.
    pub path: &'a CatPath,
}

impl NodesChange for UncatalogedSet<'_> {
    ghost use Rattle.vol_model.specs.Shelf.{uncataloged};

    ghost change = { λ old nodes. uncataloged old.path.now nodes };

    fn change(&self, alloc: Global, nodes: &[Node]) -> Result<Result<Nodes, Refusal>, AllocError> {
        uncataloged(alloc, self.path, nodes)
    }
}

/// Another name of an index at the root.
#[derive(Drop)]
pub struct NewAlias {
    /// The new name.
    pub name: Name8,
    /// The name of the index.
    pub of: Name8,
}

impl NodesChange for NewAlias {
    ghost use Rattle.vol_model.specs.Shelf.{aliased};

    ghost change = { λ new nodes. aliased new.name new.of nodes };

    fn change(&self, alloc: Global, nodes: &[Node]) -> Result<Result<Nodes, Refusal>, AllocError> {
        aliased(alloc, self.name, self.of, nodes)
    }
}
