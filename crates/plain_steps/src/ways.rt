//! Ways to the nodes of a catalog, and what stands there.
ghost use Rattle.std.specs.Prelude.{◌≡◌, ◌∷◌, [], IfOk, Some};
ghost use Rattle.std.specs.Option.{option_copied};
ghost use Rattle.vol_model.specs.declared.catalogs.CatNode.TheVariants.{Alias};
ghost use Rattle.vol_model.specs.Trees.{compare_ways, front, has_node, is_at, is_below, last_name, named_path, node_at, parent_at, true_path, way};

use crate::copies::{Copies, copy_items};
use ebcdic_names::Name8;
use std::alloc::{AllocError, Global};
use std::cmp::Ordering;
use vol_model::{CatNode, CatPath, Names};

/// A node with the way to it.
pub type Node = (CatPath, CatNode);

// The order of two ways, by the bytes of their names.
pub(crate) fn compare_ways(names: &[Name8], others: &[Name8]) -> Ordering
    ensures { result ≡ compare_ways (way names.now) (way others.now) }
{
    names.cmp(others)
}

// Whether the node stands at this way.
pub(crate) fn is_at(names: &[Name8], node: &Node) -> bool
    ensures { result ≡ is_at (way names.now) node.now }
{
    compare_ways(node.0.names.as_slice(), names).is_eq()
}

/// What stands at a way.
pub fn node_at<'a>(nodes: &'a [Node], names: &[Name8]) -> Option<&'a CatNode>
    ensures { option_copied result ≡ node_at nodes.now (way names.now) }
{
    let node = nodes.iter().find(|node| is_at(names, node))?;
    Some(&node.1)
}

// Whether something stands at a way.
pub(crate) fn has_node(nodes: &[Node], names: &[Name8]) -> bool
    ensures { result ≡ has_node nodes.now (way names.now) }
{
    nodes.iter().any(|node| is_at(names, node))
}

// A way but for its last name.
#[tactic(auto, using(crate::proofs::Names::front_snoc))]
pub(crate) fn front(names: &[Name8]) -> &[Name8]
    ensures { result.now ≡ front names.now }
{
    match names.split_last() {
        Some((_, before)) => before,
        None => &[],
    }
}

// The last name of a way.
#[tactic(auto, using(crate::proofs::Names::last_snoc))]
pub(crate) fn last_name(names: &[Name8]) -> Option<Name8>
    ensures { result ≡ last_name names.now }
{
    match names.split_last() {
        Some((last, _)) => Some(*last),
        None => None,
    }
}

// Whether a way goes one level further down than another.
pub(crate) fn is_below(names: &[Name8], others: &[Name8]) -> bool
    ensures { result ≡ is_below names.now others.now }
{
    match others.split_last() {
        Some((_, before)) => names == before,
        None => false,
    }
}

// What stands at the parent's way; nothing does at the root.
#[tactic(auto, using(crate::proofs::Names::parent_long))]
pub(crate) fn parent_at<'a>(nodes: &'a [Node], names: &[Name8]) -> Option<&'a CatNode>
    ensures { option_copied result ≡ parent_at nodes.now names.now }
{
    if names.len() < 2 {
        return None;
    }
    node_at(nodes, front(names))
}

// The way of one name.
pub(crate) fn way_of(alloc: Global, name: Name8) -> Result<CatPath, AllocError>
    ensures { IfOk result (λ path. path ≡ way (name ∷ [])) }
{
    let mut names = Names::new(alloc);
    names.push(name)?;
    Ok(CatPath { names })
}

// The way of a name and others after it.
fn way_from(alloc: Global, name: Name8, rest: &[Name8]) -> Result<CatPath, AllocError>
    ensures { IfOk result (λ path. path ≡ way (name ∷ rest.now)) }
{
    let mut names = Vec::new(alloc);
    names.push(name)?;
    names.extend_from_slice(rest)?;
    Ok(CatPath {
        names: Names::from_vec(names),
    })
}

/// The way for which a path stands, with the true name in the place of an alias at the root.
#[tactic(auto, unfolding(vol_model::specs::Trees::true_path))]
pub fn true_path(alloc: Global, nodes: &[Node], path: &CatPath) -> Result<CatPath, AllocError>
    ensures { IfOk result (λ way. way ≡ true_path nodes.now path.now) }
{
    let Some((first, rest)) = path.names.as_slice().split_first() else {
        return path.copy(alloc);
    };
    let root = [*first];
    match node_at(nodes, root.as_slice()) {
        Some(CatNode::Alias { of }) => way_from(alloc, *of, rest),
        _ => path.copy(alloc),
    }
}

/// The same where one name alone is taken as it stands, so that an alias itself can be named.
#[tactic(auto, unfolding(vol_model::specs::Trees::named_path))]
pub fn named_path(alloc: Global, nodes: &[Node], path: &CatPath) -> Result<CatPath, AllocError>
    ensures { IfOk result (λ way. way ≡ named_path nodes.now path.now) }
{
    if path.names.len() == 1 {
        path.copy(alloc)
    } else {
        true_path(alloc, nodes, path)
    }
}
