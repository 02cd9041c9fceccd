//! What an operation makes of the nodes of a catalog.
ghost use Rattle.std.specs.Prelude.{◌≡◌, ◌∷◌, [], IfOk, false, length};
ghost use Rattle.std.specs.Option.{option_copied, option_map_or};
ghost use Rattle.vol_model.specs.Shelf.{aliased, built, cataloged, gives_way, is_data_set, is_full, may_go, node_dropped, uncataloged};
ghost use Rattle.vol_model.specs.Trees.{fits_group, has_index, is_digit, is_generation, has_node, front, is_index, node_at, nodes_below, stands_under, way, with_node, without_node};

use crate::below::{is_group, nodes_below};
use crate::copies::Copies;
use crate::lists::{Test, where_passed};
use crate::ways::{
    Node, compare_ways, front, has_node, is_at, last_name, named_path, node_at, parent_at,
    true_path, way_of,
};
use ebcdic_names::Name8;
use std::alloc::{AllocError, Global};
use vol_model::{CatNode, CatPath, Nodes, Refusal, VolRefs};

// The nodes whose ways stand before one.
#[derive(Drop)]
struct Before<'a> {
    path: &'a CatPath,
}

impl Test<Node> for Before<'_> {
    ghost use Rattle.vol_model.specs.Trees.{is_before};

    ghost passes = { λ test x. is_before x.0 test.path.now };

    fn passes(&self, node: &Node) -> bool {
        compare_ways(node.0.names.as_slice(), self.path.names.as_slice()).is_lt()
    }
}

// The nodes whose ways stand after one.
#[derive(Drop)]
struct Behind<'a> {
    path: &'a CatPath,
}

impl Test<Node> for Behind<'_> {
    ghost use Rattle.vol_model.specs.Trees.{is_before};

    ghost passes = { λ test x. is_before test.path.now x.0 };

    fn passes(&self, node: &Node) -> bool {
        compare_ways(self.path.names.as_slice(), node.0.names.as_slice()).is_lt()
    }
}

// The nodes at other ways than this.
#[derive(Drop)]
struct Elsewhere<'a> {
    names: &'a [Name8],
}

impl Test<Node> for Elsewhere<'_> {
    ghost use Rattle.std.specs.Prelude.{not};
    ghost use Rattle.vol_model.specs.Trees.{is_at, way};

    ghost passes = { λ test x. not (is_at (way test.names.now) x) };

    fn passes(&self, node: &Node) -> bool {
        !is_at(self.names, node)
    }
}

// Nodes with one more, in the order of their ways; one at the same path goes.
fn with_node(
    alloc: Global,
    path: &CatPath,
    node: &CatNode,
    nodes: &[Node],
) -> Result<Nodes, AllocError>
    ensures { IfOk result (λ after. after ≡ with_node path.now node.now nodes.now) }
{
    let mut after = where_passed(alloc, Nodes::new(alloc), nodes, &Before { path })?;
    after.push((path.copy(alloc)?, node.copy(alloc)?))?;
    where_passed(alloc, after, nodes, &Behind { path })
}

// Nodes without the one at a way.
fn without_node(alloc: Global, names: &[Name8], nodes: &[Node]) -> Result<Nodes, AllocError>
    ensures { IfOk result (λ after. after ≡ without_node (way names.now) nodes.now) }
{
    where_passed(alloc, Nodes::new(alloc), nodes, &Elsewhere { names })
}

// Whether it is an index of further names.
fn is_index(node: &CatNode) -> bool
    ensures { result ≡ is_index node.now }
{
    matches!(node, CatNode::Index)
}

// Whether a node has an index of its own, with nodes below it.
pub(crate) fn has_index(node: &CatNode) -> bool
    ensures { result ≡ has_index node.now }
{
    matches!(node, CatNode::Index | CatNode::Group { .. })
}

// Whether the parent of this way is the root or an index.
fn stands_under_index(nodes: &[Node], names: &[Name8]) -> bool
    ensures { result ≡ stands_under is_index nodes.now names.now }
{
    names.len() == 1
        || match parent_at(nodes, names) {
            Some(parent) => is_index(parent),
            None => false,
        }
}

// Whether the parent of this way is the root, an index or a group.
fn stands_under_node(nodes: &[Node], names: &[Name8]) -> bool
    ensures { result ≡ stands_under has_index nodes.now names.now }
{
    names.len() == 1
        || match parent_at(nodes, names) {
            Some(parent) => has_index(parent),
            None => false,
        }
}

// A digit in EBCDIC.
fn is_digit(c: u8) -> bool
    ensures { result ≡ is_digit c }
{
    0xF0 <= c && c <= 0xF9
}

// Whether it is GnnnnVnn, the name of a generation, in EBCDIC.
fn is_generation(name: [u8; 8]) -> bool
    ensures { result ≡ is_generation name }
{
    let [g, a, b, c, d, v, e, f] = name;
    g == 0xC7
        && (is_digit(a)
            && (is_digit(b)
                && (is_digit(c) && (is_digit(d) && (v == 0xE5 && (is_digit(e) && is_digit(f)))))))
}

// Whether the name isn't one under a group, or it is that of a generation.
fn fits_group(nodes: &[Node], names: &[Name8]) -> bool
    ensures { result ≡ fits_group nodes.now names.now }
{
    !is_group(parent_at(nodes, names))
        || match last_name(names) {
            Some(name) => is_generation(name.bytes),
            None => false,
        }
}

// The nodes with a new index, or group, at a path.
#[tactic(auto, unfolding(vol_model::specs::Shelf::built))]
pub(crate) fn built(
    alloc: Global,
    path: &CatPath,
    node: &CatNode,
    nodes: &[Node],
) -> Result<Result<Nodes, Refusal>, AllocError>
    ensures { IfOk result (λ after. after ≡ built path.now node.now nodes.now) }
{
    let path = true_path(alloc, nodes, path)?;
    if !stands_under_index(nodes, path.names.as_slice()) {
        return Ok(Err(Refusal::NoNode));
    }
    if has_node(nodes, path.names.as_slice()) {
        return Ok(Err(Refusal::NodeExists));
    }
    Ok(Ok(with_node(alloc, &path, node, nodes)?))
}

// Whether it is an index, a group or an alias, which a path without nodes below it may lose.
fn may_go(node: &CatNode) -> bool
    ensures { result ≡ may_go node.now }
{
    match node {
        CatNode::Index | CatNode::Group { .. } | CatNode::Alias { .. } => true,
        _ => false,
    }
}

// Whether a node at this way may go.
fn may_go_from(nodes: &[Node], names: &[Name8]) -> bool
    ensures { result ≡ option_map_or may_go (node_at nodes.now (way names.now)) false }
{
    match node_at(nodes, names) {
        Some(node) => may_go(node),
        None => false,
    }
}

// The nodes without an index, a group or an alias at a path.
#[tactic(auto, unfolding(vol_model::specs::Shelf::node_dropped))]
pub(crate) fn node_dropped(
    alloc: Global,
    path: &CatPath,
    nodes: &[Node],
) -> Result<Result<Nodes, Refusal>, AllocError>
    ensures { IfOk result (λ after. after ≡ node_dropped path.now nodes.now) }
{
    let path = named_path(alloc, nodes, path)?;
    let names = path.names.as_slice();
    if !may_go_from(nodes, names) {
        return Ok(Err(Refusal::NoNode));
    }
    if 0 < nodes_below(alloc, nodes, names)?.len() {
        return Ok(Err(Refusal::NotEmpty));
    }
    Ok(Ok(without_node(alloc, names, nodes)?))
}

// Whether it is a group that holds its limit or more.
fn is_full(node: Option<&CatNode>, held: usize) -> bool
    ensures { result ≡ is_full (option_copied node.entry) held }
{
    match node {
        Some(CatNode::Group { limit, .. }) => usize::from(*limit) <= held,
        _ => false,
    }
}

// Whether a data set may be put in the place of this: of nothing, or of one that is replaced.
fn gives_way(node: Option<&CatNode>, replace: bool) -> bool
    ensures { result ≡ gives_way (option_copied node.entry) replace }
{
    match node {
        None => true,
        Some(CatNode::Set { .. }) => replace,
        Some(_) => false,
    }
}

// How many nodes stand below the parent of a way.
fn count_beside(alloc: Global, nodes: &[Node], names: &[Name8]) -> Result<usize, AllocError>
    ensures { IfOk result (λ held. held ≡ length (nodes_below nodes.now (way (front names.now)))) }
{
    Ok(nodes_below(alloc, nodes, front(names))?.len())
}

// The nodes with a data set at a path.
#[tactic(auto, unfolding(vol_model::specs::Shelf::cataloged))]
pub(crate) fn cataloged(
    alloc: Global,
    path: &CatPath,
    vols: &VolRefs,
    replace: bool,
    nodes: &[Node],
) -> Result<Result<Nodes, Refusal>, AllocError>
    ensures { IfOk result (λ after. after ≡ cataloged path.now vols.now replace nodes.now) }
{
    let path = true_path(alloc, nodes, path)?;
    let names = path.names.as_slice();
    if !fits_group(nodes, names) {
        return Ok(Err(Refusal::WrongKind));
    }
    let held = count_beside(alloc, nodes, names)?;
    if !has_node(nodes, names) && is_full(parent_at(nodes, names), held) {
        return Ok(Err(Refusal::NoRoom));
    }
    if !stands_under_node(nodes, names) {
        return Ok(Err(Refusal::NoNode));
    }
    if !gives_way(node_at(nodes, names), replace) {
        return Ok(Err(Refusal::NodeExists));
    }
    let set = CatNode::Set {
        vols: vols.copy(alloc)?,
    };
    Ok(Ok(with_node(alloc, &path, &set, nodes)?))
}

// Whether a data set is cataloged at this way.
fn is_data_set_at(nodes: &[Node], names: &[Name8]) -> bool
    ensures { result ≡ option_map_or is_data_set (node_at nodes.now (way names.now)) false }
{
    match node_at(nodes, names) {
        Some(CatNode::Set { .. }) => true,
        _ => false,
    }
}

// The nodes without a data set at a path.
#[tactic(auto, unfolding(vol_model::specs::Shelf::uncataloged))]
pub(crate) fn uncataloged(
    alloc: Global,
    path: &CatPath,
    nodes: &[Node],
) -> Result<Result<Nodes, Refusal>, AllocError>
    ensures { IfOk result (λ after. after ≡ uncataloged path.now nodes.now) }
{
    let path = true_path(alloc, nodes, path)?;
    let names = path.names.as_slice();
    if !is_data_set_at(nodes, names) {
        return Ok(Err(Refusal::NoNode));
    }
    Ok(Ok(without_node(alloc, names, nodes)?))
}

// Whether an index of this name stands at the root.
fn is_root_index(nodes: &[Node], name: Name8) -> bool
    ensures { result ≡ option_map_or is_index (node_at nodes.now (way (name ∷ []))) false }
{
    let names = [name];
    match node_at(nodes, names.as_slice()) {
        Some(node) => is_index(node),
        None => false,
    }
}

// Whether something of this name stands at the root.
fn is_at_root(nodes: &[Node], name: Name8) -> bool
    ensures { result ≡ has_node nodes.now (way (name ∷ [])) }
{
    let names = [name];
    has_node(nodes, names.as_slice())
}

// The nodes with another name of an index at the root.
#[tactic(auto, unfolding(vol_model::specs::Shelf::aliased))]
pub(crate) fn aliased(
    alloc: Global,
    name: Name8,
    of: Name8,
    nodes: &[Node],
) -> Result<Result<Nodes, Refusal>, AllocError>
    ensures { IfOk result (λ after. after ≡ aliased name of nodes.now) }
{
    if !is_root_index(nodes, of) {
        return Ok(Err(Refusal::NoNode));
    }
    if is_at_root(nodes, name) {
        return Ok(Err(Refusal::NodeExists));
    }
    let path = way_of(alloc, name)?;
    let alias = CatNode::Alias { of };
    Ok(Ok(with_node(alloc, &path, &alias, nodes)?))
}
