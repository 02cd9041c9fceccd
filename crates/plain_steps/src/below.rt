//! The nodes below a path, in the order in which their index holds them.
ghost use Rattle.std.specs.Prelude.{◌≡◌, [], IfOk};
ghost use Rattle.std.specs.Option.{option_copied, option_map_or};
ghost use Rattle.std.specs.Ordering.{is_lt, nat_cmp};
ghost use Rattle.std.specs.Cmp.Lexicographic.{slice_cmp};
ghost use Rattle.vol_model.specs.Trees.{child_at, in_stored_order, inverted, is_group, nodes_below, stored_generation, stored_name, stored_rank, way};

use crate::lists::{Test, is_less, where_passed};
use crate::ways::{Node, is_below, last_name, node_at};
use ebcdic_names::Name8;
use std::alloc::{AllocError, Global};
use vol_model::{CatNode, CatPath, Nodes};

// Whether it is the index of a generation data group.
pub(crate) fn is_group(node: Option<&CatNode>) -> bool
    ensures { result ≡ is_group (option_copied node.entry) }
{
    matches!(node, Some(CatNode::Group { .. }))
}

// A digit with the low half of its byte inverted.
fn inverted(c: u8) -> u8
    ensures { result ≡ inverted c }
{
    0xFF - c.saturating_sub(0xF0)
}

// The bytes under which the name of a generation is stored.
fn stored_generation(name: [u8; 8]) -> [u8; 8]
    ensures { result ≡ stored_generation name }
{
    let [g, a, b, c, d, v, e, f] = name;
    [
        g,
        inverted(a),
        inverted(b),
        inverted(c),
        inverted(d),
        v,
        e,
        f,
    ]
}

// The bytes under which the last name of a node is stored, below a group or elsewhere; none of a node at the root's path.
fn stored_name(in_group: bool, node: &Node) -> Option<[u8; 8]>
    ensures { option_map_or (λ bytes. bytes) result [] ≡ stored_name in_group node.now }
{
    let name = last_name(node.0.names.as_slice())?;
    if in_group {
        Some(stored_generation(name.bytes))
    } else {
        Some(name.bytes)
    }
}

// The bytes of a name, if there is one.
fn bytes_of(name: &Option<[u8; 8]>) -> &[u8]
    ensures { result.now ≡ option_map_or (λ bytes. bytes) name.now [] }
{
    match name {
        Some(bytes) => bytes.as_slice(),
        None => &[],
    }
}

// Whether one node is stored before another.
fn is_stored_before(in_group: bool, node: &Node, other: &Node) -> bool
    ensures { result ≡ is_lt (slice_cmp nat_cmp (stored_name in_group node.now) (stored_name in_group other.now)) }
{
    let name = stored_name(in_group, node);
    let other = stored_name(in_group, other);
    is_less(bytes_of(&name), bytes_of(&other))
}

// How many of these nodes are stored before one.
fn stored_rank(in_group: bool, nodes: &[Node], node: &Node) -> usize
    ensures { result ≡ stored_rank in_group nodes.now node.now }
{
    nodes
        .iter()
        .filter(|other| is_stored_before(in_group, other, node))
        .count()
}

// The nodes before which so many are stored.
#[derive(Drop)]
struct OfStoredRank<'a> {
    in_group: bool,
    nodes: &'a [Node],
    k: usize,
}

impl Test<Node> for OfStoredRank<'_> {
    ghost use Rattle.std.specs.Prelude.{◌==◌};
    ghost use Rattle.vol_model.specs.Trees.{stored_rank};

    ghost passes = { λ test node. stored_rank test.in_group test.nodes.now node == test.k };

    fn passes(&self, node: &Node) -> bool {
        stored_rank(self.in_group, self.nodes, node) == self.k
    }
}

// Nodes of one index in the order of the bytes under which they are stored.
fn in_stored_order(alloc: Global, in_group: bool, nodes: &[Node]) -> Result<Nodes, AllocError>
    ensures { IfOk result (λ after. after ≡ in_stored_order in_group nodes.now) }
{
    let mut ordered = Nodes::new(alloc);
    for k in 0..nodes.len() {
        let test = OfStoredRank { in_group, nodes, k };
        ordered = where_passed(alloc, ordered, nodes, &test)?;
    }
    Ok(ordered)
}

// The nodes one level below a way.
#[derive(Drop)]
struct Below<'a> {
    names: &'a [Name8],
}

impl Test<Node> for Below<'_> {
    ghost use Rattle.vol_model.specs.Trees.{is_below};

    ghost passes = { λ test node. is_below test.names.now node.0.names };

    fn passes(&self, node: &Node) -> bool {
        is_below(self.names, node.0.names.as_slice())
    }
}

// The nodes one level below a way, in the order in which its index holds them.
#[tactic(auto, unfolding(vol_model::specs::Trees::nodes_below))]
pub(crate) fn nodes_below(
    alloc: Global,
    nodes: &[Node],
    names: &[Name8],
) -> Result<Nodes, AllocError>
    ensures { IfOk result (λ below. below ≡ nodes_below nodes.now (way names.now)) }
{
    let below = where_passed(alloc, Nodes::new(alloc), nodes, &Below { names })?;
    in_stored_order(alloc, is_group(node_at(nodes, names)), below.as_slice())
}

/// The last name of the k-th node below a path, from 0, in that order.
#[tactic(auto, unfolding(vol_model::specs::Trees::child_at))]
pub fn child_at(
    alloc: Global,
    nodes: &[Node],
    path: &CatPath,
    k: usize,
) -> Result<Option<Name8>, AllocError>
    ensures { IfOk result (λ child. child ≡ child_at nodes.now path.now k) }
{
    let below = nodes_below(alloc, nodes, path.names.as_slice())?;
    match below.get(k) {
        Some(node) => Ok(last_name(node.0.names.as_slice())),
        None => Ok(None),
    }
}
