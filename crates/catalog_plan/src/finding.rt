//! Where a way leads in a catalog in memory.
ghost use Rattle.std.specs.Prelude.{◌≡◌, ◌≤◌, length};
ghost use Rattle.std.specs.Bool.{Decides};
ghost use Rattle.catalog_blocks.specs.Trees.{name_in};
ghost use Rattle.vol_model.specs.Trees.{compare_ways, is_before, way};
ghost use Rattle.catalog_laws.specs.Nodes.{AreTree};
ghost use Rattle.catalog_plan.specs.Branches.{chains_of};
ghost use Rattle.catalog_plan.specs.Orders.{IsWayPlace};
ghost use Rattle.catalog_plan.specs.Finding.{IsBranchAt, IsEntryNamed};

use crate::branch::Branch;
use crate::entries::name_in;
use crate::held::Located;
use catalog_blocks::{CatEntry, Chain, Level};
use ebcdic_names::Name8;
use std::cmp::Ordering;

// Whether this is the way to a chain.
fn is_way_to(chain: &Chain, names: &[Name8]) -> bool
    ensures { Decides result (chain.now.names ≡ names.now) }
{
    chain.names.as_slice() == names
}

// The order of two ways, by the bytes of their names.
fn compare_ways(names: &[Name8], others: &[Name8]) -> Ordering
    ensures { result ≡ compare_ways (way names.now) (way others.now) }
{
    names.cmp(others)
}

// Whether the way to a chain stands before this.
fn is_way_before(branch: &Branch, names: &[Name8]) -> bool
    ensures { result ≡ is_before (way branch.now.chain.names) (way names.now) }
{
    compare_ways(branch.chain.names.as_slice(), names).is_lt()
}

/// The place of a way among the chains of a catalog: how many of their ways stand before it.
pub fn way_place(branches: &[Branch], names: &[Name8]) -> usize
    requires { AreTree (chains_of branches.now) }
    ensures bound { result ≤ length branches.now }
    ensures place { IsWayPlace branches.now names.now result }
{
    branches.partition_point(
        |branch: &Branch| -> bool
            ensures { result ≡ is_before (way branch.now.chain.names) (way names.entry.now) }
        { is_way_before(branch, names) },
    )
}

/// The index of the chain at a way.
pub fn branch_at(branches: &[Branch], names: &[Name8]) -> Option<usize>
    requires { AreTree (chains_of branches.now) }
    ensures { IsBranchAt branches.now names.now result }
{
    let k = way_place(branches, names);
    if k == branches.len() {
        return None;
    }
    if is_way_to(&branches[k].chain, names) {
        return Some(k);
    }
    None
}

// Whether an entry of a chain stands for this name.
fn is_named(level: Level, entry: &CatEntry, name: Name8) -> bool
    ensures { Decides result (name_in level entry.now.name ≡ name) }
{
    name_in(level, entry.name) == name
}

/// The index of the kept entry of a chain that stands for a name, after the control entry.
pub(crate) fn entry_named(level: Level, held: &[Located], name: Name8) -> Option<usize>
    ensures { IsEntryNamed level held.now name result }
{
    for i in 1..held.len() {
        if is_named(level, &held[i].1, name) {
            return Some(i);
        }
    }
    None
}
