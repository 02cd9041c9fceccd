//! What a catalog in memory says of paths.
ghost use Rattle.std.specs.Prelude.{◌≡◌, ◌<◌, ◌≤◌, ◌^◌, ◌++◌, ◌∷◌, [], IfOk, length};
ghost use Rattle.vol_model.specs.Trees.{child_at, named_path, node_at, true_path, way};
ghost use Rattle.catalog_blocks.specs.Trees.{nodes_in};
ghost use Rattle.catalog_laws.specs.Nodes.{AreSound, AreTree};
ghost use Rattle.catalog_plan.specs.Branches.{chains_of};
ghost use Rattle.catalog_plan.specs.Finding.{IsEntryAt};
ghost use Rattle.catalog_plan.specs.Reads.{ReadsTree};

use crate::entries::{name_in, node_in};
use crate::finding::{branch_at, entry_named};
use crate::reading::read_chains;
use crate::tree::Tree;
use catalog_blocks::CatBlock;
use ebcdic_names::Name8;
use std::alloc::{AllocError, Global};
use vol_model::{CatNode, CatPath, Names};

/// The catalog of these blocks, of which a track holds so many, or the track of the first fault, from the
/// catalog's first track on.
///
/// A chain is read to its end, and then, for each of its entries in order, that entry's chain with all below
/// it. A link, and an entry of an index or a group, that leads to no block is a fault of the track of the
/// block that holds it; a block that breaks its form, that is reached twice or that doesn't suit its chain is
/// one of its own track (this project's profile). The error comes if memory runs out.
pub fn read_tree(
    alloc: Global,
    mut blocks: Vec<Option<CatBlock>>,
    per_track: u8,
) -> Result<Result<Tree, u32>, AllocError>
    requires some { 1 ≤ per_track }
    requires few { length blocks.items < 2 ^ 24 }
    requires sound { AreSound blocks.items }
    ensures { IfOk result (λ read. ReadsTree per_track blocks.items read) }
{
    let count = blocks.len() as u32;
    let read = read_chains(alloc, &mut blocks, per_track)?;
    let branches = match read {
        Ok(branches) => branches,
        Err(track) => return Ok(Err(track)),
    };
    Ok(Ok(Tree {
        per_track,
        blocks: count,
        branches,
    }))
}

// The path of these names.
fn path_of(alloc: Global, names: &[Name8]) -> Result<CatPath, AllocError>
    ensures { IfOk result (λ path. path ≡ way names.now) }
{
    Ok(CatPath {
        names: Names::from_vec(Vec::from_slice(alloc, names)?),
    })
}

// The path of a name and others after it.
fn way_from(alloc: Global, name: Name8, rest: &[Name8]) -> Result<CatPath, AllocError>
    ensures { IfOk result (λ path. path ≡ way (name ∷ rest.now)) }
{
    let mut names = Vec::new(alloc);
    names.push(name)?;
    names.extend_from_slice(rest)?;
    Ok(CatPath {
        names: Names::from_vec(names),
    })
}

impl Tree {
    // The chain of a way that holds an entry under a name, and the place of the entry in it, by their indexes.
    fn entry_below(&self, front: &[Name8], last: Name8) -> Option<(usize, usize)>
        requires tree { AreTree (chains_of self.now.branches) }
        ensures { IsEntryAt self.now.branches (front.now ++ last ∷ []) result }
    {
        let branches = self.branches.as_slice();
        match branch_at(branches, front) {
            Some(k) => {
                let branch = &branches[k];
                match entry_named(branch.chain.level, branch.held.as_slice(), last) {
                    Some(i) => Some((k, i)),
                    None => None,
                }
            }
            None => None,
        }
    }

    /// The chain and the entry at a way, by their indexes; the control entry of a chain is its first.
    pub fn entry_at(&self, names: &[Name8]) -> Option<(usize, usize)>
        requires tree { AreTree (chains_of self.now.branches) }
        ensures { IsEntryAt self.now.branches names.now result }
    {
        match names.split_last() {
            Some((last, front)) => self.entry_below(front, *last),
            None => None,
        }
    }

    /// What stands at a way. The error comes if memory runs out.
    pub fn node_at(&self, alloc: Global, names: &[Name8]) -> Result<Option<CatNode>, AllocError>
        requires tree { AreTree (chains_of self.now.branches) }
        ensures { IfOk result (λ node. node
            ≡ node_at (nodes_in (chains_of self.now.branches)) (way names.now)) }
    {
        match self.entry_at(names) {
            Some((k, i)) => {
                let branches = self.branches.as_slice();
                let branch = &branches[k];
                let held = branch.held.as_slice();
                let node = node_in(alloc, branch.chain.level, &held[i].1)?;
                Ok(Some(node))
            }
            None => Ok(None),
        }
    }

    /// The way for which a path stands, with the true name in the place of an alias at the root. The error
    /// comes if memory runs out.
    #[tactic(auto, unfolding(vol_model::specs::Trees::true_path))]
    pub fn true_path(&self, alloc: Global, path: &CatPath) -> Result<CatPath, AllocError>
        requires tree { AreTree (chains_of self.now.branches) }
        ensures { IfOk result (λ way. way
            ≡ true_path (nodes_in (chains_of self.now.branches)) path.now) }
    {
        let Some((first, rest)) = path.names.as_slice().split_first() else {
            return path_of(alloc, path.names.as_slice());
        };
        let root = [*first];
        match self.node_at(alloc, root.as_slice())? {
            Some(CatNode::Alias { of }) => way_from(alloc, of, rest),
            _ => path_of(alloc, path.names.as_slice()),
        }
    }

    /// The same where one name alone is taken as it stands, so that an alias itself can be named. The error
    /// comes if memory runs out.
    #[tactic(auto, unfolding(vol_model::specs::Trees::named_path))]
    pub fn named_path(&self, alloc: Global, path: &CatPath) -> Result<CatPath, AllocError>
        requires tree { AreTree (chains_of self.now.branches) }
        ensures { IfOk result (λ way. way
            ≡ named_path (nodes_in (chains_of self.now.branches)) path.now) }
    {
        if path.names.len() == 1 {
            path_of(alloc, path.names.as_slice())
        } else {
            self.true_path(alloc, path)
        }
    }

    /// The node at a path, of which a first name that is an alias stands for the true name. A path of one name
    /// that is an alias names the alias itself. The error comes if memory runs out.
    pub fn node(&self, alloc: Global, path: &CatPath) -> Result<Option<CatNode>, AllocError>
        requires tree { AreTree (chains_of self.now.branches) }
        ensures { IfOk result (λ node. node
            ≡ node_at (nodes_in (chains_of self.now.branches))
            (named_path (nodes_in (chains_of self.now.branches)) path.now)) }
    {
        let way = self.named_path(alloc, path)?;
        self.node_at(alloc, way.names.as_slice())
    }

    /// The last name of the k-th node below a path, from 0, in the order of the bytes under which they are
    /// stored: so the newest generation of a group comes first. The root is the empty path. The error comes if
    /// memory runs out.
    pub fn child_at(
        &self,
        alloc: Global,
        path: &CatPath,
        k: u32,
    ) -> Result<Option<Name8>, AllocError>
        requires tree { AreTree (chains_of self.now.branches) }
        ensures { IfOk result (λ name. name
            ≡ child_at (nodes_in (chains_of self.now.branches))
            (true_path (nodes_in (chains_of self.now.branches)) path.now) k) }
    {
        let way = self.true_path(alloc, path)?;
        Ok(self.nth_below(way.names.as_slice(), k as usize))
    }

    // The last name of the k-th node below a way.
    fn nth_below(&self, names: &[Name8], k: usize) -> Option<Name8>
        requires tree { AreTree (chains_of self.now.branches) }
        requires few { k < 2 ^ 32 }
        ensures { result ≡ child_at (nodes_in (chains_of self.now.branches)) (way names.now) k }
    {
        let branches = self.branches.as_slice();
        match branch_at(branches, names) {
            Some(at) => {
                let branch = &branches[at];
                match branch.held.get(k + 1) {
                    Some((_, entry)) => Some(name_in(branch.chain.level, entry.name)),
                    None => None,
                }
            }
            None => None,
        }
    }
}
