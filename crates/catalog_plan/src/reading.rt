//! The chains of a catalog, read from its blocks.
ghost use Rattle.std.specs.Prelude.{◌≡◌, ◌++◌, [], ◌-◌, ◌^◌, ◌<◌, ◌≤◌, ℕ, IfOk, length, reverse, suc};
ghost use Rattle.catalog_blocks.specs.Trees.{Store, chain_from, chain_to, chains_from, chains_in, numbers, with_block};
ghost use Rattle.catalog_plan.specs.Located.{bound_of};
ghost use Rattle.catalog_plan.specs.Branches.{chains_of, chains_read, with_chains};
ghost use Rattle.catalog_plan.specs.Left.{without};

use crate::branch::Branch;
use crate::leads::visits_of;
use crate::suiting::{SoFar, bound_after, is_zeros, next_block};
use catalog_blocks::{CatBlock, CatEntries, Chain, ChainBlocks, Lead, Level, Visit};
use std::alloc::{AllocError, Global};
use vol_model::{Listed, Names, Place};

/// Chains of a catalog, in the order in which they are read.
pub type Branches = Listed<Branch>;

// Puts a block at the end of a chain.
fn add_block(so_far: &mut SoFar, number: u32, entries: CatEntries) -> Result<(), AllocError>
    requires { so_far.old.bound ≡ bound_of so_far.old.chain }
    ensures chain { IfOk result (λ _. so_far.new.chain ≡ with_block so_far.old.chain number entries) }
    ensures bound { IfOk result (λ _. so_far.new.bound ≡ bound_of so_far.new.chain) }
{
    let bound = bound_after(so_far.bound, entries.as_slice());
    so_far.chain.blocks.push((number, entries))?;
    so_far.bound = bound;
    Ok(())
}

// A chain, read to its end from blocks that are left, or the track of the first fault. Its blocks are taken.
fn read_chain(
    alloc: Global,
    left: &mut [Option<CatBlock>],
    per_track: u8,
    visit: Visit,
) -> Result<Result<Chain, u32>, AllocError>
    requires some { 1 ≤ per_track }
    requires few { length left.old < 2 ^ 32 - 1 }
    ensures chain { IfOk result (λ read. read
        ≡ chain_from (suc (length left.old)) per_track left.old [] (chain_to visit.lead) visit.lead.place visit.from) }
    ensures left { IfOk result (λ read. IfOk read (λ c. left.new ≡ without (numbers c) left.old)) }
{
    let Visit { lead, mut from } = visit;
    let mut place = lead.place;
    let mut so_far = SoFar {
        chain: Chain {
            names: lead.names,
            level: lead.level,
            blocks: ChainBlocks::new(alloc),
        },
        bound: 0,
    };
    let mut most = left.len() + 1;
    while 0 < most {
        most -= 1;
        let (number, block) = match next_block(left, per_track, &so_far, place, from) {
            Ok(found) => found,
            Err(track) => return Ok(Err(track)),
        };
        let CatBlock { entries, next } = block;
        add_block(&mut so_far, number, entries)?;
        if is_zeros(next) {
            return Ok(Ok(so_far.chain));
        }
        place = next;
        from = number / u32::from(per_track);
    }
    Ok(Err(from))
}

// The chains that are to be read from blocks that are left, the last of these first, with all below them; or
// the track of the first fault.
fn read_all(
    alloc: Global,
    left: &mut [Option<CatBlock>],
    per_track: u8,
    mut visits: Vec<Visit>,
) -> Result<Result<Branches, u32>, AllocError>
    requires some { 1 ≤ per_track }
    requires few { length left.old < 2 ^ 32 - 1 }
    ensures { IfOk result (λ read. chains_read read
        ≡ chains_from (suc (length left.old)) per_track left.old [] (reverse visits.items)) }
{
    let mut branches = Branches::new(alloc);
    let mut most = left.len() + 1;
    while 0 < most {
        most -= 1;
        let visit = match visits.pop() {
            Some(visit) => visit,
            None => return Ok(Ok(branches)),
        };
        let read = read_chain(alloc, left, per_track, visit)?;
        let chain = match read {
            Ok(chain) => chain,
            Err(track) => return Ok(Err(track)),
        };
        let branch = Branch::of(alloc, chain)?;
        let below = visits_of(alloc, per_track, &branch)?;
        branches.push(branch)?;
        visits = with_first(visits, below)?;
    }
    Ok(at_end(branches, visits))
}

// The chains that were read, where none is to be read any more; else the fault is that of the next.
fn at_end(branches: Branches, mut visits: Vec<Visit>) -> Result<Branches, u32>
    ensures { (per : ℕ) (left : Store) → chains_read result
        ≡ with_chains (chains_of branches) (chains_from 0 per left [] (reverse visits.items)) }
{
    match visits.pop() {
        Some(visit) => Err(visit.from),
        None => Ok(branches),
    }
}

// Chains that are to be read, the last first, with these before all others.
fn with_first(mut visits: Vec<Visit>, mut below: Vec<Visit>) -> Result<Vec<Visit>, AllocError>
    ensures { IfOk result (λ all. reverse all.items ≡ below.items ++ reverse visits.items) }
{
    while let Some(visit) = below.pop() {
        visits.push(visit)?;
    }
    Ok(visits)
}

/// The chains of a catalog of these blocks, of which a track holds so many, or the track of the first fault,
/// from the catalog's first track on. The blocks of the chains are taken from these. The error comes if memory
/// runs out.
#[tactic(auto, unfolding(catalog_blocks::specs::Trees::chains_in))]
pub(crate) fn read_chains(
    alloc: Global,
    blocks: &mut [Option<CatBlock>],
    per_track: u8,
) -> Result<Result<Branches, u32>, AllocError>
    requires some { 1 ≤ per_track }
    requires few { length blocks.old < 2 ^ 24 }
    ensures { IfOk result (λ read. chains_read read ≡ chains_in per_track blocks.old) }
{
    let mut visits = Vec::new(alloc);
    visits.push(Visit {
        lead: Lead {
            names: Names::new(alloc),
            level: Level::Root,
            place: Place { tt: 0, r: 1 },
        },
        from: 0,
    })?;
    read_all(alloc, blocks, per_track, visits)
}
