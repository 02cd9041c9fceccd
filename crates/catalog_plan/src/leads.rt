//! The chains to which the entries of a chain lead.
ghost use Rattle.std.specs.Prelude.{◌≡◌, ◌++◌, ◌≤◌, IfOk, Some, drop};
ghost use Rattle.catalog_blocks.specs.Trees.{lead_in, names_to, visits_of};
ghost use Rattle.catalog_plan.specs.Left.{visit_by, visits_by};

use crate::branch::Branch;
use crate::entries::{name_in, node_in};
use crate::held::Located;
use catalog_blocks::{CatEntry, Chain, Lead, Level, Visit};
use std::alloc::{AllocError, Global};
use vol_model::{CatNode, Names};

// The way to an entry of a chain.
pub(crate) fn names_to(alloc: Global, chain: &Chain, entry: &CatEntry) -> Result<Names, AllocError>
    ensures { IfOk result (λ names. names ≡ names_to chain.now entry.now) }
{
    let mut names = Names::from_vec(Vec::from_slice(alloc, chain.names.as_slice())?);
    names.push(name_in(chain.level, entry.name))?;
    Ok(names)
}

// The chain to which an entry leads.
fn lead_to(
    alloc: Global,
    chain: &Chain,
    entry: &CatEntry,
    level: Level,
) -> Result<Option<Lead>, AllocError>
    ensures { IfOk result (λ lead. lead
        ≡ Some (record { names = names_to chain.now entry.now; level = level; place = entry.now.place })) }
{
    Ok(Some(Lead {
        names: names_to(alloc, chain, entry)?,
        level,
        place: entry.place,
    }))
}

// The chain to which an entry leads, if it is that of an index or a group.
fn lead_in(alloc: Global, chain: &Chain, entry: &CatEntry) -> Result<Option<Lead>, AllocError>
    ensures { IfOk result (λ lead. lead ≡ lead_in chain.now entry.now) }
{
    match node_in(alloc, chain.level, entry)? {
        CatNode::Index => lead_to(alloc, chain, entry, Level::Plain),
        CatNode::Group { .. } => lead_to(alloc, chain, entry, Level::Generation),
        _ => Ok(None),
    }
}

// Puts the chain to which an entry leads after others that are to be read.
fn push_visit(
    alloc: Global,
    chain: &Chain,
    entry: &CatEntry,
    from: u32,
    visits: &mut Vec<Visit>,
) -> Result<(), AllocError>
    ensures { IfOk result (λ _. visits.new.items ≡ visits.old.items ++ visit_by from (lead_in chain.now entry.now)) }
{
    if let Some(lead) = lead_in(alloc, chain, entry)? {
        visits.push(Visit { lead, from })?;
    }
    Ok(())
}

// All but the first of these entries.
fn after_first(held: &[Located]) -> &[Located]
    ensures { result.now ≡ drop 1 held.now }
{
    match held.split_first() {
        Some((_, rest)) => rest,
        None => &[],
    }
}

// The chains to which these entries of a chain lead, in order.
fn visits_by(
    alloc: Global,
    per_track: u8,
    chain: &Chain,
    held: &[Located],
) -> Result<Vec<Visit>, AllocError>
    requires { 1 ≤ per_track }
    ensures { IfOk result (λ visits. visits.items ≡ visits_by per_track chain.now held.now) }
{
    let mut visits = Vec::new(alloc);
    for (number, entry) in held {
        push_visit(
            alloc,
            chain,
            entry,
            *number / u32::from(per_track),
            &mut visits,
        )?;
    }
    Ok(visits)
}

/// The chains to which the entries of a chain lead, in order. The error comes if memory runs out.
pub(crate) fn visits_of(
    alloc: Global,
    per_track: u8,
    branch: &Branch,
) -> Result<Vec<Visit>, AllocError>
    requires { 1 ≤ per_track }
    ensures { IfOk result (λ visits. visits.items ≡ visits_of per_track branch.now.chain) }
{
    visits_by(
        alloc,
        per_track,
        &branch.chain,
        after_first(branch.held.as_slice()),
    )
}
