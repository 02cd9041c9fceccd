//! A chain of a catalog in memory.
ghost use Rattle.std.specs.Prelude.{◌≡◌, IfOk};
ghost use Rattle.chain_spec.specs.Kept.{kept};
ghost use Rattle.catalog_blocks.specs.Trees.{located_entries};
ghost use Rattle.catalog_plan.specs.Located.{located_number};

use crate::held::{Located, kept_entries};
use catalog_blocks::Chain;
use std::alloc::{AllocError, Global};
use vol_model::Listed;

/// A chain with its entries.
#[derive(Debug, Drop)]
pub struct Branch {
    /// The way to it, its level and its blocks.
    pub chain: Chain,
    /// Its kept entries in the order of their names, the control entry first, each with the number of the
    /// block that holds it.
    pub held: Listed<Located>,
    ghost held_is: { held ≡ kept located_number (located_entries chain.blocks) },
}

impl Branch {
    /// A chain with its entries. The error comes if memory runs out.
    pub fn of(alloc: Global, chain: Chain) -> Result<Branch, AllocError>
        ensures { IfOk result (λ branch. branch.chain ≡ chain) }
    {
        let held = kept_entries(alloc, chain.blocks.as_slice())?;
        Ok(Branch { chain, held })
    }
}
