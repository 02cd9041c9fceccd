//! What the writes of a plan make of a catalog.
ghost use Rattle.std.specs.Prelude.{◌≡◌, ℕ, ◌≤◌, ◌<◌, ◌++◌, ◌∷◌, [], List, drop, length};
ghost use Rattle.std.specs.List.{AllByRecursion, filter_map};
ghost use Rattle.catalog_blocks.specs.declared.blocks.CatEntry.{CatEntry};
ghost use Rattle.catalog_blocks.specs.declared.chains.Chain.{Chain};
ghost use Rattle.catalog_blocks.specs.Trees.{Store, entries_of, lead_in, numbers};
ghost use Rattle.catalog_laws.specs.Forests.{AreApart, AreChains, all_numbers, leads_of};
ghost use Rattle.catalog_laws.specs.Writes.{IsChainPlan, lists_of};
ghost use Rattle.catalog_plan.specs.declared.writes.BlockWrite.{BlockWrite};
ghost use Rattle.catalog_plan.specs.Stops.{BeginsChain, IsTurned};
ghost use Rattle.catalog_plan.specs.Cuts.{cut_chain};
ghost use Rattle.catalog_plan.specs.Thinned.{AreThinned};

/// What the writes of a plan for one chain leave of a catalog, without those that change nothing, where the
/// entry that changes leads to no chain. After any first of them its nodes are those of the old list or those
/// of the new one; after all of them the chain stands in the blocks of the plan, and all others stand as they
/// did.
pub fn turn_law()
    ensures { (per blocks : ℕ) (store : Store) (before : List Chain) (c : Chain)
        (after : List Chain) (fresh : List ℕ) (list new : List CatEntry)
        (ws : List (ℕ × List CatEntry)) (out : List BlockWrite) → 1 ≤ per
        → AreChains per store (before ++ c ∷ after)
        → AreApart [] (all_numbers before ++ ((numbers c ++ fresh) ++ all_numbers after))
        → AllByRecursion (λ (k : ℕ). k < length store) (numbers c ++ fresh)
        → (plan : IsChainPlan c fresh list new blocks ws)
        → AreThinned per (lists_of c) (numbers c ++ fresh) blocks ws out
        → filter_map (lead_in c) (drop 1 new) ≡ leads_of c → entries_of c ≡ drop 1 list
        → BeginsChain c plan.plan.cut
        → IsTurned per store out (before ++ c ∷ after)
        (before ++ cut_chain c (numbers c ++ fresh) plan.plan.cut ∷ after) }
{}
