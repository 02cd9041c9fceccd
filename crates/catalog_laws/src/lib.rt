//! Laws of a catalog in blocks: which chains a store of blocks holds, what is left of them while one of
//! them changes, and the tree of nodes for which they stand.
#![tactic(auto)]

ghost use Rattle.std.specs.Prelude.{◌≡◌, ◌⊎◌, ℕ, ◌+◌, ◌^◌, ◌≤◌, ◌<◌, ◌++◌, ◌∷◌, [], List, None, Ok, Some, drop, length, option_map, slice_get, take, true};
ghost use Rattle.std.specs.List.{AllByRecursion, filter_map, flat_map, sum_by};
ghost use Rattle.chain_spec.specs.Cut.{needed};
ghost use Rattle.chain_spec.specs.Kept.{Rises, joined, kept};
ghost use Rattle.ebcdic_names.specs.declared.names.Name8.{Name8};
ghost use Rattle.vol_model.specs.Lawful.{IsLawfulTree};
ghost use Rattle.vol_model.specs.Slots.{catalog_needed};
ghost use Rattle.vol_model.specs.Trees.{child_at, has_index, node_at, nodes_below, way, with_node, without_node};
ghost use Rattle.vol_model.specs.declared.catalogs.CatNode.{CatNode};
ghost use Rattle.catalog_blocks.specs.Blocks.{cat_size, name_number};
ghost use Rattle.catalog_blocks.specs.declared.blocks.CatEntry.{CatEntry};
ghost use Rattle.catalog_blocks.specs.declared.chains.Level.{Level};
ghost use Rattle.catalog_blocks.specs.declared.chains.Chain.{Chain};
ghost use Rattle.catalog_blocks.specs.declared.chains.Lead.{Lead};
ghost use Rattle.catalog_blocks.specs.Trees.{Store, chain_nodes, chains_in, entries_of, lead_in, name_in, names_to, node_in, nodes_in, numbers};
ghost use Rattle.catalog_laws.specs.Forests.{AgreeAt, AreApart, AreChains, all_numbers, free_below, leads_of};
ghost use Rattle.catalog_laws.specs.Nodes.{AreCut, AreSound, AreTree, TreeGains, TreeLoses, HasChain, HasEntry, IndexAdded, IndexDropped, IsTrueChain, IsTrueList, LeadsTo, WaysDiffer, blocks_needed, planned_chain};
ghost use Rattle.catalog_laws.specs.Writes.{OneChainGained, OneChainLost, IsChainPlan, IsChainRepair, IsLostChain, IsNewChain, OneChainReads, lists_of, with_writes};

/// The chains that are read of a store are those that stand in it from the root on, no block being
/// reached twice.
pub fn chains_law()
    ensures stand { (per : ℕ) (store : Store) (cs : List Chain) →
        chains_in per store ≡ Ok cs → AreChains per store cs }
    ensures are_read { (per : ℕ) (store : Store) (cs : List Chain) →
        AreChains per store cs → chains_in per store ≡ Ok cs }
{}

/// A store holds the same chains when blocks change that no chain reaches.
pub fn frame_law()
    ensures { (per : ℕ) (store new : Store) (cs : List Chain) →
        AreChains per store cs → AgreeAt (all_numbers cs) store new → AreChains per new cs }
{}

/// After any first writes of a plan for one chain that chain reads as before, or with the one entry
/// changed, which leads to no chain; all other chains stand as they did.
pub fn plan_law()
    ensures { (per blocks : ℕ) (store : Store) (before : List Chain) (c : Chain)
        (after : List Chain) (fresh : List ℕ) (list new : List CatEntry)
        (ws : List (ℕ × List CatEntry)) → 1 ≤ per → AreChains per store (before ++ c ∷ after)
        → AreApart [] (all_numbers before ++ ((numbers c ++ fresh) ++ all_numbers after))
        → AllByRecursion (λ (k : ℕ). k < length store) (numbers c ++ fresh)
        → IsChainPlan c fresh list new blocks ws
        → filter_map (lead_in c) (drop 1 new) ≡ leads_of c → (k : ℕ)
        → OneChainReads per (with_writes per (numbers c ++ fresh) blocks (take k ws) store) before c after list
        ⊎ OneChainReads per (with_writes per (numbers c ++ fresh) blocks (take k ws) store) before c after new }
{}

/// The same where the entry that comes leads to a new chain, whose block was written before.
pub fn add_law()
    ensures { (per blocks : ℕ) (store : Store) (before : List Chain) (c : Chain)
        (after : List Chain) (fresh : List ℕ) (list new : List CatEntry)
        (ws : List (ℕ × List CatEntry)) → 1 ≤ per → AreChains per store (before ++ c ∷ after)
        → AreApart [] (all_numbers before ++ ((numbers c ++ fresh) ++ all_numbers after))
        → AllByRecursion (λ (k : ℕ). k < length store) (numbers c ++ fresh)
        → IsChainPlan c fresh list new blocks ws
        → (e : Chain) → IsNewChain per store before c after (numbers c ++ fresh) new e → (k : ℕ)
        → OneChainReads per (with_writes per (numbers c ++ fresh) blocks (take k ws) store) before c after list
        ⊎ OneChainGained per (with_writes per (numbers c ++ fresh) blocks (take k ws) store) before c after new e }
{}

/// The same where the entry that goes leads to a chain with no chain below it.
pub fn drop_law()
    ensures { (per blocks : ℕ) (store : Store) (before : List Chain) (c : Chain)
        (after : List Chain) (fresh : List ℕ) (list new : List CatEntry)
        (ws : List (ℕ × List CatEntry)) → 1 ≤ per → AreChains per store (before ++ c ∷ after)
        → AreApart [] (all_numbers before ++ ((numbers c ++ fresh) ++ all_numbers after))
        → AllByRecursion (λ (k : ℕ). k < length store) (numbers c ++ fresh)
        → IsChainPlan c fresh list new blocks ws
        → (g : IsLostChain per store c new) → (k : ℕ)
        → OneChainReads per (with_writes per (numbers c ++ fresh) blocks (take k ws) store) before c after list
        ⊎ OneChainLost per store (with_writes per (numbers c ++ fresh) blocks (take k ws) store) before c after
        new g.lead }
{}

/// After any first writes of a plan by which one chain comes to be cut as its entries need, it reads as
/// before, and so do all others.
pub fn repair_law()
    ensures { (per blocks : ℕ) (store : Store) (before : List Chain) (c : Chain)
        (after : List Chain) (ws : List (ℕ × List CatEntry)) → 1 ≤ per
        → AreChains per store (before ++ c ∷ after)
        → AreApart [] (all_numbers before ++ ((numbers c ++ []) ++ all_numbers after))
        → AllByRecursion (λ (k : ℕ). k < length store) (numbers c ++ [])
        → IsChainRepair c blocks ws → (k : ℕ)
        → OneChainReads per (with_writes per (numbers c ++ []) blocks (take k ws) store) before c after
        (kept name_number (joined (lists_of c))) }
{}

/// The chains of a store of blocks that were read from bytes are those of a tree, and no more of its
/// blocks are theirs than there are; the tree is lawful.
pub fn lawful_law()
    ensures tree { (per : ℕ) (store : Store) (cs : List Chain) →
        AreSound store → AreChains per store cs → AreTree cs }
    ensures few { (per : ℕ) (store : Store) (cs : List Chain) →
        AreChains per store cs → length (all_numbers cs) ≤ length store }
    ensures lawful { (per : ℕ) (store : Store) (cs : List Chain) → AreSound store
        → length store < 2 ^ 24 → AreChains per store cs → IsLawfulTree (length store) (nodes_in cs) }
{}

/// The blocks that no chain reaches are as many as the chains leave, and the first of them may be taken
/// for any chain.
pub fn free_law()
    ensures count { (per : ℕ) (store : Store) (cs : List Chain) → AreChains per store cs →
        length (free_below (length store) (all_numbers cs)) + length (all_numbers cs) ≡ length store }
    ensures fresh { (per : ℕ) (store : Store) (before : List Chain) (c : Chain)
        (after : List Chain) → AreChains per store (before ++ c ∷ after)
        → (fresh more : List ℕ)
        → free_below (length store) (all_numbers (before ++ c ∷ after)) ≡ fresh ++ more
        → AreApart [] (all_numbers before ++ ((numbers c ++ fresh) ++ all_numbers after))
        × AllByRecursion (λ (k : ℕ). k < length store) (numbers c ++ fresh) }
{}

/// The ways to the nodes of a tree differ. At the way to each entry of a chain stands its node, and below
/// the way to the chain these nodes, in the order of the entries; nothing stands under a name that the
/// chain doesn't have, nor below a way to which no chain belongs. What stands at a way is the node of an
/// entry, and if it has an index, a chain is its own.
pub fn nodes_law()
    ensures ways { (cs : List Chain) → AreTree cs → WaysDiffer (flat_map chain_nodes cs) }
    ensures node { (before : List Chain) (c : Chain) (after : List Chain) (us : List CatEntry)
        (e : CatEntry) (vs : List CatEntry) → AreTree (before ++ c ∷ after)
        → entries_of c ≡ us ++ e ∷ vs
        → node_at (nodes_in (before ++ c ∷ after)) (way (names_to c e)) ≡ Some (node_in c.level e) }
    ensures below { (before : List Chain) (c : Chain) (after : List Chain)
        → AreTree (before ++ c ∷ after)
        → nodes_below (nodes_in (before ++ c ∷ after)) (way c.names) ≡ chain_nodes c }
    ensures child { (before : List Chain) (c : Chain) (after : List Chain) (k : ℕ)
        → AreTree (before ++ c ∷ after) → child_at (nodes_in (before ++ c ∷ after)) (way c.names) k
        ≡ option_map (λ (e : CatEntry). name_in c.level e.name) (slice_get (entries_of c) k) }
    ensures leaf { (cs : List Chain) (ps : List Name8) →
        AllByRecursion (λ (c : Chain). c.names ≡ ps → ⊥) cs
        → nodes_below (nodes_in cs) (way ps) ≡ [] }
    ensures none { (before : List Chain) (c : Chain) (after : List Chain) (n : Name8)
        → AreTree (before ++ c ∷ after)
        → AllByRecursion (λ (e : CatEntry). name_in c.level e.name ≡ n → ⊥) (entries_of c)
        → node_at (nodes_in (before ++ c ∷ after)) (way (c.names ++ n ∷ [])) ≡ None }
    ensures entry { (cs : List Chain) (ps : List Name8) (node : CatNode) →
        node_at (nodes_in cs) (way ps) ≡ Some node → HasEntry cs (way ps, node) }
    ensures chain { (cs : List Chain) → AreTree cs → (ps : List Name8) (node : CatNode) →
        node_at (nodes_in cs) (way ps) ≡ Some node → has_index node ≡ true
        → (level : Level) × LeadsTo node level × HasChain cs ps level }
{}

/// The blocks that a tree needs are those that the entries of its chains need: as many as the chains have,
/// where all are cut as they need. The same where one chain is to hold a list.
pub fn room_law()
    ensures needs { (cs : List Chain) → AreTree cs →
        catalog_needed (nodes_in cs) ≡ sum_by blocks_needed cs }
    ensures cut { (cs : List Chain) → AreTree cs → AreCut cs →
        catalog_needed (nodes_in cs) ≡ length (all_numbers cs) }
    ensures planned { (before : List Chain) (c : Chain) (after : List Chain)
        (list : List CatEntry) → Rises name_number list
        → AreTree (before ++ planned_chain c list ∷ after) → AreCut before → AreCut after
        → catalog_needed (nodes_in (before ++ planned_chain c list ∷ after))
        ≡ length (all_numbers before) + (needed cat_size 242 0 list + length (all_numbers after)) }
{}

/// A chain that is to hold a list has the entries of that, after the control entry.
pub fn planned_law()
    ensures chain { (c : Chain) (list : List CatEntry) →
        IsTrueList c.level list → IsTrueChain (planned_chain c list) }
    ensures entries { (c : Chain) (list : List CatEntry) →
        Rises name_number list → entries_of (planned_chain c list) ≡ drop 1 list }
{}

/// A tree is one again when a chain gives way to another that leads to the same chains, to one more or to
/// one less, below which there is none.
pub fn tree_law()
    ensures changes { (before : List Chain) (c d : Chain) (after : List Chain) →
        AreTree (before ++ c ∷ after) → IsTrueChain d → d.names ≡ c.names → d.level ≡ c.level
        → leads_of d ≡ leads_of c → AreTree (before ++ d ∷ after) }
    ensures gains { (c d e : Chain) (us : List Lead) (lead : Lead) (vs : List Lead) →
        d.names ≡ c.names → d.level ≡ c.level → leads_of c ≡ us ++ vs
        → leads_of d ≡ us ++ lead ∷ vs → e.names ≡ lead.names → e.level ≡ lead.level
        → leads_of e ≡ [] → (before after : List Chain) → AreTree (before ++ c ∷ after)
        → IsTrueChain d → IsTrueChain e → TreeGains before d after e }
    ensures loses { (c d : Chain) (us : List Lead) (lead : Lead) (vs : List Lead) →
        d.names ≡ c.names → d.level ≡ c.level → leads_of c ≡ us ++ lead ∷ vs
        → leads_of d ≡ us ++ vs → (before after : List Chain) → AreTree (before ++ c ∷ after)
        → IsTrueChain d
        → ((e : Chain) (fs gs : List Chain) → after ≡ fs ++ e ∷ gs → e.names ≡ lead.names
        → leads_of e ≡ []) → TreeLoses before d after lead }
{}

/// When an entry comes to a chain, goes or gives way to another of its name, so does its node. A chain
/// without entries has no nodes.
pub fn step_law()
    ensures comes { (before : List Chain) (c d : Chain) (after : List Chain) →
        d.names ≡ c.names → d.level ≡ c.level
        → (us : List CatEntry) (e : CatEntry) (vs : List CatEntry) → AreTree (before ++ d ∷ after)
        → entries_of c ≡ us ++ vs → entries_of d ≡ us ++ e ∷ vs → nodes_in (before ++ d ∷ after)
        ≡ with_node (way (names_to c e)) (node_in c.level e) (nodes_in (before ++ c ∷ after)) }
    ensures goes { (before : List Chain) (c d : Chain) (after : List Chain) →
        d.names ≡ c.names → d.level ≡ c.level
        → (us : List CatEntry) (e : CatEntry) (vs : List CatEntry) → AreTree (before ++ c ∷ after)
        → entries_of c ≡ us ++ e ∷ vs → entries_of d ≡ us ++ vs → nodes_in (before ++ d ∷ after)
        ≡ without_node (way (names_to c e)) (nodes_in (before ++ c ∷ after)) }
    ensures changes { (before : List Chain) (c d : Chain) (after : List Chain) →
        d.names ≡ c.names → d.level ≡ c.level
        → (us : List CatEntry) (e : CatEntry) (vs : List CatEntry) (f : CatEntry) → f.name ≡ e.name
        → AreTree (before ++ c ∷ after) → entries_of c ≡ us ++ e ∷ vs
        → entries_of d ≡ us ++ f ∷ vs → nodes_in (before ++ d ∷ after)
        ≡ with_node (way (names_to c e)) (node_in c.level f) (nodes_in (before ++ c ∷ after)) }
    ensures leaf { (front : List Chain) (e : Chain) (rest : List Chain) →
        entries_of e ≡ [] → nodes_in (front ++ e ∷ rest) ≡ nodes_in (front ++ rest) }
{}

/// The tree when an index comes with its entry, and when one without names goes with it: its nodes are
/// those with one more, or one less.
pub fn index_law()
    ensures comes { (before : List Chain) (c : Chain) (after : List Chain) (list us : List CatEntry)
        (e : CatEntry) (vs : List CatEntry) (lead : Lead) → AreTree (before ++ c ∷ after)
        → IsTrueList c.level list → lead_in c e ≡ Some lead → (n : Chain) → entries_of c ≡ us ++ vs
        → drop 1 list ≡ us ++ e ∷ vs → IsTrueChain n → n.names ≡ lead.names → n.level ≡ lead.level
        → entries_of n ≡ [] → IndexAdded before c after list e n }
    ensures goes { (before : List Chain) (c : Chain) (after : List Chain) (list us : List CatEntry)
        (e : CatEntry) (vs : List CatEntry) (lead : Lead) → AreTree (before ++ c ∷ after)
        → IsTrueList c.level list → lead_in c e ≡ Some lead → entries_of c ≡ us ++ e ∷ vs
        → drop 1 list ≡ us ++ vs
        → nodes_below (nodes_in (before ++ c ∷ after)) (way lead.names) ≡ []
        → IndexDropped before c after list e lead }
{}

/// A catalog has the blocks that a changed tree needs exactly where the changed chain's own blocks and
/// those that no chain reaches are as many as the chain needs, and one more for a new chain; all other
/// chains are cut as they need.
pub fn full_law()
    ensures full { (per : ℕ) (store : Store) (before : List Chain) (c : Chain) (after : List Chain)
        (list : List CatEntry) → Rises name_number list → AreChains per store (before ++ c ∷ after)
        → AreTree (before ++ planned_chain c list ∷ after) → AreCut before → AreCut after
        → catalog_needed (nodes_in (before ++ planned_chain c list ∷ after))
        + (length (numbers c) + length (free_below (length store) (all_numbers (before ++ c ∷ after))))
        ≡ length store + needed cat_size 242 0 list }
    ensures index { (per : ℕ) (store : Store) (before : List Chain) (c : Chain) (after : List Chain)
        (list : List CatEntry) → Rises name_number list → AreChains per store (before ++ c ∷ after)
        → (front : List Chain) (n : Chain) (rest : List Chain) → after ≡ front ++ rest
        → AreTree (before ++ planned_chain c list ∷ (front ++ n ∷ rest)) → AreCut before → AreCut after
        → blocks_needed n ≡ 1
        → catalog_needed (nodes_in (before ++ planned_chain c list ∷ (front ++ n ∷ rest)))
        + (length (numbers c) + length (free_below (length store) (all_numbers (before ++ c ∷ after))))
        ≡ length store + (1 + needed cat_size 242 0 list) }
{}
