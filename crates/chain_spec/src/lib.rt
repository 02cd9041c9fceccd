//! What chains of blocks stand for: directories of partitioned data sets and indexes of a catalog.
//!
//! A chain holds entries in the order of their names. A directory block has a room of 254 bytes, and the
//! last block holds an end entry of 12; a catalog block has a room of 242 bytes and no end entry, in this
//! project's profile of System Control Blocks, GC28-6628. While a change is carried out block by block an
//! entry may stand twice or out of order. So an entry counts only where its name is greater than every
//! name that counts before it.
#![tactic(auto)]

ghost use Rattle.std.specs.Prelude.{◌≡◌, ℕ, ◌++◌, List, Option, Some, length};
ghost use Rattle.chain_spec.specs.Cut.{AllFit, IsCut, needed};
ghost use Rattle.chain_spec.specs.Kept.{Rises, joined, kept};
ghost use Rattle.chain_spec.specs.Store.{Block, reads, stored};

/// For entries of any type, a list has at most one cut, and the cut has as many blocks as the list needs.
pub fn cut_law<E>()
    ensures one { (size : E → ℕ) (room end : ℕ) (xs ys : List (List E)) (list : List E) →
        IsCut size room end xs list → IsCut size room end ys list → xs ≡ ys }
    ensures count { (size : E → ℕ) (room end : ℕ) (xs : List (List E)) (list : List E) →
        IsCut size room end xs list → needed size room end list ≡ length xs }
{}

/// For entries of any type, the kept entries rise, and of rising entries all are kept. A chain of blocks that fit gives the kept entries of
/// the blocks, whatever stands after its end.
pub fn reading_law<E>()
    ensures rising { (name : E → ℕ) (list : List E) → Rises name (kept name list) }
    ensures kept { (name : E → ℕ) (list : List E) → Rises name list → kept name list ≡ list }
    ensures reads { (name size : E → ℕ) (room end : ℕ) (blocks : List (List E)) (behind : List (Option (Block E))) →
        AllFit size room end blocks → reads name (stored blocks ++ behind) ≡ Some (kept name (joined blocks)) }
{}
