//! Passes over the records of the parts in front of one that is written.
ghost use Rattle.std.specs.Prelude.{◌≡◌, ◌∷◌, ℕ, List, if◌then◌else◌, IfOk};
ghost use Rattle.iebgener_util.specs.Editing.{groups_in};
ghost use Rattle.iebgener_util.specs.SkippedGroups.{left_by};

use crate::editing::groups_behind;
use crate::orders::Order;
use crate::requests::Edit;
use std::alloc::{AllocError, Global};

/// The records that are still to be passed over.
#[derive(Clone, Copy)]
pub struct SkippedGroups<'a> {
    /// What is left of the groups of a part.
    pub groups: &'a [Edit],
    /// The orders after it.
    pub orders: &'a [Order],
}

// The groups of the part that an order writes.
fn groups_in(order: &Order) -> &[Edit]
    ensures { result.now ≡ groups_in order.now }
{
    match order {
        Order::Write(part) => part.edits.as_slice(),
        Order::Fault(_) => &[],
    }
}

impl SkippedGroups<'_> {
    /// Whether a record belongs to a part in front, which is passed over then. The one error is want of memory.
    #[tactic(auto, unfolding(crate::specs::SkippedGroups::left_by))]
    pub fn take(&mut self, alloc: Global, rec: &[u8]) -> Result<bool, AllocError>
        ensures { IfOk result (λ passed. (recs : List (List ℕ)) → left_by self.old (rec.now ∷ recs) ≡ (if passed then left_by self.new recs else rec.now ∷ left_by self.new recs)) }
    {
        if let Some((edit, others)) = self.groups.split_first() {
            self.groups = groups_behind(alloc, edit, self.groups, others, rec)?;
            return Ok(true);
        }
        let Some((order, orders)) = self.orders.split_first() else {
            return Ok(false);
        };
        let groups = groups_in(order);
        if let Some((edit, others)) = groups.split_first() {
            self.groups = groups_behind(alloc, edit, groups, others, rec)?;
            self.orders = orders;
        }
        Ok(true)
    }
}
