//! Data sets in the order of their names.
ghost use Rattle.std.specs.Prelude.{◌≡◌, IfOk};
ghost use Rattle.vol_model.specs.Order.{in_order, rank};

use crate::lists::{Test, is_less, where_passed};
use std::alloc::{AllocError, Global};
use vol_model::{DataSet, DataSets};

/// The data sets in the order of the bytes of their names.
pub fn in_order(alloc: Global, sets: &[DataSet]) -> Result<DataSets, AllocError>
    ensures { IfOk result (λ after. after ≡ in_order sets.now) }
{
    let mut ordered = DataSets::new(alloc);
    for k in 0..sets.len() {
        ordered = where_passed(alloc, ordered, sets, &OfRank { sets, k })?;
    }
    Ok(ordered)
}

// How many of these data sets have a name that stands before that of one.
#[tactic(auto, unfolding(vol_model::specs::Order::rank))]
fn rank(sets: &[DataSet], set: &DataSet) -> usize
    ensures { result ≡ rank sets.now set.now }
{
    sets.iter()
        .filter(|other| is_less(other.name.bytes.as_slice(), set.name.bytes.as_slice()))
        .count()
}

// The data sets before which so many stand.
#[derive(Drop)]
struct OfRank<'a> {
    sets: &'a [DataSet],
    k: usize,
}

impl Test<DataSet> for OfRank<'_> {
    ghost use Rattle.std.specs.Prelude.{◌==◌};
    ghost use Rattle.vol_model.specs.Order.{rank};

    ghost passes = { λ test set. rank test.sets.now set == test.k };

    fn passes(&self, set: &DataSet) -> bool {
        rank(self.sets, set) == self.k
    }
}
