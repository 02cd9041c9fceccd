//! The slots of the data sets in the order of their names.
ghost use Rattle.std.specs.Prelude.{◌≡◌, ◌≤◌, ◌<◌, ◌==◌, List, count_by, length, position, vec_len};
ghost use Rattle.std.specs.List.{insert};
ghost use Rattle.std.specs.Vec.{vec_capacity};
ghost use Rattle.std.specs.Cmp.Lexicographic.{slice_cmp};
ghost use Rattle.std.specs.Ordering.{is_lt, nat_cmp};
ghost use Rattle.dscb_codec.specs.declared.Dscb.{Dscb};
ghost use Rattle.vtoc_index.specs.Names.{AreByName, IsEntered, IsForgotten, IsRenamed, name_at, or_zeros};

use crate::vol::Vol;
use dscb_codec::Dscb;

// The name of the data set whose format 1 a slot holds; zeros where it holds none.
#[tactic(auto, unfolding(crate::specs::Names::or_zeros))]
pub(crate) fn name_in(slots: &[Dscb], slot: u32) -> [u8; 44]
    ensures { result ≡ or_zeros (name_at slots.now slot) }
{
    match slots.get(slot as usize) {
        Some(Dscb::F1(set)) => set.name,
        _ => [0; 44],
    }
}

/// Moves a slot of a data set in the order of names to the place of the name that it has now, which no other has.
///
/// The slot was in the order by the name that it had before; where it wasn't, the order is no order any more. It
/// takes no memory.
pub fn reorder(vol: &mut Vol, slot: u32)
    ensures names { (before : List Dscb) → AreByName (name_at before) vol.old.by_name.items
        → IsRenamed slot before vol.old.slots.items
        → AreByName (name_at vol.new.slots.items) vol.new.by_name.items }
    ensures others { vol.new ≡ record vol.old { by_name = vol.new.by_name } }
{
    let Some(place) = place_of(&vol.by_name, slot) else {
        return;
    };
    vol.by_name.remove(place);
    let place = place_for(&vol.slots, &vol.by_name, &name_in(&vol.slots, slot));
    insert_at(&mut vol.by_name, place, slot);
}

/// Puts a slot that got a format 1 into the order of names, at the place of its name, which no other slot has.
///
/// It takes no memory: the order has room for one slot more.
pub fn enter_name(vol: &mut Vol, slot: u32)
    requires room { vec_len vol.old.by_name < vec_capacity vol.old.by_name }
    ensures names { (before : List Dscb) → AreByName (name_at before) vol.old.by_name.items
        → IsEntered slot before vol.old.slots.items
        → AreByName (name_at vol.new.slots.items) vol.new.by_name.items }
    ensures others { vol.new ≡ record vol.old { by_name = vol.new.by_name } }
{
    let place = place_for(&vol.slots, &vol.by_name, &name_in(&vol.slots, slot));
    insert_at(&mut vol.by_name, place, slot);
}

/// Takes a slot that held a format 1, and holds none any more, out of the order of names.
///
/// Where the slot wasn't in the order, nothing changes. It takes no memory.
pub fn forget_name(vol: &mut Vol, slot: u32)
    ensures names { (before : List Dscb) → AreByName (name_at before) vol.old.by_name.items
        → IsForgotten slot before vol.old.slots.items
        → AreByName (name_at vol.new.slots.items) vol.new.by_name.items }
    ensures others { vol.new ≡ record vol.old { by_name = vol.new.by_name } }
{
    if let Some(place) = place_of(&vol.by_name, slot) {
        vol.by_name.remove(place);
    }
}

// Puts a slot at a place of a list that has room for it.
fn insert_at(slots: &mut Vec<u32>, place: usize, slot: u32)
    requires place { place ≤ vec_len slots.old }
    requires room { vec_len slots.old < vec_capacity slots.old }
    ensures { slots.new.items ≡ insert slots.old.items place slot }
{
    let _ = slots.insert(place, slot);
}

// Where a slot stands in an order of slots.
fn place_of(by_name: &[u32], slot: u32) -> Option<usize>
    ensures { result ≡ position (λ s. s == slot) by_name.now }
{
    by_name.iter().position(|other| *other == slot)
}

// Whether the name that a slot has stands before this one.
pub(crate) fn is_before(slots: &[Dscb], slot: u32, name: &[u8; 44]) -> bool
    ensures { result ≡ is_lt (slice_cmp nat_cmp (or_zeros (name_at slots.now slot)) name.now) }
{
    name_in(slots, slot).cmp(name).is_lt()
}

// How many of these slots have a name that stands before this one.
fn place_for(slots: &[Dscb], by_name: &[u32], name: &[u8; 44]) -> usize
    ensures count { result ≡ count_by (λ s. is_lt (slice_cmp nat_cmp
        (or_zeros (name_at slots.now s)) name.now)) by_name.now }
    ensures bound { result ≤ length by_name.now }
{
    by_name
        .iter()
        .filter(|slot| is_before(slots, **slot, name))
        .count()
}
