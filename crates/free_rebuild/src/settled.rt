//! Whether the VTOC of a mounted volume is settled.
ghost use Rattle.std.specs.Prelude.{◌≡◌, ℕ, ◌<◌, ◌≤◌, ◌+◌, ◌++◌, List, Some, Ok, count_by, false, length, slice_get};
ghost use Rattle.std.specs.List.{list_all};
ghost use Rattle.std.specs.Option.{option_map_or};
ghost use Rattle.hall_core.specs.Facts.{Attached};
ghost use Rattle.pack_spec.specs.FreeChain.{entries_in, entries_of, next_free};
ghost use Rattle.pack_spec.specs.Label.{heads_of};
ghost use Rattle.pack_spec.specs.Rules.{is_f3};
ghost use Rattle.pack_spec.specs.Settled.{head_in, is_f5};
ghost use Rattle.pack_spec.specs.declared.slot.VtocSlot.{VtocSlot};
ghost use Rattle.vtoc_index.specs.Index.{IsMounted, IsOfUnit};
ghost use Rattle.free_rebuild.specs.Chain.{space_of};
ghost use Rattle.free_rebuild.specs.Settled.{are_settled, has_head, has_no_extra, has_space, is_chain, is_kept, counts_match, is_settled_vtoc, is_space, lists, next_linked, slots_held};

use crate::highest::highest_in;
use crate::slots::{free_count, is_extra, next_open};
use crate::space::{dscbs_for, space_dscb};
use dscb_codec::{Dscb, F4, F5};
use vtoc_index::{Vol, slot_address};

// The bit X'04' of an interrupted update, and X'80', by which format 5 doesn't show the free space.
const BITS: u8 = 0x84;

/// Whether the VTOC of a mounted volume is settled, as its index shows it.
///
/// It is where both bits of format 4 are off and its counts are right, the chain of format 5 DSCBs from slot 1
/// on lists the free space, no other slot is of format 5, and a data set leads to each format 3. The first four
/// bytes of a format 5 aren't judged. A VTOC that isn't settled is one for `rebuild`.
pub fn is_settled(vol: &Vol) -> bool
    requires unit { (units : List Attached) × IsOfUnit units vol.now }
    ensures { (image : List ℕ) → IsMounted image vol.now → result ≡ is_settled_vtoc image }
{
    are_settled(vol)
}

// The same of the slots that the index holds.
fn are_settled(vol: &Vol) -> bool
    requires unit { (units : List Attached) × IsOfUnit units vol.now }
    requires few { length vol.now.free.items ≤ 65535 }
    ensures { result ≡ are_settled (slots_held vol.now)
        (entries_of (heads_of vol.now.geometry) vol.now.free.items) }
{
    if !has_head(vol) {
        return false;
    }
    lists_free(vol) && has_no_extra(vol)
}

// Whether slot 0 is a format 4 with both bits off and the right counts.
fn has_head(vol: &Vol) -> bool
    requires unit { (units : List Attached) × IsOfUnit units vol.now }
    ensures { result ≡ has_head (slots_held vol.now) }
{
    match vol.slots.get(0) {
        Some(dscb) => is_head(vol, dscb),
        None => false,
    }
}

// Whether a DSCB is such a format 4.
fn is_head(vol: &Vol, dscb: &Dscb) -> bool
    requires unit { (units : List Attached) × IsOfUnit units vol.now }
    ensures { result ≡ option_map_or (counts_match (slots_held vol.now)) (head_in (Ok dscb.now)) false }
{
    match dscb {
        Dscb::F4(head) => counts_match(vol, head),
        _ => false,
    }
}

// Whether both bits of a format 4 are off, and its counts are those of the slots.
fn counts_match(vol: &Vol, head: &F4) -> bool
    requires unit { (units : List Attached) × IsOfUnit units vol.now }
    ensures { result ≡ counts_match (slots_held vol.now) head.now }
{
    if head.indicators & BITS != 0 {
        return false;
    }
    head.free == free_count(&vol.slots) && head.highest == highest_in(vol)
}

// Whether the chain from slot 1 on lists the free space.
fn lists_free(vol: &Vol) -> bool
    requires unit { (units : List Attached) × IsOfUnit units vol.now }
    requires few { length vol.now.free.items ≤ 65535 }
    ensures { result ≡ is_chain (slots_held vol.now) 1
        (entries_of (heads_of vol.now.geometry) vol.now.free.items) }
{
    let last = dscbs_for(vol.free.len()) - 1;
    let mut slot = 1;
    for number in 0..last {
        match next_linked(vol, slot, number) {
            Some(next) => slot = next,
            None => return false,
        }
    }
    has_space(vol, slot, last, [0; 5])
}

// The slot of the next DSCB of the chain, where the DSCB of this number stands in a slot and leads to it.
fn next_linked(vol: &Vol, slot: usize, number: usize) -> Option<usize>
    requires unit { (units : List Attached) × IsOfUnit units vol.now }
    requires number { number < 2522 }
    ensures { result ≡ next_linked (slots_held vol.now) slot
        (entries_in (heads_of vol.now.geometry) vol.now.free.items number) }
{
    let next = next_free(vol, slot)?;
    if has_space(vol, slot, number, slot_address(vol, next as u32)) {
        Some(next)
    } else {
        None
    }
}

// The first slot after one that is free, or of format 5.
fn next_free(vol: &Vol, slot: usize) -> Option<usize>
    requires few { length vol.now.slots.items ≤ 65535 }
    ensures next { result ≡ next_free (slots_held vol.now) (slot + 1) }
    ensures inside { (next : ℕ) → result ≡ Some next → next < length vol.now.slots.items }
{
    if slot >= vol.slots.len() {
        return None;
    }
    next_open(&vol.slots, slot + 1)
}

// Whether the DSCB of this number in the chain stands in a slot and leads to an address.
fn has_space(vol: &Vol, slot: usize, number: usize, pointer: [u8; 5]) -> bool
    requires unit { (units : List Attached) × IsOfUnit units vol.now }
    requires number { number < 2522 }
    ensures { result ≡ has_space (slots_held vol.now) slot
        (entries_in (heads_of vol.now.geometry) vol.now.free.items number) pointer }
{
    let wanted = space_dscb(&vol.free, vol.geometry.device.heads(), number, pointer);
    match vol.slots.get(slot) {
        Some(found) => is_space(found, &wanted),
        None => false,
    }
}

// Whether a DSCB is a format 5 that lists the same as another and leads to the same address.
fn is_space(found: &Dscb, wanted: &Dscb) -> bool
    ensures { (entries : List (List ℕ)) (pointer : List ℕ) → wanted.now ≡ space_of entries pointer
        → result ≡ is_space entries pointer (Ok found.now) }
{
    match found {
        Dscb::F5(found) => lists(found, wanted),
        _ => false,
    }
}

// Whether a format 5 lists the same as another DSCB and leads to the same address.
fn lists(found: &F5, wanted: &Dscb) -> bool
    ensures { (entries : List (List ℕ)) (pointer : List ℕ) → wanted.now ≡ space_of entries pointer
        → result ≡ lists found.now entries pointer }
{
    match wanted {
        Dscb::F5(wanted) => is_alike(found, wanted),
        _ => false,
    }
}

// Whether two DSCBs of format 5 list the same and lead to the same address.
fn is_alike(found: &F5, wanted: &F5) -> bool
    ensures { result ≡ lists found.now (wanted.now.front ++ wanted.now.back) wanted.now.pointer }
{
    if found.pointer != wanted.pointer {
        return false;
    }
    found.front == wanted.front && found.back == wanted.back
}

// Whether a data set leads to each format 3, and no format 5 stands beside those of the chain.
fn has_no_extra(vol: &Vol) -> bool
    requires unit { (units : List Attached) × IsOfUnit units vol.now }
    requires few { length vol.now.free.items ≤ 65535 }
    ensures { result ≡ has_no_extra (slots_held vol.now)
        (entries_of (heads_of vol.now.geometry) vol.now.free.items) }
{
    are_kept(vol) && chain_count(&vol.slots) == dscbs_for(vol.free.len())
}

// Whether a data set leads to each format 3.
fn are_kept(vol: &Vol) -> bool
    requires unit { (units : List Attached) × IsOfUnit units vol.now }
    ensures { result ≡ list_all (is_kept (slots_held vol.now)) (slots_held vol.now) }
{
    for slot in 0..vol.slots.len() {
        if !is_kept(vol, slot) {
            return false;
        }
    }
    true
}

// Whether a slot is no format 3, or a data set leads to it.
fn is_kept(vol: &Vol, slot: usize) -> bool
    requires unit { (units : List Attached) × IsOfUnit units vol.now }
    requires slot { slot < length vol.now.slots.items }
    ensures { (s : VtocSlot) → slice_get (slots_held vol.now) slot ≡ Some s
        → result ≡ is_kept (slots_held vol.now) s }
{
    let dscb = &vol.slots[slot];
    if !has_more(dscb) {
        return true;
    }
    !is_extra(&vol.slots, &slot_address(vol, slot as u32), dscb)
}

// Whether a DSCB is a format 3, of more extents.
fn has_more(dscb: &Dscb) -> bool
    ensures { result ≡ is_f3 (Ok dscb.now) }
{
    matches!(dscb, Dscb::F3(_))
}

// The number of DSCBs of format 5.
fn chain_count(slots: &[Dscb]) -> usize
    ensures { result ≡ count_by (λ d. is_f5 (Ok d)) slots.now }
{
    slots
        .iter()
        .filter(|dscb| matches!(**dscb, Dscb::F5(_)))
        .count()
}
