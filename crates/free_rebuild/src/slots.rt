//! What the DSCBs in the slots of a VTOC tell of each other.
ghost use Rattle.std.specs.Prelude.{◌≡◌, ℕ, ◌≤◌, ◌<◌, ◌+◌, length, position, Option};
ghost use Rattle.std.specs.List.{list_any};
ghost use Rattle.free_rebuild.specs.Chain.{is_open, next_open};
ghost use Rattle.free_rebuild.specs.Clearing.{free_in, is_extra, is_pointed, points_to, with_counts};
ghost use Rattle.pack_spec.specs.Settled.{is_f0};

use dscb_codec::{Dscb, F4};

// All bits of the indicators but X'04', of an interrupted update, and X'80', by which format 5 doesn't show the
// free space.
const OTHERS: u8 = 0x7B;

// Whether a slot is free, or of format 5.
pub(crate) fn is_open(dscb: &Dscb) -> bool
    ensures { result ≡ is_open dscb.now }
{
    matches!(dscb, Dscb::F0 | Dscb::F5(_))
}

// The first of these slots that is free, or of format 5.
fn first_open(slots: &[Dscb]) -> Option<usize>
    ensures { result ≡ position is_open slots.now }
{
    slots.iter().position(is_open)
}

// The first slot from a number on that is free, or of format 5.
pub(crate) fn next_open(slots: &[Dscb], from: usize) -> Option<usize>
    requires { from ≤ length slots.now }
    ensures { result ≡ next_open slots.now from }
{
    match first_open(&slots[from..]) {
        Some(found) => Some(from + found),
        None => None,
    }
}

// Whether a format 1 whose pointer counts has an address in it.
fn points_to(dscb: &Dscb, address: &[u8; 5]) -> bool
    ensures { result ≡ points_to address.now dscb.now }
{
    match dscb {
        Dscb::F1(set) => set.extents > 3 && *address == set.pointer,
        _ => false,
    }
}

// Whether one of the DSCBs points to an address.
fn is_pointed(slots: &[Dscb], address: &[u8; 5]) -> bool
    ensures { result ≡ is_pointed slots.now address.now }
{
    slots.iter().any(|dscb| points_to(dscb, address))
}

// Whether a DSCB at an address belongs to nothing.
pub(crate) fn is_extra(slots: &[Dscb], address: &[u8; 5], dscb: &Dscb) -> bool
    ensures { result ≡ is_extra slots.now address.now dscb.now }
{
    match dscb {
        Dscb::F5(_) => true,
        Dscb::F3(_) => !is_pointed(slots, address),
        _ => false,
    }
}

// A format 4 with both bits off, these free DSCBs, and this highest address of a format 1.
pub(crate) fn with_counts(free: u16, highest: [u8; 5], dscb: Dscb) -> Dscb
    ensures { result ≡ with_counts free highest dscb }
{
    match dscb {
        Dscb::F4(head) => Dscb::F4(F4 {
            highest,
            free,
            indicators: head.indicators & OTHERS,
            ..head
        }),
        other => other,
    }
}

// The number of free DSCBs.
fn free_in(slots: &[Dscb]) -> usize
    ensures { result ≡ free_in slots.now }
{
    slots
        .iter()
        .filter(|dscb| matches!(**dscb, Dscb::F0))
        .count()
}

// The number of free DSCBs in a VTOC, which has at most 65,535.
pub(crate) fn free_count(slots: &[Dscb]) -> u16
    requires { length slots.now ≤ 65535 }
    ensures { result ≡ free_in slots.now }
{
    free_in(slots) as u16
}
