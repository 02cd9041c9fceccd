//! The extents of data sets, in their DSCBs of formats 1 and 3.
ghost use Rattle.std.specs.Prelude.{◌≡◌, ◌≢◌, ℕ, ◌≤◌, ◌<◌, ◌++◌, ◌&&◌, Some, find, length, nat_le, IfOk, OnOk};
ghost use Rattle.std.specs.List.{list_all, list_any};
ghost use Rattle.std.specs.Option.{option_copied};
ghost use Rattle.ckd_image.specs.Header.{HasGeometry};
ghost use Rattle.pack_spec.specs.Rules.{counted_extents, extents_fault, format_3_of, further_extents, has_chain, is_chained, is_led_to, shares_chain};
ghost use Rattle.pack_spec.specs.Vtoc.{is_counted_type, is_extent, is_field_type};

use crate::MountErr;
use crate::extent::{Row, is_counted_type, is_extent, is_field_type};
use ckd_image::Geometry;
use dscb_codec::{Dscb, F1};
use pack_spec::VtocSlot;
use pack_spec::layout::{MOST_EXTENTS, OWN_EXTENTS};
use std::alloc::{AllocError, Global};

// The first rule on extents that the format 1 in the slot of this number breaks.
#[tactic(auto, unfolding(pack_spec::specs::Rules::extents_fault, pack_spec::specs::Rules::has_types, pack_spec::specs::Rules::has_extents))]
pub(crate) fn extents_fault(
    alloc: Global,
    geometry: Geometry,
    slots: &[VtocSlot],
    number: usize,
    set: &F1,
) -> Result<Option<MountErr>, AllocError>
    requires whole { (len : ℕ) × HasGeometry len geometry }
    requires few { length slots.now ≤ 65535 }
    requires inside { number < length slots.now }
    ensures first { IfOk result (λ fault. fault ≡ extents_fault geometry slots.now number set.now) }
    ensures device { IfOk result (λ fault. fault ≢ Some MountErr.Device) }
    ensures file { IfOk result (λ fault. fault ≢ Some MountErr.NoFile) }
{
    let counted = counted_extents(alloc, slots, set)?;
    let slot = number as u32;
    if !has_types(set, &counted) {
        return Ok(Some(MountErr::UnsupportedExtent { slot }));
    }
    if !has_extents(geometry, set, &counted) {
        return Ok(Some(MountErr::BadExtent { slot }));
    }
    if !has_chain(slots, &slots[..number], set) {
        return Ok(Some(MountErr::BadChain { slot }));
    }
    Ok(None)
}

// The extents that a format 1 counts: first its own, then those of its format 3.
#[tactic(auto, unfolding(pack_spec::specs::Rules::counted_extents))]
pub(crate) fn counted_extents(
    alloc: Global,
    slots: &[VtocSlot],
    set: &F1,
) -> Result<Vec<Row>, AllocError>
    ensures { IfOk result (λ rows. rows.items ≡ counted_extents slots.now set.now) }
{
    let mut rows = Vec::new(alloc);
    rows.extend_from_slice(&set.runs)?;
    if let Some(slot) = format_3_of(slots, set) {
        push_further(&mut rows, slot)?;
    }
    rows.truncate(usize::from(set.extents));
    Ok(rows)
}

// Puts the extents of a format 3 after others.
fn push_further(rows: &mut Vec<Row>, slot: &VtocSlot) -> Result<(), AllocError>
    ensures { OnOk result (rows.new.items ≡ rows.old.items ++ further_extents slot.now.content) }
{
    if let Ok(Dscb::F3(further)) = &slot.content {
        rows.extend_from_slice(&further.front)?;
        rows.extend_from_slice(&further.back)?;
    }
    Ok(())
}

// Whether the types of all extents in a format 1, and of all that it counts, are ones that are read.
fn has_types(set: &F1, counted: &[Row]) -> bool
    ensures { result ≡ (list_all is_field_type set.now.runs && list_all is_counted_type counted.now) }
{
    are_fields(&set.runs) && are_counted(counted)
}

// Whether each of these fields has an extent whose type is read, or none.
fn are_fields(rows: &[Row]) -> bool
    ensures { result ≡ list_all is_field_type rows.now }
{
    rows.iter().all(is_field_type)
}

// Whether each of these extents has a type that is read.
fn are_counted(rows: &[Row]) -> bool
    ensures { result ≡ list_all is_counted_type rows.now }
{
    rows.iter().all(is_counted_type)
}

// Whether a format 1 counts at most 16 extents, each a run of tracks of the image.
fn has_extents(geometry: Geometry, set: &F1, counted: &[Row]) -> bool
    requires { (len : ℕ) × HasGeometry len geometry }
    ensures { result ≡ (nat_le set.now.extents 16 && list_all (is_extent geometry) counted.now) }
{
    set.extents <= MOST_EXTENTS && are_extents(geometry, counted)
}

// Whether each of these is a run of tracks of the image.
fn are_extents(geometry: Geometry, rows: &[Row]) -> bool
    requires { (len : ℕ) × HasGeometry len geometry }
    ensures { result ≡ list_all (is_extent geometry) rows.now }
{
    rows.iter().all(|row| is_extent(geometry, row))
}

// Whether a format 1 has a format 3 of its own, where it needs one.
#[tactic(auto, unfolding(pack_spec::specs::Rules::has_chain))]
fn has_chain(slots: &[VtocSlot], lower: &[VtocSlot], set: &F1) -> bool
    ensures { result ≡ has_chain slots.now lower.now set.now }
{
    !is_chained(set) || format_3_of(slots, set).is_some() && !is_shared(lower, set)
}

// Whether a format 1 counts more extents than it holds.
fn is_chained(set: &F1) -> bool
    ensures { result ≡ is_chained set.now }
{
    set.extents > OWN_EXTENTS
}

// The slot of the format 3 to which the pointer of a format 1 leads, where that counts.
fn format_3_of<'a>(slots: &'a [VtocSlot], set: &F1) -> Option<&'a VtocSlot>
    ensures { option_copied result ≡ format_3_of slots.now set.now }
{
    if is_chained(set) {
        find_format_3(slots, set)
    } else {
        None
    }
}

// The slot of the format 3 at the address in the pointer of a format 1.
fn find_format_3<'a>(slots: &'a [VtocSlot], set: &F1) -> Option<&'a VtocSlot>
    ensures { option_copied result ≡ find (is_led_to set.now) slots.now }
{
    slots.iter().find(|slot| is_led_to(slot, set))
}

// Whether a slot is the format 3 to which the pointer of a format 1 leads.
fn is_led_to(slot: &VtocSlot, set: &F1) -> bool
    ensures { result ≡ is_led_to set.now slot.now }
{
    slot.address == set.pointer && matches!(slot.content, Ok(Dscb::F3(_)))
}

// Whether a format 1 in one of these slots leads to the same format 3.
fn is_shared(lower: &[VtocSlot], set: &F1) -> bool
    ensures { result ≡ list_any (λ x. shares_chain set.now x.content) lower.now }
{
    lower.iter().any(|slot| shares_chain(slot, set))
}

// Whether a slot is a format 1 whose pointer counts and is that of another.
fn shares_chain(slot: &VtocSlot, set: &F1) -> bool
    ensures { result ≡ shares_chain set.now slot.now.content }
{
    match &slot.content {
        Ok(Dscb::F1(other)) => is_chained(other) && other.pointer == set.pointer,
        _ => false,
    }
}
