//! The rules of mounting that the slots of a VTOC break.
ghost use Rattle.std.specs.Prelude.{◌≡◌, ◌≢◌, ℕ, ◌≤◌, ◌<◌, ◌⊎◌, ◌++◌, List, [], Err, Ok, Some, length, slice_get, IfErr, IfOk, IsErrOf, false};
ghost use Rattle.std.specs.List.{filter_map};
ghost use Rattle.std.specs.Option.{option_map_or};
ghost use Rattle.std.specs.Result.{result_ok};
ghost use Rattle.ckd_image.specs.Header.{HasGeometry};
ghost use Rattle.ckd_image.specs.declared.header.Geometry.{Geometry};
ghost use Rattle.pack_spec.specs.declared.slot.VtocSlot.{VtocSlot};
ghost use Rattle.pack_spec.specs.Rules.{content_fault, front_faults, is_f4, is_f5_or_f0, slot_fault, slot_faults, slots_faults};
ghost use Rattle.pack_spec.specs.Label.{tracks_of};
ghost use Rattle.pack_spec.specs.Owned.{volume_faults};
ghost use Rattle.pack_spec.specs.Volume.{volume_with};
ghost use Rattle.vol_model.specs.Lawful.{IsOnPack};
ghost use Rattle.vol_model.specs.Space.{AreMaximal, EndBy, free_runs};
ghost use Rattle.vtoc_index.specs.Index.{AreDscbs};
ghost use Rattle.vtoc_index.specs.Names.{AreByName, name_at};

use crate::MountErr;
use crate::equal_names::slots_by_name;
use crate::owned::free_runs_in;
use crate::set_extents::extents_fault;
use ckd_image::Geometry;
use dscb_codec::{Dscb, DscbErr, FORMAT_4};
use pack_spec::VtocSlot;
use std::alloc::{AllocError, Global};
use vol_model::Run;

// What slots that break no rule tell an index.
#[derive(Drop)]
pub(crate) struct Judged {
    // The DSCB in each slot.
    pub dscbs: Vec<Dscb>,
    // The slots of the data sets, in the order of their names.
    pub by_name: Vec<u32>,
    // The maximal runs of free tracks, in ascending order.
    pub free: Vec<Run>,
}

// What an index has of the slots of a VTOC on these tracks, where they break no rule.
//
// Otherwise it is the first rule that is broken: first come the formats of slots 0 and 1, then the rules on single
// slots in the order of these, then the names, and then the rules on the volume as a whole.
pub(crate) fn judge(
    alloc: Global,
    geometry: Geometry,
    vtoc: Run,
    slots: &[VtocSlot],
) -> Result<Judged, MountErr>
    requires whole { (len : ℕ) × HasGeometry len geometry }
    requires vtoc { IsOnPack geometry vtoc }
    requires few { length slots.now ≤ 65535 }
    ensures dscbs { IfOk result (λ found. AreDscbs found.dscbs.items slots.now
        × (slots_faults geometry slots.now ≡ [])) }
    ensures names { IfOk result (λ found. AreByName (name_at found.dscbs.items) found.by_name.items) }
    ensures free { (tracks : List (List ℕ)) (label : List ℕ) →
        let volume = volume_with geometry tracks label vtoc slots.now in
        IfOk result (λ found. (volume_faults volume ≡ []) × (found.free.items ≡ free_runs volume)) }
    ensures runs { IfOk result (λ found. AreMaximal found.free.items
        × EndBy (tracks_of geometry) found.free.items) }
    ensures refused { (tracks : List (List ℕ)) (label : List ℕ) →
        let volume = volume_with geometry tracks label vtoc slots.now in
        IfErr result (λ e. (e ≡ MountErr.Memory)
        ⊎ (slice_get (slots_faults geometry slots.now ++ volume_faults volume) 0 ≡ Some e)) }
    ensures device { IsErrOf result MountErr.Device → ⊥ }
    ensures file { IsErrOf result MountErr.NoFile → ⊥ }
{
    let (dscbs, by_name) = dscbs_in(alloc, geometry, slots)?;
    let free = free_runs_in(alloc, geometry, vtoc, slots)?;
    Ok(Judged {
        dscbs,
        by_name,
        free,
    })
}

// The DSCBs in slots that break no rule, and the slots of the data sets in the order of their names; else the first
// rule that the slots break.
fn dscbs_in(
    alloc: Global,
    geometry: Geometry,
    slots: &[VtocSlot],
) -> Result<(Vec<Dscb>, Vec<u32>), MountErr>
    requires whole { (len : ℕ) × HasGeometry len geometry }
    requires few { length slots.now ≤ 65535 }
    ensures dscbs { IfOk result (λ found. AreDscbs found.0.items slots.now
        × (slots_faults geometry slots.now ≡ [])) }
    ensures names { IfOk result (λ found. AreByName (name_at found.0.items) found.1.items) }
    ensures refused { IfErr result (λ e. (e ≡ MountErr.Memory)
        ⊎ (slice_get (slots_faults geometry slots.now) 0 ≡ Some e)) }
    ensures device { IsErrOf result MountErr.Device → ⊥ }
    ensures file { IsErrOf result MountErr.NoFile → ⊥ }
{
    if let Some(fault) = first_fault(alloc, geometry, slots)? {
        return Err(fault);
    }
    let by_name = slots_by_name(alloc, slots)?;
    Ok((dscbs(alloc, slots)?, by_name))
}

// The first rule on formats and extents that the slots break.
fn first_fault(
    alloc: Global,
    geometry: Geometry,
    slots: &[VtocSlot],
) -> Result<Option<MountErr>, AllocError>
    requires whole { (len : ℕ) × HasGeometry len geometry }
    requires few { length slots.now ≤ 65535 }
    ensures first { IfOk result (λ fault. fault
        ≡ slice_get (front_faults slots.now ++ slot_faults geometry slots.now) 0) }
    ensures device { IfOk result (λ fault. fault ≢ Some MountErr.Device) }
    ensures file { IfOk result (λ fault. fault ≢ Some MountErr.NoFile) }
{
    if let Some(fault) = front_fault(slots) {
        return Ok(Some(fault));
    }
    first_slot_fault(alloc, geometry, slots)
}

// What is wrong with the first two slots.
#[tactic(auto, unfolding(pack_spec::specs::Rules::front_faults))]
fn front_fault(slots: &[VtocSlot]) -> Option<MountErr>
    ensures first { result ≡ slice_get (front_faults slots.now) 0 }
    ensures device { result ≢ Some MountErr.Device }
    ensures file { result ≢ Some MountErr.NoFile }
{
    if !begins_with_format_4(slots) {
        return Some(MountErr::NoFormat4);
    }
    if !goes_on_with_format_5(slots) {
        return Some(MountErr::NoFormat5);
    }
    None
}

// Whether slot 0 is a format 4.
fn begins_with_format_4(slots: &[VtocSlot]) -> bool
    ensures { result ≡ option_map_or (λ x. is_f4 x.content) (slice_get slots.now 0) false }
{
    slots.get(0).is_some_and(is_format_4)
}

// Whether slot 1 is a format 5 or is free.
fn goes_on_with_format_5(slots: &[VtocSlot]) -> bool
    ensures { result ≡ option_map_or (λ x. is_f5_or_f0 x.content) (slice_get slots.now 1) false }
{
    slots.get(1).is_some_and(is_format_5_or_free)
}

// Whether a slot is a format 4.
fn is_format_4(slot: &VtocSlot) -> bool
    ensures { result ≡ is_f4 slot.now.content }
{
    matches!(slot.content, Ok(Dscb::F4(_)))
}

// Whether a slot is a format 5 or is free.
fn is_format_5_or_free(slot: &VtocSlot) -> bool
    ensures { result ≡ is_f5_or_f0 slot.now.content }
{
    matches!(slot.content, Ok(Dscb::F5(_) | Dscb::F0))
}

// The first rule that a single slot breaks.
#[tactic(auto, unfolding(pack_spec::specs::Rules::slot_faults))]
fn first_slot_fault(
    alloc: Global,
    geometry: Geometry,
    slots: &[VtocSlot],
) -> Result<Option<MountErr>, AllocError>
    requires whole { (len : ℕ) × HasGeometry len geometry }
    requires few { length slots.now ≤ 65535 }
    ensures first { IfOk result (λ fault. fault ≡ slice_get (slot_faults geometry slots.now) 0) }
    ensures device { IfOk result (λ fault. fault ≢ Some MountErr.Device) }
    ensures file { IfOk result (λ fault. fault ≢ Some MountErr.NoFile) }
{
    for (index, slot) in slots.iter().enumerate() {
        if let Some(fault) = slot_fault(alloc, geometry, slots, index, slot)? {
            return Ok(Some(fault));
        }
    }
    Ok(None)
}

// The first rule that the slot of this number breaks.
#[tactic(auto, unfolding(pack_spec::specs::Rules::slot_fault))]
fn slot_fault(
    alloc: Global,
    geometry: Geometry,
    slots: &[VtocSlot],
    number: usize,
    slot: &VtocSlot,
) -> Result<Option<MountErr>, AllocError>
    requires whole { (len : ℕ) × HasGeometry len geometry }
    requires few { length slots.now ≤ 65535 }
    requires inside { number < length slots.now }
    ensures first { IfOk result (λ fault. fault ≡ slot_fault geometry slots.now number slot.now) }
    ensures device { IfOk result (λ fault. fault ≢ Some MountErr.Device) }
    ensures file { IfOk result (λ fault. fault ≢ Some MountErr.NoFile) }
{
    if number == 0 {
        return Ok(None);
    }
    match &slot.content {
        Ok(dscb) => dscb_fault(alloc, geometry, slots, number, dscb),
        Err(refusal) => Ok(Some(refused(number, *refusal))),
    }
}

// The first rule that a DSCB after slot 0 breaks: it is none of format 4, and the extents of a
// format 1 are good.
fn dscb_fault(
    alloc: Global,
    geometry: Geometry,
    slots: &[VtocSlot],
    number: usize,
    dscb: &Dscb,
) -> Result<Option<MountErr>, AllocError>
    requires whole { (len : ℕ) × HasGeometry len geometry }
    requires few { length slots.now ≤ 65535 }
    requires inside { number < length slots.now }
    requires behind { 0 < number }
    ensures first { IfOk result (λ fault. fault
        ≡ content_fault geometry slots.now number (Ok dscb.now)) }
    ensures device { IfOk result (λ fault. fault ≢ Some MountErr.Device) }
    ensures file { IfOk result (λ fault. fault ≢ Some MountErr.NoFile) }
{
    match dscb {
        Dscb::F1(set) => extents_fault(alloc, geometry, slots, number, set),
        Dscb::F4(_) => Ok(Some(MountErr::BadDscb {
            slot: number as u32,
            byte: FORMAT_4,
        })),
        _ => Ok(None),
    }
}

// The rule that bytes in the slot of this number break which are no DSCB.
fn refused(number: usize, refusal: DscbErr) -> MountErr
    requires { number < 65535 }
    ensures exact { (g : Geometry) (slots : List VtocSlot)
        → content_fault g slots number (Err refusal) ≡ Some result }
    ensures device { result ≢ MountErr.Device }
    ensures file { result ≢ MountErr.NoFile }
{
    let slot = number as u32;
    match refusal {
        DscbErr::Unsupported(byte) => MountErr::UnsupportedDscb { slot, byte },
        DscbErr::BadFormat(byte) => MountErr::BadDscb { slot, byte },
    }
}

// The DSCBs that the slots hold.
fn dscbs(alloc: Global, slots: &[VtocSlot]) -> Result<Vec<Dscb>, AllocError>
    ensures { IfOk result (λ found. found.items ≡ filter_map (λ s. result_ok s.content) slots.now) }
{
    let mut found = Vec::new(alloc);
    for slot in slots {
        if let Ok(dscb) = &slot.content {
            found.push(*dscb)?;
        }
    }
    Ok(found)
}
