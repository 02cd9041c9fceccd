//! Data sets of equal names.
ghost use Rattle.std.specs.Prelude.{◌≡◌, ◌⊎◌, ℕ, ◌≤◌, List, [], Some, None, Ok, length, option_and_then, position, slice_get, IfErr, IfOk, IsErrOf, OnOk, if◌then◌else◌};
ghost use Rattle.std.specs.BTreeMap.{IsOrdered, get, values};
ghost use Rattle.std.specs.Cmp.Lexicographic.{slice_cmp};
ghost use Rattle.std.specs.Ordering.{nat_cmp};
ghost use Rattle.std.specs.Option.{option_map};
ghost use Rattle.pack_spec.specs.Rules.{is_named, name_faults, set_in};
ghost use Rattle.vtoc_index.specs.Names.{AreByName, name_in};

use crate::MountErr;
use dscb_codec::Dscb;
use pack_spec::VtocSlot;
use std::alloc::{AllocError, Global};
use std::collections::BTreeMap;

// The slots of the data sets in the order of their names, where no name stands twice; else the first data set
// whose name stands in an earlier slot.
pub(crate) fn slots_by_name(alloc: Global, slots: &[VtocSlot]) -> Result<Vec<u32>, MountErr>
    requires { length slots.now ≤ 65535 }
    ensures order { IfOk result (λ by_name. AreByName (name_in slots.now) by_name.items) }
    ensures apart { OnOk result (name_faults slots.now ≡ []) }
    ensures refused { IfErr result (λ e. (e ≡ MountErr.Memory)
        ⊎ (slice_get (name_faults slots.now) 0 ≡ Some e)) }
    ensures device { IsErrOf result MountErr.Device → ⊥ }
    ensures file { IsErrOf result MountErr.NoFile → ⊥ }
{
    let lowest = slots_of_names(alloc, slots)?;
    Ok(slots_in(alloc, &lowest)?)
}

// The slot of each name, where none stands twice; else the first data set whose name stands in an earlier slot.
#[tactic(auto, unfolding(pack_spec::specs::Rules::name_faults))]
fn slots_of_names(alloc: Global, slots: &[VtocSlot]) -> Result<BTreeMap<[u8; 44], u32>, MountErr>
    requires { length slots.now ≤ 65535 }
    ensures lowest { IfOk result (λ lowest. (name : List ℕ)
        → get (slice_cmp nat_cmp) lowest name
        ≡ position (λ s. is_named name s.content) slots.now) }
    ensures apart { OnOk result (slice_get (name_faults slots.now) 0 ≡ None) }
    ensures refused { IfErr result (λ e. (e ≡ MountErr.Memory)
        ⊎ (slice_get (name_faults slots.now) 0 ≡ Some e)) }
    ensures device { IsErrOf result MountErr.Device → ⊥ }
    ensures file { IsErrOf result MountErr.NoFile → ⊥ }
{
    let mut lowest = BTreeMap::new(alloc);
    for (index, slot) in slots.iter().enumerate() {
        let number = index as u32;
        if let Some(other) = note_name(&mut lowest, slot, number)? {
            return Err(MountErr::DuplicateName {
                slot: number,
                other,
            });
        }
    }
    Ok(lowest)
}

// The slots of names in the order of these.
fn slots_in(alloc: Global, lowest: &BTreeMap<[u8; 44], u32>) -> Result<Vec<u32>, AllocError>
    ensures items { IfOk result (λ slots. slots.items ≡ values lowest.now) }
    ensures ordered { OnOk result (IsOrdered (slice_cmp nat_cmp) lowest.now) }
{
    lowest.values().copied().collect(alloc)
}

// Notes the slot of this number for the name in it; gives the slot that was noted for that name before.
fn note_name(
    lowest: &mut BTreeMap<[u8; 44], u32>,
    slot: &VtocSlot,
    number: u32,
) -> Result<Option<u32>, AllocError>
    ensures before { IfOk result (λ other. other
        ≡ option_and_then (get (slice_cmp nat_cmp) lowest.old)
        (option_map (λ f. f.name) (set_in slot.now.content))) }
    ensures noted { result ≡ Ok None → (name : List ℕ)
        → get (slice_cmp nat_cmp) lowest.new name
        ≡ (if is_named name slot.now.content then Some number else get
        (slice_cmp nat_cmp) lowest.old name) }
{
    match name_of(slot) {
        Some(name) => Ok(lowest.insert(name, number)?),
        None => Ok(None),
    }
}

// The name of the data set whose format 1 a slot is.
fn name_of(slot: &VtocSlot) -> Option<[u8; 44]>
    ensures { result ≡ option_map (λ f. f.name) (set_in slot.now.content) }
{
    match &slot.content {
        Ok(Dscb::F1(set)) => Some(set.name),
        _ => None,
    }
}
