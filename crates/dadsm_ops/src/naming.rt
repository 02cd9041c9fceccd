//! Another name for a data set.
ghost use Rattle.std.specs.Prelude.{◌≡◌, ◌≤◌, ℕ, List, length, IsTrue, IfOk, IfErr, IsErrOf, OnOk, Some, Ok, Err};
ghost use Rattle.hall_core.specs.Facts.{unit_of};
ghost use Rattle.hall_core.specs.Images.{image_in};
ghost use Rattle.stop_model.specs.Moments.{IsDurable};
ghost use Rattle.pack_spec.specs.Volume.{volume_of};
ghost use Rattle.vol_model.specs.Shelf.{rename_on};
ghost use Rattle.vol_model.specs.declared.contents.Volume.{Volume};
ghost use Rattle.vtoc_index.specs.Index.{IsMounted, IsOfUnit};
ghost use Rattle.vtoc_index.specs.Names.{AreByName, name_at};
ghost use Rattle.dadsm_ops.specs.Naming.{IsToRename, under_name};
ghost use Rattle.dadsm_ops.specs.Operations.{InVtoc, Operates, StoreCall};

use dscb_codec::{Dscb, F1};
use ebcdic_names::Dsn;
use free_rebuild::put_durably;
use hall_core::{Device, Hall};
use vol_model::{Refusal, StoreErr, is_catalog};
use vtoc_index::{Vol, find, reorder};

/// Gives a data set of the volume another name.
///
/// The index is that of the image of its unit, and no write is pending. The set's format 1 DSCB is written
/// with the new name as its key and its other 96 bytes as they were (System Control Blocks GC28-6628),
/// which decides the operation, and made durable: a stop leaves each byte of all files as it was, or
/// the set under the new name and else each byte.
///
/// It is refused, in this order, where the volume has no set of the old name (`NoSet`), where it has one
/// of the new name (`SetExists`), and where either name is SYSCTLG (`WrongKind`); then nothing is called,
/// and the index is as before. It takes no memory, so `Memory` never comes. `Device` comes only where
/// the count of its faults rose. The index is that of the new image after `Ok`, and may be that of no
/// image after `Device`.
pub fn rename<H: Hall>(hall: &mut H, vol: &mut Vol, old: &Dsn, new: &Dsn) -> Result<(), StoreErr>
    requires unit { IsOfUnit (H.facts hall.old).units vol.old }
    requires names { AreByName (name_at vol.old.slots.items) vol.old.by_name.items }
    requires mounted { let image = image_in (H.meaning hall.old) (H.facts hall.old) vol.old.unit in
        IsTrue H.tells → IsMounted image vol.old }
    requires durable { IsTrue H.tells → IsDurable (H.meaning hall.old) }
    ensures files { IsTrue H.tells → Operates (unit_of (H.facts hall.old).units vol.old.unit).name
        (rename_on old.now new.now) vol.new (InVtoc vol.new) (H.meaning hall.old)
        (H.meaning hall.new) result }
    ensures unit { IsOfUnit (H.facts hall.new).units vol.new }
    ensures names { OnOk result (AreByName (name_at vol.new.slots.items) vol.new.by_name.items) }
    ensures index { vol.new ≡ record vol.old {
      slots = vol.new.slots;
      by_name = vol.new.by_name;
      buf = vol.new.buf;
    } }
    ensures refused { (r : Refusal) → IsErrOf result (StoreErr.Refused r)
        → (hall.new ≡ hall.old) × (vol.new ≡ vol.old) }
    ensures memory { IsErrOf result StoreErr.Memory → ⊥ }
    ensures faults { StoreCall (H.facts hall.old) (H.facts hall.new) result }
{
    let slot = slot_to_rename(vol, old, new)?;
    let dscb = under_name(&vol.slots[slot as usize], new);
    match put_durably(hall, vol, slot, &dscb) {
        Ok(()) => {
            reorder(vol, slot);
            Ok(())
        }
        Err(Device) => Err(StoreErr::Device),
    }
}

// The slot of the set that has the old name, or the first reason why it can't get the new one.
#[tactic(auto, using(crate::proofs::Refusals::refused_no_set, crate::proofs::Refusals::refused_set_exists, crate::proofs::Refusals::refused_old_catalog, crate::proofs::Refusals::refused_new_catalog))]
fn slot_to_rename(vol: &Vol, old: &Dsn, new: &Dsn) -> Result<u32, Refusal>
    requires { AreByName (name_at vol.now.slots.items) vol.now.by_name.items }
    ensures found { IfOk result (IsToRename vol.now.slots.items old.now.bytes new.now.bytes) }
    ensures refused { IfErr result (λ r. (image : List ℕ) (volume : Volume)
        → IsMounted image vol.now → volume_of image ≡ Ok volume
        → rename_on old.now new.now volume ≡ Err r) }
{
    let Some(slot) = find(vol, old) else {
        return Err(Refusal::NoSet);
    };
    if find(vol, new).is_some() {
        return Err(Refusal::SetExists);
    }
    if is_catalog(old) || is_catalog(new) {
        return Err(Refusal::WrongKind);
    }
    Ok(slot)
}

// The DSCB, under this name where it is a format 1.
fn under_name(dscb: &Dscb, name: &Dsn) -> Dscb
    ensures { result ≡ under_name name.now.bytes dscb.now }
{
    let name = name.bytes;
    match dscb {
        Dscb::F1(set) => Dscb::F1(F1 { name, ..*set }),
        other => *other,
    }
}
