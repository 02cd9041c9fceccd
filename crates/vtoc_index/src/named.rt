//! The data sets of an index by their names.
ghost use Rattle.std.specs.Prelude.{◌≡◌, ℕ, List, Ok, option_map, slice_get};
ghost use Rattle.pack_spec.specs.Volume.{volume_of};
ghost use Rattle.vol_model.specs.declared.contents.Volume.{Volume};
ghost use Rattle.vtoc_index.specs.Index.{IsMounted, first_named};
ghost use Rattle.vtoc_index.specs.Names.{AreByName, IsFrom, name_at};

use crate::ordered::{is_before, name_in};
use crate::vol::Vol;
use dscb_codec::Dscb;
use ebcdic_names::Dsn;

/// The slot, counted from 0 over the tracks of the VTOC, that holds the format 1 of this name, compared in all its
/// 44 bytes; `None` where there is none.
pub fn find(vol: &Vol, name: &Dsn) -> Option<u32>
    requires { AreByName (name_at vol.now.slots.items) vol.now.by_name.items }
    ensures { result ≡ first_named name.now.bytes vol.now.slots.items }
{
    let slot = slot_from(&vol.slots, &vol.by_name, &name.bytes)?;
    if name_in(&vol.slots, slot) == name.bytes {
        Some(slot)
    } else {
        None
    }
}

// The first slot in the order of names whose name doesn't stand before this one.
fn slot_from(slots: &[Dscb], by_name: &[u32], name: &[u8; 44]) -> Option<u32>
    requires { AreByName (name_at slots.now) by_name.now }
    ensures { IsFrom (name_at slots.now) by_name.now name.now result }
{
    let mut low = 0;
    let mut high = by_name.len();
    while low < high {
        let middle = low + (high - low) / 2;
        if is_before(slots, by_name[middle], name) {
            low = middle + 1;
        } else {
            high = middle;
        }
    }
    if low < by_name.len() {
        Some(by_name[low])
    } else {
        None
    }
}

/// The name of the k-th data set of a volume, from 0, in the order of the 44 bytes of their names; `None` where there
/// is none.
pub fn name_at(vol: &Vol, k: u32) -> Option<Dsn>
    requires { AreByName (name_at vol.now.slots.items) vol.now.by_name.items }
    ensures { (image : List ℕ) (volume : Volume) → IsMounted image vol.now
        → volume_of image ≡ Ok volume
        → result ≡ option_map (λ x. x.name) (slice_get volume.sets k) }
{
    let slot = slot_at(&vol.by_name, k)?;
    Some(Dsn {
        bytes: name_in(&vol.slots, slot),
    })
}

// The k-th of some slots, from 0.
fn slot_at(slots: &[u32], k: u32) -> Option<u32>
    ensures { result ≡ slice_get slots.now k }
{
    slots.get(k as usize).copied()
}
