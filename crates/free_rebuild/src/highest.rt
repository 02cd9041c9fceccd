//! The last data set of a VTOC.
ghost use Rattle.std.specs.Prelude.{◌≡◌, ◌<◌, List, length, Ok};
ghost use Rattle.hall_core.specs.Facts.{Attached};
ghost use Rattle.vtoc_index.specs.Index.{IsOfUnit, address_in};
ghost use Rattle.free_rebuild.specs.Clearing.{highest_among};
ghost use Rattle.pack_spec.specs.Settled.{is_f1};

use dscb_codec::Dscb;
use vtoc_index::{Vol, slot_address};

// The address of the last format 1, or zeros where there is none.
pub(crate) fn highest_in(vol: &Vol) -> [u8; 5]
    requires unit { (units : List Attached) × IsOfUnit units vol.now }
    ensures { result ≡ highest_among (address_in vol.now) vol.now.slots.items }
{
    let mut highest = [0; 5];
    for slot in 0..vol.slots.len() {
        if is_set(&vol.slots[slot]) {
            highest = slot_address(vol, slot as u32);
        }
    }
    highest
}

// Whether a DSCB is a format 1.
fn is_set(dscb: &Dscb) -> bool
    ensures { result ≡ is_f1 (Ok dscb.now) }
{
    matches!(dscb, Dscb::F1(_))
}
