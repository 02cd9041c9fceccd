//! The bit of an interrupted update.
ghost use Rattle.std.specs.Prelude.{◌≡◌, ◌≤◌, length, slice_index_or, IsTrue};
ghost use Rattle.hall_core.specs.Facts.{DeviceCall, unit_of};
ghost use Rattle.hall_core.specs.Images.{image_in};
ghost use Rattle.vtoc_index.specs.Bits.{with_bit};
ghost use Rattle.vtoc_index.specs.Index.{IsIndexOf, IsOfUnit};
ghost use Rattle.vtoc_index.specs.Puts.{AfterPut, IsWith};

use crate::put::put_slot;
use crate::vol::Vol;
use dscb_codec::{Dscb, F4};
use hall_core::{Device, Hall};

// The bit of an interrupted update.
const INTERRUPTED: u8 = 0x04;

/// Sets or clears the bit of an interrupted update, X'04' in the indicators of format 4, in one write of that
/// DSCB (System Control Blocks GC28-6628; the bit is this project's profile).
///
/// The write is pending until a sync is done. `Device` comes as in `put_slot`, and where the VTOC has no slot,
/// which it never lacks on a hall that tells its content.
pub fn set_bit<H: Hall>(hall: &mut H, vol: &mut Vol, on: bool) -> Result<(), Device>
    requires unit { IsOfUnit (H.facts hall.old).units vol.old }
    requires first { IsTrue H.tells → 1 ≤ length vol.old.slots.items }
    requires index { let image = image_in (H.meaning hall.old) (H.facts hall.old) vol.old.unit in
        IsTrue H.tells → IsIndexOf image vol.old }
    ensures files { let image = image_in (H.meaning hall.old) (H.facts hall.old) vol.old.unit in
        let d = with_bit on (slice_index_or vol.old.slots.items 0 Dscb.F0) in
        IsTrue H.tells → AfterPut (unit_of (H.facts hall.old).units vol.old.unit).name vol.old 0
        d vol.new image (image_in (H.meaning hall.new) (H.facts hall.new) vol.old.unit)
        (H.meaning hall.old) (H.meaning hall.new) result }
    ensures index { let d = with_bit on (slice_index_or vol.old.slots.items 0 Dscb.F0) in
        IsWith 0 d vol.old vol.new result }
    ensures unit { IsOfUnit (H.facts hall.new).units vol.new }
    ensures faults { DeviceCall (H.facts hall.old) (H.facts hall.new) result }
{
    if vol.slots.is_empty() {
        hall.differs(vol.unit, vol.vtoc.start);
        return Err(Device);
    }
    let dscb = with_bit(vol.slots[0], on);
    put_slot(hall, vol, 0, &dscb)
}

// A format 4 with the bit on or off.
fn with_bit(dscb: Dscb, on: bool) -> Dscb
    ensures { result ≡ with_bit on dscb }
{
    match dscb {
        Dscb::F4(head) => Dscb::F4(F4 {
            indicators: if on {
                head.indicators | INTERRUPTED
            } else {
                head.indicators & !INTERRUPTED
            },
            ..head
        }),
        other => other,
    }
}
