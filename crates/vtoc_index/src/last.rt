//! The last block of a data set.
ghost use Rattle.std.specs.Prelude.{◌≡◌, ◌<◌, length, slice_index_or, IsTrue};
ghost use Rattle.hall_core.specs.Facts.{DeviceCall, unit_of};
ghost use Rattle.hall_core.specs.Images.{image_in};
ghost use Rattle.vtoc_index.specs.Index.{IsIndexOf, IsOfUnit};
ghost use Rattle.vtoc_index.specs.Last.{lstar_of, with_last};
ghost use Rattle.vtoc_index.specs.Puts.{AfterPut, IsWith};

use crate::put::put_slot;
use crate::vol::Vol;
use dscb_codec::{Dscb, F1};
use hall_core::{Device, Hall};
use vol_model::Place;

/// Sets the place of the last block of the data set in a slot, and the balance of that block's track, in one
/// write of its format 1 (LSTAR and the track balance: System Control Blocks GC28-6628).
///
/// A slot of another format stays as it is. The write is pending until a sync is done. `Device` comes as in
/// `put_slot`.
pub fn set_last<H: Hall>(
    hall: &mut H,
    vol: &mut Vol,
    slot: u32,
    last: Place,
    balance: u16,
) -> Result<(), Device>
    requires unit { IsOfUnit (H.facts hall.old).units vol.old }
    requires slot { slot < length vol.old.slots.items }
    requires index { let image = image_in (H.meaning hall.old) (H.facts hall.old) vol.old.unit in
        IsTrue H.tells → IsIndexOf image vol.old }
    ensures files { let image = image_in (H.meaning hall.old) (H.facts hall.old) vol.old.unit in
        let d = with_last last balance (slice_index_or vol.old.slots.items slot Dscb.F0) in
        IsTrue H.tells → AfterPut (unit_of (H.facts hall.old).units vol.old.unit).name vol.old slot
        d vol.new image (image_in (H.meaning hall.new) (H.facts hall.new) vol.old.unit)
        (H.meaning hall.old) (H.meaning hall.new) result }
    ensures index { let d = with_last last balance (slice_index_or vol.old.slots.items slot Dscb.F0) in
        IsWith slot d vol.old vol.new result }
    ensures unit { IsOfUnit (H.facts hall.new).units vol.new }
    ensures faults { DeviceCall (H.facts hall.old) (H.facts hall.new) result }
{
    let dscb = with_last(vol.slots[slot as usize], last, balance);
    put_slot(hall, vol, slot, &dscb)
}

// A format 1 with this last block and this track balance.
fn with_last(dscb: Dscb, last: Place, balance: u16) -> Dscb
    ensures { result ≡ with_last last balance dscb }
{
    match dscb {
        Dscb::F1(set) => Dscb::F1(F1 {
            lstar: lstar_of(last),
            balance,
            ..set
        }),
        other => other,
    }
}

// The three bytes of a last block's place.
fn lstar_of(last: Place) -> [u8; 3]
    ensures { result ≡ lstar_of last }
{
    let [tt_high, tt_low] = last.tt.to_be_bytes();
    [tt_high, tt_low, last.r]
}
