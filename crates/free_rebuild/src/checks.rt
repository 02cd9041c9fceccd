//! What a VTOC has on each hall that tells its content.
ghost use Rattle.std.specs.Prelude.{IsOk, IsTrue, OnOk, ◌≡◌};
ghost use Rattle.hall_core.specs.Facts.{DeviceCall};
ghost use Rattle.free_rebuild.specs.Chain.{IsOpenAt};
ghost use Rattle.vtoc_index.specs.Index.{IsOfUnit};

use crate::slots::is_open;
use hall_core::{Device, Hall};
use vtoc_index::Vol;

// Checks that slot 1 is there and is free, or of format 5, as on each hall that tells its content.
pub(crate) fn check_front<H: Hall>(hall: &mut H, vol: &Vol) -> Result<(), Device>
    requires unit { IsOfUnit (H.facts hall.old).units vol.now }
    requires first { IsTrue H.tells → IsOpenAt vol.now.slots.items 1 }
    ensures first { OnOk result (IsOpenAt vol.now.slots.items 1) }
    ensures hall { OnOk result (hall.new ≡ hall.old) }
    ensures told { IsTrue H.tells → IsOk result }
    ensures faults { DeviceCall (H.facts hall.old) (H.facts hall.new) result }
{
    if !begins_open(vol) {
        hall.differs(vol.unit, vol.vtoc.start);
        return Err(Device);
    }
    Ok(())
}

// Whether slot 1 is there, and is free or of format 5.
fn begins_open(vol: &Vol) -> bool
    ensures yes { IsTrue result → IsOpenAt vol.now.slots.items 1 }
    ensures no { IsOpenAt vol.now.slots.items 1 → IsTrue result }
{
    match vol.slots.get(1) {
        Some(dscb) => is_open(dscb),
        None => false,
    }
}
