//! Where the blocks of an area begin, on several packs.
ghost use Rattle.std.specs.Prelude.{◌≡◌, IsErrOf, IsTrue, IfErr, IfOk};
ghost use Rattle.vol_model.specs.Writing.{body_on};
ghost use Rattle.pack_machine.specs.Fronts.{IsFrontOf};
ghost use Rattle.shelf_machine.specs.Machine.{shelf_under, units_of};
ghost use Rattle.shelf_machine.specs.Opening.{names_of};
ghost use Rattle.shelf_machine.specs.ReadyPacks.{AreReady, RestPacks, vols_of};

use ebcdic_names::Dsn;
use hall_core::Hall;
use pack_machine::{AreaStart, NO_AREA_START, Pack, area_start_on};
use vol_model::MachErr;

// Where a writer of an area of a data set begins. No memory is taken.
pub(crate) fn area_start_of<H: Hall>(
    hall: &mut H,
    packs: &mut Vec<Pack>,
    v: u8,
    dsn: &Dsn,
) -> Result<AreaStart, MachErr>
    requires ready { AreReady H.tells (H.facts hall.old) (H.meaning hall.old)
        packs.old.items }
    ensures front { let shelf = shelf_under (names_of (H.facts hall.old).units (units_of (vols_of packs.old.items)))
        (H.meaning hall.old).state in IsTrue H.tells
        → IfOk result (λ front. IsFrontOf front (body_on shelf v dsn.now.bytes)) }
    ensures rest { RestPacks (IsErrOf result MachErr.Device) H.tells (H.facts hall.old) (H.facts hall.new)
        (H.meaning hall.old) (H.meaning hall.new) packs.old.items packs.new.items }
    ensures error { IfErr result (λ e. e ≡ MachErr.Device) }
{
    let k = usize::from(v);
    if k >= packs.len() {
        return Ok(NO_AREA_START);
    }
    area_start_on(hall, &mut packs[k], dsn)
}
