//! Operations on the packs of a shelf.
ghost use Rattle.std.specs.Prelude.{◌≡◌, ◌<◌, slice_get, IsErrOf, IsTrue, Some};
ghost use Rattle.hall_core.specs.Facts.{unit_of};
ghost use Rattle.vol_model.specs.Lawful.{IsLawfulOp};
ghost use Rattle.vol_model.specs.Shelf.{extend_on, volume_number};
ghost use Rattle.vol_model.specs.declared.refusals.Refusal.{Refusal};
ghost use Rattle.vol_model.specs.declared.requests.Op.{Op};
ghost use Rattle.stop_model.specs.Moments.{IsDurable};
ghost use Rattle.vol_model.specs.Calls.{IsUndone};
ghost use Rattle.dadsm_ops.specs.Operations.{InVtoc, Operates};
ghost use Rattle.pack_machine.specs.Ready.{IsSamePack, reported};
ghost use Rattle.shelf_machine.specs.ReadyPacks.{AreReady, LeavesPacks, vols_of};

use ebcdic_names::Dsn;
use hall_core::Hall;
use pack_machine::{Pack, extend_on, operate_pack};
use std::alloc::Global;
use vol_model::{Op, Refusal, StoreErr, volume_number};
use vtoc_index::Vol;

// Does an operation on one of the packs.
pub(crate) fn operate<H: Hall>(
    alloc: Global,
    hall: &mut H,
    packs: &mut Vec<Pack>,
    op: &Op,
) -> Result<(), StoreErr>
    requires ready { AreReady H.tells (H.facts hall.old) (H.meaning hall.old)
        packs.old.items }
    requires durable { IsTrue H.tells → IsDurable (H.meaning hall.old) }
    requires lawful { IsLawfulOp op.now }
    ensures leaves { LeavesPacks H.tells op.now (H.facts hall.old) (H.facts hall.new)
        (H.meaning hall.old) (H.meaning hall.new) packs.old.items packs.new.items result }
{
    let k = usize::from(volume_number(op));
    if k >= packs.len() {
        return Err(StoreErr::Refused(Refusal::NoVolume));
    }
    operate_pack(alloc, hall, &mut packs[k], op)
}

// Extends a data set of the pack of this number.
pub(crate) fn extend_at<H: Hall>(
    hall: &mut H,
    packs: &mut Vec<Pack>,
    v: u8,
    dsn: &Dsn,
) -> Result<(), StoreErr>
    requires ready { AreReady H.tells (H.facts hall.old) (H.meaning hall.old)
        packs.old.items }
    requires durable { IsTrue H.tells → IsDurable (H.meaning hall.old) }
    ensures leaves { LeavesPacks H.tells (Op.Extend v dsn.now) (H.facts hall.old) (H.facts hall.new)
        (H.meaning hall.old) (H.meaning hall.new) packs.old.items packs.new.items result }
    ensures pack { (vol vol' : Vol) → slice_get (vols_of packs.old.items) v ≡ Some vol
        → slice_get (vols_of packs.new.items) v ≡ Some vol' → IsSamePack vol vol'
        × (IsUndone (reported result) → vol' ≡ vol)
        × (IsTrue H.tells → Operates (unit_of (H.facts hall.old).units vol.unit).name
        (extend_on dsn.now) vol' (InVtoc vol') (H.meaning hall.old) (H.meaning hall.new)
        result) }
    ensures memory { ¬ IsErrOf result StoreErr.Memory }
{
    let k = usize::from(v);
    if k >= packs.len() {
        return Err(StoreErr::Refused(Refusal::NoVolume));
    }
    extend_on(hall, &mut packs[k], dsn)
}
