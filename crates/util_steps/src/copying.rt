//! Empties a data set, and reads one block by block.
ghost use Rattle.std.specs.Prelude.{◌≡◌, ◌≤◌, ◌<◌, false, IsTrue, IsErrOf, IfOk};
ghost use Rattle.stop_model.specs.Moments.{Same};
ghost use Rattle.vol_model.specs.declared.requests.Op.TheVariants.{Empty};
ghost use Rattle.vol_model.specs.Calls.{Keeps};
ghost use Rattle.vol_model.specs.Lawful.{IsLawfulBlock};
ghost use Rattle.vol_model.specs.Places.{is_before};
ghost use Rattle.vol_model.specs.Runs.{RunCall};
ghost use Rattle.vol_model.specs.Writing.{did_apply};
ghost use Rattle.util_steps.specs.Copying.{behind_place, refusing, source};
ghost use Rattle.util_steps.specs.Steps.{Finds, IsOnward, RunsNothing};
ghost use Rattle.util_steps.specs.Taking.{IsReady, Takes};

use crate::calls::{Fault, SetRef, apply};
use vol_model::{Attr, BlockBuf, CheckErr, Machine, Op, Place, Refusal, Stop};

/// Empties a set: its blocks go, and it takes the record format, the option codes and the lengths of these attributes.
pub fn empty<M: Machine>(
    machine: &mut M,
    to: &SetRef,
    attr: &Attr,
) -> Result<Result<(), Fault>, Stop>
    requires { IsReady M.Machine machine.old }
    ensures takes { Takes M.Machine (λ shelf. refusing (did_apply shelf (Empty to.now.v to.now.dsn attr.now))) machine.old machine.new result }
    ensures memory { IsTrue M.tells → IsErrOf result Stop.Memory → (M.meaning machine.new).state ≡ (M.meaning machine.old).state }
{
    let op = Op::Empty {
        v: to.v,
        dsn: to.dsn,
        attr: *attr,
    };
    apply(machine, &op)
}

/// The place after a block's.
pub fn place_behind(place: Place) -> Place
    requires track { place.tt < 65535 }
    requires record_number { place.r ≤ 255 }
    ensures behind { result ≡ behind_place place }
    ensures onward { IsOnward place result }
{
    if place.r == 255 {
        Place {
            tt: place.tt + 1,
            r: 0,
        }
    } else {
        Place {
            tt: place.tt,
            r: place.r + 1,
        }
    }
}

/// Reads the first block of a set at or after a place; false where there is none.
pub fn next_block<M: Machine>(
    machine: &mut M,
    from: &SetRef,
    place: Place,
    buf: &mut BlockBuf,
) -> Result<Result<bool, Fault>, Stop>
    requires sound { IsTrue (M.status machine.old).is_sound }
    ensures found { IsTrue M.tells → IfOk result (λ answer. Finds answer (source (M.meaning machine.old).state from.now) place buf.new) }
    ensures runs { IsTrue M.tells → RunsNothing M.tells_prints (M.meaning machine.old) (M.meaning machine.new) result }
    ensures same { IsTrue M.tells → Same (M.meaning machine.old) (M.meaning machine.new) }
    ensures memory { IsErrOf result Stop.Memory → ⊥ }
    ensures writer { IsTrue M.tells → M.writer machine.new ≡ M.writer machine.old }
    ensures onward { IfOk result (λ answer. IfOk answer (λ more. IsTrue more → is_before buf.new.place place ≡ false)) }
    ensures lawful { IfOk result (λ answer. IfOk answer (λ more. IsTrue more → IsLawfulBlock buf.new)) }
    ensures promise { IsTrue M.tells → Keeps (M.meaning machine.old).clock (M.promise machine.old) (M.promise machine.new) }
    ensures count { (M.status machine.new).done ≡ (M.status machine.old).done }
    ensures faults { RunCall (M.status machine.old).is_open (M.status machine.old) (M.status machine.new) result }
{
    match machine.read_into(from.v, &from.dsn, place, buf) {
        Ok(more) => Ok(Ok(more)),
        Err(CheckErr::Unreadable(track)) => Ok(Err(Fault::Refused(Refusal::Unreadable(track)))),
        Err(CheckErr::Device) => Err(Stop::Device),
    }
}
