//! Calls of a machine as steps of a utility: a refusal is an answer, and what ends a run is a stop.
ghost use Rattle.std.specs.Prelude.{◌≡◌, ◌≤◌, [], ◌∷◌, true, false, length, IsTrue, IsFalse, IsErrOf, IfOk, OnOk};
ghost use Rattle.vol_model.specs.declared.contents.Block.{Block};
ghost use Rattle.vol_model.specs.Calls.{Keeps};
ghost use Rattle.vol_model.specs.Lawful.{IsLawfulBlock, IsLawfulOp};
ghost use Rattle.vol_model.specs.Places.{content};
ghost use Rattle.vol_model.specs.Runs.{RunCall, Works};
ghost use Rattle.vol_model.specs.Writing.{begun, did_apply, did_begin, did_commit, with_puts};
ghost use Rattle.util_steps.specs.Copying.{did_block, refusing, target};
ghost use Rattle.util_steps.specs.Steps.{is_put};
ghost use Rattle.util_steps.specs.Taking.{IsReady, Takes};

use ebcdic_names::Dsn;
use vol_model::{BlockBuf, MachErr, Machine, Mode, Op, Place, Refusal, Stop};

/// A data set on a volume.
#[derive(Clone, Copy, Debug, PartialEq, Eq)]
pub struct SetRef {
    /// The volume's number on the shelf, from 0.
    pub v: u8,
    /// The name of the set.
    pub dsn: Dsn,
}

/// Why steps of a utility aren't done.
#[derive(Clone, Copy, Debug, PartialEq, Eq)]
pub enum Fault {
    /// An operation is refused.
    Refused(Refusal),
    /// A block has no data.
    BadRecord,
}

/// Does an operation. A refusal is answered; memory that runs out, or a failed device, ends the run.
pub fn apply<M: Machine>(machine: &mut M, op: &Op) -> Result<Result<(), Fault>, Stop>
    requires ready { IsReady M.Machine machine.old }
    requires lawful { IsLawfulOp op.now }
    ensures takes { Takes M.Machine (λ shelf. refusing (did_apply shelf op.now)) machine.old machine.new result }
    ensures memory { IsTrue M.tells → IsErrOf result Stop.Memory → (M.meaning machine.new).state ≡ (M.meaning machine.old).state }
{
    match machine.apply(op) {
        Ok(()) => Ok(Ok(())),
        Err(MachErr::Refused(refusal)) => Ok(Err(Fault::Refused(refusal))),
        Err(MachErr::Memory) => Err(Stop::Memory),
        Err(MachErr::Device) => Err(Stop::Device),
        Err(MachErr::Print) => unreachable!(),
    }
}

/// Opens a writer on a data set.
pub fn begin<M: Machine>(
    machine: &mut M,
    to: &SetRef,
    mode: Mode,
) -> Result<Result<(), Fault>, Stop>
    requires sound { IsTrue (M.status machine.old).is_sound }
    requires closed { IsFalse (M.status machine.old).is_open }
    ensures works { IsTrue M.tells → Works M.tells_prints (refusing (did_begin (M.meaning machine.old).state (target to.now mode))) (M.meaning machine.old) (M.meaning machine.new) (M.status machine.old).done (M.status machine.new).done result }
    ensures state { IsTrue M.tells → (M.meaning machine.new).state ≡ (M.meaning machine.old).state }
    ensures writer { IsTrue M.tells → IfOk result (λ answer. OnOk answer (M.writer machine.new ≡ begun (target to.now mode))) }
    ensures promise { IsTrue M.tells → Keeps (M.meaning machine.old).clock (M.promise machine.old) (M.promise machine.new) }
    ensures faults { RunCall (is_put result) (M.status machine.old) (M.status machine.new) result }
{
    match machine.begin(to.v, &to.dsn, mode) {
        Ok(()) => Ok(Ok(())),
        Err(MachErr::Refused(refusal)) => Ok(Err(Fault::Refused(refusal))),
        Err(MachErr::Memory) => Err(Stop::Memory),
        Err(MachErr::Device) => Err(Stop::Device),
        Err(MachErr::Print) => unreachable!(),
    }
}

/// Puts a block after those put so far, and gives its place; one without data is `BadRecord`.
pub fn put_bytes<M: Machine>(
    machine: &mut M,
    key: &[u8],
    payload: &[u8],
) -> Result<Result<Place, Fault>, Stop>
    requires sound { IsTrue (M.status machine.old).is_sound }
    requires opened { IsTrue (M.status machine.old).is_open }
    requires key { length key.now ≤ 255 }
    requires payload { length payload.now ≤ 32760 }
    ensures works { IsTrue M.tells → (b : Block) → key.now ≡ b.key → payload.now ≡ b.payload → Works M.tells_prints (did_block (M.meaning machine.old).state (M.writer machine.old) b) (M.meaning machine.old) (M.meaning machine.new) (M.status machine.old).done (M.status machine.new).done result }
    ensures writer { IsTrue M.tells → (b : Block) → key.now ≡ b.key → payload.now ≡ b.payload → IfOk result (λ answer. OnOk answer (M.writer machine.new ≡ with_puts (M.writer machine.old) (content b ∷ []))) }
    ensures promise { IsTrue M.tells → Keeps (M.meaning machine.old).clock (M.promise machine.old) (M.promise machine.new) }
    ensures memory { IsTrue M.roomy → IsErrOf result Stop.Memory → ⊥ }
    ensures later { IsTrue M.tells → (M.meaning machine.old).clock ≤ (M.meaning machine.new).clock }
    ensures faults { RunCall true (M.status machine.old) (M.status machine.new) result }
{
    if payload.is_empty() {
        return Ok(Err(Fault::BadRecord));
    }
    match machine.put(key, payload) {
        Ok(place) => Ok(Ok(place)),
        Err(MachErr::Refused(refusal)) => Ok(Err(Fault::Refused(refusal))),
        Err(MachErr::Memory) => Err(Stop::Memory),
        Err(MachErr::Device) => Err(Stop::Device),
        Err(MachErr::Print) => unreachable!(),
    }
}

/// Puts a block that was read, in the same way.
pub fn put_block<M: Machine>(machine: &mut M, buf: &BlockBuf) -> Result<Result<Place, Fault>, Stop>
    requires sound { IsTrue (M.status machine.old).is_sound }
    requires opened { IsTrue (M.status machine.old).is_open }
    requires lawful { IsLawfulBlock buf.now }
    ensures works { IsTrue M.tells → Works M.tells_prints (did_block (M.meaning machine.old).state (M.writer machine.old) buf.now) (M.meaning machine.old) (M.meaning machine.new) (M.status machine.old).done (M.status machine.new).done result }
    ensures writer { IsTrue M.tells → IfOk result (λ answer. OnOk answer (M.writer machine.new ≡ with_puts (M.writer machine.old) (content buf.now ∷ []))) }
    ensures memory { IsTrue M.roomy → IsErrOf result Stop.Memory → ⊥ }
    ensures promise { IsTrue M.tells → Keeps (M.meaning machine.old).clock (M.promise machine.old) (M.promise machine.new) }
    ensures faults { RunCall true (M.status machine.old) (M.status machine.new) result }
{
    put_bytes(machine, buf.key(), buf.payload())
}

/// Closes the writer, whose blocks become those of the set. It is closed whatever the answer is.
pub fn commit<M: Machine>(machine: &mut M) -> Result<Result<(), Fault>, Stop>
    requires sound { IsTrue (M.status machine.old).is_sound }
    requires opened { IsTrue (M.status machine.old).is_open }
    ensures works { IsTrue M.tells → Works M.tells_prints (refusing (did_commit (M.meaning machine.old).state (M.writer machine.old))) (M.meaning machine.old) (M.meaning machine.new) (M.status machine.old).done (M.status machine.new).done result }
    ensures memory { IsTrue M.roomy → IsErrOf result Stop.Memory → ⊥ }
    ensures promise { IsTrue M.tells → Keeps (M.meaning machine.old).clock (M.promise machine.old) (M.promise machine.new) }
    ensures faults { RunCall false (M.status machine.old) (M.status machine.new) result }
{
    match machine.commit() {
        Ok(()) => Ok(Ok(())),
        Err(MachErr::Refused(refusal)) => Ok(Err(Fault::Refused(refusal))),
        Err(MachErr::Memory) => {
            machine.abandon();
            Err(Stop::Memory)
        }
        Err(MachErr::Device) => Err(Stop::Device),
        Err(MachErr::Print) => unreachable!(),
    }
}
