//! Operations whose refusals are outcomes.
ghost use Rattle.std.specs.Prelude.{◌≡◌, IsErrOf, IsTrue};
ghost use Rattle.vol_model.specs.Lawful.{IsLawfulOp};
ghost use Rattle.util_steps.specs.Taking.{IsReady, Takes};
ghost use Rattle.util_program.specs.Outcomes.{outcome_for, performed};

use util_steps::{Fault, apply};
use util_syntax::Outcome;
use vol_model::{Machine, Op, Stop};

/// A fault of steps as the outcome of a statement.
pub fn outcome_for(fault: Fault) -> Outcome
    ensures { result ≡ outcome_for fault }
{
    match fault {
        Fault::Refused(refusal) => Outcome::Refused(refusal),
        Fault::BadRecord => Outcome::BadRecord,
    }
}

/// Does one operation. Where memory runs out it isn't done.
pub fn perform<M: Machine>(machine: &mut M, op: &Op) -> Result<Result<(), Outcome>, Stop>
    requires ready { IsReady M.Machine machine.old }
    requires lawful { IsLawfulOp op.now }
    ensures takes { Takes M.Machine (λ shelf. performed shelf op.now) machine.old machine.new result }
    ensures memory { IsTrue M.tells → IsErrOf result Stop.Memory → (M.meaning machine.new).state ≡ (M.meaning machine.old).state }
{
    match apply(machine, op)? {
        Ok(()) => Ok(Ok(())),
        Err(fault) => Ok(Err(outcome_for(fault))),
    }
}
