//! The lines of items.
ghost use Rattle.std.specs.Prelude.{◌≡◌, ◌≤◌, [], ◌∷◌, IsTrue};
ghost use Rattle.util_steps.specs.Taking.{IsReady, Says, TakesItem};

use vol_model::{Line, MachErr, Machine, Stop};

/// Prints a line.
pub fn say<M: Machine>(machine: &mut M, line: &Line) -> Result<(), Stop>
    requires { IsReady M.Machine machine.old }
    ensures says { Says M.Machine (λ shelf. line.now ∷ []) machine.old machine.new result }
    ensures state { IsTrue M.tells → (M.meaning machine.new).state ≡ (M.meaning machine.old).state }
{
    match machine.print(line.as_bytes()) {
        Ok(()) => Ok(()),
        Err(MachErr::Refused(_)) => unreachable!(),
        Err(MachErr::Memory) => Err(Stop::Memory),
        Err(MachErr::Device) => Err(Stop::Device),
        Err(MachErr::Print) => Err(Stop::Print),
    }
}

/// Prints the line of an item that does no operation, and gives the item's code.
pub fn report<M: Machine>(machine: &mut M, line: &Line, code: u8) -> Result<u8, Stop>
    requires ready { IsReady M.Machine machine.old }
    requires small { code ≤ 16 }
    ensures item { TakesItem M.Machine (λ shelf. record { operations = []; lines = line.now ∷ []; code = code }) machine.old machine.new result }
    ensures state { IsTrue M.tells → (M.meaning machine.new).state ≡ (M.meaning machine.old).state }
{
    say(machine, line)?;
    Ok(code)
}
