//! The blocks of a member, put to a library as a whole.
ghost use Rattle.std.specs.Prelude.{◌≡◌, ◌≤◌, ◌+◌, ◌++◌, ◌∷◌, [], Ok, List, length, map, vec_capacity, vec_len, IsTrue, IsErrOf, IfOk, OnOk};
ghost use Rattle.vol_model.specs.declared.contents.Block.{Block};
ghost use Rattle.vol_model.specs.Places.{content};
ghost use Rattle.vol_model.specs.Reading.{blocks_from};
ghost use Rattle.vol_model.specs.Runs.{Works};
ghost use Rattle.vol_model.specs.Writing.{begun, with_puts};
ghost use Rattle.util_steps.specs.Copying.{did_all, did_block, did_blocks, filled, source, target};
ghost use Rattle.util_steps.specs.Taking.{IsReady, Takes};
ghost use Rattle.record_files.specs.Calls.{IsWriting, PutsCall};
ghost use Rattle.iebcopy_util.specs.Steps.{HasBlocks, blocks_at, put_places};

use util_steps::{Fault, SetRef, begin, commit, next_block, put_block};
use vol_model::{BlockBuf, Machine, Mode, Place, Stop};

// Puts the block at a place of a library, and gives the place of its copy.
fn put_at<M: Machine>(
    machine: &mut M,
    buf: &mut BlockBuf,
    from: &SetRef,
    place: Place,
) -> Result<Result<Place, Fault>, Stop>
    requires { IsWriting M.Machine machine.old }
    ensures works { IsTrue M.tells → (bs rest : List Block) (b : Block) → source (M.meaning machine.old).state from.now ≡ Ok bs → blocks_from place bs ≡ b ∷ rest → Works M.tells_prints (did_block (M.meaning machine.old).state (M.writer machine.old) b) (M.meaning machine.old) (M.meaning machine.new) (M.status machine.old).done (M.status machine.new).done result }
    ensures writer { IsTrue M.tells → (bs rest : List Block) (b : Block) → source (M.meaning machine.old).state from.now ≡ Ok bs → blocks_from place bs ≡ b ∷ rest → IfOk result (λ answer. OnOk answer (M.writer machine.new ≡ with_puts (M.writer machine.old) (content b ∷ []))) }
    ensures memory { IsTrue M.roomy → IsErrOf result Stop.Memory → ⊥ }
    ensures call { PutsCall M.Machine machine.old machine.new result }
{
    match next_block(machine, from, place, buf)? {
        Ok(true) => put_block(machine, buf),
        Ok(false) => Ok(Err(Fault::BadRecord)),
        Err(fault) => Ok(Err(fault)),
    }
}

// Puts the blocks at these places of a library, and adds the places of their copies, for which
// there is room.
fn put_copies<M: Machine>(
    machine: &mut M,
    buf: &mut BlockBuf,
    from: &SetRef,
    at: &[Place],
    to: &mut Vec<Place>,
) -> Result<Result<(), Fault>, Stop>
    requires writing { IsWriting M.Machine machine.old }
    requires found { IsTrue M.tells → HasBlocks (source (M.meaning machine.old).state from.now) at.now }
    requires room { vec_len to.old + length at.now ≤ vec_capacity to.old }
    ensures works { IsTrue M.tells → Works M.tells_prints (did_blocks (M.meaning machine.old).state (M.writer machine.old) (blocks_at (source (M.meaning machine.old).state from.now) at.now)) (M.meaning machine.old) (M.meaning machine.new) (M.status machine.old).done (M.status machine.new).done result }
    ensures writer { IsTrue M.tells → IfOk result (λ answer. OnOk answer (M.writer machine.new ≡ with_puts (M.writer machine.old) (map content (blocks_at (source (M.meaning machine.old).state from.now) at.now)))) }
    ensures to { IsTrue M.tells → IfOk result (λ answer. OnOk answer (to.new.items ≡ to.old.items ++ put_places (M.meaning machine.old).state (M.writer machine.old) (map content (blocks_at (source (M.meaning machine.old).state from.now) at.now)))) }
    ensures memory { IsTrue M.roomy → IsErrOf result Stop.Memory → ⊥ }
    ensures call { PutsCall M.Machine machine.old machine.new result }
{
    let mut rest = at;
    loop {
        let (first, behind) = match rest.split_first() {
            Some(parts) => parts,
            None => return Ok(Ok(())),
        };
        match put_at(machine, buf, from, *first)? {
            Ok(place) => {
                to.push(place).unwrap();
                rest = behind;
            }
            Err(fault) => return Ok(Err(fault)),
        }
    }
}

// Writes the blocks at these places of a library by a writer that has just begun, and closes it.
fn write_copies<M: Machine>(
    machine: &mut M,
    buf: &mut BlockBuf,
    from: &SetRef,
    at: &[Place],
    to: &mut Vec<Place>,
) -> Result<Result<(), Fault>, Stop>
    requires writing { IsWriting M.Machine machine.old }
    requires begins { IsTrue M.tells → M.writer machine.old ≡ begun (M.writer machine.old).target }
    requires found { IsTrue M.tells → HasBlocks (source (M.meaning machine.old).state from.now) at.now }
    requires room { vec_len to.old + length at.now ≤ vec_capacity to.old }
    ensures takes { Takes M.Machine (λ shelf. did_all shelf (M.writer machine.old).target (blocks_at (source shelf from.now) at.now)) machine.old machine.new result }
    ensures to { IsTrue M.tells → IfOk result (λ answer. OnOk answer (to.new.items ≡ to.old.items ++ put_places (M.meaning machine.old).state (M.writer machine.old) (map content (blocks_at (source (M.meaning machine.old).state from.now) at.now)))) }
    ensures memory { IsTrue M.roomy → IsErrOf result Stop.Memory → ⊥ }
{
    match put_copies(machine, buf, from, at, to) {
        Ok(Ok(())) => commit(machine),
        Ok(Err(fault)) => {
            machine.abandon();
            Ok(Err(fault))
        }
        Err(Stop::Memory) => {
            machine.abandon();
            Err(Stop::Memory)
        }
        Err(Stop::Device) => Err(Stop::Device),
        Err(Stop::Print) => Err(Stop::Print),
    }
}

/// Writes the blocks at these places of a library to another as a whole, and adds the places of
/// their copies, for which there is room.
pub fn write_area<M: Machine>(
    machine: &mut M,
    buf: &mut BlockBuf,
    from: &SetRef,
    out: &SetRef,
    at: &[Place],
    to: &mut Vec<Place>,
) -> Result<Result<(), Fault>, Stop>
    requires ready { IsReady M.Machine machine.old }
    requires found { IsTrue M.tells → HasBlocks (source (M.meaning machine.old).state from.now) at.now }
    requires room { vec_len to.old + length at.now ≤ vec_capacity to.old }
    ensures takes { Takes M.Machine (λ shelf. filled shelf out.now Mode.Area (blocks_at (source shelf from.now) at.now)) machine.old machine.new result }
    ensures to { IsTrue M.tells → IfOk result (λ answer. OnOk answer (to.new.items ≡ to.old.items ++ put_places (M.meaning machine.old).state (begun (target out.now Mode.Area)) (map content (blocks_at (source (M.meaning machine.old).state from.now) at.now)))) }
    ensures memory { IsTrue M.tells → IsTrue M.roomy → IsErrOf result Stop.Memory → (M.meaning machine.new).state ≡ (M.meaning machine.old).state }
{
    if let Err(fault) = begin(machine, out, Mode::Area)? {
        return Ok(Err(fault));
    }
    write_copies(machine, buf, from, at, to)
}
