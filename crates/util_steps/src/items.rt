//! The items of a program, one after another.
ghost use Rattle.std.specs.Prelude.{◌≡◌, ◌≤◌, ◌<◌, false, max, ℕ, List, IsTrue, IsFalse, IfOk, IfSome};
ghost use Rattle.vol_model.specs.declared.contents.Shelf.{Shelf};
ghost use Rattle.vol_model.specs.Calls.{Keeps};
ghost use Rattle.vol_model.specs.Events.{Item, code_of, events_of};
ghost use Rattle.vol_model.specs.Runs.{Counts, RunCall, Runs};
ghost use Rattle.util_steps.specs.Items.{DoesNext};

use vol_model::{Machine, Stop};

/// What is left of the items of a program.
pub trait Items<M: Machine> {
    /// The items that are still to come, on a shelf.
    ghost items: { Self → Shelf → List Item };

    /// How many they are at most.
    ghost most: { Self → ℕ };

    /// Does the next item, its operations and then its lines, and gives its code; `None` where no item is left.
    fn next(&mut self, machine: &mut M) -> Result<Option<u8>, Stop>
        requires sound { IsTrue (M.status machine.old).is_sound }
        requires closed { IsFalse (M.status machine.old).is_open }
        ensures item { IsTrue M.tells → DoesNext M.tells_prints (items self.old (M.meaning machine.old).state) (items self.new (M.meaning machine.new).state) (M.meaning machine.old) (M.meaning machine.new) (M.status machine.old).done (M.status machine.new).done result }
        ensures fewer { IfOk result (λ found. IfSome found (λ code. most self.new < most self.old)) }
        ensures small { IfOk result (λ found. IfSome found (λ code. code ≤ 16)) }
        ensures promise { IsTrue M.tells → Keeps (M.meaning machine.old).clock (M.promise machine.old) (M.promise machine.new) }
        ensures faults { RunCall false (M.status machine.old) (M.status machine.new) result };
}

/// Does all items that are left, and gives the highest code, 0 where there is none.
pub fn run_items<M: Machine, W: Items<M>>(machine: &mut M, work: &mut W) -> Result<u8, Stop>
    requires sound { IsTrue (M.status machine.old).is_sound }
    requires closed { IsFalse (M.status machine.old).is_open }
    ensures runs { IsTrue M.tells → Runs M.tells_prints (events_of (W.items work.old (M.meaning machine.old).state)) (M.meaning machine.old) (M.meaning machine.new) result }
    ensures code { IsTrue M.tells → IfOk result (λ code. code ≡ code_of (W.items work.old (M.meaning machine.old).state)) }
    ensures count { IsTrue M.tells → Counts (events_of (W.items work.old (M.meaning machine.old).state)) (M.status machine.old).done (M.status machine.new).done result }
    ensures small { IfOk result (λ code. code ≤ 16) }
    ensures promise { IsTrue M.tells → Keeps (M.meaning machine.old).clock (M.promise machine.old) (M.promise machine.new) }
    ensures faults { RunCall false (M.status machine.old) (M.status machine.new) result }
{
    let mut highest = 0;
    loop {
        match work.next(machine)? {
            Some(code) => highest = higher(highest, code),
            None => return Ok(highest),
        }
    }
}

// The higher of two codes.
fn higher(a: u8, b: u8) -> u8
    ensures { result ≡ max a b }
{
    if a < b { b } else { a }
}
