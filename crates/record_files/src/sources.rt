//! Records that are given one after another.
ghost use Rattle.std.specs.Prelude.{◌≡◌, ◌<◌, ℕ, List, IsTrue, IfOk};
ghost use Rattle.vol_model.specs.declared.contents.Shelf.{Shelf};
ghost use Rattle.record_files.specs.Calls.{ReadsBeside};
ghost use Rattle.record_files.specs.Sources.{Gives, KeepsSets};
ghost use Rattle.record_files.specs.Streams.{Stream};

use crate::taken::Taken;
use vol_model::{Machine, Stop};

/// Records that are read, or made of others, one after another.
pub trait RecordSource<M: Machine> {
    /// The records that are still to come, on a shelf, and whether a fault ends them.
    ghost stream: { Self → Shelf → Stream };

    /// The record that was given last.
    ghost given: { Self → List ℕ };

    /// How many records are still to come at most.
    ghost most: { Self → ℕ };

    /// Gives the next record, which `record` lends then. A writer may be open.
    fn next(&mut self, machine: &mut M) -> Result<Taken, Stop>
        requires sound { IsTrue (M.status machine.old).is_sound }
        ensures reads { ReadsBeside M.Machine (λ shelf taken. Gives taken (stream self.old shelf) (given self.new) (stream self.new shelf)) machine.old machine.new result }
        ensures fewer { IfOk result (λ taken. taken ≡ Taken.Record → most self.new < most self.old) };

    /// The record that was given last.
    fn record(&self) -> &[u8]
        ensures { result.now ≡ given self.now };

    /// The same records come where the sets have the same blocks.
    ghost stays: { (records : Self) (s u : Shelf) → KeepsSets s u → stream records u ≡ stream records s };
}
