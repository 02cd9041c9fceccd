//! Operations keep a lawful shelf lawful: those that may be asked for, and those of a writer, which aren't.
#![tactic(auto)]

ghost use Rattle.std.specs.Prelude.{ℕ, List, ◌++◌};
ghost use Rattle.std.specs.List.{AllByRecursion};
ghost use Rattle.vol_model.specs.declared.contents.Shelf.{Shelf};
ghost use Rattle.vol_model.specs.declared.requests.Op.{Op};
ghost use Rattle.vol_model.specs.Events.{Event, StopsIn, after_operations, operations_of};
ghost use Rattle.vol_model.specs.Lawful.{IsLawful, IsLawfulOp};
ghost use Rattle.vol_model.specs.Places.{Content};
ghost use Rattle.vol_model.specs.Writing.{OpenWriter, Target, begun, did_commit, did_put, did_write};
ghost use Rattle.shelf_laws.specs.Laws.{KeepsLawful, MayPut, RecordsPut, StaysLawful, StaysReady};
ghost use Rattle.shelf_laws.specs.Ready.{IsContent, IsReady};

/// A shelf stays lawful under each operation that may be asked for.
pub fn step_law()
    ensures { (op : Op) → IsLawfulOp op → KeepsLawful op }
{}

/// A writer is ready when it is opened.
pub fn begin_law()
    ensures { (s : Shelf) (t : Target) → IsReady s (begun t) }
{}

/// A put keeps a lawful shelf lawful, and the writer ready, also where it is refused or stops on its way. Once it is done,
/// what was put has room as well.
pub fn put_law()
    ensures lawful { (s : Shelf) (w : OpenWriter) (c : Content) →
        MayPut s w c → StaysLawful s (did_put s w c).operations }
    ensures ready { (s : Shelf) (w : OpenWriter) (c : Content) →
        MayPut s w c → StaysReady s w (did_put s w c).operations }
    ensures room { (s : Shelf) (w : OpenWriter) (c : Content) → MayPut s w c → RecordsPut s w c }
{}

/// A commit keeps a lawful shelf lawful, with each of its operations: the last of them makes what was put the set's.
pub fn commit_law()
    ensures { (s : Shelf) (w : OpenWriter) →
        IsLawful s → IsReady s w → StaysLawful s (did_commit s w).operations }
{}

/// So does a set that is written as a whole.
pub fn write_law()
    ensures { (s : Shelf) (t : Target) (cs : List Content) →
        IsLawful s → AllByRecursion IsContent cs → StaysLawful s (did_write s t cs).operations }
{}

/// Operations that may be asked for keep a lawful shelf lawful, one after another, and operations after which it stays
/// so do, with others of that kind after them.
pub fn run_law()
    ensures asked { (s : Shelf) (ops : List Op) →
        AllByRecursion IsLawfulOp ops → IsLawful s → StaysLawful s ops }
    ensures joined { (s : Shelf) (first more : List Op) →
        StaysLawful s first → StaysLawful (after_operations s first) more → StaysLawful s (first ++ more) }
{}

/// A stop in events leaves a lawful shelf, where the shelf stays lawful after each of their operations.
pub fn stop_law()
    ensures { (s left : Shelf) (es : List Event) (printed : List ℕ) →
        StaysLawful s (operations_of es) → StopsIn s es left printed → IsLawful left }
{}
