//! The machine on which every utility works: a shelf of volumes, changed by one operation at a time, and a place to
//! print on.
ghost use Rattle.std.specs.Prelude.{◌≡◌, ◌≤◌, ◌<◌, ℕ, List, [], Bool, true, false, length, IsTrue, IsFalse, IsErrOf, IsErr, OnOk, IfOk, IfSome, ◌^◌, option_map, slice_get, find};
ghost use Rattle.std.specs.Str.{bytes_eq};
ghost use Rattle.stop_model.specs.Files.{File};
ghost use Rattle.stop_model.specs.Moments.{IsDurable, LeftNow, Meaning, Same};
ghost use Rattle.vol_model.specs.declared.contents.Entry.{Entry};
ghost use Rattle.vol_model.specs.declared.contents.Shelf.{Shelf};
ghost use Rattle.vol_model.specs.declared.refusals.Refusal.TheVariants.{NoRoom};
ghost use Rattle.vol_model.specs.Calls.{Applies, CountsOne, Does, Idles, IsIdle, IsUndone, Keeps, Known, MachineCall, Opens, Prints, ReadCall, Records, Status, open_at_memory, open_at_ok};
ghost use Rattle.vol_model.specs.Lawful.{IsLawful, IsLawfulBlock, IsLawfulEntry, IsLawfulOp};
ghost use Rattle.vol_model.specs.Places.{is_before};
ghost use Rattle.vol_model.specs.Reading.{GivesValue, LeavesBlank, Picks, ReadsInto, blocks_from, catalog_on, entries_in, extent_on, first, name_on, nodes_in, readable, set_info, volume_info};
ghost use Rattle.vol_model.specs.Shelf.{step};
ghost use Rattle.vol_model.specs.Trees.{child_at, named_path, node_at, true_path};
ghost use Rattle.vol_model.specs.Writing.{OpenWriter, begin_refusal, begun, body_on, did_commit, did_put, making_close, set_on};

use crate::answers::{CheckErr, MachErr, Mode, ReadErr, SetInfo, VolumeInfo, WorkErr};
use crate::buffers::BlockBuf;
use crate::catalogs::{CatNode, CatPath};
use crate::contents::{Block, Entry, Place, Run};
use crate::refusals::Refusal;
use crate::requests::Op;
use ebcdic_names::{Dsn, Name8};

/// A shelf of volumes, and a place to print on.
///
/// An operation is done as a whole or not at all, whatever stops it, and once it is answered no stop undoes it. A
/// refusal, or want of memory, leaves all as it was. After a fault of a device or of the printer the machine isn't
/// sound any more, and takes no further call but `is_sound`.
///
/// Clauses on the shelf hold where `tells` is true, and those on printed bytes where `tells_prints` is too. What
/// `status` tells is always known. Two laws, `counts_now` and `only_now`, ask for no `tells`: a machine that tells
/// nothing has some meaning all the same, and gives one that meets them.
pub trait Machine {
    /// Whether the machine tells its shelf.
    ghost tells: { Bool };

    /// Whether it tells what it printed.
    ghost tells_prints: { Bool };

    /// Whether `put` and `commit` never want memory.
    ghost roomy: { Bool };

    /// The shelf, the printed bytes, and what a stop leaves of them.
    ghost meaning: { Self → Meaning Shelf };

    /// The writer, where one is open.
    ghost writer: { Self → OpenWriter };

    /// Whether it is sound and has a writer open, how many operations it did, what it stands on, and its counts of faults.
    ghost status: { Self → Status };

    /// What else it promises of every stop since a moment, by what was known at that moment.
    ghost promise: { Self → ℕ → Known → Type 0 };

    /// That every stop since a moment leaves just the files of that moment, which are these.
    ghost stays: { Self → ℕ → List File → Type 0 };

    /// Whether no fault has come so far.
    fn is_sound(&self) -> bool
        ensures { result ≡ (status self.now).is_sound };

    /// How many operations were done since it was made.
    fn done(&self) -> u64
        ensures { result ≡ (status self.now).done };

    /// A volume in short.
    fn volume(&self, v: u8) -> Option<VolumeInfo>
        requires { IsTrue (status self.now).is_sound }
        ensures { IsTrue tells → result ≡ option_map volume_info (slice_get (meaning self.now).state.volumes v) };

    /// The name of the k-th data set of a volume, from 0.
    fn name_at(&mut self, v: u8, k: u32) -> Result<Option<Dsn>, WorkErr>
        requires sound { IsTrue (status self.old).is_sound }
        ensures value { IsTrue tells → GivesValue result (name_on (meaning self.old).state v k) }
        ensures idle { IsTrue tells → Idles (meaning self.old) (meaning self.new) (writer self.old) (writer self.new) (promise self.old) (promise self.new) (stays self.old) (stays self.new) }
        ensures faults { ReadCall WorkErr.Device (status self.old) (status self.new) result };

    /// A data set in short.
    fn attr(&mut self, v: u8, dsn: &Dsn) -> Result<Option<SetInfo>, WorkErr>
        requires sound { IsTrue (status self.old).is_sound }
        ensures value { IsTrue tells → GivesValue result (option_map set_info (set_on (meaning self.old).state v dsn.now.bytes)) }
        ensures idle { IsTrue tells → Idles (meaning self.old) (meaning self.new) (writer self.old) (writer self.new) (promise self.old) (promise self.new) (stays self.old) (stays self.new) }
        ensures lawful { IfOk result (λ found. IfSome found (λ info. info.attr.secondary < 2 ^ 24)) }
        ensures faults { ReadCall WorkErr.Device (status self.old) (status self.new) result };

    /// The k-th extent of a data set, from 0.
    fn extent(&mut self, v: u8, dsn: &Dsn, k: u8) -> Result<Option<Run>, WorkErr>
        requires sound { IsTrue (status self.old).is_sound }
        ensures value { IsTrue tells → GivesValue result (extent_on (meaning self.old).state v dsn.now.bytes k) }
        ensures idle { IsTrue tells → Idles (meaning self.old) (meaning self.new) (writer self.old) (writer self.new) (promise self.old) (promise self.new) (stays self.old) (stays self.new) }
        ensures faults { ReadCall WorkErr.Device (status self.old) (status self.new) result };

    /// The entry of this name in a directory.
    fn entry(&mut self, v: u8, dsn: &Dsn, name: &Name8) -> Result<Option<Entry>, ReadErr>
        requires sound { IsTrue (status self.old).is_sound }
        ensures value { IsTrue tells → Picks result (entries_in (body_on (meaning self.old).state v dsn.now.bytes)) (λ es. find (λ (e : Entry). bytes_eq e.name.bytes name.now.bytes) es) }
        ensures idle { IsTrue tells → Idles (meaning self.old) (meaning self.new) (writer self.old) (writer self.new) (promise self.old) (promise self.new) (stays self.old) (stays self.new) }
        ensures lawful { IfOk result (λ found. IfSome found IsLawfulEntry) }
        ensures faults { ReadCall ReadErr.Device (status self.old) (status self.new) result };

    /// The k-th entry of a directory, from 0.
    fn entry_at(&mut self, v: u8, dsn: &Dsn, k: u32) -> Result<Option<Entry>, ReadErr>
        requires sound { IsTrue (status self.old).is_sound }
        ensures value { IsTrue tells → Picks result (entries_in (body_on (meaning self.old).state v dsn.now.bytes)) (λ es. slice_get es k) }
        ensures idle { IsTrue tells → Idles (meaning self.old) (meaning self.new) (writer self.old) (writer self.new) (promise self.old) (promise self.new) (stays self.old) (stays self.new) }
        ensures lawful { IfOk result (λ found. IfSome found IsLawfulEntry) }
        ensures faults { ReadCall ReadErr.Device (status self.old) (status self.new) result };

    /// The first block of a sequential set, or of the members of a partitioned one, at or after a place.
    fn read_block(&mut self, v: u8, dsn: &Dsn, from: Place) -> Result<Option<Block>, ReadErr>
        requires sound { IsTrue (status self.old).is_sound }
        ensures value { IsTrue tells → Picks result (readable (body_on (meaning self.old).state v dsn.now.bytes)) (λ bs. first (blocks_from from bs)) }
        ensures idle { IsTrue tells → Idles (meaning self.old) (meaning self.new) (writer self.old) (writer self.new) (promise self.old) (promise self.new) (stays self.old) (stays self.new) }
        ensures onward { IfOk result (λ found. IfSome found (λ b. is_before b.place from ≡ false)) }
        ensures lawful { IfOk result (λ found. IfSome found IsLawfulBlock) }
        ensures faults { ReadCall ReadErr.Device (status self.old) (status self.new) result };

    /// The node at a path of the catalog. A path of one name that is an alias names the alias itself.
    fn cat_node(&mut self, v: u8, path: &CatPath) -> Result<Option<CatNode>, ReadErr>
        requires sound { IsTrue (status self.old).is_sound }
        ensures value { IsTrue tells → Picks result (nodes_in (catalog_on (meaning self.old).state v)) (λ nodes. node_at nodes (named_path nodes path.now)) }
        ensures idle { IsTrue tells → Idles (meaning self.old) (meaning self.new) (writer self.old) (writer self.new) (promise self.old) (promise self.new) (stays self.old) (stays self.new) }
        ensures faults { ReadCall ReadErr.Device (status self.old) (status self.new) result };

    /// The last name of the k-th node below a path of the catalog, from 0, in the order of the bytes under which they
    /// are stored: so the newest generation of a group comes first. The root is the empty path.
    fn cat_child_at(&mut self, v: u8, path: &CatPath, k: u32) -> Result<Option<Name8>, ReadErr>
        requires sound { IsTrue (status self.old).is_sound }
        ensures value { IsTrue tells → Picks result (nodes_in (catalog_on (meaning self.old).state v)) (λ nodes. child_at nodes (true_path nodes path.now) k) }
        ensures idle { IsTrue tells → Idles (meaning self.old) (meaning self.new) (writer self.old) (writer self.new) (promise self.old) (promise self.new) (stays self.old) (stays self.new) }
        ensures faults { ReadCall ReadErr.Device (status self.old) (status self.new) result };

    /// Reads what `read_block` would give into a block; false where there is none. The block is blank then, and after an
    /// error. It takes no memory.
    fn read_into(
        &mut self,
        v: u8,
        dsn: &Dsn,
        from: Place,
        block: &mut BlockBuf,
    ) -> Result<bool, CheckErr>
        requires sound { IsTrue (status self.old).is_sound }
        ensures block { IsTrue tells → ReadsInto result (readable (body_on (meaning self.old).state v dsn.now.bytes)) from block.new }
        ensures blank { LeavesBlank result block.new }
        ensures idle { IsTrue tells → Idles (meaning self.old) (meaning self.new) (writer self.old) (writer self.new) (promise self.old) (promise self.new) (stays self.old) (stays self.new) }
        ensures onward { IfOk result (λ more. IsTrue more → is_before block.new.place from ≡ false) }
        ensures lawful { IfOk result (λ more. IsTrue more → IsLawfulBlock block.new) }
        ensures faults { ReadCall CheckErr.Device (status self.old) (status self.new) result };

    /// Does an operation. Blocks are written by a writer, and not so.
    ///
    /// `Refused` carries the first reason, by the order of `Refusal`.
    fn apply(&mut self, op: &Op) -> Result<(), MachErr>
        requires sound { IsTrue (status self.old).is_sound }
        requires closed { IsFalse (status self.old).is_open }
        requires lawful { IsLawfulOp op.now }
        ensures shelf { IsTrue tells → Applies op.now (meaning self.old) (meaning self.new) result }
        ensures promise { IsTrue tells → Keeps (meaning self.old).clock (promise self.old) (promise self.new) }
        ensures stays { IsTrue tells → IsIdle (step (meaning self.old).state op.now) result → Keeps (meaning self.old).clock (stays self.old) (stays self.new) }
        ensures count { CountsOne result (status self.old).done (status self.new).done }
        ensures faults { MachineCall false (status self.old) (status self.new) result }
        ensures print { IsErrOf result MachErr.Print → ⊥ };

    /// Opens a writer on a data set, of which there is one at a time.
    ///
    /// `Refused` carries the reason for which blocks can't be written to the set: `NoVolume`, `NoSet`, `WrongKind` or
    /// `Unreadable`.
    fn begin(&mut self, v: u8, dsn: &Dsn, mode: Mode) -> Result<(), MachErr>
        requires sound { IsTrue (status self.old).is_sound }
        requires closed { IsFalse (status self.old).is_open }
        ensures answer { IsTrue tells → Opens result (begin_refusal (meaning self.old).state (record { v = v; dsn = dsn.now; mode = mode })) }
        ensures same { IsTrue tells → Same (meaning self.old) (meaning self.new) }
        ensures writer { IsTrue tells → OnOk result (writer self.new ≡ begun (record { v = v; dsn = dsn.now; mode = mode })) }
        ensures promise { IsTrue tells → Keeps (meaning self.old).clock (promise self.old) (promise self.new) }
        ensures stays { IsTrue tells → IsUndone result → Keeps (meaning self.old).clock (stays self.old) (stays self.new) }
        ensures count { (status self.new).done ≡ (status self.old).done }
        ensures faults { MachineCall (open_at_ok result) (status self.old) (status self.new) result }
        ensures print { IsErrOf result MachErr.Print → ⊥ };

    /// Puts a block after those put so far, and gives its place. It stands on the shelf once the writer is committed.
    ///
    /// Where an owned track is wanted for it, or for the end-of-file block in front of the first block of an area, the
    /// set is extended. `NoRoom` comes where the block fits no track, or such an extension is refused. The writer stands
    /// as before then, and where memory ran out; extensions that are done stay.
    fn put(&mut self, key: &[u8], payload: &[u8]) -> Result<Place, MachErr>
        requires sound { IsTrue (status self.old).is_sound }
        requires opened { IsTrue (status self.old).is_open }
        requires key { length key.now ≤ 255 }
        requires some { 0 < length payload.now }
        requires payload { length payload.now ≤ 32760 }
        ensures shelf { IsTrue tells → (let did = did_put (meaning self.old).state (writer self.old) (key.now, payload.now) in Does did.operations did (meaning self.old) (meaning self.new) (status self.old).done (status self.new).done result) }
        ensures writer { IsTrue tells → Records result (writer self.old) (key.now, payload.now) (writer self.new) }
        ensures promise { IsTrue tells → Keeps (meaning self.old).clock (promise self.old) (promise self.new) }
        ensures faults { MachineCall true (status self.old) (status self.new) result }
        ensures refused { (r : Refusal) → IsErrOf result (MachErr.Refused r) → r ≡ NoRoom }
        ensures roomy { IsTrue roomy → IsErrOf result MachErr.Memory → ⊥ }
        ensures print { IsErrOf result MachErr.Print → ⊥ };

    /// Makes the blocks put so far those of the set, and closes the writer.
    ///
    /// `NoRoom` comes where an end-of-file block of an area wants an extension that is refused; the writer is closed all
    /// the same. Where memory ran out it stands as before. Extensions that are done stay.
    fn commit(&mut self) -> Result<(), MachErr>
        requires sound { IsTrue (status self.old).is_sound }
        requires opened { IsTrue (status self.old).is_open }
        ensures shelf { IsTrue tells → Does (making_close (meaning self.old).state (writer self.old)).extends (did_commit (meaning self.old).state (writer self.old)) (meaning self.old) (meaning self.new) (status self.old).done (status self.new).done result }
        ensures writer { IsTrue tells → IsErrOf result MachErr.Memory → writer self.new ≡ writer self.old }
        ensures promise { IsTrue tells → Keeps (meaning self.old).clock (promise self.old) (promise self.new) }
        ensures faults { MachineCall (open_at_memory result) (status self.old) (status self.new) result }
        ensures refused { (r : Refusal) → IsErrOf result (MachErr.Refused r) → r ≡ NoRoom }
        ensures roomy { IsTrue roomy → IsErrOf result MachErr.Memory → ⊥ }
        ensures print { IsErrOf result MachErr.Print → ⊥ };

    /// Closes the writer; the blocks put so far are none of the set's. Nothing is written.
    fn abandon(&mut self)
        requires sound { IsTrue (status self.old).is_sound }
        requires opened { IsTrue (status self.old).is_open }
        ensures same { IsTrue tells → Same (meaning self.old) (meaning self.new) }
        ensures promise { IsTrue tells → Keeps (meaning self.old).clock (promise self.old) (promise self.new) }
        ensures stays { IsTrue tells → Keeps (meaning self.old).clock (stays self.old) (stays self.new) }
        ensures status { status self.new ≡ record (status self.old) { is_open = false } };

    /// Prints the bytes.
    ///
    /// It isn't refused. After `Print` or `Device` a prefix of the bytes is printed.
    fn print(&mut self, bytes: &[u8]) -> Result<(), MachErr>
        requires sound { IsTrue (status self.old).is_sound }
        ensures shelf { IsTrue tells → Prints tells_prints bytes.now (meaning self.old) (meaning self.new) result }
        ensures writer { IsTrue tells → writer self.new ≡ writer self.old }
        ensures promise { IsTrue tells → Keeps (meaning self.old).clock (promise self.old) (promise self.new) }
        ensures stays { IsTrue tells → Keeps (meaning self.old).clock (stays self.old) (stays self.new) }
        ensures count { (status self.new).done ≡ (status self.old).done }
        ensures faults { MachineCall (status self.old).is_open (status self.old) (status self.new) result }
        ensures refused { (r : Refusal) → IsErrOf result (MachErr.Refused r) → ⊥ };

    /// The shelf of a sound machine is lawful.
    ghost lawful: { (m : Self) → IsTrue tells → IsTrue (status m).is_sound → IsLawful (meaning m).state };

    /// A stop of a sound machine leaves its shelf: nothing is pending.
    ghost durable: { (m : Self) → IsTrue tells → IsTrue (status m).is_sound → IsDurable (meaning m) };

    /// A stop now may leave the shelf as it is.
    ghost leaves_state: { (m : Self) → IsTrue tells → (meaning m).left (meaning m).state };

    /// One since any earlier moment may have left that too, as the printed bytes are now.
    ghost counts_now: { (m : Self) (t : ℕ) (shelf : Shelf) → t ≤ (meaning m).clock → (meaning m).left shelf → (meaning m).left_since t shelf (meaning m).printed };

    /// A stop since now leaves what one leaves now, and nothing else.
    ghost only_now: { (m : Self) (shelf : Shelf) (p : List ℕ) → (meaning m).left_since (meaning m).clock shelf p → LeftNow (meaning m) shelf p };
}
