//! The machine over the images of several packs.
ghost use Rattle.std.specs.Prelude.{◌≡◌, true, false, IsTrue, refl};
ghost use Rattle.stop_model.specs.Moments.{IsDurable};
ghost use Rattle.stop_model.proofs.MomentLemmas.{counts_now_seen, only_now_seen};
ghost use Rattle.shelf_machine.specs.Props.{shelf_props};
ghost use Rattle.shelf_machine.specs.Machine.{AreIndexes, shelf_under};
ghost use Rattle.shelf_machine.specs.Pending.{HasSlot, IsPendingBy};
ghost use Rattle.shelf_machine.specs.ReadyPacks.{AreReady, vols_of};

use crate::area_start::area_start_of;
use crate::committing::{close_writer, left_of};
use crate::libraries::{cached_directory, entry_at, entry_named, size_of};
use crate::open_err::OpenErr;
use crate::opening::open_packs;
use crate::puts::put_block;
use crate::reporting::{
    fault, is_sound_block, is_sound_closed, is_sound_front, is_sound_held, is_sound_into,
    is_sound_put, report,
};
use crate::writer::Writer;
use crate::writing::{abandoned, open_writer, operate_settled};
use crate::{blocks, reads};
use ebcdic_names::{Dsn, Name8};
use hall_core::Hall;
use pack_machine::{AreaStart, NO_AREA_START, Pack};
use std::alloc::Global;
use vol_model::{
    Block, BlockBuf, CatNode, CatPath, CheckErr, Entry, MachErr, Machine, Mode, Op, Place, ReadErr,
    Run, SetInfo, VolumeInfo, WorkErr,
};

/// The machine over the images of packs on 1 to 255 units; its volumes have the order of the units, from number 0.
///
/// It is sound as long as no call of its hall failed. It does all operations on space, names, blocks and entries; for
/// those on the catalog, and for the making of a SYSCTLG, it wants memory. `put` and `commit` never do: from its opening
/// on there is room for the free runs of each pack. It keeps each directory that was read, at its opening or later, as its
/// own operations change it.
#[derive(Drop)]
pub struct HallShelf<H: Hall> {
    hall: H,
    packs: Vec<Pack>,
    is_sound: bool,
    done: u64,
    writer: Option<Writer>,
    alloc: Global,
    pub ghost indexes: { AreIndexes (H.facts hall).units (vols_of packs.items) } by { Prim.hlevel shelf_props },
    pub ghost ready: { is_sound ≡ true → AreReady H.tells (H.facts hall) (H.meaning hall)
        packs.items } by { Prim.hlevel shelf_props },
    pub ghost slot: { is_sound ≡ true → HasSlot (vols_of packs.items) writer } by { Prim.hlevel shelf_props },
    pub ghost pending: { is_sound ≡ true → IsTrue H.tells → IsPendingBy (H.meaning hall)
        (H.facts hall).units (vols_of packs.items) writer } by { Prim.hlevel shelf_props },
}

impl<H: Hall> HallShelf<H> {
    ghost use Rattle.std.specs.Prelude.{◌<◌, ◌⊎◌, None, IfOk, IfErr, IsErrOf, OnOk, length};
    ghost use Rattle.shelf_machine.specs.Opening.{AreUnits, LeavesSafe, names_of};
    ghost use Rattle.shelf_machine.specs.Opened.{IsOpened, LeavesSettled, OpenCall, OpensShelf, RefusesShelf, hall_left};
    ghost use Rattle.stop_model.specs.Moments.{Same};
    ghost use Rattle.vol_model.specs.Calls.{Applies, CountsOne, Idles, IsIdle, IsUndone, Keeps, MachineCall, ReadCall, open_at_ok};
    ghost use Rattle.vol_model.specs.Lawful.{IsLawfulOp};
    ghost use Rattle.vol_model.specs.Shelf.{step};
    ghost use Rattle.vol_model.specs.Writing.{begin_refusal, begun, body_on};
    ghost use Rattle.shelf_machine.specs.Fronts.{IsFrontIn};
    ghost use Rattle.pack_machine.specs.Libraries.{HoldsLibrary, library_at};
    ghost use Rattle.shelf_machine.specs.Parts.{PromisesFiles, PromisesSafety, hall_of, is_sound, known_of, meaning_of, pack_names, status_of, writer_of};

    /// Opens the machine over the packs on these units: scans all, which walks each sequential and partitioned data set,
    /// compares their serials, and then repairs each pack that isn't settled.
    ///
    /// The error names the unit at which it stopped: the first whose pack breaks a rule of mounting, with the first rule
    /// that it breaks, or else the lowest whose serial an earlier one has (`SameSerial`). `Device` comes only where the
    /// count of device faults rose. After any other error nothing was written. A pack that is settled isn't
    /// written to. A stop at any moment leaves images that stand for the same volumes, each guarded or with the VTOC that
    /// it had (the bit of an interrupted update: this project's profile).
    pub fn open(alloc: Global, hall: H, units: &[u8]) -> Result<HallShelf<H>, OpenErr<H>>
        requires units { AreUnits (H.facts hall).units units.now }
        requires durable { IsTrue H.tells → IsDurable (H.meaning hall) }
        ensures opened { IfOk result (IsOpened units.now) }
        ensures shelf { IsTrue H.tells → IfOk result
            (OpensShelf (names_of (H.facts hall).units units.now) (H.meaning hall)) }
        ensures refused { IsTrue H.tells → IfErr result
            (RefusesShelf H.meaning (names_of (H.facts hall).units units.now) (H.meaning hall)) }
        ensures unit { IfErr result (λ e. e.unit < length units.now) }
        ensures stops { IsTrue H.tells → LeavesSafe (names_of (H.facts hall).units units.now)
            (H.meaning hall) (H.meaning (hall_left result)) }
        ensures faults { OpenCall (H.facts hall) result }
    {
        let mut hall = hall;
        match open_packs(alloc, &mut hall, units) {
            Ok(packs) => Ok(HallShelf {
                hall,
                packs,
                is_sound: true,
                done: 0,
                writer: None,
                alloc,
            }),
            Err(stopped) => Err(OpenErr {
                hall,
                unit: stopped.unit,
                why: stopped.why,
            }),
        }
    }

    /// The hall, as it is: nothing is called. After a sound machine its packs are settled; no write is pending but those
    /// of a writer that wasn't committed, and every stop leaves the shelf.
    pub fn close(self) -> H
        ensures hall { result ≡ hall_of self }
        ensures settled { IsTrue (is_sound self) → IsTrue H.tells
            → LeavesSettled self (pack_names self) }
    {
        self.hall
    }

    // Holds the directory of a partitioned data set, and gives its number among those of its pack; `None` where the data set
    // has none.
    fn hold(&mut self, v: u8, dsn: &Dsn) -> Result<Option<usize>, ReadErr>
        requires sound { IsTrue (is_sound self.old) }
        ensures library { IsTrue H.tells → HoldsLibrary result (body_on (meaning_of self.old).state v dsn.now.bytes)
            (λ at. library_at (known_of self.new) v at) }
        ensures idle { IsTrue H.tells → Idles (meaning_of self.old) (meaning_of self.new) (writer_of self.old)
            (writer_of self.new) (λ t known. PromisesSafety self.old t known) (λ t known. PromisesSafety self.new t known)
            (λ t files. PromisesFiles self.old t files) (λ t files. PromisesFiles self.new t files) }
        ensures faults { ReadCall ReadErr.Device (status_of self.old) (status_of self.new) result }
    {
        let hall = &mut self.hall;
        let held = cached_directory(self.alloc, hall, &mut self.packs, v, dsn);
        self.is_sound = is_sound_held(&held);
        held
    }

    // Holds the library of a data set that is to be emptied.
    fn prepare(&mut self, op: &Op) -> Result<(), MachErr>
        requires sound { IsTrue (is_sound self.old) }
        ensures idle { IsTrue H.tells → Idles (meaning_of self.old) (meaning_of self.new) (writer_of self.old)
            (writer_of self.new) (λ t known. PromisesSafety self.old t known) (λ t known. PromisesSafety self.new t known)
            (λ t files. PromisesFiles self.old t files) (λ t files. PromisesFiles self.new t files) }
        ensures error { IfErr result (λ e. (e ≡ MachErr.Memory) ⊎ (e ≡ MachErr.Device)) }
        ensures faults { ReadCall MachErr.Device (status_of self.old) (status_of self.new) result }
    {
        let Op::Empty { v, dsn, .. } = op else {
            return Ok(());
        };
        match self.hold(*v, dsn) {
            Err(ReadErr::Memory) => Err(MachErr::Memory),
            Err(ReadErr::Device) => Err(MachErr::Device),
            _ => Ok(()),
        }
    }

    // Reads where the blocks begin that are written to a data set.
    fn front(&mut self, v: u8, dsn: &Dsn, mode: Mode) -> Result<AreaStart, MachErr>
        requires sound { IsTrue (is_sound self.old) }
        ensures front { IsTrue H.tells → IfOk result (λ front. IsFrontIn mode front
            (body_on (meaning_of self.old).state v dsn.now.bytes)) }
        ensures idle { IsTrue H.tells → Idles (meaning_of self.old) (meaning_of self.new) (writer_of self.old)
            (writer_of self.new) (λ t known. PromisesSafety self.old t known) (λ t known. PromisesSafety self.new t known)
            (λ t files. PromisesFiles self.old t files) (λ t files. PromisesFiles self.new t files) }
        ensures error { IfErr result (λ e. e ≡ MachErr.Device) }
        ensures faults { ReadCall MachErr.Device (status_of self.old) (status_of self.new) result }
    {
        let Mode::Area = mode else {
            return Ok(NO_AREA_START);
        };
        let hall = &mut self.hall;
        let front = area_start_of(hall, &mut self.packs, v, dsn);
        self.is_sound = is_sound_front(&front);
        front
    }

    // Opens a writer that begins so.
    fn start(&mut self, v: u8, dsn: &Dsn, mode: Mode, front: AreaStart) -> Result<(), MachErr>
        requires sound { IsTrue (is_sound self.old) }
        requires well { IsTrue H.tells → begin_refusal (meaning_of self.old).state
            (record { v = v; dsn = dsn.now; mode = mode }) ≡ None }
        requires front { IsTrue H.tells → IsFrontIn mode front
            (body_on (meaning_of self.old).state v dsn.now.bytes) }
        ensures same { IsTrue H.tells → Same (meaning_of self.old) (meaning_of self.new) }
        ensures writer { IsTrue H.tells → OnOk result (writer_of self.new
            ≡ begun (record { v = v; dsn = dsn.now; mode = mode })) }
        ensures promise { IsTrue H.tells → Keeps (meaning_of self.old).clock (λ t known. PromisesSafety self.old t known)
            (λ t known. PromisesSafety self.new t known) }
        ensures stays { IsTrue H.tells → IsUndone result
            → Keeps (meaning_of self.old).clock (λ t files. PromisesFiles self.old t files)
            (λ t files. PromisesFiles self.new t files) }
        ensures error { IfErr result (λ e. (e ≡ MachErr.Memory) ⊎ (e ≡ MachErr.Device)) }
        ensures count { (status_of self.new).done ≡ (status_of self.old).done }
        ensures faults { MachineCall (open_at_ok result) (status_of self.old) (status_of self.new) result }
    {
        let hall = &mut self.hall;
        match open_writer(hall, &mut self.packs, &mut self.writer, v, dsn, mode, front) {
            Ok(true) => Ok(()),
            Ok(false) => Err(MachErr::Memory),
            Err(_) => Err(fault(&mut self.is_sound, MachErr::Device)),
        }
    }

    // Does an operation. `Empty` of a partitioned set that can be read wants memory unless its library is held.
    fn serve(&mut self, op: &Op) -> Result<(), MachErr>
        requires sound { IsTrue (is_sound self.old) }
        requires lawful { IsLawfulOp op.now }
        ensures shelf { IsTrue H.tells → Applies op.now (meaning_of self.old) (meaning_of self.new) result }
        ensures promise { IsTrue H.tells → Keeps (meaning_of self.old).clock (λ t known. PromisesSafety self.old t known)
            (λ t known. PromisesSafety self.new t known) }
        ensures stays { IsTrue H.tells → IsIdle (step (meaning_of self.old).state op.now) result
            → Keeps (meaning_of self.old).clock (λ t files. PromisesFiles self.old t files)
            (λ t files. PromisesFiles self.new t files) }
        ensures count { CountsOne result (status_of self.old).done (status_of self.new).done }
        ensures faults { MachineCall false (status_of self.old) (status_of self.new) result }
        ensures print { IsErrOf result MachErr.Print → ⊥ }
    {
        let hall = &mut self.hall;
        let ran = operate_settled(self.alloc, hall, &mut self.packs, &mut self.writer, op);
        report(&mut self.is_sound, &mut self.done, ran)
    }
}

impl<H: Hall> Machine for HallShelf<H> {
    ghost use Rattle.shelf_machine.specs.Parts.{PromisesFiles, PromisesSafety, meaning_of, pack_names, status_of, writer_of};
    ghost use Rattle.shelf_machine.specs.Lawful.{lawful_under};
    ghost use Rattle.shelf_machine.specs.PendingShelves.{kept_in, pending_durable};

    ghost tells = { H.tells };

    ghost tells_prints = { H.tells };

    ghost roomy = { true };

    ghost meaning = { λ m. meaning_of m };

    ghost writer = { λ m. writer_of m };

    ghost status = { λ m. status_of m };

    ghost promise = { λ m t known. PromisesSafety m t known };

    ghost stays = { λ m t files. PromisesFiles m t files };

    ghost lawful = { λ m told sound. lawful_under (H.meaning m.hall).state (H.facts m.hall).units (vols_of m.packs.items) m.indexes.few };

    ghost durable = { λ m told sound. pending_durable (H.meaning m.hall) (H.facts m.hall).units (vols_of m.packs.items) m.writer (kept_in (m.ready sound) told) (m.slot sound) (m.pending sound told) };

    ghost leaves_state = { λ m told. ((H.meaning m.hall).state, H.leaves_state m.hall, refl) };

    ghost counts_now = { λ m. counts_now_seen (shelf_under (pack_names m)) (H.meaning m.hall) (H.counts_now m.hall) };

    ghost only_now = { λ m. only_now_seen (shelf_under (pack_names m)) (H.meaning m.hall) (H.only_now m.hall) };

    fn is_sound(&self) -> bool {
        self.is_sound
    }

    fn done(&self) -> u64 {
        self.done
    }

    fn volume(&self, v: u8) -> Option<VolumeInfo> {
        reads::volume_on(&self.packs, v)
    }

    fn name_at(&mut self, v: u8, k: u32) -> Result<Option<Dsn>, WorkErr> {
        Ok(reads::name_on(&self.packs, v, k))
    }

    fn attr(&mut self, v: u8, dsn: &Dsn) -> Result<Option<SetInfo>, WorkErr> {
        let held = self.hold(v, dsn);
        match size_of(held, &self.packs, v) {
            Ok(size) => Ok(reads::info_on(&self.packs, v, dsn, size)),
            Err(error) => Err(error),
        }
    }

    fn extent(&mut self, v: u8, dsn: &Dsn, k: u8) -> Result<Option<Run>, WorkErr> {
        Ok(reads::extent_on(&self.packs, v, dsn, k))
    }

    fn entry(&mut self, v: u8, dsn: &Dsn, name: &Name8) -> Result<Option<Entry>, ReadErr> {
        match self.hold(v, dsn) {
            Ok(Some(at)) => entry_named(self.alloc, &self.packs, v, at, name),
            Ok(None) => Ok(None),
            Err(error) => Err(error),
        }
    }

    fn entry_at(&mut self, v: u8, dsn: &Dsn, k: u32) -> Result<Option<Entry>, ReadErr> {
        match self.hold(v, dsn) {
            Ok(Some(at)) => entry_at(self.alloc, &self.packs, v, at, k),
            Ok(None) => Ok(None),
            Err(error) => Err(error),
        }
    }

    fn read_block(&mut self, v: u8, dsn: &Dsn, from: Place) -> Result<Option<Block>, ReadErr> {
        let hall = &mut self.hall;
        let packs = &mut self.packs;
        let read = blocks::read_block(self.alloc, hall, packs, v, dsn, from);
        self.is_sound = is_sound_block(&read);
        read
    }

    fn cat_node(&mut self, v: u8, _path: &CatPath) -> Result<Option<CatNode>, ReadErr> {
        match reads::unread_catalog(&self.packs, v) {
            Some(track) => Err(ReadErr::Unreadable(track)),
            None => Ok(None),
        }
    }

    fn cat_child_at(&mut self, v: u8, _path: &CatPath, _k: u32) -> Result<Option<Name8>, ReadErr> {
        match reads::unread_catalog(&self.packs, v) {
            Some(track) => Err(ReadErr::Unreadable(track)),
            None => Ok(None),
        }
    }

    fn read_into(
        &mut self,
        v: u8,
        dsn: &Dsn,
        from: Place,
        block: &mut BlockBuf,
    ) -> Result<bool, CheckErr> {
        let hall = &mut self.hall;
        let packs = &mut self.packs;
        let read = blocks::read_into(hall, packs, v, dsn, from, block);
        self.is_sound = is_sound_into(&read);
        read
    }

    fn apply(&mut self, op: &Op) -> Result<(), MachErr> {
        match self.prepare(op) {
            Ok(()) => self.serve(op),
            Err(error) => Err(error),
        }
    }

    fn begin(&mut self, v: u8, dsn: &Dsn, mode: Mode) -> Result<(), MachErr> {
        if let Some(refusal) = reads::write_refusal(&self.packs, v, dsn, mode) {
            return Err(MachErr::Refused(refusal));
        }
        match self.front(v, dsn, mode) {
            Ok(front) => self.start(v, dsn, mode, front),
            Err(error) => Err(error),
        }
    }

    fn put(&mut self, key: &[u8], payload: &[u8]) -> Result<Place, MachErr> {
        let Some(mut writer) = self.writer else {
            unreachable!()
        };
        let put = put_block(
            &mut self.hall,
            &mut self.packs,
            &mut writer,
            &mut self.done,
            key,
            payload,
        );
        self.writer = Some(writer);
        self.is_sound = is_sound_put(&put);
        put
    }

    fn commit(&mut self) -> Result<(), MachErr> {
        let Some(mut writer) = self.writer else {
            unreachable!()
        };
        let closed = close_writer(&mut self.hall, &mut self.packs, &mut writer, &mut self.done);
        self.writer = left_of(&closed, writer);
        self.is_sound = is_sound_closed(&closed);
        closed
    }

    fn abandon(&mut self) {
        self.writer = abandoned(self.writer);
    }

    fn print(&mut self, bytes: &[u8]) -> Result<(), MachErr> {
        match self.hall.print(bytes) {
            Ok(()) => Ok(()),
            Err(_) => Err(fault(&mut self.is_sound, MachErr::Print)),
        }
    }
}
