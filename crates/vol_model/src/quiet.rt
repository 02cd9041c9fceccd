//! A machine that prints nothing.
use crate::answers::{CheckErr, MachErr, Mode, ReadErr, SetInfo, VolumeInfo, WorkErr};
use crate::buffers::BlockBuf;
use crate::catalogs::{CatNode, CatPath};
use crate::contents::{Block, Entry, Place, Run};
use crate::machine::Machine;
use crate::requests::Op;
use ebcdic_names::{Dsn, Name8};
/// The machine within, but for what it prints: that is dropped, and not told.
///
/// The bytes that the machine within has printed stay as they are from `new` to `close`, and a stop leaves just them.
#[derive(Debug, Drop)]
pub struct Quiet<M> {
    machine: M,
}

impl<M: Machine> Quiet<M> {
    ghost use Rattle.std.specs.Prelude.{◌≡◌, ℕ, List, IsTrue};
    ghost use Rattle.vol_model.specs.Calls.{Bytes, PrintedSince};
    ghost use Rattle.vol_model.specs.Quiet.{quiet_promise};

    /// A quiet machine over this one.
    pub fn new(machine: M) -> Quiet<M>
        ensures machine { result.machine ≡ machine }
        ensures printed { quiet_promise M.tells_prints (M.meaning result.machine) (M.promise result.machine) (M.meaning machine).clock (Bytes (M.meaning machine).printed) }
    {
        Quiet { machine }
    }

    /// The machine within.
    pub fn close(self) -> M
        ensures machine { result ≡ self.machine }
        ensures printed { (t : ℕ) (bytes : List ℕ) → quiet_promise M.tells_prints (M.meaning self.machine) (M.promise self.machine) t (Bytes bytes) → IsTrue M.tells_prints → PrintedSince (M.meaning result) t bytes }
    {
        let Quiet { machine } = self;
        machine
    }
}

impl<M: Machine> Machine for Quiet<M> {
    ghost use Rattle.std.specs.Prelude.{false, ◌&&◌};
    ghost use Rattle.vol_model.specs.Quiet.{quiet_promise, quiet_status};

    ghost tells = { M.tells };

    ghost tells_prints = { false };

    ghost roomy = { M.roomy };

    ghost meaning = { λ quiet. M.meaning quiet.machine };

    ghost writer = { λ quiet. M.writer quiet.machine };

    ghost status = { λ quiet. quiet_status (M.tells && M.tells_prints) (M.meaning quiet.machine) (M.status quiet.machine) };

    ghost promise = { λ quiet. quiet_promise M.tells_prints (M.meaning quiet.machine) (M.promise quiet.machine) };

    ghost stays = { λ quiet. M.stays quiet.machine };

    ghost lawful = { λ quiet. M.lawful quiet.machine };

    ghost durable = { λ quiet. M.durable quiet.machine };

    ghost leaves_state = { λ quiet. M.leaves_state quiet.machine };

    ghost counts_now = { λ quiet. M.counts_now quiet.machine };

    ghost only_now = { λ quiet. M.only_now quiet.machine };

    fn is_sound(&self) -> bool {
        self.machine.is_sound()
    }

    fn done(&self) -> u64 {
        self.machine.done()
    }

    fn volume(&self, v: u8) -> Option<VolumeInfo> {
        self.machine.volume(v)
    }

    fn name_at(&mut self, v: u8, k: u32) -> Result<Option<Dsn>, WorkErr> {
        self.machine.name_at(v, k)
    }

    fn attr(&mut self, v: u8, dsn: &Dsn) -> Result<Option<SetInfo>, WorkErr> {
        self.machine.attr(v, dsn)
    }

    fn extent(&mut self, v: u8, dsn: &Dsn, k: u8) -> Result<Option<Run>, WorkErr> {
        self.machine.extent(v, dsn, k)
    }

    fn entry(&mut self, v: u8, dsn: &Dsn, name: &Name8) -> Result<Option<Entry>, ReadErr> {
        self.machine.entry(v, dsn, name)
    }

    fn entry_at(&mut self, v: u8, dsn: &Dsn, k: u32) -> Result<Option<Entry>, ReadErr> {
        self.machine.entry_at(v, dsn, k)
    }

    fn cat_node(&mut self, v: u8, path: &CatPath) -> Result<Option<CatNode>, ReadErr> {
        self.machine.cat_node(v, path)
    }

    fn cat_child_at(&mut self, v: u8, path: &CatPath, k: u32) -> Result<Option<Name8>, ReadErr> {
        self.machine.cat_child_at(v, path, k)
    }

    fn read_block(&mut self, v: u8, dsn: &Dsn, from: Place) -> Result<Option<Block>, ReadErr> {
        self.machine.read_block(v, dsn, from)
    }

    fn read_into(
        &mut self,
        v: u8,
        dsn: &Dsn,
        from: Place,
        block: &mut BlockBuf,
    ) -> Result<bool, CheckErr> {
        self.machine.read_into(v, dsn, from, block)
    }

    fn apply(&mut self, op: &Op) -> Result<(), MachErr> {
        self.machine.apply(op)
    }

    fn begin(&mut self, v: u8, dsn: &Dsn, mode: Mode) -> Result<(), MachErr> {
        self.machine.begin(v, dsn, mode)
    }

    fn put(&mut self, key: &[u8], payload: &[u8]) -> Result<Place, MachErr> {
        self.machine.put(key, payload)
    }

    fn commit(&mut self) -> Result<(), MachErr> {
        self.machine.commit()
    }

    fn abandon(&mut self) {
        self.machine.abandon();
    }

    fn print(&mut self, _bytes: &[u8]) -> Result<(), MachErr> {
        Ok(())
    }
}
