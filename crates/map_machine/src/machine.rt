//! A machine in memory.
ghost use Rattle.std.specs.Prelude.{◌≡◌};
ghost use Rattle.vol_model.specs.Lawful.{IsLawful};
ghost use Rattle.vol_model.proofs.LawfulFacts.{IsLawful-prop};
ghost use Rattle.map_machine.specs.Open.{OpenCanCommit, OpenCanCommit-prop};

use crate::changes::{count_one, put_volume, step};
use crate::past::{Done, Target, Writer};
use crate::reads;
use crate::rooms::{Commit, Put, Room, begin_refusal, commit_of, put_of, room_and_next};
use crate::space::volume_info;
use ebcdic_names::{Dsn, Name8};
use plain_steps::{Content, Contents};
use shelf_laws::{begin_law, commit_law, put_law, step_law};
use std::alloc::{AllocError, Global};
use std::mem;
use vol_model::{
    Block, BlockBuf, CatNode, CatPath, CheckErr, Entry, MachErr, Machine, Mode, Op, Place, ReadErr,
    Refusal, Run, SetInfo, Shelf, Volume, VolumeInfo, WorkErr, volume_number,
};

/// A machine over a shelf in memory.
///
/// It promises nothing besides what every machine does. It knows what it held between its calls and nothing else, so a
/// stop in a print leaves all of the bytes or none, where another machine may leave a part of them.
#[derive(Debug, Drop)]
pub struct MapMachine {
    alloc: Global,
    shelf: Shelf,
    printed: Vec<u8>,
    log: Vec<Done>,
    done: u64,
    writer: Option<Writer>,
    ghost lawful: { IsLawful shelf } by { IsLawful-prop shelf },
    ghost ready: { OpenCanCommit shelf writer } by { OpenCanCommit-prop shelf writer },
}

impl MapMachine {
    ghost use Rattle.std.specs.Prelude.{◌<◌, ◌≤◌, [], Ok, Err, Some, true, false, IfErr, IsErrOf, IsTrue, length, option_map};
    ghost use Rattle.vol_model.specs.Calls.{Applies, CountsOne, Does, Prints, Records};
    ghost use Rattle.vol_model.specs.Shelf.{step};
    ghost use Rattle.vol_model.specs.declared.refusals.Refusal.{Refusal};
    ghost use Rattle.vol_model.specs.declared.refusals.Refusal.TheVariants.{NoRoom};
    ghost use Rattle.vol_model.specs.Writing.{did_commit, did_put, extension, making_close, making_room};
    ghost use Rattle.map_machine.specs.declared.past.Writer.{Writer};
    ghost use Rattle.map_machine.specs.Held.{held_of, meaning_of, open_after, status_of, writer_of};
    ghost use Rattle.map_machine.specs.Made.{Extends, MakesRoom};
    ghost use Rattle.map_machine.specs.Rooms.{target_in};
    ghost use Rattle.map_machine.specs.Steps.{Changes, with_changed};

    /// A machine that holds this lawful shelf and printed nothing; it is sound, and no fault is counted.
    pub fn new(alloc: Global, shelf: Shelf) -> MapMachine
        requires lawful { IsLawful shelf }
        ensures shelf { (meaning_of result).state ≡ shelf }
        ensures printed { (meaning_of result).printed ≡ [] }
        ensures status { status_of result ≡ record {
          is_sound = true;
          is_open = false;
          done = 0;
          base = [];
          dev_faults = 0;
          print_faults = 0;
        } }
    {
        MapMachine {
            alloc,
            shelf,
            printed: Vec::new(alloc),
            log: Vec::new(alloc),
            done: 0,
            writer: None,
        }
    }

    /// The shelf as it is now.
    pub fn shelf(&self) -> &Shelf
        ensures { result.now ≡ (meaning_of self.now).state }
    {
        &self.shelf
    }

    /// All bytes printed so far.
    pub fn printed(&self) -> &[u8]
        ensures { result.now ≡ (meaning_of self.now).printed }
    {
        self.printed.as_slice()
    }

    // Puts a volume in the place of the one of this number, with the record of that.
    fn change(&mut self, v: usize, after: Volume) -> Result<(), MachErr>
        requires inside { v < length (meaning_of self.old).state.volumes }
        requires lawful { IsLawful (with_changed (meaning_of self.old).state v after) }
        requires writer { OpenCanCommit (with_changed (meaning_of self.old).state v after) (held_of self.old).writer }
        ensures { Changes v after (held_of self.old) (held_of self.new) result }
    {
        if self.log.reserve(1).is_err() {
            return Err(MachErr::Memory);
        }
        let before = put_volume(self.alloc, &mut self.shelf, v, after);
        self.log.push(Done::Changed { v, before }).unwrap();
        self.done = count_one(self.done);
        Ok(())
    }

    // Does an operation that keeps the shelf lawful, unless it is refused.
    fn perform(&mut self, op: &Op) -> Result<(), MachErr>
        requires lawful { (after : Shelf) → step (meaning_of self.old).state op.now ≡ Ok after → IsLawful after }
        requires writer { (after : Shelf) → step (meaning_of self.old).state op.now ≡ Ok after → OpenCanCommit after (held_of self.old).writer }
        ensures shelf { Applies op.now (meaning_of self.old) (meaning_of self.new) result }
        ensures count { CountsOne result (status_of self.old).done (status_of self.new).done }
        ensures writer { (held_of self.new).writer ≡ (held_of self.old).writer }
        ensures device { IsErrOf result MachErr.Device → ⊥ }
        ensures print { IsErrOf result MachErr.Print → ⊥ }
    {
        let after = step(self.alloc, &self.shelf, op)?;
        self.change(usize::from(volume_number(op)), after)
    }

    // Prints bytes.
    fn say(&mut self, bytes: &[u8]) -> Result<(), MachErr>
        ensures shelf { Prints true bytes.now (meaning_of self.old) (meaning_of self.new) result }
        ensures memory { IfErr result (λ e. e ≡ MachErr.Memory) }
        ensures done { (held_of self.new).done ≡ (held_of self.old).done }
        ensures writer { (held_of self.new).writer ≡ (held_of self.old).writer }
    {
        if self.log.reserve(1).is_err() {
            return Err(MachErr::Memory);
        }
        let before = self.printed.len();
        if self.printed.extend_from_slice(bytes).is_err() {
            return Err(MachErr::Memory);
        }
        self.log.push(Done::Printed(before)).unwrap();
        Ok(())
    }

    // The open writer.
    fn open_writer(&self) -> &Writer
        requires { IsTrue (status_of self.now).is_open }
        ensures { (held_of self.now).writer ≡ Some result.now }
    {
        match &self.writer {
            Some(writer) => writer,
            None => unreachable!(),
        }
    }

    // Does an operation for the open writer, and says whether it was done, and not refused.
    fn attempt(&mut self, op: &Op) -> Result<bool, AllocError>
        requires lawful { (after : Shelf) → step (meaning_of self.old).state op.now ≡ Ok after → IsLawful after }
        requires writer { (after : Shelf) → step (meaning_of self.old).state op.now ≡ Ok after → OpenCanCommit after (held_of self.old).writer }
        ensures { Extends op.now (held_of self.old) (held_of self.new) result }
    {
        match self.perform(op) {
            Ok(()) => Ok(true),
            Err(MachErr::Refused(_)) => Ok(false),
            Err(MachErr::Memory | MachErr::Device | MachErr::Print) => Err(AllocError),
        }
    }

    // Extends the set that is written to.
    fn extend(&mut self, target: &Target) -> Result<bool, AllocError>
        requires { option_map (λ (w : Writer). w.target) (held_of self.old).writer ≡ Some target.now }
        ensures { Extends (extension (target_in target.now)) (held_of self.old) (held_of self.new) result }
    {
        step_law();
        self.attempt(&Op::Extend {
            v: target.v,
            dsn: target.dsn,
        })
    }

    // Makes room for contents after others, and says whether there was room for all.
    fn make_room(
        &mut self,
        target: &Target,
        before: Contents,
        contents: &[Content],
    ) -> Result<bool, AllocError>
        requires { option_map (λ (w : Writer). w.target) (held_of self.old).writer ≡ Some target.now }
        ensures { MakesRoom (making_room (meaning_of self.old).state (target_in target.now) before contents.now) (held_of self.old) (held_of self.new) result }
    {
        let Some((content, rest)) = contents.split_first() else {
            return Ok(true);
        };
        let (room, next) = room_and_next(self.alloc, &self.shelf, target, before, content)?;
        match room {
            Room::Owned => self.make_room(target, next, rest),
            Room::Never => Ok(false),
            Room::Wanted => match self.extend(target) {
                Ok(true) => self.make_room(target, next, rest),
                Ok(false) => Ok(false),
                Err(e) => Err(e),
            },
        }
    }

    // Puts a block.
    fn put_block(&mut self, key: &[u8], payload: &[u8]) -> Result<Place, MachErr>
        requires opened { IsTrue (status_of self.old).is_open }
        requires key { length key.now ≤ 255 }
        requires payload { length payload.now ≤ 32760 }
        ensures shelf { let did = did_put (meaning_of self.old).state (writer_of self.old) (key.now, payload.now) in Does did.operations did (meaning_of self.old) (meaning_of self.new) (status_of self.old).done (status_of self.new).done result }
        ensures writer { Records result (writer_of self.old) (key.now, payload.now) (writer_of self.new) }
        ensures opened { IsTrue (status_of self.new).is_open }
        ensures refused { (r : Refusal) → IsErrOf result (MachErr.Refused r) → r ≡ NoRoom }
        ensures device { IsErrOf result MachErr.Device → ⊥ }
        ensures print { IsErrOf result MachErr.Print → ⊥ }
    {
        put_law();
        let writer = self.open_writer();
        let target = writer.target;
        let Ok(put) = put_of(self.alloc, &self.shelf, writer, key, payload) else {
            return Err(MachErr::Memory);
        };
        match self.make_room(&target, put.before, put.coming.as_slice()) {
            Ok(true) => {
                self.writer = Some(Writer {
                    target,
                    puts: put.puts,
                });
                Ok(put.place)
            }
            Ok(false) => Err(MachErr::Refused(Refusal::NoRoom)),
            Err(_) => Err(MachErr::Memory),
        }
    }

    // Does the last operation for the open writer, which isn't refused, and closes it. Where memory ran out it stays.
    fn close(&mut self, op: &Op) -> Result<(), MachErr>
        requires lawful { (after : Shelf) → step (meaning_of self.old).state op.now ≡ Ok after → IsLawful after }
        requires done { (r : Refusal) → step (meaning_of self.old).state op.now ≡ Err r → ⊥ }
        ensures shelf { Applies op.now (meaning_of self.old) (meaning_of self.new) result }
        ensures count { CountsOne result (status_of self.old).done (status_of self.new).done }
        ensures writer { (held_of self.new).writer ≡ open_after result (held_of self.old).writer }
        ensures memory { IfErr result (λ e. e ≡ MachErr.Memory) }
    {
        let writer = mem::replace(&mut self.writer, None);
        let result = self.perform(op);
        if result.is_err() {
            self.writer = writer;
        }
        result
    }

    // Makes the blocks that were put those of the set, and closes the writer.
    fn write_blocks(&mut self) -> Result<(), MachErr>
        requires { IsTrue (status_of self.old).is_open }
        ensures shelf { Does (making_close (meaning_of self.old).state (writer_of self.old)).extends (did_commit (meaning_of self.old).state (writer_of self.old)) (meaning_of self.old) (meaning_of self.new) (status_of self.old).done (status_of self.new).done result }
        ensures writer { (held_of self.new).writer ≡ open_after result (held_of self.old).writer }
        ensures refused { (r : Refusal) → IsErrOf result (MachErr.Refused r) → r ≡ NoRoom }
        ensures device { IsErrOf result MachErr.Device → ⊥ }
        ensures print { IsErrOf result MachErr.Print → ⊥ }
    {
        commit_law();
        let writer = self.open_writer();
        let target = writer.target;
        let Ok(commit) = commit_of(self.alloc, &self.shelf, writer) else {
            return Err(MachErr::Memory);
        };
        match self.make_room(&target, commit.before, commit.coming.as_slice()) {
            Ok(true) => self.close(&commit.op),
            Ok(false) => {
                self.writer = None;
                Err(MachErr::Refused(Refusal::NoRoom))
            }
            Err(_) => Err(MachErr::Memory),
        }
    }
}

impl Machine for MapMachine {
    ghost use Rattle.std.specs.Prelude.{true, false, refl};
    ghost use Rattle.map_machine.specs.Held.{held_of, meaning_of, status_of, writer_of};
    ghost use Rattle.map_machine.specs.Laws.{counts_now as now_counted, only_now as none_since};

    ghost tells = { true };

    ghost tells_prints = { true };

    ghost roomy = { false };

    ghost meaning = { λ machine. meaning_of machine };

    ghost writer = { λ machine. writer_of machine };

    ghost status = { λ machine. status_of machine };

    ghost promise = { λ machine t known. Unit {0} };

    ghost stays = { λ machine t files. Unit {0} };

    ghost lawful = { λ machine told sound. machine.lawful };

    ghost durable = { λ machine told sound shelf left. left };

    ghost leaves_state = { λ machine told. refl };

    ghost counts_now = { λ machine t shelf before left. now_counted (held_of machine) t shelf before left };

    ghost only_now = { λ machine shelf p left. none_since (held_of machine) shelf p left };

    fn is_sound(&self) -> bool {
        true
    }

    fn done(&self) -> u64 {
        self.done
    }

    fn volume(&self, v: u8) -> Option<VolumeInfo> {
        let volume = self.shelf.volumes.get(usize::from(v))?;
        Some(volume_info(volume))
    }

    fn name_at(&mut self, v: u8, k: u32) -> Result<Option<Dsn>, WorkErr> {
        Ok(reads::name_on(&self.shelf, v, k))
    }

    fn attr(&mut self, v: u8, dsn: &Dsn) -> Result<Option<SetInfo>, WorkErr> {
        let Some(set) = reads::set_on(&self.shelf, v, dsn) else {
            return Ok(None);
        };
        Ok(Some(reads::set_info(set)))
    }

    fn extent(&mut self, v: u8, dsn: &Dsn, k: u8) -> Result<Option<Run>, WorkErr> {
        Ok(reads::extent_on(&self.shelf, v, dsn, k))
    }

    #[tactic(auto, unfolding(vol_model::specs::Writing::body_on))]
    fn entry(&mut self, v: u8, dsn: &Dsn, name: &Name8) -> Result<Option<Entry>, ReadErr> {
        reads::entry_in(self.alloc, reads::set_on(&self.shelf, v, dsn), name)
    }

    #[tactic(auto, unfolding(vol_model::specs::Writing::body_on))]
    fn entry_at(&mut self, v: u8, dsn: &Dsn, k: u32) -> Result<Option<Entry>, ReadErr> {
        reads::entry_at_in(self.alloc, reads::set_on(&self.shelf, v, dsn), k)
    }

    #[tactic(auto, unfolding(vol_model::specs::Writing::body_on))]
    fn read_block(&mut self, v: u8, dsn: &Dsn, from: Place) -> Result<Option<Block>, ReadErr> {
        reads::block_in(self.alloc, reads::set_on(&self.shelf, v, dsn), from)
    }

    #[tactic(auto, unfolding(vol_model::specs::Reading::catalog_on))]
    fn cat_node(&mut self, v: u8, path: &CatPath) -> Result<Option<CatNode>, ReadErr> {
        reads::node_in(self.alloc, self.shelf.volumes.get(usize::from(v)), path)
    }

    #[tactic(auto, unfolding(vol_model::specs::Reading::catalog_on))]
    fn cat_child_at(&mut self, v: u8, path: &CatPath, k: u32) -> Result<Option<Name8>, ReadErr> {
        reads::child_in(self.alloc, self.shelf.volumes.get(usize::from(v)), path, k)
    }

    #[tactic(auto, unfolding(vol_model::specs::Writing::body_on))]
    fn read_into(
        &mut self,
        v: u8,
        dsn: &Dsn,
        from: Place,
        block: &mut BlockBuf,
    ) -> Result<bool, CheckErr> {
        reads::block_into(reads::set_on(&self.shelf, v, dsn), from, block)
    }

    fn apply(&mut self, op: &Op) -> Result<(), MachErr> {
        step_law();
        self.perform(op)
    }

    fn begin(&mut self, v: u8, dsn: &Dsn, mode: Mode) -> Result<(), MachErr> {
        let target = Target { v, dsn: *dsn, mode };
        if let Some(refusal) = begin_refusal(&self.shelf, &target) {
            return Err(MachErr::Refused(refusal));
        }
        begin_law();
        let puts = Contents::new(self.alloc);
        self.writer = Some(Writer { target, puts });
        Ok(())
    }

    fn put(&mut self, key: &[u8], payload: &[u8]) -> Result<Place, MachErr> {
        self.put_block(key, payload)
    }

    fn commit(&mut self) -> Result<(), MachErr> {
        self.write_blocks()
    }

    fn abandon(&mut self) {
        self.writer = None;
    }

    fn print(&mut self, bytes: &[u8]) -> Result<(), MachErr> {
        self.say(bytes)
    }
}
