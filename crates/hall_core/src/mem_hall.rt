//! A hall in memory, for tests of what stands on the trait.
ghost use Rattle.std.specs.Prelude.{◌≡◌, ℕ, ◌+◌, ◌-◌, ◌^◌, min, ◌<◌, ◌≤◌, Bool, true, length, vec_len, vec_capacity};
ghost use Rattle.std.specs.Option.{ForNone};
ghost use Rattle.std.specs.List.{All};
ghost use Rattle.hall_core.specs.Held.{files_of, first_pairs, IsSpare};
ghost use Rattle.hall_core.specs.Replay.{IsReplay};

mod note;
mod pairs;
mod replay;
mod step;

use crate::hall::{Hall, HallErr, fault};
use note::{append, note, plain_step};
use pairs::{copy_at, copy_of, filled, first_named, new_spares, write_file};
use replay::{Record, apply_left, pending_from, text_printed};
use std::alloc::{AllocError, Global};
pub use step::Call;
use step::Step;

/// What a stop leaves of a hall in memory.
#[derive(Debug, Drop)]
pub struct Left {
    /// The files, each a name and its bytes, in the order in which they were given.
    pub files: Vec<(String, Vec<u8>)>,
    /// All bytes printed before the moment of the stop; of a print that begins then, none.
    pub printed: Vec<u8>,
}

/// A hall in memory, which tells what it holds and fails where it is told to.
///
/// It keeps the record of its calls but `size` and `differs`. Each uses up room for one call, and for
/// the bytes that are written, printed, or named and made. A call for which there is too little room
/// answers `Failed`, raises its count of faults and does nothing else. None takes memory, so none
/// answers `Memory`.
///
/// A file that is made is there whole, whenever a stop comes after its call.
///
/// A write that fails leaves what is read as it was, and is pending; a sync that fails leaves the
/// pending writes; a print that fails prints nothing.
#[derive(Debug, Drop)]
pub struct MemHall {
    alloc: Global,
    files: Vec<(String, Vec<u8>)>,
    first: Option<Vec<(String, Vec<u8>)>>,
    units: Vec<usize>,
    calls: Vec<Call>,
    steps: Vec<Step>,
    spares: Vec<(String, Vec<u8>)>,
    written: Vec<u8>,
    printed: Vec<u8>,
    fails: Vec<u64>,
    room_calls: u64,
    room_bytes: u64,
    dev_faults: u64,
    print_faults: u64,
    ghost replay: { IsReplay (files_of (first_pairs first files.items)) (files_of files.items)
        units.items steps.items written.items printed.items },
    ghost numbers: { vec_len calls ≡ vec_len steps },
    ghost files_room: { vec_len files + room_calls ≤ vec_capacity files },
    ghost spares_number: { min room_calls (255 - vec_len units) ≤ vec_len spares },
    ghost spares_room: { All (IsSpare room_bytes) spares.items },
    ghost copied: { ForNone first (room_calls ≡ 0) },
    ghost units_room: { vec_len units + room_calls ≤ vec_capacity units },
    ghost calls_room: { vec_len calls + room_calls ≤ vec_capacity calls },
    ghost steps_room: { vec_len steps + room_calls ≤ vec_capacity steps },
    ghost written_room: { vec_len written + room_bytes ≤ vec_capacity written },
    ghost printed_room: { vec_len printed + room_bytes ≤ vec_capacity printed },
}

impl MemHall {
    ghost use Rattle.std.specs.Prelude.{List, [], ◌∷◌, ◌++◌, take, Some, None, OnOk, OnErr, IfOk, IsSome, MatchOption, IsTrue, ◌⊎◌, ◌↔◌, false, if◌then◌else◌};
    ghost use Rattle.hall_core.specs.Facts.{unit_of, size_in};
    ghost use Rattle.stop_model.specs.Files.{file_of};
    ghost use Rattle.hall_core.specs.Held.{shapes_of, IsFirst};
    ghost use Rattle.hall_core.specs.Images.{zeros_named};
    ghost use Rattle.hall_core.specs.History.{made, synced, printed, passed, files_left};
    ghost use Rattle.hall_core.specs.Memory.{first_files, events_of, meaning_of, facts_of, calls_of, failing_calls, calls_left, bytes_left, write_to, disk_at};
    ghost use Rattle.hall_core.specs.Memory.{LacksRoom, HasRoom, NextCallFails, KeepsRoom, KeepsSetup, KeepsAllButRoom, KeepsRecord, Records};

    /// A hall that holds these files, each a name and its bytes, and has room for nothing.
    ///
    /// Of files of one name the first counts. The calls that find room are numbered from 0, and
    /// those with a number in `fails` fail.
    pub fn new(alloc: Global, files: Vec<(String, Vec<u8>)>, fails: Vec<u64>) -> MemHall
        ensures first { first_files result ≡ files_of files.items }
        ensures events { events_of result ≡ [] }
        ensures record_of_calls { calls_of result ≡ [] }
        ensures facts { facts_of result
            ≡ record { units = []; references = []; dev_faults = 0; print_faults = 0 } }
        ensures failing { failing_calls result ≡ fails.items }
        ensures calls { calls_left result ≡ 0 }
        ensures bytes { bytes_left result ≡ 0 }
    {
        MemHall {
            alloc,
            files,
            first: None,
            units: Vec::new(alloc),
            calls: Vec::new(alloc),
            steps: Vec::new(alloc),
            spares: Vec::new(alloc),
            written: Vec::new(alloc),
            printed: Vec::new(alloc),
            fails,
            room_calls: 0,
            room_bytes: 0,
            dev_faults: 0,
            print_faults: 0,
        }
    }

    /// Makes room for so many further calls and bytes, beside the room that is left.
    ///
    /// An error comes where memory runs out, also where the room would be above 2^64 - 1. The room
    /// is then as it was.
    pub fn room(&mut self, calls: u64, bytes: u64) -> Result<(), AllocError>
        ensures calls { OnOk result (calls_left self.new ≡ calls_left self.old + calls) }
        ensures bytes { OnOk result (bytes_left self.new ≡ bytes_left self.old + bytes) }
        ensures error { OnErr result (KeepsRoom self.old self.new) }
        ensures rest { KeepsAllButRoom self.old self.new }
    {
        let all_calls = self.room_calls.checked_add(calls).ok_or(AllocError)?;
        let all_bytes = self.room_bytes.checked_add(bytes).ok_or(AllocError)?;
        self.keep_first()?;
        self.files.reserve(all_calls as usize)?;
        self.units.reserve(all_calls as usize)?;
        self.calls.reserve(all_calls as usize)?;
        self.steps.reserve(all_calls as usize)?;
        self.written.reserve(all_bytes as usize)?;
        self.printed.reserve(all_bytes as usize)?;
        self.spares = new_spares(self.alloc, all_calls.min(255) as usize, all_bytes as usize)?;
        self.room_calls = all_calls;
        self.room_bytes = all_bytes;
        Ok(())
    }

    // Copies the files as they were first given, where there is no copy yet.
    fn keep_first(&mut self) -> Result<(), AllocError>
        ensures copy { OnOk result (IsSome self.new.first) }
        ensures room_left { KeepsRoom self.old self.new }
        ensures rest { KeepsAllButRoom self.old self.new }
    {
        if self.first.is_none() {
            self.first = Some(copy_of(self.alloc, &self.files)?);
        }
        Ok(())
    }

    /// The record of the calls, each at its number.
    pub fn calls(&self) -> &[Call]
        ensures record_of_calls { result.now ≡ calls_of self.now }
        ensures number { length result.now ≡ (meaning_of self.now).clock }
    {
        self.calls.as_slice()
    }

    /// The bytes of the first file of this name, as they are read.
    pub fn image(&self, name: &str) -> Option<&[u8]>
        ensures { MatchOption result (file_of (meaning_of self.now).state name.now ≡ None)
            (λ image. file_of (meaning_of self.now).state name.now ≡ Some image.now) }
    {
        let place = first_named(&self.files, name)?;
        Some(self.files[place].1.as_slice())
    }

    /// The bytes printed so far.
    pub fn printed(&self) -> &[u8]
        ensures { result.now ≡ (meaning_of self.now).printed }
    {
        self.printed.as_slice()
    }

    /// What a stop leaves at a moment: before the call of this number, counted from 0. The i-th
    /// flag says whether the i-th write that is pending then is kept; a write without a flag isn't.
    ///
    /// From the number after the last call on it is what a stop leaves now. Fails only for want of
    /// memory.
    pub fn left_at(&self, moment: u64, keep: &[bool]) -> Result<Left, AllocError>
        ensures files { IfOk result (λ left. files_of left.files.items
            ≡ files_left (disk_at self.now moment) keep.now) }
        ensures text { IfOk result (λ left. left.printed.items
            ≡ (disk_at self.now moment).text) }
    {
        let end = self.steps.len().min(moment as usize);
        let steps = &self.steps[..end];
        let from = pending_from(steps);
        let mut files = copy_of(self.alloc, self.first_files())?;
        let record = Record {
            units: &self.units,
            files: &self.files,
            pool: &self.written,
        };
        apply_left(self.alloc, &mut files, steps, from, &record, keep)?;
        let printed = text_printed(self.alloc, steps, &self.printed)?;
        Ok(Left { files, printed })
    }

    // The files as first given.
    fn first_files(&self) -> &[(String, Vec<u8>)]
        ensures { result.now ≡ first_pairs self.now.first self.now.files.items }
    {
        match &self.first {
            Some(first) => first.as_slice(),
            None => self.files.as_slice(),
        }
    }

    // Whether there is too little room for a call that uses so many bytes.
    fn lacks_room(&self, bytes: usize) -> bool
        ensures { IsTrue result ↔ LacksRoom self.now bytes }
    {
        self.room_calls == 0 || self.room_bytes < bytes as u64
    }

    // Whether there is too little room for a call that uses a name and so many bytes.
    fn lacks_room_beside(&self, name: &str, len: u64) -> bool
        ensures { IsTrue result ↔ LacksRoom self.now (length name.now + len) }
    {
        self.lacks_room(name.len()) || self.room_bytes - (name.len() as u64) < len
    }

    // Whether the next call that finds room is to fail.
    fn next_fails(&self) -> bool
        ensures { IsTrue result ↔ NextCallFails self.now }
    {
        self.fails.contains(&(self.calls.len() as u64))
    }

    // Puts a call on the record that made a sync, or did nothing that stays.
    fn record_plain(&mut self, used: usize, call: Call, is_sync: bool)
        requires { HasRoom self.old used }
        ensures noted { Records used call (if is_sync then synced else passed) self.old self.new }
        ensures setup { KeepsSetup self.old self.new }
        ensures facts { facts_of self.new ≡ facts_of self.old }
        ensures files { self.new.files ≡ self.old.files }
        ensures units { self.new.units ≡ self.old.units }
    {
        note(&mut self.calls, &mut self.steps, call, plain_step(is_sync));
        self.room_calls -= 1;
        self.room_bytes -= used as u64;
    }

    // Makes a write, and puts it on the record; one that isn't done stays unread.
    fn record_write(&mut self, unit: u8, at: u64, bytes: &[u8], is_done: bool)
        requires room { HasRoom self.old (length bytes.now) }
        requires attached { unit < length (facts_of self.old).units }
        requires inside { at + length bytes.now ≤ size_in (facts_of self.old) unit }
        ensures noted { Records (length bytes.now) (Call.Write unit at)
            (write_to (facts_of self.old) unit at bytes.now is_done) self.old self.new }
        ensures setup { KeepsSetup self.old self.new }
        ensures facts { facts_of self.new ≡ facts_of self.old }
    {
        write_file(
            &mut self.files,
            self.units[unit as usize],
            at as usize,
            bytes,
            is_done,
        );
        let start = append(&mut self.written, bytes);
        let step = Step::Write {
            unit,
            at: at as usize,
            start,
            len: bytes.len(),
            is_done,
        };
        let call = Call::Write { unit, at };
        note(&mut self.calls, &mut self.steps, call, step);
        self.room_calls -= 1;
        self.room_bytes -= bytes.len() as u64;
    }

    // Makes a print, and puts it on the record.
    fn record_print(&mut self, bytes: &[u8])
        requires { HasRoom self.old (length bytes.now) }
        ensures noted { Records (length bytes.now) Call.Print (printed bytes.now)
            self.old self.new }
        ensures setup { KeepsSetup self.old self.new }
        ensures facts { facts_of self.new ≡ facts_of self.old }
    {
        let start = append(&mut self.printed, bytes);
        let step = Step::Print {
            start,
            len: bytes.len(),
        };
        note(&mut self.calls, &mut self.steps, Call::Print, step);
        self.room_calls -= 1;
        self.room_bytes -= bytes.len() as u64;
    }

    // Makes a file and attaches it as the next unit, and puts that on the record.
    fn record_create(&mut self, name: &str, len: u64)
        requires room { HasRoom self.old (length name.now + len) }
        requires few { length (facts_of self.old).units < 255 }
        requires fresh { file_of (files_of self.old.files.items) name.now ≡ None }
        ensures noted { Records (length name.now + len) Call.Create
            (made (zeros_named name.now len)) self.old self.new }
        ensures setup { KeepsSetup self.old self.new }
        ensures facts { facts_of self.new ≡ record (facts_of self.old) {
          units = (facts_of self.old).units ++ record { name = name.now; size = len } ∷ [];
        } }
    {
        let unit = self.units.len() as u8;
        let spare = self.spares.pop().unwrap();
        let place = self.files.len();
        self.files.push(filled(spare, name, len as usize)).unwrap();
        self.units.push(place).unwrap();
        let step = Step::Create { unit };
        note(&mut self.calls, &mut self.steps, Call::Create, step);
        self.room_calls -= 1;
        self.room_bytes -= name.len() as u64 + len;
    }

    // Attaches the file at a place as the next unit, where there is memory for it.
    fn add_unit(&mut self, place: usize)
        requires first { IsFirst (shapes_of (files_of self.old.files.items)) place }
        requires room { vec_len self.old.units + self.old.room_calls < vec_capacity self.old.units }
        ensures facts { facts_of self.new ≡ record (facts_of self.old) {
          units = (facts_of self.old).units
              ++ unit_of (shapes_of (files_of self.old.files.items)) place ∷ [];
        } }
        ensures setup { KeepsSetup self.old self.new }
        ensures room_left { KeepsRoom self.old self.new }
        ensures noted { KeepsRecord self.old self.new }
    {
        self.units.push(place).unwrap();
    }
}

impl Hall for MemHall {
    ghost use Rattle.std.specs.Prelude.{List, [], ◌∷◌, OnOk, OnErr, IfErr, IsErrOf, None, is_ok, if◌then◌else◌};
    ghost use Rattle.hall_core.specs.Facts.{name_in, size_in, IsAttached, DeviceCall, PrintCall, AttachCall, CreateCall, NotedCall};
    ghost use Rattle.stop_model.specs.Files.{file_of, HasBytesAt, AfterWrite, AfterSync, AfterPrint};
    ghost use Rattle.hall_core.specs.Images.{Attaches, Creates, zeros_named};
    ghost use Rattle.stop_model.specs.Moments.{Same};
    ghost use Rattle.hall_core.specs.History.{made, synced, printed, passed};
    ghost use Rattle.hall_core.specs.Memory.{meaning_of, facts_of, write_to, IsExactCall};
    ghost use Rattle.hall_core.specs.Laws.{leaves_state as state_left, counts_now as now_counted, only_now as none_since, whole_units, none_pending as none_settled};

    ghost tells = { true };

    ghost meaning = { λ hall. meaning_of hall };

    ghost facts = { λ hall. facts_of hall };

    ghost leaves_state = { λ hall. state_left hall };

    ghost counts_now = { λ hall t j before left. now_counted hall t j before left };

    ghost only_now = { λ hall j p left. none_since hall j p left };

    ghost whole = { λ hall told. whole_units hall };

    ghost none_pending = { λ hall told none. none_settled hall none };

    fn attach(&mut self, name: &str) -> Result<u8, HallErr>
        requires few { length (facts_of self.old).units < 255 }
        requires once { ¬ IsAttached (facts_of self.old).units name.now }
        ensures files { Attaches name.now (meaning_of self.old) (meaning_of self.new) result }
        ensures faults { AttachCall name.now (facts_of self.old) (facts_of self.new) result }
        ensures exact { IsExactCall (length name.now) Call.Attach passed self.old self.new result }
    {
        if self.lacks_room(name.len()) {
            return Err(fault(&mut self.dev_faults));
        }
        let fails = self.next_fails();
        self.record_plain(name.len(), Call::Attach, false);
        if fails {
            return Err(fault(&mut self.dev_faults));
        }
        let Some(place) = first_named(&self.files, name) else {
            return Err(HallErr::Missing);
        };
        let unit = self.units.len() as u8;
        self.add_unit(place);
        Ok(unit)
    }

    fn create(&mut self, name: &str, len: u64) -> Result<u8, HallErr>
        requires few { length (facts_of self.old).units < 255 }
        requires once { ¬ IsAttached (facts_of self.old).units name.now }
        ensures files { Creates name.now len (meaning_of self.old) (meaning_of self.new) result }
        ensures faults { CreateCall name.now len (facts_of self.old) (facts_of self.new) result }
        ensures exact { IsExactCall (length name.now + len) Call.Create
            (if is_ok result then made (zeros_named name.now len) else passed)
            self.old self.new result }
    {
        if self.lacks_room_beside(name, len) {
            return Err(fault(&mut self.dev_faults));
        }
        if self.next_fails() {
            self.record_plain(name.len() + len as usize, Call::Create, false);
            return Err(fault(&mut self.dev_faults));
        }
        match first_named(&self.files, name) {
            Some(_) => {
                self.record_plain(name.len() + len as usize, Call::Create, false);
                Err(HallErr::Exists)
            }
            None => {
                let unit = self.units.len() as u8;
                self.record_create(name, len);
                Ok(unit)
            }
        }
    }

    fn size(&self, unit: u8) -> u64 {
        self.files[self.units[unit as usize]].1.len() as u64
    }

    fn read(&mut self, unit: u8, at: u64, buf: &mut [u8]) -> Result<(), HallErr>
        requires attached { unit < length (facts_of self.old).units }
        requires inside { at + length buf.old ≤ size_in (facts_of self.old) unit }
        ensures bytes { OnOk result
            (HasBytesAt (meaning_of self.old).state (name_in (facts_of self.old) unit) at buf.new) }
        ensures files { Same (meaning_of self.old) (meaning_of self.new) }
        ensures faults { DeviceCall (facts_of self.old) (facts_of self.new) result }
        ensures error { IfErr result (λ e. e ≡ HallErr.Failed) }
        ensures exact { IsExactCall 0 (Call.Read unit at) passed self.old self.new result }
    {
        if self.lacks_room(0) {
            return Err(fault(&mut self.dev_faults));
        }
        let fails = self.next_fails();
        self.record_plain(0, Call::Read { unit, at }, false);
        if fails {
            return Err(fault(&mut self.dev_faults));
        }
        copy_at(&self.files[self.units[unit as usize]].1, at as usize, buf);
        Ok(())
    }

    fn write(&mut self, unit: u8, at: u64, bytes: &[u8]) -> Result<(), HallErr>
        requires attached { unit < length (facts_of self.old).units }
        requires inside { at + length bytes.now ≤ size_in (facts_of self.old) unit }
        ensures files { AfterWrite (name_in (facts_of self.old) unit) at bytes.now
            (meaning_of self.old) (meaning_of self.new) result }
        ensures faults { DeviceCall (facts_of self.old) (facts_of self.new) result }
        ensures error { IfErr result (λ e. e ≡ HallErr.Failed) }
        ensures exact { IsExactCall (length bytes.now) (Call.Write unit at)
            (write_to (facts_of self.old) unit at bytes.now (is_ok result))
            self.old self.new result }
    {
        if self.lacks_room(bytes.len()) {
            return Err(fault(&mut self.dev_faults));
        }
        if self.next_fails() {
            self.record_write(unit, at, bytes, false);
            return Err(fault(&mut self.dev_faults));
        }
        self.record_write(unit, at, bytes, true);
        Ok(())
    }

    fn sync(&mut self) -> Result<(), HallErr>
        ensures files { AfterSync (meaning_of self.old) (meaning_of self.new) result }
        ensures faults { DeviceCall (facts_of self.old) (facts_of self.new) result }
        ensures error { IfErr result (λ e. e ≡ HallErr.Failed) }
        ensures exact { IsExactCall 0 Call.Sync (if is_ok result then synced else passed)
            self.old self.new result }
    {
        if self.lacks_room(0) {
            return Err(fault(&mut self.dev_faults));
        }
        if self.next_fails() {
            self.record_plain(0, Call::Sync, false);
            return Err(fault(&mut self.dev_faults));
        }
        self.record_plain(0, Call::Sync, true);
        Ok(())
    }

    fn print(&mut self, bytes: &[u8]) -> Result<(), HallErr>
        ensures files { AfterPrint bytes.now (meaning_of self.old) (meaning_of self.new) result }
        ensures faults { PrintCall (facts_of self.old) (facts_of self.new) result }
        ensures error { IfErr result (λ e. e ≡ HallErr.Failed) }
        ensures exact { IsExactCall (length bytes.now) Call.Print
            (if is_ok result then printed bytes.now else passed) self.old self.new result }
    {
        if self.lacks_room(bytes.len()) {
            return Err(fault(&mut self.print_faults));
        }
        if self.next_fails() {
            self.record_plain(bytes.len(), Call::Print, false);
            return Err(fault(&mut self.print_faults));
        }
        self.record_print(bytes);
        Ok(())
    }

    fn differs(&mut self, unit: u8, track: u16) {}
}
