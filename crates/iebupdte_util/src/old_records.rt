//! Old records, read one ahead.
ghost use Rattle.std.specs.Prelude.{◌≡◌, ◌≤◌, ◌&&◌, true, option_map, Some, None, IsTrue, IfOk, OnOk};
ghost use Rattle.vol_model.specs.Calls.{Keeps};
ghost use Rattle.vol_model.specs.Runs.{RunCall};
ghost use Rattle.util_steps.specs.Steps.{RunsNothing};
ghost use Rattle.record_files.specs.Reader.{reader_given};
ghost use Rattle.update_forms.specs.Merging.{follows};
ghost use Rattle.iebupdte_util.specs.Edited.{Fills, OldsStay, last_of, old_held, olds_most, olds_order, olds_stream};

use record_files::{RecordReader, RecordSource, Taken};
use std::alloc::{AllocError, Global};
use update_forms::is_before;
use vol_model::{Machine, Stop};

/// Where the next old record is.
#[derive(Clone, Copy, Debug, PartialEq, Eq)]
pub enum Next {
    /// It isn't read yet.
    Wanted,
    /// It is the one that was read last.
    Held,
    /// There is none.
    Ended,
}

/// Old records, of which the next one is held, and whether all that were read rise.
#[derive(Drop)]
pub struct OldRecords<'a> {
    alloc: Global,
    pub reader: RecordReader<'a>,
    pub next: Next,
    // The one that was read last, if one was.
    last: Option<Vec<u8>>,
    pub rising: bool,
}

// Whether a record stands after the last one.
fn follows(last: &Option<Vec<u8>>, rec: &[u8]) -> bool
    ensures { result ≡ follows (option_map (λ v. v.items) last.now) rec.now }
{
    match last {
        Some(last) => is_before(last, rec),
        None => true,
    }
}

impl<'a> OldRecords<'a> {
    /// Begins with the first record of a reader.
    pub fn new(alloc: Global, reader: RecordReader<'a>) -> OldRecords<'a>
        ensures reader { result.reader ≡ reader.entry }
        ensures next { result.next ≡ Next.Wanted }
        ensures last { last_of result ≡ None }
        ensures rising { IsTrue result.rising }
    {
        OldRecords {
            alloc,
            reader,
            next: Next::Wanted,
            last: None,
            rising: true,
        }
    }

    /// The record that is held, if one is.
    pub fn held(&self) -> Option<&[u8]>
        ensures { option_map (λ r. r.now) result ≡ old_held self.now }
    {
        match self.next {
            Next::Held => Some(self.reader.last_record()),
            _ => None,
        }
    }

    /// The one that is held is done with.
    pub fn pass(&mut self)
        ensures { OldsStay Next.Wanted self.old self.new }
    {
        self.next = Next::Wanted;
    }

    // Holds the record that was read last.
    fn hold(&mut self) -> Result<(), AllocError>
        ensures next { OnOk result (self.new.next ≡ Next.Held) }
        ensures reader { OnOk result (self.new.reader ≡ self.old.reader) }
        ensures last { OnOk result (last_of self.new ≡ Some (reader_given self.old.reader)) }
        ensures rising { OnOk result (self.new.rising ≡ (self.old.rising && follows (last_of self.old) (reader_given self.old.reader))) }
    {
        let rec = Vec::from_slice(self.alloc, self.reader.last_record())?;
        self.rising = self.rising && follows(&self.last, &rec);
        self.last = Some(rec);
        self.next = Next::Held;
        Ok(())
    }

    /// Reads the next record, unless it is held or there is none; false where there is a fault in its place.
    pub fn fill<M: Machine>(&mut self, machine: &mut M) -> Result<bool, Stop>
        requires sound { IsTrue (M.status machine.old).is_sound }
        ensures fills { IsTrue M.tells → IfOk result (λ whole. Fills whole self.old self.new (M.meaning machine.old).state) }
        ensures next { IfOk result (λ whole. whole ≡ true → self.new.next ≡ Next.Wanted → ⊥) }
        ensures fewer { IfOk result (λ whole. whole ≡ true → olds_most self.new ≤ olds_most self.old) }
        ensures runs { IsTrue M.tells → RunsNothing M.tells_prints (M.meaning machine.old) (M.meaning machine.new) result }
        ensures writer { IsTrue M.tells → M.writer machine.new ≡ M.writer machine.old }
        ensures promise { IsTrue M.tells → Keeps (M.meaning machine.old).clock (M.promise machine.old) (M.promise machine.new) }
        ensures count { (M.status machine.new).done ≡ (M.status machine.old).done }
        ensures faults { RunCall (M.status machine.old).is_open (M.status machine.old) (M.status machine.new) result }
    {
        match self.next {
            Next::Wanted => (),
            Next::Held => return Ok(true),
            Next::Ended => return Ok(true),
        }
        match self.reader.next(machine)? {
            Taken::Record => {
                self.hold()?;
                Ok(true)
            }
            Taken::End => {
                self.next = Next::Ended;
                Ok(true)
            }
            Taken::Broken => Ok(false),
        }
    }
}
