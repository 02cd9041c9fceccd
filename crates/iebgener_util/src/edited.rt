//! Gives the records of an input, edited by groups.
ghost use Rattle.std.specs.Prelude.{◌≡◌, ◌<◌, [], None, Some, option_map, IsTrue, IfOk};
ghost use Rattle.vol_model.specs.declared.contents.Shelf.{Shelf};
ghost use Rattle.record_files.specs.Calls.{ReadsBeside};
ghost use Rattle.record_files.specs.Reader.{reader_given, reader_most, reader_stream};
ghost use Rattle.record_files.specs.Sources.{Gives};
ghost use Rattle.iebgener_util.specs.Edited.{edited_given, edited_stays, edited_stream, groups_left};
ghost use Rattle.iebgener_util.specs.Items.{groups};
ghost use Rattle.iebgener_util.specs.SkippedGroups.{left_of};

use crate::editing::{edited_record, groups_behind};
use crate::orders::Order;
use crate::requests::Edit;
use crate::skipped_groups::SkippedGroups;
use record_files::{RecordReader, RecordSource, Taken};
use std::alloc::Global;
use vol_model::{Machine, Stop};

/// Gives the records of an input that the orders before leave, edited by groups where there are any.
#[derive(Drop)]
pub struct EditedRecords<'a> {
    alloc: Global,
    reader: RecordReader<'a>,
    // The length of an edited record in bytes.
    lrecl: u16,
    // The groups that are left, where records are edited. What stands after the last is dropped.
    groups: Option<&'a [Edit]>,
    // The records of the orders before.
    skipped: SkippedGroups<'a>,
    // The record that was edited last.
    rec: Vec<u8>,
}

// Groups by which records are edited, if there are any.
fn groups(edits: &[Edit]) -> Option<&[Edit]>
    ensures { option_map (λ g. g.now) result ≡ groups edits.now }
{
    match edits.split_first() {
        Some(_) => Some(edits),
        None => None,
    }
}

impl<'a> EditedRecords<'a> {
    ghost use Rattle.record_files.specs.Streams.{Stream};
    ghost use Rattle.iebgener_util.specs.Editing.{edited_by, left_behind};

    /// Begins with the first record that the orders before leave.
    pub fn new(
        alloc: Global,
        reader: RecordReader<'a>,
        lrecl: u16,
        before: &'a [Order],
        edits: &'a [Edit],
    ) -> EditedRecords<'a>
        ensures { (shelf : Shelf) (st : Stream) → reader_stream reader.entry shelf ≡ st → edited_stream result shelf ≡ edited_by lrecl (groups edits.now) (left_behind before.now st) }
    {
        EditedRecords {
            alloc,
            reader,
            lrecl,
            groups: groups(edits),
            skipped: SkippedGroups {
                groups: &[],
                orders: before,
            },
            rec: Vec::new(alloc),
        }
    }
}

// Gives the next record that doesn't belong to an order before.
fn next_left<M: Machine>(
    alloc: Global,
    machine: &mut M,
    reader: &mut RecordReader<'_>,
    skipped: &mut SkippedGroups<'_>,
) -> Result<Taken, Stop>
    requires sound { IsTrue (M.status machine.old).is_sound }
    ensures reads { ReadsBeside M.Machine (λ shelf taken. Gives taken (left_of skipped.old (reader_stream reader.old shelf)) (reader_given reader.new) (left_of skipped.new (reader_stream reader.new shelf))) machine.old machine.new result }
    ensures fewer { IfOk result (λ taken. taken ≡ Taken.Record → reader_most reader.new < reader_most reader.old) }
{
    loop {
        match reader.next(machine)? {
            Taken::Record => (),
            Taken::End => return Ok(Taken::End),
            Taken::Broken => return Ok(Taken::Broken),
        }
        if !skipped.take(alloc, reader.last_record())? {
            return Ok(Taken::Record);
        }
    }
}

impl<M: Machine> RecordSource<M> for EditedRecords<'_> {
    ghost stream = { λ records shelf. edited_stream records shelf };

    ghost given = { λ records. edited_given records };

    ghost most = { λ records. reader_most records.reader };

    fn next(&mut self, machine: &mut M) -> Result<Taken, Stop> {
        let Some(groups) = self.groups else {
            return next_left(self.alloc, machine, &mut self.reader, &mut self.skipped);
        };
        let Some((edit, others)) = groups.split_first() else {
            return Ok(Taken::End);
        };
        match next_left(self.alloc, machine, &mut self.reader, &mut self.skipped)? {
            Taken::Record => (),
            Taken::End => return Ok(Taken::End),
            Taken::Broken => return Ok(Taken::Broken),
        }
        let rec = self.reader.last_record();
        match edited_record(self.alloc, self.lrecl, edit, rec)? {
            Some(new) => self.rec = new,
            None => return Ok(Taken::Broken),
        }
        self.groups = Some(groups_behind(self.alloc, edit, groups, others, rec)?);
        Ok(Taken::Record)
    }

    fn record(&self) -> &[u8] {
        match self.groups {
            Some(_) => self.rec.as_slice(),
            None => self.reader.last_record(),
        }
    }

    ghost stays = { λ records s u kept. edited_stays records s u kept };
}
