//! Gives the records that a function writes.
ghost use Rattle.std.specs.Prelude.{◌≡◌, ◌<◌, [], ◌∷◌, None, IsTrue, IfOk, OnOk};
ghost use Rattle.vol_model.specs.declared.contents.Shelf.{Shelf};
ghost use Rattle.vol_model.specs.Calls.{Keeps};
ghost use Rattle.vol_model.specs.Runs.{RunCall};
ghost use Rattle.util_steps.specs.Steps.{RunsNothing};
ghost use Rattle.record_files.specs.Sources.{Gives};
ghost use Rattle.iebupdte_util.specs.Edited.{Checks, Counted, GaveNext, GivesCard, GivesOld, edited_most, edited_stays, edited_stream, last_of};

use crate::old_records::{Next, OldRecords};
use record_files::{RecordReader, RecordSource, Taken};
use std::alloc::{AllocError, Global};
use update_forms::{
    CardRecord, Choice, Numbering, Range, choose, number, number_fits, numbering_after,
};
use vol_model::{Machine, Stop};

// What became of the next record.
#[derive(Clone, Copy, Debug, PartialEq, Eq)]
pub enum Step {
    // It is given.
    Record,
    // It is dropped.
    Part,
    // There is none.
    End,
}

/// Gives the old records and the cards of a function, merged and numbered.
#[derive(Drop)]
pub struct EditedRecords<'a> {
    alloc: Global,
    pub olds: OldRecords<'a>,
    // The sequences of old records that are dropped.
    ranges: &'a [Range],
    // The cards that are left.
    cards: &'a [CardRecord],
    // How the next record is numbered, if records are.
    numbering: Option<Numbering>,
    /// Whether the numbers of all records so far have at most eight digits.
    pub fits: bool,
    // The record that was given last.
    rec: Vec<u8>,
}

impl<'a> EditedRecords<'a> {
    /// Begins with the first of the old records and of the cards.
    pub fn new(
        alloc: Global,
        reader: RecordReader<'a>,
        ranges: &'a [Range],
        cards: &'a [CardRecord],
        numbering: Option<Numbering>,
    ) -> EditedRecords<'a>
        ensures reader { result.olds.reader ≡ reader.entry }
        ensures next { result.olds.next ≡ Next.Wanted }
        ensures last { last_of result.olds ≡ None }
        ensures rising { IsTrue result.olds.rising }
        ensures ranges { result.ranges.now ≡ ranges.now }
        ensures cards { result.cards.now ≡ cards.now }
        ensures numbering { result.numbering ≡ numbering }
        ensures fits { IsTrue result.fits }
    {
        EditedRecords {
            alloc,
            olds: OldRecords::new(alloc, reader),
            ranges,
            cards,
            numbering,
            fits: true,
            rec: Vec::new(alloc),
        }
    }

    // The next record gets its number, and the ones after it get theirs.
    fn count(&mut self)
        ensures { Counted self.old self.new }
    {
        self.fits = self.fits && number_fits(self.numbering);
        self.numbering = numbering_after(self.numbering);
    }

    // Gives the old record that is held.
    fn give_old(&mut self) -> Result<(), AllocError>
        ensures { OnOk result (GivesOld self.old self.new) }
    {
        self.rec = number(self.alloc, self.numbering, self.olds.reader.last_record())?;
        self.count();
        self.olds.pass();
        Ok(())
    }

    // Gives a card, which others follow.
    fn give_card(&mut self, card: &CardRecord, others: &'a [CardRecord]) -> Result<(), AllocError>
        ensures { OnOk result (GivesCard card.now others.now self.old self.new) }
    {
        self.rec = number(self.alloc, self.numbering, &card.bytes)?;
        self.count();
        self.cards = others;
        Ok(())
    }

    // Gives the next record, of an old one that is held and of a card.
    fn take_both(&mut self, card: &CardRecord, others: &'a [CardRecord]) -> Result<Step, AllocError>
        requires next { self.old.olds.next ≡ Next.Wanted → ⊥ }
        requires cards { self.old.cards.now ≡ card.now ∷ others.now }
        ensures { IfOk result (λ step. GaveNext step self.old self.new) }
    {
        match choose(self.ranges, self.olds.held(), Some(card)) {
            Choice::Old => {
                self.give_old()?;
                Ok(Step::Record)
            }
            Choice::Drop => {
                self.olds.pass();
                Ok(Step::Part)
            }
            Choice::Card => {
                self.give_card(card, others)?;
                Ok(Step::Record)
            }
            Choice::Instead => {
                self.give_card(card, others)?;
                self.olds.pass();
                Ok(Step::Record)
            }
            Choice::End => Ok(Step::End),
        }
    }

    // Gives the next record, of an old one that is held, where no card is left.
    fn take_old(&mut self) -> Result<Step, AllocError>
        requires next { self.old.olds.next ≡ Next.Wanted → ⊥ }
        requires cards { self.old.cards.now ≡ [] }
        ensures { IfOk result (λ step. GaveNext step self.old self.new) }
    {
        match choose(self.ranges, self.olds.held(), None) {
            Choice::Old => {
                self.give_old()?;
                Ok(Step::Record)
            }
            Choice::Drop => {
                self.olds.pass();
                Ok(Step::Part)
            }
            _ => Ok(Step::End),
        }
    }

    // Gives the next record, where the old one is held or none is left.
    fn take(&mut self) -> Result<Step, AllocError>
        requires { self.old.olds.next ≡ Next.Wanted → ⊥ }
        ensures { IfOk result (λ step. GaveNext step self.old self.new) }
    {
        match self.cards.split_first() {
            Some((card, others)) => self.take_both(card, others),
            None => self.take_old(),
        }
    }

    /// Gives the next record, which `record` lends then.
    pub fn advance<M: Machine>(&mut self, machine: &mut M) -> Result<Taken, Stop>
        requires sound { IsTrue (M.status machine.old).is_sound }
        ensures gives { IsTrue M.tells → IfOk result (λ taken. Gives taken (edited_stream self.old (M.meaning machine.old).state) self.new.rec.items (edited_stream self.new (M.meaning machine.old).state)) }
        ensures checks { IsTrue M.tells → IfOk result (λ taken. Checks taken self.old self.new (M.meaning machine.old).state) }
        ensures fewer { IfOk result (λ taken. taken ≡ Taken.Record → edited_most self.new < edited_most self.old) }
        ensures runs { IsTrue M.tells → RunsNothing M.tells_prints (M.meaning machine.old) (M.meaning machine.new) result }
        ensures writer { IsTrue M.tells → M.writer machine.new ≡ M.writer machine.old }
        ensures promise { IsTrue M.tells → Keeps (M.meaning machine.old).clock (M.promise machine.old) (M.promise machine.new) }
        ensures count { (M.status machine.new).done ≡ (M.status machine.old).done }
        ensures faults { RunCall (M.status machine.old).is_open (M.status machine.old) (M.status machine.new) result }
    {
        loop {
            if !self.olds.fill(machine)? {
                return Ok(Taken::Broken);
            }
            match self.take()? {
                Step::Record => return Ok(Taken::Record),
                Step::Part => (),
                Step::End => return Ok(Taken::End),
            }
        }
    }
}

impl<M: Machine> RecordSource<M> for EditedRecords<'_> {
    ghost stream = { λ records shelf. edited_stream records shelf };

    ghost given = { λ records. records.rec.items };

    ghost most = { λ records. edited_most records };

    fn next(&mut self, machine: &mut M) -> Result<Taken, Stop> {
        self.advance(machine)
    }

    fn record(&self) -> &[u8] {
        self.rec.as_slice()
    }

    ghost stays = { λ records s u kept. edited_stays records s u kept };
}
