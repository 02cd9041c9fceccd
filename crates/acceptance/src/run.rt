//! Runs over a hall and cards in memory.

use crate::bench::Bench;
use crate::closed::Closed;
use crate::unsteady::Unsteady;
use case_images::{Named, push_changes, push_printed};
use hall_core::{Call, Left, MemCards, MemHall};
use hall_files::{FileHall, StdCards};
use std::alloc::Global;
use std::fmt::Write;
use std::io::Result;

// Keeps all writes that are pending, and every second.
const ALL: &[bool] = &[true; 64];

const SECOND: &[bool] = &[false, true, false, true, false, true, false, true];

/// A run: its status and the hall as it is left.
pub fn run(alloc: Global, bench: &Bench, words: &[String], fails: &[u64]) -> Result<(u8, MemHall)> {
    let (calls, bytes) = bench.room;
    let mut hall = MemHall::new(alloc, copy_of(alloc, &bench.files)?, fails.to_vec(alloc)?);
    hall.room(calls, bytes)?;
    let deck = bench.deck.as_slice().to_vec(alloc)?;
    let mut cards = MemCards::new(deck, bench.card_fails.as_slice().to_vec(alloc)?);
    let mut unsteady = Unsteady::over(hall, bench.sound_reads, bench.cut);
    let status = volume_manager::volman(alloc, words, &mut cards, &mut unsteady);
    Ok((status, unsteady.hall))
}

/// The status of a run over the files and the standard input of a system that is closed to the program.
pub fn closed_status(alloc: Global, words: &[String]) -> u8 {
    let system = Closed;
    let mut cards = StdCards::new(system);
    let mut hall = FileHall::new(alloc, &system);
    volume_manager::volman(alloc, words, &mut cards, &mut hall)
}

// A copy of files.
fn copy_of(alloc: Global, files: &[Named]) -> Result<Vec<Named>> {
    let mut copies = Vec::new(alloc);
    for (name, image) in files {
        copies.push((
            String::from_str(alloc, name.as_str())?,
            image.as_slice().to_vec(alloc)?,
        ))?;
    }
    Ok(copies)
}

/// What is there at the end, if all that is pending is kept.
pub fn end_of(hall: &MemHall) -> Result<Left> {
    Ok(hall.left_at(u64::MAX, ALL)?)
}

/// What a run answered, printed and changed, after its calls where the case asks for them.
pub fn report(
    alloc: Global,
    bench: &Bench,
    status: u8,
    hall: &MemHall,
    left: &Left,
) -> Result<String> {
    let mut text = String::new(alloc);
    if bench.shows_calls {
        for call in hall.calls() {
            push_call(&mut text, *call)?;
        }
    }
    writeln!(text, "= {status}")?;
    push_left(alloc, &mut text, bench, left)?;
    Ok(text)
}

// Adds a call: what it is, and the unit and the offset of a read or a write.
fn push_call(text: &mut String, call: Call) -> Result<()> {
    match call {
        Call::Attach => writeln!(text, ": attach")?,
        Call::Create => writeln!(text, ": create")?,
        Call::Read { unit, at } => writeln!(text, ": read {unit} +{at}")?,
        Call::Write { unit, at } => writeln!(text, ": write {unit} +{at}")?,
        Call::Sync => writeln!(text, ": sync")?,
        Call::Print => writeln!(text, ": print")?,
    }
    Ok(())
}

// Adds what was printed and changed.
fn push_left(alloc: Global, text: &mut String, bench: &Bench, left: &Left) -> Result<()> {
    push_printed(text, left.printed.as_slice())?;
    push_changes(alloc, text, &bench.files, &left.files)
}

// Adds what a run over these files answers, where one is wanted.
fn push_next(alloc: Global, text: &mut String, bench: &Bench, left: Left) -> Result<()> {
    if bench.next.is_empty() {
        return Ok(());
    }
    let (calls, bytes) = bench.room;
    let Left { files, printed: _ } = left;
    let mut hall = MemHall::new(alloc, files, Vec::new(alloc));
    hall.room(calls, bytes)?;
    let deck = bench.next_deck.as_slice().to_vec(alloc)?;
    let mut cards = MemCards::new(deck, Vec::new(alloc));
    let status = volume_manager::volman(alloc, &bench.next, &mut cards, &mut hall);
    writeln!(text, "then {status}")?;
    push_printed(text, hall.printed())
}

/// What stops leave, each moment as of before one of the calls, and at the end.
pub fn stops(alloc: Global, bench: &Bench, hall: &MemHall) -> Result<String> {
    let mut text = String::new(alloc);
    let mut groups = Groups::new(alloc, "stop");
    for moment in 0..hall.calls().len() {
        let outcome = ways(alloc, bench, hall, moment as u64)?;
        groups.add(&mut text, moment, outcome)?;
    }
    let outcome = ways(alloc, bench, hall, u64::MAX)?;
    groups.add(&mut text, hall.calls().len(), outcome)?;
    groups.end(&mut text)?;
    Ok(text)
}

/// What runs answer and leave in which the call of one number fails, for each of so many calls.
pub fn fails(alloc: Global, bench: &Bench, words: &[String], calls: usize) -> Result<String> {
    let mut text = String::new(alloc);
    let mut groups = Groups::new(alloc, "fail");
    for call in 0..calls {
        let (status, hall) = run(alloc, bench, words, &[call as u64])?;
        let left = ways(alloc, bench, &hall, u64::MAX)?;
        groups.add(&mut text, call, format!(in alloc; "= {status}\n{left}")?)?;
    }
    groups.end(&mut text)?;
    Ok(text)
}

// What a stop at a moment leaves where no write that is pending is kept, and where all are and every
// second is, if that is something else.
fn ways(alloc: Global, bench: &Bench, hall: &MemHall, moment: u64) -> Result<String> {
    let none = left_text(alloc, bench, hall.left_at(moment, &[])?)?;
    let all = left_text(alloc, bench, hall.left_at(moment, ALL)?)?;
    let half = left_text(alloc, bench, hall.left_at(moment, SECOND)?)?;
    let mut text = none.clone()?;
    if all.as_str() != none.as_str() {
        writeln!(text, "all kept")?;
        text.push_str(all.as_str())?;
    }
    if half.as_str() != none.as_str() && half.as_str() != all.as_str() {
        writeln!(text, "half kept")?;
        text.push_str(half.as_str())?;
    }
    Ok(text)
}

// What a stop leaves, as text.
fn left_text(alloc: Global, bench: &Bench, left: Left) -> Result<String> {
    let mut text = String::new(alloc);
    push_left(alloc, &mut text, bench, &left)?;
    push_next(alloc, &mut text, bench, left)?;
    Ok(text)
}

// Numbers with equal outcomes, one after the other.
#[derive(Drop)]
struct Groups<'a> {
    which: &'a str,
    first: usize,
    last: usize,
    outcome: String,
    is_empty: bool,
}

impl<'a> Groups<'a> {
    // No numbers yet.
    fn new(alloc: Global, which: &'a str) -> Groups<'a> {
        Groups {
            which,
            first: 0,
            last: 0,
            outcome: String::new(alloc),
            is_empty: true,
        }
    }

    // Adds the next number, and to the text the group before it, where that ends.
    fn add(&mut self, text: &mut String, number: usize, outcome: String) -> Result<()> {
        if !self.is_empty && self.outcome.as_str() != outcome.as_str() {
            self.end(text)?;
            self.is_empty = true;
        }
        if self.is_empty {
            self.first = number;
        }
        self.last = number;
        self.outcome = outcome;
        self.is_empty = false;
        Ok(())
    }

    // Adds the group to the text.
    fn end(&self, text: &mut String) -> Result<()> {
        if self.is_empty {
            return Ok(());
        }
        let (which, first, last) = (self.which, self.first, self.last);
        if first == last {
            writeln!(text, "{which} {first}")?;
        } else {
            writeln!(text, "{which} {first}-{last}")?;
        }
        for line in self.outcome.as_str().lines() {
            writeln!(text, "  {line}")?;
        }
        Ok(())
    }
}
