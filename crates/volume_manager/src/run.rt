//! A deck of jobs over packs.
ghost use Rattle.std.specs.Prelude.{◌≡◌, ◌≢◌, ◌⊎◌, ◌≤◌, [], ℕ, length, map, IsTrue, Ok, Err, Some};
ghost use Rattle.command_words.specs.Requests.{Run};
ghost use Rattle.hall_core.specs.Facts.{Attached};
ghost use Rattle.jcl_forms.specs.Dates.{IsDate};
ghost use Rattle.job_runner.specs.Jobs.{jobs_work};
ghost use Rattle.pack_spec.specs.Shelf.{UnitRefusal, shelf_of};
ghost use Rattle.shelf_machine.specs.Opening.{AreApart, images_named};
ghost use Rattle.stop_model.specs.Counts.{Rose};
ghost use Rattle.stop_model.specs.Moments.{IsDurable};
ghost use Rattle.vol_model.specs.declared.contents.Shelf.{Shelf};
ghost use Rattle.volume_manager.specs.Lines.{deck_line, unit_line};
ghost use Rattle.volume_manager.specs.Run.{Attachments, Causes, RunFacts, FollowsTask, Headline, LeavesFiles, LeftOnlyNow, NoCountFell, ReadsDeck, RunsItems, status_of};
ghost use Rattle.volume_manager.specs.Task.{Says, cards_task, missing_of, name_of};

use crate::attach::attach_all;
use crate::cause::Cause;
use crate::end::{end, refuse};
use crate::text::deck_line;
use crate::work::work;
use card_text::Card;
use hall_core::{Cards, Hall};
use job_deck::{DeckErr, Job, jobs, read_deck};
use shelf_machine::HallShelf;
use std::alloc::Global;
use vol_model::MAX_UNITS;

// The units that the files of a run become.
const UNITS: [u8; MAX_UNITS] = [0, 1, 2, 3, 4, 5, 6, 7];

/// Reads a deck to the end of its cards, runs its jobs over the packs in files, and gives the status.
///
/// The date is that of the run: the year since 1900 and a day of 1 to 366, in two bytes. A deck that is refused is
/// said so, and no file is asked for then.
pub fn run_deck<C: Cards, H: Hall>(
    alloc: Global,
    cards: &mut C,
    hall: &mut H,
    date: [u8; 3],
    files: &[&str],
) -> Result<u8, Cause>
    requires none { (H.facts hall.old).units ≡ [] }
    requires date { IsDate date }
    requires few { length files.now ≤ MAX_UNITS }
    requires apart { AreApart (map (λ f. f.now) files.now) }
    ensures headline { IsTrue H.tells → Headline (Some (Run date (map (λ f. f.now) files.now))) C.tells (C.left cards.old)
        (H.meaning hall.old) (H.meaning hall.new) (status_of result) }
    ensures causes { Causes (Some (Run date (map (λ f. f.now) files.now))) C.tells (C.left cards.old)
        (C.faults cards.old) (C.faults cards.new) (H.facts hall.old) (H.facts hall.new) (status_of result) }
    ensures deck { IsTrue C.tells → ReadsDeck (Some (Run date (map (λ f. f.now) files.now))) (C.left cards.new) (status_of result) }
    ensures units { Attachments (Some (Run date (map (λ f. f.now) files.now))) C.tells (C.left cards.old)
        (H.facts hall.old) (H.facts hall.new) (status_of result) }
{
    match read_deck(alloc, cards) {
        Ok(deck) => run(alloc, hall, date, files, &deck),
        Err(why) => refuse_deck(alloc, hall, why),
    }
}

// Prints why a deck is refused, unless the cards couldn't be read or memory ran out, and gives the status.
fn refuse_deck<H: Hall>(alloc: Global, hall: &mut H, why: DeckErr) -> Result<u8, Cause>
    ensures task { IsTrue H.tells → why ≢ DeckErr.Read → why ≢ DeckErr.Memory
        → FollowsTask (Says 26 (deck_line why)) (H.meaning hall.old) (H.meaning hall.new) (status_of result) }
    ensures silent { (why ≡ DeckErr.Read) ⊎ (why ≡ DeckErr.Memory) → hall.new ≡ hall.old }
    ensures files { IsTrue H.tells → LeavesFiles (H.meaning hall.old) (H.meaning hall.new) }
    ensures read { why ≡ DeckErr.Read → status_of result ≡ 23 }
    ensures memory { why ≡ DeckErr.Memory → status_of result ≡ 25 }
    ensures status { why ≢ DeckErr.Read → (status_of result ≡ 26) ⊎ ((status_of result ≡ 24) ⊎ (status_of result ≡ 25)) }
    ensures print { status_of result ≡ 24 → Rose (H.facts hall.old).print_faults (H.facts hall.new).print_faults }
    ensures later { NoCountFell (H.facts hall.old) (H.facts hall.new) }
    ensures references { (H.facts hall.new).references ≡ (H.facts hall.old).references }
    ensures units { (H.facts hall.new).units ≡ (H.facts hall.old).units }
{
    match why {
        DeckErr::Read => Err(Cause::Cards),
        DeckErr::Memory => Err(Cause::Memory),
        why => {
            let line = deck_line(alloc, why)?;
            end(hall, &line, Err(Cause::Deck))
        }
    }
}

// Runs the jobs of cards over the packs in files.
fn run<H: Hall>(
    alloc: Global,
    hall: &mut H,
    date: [u8; 3],
    files: &[&str],
    deck: &[Card],
) -> Result<u8, Cause>
    requires none { (H.facts hall.old).units ≡ [] }
    requires date { IsDate date }
    requires few { length files.now ≤ MAX_UNITS }
    requires apart { AreApart (map (λ f. f.now) files.now) }
    requires cards { length deck.now ≤ 100000 }
    ensures task { IsTrue H.tells → FollowsTask (cards_task date (map (λ f. f.now) files.now) deck.now
        (H.meaning hall.old).state (missing_of (H.meaning hall.old).state (map (λ f. f.now) files.now)))
        (H.meaning hall.old) (H.meaning hall.new) (status_of result) }
    ensures refused { IsTrue H.tells → status_of result ≡ 21 → LeavesFiles (H.meaning hall.old) (H.meaning hall.new) }
    ensures durable { IsTrue H.tells → status_of result ≡ 25 → IsDurable (H.meaning hall.new) }
    ensures facts { RunFacts (map (λ f. f.now) files.now) (H.facts hall.old) (H.facts hall.new) (status_of result) }
{
    let jobs = jobs(alloc, deck, date)?;
    match attach_all(hall, files) {
        Ok(()) => {
            let (ended, _hall) = run_on(alloc, hall, files, &jobs, date);
            ended
        }
        Err(refused) => refuse(alloc, hall, refused.file, refused.why),
    }
}

// Runs jobs on the shelf of the packs in files, which are attached as the units of a hall, and gives the status and the
// hall.
fn run_on<H: Hall>(
    alloc: Global,
    hall: H,
    files: &[&str],
    jobs: &[Job],
    date: [u8; 3],
) -> (Result<u8, Cause>, H)
    requires attached { map (λ (u : Attached). u.name) (H.facts hall).units ≡ map (λ f. f.now) files.now }
    requires few { length files.now ≤ MAX_UNITS }
    requires apart { AreApart (map (λ f. f.now) files.now) }
    requires durable { IsTrue H.tells → IsDurable (H.meaning hall) }
    ensures items { IsTrue H.tells → (shelf : Shelf)
        → shelf_of (images_named (H.meaning hall).state (map (λ f. f.now) files.now)) ≡ Ok shelf
        → (t : ℕ) → t ≤ (H.meaning hall).clock → LeftOnlyNow (H.meaning hall) t
        → RunsItems (map (λ f. f.now) files.now) shelf (jobs_work date jobs.now shelf).items t
        (H.meaning hall).state (H.meaning hall).printed (H.meaning result.1) (status_of result.0) }
    ensures text { IsTrue H.tells → (r : UnitRefusal)
        → shelf_of (images_named (H.meaning hall).state (map (λ f. f.now) files.now)) ≡ Err r
        → FollowsTask (Says 21 (unit_line (name_of (map (λ f. f.now) files.now) r.unit) r.why))
        (H.meaning hall) (H.meaning result.1) (status_of result.0) }
    ensures refused { IsTrue H.tells → status_of result.0 ≡ 21 → LeavesFiles (H.meaning hall) (H.meaning result.1) }
    ensures durable { IsTrue H.tells → status_of result.0 ≡ 25 → IsDurable (H.meaning result.1) }
    ensures status { (status_of result.0 ≤ 16) ⊎ ((status_of result.0 ≡ 21) ⊎ ((status_of result.0 ≡ 22) ⊎ ((status_of result.0 ≡ 24) ⊎ (status_of result.0 ≡ 25)))) }
    ensures device { status_of result.0 ≡ 22 → Rose (H.facts hall).dev_faults (H.facts result.1).dev_faults }
    ensures print { status_of result.0 ≡ 24 → Rose (H.facts hall).print_faults (H.facts result.1).print_faults }
    ensures later { NoCountFell (H.facts hall) (H.facts result.1) }
    ensures units { (H.facts result.1).units ≡ (H.facts hall).units }
    ensures references { (H.facts result.1).references ≡ (H.facts hall).references }
{
    match HallShelf::open(alloc, hall, &UNITS[..files.len()]) {
        Ok(machine) => work(alloc, machine, jobs, date),
        Err(refused) => {
            let mut hall = refused.hall;
            let file = name_of(files, refused.unit);
            let ended = refuse(alloc, &mut hall, file, refused.why);
            (ended, hall)
        }
    }
}

// The name of the file that is the unit of this number.
fn name_of<'a>(files: &[&'a str], unit: u8) -> &'a str
    ensures { result.now ≡ name_of (map (λ f. f.now) files.now) unit }
{
    match files.get(usize::from(unit)) {
        Some(file) => *file,
        None => "",
    }
}
