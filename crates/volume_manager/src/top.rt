//! The top call: all that the program does.
ghost use Rattle.std.specs.Prelude.{◌≡◌, [], map, string_bytes, IsTrue};
ghost use Rattle.command_words.specs.Requests.{request_of};
ghost use Rattle.volume_manager.specs.Run.{Attachments, Causes, Headline, ReadsDeck, status_of};
ghost use Rattle.volume_manager.specs.Words.{IsRun};

use crate::cause::{Cause, status_of};
use crate::check::check;
use crate::end::end;
use crate::init::init;
use crate::names::names;
use crate::run::run_deck;
use crate::text::WORDS_LINE;
use command_words::{Action, action_of};
use hall_core::{Cards, Hall};
use std::alloc::{AllocError, Global};

/// Does what the words ask for, over the files of a hall, and gives the status with which the program
/// ends.
///
/// The words are those of the command line, the program's name first. `names FILE` prints the names of
/// the data sets on a pack, in the order of their EBCDIC bytes, a line each; `check FILE` says whether the
/// VTOC of a pack is settled; neither reads cards.
/// `init --type DEVICE --serial SERIAL --vtoc TRACKS [--cyls CYLINDERS] FILE` makes a new pack.
/// `run --date yyddd FILE...` reads a deck of jobs from the cards, runs it over 1 to 8 packs, whose VTOCs it
/// repairs where they aren't settled, and prints the listing. The order is: words; the cards to their end; the
/// files are attached in order; each is read; their serials are compared; each is repaired; the jobs; a sync.
///
/// | status | where | printed |
/// |---|---|---|
/// | 0 to 16 | it is the highest condition code | the listing |
/// | 0 | the names were read, the pack was made, or is settled | the names, `INIT serial`, `CHECK serial SETTLED` |
/// | 4 | the pack isn't settled | `CHECK serial UNSETTLED` |
/// | 20 | any other words | `VOLMAN WORDS` |
/// | 21 | a file is missing, or refused, or that of a new pack is there | `VOLMAN UNIT file` and the reason |
/// | 22 | the device failed | nothing more |
/// | 23 | the cards couldn't be read | nothing more |
/// | 24 | the printer failed | nothing more |
/// | 25 | memory ran out | nothing more |
/// | 26 | the deck has a 100,001st card, more than 80 columns, or a byte outside 32 to 126 | `VOLMAN DECK` and the place |
pub fn volman<C: Cards, H: Hall>(alloc: Global, words: &[String], cards: &mut C, hall: &mut H) -> u8
    requires { (H.facts hall.old).units ≡ [] }

    // The headline: run without a stop all that is asked for is done and printed; a stop at any moment leaves what a
    // prefix of the operations leaves; and what is refused, or can't be read, changes nothing.
    ensures headline { IsTrue H.tells → Headline (request_of (map string_bytes words.now)) C.tells (C.left cards.old)
        (H.meaning hall.old) (H.meaning hall.new) result }

    // The causes of every status, over any hall and any cards.
    ensures causes { Causes (request_of (map string_bytes words.now)) C.tells (C.left cards.old)
        (C.faults cards.old) (C.faults cards.new) (H.facts hall.old) (H.facts hall.new) result }

    // The order of words, deck and files.
    ensures deck { IsTrue C.tells → ReadsDeck (request_of (map string_bytes words.now)) (C.left cards.new) result }
    ensures cards { ¬ IsRun (request_of (map string_bytes words.now)) → cards.new ≡ cards.old }
    ensures units { Attachments (request_of (map string_bytes words.now)) C.tells (C.left cards.old)
        (H.facts hall.old) (H.facts hall.new) result }
{
    status_of(act(alloc, words, cards, hall))
}

// Does what the words ask for, and ends with a condition code, or with the cause of another status.
fn act<C: Cards, H: Hall>(
    alloc: Global,
    words: &[String],
    cards: &mut C,
    hall: &mut H,
) -> Result<u8, Cause>
    requires { (H.facts hall.old).units ≡ [] }
    ensures headline { IsTrue H.tells → Headline (request_of (map string_bytes words.now)) C.tells (C.left cards.old)
        (H.meaning hall.old) (H.meaning hall.new) (status_of result) }
    ensures causes { Causes (request_of (map string_bytes words.now)) C.tells (C.left cards.old)
        (C.faults cards.old) (C.faults cards.new) (H.facts hall.old) (H.facts hall.new) (status_of result) }
    ensures deck { IsTrue C.tells → ReadsDeck (request_of (map string_bytes words.now)) (C.left cards.new) (status_of result) }
    ensures cards { ¬ IsRun (request_of (map string_bytes words.now)) → cards.new ≡ cards.old }
    ensures units { Attachments (request_of (map string_bytes words.now)) C.tells (C.left cards.old)
        (H.facts hall.old) (H.facts hall.new) (status_of result) }
{
    match action_of(alloc, words) {
        Err(AllocError) => Err(Cause::Memory),
        Ok(None) => end(hall, WORDS_LINE, Err(Cause::Words)),
        Ok(Some(Action::Names { file })) => names(alloc, hall, file),
        Ok(Some(Action::Check { file })) => check(alloc, hall, file),
        Ok(Some(Action::Init { pack, file })) => init(alloc, hall, file, &pack),
        Ok(Some(Action::Run { date, files })) => run_deck(alloc, cards, hall, date, &files),
    }
}
