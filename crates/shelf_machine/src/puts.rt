//! Blocks put by a writer on one of several packs, whose set is extended where it owns no track.
ghost use Rattle.std.specs.Prelude.{◌≡◌, ◌≢◌, ◌<◌, ◌≤◌, ◌==◌, ◌&&◌, [], ◌∷◌, length, true, false, IsErrOf, IsTrue, OnOk};
ghost use Rattle.seq_access.specs.Writing.{has_put};
ghost use Rattle.vol_model.specs.Places.{end_of_file};
ghost use Rattle.vol_model.specs.Shelf.{put_last};
ghost use Rattle.vol_model.specs.Writing.{Wanted};
ghost use Rattle.shelf_machine.specs.Machine.{placed_in};
ghost use Rattle.shelf_machine.specs.OpenWriters.{HasWriter, KeepsWriter};
ghost use Rattle.shelf_machine.specs.ReadyPacks.{vols_of};
ghost use Rattle.shelf_machine.specs.PutBlocks.{PlacesAll, PlacesBlock, PutsBlock, StandsAgain, due_on, ends_on, put_answer, room_answer, room_on};
ghost use Rattle.shelf_machine.specs.Putting.{IsDue};

use crate::writer::Writer;
use crate::writing::{make_room, put_on_owned_track};
use hall_core::Hall;
use pack_machine::Pack;
use seq_access::PutErr;
use vol_model::{MachErr, Mode, Place, Refusal, StoreErr};

// Puts a block after those of the open writer, and what is due in front of the first. Its set is extended first where it
// owns no track for one of the two.
pub(crate) fn put_block<H: Hall>(
    hall: &mut H,
    packs: &mut Vec<Pack>,
    writer: &mut Writer,
    done: &mut u64,
    key: &[u8],
    payload: &[u8],
) -> Result<Place, MachErr>
    requires writer { HasWriter H.tells (H.facts hall.old) (H.meaning hall.old) packs.old.items writer.old }
    requires key { length key.now ≤ 255 }
    requires payload { length payload.now ≤ 32760 }
    ensures shelf { IsTrue H.tells → PutsBlock (key.now, payload.now) (H.facts hall.old).units
        (H.facts hall.new).units (vols_of packs.old.items) (vols_of packs.new.items) writer.old writer.new
        (H.meaning hall.old) (H.meaning hall.new) done.old done.new result }
    ensures keeps { KeepsWriter H.tells (H.facts hall.old) (H.facts hall.new) (H.meaning hall.new)
        packs.old.items packs.new.items writer.old writer.new result }
{
    match place_first(hall, packs, writer, done) {
        Ok(()) => place_block(hall, packs, writer, done, key, payload),
        Err(error) => Err(error),
    }
}

// Places the end-of-file blocks of an area that aren't placed yet: what is due in front of the first block, and the one
// after the last.
pub(crate) fn place_ends<H: Hall>(
    hall: &mut H,
    packs: &mut Vec<Pack>,
    writer: &mut Writer,
    done: &mut u64,
) -> Result<(), MachErr>
    requires writer { HasWriter H.tells (H.facts hall.old) (H.meaning hall.old) packs.old.items writer.old }
    ensures shelf { let cs = ends_on (H.meaning hall.old).state (H.facts hall.old).units (vols_of packs.old.items)
        writer.old in
        IsTrue H.tells → PlacesAll cs tt (H.facts hall.old).units (H.facts hall.new).units
        (vols_of packs.old.items) (vols_of packs.new.items) writer.old writer.new (H.meaning hall.old)
        (H.meaning hall.new) done.old done.new result }
    ensures keeps { KeepsWriter H.tells (H.facts hall.old) (H.facts hall.new) (H.meaning hall.new)
        packs.old.items packs.new.items writer.old writer.new result }
    ensures low { writer.old.inner.last.tt < 65536 }
{
    match place_first(hall, packs, writer, done) {
        Ok(()) => place_last(hall, packs, writer, done),
        Err(error) => Err(error),
    }
}

// Places the end-of-file block after an area.
fn place_last<H: Hall>(
    hall: &mut H,
    packs: &mut Vec<Pack>,
    writer: &mut Writer,
    done: &mut u64,
) -> Result<(), MachErr>
    requires writer { HasWriter H.tells (H.facts hall.old) (H.meaning hall.old) packs.old.items writer.old }
    ensures shelf { IsTrue H.tells → PlacesAll (put_last writer.old.mode) tt (H.facts hall.old).units
        (H.facts hall.new).units (vols_of packs.old.items) (vols_of packs.new.items) writer.old writer.new
        (H.meaning hall.old) (H.meaning hall.new) done.old done.new result }
    ensures keeps { KeepsWriter H.tells (H.facts hall.old) (H.facts hall.new) (H.meaning hall.new)
        packs.old.items packs.new.items writer.old writer.new result }
{
    match writer.mode {
        Mode::Area => place_end(hall, packs, writer, done),
        Mode::Fill => Ok(()),
    }
}

// Places what is due in front of the first block that is put.
fn place_first<H: Hall>(
    hall: &mut H,
    packs: &mut Vec<Pack>,
    writer: &mut Writer,
    done: &mut u64,
) -> Result<(), MachErr>
    requires writer { HasWriter H.tells (H.facts hall.old) (H.meaning hall.old) packs.old.items writer.old }
    ensures shelf { let cs = due_on (H.meaning hall.old).state (H.facts hall.old).units (vols_of packs.old.items)
        writer.old in
        IsTrue H.tells → PlacesAll cs tt (H.facts hall.old).units (H.facts hall.new).units
        (vols_of packs.old.items) (vols_of packs.new.items) writer.old writer.new (H.meaning hall.old)
        (H.meaning hall.new) done.old done.new result }
    ensures stands { IsTrue H.tells → StandsAgain result (placed_in (H.meaning hall.old).state
        (H.facts hall.old).units (vols_of packs.old.items) writer.old) (placed_in (H.meaning hall.new).state
        (H.facts hall.new).units (vols_of packs.new.items) writer.new) }
    ensures placed { OnOk result (writer.new.owes_end_of_file ≡ true → has_put writer.new.inner ≡ true) }
    ensures low { writer.old.inner.last.tt < 65536 }
    ensures keeps { KeepsWriter H.tells (H.facts hall.old) (H.facts hall.new) (H.meaning hall.new)
        packs.old.items packs.new.items writer.old writer.new result }
{
    if !is_due(*writer) {
        return Ok(());
    }
    place_end(hall, packs, writer, done)
}

// Whether an end-of-file block is due in front of what is put.
fn is_due(writer: Writer) -> bool
    ensures value { result ≡ (writer.owes_end_of_file && writer.inner.blocks == 0) }
    ensures low { writer.inner.last.tt < 65536 }
{
    writer.owes_end_of_file && writer.inner.blocks == 0
}

// Places an end-of-file block after those of the open writer.
fn place_end<H: Hall>(
    hall: &mut H,
    packs: &mut Vec<Pack>,
    writer: &mut Writer,
    done: &mut u64,
) -> Result<(), MachErr>
    requires writer { HasWriter H.tells (H.facts hall.old) (H.meaning hall.old) packs.old.items writer.old }
    ensures shelf { IsTrue H.tells → PlacesAll (end_of_file ∷ []) tt (H.facts hall.old).units
        (H.facts hall.new).units (vols_of packs.old.items) (vols_of packs.new.items) writer.old writer.new
        (H.meaning hall.old) (H.meaning hall.new) done.old done.new result }
    ensures stands { IsTrue H.tells → StandsAgain result (placed_in (H.meaning hall.old).state
        (H.facts hall.old).units (vols_of packs.old.items) writer.old) (placed_in (H.meaning hall.new).state
        (H.facts hall.new).units (vols_of packs.new.items) writer.new) }
    ensures placed { OnOk result (0 < writer.new.inner.blocks) }
    ensures keeps { KeepsWriter H.tells (H.facts hall.old) (H.facts hall.new) (H.meaning hall.new)
        packs.old.items packs.new.items writer.old writer.new result }
{
    match place_block(hall, packs, writer, done, &[], &[]) {
        Ok(_place) => Ok(()),
        Err(error) => Err(error),
    }
}

// Places a block after those of the open writer. Its set is extended first where it owns no track.
pub(crate) fn place_block<H: Hall>(
    hall: &mut H,
    packs: &mut Vec<Pack>,
    writer: &mut Writer,
    done: &mut u64,
    key: &[u8],
    payload: &[u8],
) -> Result<Place, MachErr>
    requires writer { HasWriter H.tells (H.facts hall.old) (H.meaning hall.old) packs.old.items writer.old }
    requires key { length key.now ≤ 255 }
    requires payload { length payload.now ≤ 32760 }
    requires due { IsDue writer.old (key.now, payload.now) }
    ensures shelf { IsTrue H.tells → PlacesBlock (key.now, payload.now) (H.facts hall.old).units
        (H.facts hall.new).units (vols_of packs.old.items) (vols_of packs.new.items) writer.old writer.new
        (H.meaning hall.old) (H.meaning hall.new) done.old done.new result }
    ensures placed { OnOk result (0 < writer.new.inner.blocks) }
    ensures keeps { KeepsWriter H.tells (H.facts hall.old) (H.facts hall.new) (H.meaning hall.new)
        packs.old.items packs.new.items writer.old writer.new result }
{
    let put = put_on_owned_track(hall, packs, writer, key, payload);
    if wants_extent(&put) {
        return extend_and_place(hall, packs, writer, done, key, payload);
    }
    answer_put(put)
}

// The same where the set owns no track for the block: it is extended, and then the block is placed.
fn extend_and_place<H: Hall>(
    hall: &mut H,
    packs: &mut Vec<Pack>,
    writer: &mut Writer,
    done: &mut u64,
    key: &[u8],
    payload: &[u8],
) -> Result<Place, MachErr>
    requires writer { HasWriter H.tells (H.facts hall.old) (H.meaning hall.old) packs.old.items writer.old }
    requires wanted { IsTrue H.tells → room_on (H.meaning hall.old).state (H.facts hall.old).units
        (vols_of packs.old.items) writer.old (key.now, payload.now) ≡ Wanted }
    requires key { length key.now ≤ 255 }
    requires payload { length payload.now ≤ 32760 }
    requires due { IsDue writer.old (key.now, payload.now) }
    ensures shelf { IsTrue H.tells → PlacesBlock (key.now, payload.now) (H.facts hall.old).units
        (H.facts hall.new).units (vols_of packs.old.items) (vols_of packs.new.items) writer.old writer.new
        (H.meaning hall.old) (H.meaning hall.new) done.old done.new result }
    ensures placed { OnOk result (0 < writer.new.inner.blocks) }
    ensures keeps { KeepsWriter H.tells (H.facts hall.old) (H.facts hall.new) (H.meaning hall.new)
        packs.old.items packs.new.items writer.old writer.new result }
{
    match make_room(hall, packs, writer) {
        Ok(()) => {
            *done = done.saturating_add(1);
            answer_put(put_on_owned_track(hall, packs, writer, key, payload))
        }
        Err(error) => Err(answer_room(error)),
    }
}

// Whether the set owns no track for a block that was to be put.
fn wants_extent(put: &Result<Place, PutErr>) -> bool
    ensures wanted { result ≡ true → IsErrOf put.now PutErr.NeedExtent }
    ensures others { result ≡ false → ¬ IsErrOf put.now PutErr.NeedExtent }
{
    matches!(put, Err(PutErr::NeedExtent))
}

// What the machine answers to a put. After an extension there is a track for the block.
fn answer_put(put: Result<Place, PutErr>) -> Result<Place, MachErr>
    ensures { result ≡ put_answer put }
{
    match put {
        Ok(place) => Ok(place),
        Err(PutErr::TooLong | PutErr::NeedExtent) => Err(MachErr::Refused(Refusal::NoRoom)),
        Err(PutErr::Device) => Err(MachErr::Device),
    }
}

// What it answers where the set isn't extended, which takes no memory.
fn answer_room(error: StoreErr) -> MachErr
    requires { error ≢ StoreErr.Memory }
    ensures { result ≡ room_answer error }
{
    match error {
        StoreErr::Refused(_) => MachErr::Refused(Refusal::NoRoom),
        StoreErr::Memory => unreachable!(),
        StoreErr::Device => MachErr::Device,
    }
}
