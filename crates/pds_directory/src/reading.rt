//! The directory of a partitioned data set, read.
ghost use Rattle.std.specs.Prelude.{◌≡◌, ◌≢◌, ◌≤◌, ◌<◌, ◌+◌, ◌-◌, ◌*◌, ◌%◌, ℕ, List, true, false, length, map, take, is_some, slice_get, IfOk, IsErrOf, IsTrue, None, OnOk, Some};
ghost use Rattle.dscb_codec.specs.declared.F1.{F1};
ghost use Rattle.hall_core.specs.Facts.{ReportedCall};
ghost use Rattle.hall_core.specs.Images.{image_in};
ghost use Rattle.stop_model.specs.Moments.{Same};
ghost use Rattle.ckd_image.specs.Track.{Record};
ghost use Rattle.pack_spec.specs.Directories.{block_entries};
ghost use Rattle.vol_model.specs.declared.answers.ReadErr.{ReadErr};
ghost use Rattle.vol_model.specs.declared.contents.Block.{Block};
ghost use Rattle.vol_model.specs.declared.contents.Place.{Place};
ghost use Rattle.vtoc_index.specs.Index.{IsMounted, IsOfUnit};
ghost use Rattle.vtoc_index.specs.Names.{name_at};
ghost use Rattle.pds_directory.specs.Directories.{IsLawfulDir, IsPartIn, ReadsDir, end_in};
ghost use Rattle.pds_directory.specs.Reading.{AddsBlock, AreReadSoFar, HoldsWhole, IsHeld, IsLawfulReading, IsReadBefore, ReadsRecord, ReadsRecords, ReadsTrack, at_in, dir_walked, end_on};

use crate::decoding::{DirBlock, read_block};
use crate::dir::{Dir, DirWalk};
use crate::ends::{Reached, end_on, reach_end};
use crate::records::is_directory_record;
use dscb_codec::{Dscb, F1};
use hall_core::{Device, Hall};
use std::alloc::Global;
use track_records::TrackBuf;
use vol_model::{Place, ReadErr};
use vtoc_index::Vol;
use vtoc_sets::{set_at, track_at};

// What was read of a directory so far.
#[derive(Drop)]
pub(crate) struct Reading {
    // The blocks, and all places.
    pub dir: Dir,
    // Whether the last of the blocks ends the directory.
    pub ended: bool,
    // Whether the track with the directory's end was read to its end marker.
    pub whole: bool,
}

/// Reads the directory of the partitioned data set whose format 1 a slot holds.
///
/// `Unreadable` carries the first relative track, from 0, that breaks the body, where it is met on the way: one that the
/// set doesn't own, or that breaks the grammar of a Hercules image before the end-of-file record and before its end
/// marker; one with a record before that which isn't of the lengths of a directory block, or with a block that breaks the
/// format; that of the end-of-file record, where no block ends the directory. What stands after the directory isn't read:
/// `Ok` says nothing of that. `Device` comes only where the count of its faults rose.
///
/// Each track is read once into the buffer of the index, unless it breaks the grammar after the end-of-file record.
pub fn read_dir<H: Hall>(
    alloc: Global,
    hall: &mut H,
    vol: &mut Vol,
    slot: u32,
) -> Result<Dir, ReadErr>
    requires unit { IsOfUnit (H.facts hall.old).units vol.old }
    requires set { is_some (name_at vol.old.slots.items slot) ≡ true }
    requires part { let image = image_in (H.meaning hall.old) (H.facts hall.old) vol.old.unit in
        IsTrue H.tells → (f : F1) → slice_get vol.old.slots.items slot ≡ Some (Dscb.F1 f)
        → IsPartIn image vol.old f }
    ensures dir { let image = image_in (H.meaning hall.old) (H.facts hall.old) vol.old.unit in
        IsTrue H.tells → (f : F1) → slice_get vol.old.slots.items slot ≡ Some (Dscb.F1 f)
        → ReadsDir result image vol.old f }
    ensures end { let image = image_in (H.meaning hall.old) (H.facts hall.old) vol.old.unit in
        IsTrue H.tells → (f : F1) → slice_get vol.old.slots.items slot ≡ Some (Dscb.F1 f)
        → IfOk result (λ dir. dir.end ≡ end_in image vol.old f) }
    ensures lawful { IfOk result IsLawfulDir }
    ensures same { IsTrue H.tells → Same (H.meaning hall.old) (H.meaning hall.new) }
    ensures mounted { let image = image_in (H.meaning hall.old) (H.facts hall.old) vol.old.unit in
        IsTrue H.tells → IsMounted image vol.new }
    ensures others { vol.new ≡ record vol.old { buf = vol.new.buf } }
    ensures unit { IsOfUnit (H.facts hall.new).units vol.new }
    ensures faults { ReportedCall (IsErrOf result ReadErr.Device) (H.facts hall.old)
        (H.facts hall.new) }
{
    match walk_dir(alloc, hall, vol, slot) {
        Ok(walk) => Ok(walk.dir),
        Err(error) => Err(error),
    }
}

/// Reads the directory as `read_dir` does, and leaves the track of its end in the buffer of the index, so that a walk over
/// the set's records can go on there.
pub fn walk_dir<H: Hall>(
    alloc: Global,
    hall: &mut H,
    vol: &mut Vol,
    slot: u32,
) -> Result<DirWalk, ReadErr>
    requires unit { IsOfUnit (H.facts hall.old).units vol.old }
    requires set { is_some (name_at vol.old.slots.items slot) ≡ true }
    requires part { let image = image_in (H.meaning hall.old) (H.facts hall.old) vol.old.unit in
        IsTrue H.tells → (f : F1) → slice_get vol.old.slots.items slot ≡ Some (Dscb.F1 f)
        → IsPartIn image vol.old f }
    ensures dir { let image = image_in (H.meaning hall.old) (H.facts hall.old) vol.old.unit in
        IsTrue H.tells → (f : F1) → slice_get vol.old.slots.items slot ≡ Some (Dscb.F1 f)
        → ReadsDir (dir_walked result) image vol.old f }
    ensures end { let image = image_in (H.meaning hall.old) (H.facts hall.old) vol.old.unit in
        IsTrue H.tells → (f : F1) → slice_get vol.old.slots.items slot ≡ Some (Dscb.F1 f)
        → IfOk result (λ walk. walk.dir.end ≡ end_in image vol.old f) }
    ensures before { let image = image_in (H.meaning hall.old) (H.facts hall.old) vol.old.unit in
        IsTrue H.tells → (f : F1) → slice_get vol.old.slots.items slot ≡ Some (Dscb.F1 f)
        → IfOk result (λ walk. (j : ℕ) → j < walk.dir.end.tt → at_in image vol.old f j ≢ None) }
    ensures held { let image = image_in (H.meaning hall.old) (H.facts hall.old) vol.old.unit in
        IsTrue H.tells → (f : F1) → slice_get vol.old.slots.items slot ≡ Some (Dscb.F1 f)
        → IfOk result (λ walk. IsTrue walk.whole → HoldsWhole image vol.old f walk.dir.end.tt
        vol.new.buf) }
    ensures few { IfOk result (λ walk. IsTrue walk.whole → length vol.new.buf.records ≤ 255) }
    ensures lawful { IfOk result (λ walk. IsLawfulDir walk.dir) }
    ensures same { IsTrue H.tells → Same (H.meaning hall.old) (H.meaning hall.new) }
    ensures mounted { let image = image_in (H.meaning hall.old) (H.facts hall.old) vol.old.unit in
        IsTrue H.tells → IsMounted image vol.new }
    ensures others { vol.new ≡ record vol.old { buf = vol.new.buf } }
    ensures unit { IsOfUnit (H.facts hall.new).units vol.new }
    ensures faults { ReportedCall (IsErrOf result ReadErr.Device) (H.facts hall.old)
        (H.facts hall.new) }
{
    let set = set_at(vol, slot);
    let mut reading = Reading {
        dir: Dir {
            blocks: Vec::new(alloc),
            places: Vec::new(alloc),
            end: Place { tt: 0, r: 0 },
        },
        ended: false,
        whole: false,
    };
    for k in 0..u16::MAX {
        let ended = read_track(alloc, hall, vol, &set, k, &mut reading)?;
        if ended {
            return finish(reading, k);
        }
    }
    Err(ReadErr::Unreadable(u16::MAX))
}

// A directory that was read to its end, which stands on this relative track.
fn finish(reading: Reading, k: u16) -> Result<DirWalk, ReadErr>
    ensures dir { IfOk result (λ walk. (reading.ended ≡ true) × (walk.dir ≡ reading.dir)) }
    ensures whole { IfOk result (λ walk. walk.whole ≡ reading.whole) }
    ensures unended { (e : ReadErr) → IsErrOf result e
        → (reading.ended ≡ false) × (e ≡ ReadErr.Unreadable k) }
{
    if reading.ended {
        Ok(DirWalk {
            dir: reading.dir,
            whole: reading.whole,
        })
    } else {
        Err(ReadErr::Unreadable(k))
    }
}

// Reads the blocks of a directory on one relative track; whether the directory's end stands there.
fn read_track<H: Hall>(
    alloc: Global,
    hall: &mut H,
    vol: &mut Vol,
    set: &F1,
    k: u16,
    reading: &mut Reading,
) -> Result<bool, ReadErr>
    requires unit { IsOfUnit (H.facts hall.old).units vol.old }
    requires part { let image = image_in (H.meaning hall.old) (H.facts hall.old) vol.old.unit in
        IsTrue H.tells → IsPartIn image vol.old set.now }
    requires before { let image = image_in (H.meaning hall.old) (H.facts hall.old) vol.old.unit in
        IsTrue H.tells → IsReadBefore image vol.old set.now k reading.old }
    requires lawful { IsLawfulReading (255 * k) reading.old }
    ensures read { let image = image_in (H.meaning hall.old) (H.facts hall.old) vol.old.unit in
        IsTrue H.tells → ReadsTrack result image vol.old set.now k reading.new }
    ensures whole { let image = image_in (H.meaning hall.old) (H.facts hall.old) vol.old.unit in
        IsTrue H.tells → IfOk result (λ ended. IsTrue ended → IsTrue reading.new.whole
        → HoldsWhole image vol.old set.now k vol.new.buf) }
    ensures few { IfOk result (λ ended. length vol.new.buf.records ≤ 255) }
    ensures lawful { OnOk result (IsLawfulReading (255 * (k + 1)) reading.new) }
    ensures same { IsTrue H.tells → Same (H.meaning hall.old) (H.meaning hall.new) }
    ensures mounted { let image = image_in (H.meaning hall.old) (H.facts hall.old) vol.old.unit in
        IsTrue H.tells → IsMounted image vol.new }
    ensures others { vol.new ≡ record vol.old { buf = vol.new.buf } }
    ensures unit { IsOfUnit (H.facts hall.new).units vol.new }
    ensures faults { ReportedCall (IsErrOf result ReadErr.Device) (H.facts hall.old)
        (H.facts hall.new) }
{
    let Some(track) = track_at(vol, set, k) else {
        return Err(ReadErr::Unreadable(k));
    };
    match reach_end(hall, vol, track) {
        Ok(Some(reached)) => add_reached(alloc, &vol.buf, reached, k, reading),
        Ok(None) => Err(ReadErr::Unreadable(k)),
        Err(Device) => Err(ReadErr::Device),
    }
}

// Adds the records of a relative track before the directory's end to what was read; whether the end stands there.
fn add_reached(
    alloc: Global,
    buf: &TrackBuf,
    reached: Reached,
    k: u16,
    reading: &mut Reading,
) -> Result<bool, ReadErr>
    requires held { IsHeld buf.now.records reached }
    requires lawful { IsLawfulReading (255 * k) reading.old }
    ensures ended { IfOk result (λ ended. ended ≡ reached.ended) }
    ensures end { OnOk result ((end : Place) → end_on k reached ≡ Some end
        → reading.new.dir.end ≡ end) }
    ensures whole { IfOk result (λ ended. IsTrue ended → reading.new.whole ≡ reached.whole) }
    ensures read { (directory : List Block) → AreReadSoFar directory reading.old
        → ReadsRecords result k directory (take reached.before buf.now.records) reading.new }
    ensures lawful { OnOk result (IsLawfulReading (255 * (k + 1)) reading.new) }
    ensures device { ¬ IsErrOf result ReadErr.Device }
{
    for passed in 0..reached.before {
        let place = Place {
            tt: k,
            r: passed + 1,
        };
        add_record(alloc, buf, place, reading)?;
    }
    let Some(end) = end_on(reached, k) else {
        return Ok(false);
    };
    reading.dir.end = end;
    reading.whole = reached.whole;
    Ok(true)
}

// Adds a record to what was read of a directory.
fn add_record(
    alloc: Global,
    buf: &TrackBuf,
    place: Place,
    reading: &mut Reading,
) -> Result<(), ReadErr>
    requires first { 1 ≤ place.r }
    requires last { place.r ≤ length buf.now.records }
    ensures { (x : Record) → slice_get buf.now.records (place.r - 1) ≡ Some x
        → ReadsRecord result place x reading.old reading.new }
{
    if !is_directory_record(buf, place.r) {
        return Err(ReadErr::Unreadable(place.tt));
    }
    let Ok(()) = reading.dir.places.push(place) else {
        return Err(ReadErr::Memory);
    };
    if reading.ended {
        return Ok(());
    }
    add_block(alloc, buf.data(place.r), place.tt, reading)
}

// Adds the entries in a directory block of a relative track to what was read.
fn add_block(alloc: Global, bytes: &[u8], k: u16, reading: &mut Reading) -> Result<(), ReadErr>
    requires { length bytes.now ≡ 256 }
    ensures { AddsBlock result k (block_entries (map (λ x. x % 256) bytes.now)) reading.old
        reading.new }
{
    let Ok(found) = read_block(alloc, bytes) else {
        return Err(ReadErr::Memory);
    };
    let Some(block) = found else {
        return Err(ReadErr::Unreadable(k));
    };
    let DirBlock { entries, ends } = block;
    reading.ended = ends;
    let Ok(()) = reading.dir.blocks.push(entries) else {
        return Err(ReadErr::Memory);
    };
    Ok(())
}
