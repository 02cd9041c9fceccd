//! Blocks written after those of a sequential or partitioned data set.
ghost use Rattle.std.specs.Prelude.{◌≡◌, ◌≤◌, ◌<◌, ◌+◌, ◌-◌, ◌^◌, min, [], ℕ, List, Some, Ok, true, false, length, map, slice_get, slice_index_or, IsTrue, IsOk, IsErrOf, OnOk, OnErr, IfOk};
ghost use Rattle.ckd_image.specs.Fit.{balance, fits};
ghost use Rattle.dscb_codec.specs.declared.F1.{F1};
ghost use Rattle.hall_core.specs.Facts.{DeviceCall, ReportedCall, unit_of};
ghost use Rattle.hall_core.specs.Told.{ImageHas};
ghost use Rattle.hall_core.specs.Images.{image_in};
ghost use Rattle.stop_model.specs.Files.{File};
ghost use Rattle.stop_model.specs.Moments.{IsDurable, Same};
ghost use Rattle.pack_spec.specs.Volume.{attr_of, volume_of};
ghost use Rattle.vol_model.specs.Places.{Content, fits_a_track, lengths as lengths_of};
ghost use Rattle.vol_model.specs.Shelf.{fits_mode, write_on, written};
ghost use Rattle.vol_model.specs.declared.answers.Mode.{Mode};
ghost use Rattle.vol_model.specs.declared.contents.Volume.{Volume};
ghost use Rattle.vtoc_index.specs.Index.{IsIndexOf, IsMounted, IsOfUnit};
ghost use Rattle.vtoc_index.specs.Last.{with_last};
ghost use Rattle.vtoc_index.specs.Names.{name_at};
ghost use Rattle.vtoc_sets.specs.Sets.{HasSet};
ghost use Rattle.free_rebuild.specs.Durable.{LeavesAll, PutsDurably};
ghost use Rattle.free_rebuild.specs.Repairs.{image_named};
ghost use Rattle.seq_access.specs.Bodies.{HasBlocks, IsWritable, body_of_set, last_in, owned_in};
ghost use Rattle.seq_access.specs.Writing.{AreSpared, Commits, EndsAt, HasEnd, HasSetBy, HoldsLast, IsBalanceOf, IsEnded, IsPutBehind, IsRaised, IsReady, IsRoomy, IsWriting, KeepsWritten, SparesOthers, body_so_far, has_put, place_next, puts_in, record_next, sizes, written_by};

use crate::held::{balance_of, fits_behind};
use crate::holding::{begin_track, hold_last, set_at};
use crate::last::last_read;
use crate::lengths::Lengths;
use crate::writer::{PutErr, Writer};
use ckd_image::fits;
use dscb_codec::{Dscb, F1};
use free_rebuild::make_durable;
use hall_core::{Device, Hall};
use track_records::{append, seal};
use vol_model::{Mode, Place, WorkErr};
use vtoc_index::{Vol, set_last};
use vtoc_sets::{fits_mode, track_at};

/// Opens a writer after the blocks of the sequential or partitioned data set in a slot, whose body can be read; of a
/// partitioned one by the place of its directory's end-of-file record.
///
/// Nothing is read or written, so no error comes. No memory is taken.
pub fn begin<H: Hall>(
    _hall: &mut H,
    vol: &mut Vol,
    slot: u32,
    end: Option<Place>,
) -> Result<Writer, WorkErr>
    requires slot { slot < length vol.old.slots.items }
    ensures answer { IsOk result }
    ensures slot { IfOk result (λ writer. writer.slot ≡ slot) }
    ensures writing { IfOk result (λ writer. (image : List ℕ) (f : F1)
        → slice_get vol.old.slots.items slot ≡ Some (Dscb.F1 f)
        → HasSet image vol.old f → IsWritable (body_of_set image vol.old f)
        → EndsAt end (body_of_set image vol.old f)
        → (is : IsWriting image vol.old writer) × (is.f ≡ f) × (puts_in image vol.old f writer ≡ [])) }
    ensures same { (_hall.new ≡ _hall.old) × (vol.new ≡ vol.old) }
    ensures faults { ReportedCall (IsErrOf result WorkErr.Device) (H.facts _hall.old)
        (H.facts _hall.new) }
{
    Ok(Writer {
        slot,
        last: match &vol.slots[slot as usize] {
            Dscb::F1(set) => last_read(set, end),
            _ => Place { tt: 0, r: 0 },
        },
        blocks: 0,
    })
}

/// Puts a block after those of the set and those put so far, and gives its place.
///
/// It stands on the track of the last block where it fits that, and else at the front of the set's next track, which
/// begins anew; the track of the set's own last block is ended first then, so that no record after it becomes a block.
/// The writes are pending until the commit; a stop leaves the set as it is. `TooLong` comes exactly where the block
/// doesn't fit an empty track, and else `NeedExtent` exactly where the set owns no track for it; nothing is written then.
/// `Device` comes only where the count of its faults rose. No memory is taken.
pub fn put<H: Hall>(
    hall: &mut H,
    vol: &mut Vol,
    writer: &mut Writer,
    key: &[u8],
    payload: &[u8],
) -> Result<Place, PutErr>
    requires unit { IsOfUnit (H.facts hall.old).units vol.old }
    requires slot { writer.old.slot < length vol.old.slots.items }
    requires key { length key.now ≤ 255 }
    requires payload { length payload.now ≤ 32760 }
    requires writing { let image = image_in (H.meaning hall.old) (H.facts hall.old) vol.old.unit in
        IsTrue H.tells → IsWriting image vol.old writer.old }
    ensures put { let image = image_in (H.meaning hall.old) (H.facts hall.old) vol.old.unit in
        let image' = image_in (H.meaning hall.new) (H.facts hall.new) vol.old.unit in
        IsTrue H.tells → IfOk result (λ place. (is : IsWriting image vol.old writer.old)
        → IsPutBehind is (key.now, payload.now) place image' vol.new writer.new) }
    ensures spares { SparesOthers H.Hall vol.old writer.old hall.old hall.new result }
    ensures long { IsErrOf result PutErr.TooLong
        → fits_a_track vol.old.geometry.device (key.now, payload.now) ≡ false }
    ensures short { ¬ IsErrOf result PutErr.TooLong
        → fits_a_track vol.old.geometry.device (key.now, payload.now) ≡ true }
    ensures need { let image = image_in (H.meaning hall.old) (H.facts hall.old) vol.old.unit in
        IsTrue H.tells → IsErrOf result PutErr.NeedExtent → (is : IsWriting image vol.old writer.old)
        → length (owned_in image vol.old is.f) ≤ (place_next is (key.now, payload.now)).tt }
    ensures refused { IsTrue H.tells → IsErrOf result PutErr.NeedExtent
        → Same (H.meaning hall.old) (H.meaning hall.new) }
    ensures long_same { IsErrOf result PutErr.TooLong → (hall.new ≡ hall.old) × (vol.new ≡ vol.old) }
    ensures mounted { let image' = image_in (H.meaning hall.new) (H.facts hall.new) vol.old.unit in
        IsTrue H.tells → ¬ IsErrOf result PutErr.Device → IsMounted image' vol.new }
    ensures writer { OnErr result (writer.new ≡ writer.old) }
    ensures slot { writer.new.slot ≡ writer.old.slot }
    ensures blocks { OnOk result (writer.new.blocks ≡ min (writer.old.blocks + 1) (2 ^ 32 - 1)) }
    ensures others { vol.new ≡ record vol.old { buf = vol.new.buf } }
    ensures unit { IsOfUnit (H.facts hall.new).units vol.new }
    ensures faults { ReportedCall (IsErrOf result PutErr.Device) (H.facts hall.old)
        (H.facts hall.new) }
{
    let lengths = (key.len() as u8, payload.len() as u16);
    if !fits(vol.geometry.device, &[], lengths.0, lengths.1) {
        return Err(PutErr::TooLong);
    }
    let before = *writer;
    let place = make_ready(hall, vol, before, lengths)?;
    append(hall, &mut vol.buf, key, payload)?;
    *writer = Writer {
        slot: before.slot,
        last: place,
        blocks: before.blocks.saturating_add(1),
    };
    Ok(place)
}

/// Makes the blocks that were put those of the set: after those of a sequential set an end-of-file record is put where
/// the set owns a track for it, all is made durable, and then the format 1 names the last block, durably.
///
/// A stop leaves the set with all of the blocks or with none. Where no block was put, nothing is done. `Device` comes
/// only where the count of its faults rose. No memory is taken.
pub fn commit<H: Hall>(hall: &mut H, vol: &mut Vol, writer: Writer) -> Result<(), Device>
    requires unit { IsOfUnit (H.facts hall.old).units vol.old }
    requires slot { writer.slot < length vol.old.slots.items }
    requires writing { let image = image_in (H.meaning hall.old) (H.facts hall.old) vol.old.unit in
        IsTrue H.tells → IsWriting image vol.old writer }
    ensures files { let image = image_in (H.meaning hall.old) (H.facts hall.old) vol.old.unit in
        let name = (unit_of (H.facts hall.old).units vol.old.unit).name in
        IsTrue H.tells → has_put writer ≡ true → (is : IsWriting image vol.old writer)
        (before : List File) (volume : Volume) → HasSetBy (image_named before name) vol.old is.f
        → volume_of (image_named before name) ≡ Ok volume
        → ((files : List File) → (H.meaning hall.old).left files
        → AreSpared name vol.old is.f (last_in image vol.old is.f) before files)
        → AreSpared name vol.old is.f (last_in image vol.old is.f) before (H.meaning hall.old).state
        → (mode : Mode) (cs : List Content) → fits_mode mode is.f.name (attr_of is.f) ≡ true
        → written mode (body_of_set image vol.old is.f) cs ≡ puts_in image vol.old is.f writer
        → Commits name volume (write_on mode (record { bytes = is.f.name }) cs volume) vol.new before
        (H.meaning hall.old) (H.meaning hall.new) result }
    ensures nothing { has_put writer ≡ false → (result ≡ Ok tt) × (hall.new ≡ hall.old) × (vol.new ≡ vol.old) }
    ensures names { OnOk result ((k : ℕ) → name_at vol.new.slots.items k
        ≡ name_at vol.old.slots.items k) }
    ensures others { vol.new ≡ record vol.old { slots = vol.new.slots; buf = vol.new.buf } }
    ensures unit { IsOfUnit (H.facts hall.new).units vol.new }
    ensures faults { DeviceCall (H.facts hall.old) (H.facts hall.new) result }
{
    if writer.blocks == 0 {
        return Ok(());
    }
    commit_put(hall, vol, writer)
}

// Makes the blocks that were put those of the set: its format 1 names the last one, with the balance of that track.
fn commit_put<H: Hall>(hall: &mut H, vol: &mut Vol, writer: Writer) -> Result<(), Device>
    requires unit { IsOfUnit (H.facts hall.old).units vol.old }
    requires slot { writer.slot < length vol.old.slots.items }
    requires put { has_put writer ≡ true }
    requires writing { ImageHas H.Hall hall.old vol.old.unit (λ image.
        IsWriting image vol.old writer) }
    ensures files { let image = image_in (H.meaning hall.old) (H.facts hall.old) vol.old.unit in
        let name = (unit_of (H.facts hall.old).units vol.old.unit).name in
        IsTrue H.tells → (is : IsWriting image vol.old writer)
        (before : List File) (volume : Volume) → HasSetBy (image_named before name) vol.old is.f
        → volume_of (image_named before name) ≡ Ok volume
        → ((files : List File) → (H.meaning hall.old).left files
        → AreSpared name vol.old is.f (last_in image vol.old is.f) before files)
        → AreSpared name vol.old is.f (last_in image vol.old is.f) before (H.meaning hall.old).state
        → (mode : Mode) (cs : List Content) → fits_mode mode is.f.name (attr_of is.f) ≡ true
        → written mode (body_of_set image vol.old is.f) cs ≡ puts_in image vol.old is.f writer
        → Commits name volume (write_on mode (record { bytes = is.f.name }) cs volume) vol.new before
        (H.meaning hall.old) (H.meaning hall.new) result }
    ensures raised { ImageHas H.Hall hall.old vol.old.unit (λ image.
        OnOk result ((is : IsWriting image vol.old writer)
        → IsRaised image vol.old is.f writer.slot writer.last vol.new.slots.items)) }
    ensures names { OnOk result ((k : ℕ) → name_at vol.new.slots.items k
        ≡ name_at vol.old.slots.items k) }
    ensures others { vol.new ≡ record vol.old { slots = vol.new.slots; buf = vol.new.buf } }
    ensures unit { IsOfUnit (H.facts hall.new).units vol.new }
    ensures faults { DeviceCall (H.facts hall.old) (H.facts hall.new) result }
{
    let balance = end_durably(hall, vol, writer)?;
    raise_durably(hall, vol, writer, balance)
}

/// Gives a writer up: the blocks that it put so far are none of the set's.
///
/// Nothing is written, and no memory is taken. What was written for them is pending until the next sync.
pub fn abandon(_writer: Writer) {}

// Makes the buffer of the index that of the track on which the next block of these lengths goes, with the records of the
// set before it there, and gives its place.
fn make_ready<H: Hall>(
    hall: &mut H,
    vol: &mut Vol,
    writer: Writer,
    lengths: Lengths,
) -> Result<Place, PutErr>
    requires unit { IsOfUnit (H.facts hall.old).units vol.old }
    requires slot { writer.slot < length vol.old.slots.items }
    requires writing { let image = image_in (H.meaning hall.old) (H.facts hall.old) vol.old.unit in
        IsTrue H.tells → IsWriting image vol.old writer }
    requires lengths { fits vol.old.geometry.device [] lengths.0 lengths.1 ≡ true }
    ensures ready { let image = image_in (H.meaning hall.old) (H.facts hall.old) vol.old.unit in
        let image' = image_in (H.meaning hall.new) (H.facts hall.new) vol.old.unit in
        IsTrue H.tells → IfOk result (λ place. (is : IsWriting image vol.old writer)
        → IsReady is lengths.0 lengths.1 place image' vol.new) }
    ensures spares { SparesOthers H.Hall vol.old writer hall.old hall.new result }
    ensures roomy { OnOk result (IsRoomy (H.facts hall.new).units vol.new.buf) }
    ensures fits { OnOk result
        (fits vol.old.geometry.device (map sizes vol.new.buf.records) lengths.0 lengths.1 ≡ true) }
    ensures numbers { (writer.last.tt < 65536) × (writer.last.r < 256) }
    ensures long { ¬ IsErrOf result PutErr.TooLong }
    ensures need { let image = image_in (H.meaning hall.old) (H.facts hall.old) vol.old.unit in
        IsTrue H.tells → IsErrOf result PutErr.NeedExtent → (is : IsWriting image vol.old writer)
        (c : Content) → lengths_of c ≡ lengths → length (owned_in image vol.old is.f) ≤ (record_next is c).tt }
    ensures refused { IsTrue H.tells → IsErrOf result PutErr.NeedExtent
        → Same (H.meaning hall.old) (H.meaning hall.new) }
    ensures mounted { let image' = image_in (H.meaning hall.new) (H.facts hall.new) vol.old.unit in
        IsTrue H.tells → ¬ IsErrOf result PutErr.Device → IsMounted image' vol.new }
    ensures others { vol.new ≡ record vol.old { buf = vol.new.buf } }
    ensures unit { IsOfUnit (H.facts hall.new).units vol.new }
    ensures faults { ReportedCall (IsErrOf result PutErr.Device) (H.facts hall.old)
        (H.facts hall.new) }
{
    let set = set_at(hall, vol, writer.slot)?;
    if writer.last.r == 0 {
        return begin_track(vol, &set, 0);
    }
    hold_last(hall, vol, &set, writer.last)?;
    if fits_behind(vol.geometry.device, &vol.buf, lengths) {
        return Ok(Place {
            tt: writer.last.tt,
            r: vol.buf.len() as u8 + 1,
        });
    }
    next_track(hall, vol, &set, writer)
}

// Makes the buffer the empty one of the set's next track; the track of the last block, whose records it held, ends there.
fn next_track<H: Hall>(
    hall: &mut H,
    vol: &mut Vol,
    set: &F1,
    writer: Writer,
) -> Result<Place, PutErr>
    requires unit { IsOfUnit (H.facts hall.old).units vol.old }
    requires slot { slice_get vol.old.slots.items writer.slot ≡ Some (Dscb.F1 set.now) }
    requires roomy { IsRoomy (H.facts hall.old).units vol.old.buf }
    requires held { let image = image_in (H.meaning hall.old) (H.facts hall.old) vol.old.unit in
        IsTrue H.tells → (1 ≤ writer.last.r) × (is : IsWriting image vol.old writer)
        × HoldsLast image vol.old is.f writer.last }
    ensures place { IfOk result (λ place. place ≡ record { tt = writer.last.tt + 1; r = 1 }) }
    ensures owned { let image = image_in (H.meaning hall.old) (H.facts hall.old) vol.old.unit in
        IsTrue H.tells → OnOk result
        (slice_get (owned_in image vol.old set.now) (writer.last.tt + 1) ≡ Some vol.new.buf.track) }
    ensures empty { OnOk result (vol.new.buf.records ≡ []) }
    ensures roomy { OnOk result (IsRoomy (H.facts hall.new).units vol.new.buf) }
    ensures ended { let image = image_in (H.meaning hall.old) (H.facts hall.old) vol.old.unit in
        let image' = image_in (H.meaning hall.new) (H.facts hall.new) vol.old.unit in
        IsTrue H.tells → OnOk result ((is : IsWriting image vol.old writer)
        → IsEnded image vol.old is.f is.old writer image' vol.new) }
    ensures spares { SparesOthers H.Hall vol.old writer hall.old hall.new result }
    ensures long { ¬ IsErrOf result PutErr.TooLong }
    ensures need { let image = image_in (H.meaning hall.old) (H.facts hall.old) vol.old.unit in
        IsTrue H.tells → IsErrOf result PutErr.NeedExtent
        → length (owned_in image vol.old set.now) ≤ writer.last.tt + 1 }
    ensures refused { IsTrue H.tells → IsErrOf result PutErr.NeedExtent
        → Same (H.meaning hall.old) (H.meaning hall.new) }
    ensures mounted { let image' = image_in (H.meaning hall.new) (H.facts hall.new) vol.old.unit in
        IsTrue H.tells → ¬ IsErrOf result PutErr.Device → IsMounted image' vol.new }
    ensures others { vol.new ≡ record vol.old { buf = vol.new.buf } }
    ensures unit { IsOfUnit (H.facts hall.new).units vol.new }
    ensures faults { ReportedCall (IsErrOf result PutErr.Device) (H.facts hall.old)
        (H.facts hall.new) }
{
    if writer.last.tt == u16::MAX {
        return Err(PutErr::NeedExtent);
    }
    let next = writer.last.tt + 1;
    let Some(track) = track_at(vol, set, next) else {
        return Err(PutErr::NeedExtent);
    };
    end_last(hall, vol, writer)?;
    vol.buf.clear(vol.unit, track);
    Ok(Place { tt: next, r: 1 })
}

// Ends the track of the set's own last block, whose records the buffer holds, if no block was put after that yet.
fn end_last<H: Hall>(hall: &mut H, vol: &mut Vol, writer: Writer) -> Result<(), Device>
    requires unit { IsOfUnit (H.facts hall.old).units vol.old }
    requires roomy { IsRoomy (H.facts hall.old).units vol.old.buf }
    requires held { let image = image_in (H.meaning hall.old) (H.facts hall.old) vol.old.unit in
        IsTrue H.tells → (1 ≤ writer.last.r) × (is : IsWriting image vol.old writer)
        × HoldsLast image vol.old is.f writer.last }
    ensures ended { let image = image_in (H.meaning hall.old) (H.facts hall.old) vol.old.unit in
        let image' = image_in (H.meaning hall.new) (H.facts hall.new) vol.old.unit in
        IsTrue H.tells → OnOk result ((is : IsWriting image vol.old writer)
        → IsEnded image vol.old is.f is.old writer image' vol.old) }
    ensures spares { SparesOthers H.Hall vol.old writer hall.old hall.new result }
    ensures same { vol.new ≡ vol.old }
    ensures faults { DeviceCall (H.facts hall.old) (H.facts hall.new) result }
{
    if writer.blocks > 0 {
        return Ok(());
    }
    seal(hall, &mut vol.buf)?;
    Ok(())
}

// Puts an end-of-file record after the last block, where the set owns a track that takes it, makes all that was written
// durable, and gives the balance of the last block's track.
fn end_durably<H: Hall>(hall: &mut H, vol: &mut Vol, writer: Writer) -> Result<u16, Device>
    requires unit { IsOfUnit (H.facts hall.old).units vol.old }
    requires slot { writer.slot < length vol.old.slots.items }
    requires put { has_put writer ≡ true }
    requires writing { let image = image_in (H.meaning hall.old) (H.facts hall.old) vol.old.unit in
        IsTrue H.tells → IsWriting image vol.old writer }
    ensures files { let image = image_in (H.meaning hall.old) (H.facts hall.old) vol.old.unit in
        let name = (unit_of (H.facts hall.old).units vol.old.unit).name in
        IsTrue H.tells → (is : IsWriting image vol.old writer)
        (before : List File) → HasSetBy (image_named before name) vol.old is.f
        → ((files : List File) → (H.meaning hall.old).left files
        → AreSpared name vol.old is.f (last_in image vol.old is.f) before files)
        → AreSpared name vol.old is.f (last_in image vol.old is.f) before (H.meaning hall.old).state
        → LeavesAll (AreSpared name vol.old is.f (last_in image vol.old is.f) before)
        (H.meaning hall.old) (H.meaning hall.new) result }
    ensures blocks { KeepsWritten H.Hall vol.old vol.new writer hall.old hall.new result }
    ensures balance { let image = image_in (H.meaning hall.old) (H.facts hall.old) vol.old.unit in
        IsTrue H.tells → IfOk result (λ n. (is : IsWriting image vol.old writer)
        → IsBalanceOf image vol.old is.f writer.last n) }
    ensures end { let image = image_in (H.meaning hall.old) (H.facts hall.old) vol.old.unit in
        let image' = image_in (H.meaning hall.new) (H.facts hall.new) vol.old.unit in
        IsTrue H.tells → OnOk result ((is : IsWriting image vol.old writer)
        → fits_mode Mode.Fill is.f.name (attr_of is.f) ≡ true → HasEnd is image') }
    ensures durable { IsTrue H.tells → OnOk result (IsDurable (H.meaning hall.new)) }
    ensures mounted { let image' = image_in (H.meaning hall.new) (H.facts hall.new) vol.old.unit in
        IsTrue H.tells → OnOk result (IsMounted image' vol.new) }
    ensures others { vol.new ≡ record vol.old { buf = vol.new.buf } }
    ensures unit { IsOfUnit (H.facts hall.new).units vol.new }
    ensures faults { DeviceCall (H.facts hall.old) (H.facts hall.new) result }
{
    let balance = last_balance(hall, vol, writer)?;
    put_end(hall, vol, writer)?;
    make_durable(hall)?;
    Ok(balance)
}

// The balance of the last block's track.
fn last_balance<H: Hall>(hall: &mut H, vol: &mut Vol, writer: Writer) -> Result<u16, Device>
    requires unit { IsOfUnit (H.facts hall.old).units vol.old }
    requires slot { writer.slot < length vol.old.slots.items }
    requires put { has_put writer ≡ true }
    requires writing { let image = image_in (H.meaning hall.old) (H.facts hall.old) vol.old.unit in
        IsTrue H.tells → IsWriting image vol.old writer }
    ensures balance { IfOk result (λ n. n ≡ balance vol.old.geometry.device
        (map sizes vol.new.buf.records)) }
    ensures held { let image = image_in (H.meaning hall.old) (H.facts hall.old) vol.old.unit in
        IsTrue H.tells → (is : IsWriting image vol.old writer)
        → OnOk result (HoldsLast image vol.new is.f writer.last) }
    ensures same { IsTrue H.tells → Same (H.meaning hall.old) (H.meaning hall.new) }
    ensures mounted { let image = image_in (H.meaning hall.old) (H.facts hall.old) vol.old.unit in
        IsTrue H.tells → IsMounted image vol.new }
    ensures others { vol.new ≡ record vol.old { buf = vol.new.buf } }
    ensures unit { IsOfUnit (H.facts hall.new).units vol.new }
    ensures faults { DeviceCall (H.facts hall.old) (H.facts hall.new) result }
{
    let set = set_at(hall, vol, writer.slot)?;
    hold_last(hall, vol, &set, writer.last)?;
    Ok(balance_of(vol.geometry.device, &vol.buf))
}

// Puts an end-of-file record after the last block of a sequential set, where that owns a track that takes it. It isn't
// a block of the set.
fn put_end<H: Hall>(hall: &mut H, vol: &mut Vol, writer: Writer) -> Result<(), Device>
    requires unit { IsOfUnit (H.facts hall.old).units vol.old }
    requires slot { writer.slot < length vol.old.slots.items }
    requires put { has_put writer ≡ true }
    requires writing { ImageHas H.Hall hall.old vol.old.unit (λ image.
        IsWriting image vol.old writer) }
    ensures spares { SparesOthers H.Hall vol.old writer hall.old hall.new result }
    ensures blocks { KeepsWritten H.Hall vol.old vol.new writer hall.old hall.new result }
    ensures end { let image = image_in (H.meaning hall.old) (H.facts hall.old) vol.old.unit in
        let image' = image_in (H.meaning hall.new) (H.facts hall.new) vol.old.unit in
        IsTrue H.tells → OnOk result ((is : IsWriting image vol.old writer)
        → fits_mode Mode.Fill is.f.name (attr_of is.f) ≡ true → HasEnd is image') }
    ensures mounted { ImageHas H.Hall hall.new vol.old.unit (λ image.
        OnOk result (IsMounted image vol.new)) }
    ensures others { vol.new ≡ record vol.old { buf = vol.new.buf } }
    ensures unit { IsOfUnit (H.facts hall.new).units vol.new }
    ensures faults { DeviceCall (H.facts hall.old) (H.facts hall.new) result }
{
    if !ends_with_a_record(hall, vol, writer.slot)? {
        return Ok(());
    }
    put_end_record(hall, vol, writer)
}

// Whether the blocks of the set in a slot end with an end-of-file record that is none of them: those of a sequential one
// do.
fn ends_with_a_record<H: Hall>(hall: &mut H, vol: &Vol, slot: u32) -> Result<bool, Device>
    requires unit { IsOfUnit (H.facts hall.old).units vol.now }
    requires slot { slot < length vol.now.slots.items }
    requires set { IsTrue H.tells → (f : F1) × (slice_get vol.now.slots.items slot ≡ Some (Dscb.F1 f)) }
    ensures kind { IfOk result (λ ends. (f : F1) → slice_get vol.now.slots.items slot ≡ Some (Dscb.F1 f)
        → ends ≡ fits_mode Mode.Fill f.name (attr_of f)) }
    ensures same { IsTrue H.tells → Same (H.meaning hall.old) (H.meaning hall.new) }
    ensures faults { DeviceCall (H.facts hall.old) (H.facts hall.new) result }
{
    let set = set_at(hall, vol, slot)?;
    Ok(fits_mode(&set, Mode::Fill))
}

// Puts an end-of-file record after the last block, where the set owns a track that takes it.
fn put_end_record<H: Hall>(hall: &mut H, vol: &mut Vol, writer: Writer) -> Result<(), Device>
    requires unit { IsOfUnit (H.facts hall.old).units vol.old }
    requires slot { writer.slot < length vol.old.slots.items }
    requires put { has_put writer ≡ true }
    requires writing { ImageHas H.Hall hall.old vol.old.unit (λ image.
        IsWriting image vol.old writer) }
    ensures spares { SparesOthers H.Hall vol.old writer hall.old hall.new result }
    ensures blocks { KeepsWritten H.Hall vol.old vol.new writer hall.old hall.new result }
    ensures end { let image = image_in (H.meaning hall.old) (H.facts hall.old) vol.old.unit in
        let image' = image_in (H.meaning hall.new) (H.facts hall.new) vol.old.unit in
        IsTrue H.tells → OnOk result ((is : IsWriting image vol.old writer) → HasEnd is image') }
    ensures mounted { ImageHas H.Hall hall.new vol.old.unit (λ image.
        OnOk result (IsMounted image vol.new)) }
    ensures others { vol.new ≡ record vol.old { buf = vol.new.buf } }
    ensures unit { IsOfUnit (H.facts hall.new).units vol.new }
    ensures faults { DeviceCall (H.facts hall.old) (H.facts hall.new) result }
{
    match make_ready(hall, vol, writer, (0, 0)) {
        Ok(_place) => {
            append(hall, &mut vol.buf, &[], &[])?;
            Ok(())
        }
        Err(PutErr::NeedExtent) => Ok(()),
        Err(_) => Err(Device),
    }
}

// Names the last block in the format 1 of a set, with the balance of its track, and makes that durable.
fn raise_durably<H: Hall>(
    hall: &mut H,
    vol: &mut Vol,
    writer: Writer,
    balance: u16,
) -> Result<(), Device>
    requires unit { IsOfUnit (H.facts hall.old).units vol.old }
    requires slot { writer.slot < length vol.old.slots.items }
    requires index { let image = image_in (H.meaning hall.old) (H.facts hall.old) vol.old.unit in
        IsTrue H.tells → IsIndexOf image vol.old }
    requires durable { IsTrue H.tells → IsDurable (H.meaning hall.old) }
    ensures files { let d = with_last writer.last balance (slice_index_or vol.old.slots.items writer.slot Dscb.F0) in
        IsTrue H.tells → PutsDurably (unit_of (H.facts hall.old).units vol.old.unit).name
        vol.old writer.slot d vol.new (H.meaning hall.old) (H.meaning hall.new) result }
    ensures slot { let d = with_last writer.last balance (slice_index_or vol.old.slots.items writer.slot Dscb.F0) in
        OnOk result (slice_get vol.new.slots.items writer.slot ≡ Some d) }
    ensures names { OnOk result ((k : ℕ) → name_at vol.new.slots.items k
        ≡ name_at vol.old.slots.items k) }
    ensures others { vol.new ≡ record vol.old { slots = vol.new.slots; buf = vol.new.buf } }
    ensures unit { IsOfUnit (H.facts hall.new).units vol.new }
    ensures faults { DeviceCall (H.facts hall.old) (H.facts hall.new) result }
{
    set_last(hall, vol, writer.slot, writer.last, balance)?;
    make_durable(hall)
}
