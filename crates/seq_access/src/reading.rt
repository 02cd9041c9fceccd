//! The blocks of a sequential data set, read one at a time.
ghost use Rattle.std.specs.Prelude.{◌≡◌, ◌≢◌, ◌≤◌, Some, None, false, max, IsTrue, IsErrOf, IfOk, IfSome, OnOk};
ghost use Rattle.hall_core.specs.Facts.{DeviceCall, ReportedCall};
ghost use Rattle.hall_core.specs.Images.{image_in};
ghost use Rattle.stop_model.specs.Moments.{Same};
ghost use Rattle.pack_spec.specs.Blocks.{blocks_at};
ghost use Rattle.pack_spec.specs.Label.{records_on};
ghost use Rattle.track_records.specs.Calls.{HasTrack};
ghost use Rattle.vol_model.specs.Lawful.{IsLawfulBlock};
ghost use Rattle.vol_model.specs.Places.{is_before};
ghost use Rattle.vtoc_index.specs.Index.{IsOfUnit};
ghost use Rattle.seq_access.specs.Bodies.{IsReadable, IsSetIn, body_in, data_in, owned_in};
ghost use Rattle.seq_access.specs.Reading.{Finds, FindsOn, GivesFirst, reach_of, HoldsTrack, IsBlockAt, IsThere, LeavesEmpty, ReadsBlock};

use crate::last::{has_no_block, last_of, upto_last};
use crate::lengths::is_block;
use crate::read_buf::{Reach, ReadBuf};
use dscb_codec::F1;
use hall_core::{Device, Hall};
use std::alloc::{AllocError, Global};
use track_records::{TrackErr, read_records};
use vol_model::{Block, BlockBuf, Place, Text, WorkErr};
use vtoc_index::Vol;
use vtoc_sets::track_at;

/// Reads the first block at or after a place into a block; false where there is none. The block is blank then, and
/// after an error.
///
/// The set is a sequential one whose body can be read, by its format 1, which is one of the index. `Device` comes only
/// where the count of its faults rose. A track that the buffer holds isn't read again. No memory is taken.
pub fn read_into<H: Hall>(
    hall: &mut H,
    vol: &Vol,
    set: &F1,
    from: Place,
    buf: &mut ReadBuf,
    block: &mut BlockBuf,
) -> Result<bool, Device>
    requires unit { IsOfUnit (H.facts hall.old).units vol.now }
    requires buffer { buf.old.records.geometry ≡ vol.now.geometry }
    requires set { let image = image_in (H.meaning hall.old) (H.facts hall.old) vol.now.unit in
        IsTrue H.tells → IsSetIn image vol.now set.now }
    requires readable { let image = image_in (H.meaning hall.old) (H.facts hall.old) vol.now.unit in
        IsTrue H.tells → IsReadable (body_in image vol.now set.now) }
    requires held { let image = image_in (H.meaning hall.old) (H.facts hall.old) vol.now.unit in
        IsTrue H.tells → HoldsTrack image buf.old }
    ensures block { let image = image_in (H.meaning hall.old) (H.facts hall.old) vol.now.unit in
        IsTrue H.tells → ReadsBlock result (body_in image vol.now set.now) from block.new }
    ensures blank { LeavesEmpty result block.new }
    ensures onward { IfOk result (λ more. IsTrue more → is_before block.new.place from ≡ false) }
    ensures lawful { IfOk result (λ more. IsTrue more → IsLawfulBlock block.new) }
    ensures held { let image = image_in (H.meaning hall.old) (H.facts hall.old) vol.now.unit in
        IsTrue H.tells → HoldsTrack image buf.new }
    ensures buffer { buf.new.records.geometry ≡ vol.now.geometry }
    ensures same { IsTrue H.tells → Same (H.meaning hall.old) (H.meaning hall.new) }
    ensures faults { DeviceCall (H.facts hall.old) (H.facts hall.new) result }
{
    block.clear();
    match seek(hall, vol, set, from, buf)? {
        Some(place) => {
            block.set(place, buf.records.key(place.r), buf.records.data(place.r));
            Ok(true)
        }
        None => Ok(false),
    }
}

/// Reads the first block at or after a place; `None` where there is none.
///
/// As `read_into`, but for the memory of the block, which is the one other error.
pub fn read_block<H: Hall>(
    alloc: Global,
    hall: &mut H,
    vol: &Vol,
    set: &F1,
    from: Place,
    buf: &mut ReadBuf,
) -> Result<Option<Block>, WorkErr>
    requires unit { IsOfUnit (H.facts hall.old).units vol.now }
    requires buffer { buf.old.records.geometry ≡ vol.now.geometry }
    requires set { let image = image_in (H.meaning hall.old) (H.facts hall.old) vol.now.unit in
        IsTrue H.tells → IsSetIn image vol.now set.now }
    requires readable { let image = image_in (H.meaning hall.old) (H.facts hall.old) vol.now.unit in
        IsTrue H.tells → IsReadable (body_in image vol.now set.now) }
    requires held { let image = image_in (H.meaning hall.old) (H.facts hall.old) vol.now.unit in
        IsTrue H.tells → HoldsTrack image buf.old }
    ensures block { let image = image_in (H.meaning hall.old) (H.facts hall.old) vol.now.unit in
        IsTrue H.tells → GivesFirst result (body_in image vol.now set.now) from }
    ensures onward { IfOk result (λ found. IfSome found (λ b. is_before b.place from ≡ false)) }
    ensures lawful { IfOk result (λ found. IfSome found IsLawfulBlock) }
    ensures held { let image = image_in (H.meaning hall.old) (H.facts hall.old) vol.now.unit in
        IsTrue H.tells → HoldsTrack image buf.new }
    ensures buffer { buf.new.records.geometry ≡ vol.now.geometry }
    ensures same { IsTrue H.tells → Same (H.meaning hall.old) (H.meaning hall.new) }
    ensures faults { ReportedCall (IsErrOf result WorkErr.Device) (H.facts hall.old)
        (H.facts hall.new) }
{
    let Ok(found) = seek(hall, vol, set, from, buf) else {
        return Err(WorkErr::Device);
    };
    let Some(place) = found else {
        return Ok(None);
    };
    match block_of(alloc, buf, place) {
        Ok(block) => Ok(Some(block)),
        Err(_) => Err(WorkErr::Memory),
    }
}

// The record of a place in the buffer, as a block.
fn block_of(alloc: Global, buf: &ReadBuf, place: Place) -> Result<Block, AllocError>
    requires { IsThere place buf.now.records }
    ensures { IfOk result (IsBlockAt place buf.now.records) }
{
    Ok(Block {
        place,
        key: Text::from_vec(Vec::from_slice(alloc, buf.records.key(place.r))?),
        payload: Text::from_vec(Vec::from_slice(alloc, buf.records.data(place.r))?),
    })
}

// Finds the first block at or after a place: its record is in the buffer then.
fn seek<H: Hall>(
    hall: &mut H,
    vol: &Vol,
    set: &F1,
    from: Place,
    buf: &mut ReadBuf,
) -> Result<Option<Place>, Device>
    requires unit { IsOfUnit (H.facts hall.old).units vol.now }
    requires buffer { buf.old.records.geometry ≡ vol.now.geometry }
    requires set { let image = image_in (H.meaning hall.old) (H.facts hall.old) vol.now.unit in
        IsTrue H.tells → IsSetIn image vol.now set.now }
    requires readable { let image = image_in (H.meaning hall.old) (H.facts hall.old) vol.now.unit in
        IsTrue H.tells → IsReadable (body_in image vol.now set.now) }
    requires held { let image = image_in (H.meaning hall.old) (H.facts hall.old) vol.now.unit in
        IsTrue H.tells → HoldsTrack image buf.old }
    ensures found { let image = image_in (H.meaning hall.old) (H.facts hall.old) vol.now.unit in
        IsTrue H.tells → Finds result (body_in image vol.now set.now) from buf.new.records }
    ensures onward { IfOk result (λ found. IfSome found (λ p. is_before p from ≡ false)) }
    ensures there { IfOk result (λ found. IfSome found (λ p. IsThere p buf.new.records)) }
    ensures held { let image = image_in (H.meaning hall.old) (H.facts hall.old) vol.now.unit in
        IsTrue H.tells → HoldsTrack image buf.new }
    ensures buffer { buf.new.records.geometry ≡ vol.now.geometry }
    ensures same { IsTrue H.tells → Same (H.meaning hall.old) (H.meaning hall.new) }
    ensures faults { DeviceCall (H.facts hall.old) (H.facts hall.new) result }
{
    if has_no_block(set) {
        return Ok(None);
    }
    let last = last_of(set);
    let mut r = first_record(from);
    for k in from.tt..=last.tt {
        if let Some(place) = seek_on(hall, vol, set, last, Place { tt: k, r }, buf)? {
            return Ok(Some(place));
        }
        r = 1;
    }
    Ok(None)
}

// The number of the first record at or after a place that can be a block, on its track.
fn first_record(from: Place) -> u8
    ensures { result ≡ max 1 from.r }
{
    if from.r == 0 { 1 } else { from.r }
}

// Finds the block at a place, or that there is none on its relative track from this record on; the track is in the
// buffer then.
pub(crate) fn seek_on<H: Hall>(
    hall: &mut H,
    vol: &Vol,
    set: &F1,
    last: Place,
    at: Place,
    buf: &mut ReadBuf,
) -> Result<Option<Place>, Device>
    requires unit { IsOfUnit (H.facts hall.old).units vol.now }
    requires buffer { buf.old.records.geometry ≡ vol.now.geometry }
    requires number { 1 ≤ at.r }
    requires set { let image = image_in (H.meaning hall.old) (H.facts hall.old) vol.now.unit in
        IsTrue H.tells → IsSetIn image vol.now set.now }
    requires blocks { let image = image_in (H.meaning hall.old) (H.facts hall.old) vol.now.unit in
        IsTrue H.tells → blocks_at vol.now.geometry (data_in image vol.now)
        (owned_in image vol.now set.now) last at.tt ≢ None }
    requires held { let image = image_in (H.meaning hall.old) (H.facts hall.old) vol.now.unit in
        IsTrue H.tells → HoldsTrack image buf.old }
    ensures found { let image = image_in (H.meaning hall.old) (H.facts hall.old) vol.now.unit in
        IsTrue H.tells → FindsOn result (blocks_at vol.now.geometry (data_in image vol.now)
        (owned_in image vol.now set.now) last at.tt) at buf.new.records }
    ensures place { IfOk result (λ found. IfSome found (λ p. p ≡ at)) }
    ensures there { IfOk result (λ found. IfSome found (λ p. IsThere p buf.new.records)) }
    ensures held { let image = image_in (H.meaning hall.old) (H.facts hall.old) vol.now.unit in
        IsTrue H.tells → HoldsTrack image buf.new }
    ensures buffer { buf.new.records.geometry ≡ vol.now.geometry }
    ensures same { IsTrue H.tells → Same (H.meaning hall.old) (H.meaning hall.new) }
    ensures faults { DeviceCall (H.facts hall.old) (H.facts hall.new) result }
{
    let Some(track) = track_at(vol, set, at.tt) else {
        hall.differs(vol.unit, vol.vtoc.start);
        return Err(Device);
    };
    hold(hall, vol.unit, track, upto_last(last, at.tt), buf)?;
    if usize::from(at.r) > buf.records.len() {
        return Ok(None);
    }
    if at.tt == u16::MAX || !is_block(&buf.records, at.r) {
        hall.differs(vol.unit, track);
        return Err(Device);
    }
    Ok(Some(at))
}

// Makes the buffer hold a track up to a record, or to its end marker; reads the track where it doesn't.
fn hold<H: Hall>(
    hall: &mut H,
    unit: u8,
    track: u16,
    upto: Option<u8>,
    buf: &mut ReadBuf,
) -> Result<(), Device>
    requires track { HasTrack (H.facts hall.old).units unit buf.old.records.geometry track }
    requires there { let image = image_in (H.meaning hall.old) (H.facts hall.old) unit in
        IsTrue H.tells → records_on image buf.old.records.geometry upto track ≢ None }
    requires held { let image = image_in (H.meaning hall.old) (H.facts hall.old) unit in
        IsTrue H.tells → HoldsTrack image buf.old }
    ensures records { let image = image_in (H.meaning hall.old) (H.facts hall.old) unit in
        IsTrue H.tells → OnOk result (records_on image buf.old.records.geometry upto track
        ≡ Some buf.new.records.records) }
    ensures held { let image = image_in (H.meaning hall.old) (H.facts hall.old) unit in
        IsTrue H.tells → HoldsTrack image buf.new }
    ensures buffer { buf.new.records.geometry ≡ buf.old.records.geometry }
    ensures same { IsTrue H.tells → Same (H.meaning hall.old) (H.meaning hall.new) }
    ensures faults { DeviceCall (H.facts hall.old) (H.facts hall.new) result }
{
    let reach = reach_of(upto);
    if buf.reach == reach && buf.records.track() == track {
        return Ok(());
    }
    buf.forget();
    match read_records(hall, unit, track, upto, &mut buf.records) {
        Ok(_count) => {
            buf.reach = reach;
            Ok(())
        }
        Err(TrackErr::BadCount { .. }) => {
            hall.differs(unit, track);
            Err(Device)
        }
        Err(TrackErr::Device) => Err(Device),
    }
}

// How far a track is read that is wanted up to a record, or to its end marker.
fn reach_of(upto: Option<u8>) -> Reach
    ensures { result ≡ reach_of upto }
{
    match upto {
        Some(r) => Reach::UpTo(r),
        None => Reach::Whole,
    }
}
