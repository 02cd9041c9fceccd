//! Whether the records of a data set can be read.
ghost use Rattle.std.specs.Prelude.{◌≡◌, ◌≢◌, ◌<◌, ◌≤◌, ◌-◌, ℕ, None, Some, length, slice_get, take, IsTrue, IsErrOf, IfOk, IfSome};
ghost use Rattle.std.specs.List.{enumerate_from, list_all};
ghost use Rattle.std.specs.Option.{option_map};
ghost use Rattle.hall_core.specs.Facts.{ReportedCall};
ghost use Rattle.hall_core.specs.Images.{image_in};
ghost use Rattle.stop_model.specs.Moments.{Same};
ghost use Rattle.pack_spec.specs.Blocks.{blocks_at, is_block};
ghost use Rattle.pack_spec.specs.Directories.{may_stand, part_at};
ghost use Rattle.vtoc_index.specs.Index.{IsMounted, IsOfUnit};
ghost use Rattle.vol_model.specs.declared.contents.Place.{Place};
ghost use Rattle.seq_access.specs.Bodies.{Checks, ChecksTrack, FindsBroken, HoldsWhole, IsSetIn, ReadsTrack, at_in, body_in, broken_in, data_in, end_in, held_upto, owned_in, part_held, records_upto};

use crate::last::{has_no_block, is_before, is_record_0, last_of, read_to, upto_last};
use crate::lengths::{is_block, is_directory_record};
use dscb_codec::F1;
use hall_core::Hall;
use track_records::{TrackBuf, TrackErr, read_records};
use vol_model::{CheckErr, Place};
use vtoc_index::Vol;
use vtoc_sets::track_at;

/// Walks the records of a sequential data set up to its last block, by its format 1, which is one of the index.
///
/// `Unreadable` carries the first relative track, from 0, that breaks the body: one that the set doesn't own, or that
/// breaks the grammar of a Hercules image, before its end marker or, of the last block's track, before that block; or one
/// with a block of more than 32,760 bytes of data; or that of a last block of record 0. `Device` comes only where the
/// count of its faults rose. Each track is read once, into the buffer of the index. No memory is taken.
pub fn check_records<H: Hall>(hall: &mut H, vol: &mut Vol, set: &F1) -> Result<(), CheckErr>
    requires unit { IsOfUnit (H.facts hall.old).units vol.old }
    requires set { let image = image_in (H.meaning hall.old) (H.facts hall.old) vol.old.unit in
        IsTrue H.tells → IsSetIn image vol.old set.now }
    ensures body { let image = image_in (H.meaning hall.old) (H.facts hall.old) vol.old.unit in
        IsTrue H.tells → Checks result (body_in image vol.old set.now) }
    ensures same { IsTrue H.tells → Same (H.meaning hall.old) (H.meaning hall.new) }
    ensures mounted { let image = image_in (H.meaning hall.old) (H.facts hall.old) vol.old.unit in
        IsTrue H.tells → IsMounted image vol.new }
    ensures others { vol.new ≡ record vol.old { buf = vol.new.buf } }
    ensures unit { IsOfUnit (H.facts hall.new).units vol.new }
    ensures faults { ReportedCall (IsErrOf result CheckErr.Device) (H.facts hall.old)
        (H.facts hall.new) }
{
    if has_no_block(set) {
        return Ok(());
    }
    let last = last_of(set);
    for k in 0..=last.tt {
        check_track(hall, vol, set, last, k)?;
    }
    Ok(())
}

/// Walks the records of a partitioned data set from the track with its directory's end up to its last block, or to that end
/// if this stands after the last block, by its format 1, which is one of the index, and by the place of the directory's
/// end-of-file record.
///
/// No track before is broken. `whole` tells that the buffer of the index holds all records of the track with the end: then
/// that isn't read again.
///
/// `Unreadable` carries the first relative track, from 0, whose records break the body, as for a sequential set; so does a
/// record before the directory's end that isn't of the lengths of a directory block. What the directory's blocks hold isn't
/// looked at. `Device` comes only where the count of its faults rose. Each track is read once, into the buffer of the
/// index. No memory is taken.
pub fn check_part_records<H: Hall>(
    hall: &mut H,
    vol: &mut Vol,
    set: &F1,
    end: Place,
    whole: bool,
) -> Result<(), CheckErr>
    requires unit { IsOfUnit (H.facts hall.old).units vol.old }
    requires set { let image = image_in (H.meaning hall.old) (H.facts hall.old) vol.old.unit in
        IsTrue H.tells → IsSetIn image vol.old set.now }
    requires end { let image = image_in (H.meaning hall.old) (H.facts hall.old) vol.old.unit in
        IsTrue H.tells → end ≡ end_in image vol.old set.now }
    requires before { let image = image_in (H.meaning hall.old) (H.facts hall.old) vol.old.unit in
        IsTrue H.tells → (j : ℕ) → j < end.tt → at_in image vol.old set.now j ≢ None }
    requires held { let image = image_in (H.meaning hall.old) (H.facts hall.old) vol.old.unit in
        IsTrue H.tells → IsTrue whole → HoldsWhole image vol.old set.now end.tt vol.old.buf }
    requires few { IsTrue whole → length vol.old.buf.records ≤ 255 }
    ensures broken { let image = image_in (H.meaning hall.old) (H.facts hall.old) vol.old.unit in
        IsTrue H.tells → FindsBroken result (broken_in image vol.old set.now) }
    ensures same { IsTrue H.tells → Same (H.meaning hall.old) (H.meaning hall.new) }
    ensures mounted { let image = image_in (H.meaning hall.old) (H.facts hall.old) vol.old.unit in
        IsTrue H.tells → IsMounted image vol.new }
    ensures others { vol.new ≡ record vol.old { buf = vol.new.buf } }
    ensures unit { IsOfUnit (H.facts hall.new).units vol.new }
    ensures faults { ReportedCall (IsErrOf result CheckErr.Device) (H.facts hall.old)
        (H.facts hall.new) }
{
    let to = read_to(set, end);
    check_end_track(hall, vol, set, end, to, whole)?;
    for k in end.tt..to.tt {
        check_part_track(hall, vol, set, end, to, k + 1)?;
    }
    Ok(())
}

// Walks the records of the track with the directory's end, which are those in the buffer of the index, or are read.
fn check_end_track<H: Hall>(
    hall: &mut H,
    vol: &mut Vol,
    set: &F1,
    end: Place,
    to: Place,
    whole: bool,
) -> Result<(), CheckErr>
    requires unit { IsOfUnit (H.facts hall.old).units vol.old }
    requires set { let image = image_in (H.meaning hall.old) (H.facts hall.old) vol.old.unit in
        IsTrue H.tells → IsSetIn image vol.old set.now }
    requires held { let image = image_in (H.meaning hall.old) (H.facts hall.old) vol.old.unit in
        IsTrue H.tells → IsTrue whole → HoldsWhole image vol.old set.now end.tt vol.old.buf }
    requires few { IsTrue whole → length vol.old.buf.records ≤ 255 }
    ensures track { let image = image_in (H.meaning hall.old) (H.facts hall.old) vol.old.unit in
        IsTrue H.tells → ChecksTrack result end.tt (part_at vol.old.geometry (data_in image vol.old)
        (owned_in image vol.old set.now) end to end.tt) }
    ensures same { IsTrue H.tells → Same (H.meaning hall.old) (H.meaning hall.new) }
    ensures mounted { let image = image_in (H.meaning hall.old) (H.facts hall.old) vol.old.unit in
        IsTrue H.tells → IsMounted image vol.new }
    ensures others { vol.new ≡ record vol.old { buf = vol.new.buf } }
    ensures unit { IsOfUnit (H.facts hall.new).units vol.new }
    ensures faults { ReportedCall (IsErrOf result CheckErr.Device) (H.facts hall.old)
        (H.facts hall.new) }
{
    if whole {
        return check_held(&vol.buf, end, to);
    }
    check_part_track(hall, vol, set, end, to, end.tt)
}

// Whether the records in a buffer, which are all of the track with the directory's end, may stand there, as far as this
// is read.
fn check_held(buf: &TrackBuf, end: Place, to: Place) -> Result<(), CheckErr>
    requires { length buf.now.records ≤ 255 }
    ensures track { ChecksTrack result end.tt (part_held end to buf.now.records) }
    ensures device { ¬ IsErrOf result CheckErr.Device }
{
    let k = end.tt;
    if is_record_0(to, k) {
        return Err(CheckErr::Unreadable(k));
    }
    let Some(count) = held_upto(buf, upto_last(to, k)) else {
        return Err(CheckErr::Unreadable(k));
    };
    if may_all_stand(buf, count, end, k) {
        Ok(())
    } else {
        Err(CheckErr::Unreadable(k))
    }
}

// How many of the records in a buffer, which are all of a track, are read up to a record, or to the end marker; `None` where
// the track has no such record.
fn held_upto(buf: &TrackBuf, upto: Option<u8>) -> Option<u8>
    requires { length buf.now.records ≤ 255 }
    ensures count { option_map (λ n. take n buf.now.records) result ≡ held_upto upto buf.now.records }
    ensures within { IfSome result (λ n. n ≤ length buf.now.records) }
{
    let count = buf.len() as u8;
    match upto {
        None => Some(count),
        Some(r) if r <= count => Some(r),
        Some(_) => None,
    }
}

// Walks the records of one relative track.
fn check_track<H: Hall>(
    hall: &mut H,
    vol: &mut Vol,
    set: &F1,
    last: Place,
    k: u16,
) -> Result<(), CheckErr>
    requires unit { IsOfUnit (H.facts hall.old).units vol.old }
    requires set { let image = image_in (H.meaning hall.old) (H.facts hall.old) vol.old.unit in
        IsTrue H.tells → IsSetIn image vol.old set.now }
    ensures track { let image = image_in (H.meaning hall.old) (H.facts hall.old) vol.old.unit in
        IsTrue H.tells → ChecksTrack result k (blocks_at vol.old.geometry (data_in image vol.old)
        (owned_in image vol.old set.now) last k) }
    ensures same { IsTrue H.tells → Same (H.meaning hall.old) (H.meaning hall.new) }
    ensures mounted { let image = image_in (H.meaning hall.old) (H.facts hall.old) vol.old.unit in
        IsTrue H.tells → IsMounted image vol.new }
    ensures others { vol.new ≡ record vol.old { buf = vol.new.buf } }
    ensures unit { IsOfUnit (H.facts hall.new).units vol.new }
    ensures faults { ReportedCall (IsErrOf result CheckErr.Device) (H.facts hall.old)
        (H.facts hall.new) }
{
    let count = read_track(hall, vol, set, last, k)?;
    if are_blocks(&vol.buf, count) {
        Ok(())
    } else {
        Err(CheckErr::Unreadable(k))
    }
}

// The same of a partitioned set, which is read up to a place.
fn check_part_track<H: Hall>(
    hall: &mut H,
    vol: &mut Vol,
    set: &F1,
    end: Place,
    to: Place,
    k: u16,
) -> Result<(), CheckErr>
    requires unit { IsOfUnit (H.facts hall.old).units vol.old }
    requires set { let image = image_in (H.meaning hall.old) (H.facts hall.old) vol.old.unit in
        IsTrue H.tells → IsSetIn image vol.old set.now }
    ensures track { let image = image_in (H.meaning hall.old) (H.facts hall.old) vol.old.unit in
        IsTrue H.tells → ChecksTrack result k (part_at vol.old.geometry (data_in image vol.old)
        (owned_in image vol.old set.now) end to k) }
    ensures same { IsTrue H.tells → Same (H.meaning hall.old) (H.meaning hall.new) }
    ensures mounted { let image = image_in (H.meaning hall.old) (H.facts hall.old) vol.old.unit in
        IsTrue H.tells → IsMounted image vol.new }
    ensures others { vol.new ≡ record vol.old { buf = vol.new.buf } }
    ensures unit { IsOfUnit (H.facts hall.new).units vol.new }
    ensures faults { ReportedCall (IsErrOf result CheckErr.Device) (H.facts hall.old)
        (H.facts hall.new) }
{
    let count = read_track(hall, vol, set, to, k)?;
    if may_all_stand(&vol.buf, count, end, k) {
        Ok(())
    } else {
        Err(CheckErr::Unreadable(k))
    }
}

// Reads the records of one relative track up to a place into the buffer of the index, and gives their number.
fn read_track<H: Hall>(
    hall: &mut H,
    vol: &mut Vol,
    set: &F1,
    to: Place,
    k: u16,
) -> Result<u8, CheckErr>
    requires unit { IsOfUnit (H.facts hall.old).units vol.old }
    requires set { let image = image_in (H.meaning hall.old) (H.facts hall.old) vol.old.unit in
        IsTrue H.tells → IsSetIn image vol.old set.now }
    ensures count { IfOk result (λ n. length vol.new.buf.records ≡ n) }
    ensures records { let image = image_in (H.meaning hall.old) (H.facts hall.old) vol.old.unit in
        IsTrue H.tells → ReadsTrack result k (records_upto image vol.old set.now to k)
        vol.new.buf.records }
    ensures same { IsTrue H.tells → Same (H.meaning hall.old) (H.meaning hall.new) }
    ensures mounted { let image = image_in (H.meaning hall.old) (H.facts hall.old) vol.old.unit in
        IsTrue H.tells → IsMounted image vol.new }
    ensures others { vol.new ≡ record vol.old { buf = vol.new.buf } }
    ensures unit { IsOfUnit (H.facts hall.new).units vol.new }
    ensures faults { ReportedCall (IsErrOf result CheckErr.Device) (H.facts hall.old)
        (H.facts hall.new) }
{
    let Some(track) = track_at(vol, set, k) else {
        return Err(CheckErr::Unreadable(k));
    };
    if is_record_0(to, k) {
        return Err(CheckErr::Unreadable(k));
    }
    match read_records(hall, vol.unit, track, upto_last(to, k), &mut vol.buf) {
        Ok(count) => Ok(count),
        Err(TrackErr::BadCount { .. }) => Err(CheckErr::Unreadable(k)),
        Err(TrackErr::Device) => Err(CheckErr::Device),
    }
}

// Whether each record of a buffer, which has so many, can be a block.
pub(crate) fn are_blocks(buf: &TrackBuf, count: u8) -> bool
    requires { length buf.now.records ≡ count }
    ensures { result ≡ list_all is_block buf.now.records }
{
    for passed in 0..count {
        if !is_block(buf, passed + 1) {
            return false;
        }
    }
    true
}

// Whether each of so many records in a buffer, from the first, may stand on a relative track of a partitioned set.
fn may_all_stand(buf: &TrackBuf, count: u8, end: Place, k: u16) -> bool
    requires { count ≤ length buf.now.records }
    ensures { result ≡ list_all (may_stand end k) (enumerate_from 1 (take count buf.now.records)) }
{
    for passed in 0..count {
        let place = Place {
            tt: k,
            r: passed + 1,
        };
        if !may_stand(buf, end, place) {
            return false;
        }
    }
    true
}

// Whether the record of a place in a buffer may stand there: before the directory's end one that can be a directory
// block, and else any that can be a block.
fn may_stand(buf: &TrackBuf, end: Place, place: Place) -> bool
    requires first { 1 ≤ place.r }
    requires last { place.r ≤ length buf.now.records }
    ensures { option_map (λ x. may_stand end place.tt (place.r, x))
        (slice_get buf.now.records (place.r - 1)) ≡ Some result }
{
    if is_before(place, end) {
        is_directory_record(buf, place.r)
    } else {
        is_block(buf, place.r)
    }
}
