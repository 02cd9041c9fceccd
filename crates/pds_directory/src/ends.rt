//! The tracks of a directory, read up to its end-of-file record.
ghost use Rattle.std.specs.Prelude.{◌≡◌, ◌≤◌, ◌<◌, ℕ, List, true, false, length, IfOk, IfSome, IsTrue, None, Some};
ghost use Rattle.hall_core.specs.Facts.{DeviceCall};
ghost use Rattle.hall_core.specs.Images.{image_in};
ghost use Rattle.stop_model.specs.Moments.{Same};
ghost use Rattle.pack_spec.specs.Label.{records_on, tracks_of};
ghost use Rattle.vtoc_index.specs.Index.{IsMounted, IsOfUnit};
ghost use Rattle.dscb_codec.specs.declared.F1.{F1};
ghost use Rattle.pds_directory.specs.Directories.{IsReadablePart, end_in};
ghost use Rattle.pds_directory.specs.Reading.{HasBytesOf, IsFirstEnd, IsHeld, IsLastEnd, IsReadUpTo, Reaches, SeeksOn, end_on};

use crate::records::is_end_record;
use dscb_codec::F1;
use hall_core::{Device, Hall};
use track_records::{TrackBuf, TrackErr, read_records};
use vol_model::Place;
use vtoc_index::Vol;
use vtoc_sets::track_at;

// How far a track of a directory was read.
#[derive(Clone, Copy)]
pub(crate) struct Reached {
    // The records before the end-of-file record, or all.
    pub before: u8,
    // Whether it is there.
    pub ended: bool,
    // Whether the track was read to its end marker.
    pub whole: bool,
}

/// The place of the end-of-file record of the directory of a partitioned data set, by its format 1.
///
/// The set is one whose body can be read. `Device` comes only where the count of its faults rose. No memory is taken.
pub fn find_end<H: Hall>(hall: &mut H, vol: &mut Vol, set: &F1) -> Result<Place, Device>
    requires unit { IsOfUnit (H.facts hall.old).units vol.old }
    requires set { let image = image_in (H.meaning hall.old) (H.facts hall.old) vol.old.unit in
        IsTrue H.tells → IsReadablePart image vol.old set.now }
    ensures place { let image = image_in (H.meaning hall.old) (H.facts hall.old) vol.old.unit in
        IsTrue H.tells → IfOk result (λ place. place ≡ end_in image vol.old set.now) }
    ensures same { IsTrue H.tells → Same (H.meaning hall.old) (H.meaning hall.new) }
    ensures mounted { let image = image_in (H.meaning hall.old) (H.facts hall.old) vol.old.unit in
        IsTrue H.tells → IsMounted image vol.new }
    ensures others { vol.new ≡ record vol.old { buf = vol.new.buf } }
    ensures unit { IsOfUnit (H.facts hall.new).units vol.new }
    ensures faults { DeviceCall (H.facts hall.old) (H.facts hall.new) result }
{
    for k in 0..u16::MAX {
        let found = find_end_on(hall, vol, set, k)?;
        if let Some(end) = found {
            return Ok(end);
        }
    }
    hall.differs(vol.unit, vol.vtoc.start);
    Err(Device)
}

// The place of the directory's end-of-file record, if it stands on this relative track.
fn find_end_on<H: Hall>(
    hall: &mut H,
    vol: &mut Vol,
    set: &F1,
    k: u16,
) -> Result<Option<Place>, Device>
    requires unit { IsOfUnit (H.facts hall.old).units vol.old }
    requires set { let image = image_in (H.meaning hall.old) (H.facts hall.old) vol.old.unit in
        IsTrue H.tells → IsReadablePart image vol.old set.now }
    requires before { let image = image_in (H.meaning hall.old) (H.facts hall.old) vol.old.unit in
        IsTrue H.tells → k ≤ (end_in image vol.old set.now).tt }
    ensures found { let image = image_in (H.meaning hall.old) (H.facts hall.old) vol.old.unit in
        IsTrue H.tells → IfOk result (SeeksOn (end_in image vol.old set.now) k) }
    ensures same { IsTrue H.tells → Same (H.meaning hall.old) (H.meaning hall.new) }
    ensures mounted { let image = image_in (H.meaning hall.old) (H.facts hall.old) vol.old.unit in
        IsTrue H.tells → IsMounted image vol.new }
    ensures others { vol.new ≡ record vol.old { buf = vol.new.buf } }
    ensures unit { IsOfUnit (H.facts hall.new).units vol.new }
    ensures faults { DeviceCall (H.facts hall.old) (H.facts hall.new) result }
{
    let Some(track) = track_at(vol, set, k) else {
        hall.differs(vol.unit, vol.vtoc.start);
        return Err(Device);
    };
    let Some(reached) = reach_end(hall, vol, track)? else {
        hall.differs(vol.unit, track);
        return Err(Device);
    };
    Ok(end_on(reached, k))
}

// The place of the end-of-file record that was met on this relative track; `None` where there is none.
pub(crate) fn end_on(reached: Reached, k: u16) -> Option<Place>
    requires { reached.ended ≡ true → reached.before < 255 }
    ensures { result ≡ end_on k reached }
{
    if !reached.ended {
        return None;
    }
    Some(Place {
        tt: k,
        r: reached.before + 1,
    })
}

// Reads a track into the buffer of the index, to its end marker, or else up to its first end-of-file record; `None` where
// it breaks the grammar before that.
pub(crate) fn reach_end<H: Hall>(
    hall: &mut H,
    vol: &mut Vol,
    track: u16,
) -> Result<Option<Reached>, Device>
    requires unit { IsOfUnit (H.facts hall.old).units vol.old }
    requires track { track < tracks_of vol.old.geometry }
    requires mounted { let image = image_in (H.meaning hall.old) (H.facts hall.old) vol.old.unit in
        IsTrue H.tells → IsMounted image vol.old }
    ensures reached { let image = image_in (H.meaning hall.old) (H.facts hall.old) vol.old.unit in
        IsTrue H.tells → (tracks : List (List ℕ)) → HasBytesOf image vol.old.geometry tracks track
        → Reaches result vol.old.geometry tracks track vol.new.buf.records }
    ensures held { IfOk result (λ found. IfSome found (IsHeld vol.new.buf.records)) }
    ensures whole { let image = image_in (H.meaning hall.old) (H.facts hall.old) vol.old.unit in
        IsTrue H.tells → IfOk result (λ found. IfSome found (λ reached. IsTrue reached.whole
        → records_on image vol.old.geometry None track ≡ Some vol.new.buf.records)) }
    ensures same { IsTrue H.tells → Same (H.meaning hall.old) (H.meaning hall.new) }
    ensures mounted { let image = image_in (H.meaning hall.old) (H.facts hall.old) vol.old.unit in
        IsTrue H.tells → IsMounted image vol.new }
    ensures others { vol.new ≡ record vol.old { buf = vol.new.buf } }
    ensures unit { IsOfUnit (H.facts hall.new).units vol.new }
    ensures faults { DeviceCall (H.facts hall.old) (H.facts hall.new) result }
{
    let read = read_up_to(hall, vol, track, None)?;
    if read {
        return Ok(Some(reached_in(&vol.buf)));
    }
    seek_end(hall, vol, track)
}

// Reads a track, which breaks the grammar before its end marker, up to its first end-of-file record.
fn seek_end<H: Hall>(hall: &mut H, vol: &mut Vol, track: u16) -> Result<Option<Reached>, Device>
    requires unit { IsOfUnit (H.facts hall.old).units vol.old }
    requires track { track < tracks_of vol.old.geometry }
    requires mounted { let image = image_in (H.meaning hall.old) (H.facts hall.old) vol.old.unit in
        IsTrue H.tells → IsMounted image vol.old }
    requires broken { let image = image_in (H.meaning hall.old) (H.facts hall.old) vol.old.unit in
        IsTrue H.tells → records_on image vol.old.geometry None track ≡ None }
    ensures reached { let image = image_in (H.meaning hall.old) (H.facts hall.old) vol.old.unit in
        IsTrue H.tells → (tracks : List (List ℕ)) → HasBytesOf image vol.old.geometry tracks track
        → Reaches result vol.old.geometry tracks track vol.new.buf.records }
    ensures held { IfOk result (λ found. IfSome found (IsHeld vol.new.buf.records)) }
    ensures part { IfOk result (λ found. IfSome found (λ reached. reached.whole ≡ false)) }
    ensures same { IsTrue H.tells → Same (H.meaning hall.old) (H.meaning hall.new) }
    ensures mounted { let image = image_in (H.meaning hall.old) (H.facts hall.old) vol.old.unit in
        IsTrue H.tells → IsMounted image vol.new }
    ensures others { vol.new ≡ record vol.old { buf = vol.new.buf } }
    ensures unit { IsOfUnit (H.facts hall.new).units vol.new }
    ensures faults { DeviceCall (H.facts hall.old) (H.facts hall.new) result }
{
    for before in 0..u8::MAX {
        let read = read_up_to(hall, vol, track, Some(before + 1))?;
        if !read {
            return Ok(None);
        }
        if let Some(reached) = last_end(&vol.buf) {
            return Ok(Some(reached));
        }
    }
    Ok(None)
}

/// Reads a track up to a record, or to its end marker, into the buffer of the index; whether it could be read so far.
///
/// The track is counted from 0 over the unit. It can't be read where it breaks the grammar of a Hercules image before the
/// record is whole, or before the end marker. `Device` comes only where the count of its faults rose.
pub fn read_up_to<H: Hall>(
    hall: &mut H,
    vol: &mut Vol,
    track: u16,
    upto: Option<u8>,
) -> Result<bool, Device>
    requires unit { IsOfUnit (H.facts hall.old).units vol.old }
    requires track { track < tracks_of vol.old.geometry }
    requires mounted { let image = image_in (H.meaning hall.old) (H.facts hall.old) vol.old.unit in
        IsTrue H.tells → IsMounted image vol.old }
    ensures read { let image = image_in (H.meaning hall.old) (H.facts hall.old) vol.old.unit in
        IsTrue H.tells → IfOk result (λ read. IsReadUpTo read
        (records_on image vol.old.geometry upto track) vol.new.buf.records) }
    ensures few { length vol.new.buf.records ≤ 255 }
    ensures track { vol.new.buf.track ≡ track }
    ensures same { IsTrue H.tells → Same (H.meaning hall.old) (H.meaning hall.new) }
    ensures mounted { let image = image_in (H.meaning hall.old) (H.facts hall.old) vol.old.unit in
        IsTrue H.tells → IsMounted image vol.new }
    ensures others { vol.new ≡ record vol.old { buf = vol.new.buf } }
    ensures unit { IsOfUnit (H.facts hall.new).units vol.new }
    ensures faults { DeviceCall (H.facts hall.old) (H.facts hall.new) result }
{
    match read_records(hall, vol.unit, track, upto, &mut vol.buf) {
        Ok(_count) => Ok(true),
        Err(TrackErr::BadCount { .. }) => Ok(false),
        Err(TrackErr::Device) => Err(Device),
    }
}

// How far the records of a buffer go that are those of a whole track: to its first end-of-file record, or to its end
// marker.
fn reached_in(buf: &TrackBuf) -> Reached
    requires { length buf.now.records ≤ 255 }
    ensures { IsFirstEnd buf.now.records result }
{
    let count = buf.len() as u8;
    for before in 0..count {
        if is_end_record(buf, before + 1) {
            return Reached {
                before,
                ended: true,
                whole: true,
            };
        }
    }
    Reached {
        before: count,
        ended: false,
        whole: true,
    }
}

// How far the records of a buffer go where the last of them is an end-of-file record.
fn last_end(buf: &TrackBuf) -> Option<Reached>
    requires { length buf.now.records ≤ 255 }
    ensures end { IsLastEnd buf.now.records result }
    ensures part { IfSome result (λ reached. reached.whole ≡ false) }
{
    let count = buf.len() as u8;
    if count == 0 || !is_end_record(buf, count) {
        return None;
    }
    Some(Reached {
        before: count - 1,
        ended: true,
        whole: false,
    })
}
