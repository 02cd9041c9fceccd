//! The tracks of a data set in the buffer of an index, to be written after its last block.
ghost use Rattle.std.specs.Prelude.{◌≡◌, ◌≢◌, ◌≤◌, ◌<◌, [], ℕ, List, Some, None, length, slice_get, IsTrue, IfErr, IfOk, OnOk, OnErr};
ghost use Rattle.dscb_codec.specs.declared.F1.{F1};
ghost use Rattle.hall_core.specs.Facts.{Attached, DeviceCall};
ghost use Rattle.hall_core.specs.Images.{image_in};
ghost use Rattle.stop_model.specs.Moments.{Same};
ghost use Rattle.pack_spec.specs.Label.{records_on, tracks_of};
ghost use Rattle.vtoc_index.specs.Index.{IsMounted, IsOfUnit};
ghost use Rattle.vtoc_sets.specs.Sets.{HasSet};
ghost use Rattle.seq_access.specs.Bodies.{owned_in};
ghost use Rattle.seq_access.specs.Writing.{AreThere, HoldsLast, IsRoomy};

use crate::held::is_roomy;
use crate::writer::PutErr;
use dscb_codec::{Dscb, F1};
use hall_core::{Device, Hall};
use track_records::{TrackErr, read_records};
use vol_model::Place;
use vtoc_index::Vol;
use vtoc_sets::track_at;

// Makes the buffer the empty one of a relative track of a set; `NeedExtent` where the set doesn't own it.
pub(crate) fn begin_track(vol: &mut Vol, set: &F1, k: u16) -> Result<Place, PutErr>
    requires unit { (units : List Attached) × IsOfUnit units vol.old }
    ensures place { IfOk result (λ place. place ≡ record { tt = k; r = 1 }) }
    ensures track { OnOk result ((image : List ℕ) → HasSet image vol.old set.now
        → slice_get (owned_in image vol.old set.now) k ≡ Some vol.new.buf.track) }
    ensures inside { OnOk result (vol.new.buf.track < tracks_of vol.old.geometry) }
    ensures buffer { OnOk result (vol.new ≡ record vol.old {
      buf = record (vol.old.buf)
          { unit = vol.old.unit; track = vol.new.buf.track; records = [] };
    }) }
    ensures none { OnErr result ((image : List ℕ) → HasSet image vol.old set.now
        → slice_get (owned_in image vol.old set.now) k ≡ None) }
    ensures same { OnErr result (vol.new ≡ vol.old) }
    ensures error { IfErr result (λ e. e ≡ PutErr.NeedExtent) }
{
    let Some(track) = track_at(vol, set, k) else {
        return Err(PutErr::NeedExtent);
    };
    vol.buf.clear(vol.unit, track);
    Ok(Place { tt: k, r: 1 })
}

// The format 1 in a slot.
pub(crate) fn set_at<H: Hall>(hall: &mut H, vol: &Vol, slot: u32) -> Result<F1, Device>
    requires unit { IsOfUnit (H.facts hall.old).units vol.now }
    requires slot { slot < length vol.now.slots.items }
    requires set { IsTrue H.tells → (f : F1) × (slice_get vol.now.slots.items slot ≡ Some (Dscb.F1 f)) }
    ensures set { IfOk result (λ f. slice_get vol.now.slots.items slot ≡ Some (Dscb.F1 f)) }
    ensures same { IsTrue H.tells → Same (H.meaning hall.old) (H.meaning hall.new) }
    ensures faults { DeviceCall (H.facts hall.old) (H.facts hall.new) result }
{
    match vol.slots[slot as usize] {
        Dscb::F1(set) => Ok(set),
        _ => {
            hall.differs(vol.unit, vol.vtoc.start);
            Err(Device)
        }
    }
}

// Makes the buffer of the index hold the records of a set's last track up to its last block; reads the track where it
// doesn't.
pub(crate) fn hold_last<H: Hall>(
    hall: &mut H,
    vol: &mut Vol,
    set: &F1,
    last: Place,
) -> Result<(), Device>
    requires unit { IsOfUnit (H.facts hall.old).units vol.old }
    requires set { let image = image_in (H.meaning hall.old) (H.facts hall.old) vol.old.unit in
        IsTrue H.tells → HasSet image vol.old set.now }
    requires there { let image = image_in (H.meaning hall.old) (H.facts hall.old) vol.old.unit in
        IsTrue H.tells → AreThere image vol.old set.now last }
    ensures held { let image = image_in (H.meaning hall.old) (H.facts hall.old) vol.old.unit in
        IsTrue H.tells → OnOk result (HoldsLast image vol.new set.now last) }
    ensures roomy { OnOk result (IsRoomy (H.facts hall.new).units vol.new.buf) }
    ensures same { IsTrue H.tells → Same (H.meaning hall.old) (H.meaning hall.new) }
    ensures mounted { let image = image_in (H.meaning hall.old) (H.facts hall.old) vol.old.unit in
        IsTrue H.tells → IsMounted image vol.new }
    ensures others { vol.new ≡ record vol.old { buf = vol.new.buf } }
    ensures unit { IsOfUnit (H.facts hall.new).units vol.new }
    ensures faults { DeviceCall (H.facts hall.old) (H.facts hall.new) result }
{
    let Some(track) = track_at(vol, set, last.tt) else {
        hall.differs(vol.unit, vol.vtoc.start);
        return Err(Device);
    };
    hold(hall, vol, track, last.r)?;
    if !is_roomy(&vol.buf, vol.geometry.track_size) {
        hall.differs(vol.unit, track);
        return Err(Device);
    }
    Ok(())
}

// Makes the buffer of the index hold the records of a track up to one of them; reads the track where it doesn't.
fn hold<H: Hall>(hall: &mut H, vol: &mut Vol, track: u16, r: u8) -> Result<(), Device>
    requires unit { IsOfUnit (H.facts hall.old).units vol.old }
    requires track { track < tracks_of vol.old.geometry }
    requires there { let image = image_in (H.meaning hall.old) (H.facts hall.old) vol.old.unit in
        IsTrue H.tells → (1 ≤ r) × (records_on image vol.old.geometry (Some r) track ≢ None) }
    requires mounted { let image = image_in (H.meaning hall.old) (H.facts hall.old) vol.old.unit in
        IsTrue H.tells → IsMounted image vol.old }
    ensures records { let image = image_in (H.meaning hall.old) (H.facts hall.old) vol.old.unit in
        IsTrue H.tells → OnOk result
        (records_on image vol.old.geometry (Some r) track ≡ Some vol.new.buf.records) }
    ensures track { OnOk result (vol.new.buf.track ≡ track) }
    ensures few { OnOk result (length vol.new.buf.records ≤ 255) }
    ensures same { IsTrue H.tells → Same (H.meaning hall.old) (H.meaning hall.new) }
    ensures mounted { let image = image_in (H.meaning hall.old) (H.facts hall.old) vol.old.unit in
        IsTrue H.tells → IsMounted image vol.new }
    ensures others { vol.new ≡ record vol.old { buf = vol.new.buf } }
    ensures unit { IsOfUnit (H.facts hall.new).units vol.new }
    ensures faults { DeviceCall (H.facts hall.old) (H.facts hall.new) result }
{
    if vol.buf.track() == track && vol.buf.len() == usize::from(r) {
        return Ok(());
    }
    match read_records(hall, vol.unit, track, Some(r), &mut vol.buf) {
        Ok(_count) => Ok(()),
        Err(TrackErr::BadCount { .. }) => {
            hall.differs(vol.unit, track);
            Err(Device)
        }
        Err(TrackErr::Device) => Err(Device),
    }
}
