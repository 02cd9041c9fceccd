//! Where a member of a partitioned data set ends.
ghost use Rattle.std.specs.Prelude.{◌≡◌, ◌+◌, ◌≤◌, ◌<◌, true, is_some, slice_get, IfOk, IsErrOf, IsTrue, Some};
ghost use Rattle.dscb_codec.specs.declared.F1.{F1};
ghost use Rattle.hall_core.specs.Facts.{DeviceCall, ReportedCall};
ghost use Rattle.hall_core.specs.Told.{ImageHas};
ghost use Rattle.stop_model.specs.Moments.{Same};
ghost use Rattle.vol_model.specs.Places.{is_end_of_file};
ghost use Rattle.vol_model.specs.Shelf.{blocks_of};
ghost use Rattle.vtoc_index.specs.Index.{IsMounted, IsOfUnit};
ghost use Rattle.vtoc_index.specs.Names.{name_at};
ghost use Rattle.pds_directory.specs.Directories.{IsReadablePart};
ghost use Rattle.seq_access.specs.Bodies.{IsReadablePart as IsReadableBody, IsSetIn, end_in, part_in};
ghost use Rattle.seq_access.specs.Reading.{HoldsTrack};
ghost use Rattle.member_access.specs.Ends.{IsNextPlace, IsPlace, Passes, member_end, place_number};

use dscb_codec::{Dscb, F1};
use hall_core::{Device, Hall};
use pds_directory::find_end;
use seq_access::{ReadBuf, read_part_into};
use std::alloc::Global;
use vol_model::{BlockBuf, Place, WorkErr};
use vtoc_index::Vol;
use vtoc_sets::set_at;

// How far a member was walked.
#[derive(Clone, Copy)]
struct Walk {
    // The block that was passed last, or the place from which the walk began.
    last: Place,
    // The place from which the blocks are that are left.
    next: Place,
}

/// The place of the last block of the member at a place, of the partitioned data set whose format 1 a slot holds.
///
/// A member ends with the next end-of-file block, which is its last, or with the last block of the set. Where no block
/// stands at or after the place, it is the place itself.
///
/// The body of the set can be read. The blocks are read one after another. `Memory` comes only for the room of one track
/// and one block, and `Device` only where the count of its faults rose.
pub fn end_of<H: Hall>(
    alloc: Global,
    hall: &mut H,
    vol: &mut Vol,
    slot: u32,
    from: Place,
) -> Result<Place, WorkErr>
    requires unit { IsOfUnit (H.facts hall.old).units vol.old }
    requires set { is_some (name_at vol.old.slots.items slot) ≡ true }
    requires part { ImageHas H.Hall hall.old vol.old.unit (λ image.
        (f : F1) → slice_get vol.old.slots.items slot ≡ Some (Dscb.F1 f)
        → IsReadablePart image vol.old f) }
    ensures end { ImageHas H.Hall hall.old vol.old.unit (λ image.
        (f : F1) → slice_get vol.old.slots.items slot ≡ Some (Dscb.F1 f)
        → IfOk result (λ p. p ≡ member_end (blocks_of (part_in image vol.old f)) from)) }
    ensures same { IsTrue H.tells → Same (H.meaning hall.old) (H.meaning hall.new) }
    ensures mounted { ImageHas H.Hall hall.old vol.old.unit (λ image. IsMounted image vol.new) }
    ensures others { vol.new ≡ record vol.old { buf = vol.new.buf } }
    ensures unit { IsOfUnit (H.facts hall.new).units vol.new }
    ensures faults { ReportedCall (IsErrOf result WorkErr.Device) (H.facts hall.old)
        (H.facts hall.new) }
{
    let set = set_at(vol, slot);
    let Ok(mut buf) = ReadBuf::new(alloc, &vol.geometry) else {
        return Err(WorkErr::Memory);
    };
    let Ok(mut block) = BlockBuf::new(alloc) else {
        return Err(WorkErr::Memory);
    };
    let Ok(end) = find_end(hall, vol, &set) else {
        return Err(WorkErr::Device);
    };
    match walk_member(hall, vol, &set, end, from, &mut buf, &mut block) {
        Ok(last) => Ok(last),
        Err(Device) => Err(WorkErr::Device),
    }
}

// Walks the member at a place, and gives the place of its last block.
fn walk_member<H: Hall>(
    hall: &mut H,
    vol: &Vol,
    set: &F1,
    end: Place,
    from: Place,
    buf: &mut ReadBuf,
    block: &mut BlockBuf,
) -> Result<Place, Device>
    requires unit { IsOfUnit (H.facts hall.old).units vol.now }
    requires buffer { buf.old.records.geometry ≡ vol.now.geometry }
    requires set { ImageHas H.Hall hall.old vol.now.unit (λ image. IsSetIn image vol.now set.now) }
    requires end { ImageHas H.Hall hall.old vol.now.unit (λ image.
        end ≡ end_in image vol.now set.now) }
    requires readable { ImageHas H.Hall hall.old vol.now.unit (λ image.
        IsReadableBody (part_in image vol.now set.now)) }
    requires held { ImageHas H.Hall hall.old vol.now.unit (λ image. HoldsTrack image buf.old) }
    ensures end { ImageHas H.Hall hall.old vol.now.unit (λ image.
        IfOk result (λ p. p ≡ member_end (blocks_of (part_in image vol.now set.now)) from)) }
    ensures same { IsTrue H.tells → Same (H.meaning hall.old) (H.meaning hall.new) }
    ensures faults { DeviceCall (H.facts hall.old) (H.facts hall.new) result }
{
    let mut walk = Walk {
        last: from,
        next: from,
    };
    loop {
        let more = pass(hall, vol, set, end, &mut walk, buf, block)?;
        if !more {
            return Ok(walk.last);
        }
    }
}

// Passes the next block of a member; whether more of it may follow.
fn pass<H: Hall>(
    hall: &mut H,
    vol: &Vol,
    set: &F1,
    end: Place,
    walk: &mut Walk,
    buf: &mut ReadBuf,
    block: &mut BlockBuf,
) -> Result<bool, Device>
    requires unit { IsOfUnit (H.facts hall.old).units vol.now }
    requires buffer { buf.old.records.geometry ≡ vol.now.geometry }
    requires set { ImageHas H.Hall hall.old vol.now.unit (λ image. IsSetIn image vol.now set.now) }
    requires end { ImageHas H.Hall hall.old vol.now.unit (λ image.
        end ≡ end_in image vol.now set.now) }
    requires readable { ImageHas H.Hall hall.old vol.now.unit (λ image.
        IsReadableBody (part_in image vol.now set.now)) }
    requires held { ImageHas H.Hall hall.old vol.now.unit (λ image. HoldsTrack image buf.old) }
    requires place { IsPlace walk.old.next }
    ensures passes { ImageHas H.Hall hall.old vol.now.unit (λ image.
        Passes result (blocks_of (part_in image vol.now set.now)) walk.old walk.new) }
    ensures onward { IfOk result (λ more. IsTrue more
        → place_number walk.old.next < place_number walk.new.next) }
    ensures place { IsPlace walk.new.next }
    ensures held { ImageHas H.Hall hall.old vol.now.unit (λ image. HoldsTrack image buf.new) }
    ensures buffer { buf.new.records.geometry ≡ vol.now.geometry }
    ensures same { IsTrue H.tells → Same (H.meaning hall.old) (H.meaning hall.new) }
    ensures faults { DeviceCall (H.facts hall.old) (H.facts hall.new) result }
{
    let found = read_part_into(hall, vol, set, end, walk.next, buf, block)?;
    if !found {
        return Ok(false);
    }
    walk.last = block.place();
    walk.next = place_behind(walk.last);
    Ok(!is_end_of_file(block))
}

// The place after that of a block.
fn place_behind(place: Place) -> Place
    requires { place.tt < 65535 }
    ensures { IsNextPlace place result }
{
    if place.r < u8::MAX {
        Place {
            tt: place.tt,
            r: place.r + 1,
        }
    } else {
        Place {
            tt: place.tt + 1,
            r: 0,
        }
    }
}

// Whether a block ends a member.
fn is_end_of_file(block: &BlockBuf) -> bool
    ensures { result ≡ is_end_of_file block.now }
{
    block.key().is_empty() && block.payload().is_empty()
}
