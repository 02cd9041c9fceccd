//! The blocks of the members of a partitioned data set, read one at a time.
ghost use Rattle.std.specs.Prelude.{◌≡◌, ◌<◌, false, IsTrue, IsErrOf, IfOk, IfSome};
ghost use Rattle.hall_core.specs.Facts.{DeviceCall, ReportedCall};
ghost use Rattle.hall_core.specs.Told.{ImageHas};
ghost use Rattle.stop_model.specs.Moments.{Same};
ghost use Rattle.vol_model.specs.Lawful.{IsLawfulBlock};
ghost use Rattle.vol_model.specs.Places.{is_before, is_open_ended};
ghost use Rattle.vol_model.specs.Shelf.{blocks_of};
ghost use Rattle.vtoc_index.specs.Index.{IsOfUnit};
ghost use Rattle.seq_access.specs.Bodies.{IsReadablePart, IsSetIn, end_in, part_in};
ghost use Rattle.seq_access.specs.Reading.{GivesMembers, HoldsTrack, IsStart, LeavesEmpty, ReadsMembers};

use crate::last::{is_before, last_of};
use crate::lengths::is_end_record;
use crate::read_buf::ReadBuf;
use crate::reading::{read_block, read_into, seek_on};
use dscb_codec::F1;
use hall_core::{Device, Hall};
use std::alloc::Global;
use vol_model::{Block, BlockBuf, Place, WorkErr};
use vtoc_index::Vol;

/// Reads the first block at or after a place, of those after the directory, into a block; false where there is none.
/// The block is blank then, and after an error.
///
/// The set is a partitioned one whose body can be read, by its format 1, which is one of the index, and by the place of
/// its directory's end-of-file record. `Device` comes only where the count of its faults rose. A track that the buffer
/// holds isn't read again. No memory is taken.
pub fn read_part_into<H: Hall>(
    hall: &mut H,
    vol: &Vol,
    set: &F1,
    end: Place,
    from: Place,
    buf: &mut ReadBuf,
    block: &mut BlockBuf,
) -> Result<bool, Device>
    requires unit { IsOfUnit (H.facts hall.old).units vol.now }
    requires buffer { buf.old.records.geometry ≡ vol.now.geometry }
    requires set { ImageHas H.Hall hall.old vol.now.unit (λ image. IsSetIn image vol.now set.now) }
    requires end { ImageHas H.Hall hall.old vol.now.unit (λ image.
        end ≡ end_in image vol.now set.now) }
    requires readable { ImageHas H.Hall hall.old vol.now.unit (λ image.
        IsReadablePart (part_in image vol.now set.now)) }
    requires held { ImageHas H.Hall hall.old vol.now.unit (λ image. HoldsTrack image buf.old) }
    ensures block { ImageHas H.Hall hall.old vol.now.unit (λ image.
        ReadsMembers result (part_in image vol.now set.now) from block.new) }
    ensures blank { LeavesEmpty result block.new }
    ensures onward { IfOk result (λ more. IsTrue more → is_before block.new.place from ≡ false) }
    ensures lawful { IfOk result (λ more. IsTrue more → IsLawfulBlock block.new) }
    ensures held { ImageHas H.Hall hall.old vol.now.unit (λ image. HoldsTrack image buf.new) }
    ensures buffer { buf.new.records.geometry ≡ vol.now.geometry }
    ensures same { IsTrue H.tells → Same (H.meaning hall.old) (H.meaning hall.new) }
    ensures faults { DeviceCall (H.facts hall.old) (H.facts hall.new) result }
{
    if !is_before(end, last_of(set)) {
        block.clear();
        return Ok(false);
    }
    read_into(hall, vol, set, members_from(end, from), buf, block)
}

/// Reads the first block at or after a place, of those after the directory; `None` where there is none.
///
/// As `read_part_into`, but for the memory of the block, which is the one other error.
pub fn read_part_block<H: Hall>(
    alloc: Global,
    hall: &mut H,
    vol: &Vol,
    set: &F1,
    end: Place,
    from: Place,
    buf: &mut ReadBuf,
) -> Result<Option<Block>, WorkErr>
    requires unit { IsOfUnit (H.facts hall.old).units vol.now }
    requires buffer { buf.old.records.geometry ≡ vol.now.geometry }
    requires set { ImageHas H.Hall hall.old vol.now.unit (λ image. IsSetIn image vol.now set.now) }
    requires end { ImageHas H.Hall hall.old vol.now.unit (λ image.
        end ≡ end_in image vol.now set.now) }
    requires readable { ImageHas H.Hall hall.old vol.now.unit (λ image.
        IsReadablePart (part_in image vol.now set.now)) }
    requires held { ImageHas H.Hall hall.old vol.now.unit (λ image. HoldsTrack image buf.old) }
    ensures block { ImageHas H.Hall hall.old vol.now.unit (λ image.
        GivesMembers result (part_in image vol.now set.now) from) }
    ensures onward { IfOk result (λ found. IfSome found (λ b. is_before b.place from ≡ false)) }
    ensures lawful { IfOk result (λ found. IfSome found IsLawfulBlock) }
    ensures held { ImageHas H.Hall hall.old vol.now.unit (λ image. HoldsTrack image buf.new) }
    ensures buffer { buf.new.records.geometry ≡ vol.now.geometry }
    ensures same { IsTrue H.tells → Same (H.meaning hall.old) (H.meaning hall.new) }
    ensures faults { ReportedCall (IsErrOf result WorkErr.Device) (H.facts hall.old)
        (H.facts hall.new) }
{
    if !is_before(end, last_of(set)) {
        return Ok(None);
    }
    read_block(alloc, hall, vol, set, members_from(end, from), buf)
}

/// Whether blocks stand after the directory, and the last of them isn't an end-of-file block.
///
/// As `read_part_into`.
pub fn is_open_ended<H: Hall>(
    hall: &mut H,
    vol: &Vol,
    set: &F1,
    end: Place,
    buf: &mut ReadBuf,
) -> Result<bool, Device>
    requires unit { IsOfUnit (H.facts hall.old).units vol.now }
    requires buffer { buf.old.records.geometry ≡ vol.now.geometry }
    requires set { ImageHas H.Hall hall.old vol.now.unit (λ image. IsSetIn image vol.now set.now) }
    requires end { ImageHas H.Hall hall.old vol.now.unit (λ image.
        end ≡ end_in image vol.now set.now) }
    requires readable { ImageHas H.Hall hall.old vol.now.unit (λ image.
        IsReadablePart (part_in image vol.now set.now)) }
    requires held { ImageHas H.Hall hall.old vol.now.unit (λ image. HoldsTrack image buf.old) }
    ensures answer { ImageHas H.Hall hall.old vol.now.unit (λ image.
        IfOk result (λ is. is ≡ is_open_ended (blocks_of (part_in image vol.now set.now)))) }
    ensures held { ImageHas H.Hall hall.old vol.now.unit (λ image. HoldsTrack image buf.new) }
    ensures buffer { buf.new.records.geometry ≡ vol.now.geometry }
    ensures same { IsTrue H.tells → Same (H.meaning hall.old) (H.meaning hall.new) }
    ensures faults { DeviceCall (H.facts hall.old) (H.facts hall.new) result }
{
    let last = last_of(set);
    if !is_before(end, last) || last.r == 0 {
        return Ok(false);
    }
    match seek_on(hall, vol, set, last, last, buf)? {
        Some(place) => Ok(!is_end_record(&buf.records, place.r)),
        None => Ok(false),
    }
}

// From where the blocks at or after a place are read that stand after a directory's end.
fn members_from(end: Place, from: Place) -> Place
    requires { end.r ≡ 255 → end.tt < 65535 }
    ensures { IsStart end from result }
{
    if is_before(end, from) {
        from
    } else if end.r < u8::MAX {
        Place {
            tt: end.tt,
            r: end.r + 1,
        }
    } else {
        Place {
            tt: end.tt + 1,
            r: 0,
        }
    }
}
