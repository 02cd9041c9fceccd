//! Blocks of the sequential data sets of a pack, and of the members of its partitioned ones.
ghost use Rattle.std.specs.Prelude.{◌≡◌, ℕ, List, Some, false, slice_get, IsTrue, IsErrOf, IfOk, IfSome};
ghost use Rattle.hall_core.specs.Facts.{Attached, DeviceCall, ReportedCall};
ghost use Rattle.hall_core.specs.Images.{image_in};
ghost use Rattle.stop_model.specs.Moments.{Same};
ghost use Rattle.vol_model.specs.Lawful.{IsLawfulBlock};
ghost use Rattle.vol_model.specs.Places.{is_before};
ghost use Rattle.vol_model.specs.Reading.{IsBlank, LeavesBlank, Picks, ReadsInto, blocks_from, first, readable};
ghost use Rattle.vol_model.specs.Writing.{body_on, set_on};
ghost use Rattle.vol_model.specs.declared.contents.Shelf.{Shelf};
ghost use Rattle.vtoc_index.specs.Index.{IsOfUnit};
ghost use Rattle.vtoc_index.specs.Names.{AreByName, name_at};
ghost use Rattle.seq_access.specs.Bodies.{part_in};
ghost use Rattle.seq_access.specs.Reading.{GivesMembers, HoldsTrack, LeavesEmpty, ReadsMembers};
ghost use Rattle.vtoc_sets.specs.Sets.{volume_in};
ghost use Rattle.pack_machine.specs.Blocks.{IsOnImage, IsPartOn};
ghost use Rattle.pack_machine.specs.Ready.{IsReady, Rest};
ghost use Rattle.pack_machine.specs.Reads.{HasVolume, IsSetOn};

use crate::libraries::end_of;
use crate::pack::Pack;
use crate::pack_cache::PackCache;
use crate::reads::{kind_in, set_in};
use dscb_codec::F1;
use ebcdic_names::Dsn;
use hall_core::{Device, Hall};
use seq_access::{read_block, read_into, read_part_block, read_part_into};
use std::alloc::Global;
use vol_model::{Block, BlockBuf, CheckErr, Kind, Place, ReadErr, WorkErr};
use vtoc_index::Vol;

/// Reads the first block of a data set of a pack at or after a place; false where there is none.
///
/// `Device` comes only where the count of device faults rose. No memory is taken.
pub fn read_into_on<H: Hall>(
    hall: &mut H,
    pack: &mut Pack,
    dsn: &Dsn,
    from: Place,
    block: &mut BlockBuf,
) -> Result<bool, CheckErr>
    requires ready { IsReady H.tells (H.facts hall.old) (H.meaning hall.old) pack.old }
    ensures block { let image = image_in (H.meaning hall.old) (H.facts hall.old) pack.old.vol.unit in
        IsTrue H.tells → (shelf : Shelf) (n : ℕ)
        → slice_get shelf.volumes n ≡ Some (volume_in image pack.old.vol)
        → ReadsInto result (readable (body_on shelf n dsn.now.bytes)) from block.new }
    ensures blank { LeavesBlank result block.new }
    ensures onward { IfOk result (λ more. IsTrue more → is_before block.new.place from ≡ false) }
    ensures lawful { IfOk result (λ more. IsTrue more → IsLawfulBlock block.new) }
    ensures rest { Rest (IsErrOf result CheckErr.Device) H.tells (H.facts hall.old) (H.facts hall.new)
        (H.meaning hall.old) (H.meaning hall.new) pack.old pack.new }
{
    block.clear();
    let Some(set) = set_at(&pack.vol, dsn) else {
        return Ok(false);
    };
    match kind_in(&pack.cache, &set) {
        Kind::Seq => match read_into(hall, &pack.vol, &set, from, &mut pack.cache.buf, block) {
            Ok(more) => Ok(more),
            Err(_) => Err(CheckErr::Device),
        },
        Kind::Part => {
            match read_member_into(hall, &mut pack.vol, &mut pack.cache, &set, from, block) {
                Ok(more) => Ok(more),
                Err(_) => Err(CheckErr::Device),
            }
        }
        Kind::Unreadable(track) => Err(CheckErr::Unreadable(track)),
        _ => Ok(false),
    }
}

// The same of a partitioned data set whose body can be read, by its format 1.
fn read_member_into<H: Hall>(
    hall: &mut H,
    vol: &mut Vol,
    known: &mut PackCache,
    set: &F1,
    from: Place,
    block: &mut BlockBuf,
) -> Result<bool, Device>
    requires unit { IsOfUnit (H.facts hall.old).units vol.old }
    requires buffer { known.old.buf.records.geometry ≡ vol.old.geometry }
    requires known { let image = image_in (H.meaning hall.old) (H.facts hall.old) vol.old.unit in
        IsTrue H.tells → IsOnImage image vol.old known.old }
    requires part { let image = image_in (H.meaning hall.old) (H.facts hall.old) vol.old.unit in
        IsTrue H.tells → (on : IsOnImage image vol.old known.old)
        → IsPartOn image vol.old set.now (body_on on.shelf on.number set.now.name) }
    requires blank { IsBlank block.old }
    ensures block { let image = image_in (H.meaning hall.old) (H.facts hall.old) vol.old.unit in
        IsTrue H.tells → ReadsMembers result (part_in image vol.old set.now) from block.new }
    ensures blank { LeavesEmpty result block.new }
    ensures onward { IfOk result (λ more. IsTrue more → is_before block.new.place from ≡ false) }
    ensures lawful { IfOk result (λ more. IsTrue more → IsLawfulBlock block.new) }
    ensures vol { vol.new ≡ vol.old }
    ensures buffer { known.new.buf.records.geometry ≡ vol.old.geometry }
    ensures others { known.new ≡ record known.old { buf = known.new.buf } }
    ensures held { let image = image_in (H.meaning hall.old) (H.facts hall.old) vol.old.unit in
        IsTrue H.tells → HoldsTrack image known.new.buf }
    ensures same { IsTrue H.tells → Same (H.meaning hall.old) (H.meaning hall.new) }
    ensures faults { DeviceCall (H.facts hall.old) (H.facts hall.new) result }
{
    match end_of(hall, vol, known, set) {
        Ok(end) => read_part_into(hall, vol, set, end, from, &mut known.buf, block),
        Err(Device) => Err(Device),
    }
}

/// Gives the first block of a data set of a pack at or after a place.
///
/// `Device` comes only where the count of device faults rose.
pub fn read_block_on<H: Hall>(
    alloc: Global,
    hall: &mut H,
    pack: &mut Pack,
    dsn: &Dsn,
    from: Place,
) -> Result<Option<Block>, ReadErr>
    requires ready { IsReady H.tells (H.facts hall.old) (H.meaning hall.old) pack.old }
    ensures block { let image = image_in (H.meaning hall.old) (H.facts hall.old) pack.old.vol.unit in
        IsTrue H.tells → (shelf : Shelf) (n : ℕ)
        → slice_get shelf.volumes n ≡ Some (volume_in image pack.old.vol)
        → Picks result (readable (body_on shelf n dsn.now.bytes))
        (λ bs. first (blocks_from from bs)) }
    ensures onward { IfOk result (λ found. IfSome found (λ b. is_before b.place from ≡ false)) }
    ensures lawful { IfOk result (λ found. IfSome found IsLawfulBlock) }
    ensures rest { Rest (IsErrOf result ReadErr.Device) H.tells (H.facts hall.old) (H.facts hall.new)
        (H.meaning hall.old) (H.meaning hall.new) pack.old pack.new }
{
    let Some(set) = set_at(&pack.vol, dsn) else {
        return Ok(None);
    };
    match kind_in(&pack.cache, &set) {
        Kind::Seq => match read_block(alloc, hall, &pack.vol, &set, from, &mut pack.cache.buf) {
            Ok(found) => Ok(found),
            Err(WorkErr::Memory) => Err(ReadErr::Memory),
            Err(WorkErr::Device) => Err(ReadErr::Device),
        },
        Kind::Part => {
            match read_member(alloc, hall, &mut pack.vol, &mut pack.cache, &set, from) {
                Ok(found) => Ok(found),
                Err(WorkErr::Memory) => Err(ReadErr::Memory),
                Err(WorkErr::Device) => Err(ReadErr::Device),
            }
        }
        Kind::Unreadable(track) => Err(ReadErr::Unreadable(track)),
        _ => Ok(None),
    }
}

// The same of a partitioned data set whose body can be read, by its format 1.
fn read_member<H: Hall>(
    alloc: Global,
    hall: &mut H,
    vol: &mut Vol,
    known: &mut PackCache,
    set: &F1,
    from: Place,
) -> Result<Option<Block>, WorkErr>
    requires unit { IsOfUnit (H.facts hall.old).units vol.old }
    requires buffer { known.old.buf.records.geometry ≡ vol.old.geometry }
    requires known { let image = image_in (H.meaning hall.old) (H.facts hall.old) vol.old.unit in
        IsTrue H.tells → IsOnImage image vol.old known.old }
    requires part { let image = image_in (H.meaning hall.old) (H.facts hall.old) vol.old.unit in
        IsTrue H.tells → (on : IsOnImage image vol.old known.old)
        → IsPartOn image vol.old set.now (body_on on.shelf on.number set.now.name) }
    ensures block { let image = image_in (H.meaning hall.old) (H.facts hall.old) vol.old.unit in
        IsTrue H.tells → GivesMembers result (part_in image vol.old set.now) from }
    ensures onward { IfOk result (λ found. IfSome found (λ b. is_before b.place from ≡ false)) }
    ensures lawful { IfOk result (λ found. IfSome found IsLawfulBlock) }
    ensures vol { vol.new ≡ vol.old }
    ensures buffer { known.new.buf.records.geometry ≡ vol.old.geometry }
    ensures others { known.new ≡ record known.old { buf = known.new.buf } }
    ensures held { let image = image_in (H.meaning hall.old) (H.facts hall.old) vol.old.unit in
        IsTrue H.tells → HoldsTrack image known.new.buf }
    ensures same { IsTrue H.tells → Same (H.meaning hall.old) (H.meaning hall.new) }
    ensures faults { ReportedCall (IsErrOf result WorkErr.Device) (H.facts hall.old)
        (H.facts hall.new) }
{
    match end_of(hall, vol, known, set) {
        Ok(end) => read_part_block(alloc, hall, vol, set, end, from, &mut known.buf),
        Err(Device) => Err(WorkErr::Device),
    }
}

// The format 1 of the data set of this name, copied.
pub(crate) fn set_at(vol: &Vol, dsn: &Dsn) -> Option<F1>
    requires unit { (units : List Attached) × IsOfUnit units vol.now }
    requires names { AreByName (name_at vol.now.slots.items) vol.now.by_name.items }
    ensures { (shelf : Shelf) (n : ℕ) (has : HasVolume shelf n vol.now) → IsSetOn has.image vol.now
        (set_on shelf n dsn.now.bytes) result }
{
    match set_in(vol, dsn) {
        Some(set) => Some(*set),
        None => None,
    }
}
