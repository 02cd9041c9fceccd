//! Where the blocks of an area begin, on a pack.
ghost use Rattle.std.specs.Prelude.{◌≡◌, ℕ, Some, slice_get, IsErrOf, IsTrue, IfErr, IfOk};
ghost use Rattle.hall_core.specs.Facts.{DeviceCall};
ghost use Rattle.hall_core.specs.Images.{image_in};
ghost use Rattle.stop_model.specs.Moments.{Same};
ghost use Rattle.seq_access.specs.Bodies.{part_in};
ghost use Rattle.seq_access.specs.Reading.{HoldsTrack};
ghost use Rattle.vol_model.specs.Writing.{body_on};
ghost use Rattle.vol_model.specs.declared.contents.Shelf.{Shelf};
ghost use Rattle.vtoc_index.specs.Index.{IsOfUnit};
ghost use Rattle.vtoc_sets.specs.Sets.{volume_in};
ghost use Rattle.pack_machine.specs.Blocks.{IsOnImage, IsPartOn};
ghost use Rattle.pack_machine.specs.Fronts.{IsFrontOf};
ghost use Rattle.pack_machine.specs.Ready.{IsReady, Rest};

use crate::blocks::set_at;
use crate::libraries::end_of;
use crate::pack::Pack;
use crate::pack_cache::PackCache;
use crate::reads::kind_in;
use dscb_codec::F1;
use ebcdic_names::Dsn;
use hall_core::{Device, Hall};
use seq_access::is_open_ended;
use vol_model::{Kind, MachErr, Place};
use vtoc_index::Vol;

/// Where a writer begins: after the directory of a partitioned data set, with an end-of-file block in front where the last
/// member has none.
#[derive(Clone, Copy, Debug)]
pub struct AreaStart {
    /// The place of the directory's end-of-file record.
    pub end: Option<Place>,
    /// Whether an end-of-file block goes in front of what is put.
    pub owes_end_of_file: bool,
}

/// Where a writer of any other data set begins.
pub const NO_AREA_START: AreaStart = AreaStart {
    end: None,
    owes_end_of_file: false,
};

/// Where a writer of an area of a data set of a pack begins. No memory is taken.
///
/// `Device` comes only where the count of device faults rose.
pub fn area_start_on<H: Hall>(
    hall: &mut H,
    pack: &mut Pack,
    dsn: &Dsn,
) -> Result<AreaStart, MachErr>
    requires ready { IsReady H.tells (H.facts hall.old) (H.meaning hall.old) pack.old }
    ensures front { let image = image_in (H.meaning hall.old) (H.facts hall.old) pack.old.vol.unit in
        IsTrue H.tells → (shelf : Shelf) (n : ℕ)
        → slice_get shelf.volumes n ≡ Some (volume_in image pack.old.vol)
        → IfOk result (λ front. IsFrontOf front (body_on shelf n dsn.now.bytes)) }
    ensures rest { Rest (IsErrOf result MachErr.Device) H.tells (H.facts hall.old) (H.facts hall.new)
        (H.meaning hall.old) (H.meaning hall.new) pack.old pack.new }
    ensures error { IfErr result (λ e. e ≡ MachErr.Device) }
{
    let Some(set) = set_at(&pack.vol, dsn) else {
        return Ok(NO_AREA_START);
    };
    match kind_in(&pack.cache, &set) {
        Kind::Part => match front_in(hall, &mut pack.vol, &mut pack.cache, &set) {
            Ok(front) => Ok(front),
            Err(_) => Err(MachErr::Device),
        },
        _ => Ok(NO_AREA_START),
    }
}

// The same of a partitioned data set whose body can be read, by its format 1.
fn front_in<H: Hall>(
    hall: &mut H,
    vol: &mut Vol,
    known: &mut PackCache,
    set: &F1,
) -> Result<AreaStart, Device>
    requires unit { IsOfUnit (H.facts hall.old).units vol.old }
    requires buffer { known.old.buf.records.geometry ≡ vol.old.geometry }
    requires known { let image = image_in (H.meaning hall.old) (H.facts hall.old) vol.old.unit in
        IsTrue H.tells → IsOnImage image vol.old known.old }
    requires part { let image = image_in (H.meaning hall.old) (H.facts hall.old) vol.old.unit in
        IsTrue H.tells → (on : IsOnImage image vol.old known.old)
        → IsPartOn image vol.old set.now (body_on on.shelf on.number set.now.name) }
    ensures front { let image = image_in (H.meaning hall.old) (H.facts hall.old) vol.old.unit in
        IsTrue H.tells → IfOk result (λ front. IsFrontOf front (part_in image vol.old set.now)) }
    ensures vol { vol.new ≡ vol.old }
    ensures buffer { known.new.buf.records.geometry ≡ vol.old.geometry }
    ensures others { known.new ≡ record known.old { buf = known.new.buf } }
    ensures held { let image = image_in (H.meaning hall.old) (H.facts hall.old) vol.old.unit in
        IsTrue H.tells → HoldsTrack image known.new.buf }
    ensures same { IsTrue H.tells → Same (H.meaning hall.old) (H.meaning hall.new) }
    ensures faults { DeviceCall (H.facts hall.old) (H.facts hall.new) result }
{
    match end_of(hall, vol, known, set) {
        Ok(end) => match is_open_ended(hall, vol, set, end, &mut known.buf) {
            Ok(owes_end_of_file) => Ok(AreaStart {
                end: Some(end),
                owes_end_of_file,
            }),
            Err(fault) => Err(fault),
        },
        Err(fault) => Err(fault),
    }
}
