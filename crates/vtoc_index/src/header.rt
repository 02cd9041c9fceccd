//! The header of a pack.
ghost use Rattle.std.specs.Prelude.{◌≡◌, ◌<◌, length, take, IsTrue, IfOk, IfErr, IsErrOf, Ok};
ghost use Rattle.ckd_image.specs.Header.{HasGeometry, geometry_of};
ghost use Rattle.hall_core.specs.Facts.{unit_of};
ghost use Rattle.hall_core.specs.Images.{image_in};
ghost use Rattle.stop_model.specs.Moments.{Same};
ghost use Rattle.pack_spec.specs.Volume.{volume_of};
ghost use Rattle.vtoc_index.specs.Calls.{MountCall};
ghost use Rattle.vtoc_index.specs.Reading.{Refuses};

use ckd_image::{Geometry, HEADER_LEN, Header, ImageErr};
use hall_core::Hall;
use pack_spec::MountErr;

// The geometry of a unit's image, by its header; one read, and none of a file too short for one.
pub(crate) fn read_geometry<H: Hall>(hall: &mut H, unit: u8) -> Result<Geometry, MountErr>
    requires { unit < length (H.facts hall.old).units }
    ensures whole { IfOk result (HasGeometry (unit_of (H.facts hall.old).units unit).size) }
    ensures read { let image = image_in (H.meaning hall.old) (H.facts hall.old) unit in
        IsTrue H.tells → IfOk result (λ g. geometry_of (take 512 image) (length image) ≡ Ok g) }
    ensures refused { let image = image_in (H.meaning hall.old) (H.facts hall.old) unit in
        IsTrue H.tells → IfErr result (Refuses (volume_of image)) }
    ensures files { IsTrue H.tells → Same (H.meaning hall.old) (H.meaning hall.new) }
    ensures faults { MountCall (H.facts hall.old) (H.facts hall.new) result }
    ensures file { IsErrOf result MountErr.NoFile → ⊥ }
{
    let len = hall.size(unit);
    if len < HEADER_LEN as u64 {
        return Err(MountErr::Image(ImageErr::BadMagic));
    }
    let mut header = [0; HEADER_LEN];
    let Ok(()) = hall.read(unit, 0, &mut header) else {
        return Err(MountErr::Device);
    };
    match Header::read(&header, len) {
        Ok(geometry) => Ok(geometry),
        Err(fault) => Err(MountErr::Image(fault)),
    }
}
