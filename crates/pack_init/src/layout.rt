//! Where the tracks of an image begin.
ghost use Rattle.std.specs.Prelude.{◌≡◌, ◌≤◌, ◌<◌, ◌^◌};
ghost use Rattle.pack_spec.specs.Label.{tracks_of};
ghost use Rattle.pack_spec.specs.New.{IsNewPack, address_of};
ghost use Rattle.pack_init.specs.Layout.{offset_of};

use ckd_image::{Geometry, HEADER_LEN};
use pack_spec::Address;

/// The tracks of a pack.
pub fn tracks_of(geometry: &Geometry, vtoc: u16) -> u16
    requires { IsNewPack geometry.now vtoc }
    ensures { result ≡ tracks_of geometry.now }
{
    geometry.cylinders * geometry.device.heads()
}

/// The bytes of an image before a track, which is counted from 0 over the pack.
pub fn offset_of(geometry: &Geometry, track: u16) -> u64
    ensures { result ≡ offset_of geometry.now track }
{
    HEADER_LEN as u64 + u64::from(track) * u64::from(geometry.track_size)
}

/// The address of a track, which is counted from 0 over the pack.
pub fn address_of(geometry: &Geometry, track: u16) -> Address
    ensures { result ≡ address_of geometry.now track }
{
    let heads = geometry.device.heads();
    Address {
        cylinder: track / heads,
        head: track % heads,
    }
}
