//! Addresses of tracks, and of records on them.
ghost use Rattle.std.specs.Prelude.{◌≡◌, ℕ, ◌≤◌, ◌<◌, ◌+◌, length, slice_range, IsTrue};
ghost use Rattle.std.specs.Int.{w16, from_be_bytes};
ghost use Rattle.ckd_image.specs.Header.{HasGeometry};
ghost use Rattle.pack_spec.specs.Label.{address_at, is_inside, track_of_address, tracks_of};
ghost use Rattle.pack_spec.specs.Slots.{record_address};

use ckd_image::Geometry;

/// The address CCHH of a track: a cylinder and a head, both counted from 0.
#[derive(Clone, Copy, Debug, PartialEq, Eq)]
pub struct Address {
    /// CC, two bytes on the pack, the high one first.
    pub cylinder: u16,
    /// HH, the same.
    pub head: u16,
}

impl Address {
    /// The address that stands at an offset of some bytes: CC and then HH, two bytes each, the high one first.
    pub fn read(bytes: &[u8], at: usize) -> Address
        requires { at + 4 ≤ length bytes.now }
        ensures { result ≡ address_at at bytes.now }
    {
        Address {
            cylinder: halfword_at(bytes, at),
            head: halfword_at(bytes, at + 2),
        }
    }

    /// Whether the image has the track.
    pub fn is_inside(self, geometry: Geometry) -> bool
        ensures { result ≡ is_inside geometry self }
    {
        self.cylinder < geometry.cylinders && self.head < geometry.device.heads()
    }

    /// The number of the track, which is one of the image, counted from 0 over the volume.
    pub fn track(self, geometry: Geometry) -> u16
        requires whole { (len : ℕ) × HasGeometry len geometry }
        requires inside { IsTrue (is_inside geometry self) }
        ensures exact { result ≡ track_of_address geometry self }
        ensures bound { result < tracks_of geometry }
    {
        self.cylinder * geometry.device.heads() + self.head
    }
}

// The number in two bytes at an offset.
fn halfword_at(bytes: &[u8], at: usize) -> u16
    requires { at + 2 ≤ length bytes.now }
    ensures { result ≡ from_be_bytes w16 (slice_range bytes.now at (at + 2)) }
{
    u16::from_be_bytes([bytes[at], bytes[at + 1]])
}

/// The address CCHHR of a record, R 1 to 255, on a track, which is counted from 0 over the volume: CC and HH,
/// two bytes each with the high one first, and R.
pub fn record_address(geometry: Geometry, track: u16, number: u8) -> [u8; 5]
    ensures { result ≡ record_address geometry track number }
{
    let heads = geometry.device.heads();
    let [cc_high, cc_low] = (track / heads).to_be_bytes();
    let [hh_high, hh_low] = (track % heads).to_be_bytes();
    [cc_high, cc_low, hh_high, hh_low, number]
}
