//! VOL.
ghost use Rattle.std.specs.Prelude.{◌≡◌};
ghost use Rattle.jcl_forms.specs.Volume.{volume_of};

use crate::parts::parted;
use card_text::volume_serial_of;
use ebcdic_names::Serial;

/// The serial that a value of VOL gives: `SER=serial`.
#[tactic(auto, unfolding(crate::specs::Volume::volume_of))]
pub fn volume_of(text: &[u8]) -> Option<Serial>
    ensures { result ≡ volume_of text.now }
{
    let (key, value) = parted(b'=', text);
    if key == b"SER".as_slice() {
        volume_serial_of(value?)
    } else {
        None
    }
}
