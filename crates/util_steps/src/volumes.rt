//! The volumes of the shelf by their serials.
ghost use Rattle.std.specs.Prelude.{◌≡◌, IsTrue};
ghost use Rattle.vol_model.specs.Shelf.{number_of};

use ebcdic_names::Serial;
use vol_model::Machine;

/// The number of the volume with a serial, from 0, if the shelf has one.
pub fn find_volume<M: Machine>(machine: &M, serial: &Serial) -> Option<u8>
    requires { IsTrue (M.status machine.now).is_sound }
    ensures { IsTrue M.tells → result ≡ number_of (M.meaning machine.now).state serial.now.bytes }
{
    let mut v: u8 = 0;
    loop {
        match machine.volume(v) {
            Some(info) if info.serial == *serial => return Some(v),
            Some(_) => {}
            None => return None,
        }
        match v.checked_add(1) {
            Some(next) => v = next,
            None => return None,
        }
    }
}
