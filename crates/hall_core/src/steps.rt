//! Calls of a hall that a stop leaves undone or done.
ghost use Rattle.std.specs.Prelude.{◌≡◌, ◌+◌, ◌<◌, ◌≤◌, length, IsTrue};
ghost use Rattle.hall_core.specs.Facts.{name_in, size_in, DeviceCall};
ghost use Rattle.stop_model.specs.Files.{written};
ghost use Rattle.stop_model.specs.Moments.{IsDurable};
ghost use Rattle.stop_model.specs.Steps.{StepTo};

use crate::hall::{Hall, HallErr};

/// The device failed, and its count of faults rose: the error of a call that has no other one.
#[derive(Clone, Copy, Debug, PartialEq, Eq)]
pub struct Device;

// For the `?` of `read`, `write` and `sync`, whose one error is `Failed`. `attach` has others: there
// a `?` that makes this error would report a fault that didn't come.
impl From<HallErr> for Device {
    fn from(_: HallErr) -> Self {
        Device
    }
}

/// Writes the bytes over those of the unit, from the offset `at` on, which counts them from 0, and
/// makes them durable.
///
/// No other write may be pending. The error comes only where the count of device faults rose; the
/// write is then pending, or it was not begun.
#[tactic(auto, using(stop_model::proofs::StepLemmas::done_step, stop_model::proofs::StepLemmas::failed_step, stop_model::proofs::StepLemmas::failed_write, stop_model::proofs::StepLemmas::write_then_sync))]
pub fn write_through<H: Hall>(hall: &mut H, unit: u8, at: u64, bytes: &[u8]) -> Result<(), Device>
    requires attached { unit < length (H.facts hall.old).units }
    requires inside { at + length bytes.now ≤ size_in (H.facts hall.old) unit }
    requires durable { IsTrue H.tells → IsDurable (H.meaning hall.old) }
    ensures files { IsTrue H.tells → StepTo (λ files. files)
        (written (H.meaning hall.old).state (name_in (H.facts hall.old) unit) at bytes.now)
        (H.meaning hall.old) (H.meaning hall.new) result }
    ensures faults { DeviceCall (H.facts hall.old) (H.facts hall.new) result }
{
    hall.write(unit, at, bytes)?;
    hall.sync()?;
    Ok(())
}
