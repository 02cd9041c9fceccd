//! Why a new pack isn't made.
ghost use Rattle.std.specs.Prelude.{◌≡◌};
ghost use Rattle.pack_init.specs.declared.error.InitErr.TheVariants as init;
ghost use Rattle.pack_init.specs.Init.{error_of};

use hall_core::{Device, HallErr};
use std::alloc::AllocError;

/// Why a new pack isn't made.
#[derive(Clone, Copy, Debug, PartialEq, Eq)]
pub enum InitErr {
    /// A file has the name.
    Exists,
    /// Memory ran out, and nothing was made.
    Memory,
    /// The device failed, and its count of faults rose. No file is made then, or one that isn't mounted,
    /// or the whole new pack.
    Device,
}

impl From<AllocError> for InitErr {
    ghost from_gives = { λ _ e. e ≡ init.Memory };

    fn from(_: AllocError) -> InitErr {
        InitErr::Memory
    }
}

impl From<Device> for InitErr {
    ghost from_gives = { λ _ e. e ≡ init.Device };

    fn from(_: Device) -> InitErr {
        InitErr::Device
    }
}

impl From<HallErr> for InitErr {
    ghost from_gives = { λ why e. e ≡ error_of why };

    fn from(why: HallErr) -> InitErr {
        match why {
            HallErr::Exists => InitErr::Exists,
            HallErr::Memory => InitErr::Memory,
            HallErr::Missing => InitErr::Device,
            HallErr::Failed => InitErr::Device,
        }
    }
}
