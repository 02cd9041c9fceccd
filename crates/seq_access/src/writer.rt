//! What writes blocks after those of a sequential or partitioned data set.
ghost use Rattle.std.specs.Prelude.{◌≡◌};
ghost use Rattle.seq_access.specs.declared.writer.PutErr.TheVariants as put_err;

use hall_core::Device as DeviceFault;
use vol_model::Place;

/// A writer that is open on a sequential or partitioned data set.
#[derive(Clone, Copy, Debug)]
pub struct Writer {
    /// The slot of the set's format 1.
    pub slot: u32,
    /// Where the last block stands, put or not; of a sequential set without blocks, record 0 of track 0; of a partitioned
    /// one without them, its directory's end-of-file record.
    pub last: Place,
    /// How many blocks were put so far; the count stays at its type's end.
    pub blocks: u32,
}

/// Why a block wasn't put.
#[derive(Clone, Copy, Debug, PartialEq, Eq)]
pub enum PutErr {
    /// The set owns no track for it.
    NeedExtent,
    /// It fits no track of the device.
    TooLong,
    /// A device failed.
    Device,
}

impl From<DeviceFault> for PutErr {
    ghost from_gives = { λ _ e. e ≡ put_err.Device };

    fn from(_fault: DeviceFault) -> PutErr {
        PutErr::Device
    }
}
