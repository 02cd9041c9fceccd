//! What a machine in memory did, and what is written by it.
use ebcdic_names::Dsn;
use plain_steps::Contents;
use vol_model::{Mode, Volume};

// Something that it did; with this, what it held before is found back.
#[derive(Debug, Drop)]
pub(crate) enum Done {
    // The volume of this number was changed, and was this one before.
    Changed { v: usize, before: Volume },
    // Bytes were printed after so many.
    Printed(usize),
}

// A data set that is written to, and what for.
#[derive(Clone, Copy, Debug)]
pub(crate) struct Target {
    pub(crate) v: u8,
    pub(crate) dsn: Dsn,
    pub(crate) mode: Mode,
}

// An open writer: what it writes to, and the keys and data that were put so far.
#[derive(Debug, Drop)]
pub(crate) struct Writer {
    pub(crate) target: Target,
    pub(crate) puts: Contents,
}
