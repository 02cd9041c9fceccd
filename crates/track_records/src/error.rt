//! Why a track isn't read.

/// Why the records of a track aren't read.
#[derive(Clone, Copy, Debug, PartialEq, Eq)]
pub enum TrackErr {
    /// The track breaks the grammar as far as it was to be read. The count of device faults stands
    /// still.
    BadCount {
        /// The offset of the first byte that no such track has there, or the number of bytes where they
        /// run out; from 0, in bytes from the track's home address.
        at: u32,
    },
    /// The device failed, and its count of faults rose: the track wasn't read.
    Device,
}
