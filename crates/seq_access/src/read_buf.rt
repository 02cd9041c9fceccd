//! A buffer for the track of a data set that was read last.
ghost use Rattle.std.specs.Prelude.{◌≡◌, IfOk};

use ckd_image::Geometry;
use std::alloc::{AllocError, Global};
use track_records::TrackBuf;

/// How far a track was read into a buffer.
#[derive(Clone, Copy, Debug, PartialEq, Eq)]
pub enum Reach {
    /// Not at all.
    Nothing,
    /// Up to the record of this number.
    UpTo(u8),
    /// To its end marker.
    Whole,
}

/// The records of the track that was read last, and how far it was read.
#[derive(Debug, Drop)]
pub struct ReadBuf {
    /// The records.
    pub records: TrackBuf,
    /// How far their track was read.
    pub reach: Reach,
}

impl ReadBuf {
    /// A buffer for the tracks of a pack of this geometry, into which none was read. Fails only for want of memory.
    pub fn new(alloc: Global, geometry: &Geometry) -> Result<ReadBuf, AllocError>
        ensures { IfOk result (λ b. (b.reach ≡ Reach.Nothing)
            × (b.records.geometry ≡ geometry.now)) }
    {
        Ok(ReadBuf {
            records: TrackBuf::new(alloc, geometry)?,
            reach: Reach::Nothing,
        })
    }

    /// Forgets what was read, as after a write to the track.
    pub fn forget(&mut self)
        ensures { self.new ≡ record self.old { reach = Reach.Nothing } }
    {
        self.reach = Reach::Nothing;
    }
}
