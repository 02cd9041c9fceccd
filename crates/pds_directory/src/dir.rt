//! A directory as it was read.
use crate::entry::DirEntry;
use vol_model::Place;

/// The directory of a partitioned data set.
#[derive(Debug, Drop)]
pub struct Dir {
    /// The entries of each block, up to the one that ends the directory.
    pub blocks: Vec<Vec<DirEntry>>,
    /// The places of all blocks in front of the directory's end-of-file record.
    pub places: Vec<Place>,
    /// The place of that record.
    pub end: Place,
}

/// A directory that was read for a walk over all records of its data set.
#[derive(Debug, Drop)]
pub struct DirWalk {
    /// The directory.
    pub dir: Dir,
    /// Whether the track with its end-of-file record was read to its end marker. The buffer of the index holds the track's
    /// records then.
    pub whole: bool,
}
