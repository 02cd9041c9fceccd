//! A pack as it was read.
use crate::library::Library;
use ebcdic_names::Dsn;
use stow_ops::Packing;
use vol_model::Kind;
use vtoc_index::Vol;

/// A pack that was read.
#[derive(Drop)]
pub struct Scan {
    /// Its index, with room for the free runs that it may come to have.
    pub vol: Vol,
    /// The names of its data sets, in order (EBCDIC bytes), each with the kind of its body. One that can't be read has the
    /// first relative track, from 0, that breaks it.
    pub volume: Vec<(Dsn, Kind)>,
    /// Whether it is settled.
    pub settled: bool,
    /// Its directories that are packed.
    pub libraries: Vec<Library>,
    // Its directories that aren't.
    pub(crate) unpacked: Vec<Unpacked>,
}

// A directory that isn't packed: the slot of its data set, and how it comes to be packed.
#[derive(Drop)]
pub(crate) struct Unpacked {
    pub(crate) slot: u32,
    pub(crate) packing: Packing,
}
