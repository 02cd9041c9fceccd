//! The abstract volume: what a disk pack of OS/360 holds, without a slot, a chain or a bit of it, and the words in
//! which operations on it are asked for and answered.
#![tactic(auto)]

mod answers;
mod buffers;
mod catalogs;
mod contents;
mod lines;
mod machine;
mod moving;
mod quiet;
mod refusals;
mod requests;

pub use answers::{
    BadTtr, CheckErr, Kind, MachErr, Mode, ReadErr, SetInfo, Stop, StoreErr, VolumeInfo, WorkErr,
};
pub use buffers::BlockBuf;
pub use catalogs::{CatBody, CatNode, CatPath, Names, Nodes, VolRef, VolRefs};
pub use contents::{
    Attr, Block, Blocks, Body, DataSet, DataSets, Entries, Entry, Place, Run, Runs, Shelf, Volume,
    Volumes,
};
pub use ebcdic_names::{Listed, Text};
pub use lines::Line;
pub use machine::Machine;
pub use moving::move_ttrs;
pub use quiet::Quiet;
pub use refusals::Refusal;
pub use requests::{Op, Request, SpaceUnit, is_catalog, volume_number};

/// The most units that are mounted together.
pub const MAX_UNITS: usize = 8;

/// The most blocks of a new directory.
pub const MAX_DIR: u32 = 2_000;
