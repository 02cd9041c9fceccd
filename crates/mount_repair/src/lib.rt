//! Packs mounted: the index of a pack and what its data sets are, read; and the repair of what a stop left unfinished, in the
//! VTOC and in the directories of partitioned data sets.
#![tactic(auto)]

mod library;
mod repairing;
mod scanned;
mod scanning;
mod walk;

pub use library::{Library, library_of};
pub use repairing::{mount, repair};
pub use scanned::Scan;
pub use scanning::{scan, settled_law};
