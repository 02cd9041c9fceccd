//! The directory of a partitioned data set, as it was read.
ghost use Rattle.std.specs.Prelude.{◌≡◌, IfOk};
ghost use Rattle.pds_directory.specs.Directories.{IsLawfulDir};
ghost use Rattle.mount_repair.specs.LibraryProps.{IsLawfulLibrary, library_props};

use pds_directory::{Dir, DirEntry};
use sorted_chain::kept;
use std::alloc::{AllocError, Global};

/// The directory of the partitioned data set that begins on a track.
#[derive(Drop)]
pub struct Library {
    /// The track of the volume, from 0.
    pub start: u16,
    /// The directory.
    pub dir: Dir,
    /// Its entries that count, in the order of their names.
    pub entries: Vec<DirEntry>,
    pub ghost lawful: { IsLawfulLibrary dir entries.items } by { Prim.hlevel library_props },
}

/// The library of a directory that was read, of a data set that begins on this track. Fails only for want of memory.
pub fn library_of(alloc: Global, dir: Dir, start: u16) -> Result<Library, AllocError>
    requires { IsLawfulDir dir }
    ensures { IfOk result (λ l. (l.dir ≡ dir) × (l.start ≡ start)) }
{
    let entries = kept(alloc, &dir.blocks)?;
    Ok(Library {
        start,
        dir,
        entries,
    })
}
