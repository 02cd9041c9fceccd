//! What is asked of the volumes that are mounted.
ghost use Rattle.std.specs.Prelude.{◌≡◌};
ghost use Rattle.vol_model.specs.Shelf.{is_catalog, volume_number};

use crate::catalogs::{CatPath, VolRefs};
use crate::contents::{Attr, Blocks, Entry};
use ebcdic_names::{Dsn, Name8};

// SYSCTLG in EBCDIC, with blanks after it.
const CATALOG_NAME: [u8; 44] = [
    0xE2, 0xE8, 0xE2, 0xC3, 0xE3, 0xD3, 0xC7, 0x40, 0x40, 0x40, 0x40, 0x40, 0x40, 0x40, 0x40, 0x40,
    0x40, 0x40, 0x40, 0x40, 0x40, 0x40, 0x40, 0x40, 0x40, 0x40, 0x40, 0x40, 0x40, 0x40, 0x40, 0x40,
    0x40, 0x40, 0x40, 0x40, 0x40, 0x40, 0x40, 0x40, 0x40, 0x40, 0x40, 0x40,
];

/// Whether it is SYSCTLG, the name of the data set that holds the catalog.
pub fn is_catalog(name: &Dsn) -> bool
    ensures { result ≡ is_catalog name.now.bytes }
{
    name.bytes == CATALOG_NAME
}

/// The unit of a request for space.
#[derive(Clone, Copy, Debug, PartialEq, Eq)]
pub enum SpaceUnit {
    /// Single tracks.
    Track,
    /// Whole cylinders.
    Cylinder,
}

/// A request for space.
#[derive(Clone, Copy, Debug, PartialEq, Eq)]
pub struct Request {
    /// The unit of both quantities.
    pub unit: SpaceUnit,
    /// The quantity that a new data set is given; it may be 0.
    pub primary: u32,
    /// The quantity that each extension gives it, below 2^24; 0 for none.
    pub secondary: u32,
    /// Whether the primary quantity must lie in one run.
    pub contig: bool,
}

/// An elementary operation, which is done as a whole or not at all.
#[derive(Debug, PartialEq, Eq, Drop)]
pub enum Op {
    /// A new data set, on tracks that are chosen for it.
    Allocate {
        /// The volume's number on the shelf, from 0.
        v: u8,
        /// The name of the set.
        dsn: Dsn,
        /// Its attributes.
        attr: Attr,
        /// The tracks asked for. The flags and the secondary quantity of the attributes come from here.
        request: Request,
        /// The blocks of its directory, at most 2,000; above 0 for a partitioned set, and 0 for each other.
        dir: u32,
    },
    /// More tracks for a data set, by its secondary quantity.
    Extend {
        /// The volume's number on the shelf, from 0.
        v: u8,
        /// The name of the set.
        dsn: Dsn,
    },
    /// A data set goes; with SYSCTLG the catalog goes.
    Scratch {
        /// The volume's number on the shelf, from 0.
        v: u8,
        /// The name of the set.
        dsn: Dsn,
    },
    /// Gives a data set another name; neither may be SYSCTLG.
    Rename {
        /// The volume's number on the shelf, from 0.
        v: u8,
        /// The name of the set.
        old: Dsn,
        /// Its name afterwards, which no set of the volume has yet.
        new: Dsn,
    },
    /// The blocks of a data set go, and a set without an organization becomes sequential.
    Empty {
        /// The volume's number on the shelf, from 0.
        v: u8,
        /// The name of the set.
        dsn: Dsn,
        /// The attributes whose record format, option codes, block, record and key length and key place it takes.
        attr: Attr,
    },
    /// Blocks after those of a sequential set.
    Fill {
        /// The volume's number on the shelf, from 0.
        v: u8,
        /// The name of the set.
        dsn: Dsn,
        /// The blocks. Where they are placed follows from the set.
        blocks: Blocks,
    },
    /// Blocks of a member after those of a partitioned set, with an end-of-file block after them.
    Area {
        /// The volume's number on the shelf, from 0.
        v: u8,
        /// The name of the set.
        dsn: Dsn,
        /// The blocks. Where they are placed follows from the set.
        blocks: Blocks,
    },
    /// An entry is put into a directory.
    Enter {
        /// The volume's number on the shelf, from 0.
        v: u8,
        /// The name of the set.
        dsn: Dsn,
        /// The entry.
        entry: Entry,
        /// Whether one of its name is replaced.
        replace: bool,
    },
    /// An entry goes.
    Drop {
        /// The volume's number on the shelf, from 0.
        v: u8,
        /// The name of the set.
        dsn: Dsn,
        /// The entry's name.
        name: Name8,
    },
    /// A new index in the catalog.
    BuildIndex {
        /// The volume's number on the shelf, from 0.
        v: u8,
        /// The way to it; its parent is the root or an index.
        path: CatPath,
    },
    /// A new generation data group in the catalog.
    BuildGroup {
        /// The volume's number on the shelf, from 0.
        v: u8,
        /// The way to it; its parent is the root or an index.
        path: CatPath,
        /// The number of generations that it keeps, 1 to 255.
        limit: u8,
        /// Whether all generations go when one more than the limit comes, and not the oldest alone.
        empty: bool,
        /// Whether a generation that goes is scratched.
        delete: bool,
    },
    /// An index or a group without nodes below it goes, or an alias.
    DropNode {
        /// The volume's number on the shelf, from 0.
        v: u8,
        /// The way to it.
        path: CatPath,
    },
    /// A data set is cataloged.
    Catalog {
        /// The volume's number on the shelf, from 0.
        v: u8,
        /// The way to it; under a group its last name is GnnnnVnn.
        path: CatPath,
        /// The volumes on which it stands, 1 to 5.
        vols: VolRefs,
        /// Whether a set that is cataloged at the path is replaced.
        replace: bool,
    },
    /// A data set is cataloged no more.
    Uncatalog {
        /// The volume's number on the shelf, from 0.
        v: u8,
        /// The way to it.
        path: CatPath,
    },
    /// Another name, at the root of the catalog, for an index there.
    Alias {
        /// The volume's number on the shelf, from 0.
        v: u8,
        /// The new name.
        name: Name8,
        /// The name of the index.
        of: Name8,
    },
}

/// The number of the volume that an operation is on.
pub fn volume_number(op: &Op) -> u8
    ensures { result ≡ volume_number op.now }
{
    match op {
        Op::Allocate { v, .. }
        | Op::Extend { v, .. }
        | Op::Scratch { v, .. }
        | Op::Rename { v, .. }
        | Op::Empty { v, .. }
        | Op::Fill { v, .. }
        | Op::Area { v, .. }
        | Op::Enter { v, .. }
        | Op::Drop { v, .. }
        | Op::BuildIndex { v, .. }
        | Op::BuildGroup { v, .. }
        | Op::DropNode { v, .. }
        | Op::Catalog { v, .. }
        | Op::Uncatalog { v, .. }
        | Op::Alias { v, .. } => *v,
    }
}
