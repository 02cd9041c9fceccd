//! What a block of the catalog holds.
ghost use Rattle.std.specs.Prelude.{◌≡◌, IfOk};
ghost use Rattle.std.proofs.Common.{arith};

use ebcdic_names::Name8;
use sorted_chain::ChainEntry;
use std::alloc::{AllocError, Global};
use vol_model::{Listed, Place, Text};

// The bytes of an entry without its data.
pub(crate) const FRONT_LEN: usize = 12;

// The most bytes of data that fit a block beside a link entry.
const MOST_DATA: usize = 230;

/// An entry of the catalog.
#[derive(Debug, PartialEq, Eq, Drop)]
pub struct CatEntry {
    /// Its name; under a group the stored form of a generation's name.
    pub name: Name8,
    /// Its TTR: of an index or a group that of its first block, relative to the catalog's first track.
    pub place: Place,
    /// The data after the TTR and the count of halfwords: an even number of bytes, at most 230 in a chain.
    pub payload: Text,
}

/// Entries in the order of their names.
pub type CatEntries = Listed<CatEntry>;

/// A block of the catalog.
#[derive(Debug, PartialEq, Eq, Drop)]
pub struct CatBlock {
    /// Its entries but for the link entry that ends it; they take at most 242 bytes.
    pub entries: CatEntries,
    /// The TTR of the next block in the chain, or zeros in the last.
    pub next: Place,
}

/// Why a block can't be read.
#[derive(Clone, Copy, Debug, PartialEq, Eq, Drop)]
pub enum BadBlock {
    /// Memory ran out.
    Memory,
    /// The first byte that breaks the form of a block, from 0.
    At(u16),
}

impl ChainEntry for CatEntry {
    ghost use Rattle.catalog_blocks.specs.Blocks.{chain_size, name_number};

    ghost name = { name_number };

    ghost bytes = { chain_size };

    fn size(&self) -> u16 {
        (FRONT_LEN + self.payload.len().min(MOST_DATA)) as u16
    }

    fn before(&self, other: &Self) -> bool {
        u64::from_be_bytes(self.name.bytes) < u64::from_be_bytes(other.name.bytes)
    }

    fn copy(&self, alloc: Global) -> Result<Self, AllocError> {
        Ok(CatEntry {
            name: self.name,
            place: self.place,
            payload: Text::from_vec(Vec::from_slice(alloc, self.payload.as_slice())?),
        })
    }

    ghost sizes = { λ e. (Prim.omega arith, Prim.omega arith) };
}
