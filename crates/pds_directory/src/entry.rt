//! An entry of a directory, as one of a chain of blocks.
ghost use Rattle.std.specs.Prelude.{◌≡◌, IfOk};
ghost use Rattle.std.proofs.Common.{arith};

use sorted_chain::ChainEntry;
use std::alloc::{AllocError, Global};
use std::marker::Model;
use vol_model::{Entry, Text};

// The bytes of an entry without its user data.
pub(crate) const FRONT_LEN: usize = 12;

// The name of the entry that ends a directory.
pub(crate) const END_NAME: [u8; 8] = [0xFF; 8];

// The most bytes of user data of an entry in a chain.
const MOST_USER: usize = 230;

/// An entry of a directory, which stands in a chain of blocks. Contracts see it as the entry that it
/// holds.
#[derive(Debug, Drop)]
pub struct DirEntry {
    entry: Entry,
}

impl Model for DirEntry {
    ghost use Rattle.vol_model.specs.declared.contents.Entry.{Entry};

    ghost Value = { Entry };

    ghost view = { λ x. x.entry };
}

impl DirEntry {
    /// An entry, as one of a chain.
    pub fn new(entry: Entry) -> DirEntry
        ensures { result ≡ entry }
    {
        DirEntry { entry }
    }

    /// The entry that it holds.
    pub fn entry(&self) -> &Entry
        ensures { result.now ≡ self.now }
    {
        &self.entry
    }

    /// Gives that entry away.
    pub fn into_entry(self) -> Entry
        ensures { result ≡ self }
    {
        let DirEntry { entry } = self;
        entry
    }
}

/// A copy of an entry. The error comes if memory runs out.
pub fn copy_of(alloc: Global, entry: &Entry) -> Result<Entry, AllocError>
    ensures { IfOk result (λ copied. copied ≡ entry.now) }
{
    Ok(Entry {
        name: entry.name,
        place: entry.place,
        flags: entry.flags,
        user: Text::from_vec(Vec::from_slice(alloc, entry.user.as_slice())?),
    })
}

impl ChainEntry for DirEntry {
    ghost use Rattle.pack_spec.specs.Directories.{name_number};
    ghost use Rattle.pds_directory.specs.Entries.{chain_size};

    ghost name = { name_number };

    ghost bytes = { chain_size };

    fn size(&self) -> u16 {
        (FRONT_LEN + self.entry.user.len().min(MOST_USER)) as u16
    }

    fn before(&self, other: &Self) -> bool {
        u64::from_be_bytes(self.entry.name.bytes) < u64::from_be_bytes(other.entry.name.bytes)
    }

    fn copy(&self, alloc: Global) -> Result<Self, AllocError> {
        Ok(DirEntry {
            entry: copy_of(alloc, &self.entry)?,
        })
    }

    ghost sizes = { λ e. (Prim.omega arith, Prim.omega arith) };
}
