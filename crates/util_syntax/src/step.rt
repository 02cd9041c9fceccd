//! The step that a utility runs in, with its DDs.
ghost use Rattle.std.specs.Prelude.{◌≡◌, [], length, slice_get, option_map, IsTrue, ◌↔◌, OnOk, OnErr};
ghost use Rattle.std.specs.Option.{option_copied};
ghost use Rattle.std.specs.Map.{lookup};
ghost use Rattle.indexmap.specs.IndexMap.{insert_entry};
ghost use Rattle.util_syntax.specs.Step.{same_name};

use card_text::{Card, Text};
use ebcdic_names::{Dsn, Name8};
use indexmap::IndexMap;
use jcl_forms::Dcb;
use std::alloc::{AllocError, Global};
use std::marker::Model;
use vol_model::Listed;

/// Data cards, each after its number in the deck.
pub type DataCards = Listed<(u32, Card)>;

/// What a DD gives to the program of a step.
#[derive(Debug, Drop)]
pub enum DdIn {
    /// Nothing.
    Dummy,
    /// The printer.
    Sysout,
    /// The cards that follow it in the deck.
    Cards(DataCards),
    /// A data set.
    Set {
        /// The number of its volume on the shelf, from 0.
        v: u8,
        /// Its name.
        dsn: Dsn,
        /// The member that is meant, if the DD names one.
        member: Option<Name8>,
        /// Whether records go after those that it has.
        append: bool,
        /// The attributes that the DD gives.
        dcb: Dcb,
    },
}

// The name of a DD as a key.
#[derive(Clone, Copy, Debug, PartialEq, Eq, Hash)]
pub struct DdKey {
    pub bytes: [u8; 8],
}

// The key of a name.
fn key_of(name: Name8) -> DdKey
    ensures { result.bytes ≡ name.bytes }
{
    let bytes = name.bytes;
    DdKey { bytes }
}

// The name of a key.
fn name_of_key(key: DdKey) -> Name8
    ensures { result.bytes ≡ key.bytes }
{
    let bytes = key.bytes;
    Name8 { bytes }
}

/// The DDs of a step by their names, in the order of the deck, which contracts see as the list of names and DDs.
#[derive(Drop)]
pub struct DdTable {
    map: IndexMap<DdKey, DdIn>,
}

impl Model for DdTable {
    ghost use Rattle.std.specs.Prelude.{List, map as list_map};
    ghost use Rattle.ebcdic_names.specs.declared.names.Name8.{Name8};
    ghost use Rattle.util_syntax.specs.declared.step.DdIn.{DdIn};
    ghost use Rattle.util_syntax.specs.Step.{named};

    ghost Value = { List (Name8 × DdIn) };

    ghost view = { λ table. list_map named table.map.entries };
}

impl DdTable {
    /// The table of no DD, which takes no memory yet.
    pub fn new(alloc: Global) -> Self
        ensures { result ≡ [] }
    {
        Self {
            map: IndexMap::new(alloc),
        }
    }

    /// Puts a DD after the others, or in the place of the one that has its name. An error leaves all as it was.
    pub fn insert(&mut self, name: Name8, dd: DdIn) -> Result<(), AllocError>
        ensures ok { OnOk result (self.new ≡ insert_entry same_name self.old name dd) }
        ensures err { OnErr result (self.new ≡ self.old) }
    {
        let key = key_of(name);
        self.map.insert(key, dd)?;
        Ok(())
    }

    /// The DD of a name, if there is one.
    pub fn get(&self, name: &Name8) -> Option<&DdIn>
        ensures { option_copied result ≡ lookup (same_name name.now) self.now }
    {
        let key = key_of(*name);
        self.map.get(&key)
    }

    /// The DD at this place of the deck's order, from 0, with its name.
    pub fn get_index(&self, at: usize) -> Option<(Name8, &DdIn)>
        ensures { option_map (λ dd. (dd.0, dd.1.now)) result ≡ slice_get self.now at }
    {
        match self.map.get_index(at) {
            Some((key, dd)) => Some((name_of_key(*key), dd)),
            None => None,
        }
    }

    /// The number of DDs.
    pub fn len(&self) -> usize
        ensures { result ≡ length self.now }
    {
        self.map.len()
    }

    /// Whether there is no DD.
    pub fn is_empty(&self) -> bool
        ensures { IsTrue result ↔ (self.now ≡ []) }
    {
        self.map.is_empty()
    }
}

/// The step that a utility runs in.
#[derive(Drop)]
pub struct StepIn {
    /// The program that the step names.
    pub pgm: Name8,
    /// The program's parameter.
    pub parm: Text,
    /// The number of its EXEC card in the deck, from 1.
    pub card: u32,
    /// The date of the run: the year since 1900 and the day of the year in two bytes.
    pub date: [u8; 3],
    /// Its DDs.
    pub dds: DdTable,
}
