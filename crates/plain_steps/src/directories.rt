//! Directories of partitioned data sets: entries are put in, and go.
ghost use Rattle.std.specs.Prelude.{◌≡◌, ◌&&◌, IfOk, Ok, filter, nat_lt, not};
ghost use Rattle.std.specs.Str.{bytes_eq};
ghost use Rattle.vol_model.specs.declared.contents.Entry.{Entry};
ghost use Rattle.vol_model.specs.declared.refusals.Refusal.TheVariants.{DirFull, MemberExists, NoMember};
ghost use Rattle.vol_model.specs.Slots.{directory_needed};
ghost use Rattle.vol_model.specs.Shelf.{drop_on, enter_on, has_member, is_partitioned, refuse, with_directory, with_entries, with_entry, with_set};

use crate::copies::Copies;
use crate::lists::{Test, is_less, where_passed};
use crate::needed::directory_needed;
use crate::sets::{Change, set_of, with_set};
use ebcdic_names::{Dsn, Name8};
use std::alloc::{AllocError, Global};
use vol_model::{Attr, Body, DataSet, Entries, Entry, Refusal, Volume, is_catalog};

/// Entries with one more, in the order of their names; one of the same name goes.
pub fn with_entry(alloc: Global, entry: &Entry, entries: &[Entry]) -> Result<Entries, AllocError>
    ensures { IfOk result (λ after. after ≡ with_entry entry.now entries.now) }
{
    let mut after = where_passed(alloc, Entries::new(alloc), entries, &Before { entry })?;
    after.push(entry.copy(alloc)?)?;
    where_passed(alloc, after, entries, &Behind { entry })
}

// The entries that stand before one.
#[derive(Drop)]
struct Before<'a> {
    entry: &'a Entry,
}

impl Test<Entry> for Before<'_> {
    ghost use Rattle.vol_model.specs.Shelf.{is_entry_before};

    ghost passes = { λ test x. is_entry_before x test.entry.now };

    fn passes(&self, other: &Entry) -> bool {
        is_less(
            other.name.bytes.as_slice(),
            self.entry.name.bytes.as_slice(),
        )
    }
}

// The entries that stand after one.
#[derive(Drop)]
struct Behind<'a> {
    entry: &'a Entry,
}

impl Test<Entry> for Behind<'_> {
    ghost use Rattle.vol_model.specs.Shelf.{is_entry_before};

    ghost passes = { λ test x. is_entry_before test.entry.now x };

    fn passes(&self, other: &Entry) -> bool {
        is_less(
            self.entry.name.bytes.as_slice(),
            other.name.bytes.as_slice(),
        )
    }
}

// The entries of other names than this.
#[derive(Drop)]
struct OtherNames<'a> {
    name: &'a Name8,
}

impl Test<Entry> for OtherNames<'_> {
    ghost use Rattle.std.specs.Prelude.{not};
    ghost use Rattle.std.specs.Str.{bytes_eq};

    ghost passes = { λ test x. not (bytes_eq x.name.bytes test.name.now.bytes) };

    fn passes(&self, entry: &Entry) -> bool {
        entry.name != *self.name
    }
}

// Other entries for a directory.
#[derive(Drop)]
struct NewEntries<'a> {
    entries: &'a Entries,
}

impl Change for NewEntries<'_> {
    ghost use Rattle.vol_model.specs.Shelf.{with_entries};

    ghost change = { λ new set. with_entries new.entries.now set };

    fn change(&self, alloc: Global, set: &DataSet) -> Result<DataSet, AllocError> {
        Ok(DataSet {
            name: set.name,
            attr: set.attr,
            extents: set.extents.copy(alloc)?,
            body: with_directory(alloc, self.entries, &set.body)?,
        })
    }
}

// A body with these entries.
fn with_directory(alloc: Global, entries: &Entries, body: &Body) -> Result<Body, AllocError>
    ensures { IfOk result (λ after. after ≡ with_directory entries.now body.now) }
{
    match body {
        Body::Part {
            dir,
            end,
            blocks,
            ..
        } => Ok(Body::Part {
            dir: *dir,
            end: *end,
            entries: entries.copy(alloc)?,
            blocks: blocks.copy(alloc)?,
        }),
        _ => body.copy(alloc),
    }
}

// Entries without those of this name.
fn without_entry(alloc: Global, name: &Name8, entries: &[Entry]) -> Result<Entries, AllocError>
    ensures { IfOk result (λ after. after ≡ filter (λ (e : Entry). not (bytes_eq e.name.bytes name.now.bytes)) entries.now) }
{
    where_passed(alloc, Entries::new(alloc), entries, &OtherNames { name })
}

// Whether an entry has this name.
fn has_member(name: &Name8, entries: &[Entry]) -> bool
    ensures { result ≡ has_member name.now.bytes entries.now }
{
    entries.iter().any(|entry| entry.name == *name)
}

// Whether it is the name and organization of a partitioned set.
pub(crate) fn is_partitioned(name: &Dsn, attr: &Attr) -> bool
    ensures { result ≡ is_partitioned name.now.bytes attr.now }
{
    !is_catalog(name) && attr.dsorg / 512 == 1
}

/// The volume after an entry goes, or why that is refused.
#[tactic(auto, unfolding(vol_model::specs::Shelf::drop_on))]
pub fn drop_on(
    alloc: Global,
    dsn: &Dsn,
    name: &Name8,
    volume: &Volume,
) -> Result<Result<Volume, Refusal>, AllocError>
    ensures { IfOk result (λ after. after ≡ drop_on dsn.now name.now volume.now) }
{
    let Some(set) = set_of(volume, dsn) else {
        return Ok(Err(Refusal::NoSet));
    };
    if !is_partitioned(dsn, &set.attr) {
        return Ok(Err(Refusal::WrongKind));
    }
    match &set.body {
        Body::Part { entries, .. } => dropped(alloc, dsn, name, volume, entries),
        Body::Unreadable(track) => Ok(Err(Refusal::Unreadable(*track))),
        _ => Ok(Err(Refusal::WrongKind)),
    }
}

// The volume after an entry goes from the directory of these entries.
fn dropped(
    alloc: Global,
    dsn: &Dsn,
    name: &Name8,
    volume: &Volume,
    entries: &Entries,
) -> Result<Result<Volume, Refusal>, AllocError>
    ensures { IfOk result (λ after. after
        ≡ refuse (not (has_member name.now.bytes entries.now)) NoMember
        (Ok (with_set volume.now dsn.now.bytes (with_entries (filter (λ (e : Entry). not (bytes_eq e.name.bytes name.now.bytes)) entries.now))))) }
{
    if !has_member(name, entries.as_slice()) {
        return Ok(Err(Refusal::NoMember));
    }
    let after = without_entry(alloc, name, entries.as_slice())?;
    Ok(Ok(with_set(alloc, volume, dsn, &NewEntries { entries: &after })?))
}

/// The volume after an entry is put in, or why that is refused.
#[tactic(auto, unfolding(vol_model::specs::Shelf::enter_on))]
pub fn enter_on(
    alloc: Global,
    dsn: &Dsn,
    entry: &Entry,
    replace: bool,
    volume: &Volume,
) -> Result<Result<Volume, Refusal>, AllocError>
    ensures { IfOk result (λ after. after ≡ enter_on dsn.now entry.now replace volume.now) }
{
    let Some(set) = set_of(volume, dsn) else {
        return Ok(Err(Refusal::NoSet));
    };
    if !is_partitioned(dsn, &set.attr) {
        return Ok(Err(Refusal::WrongKind));
    }
    match &set.body {
        Body::Part { dir, entries, .. } => entered(
            alloc, dsn, entry, replace, volume, *dir, entries,
        ),
        Body::Unreadable(track) => Ok(Err(Refusal::Unreadable(*track))),
        _ => Ok(Err(Refusal::WrongKind)),
    }
}

// The volume after an entry is put into the directory of these entries, in so many blocks.
fn entered(
    alloc: Global,
    dsn: &Dsn,
    entry: &Entry,
    replace: bool,
    volume: &Volume,
    dir: u32,
    entries: &Entries,
) -> Result<Result<Volume, Refusal>, AllocError>
    ensures { IfOk result (λ after. after
        ≡ refuse (not replace && has_member entry.now.name.bytes entries.now) MemberExists
        (refuse (nat_lt dir (directory_needed (with_entry entry.now entries.now))) (DirFull (directory_needed (with_entry entry.now entries.now)))
        (Ok (with_set volume.now dsn.now.bytes (with_entries (with_entry entry.now entries.now)))))) }
{
    if !replace && has_member(&entry.name, entries.as_slice()) {
        return Ok(Err(Refusal::MemberExists));
    }
    let after = with_entry(alloc, entry, entries.as_slice())?;
    let blocks = directory_needed(after.as_slice())?;
    if dir < blocks {
        return Ok(Err(Refusal::DirFull { blocks }));
    }
    Ok(Ok(with_set(alloc, volume, dsn, &NewEntries { entries: &after })?))
}
