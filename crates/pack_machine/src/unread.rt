//! The data sets of a pack whose bodies can't be read.
ghost use Rattle.std.specs.Prelude.{◌≡◌, IfOk, map};
ghost use Rattle.pack_machine.specs.Checking.{unread_entry, unread_in};
ghost use Rattle.pack_machine.specs.Unread.{is_of, others_of, renamed_in, track_in};

use ebcdic_names::Dsn;
use std::alloc::{AllocError, Global};
use vol_model::{Kind, is_catalog};

/// A sequential or partitioned data set whose body can't be read.
#[derive(Clone, Copy, Debug)]
pub struct Unread {
    /// The name of the set.
    pub dsn: Dsn,
    /// The first relative track that breaks it, from 0.
    pub track: u16,
}

/// The data sets of a pack but SYSCTLG whose bodies can't be read, of all with the kinds of their bodies, in the same order.
///
/// The error comes if memory runs out.
pub fn unread_of(alloc: Global, sets: &[(Dsn, Kind)]) -> Result<Vec<Unread>, AllocError>
    ensures { IfOk result (λ unread. unread.items ≡ unread_in sets.now) }
{
    sets.iter().filter_map(unread_entry).collect(alloc)
}

// The entry of a data set, if its body can't be read; the catalog has none.
fn unread_entry(set: &(Dsn, Kind)) -> Option<Unread>
    ensures { result ≡ unread_entry set.now }
{
    let (dsn, kind) = set;
    if is_catalog(dsn) {
        return None;
    }
    match kind {
        Kind::Unreadable(track) => Some(Unread {
            dsn: *dsn,
            track: *track,
        }),
        _ => None,
    }
}

// The track that breaks the body of the data set of this name, where it is one of these.
pub(crate) fn track_of(unread: &Vec<Unread>, dsn: &Dsn) -> Option<u16>
    ensures { result ≡ track_in unread.now.items dsn.now.bytes }
{
    let entry = unread.iter().find(|entry| is_of(entry, dsn))?;
    Some(entry.track)
}

// Takes the data set of this name out.
pub(crate) fn forget(unread: &mut Vec<Unread>, dsn: &Dsn)
    ensures { unread.new.items ≡ others_of dsn.now.bytes unread.old.items }
{
    unread.retain(|entry| !is_of(entry, dsn));
}

// Gives the data set of a name another one.
pub(crate) fn rename(unread: &mut Vec<Unread>, old: &Dsn, new: &Dsn)
    ensures { unread.new.items ≡ map (renamed_in old.now.bytes new.now) unread.old.items }
{
    for entry in unread.iter_mut() {
        rename_entry(entry, old, new);
    }
}

// Gives an entry another name, if it has this one.
fn rename_entry(entry: &mut Unread, old: &Dsn, new: &Dsn)
    ensures { entry.new ≡ renamed_in old.now.bytes new.now entry.old }
{
    if is_of(entry, old) {
        entry.dsn = *new;
    }
}

// Whether it is the data set of this name.
fn is_of(entry: &Unread, dsn: &Dsn) -> bool
    ensures { result ≡ is_of dsn.now.bytes entry.now }
{
    entry.dsn == *dsn
}
