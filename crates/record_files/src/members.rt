//! Members that are read and written: their entries in a directory, and where they begin.
ghost use Rattle.std.specs.Prelude.{◌≡◌, false, if◌then◌else◌, unwrap_or, Ok, List, IsErrOf, IfOk, IfSome};
ghost use Rattle.vol_model.specs.declared.contents.Block.{Block};
ghost use Rattle.vol_model.specs.declared.contents.Entry.{Entry};
ghost use Rattle.vol_model.specs.Places.{last_place};
ghost use Rattle.vol_model.specs.Reading.{blocks_from, entries_in};
ghost use Rattle.vol_model.specs.Shelf.{has_member};
ghost use Rattle.vol_model.specs.Writing.{body_on, did_apply};
ghost use Rattle.util_steps.specs.Copying.{refusing, source};
ghost use Rattle.util_steps.specs.Steps.{IsOnward};
ghost use Rattle.util_steps.specs.Taking.{IsReady, Reads, Takes};
ghost use Rattle.record_files.specs.Members.{FindsMember, TakesLast, ends_directory, entry_named, entry_of, member_in, name_entry};

use crate::attributes::{Purpose, find_set};
use ebcdic_names::Name8;
use std::alloc::Global;
use util_steps::{Fault, SetRef, apply, next_block, place_behind};
use vol_model::{BlockBuf, Entry, Listed, Machine, Op, Place, ReadErr, Refusal, SetInfo, Stop};

/// A name by which a member is entered.
#[derive(Clone, Copy, Debug, PartialEq, Eq)]
pub struct EntryName {
    /// The name. It isn't that of eight X'FF', which ends a directory.
    pub name: Name8,
    /// Whether it is marked as another name of the member.
    pub is_alias: bool,
    /// Whether it takes the place of an entry that has the name.
    pub replaces: bool,
}

impl EntryName {
    // The flags of its entry.
    fn flags(&self) -> u8
        ensures { result ≡ (if self.now.is_alias then 0x80 else 0) }
    {
        if self.is_alias { 0x80 } else { 0 }
    }
}

// The entry of a name in the directory of a library.
fn read_entry<M: Machine>(
    machine: &mut M,
    set: &SetRef,
    name: &Name8,
) -> Result<Result<Option<Entry>, Refusal>, Stop>
    requires { IsReady M.Machine machine.old }
    ensures { Reads M.Machine (λ shelf answer. (es : List Entry) → entries_in (body_on shelf set.now.v set.now.dsn.bytes) ≡ Ok es → answer ≡ Ok (entry_named name.now es)) machine.old machine.new result }
{
    match machine.entry(set.v, &set.dsn, name) {
        Ok(found) => Ok(Ok(found)),
        Err(ReadErr::Unreadable(track)) => Ok(Err(Refusal::Unreadable(track))),
        Err(ReadErr::Memory) => Err(Stop::Memory),
        Err(ReadErr::Device) => Err(Stop::Device),
    }
}

/// A library in short, and where its member of a name begins; or why there is none.
pub fn find_member<M: Machine>(
    machine: &mut M,
    set: &SetRef,
    name: &Name8,
) -> Result<Result<(SetInfo, Place), Refusal>, Stop>
    requires { IsReady M.Machine machine.old }
    ensures { Reads M.Machine (λ shelf answer. FindsMember answer (member_in shelf set.now name.now)) machine.old machine.new result }
{
    let info = match find_set(machine, Purpose::Members, set)? {
        Ok(info) => info,
        Err(refusal) => return Ok(Err(refusal)),
    };
    match read_entry(machine, set, name)? {
        Ok(Some(entry)) => Ok(Ok((info, entry.place))),
        Ok(None) => Ok(Err(Refusal::NoMember)),
        Err(refusal) => Ok(Err(refusal)),
    }
}

/// Whether a library has an entry of a name.
pub fn has_entry<M: Machine>(
    machine: &mut M,
    set: &SetRef,
    name: &Name8,
) -> Result<Result<bool, Refusal>, Stop>
    requires { IsReady M.Machine machine.old }
    ensures { Reads M.Machine (λ shelf answer. (es : List Entry) → entries_in (body_on shelf set.now.v set.now.dsn.bytes) ≡ Ok es → answer ≡ Ok (has_member name.now.bytes es)) machine.old machine.new result }
{
    match read_entry(machine, set, name)? {
        Ok(found) => Ok(Ok(found.is_some())),
        Err(refusal) => Ok(Err(refusal)),
    }
}

// The place of the first block at or after a place, and the place after it.
fn next_place<M: Machine>(
    machine: &mut M,
    buf: &mut BlockBuf,
    set: &SetRef,
    place: Place,
) -> Result<Result<Option<(Place, Place)>, Fault>, Stop>
    requires { IsReady M.Machine machine.old }
    ensures reads { Reads M.Machine (λ shelf answer. (bs : List Block) → source shelf set.now ≡ Ok bs → TakesLast answer (blocks_from place bs)) machine.old machine.new result }
    ensures onward { IfOk result (λ answer. IfOk answer (λ found. IfSome found (λ both. IsOnward place both.1))) }
    ensures memory { IsErrOf result Stop.Memory → ⊥ }
{
    match next_block(machine, set, place, buf)? {
        Ok(true) => Ok(Ok(Some((buf.place(), place_behind(buf.place()))))),
        Ok(false) => Ok(Ok(None)),
        Err(fault) => Ok(Err(fault)),
    }
}

// The place of the last block of a library, or zeros where it has none. It takes no memory.
fn last_block<M: Machine>(
    machine: &mut M,
    buf: &mut BlockBuf,
    set: &SetRef,
) -> Result<Result<Place, Fault>, Stop>
    requires { IsReady M.Machine machine.old }
    ensures place { Reads M.Machine (λ shelf answer. (bs : List Block) → source shelf set.now ≡ Ok bs → answer ≡ Ok (last_place (record { tt = 0; r = 0 }) bs)) machine.old machine.new result }
    ensures memory { IsErrOf result Stop.Memory → ⊥ }
{
    let mut last = Place { tt: 0, r: 0 };
    let mut place = last;
    loop {
        match next_place(machine, buf, set, place)? {
            Ok(Some((found, next))) => {
                last = found;
                place = next;
            }
            Ok(None) => return Ok(Ok(last)),
            Err(fault) => return Ok(Err(fault)),
        }
    }
}

/// Where a member begins that was written last: at its first block, or else at the last block of the library, which ends
/// it. It takes no memory.
pub fn start_of<M: Machine>(
    machine: &mut M,
    buf: &mut BlockBuf,
    set: &SetRef,
    first: Option<Place>,
) -> Result<Result<Place, Fault>, Stop>
    requires { IsReady M.Machine machine.old }
    ensures start { Reads M.Machine (λ shelf answer. (bs : List Block) → source shelf set.now ≡ Ok bs → answer ≡ Ok (unwrap_or first (last_place (record { tt = 0; r = 0 }) bs))) machine.old machine.new result }
    ensures memory { IsErrOf result Stop.Memory → ⊥ }
{
    match first {
        Some(place) => Ok(Ok(place)),
        None => last_block(machine, buf, set),
    }
}

// The entry of a name without user data.
fn entry_of(alloc: Global, place: Place, flags: u8, name: Name8) -> Entry
    ensures { result ≡ entry_of place flags name }
{
    Entry {
        name,
        place,
        flags,
        user: Listed::from_vec(Vec::new(alloc)),
    }
}

/// Enters a name of the member at a place, without user data. `MemberExists` is the refusal of a name that is there and
/// isn't to be replaced.
pub fn enter_name<M: Machine>(
    alloc: Global,
    machine: &mut M,
    to: &SetRef,
    place: Place,
    name: EntryName,
) -> Result<Result<(), Fault>, Stop>
    requires ready { IsReady M.Machine machine.old }
    requires lawful { ends_directory name.name ≡ false }
    ensures { Takes M.Machine (λ shelf. refusing (did_apply shelf (name_entry to.now place name))) machine.old machine.new result }
{
    let op = Op::Enter {
        v: to.v,
        dsn: to.dsn,
        entry: entry_of(alloc, place, name.flags(), name.name),
        replace: name.replaces,
    };
    apply(machine, &op)
}
