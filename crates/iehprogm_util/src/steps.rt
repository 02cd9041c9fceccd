//! What the statements of IEHPROGM do on a machine.
ghost use Rattle.std.specs.Prelude.{◌≡◌, false, IsTrue, IfOk};
ghost use Rattle.vol_model.specs.declared.requests.Op.TheVariants as ops;
ghost use Rattle.vol_model.specs.Lawful.{IsLawfulEntry, IsLawfulOp};
ghost use Rattle.vol_model.specs.Reading.{entries_in};
ghost use Rattle.vol_model.specs.Shelf.{is_partitioned};
ghost use Rattle.vol_model.specs.Writing.{body_on, set_on};
ghost use Rattle.util_steps.specs.Taking.{IsReady, Reads, Takes};
ghost use Rattle.util_syntax.specs.Forms.{IsMemberName};
ghost use Rattle.util_program.specs.Outcomes.{performed};
ghost use Rattle.iehprogm_util.specs.Items.{entry_in, entry_renamed, member_on, member_renamed, scratched, steps_of, steps_on};
ghost use Rattle.iehprogm_util.specs.Requests.{IsLawfulRequest};

use crate::requests::Request;
use ebcdic_names::{Dsn, Name8};
use util_program::perform;
use util_steps::{find_volume, is_unexpired};
use util_syntax::Outcome;
use vol_model::{Attr, Entry, Machine, Op, ReadErr, Refusal, Stop, is_catalog};

// Gives a data set another name.
fn rename<M: Machine>(
    machine: &mut M,
    v: u8,
    old: &Dsn,
    new: &Dsn,
) -> Result<Result<(), Outcome>, Stop>
    requires { IsReady M.Machine machine.old }
    ensures { Takes M.Machine (λ shelf. performed shelf (ops.Rename v old.now new.now)) machine.old machine.new result }
{
    let op = Op::Rename {
        v,
        old: *old,
        new: *new,
    };
    perform(machine, &op)
}

// Lets a data set go, whenever it expires.
fn purge<M: Machine>(machine: &mut M, v: u8, dsn: &Dsn) -> Result<Result<(), Outcome>, Stop>
    requires { IsReady M.Machine machine.old }
    ensures { Takes M.Machine (λ shelf. performed shelf (ops.Scratch v dsn.now)) machine.old machine.new result }
{
    let op = Op::Scratch { v, dsn: *dsn };
    perform(machine, &op)
}

// Lets a data set go, unless it is there and unexpired.
fn scratch<M: Machine>(
    machine: &mut M,
    date: &[u8; 3],
    v: u8,
    dsn: &Dsn,
) -> Result<Result<(), Outcome>, Stop>
    requires { IsReady M.Machine machine.old }
    ensures { Takes M.Machine (λ shelf. scratched date.now shelf v dsn.now false) machine.old machine.new result }
{
    if is_unexpired(machine, date, v, dsn)? {
        return Ok(Err(Outcome::Expires));
    }
    purge(machine, v, dsn)
}

// Drops the entry of a member.
fn drop_member<M: Machine>(
    machine: &mut M,
    v: u8,
    dsn: &Dsn,
    name: &Name8,
) -> Result<Result<(), Outcome>, Stop>
    requires { IsReady M.Machine machine.old }
    ensures { Takes M.Machine (λ shelf. performed shelf (ops.Drop v dsn.now name.now)) machine.old machine.new result }
{
    let op = Op::Drop {
        v,
        dsn: *dsn,
        name: *name,
    };
    perform(machine, &op)
}

// The operation that enters an entry under a new name. It replaces none.
fn entering(v: u8, dsn: &Dsn, entry: Entry, new: &Name8) -> Op
    requires entry { IsLawfulEntry entry }
    requires name { IsMemberName new.now }
    ensures op { result ≡ ops.Enter v dsn.now (record entry { name = new.now }) false }
    ensures lawful { IsLawfulOp result }
{
    Op::Enter {
        v,
        dsn: *dsn,
        entry: Entry {
            name: *new,
            ..entry
        },
        replace: false,
    }
}

// Enters an entry under a new name.
fn enter_as<M: Machine>(
    machine: &mut M,
    v: u8,
    dsn: &Dsn,
    entry: Entry,
    new: &Name8,
) -> Result<Result<(), Outcome>, Stop>
    requires ready { IsReady M.Machine machine.old }
    requires entry { IsLawfulEntry entry }
    requires name { IsMemberName new.now }
    ensures { Takes M.Machine (λ shelf. performed shelf (ops.Enter v dsn.now (record entry { name = new.now }) false)) machine.old machine.new result }
{
    let op = entering(v, dsn, entry, new);
    perform(machine, &op)
}

// Renames an entry. A stop between its two operations leaves both names, so no member is lost.
fn rename_entry<M: Machine>(
    machine: &mut M,
    v: u8,
    dsn: &Dsn,
    old: &Name8,
    new: &Name8,
    entry: Entry,
) -> Result<Result<(), Outcome>, Stop>
    requires ready { IsReady M.Machine machine.old }
    requires entry { IsLawfulEntry entry }
    requires name { IsMemberName new.now }
    ensures { Takes M.Machine (λ shelf. entry_renamed shelf v dsn.now old.now new.now entry) machine.old machine.new result }
{
    match enter_as(machine, v, dsn, entry, new)? {
        Ok(()) => drop_member(machine, v, dsn, old),
        Err(outcome) => Ok(Err(outcome)),
    }
}

// Whether a data set of this name and with these attributes is partitioned.
fn is_partitioned(dsn: &Dsn, attr: &Attr) -> bool
    ensures { result ≡ is_partitioned dsn.now.bytes attr.now }
{
    !is_catalog(dsn) && attr.dsorg / 512 == 1
}

// The entry of this name in a directory, or why there is none.
fn find_entry<M: Machine>(
    machine: &mut M,
    v: u8,
    dsn: &Dsn,
    name: &Name8,
) -> Result<Result<Entry, Refusal>, Stop>
    requires { IsReady M.Machine machine.old }
    ensures reads { Reads M.Machine (λ shelf answer. answer ≡ entry_in name.now (entries_in (body_on shelf v dsn.now.bytes))) machine.old machine.new result }
    ensures lawful { IfOk result (λ answer. IfOk answer IsLawfulEntry) }
{
    match machine.entry(v, dsn, name) {
        Ok(Some(entry)) => Ok(Ok(entry)),
        Ok(None) => Ok(Err(Refusal::NoMember)),
        Err(ReadErr::Unreadable(track)) => Ok(Err(Refusal::Unreadable(track))),
        Err(ReadErr::Memory) => Err(Stop::Memory),
        Err(ReadErr::Device) => Err(Stop::Device),
    }
}

// The entry of a member, or why there is none.
fn find_member<M: Machine>(
    machine: &mut M,
    v: u8,
    dsn: &Dsn,
    name: &Name8,
) -> Result<Result<Entry, Refusal>, Stop>
    requires { IsReady M.Machine machine.old }
    ensures reads { Reads M.Machine (λ shelf answer. answer ≡ member_on shelf v dsn.now name.now) machine.old machine.new result }
    ensures lawful { IfOk result (λ answer. IfOk answer IsLawfulEntry) }
{
    match machine.attr(v, dsn)? {
        Some(info) if is_partitioned(dsn, &info.attr) => find_entry(machine, v, dsn, name),
        Some(_) => Ok(Err(Refusal::WrongKind)),
        None => Ok(Err(Refusal::NoSet)),
    }
}

// Renames a member, if it is there.
fn rename_member<M: Machine>(
    machine: &mut M,
    v: u8,
    dsn: &Dsn,
    old: &Name8,
    new: &Name8,
) -> Result<Result<(), Outcome>, Stop>
    requires ready { IsReady M.Machine machine.old }
    requires name { IsMemberName new.now }
    ensures { Takes M.Machine (λ shelf. member_renamed shelf v dsn.now old.now new.now) machine.old machine.new result }
{
    match find_member(machine, v, dsn, old)? {
        Ok(entry) => rename_entry(machine, v, dsn, old, new, entry),
        Err(refusal) => Ok(Err(Outcome::Refused(refusal))),
    }
}

// Does what a statement asks for on the volume of its serial.
fn do_on<M: Machine>(
    machine: &mut M,
    date: &[u8; 3],
    v: u8,
    request: &Request,
) -> Result<Result<(), Outcome>, Stop>
    requires ready { IsReady M.Machine machine.old }
    requires lawful { IsLawfulRequest request.now }
    ensures { Takes M.Machine (λ shelf. steps_on date.now shelf v request.now) machine.old machine.new result }
{
    match request {
        Request::Rename { old, new, .. } => rename(machine, v, old, new),
        Request::RenameMember { dsn, old, new, .. } => rename_member(machine, v, dsn, old, new),
        Request::Scratch {
            dsn,
            purge: true,
            ..
        } => purge(machine, v, dsn),
        Request::Scratch {
            dsn,
            purge: false,
            ..
        } => scratch(machine, date, v, dsn),
        Request::ScratchMember { dsn, member, .. } => drop_member(machine, v, dsn, member),
    }
}

/// Does what a statement asks for on the volume that it names, if the shelf has that. `NoVolume` goes before all else.
pub fn do_request<M: Machine>(
    machine: &mut M,
    date: &[u8; 3],
    request: &Request,
) -> Result<Result<(), Outcome>, Stop>
    requires ready { IsReady M.Machine machine.old }
    requires lawful { IsLawfulRequest request.now }
    ensures { Takes M.Machine (λ shelf. steps_of date.now shelf request.now) machine.old machine.new result }
{
    match find_volume(machine, &request.serial()) {
        Some(v) => do_on(machine, date, v, request),
        None => Ok(Err(Outcome::Refused(Refusal::NoVolume))),
    }
}
