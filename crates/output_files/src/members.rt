//! The names of a member that is written, and a library that takes it.
ghost use Rattle.std.specs.Prelude.{◌≡◌, false, Ok, List, IfOk};
ghost use Rattle.std.specs.List.{list_any};
ghost use Rattle.ebcdic_names.specs.declared.names.Name8.{Name8};
ghost use Rattle.vol_model.specs.declared.contents.Entry.{Entry};
ghost use Rattle.vol_model.specs.Reading.{entries_in};
ghost use Rattle.vol_model.specs.Shelf.{has_member};
ghost use Rattle.vol_model.specs.Writing.{body_on};
ghost use Rattle.util_steps.specs.Taking.{IsReady, Reads, Takes};
ghost use Rattle.record_files.specs.Attributes.{FindsSet};
ghost use Rattle.record_files.specs.Members.{ends_directory};
ghost use Rattle.output_files.specs.Members.{all_names, are_aliases_taken, did_aliases, did_enter, has_twice, is_name, is_own_taken, is_taken, library_for, names_view, other_name, own_name};

use ebcdic_names::Name8;
use record_files::{EntryName, Purpose, enter_name, find_set, has_entry};
use std::alloc::Global;
use util_steps::{Fault, SetRef};
use vol_model::{Machine, Place, Refusal, SetInfo, Stop};

// The name that ends a directory.
const END_NAME: [u8; 8] = [0xFF; 8];

/// The names by which a member is entered.
#[derive(Clone, Copy)]
pub struct Names<'a> {
    /// Its own.
    pub name: Name8,
    /// Its other names.
    pub aliases: &'a [Name8],
    /// Whether its own one takes the place of an entry that has it.
    pub replaces: bool,
    /// Whether the others do.
    pub aliases_replace: bool,
}

// Whether a library has an entry of one of these names.
fn has_any_entry<M: Machine>(
    machine: &mut M,
    set: &SetRef,
    names: &[Name8],
) -> Result<Result<bool, Refusal>, Stop>
    requires { IsReady M.Machine machine.old }
    ensures { Reads M.Machine (λ shelf answer. (es : List Entry) → entries_in (body_on shelf set.now.v set.now.dsn.bytes) ≡ Ok es → answer ≡ Ok (list_any (λ (a : Name8). has_member a.bytes es) names.now)) machine.old machine.new result }
{
    let mut rest = names;
    loop {
        let (first, others) = match rest.split_first() {
            Some(parts) => parts,
            None => return Ok(Ok(false)),
        };
        match has_entry(machine, set, first)? {
            Ok(false) => rest = others,
            Ok(true) => return Ok(Ok(true)),
            Err(refusal) => return Ok(Err(refusal)),
        }
    }
}

// Whether a name is that which ends a directory.
fn ends_directory(name: &Name8) -> bool
    ensures { result ≡ ends_directory name.now }
{
    name.bytes == END_NAME
}

fn any_ends(names: &[Name8]) -> bool
    ensures { result ≡ list_any ends_directory names.now }
{
    names.iter().any(|name| ends_directory(name))
}

// Whether one of the names of a member ends a directory.
fn has_end_name(names: &Names<'_>) -> bool
    ensures { result ≡ list_any ends_directory (all_names (names_view names.now)) }
{
    ends_directory(&names.name) || any_ends(names.aliases)
}

// Whether a name is among others.
fn is_among(name: &Name8, names: &[Name8]) -> bool
    ensures { result ≡ list_any (is_name name.now) names.now }
{
    names.iter().any(|other| name.bytes == other.bytes)
}

// Whether one of these names stands twice among them.
fn has_twice(names: &[Name8]) -> bool
    ensures { result ≡ has_twice names.now }
{
    let mut rest = names;
    loop {
        let (first, others) = match rest.split_first() {
            Some(parts) => parts,
            None => return false,
        };
        if is_among(first, others) {
            return true;
        }
        rest = others;
    }
}

// Whether one of the names of a member stands twice among them.
fn repeats(names: &Names<'_>) -> bool
    ensures { result ≡ has_twice (all_names (names_view names.now)) }
{
    is_among(&names.name, names.aliases) || has_twice(names.aliases)
}

// Whether a member's own name is there already and isn't to be replaced.
fn is_own_taken<M: Machine>(
    machine: &mut M,
    to: &SetRef,
    names: &Names<'_>,
) -> Result<Result<bool, Refusal>, Stop>
    requires { IsReady M.Machine machine.old }
    ensures { Reads M.Machine (λ shelf answer. (es : List Entry) → entries_in (body_on shelf to.now.v to.now.dsn.bytes) ≡ Ok es → answer ≡ Ok (is_own_taken es (names_view names.now))) machine.old machine.new result }
{
    if names.replaces {
        return Ok(Ok(false));
    }
    has_entry(machine, to, &names.name)
}

// Whether another name of a member is one already and isn't to be replaced.
fn are_aliases_taken<M: Machine>(
    machine: &mut M,
    to: &SetRef,
    names: &Names<'_>,
) -> Result<Result<bool, Refusal>, Stop>
    requires { IsReady M.Machine machine.old }
    ensures { Reads M.Machine (λ shelf answer. (es : List Entry) → entries_in (body_on shelf to.now.v to.now.dsn.bytes) ≡ Ok es → answer ≡ Ok (are_aliases_taken es (names_view names.now))) machine.old machine.new result }
{
    if names.aliases_replace {
        return Ok(Ok(false));
    }
    if repeats(names) {
        return Ok(Ok(true));
    }
    has_any_entry(machine, to, names.aliases)
}

// Whether a name of a member is taken.
fn is_taken<M: Machine>(
    machine: &mut M,
    to: &SetRef,
    names: &Names<'_>,
) -> Result<Result<bool, Refusal>, Stop>
    requires { IsReady M.Machine machine.old }
    ensures { Reads M.Machine (λ shelf answer. (es : List Entry) → entries_in (body_on shelf to.now.v to.now.dsn.bytes) ≡ Ok es → answer ≡ Ok (is_taken es (names_view names.now))) machine.old machine.new result }
{
    match is_own_taken(machine, to, names)? {
        Ok(false) => are_aliases_taken(machine, to, names),
        Ok(true) => Ok(Ok(true)),
        Err(refusal) => Ok(Err(refusal)),
    }
}

/// A library in short that takes a member of these names, or why there is none.
#[tactic(auto, unfolding(crate::specs::Members::library_for))]
pub fn find_library<M: Machine>(
    machine: &mut M,
    to: &SetRef,
    names: &Names<'_>,
) -> Result<Result<SetInfo, Refusal>, Stop>
    requires { IsReady M.Machine machine.old }
    ensures reads { Reads M.Machine (λ shelf answer. FindsSet answer (library_for shelf to.now (names_view names.now))) machine.old machine.new result }
    ensures lawful { IfOk result (λ answer. IfOk answer (λ info. list_any ends_directory (all_names (names_view names.now)) ≡ false)) }
{
    let info = match find_set(machine, Purpose::Members, to)? {
        Ok(info) => info,
        Err(refusal) => return Ok(Err(refusal)),
    };
    if has_end_name(names) {
        return Ok(Err(Refusal::WrongKind));
    }
    match is_taken(machine, to, names)? {
        Ok(false) => Ok(Ok(info)),
        Ok(true) => Ok(Err(Refusal::MemberExists)),
        Err(refusal) => Ok(Err(refusal)),
    }
}

// The name of a member itself.
fn own_name(names: &Names<'_>) -> EntryName
    ensures { result ≡ own_name (names_view names.now) }
{
    EntryName {
        name: names.name,
        is_alias: false,
        replaces: names.replaces,
    }
}

// Another name of it, which is marked.
fn other_name(replaces: bool, name: Name8) -> EntryName
    ensures { result ≡ other_name replaces name }
{
    EntryName {
        name,
        is_alias: true,
        replaces,
    }
}

// Enters other names of the member at a place, in their order.
fn enter_aliases<M: Machine>(
    alloc: Global,
    machine: &mut M,
    to: &SetRef,
    place: Place,
    replaces: bool,
    aliases: &[Name8],
) -> Result<Result<(), Fault>, Stop>
    requires ready { IsReady M.Machine machine.old }
    requires lawful { list_any ends_directory aliases.now ≡ false }
    ensures { Takes M.Machine (λ shelf. did_aliases shelf to.now place replaces aliases.now) machine.old machine.new result }
{
    let mut rest = aliases;
    loop {
        let (first, others) = match rest.split_first() {
            Some(parts) => parts,
            None => return Ok(Ok(())),
        };
        match enter_name(alloc, machine, to, place, other_name(replaces, *first))? {
            Ok(()) => rest = others,
            Err(fault) => return Ok(Err(fault)),
        }
    }
}

/// Enters the names of the member at a place: its own first; the others are marked.
pub fn enter<M: Machine>(
    alloc: Global,
    machine: &mut M,
    to: &SetRef,
    place: Place,
    names: &Names<'_>,
) -> Result<Result<(), Fault>, Stop>
    requires ready { IsReady M.Machine machine.old }
    requires lawful { list_any ends_directory (all_names (names_view names.now)) ≡ false }
    ensures { Takes M.Machine (λ shelf. did_enter shelf to.now place (names_view names.now)) machine.old machine.new result }
{
    if let Err(fault) = enter_name(alloc, machine, to, place, own_name(names))? {
        return Ok(Err(fault));
    }
    enter_aliases(
        alloc,
        machine,
        to,
        place,
        names.aliases_replace,
        names.aliases,
    )
}
