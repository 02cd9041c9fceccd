//! The members that a copy takes from its inputs.
ghost use Rattle.std.specs.Prelude.{◌≡◌, ◌≤◌, ◌++◌, ◌∷◌, [], true, Ok, List, length, map, filter, take, slice_get, IfOk, IfSome, OnOk, None};
ghost use Rattle.std.specs.List.{AllByRecursion, list_any};
ghost use Rattle.std.specs.Result.{result_map_both};
ghost use Rattle.vol_model.specs.declared.contents.DataSet.{DataSet};
ghost use Rattle.vol_model.specs.declared.contents.Entry.{Entry};
ghost use Rattle.vol_model.specs.Lawful.{IsLawfulEntry};
ghost use Rattle.vol_model.specs.Reading.{entries_in};
ghost use Rattle.vol_model.specs.Writing.{body_on};
ghost use Rattle.util_steps.specs.Taking.{IsReady, Reads};
ghost use Rattle.iebcopy_util.specs.Sets.{library};
ghost use Rattle.iebcopy_util.specs.Tasks.{IsLawfulChoice, IsLawfulMemberCopy, TakesEntry, TakesInput, is_name, is_taken, task, tasks_of, wanted, with_source};

use crate::orders::Choice;
use crate::requests::Pick;
use crate::sets::Input;
use ebcdic_names::{Dsn, Name8};
use record_files::{Purpose, find_set};
use std::alloc::{AllocError, Global};
use util_steps::SetRef;
use vol_model::{Attr, Entry, Listed, Machine, ReadErr, Refusal, Stop};

/// A library from which members are copied.
#[derive(Clone, Copy, Debug, PartialEq, Eq)]
pub struct InputLibrary {
    /// Its number among the inputs of its copy, from 0.
    pub number: usize,
    /// Its data set.
    pub set: SetRef,
    /// Its attributes.
    pub attr: Attr,
    /// The attributes of the first input.
    pub given: Attr,
    /// Whether all its members replace others of their names.
    pub replace: bool,
}

/// A member that is copied.
#[derive(Debug, Drop)]
pub struct MemberCopy {
    /// Its input.
    pub source: InputLibrary,
    /// Its entry there.
    pub entry: Entry,
    /// The name of the copy.
    pub name: Name8,
    /// Whether the copy replaces a member of that name.
    pub replace: bool,
}

/// A data set for whose sake nothing is copied.
#[derive(Clone, Copy, Debug, PartialEq, Eq)]
pub struct RefusedSet {
    /// Its name.
    pub dsn: Dsn,
    /// Why it is no library.
    pub refusal: Refusal,
}

// The same entry.
fn copy_entry(alloc: Global, entry: &Entry) -> Result<Entry, AllocError>
    ensures { IfOk result (λ e. e ≡ entry.now) }
{
    let user = entry.user.as_slice().to_vec(alloc)?;
    Ok(Entry {
        name: entry.name,
        place: entry.place,
        flags: entry.flags,
        user: Listed::from_vec(user),
    })
}

// Adds the copy of a member under a name.
fn push_copy(
    alloc: Global,
    tasks: &mut Vec<MemberCopy>,
    source: &InputLibrary,
    entry: &Entry,
    name: Name8,
    replace: bool,
) -> Result<(), AllocError>
    ensures { OnOk result (tasks.new.items ≡ tasks.old.items ++ task source.now entry.now name replace ∷ []) }
{
    tasks.push(MemberCopy {
        source: *source,
        entry: copy_entry(alloc, entry)?,
        name,
        replace: source.replace || replace,
    })?;
    Ok(())
}

// Whether two names are one.
fn is_name(a: &Name8, b: &Name8) -> bool
    ensures { result ≡ is_name a.now b.now }
{
    a.bytes == b.bytes
}

/// Whether one of these copies is of a member of this name.
pub fn is_taken(name: &Name8, tasks: &[MemberCopy]) -> bool
    ensures { result ≡ is_taken name.now tasks.now }
{
    tasks.iter().any(|task| is_name(&task.entry.name, name))
}

// Whether a name is among names.
fn is_one_of(name: &Name8, names: &[Name8]) -> bool
    ensures { result ≡ list_any (λ n. is_name n name.now) names.now }
{
    names.iter().any(|other| is_name(other, name))
}

// Adds the copies of a member under the names that it is selected for.
fn push_picked(
    alloc: Global,
    tasks: &mut Vec<MemberCopy>,
    source: &InputLibrary,
    entry: &Entry,
    picks: &[Pick],
) -> Result<(), AllocError>
    ensures { OnOk result (tasks.new.items ≡ tasks.old.items ++ map (λ p. task source.now entry.now p.new p.replace) (filter (λ p. is_name p.name entry.now.name) picks.now)) }
{
    for pick in picks {
        if is_name(&pick.name, &entry.name) {
            push_copy(alloc, tasks, source, entry, pick.new, pick.replace)?;
        }
    }
    Ok(())
}

// Adds the copies that are asked for of an entry, where the first ones are those of earlier
// inputs.
#[tactic(auto, unfolding(crate::specs::Tasks::wanted))]
fn push_wanted(
    alloc: Global,
    tasks: &mut Vec<MemberCopy>,
    first: usize,
    source: &InputLibrary,
    choice: &Choice,
    entry: &Entry,
) -> Result<(), AllocError>
    requires { first ≤ length tasks.old.items }
    ensures { OnOk result (tasks.new.items ≡ tasks.old.items ++ wanted choice.now (take first tasks.old.items) source.now entry.now) }
{
    match choice {
        Choice::All => push_copy(alloc, tasks, source, entry, entry.name, false),
        Choice::Select(picks) => {
            let taken = is_taken(&entry.name, &tasks[..first]);
            if taken {
                return Ok(());
            }
            push_picked(alloc, tasks, source, entry, picks.as_slice())
        }
        Choice::Exclude(names) => {
            if is_one_of(&entry.name, names.as_slice()) {
                return Ok(());
            }
            push_copy(alloc, tasks, source, entry, entry.name, false)
        }
    }
}

/// The k-th entry of a library, from 0.
pub fn entry_at<M: Machine>(
    machine: &mut M,
    set: &SetRef,
    k: u32,
) -> Result<Result<Option<Entry>, Refusal>, Stop>
    requires { IsReady M.Machine machine.old }
    ensures reads { Reads M.Machine (λ shelf answer. (es : List Entry) → entries_in (body_on shelf set.now.v set.now.dsn.bytes) ≡ Ok es → answer ≡ Ok (slice_get es k)) machine.old machine.new result }
    ensures lawful { IfOk result (λ answer. IfOk answer (λ found. IfSome found IsLawfulEntry)) }
{
    match machine.entry_at(set.v, &set.dsn, k) {
        Ok(found) => Ok(Ok(found)),
        Err(ReadErr::Unreadable(track)) => Ok(Err(Refusal::Unreadable(track))),
        Err(ReadErr::Memory) => Err(Stop::Memory),
        Err(ReadErr::Device) => Err(Stop::Device),
    }
}

// Adds the copies for the k-th entry of an input; false where there is none.
fn take_entry<M: Machine>(
    alloc: Global,
    machine: &mut M,
    tasks: &mut Vec<MemberCopy>,
    first: usize,
    source: &InputLibrary,
    choice: &Choice,
    k: u32,
) -> Result<Result<bool, Refusal>, Stop>
    requires ready { IsReady M.Machine machine.old }
    requires first { first ≤ length tasks.old.items }
    requires choice { IsLawfulChoice choice.now }
    requires lawful { AllByRecursion IsLawfulMemberCopy tasks.old.items }
    ensures reads { Reads M.Machine (λ shelf answer. (es : List Entry) → entries_in (body_on shelf source.now.set.v source.now.set.dsn.bytes) ≡ Ok es → TakesEntry answer es k (wanted choice.now (take first tasks.old.items) source.now) tasks.old.items tasks.new.items) machine.old machine.new result }
    ensures more { IfOk result (λ answer. (more : List MemberCopy) × (tasks.new.items ≡ tasks.old.items ++ more)) }
    ensures lawful { IfOk result (λ answer. AllByRecursion IsLawfulMemberCopy tasks.new.items) }
{
    let entry = match entry_at(machine, &source.set, k)? {
        Ok(Some(entry)) => entry,
        Ok(None) => return Ok(Ok(false)),
        Err(refusal) => return Ok(Err(refusal)),
    };
    push_wanted(alloc, tasks, first, source, choice, &entry)?;
    Ok(Ok(true))
}

// Adds the copies for the entries of an input.
fn take_entries<M: Machine>(
    alloc: Global,
    machine: &mut M,
    tasks: &mut Vec<MemberCopy>,
    source: &InputLibrary,
    choice: &Choice,
) -> Result<Result<(), Refusal>, Stop>
    requires ready { IsReady M.Machine machine.old }
    requires choice { IsLawfulChoice choice.now }
    requires lawful { AllByRecursion IsLawfulMemberCopy tasks.old.items }
    ensures reads { Reads M.Machine (λ shelf answer. (x : DataSet) → library shelf source.now.set ≡ Ok x → (answer ≡ Ok tt) × (tasks.new.items ≡ with_source choice.now tasks.old.items source.now x)) machine.old machine.new result }
    ensures lawful { IfOk result (λ answer. AllByRecursion IsLawfulMemberCopy tasks.new.items) }
{
    let first = tasks.len();
    let mut k: u32 = 0;
    loop {
        match take_entry(alloc, machine, tasks, first, source, choice, k)? {
            Ok(true) => (),
            Ok(false) => return Ok(Ok(())),
            Err(refusal) => return Ok(Err(refusal)),
        }
        match k.checked_add(1) {
            Some(next) => k = next,
            None => return Ok(Ok(())),
        }
    }
}

// Adds the copies of members of an input, and gives the attributes of the first input.
fn take_input<M: Machine>(
    alloc: Global,
    machine: &mut M,
    tasks: &mut Vec<MemberCopy>,
    choice: &Choice,
    number: usize,
    given: Option<Attr>,
    input: &Input,
) -> Result<Result<Attr, RefusedSet>, Stop>
    requires ready { IsReady M.Machine machine.old }
    requires choice { IsLawfulChoice choice.now }
    requires lawful { AllByRecursion IsLawfulMemberCopy tasks.old.items }
    ensures reads { Reads M.Machine (λ shelf answer. TakesInput answer shelf choice.now number given input.now tasks.old.items tasks.new.items) machine.old machine.new result }
    ensures lawful { IfOk result (λ answer. AllByRecursion IsLawfulMemberCopy tasks.new.items) }
{
    let info = match find_set(machine, Purpose::Members, &input.set)? {
        Ok(info) => info,
        Err(refusal) => return Ok(Err(refused(&input.set, refusal))),
    };
    let source = InputLibrary {
        number,
        set: input.set,
        attr: info.attr,
        given: given.unwrap_or(info.attr),
        replace: input.replace,
    };
    match take_entries(alloc, machine, tasks, &source, choice)? {
        Ok(()) => Ok(Ok(source.given)),
        Err(refusal) => Ok(Err(refused(&input.set, refusal))),
    }
}

// A data set that is no library.
fn refused(set: &SetRef, refusal: Refusal) -> RefusedSet
    ensures { result ≡ record { dsn = set.now.dsn; refusal = refusal } }
{
    RefusedSet {
        dsn: set.dsn,
        refusal,
    }
}

/// The members that a copy takes from its inputs, in the order of the inputs and of their entries;
/// or the first input that is no library.
pub fn tasks_of<M: Machine>(
    alloc: Global,
    machine: &mut M,
    choice: &Choice,
    inputs: &[Input],
) -> Result<Result<Vec<MemberCopy>, RefusedSet>, Stop>
    requires ready { IsReady M.Machine machine.old }
    requires choice { IsLawfulChoice choice.now }
    ensures reads { Reads M.Machine (λ shelf answer. result_map_both (λ v. v.items) (λ f. f) answer ≡ tasks_of shelf choice.now 0 None [] inputs.now) machine.old machine.new result }
    ensures lawful { IfOk result (λ answer. IfOk answer (λ tasks. AllByRecursion IsLawfulMemberCopy tasks.items)) }
{
    let mut tasks = Vec::new(alloc);
    let mut given = None;
    let mut number: usize = 0;
    let mut rest = inputs;
    loop {
        let (input, behind) = match rest.split_first() {
            Some(parts) => parts,
            None => return Ok(Ok(tasks)),
        };
        match take_input(alloc, machine, &mut tasks, choice, number, given, input)? {
            Ok(attr) => given = Some(attr),
            Err(refused) => return Ok(Err(refused)),
        }
        number += 1;
        rest = behind;
    }
}
