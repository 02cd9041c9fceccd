//! The copy of a member.
ghost use Rattle.std.specs.Prelude.{◌≡◌, ◌≤◌, ◌+◌, ◌==◌, ◌&&◌, [], Ok, length, vec_capacity, vec_len, IsTrue, IfOk};
ghost use Rattle.std.specs.Option.{option_copied};
ghost use Rattle.vol_model.specs.declared.contents.DataSet.{DataSet};
ghost use Rattle.vol_model.specs.Lawful.{IsLawfulEntry};
ghost use Rattle.vol_model.specs.Shelf.{blocks_of};
ghost use Rattle.util_steps.specs.Copying.{source};
ghost use Rattle.util_steps.specs.Steps.{AreApart};
ghost use Rattle.util_steps.specs.Taking.{IsReady, Reads};
ghost use Rattle.record_files.specs.Members.{entries_of};
ghost use Rattle.iebcopy_util.specs.Copying.{can_move, copied, copied_again, copied_from, copy_before, entered, entry_for, finished, first_refusal, is_at, member_copied, output_attr, with_attributes, serves, written};
ghost use Rattle.iebcopy_util.specs.Sets.{library};
ghost use Rattle.iebcopy_util.specs.Steps.{HasBlocks, IsRead, ProbesOutput, TakesWhole, blocks_at};
ghost use Rattle.iebcopy_util.specs.Tasks.{IsLawfulMemberCopy};

use crate::area::write_area;
use crate::tasks::{InputLibrary, MemberCopy, entry_at};
use crate::walking::walk_member;
use record_files::{Purpose, find_set, has_entry, start_of};
use std::alloc::{AllocError, Global};
use util_program::{outcome_for, perform};
use util_steps::{Fault, SetRef, next_block};
use util_syntax::Outcome;
use vol_model::{Attr, BlockBuf, Entry, Listed, Machine, Op, Place, Refusal, Stop, move_ttrs};

/// A copy that was made of the blocks of a member.
#[derive(Debug, Drop)]
pub struct Copy {
    /// The number of its input.
    pub input: usize,
    /// Where the member begins in its input.
    pub at: Place,
    /// The places of its blocks there.
    pub from: Listed<Place>,
    /// Where the copy begins.
    pub start: Place,
    /// The places of its blocks.
    pub to: Listed<Place>,
}

/// What an output is before a copy.
#[derive(Clone, Copy, Debug, PartialEq, Eq)]
pub struct OutputState {
    /// Its attributes.
    pub attr: Attr,
    /// Whether it has no record format, no entries and no blocks.
    pub is_blank: bool,
    /// Whether it has an entry of the name that is asked for.
    pub has_name: bool,
}

// Whether a library has no entries and no blocks.
fn is_vacant<M: Machine>(
    machine: &mut M,
    buf: &mut BlockBuf,
    out: &SetRef,
) -> Result<Result<bool, Fault>, Stop>
    requires { IsReady M.Machine machine.old }
    ensures { Reads M.Machine (λ shelf answer. (x : DataSet) → library shelf out.now ≡ Ok x → answer ≡ Ok (length (entries_of x.body) == 0 && length (blocks_of x.body) == 0)) machine.old machine.new result }
{
    match entry_at(machine, out, 0)? {
        Ok(None) => (),
        Ok(Some(_)) => return Ok(Ok(false)),
        Err(refusal) => return Ok(Err(Fault::Refused(refusal))),
    }
    match next_block(machine, out, Place { tt: 0, r: 0 }, buf)? {
        Ok(true) => Ok(Ok(false)),
        Ok(false) => Ok(Ok(true)),
        Err(fault) => Ok(Err(fault)),
    }
}

// The state of the output before a copy, or why it is no library.
fn probe_output<M: Machine>(
    machine: &mut M,
    buf: &mut BlockBuf,
    out: &SetRef,
    task: &MemberCopy,
) -> Result<Result<OutputState, Fault>, Stop>
    requires { IsReady M.Machine machine.old }
    ensures { Reads M.Machine (λ shelf answer. ProbesOutput answer task.now (library shelf out.now)) machine.old machine.new result }
{
    let info = match find_set(machine, Purpose::Members, out)? {
        Ok(info) => info,
        Err(refusal) => return Ok(Err(Fault::Refused(refusal))),
    };
    let has_name = match has_entry(machine, out, &task.name)? {
        Ok(has_name) => has_name,
        Err(refusal) => return Ok(Err(Fault::Refused(refusal))),
    };
    let vacant = match is_vacant(machine, buf, out)? {
        Ok(vacant) => vacant,
        Err(fault) => return Ok(Err(fault)),
    };
    Ok(Ok(OutputState {
        attr: info.attr,
        is_blank: is_blank(&info.attr, vacant),
        has_name,
    }))
}

// Whether a library, vacant or not, is blank by its attributes.
fn is_blank(attr: &Attr, vacant: bool) -> bool
    ensures { result ≡ (attr.now.recfm == 0 && vacant) }
{
    attr.recfm == 0 && vacant
}

// The attributes that an output has for a copy: those of the first input, where it is blank.
fn output_attr(source: &InputLibrary, found: &OutputState) -> Attr
    ensures { result ≡ output_attr source.now found.now }
{
    if found.is_blank {
        source.given
    } else {
        found.attr
    }
}

// Whether blocks of an input go unchanged to an output.
fn serves(output: &Attr, input: &Attr) -> bool
    ensures { result ≡ serves output.now input.now }
{
    input.recfm == output.recfm
        && input.lrecl == output.lrecl
        && input.keylen == output.keylen
        && input.blksize <= output.blksize
}

// The first reason, by what is found of the output, for which a member isn't copied.
#[tactic(auto, unfolding(crate::specs::Copying::first_refusal))]
fn first_refusal(task: &MemberCopy, found: &OutputState) -> Option<Outcome>
    ensures { result ≡ first_refusal task.now found.now }
{
    if !task.replace && found.has_name {
        return Some(Outcome::Refused(Refusal::MemberExists));
    }
    if serves(&output_attr(&task.source, found), &task.source.attr) {
        None
    } else {
        Some(Outcome::Dcb)
    }
}

// Whether a copy is of the blocks of this member.
fn is_at(task: &MemberCopy, copy: &Copy) -> bool
    ensures { result ≡ is_at task.now copy.now }
{
    copy.input == task.source.number
        && copy.at.tt == task.entry.place.tt
        && copy.at.r == task.entry.place.r
}

// The copy that was made before of the blocks of a member.
fn copy_before<'a>(copies: &'a [Copy], task: &MemberCopy) -> Option<&'a Copy>
    ensures { option_copied result ≡ copy_before copies.now task.now }
{
    copies.iter().find(|copy| is_at(task, copy))
}

// Whether each TTR in the user data of an entry names one of the blocks at these places, or is
// zeros.
#[tactic(auto, unfolding(crate::specs::Copying::can_move))]
fn can_move(alloc: Global, from: &[Place], entry: &Entry) -> Result<bool, AllocError>
    ensures { IfOk result (λ b. b ≡ can_move from.now entry.now) }
{
    let mut user = entry.user.as_slice().to_vec(alloc)?;
    match move_ttrs(&mut user, entry.flags, from, from) {
        Ok(()) => Ok(true),
        Err(_) => Ok(false),
    }
}

// The entry of a member that was copied, with its user data in this memory.
#[tactic(auto, unfolding(crate::specs::Copying::entry_for))]
fn entry_for(task: &MemberCopy, copy: &Copy, user: Vec<u8>) -> Entry
    requires user { user.items ≡ task.now.entry.user }
    requires lawful { IsLawfulMemberCopy task.now }
    ensures entry { result ≡ entry_for task.now copy.now }
    ensures lawful { IsLawfulEntry result }
{
    let mut user = user;
    // Each TTR has a new place, as was tested before the copy.
    let _ = move_ttrs(
        &mut user,
        task.entry.flags,
        copy.from.as_slice(),
        copy.to.as_slice(),
    );
    Entry {
        name: task.name,
        place: copy.start,
        flags: task.entry.flags,
        user: Listed::from_vec(user),
    }
}

// Enters a copy, with the user data of its entry in this memory.
fn enter_copy<M: Machine>(
    machine: &mut M,
    out: &SetRef,
    task: &MemberCopy,
    copy: &Copy,
    user: Vec<u8>,
) -> Result<Result<(), Outcome>, Stop>
    requires ready { IsReady M.Machine machine.old }
    requires user { user.items ≡ task.now.entry.user }
    requires lawful { IsLawfulMemberCopy task.now }
    ensures { TakesWhole M.Machine (λ shelf. entered shelf out.now task.now copy.now) machine.old machine.new result }
{
    let op = Op::Enter {
        v: out.v,
        dsn: out.dsn,
        entry: entry_for(task, copy, user),
        replace: task.replace,
    };
    perform(machine, &op)
}

// Enters a copy, and gives it back.
fn finish<M: Machine>(
    machine: &mut M,
    out: &SetRef,
    task: &MemberCopy,
    copy: Copy,
    user: Vec<u8>,
) -> Result<Result<Option<Copy>, Outcome>, Stop>
    requires ready { IsReady M.Machine machine.old }
    requires user { user.items ≡ task.now.entry.user }
    requires lawful { IsLawfulMemberCopy task.now }
    ensures { TakesWhole M.Machine (λ shelf. finished shelf out.now task.now copy) machine.old machine.new result }
{
    match enter_copy(machine, out, task, &copy, user)? {
        Ok(()) => Ok(Ok(Some(copy))),
        Err(outcome) => Ok(Err(outcome)),
    }
}

// Enters a member whose blocks were copied before.
fn copy_again<M: Machine>(
    alloc: Global,
    machine: &mut M,
    out: &SetRef,
    task: &MemberCopy,
    copy: &Copy,
) -> Result<Result<Option<Copy>, Outcome>, Stop>
    requires ready { IsReady M.Machine machine.old }
    requires lawful { IsLawfulMemberCopy task.now }
    ensures { TakesWhole M.Machine (λ shelf. copied_again shelf out.now task.now copy.now) machine.old machine.new result }
{
    let can = can_move(alloc, copy.from.as_slice(), &task.entry)?;
    if !can {
        return Ok(Err(Outcome::BadTtr));
    }
    let user = task.entry.user.as_slice().to_vec(alloc)?;
    match enter_copy(machine, out, task, copy, user)? {
        Ok(()) => Ok(Ok(None)),
        Err(outcome) => Ok(Err(outcome)),
    }
}

// Writes the blocks at these places of an input to the output, and enters the copy. All memory for
// it is taken.
fn write_member<M: Machine>(
    machine: &mut M,
    buf: &mut BlockBuf,
    out: &SetRef,
    task: &MemberCopy,
    from: Vec<Place>,
    to: Vec<Place>,
    user: Vec<u8>,
) -> Result<Result<Option<Copy>, Outcome>, Stop>
    requires ready { IsReady M.Machine machine.old }
    requires lawful { IsLawfulMemberCopy task.now }
    requires user { user.items ≡ task.now.entry.user }
    requires none { to.items ≡ [] }
    requires room { vec_len to + length from.items ≤ vec_capacity to }
    requires found { IsTrue M.tells → HasBlocks (source (M.meaning machine.old).state task.now.source.set) from.items }
    requires output { IsTrue M.tells → IsRead (M.meaning machine.old).state out.now }
    ensures { TakesWhole M.Machine (λ shelf. written shelf out.now task.now (blocks_at (source shelf task.now.source.set) from.items)) machine.old machine.new result }
{
    let mut to = to;
    match write_area(machine, buf, &task.source.set, out, &from, &mut to)? {
        Ok(()) => (),
        Err(fault) => return Ok(Err(outcome_for(fault))),
    }
    let start = match start_of(machine, buf, out, to.first().copied())? {
        Ok(start) => start,
        Err(fault) => return Ok(Err(outcome_for(fault))),
    };
    let copy = Copy {
        input: task.source.number,
        at: task.entry.place,
        from: Listed::from_vec(from),
        start,
        to: Listed::from_vec(to),
    };
    finish(machine, out, task, copy, user)
}

// Gives a blank output the attributes of the first input.
fn set_output_attributes<M: Machine>(
    machine: &mut M,
    out: &SetRef,
    task: &MemberCopy,
    blank: bool,
) -> Result<Result<(), Outcome>, Stop>
    requires { IsReady M.Machine machine.old }
    ensures { TakesWhole M.Machine (λ shelf. with_attributes shelf out.now task.now blank) machine.old machine.new result }
{
    if !blank {
        return Ok(Ok(()));
    }
    let op = Op::Empty {
        v: out.v,
        dsn: out.dsn,
        attr: task.source.given,
    };
    perform(machine, &op)
}

// Copies the blocks at these places of an input to the output, which is blank or not. All memory
// for it is taken.
fn write_copy<M: Machine>(
    machine: &mut M,
    buf: &mut BlockBuf,
    out: &SetRef,
    task: &MemberCopy,
    blank: bool,
    from: Vec<Place>,
    to: Vec<Place>,
    user: Vec<u8>,
) -> Result<Result<Option<Copy>, Outcome>, Stop>
    requires ready { IsReady M.Machine machine.old }
    requires apart { IsTrue M.tells → AreApart out.now task.now.source.set }
    requires lawful { IsLawfulMemberCopy task.now }
    requires user { user.items ≡ task.now.entry.user }
    requires none { to.items ≡ [] }
    requires room { vec_len to + length from.items ≤ vec_capacity to }
    requires found { IsTrue M.tells → HasBlocks (source (M.meaning machine.old).state task.now.source.set) from.items }
    requires output { IsTrue M.tells → IsRead (M.meaning machine.old).state out.now }
    ensures { TakesWhole M.Machine (λ shelf. copied shelf out.now task.now blank (blocks_at (source shelf task.now.source.set) from.items)) machine.old machine.new result }
{
    if let Err(outcome) = set_output_attributes(machine, out, task, blank)? {
        return Ok(Err(outcome));
    }
    write_member(machine, buf, out, task, from, to, user)
}

// Copies a member whose blocks weren't copied before.
fn copy_anew<M: Machine>(
    alloc: Global,
    machine: &mut M,
    buf: &mut BlockBuf,
    out: &SetRef,
    task: &MemberCopy,
    blank: bool,
) -> Result<Result<Option<Copy>, Outcome>, Stop>
    requires ready { IsReady M.Machine machine.old }
    requires apart { IsTrue M.tells → AreApart out.now task.now.source.set }
    requires lawful { IsLawfulMemberCopy task.now }
    requires output { IsTrue M.tells → IsRead (M.meaning machine.old).state out.now }
    ensures { TakesWhole M.Machine (λ shelf. copied_from shelf out.now task.now blank (source shelf task.now.source.set)) machine.old machine.new result }
{
    let walk = match walk_member(alloc, machine, buf, &task.source.set, task.entry.place)? {
        Ok(walk) => walk,
        Err(fault) => return Ok(Err(outcome_for(fault))),
    };
    let can = can_move(alloc, &walk.places, &task.entry)?;
    if !can {
        return Ok(Err(Outcome::BadTtr));
    }
    if !walk.has_data {
        return Ok(Err(Outcome::BadRecord));
    }
    let to = Vec::with_capacity(alloc, walk.places.len())?;
    let user = task.entry.user.as_slice().to_vec(alloc)?;
    write_copy(machine, buf, out, task, blank, walk.places, to, user)
}

/// Copies a member to the output, where these copies were made before, and gives the copy that was
/// made of its blocks.
///
/// Of several refusals the first counts: `MEMBER-EXISTS`, unless the member is replaced, `DCB`,
/// `BAD-TTR`, `BAD-RECORD`. `NO-ROOM` and `DIR-FULL` alone come later.
pub fn copy_member<M: Machine>(
    alloc: Global,
    machine: &mut M,
    buf: &mut BlockBuf,
    out: &SetRef,
    copies: &[Copy],
    task: &MemberCopy,
) -> Result<Result<Option<Copy>, Outcome>, Stop>
    requires ready { IsReady M.Machine machine.old }
    requires apart { IsTrue M.tells → AreApart out.now task.now.source.set }
    requires lawful { IsLawfulMemberCopy task.now }
    ensures { TakesWhole M.Machine (λ shelf. member_copied shelf out.now copies.now task.now) machine.old machine.new result }
{
    let found = match probe_output(machine, buf, out, task)? {
        Ok(found) => found,
        Err(fault) => return Ok(Err(outcome_for(fault))),
    };
    if let Some(outcome) = first_refusal(task, &found) {
        return Ok(Err(outcome));
    }
    match copy_before(copies, task) {
        Some(copy) => copy_again(alloc, machine, out, task, copy),
        None => copy_anew(alloc, machine, buf, out, task, found.is_blank),
    }
}
