//! What LISTPDS prints of a machine's shelf.
ghost use Rattle.std.specs.Prelude.{◌≡◌, ◌≤◌, [], ◌∷◌, false, length, map, slice_get, option_map, List, Ok, Some, IsTrue, IfOk};
ghost use Rattle.stop_model.specs.Moments.{Same};
ghost use Rattle.vol_model.specs.declared.contents.DataSet.{DataSet};
ghost use Rattle.vol_model.specs.declared.contents.Entry.{Entry};
ghost use Rattle.vol_model.specs.declared.contents.Volume.{Volume};
ghost use Rattle.vol_model.specs.Calls.{Keeps};
ghost use Rattle.vol_model.specs.Events.{Say};
ghost use Rattle.vol_model.specs.Reading.{set_info};
ghost use Rattle.vol_model.specs.Runs.{RunCall, Runs};
ghost use Rattle.vol_model.specs.Shelf.{is_partitioned};
ghost use Rattle.util_steps.specs.Taking.{IsReady, Says};
ghost use Rattle.iehlist_util.specs.Lines.{directory_line, entry_line};
ghost use Rattle.iehlist_util.specs.Directories.{Directory, HasEntries, answer_of, blocks_in, directory_lines, directory_of, directory_on, lines_of, pds_listing};

use crate::lines::{directory_line, entry_line};
use crate::listing::read_info;
use crate::requests::ListPds;
use ebcdic_names::Dsn;
use std::alloc::Global;
use util_steps::say;
use util_syntax::Outcome;
use vol_model::{Attr, Entry, Kind, Machine, ReadErr, Refusal, SetInfo, Stop, is_catalog};

/// What became of directories that are listed, and the data set that the answer names.
#[derive(Clone, Copy, Debug, PartialEq, Eq)]
pub struct PdsAnswer {
    /// The set that is refused, or the last.
    pub dsn: Dsn,
    /// What became of them.
    pub outcome: Outcome,
}

// Whether a data set is partitioned.
fn is_partitioned(dsn: &Dsn, attr: &Attr) -> bool
    ensures { result ≡ is_partitioned dsn.now.bytes attr.now }
{
    !is_catalog(dsn) && attr.dsorg / 512 == 1
}

// How many blocks the directory of a data set has, or why it isn't listed.
fn blocks_in(dsn: &Dsn, info: &SetInfo) -> Result<u32, Refusal>
    ensures { (x : DataSet) → info.now ≡ set_info x → result ≡ blocks_in (directory_of dsn.now.bytes (Some x)) }
{
    if !is_partitioned(dsn, &info.attr) {
        return Err(Refusal::WrongKind);
    }
    match info.kind {
        Kind::Part => Ok(info.dir),
        Kind::Unreadable(track) => Err(Refusal::Unreadable(track)),
        Kind::Seq | Kind::Catalog | Kind::Other => Err(Refusal::WrongKind),
    }
}

// The k-th entry of a directory, from 0. One that can't be read has none here: its set was refused before.
fn read_entry<M: Machine>(machine: &mut M, v: u8, dsn: &Dsn, k: u32) -> Result<Option<Entry>, Stop>
    requires { IsReady M.Machine machine.old }
    ensures value { IsTrue M.tells → (es : List Entry) → HasEntries (M.meaning machine.old).state v dsn.now.bytes es → IfOk result (λ found. found ≡ slice_get es k) }
    ensures same { IsTrue M.tells → Same (M.meaning machine.old) (M.meaning machine.new) }
    ensures count { (M.status machine.new).done ≡ (M.status machine.old).done }
    ensures promise { IsTrue M.tells → Keeps (M.meaning machine.old).clock (M.promise machine.old) (M.promise machine.new) }
    ensures faults { RunCall false (M.status machine.old) (M.status machine.new) result }
{
    match machine.entry_at(v, dsn, k) {
        Ok(found) => Ok(found),
        Err(ReadErr::Unreadable(_)) => Ok(None),
        Err(ReadErr::Memory) => Err(Stop::Memory),
        Err(ReadErr::Device) => Err(Stop::Device),
    }
}

// How many entries a directory has. It has fewer than 2^24 blocks, so fewer than 2^32 entries.
fn count_entries<M: Machine>(machine: &mut M, v: u8, dsn: &Dsn) -> Result<u32, Stop>
    requires { IsReady M.Machine machine.old }
    ensures value { IsTrue M.tells → (es : List Entry) → HasEntries (M.meaning machine.old).state v dsn.now.bytes es → IfOk result (λ count. count ≡ length es) }
    ensures same { IsTrue M.tells → Same (M.meaning machine.old) (M.meaning machine.new) }
    ensures count { (M.status machine.new).done ≡ (M.status machine.old).done }
    ensures promise { IsTrue M.tells → Keeps (M.meaning machine.old).clock (M.promise machine.old) (M.promise machine.new) }
    ensures faults { RunCall false (M.status machine.old) (M.status machine.new) result }
{
    for k in 0..u32::MAX {
        match read_entry(machine, v, dsn, k)? {
            Some(_) => {}
            None => return Ok(k),
        }
    }
    Ok(u32::MAX)
}

// Prints the line of an entry.
fn say_entry<M: Machine>(alloc: Global, machine: &mut M, entry: &Entry) -> Result<(), Stop>
    requires { IsReady M.Machine machine.old }
    ensures { Says M.Machine (λ shelf. entry_line entry.now ∷ []) machine.old machine.new result }
{
    let line = entry_line(alloc, entry)?;
    say(machine, &line)
}

// Prints the lines of the entries of a directory that has so many.
fn say_entries<M: Machine>(
    alloc: Global,
    machine: &mut M,
    v: u8,
    dsn: &Dsn,
    count: u32,
) -> Result<(), Stop>
    requires { IsReady M.Machine machine.old }
    ensures says { IsTrue M.tells → (es : List Entry) → HasEntries (M.meaning machine.old).state v dsn.now.bytes es → count ≡ length es → Runs M.tells_prints (map Say (map entry_line es)) (M.meaning machine.old) (M.meaning machine.new) result }
    ensures count { (M.status machine.new).done ≡ (M.status machine.old).done }
    ensures promise { IsTrue M.tells → Keeps (M.meaning machine.old).clock (M.promise machine.old) (M.promise machine.new) }
    ensures faults { RunCall false (M.status machine.old) (M.status machine.new) result }
{
    for k in 0..count {
        match read_entry(machine, v, dsn, k)? {
            Some(entry) => say_entry(alloc, machine, &entry)?,
            None => return Ok(()),
        }
    }
    Ok(())
}

// Prints the line of a directory.
fn say_directory_line<M: Machine>(
    alloc: Global,
    machine: &mut M,
    dsn: &Dsn,
    blocks: u32,
    members: u32,
) -> Result<(), Stop>
    requires { IsReady M.Machine machine.old }
    ensures { Says M.Machine (λ shelf. directory_line dsn.now.bytes blocks members ∷ []) machine.old machine.new result }
{
    let line = directory_line(alloc, dsn, blocks, members)?;
    say(machine, &line)
}

// Prints the lines of a directory of so many blocks.
fn say_lines<M: Machine>(
    alloc: Global,
    machine: &mut M,
    v: u8,
    dsn: &Dsn,
    blocks: u32,
) -> Result<(), Stop>
    requires { IsReady M.Machine machine.old }
    ensures says { IsTrue M.tells → (d : Directory) → directory_on (M.meaning machine.old).state v dsn.now.bytes ≡ Ok d → blocks ≡ d.blocks → Runs M.tells_prints (map Say (directory_lines dsn.now.bytes d)) (M.meaning machine.old) (M.meaning machine.new) result }
    ensures count { (M.status machine.new).done ≡ (M.status machine.old).done }
    ensures promise { IsTrue M.tells → Keeps (M.meaning machine.old).clock (M.promise machine.old) (M.promise machine.new) }
    ensures faults { RunCall false (M.status machine.old) (M.status machine.new) result }
{
    let members = count_entries(machine, v, dsn)?;
    say_directory_line(alloc, machine, dsn, blocks, members)?;
    say_entries(alloc, machine, v, dsn, members)
}

// Prints the lines of a set, if its directory is listed, and tells why not.
fn say_directory<M: Machine>(
    alloc: Global,
    machine: &mut M,
    v: u8,
    dsn: &Dsn,
) -> Result<Result<(), Refusal>, Stop>
    requires { IsReady M.Machine machine.old }
    ensures says { IsTrue M.tells → Runs M.tells_prints (map Say (lines_of dsn.now.bytes (directory_on (M.meaning machine.old).state v dsn.now.bytes))) (M.meaning machine.old) (M.meaning machine.new) result }
    ensures answer { IsTrue M.tells → IfOk result (λ answer. answer ≡ answer_of (directory_on (M.meaning machine.old).state v dsn.now.bytes)) }
    ensures count { (M.status machine.new).done ≡ (M.status machine.old).done }
    ensures promise { IsTrue M.tells → Keeps (M.meaning machine.old).clock (M.promise machine.old) (M.promise machine.new) }
    ensures faults { RunCall false (M.status machine.old) (M.status machine.new) result }
{
    let Some(info) = read_info(machine, v, dsn)? else {
        return Ok(Err(Refusal::NoSet));
    };
    match blocks_in(dsn, &info) {
        Ok(blocks) => {
            say_lines(alloc, machine, v, dsn, blocks)?;
            Ok(Ok(()))
        }
        Err(refusal) => Ok(Err(refusal)),
    }
}

/// Prints the lines of the directories that are asked for, up to the first set that is refused, and gives what became
/// of that.
pub fn say_directories<M: Machine>(
    alloc: Global,
    machine: &mut M,
    v: u8,
    request: &ListPds,
) -> Result<PdsAnswer, Stop>
    requires { IsReady M.Machine machine.old }
    ensures says { IsTrue M.tells → (volume : Volume) → slice_get (M.meaning machine.old).state.volumes v ≡ Some volume → Runs M.tells_prints (map Say (pds_listing volume request.now.first request.now.others).lines) (M.meaning machine.old) (M.meaning machine.new) result }
    ensures answer { IsTrue M.tells → (volume : Volume) → slice_get (M.meaning machine.old).state.volumes v ≡ Some volume → IfOk result (λ answer. answer ≡ (pds_listing volume request.now.first request.now.others).answer) }
    ensures later { IsTrue M.tells → (M.meaning machine.old).clock ≤ (M.meaning machine.new).clock }
    ensures count { (M.status machine.new).done ≡ (M.status machine.old).done }
    ensures promise { IsTrue M.tells → Keeps (M.meaning machine.old).clock (M.promise machine.old) (M.promise machine.new) }
    ensures faults { RunCall false (M.status machine.old) (M.status machine.new) result }
{
    let mut dsn = request.first;
    let mut rest = request.others.as_slice();
    loop {
        if let Err(refusal) = say_directory(alloc, machine, v, &dsn)? {
            return Ok(PdsAnswer {
                dsn,
                outcome: Outcome::Refused(refusal),
            });
        }
        match rest.split_first() {
            Some((next, others)) => {
                dsn = *next;
                rest = others;
            }
            None => {
                return Ok(PdsAnswer {
                    dsn,
                    outcome: Outcome::Done,
                });
            }
        }
    }
}
