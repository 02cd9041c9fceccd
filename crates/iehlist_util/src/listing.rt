//! What LISTVTOC prints of a machine's shelf.
ghost use Rattle.std.specs.Prelude.{◌≡◌, ◌≤◌, [], ◌∷◌, false, length, map, slice_get, is_some, option_map, Some, IsTrue, IfOk};
ghost use Rattle.std.specs.List.{flat_map};
ghost use Rattle.stop_model.specs.Moments.{Same};
ghost use Rattle.vol_model.specs.declared.contents.DataSet.{DataSet};
ghost use Rattle.vol_model.specs.declared.contents.Volume.{Volume};
ghost use Rattle.vol_model.specs.Calls.{Keeps};
ghost use Rattle.vol_model.specs.Events.{Say};
ghost use Rattle.vol_model.specs.Runs.{RunCall, Runs};
ghost use Rattle.vol_model.specs.Reading.{extent_on, name_on, set_info, volume_info};
ghost use Rattle.vol_model.specs.Writing.{set_on};
ghost use Rattle.util_steps.specs.Taking.{IsReady, Reads, Says};
ghost use Rattle.iehlist_util.specs.Lines.{extent_line, set_line, volume_line};
ghost use Rattle.iehlist_util.specs.Items.{extent_lines, lines_of_set, listed_on, listed_sets, set_lines, volume_listing};

use crate::lines::{extent_line, set_line, volume_line};
use crate::requests::ListVtoc;
use ebcdic_names::Dsn;
use std::alloc::Global;
use util_steps::say;
use util_syntax::Outcome;
use vol_model::{Machine, Refusal, Run, SetInfo, Stop, VolumeInfo};

// The most data sets of a volume; its VTOC has at most 65,535 slots.
const MOST_SETS: u32 = 65_535;

// The name of the k-th data set of a volume, from 0.
fn read_name<M: Machine>(machine: &mut M, v: u8, k: u32) -> Result<Option<Dsn>, Stop>
    requires { IsReady M.Machine machine.old }
    ensures { Reads M.Machine (λ shelf found. found ≡ name_on shelf v k) machine.old machine.new result }
{
    let found = machine.name_at(v, k)?;
    Ok(found)
}

/// A data set in short.
pub fn read_info<M: Machine>(machine: &mut M, v: u8, dsn: &Dsn) -> Result<Option<SetInfo>, Stop>
    requires { IsReady M.Machine machine.old }
    ensures { Reads M.Machine (λ shelf found. found ≡ option_map set_info (set_on shelf v dsn.now.bytes)) machine.old machine.new result }
{
    let found = machine.attr(v, dsn)?;
    Ok(found)
}

// The k-th extent of a data set, from 0.
fn read_extent<M: Machine>(machine: &mut M, v: u8, dsn: &Dsn, k: u8) -> Result<Option<Run>, Stop>
    requires { IsReady M.Machine machine.old }
    ensures { Reads M.Machine (λ shelf found. found ≡ extent_on shelf v dsn.now.bytes k) machine.old machine.new result }
{
    let found = machine.extent(v, dsn, k)?;
    Ok(found)
}

// Prints the line of an extent.
fn say_extent<M: Machine>(alloc: Global, machine: &mut M, number: u8, run: &Run) -> Result<(), Stop>
    requires { IsReady M.Machine machine.old }
    ensures { Says M.Machine (λ shelf. extent_line number run.now ∷ []) machine.old machine.new result }
{
    let line = extent_line(alloc, number, run)?;
    say(machine, &line)
}

// Prints the lines of the extents of a data set that has so many.
fn say_extents<M: Machine>(
    alloc: Global,
    machine: &mut M,
    v: u8,
    dsn: &Dsn,
    count: u8,
) -> Result<(), Stop>
    requires { IsReady M.Machine machine.old }
    ensures says { IsTrue M.tells → (x : DataSet) → set_on (M.meaning machine.old).state v dsn.now.bytes ≡ Some x → count ≡ length x.extents → Runs M.tells_prints (map Say (extent_lines 1 x.extents)) (M.meaning machine.old) (M.meaning machine.new) result }
    ensures count { (M.status machine.new).done ≡ (M.status machine.old).done }
    ensures promise { IsTrue M.tells → Keeps (M.meaning machine.old).clock (M.promise machine.old) (M.promise machine.new) }
    ensures faults { RunCall false (M.status machine.old) (M.status machine.new) result }
{
    for k in 0..count {
        match read_extent(machine, v, dsn, k)? {
            Some(run) => say_extent(alloc, machine, k + 1, &run)?,
            None => return Ok(()),
        }
    }
    Ok(())
}

// Prints the line of a data set.
fn say_set_line<M: Machine>(
    alloc: Global,
    machine: &mut M,
    dsn: &Dsn,
    info: &SetInfo,
) -> Result<(), Stop>
    requires { IsReady M.Machine machine.old }
    ensures { Says M.Machine (λ shelf. set_line dsn.now.bytes info.now ∷ []) machine.old machine.new result }
{
    let line = set_line(alloc, dsn, info)?;
    say(machine, &line)
}

// Prints the lines of a data set, of which this is known.
fn list_known_set<M: Machine>(
    alloc: Global,
    machine: &mut M,
    v: u8,
    dsn: &Dsn,
    format: bool,
    info: &SetInfo,
) -> Result<(), Stop>
    requires { IsReady M.Machine machine.old }
    ensures says { IsTrue M.tells → (x : DataSet) → set_on (M.meaning machine.old).state v dsn.now.bytes ≡ Some x → info.now ≡ set_info x → Runs M.tells_prints (map Say (set_lines format x)) (M.meaning machine.old) (M.meaning machine.new) result }
    ensures count { (M.status machine.new).done ≡ (M.status machine.old).done }
    ensures promise { IsTrue M.tells → Keeps (M.meaning machine.old).clock (M.promise machine.old) (M.promise machine.new) }
    ensures faults { RunCall false (M.status machine.old) (M.status machine.new) result }
{
    say_set_line(alloc, machine, dsn, info)?;
    if format {
        say_extents(alloc, machine, v, dsn, info.extents)
    } else {
        Ok(())
    }
}

// Prints the lines of a data set, if the volume has it, and tells whether it has.
fn list_set_by_name<M: Machine>(
    alloc: Global,
    machine: &mut M,
    v: u8,
    dsn: &Dsn,
    format: bool,
) -> Result<bool, Stop>
    requires { IsReady M.Machine machine.old }
    ensures says { IsTrue M.tells → Runs M.tells_prints (map Say (lines_of_set format (set_on (M.meaning machine.old).state v dsn.now.bytes))) (M.meaning machine.old) (M.meaning machine.new) result }
    ensures found { IsTrue M.tells → IfOk result (λ found. found ≡ is_some (set_on (M.meaning machine.old).state v dsn.now.bytes)) }
    ensures count { (M.status machine.new).done ≡ (M.status machine.old).done }
    ensures promise { IsTrue M.tells → Keeps (M.meaning machine.old).clock (M.promise machine.old) (M.promise machine.new) }
    ensures faults { RunCall false (M.status machine.old) (M.status machine.new) result }
{
    match read_info(machine, v, dsn)? {
        Some(info) => {
            list_known_set(alloc, machine, v, dsn, format, &info)?;
            Ok(true)
        }
        None => Ok(false),
    }
}

// Prints the lines of a data set, if the volume has it.
fn list_set<M: Machine>(
    alloc: Global,
    machine: &mut M,
    v: u8,
    dsn: &Dsn,
    format: bool,
) -> Result<(), Stop>
    requires { IsReady M.Machine machine.old }
    ensures { Says M.Machine (λ shelf. lines_of_set format (set_on shelf v dsn.now.bytes)) machine.old machine.new result }
{
    list_set_by_name(alloc, machine, v, dsn, format)?;
    Ok(())
}

// Prints the lines of all data sets of a volume.
fn say_all<M: Machine>(alloc: Global, machine: &mut M, v: u8, format: bool) -> Result<(), Stop>
    requires { IsReady M.Machine machine.old }
    ensures says { IsTrue M.tells → (volume : Volume) → slice_get (M.meaning machine.old).state.volumes v ≡ Some volume → Runs M.tells_prints (map Say (flat_map (set_lines format) volume.sets)) (M.meaning machine.old) (M.meaning machine.new) result }
    ensures later { IsTrue M.tells → (M.meaning machine.old).clock ≤ (M.meaning machine.new).clock }
    ensures count { (M.status machine.new).done ≡ (M.status machine.old).done }
    ensures promise { IsTrue M.tells → Keeps (M.meaning machine.old).clock (M.promise machine.old) (M.promise machine.new) }
    ensures faults { RunCall false (M.status machine.old) (M.status machine.new) result }
{
    for k in 0..MOST_SETS {
        match read_name(machine, v, k)? {
            Some(dsn) => list_set(alloc, machine, v, &dsn, format)?,
            None => return Ok(()),
        }
    }
    Ok(())
}

// Prints the lines of data sets by their names, up to the first that the volume hasn't, and gives what became of that.
fn say_named<M: Machine>(
    alloc: Global,
    machine: &mut M,
    v: u8,
    format: bool,
    names: &[Dsn],
) -> Result<Outcome, Stop>
    requires { IsReady M.Machine machine.old }
    ensures says { IsTrue M.tells → (volume : Volume) → slice_get (M.meaning machine.old).state.volumes v ≡ Some volume → Runs M.tells_prints (map Say (listed_sets format volume names.now).lines) (M.meaning machine.old) (M.meaning machine.new) result }
    ensures outcome { IsTrue M.tells → (volume : Volume) → slice_get (M.meaning machine.old).state.volumes v ≡ Some volume → IfOk result (λ outcome. outcome ≡ (listed_sets format volume names.now).outcome) }
    ensures later { IsTrue M.tells → (M.meaning machine.old).clock ≤ (M.meaning machine.new).clock }
    ensures count { (M.status machine.new).done ≡ (M.status machine.old).done }
    ensures promise { IsTrue M.tells → Keeps (M.meaning machine.old).clock (M.promise machine.old) (M.promise machine.new) }
    ensures faults { RunCall false (M.status machine.old) (M.status machine.new) result }
{
    let mut rest = names;
    loop {
        let (name, others) = match rest.split_first() {
            Some(parts) => parts,
            None => return Ok(Outcome::Done),
        };
        if !list_set_by_name(alloc, machine, v, name, format)? {
            return Ok(Outcome::Refused(Refusal::NoSet));
        }
        rest = others;
    }
}

// Prints the lines of the data sets that are asked for.
fn say_sets<M: Machine>(
    alloc: Global,
    machine: &mut M,
    v: u8,
    request: &ListVtoc,
) -> Result<Outcome, Stop>
    requires { IsReady M.Machine machine.old }
    ensures says { IsTrue M.tells → (volume : Volume) → slice_get (M.meaning machine.old).state.volumes v ≡ Some volume → Runs M.tells_prints (map Say (listed_on request.now.format volume request.now.names).lines) (M.meaning machine.old) (M.meaning machine.new) result }
    ensures outcome { IsTrue M.tells → (volume : Volume) → slice_get (M.meaning machine.old).state.volumes v ≡ Some volume → IfOk result (λ outcome. outcome ≡ (listed_on request.now.format volume request.now.names).outcome) }
    ensures later { IsTrue M.tells → (M.meaning machine.old).clock ≤ (M.meaning machine.new).clock }
    ensures count { (M.status machine.new).done ≡ (M.status machine.old).done }
    ensures promise { IsTrue M.tells → Keeps (M.meaning machine.old).clock (M.promise machine.old) (M.promise machine.new) }
    ensures faults { RunCall false (M.status machine.old) (M.status machine.new) result }
{
    match &request.names {
        Some(names) => say_named(alloc, machine, v, request.format, names.as_slice()),
        None => {
            say_all(alloc, machine, v, request.format)?;
            Ok(Outcome::Done)
        }
    }
}

// Prints the line of a volume.
fn say_volume_line<M: Machine>(
    alloc: Global,
    machine: &mut M,
    info: &VolumeInfo,
) -> Result<(), Stop>
    requires { IsReady M.Machine machine.old }
    ensures { Says M.Machine (λ shelf. volume_line info.now ∷ []) machine.old machine.new result }
{
    let line = volume_line(alloc, info)?;
    say(machine, &line)
}

/// Prints the lines of a volume and of the data sets that are asked for, and gives what became of that.
pub fn say_volume<M: Machine>(
    alloc: Global,
    machine: &mut M,
    v: u8,
    info: &VolumeInfo,
    request: &ListVtoc,
) -> Result<Outcome, Stop>
    requires { IsReady M.Machine machine.old }
    ensures says { IsTrue M.tells → (volume : Volume) → slice_get (M.meaning machine.old).state.volumes v ≡ Some volume → info.now ≡ volume_info volume → Runs M.tells_prints (map Say (volume_listing request.now volume).lines) (M.meaning machine.old) (M.meaning machine.new) result }
    ensures outcome { IsTrue M.tells → (volume : Volume) → slice_get (M.meaning machine.old).state.volumes v ≡ Some volume → IfOk result (λ outcome. outcome ≡ (volume_listing request.now volume).outcome) }
    ensures later { IsTrue M.tells → (M.meaning machine.old).clock ≤ (M.meaning machine.new).clock }
    ensures count { (M.status machine.new).done ≡ (M.status machine.old).done }
    ensures promise { IsTrue M.tells → Keeps (M.meaning machine.old).clock (M.promise machine.old) (M.promise machine.new) }
    ensures faults { RunCall false (M.status machine.old) (M.status machine.new) result }
{
    say_volume_line(alloc, machine, info)?;
    say_sets(alloc, machine, v, request)
}
