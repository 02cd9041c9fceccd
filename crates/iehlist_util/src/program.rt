//! IEHLIST in a step.
ghost use Rattle.std.specs.Prelude.{◌≡◌, ◌≤◌, [], codes, false, length, map, slice_get, IsTrue, IfOk};
ghost use Rattle.vol_model.specs.declared.contents.Volume.{Volume};
ghost use Rattle.vol_model.specs.Calls.{Keeps};
ghost use Rattle.vol_model.specs.Reading.{volume_info};
ghost use Rattle.vol_model.specs.Runs.{RunCall};
ghost use Rattle.util_steps.specs.Items.{DoesItem};
ghost use Rattle.util_steps.specs.Taking.{IsReady, RunsItems, TakesItem};
ghost use Rattle.iehlist_util.specs.Directories.{pds_listing};
ghost use Rattle.iehlist_util.specs.Items.{FindsVolume, asked_item, directories_item, iehlist_items, listing_item, named_serial, no_volume_item, pds_item, statement_item, volume_for, volume_listing, vtoc_item};

use crate::directories::say_directories;
use crate::listing::say_volume;
use crate::requests::{ListPds, ListVtoc, Request, request_of};
use ebcdic_names::Serial;
use std::alloc::Global;
use util_program::{Program, report_fault, report_outcome, run_program};
use util_steps::find_volume;
use util_syntax::{Object, Outcome, Statement, StepIn, SynErr};
use vol_model::{Machine, Refusal, Stop, VolumeInfo};

// The serial of a volume that isn't named: blanks in EBCDIC.
const NO_SERIAL: Serial = Serial { bytes: [0x40; 6] };

/// Runs IEHLIST in a step (Utilities GC28-6586, in this project's profile), and gives the step's code, the highest of
/// its statements.
///
/// SYSIN has the statements; it is cards or DUMMY, else the step ends with `NO-DD` and 16. SYSPRINT isn't needed. A
/// statement lists what is on one volume, which is unit 0 without VOL. After its list a line answers it, with `OK`, or
/// with the first refusal and 8. Where the volume isn't there, `NO-VOLUME` is the only line.
///
/// - `LISTVTOC [VOL=dev=serial][,FORMAT][,DSNAME=(dsn,..)]` prints a line for the volume, one for each of its data sets,
///   or for those that are named, and with FORMAT one for each extent. A named set that isn't there ends the list with
///   `NO-SET`. The answer names the volume's serial; none where the shelf has no volume at all and VOL is missing.
/// - `LISTPDS DSNAME=(dsn,..)[,VOL=dev=serial]` prints for each of these partitioned sets a line for its directory and
///   one for each entry. The list ends at the first set that isn't there (`NO-SET`), isn't partitioned (`WRONG-KIND`) or
///   can't be read (`UNREADABLE`), which has no line of its own. The answer names that set, or the last; and the first
///   where the volume isn't there.
///
/// Any other statement, and one without these operands, is `SYNTAX BAD-OPERAND` with 12, and the next statement is done
/// all the same.
pub fn run<M: Machine>(alloc: Global, machine: &mut M, step: &StepIn) -> Result<u8, Stop>
    requires { IsReady M.Machine machine.old }
    ensures { RunsItems M.Machine (iehlist_items step.now) machine.old machine.new result }
{
    let program = Iehlist { alloc };
    run_program(alloc, machine, step, &program)
}

// The program.
#[derive(Drop)]
struct Iehlist {
    alloc: Global,
}

impl<M: Machine> Program<M> for Iehlist {
    ghost item = { λ program. statement_item };

    fn answer(&self, machine: &mut M, statement: &Statement) -> Result<u8, Stop> {
        match request_of(self.alloc, statement)? {
            Some(request) => answer(self.alloc, machine, statement.card, &request),
            None => report_fault(self.alloc, machine, statement.card, SynErr::BadOperand),
        }
    }
}

// The volume that is listed, by its serial or as the first, with its number on the shelf.
fn volume_for<M: Machine>(machine: &M, serial: Option<Serial>) -> Option<(u8, VolumeInfo)>
    requires { IsTrue (M.status machine.now).is_sound }
    ensures { IsTrue M.tells → FindsVolume (M.meaning machine.now).state serial result }
{
    let v = match &serial {
        Some(serial) => find_volume(machine, serial)?,
        None => 0,
    };
    match machine.volume(v) {
        Some(info) => Some((v, info)),
        None => None,
    }
}

// Lists what a statement asks for, and answers it.
fn answer<M: Machine>(
    alloc: Global,
    machine: &mut M,
    card: u32,
    request: &Request,
) -> Result<u8, Stop>
    requires { IsReady M.Machine machine.old }
    ensures { TakesItem M.Machine (λ shelf. asked_item shelf card request.now) machine.old machine.new result }
{
    match request {
        Request::Vtoc(request) => answer_vtoc(alloc, machine, card, request),
        Request::Pds(request) => answer_pds(alloc, machine, card, request),
    }
}

// Lists a volume that is asked for, if it is there, and answers the statement.
fn answer_vtoc<M: Machine>(
    alloc: Global,
    machine: &mut M,
    card: u32,
    request: &ListVtoc,
) -> Result<u8, Stop>
    requires { IsReady M.Machine machine.old }
    ensures item { IsTrue M.tells → DoesItem M.tells_prints (vtoc_item card request.now (volume_for (M.meaning machine.old).state request.now.volume)) (M.meaning machine.old) (M.meaning machine.new) (M.status machine.old).done (M.status machine.new).done result }
    ensures small { IfOk result (λ code. code ≤ 16) }
    ensures promise { IsTrue M.tells → Keeps (M.meaning machine.old).clock (M.promise machine.old) (M.promise machine.new) }
    ensures faults { RunCall false (M.status machine.old) (M.status machine.new) result }
{
    match volume_for(machine, request.volume) {
        Some((v, info)) => list_volume(alloc, machine, card, v, &info, request),
        None => {
            let object = Object::Volume(named_serial(request));
            report_no_volume(alloc, machine, card, "LISTVTOC", &object)
        }
    }
}

// The serial that a statement names; six blanks where it names none.
fn named_serial(request: &ListVtoc) -> Serial
    ensures { result ≡ named_serial request.now.volume }
{
    match &request.volume {
        Some(serial) => *serial,
        None => NO_SERIAL,
    }
}

// Lists a volume, and answers the statement.
fn list_volume<M: Machine>(
    alloc: Global,
    machine: &mut M,
    card: u32,
    v: u8,
    info: &VolumeInfo,
    request: &ListVtoc,
) -> Result<u8, Stop>
    requires { IsReady M.Machine machine.old }
    ensures item { IsTrue M.tells → (volume : Volume) → slice_get (M.meaning machine.old).state.volumes v ≡ Some volume → info.now ≡ volume_info volume → DoesItem M.tells_prints (listing_item card (codes "LISTVTOC") (Object.Volume info.now.serial) (volume_listing request.now volume)) (M.meaning machine.old) (M.meaning machine.new) (M.status machine.old).done (M.status machine.new).done result }
    ensures small { IfOk result (λ code. code ≤ 16) }
    ensures promise { IsTrue M.tells → Keeps (M.meaning machine.old).clock (M.promise machine.old) (M.promise machine.new) }
    ensures faults { RunCall false (M.status machine.old) (M.status machine.new) result }
{
    let outcome = say_volume(alloc, machine, v, info, request)?;
    let object = Object::Volume(info.serial);
    report_outcome(alloc, machine, card, "LISTVTOC", &object, outcome)
}

// Lists the directories that are asked for, if their volume is there, and answers the statement.
fn answer_pds<M: Machine>(
    alloc: Global,
    machine: &mut M,
    card: u32,
    request: &ListPds,
) -> Result<u8, Stop>
    requires { IsReady M.Machine machine.old }
    ensures item { IsTrue M.tells → DoesItem M.tells_prints (pds_item card request.now (volume_for (M.meaning machine.old).state request.now.volume)) (M.meaning machine.old) (M.meaning machine.new) (M.status machine.old).done (M.status machine.new).done result }
    ensures small { IfOk result (λ code. code ≤ 16) }
    ensures promise { IsTrue M.tells → Keeps (M.meaning machine.old).clock (M.promise machine.old) (M.promise machine.new) }
    ensures faults { RunCall false (M.status machine.old) (M.status machine.new) result }
{
    match volume_for(machine, request.volume) {
        Some((v, _)) => list_directories(alloc, machine, card, v, request),
        None => {
            let object = Object::Name(request.first);
            report_no_volume(alloc, machine, card, "LISTPDS", &object)
        }
    }
}

// Lists directories of a volume, and answers the statement.
fn list_directories<M: Machine>(
    alloc: Global,
    machine: &mut M,
    card: u32,
    v: u8,
    request: &ListPds,
) -> Result<u8, Stop>
    requires { IsReady M.Machine machine.old }
    ensures item { IsTrue M.tells → (volume : Volume) → slice_get (M.meaning machine.old).state.volumes v ≡ Some volume → DoesItem M.tells_prints (directories_item card (pds_listing volume request.now.first request.now.others)) (M.meaning machine.old) (M.meaning machine.new) (M.status machine.old).done (M.status machine.new).done result }
    ensures small { IfOk result (λ code. code ≤ 16) }
    ensures promise { IsTrue M.tells → Keeps (M.meaning machine.old).clock (M.promise machine.old) (M.promise machine.new) }
    ensures faults { RunCall false (M.status machine.old) (M.status machine.new) result }
{
    let answer = say_directories(alloc, machine, v, request)?;
    let object = Object::Name(answer.dsn);
    report_outcome(alloc, machine, card, "LISTPDS", &object, answer.outcome)
}

// Answers a statement whose volume isn't there.
fn report_no_volume<M: Machine>(
    alloc: Global,
    machine: &mut M,
    card: u32,
    operation: &str,
    object: &Object,
) -> Result<u8, Stop>
    requires { IsReady M.Machine machine.old }
    ensures { TakesItem M.Machine (λ shelf. no_volume_item card operation.now object.now) machine.old machine.new result }
{
    report_outcome(
        alloc,
        machine,
        card,
        operation,
        object,
        Outcome::Refused(Refusal::NoVolume),
    )
}
