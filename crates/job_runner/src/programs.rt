//! The programs that steps run.
ghost use Rattle.std.specs.Prelude.{◌≡◌};
ghost use Rattle.util_steps.specs.Taking.{IsReady, RunsItems};
ghost use Rattle.job_runner.specs.Programs.{program_items, program_named};

use ebcdic_names::Name8;
use std::alloc::Global;
use util_syntax::StepIn;
use vol_model::{Machine, Stop};

/// A program.
#[derive(Clone, Copy, Debug, PartialEq, Eq)]
pub enum Program {
    /// IEFBR14, which does nothing.
    Iefbr14,
    /// IEHPROGM, which renames and scratches data sets and members.
    Iehprogm,
    /// IEHLIST, which lists volumes and directories.
    Iehlist,
    /// IEBGENER, which copies records.
    Iebgener,
    /// IEBCOPY, which copies members.
    Iebcopy,
    /// IEBUPDTE, which writes and changes source members by cards.
    Iebupdte,
}

// The programs by their names in EBCDIC.
#[rattlefmt::skip]
const PROGRAMS: [([u8; 8], Program); 6] = [
    ([0xC9, 0xC5, 0xC6, 0xC2, 0xD9, 0xF1, 0xF4, 0x40], Program::Iefbr14),
    ([0xC9, 0xC5, 0xC8, 0xD7, 0xD9, 0xD6, 0xC7, 0xD4], Program::Iehprogm),
    ([0xC9, 0xC5, 0xC8, 0xD3, 0xC9, 0xE2, 0xE3, 0x40], Program::Iehlist),
    ([0xC9, 0xC5, 0xC2, 0xC7, 0xC5, 0xD5, 0xC5, 0xD9], Program::Iebgener),
    ([0xC9, 0xC5, 0xC2, 0xC3, 0xD6, 0xD7, 0xE8, 0x40], Program::Iebcopy),
    ([0xC9, 0xC5, 0xC2, 0xE4, 0xD7, 0xC4, 0xE3, 0xC5], Program::Iebupdte),
];

/// The program of a name, if there is one.
pub fn program_named(name: &Name8) -> Option<Program>
    ensures { result ≡ program_named name.now }
{
    for (known, program) in PROGRAMS {
        if name.bytes == known {
            return Some(program);
        }
    }
    None
}

/// Runs a program in a step, and gives its code.
pub fn run_program<M: Machine>(
    alloc: Global,
    machine: &mut M,
    program: Program,
    step: &StepIn,
) -> Result<u8, Stop>
    requires { IsReady M.Machine machine.old }
    ensures { RunsItems M.Machine (program_items program step.now) machine.old machine.new result }
{
    match program {
        Program::Iefbr14 => Ok(0),
        Program::Iehprogm => iehprogm_util::run(alloc, machine, step),
        Program::Iehlist => iehlist_util::run(alloc, machine, step),
        Program::Iebgener => iebgener_util::run(alloc, machine, step),
        Program::Iebcopy => iebcopy_util::run(alloc, machine, step),
        Program::Iebupdte => iebupdte_util::run(alloc, machine, step),
    }
}
