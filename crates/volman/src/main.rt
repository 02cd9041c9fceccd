//! The volume manager: `volman run --date yyddd FILE...` runs a deck of jobs over packs, `init` makes a pack,
//! `names` prints the names of the data sets on one, and `check` says whether one is settled.
#![tactic(auto)]

ghost use Rattle.std.specs.Prelude.{◌≡◌, ◌≢◌, [], IfOk, IfErr, IsOkAnd, IsErr};
ghost use Rattle.std.specs.Vec.Iter.{into_iter_items};
ghost use Rattle.std.specs.IoError.{error_kind};
ghost use Rattle.volume_manager.specs.Run.{IsStatus};

use hall_files::{FileHall, StdCards};
use std::alloc::{AllocError, Global};
use std::env::{self, Args};
use std::fs::{File, Files};
use std::io::{self, ErrorKind, Input, Print};
use std::process::ExitCode;
use std::rt::Env;
use volume_manager::{NO_MEMORY, volman};

fn main(rt: HostRuntime) -> ExitCode {
    ExitCode::from(run(&rt))
}

// Runs the program over the command line, the standard input, the files of the system and the
// standard output.
fn run<R: Files<File = File> + Input + Print + Env + AllocGlobal>(rt: &R) -> u8
    ensures { IsStatus result }
{
    let Ok(words) = words_in(rt.alloc(), env::args(rt)) else {
        return NO_MEMORY;
    };
    let mut cards = StdCards::new(rt.reader());
    let mut hall = FileHall::new(rt.alloc(), rt);
    volman(rt.alloc(), &words, &mut cards, &mut hall)
}

// The words that the system gave, the program's name first, or no words where it says that one isn't
// text. Any other error is want of memory.
fn words_in(alloc: Global, given: io::Result<Args>) -> Result<Vec<String>, AllocError>
    ensures given { IfOk given (λ args. IfOk result (λ words. words.items ≡ into_iter_items args)) }
    ensures no_text { IfErr given (λ e. error_kind e ≡ ErrorKind.InvalidData
        → IsOkAnd result (λ words. words.items ≡ [])) }
    ensures memory { IfErr given (λ e. error_kind e ≢ ErrorKind.InvalidData → IsErr result) }
{
    match given {
        Ok(args) => args.collect(alloc),
        Err(error) if error.kind() == ErrorKind::InvalidData => Ok(Vec::new(alloc)),
        Err(_) => Err(AllocError),
    }
}
