//! Cases of the volume manager that are text: a driver builds the packs, does the runs, and prints what each
//! run answers and changes. It is proved to be safe; what it prints is compared.
#![tactic(auto)]

mod bench;
mod closed;
mod play;
mod run;
mod unsteady;

use bench::Bench;
use std::{env, fs, io};

fn main(rt: HostRuntime) -> io::Result<()> {
    let mut bench = Bench::new(rt.alloc());
    for name in env::args(&rt)?.skip(1) {
        let text = fs::read_to_string(&rt, name.as_str())?;
        play::play(&rt, &mut bench, text.as_str())?;
    }
    Ok(())
}
