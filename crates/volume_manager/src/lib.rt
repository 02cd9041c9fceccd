//! The volume manager: all that the program `volman` does, over the files and the printer of a hall and
//! over the cards of a source.
#![tactic(auto)]

mod attach;
mod cause;
mod check;
mod end;
mod init;
mod mount;
mod names;
mod reason;
mod run;
mod text;
mod top;
mod work;

pub use cause::NO_MEMORY;
pub use top::volman;
