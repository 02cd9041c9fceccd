//! The words of the command line, as `clap` reads them, and what they ask for.
#![tactic(auto)]

mod action;
mod command;
mod requests;
mod values;

pub use action::{Action, NewPack};
pub use requests::action_of;
