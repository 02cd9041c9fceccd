//! IEBUPDTE, which writes and changes the members of a source library by cards (Utilities GC28-6586, in this project's
//! profile).
#![tactic(auto)]

mod checking;
mod edited;
mod old_records;
mod program;
mod updating;

pub use program::run;
