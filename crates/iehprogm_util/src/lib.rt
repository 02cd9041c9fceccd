//! IEHPROGM, which renames and scratches data sets and members (Utilities GC28-6586, in this
//! project's profile).
#![tactic(auto)]

mod program;
mod requests;
mod steps;

pub use program::run;
pub use requests::{Request, request_of};
