//! IEHLIST, which lists the VTOC of a volume and the directories of partitioned data sets (Utilities GC28-6586, in this
//! project's profile).
#![tactic(auto)]

mod directories;
mod lines;
mod listing;
mod program;
mod requests;

pub use directories::PdsAnswer;
pub use lines::{directory_line, entry_line, extent_line, set_line, volume_line};
pub use program::run;
pub use requests::{ListPds, ListVtoc, Request, request_of};
