//! IEBGENER, which copies cards, a sequential data set or a member to a sequential data set or to members (Utilities
//! GC28-6586, in this project's profile).
#![tactic(auto)]

mod copying;
mod edited;
mod editing;
mod orders;
mod program;
mod requests;
mod skipped_groups;

pub use orders::{Order, OutputOrder, orders_of};
pub use program::run;
pub use requests::{Edit, Field, Ident, Names, Origin, Request, request_of};
