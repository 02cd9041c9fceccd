//! IEBCOPY, which copies members of partitioned data sets to another (Utilities GC28-6586, in this
//! project's profile).
#![tactic(auto)]

mod area;
mod copying;
mod members;
mod orders;
mod program;
mod reporting;
mod requests;
mod sets;
mod tasks;
mod walking;

pub use orders::{Choice, CopyOrder, Order, orders_of};
pub use program::run;
pub use requests::{CopyDds, InputDd, Pick, Request, request_of};
