//! The operations on the data sets of a volume, each in the order of writes that a stop leaves undone or done.
#![tactic(auto)]

mod added;
mod allocating;
mod emptying;
mod extending;
mod formatting;
mod naming;
mod new_set;
mod planning;
mod scratching;

pub use allocating::allocate;
pub use emptying::empty;
pub use extending::extend;
pub use naming::rename;
pub use scratching::scratch;
