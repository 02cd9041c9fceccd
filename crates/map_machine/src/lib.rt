//! The plain machine: a shelf in memory, changed by its definition, for tests of what works on machines.
#![tactic(auto)]

mod changes;
mod machine;
mod past;
mod reads;
mod rooms;
mod space;

pub use machine::MapMachine;
