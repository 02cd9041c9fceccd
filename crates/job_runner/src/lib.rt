//! The jobs of a deck on any machine: their steps, DDs, programs and dispositions, and the lines that frame them.
#![tactic(auto)]

mod definitions;
mod dispositions;
mod frames;
mod jobs;
mod lines;
mod new_sets;
mod operations;
mod programs;
mod steps;

pub use jobs::{Ran, accepted_law, run_jobs};
