//! What the system gives a program: its files as units of a hall, the standard output that the hall
//! prints on, and cards of the standard input.
#![tactic(auto)]

mod file_hall;
mod std_cards;

pub use file_hall::FileHall;
pub use std_cards::StdCards;
