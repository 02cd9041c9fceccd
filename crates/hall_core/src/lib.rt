//! The outside of the program: the files that it is given, where it prints, and where it reads cards.
#![tactic(auto)]

mod cards;
mod hall;
mod mem_cards;
mod mem_hall;
mod steps;

pub use cards::{Cards, ReadFault};
pub use hall::{Hall, HallErr, fault};
pub use mem_cards::MemCards;
pub use mem_hall::{Call, Left, MemHall};
pub use steps::{Device, write_through};
