//! Decks of jobs: the steps and DD statements that cards of JCL ask for, or the first fault of each job.
#![tactic(auto)]

mod dd_operands;
mod deck;
mod exec_operands;
mod faults;
mod jcl_cards;
mod job;
mod operands;
mod reading;
mod statements;
mod taken;

pub use deck_cards::{DeckErr, read_deck};
pub use faults::{JclErr, JclKind};
pub use jcl_forms::{Dcb, DdAfter, DdPart, DdStatus, Space, SpaceAsk};
pub use job::{DataCards, Dd, DdSet, DdWhat, Dds, Job, Step, Steps};
pub use reading::jobs;
