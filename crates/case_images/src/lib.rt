//! What cases of the volume manager are written in: bytes as words, images of packs that are built record
//! by record, and what a run printed and changed as text. It is proved to be safe; what it makes is seen in
//! the output of the cases.
#![tactic(auto)]

mod bytes;
mod change;
mod pack;

pub use bytes::{Named, bytes_of, find, number, unread};
pub use change::{push_changes, push_printed};
pub use pack::{Cursor, blank, put};
