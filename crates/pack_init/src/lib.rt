//! New packs: an image with a label, a VTOC of free slots and empty tracks, made as a new file.
#![tactic(auto)]

mod dscbs;
mod error;
mod law;
mod layout;
mod pack;
mod tracks;

pub use error::InitErr;
pub use law::new_pack_law;
pub use pack::init;
