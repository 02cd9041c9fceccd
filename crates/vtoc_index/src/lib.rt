//! The slots of a volume's VTOC: read by the rules of mounting, found by name, and written one at a time.
#![tactic(auto)]

mod bits;
mod equal_names;
mod extent;
mod free;
mod header;
mod label;
mod last;
mod named;
mod ordered;
mod owned;
mod put;
mod read;
mod rules;
mod set_extents;
mod tracks;
mod vol;
mod vtoc_extent;

pub use bits::set_bit;
pub use free::free_slot;
pub use last::set_last;
pub use named::{find, name_at};
pub use ordered::{enter_name, forget_name, reorder};
pub use pack_spec::MountErr;
pub use put::{put_slot, slot_address};
pub use read::read_vtoc;
pub use vol::Vol;
