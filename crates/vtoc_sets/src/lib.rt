//! What the index of a VTOC says of the data sets on its volume: their attributes, their extents and the slots that they
//! take (System Control Blocks, GC28-6628).
#![tactic(auto)]

mod extents;
mod sets;
mod space;
mod tracks;

pub use extents::{Space, run_at, space_of};
pub use sets::{BodyKind, attr_of, body_kind, fits_mode, has_no_block, set_at};
pub use space::{slots_for, slots_needed, slots_of_sets, tracks_in};
pub use tracks::track_at;
