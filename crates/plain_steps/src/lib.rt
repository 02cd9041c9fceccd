//! Plain programs of the definitions of volumes and of the operations on them: each gives what its definition says, or
//! memory ran out. They are written from the definitions, and aren't fast.
#![tactic(auto)]

mod allocating;
mod below;
mod catalogs;
mod choosing;
mod copies;
mod directories;
mod emptying;
mod lists;
mod needed;
mod nodes;
mod places;
mod sets;
mod sorting;
mod space;
mod steps;
mod ways;
mod writing;

pub use allocating::{allocate_on, extend_on, slots_needed, tracks_in};
pub use below::child_at;
pub use catalogs::{
    CatalogedSet, DroppedNode, NewAlias, NewIndex, NodesChange, UncatalogedSet, on_catalog,
};
pub use choosing::choice;
pub use copies::{Copies, copy_items};
pub use directories::{drop_on, enter_on, with_entry};
pub use emptying::empty_on;
pub use lists::{Test, is_less, where_passed, with_copies};
pub use needed::{Measured, directory_needed};
pub use places::{directory_end, next_place};
pub use sets::{Change, has_set, rename_on, scratch_on, set_of, with_set};
pub use sorting::in_order;
pub use space::free_runs;
pub use steps::step_on;
pub use ways::{Node, named_path, node_at, true_path};
pub use writing::{
    Content, Contents, fits_a_track, placed, put_first, put_last, with_blocks, write_on,
    write_refusal, written,
};
