//! A catalog in memory: its chains, as they are read from its blocks (the catalog of System Control Blocks
//! GC28-6628; the content of its blocks: this project's profile).
#![tactic(auto)]

mod branch;
mod entries;
mod finding;
mod generations;
mod held;
mod laws;
mod leads;
mod lookups;
mod reading;
mod suiting;
mod tree;
mod writes;

pub use branch::Branch;
pub use entries::name_in;
pub use finding::{branch_at, way_place};
pub use generations::is_generation;
pub use held::{Located, name_number};
pub use laws::turn_law;
pub use lookups::read_tree;
pub use reading::Branches;
pub use tree::Tree;
pub use writes::BlockWrite;
