//! A mounted pack: operations on it and reads of it, with what is known of the bodies on it.
#![tactic(auto)]

mod area_start;
mod blocks;
mod entries;
mod libraries;
mod operations;
mod pack;
mod pack_cache;
mod reads;
mod refusals;
mod space;
mod unread;

pub use area_start::{AreaStart, NO_AREA_START, area_start_on};
pub use blocks::{read_block_on, read_into_on};
pub use libraries::cached_directory_on;
pub use operations::{extend_on, operate_pack};
pub use pack::Pack;
pub use pack_cache::PackCache;
pub use reads::{extent_in, has_catalog, info_in, write_refusal_in};
pub use space::volume_info;
pub use unread::{Unread, unread_of};
