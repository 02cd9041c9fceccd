//! The values of the operands of a DD statement.
#![tactic(auto)]

mod attributes;
mod data_set;
mod dates;
mod disposition;
mod numbers;
mod parts;
mod space;
mod volume;

pub use attributes::{Dcb, attributes_of};
pub use data_set::{DdPart, data_set_of};
pub use dates::{date_after, date_in, expiry_of};
pub use disposition::{DdAfter, DdStatus, disposition_of};
pub use numbers::number_below;
pub use space::{Space, SpaceAsk, space_of};
pub use volume::volume_of;
