//! What utilities write: a sequential data set, or a member of a library with its names (Utilities GC28-6586, in this
//! project's profile).
#![tactic(auto)]

mod members;
mod outputs;

pub use members::{Names, enter, find_library};
pub use outputs::{
    Output, SYSUT1, SYSUT2, end_without_dd, find_output, is_same, set_in, write_output,
};
