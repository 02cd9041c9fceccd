//! Records of data sets, written over and made durable.
#![tactic(auto)]

mod rewriting;

pub use rewriting::rewrite_record;
