//! Tests of large crates, each by its public calls. A crate with tests is proved twice, with them and without, so the
//! tests of a large crate stand here and those of a small one in the crate.
#![tactic(auto)]

#[cfg(test)]
mod hall_core_tests;
#[cfg(test)]
mod job_deck_tests;
#[cfg(test)]
mod pack_init_tests;
#[cfg(test)]
mod plain_steps_tests;
#[cfg(test)]
mod record_blocks_tests;
#[cfg(test)]
mod util_syntax_tests;
#[cfg(test)]
mod vol_model_tests;
