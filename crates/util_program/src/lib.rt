//! What the programs share that do the statements of SYSIN: their operations with the outcomes, the lines that answer
//! statements and faults, and the loop over the statements.
#![tactic(auto)]

mod answers;
mod operations;
mod statements;

pub use answers::{report_fault, report_no_dd, report_outcome, report_steps};
pub use operations::{outcome_for, perform};
pub use statements::{Program, run_program};
