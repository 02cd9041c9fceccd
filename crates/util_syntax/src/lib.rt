//! The statements of the utilities, the steps that they run in, and the lines that answer them.
#![tactic(auto)]

mod forms;
mod items;
mod lines;
mod listing;
mod operands;
mod program;
mod step;

pub use card_text::{Card, Operand, Value};
pub use forms::{
    data_set_in, data_set_of, data_sets_if_given, data_sets_in, flag_of, has_keyword, is_flag,
    is_named, member_in, member_of, value_of, volume_if_given, volume_in, volume_of,
};
pub use items::{Item, Statement, statements};
pub use jcl_forms::Dcb;
pub use listing::{Object, Outcome, item_line, jcl_line, no_dd_line, no_program_line, syntax_line};
pub use operands::SynErr;
pub use program::{SYSIN, StatementFault, bad_operand, sysin_statements};
pub use step::{DataCards, DdIn, DdTable, StepIn};
