//! Records that utilities read and write: of cards, of sequential data sets and of members (Utilities GC28-6586, in this
//! project's profile).
#![tactic(auto)]

mod attributes;
mod block_reading;
mod block_records;
mod card_records;
mod inputs;
mod members;
mod putting;
mod reader;
mod record_writer;
mod sources;
mod taken;
mod writing;

pub use attributes::{Purpose, breaks_rule, find_set, first_refusal, format_in, output_attr};
pub use block_reading::is_end_of_file;
pub use block_records::BlockRecords;
pub use card_records::{CardRecords, in_ebcdic};
pub use inputs::{Input, RecordInput, find_input, found_both, input_format};
pub use members::{EntryName, enter_name, find_member, has_entry, start_of};
pub use reader::{RecordReader, open_input};
pub use sources::RecordSource;
pub use taken::Taken;
pub use writing::{add_records, rewrite_set, write_member, write_records};
