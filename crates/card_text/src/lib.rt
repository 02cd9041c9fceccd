//! Cards as text: characters with their places, and the words, fields, lists and operands that they are cut into.
//!
//! Utility statements (Utilities GC28-6586) and job control statements are both read with what stands here.
#![tactic(auto)]

mod cards;
mod characters;
mod names;
mod nesting;
mod operands;
mod text;
mod values;

pub use cards::{
    Card, CardColumn, Numbered, cards_up_to, first_place, missing_place, statement_characters,
};
pub use characters::{
    Character, bytes_of, characters_of, ends_in_comma, field_part, first_word, in_quotes,
    past_blanks,
};
pub use names::{data_set_name_of, name_of, number_of, volume_serial_of};
pub use nesting::{Mark, first_piece, is_unbalanced, nested};
pub use operands::{Operand, keyed, read_operand};
pub use text::Text;
pub use values::{LEVELS, Value, inner, is_quoted, is_word, read_value, text_of, unquoted};
