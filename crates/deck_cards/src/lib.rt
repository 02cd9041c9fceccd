//! The cards of a deck, from the bytes of its source.
#![tactic(auto)]

mod reader;
mod source;

pub use card_text::Card;
pub use reader::DeckErr;
pub use source::read_deck;

#[cfg(test)]
mod tests;
