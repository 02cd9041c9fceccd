//! Cards of JCL.
ghost use Rattle.std.specs.Prelude.{◌≡◌, OnOk};
ghost use Rattle.job_deck.specs.JclCards.{is_jcl, is_comment, has_blanks, is_end, ends_data, continues, field_with_card};

use card_text::{Character, Numbered, field_part, in_quotes, past_blanks, statement_characters};
use std::alloc::{AllocError, Global};

#[tactic(auto, unfolding(crate::specs::JclCards::is_jcl))]
pub fn is_jcl(card: &Numbered) -> bool
    ensures { result ≡ is_jcl card.now }
{
    card.1.bytes[0] == b'/' && card.1.bytes[1] == b'/'
}

#[tactic(auto, unfolding(crate::specs::JclCards::is_comment))]
pub fn is_comment(card: &Numbered) -> bool
    ensures { result ≡ is_comment card.now }
{
    is_jcl(card) && card.1.bytes[2] == b'*'
}

fn has_blanks(columns: &[u8]) -> bool
    ensures { result ≡ has_blanks columns.now }
{
    columns.iter().all(|byte| *byte == b' ')
}

// Whether a card ends a job: two slashes and blanks.
#[tactic(auto, unfolding(crate::specs::JclCards::is_end))]
pub fn is_end(card: &Numbered) -> bool
    ensures { result ≡ is_end card.now }
{
    is_jcl(card) && has_blanks(&card.1.bytes[2..71])
}

// Whether a card is the one that ends data.
#[tactic(auto, unfolding(crate::specs::JclCards::ends_data))]
pub fn ends_data(card: &Numbered) -> bool
    ensures { result ≡ ends_data card.now }
{
    card.1.bytes[0] == b'/' && card.1.bytes[1] == b'*'
}

// Whether a card can continue operands.
#[tactic(auto, unfolding(crate::specs::JclCards::continues))]
pub fn continues(card: &Numbered) -> bool
    ensures { result ≡ continues card.now }
{
    is_jcl(card) && card.1.bytes[2] == b' ' && !is_end(card)
}

// Adds the operands of a card that continues them.
#[tactic(auto, unfolding(crate::specs::JclCards::field_with_card))]
pub fn add_card(
    alloc: Global,
    field: &mut Vec<Character>,
    card: &Numbered,
) -> Result<(), AllocError>
    ensures { OnOk result (field.new.items ≡ field_with_card field.old.items card.now) }
{
    let text = statement_characters(alloc, in_quotes(field), card)?;
    if text.len() < 2 {
        return Ok(());
    }
    field.extend_from_slice(field_part(past_blanks(&text[2..])))
}
