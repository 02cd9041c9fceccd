//! Numbers on cards that have a limit.
ghost use Rattle.std.specs.Prelude.{◌≡◌, ◌<◌, IfSome};
ghost use Rattle.jcl_forms.specs.Numbers.{number_below, number_or_zero};

use card_text::number_of;

/// The number that a text of one to eight digits is, if it is less than a limit.
#[tactic(auto, unfolding(crate::specs::Numbers::number_below))]
pub fn number_below(limit: u32, text: &[u8]) -> Option<u32>
    ensures value { result ≡ number_below limit text.now }
    ensures small { IfSome result (λ n. n < limit) }
{
    match number_of(text) {
        Some(number) if number < limit => Some(number),
        _ => None,
    }
}

// A number that may be left out.
#[tactic(auto, unfolding(crate::specs::Numbers::number_or_zero))]
pub fn number_or_zero(limit: u32, text: &[u8]) -> Option<u32>
    ensures { result ≡ number_or_zero limit text.now }
{
    if text.is_empty() {
        Some(0)
    } else {
        number_below(limit, text)
    }
}
