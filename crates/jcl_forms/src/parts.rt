//! The parts of an operand's value.
ghost use Rattle.std.specs.Prelude.{◌≡◌, ◌<◌, ◌∷◌, length, position, option_map, IfSome};
ghost use Rattle.std.specs.List.{slice_split};
ghost use Rattle.jcl_forms.specs.Parts.{is_byte, other_items, before, behind, others, inner, items};

// Where the first separator stands.
fn separator_at(separator: u8, text: &[u8]) -> Option<usize>
    ensures at { result ≡ position (is_byte separator) text.now }
    ensures within { IfSome result (λ at. at < length text.now) }
{
    text.iter().position(|byte| *byte == separator)
}

// What stands before the first separator, and what is after it if there is one.
#[tactic(auto, using(card_text::proofs::Lists::cuts))]
pub fn parted(separator: u8, text: &[u8]) -> (&[u8], Option<&[u8]>)
    ensures before { result.0.now ≡ before separator text.now }
    ensures behind { option_map (λ rest. rest.now) result.1 ≡ behind separator text.now }
    ensures items { slice_split (is_byte separator) text.now ≡ result.0.now ∷ other_items separator result.1 }
    ensures shorter { IfSome result.1 (λ rest. length rest.now < length text.now) }
{
    match separator_at(separator, text) {
        Some(at) => (&text[..at], Some(&text[at + 1..])),
        None => (text, None),
    }
}

// The items of a list after its first.
pub fn others(items: &[u8]) -> &[u8]
    ensures { result.now ≡ others items.now }
{
    match parted(b',', items).1 {
        Some(others) => others,
        None => &[],
    }
}

// What is in the parentheses around a text.
#[tactic(auto, unfolding(crate::specs::Parts::inner))]
pub fn inner(text: &[u8]) -> Option<&[u8]>
    ensures { option_map (λ items. items.now) result ≡ inner text.now }
{
    if text.len() < 2 {
        return None;
    }
    let last = text.len() - 1;
    if text[0] == b'(' && text[last] == b')' {
        Some(&text[1..last])
    } else {
        None
    }
}

// The items of a list, of which one may stand without parentheses.
pub fn items(text: &[u8]) -> &[u8]
    ensures { result.now ≡ items text.now }
{
    match inner(text) {
        Some(items) => items,
        None => text,
    }
}
