//! The operands of a statement, or their first fault.
ghost use Rattle.std.specs.Prelude.{◌≡◌, [], length, map, IfOk};
ghost use Rattle.std.specs.List.{slice_split};
ghost use Rattle.std.specs.Result.{result_map_both};
ghost use Rattle.card_text.specs.Nesting.{other_pieces, is_separator};
ghost use Rattle.card_text.specs.Operands.{operand_view};
ghost use Rattle.util_syntax.specs.Operands.{operand_or_fault, is_absent, operands};

use card_text::{CardColumn, Mark, Operand, first_piece, first_place, is_unbalanced, read_operand};
use std::alloc::{AllocError, Global};

/// What is wrong with a statement, in this project's profile.
#[derive(Clone, Copy, Debug, PartialEq, Eq)]
pub enum SynErr {
    /// The card is blank, or no operation follows the name.
    NoOperation,
    /// A name, an operation or a keyword isn't one level, or an operand has none of the forms.
    BadOperand,
    /// A parenthesis or a quote has no partner on the statement's cards.
    Unbalanced,
    /// The operands go on, and the next card isn't one on which they can.
    ContinuationMissing,
}

/// The first fault of a statement.
#[derive(Clone, Copy, Debug, PartialEq, Eq)]
pub struct Fault {
    /// Where it stands.
    pub place: CardColumn,
    /// What is wrong.
    pub kind: SynErr,
}

// The operand or the fault of the text between two commas.
fn operand_or_fault(alloc: Global, text: &[Mark]) -> Result<Result<Operand, SynErr>, AllocError>
    ensures { IfOk result (λ r. result_map_both operand_view (λ e. e) r ≡ operand_or_fault text.now) }
{
    if is_unbalanced(text) {
        return Ok(Err(SynErr::Unbalanced));
    }
    match read_operand(alloc, text)? {
        Some(operand) => Ok(Ok(operand)),
        None => Ok(Err(SynErr::BadOperand)),
    }
}

// Whether a text is what a missing card would have: an empty last one.
#[tactic(auto, using(crate::proofs::Absent::not_absent))]
fn is_absent(missing: bool, text: &[Mark], others: Option<&[Mark]>) -> bool
    ensures { result ≡ is_absent missing text.now (other_pieces 0 others.entry) }
{
    match others {
        None => missing && text.is_empty(),
        Some(_) => false,
    }
}

// The operands of a field, or the first fault. Where the card is missing that would have the last, an empty last one is
// none. `end` is where an empty operand at the end of the field would stand.
pub fn operands(
    alloc: Global,
    missing: bool,
    end: CardColumn,
    field: &[Mark],
) -> Result<Result<Vec<Operand>, Fault>, AllocError>
    ensures { IfOk result (λ r. result_map_both (λ v. map operand_view v.items) (λ e. e) r
        ≡ operands missing end [] field.now (slice_split (is_separator 0) field.now)) }
{
    let mut found = Vec::new(alloc);
    let mut rest = field;
    'pieces: loop {
        let (text, others) = first_piece(0, rest);
        if is_absent(missing, text, others) {
            return Ok(Ok(found));
        }
        match operand_or_fault(alloc, text)? {
            Ok(operand) => found.push(operand)?,
            Err(kind) => {
                return Ok(Err(Fault {
                    place: first_place(end, rest),
                    kind,
                }));
            }
        }
        match others {
            Some(behind) => rest = behind,
            None => return Ok(Ok(found)),
        }
    }
}
