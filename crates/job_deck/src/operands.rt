//! The operands of a statement, before they are understood.
ghost use Rattle.std.specs.Prelude.{◌≡◌, ◌≤◌, ◌++◌, [], find, option_map, option_copied, IfOk, OnOk};
ghost use Rattle.std.specs.List.{slice_split};
ghost use Rattle.card_text.specs.Nesting.{is_separator, other_pieces};
ghost use Rattle.job_deck.specs.Pieces.{is_absent, placed_pieces, pieces, is_unbalanced_piece, balance_fault, with_continuation, continuation_faults};

use crate::faults::{JclErr, JclKind, fault_at};
use crate::statements::Joined;
use card_text::{CardColumn, Mark, first_piece, first_place, is_unbalanced, missing_place, nested};
use ebcdic_names::Listed;
use std::alloc::{AllocError, Global};

// An operand.
#[derive(Drop)]
pub struct Piece {
    // Where it begins.
    pub place: CardColumn,
    // Its characters.
    pub text: Listed<Mark>,
}

// Whether a piece is what a missing card would have: an empty last one.
#[tactic(auto, using(crate::proofs::Absent::not_absent))]
fn is_absent(missing: bool, text: &[Mark], others: Option<&[Mark]>) -> bool
    ensures { result ≡ is_absent missing text.now (other_pieces 0 others.entry) }
{
    match others {
        None => missing && text.is_empty(),
        Some(_) => false,
    }
}

// The pieces of a field, with the places where they begin.
#[tactic(auto, unfolding(crate::specs::Pieces::placed_pieces))]
fn placed_pieces(
    alloc: Global,
    missing: bool,
    end: CardColumn,
    field: &[Mark],
) -> Result<Vec<Piece>, AllocError>
    ensures { IfOk result (λ v. v.items ≡ placed_pieces missing end field.now (slice_split (is_separator 0) field.now)) }
{
    let mut found = Vec::new(alloc);
    let mut rest = field;
    'pieces: loop {
        let (text, others) = first_piece(0, rest);
        if is_absent(missing, text, others) {
            return Ok(found);
        }
        found.push(Piece {
            place: first_place(end, rest),
            text: Listed::from_vec(text.to_vec(alloc)?),
        })?;
        match others {
            Some(behind) => rest = behind,
            None => return Ok(found),
        }
    }
}

// The operands of a statement.
#[tactic(auto, unfolding(crate::specs::Pieces::pieces))]
pub fn pieces(alloc: Global, operands: &Joined) -> Result<Vec<Piece>, AllocError>
    ensures { IfOk result (λ v. v.items ≡ pieces operands.now) }
{
    if operands.field.as_slice().is_empty() {
        return Ok(Vec::new(alloc));
    }
    let marks = nested(alloc, operands.field.as_slice())?;
    placed_pieces(
        alloc,
        operands.missing,
        missing_place(&operands.last),
        &marks,
    )
}

// Whether an operand has a parenthesis or a quote that has no partner in it.
pub fn is_unbalanced_piece(piece: &Piece) -> bool
    ensures { result ≡ is_unbalanced_piece piece.now }
{
    is_unbalanced(piece.text.as_slice())
}

// The first operand that is broken.
pub fn balance_fault(pieces: &[Piece]) -> Option<JclErr>
    ensures { result ≡ balance_fault pieces.now }
{
    for piece in pieces {
        if is_unbalanced_piece(piece) {
            return Some(fault_at(piece.place, JclKind::Unbalanced));
        }
    }
    None
}

// What is read of operands, unless a card is missing after them.
pub fn with_continuation<T: Drop>(operands: &Joined, read: Result<T, JclErr>) -> Result<T, JclErr>
    ensures { result ≡ with_continuation operands.now read }
{
    let value = read?;
    if operands.missing {
        return Err(fault_at(missing_place(&operands.last), JclKind::ContinuationMissing));
    }
    Ok(value)
}

// Adds the fault of operands that a further card should continue.
pub fn add_continuation_fault(faults: &mut Vec<JclErr>, operands: &Joined) -> Result<(), AllocError>
    ensures { OnOk result (faults.new.items ≡ faults.old.items ++ continuation_faults operands.now) }
{
    if operands.missing {
        let place = missing_place(&operands.last);
        faults.push(fault_at(place, JclKind::ContinuationMissing))?;
    }
    Ok(())
}
