//! Programs that read statements from SYSIN.
ghost use Rattle.std.specs.Prelude.{◌≡◌, ◌≤◌, map, option_map, IfOk};
ghost use Rattle.std.specs.Map.{lookup};
ghost use Rattle.util_syntax.specs.Items.{item_view};
ghost use Rattle.util_syntax.specs.Program.{bad_operand, outcome_code, outcome_of, statements_in, sysin};
ghost use Rattle.util_syntax.specs.Step.{same_name};

use crate::items::{Item, statements};
use crate::listing::Outcome;
use crate::operands::SynErr;
use crate::step::{DdIn, StepIn};
use ebcdic_names::Name8;
use std::alloc::{AllocError, Global};

/// SYSIN, the name of the DD that has a program's statements, in EBCDIC.
pub const SYSIN: Name8 = Name8 {
    bytes: [0xE2, 0xE8, 0xE2, 0xC9, 0xD5, 0x40, 0x40, 0x40],
};

/// The statements of a step, or their faults: those on the cards of SYSIN, and none where SYSIN is DUMMY.
///
/// `None` where SYSIN is missing, or is neither. The one error is want of memory.
pub fn sysin_statements(alloc: Global, step: &StepIn) -> Result<Option<Vec<Item>>, AllocError>
    ensures { IfOk result (λ found. option_map (λ v. map item_view v.items) found
        ≡ statements_in (lookup (same_name sysin) step.now.dds)) }
{
    match step.dds.get(&SYSIN) {
        Some(DdIn::Dummy) => Ok(Some(Vec::new(alloc))),
        Some(DdIn::Cards(cards)) => Ok(Some(statements(alloc, cards.as_slice())?)),
        _ => Ok(None),
    }
}

/// The fault of a statement, with the card on which it stands.
#[derive(Clone, Copy, Debug, PartialEq, Eq)]
pub struct StatementFault {
    /// The number of the card.
    pub card: u32,
    /// The kind of the fault.
    pub kind: SynErr,
}

/// The fault of a statement that has no place, or not the form of its operation.
pub fn bad_operand(card: u32) -> StatementFault
    ensures { result ≡ bad_operand card }
{
    StatementFault {
        card,
        kind: SynErr::BadOperand,
    }
}

impl Outcome {
    /// The outcome of steps that were done, or of which one was not.
    pub fn of(answer: Result<(), Outcome>) -> Outcome
        ensures { result ≡ outcome_of answer }
    {
        match answer {
            Ok(()) => Outcome::Done,
            Err(outcome) => outcome,
        }
    }

    /// The condition code that goes with it, unless the program has another.
    pub fn code(self) -> u8
        ensures code { result ≡ outcome_code self }
        ensures small { result ≤ 12 }
    {
        match self {
            Outcome::Done => 0,
            Outcome::BadRecord | Outcome::SeqOrder => 12,
            _ => 8,
        }
    }
}
