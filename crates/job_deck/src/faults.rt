//! The faults of jobs.
ghost use Rattle.std.specs.Prelude.{◌≡◌, None};
ghost use Rattle.job_deck.specs.Faults.{fault_at, earlier, earliest, with_first_fault, unless};

use card_text::CardColumn;

/// What is wrong with a job.
#[derive(Clone, Copy, Debug, PartialEq, Eq)]
pub enum JclKind {
    /// The card is in no job, and begins none.
    NoJob,
    /// The card isn't JCL and no data set takes it, or it is a DD before the first EXEC.
    Stray,
    /// The name of a JOB or a DD is missing, or a name isn't one level.
    BadName,
    /// The card has no operation.
    NoOperation,
    /// The operation is none of JOB, EXEC and DD.
    BadOperation,
    /// An operand has none of the forms that are taken, or is given twice.
    BadOperand,
    /// A parenthesis or a quote of an operand has no partner.
    Unbalanced,
    /// The operands end in a comma, and no card continues them.
    ContinuationMissing,
    /// An earlier DD of the step has the name.
    DuplicateDd,
    /// An EXEC without PGM.
    NoProgram,
}

/// A fault of a job.
#[derive(Clone, Copy, Debug, PartialEq, Eq)]
pub struct JclErr {
    /// The number of the card in the deck, from 1.
    pub card: u32,
    /// The column, from 1: that of the first character of the field, and for a missing field the second after the last
    /// of columns 1 to 71 that isn't blank.
    pub column: u8,
    /// What is wrong.
    pub kind: JclKind,
}

pub fn fault_at(place: CardColumn, kind: JclKind) -> JclErr
    ensures { result ≡ fault_at place kind }
{
    JclErr {
        card: place.card,
        column: place.column,
        kind,
    }
}

// The one of two faults that is first in reading order.
fn earlier(first: JclErr, second: JclErr) -> JclErr
    ensures { result ≡ earlier first second }
{
    if second.card < first.card || second.card == first.card && second.column < first.column {
        second
    } else {
        first
    }
}

// The first of faults in reading order.
pub fn earliest(faults: &[JclErr]) -> Option<JclErr>
    ensures { result ≡ earliest None faults.now }
{
    let mut found = None;
    for fault in faults {
        found = match found {
            None => Some(*fault),
            Some(other) => Some(earlier(other, *fault)),
        };
    }
    found
}

// What is read, unless it or one of these faults is the first fault.
pub fn with_first_fault<T: Drop>(faults: &[JclErr], read: Result<T, JclErr>) -> Result<T, JclErr>
    ensures { result ≡ with_first_fault (earliest None faults.now) read }
{
    match earliest(faults) {
        None => read,
        Some(fault) => match read {
            Ok(_) => Err(fault),
            Err(other) => Err(earlier(fault, other)),
        },
    }
}

// What is read, unless a fault stands in front of it.
pub fn unless<T: Drop>(fault: Option<JclErr>, read: T) -> Result<T, JclErr>
    ensures { result ≡ unless fault (Ok read) }
{
    match fault {
        None => Ok(read),
        Some(fault) => Err(fault),
    }
}
