//! Jobs, steps and DDs.

use crate::faults::JclErr;
use card_text::{Card, Text};
use ebcdic_names::{Dsn, Listed, Name8, Serial};
use jcl_forms::{Dcb, DdAfter, DdPart, DdStatus, Space};

/// The steps of a job, in order.
pub type Steps = Listed<Step>;

/// The DDs of a step, in order.
pub type Dds = Listed<Dd>;

/// Data cards, each after its number in the deck.
pub type DataCards = Listed<(u32, Card)>;

/// A job.
#[derive(Debug, Drop)]
pub struct Job {
    /// Its name, or blanks where it has none that is one level.
    pub name: Name8,
    /// The number of its JOB card, or of the card that belongs to no job, from 1.
    pub card: u32,
    /// Its steps, or its first fault, which refuses it whole.
    pub steps: Result<Steps, JclErr>,
}

/// A step of a job.
#[derive(Debug, Drop)]
pub struct Step {
    /// Its name, if it has one.
    pub name: Option<Name8>,
    /// The number of its EXEC card.
    pub card: u32,
    /// The program.
    pub pgm: Name8,
    /// The program's parameter: a word, the text that stood in quotes, or a list as it stands.
    pub parm: Text,
    /// Its DDs.
    pub dds: Dds,
}

/// A DD statement.
#[derive(Debug, Drop)]
pub struct Dd {
    /// Its name, which no other DD of the step has.
    pub name: Name8,
    /// The number of its first card.
    pub card: u32,
    /// What it defines.
    pub what: DdWhat,
}

/// What a DD statement defines.
#[derive(Debug, Drop)]
pub enum DdWhat {
    /// Nothing: `DUMMY`, or operands without DSN.
    Dummy,
    /// The printer.
    Sysout,
    /// The cards that follow.
    Cards(DataCards),
    /// A data set.
    Set(DdSet),
}

/// The data set of a DD.
#[derive(Clone, Copy, Debug)]
pub struct DdSet {
    /// The name of the set, or of the generation group.
    pub dsn: Dsn,
    /// What of it is meant.
    pub part: DdPart,
    /// Its status when the step begins.
    pub status: DdStatus,
    /// What becomes of it after the step.
    pub after: DdAfter,
    /// Its volume, if the DD names one.
    pub serial: Option<Serial>,
    /// The space that it asks for.
    pub space: Option<Space>,
    /// Its attributes.
    pub dcb: Dcb,
    /// When it expires: the year since 1900 and a day of two bytes, or zeros for no date.
    pub expires: [u8; 3],
}
