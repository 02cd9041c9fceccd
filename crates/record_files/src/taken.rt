//! What a step of reading records comes to.

/// What a source of records gives.
#[derive(Clone, Copy, Debug, PartialEq, Eq)]
pub enum Taken {
    /// A record.
    Record,
    /// No record: all were given.
    End,
    /// No record: the input has a fault in the place of the next one.
    Broken,
}

// What the taking of a segment comes to.
#[derive(Clone, Copy, Debug, PartialEq, Eq)]
pub enum Step {
    // A record is whole now.
    Record,
    // A part of one was taken, or a further block was read.
    Part,
    // All were taken.
    End,
    // The input has a fault.
    Broken,
}
