//! What a hall in memory keeps of its calls.

/// A call of a hall in memory, as its record has it.
#[derive(Clone, Copy, Debug, PartialEq, Eq)]
pub enum Call {
    /// A file was to be attached.
    Attach,
    /// A file was to be made and attached.
    Create,
    /// Bytes of a unit were to be read, from the offset `at` on, in bytes.
    Read { unit: u8, at: u64 },
    /// Bytes were to be written over those of a unit, from the offset `at` on, in bytes.
    Write { unit: u8, at: u64 },
    /// The writes were to be made durable.
    Sync,
    /// Bytes were to be printed.
    Print,
}

/// What a call did: a write, done or failed; a file made and attached as this unit; a sync; a print;
/// or nothing that stays.
///
/// The bytes are `len` of those written, or printed, from `start` on.
#[derive(Clone, Copy, Debug)]
pub enum Step {
    Write {
        unit: u8,
        at: usize,
        start: usize,
        len: usize,
        is_done: bool,
    },
    Create {
        unit: u8,
    },
    Sync,
    Print {
        start: usize,
        len: usize,
    },
    Pass,
}
