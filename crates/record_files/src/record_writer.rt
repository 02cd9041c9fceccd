//! Packs records into blocks that are put one after another.
ghost use Rattle.std.specs.Prelude.{◌≤◌, length};

use record_blocks::{Format, Packer};
use std::alloc::{AllocError, Global};
use vol_model::Place;

/// Packs records into blocks, each of which is put once a further one is finished: where a fault ends the records, the
/// last block isn't finished.
#[derive(Drop)]
pub struct RecordWriter {
    pub(crate) packer: Packer,
    // The block that was finished last.
    pub(crate) held: Vec<u8>,
    pub(crate) holds: bool,
    // Room for the next one.
    pub(crate) next: Vec<u8>,
    // Where the first block that was put stands.
    pub(crate) start: Option<Place>,
    ghost fits: { length held.items ≤ 32760 },
}

impl RecordWriter {
    ghost use Rattle.std.specs.Prelude.{◌≡◌, false, ℕ, List, None, IfOk};
    ghost use Rattle.record_blocks.specs.Formats.{first_fault};
    ghost use Rattle.record_blocks.specs.Layout.{packing};
    ghost use Rattle.record_blocks.specs.Packer.{format_of, is_waiting};
    ghost use Rattle.record_files.specs.RecordWriter.{blocks_to_come};

    /// Begins with no record. The format is one that `Format::check` accepts. The one error is want of memory.
    pub fn new(alloc: Global, format: Format) -> Result<RecordWriter, AllocError>
        requires { first_fault format ≡ None }
        ensures blocks { IfOk result (λ w. (records : List (List ℕ)) → blocks_to_come w records ≡ packing format records) }
        ensures start { IfOk result (λ w. w.start ≡ None) }
        ensures idle { IfOk result (λ w. is_waiting w.packer ≡ false) }
        ensures format { IfOk result (λ w. format_of w.packer ≡ format) }
    {
        Ok(RecordWriter {
            packer: Packer::new(alloc, format)?,
            held: Vec::new(alloc),
            holds: false,
            next: Vec::new(alloc),
            start: None,
        })
    }
}
