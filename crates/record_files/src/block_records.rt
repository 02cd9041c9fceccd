//! The records of the blocks of a data set or a member.
ghost use Rattle.std.specs.Prelude.{◌≡◌, ◌≤◌, length, unwrap_or, IfOk, None};
ghost use Rattle.record_blocks.specs.Formats.{first_fault};
ghost use Rattle.record_blocks.specs.Packing.{is_spanned};
ghost use Rattle.record_blocks.specs.Reading.{Reading};
ghost use Rattle.record_files.specs.Joined.{bytes_passed, records_left};
ghost use Rattle.record_files.specs.Reading.{records_read};

use record_blocks::{BlockMark, Format, Joiner};
use std::alloc::{AllocError, Global};
use util_steps::SetRef;
use vol_model::{BlockBuf, Place};

/// Reads the records of a data set, or of a member of one, block by block.
#[derive(Drop)]
pub struct BlockRecords {
    pub(crate) set: SetRef,
    // Whether the blocks are those of a member, which its end-of-file block ends.
    pub(crate) within: bool,
    pub(crate) format: Format,
    // What joins segments, with VS and VBS.
    pub(crate) joiner: Option<Joiner>,
    pub(crate) buf: BlockBuf,
    // Where the next block is looked for.
    pub(crate) place: Place,
    // How far the block in `buf` is read, if one is.
    pub(crate) mark: Option<BlockMark>,
    // The record that was given last.
    pub(crate) rec: Vec<u8>,
    ghost lawful: { first_fault format ≡ None },
    ghost low: { place.r ≤ 255 },
    ghost inside: { bytes_passed mark ≤ length buf.payload },
}

// The place from which on blocks are read.
fn first_from(start: Option<Place>) -> Place
    ensures place { result ≡ unwrap_or start (record { tt = 0; r = 0 }) }
    ensures low { result.r ≤ 255 }
{
    start.unwrap_or(Place { tt: 0, r: 0 })
}

// Whether records are spread over blocks: VS and VBS.
fn is_spanned(format: Format) -> bool
    ensures { result ≡ is_spanned format }
{
    format.recfm & 0xC0 == 0x40 && format.recfm & 0x08 != 0
}

// What joins the segments of a format, if its records are spread.
fn joiner_for(alloc: Global, format: Format) -> Result<Option<Joiner>, AllocError>
    requires { first_fault format ≡ None }
    ensures { IfOk result (λ joiner. (r : Reading) → records_left joiner r ≡ records_read format r) }
{
    if is_spanned(format) {
        Ok(Some(Joiner::new(alloc, format)?))
    } else {
        Ok(None)
    }
}

impl BlockRecords {
    ghost use Rattle.std.specs.Prelude.{List, Ok};
    ghost use Rattle.vol_model.specs.declared.contents.Block.{Block};
    ghost use Rattle.vol_model.specs.declared.contents.Shelf.{Shelf};
    ghost use Rattle.util_steps.specs.Copying.{source};
    ghost use Rattle.record_files.specs.Members.{blocks_at};
    ghost use Rattle.record_files.specs.Reader.{block_stream};
    ghost use Rattle.record_files.specs.Reading.{set_records};

    /// Begins at the front of a set, or of its member that begins at a place. The format is one that `Format::check`
    /// accepts. The one error is want of memory.
    pub fn new(
        alloc: Global,
        format: Format,
        from: &SetRef,
        start: Option<Place>,
    ) -> Result<BlockRecords, AllocError>
        requires { first_fault format ≡ None }
        ensures { IfOk result (λ records. (shelf : Shelf) (bs : List Block) → source shelf from.now ≡ Ok bs → block_stream records shelf ≡ set_records format (blocks_at start bs)) }
    {
        let within = start.is_some();
        let place = first_from(start);
        let joiner = joiner_for(alloc, format)?;
        Ok(BlockRecords {
            set: *from,
            within,
            format,
            joiner,
            buf: BlockBuf::new(alloc)?,
            place,
            mark: None,
            rec: Vec::new(alloc),
        })
    }
}
