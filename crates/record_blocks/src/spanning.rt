//! Segments of records that are spread over blocks.
ghost use Rattle.std.specs.Prelude.{◌≡◌, ◌≤◌, ◌<◌, ◌+◌, ◌++◌, false, length, IfOk, OnOk};
ghost use Rattle.record_blocks.specs.Blocks.{described_bytes};
ghost use Rattle.record_blocks.specs.Packing.{room, is_spanned, block_of};
ghost use Rattle.record_blocks.specs.Spanning.{segment_code, closes_at, least, is_last_at, filling_at, segment};

use crate::formats::{Base, Format};
use crate::packing::write_described;
use std::alloc::{AllocError, Global};

// The code of a segment.
fn segment_code(parted: bool, last: bool) -> u8
    ensures { result ≡ segment_code parted last }
{
    match (parted, last) {
        (false, true) => 0,
        (false, false) => 1,
        (true, true) => 2,
        (true, false) => 3,
    }
}

// How many bytes a segment of these needs.
pub(crate) fn least(rest: &[u8]) -> usize
    ensures { result ≡ least rest.now }
{
    match rest {
        [] => 4,
        _ => 5,
    }
}

// A segment of a record.
pub(crate) fn segment(
    alloc: Global,
    parted: bool,
    last: bool,
    bytes: &[u8],
) -> Result<Vec<u8>, AllocError>
    requires { length bytes.now < 65532 }
    ensures { IfOk result (λ v. v.items ≡ segment parted last bytes.now) }
{
    let mut piece = Vec::new(alloc);
    write_described(&mut piece, segment_code(parted, last), bytes)?;
    Ok(piece)
}

impl Format {
    // Whether records are spread.
    pub(crate) fn is_spanned(&self) -> bool
        ensures { result ≡ is_spanned self.now }
    {
        match self.base() {
            Base::Variable => self.has_s(),
            _ => false,
        }
    }

    // Whether an open block with so many bytes takes no segment of this size.
    pub(crate) fn closes(&self, used: usize, size: usize) -> bool
        requires { used ≤ room self.now }
        ensures { result ≡ closes_at self.now used size }
    {
        !self.is_blocked() || size > self.room() - used
    }

    // Whether so many bytes fit after those of a block.
    pub(crate) fn is_last(&self, used: usize, count: usize) -> bool
        requires { used + 4 ≤ room self.now }
        ensures { result ≡ is_last_at self.now used count }
    {
        count <= self.room() - (used + 4)
    }

    // How many bytes a segment has that fills the block.
    pub(crate) fn filling(&self, used: usize) -> usize
        requires { used + 4 ≤ room self.now }
        ensures { result ≡ filling_at self.now used }
    {
        self.room() - (used + 4)
    }

    // Makes a block that a segment fills.
    pub(crate) fn write_filled_block(
        &self,
        alloc: Global,
        out: &mut Vec<u8>,
        body: &[u8],
        parted: bool,
        bytes: &[u8],
    ) -> Result<(), AllocError>
        requires { length body.now + length bytes.now < 65528 }
        ensures { OnOk result (out.new.items ≡ block_of self.now (body.now ++ segment parted false bytes.now)) }
    {
        let mut full = Vec::from_slice(alloc, body)?;
        full.extend_from_slice(&segment(alloc, parted, false, bytes)?)?;
        self.write_block(out, &full)
    }
}
