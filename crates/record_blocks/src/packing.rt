//! Records and blocks as bytes.
ghost use Rattle.std.specs.Prelude.{◌≡◌, ◌≢◌, ◌≤◌, ◌<◌, ◌+◌, ◌-◌, ◌/◌, ◌%◌, ◌∷◌, ◌++◌, ℕ, List, [], length, replicate, None, IfOk, OnOk, IfErr, OnErr, vec_len};
ghost use Rattle.record_blocks.specs.Formats.{base_of};
ghost use Rattle.record_blocks.specs.Blocks.{whole_segment, described_bytes, block_as};
ghost use Rattle.record_blocks.specs.Packing.{longest, piece_of, room};

use crate::formats::{Base, Format};
use std::alloc::{AllocError, Global};

// A descriptor.
fn descriptor(length: usize, code: u8) -> [u8; 4]
    requires { length < 65536 }
    ensures { result ≡ length / 256 ∷ length % 256 ∷ code ∷ 0 ∷ [] }
{
    [(length / 256) as u8, (length % 256) as u8, code, 0]
}

// Bytes after a descriptor of their own.
pub(crate) fn write_described(out: &mut Vec<u8>, code: u8, bytes: &[u8]) -> Result<(), AllocError>
    requires { length bytes.now < 65532 }
    ensures { OnOk result (out.new.items ≡ out.old.items ++ described_bytes (record { code = code; bytes = bytes.now })) }
{
    out.extend_from_slice(&descriptor(bytes.len() + 4, code))?;
    out.extend_from_slice(bytes)
}

// A record of one length, filled with blanks.
fn write_filled(
    alloc: Global,
    out: &mut Vec<u8>,
    bytes: &[u8],
    size: usize,
) -> Result<(), AllocError>
    ensures { OnOk result (out.new.items ≡ out.old.items ++ (bytes.now ++ replicate (size - length bytes.now) 0x40)) }
{
    let fill: Vec<u8> = vec![in alloc; 0x40; size.saturating_sub(bytes.len())]?;
    out.extend_from_slice(bytes)?;
    out.extend_from_slice(&fill)
}

impl Format {
    // The length of the longest record.
    pub(crate) fn longest(&self) -> usize
        ensures { result ≡ longest self.now }
    {
        match self.base() {
            Base::Fixed => usize::from(self.lrecl),
            Base::Variable => usize::from(self.lrecl).saturating_sub(4),
            Base::Undefined => usize::from(self.blksize),
        }
    }

    // How many bytes of a block are for pieces.
    pub(crate) fn room(&self) -> usize
        ensures { result ≡ room self.now }
    {
        match self.base() {
            Base::Variable => usize::from(self.blksize).saturating_sub(4),
            _ => usize::from(self.blksize),
        }
    }

    // What stands for a record in a block.
    pub(crate) fn piece_of(&self, alloc: Global, rec: &[u8]) -> Result<Vec<u8>, AllocError>
        requires { length rec.now < 65532 }
        ensures { IfOk result (λ v. v.items ≡ piece_of self.now rec.now) }
    {
        let mut piece = Vec::new(alloc);
        match self.base() {
            Base::Fixed => write_filled(alloc, &mut piece, rec, usize::from(self.lrecl))?,
            Base::Variable => write_described(&mut piece, 0, rec)?,
            Base::Undefined => piece.extend_from_slice(rec)?,
        }
        Ok(piece)
    }

    // Makes a block of pieces.
    pub(crate) fn write_block(&self, out: &mut Vec<u8>, body: &[u8]) -> Result<(), AllocError>
        requires { length body.now < 65532 }
        ensures { OnOk result (out.new.items ≡ block_as (base_of self.now) body.now) }
    {
        out.clear();
        match self.base() {
            Base::Variable => write_described(out, 0, body),
            _ => out.extend_from_slice(body),
        }
    }
}
