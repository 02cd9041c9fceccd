//! Reading a block: its records or segments, one after another.
ghost use Rattle.std.specs.Prelude.{◌≡◌, ◌≤◌, ◌+◌, length, None};

use crate::formats::Format;
use crate::marks::BlockMark;
use crate::pieces::BlockErr;

/// Reads the records or segments of one block, from left to right. It takes no memory and copies
/// nothing.
#[derive(Drop)]
pub struct Deblock<'a> {
    format: Format,
    block: &'a [u8],
    mark: BlockMark,
    ghost within: { mark.at ≤ length block.now },
}

impl<'a> Deblock<'a> {
    ghost use Rattle.record_blocks.specs.Formats.{first_fault};
    ghost use Rattle.record_blocks.specs.Reading.{reading};
    ghost use Rattle.record_blocks.specs.Blocks.{piece};
    ghost use Rattle.record_blocks.specs.Deblocking.{remaining_reading, code_of, GivesNext};

    /// Begins at the front of a block. The format is one that `Format::check` accepts.
    pub fn new(format: Format, block: &'a [u8]) -> Deblock<'a>
        requires { first_fault format ≡ None }
        ensures reading { remaining_reading result ≡ reading format block.now }
        ensures code { code_of result ≡ 0 }
    {
        Deblock {
            format,
            block,
            mark: BlockMark::new(format, block),
        }
    }

    /// The next record or segment without its descriptor, or `None` after the last one. The bytes
    /// are lent by the block, so other calls may be made while they are held.
    ///
    /// `ShortBlock` and `BadDescriptor` come exactly where the block holds no list of records or
    /// segments; those in front of the first fault are given before it. After an error, and after
    /// the last record, it answers the same again.
    pub fn next(&mut self) -> Result<Option<&'a [u8]>, BlockErr>
        ensures { GivesNext (λ bytes. piece (code_of self.new) bytes.now) result self.old self.new }
    {
        self.mark.next(self.format, self.block)
    }

    /// The segment code of what was given last: 0 whole, 1 first, 2 last, 3 middle. It is 0 before
    /// the first one and in formats other than VS and VBS.
    pub fn code(&self) -> u8
        ensures code { result ≡ code_of self.now }
        ensures bound { result ≤ 3 }
    {
        self.mark.code()
    }
}
