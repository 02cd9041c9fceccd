//! Reading a block that the reader holds itself, so that the reading can stop and go on later.
ghost use Rattle.std.specs.Prelude.{◌≡◌, ◌≤◌};

use crate::formats::Format;
use crate::pieces::BlockErr;

/// How far a block is read. The same block and format go with each of its calls.
#[derive(Clone, Copy, Debug)]
pub struct BlockMark {
    begun: bool,
    at: usize,
    code: u8,
    ghost coded: { code ≤ 3 },
}

impl BlockMark {
    ghost use Rattle.std.specs.Prelude.{length, None};
    ghost use Rattle.record_blocks.specs.Formats.{first_fault};
    ghost use Rattle.record_blocks.specs.Reading.{reading};
    ghost use Rattle.record_blocks.specs.Blocks.{piece};
    ghost use Rattle.record_blocks.specs.Marks.{GivesMarked, reading_behind};

    /// The front of a block. The format is one that `Format::check` accepts.
    #[tactic(auto, using(crate::proofs::Steps::steps), unfolding(crate::specs::Reading::reading_at))]
    pub fn new(format: Format, block: &[u8]) -> BlockMark
        requires { first_fault format ≡ None }
        ensures reading { reading_behind format block.now result ≡ reading format block.now }
        ensures within { result.at ≤ length block.now }
        ensures code { result.code ≡ 0 }
    {
        BlockMark {
            begun: false,
            at: format.start().min(block.len()),
            code: 0,
        }
    }

    /// The next record or segment, as `Deblock::next` gives it.
    #[tactic(auto, using(crate::proofs::Steps::steps), unfolding(crate::specs::Reading::reading_at))]
    pub fn next<'a>(
        &mut self,
        format: Format,
        block: &'a [u8],
    ) -> Result<Option<&'a [u8]>, BlockErr>
        requires { self.old.at ≤ length block.now }
        ensures gives { GivesMarked (λ bytes. piece self.new.code bytes.now) result format block.now self.old self.new }
        ensures within { self.new.at ≤ length block.now }
    {
        match format.next_in(block, self.begun, self.at) {
            Ok(Some((code, bytes))) => {
                self.at += format.size(bytes);
                self.begun = true;
                self.code = code;
                Ok(Some(bytes))
            }
            Ok(None) => Ok(None),
            Err(fault) => Err(fault),
        }
    }

    /// The segment code of what was given last: 0 whole, 1 first, 2 last, 3 middle. It is 0 before
    /// the first one and in formats other than VS and VBS.
    pub fn code(&self) -> u8
        ensures code { result ≡ self.now.code }
        ensures bound { result ≤ 3 }
    {
        self.code
    }
}
