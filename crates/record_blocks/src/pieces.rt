//! The pieces at the front of bytes.
ghost use Rattle.std.specs.Prelude.{◌≡◌, ◌≤◌, ◌+◌, length, option_map, IfSome, IfOk};
ghost use Rattle.std.specs.Result.{result_map_both};
ghost use Rattle.record_blocks.specs.Blocks.{piece, whole_segment, greatest_code};
ghost use Rattle.record_blocks.specs.Reading.{first_fixed, first_described, first, size, has_block_descriptor, fault, start, next_in};

use crate::formats::{Base, Format};

/// Why a block can't be read as records.
#[derive(Clone, Copy, Debug, PartialEq, Eq)]
pub enum BlockErr {
    /// A piece that is shorter than a record.
    ShortBlock {
        /// Where it begins.
        at: usize,
    },
    /// A descriptor that isn't one.
    BadDescriptor {
        /// Where it stands.
        at: usize,
    },
}

// A record of one length at the front.
fn first_fixed(lrecl: usize, rest: &[u8]) -> Option<(u8, &[u8])>
    ensures code { IfSome result (λ p. p.0 ≤ 3) }
    ensures first { option_map (λ p. piece p.0 p.1.now) result ≡ first_fixed lrecl rest.now }
{
    if lrecl != 0 && lrecl <= rest.len() {
        Some((0, &rest[..lrecl]))
    } else {
        None
    }
}

// A piece with its descriptor at the front.
fn first_described(greatest: u8, rest: &[u8]) -> Option<(u8, &[u8])>
    ensures code { IfSome result (λ p. p.0 ≤ greatest) }
    ensures first { option_map (λ p. piece p.0 p.1.now) result ≡ first_described greatest rest.now }
{
    let [high, low, code, last, bytes @ ..] = rest else {
        return None;
    };
    let length = 256 * usize::from(*high) + usize::from(*low);
    if length >= 4 && *code <= greatest && *last == 0 && length <= rest.len() {
        Some((*code, &bytes[..length - 4]))
    } else {
        None
    }
}

impl Format {
    fn greatest_code(&self) -> u8
        ensures { result ≡ greatest_code self.now }
    {
        if self.has_s() { 3 } else { 0 }
    }

    // The record or segment at the front of these bytes.
    #[tactic(auto, using(crate::proofs::Steps::fits))]
    pub(crate) fn first<'a>(&self, rest: &'a [u8]) -> Option<(u8, &'a [u8])>
        ensures within { IfSome result (λ p. size self.now (whole_segment p.1.now) ≤ length rest.now) }
        ensures code { IfSome result (λ p. p.0 ≤ 3) }
        ensures first { option_map (λ p. piece p.0 p.1.now) result ≡ first self.now rest.now }
    {
        match self.base() {
            Base::Fixed => first_fixed(usize::from(self.lrecl), rest),
            Base::Variable => first_described(self.greatest_code(), rest),
            Base::Undefined => Some((0, rest)),
        }
    }

    // Whether a block begins with the descriptor that the format wants.
    pub(crate) fn has_block_descriptor(&self, block: &[u8]) -> bool
        ensures { result ≡ has_block_descriptor self.now block.now }
    {
        match self.base() {
            Base::Variable => match first_described(0, block) {
                Some((_, bytes)) => bytes.len() + 4 == block.len(),
                None => false,
            },
            _ => true,
        }
    }

    // Where the first piece begins.
    pub(crate) fn start(&self) -> usize
        ensures { result ≡ start self.now }
    {
        match self.base() {
            Base::Variable => 4,
            _ => 0,
        }
    }

    // The fault of a piece that begins here and is none.
    pub(crate) fn fault(&self, at: usize) -> BlockErr
        ensures { result ≡ fault self.now at }
    {
        match self.base() {
            Base::Variable => BlockErr::BadDescriptor { at },
            _ => BlockErr::ShortBlock { at },
        }
    }

    // How many bytes a piece takes.
    pub(crate) fn size(&self, bytes: &[u8]) -> usize
        ensures { result ≡ size self.now (whole_segment bytes.now) }
    {
        match self.base() {
            Base::Variable => bytes.len() + 4,
            _ => bytes.len(),
        }
    }

    // The next piece at a place of a block, or the fault.
    #[tactic(auto, using(crate::proofs::Steps::fits))]
    pub(crate) fn next_in<'a>(
        &self,
        block: &'a [u8],
        begun: bool,
        at: usize,
    ) -> Result<Option<(u8, &'a [u8])>, BlockErr>
        requires { at ≤ length block.now }
        ensures next { result_map_both (λ o. option_map (λ p. piece p.0 p.1.now) o) (λ e. e) result ≡ next_in self.now block.now begun at }
        ensures code { IfOk result (λ o. IfSome o (λ p. p.0 ≤ 3)) }
        ensures within { IfOk result (λ o. IfSome o (λ p. at + size self.now (whole_segment p.1.now) ≤ length block.now)) }
    {
        if !self.has_block_descriptor(block) {
            return Err(BlockErr::BadDescriptor { at: 0 });
        }
        let rest = &block[at..];
        if begun {
            if rest.is_empty() {
                return Ok(None);
            }
            if !self.is_blocked() {
                return Err(self.fault(at));
            }
        }
        match self.first(rest) {
            Some(piece) => Ok(Some(piece)),
            None => Err(self.fault(at)),
        }
    }
}
