//! Why the program ends without a condition code, and its status.
ghost use Rattle.std.specs.Prelude.{◌≡◌};
ghost use Rattle.volume_manager.specs.Run.{code_of, status_of};
ghost use Rattle.volume_manager.specs.declared.cause.Cause.TheVariants.{Memory};

use std::alloc::AllocError;
use thiserror::Error;

/// The status where memory ran out.
pub const NO_MEMORY: u8 = 25;

/// Why the program ends without a condition code.
#[derive(Clone, Copy, Debug, PartialEq, Eq, Error)]
pub enum Cause {
    /// The words are refused.
    #[error("the words are refused")]
    Words,
    /// A file is missing, or the images are refused, or the file of a new pack is there.
    #[error("a file is refused")]
    Unit,
    /// The device failed.
    #[error("the device failed")]
    Device,
    /// The cards couldn't be read.
    #[error("the cards couldn't be read")]
    Cards,
    /// The printer failed.
    #[error("the printer failed")]
    Print,
    /// Memory ran out.
    #[error("memory ran out")]
    Memory,
    /// The deck is refused.
    #[error("the deck is refused")]
    Deck,
}

impl Cause {
    /// The status of the program.
    pub fn code(self) -> u8
        ensures { result ≡ code_of self }
    {
        match self {
            Cause::Words => 20,
            Cause::Unit => 21,
            Cause::Device => 22,
            Cause::Cards => 23,
            Cause::Print => 24,
            Cause::Memory => NO_MEMORY,
            Cause::Deck => 26,
        }
    }
}

impl From<AllocError> for Cause {
    ghost from_gives = { λ _ e. e ≡ Memory };

    fn from(_error: AllocError) -> Cause {
        Cause::Memory
    }
}

/// The status of the program: the condition code, or that of the cause.
pub fn status_of(ended: Result<u8, Cause>) -> u8
    ensures { result ≡ status_of ended }
{
    match ended {
        Ok(code) => code,
        Err(cause) => cause.code(),
    }
}
