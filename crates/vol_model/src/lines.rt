//! The lines that a run prints.
ghost use Rattle.std.specs.Prelude.{◌≡◌, IfOk};
ghost use Rattle.vol_model.specs.Printed.{printed_line};

use std::alloc::AllocError;
use std::marker::Model;

/// A line in ASCII, which contracts see as its text. It is printed with a line feed after it.
#[derive(Debug, Drop)]
pub struct Line {
    bytes: Vec<u8>,
}

impl Model for Line {
    ghost use Rattle.std.specs.Prelude.{◌≡◌, ℕ, List};
    ghost use Rattle.vol_model.specs.Printed.{printed_line, text_of};

    ghost Value = { List ℕ };

    ghost view = { λ line. text_of line.bytes.items };

    ghost invariant = { λ line. line.bytes.items ≡ printed_line (text_of line.bytes.items) };
}

impl Line {
    /// The line of a text, which has no line feed yet. The one error is want of memory.
    #[tactic(auto, using(crate::proofs::LineTexts::text_of_printed), unfolding(crate::specs::Printed::printed_line))]
    pub fn ended(text: Vec<u8>) -> Result<Line, AllocError>
        ensures { IfOk result (λ line. line ≡ text.items) }
    {
        let mut bytes = text;
        bytes.push(b'\n')?;
        Ok(Line { bytes })
    }

    /// What is printed for it: the text and the line feed.
    pub fn as_bytes(&self) -> &[u8]
        ensures { result.now ≡ printed_line self.now }
    {
        &self.bytes
    }
}
