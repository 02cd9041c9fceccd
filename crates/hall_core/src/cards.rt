//! The trait of a source of cards, which standard input and a test fixture implement alike.
ghost use Rattle.std.specs.Prelude.{◌≡◌, ◌≤◌, ◌<◌, ℕ, List, Bool, length, IsTrue, IfOk, OnOk, OnErr};
ghost use Rattle.stop_model.specs.Counts.{Rose};
ghost use Rattle.hall_core.specs.Cards.{GivesNext};

/// A source of cards failed, and its count of faults rose.
#[derive(Clone, Copy, Debug, PartialEq, Eq)]
pub struct ReadFault;

/// A source of cards: the bytes of a deck, one after another.
///
/// Standard input can't tell what is still to come; clauses on content hold where `tells` is true.
/// The count of faults is always told.
pub trait Cards {
    /// Whether the source tells what is still to come.
    ghost tells: { Bool };

    /// The bytes that are still to come, where it tells.
    ghost left: { Self → List ℕ };

    /// Its count of faults.
    ghost faults: { Self → ℕ };

    /// Puts the next bytes to the front of the buffer and gives their number, which is 0 exactly at
    /// the end. It may be less than what fits, also before the end.
    ///
    /// The count of faults rises where a fault comes, and only there, and what is to come is then
    /// as before. After a fault the buffer may hold anything, and so may its bytes after those that
    /// were given.
    fn read(&mut self, buf: &mut [u8]) -> Result<usize, ReadFault>
        requires { 0 < length buf.old }
        ensures within { IfOk result (λ n. n ≤ length buf.old) }
        ensures files { IsTrue tells → GivesNext (left self.old) (left self.new) buf.new result }
        ensures later { faults self.old ≤ faults self.new }
        ensures done { OnOk result (faults self.new ≡ faults self.old) }
        ensures failed { OnErr result (Rose (faults self.old) (faults self.new)) };
}
