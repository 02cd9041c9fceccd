// The entries of a chain.

ghost use Rattle.std.specs.Prelude.{◌≡◌, ℕ, ◌<◌, ◌≤◌, ◌↔◌, IfOk, IsTrue};

use std::alloc::{AllocError, Global};

/// An entry of a chain.
///
/// Contracts see its name as a number, so that the order of the entries is strict, and total on names: a
/// name of eight bytes is the number that they spell, the first byte highest.
pub trait ChainEntry: Sized + Drop {
    ghost name: { Self → ℕ };

    ghost bytes: { Self → ℕ };

    /// How many bytes the entry takes in a block, from 12 to 242.
    fn size(&self) -> u16
        ensures { result ≡ bytes self.now };

    /// Whether the entry's name stands before the other's.
    fn before(&self, other: &Self) -> bool
        ensures { IsTrue result ↔ (name self.now < name other.now) };

    /// A copy of the entry. The error comes if memory runs out.
    fn copy(&self, alloc: Global) -> Result<Self, AllocError>
        ensures { IfOk result (λ copied. copied ≡ self.now) };

    ghost sizes: { (e : Self) → (12 ≤ bytes e) × (bytes e ≤ 242) };
}
