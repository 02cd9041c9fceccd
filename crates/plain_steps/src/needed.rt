//! How many blocks a directory and an index need.
ghost use Rattle.std.specs.Prelude.{◌≡◌, ℕ, IfOk};
ghost use Rattle.chain_spec.specs.Cut.{needed_from};
ghost use Rattle.vol_model.specs.Slots.{directory_needed};

use std::alloc::AllocError;
use vol_model::Entry;

/// An entry of a block, which takes a number of its bytes.
pub trait Measured {
    ghost size: { Self → ℕ };

    /// How many bytes it takes.
    fn size(&self) -> Result<u64, AllocError>
        ensures { IfOk result (λ bytes. bytes ≡ size self.now) };
}

// How many blocks of this room these entries need, the first of which is used so far.
pub(crate) fn needed_from<E: Measured>(
    room: u32,
    end: u32,
    mut used: u64,
    entries: &[E],
) -> Result<u32, AllocError>
    ensures { IfOk result (λ blocks. blocks ≡ needed_from E.size room end used entries.now) }
{
    let mut full: u32 = 0;
    for entry in entries {
        let size = entry.size()?;
        let with = used.checked_add(size).ok_or(AllocError)?;
        if with <= u64::from(room) {
            used = with;
        } else {
            full = full.checked_add(1).ok_or(AllocError)?;
            used = size;
        }
    }
    let whole = used.checked_add(u64::from(end)).ok_or(AllocError)?;
    let last = if whole <= u64::from(room) { 1 } else { 2 };
    full.checked_add(last).ok_or(AllocError)
}

impl Measured for Entry {
    ghost use Rattle.vol_model.specs.Slots.{entry_size};

    ghost size = { entry_size };

    fn size(&self) -> Result<u64, AllocError> {
        (self.user.len() as u64).checked_add(12).ok_or(AllocError)
    }
}

/// The blocks that a directory of these entries needs, its end entry after them.
#[tactic(auto, unfolding(vol_model::specs::Slots::directory_needed))]
pub fn directory_needed(entries: &[Entry]) -> Result<u32, AllocError>
    ensures { IfOk result (λ blocks. blocks ≡ directory_needed entries.now) }
{
    needed_from(254, 12, 0, entries)
}
