//! The slot that a new DSCB may take.
ghost use Rattle.std.specs.Prelude.{◌≡◌, ◌≤◌, length, position};
ghost use Rattle.vtoc_index.specs.Free.{is_open, open_slot};

use crate::vol::Vol;
use dscb_codec::Dscb;

// The first slot that may take one: slot 0 is format 4, and slot 1 begins the chain of free space.
const FIRST: usize = 2;

/// The lowest slot that may take a new DSCB of format 1 or 3 while format 4 has the bit of an interrupted update; `None`
/// where there is none.
///
/// Slots are counted from 0 over the tracks of the VTOC. While the bit is on, the chain of free space isn't read, so
/// slots of format 5 are taken as free ones are (System Control Blocks GC28-6628).
pub fn free_slot(vol: &Vol) -> Option<u32>
    requires few { length vol.now.slots.items ≤ 65535 }
    ensures { result ≡ open_slot vol.now.slots.items }
{
    let slots = vol.slots.get(FIRST..)?;
    let found = first_open(slots)?;
    Some((FIRST + found) as u32)
}

// The first of these slots that is free, or of format 5.
fn first_open(slots: &[Dscb]) -> Option<usize>
    ensures { result ≡ position is_open slots.now }
{
    slots.iter().position(is_open)
}

// Whether a slot is free, or of format 5.
fn is_open(dscb: &Dscb) -> bool
    ensures { result ≡ is_open dscb.now }
{
    matches!(dscb, Dscb::F0 | Dscb::F5(_))
}
