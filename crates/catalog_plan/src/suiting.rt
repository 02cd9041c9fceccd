//! Whether a block can be the next of a chain.
ghost use Rattle.std.specs.Prelude.{◌≡◌, ◌∷◌, [], ◌&&◌, ◌^◌, ◌<◌, ◌≤◌, None, IfOk, length, nat_le, not, set, slice_get};
ghost use Rattle.std.specs.List.{list_all};
ghost use Rattle.chain_spec.specs.Kept.{bound_after, kept_from};
ghost use Rattle.catalog_blocks.specs.Blocks.{name_number};
ghost use Rattle.catalog_blocks.specs.Trees.{block_at, control_length, fits_group, if_suits, is_control, is_zeros, next_block, number_at, suits};
ghost use Rattle.catalog_plan.specs.Located.{bound_of};

use crate::entries::{is_group, is_root};
use crate::generations::{is_generation, stored_generation};
use crate::held::name_number;
use catalog_blocks::{CatBlock, CatEntry, Chain, Level};
use std::mem;
use vol_model::Place;

// The name of a control entry.
const CONTROL_NAME: [u8; 8] = [0, 0, 0, 0, 0, 0, 0, 1];

// A chain as far as it was read, and the least name that is kept of its next block.
#[derive(Drop)]
pub(crate) struct SoFar {
    pub(crate) chain: Chain,
    pub(crate) bound: u128,
}

// The bytes of data in the control entry of a chain.
fn control_length(level: Level) -> usize
    ensures { result ≡ control_length level }
{
    if is_root(level) { 10 } else { 6 }
}

// Whether the first of these entries is the control entry of a chain.
fn begins_chain(level: Level, entries: &[CatEntry]) -> bool
    ensures { result ≡ is_control level (slice_get entries.now 0) }
{
    match entries.first() {
        Some(entry) => {
            entry.name.bytes == CONTROL_NAME && entry.payload.len() == control_length(level)
        }
        None => false,
    }
}

// Whether the name of an entry under a group is that of a generation, as it is stored, or of the control
// entry.
fn fits_group(entry: &CatEntry) -> bool
    ensures { result ≡ fits_group entry.now }
{
    entry.name.bytes == CONTROL_NAME || is_generation(stored_generation(entry.name.bytes))
}

// The least name that is kept after an entry.
fn next_bound(bound: u128, entry: &CatEntry) -> u128
    ensures { result ≡ bound_after name_number bound (entry.now ∷ []) }
{
    let number = u128::from(name_number(entry));
    if bound <= number { number + 1 } else { bound }
}

// Whether an entry is kept from a bound on, and doesn't fit a group.
fn breaks_group(bound: u128, entry: &CatEntry) -> bool
    ensures { result ≡ (nat_le bound (name_number entry.now) && not (fits_group entry.now)) }
{
    bound <= u128::from(name_number(entry)) && !fits_group(entry)
}

// Whether those entries that are kept from a bound on fit a group.
fn all_fit_group(bound: u128, entries: &[CatEntry]) -> bool
    ensures { result ≡ list_all fits_group (kept_from name_number bound entries.now) }
{
    let mut least = bound;
    for entry in entries {
        if breaks_group(least, entry) {
            return false;
        }
        least = next_bound(least, entry);
    }
    true
}

// The least name that is kept after these entries.
pub(crate) fn bound_after(bound: u128, entries: &[CatEntry]) -> u128
    ensures { result ≡ bound_after name_number bound entries.now }
{
    let mut least = bound;
    for entry in entries {
        least = next_bound(least, entry);
    }
    least
}

// Whether these can be the entries of a chain's next block.
fn suits(so_far: &SoFar, entries: &[CatEntry]) -> bool
    requires { so_far.now.bound ≡ bound_of so_far.now.chain }
    ensures { result ≡ suits so_far.now.chain entries.now }
{
    let level = so_far.chain.level;
    (!(so_far.chain.blocks.len() == 0) || begins_chain(level, entries))
        && (!is_group(level) || all_fit_group(so_far.bound, entries))
}

// The number of the block at a place, if there is one among so many.
fn number_at(per_track: u8, blocks: usize, place: Place) -> Option<usize>
    ensures { result ≡ number_at per_track blocks place }
{
    if place.r < 1 || per_track < place.r {
        return None;
    }
    let number = usize::from(per_track) * usize::from(place.tt) + (usize::from(place.r) - 1);
    if number < blocks { Some(number) } else { None }
}

// Whether a link ends a chain.
pub(crate) fn is_zeros(place: Place) -> bool
    ensures { result ≡ is_zeros place }
{
    place.tt == 0 && place.r == 0
}

// The block of a number, taken from those that are left, as the next of a chain; or the track of the
// fault.
fn take_block(
    left: &mut [Option<CatBlock>],
    per_track: u8,
    so_far: &SoFar,
    number: usize,
) -> Result<(u32, CatBlock), u32>
    requires some { 1 ≤ per_track }
    requires few { length left.old < 2 ^ 32 }
    requires there { number < length left.old }
    requires bound { so_far.now.bound ≡ bound_of so_far.now.chain }
    ensures block { result ≡ if_suits per_track so_far.now.chain number (block_at left.old number) }
    ensures number { IfOk result (λ x. x.0 ≡ number) }
    ensures left { left.new ≡ set left.old number None }
{
    let track = number as u32 / u32::from(per_track);
    match mem::replace(&mut left[number], None) {
        Some(block) => {
            if suits(so_far, block.entries.as_slice()) {
                Ok((number as u32, block))
            } else {
                Err(track)
            }
        }
        None => Err(track),
    }
}

/// The block at a place, taken from those that are left, as the next of a chain; or the track of the fault,
/// which is that of the block that leads there, where there is no such block.
#[tactic(auto, unfolding(catalog_blocks::specs::Trees::next_block))]
pub(crate) fn next_block(
    left: &mut [Option<CatBlock>],
    per_track: u8,
    so_far: &SoFar,
    place: Place,
    from: u32,
) -> Result<(u32, CatBlock), u32>
    requires some { 1 ≤ per_track }
    requires few { length left.old < 2 ^ 32 }
    requires bound { so_far.now.bound ≡ bound_of so_far.now.chain }
    ensures block { result ≡ next_block per_track left.old [] so_far.now.chain place from }
    ensures left { IfOk result (λ x. left.new ≡ set left.old x.0 None) }
{
    match number_at(per_track, left.len(), place) {
        Some(number) => take_block(left, per_track, so_far, number),
        None => Err(from),
    }
}
