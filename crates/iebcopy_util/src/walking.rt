//! The blocks of a member.
ghost use Rattle.std.specs.Prelude.{◌≡◌, true, IfOk, IfSome};
ghost use Rattle.vol_model.specs.Reading.{blocks_from, member};
ghost use Rattle.util_steps.specs.Copying.{has_data, source};
ghost use Rattle.util_steps.specs.Steps.{IsOnward};
ghost use Rattle.util_steps.specs.Taking.{IsReady, Reads};
ghost use Rattle.iebcopy_util.specs.Steps.{HasWalked, TakesBlock, Tells};

use record_files::is_end_of_file;
use std::alloc::Global;
use util_steps::{Fault, SetRef, next_block, place_behind};
use vol_model::{BlockBuf, Machine, Place, Stop};

/// What is known of the blocks of a member.
#[derive(Debug, Drop)]
pub struct Walk {
    /// Their places.
    pub places: Vec<Place>,
    /// Whether each has data.
    pub has_data: bool,
}

// Whether a block has data.
fn has_data(buf: &BlockBuf) -> bool
    ensures { result ≡ has_data buf.now }
{
    !buf.payload().is_empty()
}

// Takes the first block of a member at or after a place, and gives the place after it; `None` at
// the member's end.
fn take_block<M: Machine>(
    machine: &mut M,
    buf: &mut BlockBuf,
    walk: &mut Walk,
    from: &SetRef,
    place: Place,
) -> Result<Result<Option<Place>, Fault>, Stop>
    requires { IsReady M.Machine machine.old }
    ensures reads { Reads M.Machine (λ shelf answer. Tells (source shelf from.now) (λ bs a. TakesBlock a (blocks_from place bs) walk.old walk.new) answer) machine.old machine.new result }
    ensures onward { IfOk result (λ answer. IfOk answer (λ next. IfSome next (λ p. IsOnward place p))) }
{
    match next_block(machine, from, place, buf)? {
        Ok(true) => (),
        Ok(false) => return Ok(Ok(None)),
        Err(fault) => return Ok(Err(fault)),
    }
    if is_end_of_file(buf) {
        return Ok(Ok(None));
    }
    match walk.places.push(buf.place()) {
        Ok(()) => (),
        Err(_) => return Err(Stop::Memory),
    }
    walk.has_data = walk.has_data && has_data(buf);
    Ok(Ok(Some(place_behind(buf.place()))))
}

/// Walks the blocks of the member at a place.
pub fn walk_member<M: Machine>(
    alloc: Global,
    machine: &mut M,
    buf: &mut BlockBuf,
    from: &SetRef,
    start: Place,
) -> Result<Result<Walk, Fault>, Stop>
    requires { IsReady M.Machine machine.old }
    ensures { Reads M.Machine (λ shelf answer. Tells (source shelf from.now) (λ bs a. HasWalked (member bs start) a) answer) machine.old machine.new result }
{
    let mut walk = Walk {
        places: Vec::new(alloc),
        has_data: true,
    };
    let mut place = start;
    loop {
        match take_block(machine, buf, &mut walk, from, place)? {
            Ok(Some(next)) => place = next,
            Ok(None) => return Ok(Ok(walk)),
            Err(fault) => return Ok(Err(fault)),
        }
    }
}
