//! The step of one volume of a shelf.
ghost use Rattle.std.specs.Prelude.{◌≡◌, ◌<◌, Some, length, slice_get};
ghost use Rattle.map_machine.specs.Steps.{Steps, with_changed};
ghost use Rattle.vol_model.specs.Calls.{counted};

use plain_steps::step_on;
use std::alloc::Global;
use std::mem;
use vol_model::{MachErr, Op, Refusal, Shelf, Volume, Volumes, volume_number};

// The volume after an operation on a shelf, or why it isn't done.
pub(crate) fn step(alloc: Global, shelf: &Shelf, op: &Op) -> Result<Volume, MachErr>
    ensures { Steps shelf.now op.now result }
{
    let volume = match shelf.volumes.get(usize::from(volume_number(op))) {
        Some(volume) => volume,
        None => return Err(MachErr::Refused(Refusal::NoVolume)),
    };
    match step_on(alloc, op, volume) {
        Ok(Ok(after)) => Ok(after),
        Ok(Err(reason)) => Err(MachErr::Refused(reason)),
        Err(_) => Err(MachErr::Memory),
    }
}

// Puts a volume in the place of the one of this number, which is handed out.
pub(crate) fn put_volume(alloc: Global, shelf: &mut Shelf, v: usize, after: Volume) -> Volume
    requires { v < length shelf.old.volumes }
    ensures before { slice_get shelf.old.volumes v ≡ Some result }
    ensures after { shelf.new ≡ with_changed shelf.old v after }
{
    let mut volumes = mem::replace(&mut shelf.volumes, Volumes::new(alloc)).into_vec();
    let before = mem::replace(&mut volumes[v], after);
    shelf.volumes = Volumes::from_vec(volumes);
    before
}

// The number of operations done, after one more; it stays at its type's end.
#[tactic(auto, using(crate::proofs::StepLemmas::count_more, crate::proofs::StepLemmas::count_full))]
pub(crate) fn count_one(done: u64) -> u64
    ensures { result ≡ counted done 1 }
{
    if done < u64::MAX { done + 1 } else { done }
}
