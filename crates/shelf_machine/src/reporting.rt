//! What a machine makes of the answer of an operation.
ghost use Rattle.std.specs.Prelude.{◌≡◌, false, true, IsErrOf};
ghost use Rattle.vol_model.specs.Calls.{sound_after};
ghost use Rattle.shelf_machine.specs.Reporting.{Reports};

use pack_machine::AreaStart;
use vol_model::{Block, CheckErr, MachErr, Place, ReadErr, StoreErr};

// Ends the soundness of a machine, and gives the error that it answers.
pub(crate) fn fault(is_sound: &mut bool, error: MachErr) -> MachErr
    ensures error { result ≡ error }
    ensures sound { is_sound.new ≡ false }
{
    *is_sound = false;
    error
}

// The answer of an operation: one that is done is counted, and a fault of the device ends the soundness of the machine.
pub(crate) fn report(
    is_sound: &mut bool,
    done: &mut u64,
    ran: Result<(), StoreErr>,
) -> Result<(), MachErr>
    ensures { Reports ran is_sound.old is_sound.new done.old done.new result }
{
    match ran {
        Ok(()) => {
            *done = done.saturating_add(1);
            Ok(())
        }
        Err(StoreErr::Refused(refusal)) => Err(MachErr::Refused(refusal)),
        Err(StoreErr::Memory) => Err(MachErr::Memory),
        Err(StoreErr::Device) => Err(fault(is_sound, MachErr::Device)),
    }
}

// Whether a machine is sound after a read into a block.
pub(crate) fn is_sound_into(read: &Result<bool, CheckErr>) -> bool
    ensures failed { IsErrOf read.now CheckErr.Device → result ≡ false }
    ensures others { ¬ IsErrOf read.now CheckErr.Device → result ≡ true }
{
    !matches!(read, Err(CheckErr::Device))
}

// Whether it is sound after a call that was to hold a library.
pub(crate) fn is_sound_held(held: &Result<Option<usize>, ReadErr>) -> bool
    ensures failed { IsErrOf held.now ReadErr.Device → result ≡ false }
    ensures others { ¬ IsErrOf held.now ReadErr.Device → result ≡ true }
{
    !matches!(held, Err(ReadErr::Device))
}

// Whether it is sound after a read that gives a block.
pub(crate) fn is_sound_block(read: &Result<Option<Block>, ReadErr>) -> bool
    ensures failed { IsErrOf read.now ReadErr.Device → result ≡ false }
    ensures others { ¬ IsErrOf read.now ReadErr.Device → result ≡ true }
{
    !matches!(read, Err(ReadErr::Device))
}

// Whether it is sound after a put.
pub(crate) fn is_sound_put(put: &Result<Place, MachErr>) -> bool
    ensures { result ≡ sound_after put.now }
{
    !matches!(put, Err(MachErr::Device | MachErr::Print))
}

// Whether it is sound after the closing of a writer.
pub(crate) fn is_sound_closed(closed: &Result<(), MachErr>) -> bool
    ensures { result ≡ sound_after closed.now }
{
    !matches!(closed, Err(MachErr::Device | MachErr::Print))
}

// Whether it is sound after a read of where an area begins.
pub(crate) fn is_sound_front(front: &Result<AreaStart, MachErr>) -> bool
    ensures failed { IsErrOf front.now MachErr.Device → result ≡ false }
    ensures others { ¬ IsErrOf front.now MachErr.Device → result ≡ true }
{
    !matches!(front, Err(MachErr::Device))
}
