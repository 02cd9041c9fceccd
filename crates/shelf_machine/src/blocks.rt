//! Blocks of the sequential data sets of several packs, and of the members of their partitioned ones.
ghost use Rattle.std.specs.Prelude.{◌≡◌, false, IsTrue, IsErrOf, IfOk, IfSome};
ghost use Rattle.vol_model.specs.Lawful.{IsLawfulBlock};
ghost use Rattle.vol_model.specs.Places.{is_before};
ghost use Rattle.vol_model.specs.Reading.{LeavesBlank, Picks, ReadsInto, blocks_from, first, readable};
ghost use Rattle.vol_model.specs.Writing.{body_on};
ghost use Rattle.shelf_machine.specs.Machine.{shelf_under, units_of};
ghost use Rattle.shelf_machine.specs.Opening.{names_of};
ghost use Rattle.shelf_machine.specs.ReadyPacks.{AreReady, RestPacks, vols_of};

use ebcdic_names::Dsn;
use hall_core::Hall;
use pack_machine::{Pack, read_block_on, read_into_on};
use std::alloc::Global;
use vol_model::{Block, BlockBuf, CheckErr, Place, ReadErr};

// Reads the first block of a data set at or after a place; false where there is none.
pub(crate) fn read_into<H: Hall>(
    hall: &mut H,
    packs: &mut Vec<Pack>,
    v: u8,
    dsn: &Dsn,
    from: Place,
    block: &mut BlockBuf,
) -> Result<bool, CheckErr>
    requires ready { AreReady H.tells (H.facts hall.old) (H.meaning hall.old)
        packs.old.items }
    ensures block { let shelf = shelf_under (names_of (H.facts hall.old).units (units_of (vols_of packs.old.items)))
        (H.meaning hall.old).state in IsTrue H.tells
        → ReadsInto result (readable (body_on shelf v dsn.now.bytes)) from block.new }
    ensures blank { LeavesBlank result block.new }
    ensures onward { IfOk result (λ more. IsTrue more → is_before block.new.place from ≡ false) }
    ensures lawful { IfOk result (λ more. IsTrue more → IsLawfulBlock block.new) }
    ensures rest { RestPacks (IsErrOf result CheckErr.Device) H.tells (H.facts hall.old) (H.facts hall.new)
        (H.meaning hall.old) (H.meaning hall.new) packs.old.items packs.new.items }
{
    let k = usize::from(v);
    if k >= packs.len() {
        block.clear();
        return Ok(false);
    }
    read_into_on(hall, &mut packs[k], dsn, from, block)
}

// Gives the first block of a data set at or after a place.
pub(crate) fn read_block<H: Hall>(
    alloc: Global,
    hall: &mut H,
    packs: &mut Vec<Pack>,
    v: u8,
    dsn: &Dsn,
    from: Place,
) -> Result<Option<Block>, ReadErr>
    requires ready { AreReady H.tells (H.facts hall.old) (H.meaning hall.old)
        packs.old.items }
    ensures block { let shelf = shelf_under (names_of (H.facts hall.old).units (units_of (vols_of packs.old.items)))
        (H.meaning hall.old).state in IsTrue H.tells
        → Picks result (readable (body_on shelf v dsn.now.bytes))
        (λ bs. first (blocks_from from bs)) }
    ensures onward { IfOk result (λ found. IfSome found (λ b. is_before b.place from ≡ false)) }
    ensures lawful { IfOk result (λ found. IfSome found IsLawfulBlock) }
    ensures rest { RestPacks (IsErrOf result ReadErr.Device) H.tells (H.facts hall.old) (H.facts hall.new)
        (H.meaning hall.old) (H.meaning hall.new) packs.old.items packs.new.items }
{
    let k = usize::from(v);
    if k >= packs.len() {
        return Ok(None);
    }
    read_block_on(alloc, hall, &mut packs[k], dsn, from)
}
