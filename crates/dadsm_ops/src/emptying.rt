//! A data set emptied.
ghost use Rattle.std.specs.Prelude.{◌≡◌, true, is_some, IsTrue, OnOk, Some};
ghost use Rattle.ebcdic_names.specs.declared.names.Dsn.{Dsn};
ghost use Rattle.hall_core.specs.Facts.{DeviceCall, unit_of};
ghost use Rattle.hall_core.specs.Images.{image_in};
ghost use Rattle.stop_model.specs.Moments.{IsDurable};
ghost use Rattle.vol_model.specs.Shelf.{empty_on};
ghost use Rattle.vtoc_index.specs.Index.{IsMounted, IsOfUnit};
ghost use Rattle.vtoc_index.specs.Names.{AreByName, name_at};
ghost use Rattle.dadsm_ops.specs.Emptying.{MayEmpty, emptied_dscb};
ghost use Rattle.dadsm_ops.specs.Operations.{DoesOperation, InVtoc};

use dscb_codec::{Dscb, F1};
use free_rebuild::put_durably;
use hall_core::{Device, Hall};
use vol_model::Attr;
use vtoc_index::Vol;

// DSORG of a sequential data set.
const SEQUENTIAL: u16 = 0x4000;

/// Empties the sequential data set whose format 1 a slot holds, the one without an organization, which becomes
/// sequential, or the partitioned one without entries and blocks, whose directory stays. It takes its record format,
/// options and lengths from the attributes.
///
/// The index is that of the image of its unit, and no write is pending; the caller knows that the data set may be
/// emptied. Its format 1 is written with these and with zeros as the place of its last block and as the balance of
/// that track (System Control Blocks GC28-6628), which decides the operation, and made durable. Its tracks aren't
/// written. A stop leaves each byte of all files as it was, or the set empty and else each byte.
///
/// It takes no memory. `Device` comes only where the count of its faults rose; then the index may be that of no
/// image.
pub fn empty<H: Hall>(hall: &mut H, vol: &mut Vol, slot: u32, attr: &Attr) -> Result<(), Device>
    requires unit { IsOfUnit (H.facts hall.old).units vol.old }
    requires names { AreByName (name_at vol.old.slots.items) vol.old.by_name.items }
    requires set { is_some (name_at vol.old.slots.items slot) ≡ true }
    requires kind { let image = image_in (H.meaning hall.old) (H.facts hall.old) vol.old.unit in
        (dsn : Dsn) → name_at vol.old.slots.items slot ≡ Some dsn.bytes
        → IsTrue H.tells → MayEmpty image dsn attr.now }
    requires mounted { let image = image_in (H.meaning hall.old) (H.facts hall.old) vol.old.unit in
        IsTrue H.tells → IsMounted image vol.old }
    requires durable { IsTrue H.tells → IsDurable (H.meaning hall.old) }
    ensures files { (dsn : Dsn) → name_at vol.old.slots.items slot ≡ Some dsn.bytes
        → IsTrue H.tells → DoesOperation (unit_of (H.facts hall.old).units vol.old.unit).name
        (empty_on dsn attr.now) vol.new (InVtoc vol.new) (H.meaning hall.old)
        (H.meaning hall.new) result }
    ensures unit { IsOfUnit (H.facts hall.new).units vol.new }
    ensures names { OnOk result (AreByName (name_at vol.new.slots.items) vol.new.by_name.items) }
    ensures index { vol.new ≡ record vol.old { slots = vol.new.slots; buf = vol.new.buf } }
    ensures faults { DeviceCall (H.facts hall.old) (H.facts hall.new) result }
{
    let dscb = without_blocks(&vol.slots[slot as usize], attr);
    put_durably(hall, vol, slot, &dscb)
}

// The DSCB, without blocks where it is a format 1.
fn without_blocks(dscb: &Dscb, attr: &Attr) -> Dscb
    ensures { result ≡ emptied_dscb attr.now dscb.now }
{
    match dscb {
        Dscb::F1(set) => Dscb::F1(F1 {
            dsorg: if set.dsorg == 0 {
                SEQUENTIAL
            } else {
                set.dsorg
            },
            recfm: attr.recfm,
            optcd: attr.optcd,
            blksize: attr.blksize,
            lrecl: attr.lrecl,
            keylen: attr.keylen,
            rkp: attr.rkp,
            lstar: [0; 3],
            balance: 0,
            ..*set
        }),
        other => *other,
    }
}
