//! A block of a directory, written and made durable.
ghost use Rattle.std.specs.Prelude.{◌≡◌, ◌≤◌, ℕ, IsTrue, None};
ghost use Rattle.hall_core.specs.Facts.{DeviceCall, unit_of};
ghost use Rattle.hall_core.specs.Images.{image_in};
ghost use Rattle.stop_model.specs.Moments.{IsDurable};
ghost use Rattle.vtoc_index.specs.Index.{IsOfUnit};
ghost use Rattle.pds_directory.specs.Directories.{IsPartIn, broken_in};
ghost use Rattle.pds_directory.specs.Entries.{AreForBlock};
ghost use Rattle.stow_ops.specs.Stores.{IsBlockAt, IsPlaceIn, WritesBlock};

use crate::laws::bytes_law;
use dscb_codec::F1;
use hall_core::{Device, Hall};
use pds_directory::{DirEntry, block_bytes};
use set_records::rewrite_record;
use vol_model::Place;
use vtoc_index::Vol;

// Writes these entries as a block of a directory, the last of it or not, and makes that durable.
pub(crate) fn write_block<H: Hall>(
    hall: &mut H,
    vol: &mut Vol,
    set: &F1,
    place: Place,
    entries: &[DirEntry],
    last: bool,
) -> Result<(), Device>
    requires unit { IsOfUnit (H.facts hall.old).units vol.old }
    requires record_number { 1 ≤ place.r }
    requires entries { AreForBlock entries.now last }
    requires part { let image = image_in (H.meaning hall.old) (H.facts hall.old) vol.old.unit in
        IsTrue H.tells → IsPartIn image vol.old set.now }
    requires there { let image = image_in (H.meaning hall.old) (H.facts hall.old) vol.old.unit in
        IsTrue H.tells → IsPlaceIn image vol.old set.now place }
    requires whole { let image = image_in (H.meaning hall.old) (H.facts hall.old) vol.old.unit in
        IsTrue H.tells → broken_in image vol.old set.now ≡ None }
    requires durable { IsTrue H.tells → IsDurable (H.meaning hall.old) }
    ensures files { let image = image_in (H.meaning hall.old) (H.facts hall.old) vol.old.unit in
        IsTrue H.tells → (k : ℕ) → IsBlockAt image vol.old set.now k place
        → WritesBlock (unit_of (H.facts hall.old).units vol.old.unit).name vol.old set.now k
        (record { entries = entries.now; ends = last }) vol.new (H.meaning hall.old)
        (H.meaning hall.new) result }
    ensures others { vol.new ≡ record vol.old { buf = vol.new.buf } }
    ensures unit { IsOfUnit (H.facts hall.new).units vol.new }
    ensures faults { DeviceCall (H.facts hall.old) (H.facts hall.new) result }
{
    let (key, data) = block_bytes(entries, last);
    bytes_law(&data);
    rewrite_record(hall, vol, set, place, &key, &data)
}
