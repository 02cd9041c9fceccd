//! A directory packed: each of its blocks takes as many entries as fit.
ghost use Rattle.std.specs.Prelude.{◌≡◌, true, is_some, slice_get, IfOk, IsTrue, OnOk, Ok, Some};
ghost use Rattle.dscb_codec.specs.declared.F1.{F1};
ghost use Rattle.hall_core.specs.Facts.{DeviceCall, unit_of};
ghost use Rattle.hall_core.specs.Images.{image_in};
ghost use Rattle.stop_model.specs.Moments.{IsDurable};
ghost use Rattle.vol_model.specs.declared.contents.Volume.{Volume};
ghost use Rattle.vtoc_index.specs.Index.{IsOfUnit};
ghost use Rattle.vtoc_index.specs.Names.{name_at};
ghost use Rattle.free_rebuild.specs.Operations.{DoesOperation};
ghost use Rattle.pds_directory.specs.Directories.{IsLawfulDir, IsPacked, IsReadablePart, directory_in};
ghost use Rattle.stow_ops.specs.Packing.{IsPacking, IsPackingOf, IsSomePacking};
ghost use Rattle.stow_ops.specs.Stores.{DifferOn, directory_tracks};

use crate::packings::Packing;
use crate::storing::{END_LEN, ROOM, carry_out};
use dscb_codec::Dscb;
use hall_core::{Device, Hall};
use pds_directory::Dir;
use sorted_chain::{kept, plan};
use std::alloc::{AllocError, Global};
use vtoc_index::Vol;
use vtoc_sets::set_at;

/// How a directory that was read comes to be packed: its blocks are to be the cut of the entries that
/// count. The error comes if memory runs out.
pub fn packing(alloc: Global, dir: Dir) -> Result<Packing, AllocError>
    requires { IsLawfulDir dir }
    ensures { IfOk result (IsPacking dir) }
{
    let entries = kept(alloc, &dir.blocks)?;
    let plan = plan(alloc, &dir.blocks, &entries, ROOM, END_LEN)?;
    Ok(Packing { dir, plan })
}

/// Packs the directory of the partitioned data set whose format 1 a slot holds, as it was read for the
/// packing.
///
/// The body of the set can be read. The index is that of the image of its unit, and no write is
/// pending. The blocks that change are written from the first to the last, in one write each, which is
/// made durable before the next. A stop leaves an image that stands for the same volume. `Device`
/// comes only where the count of its faults rose; then the index may be that of no image. No memory is
/// taken.
pub fn pack<H: Hall>(
    hall: &mut H,
    vol: &mut Vol,
    slot: u32,
    packing: &Packing,
) -> Result<(), Device>
    requires unit { IsOfUnit (H.facts hall.old).units vol.old }
    requires set { is_some (name_at vol.old.slots.items slot) ≡ true }
    requires packing { IsSomePacking packing.now }
    requires part { let image = image_in (H.meaning hall.old) (H.facts hall.old) vol.old.unit in
        IsTrue H.tells → (f : F1) → slice_get vol.old.slots.items slot ≡ Some (Dscb.F1 f)
        → IsReadablePart image vol.old f }
    requires read { let image = image_in (H.meaning hall.old) (H.facts hall.old) vol.old.unit in
        IsTrue H.tells → (f : F1) → slice_get vol.old.slots.items slot ≡ Some (Dscb.F1 f)
        → IsPackingOf image vol.old f packing.now }
    requires durable { IsTrue H.tells → IsDurable (H.meaning hall.old) }
    ensures files { let image = image_in (H.meaning hall.old) (H.facts hall.old) vol.old.unit in
        IsTrue H.tells → (f : F1) → slice_get vol.old.slots.items slot ≡ Some (Dscb.F1 f)
        → DoesOperation (unit_of (H.facts hall.old).units vol.old.unit).name
        (λ (volume : Volume). Ok volume) vol.new
        (DifferOn vol.old.geometry (directory_tracks image vol.old f)) (H.meaning hall.old)
        (H.meaning hall.new) result }
    ensures packed { let image' = image_in (H.meaning hall.new) (H.facts hall.new) vol.old.unit in
        IsTrue H.tells → (f : F1) → slice_get vol.old.slots.items slot ≡ Some (Dscb.F1 f)
        → OnOk result (IsPacked (directory_in image' vol.new f)) }
    ensures others { vol.new ≡ record vol.old { buf = vol.new.buf } }
    ensures unit { IsOfUnit (H.facts hall.new).units vol.new }
    ensures faults { DeviceCall (H.facts hall.old) (H.facts hall.new) result }
{
    let set = set_at(vol, slot);
    carry_out(hall, vol, &set, &packing.dir, &packing.plan)
}
