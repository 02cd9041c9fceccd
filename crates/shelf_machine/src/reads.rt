//! What the shelf of several mounted packs tells, read by read.
ghost use Rattle.std.specs.Prelude.{◌≡◌, ◌^◌, ◌<◌, List, IfSome, option_map, slice_get};
ghost use Rattle.std.specs.Option.{option_copied};
ghost use Rattle.hall_core.specs.Facts.{Attached};
ghost use Rattle.vol_model.specs.Reading.{catalog_on, directory_size, extent_on, name_on, set_info, volume_info};
ghost use Rattle.vol_model.specs.declared.contents.Run.{Run};
ghost use Rattle.vol_model.specs.Writing.{begin_refusal, body_on, set_on};
ghost use Rattle.vtoc_index.specs.Names.{name_at};
ghost use Rattle.vol_model.specs.declared.contents.Shelf.{Shelf};
ghost use Rattle.shelf_machine.specs.Machine.{AreIndexes, AreInOrder};
ghost use Rattle.shelf_machine.specs.Known.{KnowsBodies};
ghost use Rattle.shelf_machine.specs.ReadyPacks.{caches_of, vols_of};
ghost use Rattle.pack_machine.specs.Reads.{HasVolumes, IsUnreadCatalog};

use ebcdic_names::Dsn;
use pack_machine::{Pack, extent_in, has_catalog, info_in, volume_info, write_refusal_in};
use vol_model::{Mode, Refusal, Run, SetInfo, VolumeInfo};
use vtoc_index::name_at;

// The pack of this number.
pub(crate) fn pack_at(packs: &[Pack], v: u8) -> Option<&Pack>
    ensures { option_copied result ≡ slice_get packs.now v }
{
    packs.get(usize::from(v))
}

// The volume of this number in short.
pub(crate) fn volume_on(packs: &[Pack], v: u8) -> Option<VolumeInfo>
    requires units { (attached : List Attached) × AreIndexes attached (vols_of packs.now) }
    ensures { (shelf : Shelf) → HasVolumes shelf (vols_of packs.now)
        → result ≡ option_map volume_info (slice_get shelf.volumes v) }
{
    let pack = pack_at(packs, v)?;
    Some(volume_info(&pack.vol))
}

// The name of the k-th data set of a volume.
pub(crate) fn name_on(packs: &[Pack], v: u8, k: u32) -> Option<Dsn>
    requires order { AreInOrder (vols_of packs.now) }
    ensures { (shelf : Shelf) → HasVolumes shelf (vols_of packs.now) → result ≡ name_on shelf v k }
{
    let pack = pack_at(packs, v)?;
    name_at(&pack.vol, k)
}

// A data set in short, which has so many directory blocks.
pub(crate) fn info_on(packs: &[Pack], v: u8, dsn: &Dsn, dir: u32) -> Option<SetInfo>
    requires units { (attached : List Attached) × AreIndexes attached (vols_of packs.now) }
    requires order { AreInOrder (vols_of packs.now) }
    ensures info { (shelf : Shelf) → HasVolumes shelf (vols_of packs.now) → KnowsBodies shelf (caches_of packs.now)
        → dir ≡ directory_size (body_on shelf v dsn.now.bytes)
        → result ≡ option_map set_info (set_on shelf v dsn.now.bytes) }
    ensures lawful { IfSome result (λ info. info.attr.secondary < 2 ^ 24) }
{
    let pack = pack_at(packs, v)?;
    info_in(&pack.vol, &pack.cache, dsn, dir)
}

// The k-th extent of a data set.
pub(crate) fn extent_on(packs: &[Pack], v: u8, dsn: &Dsn, k: u8) -> Option<Run>
    requires units { (attached : List Attached) × AreIndexes attached (vols_of packs.now) }
    requires order { AreInOrder (vols_of packs.now) }
    ensures { (shelf : Shelf) → HasVolumes shelf (vols_of packs.now)
        → result ≡ extent_on shelf v dsn.now.bytes k }
{
    let pack = pack_at(packs, v)?;
    extent_in(&pack.vol, dsn, k)
}

// Why blocks can't be written to a data set, if there is a reason.
pub(crate) fn write_refusal(packs: &[Pack], v: u8, dsn: &Dsn, mode: Mode) -> Option<Refusal>
    requires units { (attached : List Attached) × AreIndexes attached (vols_of packs.now) }
    requires order { AreInOrder (vols_of packs.now) }
    ensures { (shelf : Shelf) → HasVolumes shelf (vols_of packs.now) → KnowsBodies shelf (caches_of packs.now) → result
        ≡ begin_refusal shelf (record { v = v; dsn = dsn.now; mode = mode }) }
{
    match pack_at(packs, v) {
        Some(pack) => write_refusal_in(&pack.vol, &pack.cache, dsn, mode),
        None => Some(Refusal::NoVolume),
    }
}

// The track at which the catalog of a volume can't be read; `None` where there is no catalog.
pub(crate) fn unread_catalog(packs: &[Pack], v: u8) -> Option<u16>
    ensures { (shelf : Shelf) → HasVolumes shelf (vols_of packs.now)
        → IsUnreadCatalog result (catalog_on shelf v) }
{
    let pack = pack_at(packs, v)?;
    if has_catalog(&pack.vol) {
        Some(0)
    } else {
        None
    }
}
