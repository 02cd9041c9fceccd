//! What a mounted pack tells, read by read.
ghost use Rattle.std.specs.Prelude.{◌≡◌, ◌^◌, ◌<◌, ℕ, List, Ok, IfSome, option_map};
ghost use Rattle.std.specs.List.{list_any};
ghost use Rattle.std.specs.Option.{option_copied};
ghost use Rattle.hall_core.specs.Facts.{Attached};
ghost use Rattle.ckd_image.specs.declared.header.Geometry.{Geometry};
ghost use Rattle.pack_spec.specs.Bodies.{body_of};
ghost use Rattle.pack_spec.specs.Rules.{is_named};
ghost use Rattle.pack_spec.specs.Volume.{attr_of};
ghost use Rattle.vol_model.specs.Shelf.{catalog_name};
ghost use Rattle.vol_model.specs.Reading.{directory_size, extent_on, kind_of, set_info};
ghost use Rattle.vol_model.specs.declared.contents.Run.{Run};
ghost use Rattle.vol_model.specs.Writing.{begin_refusal, body_on, set_on};
ghost use Rattle.vtoc_index.specs.Index.{IsOfUnit};
ghost use Rattle.vtoc_index.specs.Names.{AreByName, name_at};
ghost use Rattle.vol_model.specs.declared.contents.Shelf.{Shelf};
ghost use Rattle.pack_machine.specs.Known.{ListsUnread};
ghost use Rattle.pack_machine.specs.Reads.{HasVolume, IsSetOn};
ghost use Rattle.pack_machine.specs.Unread.{broken_by, track_in};

use crate::pack_cache::PackCache;
use crate::unread::track_of;
use dscb_codec::{Dscb, F1};
use ebcdic_names::Dsn;
use vol_model::{Kind, Mode, Refusal, Run, SetInfo, is_catalog};
use vtoc_index::{Vol, find};
use vtoc_sets::{BodyKind, attr_of, body_kind, fits_mode, run_at, space_of};

// The format 1 of the data set of this name.
pub(crate) fn set_in<'a>(vol: &'a Vol, dsn: &Dsn) -> Option<&'a F1>
    requires unit { (units : List Attached) × IsOfUnit units vol.now }
    requires names { AreByName (name_at vol.now.slots.items) vol.now.by_name.items }
    ensures { (shelf : Shelf) (n : ℕ) (has : HasVolume shelf n vol.now) → IsSetOn has.image vol.now
        (set_on shelf n dsn.now.bytes) (option_copied result) }
{
    let slot = find(vol, dsn)?;
    match &vol.slots[slot as usize] {
        Dscb::F1(set) => Some(set),
        _ => None,
    }
}

// The kind of a data set, by its format 1 and by those that can't be read.
pub(crate) fn kind_in(known: &PackCache, set: &F1) -> Kind
    ensures { (g : Geometry) (tracks : List (List ℕ)) (extents : List Run) →
        let body = body_of g tracks set.now.name (attr_of set.now) extents set.now.lstar in
        track_in known.now.unread.items set.now.name ≡ broken_by set.now.name (attr_of set.now) body
        → result ≡ kind_of body }
{
    match body_kind(set) {
        BodyKind::Seq => match track_of(&known.unread, &Dsn { bytes: set.name }) {
            Some(track) => Kind::Unreadable(track),
            None => Kind::Seq,
        },
        BodyKind::Part => match track_of(&known.unread, &Dsn { bytes: set.name }) {
            Some(track) => Kind::Unreadable(track),
            None => Kind::Part,
        },
        BodyKind::Catalog => Kind::Unreadable(0),
        BodyKind::Other => Kind::Other,
    }
}

/// A data set of a volume in short, which has so many directory blocks.
#[tactic(auto, unfolding(vol_model::specs::Reading::set_info))]
pub fn info_in(vol: &Vol, known: &PackCache, dsn: &Dsn, dir: u32) -> Option<SetInfo>
    requires unit { (units : List Attached) × IsOfUnit units vol.now }
    requires names { AreByName (name_at vol.now.slots.items) vol.now.by_name.items }
    ensures info { (shelf : Shelf) (n : ℕ) → HasVolume shelf n vol.now
        → ListsUnread shelf n known.now.unread.items
        → dir ≡ directory_size (body_on shelf n dsn.now.bytes)
        → result ≡ option_map set_info (set_on shelf n dsn.now.bytes) }
    ensures lawful { IfSome result (λ info. info.attr.secondary < 2 ^ 24) }
{
    let set = set_in(vol, dsn)?;
    let space = space_of(vol, set);
    Some(SetInfo {
        attr: attr_of(set),
        kind: kind_in(known, set),
        extents: space.extents,
        tracks: space.tracks,
        dir,
    })
}

/// The k-th extent of a data set of a volume.
pub fn extent_in(vol: &Vol, dsn: &Dsn, k: u8) -> Option<Run>
    requires unit { (units : List Attached) × IsOfUnit units vol.now }
    requires names { AreByName (name_at vol.now.slots.items) vol.now.by_name.items }
    ensures { (shelf : Shelf) (n : ℕ) → HasVolume shelf n vol.now
        → result ≡ extent_on shelf n dsn.now.bytes k }
{
    run_at(vol, set_in(vol, dsn)?, k)
}

/// Why blocks can't be written to a data set of a volume, if there is a reason.
pub fn write_refusal_in(vol: &Vol, known: &PackCache, dsn: &Dsn, mode: Mode) -> Option<Refusal>
    requires unit { (units : List Attached) × IsOfUnit units vol.now }
    requires names { AreByName (name_at vol.now.slots.items) vol.now.by_name.items }
    ensures { (shelf : Shelf) (n : ℕ) → HasVolume shelf n vol.now
        → ListsUnread shelf n known.now.unread.items → result
        ≡ begin_refusal shelf (record { v = n; dsn = dsn.now; mode = mode }) }
{
    let Some(set) = set_in(vol, dsn) else {
        return Some(Refusal::NoSet);
    };
    if !fits_mode(set, mode) {
        return Some(Refusal::WrongKind);
    }
    match kind_in(known, set) {
        Kind::Unreadable(track) => Some(Refusal::Unreadable(track)),
        _ => None,
    }
}

/// Whether one of its data sets holds the catalog.
pub fn has_catalog(vol: &Vol) -> bool
    ensures { result ≡ list_any (λ d. is_named catalog_name (Ok d)) vol.now.slots.items }
{
    vol.slots.iter().any(is_named_catalog)
}

// Whether a DSCB is the format 1 of the set that holds the catalog.
fn is_named_catalog(dscb: &Dscb) -> bool
    ensures { result ≡ is_named catalog_name (Ok dscb.now) }
{
    match dscb {
        Dscb::F1(set) => is_catalog(&Dsn { bytes: set.name }),
        _ => false,
    }
}
