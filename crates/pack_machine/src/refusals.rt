//! Why an operation on a data set of a volume is refused.
ghost use Rattle.std.specs.Prelude.{◌≡◌, ◌≢◌, ℕ, List, IfErr, IfOk, IsErrOf, IfSome, Err, None, Ok, false, Some, slice_get};
ghost use Rattle.ckd_image.specs.declared.header.Geometry.{Geometry};
ghost use Rattle.dscb_codec.specs.declared.Dscb.{Dscb};
ghost use Rattle.dadsm_ops.specs.Extending.{HoldsSet, IsReadable};
ghost use Rattle.hall_core.specs.Facts.{Attached};
ghost use Rattle.pack_spec.specs.Bodies.{body_of};
ghost use Rattle.pack_spec.specs.Volume.{attr_of};
ghost use Rattle.vol_model.specs.Reading.{kind_of};
ghost use Rattle.vol_model.specs.Shelf.{empty_on, extend_on, is_catalog, may_empty, unreadable};
ghost use Rattle.vol_model.specs.declared.contents.Attr.{Attr};
ghost use Rattle.vol_model.specs.declared.contents.Run.{Run};
ghost use Rattle.vol_model.specs.declared.contents.Volume.{Volume};
ghost use Rattle.vtoc_index.specs.Index.{IsMounted, IsOfUnit, first_named};
ghost use Rattle.vtoc_index.specs.Names.{AreByName, name_at};
ghost use Rattle.vtoc_sets.specs.Sets.{volume_in};
ghost use Rattle.pack_machine.specs.Known.{HoldLibraries, ListsBroken};
ghost use Rattle.pack_machine.specs.Refusals.{IsPartTest, IsReason, IsRefusedBy, empty_refusal, extend_refusal};
ghost use Rattle.pack_machine.specs.Libraries.{IsVacancyOf};
ghost use Rattle.pack_machine.specs.Unread.{broken_by, track_in};

use crate::libraries::vacancy;
use crate::pack_cache::PackCache;
use crate::reads::kind_in;
use dscb_codec::{Dscb, F1};
use ebcdic_names::Dsn;
use vol_model::{Kind, Refusal, StoreErr, is_catalog};
use vtoc_index::{Vol, find};
use vtoc_sets::{BodyKind, body_kind};

// The refusal of a data set whose body can't be read, by its format 1 and by those that can't be read.
fn unread_refusal(known: &PackCache, set: &F1) -> Option<Refusal>
    ensures { (g : Geometry) (tracks : List (List ℕ)) (extents : List Run) →
        let body = body_of g tracks set.now.name (attr_of set.now) extents set.now.lstar in
        track_in known.now.unread.items set.now.name ≡ broken_by set.now.name (attr_of set.now) body
        → result ≡ unreadable body }
{
    match kind_in(known, set) {
        Kind::Unreadable(track) => Some(Refusal::Unreadable(track)),
        _ => None,
    }
}

// Whether a data set is of a kind that may be emptied. One that is partitioned may be, where it can't be read.
#[tactic(auto, unfolding(pack_spec::specs::Volume::attr_of))]
fn may_empty(set: &F1) -> bool
    ensures { (g : Geometry) (tracks : List (List ℕ)) (extents : List Run) →
        let body = body_of g tracks set.now.name (attr_of set.now) extents set.now.lstar in
        kind_of body ≢ Kind.Part → result ≡ may_empty set.now.name (attr_of set.now) body }
{
    match body_kind(set) {
        BodyKind::Seq => true,
        BodyKind::Part => true,
        BodyKind::Catalog => false,
        BodyKind::Other => set.dsorg == 0,
    }
}

// Whether a data set is a partitioned one that can be read, by its format 1 and by those that can't be read.
fn is_part(known: &PackCache, set: &F1) -> bool
    ensures { (g : Geometry) (tracks : List (List ℕ)) (extents : List Run) →
        let body = body_of g tracks set.now.name (attr_of set.now) extents set.now.lstar in
        track_in known.now.unread.items set.now.name ≡ broken_by set.now.name (attr_of set.now) body
        → IsPartTest result body }
{
    match kind_in(known, set) {
        Kind::Part => true,
        _ => false,
    }
}

// Why a partitioned data set that can be read can't be emptied, if there is a reason: `Memory` where it isn't known whether
// it has an entry or a block.
fn part_refusal(set: &F1, vacancy: Option<bool>) -> Option<StoreErr>
    ensures reason { (g : Geometry) (tracks : List (List ℕ)) (extents : List Run) →
        let body = body_of g tracks set.now.name (attr_of set.now) extents set.now.lstar in
        kind_of body ≡ Kind.Part → IsVacancyOf vacancy body set.now.lstar
        → IsReason result (empty_refusal set.now.name (attr_of set.now) body) }
    ensures device { IfSome result (λ e. e ≢ StoreErr.Device) }
{
    match vacancy {
        Some(true) => None,
        Some(false) => Some(StoreErr::Refused(Refusal::WrongKind)),
        None => Some(StoreErr::Memory),
    }
}

// Why a data set can't be emptied, if there is a reason: `Memory` for a partitioned one whose library isn't held.
fn empty_refusal(known: &PackCache, set: &F1, vacancy: Option<bool>) -> Option<StoreErr>
    ensures reason { (g : Geometry) (tracks : List (List ℕ)) (extents : List Run) →
        let body = body_of g tracks set.now.name (attr_of set.now) extents set.now.lstar in
        track_in known.now.unread.items set.now.name ≡ broken_by set.now.name (attr_of set.now) body
        → (kind_of body ≡ Kind.Part → IsVacancyOf vacancy body set.now.lstar)
        → IsReason result (empty_refusal set.now.name (attr_of set.now) body) }
    ensures device { IfSome result (λ e. e ≢ StoreErr.Device) }
{
    if is_part(known, set) {
        return part_refusal(set, vacancy);
    }
    if !may_empty(set) {
        return Some(StoreErr::Refused(Refusal::WrongKind));
    }
    match unread_refusal(known, set) {
        Some(refusal) => Some(StoreErr::Refused(refusal)),
        None => None,
    }
}

// Why a data set can't have more extents, whatever is free, if there is a reason.
fn extend_refusal(known: &PackCache, set: &F1) -> Option<Refusal>
    ensures refusal { (g : Geometry) (tracks : List (List ℕ)) (extents : List Run) →
        let body = body_of g tracks set.now.name (attr_of set.now) extents set.now.lstar in
        track_in known.now.unread.items set.now.name ≡ broken_by set.now.name (attr_of set.now) body
        → result ≡ extend_refusal set.now.name body }
    ensures other { result ≡ None → is_catalog set.now.name ≡ false }
{
    if is_catalog(&Dsn { bytes: set.name }) {
        return Some(Refusal::WrongKind);
    }
    unread_refusal(known, set)
}

// The slot of the data set of this name, and its format 1.
pub(crate) fn slot_of(vol: &Vol, dsn: &Dsn) -> Option<(u32, F1)>
    requires { AreByName (name_at vol.now.slots.items) vol.now.by_name.items }
    ensures slot { IfSome result (λ p. first_named dsn.now.bytes vol.now.slots.items ≡ Some p.0) }
    ensures set { IfSome result (λ p. slice_get vol.now.slots.items p.0 ≡ Some (Dscb.F1 p.1)) }
    ensures none { result ≡ None → first_named dsn.now.bytes vol.now.slots.items ≡ None }
{
    let slot = find(vol, dsn)?;
    match &vol.slots[slot as usize] {
        Dscb::F1(set) => Some((slot, *set)),
        _ => None,
    }
}

// The slot of the data set of this name, or why it can't be emptied.
pub(crate) fn slot_to_empty(vol: &Vol, known: &PackCache, dsn: &Dsn) -> Result<u32, StoreErr>
    requires unit { (units : List Attached) × IsOfUnit units vol.now }
    requires names { AreByName (name_at vol.now.slots.items) vol.now.by_name.items }
    ensures slot { IfOk result (λ slot. first_named dsn.now.bytes vol.now.slots.items ≡ Some slot) }
    ensures accepted { IfOk result (λ slot. (image : List ℕ) (attr : Attr) → IsMounted image vol.now
        → ListsBroken (volume_in image vol.now) known.now.unread.items
        → HoldLibraries image vol.now known.now.libraries.items
        → (after : Volume) × (empty_on dsn.now attr (volume_in image vol.now) ≡ Ok after)) }
    ensures refused { IfErr result (λ e. (image : List ℕ) (attr : Attr) → IsMounted image vol.now
        → ListsBroken (volume_in image vol.now) known.now.unread.items
        → HoldLibraries image vol.now known.now.libraries.items
        → IsRefusedBy e (empty_on dsn.now attr (volume_in image vol.now))) }
    ensures device { ¬ IsErrOf result StoreErr.Device }
{
    let Some((slot, set)) = slot_of(vol, dsn) else {
        return Err(StoreErr::Refused(Refusal::NoSet));
    };
    let vacancy = vacancy(vol, &known.libraries, &set);
    match empty_refusal(known, &set, vacancy) {
        Some(error) => Err(error),
        None => Ok(slot),
    }
}

// The slot of the data set of this name, or why it can't have more extents, whatever is free.
pub(crate) fn slot_to_extend(vol: &Vol, known: &PackCache, dsn: &Dsn) -> Result<u32, Refusal>
    requires { AreByName (name_at vol.now.slots.items) vol.now.by_name.items }
    ensures slot { IfOk result (λ slot. first_named dsn.now.bytes vol.now.slots.items ≡ Some slot) }
    ensures set { IfOk result (λ slot. HoldsSet vol.now.slots.items slot) }
    ensures readable { IfOk result (λ slot. (image : List ℕ) → IsMounted image vol.now
        → ListsBroken (volume_in image vol.now) known.now.unread.items → IsReadable image dsn.now.bytes) }
    ensures refused { IfErr result (λ r. (image : List ℕ) → IsMounted image vol.now
        → ListsBroken (volume_in image vol.now) known.now.unread.items
        → extend_on dsn.now (volume_in image vol.now) ≡ Err r) }
{
    let Some((slot, set)) = slot_of(vol, dsn) else {
        return Err(Refusal::NoSet);
    };
    match extend_refusal(known, &set) {
        Some(refusal) => Err(refusal),
        None => Ok(slot),
    }
}
