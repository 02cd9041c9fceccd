//! The data sets of a volume: looked for, changed, renamed and scratched.
ghost use Rattle.std.specs.Prelude.{◌≡◌, IfOk, None, if◌then◌else◌};
ghost use Rattle.std.specs.Option.{option_copied};
ghost use Rattle.vol_model.specs.Shelf.{changed, has_name, has_set, is_catalog, rename_on, rename_refusal, renamed, scratch_on, set_of, with_set};

use crate::copies::Copies;
use crate::lists::{Test, where_passed};
use crate::sorting::in_order;
use ebcdic_names::Dsn;
use std::alloc::{AllocError, Global};
use vol_model::{CatBody, DataSet, DataSets, Refusal, Volume, is_catalog};

/// Whether a volume has a data set of this name.
pub fn has_set(volume: &Volume, name: &Dsn) -> bool
    ensures { result ≡ has_set volume.now name.now.bytes }
{
    volume.sets.as_slice().iter().any(|set| set.name == *name)
}

/// The data set of this name.
pub fn set_of<'a>(volume: &'a Volume, name: &Dsn) -> Option<&'a DataSet>
    ensures { option_copied result ≡ set_of name.now.bytes volume.now }
{
    volume.sets.as_slice().iter().find(|set| set.name == *name)
}

/// A change of a data set.
pub trait Change {
    ghost use Rattle.vol_model.specs.declared.contents.DataSet.{DataSet};

    ghost change: { Self → DataSet → DataSet };

    /// What becomes of a data set.
    fn change(&self, alloc: Global, set: &DataSet) -> Result<DataSet, AllocError>
        ensures { IfOk result (λ after. after ≡ change self.now set.now) };
}

/// The volume with the data set of this name changed.
pub fn with_set<C: Change>(
    alloc: Global,
    volume: &Volume,
    name: &Dsn,
    change: &C,
) -> Result<Volume, AllocError>
    ensures { IfOk result (λ after. after ≡ with_set volume.now name.now.bytes (C.change change.now)) }
{
    Ok(Volume {
        serial: volume.serial,
        geometry: volume.geometry,
        vtoc: volume.vtoc,
        slots: volume.slots,
        sets: changed(alloc, volume.sets.as_slice(), name, change)?,
        catalog: volume.catalog.copy(alloc)?,
    })
}

// Data sets, of which the ones of this name are changed.
fn changed<C: Change>(
    alloc: Global,
    sets: &[DataSet],
    name: &Dsn,
    change: &C,
) -> Result<DataSets, AllocError>
    ensures { IfOk result (λ after. after ≡ changed name.now.bytes (C.change change.now) sets.now) }
{
    let mut after = DataSets::new(alloc);
    for set in sets {
        after.push(changed_set(alloc, set, name, change)?)?;
    }
    Ok(after)
}

// A data set, changed if it has this name.
fn changed_set<C: Change>(
    alloc: Global,
    set: &DataSet,
    name: &Dsn,
    change: &C,
) -> Result<DataSet, AllocError>
    ensures { IfOk result (λ after. after
        ≡ (if has_name name.now.bytes set.now then C.change change.now set.now else set.now)) }
{
    if set.name == *name {
        change.change(alloc, set)
    } else {
        set.copy(alloc)
    }
}

// Another name for a data set.
#[derive(Drop)]
struct NewName {
    name: Dsn,
}

impl Change for NewName {
    ghost change = { λ new set. record set { name = new.name } };

    fn change(&self, alloc: Global, set: &DataSet) -> Result<DataSet, AllocError> {
        Ok(DataSet {
            name: self.name,
            attr: set.attr,
            extents: set.extents.copy(alloc)?,
            body: set.body.copy(alloc)?,
        })
    }
}

/// The volume after a data set is given another name, or why that is refused.
#[tactic(auto, unfolding(vol_model::specs::Shelf::rename_on))]
pub fn rename_on(
    alloc: Global,
    old: &Dsn,
    new: &Dsn,
    volume: &Volume,
) -> Result<Result<Volume, Refusal>, AllocError>
    ensures { IfOk result (λ after. after ≡ rename_on old.now new.now volume.now) }
{
    match rename_refusal(volume, old, new) {
        Some(refusal) => Ok(Err(refusal)),
        None => Ok(Ok(renamed(alloc, volume, old, new)?)),
    }
}

// The first reason for which a data set can't be given another name.
#[tactic(auto, unfolding(vol_model::specs::Shelf::rename_refusal))]
fn rename_refusal(volume: &Volume, old: &Dsn, new: &Dsn) -> Option<Refusal>
    ensures { result ≡ rename_refusal volume.now old.now.bytes new.now.bytes }
{
    if !has_set(volume, old) {
        Some(Refusal::NoSet)
    } else if has_set(volume, new) {
        Some(Refusal::SetExists)
    } else if is_catalog(old) || is_catalog(new) {
        Some(Refusal::WrongKind)
    } else {
        None
    }
}

// The volume after a data set was given another name.
#[tactic(auto, unfolding(vol_model::specs::Shelf::renamed))]
fn renamed(alloc: Global, volume: &Volume, old: &Dsn, new: &Dsn) -> Result<Volume, AllocError>
    ensures { IfOk result (λ after. after ≡ renamed volume.now old.now.bytes new.now) }
{
    let sets = changed(alloc, volume.sets.as_slice(), old, &NewName { name: *new })?;
    Ok(Volume {
        serial: volume.serial,
        geometry: volume.geometry,
        vtoc: volume.vtoc,
        slots: volume.slots,
        sets: in_order(alloc, sets.as_slice())?,
        catalog: volume.catalog.copy(alloc)?,
    })
}

// The data sets of other names than this.
#[derive(Drop)]
struct OtherNames<'a> {
    name: &'a Dsn,
}

impl Test<DataSet> for OtherNames<'_> {
    ghost use Rattle.std.specs.Prelude.{not};
    ghost use Rattle.vol_model.specs.Shelf.{has_name};

    ghost passes = { λ test set. not (has_name test.name.now.bytes set) };

    fn passes(&self, set: &DataSet) -> bool {
        set.name != *self.name
    }
}

/// The volume after a data set is scratched, or why that is refused.
#[tactic(auto, unfolding(vol_model::specs::Shelf::scratch_on))]
pub fn scratch_on(
    alloc: Global,
    dsn: &Dsn,
    volume: &Volume,
) -> Result<Result<Volume, Refusal>, AllocError>
    ensures { IfOk result (λ after. after ≡ scratch_on dsn.now volume.now) }
{
    if set_of(volume, dsn).is_none() {
        return Ok(Err(Refusal::NoSet));
    }
    let others = OtherNames { name: dsn };
    Ok(Ok(Volume {
        serial: volume.serial,
        geometry: volume.geometry,
        vtoc: volume.vtoc,
        slots: volume.slots,
        sets: where_passed(alloc, DataSets::new(alloc), volume.sets.as_slice(), &others)?,
        catalog: catalog_without(alloc, dsn, &volume.catalog)?,
    }))
}

// The catalog where a data set of this name goes.
fn catalog_without(
    alloc: Global,
    dsn: &Dsn,
    catalog: &Option<CatBody>,
) -> Result<Option<CatBody>, AllocError>
    ensures { IfOk result (λ after. after ≡ (if is_catalog dsn.now.bytes then None else catalog.now)) }
{
    if is_catalog(dsn) {
        Ok(None)
    } else {
        catalog.copy(alloc)
    }
}
