//! The blocks of a data set go.
ghost use Rattle.std.specs.Prelude.{◌≡◌, ◌==◌, IfOk, if◌then◌else◌};
ghost use Rattle.vol_model.specs.Shelf.{empty_on, is_sequential, is_vacant, may_empty, without_blocks};

use crate::copies::Copies;
use crate::directories::is_partitioned;
use crate::sets::{Change, set_of, with_set};
use ebcdic_names::Dsn;
use std::alloc::{AllocError, Global};
use vol_model::{Attr, Blocks, Body, DataSet, Entries, Refusal, Volume, is_catalog};

// Whether it is the name and organization of a sequential set.
pub(crate) fn is_sequential(name: &Dsn, attr: &Attr) -> bool
    ensures { result ≡ is_sequential name.now.bytes attr.now }
{
    !is_catalog(name) && attr.dsorg / 512 == 32
}

// Whether it is a body without entries and blocks, as far as it can be read.
fn is_vacant(body: &Body) -> bool
    ensures { result ≡ is_vacant body.now }
{
    match body {
        Body::Part {
            entries,
            blocks,
            ..
        } => entries.is_empty() && blocks.is_empty(),
        Body::Unreadable(_) => true,
        _ => false,
    }
}

// Whether a set of this kind may be emptied.
fn may_empty(name: &Dsn, attr: &Attr, body: &Body) -> bool
    ensures { result ≡ may_empty name.now.bytes attr.now body.now }
{
    is_sequential(name, attr)
        || ((attr.dsorg == 0 && !is_catalog(name))
            || (is_partitioned(name, attr) && is_vacant(body)))
}

// A body without blocks; a set without an organization becomes sequential.
fn without_blocks(alloc: Global, body: &Body) -> Body
    ensures { result ≡ without_blocks body.now }
{
    match body {
        Body::Part { dir, end, .. } => Body::Part {
            dir: *dir,
            end: *end,
            entries: Entries::new(alloc),
            blocks: Blocks::new(alloc),
        },
        _ => Body::Seq(Blocks::new(alloc)),
    }
}

// A data set without its blocks, with the record format and lengths of these attributes.
#[derive(Drop)]
struct Emptied<'a> {
    attr: &'a Attr,
}

impl Change for Emptied<'_> {
    ghost use Rattle.vol_model.specs.Shelf.{emptied};

    ghost change = { λ new set. emptied new.attr.now set };

    fn change(&self, alloc: Global, set: &DataSet) -> Result<DataSet, AllocError> {
        Ok(DataSet {
            name: set.name,
            attr: emptied_attr(&set.attr, self.attr),
            extents: set.extents.copy(alloc)?,
            body: without_blocks(alloc, &set.body),
        })
    }
}

// The attributes of a set that is emptied.
fn emptied_attr(old: &Attr, new: &Attr) -> Attr
    ensures { result ≡ record old.now { dsorg = if old.now.dsorg == 0 then 0x4000 else old.now.dsorg; recfm = new.now.recfm; optcd = new.now.optcd; blksize = new.now.blksize; lrecl = new.now.lrecl; keylen = new.now.keylen; rkp = new.now.rkp } }
{
    Attr {
        dsorg: if old.dsorg == 0 { 0x4000 } else { old.dsorg },
        recfm: new.recfm,
        optcd: new.optcd,
        blksize: new.blksize,
        lrecl: new.lrecl,
        keylen: new.keylen,
        rkp: new.rkp,
        ..*old
    }
}

/// The volume after the blocks of a data set go, or why that is refused.
#[tactic(auto, unfolding(vol_model::specs::Shelf::empty_on))]
pub fn empty_on(
    alloc: Global,
    dsn: &Dsn,
    attr: &Attr,
    volume: &Volume,
) -> Result<Result<Volume, Refusal>, AllocError>
    ensures { IfOk result (λ after. after ≡ empty_on dsn.now attr.now volume.now) }
{
    let Some(set) = set_of(volume, dsn) else {
        return Ok(Err(Refusal::NoSet));
    };
    if !may_empty(dsn, &set.attr, &set.body) {
        return Ok(Err(Refusal::WrongKind));
    }
    if let Body::Unreadable(track) = &set.body {
        return Ok(Err(Refusal::Unreadable(*track)));
    }
    Ok(Ok(with_set(alloc, volume, dsn, &Emptied { attr })?))
}
