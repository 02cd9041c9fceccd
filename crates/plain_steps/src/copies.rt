//! Copies of values.
ghost use Rattle.std.specs.Prelude.{◌≡◌, IfOk};

use crate::lists::with_copies;
use ebcdic_names::Name8;
use std::alloc::{AllocError, Global};
use vol_model::{
    Block, Body, CatBody, CatNode, CatPath, DataSet, Entry, Listed, Run, VolRef, Volume,
};

/// A value of which copies can be made.
pub trait Copies: Sized + Drop {
    /// A copy of the value.
    fn copy(&self, alloc: Global) -> Result<Self, AllocError>
        ensures { IfOk result (λ copy. copy ≡ self.now) };
}

impl Copies for u8 {
    fn copy(&self, _alloc: Global) -> Result<u8, AllocError> {
        Ok(*self)
    }
}

impl Copies for Run {
    fn copy(&self, _alloc: Global) -> Result<Run, AllocError> {
        Ok(*self)
    }
}

impl Copies for VolRef {
    fn copy(&self, _alloc: Global) -> Result<VolRef, AllocError> {
        Ok(*self)
    }
}

impl Copies for Name8 {
    fn copy(&self, _alloc: Global) -> Result<Name8, AllocError> {
        Ok(*self)
    }
}

impl<T: Copies> Copies for Listed<T> {
    fn copy(&self, alloc: Global) -> Result<Listed<T>, AllocError> {
        copy_items(alloc, self.as_slice())
    }
}

/// Copies of items.
pub fn copy_items<T: Copies>(alloc: Global, items: &[T]) -> Result<Listed<T>, AllocError>
    ensures { IfOk result (λ copy. copy ≡ items.now) }
{
    with_copies(alloc, Listed::new(alloc), items)
}

impl Copies for Block {
    fn copy(&self, alloc: Global) -> Result<Block, AllocError> {
        Ok(Block {
            place: self.place,
            key: self.key.copy(alloc)?,
            payload: self.payload.copy(alloc)?,
        })
    }
}

impl Copies for Entry {
    fn copy(&self, alloc: Global) -> Result<Entry, AllocError> {
        Ok(Entry {
            name: self.name,
            place: self.place,
            flags: self.flags,
            user: self.user.copy(alloc)?,
        })
    }
}

impl Copies for Body {
    fn copy(&self, alloc: Global) -> Result<Body, AllocError> {
        match self {
            Body::Seq(blocks) => Ok(Body::Seq(blocks.copy(alloc)?)),
            Body::Part {
                dir,
                end,
                entries,
                blocks,
            } => Ok(Body::Part {
                dir: *dir,
                end: *end,
                entries: entries.copy(alloc)?,
                blocks: blocks.copy(alloc)?,
            }),
            Body::Catalog => Ok(Body::Catalog),
            Body::Other => Ok(Body::Other),
            Body::Unreadable(track) => Ok(Body::Unreadable(*track)),
        }
    }
}

impl Copies for DataSet {
    fn copy(&self, alloc: Global) -> Result<DataSet, AllocError> {
        Ok(DataSet {
            name: self.name,
            attr: self.attr,
            extents: self.extents.copy(alloc)?,
            body: self.body.copy(alloc)?,
        })
    }
}

impl Copies for CatPath {
    fn copy(&self, alloc: Global) -> Result<CatPath, AllocError> {
        Ok(CatPath {
            names: self.names.copy(alloc)?,
        })
    }
}

impl Copies for CatNode {
    fn copy(&self, alloc: Global) -> Result<CatNode, AllocError> {
        match self {
            CatNode::Index => Ok(CatNode::Index),
            CatNode::Group {
                limit,
                empty,
                delete,
            } => Ok(CatNode::Group {
                limit: *limit,
                empty: *empty,
                delete: *delete,
            }),
            CatNode::Set { vols } => Ok(CatNode::Set {
                vols: vols.copy(alloc)?,
            }),
            CatNode::Alias { of } => Ok(CatNode::Alias { of: *of }),
            CatNode::Other { place, payload } => Ok(CatNode::Other {
                place: *place,
                payload: payload.copy(alloc)?,
            }),
        }
    }
}

impl<A: Copies, B: Copies> Copies for (A, B) {
    fn copy(&self, alloc: Global) -> Result<(A, B), AllocError> {
        Ok((self.0.copy(alloc)?, self.1.copy(alloc)?))
    }
}

impl Copies for CatBody {
    fn copy(&self, alloc: Global) -> Result<CatBody, AllocError> {
        match self {
            CatBody::Tree { blocks, nodes } => Ok(CatBody::Tree {
                blocks: *blocks,
                nodes: nodes.copy(alloc)?,
            }),
            CatBody::Unreadable(track) => Ok(CatBody::Unreadable(*track)),
        }
    }
}

impl<T: Copies> Copies for Option<T> {
    fn copy(&self, alloc: Global) -> Result<Option<T>, AllocError> {
        match self {
            Some(value) => Ok(Some(value.copy(alloc)?)),
            None => Ok(None),
        }
    }
}

impl Copies for Volume {
    fn copy(&self, alloc: Global) -> Result<Volume, AllocError> {
        Ok(Volume {
            serial: self.serial,
            geometry: self.geometry,
            vtoc: self.vtoc,
            slots: self.slots,
            sets: self.sets.copy(alloc)?,
            catalog: self.catalog.copy(alloc)?,
        })
    }
}
