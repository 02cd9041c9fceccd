//! A mounted pack.
ghost use Rattle.std.specs.Prelude.{◌≡◌};
ghost use Rattle.mount_repair.specs.Sets.{HasRoom};
ghost use Rattle.vtoc_index.specs.Kept.{kept_props};

use crate::pack_cache::PackCache;
use vtoc_index::Vol;

/// A pack on a unit: its index, which has room for its free runs, and what is known of the bodies on it.
#[derive(Drop)]
pub struct Pack {
    /// The index.
    pub vol: Vol,
    /// What is known of the bodies.
    pub cache: PackCache,
    pub ghost room: { HasRoom vol },
    pub ghost buffer: { cache.buf.records.geometry ≡ vol.geometry } by { Prim.hlevel kept_props },
}
