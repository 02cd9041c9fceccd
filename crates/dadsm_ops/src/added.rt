//! The DSCBs of a data set that gets extents after its own.
ghost use Rattle.std.specs.Prelude.{◌≡◌, ℕ, ◌+◌, ◌≤◌, List, length};
ghost use Rattle.dadsm_ops.specs.Allocating.{AreExtents};
ghost use Rattle.dadsm_ops.specs.Extending.{added_field, added_type, f1_with, f3_with, further_slots, secondary_request, secondary_unit};
ghost use Rattle.space_alloc.specs.Units.{listed};
ghost use Rattle.vol_model.specs.Shelf.{secondary_asked};

use crate::new_set::{extent_bytes, extent_count};
use ckd_image::Geometry;
use dscb_codec::{F1, F3};
use pack_spec::layout::{CYLINDER_EXTENT, DATA_EXTENT, Extent, OWN_EXTENTS};
use space_alloc::Extents;
use vol_model::{Attr, Request, SpaceUnit};

// A format 3 without an extent.
pub(crate) const EMPTY_F3: F3 = F3 {
    id: 0x0303_0303,
    front: [[0; 10]; 4],
    back: [[0; 10]; 9],
    pointer: [0; 5],
};

// The unit of the secondary quantity, as the two highest bits of a set's flags name it.
fn secondary_unit(flags: u8) -> Option<SpaceUnit>
    ensures { result ≡ secondary_unit flags }
{
    match flags / 64 {
        3 => Some(SpaceUnit::Cylinder),
        2 => Some(SpaceUnit::Track),
        _ => None,
    }
}

// The request for the secondary quantity of a set; none where it has no such quantity.
pub(crate) fn secondary_request(attr: &Attr) -> Option<Request>
    ensures { result ≡ secondary_request attr.now }
{
    if attr.secondary == 0 {
        return None;
    }
    let unit = secondary_unit(attr.scalo)?;
    Some(Request {
        unit,
        primary: attr.secondary,
        secondary: 0,
        contig: false,
    })
}

// The secondary quantity that a set asks for, by the highest bit of its flags.
pub(crate) fn secondary_asked(attr: &Attr) -> u32
    ensures { result ≡ secondary_asked attr.now }
{
    if attr.scalo >= 0x80 {
        attr.secondary
    } else {
        0
    }
}

// The type of the extents that a set gets.
pub(crate) fn added_type(attr: &Attr) -> u8
    ensures { result ≡ added_type attr.now }
{
    if attr.scalo / 64 == 3 {
        CYLINDER_EXTENT
    } else {
        DATA_EXTENT
    }
}

// The slots that a set takes besides, where it has so many extents and gets these.
pub(crate) fn further_slots(count: u8, extents: &Extents) -> u32
    requires few { extents.now.n ≤ 5 }
    ensures slots { result ≡ further_slots count (listed extents.now) }
    ensures few { result ≤ 1 }
{
    if count <= OWN_EXTENTS && u16::from(count) + u16::from(extent_count(*extents)) > 3 {
        1
    } else {
        0
    }
}

// The field for the extent of a number, where these are added after so many extents, and it was this.
fn added_field(
    geometry: &Geometry,
    kind: u8,
    count: u8,
    extents: &Extents,
    number: u8,
    field: &Extent,
) -> Extent
    requires few { extents.now.n ≤ 5 }
    requires written { AreExtents (listed extents.now) }
    ensures { result ≡ added_field geometry.now kind count (listed extents.now) number field.now }
{
    if number < count || number - count >= extents.n {
        return *field;
    }
    extent_bytes(
        geometry,
        kind,
        number,
        extents.runs[usize::from(number - count)],
    )
}

// The format 1 of a data set that has these extents too, with the address of its format 3.
pub(crate) fn f1_with(
    set: &F1,
    geometry: &Geometry,
    kind: u8,
    extents: &Extents,
    pointer: [u8; 5],
) -> F1
    requires few { extents.now.n ≤ 5 }
    requires total { set.now.extents + length (listed extents.now) ≤ 16 }
    requires written { AreExtents (listed extents.now) }
    ensures { result ≡ f1_with geometry.now kind (listed extents.now) pointer set.now }
{
    let count = set.extents;
    F1 {
        extents: count + extent_count(*extents),
        runs: [
            added_field(geometry, kind, count, extents, 0, &set.runs[0]),
            added_field(geometry, kind, count, extents, 1, &set.runs[1]),
            added_field(geometry, kind, count, extents, 2, &set.runs[2]),
        ],
        pointer,
        ..*set
    }
}

// The format 3 of a data set that had so many extents and has these too.
pub(crate) fn f3_with(
    further: &F3,
    geometry: &Geometry,
    kind: u8,
    count: u8,
    extents: &Extents,
) -> F3
    requires few { extents.now.n ≤ 5 }
    requires written { AreExtents (listed extents.now) }
    ensures { result ≡ f3_with geometry.now kind count (listed extents.now) further.now }
{
    F3 {
        front: [
            added_field(geometry, kind, count, extents, 3, &further.front[0]),
            added_field(geometry, kind, count, extents, 4, &further.front[1]),
            added_field(geometry, kind, count, extents, 5, &further.front[2]),
            added_field(geometry, kind, count, extents, 6, &further.front[3]),
        ],
        back: [
            added_field(geometry, kind, count, extents, 7, &further.back[0]),
            added_field(geometry, kind, count, extents, 8, &further.back[1]),
            added_field(geometry, kind, count, extents, 9, &further.back[2]),
            added_field(geometry, kind, count, extents, 10, &further.back[3]),
            added_field(geometry, kind, count, extents, 11, &further.back[4]),
            added_field(geometry, kind, count, extents, 12, &further.back[5]),
            added_field(geometry, kind, count, extents, 13, &further.back[6]),
            added_field(geometry, kind, count, extents, 14, &further.back[7]),
            added_field(geometry, kind, count, extents, 15, &further.back[8]),
        ],
        ..*further
    }
}
