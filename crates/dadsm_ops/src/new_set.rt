//! The DSCBs of a new data set.
ghost use Rattle.std.specs.Prelude.{◌≡◌, ℕ, ◌+◌, ◌^◌, ◌≤◌, ◌<◌, List, length, false};
ghost use Rattle.dadsm_ops.specs.Allocating.{AreExtents, extent_bytes, extent_field, extent_type, new_f1, new_f3, new_lstar};
ghost use Rattle.space_alloc.specs.Units.{listed};
ghost use Rattle.vol_model.specs.Shelf.{flags_of, is_catalog, new_attr};

use crate::formatting::directory_end;
use ckd_image::{DiskType, Geometry};
use dscb_codec::{F1, F3};
use ebcdic_names::{Dsn, Serial};
use pack_spec::layout::{CYLINDER_EXTENT, DATA_EXTENT, Extent};
use space_alloc::Extents;
use vol_model::{Attr, Request, Run, SpaceUnit};

// A field without an extent.
const NO_EXTENT: Extent = [0; 10];

// The flags of a request for space.
fn flags_of(unit: SpaceUnit, contig: bool) -> u8
    ensures { result ≡ flags_of unit contig }
{
    let unit = match unit {
        SpaceUnit::Track => 0x80,
        SpaceUnit::Cylinder => 0xC0,
    };
    if contig { unit + 0x08 } else { unit }
}

// The attributes of a new data set, which isn't the catalog's.
pub(crate) fn new_attr(attr: &Attr, request: &Request) -> Attr
    ensures { (name : List ℕ) → is_catalog name ≡ false
        → result ≡ new_attr name attr.now request.now }
{
    Attr {
        scalo: flags_of(request.unit, request.contig),
        secondary: request.secondary,
        ..*attr
    }
}

// The type of the extents of a request.
pub(crate) fn extent_type(unit: SpaceUnit) -> u8
    ensures { result ≡ extent_type unit }
{
    match unit {
        SpaceUnit::Track => DATA_EXTENT,
        SpaceUnit::Cylinder => CYLINDER_EXTENT,
    }
}

// An extent as a DSCB has it.
pub(crate) fn extent_bytes(geometry: &Geometry, kind: u8, number: u8, run: Run) -> Extent
    requires some { 1 ≤ run.len }
    requires within { run.start + run.len ≤ 65535 }
    ensures { result ≡ extent_bytes geometry.now kind number run }
{
    let heads = geometry.device.heads();
    let last = run.start + run.len - 1;
    let [lower_cc_high, lower_cc_low] = (run.start / heads).to_be_bytes();
    let [lower_hh_high, lower_hh_low] = (run.start % heads).to_be_bytes();
    let [upper_cc_high, upper_cc_low] = (last / heads).to_be_bytes();
    let [upper_hh_high, upper_hh_low] = (last % heads).to_be_bytes();
    [
        kind,
        number,
        lower_cc_high,
        lower_cc_low,
        lower_hh_high,
        lower_hh_low,
        upper_cc_high,
        upper_cc_low,
        upper_hh_high,
        upper_hh_low,
    ]
}

// The field for the extent of a number, counted from 0.
fn extent_field(geometry: &Geometry, kind: u8, extents: &Extents, number: u8) -> Extent
    requires few { extents.now.n ≤ 5 }
    requires written { AreExtents (listed extents.now) }
    ensures { result ≡ extent_field geometry.now kind (listed extents.now) number }
{
    if number < extents.n {
        extent_bytes(geometry, kind, number, extents.runs[number as usize])
    } else {
        NO_EXTENT
    }
}

// The number of extents. By value: through a reference the length of the array isn't known.
pub(crate) fn extent_count(extents: Extents) -> u8
    requires few { extents.n ≤ 5 }
    ensures { result ≡ length (listed extents) }
{
    extents.n
}

// The bytes of LSTAR of a data set that has no member or block yet.
fn new_lstar(device: DiskType, dir: u32) -> [u8; 3]
    requires most { dir ≤ 2000 }
    ensures { result ≡ new_lstar device dir }
{
    if dir == 0 {
        return [0; 3];
    }
    let end = directory_end(device, dir);
    let [tt_high, tt_low] = end.tt.to_be_bytes();
    [tt_high, tt_low, end.r]
}

// The format 1 of a data set that has no member or block yet; the pointer counts where it has more than three extents.
pub(crate) fn new_f1(
    dsn: &Dsn,
    serial: &Serial,
    attr: &Attr,
    geometry: &Geometry,
    kind: u8,
    extents: &Extents,
    pointer: [u8; 5],
    dir: u32,
) -> F1
    requires most { dir ≤ 2000 }
    requires secondary { attr.now.secondary < 2 ^ 24 }
    requires few { extents.now.n ≤ 5 }
    requires written { AreExtents (listed extents.now) }
    ensures { result ≡ new_f1 dsn.now.bytes serial.now.bytes attr.now geometry.now kind
        (listed extents.now) pointer dir }
{
    F1 {
        name: dsn.bytes,
        serial: serial.bytes,
        volseq: attr.volseq,
        created: attr.created,
        expires: attr.expires,
        extents: extent_count(*extents),
        dir_used: 0,
        res61: [0; 1],
        system: attr.system,
        res75: [0; 7],
        dsorg: attr.dsorg,
        recfm: attr.recfm,
        optcd: attr.optcd,
        blksize: attr.blksize,
        lrecl: attr.lrecl,
        keylen: attr.keylen,
        rkp: attr.rkp,
        indicators: attr.indicators,
        scalo: u32::from(attr.scalo) * 0x0100_0000 + attr.secondary,
        lstar: new_lstar(geometry.device, dir),
        balance: 0,
        res103: [0; 2],
        runs: [
            extent_field(geometry, kind, extents, 0),
            extent_field(geometry, kind, extents, 1),
            extent_field(geometry, kind, extents, 2),
        ],
        pointer,
    }
}

// The format 3 of a data set.
pub(crate) fn new_f3(geometry: &Geometry, kind: u8, extents: &Extents) -> F3
    requires few { extents.now.n ≤ 5 }
    requires written { AreExtents (listed extents.now) }
    ensures { result ≡ new_f3 geometry.now kind (listed extents.now) }
{
    F3 {
        id: 0x0303_0303,
        front: [
            extent_field(geometry, kind, extents, 3),
            extent_field(geometry, kind, extents, 4),
            NO_EXTENT,
            NO_EXTENT,
        ],
        back: [NO_EXTENT; 9],
        pointer: [0; 5],
    }
}
