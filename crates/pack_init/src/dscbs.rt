//! The first two DSCBs of a new VTOC.
ghost use Rattle.std.specs.Prelude.{◌≡◌};
ghost use Rattle.ckd_image.specs.Device.{row_of};
ghost use Rattle.pack_spec.specs.New.{IsNewPack, IsSlotOf, i_of, l_of, flag_of, new_f4, new_f5, new_space, space_entry, vtoc_extent};
ghost use Rattle.dscb_codec.specs.declared.Dscb.TheVariants as formats;

use crate::layout::{address_of, tracks_of};
use ckd_image::{DiskType, Geometry};
use dscb_codec::{Dscb, F4, F5, encode};
use pack_spec::layout::{DATA_EXTENT, Extent, Slot};

// An entry of a format 5 that shows no space.
const NO_ENTRY: [u8; 5] = [0; 5];

/// Slot 0 of a VTOC of so many tracks, with a format 4.
pub fn slot_0(geometry: &Geometry, vtoc: u16) -> Slot
    requires { IsNewPack geometry.now vtoc }
    ensures { IsSlotOf (formats.F4 (new_f4 geometry.now vtoc)) result }
{
    encode(&Dscb::F4(new_f4(geometry, vtoc)))
}

/// Slot 1 of a VTOC of so many tracks, with a format 5.
pub fn slot_1(geometry: &Geometry, vtoc: u16) -> Slot
    requires { IsNewPack geometry.now vtoc }
    ensures { IsSlotOf (formats.F5 (new_f5 geometry.now vtoc)) result }
{
    encode(&Dscb::F5(new_f5(geometry, vtoc)))
}

#[tactic(auto, unfolding(pack_spec::specs::New::new_f4))]
fn new_f4(geometry: &Geometry, vtoc: u16) -> F4
    requires { IsNewPack geometry.now vtoc }
    ensures { result ≡ new_f4 geometry.now vtoc }
{
    let device = geometry.device;
    F4 {
        id: [0x04; 44],
        highest: [0; 5],
        free: vtoc * u16::from(device.dscbs_per_track()) - 2,
        next_alt: 0,
        alternates: 0,
        indicators: 0,
        extents: 1,
        res60: [0; 2],
        size: u32::from(geometry.cylinders) * 65536 + u32::from(device.heads()),
        capacity: device.track_capacity(),
        i: i_of(device),
        l: l_of(device),
        k: k_of(device),
        flag: flag_of(device),
        tolerance: device.tolerance(),
        dscbs: device.dscbs_per_track(),
        dirs: device.directory_blocks_per_track(),
        res76: [0; 29],
        vtoc: vtoc_extent(geometry, vtoc),
        res115: [0; 25],
    }
}

#[tactic(auto, unfolding(pack_spec::specs::New::new_f5))]
fn new_f5(geometry: &Geometry, vtoc: u16) -> F5
    requires { IsNewPack geometry.now vtoc }
    ensures { result ≡ new_f5 geometry.now vtoc }
{
    let entry = space_entry(geometry, vtoc);
    F5 {
        id: 0x0505_0505,
        front: [
            entry, NO_ENTRY, NO_ENTRY, NO_ENTRY, NO_ENTRY, NO_ENTRY, NO_ENTRY, NO_ENTRY,
        ],
        back: [NO_ENTRY; 18],
        pointer: [0; 5],
    }
}

// I in one byte; on a 3350 the high byte of an overhead that takes two.
fn i_of(device: DiskType) -> u8
    ensures { result ≡ i_of device }
{
    match device {
        DiskType::D2311 => 81,
        DiskType::D2314 => 146,
        DiskType::D3330 => 191,
        DiskType::D3350 => 0x01,
    }
}

// L in one byte; on a 3350 the low byte of the same overhead.
fn l_of(device: DiskType) -> u8
    ensures { result ≡ l_of device }
{
    match device {
        DiskType::D2311 => 20,
        DiskType::D2314 => 45,
        DiskType::D3330 => 191,
        DiskType::D3350 => 0x0B,
    }
}

fn k_of(device: DiskType) -> u8
    ensures { result ≡ (row_of device).key_overhead }
{
    match device {
        DiskType::D2311 => 20,
        DiskType::D2314 => 45,
        DiskType::D3330 => 56,
        DiskType::D3350 => 82,
    }
}

fn flag_of(device: DiskType) -> u8
    ensures { result ≡ flag_of device }
{
    match device {
        DiskType::D2311 => 0x01,
        DiskType::D2314 => 0x01,
        DiskType::D3330 => 0x00,
        DiskType::D3350 => 0x08,
    }
}

// The extent of a VTOC that begins at track 1.
fn vtoc_extent(geometry: &Geometry, vtoc: u16) -> Extent
    ensures { result ≡ vtoc_extent geometry.now vtoc }
{
    let lower = address_of(geometry, 1);
    let upper = address_of(geometry, vtoc);
    let [lower_cc_high, lower_cc_low] = lower.cylinder.to_be_bytes();
    let [lower_hh_high, lower_hh_low] = lower.head.to_be_bytes();
    let [upper_cc_high, upper_cc_low] = upper.cylinder.to_be_bytes();
    let [upper_hh_high, upper_hh_low] = upper.head.to_be_bytes();
    [
        DATA_EXTENT,
        0,
        lower_cc_high,
        lower_cc_low,
        lower_hh_high,
        lower_hh_low,
        upper_cc_high,
        upper_cc_low,
        upper_hh_high,
        upper_hh_low,
    ]
}

// The entry of the tracks after a VTOC of so many tracks.
fn space_entry(geometry: &Geometry, vtoc: u16) -> [u8; 5]
    requires { IsNewPack geometry.now vtoc }
    ensures { result ≡ space_entry geometry.now (new_space geometry.now vtoc) }
{
    let heads = geometry.device.heads();
    let start = vtoc + 1;
    let end = tracks_of(geometry, vtoc);
    if start == end {
        return NO_ENTRY;
    }
    let cylinders = end / heads - (start + (heads - 1)) / heads;
    let [start_high, start_low] = start.to_be_bytes();
    let [cylinders_high, cylinders_low] = cylinders.to_be_bytes();
    let tracks = (end - start - cylinders * heads) as u8;
    [start_high, start_low, cylinders_high, cylinders_low, tracks]
}
