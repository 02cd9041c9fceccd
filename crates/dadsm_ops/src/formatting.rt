//! The directory of a new partitioned data set, written before its format 1 decides the operation.
ghost use Rattle.std.specs.Prelude.{◌≡◌, ◌≤◌, ◌<◌, ◌-◌, ◌+◌, ◌∷◌, ◌*◌, ◌^◌, ◌++◌, [], false, ℕ, List, length, map, slice_get, IsTrue, OnOk, Ok, Some};
ghost use Rattle.hall_core.specs.Facts.{DeviceCall, name_in, unit_of};
ghost use Rattle.hall_core.specs.Images.{image_in};
ghost use Rattle.stop_model.specs.Moments.{IsDurable};
ghost use Rattle.pack_spec.specs.Label.{tracks_of};
ghost use Rattle.pack_spec.specs.Settled.{IsMarked};
ghost use Rattle.pack_spec.specs.Slots.{slots_of_vtoc};
ghost use Rattle.pack_spec.specs.Volume.{volume_of};
ghost use Rattle.space_alloc.specs.Units.{listed};
ghost use Rattle.vtoc_index.specs.Index.{IsMounted, IsOfUnit};
ghost use Rattle.vol_model.specs.declared.contents.Volume.{Volume};
ghost use Rattle.std.specs.List.{range_with_len};
ghost use Rattle.ckd_image.specs.Device.{row_of};
ghost use Rattle.pack_spec.specs.Blocks.{owned_tracks};
ghost use Rattle.pack_spec.specs.Directories.{new_block, new_numbers, new_records};
ghost use Rattle.track_records.specs.Appends.{end_of};
ghost use Rattle.track_records.specs.Calls.{HasTrack};
ghost use Rattle.vol_model.specs.declared.contents.Run.{Run};
ghost use Rattle.vol_model.specs.Places.{directory_end, directory_place};
ghost use Rattle.vol_model.specs.Shelf.{is_catalog, lacks_room};
ghost use Rattle.dadsm_ops.specs.Operations.{image_named};
ghost use Rattle.dadsm_ops.specs.Formatting.{AreAll, AreSpare, Formats, FormatsSet, WritesOn, contents_of};

use ckd_image::{DiskType, fits};
use free_rebuild::make_durable;
use hall_core::{Device, Hall};
use space_alloc::Extents;
use track_records::{TrackBuf, append};
use vol_model::{Place, Run};
use vtoc_index::Vol;

// As many directory blocks as the device takes on a track that takes most of them, by the lengths of their keys and data.
const FULL_TRACK: [(u8, u16); 36] = [(8, 256); 36];

// The place of the last block of a new directory of so many.
fn last_block(device: DiskType, dir: u32) -> Place
    requires some { 1 ≤ dir }
    requires most { dir ≤ 2000 }
    ensures place { result ≡ directory_place device (dir - 1) }
    ensures low { result.tt < 2000 }
    ensures few { result.r ≤ 36 }
{
    let per_track = u32::from(device.directory_blocks_per_track());
    Place {
        tt: ((dir - 1) / per_track) as u16,
        r: ((dir - 1) % per_track + 1) as u8,
    }
}

// The place of the end-of-file record after a new directory of so many blocks.
pub(crate) fn directory_end(device: DiskType, dir: u32) -> Place
    requires some { 1 ≤ dir }
    requires most { dir ≤ 2000 }
    ensures place { result ≡ directory_end device dir }
    ensures low { result.tt ≤ 2000 }
    ensures some { 1 ≤ result.r }
    ensures few { result.r ≤ 37 }
{
    let last = last_block(device, dir);
    if fits(device, &FULL_TRACK[..usize::from(last.r)], 0, 0) {
        Place {
            tt: last.tt,
            r: last.r + 1,
        }
    } else {
        Place {
            tt: last.tt + 1,
            r: 1,
        }
    }
}

// Whether a directory of so many blocks, with its end-of-file record, doesn't fit so many tracks; a set without one
// needs no track for it.
pub(crate) fn lacks_room(device: DiskType, dir: u32, tracks: u32) -> bool
    requires most { dir ≤ 2000 }
    ensures { (name : List ℕ) → is_catalog name ≡ false
        → result ≡ lacks_room device name dir tracks }
{
    dir > 0 && tracks <= u32::from(directory_end(device, dir).tt)
}

// Writes a record after the last one of a buffer, which has all records of its track.
fn put_record<H: Hall>(
    hall: &mut H,
    buf: &mut TrackBuf,
    key: &[u8],
    payload: &[u8],
) -> Result<(), Device>
    requires track { HasTrack (H.facts hall.old).units buf.old.unit buf.old.geometry buf.old.track }
    requires few { length buf.old.records < 255 }
    requires key_fits { length key.now < 256 }
    requires data_fits { length payload.now < 65536 }
    requires room { end_of buf.old + (8 + length key.now + length payload.now) + 8
        ≤ buf.old.geometry.track_size }
    requires all { let image = image_named (H.meaning hall.old).state
        (name_in (H.facts hall.old) buf.old.unit) in
        IsTrue H.tells → AreAll image buf.old.geometry buf.old.track buf.old.records }
    ensures files { IsTrue H.tells → WritesOn (name_in (H.facts hall.old) buf.old.unit)
        buf.old.geometry buf.old.track buf.new.records (H.meaning hall.old) (H.meaning hall.new)
        result }
    ensures buffer { buf.new ≡ record buf.old { records = buf.new.records } }
    ensures contents { contents_of buf.new.records
        ≡ contents_of buf.old.records ++ (key.now, payload.now) ∷ [] }
    ensures faults { DeviceCall (H.facts hall.old) (H.facts hall.new) result }
{
    append(hall, buf, key, payload)?;
    Ok(())
}

// The key of a block of a new directory, by its number from 0: the first holds the end entry, and the others nothing.
fn block_key(number: u32) -> [u8; 8]
    ensures { result ≡ (new_block number).0 }
{
    if number == 0 { [0xFF; 8] } else { [0; 8] }
}

// Its data: of the first 14 bytes are used, with the two that count them and the end entry.
fn block_data(number: u32) -> [u8; 256]
    ensures { result ≡ (new_block number).1 }
{
    let mut bytes = [0; 256];
    if number == 0 {
        bytes[1] = 14;
        bytes[2..10].copy_from_slice(&[0xFF; 8]);
    }
    bytes
}

// Writes so many blocks of a new directory, the first of this number, onto the track of a buffer without records.
fn put_blocks<H: Hall>(
    hall: &mut H,
    buf: &mut TrackBuf,
    first: u32,
    count: u8,
) -> Result<(), Device>
    requires track { HasTrack (H.facts hall.old).units buf.old.unit buf.old.geometry buf.old.track }
    requires empty { buf.old.records ≡ [] }
    requires room { 21 + 272 * count + 8 ≤ buf.old.geometry.track_size }
    requires most { first + count < 2 ^ 32 }
    ensures files { IsTrue H.tells → WritesOn (name_in (H.facts hall.old) buf.old.unit)
        buf.old.geometry buf.old.track buf.new.records (H.meaning hall.old) (H.meaning hall.new)
        result }
    ensures buffer { buf.new ≡ record buf.old { records = buf.new.records } }
    ensures contents { OnOk result (contents_of buf.new.records
        ≡ map new_block (range_with_len first count)) }
    ensures faults { DeviceCall (H.facts hall.old) (H.facts hall.new) result }
{
    for i in 0..count {
        let number = first + u32::from(i);
        put_record(hall, buf, &block_key(number), &block_data(number))?;
    }
    Ok(())
}

// The blocks of a new directory of so many that stand on a relative track: the number of the first, and how many there are.
fn blocks_on(device: DiskType, dir: u32, k: u16) -> (u32, u8)
    ensures numbers { new_numbers device dir k ≡ range_with_len result.0 result.1 }
    ensures few { result.1 ≤ (row_of device).directory_blocks_per_track }
    ensures low { result.0 ≤ 65535 * 255 }
{
    let per_track = u32::from(device.directory_blocks_per_track());
    let first = u32::from(k) * per_track;
    let count = per_track.min(dir.saturating_sub(first));
    (first, count as u8)
}

// Writes the records of a new directory of so many blocks that stand on its relative track k: onto this track of a unit,
// which begins anew.
fn format_track<H: Hall>(
    hall: &mut H,
    buf: &mut TrackBuf,
    device: DiskType,
    unit: u8,
    track: u16,
    dir: u32,
    k: u16,
) -> Result<(), Device>
    requires track { HasTrack (H.facts hall.old).units unit buf.old.geometry track }
    requires device { device ≡ buf.old.geometry.device }
    requires some { 1 ≤ dir }
    requires most { dir ≤ 2000 }
    ensures files { IsTrue H.tells → WritesOn (name_in (H.facts hall.old) unit) buf.old.geometry
        track buf.new.records (H.meaning hall.old) (H.meaning hall.new) result }
    ensures buffer { buf.new ≡ record buf.old
        { unit = unit; track = track; records = buf.new.records } }
    ensures contents { OnOk result (contents_of buf.new.records ≡ new_records device dir k) }
    ensures faults { DeviceCall (H.facts hall.old) (H.facts hall.new) result }
{
    buf.clear(unit, track);
    let (first, count) = blocks_on(device, dir, k);
    put_blocks(hall, buf, first, count)?;
    if directory_end(device, dir).tt == k {
        put_record(hall, buf, &[], &[])?;
    }
    Ok(())
}

// The track of the volume that is the k-th of these runs, from 0.
fn track_at(runs: &[Run], k: u16) -> u16
    requires within { (j : ℕ) (r : Run) → slice_get runs.now j ≡ Some r
        → r.start + r.len ≤ 65535 }
    requires there { k < length (owned_tracks runs.now) }
    ensures { slice_get (owned_tracks runs.now) k ≡ Some result }
{
    let mut left = k;
    for run in runs {
        if left < run.len {
            return run.start + left;
        }
        left -= run.len;
    }
    unreachable!()
}

// Writes a new directory of so many blocks onto the tracks of runs, the first of them track 0 of the set. The buffer holds
// no record then.
fn format_tracks<H: Hall>(
    hall: &mut H,
    buf: &mut TrackBuf,
    device: DiskType,
    unit: u8,
    runs: &[Run],
    dir: u32,
) -> Result<(), Device>
    requires device { device ≡ buf.old.geometry.device }
    requires unit { buf.old.unit ≡ unit }
    requires some { 1 ≤ dir }
    requires most { dir ≤ 2000 }
    requires within { (j : ℕ) (r : Run) → slice_get runs.now j ≡ Some r
        → r.start + r.len ≤ 65535 }
    requires room { (directory_end device dir).tt < length (owned_tracks runs.now) }
    requires tracks { (k t : ℕ) → slice_get (owned_tracks runs.now) k ≡ Some t
        → HasTrack (H.facts hall.old).units unit buf.old.geometry t }
    requires apart { (j k t : ℕ) → slice_get (owned_tracks runs.now) j ≡ Some t
        → slice_get (owned_tracks runs.now) k ≡ Some t → j ≡ k }
    ensures files { IsTrue H.tells → Formats (name_in (H.facts hall.old) unit) buf.old.geometry
        runs.now dir ((directory_end device dir).tt + 1) (H.meaning hall.old) (H.meaning hall.new)
        result }
    ensures buffer { buf.new ≡ record buf.old { track = buf.new.track; records = buf.new.records } }
    ensures empty { OnOk result (buf.new.records ≡ []) }
    ensures faults { DeviceCall (H.facts hall.old) (H.facts hall.new) result }
{
    let end = directory_end(device, dir);
    for k in 0..end.tt + 1 {
        let track = track_at(runs, k);
        format_track(hall, buf, device, unit, track, dir, k)?;
    }
    buf.clear(unit, 0);
    Ok(())
}

// Writes a new directory of so many blocks onto these extents, which nothing owns, and makes it durable. Each record is
// one write, and each track begins anew. A stop leaves any of that, on an image that stands for the same volume.
pub(crate) fn format_directory<H: Hall>(
    hall: &mut H,
    vol: &mut Vol,
    extents: &Extents,
    dir: u32,
) -> Result<(), Device>
    requires unit { IsOfUnit (H.facts hall.old).units vol.old }
    requires some { 1 ≤ dir }
    requires most { dir ≤ 2000 }
    requires few { extents.now.n ≤ 5 }
    requires within { (j : ℕ) (r : Run) → slice_get (listed extents.now) j ≡ Some r
        → r.start + r.len ≤ 65535 }
    requires room { (directory_end vol.old.geometry.device dir).tt
        < length (owned_tracks (listed extents.now)) }
    requires inside { (k t : ℕ) → slice_get (owned_tracks (listed extents.now)) k ≡ Some t
        → t < tracks_of vol.old.geometry }
    requires apart { (j k t : ℕ) → slice_get (owned_tracks (listed extents.now)) j ≡ Some t
        → slice_get (owned_tracks (listed extents.now)) k ≡ Some t → j ≡ k }
    requires spare { let image = image_in (H.meaning hall.old) (H.facts hall.old) vol.old.unit in
        (volume : Volume) → volume_of image ≡ Ok volume
        → IsTrue H.tells → AreSpare volume (listed extents.now) }
    requires mounted { let image = image_in (H.meaning hall.old) (H.facts hall.old) vol.old.unit in
        IsTrue H.tells → IsMounted image vol.old }
    requires marked { let image = image_in (H.meaning hall.old) (H.facts hall.old) vol.old.unit in
        IsTrue H.tells → IsMarked (slots_of_vtoc image vol.old.geometry vol.old.vtoc) }
    requires durable { IsTrue H.tells → IsDurable (H.meaning hall.old) }
    ensures files { IsTrue H.tells → FormatsSet (unit_of (H.facts hall.old).units vol.old.unit).name
        (listed extents.now) dir vol.new (H.meaning hall.old) (H.meaning hall.new) result }
    ensures others { vol.new ≡ record vol.old { buf = vol.new.buf } }
    ensures unit { IsOfUnit (H.facts hall.new).units vol.new }
    ensures faults { DeviceCall (H.facts hall.old) (H.facts hall.new) result }
{
    format_tracks(
        hall,
        &mut vol.buf,
        vol.geometry.device,
        vol.unit,
        &extents.runs[..usize::from(extents.n)],
        dir,
    )?;
    make_durable(hall)
}
