//! A new pack, written to a new file.
ghost use Rattle.std.specs.Prelude.{◌≡◌, ℕ, List, ◌+◌, ◌-◌, ◌*◌, ◌<◌, ◌≤◌, length, IsTrue, OnOk};
ghost use Rattle.stop_model.specs.Moments.{IsDurable};
ghost use Rattle.hall_core.specs.Facts.{DeviceCall, IsAttached, name_in, size_in};
ghost use Rattle.pack_spec.specs.Label.{tracks_of};
ghost use Rattle.pack_spec.specs.New.{IsNewPack, IsNewImage};
ghost use Rattle.pack_init.specs.Init.{InitCall, MakesPack, size_of};
ghost use Rattle.pack_init.specs.Layout.{with_empties, with_front, with_tracks};
ghost use Rattle.pack_init.specs.Progress.{IsFrontWritten, IsHeaderless, Writes};

use crate::dscbs::{slot_0, slot_1};
use crate::error::InitErr;
use crate::layout::{address_of, offset_of, tracks_of};
use crate::tracks::{empty_track, vtoc_tracks};
use ckd_image::{Geometry, HEADER_LEN, Header};
use ebcdic_names::Serial;
use hall_core::{Device, Hall};
use pack_spec::label_track;
use std::alloc::Global;

/// Makes a new pack as a file that isn't there, and attaches it as the next unit.
///
/// The VTOC has `vtoc` tracks, from track 1 of the pack on. Its format 4 and format 5 come first, and show
/// all tracks after it as free; all other slots are free, and all other tracks empty. The layout follows
/// System Control Blocks, GC28-6628.
///
/// All tracks but track 0 are written and made durable, and then the header and track 0. A stop leaves no
/// file, one that is refused for its header or its label, or the whole new pack. `Exists` comes where a
/// file has the name, which stays as it is. After `Memory` nothing was made.
pub fn init<H: Hall>(
    alloc: Global,
    hall: &mut H,
    name: &str,
    geometry: &Geometry,
    serial: &Serial,
    vtoc: u16,
) -> Result<(), InitErr>
    requires few { length (H.facts hall.old).units < 255 }
    requires once { ¬ IsAttached (H.facts hall.old).units name.now }
    requires shape { IsNewPack geometry.now vtoc }
    ensures files { IsTrue H.tells → MakesPack geometry.now serial.now.bytes vtoc name.now
        (H.meaning hall.old) (H.meaning hall.new) result }
    ensures faults { InitCall name.now (size_of geometry.now)
        (H.facts hall.old) (H.facts hall.new) result }
{
    let slots = vtoc_tracks(
        alloc,
        geometry,
        vtoc,
        &slot_0(geometry, vtoc),
        &slot_1(geometry, vtoc),
    )?;
    let label = label_track(
        alloc,
        serial,
        address_of(geometry, 1),
        geometry.track_size as usize,
    )?;
    let unit = hall.create(name, offset_of(geometry, tracks_of(geometry, vtoc)))?;
    write_tracks(hall, unit, geometry, vtoc, &slots)?;
    write_front(hall, unit, &Header::write(geometry), &label)?;
    Ok(())
}

// Writes all tracks but track 0, and makes them durable.
fn write_tracks<H: Hall>(
    hall: &mut H,
    unit: u8,
    geometry: &Geometry,
    vtoc: u16,
    slots: &[u8],
) -> Result<(), Device>
    requires shape { IsNewPack geometry.now vtoc }
    requires slots { length slots.now ≡ vtoc * geometry.now.track_size }
    requires attached { unit < length (H.facts hall.old).units }
    requires size { size_in (H.facts hall.old) unit ≡ size_of geometry.now }
    ensures files { IsTrue H.tells → Writes (name_in (H.facts hall.old) unit)
        (IsHeaderless (size_of geometry.now)) (with_tracks geometry.now vtoc slots.now)
        (H.meaning hall.old) (H.meaning hall.new) result }
    ensures durable { IsTrue H.tells → OnOk result (IsDurable (H.meaning hall.new)) }
    ensures faults { DeviceCall (H.facts hall.old) (H.facts hall.new) result }
{
    hall.write(unit, offset_of(geometry, 1), slots)?;
    write_empty_tracks(hall, unit, geometry, vtoc)?;
    hall.sync()?;
    Ok(())
}

// Writes the tracks after the VTOC, which have no records.
fn write_empty_tracks<H: Hall>(
    hall: &mut H,
    unit: u8,
    geometry: &Geometry,
    vtoc: u16,
) -> Result<(), Device>
    requires shape { IsNewPack geometry.now vtoc }
    requires attached { unit < length (H.facts hall.old).units }
    requires size { size_in (H.facts hall.old) unit ≡ size_of geometry.now }
    ensures files { IsTrue H.tells → Writes (name_in (H.facts hall.old) unit)
        (IsHeaderless (size_of geometry.now))
        (with_empties geometry.now (vtoc + 1) (tracks_of geometry.now - (vtoc + 1)))
        (H.meaning hall.old) (H.meaning hall.new) result }
    ensures faults { DeviceCall (H.facts hall.old) (H.facts hall.new) result }
{
    for track in vtoc + 1..tracks_of(geometry, vtoc) {
        hall.write(
            unit,
            offset_of(geometry, track),
            &empty_track(geometry, track),
        )?;
    }
    Ok(())
}

// Writes the header and track 0, and makes them durable.
fn write_front<H: Hall>(
    hall: &mut H,
    unit: u8,
    header: &[u8; HEADER_LEN],
    label: &[u8],
) -> Result<(), Device>
    requires attached { unit < length (H.facts hall.old).units }
    requires size { 512 + length label.now ≤ size_in (H.facts hall.old) unit }
    ensures files { (rest : List ℕ) → IsTrue H.tells
        → Writes (name_in (H.facts hall.old) unit) (IsFrontWritten header.now label.now rest)
        (with_front header.now label.now) (H.meaning hall.old) (H.meaning hall.new) result }
    ensures durable { IsTrue H.tells → OnOk result (IsDurable (H.meaning hall.new)) }
    ensures faults { DeviceCall (H.facts hall.old) (H.facts hall.new) result }
{
    hall.write(unit, 0, header)?;
    hall.write(unit, HEADER_LEN as u64, label)?;
    hall.sync()?;
    Ok(())
}
