//! The index of a VTOC, read with one read a track.
ghost use Rattle.std.specs.Prelude.{◌≡◌, ◌≢◌, ℕ, ◌≤◌, ◌<◌, ◌+◌, ◌⊎◌, length, IsTrue, IfOk, IfErr, OnOk, OnErr, IsErrOf, Some, None, Ok, Err};
ghost use Rattle.ckd_image.specs.Header.{HasGeometry};
ghost use Rattle.hall_core.specs.Facts.{unit_of};
ghost use Rattle.hall_core.specs.Images.{image_in};
ghost use Rattle.stop_model.specs.Moments.{Same};
ghost use Rattle.pack_spec.specs.Label.{is_inside, records_on, track_of_address, tracks_of};
ghost use Rattle.pack_spec.specs.Volume.{volume_within};
ghost use Rattle.pack_spec.specs.Slots.{slots_on};
ghost use Rattle.pack_spec.specs.Vtoc.{vtoc_on};
ghost use Rattle.track_records.specs.Calls.{HasTrack};
ghost use Rattle.track_records.specs.Written.{StandsOn};
ghost use Rattle.vtoc_index.specs.Calls.{MountCall};
ghost use Rattle.vtoc_index.specs.Index.{IsMounted, IsOfUnit, IsReason};
ghost use Rattle.vtoc_index.specs.Names.{AreByName, name_at};
ghost use Rattle.vtoc_index.specs.Reading.{AreNumbered, AreTracksRead, IsExtent, Refuses};

use crate::header::read_geometry;
use crate::label::read_label;
use crate::rules::judge;
use crate::tracks::ReadSlots;
use crate::vol::Vol;
use crate::vtoc_extent::extent_held;
use ckd_image::Geometry;
use hall_core::Hall;
use pack_spec::{Address, MountErr};
use std::alloc::Global;
use track_records::{TrackBuf, TrackErr, read_records};
use vol_model::Run;

// The record of the first slot of a track.
const FIRST_SLOT: u8 = 1;

/// Reads the index of the volume on a unit.
///
/// It is answered where the pack mounts, else the first rule of mounting that is broken: by the header,
/// the label, the extent of the VTOC, its tracks in order, the formats of slots 0 and 1, then each slot
/// by itself, the lowest first, then the names, the tracks that are owned twice, and the slots that are
/// needed. `NoFile` never comes: a missing file is found where it is attached. `Memory` and `Device` say nothing of the pack, and `Device` comes only where the count of device
/// faults rose.
///
/// On a pack that mounts, the header, the label's track and each track of the VTOC, which are counted
/// from 0 over the volume, are read once, in this order; one that breaks a rule is read up to that.
/// Where the first track of the VTOC breaks the grammar, it is read again for its first slot. All
/// memory of the index is taken here.
///
/// Label and DSCBs follow System Control Blocks, GC28-6628; the rules and their order are this project's
/// profile.
#[tactic(auto, using(stop_model::proofs::MomentLemmas::same_then))]
pub fn read_vtoc<H: Hall>(alloc: Global, hall: &mut H, unit: u8) -> Result<Vol, MountErr>
    requires { unit < length (H.facts hall.old).units }
    ensures mounted { let image = image_in (H.meaning hall.old) (H.facts hall.old) unit in
        IsTrue H.tells → IfOk result (IsMounted image) }
    ensures refused { let image = image_in (H.meaning hall.old) (H.facts hall.old) unit in
        IsTrue H.tells → IfErr result (IsReason image) }
    ensures unit { IfOk result (λ vol. (vol.unit ≡ unit) × IsOfUnit (H.facts hall.old).units vol) }
    ensures names { IfOk result (λ vol. AreByName (name_at vol.slots.items) vol.by_name.items) }
    ensures files { IsTrue H.tells → Same (H.meaning hall.old) (H.meaning hall.new) }
    ensures faults { MountCall (H.facts hall.old) (H.facts hall.new) result }
    ensures file { IsErrOf result MountErr.NoFile → ⊥ }
{
    let geometry = read_geometry(hall, unit)?;
    let mut buf = TrackBuf::new(alloc, &geometry)?;
    let label = read_label(hall, unit, &mut buf)?;
    if !label.vtoc.is_inside(geometry) {
        return Err(MountErr::BadVtoc);
    }
    let (vtoc, found) = read_slots(alloc, hall, unit, geometry, label.vtoc, &mut buf)?;
    let judged = judge(alloc, geometry, vtoc, &found.slots)?;
    Ok(Vol {
        unit,
        serial: label.serial,
        geometry,
        vtoc,
        slots: judged.dscbs,
        firsts: found.firsts,
        free: judged.free,
        by_name: judged.by_name,
        buf,
    })
}

// Reads the tracks of the VTOC that begins at an address of the pack: its extent, and its slots.
#[tactic(auto, using(stop_model::proofs::MomentLemmas::same_then))]
fn read_slots<H: Hall>(
    alloc: Global,
    hall: &mut H,
    unit: u8,
    geometry: Geometry,
    at: Address,
    buf: &mut TrackBuf,
) -> Result<(Run, ReadSlots), MountErr>
    requires attached { unit < length (H.facts hall.old).units }
    requires whole { HasGeometry (unit_of (H.facts hall.old).units unit).size geometry }
    requires buffer { buf.old.geometry ≡ geometry }
    requires inside { IsTrue (is_inside geometry at) }
    ensures extent { let image = image_in (H.meaning hall.old) (H.facts hall.old) unit in
        IsTrue H.tells → IfOk result (λ p. vtoc_on image geometry at ≡ Ok p.0) }
    ensures read { let image = image_in (H.meaning hall.old) (H.facts hall.old) unit in
        IsTrue H.tells → IfOk result (λ p. AreTracksRead image geometry p.0.start p.0.len p.1) }
    ensures stands { let image = image_in (H.meaning hall.old) (H.facts hall.old) unit in
        IsTrue H.tells → OnOk result (StandsOn image buf.new) }
    ensures refused { let image = image_in (H.meaning hall.old) (H.facts hall.old) unit in
        IsTrue H.tells → IfErr result (Refuses
        (volume_within image geometry (vtoc_on image geometry at))) }
    ensures numbers { IfOk result (λ p. IsExtent geometry at p.0 × AreNumbered p.0.len p.1) }
    ensures buffer { OnOk result ((buf.new.geometry ≡ geometry) × (buf.new.unit ≡ unit)) }
    ensures files { IsTrue H.tells → Same (H.meaning hall.old) (H.meaning hall.new) }
    ensures faults { MountCall (H.facts hall.old) (H.facts hall.new) result }
    ensures file { IsErrOf result MountErr.NoFile → ⊥ }
{
    let (vtoc, count) = read_first(hall, unit, geometry, at, buf)?;
    let mut found = ReadSlots::new(alloc);
    found.add(geometry, vtoc.start, buf, count)?;
    read_others(hall, unit, geometry, vtoc, buf, &mut found)?;
    Ok((vtoc, found))
}

// Reads the first track of the VTOC: the VTOC's extent, and how many records the buffer then holds.
fn read_first<H: Hall>(
    hall: &mut H,
    unit: u8,
    geometry: Geometry,
    at: Address,
    buf: &mut TrackBuf,
) -> Result<(Run, u8), MountErr>
    requires attached { unit < length (H.facts hall.old).units }
    requires whole { HasGeometry (unit_of (H.facts hall.old).units unit).size geometry }
    requires buffer { buf.old.geometry ≡ geometry }
    requires inside { IsTrue (is_inside geometry at) }
    ensures extent { let image = image_in (H.meaning hall.old) (H.facts hall.old) unit in
        IsTrue H.tells → IfOk result (λ p. vtoc_on image geometry at ≡ Ok p.0) }
    ensures read { let image = image_in (H.meaning hall.old) (H.facts hall.old) unit in
        IsTrue H.tells → IfOk result (λ p. records_on image geometry None p.0.start
        ≡ Some buf.new.records) }
    ensures refused { let image = image_in (H.meaning hall.old) (H.facts hall.old) unit in
        IsTrue H.tells → IfErr result (Refuses
        (volume_within image geometry (vtoc_on image geometry at))) }
    ensures numbers { IfOk result (λ p. IsExtent geometry at p.0 × (length buf.new.records ≡ p.1)) }
    ensures buffer { IfOk result (λ p. (buf.new.geometry ≡ geometry)
        × ((buf.new.unit ≡ unit) × (buf.new.track ≡ p.0.start))) }
    ensures files { IsTrue H.tells → Same (H.meaning hall.old) (H.meaning hall.new) }
    ensures faults { MountCall (H.facts hall.old) (H.facts hall.new) result }
    ensures file { IsErrOf result MountErr.NoFile → ⊥ }
{
    match read_records(hall, unit, at.track(geometry), None, buf) {
        Ok(count) => match extent_held(buf, geometry, at) {
            Ok(vtoc) => Ok((vtoc, count)),
            Err(fault) => Err(fault),
        },
        Err(TrackErr::BadCount { .. }) => Err(why_broken(hall, unit, geometry, at, buf)),
        Err(TrackErr::Device) => Err(MountErr::Device),
    }
}

// Why a VTOC isn't read whose first track breaks the grammar: its extent is judged before what stands
// after its first slot.
#[tactic(auto, using(stop_model::proofs::MomentLemmas::same_then))]
fn why_broken<H: Hall>(
    hall: &mut H,
    unit: u8,
    geometry: Geometry,
    at: Address,
    buf: &mut TrackBuf,
) -> MountErr
    requires attached { unit < length (H.facts hall.old).units }
    requires whole { HasGeometry (unit_of (H.facts hall.old).units unit).size geometry }
    requires buffer { buf.old.geometry ≡ geometry }
    requires inside { IsTrue (is_inside geometry at) }
    ensures refused { let image = image_in (H.meaning hall.old) (H.facts hall.old) unit in
        IsTrue H.tells → records_on image geometry None (track_of_address geometry at) ≡ None
        → Refuses (volume_within image geometry (vtoc_on image geometry at)) result }
    ensures files { IsTrue H.tells → Same (H.meaning hall.old) (H.meaning hall.new) }
    ensures faults { MountCall {T = Unit {0}} (H.facts hall.old) (H.facts hall.new) (Err result) }
    ensures file { result ≢ MountErr.NoFile }
{
    let track = at.track(geometry);
    match read_records(hall, unit, track, Some(FIRST_SLOT), buf) {
        Ok(_) => match extent_held(buf, geometry, at) {
            Ok(_) => MountErr::VtocTrack { track },
            Err(fault) => fault,
        },
        Err(TrackErr::BadCount { .. }) => MountErr::VtocTrack { track },
        Err(TrackErr::Device) => MountErr::Device,
    }
}

// Reads the tracks of the VTOC after its first, and adds their slots.
fn read_others<H: Hall>(
    hall: &mut H,
    unit: u8,
    geometry: Geometry,
    vtoc: Run,
    buf: &mut TrackBuf,
    found: &mut ReadSlots,
) -> Result<(), MountErr>
    requires attached { unit < length (H.facts hall.old).units }
    requires whole { HasGeometry (unit_of (H.facts hall.old).units unit).size geometry }
    requires buffer { (buf.old.geometry ≡ geometry) × (buf.old.unit ≡ unit) }
    requires inside { vtoc.start + vtoc.len ≤ tracks_of geometry }
    requires tracks { (1 ≤ vtoc.len) × (vtoc.len ≤ 257) }
    requires numbers { AreNumbered 1 found.old }
    ensures read { let image = image_in (H.meaning hall.old) (H.facts hall.old) unit in
        IsTrue H.tells → AreTracksRead image geometry vtoc.start 1 found.old
        → OnOk result (AreTracksRead image geometry vtoc.start vtoc.len found.new) }
    ensures refused { let image = image_in (H.meaning hall.old) (H.facts hall.old) unit in
        IsTrue H.tells → AreTracksRead image geometry vtoc.start 1 found.old
        → IfErr result (Refuses (volume_within image geometry (Ok vtoc))) }
    ensures stands { let image = image_in (H.meaning hall.old) (H.facts hall.old) unit in
        IsTrue H.tells → StandsOn image buf.old → OnOk result (StandsOn image buf.new) }
    ensures numbers { OnOk result (AreNumbered vtoc.len found.new) }
    ensures buffer { (buf.new.geometry ≡ geometry) × (buf.new.unit ≡ unit) }
    ensures files { IsTrue H.tells → Same (H.meaning hall.old) (H.meaning hall.new) }
    ensures faults { MountCall (H.facts hall.old) (H.facts hall.new) result }
    ensures file { IsErrOf result MountErr.NoFile → ⊥ }
{
    for track in vtoc.start + 1..vtoc.start + vtoc.len {
        let count = read_track(hall, unit, track, buf)?;
        found.add(geometry, track, buf, count)?;
    }
    Ok(())
}

// Reads the records of a track of the VTOC into the buffer, and gives their number.
fn read_track<H: Hall>(
    hall: &mut H,
    unit: u8,
    track: u16,
    buf: &mut TrackBuf,
) -> Result<u8, MountErr>
    requires { HasTrack (H.facts hall.old).units unit buf.old.geometry track }
    ensures count { IfOk result (λ n. length buf.new.records ≡ n) }
    ensures buffer { buf.new ≡ record buf.old
        { unit = unit; track = track; records = buf.new.records } }
    ensures read { let image = image_in (H.meaning hall.old) (H.facts hall.old) unit in
        IsTrue H.tells → OnOk result (records_on image buf.old.geometry None track
        ≡ Some buf.new.records) }
    ensures refused { let image = image_in (H.meaning hall.old) (H.facts hall.old) unit in
        IsTrue H.tells → IfErr result (λ e. (e ≡ MountErr.Device)
        ⊎ ((e ≡ MountErr.VtocTrack track) × (slots_on image buf.old.geometry track ≡ None))) }
    ensures files { IsTrue H.tells → Same (H.meaning hall.old) (H.meaning hall.new) }
    ensures faults { MountCall (H.facts hall.old) (H.facts hall.new) result }
    ensures file { IsErrOf result MountErr.NoFile → ⊥ }
{
    match read_records(hall, unit, track, None, buf) {
        Ok(count) => Ok(count),
        Err(TrackErr::BadCount { .. }) => Err(MountErr::VtocTrack { track }),
        Err(TrackErr::Device) => Err(MountErr::Device),
    }
}
