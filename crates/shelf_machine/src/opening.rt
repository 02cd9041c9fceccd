//! The packs of several units, scanned, compared and repaired.
ghost use Rattle.std.specs.Prelude.{◌≡◌, ◌≢◌, ◌<◌, ◌≤◌, ℕ, ◌++◌, ◌∷◌, [], length, position, Contains, Some, None, Ok, Err, IsTrue, IfOk, IfErr, IfNone, IfSome, OnOk, slice_get, vec_capacity};
ghost use Rattle.std.specs.Str.{bytes_eq};
ghost use Rattle.hall_core.specs.Facts.{unit_of};
ghost use Rattle.hall_core.specs.Images.{image_in};
ghost use Rattle.stop_model.specs.Moments.{IsDurable, Same};
ghost use Rattle.mount_repair.specs.Repairs.{RepairsPack};
ghost use Rattle.mount_repair.specs.Scans.{IsScanOf, IsScanOn};
ghost use Rattle.pack_spec.specs.Volume.{volume_of};
ghost use Rattle.pack_machine.specs.Checking.{unread_in};
ghost use Rattle.shelf_machine.specs.Known.{AreHeld, KeepsLists, KnowsBodies};
ghost use Rattle.pack_machine.specs.Known.{IsFresh};
ghost use Rattle.shelf_machine.specs.Machine.{AreIndexes, AreInOrder, serials_of, shelf_under, units_of};
ghost use Rattle.shelf_machine.specs.Opening.{AreApart, AreUnits, LeavesSafe, names_of};
ghost use Rattle.shelf_machine.specs.ReadyPacks.{caches_of, vols_of};
ghost use Rattle.shelf_machine.specs.Packs.{AreKnown, AreOfSamePacks, AreOpened, AreScanned, AreScansOf, RefusesImages, RepairsAll, StopCall, StopsAtTwice, indexes_of};

use crate::open_failure::OpenFailure;
use ebcdic_names::Serial;
use hall_core::Hall;
use mount_repair::{Scan, repair, scan};
use pack_machine::{Pack, PackCache, unread_of};
use seq_access::ReadBuf;
use std::alloc::{AllocError, Global};
use vtoc_index::MountErr;

// The packs on units: all are scanned, then their serials compared, then each that isn't settled is repaired. What was read
// of their libraries is held. All memory is taken before the first write. After an error nothing was written, unless the
// device failed.
pub(crate) fn open_packs<H: Hall>(
    alloc: Global,
    hall: &mut H,
    units: &[u8],
) -> Result<Vec<Pack>, OpenFailure>
    requires units { AreUnits (H.facts hall.old).units units.now }
    requires durable { IsTrue H.tells → IsDurable (H.meaning hall.old) }
    ensures opened { IfOk result (λ packs. AreOpened (H.facts hall.old).units units.now
        (vols_of packs.items)) }
    ensures files { IsTrue H.tells → IfOk result (λ packs. RepairsAll
        (names_of (H.facts hall.old).units units.now) (H.facts hall.old).units (vols_of packs.items)
        (H.meaning hall.old) (H.meaning hall.new) result) }
    ensures known { IsTrue H.tells → IfOk result (λ packs. KnowsBodies (shelf_under
        (names_of (H.facts hall.new).units (units_of (vols_of packs.items))) (H.meaning hall.new).state)
        (caches_of packs.items)) }
    ensures held { IsTrue H.tells → IfOk result (λ packs. AreHeld (H.meaning hall.new).state
        (H.facts hall.new).units (vols_of packs.items) (caches_of packs.items)) }
    ensures refused { IsTrue H.tells → IfErr result (RefusesImages
        (names_of (H.facts hall.old).units units.now) (H.meaning hall.old).state) }
    ensures same { IsTrue H.tells → IfErr result (λ s. s.why ≢ MountErr.Device
        → Same (H.meaning hall.old) (H.meaning hall.new)) }
    ensures unit { IfErr result (λ s. s.unit < length units.now) }
    ensures stops { IsTrue H.tells → LeavesSafe (names_of (H.facts hall.old).units units.now)
        (H.meaning hall.old) (H.meaning hall.new) }
    ensures faults { StopCall (H.facts hall.old) (H.facts hall.new) result }
{
    let scans = scan_all(alloc, hall, units)?;
    if let Some(stopped) = same_serial(&scans) {
        return Err(stopped);
    }
    let known = know_all(alloc, &scans)?;
    let mut packs = room_for(alloc, &scans)?;
    repair_all(hall, scans, known, &mut packs)?;
    Ok(packs)
}

// The scans of the packs on units, in order.
fn scan_all<H: Hall>(alloc: Global, hall: &mut H, units: &[u8]) -> Result<Vec<Scan>, OpenFailure>
    requires units { AreUnits (H.facts hall.old).units units.now }
    ensures scanned { IfOk result (λ scans. AreScanned (H.facts hall.old).units units.now scans.items) }
    ensures images { IsTrue H.tells → IfOk result (λ scans. AreScansOf (H.meaning hall.old).state
        (H.facts hall.old).units scans.items) }
    ensures refused { IsTrue H.tells → IfErr result (RefusesImages
        (names_of (H.facts hall.old).units units.now) (H.meaning hall.old).state) }
    ensures unit { IfErr result (λ s. s.unit < length units.now) }
    ensures same { IsTrue H.tells → Same (H.meaning hall.old) (H.meaning hall.new) }
    ensures faults { StopCall (H.facts hall.old) (H.facts hall.new) result }
{
    let mut scans = Vec::new(alloc);
    for k in 0..units.len() {
        let scanned = scan_pack(alloc, hall, units[k])?;
        push(&mut scans, scanned, units[k])?;
    }
    Ok(scans)
}

// The scan of the pack on a unit.
fn scan_pack<H: Hall>(alloc: Global, hall: &mut H, unit: u8) -> Result<Scan, OpenFailure>
    requires { unit < length (H.facts hall.old).units }
    ensures image { let image = image_in (H.meaning hall.old) (H.facts hall.old) unit in
        IsTrue H.tells → IfOk result (IsScanOf image) }
    ensures refused { let image = image_in (H.meaning hall.old) (H.facts hall.old) unit in
        IsTrue H.tells → IfErr result (λ s. s.why ≢ MountErr.Memory → s.why ≢ MountErr.Device
        → volume_of image ≡ Err s.why) }
    ensures place { IfErr result (λ s. s.unit ≡ unit) }
    ensures unit { IfOk result (IsScanOn (H.facts hall.old).units unit) }
    ensures same { IsTrue H.tells → Same (H.meaning hall.old) (H.meaning hall.new) }
    ensures faults { StopCall (H.facts hall.old) (H.facts hall.new) result }
{
    match scan(alloc, hall, unit) {
        Ok(scanned) => Ok(scanned),
        Err(why) => Err(OpenFailure { unit, why }),
    }
}

// Puts an item after the others; the unit is that of its pack.
fn push<T: Drop>(items: &mut Vec<T>, item: T, unit: u8) -> Result<(), OpenFailure>
    ensures done { OnOk result (items.new.items ≡ items.old.items ++ item ∷ []) }
    ensures memory { IfErr result (λ s. s.why ≡ MountErr.Memory) }
    ensures place { IfErr result (λ s. s.unit ≡ unit) }
{
    match items.push(item) {
        Ok(()) => Ok(()),
        Err(_) => Err(no_memory(unit)),
    }
}

// The lowest pack whose serial an earlier one has, with the lowest of these.
fn same_serial(scans: &[Scan]) -> Option<OpenFailure>
    requires { length scans.now ≤ 255 }
    ensures found { IfSome result (StopsAtTwice (serials_of (indexes_of scans.now))) }
    ensures unit { IfSome result (λ s. s.unit < length scans.now) }
    ensures apart { IfNone result (AreApart (serials_of (indexes_of scans.now))) }
{
    for k in 0..scans.len() {
        if let Some(other) = place_of(&scans[..k], &scans[k].vol.serial) {
            let unit = k as u8;
            let other = other as u8;
            return Some(OpenFailure {
                unit,
                why: MountErr::SameSerial { unit, other },
            });
        }
    }
    None
}

// The first pack of this serial.
fn place_of(scans: &[Scan], serial: &Serial) -> Option<usize>
    ensures place { result ≡ position (λ s. bytes_eq s.vol.serial.bytes serial.now.bytes) scans.now }
    ensures inside { IfSome result (λ k. k < length scans.now) }
{
    scans.iter().position(|scanned| has_serial(scanned, serial))
}

// Whether a pack has this serial.
fn has_serial(scanned: &Scan, serial: &Serial) -> bool
    ensures { result ≡ bytes_eq scanned.now.vol.serial.bytes serial.now.bytes }
{
    scanned.vol.serial == *serial
}

// What is known of the bodies on packs that were scanned.
fn know_all(alloc: Global, scans: &[Scan]) -> Result<Vec<PackCache>, OpenFailure>
    ensures known { IfOk result (λ known. AreKnown scans.now known.items) }
    ensures memory { IfErr result (λ s. s.why ≡ MountErr.Memory) }
    ensures unit { IfErr result (λ s. Contains (units_of (indexes_of scans.now)) s.unit) }
{
    let mut known = Vec::new(alloc);
    for scanned in scans {
        add_known(alloc, &mut known, scanned)?;
    }
    Ok(known)
}

// Puts what is known of a pack that was scanned after the others.
fn add_known(alloc: Global, known: &mut Vec<PackCache>, scanned: &Scan) -> Result<(), OpenFailure>
    ensures known { OnOk result ((b : PackCache) × (known.new.items ≡ known.old.items ++ b ∷ [])
        × IsFresh b × (b.buf.records.geometry ≡ scanned.now.vol.geometry)
        × (b.unread.items ≡ unread_in scanned.now.volume.items)) }
    ensures memory { IfErr result (λ s. s.why ≡ MountErr.Memory) }
    ensures place { IfErr result (λ s. s.unit ≡ scanned.now.vol.unit) }
{
    match known_of(alloc, scanned) {
        Ok(of) => push(known, of, scanned.vol.unit),
        Err(_) => Err(no_memory(scanned.vol.unit)),
    }
}

// What is known of the bodies on a pack that was scanned: no track is held, and no library.
fn known_of(alloc: Global, scanned: &Scan) -> Result<PackCache, AllocError>
    ensures unread { IfOk result (λ b. b.unread.items ≡ unread_in scanned.now.volume.items) }
    ensures buffer { IfOk result (λ b. b.buf.records.geometry ≡ scanned.now.vol.geometry) }
    ensures fresh { IfOk result IsFresh }
{
    let unread = unread_of(alloc, &scanned.volume)?;
    let buf = ReadBuf::new(alloc, &scanned.vol.geometry)?;
    Ok(PackCache {
        unread,
        buf,
        libraries: Vec::new(alloc),
    })
}

// Memory ran out at the pack on a unit.
fn no_memory(unit: u8) -> OpenFailure
    ensures { result ≡ record { unit = unit; why = MountErr.Memory } }
{
    OpenFailure {
        unit,
        why: MountErr::Memory,
    }
}

// Room for packs that were scanned.
fn room_for(alloc: Global, scans: &[Scan]) -> Result<Vec<Pack>, OpenFailure>
    ensures room { IfOk result (λ packs. (packs.items ≡ []) × (length scans.now ≤ vec_capacity packs)) }
    ensures memory { IfErr result (λ s. s.why ≡ MountErr.Memory) }
    ensures unit { IfErr result (λ s. Contains (units_of (indexes_of scans.now)) s.unit) }
{
    let Some(first) = scans.first() else {
        return Ok(Vec::new(alloc));
    };
    match Vec::with_capacity(alloc, scans.len()) {
        Ok(packs) => Ok(packs),
        Err(_) => Err(no_memory(first.vol.unit)),
    }
}

// Repairs each pack that isn't settled, and gives all, with what is known of their bodies and the libraries that were read.
fn repair_all<H: Hall>(
    hall: &mut H,
    scans: Vec<Scan>,
    known: Vec<PackCache>,
    packs: &mut Vec<Pack>,
) -> Result<(), OpenFailure>
    requires indexes { AreIndexes (H.facts hall.old).units (indexes_of scans.items) }
    requires order { AreInOrder (indexes_of scans.items) }
    requires scanned { (k : ℕ) (s : Scan) → slice_get scans.items k ≡ Some s
        → IsScanOn (H.facts hall.old).units s.vol.unit s }
    requires images { IsTrue H.tells → AreScansOf (H.meaning hall.old).state
        (H.facts hall.old).units scans.items }
    requires room { (packs.old.items ≡ []) × (length scans.items ≤ vec_capacity packs.old) }
    requires known { AreKnown scans.items known.items }
    requires durable { IsTrue H.tells → IsDurable (H.meaning hall.old) }
    ensures files { IsTrue H.tells → RepairsAll
        (names_of (H.facts hall.old).units (units_of (indexes_of scans.items)))
        (H.facts hall.old).units (vols_of packs.new.items) (H.meaning hall.old) (H.meaning hall.new)
        result }
    ensures indexes { OnOk result (AreIndexes (H.facts hall.new).units (vols_of packs.new.items)) }
    ensures order { OnOk result (AreInOrder (vols_of packs.new.items)) }
    ensures same { OnOk result (AreOfSamePacks (indexes_of scans.items) (vols_of packs.new.items)) }
    ensures lists { OnOk result (KeepsLists known.items (caches_of packs.new.items)) }
    ensures held { IsTrue H.tells → OnOk result (AreHeld (H.meaning hall.new).state
        (H.facts hall.new).units (vols_of packs.new.items) (caches_of packs.new.items)) }
    ensures unit { IfErr result (λ s. Contains (units_of (indexes_of scans.items)) s.unit) }
    ensures device { IfErr result (λ s. s.why ≡ MountErr.Device) }
    ensures faults { StopCall (H.facts hall.old) (H.facts hall.new) result }
{
    let mut caches = known.into_iter();
    for scanned in scans {
        let Scan { vol, libraries, .. } = repair_pack(hall, scanned)?;
        let Some(mut cache) = caches.next() else {
            unreachable!()
        };
        cache.libraries = libraries;
        packs.push_reserved(Pack { vol, cache });
    }
    Ok(())
}

// Repairs a pack that was scanned, unless it is settled: then nothing is called.
fn repair_pack<H: Hall>(hall: &mut H, scanned: Scan) -> Result<Scan, OpenFailure>
    requires unit { IsScanOn (H.facts hall.old).units scanned.vol.unit scanned }
    requires scan { let image = image_in (H.meaning hall.old) (H.facts hall.old) scanned.vol.unit in
        IsTrue H.tells → IsScanOf image scanned }
    requires durable { IsTrue H.tells → IsDurable (H.meaning hall.old) }
    ensures files { IsTrue H.tells
        → RepairsPack (unit_of (H.facts hall.old).units scanned.vol.unit).name
        (H.meaning hall.old) (H.meaning hall.new) result }
    ensures index { IfOk result (λ s. s.vol
        ≡ record scanned.vol { slots = s.vol.slots; buf = s.vol.buf }) }
    ensures unit { IfOk result (IsScanOn (H.facts hall.new).units scanned.vol.unit) }
    ensures place { IfErr result (λ s. s.unit ≡ scanned.vol.unit) }
    ensures device { IfErr result (λ s. s.why ≡ MountErr.Device) }
    ensures faults { StopCall (H.facts hall.old) (H.facts hall.new) result }
{
    let unit = scanned.vol.unit;
    match repair(hall, scanned) {
        Ok(repaired) => Ok(repaired),
        Err(_) => Err(OpenFailure {
            unit,
            why: MountErr::Device,
        }),
    }
}
