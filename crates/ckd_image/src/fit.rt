//! What records cost on a track, and whether they fit it.
ghost use Rattle.std.specs.Prelude.{◌≡◌, ◌≤◌};
ghost use Rattle.ckd_image.specs.Device.{row_of};
ghost use Rattle.ckd_image.specs.Fit.{balance, fits, record_cost, last_record_cost, saved};

use crate::device::DiskType;

// The tolerance counts in these parts of a byte.
const TOLERANCE_UNIT: u32 = 512;

/// Whether a record with a key of `kl` bytes and data of `dl` fits a track of the device as the last
/// one, after `earlier` ones of these key and data lengths.
///
/// The numbers are in fields of the device's format 4 DSCB (System Control Blocks, GC28-6628); their use
/// and the rounding are this project's profile. Each earlier record takes the overhead and, for its
/// bytes, the tolerance; the last one takes an overhead of its own and its bytes. A record without a
/// key takes the key overhead less. The sum may not pass the capacity of a track, from which R0 takes
/// nothing. The record that ends a file has lengths of 0.
pub fn fits(device: DiskType, earlier: &[(u8, u16)], kl: u8, dl: u16) -> bool
    ensures { result ≡ fits device earlier.now kl dl }
{
    let mut room = u32::from(device.track_capacity());
    for lengths in earlier {
        let cost = record_cost(device, lengths.0, lengths.1);
        if cost > room {
            return false;
        }
        room -= cost;
    }
    last_record_cost(device, kl, dl) <= room
}

/// The balance of a track of the device with these records: its capacity less what each of them costs as one that isn't
/// the last, and at least 0 (the track balance of a format 1 DSCB; the use of the formula is this project's profile).
pub fn balance(device: DiskType, records: &[(u8, u16)]) -> u16
    ensures { result ≡ balance device records.now }
{
    let mut room = u32::from(device.track_capacity());
    for lengths in records {
        room = room.saturating_sub(record_cost(device, lengths.0, lengths.1));
    }
    room as u16
}

// The bytes that a record costs which isn't the last of its track.
fn record_cost(device: DiskType, kl: u8, dl: u16) -> u32
    ensures { result ≡ record_cost device kl dl }
{
    let len = u32::from(kl) + u32::from(dl);
    let scaled = len * u32::from(device.tolerance()) / TOLERANCE_UNIT;
    u32::from(device.overhead()) + scaled - saved(device, kl)
}

// The bytes that the last record of a track costs.
fn last_record_cost(device: DiskType, kl: u8, dl: u16) -> u32
    ensures { result ≡ last_record_cost device kl dl }
{
    u32::from(device.last_overhead()) + u32::from(kl) + u32::from(dl) - saved(device, kl)
}

// The bytes by which a record costs less where it has no key.
fn saved(device: DiskType, kl: u8) -> u32
    ensures exact { result ≡ saved device kl }
    ensures within_last { result ≤ (row_of device).last_overhead }
    ensures within { result ≤ (row_of device).overhead }
{
    if kl == 0 {
        u32::from(device.key_overhead())
    } else {
        0
    }
}
