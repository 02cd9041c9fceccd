//! Tracks of packs that are written in memory: that of the label, and those of a VTOC.
ghost use Rattle.std.specs.Prelude.{◌≡◌, ◌+◌, ◌*◌, ◌≤◌, length, map, vec_len, IfOk};
ghost use Rattle.ckd_image.specs.Writing.{new_track};
ghost use Rattle.pack_spec.specs.Written.{label_bytes, label_records, slot_record};

use crate::address::Address;
use crate::layout::{
    IPL1, IPL1_LEN, IPL2, IPL2_LEN, KEY_LEN, LABEL_LEN, LABEL_RECORD, SERIAL_AT, Slot, VOL1,
};
use ckd_image::{RecordParts, push_end, push_front, push_record};
use ebcdic_names::Serial;
use std::alloc::{AllocError, Global};

// A blank in EBCDIC.
const BLANK: u8 = 0x40;

// Where the label has its security byte, after the serial and before the address of the VTOC.
const SECURITY_AT: usize = 10;

// The security byte of a volume that isn't protected.
const UNPROTECTED: u8 = 0;

/// The data of the volume label of a pack: VOL1, its serial, a security byte of zero, and the address of the first slot of
/// its VTOC, which is R1 of a track. All else, the owner too, is blank.
pub fn label_data(serial: &Serial, vtoc: Address) -> [u8; LABEL_LEN]
    ensures { result ≡ label_bytes serial.now.bytes vtoc }
{
    let [cc_high, cc_low] = vtoc.cylinder.to_be_bytes();
    let [hh_high, hh_low] = vtoc.head.to_be_bytes();
    let mut data = [BLANK; LABEL_LEN];
    data[..SERIAL_AT].copy_from_slice(VOL1);
    data[SERIAL_AT..SECURITY_AT].copy_from_slice(&serial.bytes);
    data[SECURITY_AT..SECURITY_AT + 6].copy_from_slice(&[
        UNPROTECTED,
        cc_high,
        cc_low,
        hh_high,
        hh_low,
        1,
    ]);
    data
}

/// Track 0 of a pack, in `size` bytes: the records of the initial program, which are zeros, and the volume label.
///
/// The size is at least the 313 bytes that these records take with what stands around them. The one error is want of
/// memory.
pub fn label_track(
    alloc: Global,
    serial: &Serial,
    vtoc: Address,
    size: usize,
) -> Result<Vec<u8>, AllocError>
    requires room { 313 ≤ size }
    ensures bytes { IfOk result (λ track. track.items
        ≡ new_track 0 0 (label_records serial.now.bytes vtoc) size) }
    ensures len { IfOk result (λ track. vec_len track ≡ size) }
{
    let label = label_data(serial, vtoc);
    let mut track = Vec::new(alloc);
    push_front(&mut track, 0, 0)?;
    push_record(
        &mut track,
        0,
        0,
        1,
        RecordParts {
            key: IPL1,
            data: &[0; IPL1_LEN],
        },
    )?;
    push_record(
        &mut track,
        0,
        0,
        2,
        RecordParts {
            key: IPL2,
            data: &[0; IPL2_LEN],
        },
    )?;
    push_record(
        &mut track,
        0,
        0,
        LABEL_RECORD,
        RecordParts {
            key: VOL1,
            data: &label,
        },
    )?;
    push_end(&mut track, size)?;
    Ok(track)
}

/// A track of a VTOC, in `size` bytes, with these slots from R1 on.
///
/// There are at most 255 slots, and the size is at least 29 bytes, for what stands around them, and 148 for each. The one
/// error is want of memory.
pub fn slots_track(
    alloc: Global,
    at: Address,
    slots: &[Slot],
    size: usize,
) -> Result<Vec<u8>, AllocError>
    requires few { length slots.now ≤ 255 }
    requires room { 29 + 148 * length slots.now ≤ size }
    ensures bytes { IfOk result (λ track. track.items
        ≡ new_track at.cylinder at.head (map (slot_record at) slots.now) size) }
    ensures len { IfOk result (λ track. vec_len track ≡ size) }
{
    let mut track = Vec::new(alloc);
    push_front(&mut track, at.cylinder, at.head)?;
    for (index, slot) in slots.iter().enumerate() {
        let (key, data) = slot.split_at(KEY_LEN);
        let parts = RecordParts { key, data };
        push_record(&mut track, at.cylinder, at.head, index as u8 + 1, parts)?;
    }
    push_end(&mut track, size)?;
    Ok(track)
}
