//! A new pack, byte by byte.
ghost use Rattle.std.specs.Prelude.{◌≡◌, [], IfOk};
ghost use Rattle.hall_core.specs.Memory.{facts_of};

use ckd_image::{DiskType, Geometry};
use ebcdic_names::Serial;
use hall_core::MemHall;
use pack_init::{InitErr, init};
use std::alloc::{AllocError, Global};
use std::test::Fail;

const SERIAL: Serial = Serial {
    bytes: [0xE6, 0xD6, 0xD9, 0xD2, 0xF0, 0xF1],
};

// Makes a 2314 pack of 200 cylinders with five VTOC tracks.
fn make(alloc: Global, hall: &mut MemHall) -> Result<(), InitErr>
    requires { (facts_of hall.old).units ≡ [] }
{
    let geometry = Geometry {
        device: DiskType::D2314,
        cylinders: 200,
        track_size: 7680,
    };
    init(alloc, hall, "w.img", &geometry, &SERIAL, 5)
}

// A hall with these files and room for the pack.
fn hall_with(alloc: Global, files: Vec<(String, Vec<u8>)>) -> Result<MemHall, AllocError>
    ensures { IfOk result (λ hall. (facts_of hall).units ≡ []) }
{
    let mut hall = MemHall::new(alloc, files, Vec::new(alloc));
    hall.room(4096, 31_000_000)?;
    Ok(hall)
}

// Bytes of the image, and what they are to be: heads and track size in the header; the address of the VTOC in
// the label; in slot 0 the free slots, the size of the pack, and the extent of the VTOC; in slot 1 the one entry;
// the counts of the first and the last slot on track 5, and the end marker behind it.
const BYTES: [(usize, &[u8]); 9] = [
    (8, &[0x14, 0, 0, 0, 0, 0x1E, 0, 0]),
    (512 + 21 + 36 + 156 + 12 + 11, &[0, 0, 0, 1, 1, 0x40]),
    (8192 + 29 + 50, &[0, 0x7B]),
    (8192 + 29 + 62, &[0, 0xC8, 0, 0x14, 0x1C, 0x7E]),
    (8192 + 29 + 105, &[1, 0, 0, 0, 0, 1, 0, 0, 0, 5]),
    (8192 + 177 + 4, &[0, 6, 0, 0xC7, 0x0E, 0]),
    (38912 + 21, &[0, 0, 0, 5, 1, 44, 0, 96]),
    (38912 + 21 + 24 * 148, &[0, 0, 0, 5, 25, 44, 0, 96]),
    (38912 + 21 + 25 * 148, &[0xFF; 8]),
];

#[test]
fn pack_of_200_cylinders_has_125_slots_and_one_free_run(rt: HostRuntime) -> Result<(), Fail> {
    let mut hall = hall_with(rt.alloc(), Vec::new(rt.alloc()))?;
    assert_eq!(rt; make(rt.alloc(), &mut hall), Ok(()));
    let image = hall.image("w.img").unwrap_or(b"".as_slice());
    assert_eq!(rt; image.len(), 30_720_512);
    for (at, want) in BYTES {
        assert_eq!(rt; image.get(at..at + want.len()), Some(want), "at {at}");
    }
    let mut files = Vec::new(rt.alloc());
    files.push((String::from_str(rt.alloc(), "w.img")?, Vec::new(rt.alloc())))?;
    let mut again = hall_with(rt.alloc(), files)?;
    assert_eq!(rt; make(rt.alloc(), &mut again), Err(InitErr::Exists));
    Ok(())
}
