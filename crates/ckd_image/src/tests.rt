use crate::{
    BadCount, DiskType, Geometry, Header, ImageErr, RecordParts, fits, push_end, push_front,
    push_record, record_at, track_of,
};
use std::test::Fail;

// The fields of a header, the length of the image, and its device and cylinders.
const HEADERS: [(&[u8; 20], u64, DiskType, u16, u32); 4] = [
    (
        b"CKD_P370\x0A\0\0\0\0\x10\0\0\x11\0\0\0",
        8_192_512,
        DiskType::D2311,
        200,
        4096,
    ),
    (
        b"CKD_P370\x14\0\0\0\0\x1E\0\0\x14\0\0\0",
        30_720_512,
        DiskType::D2314,
        200,
        7680,
    ),
    (
        b"CKD_P370\x13\0\0\0\0\x34\0\0\x30\0\0\0",
        103_953_920,
        DiskType::D3330,
        411,
        13312,
    ),
    (
        b"CKD_P370\x1E\0\0\0\0\x4C\0\0\x50\0\0\0",
        326_861_312,
        DiskType::D3350,
        560,
        19456,
    ),
];

// Fields of a header that break a rule, and the first that each does.
const BAD_HEADERS: [(&[u8; 20], ImageErr); 6] = [
    (
        b"CKD_C370\x0A\0\0\0\0\x10\0\0\x11\0\0\0",
        ImageErr::Compressed,
    ),
    (
        b"CKD_P371\x0A\0\0\0\0\x10\0\0\x11\0\0\0",
        ImageErr::BadMagic,
    ),
    (
        b"CKD_P370\x0A\0\0\0\0\x10\0\0\x05\0\0\0",
        ImageErr::BadType(5),
    ),
    (
        b"CKD_P370\x0A\0\0\x01\0\x10\0\0\x11\0\0\0",
        ImageErr::BadHeads(16_777_226),
    ),
    (
        b"CKD_P370\x14\0\0\0\0\x1C\0\0\x14\0\0\0",
        ImageErr::BadTrackSize(7168),
    ),
    (
        b"CKD_P370\x0A\0\0\0\0\x10\0\0\x11\x02\0\0",
        ImageErr::MultiFile,
    ),
];

// The header that begins with these bytes and has zeros in the reserved ones.
fn header_of(front: &[u8; 20]) -> [u8; 512] {
    let mut bytes = [0; 512];
    bytes[..20].copy_from_slice(front);
    bytes
}

#[test]
fn headers_of_images(rt: HostRuntime) {
    for (front, len, device, cylinders, track_size) in HEADERS {
        let geometry = Geometry {
            device,
            cylinders,
            track_size,
        };
        let bytes = Header::write(&geometry);
        assert!(rt; bytes == header_of(front), "{geometry:?}");
        assert_eq!(rt; Header::read(&bytes, len), Ok(geometry));
    }
    for (front, want) in BAD_HEADERS {
        // No whole cylinder, which is judged last.
        assert_eq!(rt; Header::read(&header_of(front), 513), Err(want));
    }
}

// Cylinder 258, head 3: R1 with a key of two bytes and data of three, R2 with data of four, and two bytes more.
const TRACK: &[u8] = b"\0\x01\x02\0\x03\
    \x01\x02\0\x03\0\0\0\x08\0\0\0\0\0\0\0\0\
    \x01\x02\0\x03\x01\x02\0\x03KKDDD\
    \x01\x02\0\x03\x02\0\0\x04DDDD\
    \xFF\xFF\xFF\xFF\xFF\xFF\xFF\xFF\0\0";

#[test]
fn written_track_is_read(rt: HostRuntime) -> Result<(), Fail> {
    assert!(rt; fits(DiskType::D2314, &[(0, 3521)], 0, 3521));
    let mut bytes = Vec::new(rt.alloc());
    push_front(&mut bytes, 258, 3)?;
    for (number, key, data) in [(1, &b"KK"[..], &b"DDD"[..]), (2, b"", b"DDDD")] {
        push_record(&mut bytes, 258, 3, number, RecordParts { key, data })?;
    }
    push_end(&mut bytes, 56)?;
    assert_eq!(rt; bytes.as_slice(), TRACK);
    assert_eq!(rt; track_of(&bytes, 258, 3, None), Ok(2));
    assert_eq!(rt; track_of(&bytes, 258, 3, Some(3)), Err(BadCount { at: 50 }));
    let want = RecordParts {
        key: b"KK",
        data: b"DDD",
    };
    assert_eq!(rt; record_at(&TRACK[21..], 1), Some((want, &TRACK[34..])));
    Ok(())
}
