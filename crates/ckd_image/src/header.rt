//! The header of an image.
ghost use Rattle.std.specs.Prelude.{◌≡◌, ℕ, ◌+◌, ◌-◌, ◌/◌, ◌≤◌, Some, None, Ok, slice_range, if◌then◌else◌, IfOk, IfSome, ◌*◌};
ghost use Rattle.std.specs.Int.{w16, w32, from_le_bytes, to_le_bytes};
ghost use Rattle.ckd_image.specs.Device.{row_of};
ghost use Rattle.ckd_image.specs.Header.{HasGeometry, header_bytes, geometry_of, geometry_on, has_magic, is_track_size, is_length};

use crate::device::DiskType;
use byteorder::{ByteOrder, LittleEndian};

/// The bytes of the header of an image, which stands before the first track.
pub const HEADER_LEN: usize = 512;

// The first eight bytes of an image, and those of a compressed one.
const MAGIC: &[u8; 8] = b"CKD_P370";

const COMPRESSED_MAGIC: &[u8; 8] = b"CKD_C370";

// The places of the fields after the magic: heads and track size in four bytes, then the type
// and the file sequence in one each, then the high cylinder in two.
const HEADS_AT: usize = 8;

const TRACK_SIZE_AT: usize = 12;

const TYPE_AT: usize = 16;

const SEQUENCE_AT: usize = 17;

const HIGH_CYLINDER_AT: usize = 18;

// What stands around R1 on a track: the home address, R0, the count of R1 and the end marker.
const AROUND_RECORD: u32 = 37;

// Track sizes are multiples of this number of bytes, and at most the other.
const TRACK_SIZE_UNIT: u32 = 512;

const MOST_TRACK_SIZE: u32 = 65536;

/// The shape of a pack: its device, its cylinders, and the bytes of a track in the image.
#[derive(Clone, Copy, Debug, PartialEq, Eq)]
pub struct Geometry {
    /// The device.
    pub device: DiskType,
    /// The number of cylinders, from 1 to the device's most.
    pub cylinders: u16,
    /// The bytes that a track takes in the image: a multiple of 512, at most 65,536, and with room for the
    /// largest R1 and the 37 bytes around it.
    pub track_size: u32,
}

/// The first rule that the header or the length of an image breaks, in this order.
#[derive(Clone, Copy, Debug, PartialEq, Eq)]
pub enum ImageErr {
    /// A compressed image, which isn't shorter than a header.
    Compressed,
    /// Not an image of a disk pack in the CKD layout, or shorter than a header.
    BadMagic,
    /// A device that isn't known, with its type byte.
    BadType(u8),
    /// The number of heads, where the device has another.
    BadHeads(u32),
    /// The track size in bytes, where it is no multiple of 512, leaves no room for the device's largest R1
    /// and the 37 bytes around it, or is above 65,536.
    BadTrackSize(u32),
    /// One of several files of an image: the file sequence is above 1, or the high cylinder not 0.
    MultiFile,
    /// A file, of so many bytes, that doesn't end with a whole cylinder, has none, or has more than the
    /// device's most.
    BadLength(u64),
}

/// Reads and makes the 512 bytes in front of an image.
pub struct Header;

impl Header {
    /// The geometry that the header of a file of `len` bytes gives, or the first rule that is broken.
    ///
    /// The layout is that of a Hercules CKD image: `CKD_P370` at byte 0, the heads at 8 and the
    /// track size at 12, four bytes each, the type byte at 16, the file sequence at 17 and the high
    /// cylinder at 18, two bytes; numbers have their low byte first, and the other bytes aren't judged.
    /// With a `len` below 512 the answer is `BadMagic`, and `bytes` don't count.
    #[tactic(auto, unfolding(crate::specs::Header::geometry_of))]
    pub fn read(bytes: &[u8; 512], len: u64) -> Result<Geometry, ImageErr>
        ensures exact { result ≡ geometry_of bytes.now len }
        ensures whole { IfOk result (HasGeometry len) }
    {
        if len < HEADER_LEN as u64 {
            return Err(ImageErr::BadMagic);
        }
        if has_magic(bytes, COMPRESSED_MAGIC) {
            return Err(ImageErr::Compressed);
        }
        if !has_magic(bytes, MAGIC) {
            return Err(ImageErr::BadMagic);
        }
        let type_byte = bytes[TYPE_AT];
        match DiskType::from_type_byte(type_byte) {
            Some(device) => geometry_on(device, bytes, len),
            None => Err(ImageErr::BadType(type_byte)),
        }
    }

    /// The header of a new image with this geometry.
    ///
    /// The layout is that of `Header::read`, with file sequence 0, high cylinder 0 and zeros in the
    /// reserved bytes. The number of cylinders stands in the length of the image alone: reading the
    /// header at that length gives the same geometry.
    pub fn write(geometry: &Geometry) -> [u8; 512]
        ensures bytes { result ≡ header_bytes geometry.now }
        ensures read_back { (len : ℕ) → HasGeometry len geometry.now → geometry_of result len ≡ Ok geometry.now }
    {
        let heads = four_bytes_of(u32::from(geometry.device.heads()));
        let track_size = four_bytes_of(geometry.track_size);
        let mut bytes = [0; HEADER_LEN];
        bytes[..HEADS_AT].copy_from_slice(MAGIC);
        bytes[HEADS_AT..TRACK_SIZE_AT].copy_from_slice(&heads);
        bytes[TRACK_SIZE_AT..TYPE_AT].copy_from_slice(&track_size);
        bytes[TYPE_AT] = geometry.device.type_byte();
        bytes
    }
}

// Whether a header begins with these eight characters.
fn has_magic(bytes: &[u8; 512], magic: &[u8; 8]) -> bool
    ensures { result ≡ has_magic magic.now bytes.now }
{
    bytes.starts_with(magic)
}

// The geometry of an image of this device, or the first rule that its header or length breaks.
#[tactic(auto, unfolding(crate::specs::Header::geometry_on))]
fn geometry_on(device: DiskType, bytes: &[u8; 512], len: u64) -> Result<Geometry, ImageErr>
    requires { 512 ≤ len }
    ensures exact { result ≡ geometry_on device bytes.now len }
    ensures whole { IfOk result (HasGeometry len) }
{
    let heads = four_bytes_at(bytes, HEADS_AT);
    if heads != u32::from(device.heads()) {
        return Err(ImageErr::BadHeads(heads));
    }
    let track_size = four_bytes_at(bytes, TRACK_SIZE_AT);
    if !is_track_size(device, track_size) {
        return Err(ImageErr::BadTrackSize(track_size));
    }
    if bytes[SEQUENCE_AT] > 1 || two_bytes_at(bytes, HIGH_CYLINDER_AT) != 0 {
        return Err(ImageErr::MultiFile);
    }
    match cylinders_of(device, heads * track_size, len) {
        Some(cylinders) => Ok(Geometry {
            device,
            cylinders,
            track_size,
        }),
        None => Err(ImageErr::BadLength(len)),
    }
}

// The number in four bytes of a header, the lowest of them first.
fn four_bytes_at(bytes: &[u8; 512], at: usize) -> u32
    requires { at ≤ 508 }
    ensures { result ≡ from_le_bytes w32 (slice_range bytes.now at (at + 4)) }
{
    LittleEndian::read_u32(&bytes[at..at + 4])
}

// A number in a field of four bytes, the lowest of them first.
fn four_bytes_of(number: u32) -> [u8; 4]
    ensures { result ≡ to_le_bytes w32 number }
{
    number.to_le_bytes()
}

// The number in two bytes of a header, the lower first.
fn two_bytes_at(bytes: &[u8; 512], at: usize) -> u16
    requires { at ≤ 510 }
    ensures { result ≡ from_le_bytes w16 (slice_range bytes.now at (at + 2)) }
{
    LittleEndian::read_u16(&bytes[at..at + 2])
}

// Whether a track of the device may take so many bytes in an image.
fn is_track_size(device: DiskType, size: u32) -> bool
    ensures { result ≡ is_track_size device size }
{
    size % TRACK_SIZE_UNIT == 0
        && size >= u32::from(device.largest_record()) + AROUND_RECORD
        && size <= MOST_TRACK_SIZE
}

// The number of cylinders of so many bytes in an image of `len` bytes, where it holds whole ones,
// from one to the device's most.
fn cylinders_of(device: DiskType, cylinder_size: u32, len: u64) -> Option<u16>
    requires size { 1 ≤ cylinder_size }
    requires header { 512 ≤ len }
    ensures exact { result ≡ (if is_length device cylinder_size len then Some ((len - 512) / cylinder_size) else None) }
    ensures few { IfSome result (λ n. n ≤ (row_of device).most_cylinders) }
    ensures whole { IfSome result (λ n. (1 ≤ n) × (len ≡ 512 + n * cylinder_size)) }
{
    let cylinder_size = u64::from(cylinder_size);
    let tracks_len = len - HEADER_LEN as u64;
    let most_len = u64::from(device.most_cylinders()) * cylinder_size;
    if tracks_len % cylinder_size == 0 && tracks_len >= cylinder_size && tracks_len <= most_len {
        Some((tracks_len / cylinder_size) as u16)
    } else {
        None
    }
}
