//! One record of a track.
ghost use Rattle.std.specs.Prelude.{◌≡◌, false, true, IfNone, IfSome, drop};
ghost use Rattle.ckd_image.specs.Reading.{is_record_at, front_record, record_length};

use byteorder::{BigEndian, ByteOrder};

/// The key and the data of a record on a track.
#[derive(Clone, Copy, Debug, PartialEq, Eq)]
pub struct RecordParts<'a> {
    /// The key, at most 255 bytes.
    pub key: &'a [u8],
    /// The data, at most 65,535 bytes.
    pub data: &'a [u8],
}

/// The bytes of the count of a record, which stands before its key.
pub const COUNT_LEN: usize = 8;

// Where R, KL and DL stand in a count.
pub(crate) const NUMBER_AT: usize = 4;

pub(crate) const KEY_LENGTH_AT: usize = 5;

pub(crate) const DATA_LENGTH_AT: usize = 6;

/// The record R = `number` at the front of these bytes of a track, and the bytes after it.
///
/// `None` where no such record stands there whole. An end marker isn't looked for: it reads as a count of R255.
pub fn record_at(bytes: &[u8], number: u8) -> Option<(RecordParts<'_>, &[u8])>
    ensures none { IfNone result (is_record_at number bytes.now ≡ false) }
    ensures stands { IfSome result (λ _. is_record_at number bytes.now ≡ true) }
    ensures key { IfSome result (λ found. found.0.key.now ≡ (front_record bytes.now).key) }
    ensures content { IfSome result (λ found. found.0.data.now ≡ (front_record bytes.now).data) }
    ensures rest { IfSome result (λ found. found.1.now ≡ drop (record_length bytes.now) bytes.now) }
{
    if bytes.len() < COUNT_LEN || bytes[NUMBER_AT] != number {
        return None;
    }
    let key_end = COUNT_LEN + bytes[KEY_LENGTH_AT] as usize;
    let end = key_end + BigEndian::read_u16(&bytes[DATA_LENGTH_AT..COUNT_LEN]) as usize;
    if bytes.len() < end {
        return None;
    }
    let key = &bytes[COUNT_LEN..key_end];
    let data = &bytes[key_end..end];
    Some((RecordParts { key, data }, &bytes[end..]))
}
