//! The data set control blocks (DSCBs) of a VTOC, between their fields and their 140 bytes.
//!
//! The places of the fields follow System Control Blocks, GC28-6628; every number is big-endian.
#![tactic(auto)]

mod decoding;
mod encoding;

pub use decoding::decode;
pub use encoding::encode;

// Where the format byte stands, after the 44 bytes of the key.
const FORMAT_AT: usize = 44;

// The format bytes, the digits of the formats' numbers in EBCDIC.
const FORMAT_1: u8 = 0xF1;

const FORMAT_2: u8 = 0xF2;

const FORMAT_3: u8 = 0xF3;

/// The format byte of the VTOC, the digit of its format's number in EBCDIC.
pub const FORMAT_4: u8 = 0xF4;

const FORMAT_5: u8 = 0xF5;

const FORMAT_6: u8 = 0xF6;

/// Format 1: the attributes of a data set and its first three extents.
#[derive(Clone, Copy, Debug, PartialEq, Eq)]
pub struct F1 {
    /// DSNAME, the name in EBCDIC, padded with blanks; the key.
    pub name: [u8; 44],
    /// The serial number of the set's first volume, in EBCDIC.
    pub serial: [u8; 6],
    /// The volume's number among those of the set, from 1.
    pub volseq: u16,
    /// The creation date: the year since 1900, then two bytes of the day of the year.
    pub created: [u8; 3],
    /// The expiration date, in the form of the creation date; zeros are none.
    pub expires: [u8; 3],
    /// The number of extents on this volume, those in a format 3 among them; not judged here.
    pub extents: u8,
    /// The bytes used in the last directory block of a partitioned set.
    pub dir_used: u8,
    /// Reserved.
    pub res61: [u8; 1],
    /// The system code, in EBCDIC.
    pub system: [u8; 13],
    /// Reserved.
    pub res75: [u8; 7],
    /// DSORG, the organization: X'4000' sequential, X'2000' direct, X'0200' partitioned, X'8000' index
    /// sequential, with X'0100' for a set that can't be moved.
    pub dsorg: u16,
    /// RECFM, the record format: X'80' fixed, X'40' variable, X'C0' undefined, with X'10' blocked, X'08'
    /// standard or spanned, X'04' and X'02' control characters.
    pub recfm: u8,
    /// OPTCD, the option codes.
    pub optcd: u8,
    /// BLKSIZE, the greatest length of a block in bytes.
    pub blksize: u16,
    /// LRECL, the length of a record in bytes.
    pub lrecl: u16,
    /// The length of a key in bytes.
    pub keylen: u8,
    /// RKP, the place of the key in a record.
    pub rkp: u16,
    /// The data set indicators.
    pub indicators: u8,
    /// SCALO: flags of the space request in the top byte, X'C0' for cylinders, X'80' for tracks, with X'08'
    /// for contiguous space, and the secondary quantity in these units in the other three.
    pub scalo: u32,
    /// LSTAR, the last block's TTR: its track within the set, from 0, in two bytes, and its record; zeros are
    /// none.
    pub lstar: [u8; 3],
    /// TRBAL, the bytes of the track capacity that are left on the track of the last block.
    pub balance: u16,
    /// Reserved.
    pub res103: [u8; 2],
    /// The first three extents: each a type byte, a sequence byte, and the lower and the upper CCHH, both inclusive.
    pub runs: [[u8; 10]; 3],
    /// The address CCHHR of the set's format 3 DSCB, which counts where there are more than three extents.
    pub pointer: [u8; 5],
}

/// Format 3: thirteen more extents of a data set.
#[derive(Clone, Copy, Debug, PartialEq, Eq)]
pub struct F3 {
    /// The first four bytes of the key, X'03030303'; not judged.
    pub id: u32,
    /// The four extents of the key, each in the form of those of format 1.
    pub front: [[u8; 10]; 4],
    /// The nine extents after the format byte.
    pub back: [[u8; 10]; 9],
    /// The address CCHHR of the next format 3 DSCB, or zeros.
    pub pointer: [u8; 5],
}

/// Format 4: the VTOC and the device.
#[derive(Clone, Copy, Debug, PartialEq, Eq)]
pub struct F4 {
    /// The key, X'04' in each byte; not judged.
    pub id: [u8; 44],
    /// The address CCHHR of the last format 1 DSCB, or zeros.
    pub highest: [u8; 5],
    /// The number of free DSCBs, those of format 0.
    pub free: u16,
    /// The address CCHH of the next alternate track.
    pub next_alt: u32,
    /// The number of alternate tracks left.
    pub alternates: u16,
    /// The VTOC indicators: X'80' where format 5 does not show the free space, X'04' the interrupted-update bit.
    pub indicators: u8,
    /// The number of extents of the VTOC.
    pub extents: u8,
    /// Reserved.
    pub res60: [u8; 2],
    /// The device size: two bytes of cylinders, then two of tracks per cylinder.
    pub size: u32,
    /// The track capacity in bytes; this and the other numbers of the device aren't judged.
    pub capacity: u16,
    /// I, the overhead in bytes of a record with a key that is not the last on its track.
    pub i: u8,
    /// L, the overhead in bytes of the last record with a key.
    pub l: u8,
    /// K, the bytes that a record without a key saves.
    pub k: u8,
    /// The flag of the device.
    pub flag: u8,
    /// The tolerance factor, over 512, by which a record's length is multiplied.
    pub tolerance: u16,
    /// The number of DSCBs on a track.
    pub dscbs: u8,
    /// The number of directory blocks on a track.
    pub dirs: u8,
    /// Reserved.
    pub res76: [u8; 29],
    /// The extent of the VTOC, in the form of those of format 1.
    pub vtoc: [u8; 10],
    /// Reserved.
    pub res115: [u8; 25],
}

/// Format 5: free space, in runs of tracks.
#[derive(Clone, Copy, Debug, PartialEq, Eq)]
pub struct F5 {
    /// The first four bytes of the key, X'05050505'; not judged.
    pub id: u32,
    /// The eight entries of the key: each a relative track, whole cylinders (two bytes each) and further
    /// tracks (one); zeros are none.
    pub front: [[u8; 5]; 8],
    /// The eighteen entries after the format byte.
    pub back: [[u8; 5]; 18],
    /// The address CCHHR of the next format 5 DSCB, or zeros.
    pub pointer: [u8; 5],
}

/// A DSCB: a slot of the VTOC that is read.
#[derive(Clone, Copy, Debug, PartialEq, Eq)]
pub enum Dscb {
    /// A free slot, all zeros.
    F0,
    /// A data set.
    F1(F1),
    /// More extents of a data set.
    F3(F3),
    /// The VTOC and the device.
    F4(F4),
    /// Free space.
    F5(F5),
}

/// Why bytes are no DSCB that is read; with the format byte.
#[derive(Clone, Copy, Debug, PartialEq, Eq)]
pub enum DscbErr {
    /// Format 2 or 6, of index sequential sets and of split cylinders.
    Unsupported(u8),
    /// Another format byte than X'F1' to X'F6'; also zero, unless all 140 bytes are.
    BadFormat(u8),
}

#[cfg(test)]
mod tests;
