//! Where labels, slots and extents have what is read of them, and the bytes that they are known by, from
//! System Control Blocks, GC28-6628.

/// The key of R1 on the label's track, IPL1 in EBCDIC.
pub const IPL1: &[u8] = &[0xC9, 0xD7, 0xD3, 0xF1];

/// That of R2, IPL2.
pub const IPL2: &[u8] = &[0xC9, 0xD7, 0xD3, 0xF2];

/// That of R3, the label, VOL1; its data begin with the same.
pub const VOL1: &[u8] = &[0xE5, 0xD6, 0xD3, 0xF1];

/// The bytes of data of R1.
pub const IPL1_LEN: usize = 24;

/// Those of R2.
pub const IPL2_LEN: usize = 144;

/// Those of the label.
pub const LABEL_LEN: usize = 80;

/// The R of the label.
pub const LABEL_RECORD: u8 = 3;

/// Where the serial stands in the data of the label.
pub const SERIAL_AT: usize = 4;

/// Where the address of the VTOC does.
pub const VTOC_ADDRESS_AT: usize = 11;

/// The bytes of a slot's key.
pub const KEY_LEN: usize = 44;

/// Those of its data.
pub const DATA_LEN: usize = 96;

/// Those of both.
pub const SLOT_LEN: usize = KEY_LEN + DATA_LEN;

/// The key and the data of a slot.
pub type Slot = [u8; SLOT_LEN];

/// An extent as a DSCB has it: type, sequence, and the addresses CCHH of its first track and its last.
pub type Extent = [u8; 10];

/// Where the first slot of the VTOC has the extent of the VTOC.
pub const VTOC_EXTENT_AT: usize = 105;

/// The most tracks of a VTOC.
pub const MOST_VTOC_TRACKS: u16 = 257;

/// Where an extent has its type.
pub const TYPE_AT: usize = 0;

/// Where it has the address of its first track.
pub const LOWER_AT: usize = 2;

/// Where it has that of its last.
pub const UPPER_AT: usize = 6;

/// The type of a field without an extent.
pub const NO_EXTENT: u8 = 0x00;

/// That of an extent of data.
pub const DATA_EXTENT: u8 = 0x01;

/// That of one on cylinder boundaries.
pub const CYLINDER_EXTENT: u8 = 0x81;

/// The extents that a format 1 holds.
pub const OWN_EXTENTS: u8 = 3;

/// The most extents of a data set.
pub const MOST_EXTENTS: u8 = 16;
