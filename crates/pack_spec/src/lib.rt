//! What the image of a pack stands for, in definitions that each reader and writer of packs follows: the volume
//! label, the slots of the VTOC, the rules of mounting, and the volume.
#![tactic(auto)]

ghost use Rattle.std.specs.Prelude.{◌≡◌};
ghost use Rattle.pack_spec.specs.declared.MountErr.TheVariants as mount;

mod address;
pub mod layout;
mod slot;
mod written;

pub use address::{Address, record_address};
use ckd_image::ImageErr;
pub use slot::VtocSlot;
use std::alloc::AllocError;
pub use written::{label_data, label_track, slots_track};

/// Why a pack isn't mounted: the first rule that it breaks, in this order, or what kept it from being read.
///
/// The first slot of the VTOC's first track is read before `BadVtoc` is judged by it, so `VtocTrack` comes
/// first where it can't be. The rules from `BadDscb` to `BadChain` are judged slot by slot: all of them on
/// one slot before any on the next. Label and DSCBs follow System Control Blocks, GC28-6628; the rules and
/// their order are this project's profile.
#[derive(Clone, Copy, Debug, PartialEq, Eq)]
pub enum MountErr {
    /// No file has the name.
    NoFile,
    /// The header or the length of the image, which has the CKD layout of Hercules.
    Image(ImageErr),
    /// Track 0 has no volume label: up to R3 it is to follow the grammar, with the keys IPL1, IPL2 and VOL1
    /// and 24, 144 and 80 bytes of data, the last of which begin with VOL1.
    NoLabel,
    /// The label's address of the VTOC is none of the image; or the extent in the first slot there isn't
    /// one of 1 to 257 tracks of the image that has its first track at that address.
    BadVtoc,
    /// A track of the VTOC breaks the grammar, or has a record that is no slot: a slot has a key of 44
    /// bytes and 96 bytes of data. Or the track at the label's address has no record to be its first slot.
    VtocTrack {
        /// The track, counted from 0 over the volume; the lowest where there are several.
        track: u16,
    },
    /// Slot 0 isn't of format 4, or isn't there.
    NoFormat4,
    /// Slot 1 is neither of format 5 nor of format 0, or isn't there.
    NoFormat5,
    /// A slot of no known format, or a format 4 after slot 0. A zero format byte is format 0 where
    /// each byte of the slot is zero.
    BadDscb {
        /// The slot, counted from 0 over the VTOC, below 65,535.
        slot: u32,
        /// Its format byte.
        byte: u8,
    },
    /// A slot of a format that isn't supported: 2, of index sequential data sets, or 6, of split
    /// cylinders.
    UnsupportedDscb {
        /// The slot, counted from 0 over the VTOC, below 65,535.
        slot: u32,
        /// Its format byte.
        byte: u8,
    },
    /// A data set has an extent of a type that isn't supported. Each that it counts is of type X'01' or
    /// X'81', and so is each other field for one in its format 1, or empty, X'00'.
    UnsupportedExtent {
        /// The slot of its format 1, counted from 0 over the VTOC, below 65,535.
        slot: u32,
    },
    /// A data set counts 17 extents or more, or one that isn't a run of tracks of the image: both its first
    /// and its last track are, and they may be the same, but not in the wrong order.
    BadExtent {
        /// The slot of its format 1, counted from 0 over the VTOC, below 65,535.
        slot: u32,
    },
    /// A data set whose format 1 doesn't hold all its extents has no format 3 of its own: where two lead to
    /// one, it is that of the lower slot.
    BadChain {
        /// The slot of its format 1, counted from 0 over the VTOC, below 65,535.
        slot: u32,
    },
    /// Two data sets have one name.
    DuplicateName {
        /// The lowest slot, counted from 0 over the VTOC, that has the name of one before it.
        slot: u32,
        /// The lowest slot of that name.
        other: u32,
    },
    /// A track is owned twice: track 0, the tracks of the VTOC, and those of each extent that a data set
    /// counts are owned.
    Overlap {
        /// The lowest such track, counted from 0 over the volume.
        track: u16,
    },
    /// The VTOC has fewer slots than are needed: one for its format 4, one for each started 26 runs of
    /// free tracks, but at least one, one for each data set, and one more for each data set of more than
    /// three extents.
    VtocFull {
        /// The slots that are needed.
        slots: u32,
    },
    /// Two of several packs have one serial, which is looked for once each of them mounts.
    SameSerial {
        /// The lowest unit that has the serial of one before it.
        unit: u8,
        /// The lowest unit of that serial.
        other: u8,
    },
    /// Memory ran out, which says nothing of the image.
    Memory,
    /// The device failed, and its count of faults rose; which says nothing of the image.
    Device,
}

impl From<AllocError> for MountErr {
    ghost from_gives = { λ _ e. e ≡ mount.Memory };

    fn from(_e: AllocError) -> MountErr {
        MountErr::Memory
    }
}
