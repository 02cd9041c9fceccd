//! What the words of the command line ask for.
use ckd_image::Geometry;
use ebcdic_names::Serial;

/// A pack that is to be made.
#[derive(Clone, Copy, Debug, PartialEq, Eq)]
pub struct NewPack {
    /// Its device, its cylinders, from 1 to the primary cylinders of the device, and the track size that is written for
    /// the device.
    pub geometry: Geometry,
    /// Its serial.
    pub serial: Serial,
    /// The number of tracks of its VTOC, from 1 to 100 and fewer than the pack has.
    pub vtoc: u16,
}

/// What the words ask for.
#[derive(Debug, Drop)]
pub enum Action<'a> {
    /// To run a deck over packs.
    Run {
        /// The date of the run: the year since 1900 and a day of 1 to 366, in two bytes.
        date: [u8; 3],
        /// The names of the packs' files, 1 to 8 and no two alike, in the order of the units.
        files: Vec<&'a str>,
    },
    /// To make a new pack.
    Init {
        /// The pack.
        pack: NewPack,
        /// The name of its file.
        file: &'a str,
    },
    /// To print the names of the data sets on a pack.
    Names {
        /// The name of the pack's file.
        file: &'a str,
    },
    /// To say whether a pack is settled.
    Check {
        /// The name of the pack's file.
        file: &'a str,
    },
}
