//! The devices whose packs are read.
ghost use Rattle.std.specs.Prelude.{◌≡◌};
ghost use Rattle.ckd_image.specs.Device.{row_of, device_of};
ghost use Rattle.ckd_image.specs.Fit.{IsMost};

/// A disk drive of System/360 and its packs.
#[derive(Clone, Copy, Debug, PartialEq, Eq)]
pub enum DiskType {
    /// IBM 2311, ten heads.
    D2311,
    /// IBM 2314, twenty heads.
    D2314,
    /// IBM 3330 model 1, nineteen heads.
    D3330,
    /// IBM 3350, thirty heads.
    D3350,
}

impl DiskType {
    /// The device that a type byte names, as the header of a Hercules CKD image has it.
    pub fn from_type_byte(type_byte: u8) -> Option<DiskType>
        ensures { result ≡ device_of type_byte }
    {
        match type_byte {
            0x11 => Some(DiskType::D2311),
            0x14 => Some(DiskType::D2314),
            0x30 => Some(DiskType::D3330),
            0x50 => Some(DiskType::D3350),
            _ => None,
        }
    }

    /// The number of heads, which is the number of tracks of a cylinder.
    pub fn heads(self) -> u16
        ensures { result ≡ (row_of self).heads }
    {
        match self {
            DiskType::D2311 => 10,
            DiskType::D2314 => 20,
            DiskType::D3330 => 19,
            DiskType::D3350 => 30,
        }
    }

    /// The most cylinders that an image of the device has, alternate cylinders among them.
    pub fn most_cylinders(self) -> u16
        ensures { result ≡ (row_of self).most_cylinders }
    {
        match self {
            DiskType::D2311 | DiskType::D2314 => 203,
            DiskType::D3330 => 411,
            DiskType::D3350 => 560,
        }
    }

    /// The bytes of key and data of the largest R1 that a track of the device holds.
    pub fn largest_record(self) -> u16
        ensures { result ≡ (row_of self).largest_record }
    {
        match self {
            DiskType::D2311 => 3625,
            DiskType::D2314 => 7294,
            DiskType::D3330 => 13030,
            DiskType::D3350 => 19069,
        }
    }

    /// The byte that names the device in the header of a Hercules CKD image.
    pub fn type_byte(self) -> u8
        ensures { result ≡ (row_of self).type_byte }
    {
        match self {
            DiskType::D2311 => 0x11,
            DiskType::D2314 => 0x14,
            DiskType::D3330 => 0x30,
            DiskType::D3350 => 0x50,
        }
    }

    /// The number of cylinders of a pack without its alternate cylinders, in this project's profile.
    pub fn primary_cylinders(self) -> u16
        ensures { result ≡ (row_of self).primary_cylinders }
    {
        match self {
            DiskType::D2311 | DiskType::D2314 => 200,
            DiskType::D3330 => 404,
            DiskType::D3350 => 555,
        }
    }

    /// The bytes of a track that its records after R0 share, each at its cost.
    ///
    /// This and the numbers up to the tolerance stand in fields of a format 4 DSCB (System Control Blocks,
    /// GC28-6628); their values are those of this project's profile.
    pub fn track_capacity(self) -> u16
        ensures { result ≡ (row_of self).track_capacity }
    {
        match self {
            DiskType::D2311 => 3625,
            DiskType::D2314 => 7294,
            DiskType::D3330 => 13165,
            DiskType::D3350 => 19254,
        }
    }

    /// The bytes that a record with a key costs beside its key and data where it isn't the last of its
    /// track: I of a format 4 DSCB.
    pub fn overhead(self) -> u16
        ensures { result ≡ (row_of self).overhead }
    {
        match self {
            DiskType::D2311 => 81,
            DiskType::D2314 => 146,
            DiskType::D3330 => 191,
            DiskType::D3350 => 267,
        }
    }

    /// The bytes that a record with a key costs beside its key and data where it is the last of its
    /// track: L of a format 4 DSCB.
    pub fn last_overhead(self) -> u16
        ensures { result ≡ (row_of self).last_overhead }
    {
        match self {
            DiskType::D2311 => 20,
            DiskType::D2314 => 45,
            DiskType::D3330 => 191,
            DiskType::D3350 => 267,
        }
    }

    /// The bytes by which a record without a key costs less: K of a format 4 DSCB.
    pub fn key_overhead(self) -> u16
        ensures { result ≡ (row_of self).key_overhead }
    {
        match self {
            DiskType::D2311 => 20,
            DiskType::D2314 => 45,
            DiskType::D3330 => 56,
            DiskType::D3350 => 82,
        }
    }

    /// What each byte of key and data costs in a record that isn't the last of its track, in 512ths of a
    /// byte: the tolerance of a format 4 DSCB.
    pub fn tolerance(self) -> u16
        ensures { result ≡ (row_of self).tolerance }
    {
        match self {
            DiskType::D2311 => 537,
            DiskType::D2314 => 534,
            DiskType::D3330 => 512,
            DiskType::D3350 => 512,
        }
    }

    /// The number of DSCBs, with keys of 44 bytes and data of 96, on a track of a VTOC: the most that fit.
    pub fn dscbs_per_track(self) -> u8
        ensures table { result ≡ (row_of self).dscbs_per_track }
        ensures most { IsMost self 44 96 result }
    {
        match self {
            DiskType::D2311 => 16,
            DiskType::D2314 => 25,
            DiskType::D3330 => 39,
            DiskType::D3350 => 47,
        }
    }

    /// The number of blocks, with keys of 8 bytes and data of 256, on a track of a partitioned data
    /// set's directory: the most that fit.
    pub fn directory_blocks_per_track(self) -> u8
        ensures table { result ≡ (row_of self).directory_blocks_per_track }
        ensures most { IsMost self 8 256 result }
    {
        match self {
            DiskType::D2311 => 10,
            DiskType::D2314 => 17,
            DiskType::D3330 => 28,
            DiskType::D3350 => 36,
        }
    }

    /// The bytes that a track takes in a new image, which is this project's choice for the device.
    pub fn written_track_size(self) -> u32
        ensures { result ≡ (row_of self).written_track_size }
    {
        match self {
            DiskType::D2311 => 4096,
            DiskType::D2314 => 7680,
            DiskType::D3330 => 13312,
            DiskType::D3350 => 19456,
        }
    }

    /// The device code (UCBTYP) in the volume entries of a catalog.
    pub fn device_code(self) -> u32
        ensures { result ≡ (row_of self).device_code }
    {
        match self {
            DiskType::D2311 => 0x3000_2001,
            DiskType::D2314 => 0x30C0_2008,
            DiskType::D3330 => 0x3050_2009,
            DiskType::D3350 => 0x3050_200B,
        }
    }

    /// The device's name on a card and in a listing, which is its number, four digits.
    pub fn device_word(self) -> &'static str
        ensures { result.now ≡ (row_of self).device_word }
    {
        match self {
            DiskType::D2311 => "2311",
            DiskType::D2314 => "2314",
            DiskType::D3330 => "3330",
            DiskType::D3350 => "3350",
        }
    }
}
