//! Formats of records, and the rules that they follow.
ghost use Rattle.std.specs.Prelude.{◌≡◌, ◌≢◌, true};
ghost use Rattle.std.specs.Result.{result_err};
ghost use Rattle.record_blocks.specs.Formats.{base_of, is_blocked, has_s, has_bad_recfm, has_bad_lrecl, is_divided, has_bad_blksize, first_fault};

/// How the records of a data set lie in its blocks: RECFM, LRECL and BLKSIZE as its DSCB has them.
/// A and M, and S with F or FB, change nothing.
#[derive(Clone, Copy, Debug, PartialEq, Eq)]
pub struct Format {
    /// The RECFM byte: the two top bits are F (10), V (01) or U (11), X'10' is B and X'08' is S.
    pub recfm: u8,
    /// The length of each record with F, in bytes, and the greatest one with V, its descriptor of 4
    /// bytes counted.
    pub lrecl: u16,
    /// The greatest length of a block, in bytes, its descriptors counted.
    pub blksize: u16,
}

/// The first rule that a format breaks.
#[derive(Clone, Copy, Debug, PartialEq, Eq)]
pub enum FormatErr {
    /// Neither F nor V nor U, or U with B or S.
    BadRecfm,
    /// LRECL is 0 with F, or below 5 with V.
    BadLrecl,
    /// BLKSIZE is 0 or above 32,760, isn't LRECL with F or a multiple of it with FB, or is below
    /// LRECL + 4 with V and VB or below 9 with VS and VBS.
    BadBlksize,
}

// What the two top bits of RECFM say.
#[derive(Clone, Copy, Debug, PartialEq, Eq)]
pub(crate) enum Base {
    // Records of one length.
    Fixed,
    // Records that tell their length.
    Variable,
    // A block is a record.
    Undefined,
}

impl Format {
    pub(crate) fn base(&self) -> Base
        ensures { result ≡ base_of self.now }
    {
        match self.recfm & 0xC0 {
            0x80 => Base::Fixed,
            0x40 => Base::Variable,
            _ => Base::Undefined,
        }
    }

    pub(crate) fn is_blocked(&self) -> bool
        ensures { result ≡ is_blocked self.now }
    {
        self.recfm & 0x10 != 0
    }

    pub(crate) fn has_s(&self) -> bool
        ensures { result ≡ has_s self.now }
    {
        self.recfm & 0x08 != 0
    }

    fn has_bad_recfm(&self) -> bool
        ensures { result ≡ has_bad_recfm self.now }
    {
        match self.base() {
            Base::Undefined => {
                self.recfm & 0xC0 == 0 || self.recfm & 0x10 != 0 || self.recfm & 0x08 != 0
            }
            _ => false,
        }
    }

    fn has_bad_lrecl(&self) -> bool
        ensures { result ≡ has_bad_lrecl self.now }
    {
        match self.base() {
            Base::Fixed => self.lrecl == 0,
            Base::Variable => self.lrecl < 5,
            Base::Undefined => false,
        }
    }

    // Whether records of one length fill a block of the greatest length.
    fn is_divided(&self) -> bool
        requires { self.now.lrecl ≢ 0 }
        ensures { result ≡ is_divided self.now }
    {
        if self.is_blocked() {
            self.blksize % self.lrecl == 0
        } else {
            self.blksize == self.lrecl
        }
    }

    fn has_bad_blksize(&self) -> bool
        requires { has_bad_lrecl self.now ≢ true }
        ensures { result ≡ has_bad_blksize self.now }
    {
        if self.blksize == 0 || self.blksize > 32760 {
            return true;
        }
        match self.base() {
            Base::Fixed => !self.is_divided(),
            Base::Variable if self.has_s() => self.blksize < 9,
            Base::Variable => u32::from(self.blksize) < u32::from(self.lrecl) + 4,
            Base::Undefined => false,
        }
    }

    /// Tests the rules of a format, in the order of their errors.
    pub fn check(&self) -> Result<(), FormatErr>
        ensures { result_err result ≡ first_fault self.now }
    {
        if self.has_bad_recfm() {
            return Err(FormatErr::BadRecfm);
        }
        if self.has_bad_lrecl() {
            return Err(FormatErr::BadLrecl);
        }
        if self.has_bad_blksize() {
            return Err(FormatErr::BadBlksize);
        }
        Ok(())
    }
}
