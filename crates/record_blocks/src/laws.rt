//! What the definitions of reading, joining and packing mean, and that what is packed is read back.
ghost use Rattle.record_blocks.specs.Laws.{ReadingIsExact, FaultsAreFirst, JoiningIsExact, PackingIsCut, SpannedPackingIsLayout, PackingIsReadBack};

/// What is read of a block without a fault are the records or segments that it holds. So a fault is
/// read exactly where it holds no list of them.
pub fn reading_law()
    ensures { ReadingIsExact }
{}

/// A fault stands where the first record or segment is wrong or may not stand, or at 0 where the
/// block's own descriptor is wrong.
pub fn fault_law()
    ensures { FaultsAreFirst }
{}

/// What is joined of segments without a fault are the records that they fall into, and a fault is
/// met exactly where they fall into none.
pub fn joining_law()
    ensures { JoiningIsExact }
{}

/// The blocks of records in formats other than VS and VBS are those of their cut: each block fits,
/// and none could also take the next one's first record. There is no other cut.
pub fn packing_law()
    ensures { PackingIsCut }
{}

/// The blocks of records in VS and VBS are those of the one layout in which an empty record is a
/// segment of code 0, each other segment has a byte, each segment that isn't its record's last
/// fills its block, VS has one segment a block, and in VBS no block but the last has room for the
/// next segment.
pub fn spanned_packing_law()
    ensures { SpannedPackingIsLayout }
{}

/// What is packed is read back: no block has a fault, and the records that are read, and joined
/// with VS and VBS, are those that were packed, filled with blanks up to LRECL with F.
pub fn read_back_law()
    ensures { PackingIsReadBack }
{}
