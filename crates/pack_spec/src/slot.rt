//! The slots of a VTOC.

use dscb_codec::{Dscb, DscbErr};

/// A slot of a VTOC: where it stands, and what decoding its 140 bytes gives.
#[derive(Clone, Copy, Debug, PartialEq, Eq)]
pub struct VtocSlot {
    /// The address CCHHR of its record: cylinder and head, two bytes each with the high one first, and record.
    pub address: [u8; 5],
    /// The DSCB in it, or why there is none.
    pub content: Result<Dscb, DscbErr>,
}
