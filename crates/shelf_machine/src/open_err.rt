//! Why a machine isn't opened.
use vtoc_index::MountErr;

/// Where the opening of a machine stopped, and why; it hands the hall back.
///
/// For a refusal that is the first unit whose pack doesn't mount, or else the lowest one whose serial an earlier one
/// has. After `Memory` or `Device` it says nothing of the packs.
#[derive(Drop)]
pub struct OpenErr<H> {
    /// The hall, as the opening left it.
    pub hall: H,
    /// The unit, counted from 0.
    pub unit: u8,
    /// The reason.
    pub why: MountErr,
}
