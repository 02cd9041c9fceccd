//! Where an opening stops.
use vtoc_index::MountErr;

// Where an opening stopped, by the number of the unit, and why.
#[derive(Clone, Copy, Debug)]
pub(crate) struct OpenFailure {
    pub(crate) unit: u8,
    pub(crate) why: MountErr,
}
