//! What is written to a data set.
use ebcdic_names::Dsn;
use vol_model::Mode;

// A writer that is open, or was abandoned while its writes are pending: the number of the volume and the name of the
// data set that it writes to, what for, the writer of the set's blocks, and whether an end-of-file block goes in front
// of what is put.
#[derive(Clone, Copy, Debug)]
pub(crate) struct Writer {
    pub(crate) v: u8,
    pub(crate) dsn: Dsn,
    pub(crate) mode: Mode,
    pub(crate) inner: seq_access::Writer,
    pub(crate) owes_end_of_file: bool,
    pub(crate) is_open: bool,
}
