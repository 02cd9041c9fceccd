//! What is known of the bodies on a pack.
use crate::unread::Unread;
use mount_repair::Library;
use seq_access::ReadBuf;

/// The sequential and partitioned data sets of a pack whose bodies can't be read, the track of one that was read last, and
/// the directories that were read.
#[derive(Drop)]
pub struct PackCache {
    /// The data sets whose bodies can't be read.
    pub unread: Vec<Unread>,
    /// The buffer of reads, with the track that was read last.
    pub buf: ReadBuf,
    /// The directories that were read, in the order of their reading.
    pub libraries: Vec<Library>,
}
