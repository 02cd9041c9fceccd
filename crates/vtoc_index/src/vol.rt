//! The index of a volume's VTOC.
use ckd_image::Geometry;
use dscb_codec::Dscb;
use ebcdic_names::Serial;
use track_records::TrackBuf;
use vol_model::Run;

/// The index of a volume's VTOC: what its label and its slots say.
///
/// Slots are counted from 0 over the tracks of the VTOC, at most 65,535 of them. Label and DSCBs follow
/// System Control Blocks, GC28-6628.
#[derive(Debug, Drop)]
pub struct Vol {
    /// The unit on which the volume is mounted.
    pub unit: u8,
    /// The serial in its label.
    pub serial: Serial,
    /// Its device, cylinders and track size.
    pub geometry: Geometry,
    /// The tracks of the VTOC, 1 to 257, counted from 0 over the volume.
    pub vtoc: Run,
    /// The DSCB in each slot.
    pub slots: Vec<Dscb>,
    /// The number of the first slot on each track of the VTOC; on a track without slots, that of the
    /// next slot.
    pub firsts: Vec<u32>,
    /// The maximal runs of free tracks, in ascending order, counted from 0 over the volume.
    pub free: Vec<Run>,
    /// The slots of the data sets, in the order of the 44 bytes of their names.
    pub by_name: Vec<u32>,
    /// The track that was read or written last.
    pub buf: TrackBuf,
}
