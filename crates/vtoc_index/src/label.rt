//! The volume label.
ghost use Rattle.std.specs.Prelude.{◌≡◌, ◌<◌, ◌≤◌, ◌-◌, length, IsTrue, IfOk, IfErr, IfSome, IsErrOf, slice_range, None};
ghost use Rattle.std.specs.Option.{option_copied};
ghost use Rattle.ckd_image.specs.Header.{HasGeometry};
ghost use Rattle.hall_core.specs.Facts.{unit_of};
ghost use Rattle.hall_core.specs.Images.{image_in};
ghost use Rattle.stop_model.specs.Moments.{Same};
ghost use Rattle.pack_spec.specs.Label.{address_at, are_label, is_keyed, label_in, label_of};
ghost use Rattle.pack_spec.specs.Volume.{volume_within};
ghost use Rattle.pack_spec.specs.Vtoc.{vtoc_of};
ghost use Rattle.vtoc_index.specs.Calls.{MountCall};
ghost use Rattle.vtoc_index.specs.Reading.{IsLabel, Refuses, record_number};

use ebcdic_names::Serial;
use hall_core::Hall;
use pack_spec::layout::{
    IPL1, IPL1_LEN, IPL2, IPL2_LEN, LABEL_LEN, LABEL_RECORD, SERIAL_AT, VOL1, VTOC_ADDRESS_AT,
};
use pack_spec::{Address, MountErr};
use track_records::{TrackBuf, TrackErr, read_records};

// The track of the label.
const LABEL_TRACK: u16 = 0;

// What the label says of the volume.
#[derive(Clone, Copy)]
pub(crate) struct Label {
    // The volume's serial.
    pub serial: Serial,
    // Where its VTOC begins.
    pub vtoc: Address,
}

// Reads the track of the label, up to it: what it says. One read.
pub(crate) fn read_label<H: Hall>(
    hall: &mut H,
    unit: u8,
    buf: &mut TrackBuf,
) -> Result<Label, MountErr>
    requires attached { unit < length (H.facts hall.old).units }
    requires whole { HasGeometry (unit_of (H.facts hall.old).units unit).size buf.old.geometry }
    ensures label { let image = image_in (H.meaning hall.old) (H.facts hall.old) unit in
        IsTrue H.tells → IfOk result (IsLabel (label_of image buf.old.geometry)) }
    ensures refused { let image = image_in (H.meaning hall.old) (H.facts hall.old) unit in
        IsTrue H.tells → IfErr result (Refuses
        (volume_within image buf.old.geometry (vtoc_of image buf.old.geometry))) }
    ensures geometry { buf.new.geometry ≡ buf.old.geometry }
    ensures files { IsTrue H.tells → Same (H.meaning hall.old) (H.meaning hall.new) }
    ensures faults { MountCall (H.facts hall.old) (H.facts hall.new) result }
    ensures file { IsErrOf result MountErr.NoFile → ⊥ }
{
    match read_records(hall, unit, LABEL_TRACK, Some(LABEL_RECORD), buf) {
        Ok(_) => label_held(buf),
        Err(TrackErr::BadCount { .. }) => Err(MountErr::NoLabel),
        Err(TrackErr::Device) => Err(MountErr::Device),
    }
}

// What the label says, where the buffer holds its track up to it.
fn label_held(buf: &TrackBuf) -> Result<Label, MountErr>
    ensures label { IfOk result (IsLabel (label_in buf.now.records)) }
    ensures refused { IfErr result (λ e. (e ≡ MountErr.NoLabel) × (label_in buf.now.records ≡ None)) }
{
    match label_data(buf) {
        Some(label) => Ok(label_of(label)),
        None => Err(MountErr::NoLabel),
    }
}

// The data of the label, where the buffer holds the first three records of a pack.
fn label_data(buf: &TrackBuf) -> Option<&[u8]>
    ensures exact { option_copied result ≡ label_in buf.now.records }
    ensures len { IfSome result (λ label. length label.now ≡ 80) }
{
    if buf.len() != usize::from(LABEL_RECORD) {
        return None;
    }
    if !are_label(buf) {
        return None;
    }
    Some(data_held(buf, LABEL_RECORD))
}

// Whether the three records are those of the initial program and the label.
fn are_label(buf: &TrackBuf) -> bool
    requires { length buf.now.records ≡ 3 }
    ensures test { result ≡ are_label (record_number buf.now.records 0)
        (record_number buf.now.records 1) (record_number buf.now.records 2) }
    ensures len { IsTrue result → length (record_number buf.now.records 2).data ≡ 80 }
{
    is_keyed(buf, 1, IPL1, IPL1_LEN)
        && is_keyed(buf, 2, IPL2, IPL2_LEN)
        && is_keyed(buf, LABEL_RECORD, VOL1, LABEL_LEN)
        && data_held(buf, LABEL_RECORD).starts_with(VOL1)
}

// Whether Rr has this key, and so many bytes of data.
fn is_keyed(buf: &TrackBuf, r: u8, key: &[u8], len: usize) -> bool
    requires first { 1 ≤ r }
    requires last { r ≤ length buf.now.records }
    ensures { result ≡ is_keyed key.now len (record_number buf.now.records (r - 1)) }
{
    key_held(buf, r) == key && data_held(buf, r).len() == len
}

// The key of Rr.
#[tactic(auto, using(crate::proofs::Labels::key_there))]
fn key_held(buf: &TrackBuf, r: u8) -> &[u8]
    requires first { 1 ≤ r }
    requires last { r ≤ length buf.now.records }
    ensures { (record_number buf.now.records (r - 1)).key ≡ result.now }
{
    buf.key(r)
}

// The data of Rr.
#[tactic(auto, using(crate::proofs::Labels::data_there))]
fn data_held(buf: &TrackBuf, r: u8) -> &[u8]
    requires first { 1 ≤ r }
    requires last { r ≤ length buf.now.records }
    ensures { (record_number buf.now.records (r - 1)).data ≡ result.now }
{
    buf.data(r)
}

// What these data of a label say.
fn label_of(label: &[u8]) -> Label
    requires { length label.now ≡ 80 }
    ensures serial { result.serial.bytes ≡ slice_range label.now 4 10 }
    ensures vtoc { result.vtoc ≡ address_at 11 label.now }
{
    let mut bytes = [0; 6];
    bytes.copy_from_slice(&label[SERIAL_AT..SERIAL_AT + 6]);
    Label {
        serial: Serial { bytes },
        vtoc: Address::read(label, VTOC_ADDRESS_AT),
    }
}
