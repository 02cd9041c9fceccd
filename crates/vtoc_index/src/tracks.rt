//! The slots of the tracks of a VTOC.
ghost use Rattle.std.specs.Prelude.{◌≡◌, ◌⊎◌, ℕ, ◌≤◌, ◌<◌, ◌+◌, ◌++◌, List, [], ◌∷◌, length, take, drop, IsTrue, OnOk, OnErr, IfOk, IfErr, None};
ghost use Rattle.dscb_codec.specs.Layout.{decoded};
ghost use Rattle.pack_spec.specs.Slots.{record_address, slots_in};
ghost use Rattle.vtoc_index.specs.Reading.{Adds};

use crate::vtoc_extent::slot_held;
use ckd_image::Geometry;
use dscb_codec::decode;
use pack_spec::layout::Slot;
use pack_spec::{MountErr, VtocSlot, record_address};
use std::alloc::Global;
use track_records::TrackBuf;

// What is read of a VTOC so far.
#[derive(Drop)]
pub(crate) struct ReadSlots {
    // The slots on the tracks that were read.
    pub slots: Vec<VtocSlot>,
    // The number of the first slot of each of these tracks.
    pub firsts: Vec<u32>,
}

impl ReadSlots {
    // Nothing yet.
    pub(crate) fn new(alloc: Global) -> ReadSlots
        ensures slots { result.slots.items ≡ [] }
        ensures firsts { result.firsts.items ≡ [] }
    {
        ReadSlots {
            slots: Vec::new(alloc),
            firsts: Vec::new(alloc),
        }
    }

    // Adds the slots of a track, so many, where the buffer holds its records.
    //
    // After an error some may have been added.
    pub(crate) fn add(
        &mut self,
        geometry: Geometry,
        track: u16,
        buf: &TrackBuf,
        count: u8,
    ) -> Result<(), MountErr>
        requires count { length buf.now.records ≡ count }
        requires few { length self.old.slots.items ≤ 65280 }
        ensures firsts { OnOk result (self.new.firsts.items
            ≡ self.old.firsts.items ++ length self.old.slots.items ∷ []) }
        ensures slots { OnOk result (Adds geometry track buf.now.records self.old.slots.items
            self.new.slots.items) }
        ensures few { OnOk result ((more : ℕ) × (more ≤ 255)
            × (length self.new.slots.items ≡ length self.old.slots.items + more)) }
        ensures refused { IfErr result (λ e. (e ≡ MountErr.Memory)
            ⊎ ((e ≡ MountErr.VtocTrack track) × (slots_in geometry track buf.now.records ≡ None))) }
    {
        let first = self.slots.len() as u32;
        let Ok(()) = self.firsts.push(first) else {
            return Err(MountErr::Memory);
        };
        push_slots(&mut self.slots, geometry, track, buf, count)
    }
}

// Puts the slots of a track, so many, after others, where the buffer holds its records.
fn push_slots(
    slots: &mut Vec<VtocSlot>,
    geometry: Geometry,
    track: u16,
    buf: &TrackBuf,
    count: u8,
) -> Result<(), MountErr>
    requires { length buf.now.records ≡ count }
    ensures added { OnOk result (Adds geometry track buf.now.records slots.old.items
        slots.new.items) }
    ensures refused { IfErr result (λ e. (e ≡ MountErr.Memory)
        ⊎ ((e ≡ MountErr.VtocTrack track) × (slots_in geometry track buf.now.records ≡ None))) }
{
    for passed in 0..count {
        let Some(bytes) = slot_held(buf, passed + 1) else {
            return Err(MountErr::VtocTrack { track });
        };
        let address = record_address(geometry, track, passed + 1);
        let Ok(()) = slots.push(slot_read(address, &bytes)) else {
            return Err(MountErr::Memory);
        };
    }
    Ok(())
}

// The slot of these bytes.
fn slot_read(address: [u8; 5], bytes: &Slot) -> VtocSlot
    ensures { result ≡ record { address = address; content = decoded bytes.now } }
{
    VtocSlot {
        address,
        content: decode(bytes),
    }
}
