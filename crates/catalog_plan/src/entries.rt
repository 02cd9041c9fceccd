//! What the entries of a chain stand for.
ghost use Rattle.std.specs.Prelude.{◌≡◌, ◌+◌, ◌*◌, ◌-◌, ◌/◌, ◌≤◌, IfOk, length, map, slice_range};
ghost use Rattle.std.specs.List.{range_with_len};
ghost use Rattle.catalog_blocks.specs.Trees.{are_volumes, is_group, is_group_data, is_root, is_true_name, name_in, node_in, vol_in, vols_in};

use crate::generations::stored_generation;
use catalog_blocks::{CatEntry, Level};
use ebcdic_names::{Name8, Serial};
use std::alloc::{AllocError, Global};
use vol_model::{CatNode, Text, VolRef, VolRefs};

// Whether a chain is the root.
pub(crate) fn is_root(level: Level) -> bool
    ensures { result ≡ is_root level }
{
    matches!(level, Level::Root)
}

// Whether a chain holds the generations of a group.
pub(crate) fn is_group(level: Level) -> bool
    ensures { result ≡ is_group level }
{
    matches!(level, Level::Generation)
}

// Whether these are the data of a group's entry.
fn is_group_data(payload: &[u8]) -> bool
    ensures { result ≡ is_group_data payload.now }
{
    payload.len() == 4 && payload[0] < 4
}

// Whether these are the data of a data set's entry.
fn are_volumes(payload: &[u8]) -> bool
    ensures { result ≡ are_volumes payload.now }
{
    14 <= payload.len()
        && (payload.len() <= 62
            && ((payload.len() - 2) % 12 == 0 && (payload[0] == 0 && payload[1] == 0)))
}

// Whether these bytes are a name that can stand in the catalog.
fn is_true_name(name: &[u8]) -> bool
    ensures { result ≡ is_true_name name.now }
{
    if name.len() != 8 {
        return false;
    }
    let number = u64::from_be_bytes(name_of(name).bytes);
    1 < number && number < u64::MAX
}

// The name of these eight bytes.
fn name_of(bytes: &[u8]) -> Name8
    requires { length bytes.now ≡ 8 }
    ensures { result ≡ record { bytes = bytes.now } }
{
    let mut name = [0; 8];
    name.copy_from_slice(bytes);
    Name8 { bytes: name }
}

// A volume on which a data set stands, from its twelve bytes.
fn vol_in(bytes: &[u8]) -> VolRef
    requires { length bytes.now ≡ 12 }
    ensures { result ≡ vol_in bytes.now }
{
    let mut serial = [0; 6];
    serial.copy_from_slice(&bytes[4..10]);
    VolRef {
        code: u32::from_be_bytes([bytes[0], bytes[1], bytes[2], bytes[3]]),
        serial: Serial { bytes: serial },
        seq: u16::from_be_bytes([bytes[10], bytes[11]]),
    }
}

// The volumes in the data of a data set's entry.
fn vols_in(alloc: Global, payload: &[u8]) -> Result<VolRefs, AllocError>
    requires { 2 ≤ length payload.now }
    ensures { IfOk result (λ vols. vols ≡ vols_in payload.now) }
{
    let mut vols = VolRefs::new(alloc);
    for k in 0..(payload.len() - 2) / 12 {
        vols.push(vol_in(&payload[2 + 12 * k..14 + 12 * k]))?;
    }
    Ok(vols)
}

/// The node that an entry of a chain stands for. The error comes if memory runs out.
#[tactic(auto, unfolding(catalog_blocks::specs::Trees::node_in))]
pub(crate) fn node_in(alloc: Global, level: Level, entry: &CatEntry) -> Result<CatNode, AllocError>
    ensures { IfOk result (λ node. node ≡ node_in level entry.now) }
{
    let payload = entry.payload.as_slice();
    if !is_group(level) && payload.len() == 0 {
        return Ok(CatNode::Index);
    }
    if !is_group(level) && is_group_data(payload) {
        return Ok(CatNode::Group {
            limit: payload[1],
            empty: 2 <= payload[0],
            delete: payload[0] % 2 == 1,
        });
    }
    if is_root(level) && is_true_name(payload) {
        return Ok(CatNode::Alias {
            of: name_of(payload),
        });
    }
    if are_volumes(payload) {
        return Ok(CatNode::Set {
            vols: vols_in(alloc, payload)?,
        });
    }
    Ok(CatNode::Other {
        place: entry.place,
        payload: Text::from_vec(Vec::from_slice(alloc, payload)?),
    })
}

/// The name that an entry of a chain stands for.
pub fn name_in(level: Level, name: Name8) -> Name8
    ensures { result ≡ name_in level name }
{
    if is_group(level) {
        Name8 {
            bytes: stored_generation(name.bytes),
        }
    } else {
        name
    }
}
