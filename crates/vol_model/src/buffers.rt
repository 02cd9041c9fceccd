//! Room for one block.
ghost use Rattle.std.specs.Prelude.{◌≡◌, ◌≤◌, [], length, vec_capacity, IfOk};

use crate::contents::Place;
use std::alloc::{AllocError, Global};
use std::marker::Model;

// The most bytes of a key, and of data.
const KEY_ROOM: usize = 255;

const PAYLOAD_ROOM: usize = 32_760;

/// A block with room for any, which contracts see as a block.
#[derive(Debug, Drop)]
pub struct BlockBuf {
    place: Place,
    key: Vec<u8>,
    payload: Vec<u8>,
}

impl Model for BlockBuf {
    ghost use Rattle.std.specs.Prelude.{◌≤◌, vec_capacity};
    ghost use Rattle.vol_model.specs.declared.contents.Block.{Block};

    ghost Value = { Block };

    ghost view = { λ b. record { place = b.place; key = b.key.items; payload = b.payload.items } };

    ghost invariant = { λ b. (255 ≤ vec_capacity b.key) × (32760 ≤ vec_capacity b.payload) };
}

impl BlockBuf {
    /// A blank block: one without key and data.
    pub fn new(alloc: Global) -> Result<BlockBuf, AllocError>
        ensures key { IfOk result (λ b. b.key ≡ []) }
        ensures payload { IfOk result (λ b. b.payload ≡ []) }
    {
        Ok(BlockBuf {
            place: Place { tt: 0, r: 0 },
            key: Vec::with_capacity(alloc, KEY_ROOM)?,
            payload: Vec::with_capacity(alloc, PAYLOAD_ROOM)?,
        })
    }

    /// Makes it this block, in the room that it has.
    pub fn set(&mut self, place: Place, key: &[u8], payload: &[u8])
        requires key { length key.now ≤ 255 }
        requires payload { length payload.now ≤ 32760 }
        ensures { self.new ≡ record { place = place; key = key.now; payload = payload.now } }
    {
        self.place = place;
        refill(&mut self.key, key);
        refill(&mut self.payload, payload);
    }

    /// Makes it blank.
    pub fn clear(&mut self)
        ensures key { self.new.key ≡ [] }
        ensures payload { self.new.payload ≡ [] }
    {
        self.key.clear();
        self.payload.clear();
    }

    /// Where it stands.
    pub fn place(&self) -> Place
        ensures { result ≡ self.now.place }
    {
        self.place
    }

    /// Its key.
    pub fn key(&self) -> &[u8]
        ensures { result.now ≡ self.now.key }
    {
        self.key.as_slice()
    }

    /// Its data.
    pub fn payload(&self) -> &[u8]
        ensures { result.now ≡ self.now.payload }
    {
        self.payload.as_slice()
    }
}

// Puts these bytes in the place of those that a vector holds, in the room that it has.
fn refill(held: &mut Vec<u8>, bytes: &[u8])
    requires room { length bytes.now ≤ vec_capacity held.old }
    ensures items { held.new.items ≡ bytes.now }
    ensures capacity { vec_capacity held.old ≤ vec_capacity held.new }
{
    held.clear();
    held.extend_from_slice(bytes).unwrap();
}
