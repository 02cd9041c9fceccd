// Blocks with bytes worked out by hand, both ways, and where a block breaks its form.

use crate::{BadBlock, decode_block, encode_block};
use std::alloc::{AllocError, Global};
use vol_model::Place;

/// A block whose first bytes are these, the others zeros.
fn block(front: &[u8]) -> [u8; 256] {
    let mut bytes = [0; 256];
    for (at, byte) in front.iter().enumerate() {
        if at < 256 {
            bytes[at] = *byte;
        }
    }
    bytes
}

/// The first block of a new catalog: its control entry, and the link entry of the last block.
const NEW: [u8; 36] = [
    0, 36, 0, 0, 0, 0, 0, 0, 0, 1, 0, 0, 0, 5, 0, 0, 0, 0, 0, 0, 0, 0, 0, 0, 0xFF, 0xFF, 0xFF,
    0xFF, 0xFF, 0xFF, 0xFF, 0xFF, 0, 0, 0, 0,
];

/// A block of an index: its control entry, the set PAY on the 2314 volume WORK01, and a link to the third
/// block of the track after the first.
const PAY: [u8; 58] = [
    0, 58, 0, 0, 0, 0, 0, 0, 0, 1, 0, 0, 0, 3, 0, 0, 0, 0, 0, 0, 0xD7, 0xC1, 0xE8, 0x40, 0x40,
    0x40, 0x40, 0x40, 0, 0, 0, 7, 0, 0, 0x30, 0xC0, 0x20, 0x08, 0xE6, 0xD6, 0xD9, 0xD2, 0xF0, 0xF1,
    0, 0, 0xFF, 0xFF, 0xFF, 0xFF, 0xFF, 0xFF, 0xFF, 0xFF, 0, 1, 3, 0,
];

fn fault(alloc: Global, bytes: &[u8; 256]) -> Option<BadBlock> {
    match decode_block(alloc, bytes) {
        Ok(_block) => None,
        Err(bad) => Some(bad),
    }
}

#[test]
fn blocks_both_ways(rt: HostRuntime) -> Result<(), AllocError> {
    let alloc = rt.alloc();
    let Ok(new) = decode_block(alloc, &block(&NEW)) else {
        return Err(AllocError);
    };
    assert_eq!(rt; new.entries.len(), 1, "the control entry alone");
    assert_eq!(rt; new.next, Place { tt: 0, r: 0 }, "no next block");
    assert!(rt; encode_block(&new) == block(&NEW), "the same bytes");
    let Ok(pay) = decode_block(alloc, &block(&PAY)) else {
        return Err(AllocError);
    };
    assert_eq!(rt; pay.entries.len(), 2, "the control entry and the data set");
    assert_eq!(rt; pay.next, Place { tt: 1, r: 3 }, "the next block");
    assert!(rt; encode_block(&pay) == block(&PAY), "the same bytes");
    // A block of zeros, one whose last used byte is cut off, one with a byte more, and one without a link.
    assert_eq!(rt;
        fault(alloc, &[0; 256]),
        Some(BadBlock::At(0)),
        "no used bytes"
    );
    let mut bytes = block(&NEW);
    bytes[1] = 35;
    assert_eq!(rt;
        fault(alloc, &bytes),
        Some(BadBlock::At(24)),
        "the link entry leaves them"
    );
    bytes[1] = 37;
    assert_eq!(rt;
        fault(alloc, &bytes),
        Some(BadBlock::At(24)),
        "a byte after the link entry"
    );
    bytes[1] = 24;
    assert_eq!(rt;
        fault(alloc, &bytes),
        Some(BadBlock::At(24)),
        "no link entry"
    );
    Ok(())
}
