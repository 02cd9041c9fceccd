//! Decks of a few bytes, with their cards or their first fault.
use super::{Card, DeckErr, read_deck};
use hall_core::MemCards;
use std::alloc::{AllocError, Global};
use std::test::Fail;

// The cards of a deck of these bytes; the call of the source with this number fails.
fn deck_of(
    alloc: Global,
    bytes: &[u8],
    fails: u64,
) -> Result<Result<Vec<Card>, DeckErr>, AllocError> {
    let mut cards = MemCards::new(bytes.to_vec(alloc)?, [fails].to_vec(alloc)?);
    Ok(read_deck(alloc, &mut cards))
}

// A hundred thousand bytes: printable characters, line feeds, and now and then a carriage return.
fn noise(alloc: Global) -> Result<Vec<u8>, AllocError> {
    let mut bytes = Vec::new(alloc);
    let mut state: u32 = 74_123;
    for _ in 0..100_000 {
        state = state.wrapping_mul(1_664_525).wrapping_add(1_013_904_223);
        let byte = match state >> 24 {
            0..=7 => b'\n',
            8 => b'\r',
            other => 32 + (other % 95) as u8,
        };
        bytes.push(byte)?;
    }
    Ok(bytes)
}

// Bytes, and the number of their cards or their fault.
type Case = (&'static [u8], Result<usize, DeckErr>);

const CASES: [Case; 12] = [
    (b"", Ok(0)),
    (b"\n", Ok(1)),
    (b"A\n\nB", Ok(3)),
    (b"A\r\n", Ok(1)),
    (b"A\r", Err(DeckErr::Byte { card: 1, column: 2 })),
    (b"A\r\r\n", Err(DeckErr::Byte { card: 1, column: 2 })),
    (b"A\nB\rC\n", Err(DeckErr::Byte { card: 2, column: 2 })),
    (b"A\n\x1F", Err(DeckErr::Byte { card: 2, column: 1 })),
    (b"A~\x7F", Err(DeckErr::Byte { card: 1, column: 3 })),
    // Eighty columns, and eighty before a carriage return and a line feed.
    (
        b"1234567890123456789012345678901234567890123456789012345678901234567890123456789 \n",
        Ok(1),
    ),
    (
        b"1234567890123456789012345678901234567890123456789012345678901234567890123456789 \r\n",
        Ok(1),
    ),
    (
        b"12345678901234567890123456789012345678901234567890123456789012345678901234567890\r",
        Err(DeckErr::Wide { card: 1 }),
    ),
];

#[test]
fn decks_and_their_first_faults(rt: HostRuntime) -> Result<(), Fail> {
    let alloc = rt.alloc();
    for (bytes, answer) in CASES {
        let cards = deck_of(alloc, bytes, 9)?;
        assert_eq!(rt; cards.map(|cards| cards.len()), answer);
    }
    // More bytes than one read takes: 100,000 cards, and a line too many.
    let mut bytes = vec![in alloc; b'\n'; 100_000]?;
    let cards = deck_of(alloc, &bytes, 99)?.map(|cards| cards.len());
    assert_eq!(rt; cards, Ok(100_000));
    bytes.push(b'\x00')?;
    let cards = deck_of(alloc, &bytes, 99)?.map(|cards| cards.len());
    assert_eq!(rt; cards, Err(DeckErr::Long));
    // The second read fails.
    let cards = deck_of(alloc, b"A\n", 1)?.map(|cards| cards.len());
    assert_eq!(rt; cards, Err(DeckErr::Read));
    // Noise: no bytes are a fault of the source.
    for deck in noise(alloc)?.chunks(100) {
        let cards = deck_of(alloc, deck, 99)?;
        assert!(rt; !matches!(cards, Err(DeckErr::Read | DeckErr::Memory)));
    }
    Ok(())
}
