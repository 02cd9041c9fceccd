// A table of changes of chains of small entries: the writes of their plans, and what is kept.

ghost use Rattle.std.specs.Prelude.{◌+◌, min};
ghost use Rattle.std.proofs.Common.{arith};

use crate::{ChainEntry, Plan, kept, plan};
use chain_spec::{cut_law, reading_law};
use std::alloc::{AllocError, Global};

/// An entry named by a letter, with up to 230 bytes of user data.
#[derive(Drop)]
struct Entry {
    letter: u8,
    user: u8,
}

impl ChainEntry for Entry {
    ghost name = { λ e. e.letter };

    ghost bytes = { λ e. 12 + min e.user 230 };

    fn size(&self) -> u16 {
        12 + u16::from(self.user.min(230))
    }

    fn before(&self, other: &Self) -> bool {
        self.letter < other.letter
    }

    fn copy(&self, _alloc: Global) -> Result<Self, AllocError> {
        Ok(Entry {
            letter: self.letter,
            user: self.user,
        })
    }

    ghost sizes = { λ e. (Prim.omega arith, Prim.omega arith) };
}

fn entries(alloc: Global, letters: &str, user: u8) -> Result<Vec<Entry>, AllocError> {
    let mut all = Vec::new(alloc);
    for letter in letters.bytes() {
        all.push(Entry { letter, user })?;
    }
    Ok(all)
}

fn blocks(alloc: Global, letters: &str, user: u8) -> Result<Vec<Vec<Entry>>, AllocError> {
    let mut all = Vec::new(alloc);
    for block in letters.split('/') {
        all.push(entries(alloc, block, user)?)?;
    }
    Ok(all)
}

/// The number of blocks, then each write with its place: `2 1FG 0ABCD`.
fn text_of(alloc: Global, made: &Plan<Entry>) -> Result<Vec<u8>, AllocError> {
    let mut text = Vec::new(alloc);
    text.push(b'0' + (made.blocks % 10) as u8)?;
    for (place, block) in &made.writes {
        text.push(b' ')?;
        text.push(b'0' + (*place % 10) as u8)?;
        for entry in block {
            text.push(entry.letter)?;
        }
    }
    Ok(text)
}

/// The plan of a chain for a new list, or for what is kept of it where no list is given.
fn changed(alloc: Global, old: &str, new: &str, user: u8) -> Result<Vec<u8>, AllocError> {
    let old = blocks(alloc, old, user)?;
    let list = if new.is_empty() {
        kept(alloc, &old)?
    } else {
        entries(alloc, new, user)?
    };
    if old.len() > 99 || list.len() > 99 {
        return Err(AllocError);
    }
    text_of(alloc, &plan(alloc, &old, &list, 254, 12)?)
}

#[test]
fn plans_and_what_is_kept(rt: HostRuntime) -> Result<(), AllocError> {
    cut_law::<Entry>();
    reading_law::<Entry>();
    for (old, new, user, want) in [
        // An entry comes, or goes, where a block holds four, or two.
        ("ABDF/G", "ABCDFG", 48, "2 1FG 0ABCD"),
        ("AB/CD", "BCD", 108, "2 0BC 1D"),
        // A stop left D in two blocks, and C after D.
        ("ABD/CDE", "", 0, "1 0ABDE"),
        // Twenty members of 12 bytes and the end entry fit a block, and one more doesn't.
        (
            "BCDEFGHIJKLMNOPQRST",
            "ABCDEFGHIJKLMNOPQRST",
            0,
            "1 0ABCDEFGHIJKLMNOPQRST",
        ),
        (
            "ABCDEFGHIJKLMNOPQRST",
            "ABCDEFGHIJKLMNOPQRSTU",
            0,
            "2 1 0ABCDEFGHIJKLMNOPQRSTU",
        ),
    ] {
        let text = changed(rt.alloc(), old, new, user)?;
        assert_eq!(rt; text.as_slice(), want.as_bytes(), "{old} to {new}");
    }
    Ok(())
}
