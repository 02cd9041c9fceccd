//! What the next run begins with.

use case_images::{Cursor, Named, find, unread};
use std::alloc::Global;
use std::io::Result;

/// Which runs are done.
#[derive(Clone, Copy)]
pub enum Mode {
    /// One.
    Once,
    /// One, which is stopped before each of its calls.
    Stops,
    /// One for each call, which fails.
    Fails,
}

/// Packs and bytes with names, and what the next run begins with.
#[derive(Drop)]
pub struct Bench {
    /// The packs.
    pub packs: Vec<Named>,
    /// Bytes with names.
    pub named: Vec<Named>,
    /// The files.
    pub files: Vec<Named>,
    /// Where the next record goes, in the last of the files, or of the packs where there is no file.
    pub cursor: Cursor,
    /// The deck.
    pub deck: Vec<u8>,
    /// The calls of the hall that fail.
    pub fails: Vec<u64>,
    /// The reads of the cards that fail.
    pub card_fails: Vec<u64>,
    /// How many reads of the hall give what the files hold; those after them give zeros.
    pub sound_reads: u64,
    /// How many bytes each print takes before it fails, if prints fail.
    pub cut: Option<usize>,
    /// Room for calls and for bytes.
    pub room: (u64, u64),
    /// Whether the run is one over a system that is closed to the program.
    pub is_closed: bool,
    /// Whether the calls of the run are shown.
    pub shows_calls: bool,
    /// Which runs are done.
    pub mode: Mode,
    /// The words of a run over what each of these leaves, or none.
    pub next: Vec<String>,
    /// The deck of that run.
    pub next_deck: Vec<u8>,
}

// Ample room.
const AMPLE: (u64, u64) = (4096, 65536);

impl Bench {
    /// A bench with nothing on it.
    pub fn new(alloc: Global) -> Bench {
        Bench {
            packs: Vec::new(alloc),
            named: Vec::new(alloc),
            files: Vec::new(alloc),
            cursor: Cursor::on(&[], 0, 0),
            deck: Vec::new(alloc),
            fails: Vec::new(alloc),
            card_fails: Vec::new(alloc),
            sound_reads: u64::MAX,
            cut: None,
            room: AMPLE,
            is_closed: false,
            shows_calls: false,
            mode: Mode::Once,
            next: Vec::new(alloc),
            next_deck: Vec::new(alloc),
        }
    }

    /// Clears what a run begins with, but the files.
    pub fn clear(&mut self) {
        self.deck.clear();
        self.fails.clear();
        self.card_fails.clear();
        self.sound_reads = u64::MAX;
        self.cut = None;
        self.room = AMPLE;
        self.is_closed = false;
        self.shows_calls = false;
        self.mode = Mode::Once;
        self.next.clear();
        self.next_deck.clear();
    }

    /// A copy of a pack.
    pub fn copy_of(&self, alloc: Global, pack: &str) -> Result<Vec<u8>> {
        match find(&self.packs, pack) {
            Some(image) => Ok(image.to_vec(alloc)?),
            None => unread(),
        }
    }

    /// Adds a pack, which is built on from then on.
    pub fn add_pack(&mut self, alloc: Global, name: &str, image: Vec<u8>) -> Result<()> {
        self.files.clear();
        self.packs.push((String::from_str(alloc, name)?, image))?;
        Ok(())
    }

    /// Adds a file with a copy of a pack, which is built on from then on, in the place of one of that name.
    pub fn add_file(&mut self, alloc: Global, name: &str, pack: &str) -> Result<()> {
        let image = self.copy_of(alloc, pack)?;
        self.files.retain(|file| file.0.as_str() != name);
        self.files.push((String::from_str(alloc, name)?, image))?;
        Ok(())
    }

    /// Adds a line, and its end, to the deck.
    pub fn add_card(&mut self, text: &str, end: &str) -> Result<()> {
        self.deck.extend_from_slice(text.as_bytes())?;
        self.deck.extend_from_slice(end.as_bytes())?;
        Ok(())
    }

    /// Adds a line, and its end, to the deck of the run over what stops or faults leave.
    pub fn add_next_card(&mut self, text: &str) -> Result<()> {
        self.next_deck.extend_from_slice(text.as_bytes())?;
        self.next_deck.extend_from_slice(b"\n")?;
        Ok(())
    }
}
