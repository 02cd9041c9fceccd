//! Cards from the bytes of a deck, one byte after another.
ghost use Rattle.std.specs.Prelude.{◌≡◌, ◌<◌, ◌≤◌, ◌+◌, ◌∷◌, ◌++◌, [], List, ℕ, length, false, true, Ok, Err, IfOk, IfErr, OnOk, IsTrue, ◌↔◌};
ghost use Rattle.std.specs.List.{list_all};
ghost use Rattle.deck_cards.specs.Deck.{card_of, is_printable, fault, deck, deck_of, room, IsFit, Refuses};

use card_text::Card;
use std::alloc::Global;

/// Why a deck isn't read: its first fault from the left, in this project's profile.
#[derive(Clone, Copy, Debug, PartialEq, Eq)]
pub enum DeckErr {
    /// The first byte of a 100,001st line.
    Long,
    /// A byte in column 81 that isn't the carriage return before a line feed.
    Wide {
        /// The number of the card, from 1.
        card: u32,
    },
    /// A byte outside 32 to 126 in columns 1 to 80, and so a carriage return there that no line feed follows.
    Byte {
        /// The number of the card, from 1.
        card: u32,
        /// The column, from 1.
        column: u8,
    },
    /// The source failed.
    Read,
    /// Memory ran out.
    Memory,
}

// The most cards that a deck may have.
const CARDS: usize = 100_000;

// The columns of a card.
const COLUMNS: usize = 80;

// What is read of a deck: its whole cards, the columns of the line that is being read, and whether a carriage return
// follows them, which is dropped if a line feed comes next.
#[derive(Drop)]
pub struct Reader {
    pub cards: Vec<Card>,
    pub line: Vec<u8>,
    pub returned: bool,
}

// Whether a byte may stand on a card.
fn is_printable(byte: u8) -> bool
    ensures { result ≡ is_printable byte }
{
    byte >= b' ' && byte <= b'~'
}

// The card of a line.
fn card_of(line: &[u8]) -> Card
    requires { length line.now ≤ 80 }
    ensures { result ≡ card_of line.now }
{
    let mut bytes = [b' '; COLUMNS];
    bytes[..line.len()].copy_from_slice(line);
    Card { bytes }
}

// The fault of a byte after so many whole cards and columns of one more.
fn fault(cards: usize, columns: usize) -> DeckErr
    requires cards { cards ≤ 100000 }
    requires columns { columns ≤ 80 }
    ensures { result ≡ fault (cards + 1) columns }
{
    let card = cards as u32 + 1;
    if columns == COLUMNS {
        DeckErr::Wide { card }
    } else {
        DeckErr::Byte {
            card,
            column: columns as u8 + 1,
        }
    }
}

impl Reader {
    #[tactic(auto, unfolding(crate::specs::Deck::deck, crate::specs::Deck::deck_of))]
    pub fn new(alloc: Global) -> Reader
        ensures fit { IsFit result }
        ensures nothing { (rest : List ℕ) → deck_of result rest ≡ deck rest }
    {
        Reader {
            cards: Vec::new(alloc),
            line: Vec::new(alloc),
            returned: false,
        }
    }

    // Whether no card may follow.
    fn is_full(&self) -> bool
        requires { IsFit self.now }
        ensures { IsTrue result ↔ (length self.now.cards.items ≡ 100000) }
    {
        self.cards.len() == CARDS
    }

    // The fault of the next byte.
    fn next_fault(&self) -> DeckErr
        requires { IsFit self.now }
        ensures { result ≡ fault (length self.now.cards.items + 1) (length self.now.line.items) }
    {
        fault(self.cards.len(), self.line.len())
    }

    // Ends the line that is being read, and with it a card.
    fn end_line(&mut self) -> Result<(), DeckErr>
        requires fit { IsFit self.old }
        requires few { length self.old.cards.items < 100000 }
        ensures cards { OnOk result (self.new.cards.items ≡ self.old.cards.items ++ card_of self.old.line.items ∷ []) }
        ensures line { OnOk result (self.new.line.items ≡ []) }
        ensures returned { OnOk result (self.new.returned ≡ false) }
        ensures fit { OnOk result (IsFit self.new) }
        ensures err { IfErr result (λ e. e ≡ DeckErr.Memory) }
    {
        let card = card_of(&self.line);
        if self.cards.push(card).is_err() {
            return Err(DeckErr::Memory);
        }
        self.line.clear();
        self.returned = false;
        Ok(())
    }

    // Adds a column to the line that is being read.
    fn add_column(&mut self, byte: u8) -> Result<(), DeckErr>
        requires fit { IsFit self.old }
        requires few { length self.old.cards.items < 100000 }
        requires narrow { length self.old.line.items < 80 }
        requires printable { is_printable byte ≡ true }
        requires going { self.old.returned ≡ false }
        ensures cards { OnOk result (self.new.cards.items ≡ self.old.cards.items) }
        ensures line { OnOk result (self.new.line.items ≡ self.old.line.items ++ byte ∷ []) }
        ensures returned { OnOk result (self.new.returned ≡ false) }
        ensures fit { OnOk result (IsFit self.new) }
        ensures err { IfErr result (λ e. e ≡ DeckErr.Memory) }
    {
        if self.line.push(byte).is_err() {
            return Err(DeckErr::Memory);
        }
        Ok(())
    }

    // Takes the next byte.
    #[tactic(auto, using(crate::proofs::Bytes::bytes))]
    pub fn feed(&mut self, byte: u8) -> Result<(), DeckErr>
        requires { IsFit self.old }
        ensures fit { OnOk result (IsFit self.new) }
        ensures ok { OnOk result ((rest : List ℕ) → deck_of self.old (byte ∷ rest) ≡ deck_of self.new rest) }
        ensures less { OnOk result (room self.new < room self.old) }
        ensures err { IfErr result (λ e. Refuses e ((rest : List ℕ) → deck_of self.old (byte ∷ rest) ≡ Err e) ⊥) }
    {
        if self.is_full() {
            return Err(DeckErr::Long);
        }
        if byte == b'\n' {
            return self.end_line();
        }
        if self.returned {
            return Err(self.next_fault());
        }
        if byte == b'\r' {
            self.returned = true;
            return Ok(());
        }
        if self.line.len() == COLUMNS || !is_printable(byte) {
            return Err(self.next_fault());
        }
        self.add_column(byte)
    }

    // Takes the next bytes.
    pub fn feed_all(&mut self, bytes: &[u8]) -> Result<(), DeckErr>
        requires { IsFit self.old }
        ensures fit { OnOk result (IsFit self.new) }
        ensures ok { OnOk result ((rest : List ℕ) → deck_of self.old (bytes.now ++ rest) ≡ deck_of self.new rest) }
        ensures less { OnOk result (room self.new + length bytes.now ≤ room self.old) }
        ensures err { IfErr result (λ e. Refuses e ((rest : List ℕ) → deck_of self.old (bytes.now ++ rest) ≡ Err e) ⊥) }
    {
        for byte in bytes {
            self.feed(*byte)?;
        }
        Ok(())
    }

    // The cards, where no more bytes come.
    #[tactic(auto, using(crate::proofs::Bytes::ends))]
    pub fn finish(self) -> Result<Vec<Card>, DeckErr>
        requires { IsFit self }
        ensures ok { IfOk result (λ cards. deck_of self [] ≡ Ok cards.items) }
        ensures few { IfOk result (λ cards. length cards.items ≤ 100000) }
        ensures err { IfErr result (λ e. Refuses e (deck_of self [] ≡ Err e) ⊥) }
    {
        let mut reader = self;
        if reader.returned {
            return Err(reader.next_fault());
        }
        if !reader.line.is_empty() {
            reader.end_line()?;
        }
        let Reader {
            cards,
            line: _,
            returned: _,
        } = reader;
        Ok(cards)
    }
}
