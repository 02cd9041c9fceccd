//! Packing records into blocks, one after another.
ghost use Rattle.std.specs.Prelude.{◌≡◌, ◌≤◌, ◌<◌, ◌+◌, false, length};
ghost use Rattle.record_blocks.specs.Packing.{room, needed, least_as, is_spanned};
ghost use Rattle.record_blocks.specs.Formats.{base_of};

use crate::formats::Format;
use crate::spanning::{least, segment};
use std::alloc::{AllocError, Global};

/// Why a record isn't packed.
#[derive(Clone, Copy, Debug, PartialEq, Eq)]
pub enum PackErr {
    /// The record is longer than LRECL, LRECL - 4 for all of V, or BLKSIZE for U.
    TooLong {
        /// Its length.
        len: usize,
    },
    /// Memory ran out.
    Memory,
}

impl From<AllocError> for PackErr {
    ghost use Rattle.record_blocks.specs.declared.packer.PackErr.TheVariants as pack;

    ghost from_gives = { λ _ e. e ≡ pack.Memory };

    fn from(_: AllocError) -> Self {
        PackErr::Memory
    }
}

/// Packs records into blocks of at most BLKSIZE bytes. FB and VB blocks take as many records as
/// fit; in F, V and U each record is a block of its own. VS and VBS spread a record over as many
/// blocks as it needs.
#[derive(Drop)]
pub struct Packer {
    alloc: Global,
    format: Format,
    begun: bool,
    body: Vec<u8>,
    waiting: bool,
    placed: usize,
    pending: Vec<u8>,
    ghost small: { format.blksize ≤ 32760 },
    ghost least: { least_as (base_of format) ≤ format.lrecl },
    ghost roomy: { needed format ≤ room format },
    ghost fits: { length body.items ≤ room format },
    ghost closed: { begun ≡ false → length body.items ≡ 0 },
    ghost within: { placed ≤ length pending.items },
    ghost idle: { is_spanned format ≡ false → waiting ≡ false },
}

impl Packer {
    ghost use Rattle.std.specs.Prelude.{◌∷◌, ℕ, List, [], None, Ok, Err, IfOk, OnOk, IfErr, OnErr, true};
    ghost use Rattle.record_blocks.specs.Formats.{first_fault};
    ghost use Rattle.record_blocks.specs.Packing.{longest, joins};
    ghost use Rattle.record_blocks.specs.Spanning.{must_close, least};
    ghost use Rattle.record_blocks.specs.Packer.{open_of, rest_of, format_of, is_waiting, blocks_with, blocks_given, IsFresh, BlocksFollow, BlockFits, IsUnchanged, SameState, HasCause};

    /// Begins with no block. The format is one that `Format::check` accepts.
    pub fn new(alloc: Global, format: Format) -> Result<Packer, AllocError>
        requires { first_fault format ≡ None }
        ensures blocks { IfOk result (λ p. IsFresh format p) }
        ensures idle { IfOk result (λ p. is_waiting p ≡ false) }
        ensures format { IfOk result (λ p. format_of p ≡ format) }
    {
        let body = Vec::with_capacity(alloc, usize::from(format.blksize))?;
        Ok(Packer {
            alloc,
            format,
            begun: false,
            body,
            waiting: false,
            placed: 0,
            pending: Vec::new(alloc),
        })
    }

    // Whether the open block takes a piece of this length.
    fn joins(&self, size: usize) -> bool
        ensures { result ≡ joins self.now.format self.now.body.items size }
    {
        self.format.is_blocked() && size <= self.format.room() - self.body.len()
    }

    /// Packs a record, given without its descriptors; for F one shorter than LRECL is filled with
    /// X'40'. Where it answers true, `out` holds a finished block. With VS and VBS, `pull` gives
    /// the further ones and has to answer false before the next record.
    ///
    /// `TooLong` comes exactly where the record is longer than the format allows; `Memory` if
    /// memory runs out. After an error the packer is as before.
    pub fn push(&mut self, rec: &[u8], out: &mut Vec<u8>) -> Result<bool, PackErr>
        requires { is_waiting self.old ≡ false }
        ensures blocks { IfOk result (λ full. BlocksFollow (rec.now ∷ []) full out.new.items self.old self.new) }
        ensures fits { IfOk result (λ full. BlockFits (format_of self.old) full out.new.items) }
        ensures short { IfOk result (λ _. length rec.now ≤ longest (format_of self.old)) }
        ensures unspanned { is_spanned (format_of self.old) ≡ false → is_waiting self.new ≡ false }
        ensures format { format_of self.new ≡ format_of self.old }
        ensures err { IfErr result (λ e. HasCause e (length rec.now) (longest (format_of self.old))) }
        ensures unchanged { OnErr result (IsUnchanged self.old self.new) }
    {
        if rec.len() > self.format.longest() {
            return Err(PackErr::TooLong { len: rec.len() });
        }
        let pushed = if self.format.is_spanned() {
            self.push_spanned(rec, out)
        } else {
            self.push_whole(rec, out)
        };
        match pushed {
            Ok(full) => Ok(full),
            Err(_) => Err(PackErr::Memory),
        }
    }

    // Packs a record that has a piece of its own.
    #[tactic(auto, using(crate::proofs::Bounds::rules_of_pieces), unfolding(crate::specs::Packing::unspanned_blocks))]
    fn push_whole(&mut self, rec: &[u8], out: &mut Vec<u8>) -> Result<bool, AllocError>
        requires whole { is_spanned (format_of self.old) ≡ false }
        requires lawful { length rec.now ≤ longest (format_of self.old) }
        ensures blocks { IfOk result (λ full. BlocksFollow (rec.now ∷ []) full out.new.items self.old self.new) }
        ensures fits { IfOk result (λ full. BlockFits (format_of self.old) full out.new.items) }
        ensures format { format_of self.new ≡ format_of self.old }
        ensures unchanged { OnErr result (IsUnchanged self.old self.new) }
    {
        let piece = self.format.piece_of(self.alloc, rec)?;
        if !self.begun {
            self.body = piece;
            self.begun = true;
            return Ok(false);
        }
        if self.joins(piece.len()) {
            self.body.extend_from_slice(&piece)?;
            return Ok(false);
        }
        self.format.write_block(out, &self.body)?;
        self.body = piece;
        Ok(true)
    }

    // Packs the front of a record that is spread.
    #[tactic(auto, using(crate::proofs::Spread::begins))]
    fn push_spanned(&mut self, rec: &[u8], out: &mut Vec<u8>) -> Result<bool, AllocError>
        requires spanned { is_spanned (format_of self.old) ≡ true }
        requires idle { is_waiting self.old ≡ false }
        ensures blocks { IfOk result (λ full. BlocksFollow (rec.now ∷ []) full out.new.items self.old self.new) }
        ensures fits { IfOk result (λ full. BlockFits (format_of self.old) full out.new.items) }
        ensures format { format_of self.new ≡ format_of self.old }
        ensures unchanged { OnErr result (IsUnchanged self.old self.new) }
    {
        self.pending = Vec::from_slice(self.alloc, rec)?;
        self.placed = 0;
        self.waiting = true;
        match self.advance(out) {
            Ok(full) => Ok(full),
            Err(memory) => {
                self.waiting = false;
                Err(memory)
            }
        }
    }

    // Whether the open block takes no segment of the record that waits.
    #[tactic(auto, using(crate::proofs::Spread::rooms), unfolding(crate::specs::Spanning::must_close))]
    fn must_close(&self) -> bool
        requires { is_spanned self.now.format ≡ true }
        ensures closes { result ≡ must_close self.now.format (open_of self.now) (rest_of self.now) }
        ensures room { result ≡ false → length self.now.body.items + least (rest_of self.now) ≤ room self.now.format }
    {
        let rest = &self.pending[self.placed..];
        self.begun && self.format.closes(self.body.len(), least(rest))
    }

    // Gives the open block where it takes no segment of the record that waits, or places one.
    #[tactic(auto, using(crate::proofs::Spread::spanning))]
    fn advance(&mut self, out: &mut Vec<u8>) -> Result<bool, AllocError>
        requires spanned { is_spanned (format_of self.old) ≡ true }
        requires waiting { is_waiting self.old ≡ true }
        ensures blocks { IfOk result (λ full. BlocksFollow [] full out.new.items self.old self.new) }
        ensures fits { IfOk result (λ full. BlockFits (format_of self.old) full out.new.items) }
        ensures done { IfOk result (λ full. full ≡ false → is_waiting self.new ≡ false) }
        ensures format { format_of self.new ≡ format_of self.old }
        ensures unchanged { OnErr result (SameState self.old self.new) }
    {
        if self.must_close() {
            self.format.write_block(out, &self.body)?;
            self.body.clear();
            self.begun = false;
            return Ok(true);
        }
        let rest = &self.pending[self.placed..];
        let parted = self.placed > 0;
        if self.format.is_last(self.body.len(), rest.len()) {
            let piece = segment(self.alloc, parted, true, rest)?;
            self.body.extend_from_slice(&piece)?;
            self.begun = true;
            self.waiting = false;
            return Ok(false);
        }
        let size = self.format.filling(self.body.len());
        self.format
            .write_filled_block(self.alloc, out, &self.body, parted, &rest[..size])?;
        self.body.clear();
        self.begun = false;
        self.placed += size;
        Ok(true)
    }

    /// Gives a further finished block of the record that was pushed last, while there is one. It is
    /// false in formats other than VS and VBS. If memory runs out the packer is as before.
    pub fn pull(&mut self, out: &mut Vec<u8>) -> Result<bool, AllocError>
        ensures blocks { IfOk result (λ full. BlocksFollow [] full out.new.items self.old self.new) }
        ensures fits { IfOk result (λ full. BlockFits (format_of self.old) full out.new.items) }
        ensures done { IfOk result (λ full. full ≡ false → is_waiting self.new ≡ false) }
        ensures none { is_spanned (format_of self.old) ≡ false → result ≡ Ok false }
        ensures format { format_of self.new ≡ format_of self.old }
        ensures unchanged { OnErr result (IsUnchanged self.old self.new) }
    {
        if !self.waiting {
            return Ok(false);
        }
        self.advance(out)
    }

    /// Gives the block that is still open, if there is one, and begins again. If memory runs out
    /// the packer is as before.
    #[tactic(auto, using(crate::proofs::Bounds::rules_of_blocks), unfolding(crate::specs::Packing::unspanned_blocks, crate::specs::Spanning::spanned_blocks))]
    pub fn finish(&mut self, out: &mut Vec<u8>) -> Result<bool, AllocError>
        requires { is_waiting self.old ≡ false }
        ensures blocks { IfOk result (λ full. blocks_with self.old [] ≡ blocks_given full out.new.items []) }
        ensures fits { IfOk result (λ full. BlockFits (format_of self.old) full out.new.items) }
        ensures begins { OnOk result (IsFresh (format_of self.old) self.new) }
        ensures format { format_of self.new ≡ format_of self.old }
        ensures idle { is_waiting self.new ≡ false }
        ensures unchanged { OnErr result (IsUnchanged self.old self.new) }
    {
        if !self.begun {
            return Ok(false);
        }
        self.format.write_block(out, &self.body)?;
        self.body.clear();
        self.begun = false;
        Ok(true)
    }
}
