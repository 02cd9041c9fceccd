//! What the format 1 DSCB of a data set says of it, by System Control Blocks, GC28-6628.
ghost use Rattle.std.specs.Prelude.{◌≡◌, ℕ, ◌^◌, ◌<◌, List, Some, is_some, slice_get, true};
ghost use Rattle.ckd_image.specs.declared.header.Geometry.{Geometry};
ghost use Rattle.pack_spec.specs.Blocks.{has_no_block};
ghost use Rattle.pack_spec.specs.Bodies.{body_of};
ghost use Rattle.pack_spec.specs.Volume.{attr_of, secondary_of, space_flags};
ghost use Rattle.vol_model.specs.declared.contents.Run.{Run};
ghost use Rattle.vol_model.specs.Shelf.{fits_mode, is_catalog, is_partitioned, is_sequential};
ghost use Rattle.vtoc_index.specs.Names.{name_at};
ghost use Rattle.vtoc_sets.specs.Sets.{body_by, kind_by};

use dscb_codec::{Dscb, F1};
use ebcdic_names::Dsn;
use vol_model::{Attr, Mode, is_catalog};
use vtoc_index::Vol;

// One more than the greatest secondary quantity, which has the lower three bytes of SCALO; its flags stand above.
const QUANTITIES: u32 = 0x0100_0000;

// The two flags that name the unit of a quantity: both for cylinders, the first for tracks.
const UNIT_FLAGS: u8 = 0xC0;

const CYLINDERS: u8 = 0xC0;

const TRACKS: u8 = 0x80;

// The lowest bit of the first byte of DSORG and the bits after it, which don't tell an organization.
const UNTOLD: u16 = 0x0200;

const SEQUENTIAL: u16 = 0x4000 / UNTOLD;

const PARTITIONED: u16 = 0x0200 / UNTOLD;

/// The format 1 of the data set in a slot, counted from 0 over the tracks of the VTOC.
pub fn set_at(vol: &Vol, slot: u32) -> F1
    requires { is_some (name_at vol.now.slots.items slot) ≡ true }
    ensures { slice_get vol.now.slots.items slot ≡ Some (Dscb.F1 result) }
{
    match &vol.slots[slot as usize] {
        Dscb::F1(set) => *set,
        _ => unreachable!(),
    }
}

/// The attributes of a data set, by its format 1; dates and flags are those of the standard.
#[tactic(auto, unfolding(pack_spec::specs::Volume::attr_of))]
pub fn attr_of(set: &F1) -> Attr
    ensures attr { result ≡ attr_of set.now }
    ensures secondary { result.secondary < 2 ^ 24 }
{
    Attr {
        volseq: set.volseq,
        created: set.created,
        expires: set.expires,
        system: set.system,
        dsorg: set.dsorg,
        recfm: set.recfm,
        optcd: set.optcd,
        blksize: set.blksize,
        lrecl: set.lrecl,
        keylen: set.keylen,
        rkp: set.rkp,
        indicators: set.indicators,
        scalo: space_flags(set),
        secondary: secondary_of(set),
    }
}

// The flags of its request for space.
fn space_flags(set: &F1) -> u8
    ensures { result ≡ space_flags set.now }
{
    (set.scalo / QUANTITIES) as u8
}

// Its secondary quantity; 0 where the flags name no unit.
fn secondary_of(set: &F1) -> u32
    ensures secondary { result ≡ secondary_of set.now }
    ensures small { result < 2 ^ 24 }
{
    match space_flags(set) & UNIT_FLAGS {
        CYLINDERS | TRACKS => set.scalo % QUANTITIES,
        _ => 0,
    }
}

/// What the body of a data set is, which its name and the first byte of its DSORG without X'01' tell.
#[derive(Clone, Copy, Debug, PartialEq, Eq)]
pub enum BodyKind {
    /// The blocks of a sequential set.
    Seq,
    /// The directory and the blocks of a partitioned set.
    Part,
    /// The catalog, in the set named SYSCTLG.
    Catalog,
    /// That of a set of another organization, which isn't read.
    Other,
}

/// What the body of a data set is, by its format 1.
///
/// A catalog isn't read yet, so its body can't be read from its first track on.
#[tactic(auto, unfolding(pack_spec::specs::Bodies::body_of))]
pub fn body_kind(set: &F1) -> BodyKind
    ensures kind { result ≡ kind_by set.now.name (attr_of set.now) }
    ensures body { (g : Geometry) (tracks : List (List ℕ)) (extents : List Run) →
        body_of g tracks set.now.name (attr_of set.now) extents set.now.lstar
        ≡ body_by result g tracks extents set.now.lstar }
{
    if is_named_catalog(set) {
        BodyKind::Catalog
    } else if is_sequential(set) {
        BodyKind::Seq
    } else if is_partitioned(set) {
        BodyKind::Part
    } else {
        BodyKind::Other
    }
}

// Whether it is the set that holds the catalog.
fn is_named_catalog(set: &F1) -> bool
    ensures { result ≡ is_catalog set.now.name }
{
    is_catalog(&Dsn { bytes: set.name })
}

// Whether it is a sequential set.
#[tactic(auto, unfolding(pack_spec::specs::Volume::attr_of))]
fn is_sequential(set: &F1) -> bool
    ensures { result ≡ is_sequential set.now.name (attr_of set.now) }
{
    !is_named_catalog(set) && set.dsorg / UNTOLD == SEQUENTIAL
}

// Whether it is a partitioned one.
#[tactic(auto, unfolding(pack_spec::specs::Volume::attr_of))]
fn is_partitioned(set: &F1) -> bool
    ensures { result ≡ is_partitioned set.now.name (attr_of set.now) }
{
    !is_named_catalog(set) && set.dsorg / UNTOLD == PARTITIONED
}

/// Whether a data set is of the kind that a mode of writing needs, by its format 1.
pub fn fits_mode(set: &F1, mode: Mode) -> bool
    ensures { result ≡ fits_mode mode set.now.name (attr_of set.now) }
{
    match mode {
        Mode::Fill => is_sequential(set),
        Mode::Area => is_partitioned(set),
    }
}

/// Whether no block stands in a sequential set, by LSTAR.
pub fn has_no_block(set: &F1) -> bool
    ensures { result ≡ has_no_block set.now.lstar }
{
    set.lstar == [0, 0, 0]
}
