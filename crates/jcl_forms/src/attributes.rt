//! DCB.
ghost use Rattle.std.specs.Prelude.{◌≡◌, ◌<◌, ◌^◌, IfSome};
ghost use Rattle.std.specs.List.{slice_split};
ghost use Rattle.jcl_forms.specs.Numbers.{number_below};
ghost use Rattle.jcl_forms.specs.Parts.{is_byte};
ghost use Rattle.jcl_forms.specs.Attributes.{format_code, modifier_code, modified, recfm_of, dsorg_of, attribute_of, new_value, with_value, with_item, with_attributes, no_attributes, attributes_of};

use crate::numbers::number_below;
use crate::parts::{items, parted};

/// The attributes that a DCB gives; the others are taken from elsewhere. The codes are those of a format 1
/// DSCB (System Control Blocks, GC28-6628).
#[derive(Clone, Copy, Debug, PartialEq, Eq)]
pub struct Dcb {
    /// RECFM.
    pub recfm: Option<u8>,
    /// The length of a record in bytes.
    pub lrecl: Option<u16>,
    /// The length of a block in bytes.
    pub blksize: Option<u16>,
    /// The length of a key in bytes.
    pub keylen: Option<u8>,
    /// DSORG.
    pub dsorg: Option<u16>,
}

impl Dcb {
    /// No attributes.
    pub const NONE: Dcb = Dcb {
        recfm: None,
        lrecl: None,
        blksize: None,
        keylen: None,
        dsorg: None,
    };
}

#[tactic(auto, unfolding(crate::specs::Attributes::format_code))]
fn format_code(letter: u8) -> Option<u8>
    ensures { result ≡ format_code letter }
{
    match letter {
        b'F' => Some(0x80),
        b'V' => Some(0x40),
        b'U' => Some(0xC0),
        _ => None,
    }
}

#[tactic(auto, unfolding(crate::specs::Attributes::modifier_code))]
fn modifier_code(letter: u8) -> Option<u8>
    ensures { result ≡ modifier_code letter }
{
    match letter {
        b'B' => Some(0x10),
        b'S' => Some(0x08),
        b'A' => Some(0x04),
        b'M' => Some(0x02),
        _ => None,
    }
}

// A record format with further letters, none of which it has yet.
#[tactic(auto, unfolding(crate::specs::Attributes::modified))]
fn modified(code: u8, letters: &[u8]) -> Option<u8>
    ensures { result ≡ modified code letters.now }
{
    let mut found = code;
    for letter in letters {
        let bit = modifier_code(*letter)?;
        if found & bit != 0 {
            return None;
        }
        found |= bit;
    }
    Some(found)
}

// The code of a RECFM.
#[tactic(auto, unfolding(crate::specs::Attributes::recfm_of))]
fn recfm_of(text: &[u8]) -> Option<u8>
    ensures { result ≡ recfm_of text.now }
{
    match text {
        [] => None,
        [first, letters @ ..] => modified(format_code(*first)?, letters),
    }
}

// The code of a DSORG.
#[tactic(auto, unfolding(crate::specs::Attributes::dsorg_of))]
fn dsorg_of(word: &[u8]) -> Option<u16>
    ensures { result ≡ dsorg_of word.now }
{
    if word == b"PS".as_slice() {
        Some(0x4000)
    } else if word == b"PO".as_slice() {
        Some(0x0200)
    } else if word == b"DA".as_slice() {
        Some(0x2000)
    } else if word == b"IS".as_slice() {
        Some(0x8000)
    } else {
        None
    }
}

// The attributes that a DCB may give.
#[derive(Clone, Copy)]
enum Attribute {
    Recfm,
    Lrecl,
    Blksize,
    Keylen,
    Dsorg,
}

#[tactic(auto, unfolding(crate::specs::Attributes::attribute_of))]
fn attribute_of(key: &[u8]) -> Option<Attribute>
    ensures { result ≡ attribute_of key.now }
{
    if key == b"RECFM".as_slice() {
        Some(Attribute::Recfm)
    } else if key == b"LRECL".as_slice() {
        Some(Attribute::Lrecl)
    } else if key == b"BLKSIZE".as_slice() {
        Some(Attribute::Blksize)
    } else if key == b"KEYLEN".as_slice() {
        Some(Attribute::Keylen)
    } else if key == b"DSORG".as_slice() {
        Some(Attribute::Dsorg)
    } else {
        None
    }
}

// A value for an attribute that has none yet.
fn new_value<T: Copy>(given: Option<T>, found: Option<T>) -> Option<T>
    ensures { result ≡ new_value given found }
{
    match given {
        None => found,
        Some(_) => None,
    }
}

// Attributes with a value for one of them, which has none yet.
#[tactic(auto, unfolding(crate::specs::Attributes::with_value))]
fn with_value(dcb: Dcb, attribute: Attribute, value: &[u8]) -> Option<Dcb>
    ensures { result ≡ with_value dcb attribute value.now }
{
    let mut dcb = dcb;
    match attribute {
        Attribute::Recfm => dcb.recfm = Some(new_value(dcb.recfm, recfm_of(value))?),
        Attribute::Lrecl => dcb.lrecl = Some(new_value(dcb.lrecl, halfword(value))?),
        Attribute::Blksize => dcb.blksize = Some(new_value(dcb.blksize, halfword(value))?),
        Attribute::Keylen => dcb.keylen = Some(new_value(dcb.keylen, byte(value))?),
        Attribute::Dsorg => dcb.dsorg = Some(new_value(dcb.dsorg, dsorg_of(value))?),
    }
    Some(dcb)
}

// A number that fits two bytes.
fn halfword(text: &[u8]) -> Option<u16>
    ensures { result ≡ number_below (2 ^ 16) text.now }
{
    Some(number_below(1 << 16, text)? as u16)
}

// A number that fits a byte.
fn byte(text: &[u8]) -> Option<u8>
    ensures { result ≡ number_below (2 ^ 8) text.now }
{
    Some(number_below(1 << 8, text)? as u8)
}

// Attributes with the one that an item gives.
fn with_item(dcb: Dcb, item: &[u8]) -> Option<Dcb>
    ensures { result ≡ with_item dcb item.now }
{
    let (key, value) = parted(b'=', item);
    let value = value?;
    with_value(dcb, attribute_of(key)?, value)
}

/// The attributes that a value of DCB gives: a list of `RECFM=`, `LRECL=`, `BLKSIZE=`, `KEYLEN=` and `DSORG=`, each at most
/// once, or one of these without parentheses.
#[tactic(auto, unfolding(crate::specs::Attributes::attributes_of, crate::specs::Attributes::with_attributes))]
pub fn attributes_of(text: &[u8]) -> Option<Dcb>
    ensures { result ≡ attributes_of text.now }
{
    let mut dcb = Dcb::NONE;
    let mut rest = items(text);
    'items: loop {
        let (item, others) = parted(b',', rest);
        dcb = with_item(dcb, item)?;
        match others {
            Some(behind) => rest = behind,
            None => return Some(dcb),
        }
    }
}
