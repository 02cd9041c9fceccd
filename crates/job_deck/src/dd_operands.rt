//! The operands of DD.
ghost use Rattle.std.specs.Prelude.{◌≡◌, option_map, IfOk};
ghost use Rattle.card_text.specs.Operands.{keyed};
ghost use Rattle.card_text.specs.Values.{text_of};
ghost use Rattle.jcl_forms.specs.Attributes.{new_value};
ghost use Rattle.jcl_forms.specs.Dates.{IsDate};
ghost use Rattle.job_deck.specs.DdOperands.{plain_key_of, dd_key_of, with_dd_value, with_dd_parts, no_dd_operands, is_class, is_sysout, first_form, with_dd_operand, with_dd_piece, with_dd_pieces, form_or_missing, dd_form_of, set_of};
ghost use Rattle.job_deck.specs.declared.dd_operands.DdForm.TheVariants as form;

use crate::faults::{JclErr, JclKind, fault_at};
use crate::job::DdSet;
use crate::operands::{Piece, is_unbalanced_piece, pieces, with_continuation};
use crate::statements::{Joined, is_either};
use crate::taken::{named_set_of, plain_disposition_of};
use card_text::{Mark, is_word, keyed, missing_place, text_of};
use ebcdic_names::{Dsn, Serial};
use jcl_forms::{
    Dcb, DdAfter, DdPart, DdStatus, Space, attributes_of, expiry_of, space_of, volume_of,
};
use std::alloc::{AllocError, Global};

// A keyword of DD.
#[derive(Clone, Copy)]
pub enum DdKey {
    Dsn,
    Disp,
    Volume,
    Unit,
    Space,
    Dcb,
    Label,
}

// What the operands with keywords give.
#[derive(Clone, Copy)]
pub struct DdOperands {
    pub dsn: Option<(Dsn, DdPart)>,
    pub disp: Option<(DdStatus, DdAfter)>,
    pub serial: Option<Serial>,
    pub unit: bool,
    pub space: Option<Space>,
    pub dcb: Option<Dcb>,
    pub expires: Option<[u8; 3]>,
}

// What a DD has of its operands.
#[derive(Clone, Copy)]
pub enum DdForm {
    // Nothing yet.
    Empty,
    // DUMMY.
    Dummy,
    // An asterisk.
    Cards,
    // SYSOUT=x.
    Sysout,
    // Operands with keywords.
    Keyed(DdOperands),
}

// The keyword that has one spelling.
#[tactic(auto, unfolding(crate::specs::DdOperands::plain_key_of))]
fn plain_key_of(text: &[u8]) -> Option<DdKey>
    ensures { result ≡ plain_key_of text.now }
{
    if text == b"DISP".as_slice() {
        Some(DdKey::Disp)
    } else if text == b"UNIT".as_slice() {
        Some(DdKey::Unit)
    } else if text == b"SPACE".as_slice() {
        Some(DdKey::Space)
    } else if text == b"DCB".as_slice() {
        Some(DdKey::Dcb)
    } else if text == b"LABEL".as_slice() {
        Some(DdKey::Label)
    } else {
        None
    }
}

#[tactic(auto, unfolding(crate::specs::DdOperands::dd_key_of))]
fn dd_key_of(text: &[u8]) -> Option<DdKey>
    ensures { result ≡ dd_key_of text.now }
{
    if is_either(b"DSN".as_slice(), b"DSNAME".as_slice(), text) {
        Some(DdKey::Dsn)
    } else if is_either(b"VOL".as_slice(), b"VOLUME".as_slice(), text) {
        Some(DdKey::Volume)
    } else {
        plain_key_of(text)
    }
}

// A value for an operand that has none yet.
fn new_value<T: Copy>(given: Option<T>, found: Option<T>) -> Option<T>
    ensures { result ≡ new_value given found }
{
    match given {
        None => found,
        Some(_) => None,
    }
}

// Operands with a value, whose characters are these, for one of them, which has none yet.
#[tactic(auto, unfolding(crate::specs::DdOperands::with_dd_value))]
fn with_dd_value(
    date: &[u8; 3],
    operands: DdOperands,
    key: DdKey,
    value: &[Mark],
    text: &[u8],
) -> Option<DdOperands>
    requires date { IsDate date.now }
    requires text { text.now ≡ text_of value.now }
    ensures { result ≡ with_dd_value date.now operands key value.now }
{
    let mut operands = operands;
    match key {
        DdKey::Dsn => operands.dsn = Some(new_value(operands.dsn, named_set_of(text))?),
        DdKey::Disp => operands.disp = Some(new_value(operands.disp, plain_disposition_of(text))?),
        DdKey::Volume => operands.serial = Some(new_value(operands.serial, volume_of(text))?),
        DdKey::Space => operands.space = Some(new_value(operands.space, space_of(text))?),
        DdKey::Dcb => operands.dcb = Some(new_value(operands.dcb, attributes_of(text))?),
        DdKey::Label => {
            operands.expires = Some(new_value(operands.expires, expiry_of(date, text))?);
        }
        DdKey::Unit => {
            if operands.unit || !is_word(value) {
                return None;
            }
            operands.unit = true;
        }
    }
    Some(operands)
}

// Operands with one more, if it has a form that is taken.
fn with_dd_parts(
    alloc: Global,
    date: &[u8; 3],
    operands: DdOperands,
    text: &[Mark],
) -> Result<Option<DdOperands>, AllocError>
    requires { IsDate date.now }
    ensures { IfOk result (λ more. more ≡ with_dd_parts date.now operands (keyed text.now)) }
{
    let Some((key, value)) = keyed(text) else {
        return Ok(None);
    };
    let characters = text_of(alloc, value)?;
    match dd_key_of(text_of(alloc, key)?.as_slice()) {
        Some(key) => Ok(with_dd_value(date, operands, key, value, characters.as_slice())),
        None => Ok(None),
    }
}

// Whether a text is a capital letter or a digit.
fn is_class(text: &[u8]) -> bool
    ensures { result ≡ is_class text.now }
{
    text.len() == 1 && (text[0] >= b'A' && text[0] <= b'Z' || text[0] >= b'0' && text[0] <= b'9')
}

// Whether an operand is SYSOUT=x.
fn is_sysout(alloc: Global, text: &[Mark]) -> Result<bool, AllocError>
    ensures { IfOk result (λ b. b ≡ is_sysout (keyed text.now)) }
{
    let Some((key, value)) = keyed(text) else {
        return Ok(false);
    };
    let key = text_of(alloc, key)?;
    let value = text_of(alloc, value)?;
    Ok(key.as_slice() == b"SYSOUT".as_slice() && is_class(value.as_slice()))
}

const NO_OPERANDS: DdOperands = DdOperands {
    dsn: None,
    disp: None,
    serial: None,
    unit: false,
    space: None,
    dcb: None,
    expires: None,
};

fn keyed_form(operands: Option<DdOperands>) -> Option<DdForm>
    ensures { result ≡ option_map form.Keyed operands }
{
    Some(DdForm::Keyed(operands?))
}

// The form that a first operand begins.
#[tactic(auto, unfolding(crate::specs::DdOperands::first_form))]
fn first_form(alloc: Global, date: &[u8; 3], text: &[Mark]) -> Result<Option<DdForm>, AllocError>
    requires { IsDate date.now }
    ensures { IfOk result (λ form. form ≡ first_form date.now text.now) }
{
    let characters = text_of(alloc, text)?;
    if characters.as_slice() == b"DUMMY".as_slice() {
        return Ok(Some(DdForm::Dummy));
    }
    if characters.as_slice() == b"*".as_slice() {
        return Ok(Some(DdForm::Cards));
    }
    if is_sysout(alloc, text)? {
        return Ok(Some(DdForm::Sysout));
    }
    Ok(keyed_form(with_dd_parts(alloc, date, NO_OPERANDS, text)?))
}

// A form with one more operand, if it has a form that is taken there.
fn with_dd_operand(
    alloc: Global,
    date: &[u8; 3],
    form: DdForm,
    text: &[Mark],
) -> Result<Option<DdForm>, AllocError>
    requires { IsDate date.now }
    ensures { IfOk result (λ more. more ≡ with_dd_operand date.now form text.now) }
{
    match form {
        DdForm::Empty => first_form(alloc, date, text),
        DdForm::Keyed(operands) => Ok(keyed_form(with_dd_parts(alloc, date, operands, text)?)),
        _ => Ok(None),
    }
}

// A form with one more operand, or its fault.
#[tactic(auto, unfolding(crate::specs::DdOperands::with_dd_piece))]
fn with_dd_piece(
    alloc: Global,
    date: &[u8; 3],
    form: DdForm,
    piece: &Piece,
) -> Result<Result<DdForm, JclErr>, AllocError>
    requires { IsDate date.now }
    ensures { IfOk result (λ read. read ≡ with_dd_piece date.now form piece.now) }
{
    if is_unbalanced_piece(piece) {
        return Ok(Err(fault_at(piece.place, JclKind::Unbalanced)));
    }
    match with_dd_operand(alloc, date, form, piece.text.as_slice())? {
        Some(form) => Ok(Ok(form)),
        None => Ok(Err(fault_at(piece.place, JclKind::BadOperand))),
    }
}

// The form that operands have, or the first fault.
#[tactic(auto, unfolding(crate::specs::DdOperands::with_dd_pieces))]
fn form_of_pieces(
    alloc: Global,
    date: &[u8; 3],
    pieces: &[Piece],
) -> Result<Result<DdForm, JclErr>, AllocError>
    requires { IsDate date.now }
    ensures { IfOk result (λ read. read ≡ with_dd_pieces date.now form.Empty pieces.now) }
{
    let mut form = DdForm::Empty;
    for piece in pieces {
        match with_dd_piece(alloc, date, form, piece)? {
            Ok(more) => form = more,
            Err(fault) => return Ok(Err(fault)),
        }
    }
    Ok(Ok(form))
}

fn form_or_missing(missing: JclErr, read: Result<DdForm, JclErr>) -> Result<DdForm, JclErr>
    ensures { result ≡ form_or_missing missing read }
{
    match read? {
        DdForm::Empty => Err(missing),
        form => Ok(form),
    }
}

// The form that the operands of a DD have, or the first fault.
#[tactic(auto, unfolding(crate::specs::DdOperands::dd_form_of))]
pub fn dd_form_of(
    alloc: Global,
    date: &[u8; 3],
    operands: &Joined,
) -> Result<Result<DdForm, JclErr>, AllocError>
    requires { IsDate date.now }
    ensures { IfOk result (λ read. read ≡ dd_form_of date.now operands.now) }
{
    let read = form_of_pieces(alloc, date, &pieces(alloc, operands)?)?;
    let missing = fault_at(missing_place(&operands.last), JclKind::BadOperand);
    Ok(form_or_missing(missing, with_continuation(operands, read)))
}

// The set that operands define.
pub fn set_of(operands: DdOperands, named: (Dsn, DdPart)) -> DdSet
    ensures { result ≡ set_of operands named }
{
    let (status, after) = operands.disp.unwrap_or((DdStatus::New, DdAfter::Delete));
    DdSet {
        dsn: named.0,
        part: named.1,
        status,
        after,
        serial: operands.serial,
        space: operands.space,
        dcb: operands.dcb.unwrap_or(Dcb::NONE),
        expires: operands.expires.unwrap_or([0, 0, 0]),
    }
}
