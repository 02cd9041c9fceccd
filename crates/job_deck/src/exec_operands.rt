//! The operands of EXEC.
ghost use Rattle.std.specs.Prelude.{◌≡◌, IfOk};
ghost use Rattle.card_text.specs.Operands.{keyed};
ghost use Rattle.job_deck.specs.ExecOperands.{exec_key_of, parm_of, with_exec_value, with_exec_parts, with_exec_piece, with_exec_pieces, no_exec_operands, program_with, program_of};

use crate::faults::{JclErr, JclKind, fault_at};
use crate::operands::{Piece, is_unbalanced_piece, pieces, with_continuation};
use crate::statements::Joined;
use card_text::{
    LEVELS, Mark, Text, is_quoted, keyed, missing_place, name_of, read_value, text_of, unquoted,
};
use ebcdic_names::Name8;
use std::alloc::{AllocError, Global};

// A keyword of EXEC.
#[derive(Clone, Copy)]
pub enum ExecKey {
    Pgm,
    Parm,
    Region,
    Time,
}

// What the operands of an EXEC give.
#[derive(Drop)]
pub struct ExecOperands {
    pub pgm: Option<Name8>,
    pub parm: Option<Text>,
    pub region: bool,
    pub time: bool,
}

// A program and its parameter.
#[derive(Drop)]
pub struct Program {
    pub pgm: Name8,
    pub parm: Text,
}

#[tactic(auto, unfolding(crate::specs::ExecOperands::exec_key_of))]
fn exec_key_of(key: &[u8]) -> Option<ExecKey>
    ensures { result ≡ exec_key_of key.now }
{
    if key == b"PGM".as_slice() {
        Some(ExecKey::Pgm)
    } else if key == b"PARM".as_slice() {
        Some(ExecKey::Parm)
    } else if key == b"REGION".as_slice() {
        Some(ExecKey::Region)
    } else if key == b"TIME".as_slice() {
        Some(ExecKey::Time)
    } else {
        None
    }
}

// The parameter that a value gives: the text in quotes, or a word or a list as it stands.
#[tactic(auto, unfolding(crate::specs::ExecOperands::parm_of))]
fn parm_of(alloc: Global, text: &[Mark]) -> Result<Option<Text>, AllocError>
    ensures { IfOk result (λ parm. parm ≡ parm_of text.now) }
{
    if is_quoted(text) {
        return Ok(Some(unquoted(alloc, text)?));
    }
    if read_value(alloc, LEVELS, 0, text)?.is_some() {
        return Ok(Some(text_of(alloc, text)?));
    }
    Ok(None)
}

// Operands with a value for one of them, which has none yet.
#[tactic(auto, unfolding(crate::specs::ExecOperands::with_exec_value))]
fn with_exec_value(
    alloc: Global,
    operands: ExecOperands,
    key: ExecKey,
    value: &[Mark],
) -> Result<Option<ExecOperands>, AllocError>
    ensures { IfOk result (λ more. more ≡ with_exec_value operands key value.now) }
{
    let mut operands = operands;
    match key {
        ExecKey::Pgm => {
            let pgm = name_of(text_of(alloc, value)?.as_slice());
            if operands.pgm.is_some() || pgm.is_none() {
                return Ok(None);
            }
            operands.pgm = pgm;
        }
        ExecKey::Parm => {
            let parm = parm_of(alloc, value)?;
            if operands.parm.is_some() || parm.is_none() {
                return Ok(None);
            }
            operands.parm = parm;
        }
        ExecKey::Region => {
            if operands.region {
                return Ok(None);
            }
            operands.region = true;
        }
        ExecKey::Time => {
            if operands.time {
                return Ok(None);
            }
            operands.time = true;
        }
    }
    Ok(Some(operands))
}

// Operands with one more, if it has a form that is taken.
fn with_exec_parts(
    alloc: Global,
    operands: ExecOperands,
    text: &[Mark],
) -> Result<Option<ExecOperands>, AllocError>
    ensures { IfOk result (λ more. more ≡ with_exec_parts operands (keyed text.now)) }
{
    let Some((key, value)) = keyed(text) else {
        return Ok(None);
    };
    match exec_key_of(text_of(alloc, key)?.as_slice()) {
        Some(key) => with_exec_value(alloc, operands, key, value),
        None => Ok(None),
    }
}

// Operands with one more, or its fault.
#[tactic(auto, unfolding(crate::specs::ExecOperands::with_exec_piece))]
fn with_exec_piece(
    alloc: Global,
    operands: ExecOperands,
    piece: &Piece,
) -> Result<Result<ExecOperands, JclErr>, AllocError>
    ensures { IfOk result (λ read. read ≡ with_exec_piece operands piece.now) }
{
    if is_unbalanced_piece(piece) {
        return Ok(Err(fault_at(piece.place, JclKind::Unbalanced)));
    }
    match with_exec_parts(alloc, operands, piece.text.as_slice())? {
        Some(operands) => Ok(Ok(operands)),
        None => Ok(Err(fault_at(piece.place, JclKind::BadOperand))),
    }
}

// What operands give, or the first fault.
#[tactic(auto, unfolding(crate::specs::ExecOperands::with_exec_pieces))]
fn exec_operands(
    alloc: Global,
    pieces: &[Piece],
) -> Result<Result<ExecOperands, JclErr>, AllocError>
    ensures { IfOk result (λ read. read ≡ with_exec_pieces no_exec_operands pieces.now) }
{
    let mut operands = ExecOperands {
        pgm: None,
        parm: None,
        region: false,
        time: false,
    };
    for piece in pieces {
        match with_exec_piece(alloc, operands, piece)? {
            Ok(more) => operands = more,
            Err(fault) => return Ok(Err(fault)),
        }
    }
    Ok(Ok(operands))
}

fn program_with(
    alloc: Global,
    missing: JclErr,
    read: Result<ExecOperands, JclErr>,
) -> Result<Program, JclErr>
    ensures { result ≡ program_with missing read }
{
    let ExecOperands {
        pgm,
        parm,
        region: _,
        time: _,
    } = read?;
    let parm = match parm {
        Some(parm) => parm,
        None => Text::new(alloc),
    };
    match pgm {
        Some(pgm) => Ok(Program { pgm, parm }),
        None => Err(missing),
    }
}

// The program that operands name, and its parameter; or the first fault.
#[tactic(auto, unfolding(crate::specs::ExecOperands::program_of))]
pub fn program_of(alloc: Global, operands: &Joined) -> Result<Result<Program, JclErr>, AllocError>
    ensures { IfOk result (λ read. read ≡ program_of operands.now) }
{
    let read = exec_operands(alloc, &pieces(alloc, operands)?)?;
    let missing = fault_at(missing_place(&operands.last), JclKind::NoProgram);
    Ok(program_with(alloc, missing, with_continuation(operands, read)))
}
