//! What the statements of IEHLIST ask for.
ghost use Rattle.std.specs.Prelude.{◌≡◌, map, IfOk, option_map};
ghost use Rattle.std.specs.List.{list_all};
ghost use Rattle.card_text.specs.declared.operands.Operand.{Operand};
ghost use Rattle.card_text.specs.Operands.{operand_view};
ghost use Rattle.util_syntax.specs.Program.{statement_view};
ghost use Rattle.iehlist_util.specs.Requests.{is_pds_operand, is_vtoc_operand, pds_among, pds_of, request_of, vtoc_of};

use ebcdic_names::{Dsn, Serial};
use std::alloc::{AllocError, Global};
use util_syntax::{
    Operand, Statement, data_sets_if_given, flag_of, has_keyword, is_flag, is_named,
    volume_if_given,
};
use vol_model::Listed;

/// What LISTVTOC asks for.
#[derive(Debug, Drop)]
pub struct ListVtoc {
    /// The serial of the volume; without it the first one is listed.
    pub volume: Option<Serial>,
    /// Whether the extents are listed too.
    pub format: bool,
    /// The data sets; without them all of the volume are listed.
    pub names: Option<Listed<Dsn>>,
}

/// What LISTPDS asks for.
#[derive(Debug, Drop)]
pub struct ListPds {
    /// The serial of the volume; without it the first one is meant.
    pub volume: Option<Serial>,
    /// The first data set.
    pub first: Dsn,
    /// The data sets after it.
    pub others: Listed<Dsn>,
}

/// What a statement asks for.
#[derive(Debug, Drop)]
pub enum Request {
    /// LISTVTOC: a volume, and data sets of it.
    Vtoc(ListVtoc),
    /// LISTPDS: the directories of partitioned data sets.
    Pds(ListPds),
}

fn is_vtoc_operand(operand: &Operand) -> bool
    ensures { result ≡ is_vtoc_operand (operand_view operand.now) }
{
    has_keyword(operand, b"VOL") || has_keyword(operand, b"DSNAME") || is_flag(operand, b"FORMAT")
}

// Whether LISTVTOC takes each of these operands.
fn each_of_vtoc(operands: &[Operand]) -> bool
    ensures { result ≡ list_all (λ (o : Operand). is_vtoc_operand (operand_view o)) operands.now }
{
    operands.iter().all(|operand| is_vtoc_operand(operand))
}

// The same over the views of the operands.
fn all_of_vtoc(operands: &[Operand]) -> bool
    ensures { result ≡ list_all is_vtoc_operand (map operand_view operands.now) }
{
    each_of_vtoc(operands)
}

#[tactic(auto, unfolding(crate::specs::Requests::vtoc_of))]
fn vtoc_of(alloc: Global, operands: &[Operand]) -> Result<Option<ListVtoc>, AllocError>
    ensures { IfOk result (λ found. found ≡ vtoc_of (map operand_view operands.now)) }
{
    if !all_of_vtoc(operands) {
        return Ok(None);
    }
    let Some(volume) = volume_if_given(operands, b"VOL") else {
        return Ok(None);
    };
    let Some(format) = flag_of(operands, b"FORMAT") else {
        return Ok(None);
    };
    match data_sets_if_given(alloc, operands, b"DSNAME")? {
        Some(Some(names)) => Ok(Some(ListVtoc {
            volume,
            format,
            names: Some(Listed::from_vec(names)),
        })),
        Some(None) => Ok(Some(ListVtoc {
            volume,
            format,
            names: None,
        })),
        None => Ok(None),
    }
}

fn is_pds_operand(operand: &Operand) -> bool
    ensures { result ≡ is_pds_operand (operand_view operand.now) }
{
    has_keyword(operand, b"DSNAME") || has_keyword(operand, b"VOL")
}

// Whether LISTPDS takes each of these operands.
fn each_of_pds(operands: &[Operand]) -> bool
    ensures { result ≡ list_all (λ (o : Operand). is_pds_operand (operand_view o)) operands.now }
{
    operands.iter().all(|operand| is_pds_operand(operand))
}

// The same over the views of the operands.
fn all_of_pds(operands: &[Operand]) -> bool
    ensures { result ≡ list_all is_pds_operand (map operand_view operands.now) }
{
    each_of_pds(operands)
}

// LISTPDS of data sets, of which there is one at least.
fn pds_among(volume: Option<Serial>, mut names: Vec<Dsn>) -> Option<ListPds>
    ensures { result ≡ pds_among volume names.items }
{
    if names.is_empty() {
        return None;
    }
    let first = names.remove(0);
    Some(ListPds {
        volume,
        first,
        others: Listed::from_vec(names),
    })
}

#[tactic(auto, unfolding(crate::specs::Requests::pds_of))]
fn pds_of(alloc: Global, operands: &[Operand]) -> Result<Option<ListPds>, AllocError>
    ensures { IfOk result (λ found. found ≡ pds_of (map operand_view operands.now)) }
{
    if !all_of_pds(operands) {
        return Ok(None);
    }
    let Some(volume) = volume_if_given(operands, b"VOL") else {
        return Ok(None);
    };
    match data_sets_if_given(alloc, operands, b"DSNAME")? {
        Some(Some(names)) => Ok(pds_among(volume, names)),
        Some(None) => Ok(None),
        None => Ok(None),
    }
}

// LISTVTOC as a request.
fn vtoc_request(alloc: Global, operands: &[Operand]) -> Result<Option<Request>, AllocError>
    ensures { IfOk result (λ found. found ≡ option_map (λ r. Request.Vtoc r) (vtoc_of (map operand_view operands.now))) }
{
    match vtoc_of(alloc, operands)? {
        Some(request) => Ok(Some(Request::Vtoc(request))),
        None => Ok(None),
    }
}

// LISTPDS as a request.
fn pds_request(alloc: Global, operands: &[Operand]) -> Result<Option<Request>, AllocError>
    ensures { IfOk result (λ found. found ≡ option_map (λ r. Request.Pds r) (pds_of (map operand_view operands.now))) }
{
    match pds_of(alloc, operands)? {
        Some(request) => Ok(Some(Request::Pds(request))),
        None => Ok(None),
    }
}

/// What a statement asks for; `None` where it hasn't the form of its operation, or its operation isn't one of these:
///
/// - `LISTVTOC [VOL=dev=serial][,FORMAT][,DSNAME=(dsn,..)]`
/// - `LISTPDS DSNAME=(dsn,..)[,VOL=dev=serial]`
///
/// Operands stand in any order, each once. The one error is want of memory.
#[tactic(auto, unfolding(crate::specs::Requests::request_of))]
pub fn request_of(alloc: Global, statement: &Statement) -> Result<Option<Request>, AllocError>
    ensures { IfOk result (λ found. found ≡ request_of (statement_view statement.now)) }
{
    if is_named(&statement.op, b"LISTVTOC") {
        vtoc_request(alloc, &statement.operands)
    } else if is_named(&statement.op, b"LISTPDS") {
        pds_request(alloc, &statement.operands)
    } else {
        Ok(None)
    }
}
