//! What a DD takes so far: data sets and their members, which the step keeps or scratches, but no generation and no new
//! catalog.
ghost use Rattle.std.specs.Prelude.{◌≡◌, ◌++◌, [], ◌∷◌, find, option_map, IfOk, OnOk};
ghost use Rattle.std.specs.List.{list_any};
ghost use Rattle.std.specs.Option.{option_map_or};
ghost use Rattle.card_text.specs.Operands.{keyed};
ghost use Rattle.job_deck.specs.Faults.{fault_at};
ghost use Rattle.job_deck.specs.Taken.{is_of_catalog, is_of_one_set, named_set_of, leaves_catalog, plain_disposition_of, is_catalog_name, names_catalog, is_old, is_old_disposition, asks_for_old, new_catalog_faults};
ghost use Rattle.job_deck.specs.declared.faults.JclKind.TheVariants.{BadOperand};

use crate::faults::{JclErr, JclKind, fault_at};
use crate::operands::Piece;
use crate::statements::is_either;
use card_text::{CardColumn, keyed, text_of};
use ebcdic_names::Dsn;
use jcl_forms::{DdAfter, DdPart, DdStatus, data_set_of, disposition_of};
use std::alloc::{AllocError, Global};
use vol_model::is_catalog;

fn is_of_one_set(part: DdPart) -> bool
    ensures { result ≡ is_of_one_set part }
{
    matches!(part, DdPart::Whole | DdPart::Member(_))
}

// The value of a DSN, which names no generation.
#[tactic(auto, unfolding(crate::specs::Taken::named_set_of))]
pub fn named_set_of(text: &[u8]) -> Option<(Dsn, DdPart)>
    ensures { result ≡ named_set_of text.now }
{
    let named = data_set_of(text)?;
    if is_of_one_set(named.1) {
        Some(named)
    } else {
        None
    }
}

fn leaves_catalog(after: DdAfter) -> bool
    ensures { result ≡ leaves_catalog after }
{
    matches!(after, DdAfter::Delete | DdAfter::Keep)
}

// The value of a DISP, by which nothing is done in the catalog.
#[tactic(auto, unfolding(crate::specs::Taken::plain_disposition_of))]
pub fn plain_disposition_of(text: &[u8]) -> Option<(DdStatus, DdAfter)>
    ensures { result ≡ plain_disposition_of text.now }
{
    let disposition = disposition_of(text)?;
    if leaves_catalog(disposition.1) {
        Some(disposition)
    } else {
        None
    }
}

// Whether the set that is named is the catalog's, whatever part of it is meant.
fn is_of_catalog(named: Option<(Dsn, DdPart)>) -> bool
    ensures { result ≡ is_of_catalog named }
{
    match named {
        Some((dsn, _)) => is_catalog(&dsn),
        None => false,
    }
}

// Whether an operand is a DSN that names SYSCTLG, or a member of it.
fn names_catalog(alloc: Global, piece: &Piece) -> Result<bool, AllocError>
    ensures { IfOk result (λ b. b ≡ names_catalog piece.now) }
{
    let Some((key, value)) = keyed(piece.text.as_slice()) else {
        return Ok(false);
    };
    let key = text_of(alloc, key)?;
    let value = text_of(alloc, value)?;
    Ok(
        is_either(b"DSN".as_slice(), b"DSNAME".as_slice(), key.as_slice())
            && is_of_catalog(data_set_of(value.as_slice())),
    )
}

// Whether a disposition is that of a set that is there already.
fn is_old(disposition: Option<(DdStatus, DdAfter)>) -> bool
    ensures { result ≡ is_old disposition }
{
    match disposition {
        Some((status, _)) => matches!(status, DdStatus::Old | DdStatus::Shr),
        None => false,
    }
}

// Whether an operand is DISP with OLD or SHR.
fn asks_for_old(alloc: Global, piece: &Piece) -> Result<bool, AllocError>
    ensures { IfOk result (λ b. b ≡ asks_for_old piece.now) }
{
    let Some((key, value)) = keyed(piece.text.as_slice()) else {
        return Ok(false);
    };
    let key = text_of(alloc, key)?;
    let value = text_of(alloc, value)?;
    Ok(key.as_slice() == b"DISP".as_slice() && is_old(disposition_of(value.as_slice())))
}

// Whether one of the operands is DISP with OLD or SHR.
fn has_old(alloc: Global, pieces: &[Piece]) -> Result<bool, AllocError>
    ensures { IfOk result (λ b. b ≡ list_any asks_for_old pieces.now) }
{
    for piece in pieces {
        if asks_for_old(alloc, piece)? {
            return Ok(true);
        }
    }
    Ok(false)
}

// Where the first operand begins that names the catalog.
fn catalog_place(alloc: Global, pieces: &[Piece]) -> Result<Option<CardColumn>, AllocError>
    ensures { IfOk result (λ place. place ≡ option_map (λ piece. piece.place) (find names_catalog pieces.now)) }
{
    for piece in pieces {
        if names_catalog(alloc, piece)? {
            return Ok(Some(piece.place));
        }
    }
    Ok(None)
}

// Adds the fault of operands that may make a catalog, at the name.
#[tactic(auto, unfolding(crate::specs::Taken::new_catalog_faults))]
pub fn add_new_catalog_fault(
    alloc: Global,
    faults: &mut Vec<JclErr>,
    pieces: &[Piece],
) -> Result<(), AllocError>
    ensures { OnOk result (faults.new.items ≡ faults.old.items ++ new_catalog_faults pieces.now) }
{
    if has_old(alloc, pieces)? {
        return Ok(());
    }
    if let Some(place) = catalog_place(alloc, pieces)? {
        faults.push(fault_at(place, JclKind::BadOperand))?;
    }
    Ok(())
}
