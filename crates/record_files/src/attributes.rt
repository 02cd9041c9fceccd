//! The attributes of the records that are read and written, and the data sets that hold them.
ghost use Rattle.std.specs.Prelude.{◌≡◌};
ghost use Rattle.util_steps.specs.Taking.{IsReady, Reads};
ghost use Rattle.record_files.specs.Attributes.{FindsSet, breaks_rule, first_refusal, format_in, info_if, output_attr, rank, serves, usable_set, with_card_format, with_dcb, with_format_of};

use ebcdic_names::Dsn;
use jcl_forms::Dcb;
use record_blocks::Format;
use util_steps::SetRef;
use vol_model::{Attr, Kind, Machine, Refusal, SetInfo, Stop, is_catalog};

/// The format that these attributes give.
pub fn format_in(attr: &Attr) -> Format
    ensures { result ≡ format_in attr.now }
{
    Format {
        recfm: attr.recfm,
        lrecl: attr.lrecl,
        blksize: attr.blksize,
    }
}

// Attributes with the record format and lengths of others.
fn with_format_of(other: &Attr, own: &Attr) -> Attr
    ensures { result ≡ with_format_of other.now own.now }
{
    Attr {
        recfm: other.recfm,
        optcd: other.optcd,
        blksize: other.blksize,
        lrecl: other.lrecl,
        keylen: other.keylen,
        rkp: other.rkp,
        ..*own
    }
}

// Attributes with those of cards.
fn with_card_format(own: &Attr) -> Attr
    ensures { result ≡ with_card_format own.now }
{
    Attr {
        recfm: 0x80,
        optcd: 0,
        blksize: 80,
        lrecl: 80,
        keylen: 0,
        rkp: 0,
        ..*own
    }
}

// Attributes with those that a DD gives.
fn with_dcb(dcb: &Dcb, attr: &Attr) -> Attr
    ensures { result ≡ with_dcb dcb.now attr.now }
{
    Attr {
        recfm: dcb.recfm.unwrap_or(attr.recfm),
        lrecl: dcb.lrecl.unwrap_or(attr.lrecl),
        blksize: dcb.blksize.unwrap_or(attr.blksize),
        keylen: dcb.keylen.unwrap_or(attr.keylen),
        ..*attr
    }
}

/// The attributes of the output: field by field those that its DD gives, else its own where its record format isn't 0,
/// else those of the input, which are F, 80, 80 where it is no data set.
#[tactic(auto, unfolding(crate::specs::Attributes::output_attr))]
pub fn output_attr(dcb: &Dcb, own: &Attr, input: &Option<Attr>) -> Attr
    ensures { result ≡ output_attr dcb.now own.now input.now }
{
    if own.recfm != 0 {
        return with_dcb(dcb, own);
    }
    match input {
        Some(input) => with_dcb(dcb, &with_format_of(input, own)),
        None => with_dcb(dcb, &with_format_of(&with_card_format(own), own)),
    }
}

/// Whether one of two formats breaks a rule.
pub fn breaks_rule(input: &Format, output: &Format) -> bool
    ensures { result ≡ breaks_rule input.now output.now }
{
    input.check().is_err() || output.check().is_err()
}

/// What a data set is found for.
#[derive(Clone, Copy, Debug, PartialEq, Eq)]
pub enum Purpose {
    /// Its records are read, or others are written after them: it is sequential.
    Records,
    /// It is emptied and written: it is sequential, or has no organization.
    Rewrite,
    /// Members of it are read or written: it is partitioned.
    Members,
}

// Whether a data set serves a purpose.
fn serves(purpose: Purpose, name: &Dsn, attr: &Attr) -> bool
    ensures { result ≡ serves purpose name.now.bytes attr.now }
{
    match purpose {
        Purpose::Records => !is_catalog(name) && attr.dsorg / 512 == 32,
        Purpose::Rewrite => {
            (!is_catalog(name) && attr.dsorg / 512 == 32) || (attr.dsorg == 0 && !is_catalog(name))
        }
        Purpose::Members => !is_catalog(name) && attr.dsorg / 512 == 1,
    }
}

// What is told of a data set, if it serves a purpose and can be read.
fn unless_refused(purpose: Purpose, name: &Dsn, info: SetInfo) -> Result<SetInfo, Refusal>
    ensures { result ≡ info_if purpose name.now.bytes info }
{
    if !serves(purpose, name, &info.attr) {
        return Err(Refusal::WrongKind);
    }
    match info.kind {
        Kind::Unreadable(track) => Err(Refusal::Unreadable(track)),
        _ => Ok(info),
    }
}

/// What is told of a data set that serves a purpose, or why there is none.
pub fn find_set<M: Machine>(
    machine: &mut M,
    purpose: Purpose,
    set: &SetRef,
) -> Result<Result<SetInfo, Refusal>, Stop>
    requires { IsReady M.Machine machine.old }
    ensures { Reads M.Machine (λ shelf answer. FindsSet answer (usable_set shelf purpose set.now)) machine.old machine.new result }
{
    let mounted = machine.volume(set.v).is_some();
    match machine.attr(set.v, &set.dsn)? {
        Some(info) => Ok(unless_refused(purpose, &set.dsn, info)),
        None if mounted => Ok(Err(Refusal::NoSet)),
        None => Ok(Err(Refusal::NoVolume)),
    }
}

// The number of a refusal of those that are met here.
fn rank(refusal: Refusal) -> u8
    ensures { result ≡ rank refusal }
{
    match refusal {
        Refusal::NoVolume => 1,
        Refusal::NoSet => 2,
        Refusal::WrongKind => 4,
        Refusal::Unreadable(_) => 5,
        Refusal::NoMember => 10,
        _ => 11,
    }
}

/// Of two refusals the one of the lower number.
pub fn first_refusal(a: Refusal, b: Refusal) -> Refusal
    ensures { result ≡ first_refusal a b }
{
    if rank(a) <= rank(b) { a } else { b }
}
