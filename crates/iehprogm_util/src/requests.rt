//! What the statements of IEHPROGM ask for.
ghost use Rattle.std.specs.Prelude.{◌≡◌, codes, map, IfSome};
ghost use Rattle.std.specs.List.{list_all, list_any};
ghost use Rattle.card_text.specs.declared.operands.Operand.{Operand};
ghost use Rattle.card_text.specs.Operands.{operand_view};
ghost use Rattle.card_text.specs.Tree.{value_view};
ghost use Rattle.util_syntax.specs.Forms.{has_keyword};
ghost use Rattle.util_syntax.specs.Program.{statement_view};
ghost use Rattle.iehprogm_util.specs.Requests.{IsLawfulRequest, is_rename_operand, is_scratch_operand, member_rename_of, member_scratch_of, names_member, rename_of, request_of, scratch_of, set_rename_of, set_scratch_of};
ghost use Rattle.iehprogm_util.specs.Items.{object_of, operation_word, serial_in};

use ebcdic_names::{Dsn, Name8, Serial};
use util_syntax::{
    Object, Operand, Statement, data_set_of, flag_of, has_keyword, is_flag, is_named, member_of,
    value_of, volume_of,
};

/// What a statement asks for.
#[derive(Clone, Copy, Debug, PartialEq, Eq)]
pub enum Request {
    /// RENAME: a data set gets another name.
    Rename {
        /// The serial of its volume.
        serial: Serial,
        /// Its name.
        old: Dsn,
        /// Its name afterwards.
        new: Dsn,
    },
    /// RENAME with MEMBER: a member of a partitioned data set is renamed.
    RenameMember {
        /// The serial of the set's volume.
        serial: Serial,
        /// The set.
        dsn: Dsn,
        /// The member's name.
        old: Name8,
        /// Its name afterwards. It isn't eight times X'FF', which ends a directory.
        new: Name8,
    },
    /// SCRATCH: a data set goes.
    Scratch {
        /// The serial of its volume.
        serial: Serial,
        /// Its name.
        dsn: Dsn,
        /// Whether it goes before its expiration date too.
        purge: bool,
    },
    /// SCRATCH with MEMBER: a member of a partitioned data set is dropped.
    ScratchMember {
        /// The serial of the set's volume.
        serial: Serial,
        /// The set.
        dsn: Dsn,
        /// The member's name.
        member: Name8,
    },
}

impl Request {
    /// The operation of the statement.
    pub fn operation(&self) -> &'static str
        ensures { result.now ≡ operation_word self.now }
    {
        match self {
            Request::Rename { .. } => "RENAME",
            Request::RenameMember { .. } => "RENAME",
            Request::Scratch { .. } => "SCRATCH",
            Request::ScratchMember { .. } => "SCRATCH",
        }
    }

    /// The serial of the volume that the statement names.
    pub fn serial(&self) -> Serial
        ensures { result ≡ serial_in self.now }
    {
        match self {
            Request::Rename { serial, .. } => *serial,
            Request::RenameMember { serial, .. } => *serial,
            Request::Scratch { serial, .. } => *serial,
            Request::ScratchMember { serial, .. } => *serial,
        }
    }

    /// The data set or the member that the statement names; of one that is renamed, the old name.
    pub fn object(&self) -> Object
        ensures { result ≡ object_of self.now }
    {
        match self {
            Request::Rename { old, .. } => Object::Name(*old),
            Request::RenameMember { dsn, old, .. } => Object::Member {
                set: *dsn,
                name: *old,
            },
            Request::Scratch { dsn, .. } => Object::Name(*dsn),
            Request::ScratchMember { dsn, member, .. } => Object::Member {
                set: *dsn,
                name: *member,
            },
        }
    }
}

// Whether one of these operands has the keyword MEMBER.
fn one_names_member(operands: &[Operand]) -> bool
    ensures { result ≡ list_any (λ (o : Operand). has_keyword (codes "MEMBER") (operand_view o)) operands.now }
{
    operands
        .iter()
        .any(|operand| has_keyword(operand, b"MEMBER"))
}

// The same over the views of the operands.
fn names_member(operands: &[Operand]) -> bool
    ensures { result ≡ names_member (map operand_view operands.now) }
{
    one_names_member(operands)
}

fn is_rename_operand(operand: &Operand) -> bool
    ensures { result ≡ is_rename_operand (operand_view operand.now) }
{
    has_keyword(operand, b"DSNAME")
        || has_keyword(operand, b"VOL")
        || has_keyword(operand, b"NEWNAME")
        || has_keyword(operand, b"MEMBER")
}

// Whether RENAME takes each of these operands.
fn each_of_rename(operands: &[Operand]) -> bool
    ensures { result ≡ list_all (λ (o : Operand). is_rename_operand (operand_view o)) operands.now }
{
    operands.iter().all(|operand| is_rename_operand(operand))
}

// The same over the views of the operands.
fn all_of_rename(operands: &[Operand]) -> bool
    ensures { result ≡ list_all is_rename_operand (map operand_view operands.now) }
{
    each_of_rename(operands)
}

// RENAME of a data set.
#[tactic(auto, unfolding(crate::specs::Requests::set_rename_of))]
fn set_rename_of(operands: &[Operand]) -> Option<Request>
    ensures request { result ≡ set_rename_of (map operand_view operands.now) }
    ensures lawful { IfSome result IsLawfulRequest }
{
    let old = data_set_of(operands, b"DSNAME")?;
    let serial = volume_of(operands, b"VOL")?;
    let new = data_set_of(operands, b"NEWNAME")?;
    Some(Request::Rename { serial, old, new })
}

// RENAME of a member.
#[tactic(auto, unfolding(crate::specs::Requests::member_rename_of))]
fn member_rename_of(operands: &[Operand]) -> Option<Request>
    ensures request { result ≡ member_rename_of (map operand_view operands.now) }
    ensures lawful { IfSome result IsLawfulRequest }
{
    let dsn = data_set_of(operands, b"DSNAME")?;
    let serial = volume_of(operands, b"VOL")?;
    let old = member_of(operands, b"MEMBER")?;
    let new = member_of(operands, b"NEWNAME")?;
    Some(Request::RenameMember {
        serial,
        dsn,
        old,
        new,
    })
}

#[tactic(auto, unfolding(crate::specs::Requests::rename_of))]
fn rename_of(operands: &[Operand]) -> Option<Request>
    ensures request { result ≡ rename_of (map operand_view operands.now) }
    ensures lawful { IfSome result IsLawfulRequest }
{
    if !all_of_rename(operands) {
        return None;
    }
    if names_member(operands) {
        member_rename_of(operands)
    } else {
        set_rename_of(operands)
    }
}

fn is_scratch_operand(operand: &Operand) -> bool
    ensures { result ≡ is_scratch_operand (operand_view operand.now) }
{
    has_keyword(operand, b"DSNAME")
        || has_keyword(operand, b"VOL")
        || has_keyword(operand, b"MEMBER")
        || is_flag(operand, b"PURGE")
}

// Whether SCRATCH takes each of these operands.
fn each_of_scratch(operands: &[Operand]) -> bool
    ensures { result ≡ list_all (λ (o : Operand). is_scratch_operand (operand_view o)) operands.now }
{
    operands.iter().all(|operand| is_scratch_operand(operand))
}

// The same over the views of the operands.
fn all_of_scratch(operands: &[Operand]) -> bool
    ensures { result ≡ list_all is_scratch_operand (map operand_view operands.now) }
{
    each_of_scratch(operands)
}

// SCRATCH of a data set.
#[tactic(auto, unfolding(crate::specs::Requests::set_scratch_of))]
fn set_scratch_of(operands: &[Operand]) -> Option<Request>
    ensures request { result ≡ set_scratch_of (map operand_view operands.now) }
    ensures lawful { IfSome result IsLawfulRequest }
{
    let dsn = data_set_of(operands, b"DSNAME")?;
    let serial = volume_of(operands, b"VOL")?;
    let purge = flag_of(operands, b"PURGE")?;
    Some(Request::Scratch { serial, dsn, purge })
}

// SCRATCH of a member.
#[tactic(auto, unfolding(crate::specs::Requests::member_scratch_of))]
fn member_scratch_of(operands: &[Operand]) -> Option<Request>
    ensures request { result ≡ member_scratch_of (map operand_view operands.now) }
    ensures lawful { IfSome result IsLawfulRequest }
{
    let dsn = data_set_of(operands, b"DSNAME")?;
    let serial = volume_of(operands, b"VOL")?;
    let member = member_of(operands, b"MEMBER")?;
    // PURGE may stand here too, and says nothing of a member.
    flag_of(operands, b"PURGE")?;
    Some(Request::ScratchMember {
        serial,
        dsn,
        member,
    })
}

#[tactic(auto, unfolding(crate::specs::Requests::scratch_of))]
fn scratch_of(operands: &[Operand]) -> Option<Request>
    ensures request { result ≡ scratch_of (map operand_view operands.now) }
    ensures lawful { IfSome result IsLawfulRequest }
{
    if !all_of_scratch(operands) {
        return None;
    }
    if names_member(operands) {
        member_scratch_of(operands)
    } else {
        set_scratch_of(operands)
    }
}

/// What a statement asks for; `None` where it hasn't the form of its operation, or its operation isn't one of these:
///
/// - `RENAME DSNAME=old,VOL=dev=serial,NEWNAME=new`
/// - `RENAME DSNAME=dsn,VOL=dev=serial,MEMBER=old,NEWNAME=new`
/// - `SCRATCH DSNAME=dsn,VOL=dev=serial[,PURGE]`
/// - `SCRATCH DSNAME=dsn,VOL=dev=serial,MEMBER=member[,PURGE]`
///
/// Operands stand in any order, each once. A member is one level.
#[tactic(auto, unfolding(crate::specs::Requests::request_of))]
pub fn request_of(statement: &Statement) -> Option<Request>
    ensures request { result ≡ request_of (statement_view statement.now) }
    ensures lawful { IfSome result IsLawfulRequest }
{
    if is_named(&statement.op, b"RENAME") {
        rename_of(&statement.operands)
    } else if is_named(&statement.op, b"SCRATCH") {
        scratch_of(&statement.operands)
    } else {
        None
    }
}
