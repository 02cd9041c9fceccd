//! What the statements of IEBGENER ask for.
ghost use Rattle.std.specs.Prelude.{◌≡◌, codes, map, option_map, option_and_then, is_some, IfOk};
ghost use Rattle.std.specs.List.{count_by, list_all};
ghost use Rattle.card_text.specs.declared.operands.Operand.{Operand};
ghost use Rattle.card_text.specs.Names.{number_of};
ghost use Rattle.card_text.specs.Operands.{operand_view};
ghost use Rattle.card_text.specs.Tree.{as_word, trees, value_view};
ghost use Rattle.util_syntax.specs.Forms.{has_keyword, if_given};
ghost use Rattle.util_syntax.specs.Program.{statement_view};
ghost use Rattle.iebgener_util.specs.Requests.{column_in, field_among, field_in, field_of, fields_among, first_item, ident_among, ident_in, ident_of, is_end, is_generate, is_limit, is_nothing, is_record_operand, items_behind, member_of, name_in, names_among, names_in, names_listed, names_with, number_or, origin_in, record_of, request_of, seen, stands_once, text_in};

use card_text::{name_of, number_of};
use ebcdic_names::Name8;
use record_files::in_ebcdic;
use std::alloc::{AllocError, Global};
use util_syntax::{Operand, Statement, Value, has_keyword, is_named, value_of};
use vol_model::{Listed, Text};

// The length of a field, or of the text of IDENT, where the statement gives none.
const LENGTH: u32 = 80;

/// The last record of a group: the one that has a text at a column.
#[derive(Debug, Drop)]
pub struct Ident {
    /// The number of bytes to which the text is cut, or filled with blanks.
    pub length: u32,
    /// The text in EBCDIC.
    pub text: Text,
    /// The column of its first byte, from 1.
    pub column: u32,
}

/// Where the bytes of a field come from.
#[derive(Debug, Drop)]
pub enum Origin {
    /// A column of the record that is edited, from 1.
    Column(u32),
    /// A text in EBCDIC.
    Text(Text),
}

/// A field of an edited record.
#[derive(Debug, Drop)]
pub struct Field {
    /// Its length in bytes.
    pub length: u32,
    /// Where its bytes come from.
    pub from: Origin,
    /// The column of the edited record at which it begins, from 1.
    pub to: u32,
}

/// How the records of a group are edited.
#[derive(Debug, Drop)]
pub struct Edit {
    /// What the last record of the group has; without it the group ends with the input.
    pub ident: Option<Ident>,
    /// The fields of an edited record, in the order in which they are laid.
    pub fields: Listed<Field>,
}

/// The names that a member is entered by.
#[derive(Debug, Drop)]
pub struct Names {
    /// Its own.
    pub name: Name8,
    /// Its other names.
    pub aliases: Listed<Name8>,
}

/// What a statement asks for.
#[derive(Debug, Drop)]
pub enum Request {
    /// GENERATE, whose numbers limit nothing.
    Generate,
    /// RECORD: a group of records is edited.
    Record(Edit),
    /// MEMBER: a member of these names begins.
    Member(Names),
}

// The first item of a list, if it has one, and those after it.
fn first_item(items: &[Value]) -> (Option<&Value>, &[Value])
    ensures first { seen (option_map (λ v. v.now) result.0) ≡ first_item (trees (map value_view items.now)) }
    ensures behind { trees (map value_view result.1.now) ≡ items_behind (trees (map value_view items.now)) }
{
    match items.split_first() {
        Some((first, behind)) => (Some(first), behind),
        None => (None, items),
    }
}

// Whether a list has no item.
fn is_end(items: &[Value]) -> bool
    ensures { result ≡ is_end (trees (map value_view items.now)) }
{
    match items.split_first() {
        Some(_) => false,
        None => true,
    }
}

// Whether nothing stands there.
fn is_nothing(value: Option<&Value>) -> bool
    ensures { result ≡ is_nothing (seen (option_map (λ v. v.now) value.entry)) }
{
    match value {
        None => true,
        Some(Value::Empty) => true,
        Some(_) => false,
    }
}

// A number, or this one where nothing stands.
#[tactic(auto, unfolding(crate::specs::Requests::number_or))]
fn number_or(missing: u32, value: Option<&Value>) -> Option<u32>
    ensures { result ≡ number_or missing (seen (option_map (λ v. v.now) value.entry)) }
{
    match value {
        None => Some(missing),
        Some(Value::Empty) => Some(missing),
        Some(Value::Word(text)) => number_of(text.as_slice()),
        Some(_) => None,
    }
}

// A column, from 1; 1 where nothing stands.
#[tactic(auto, unfolding(crate::specs::Requests::column_in))]
fn column_in(value: Option<&Value>) -> Option<u32>
    ensures { result ≡ column_in (seen (option_map (λ v. v.now) value.entry)) }
{
    match number_or(1, value) {
        Some(0) => None,
        other => other,
    }
}

// A text in quotes, in EBCDIC.
fn text_in(alloc: Global, value: Option<&Value>) -> Result<Option<Vec<u8>>, AllocError>
    ensures { IfOk result (λ found. option_map (λ v. v.items) found ≡ text_in (seen (option_map (λ v. v.now) value.entry))) }
{
    match value {
        Some(Value::Quoted(text)) => Ok(Some(in_ebcdic(alloc, text.as_slice())?)),
        _ => Ok(None),
    }
}

#[tactic(auto, unfolding(crate::specs::Requests::ident_of))]
fn ident_of(
    alloc: Global,
    length: Option<&Value>,
    text: Option<&Value>,
    column: Option<&Value>,
) -> Result<Option<Ident>, AllocError>
    ensures { IfOk result (λ found. found ≡ ident_of (seen (option_map (λ v. v.now) length.entry)) (seen (option_map (λ v. v.now) text.entry)) (seen (option_map (λ v. v.now) column.entry))) }
{
    let Some(length) = number_or(LENGTH, length) else {
        return Ok(None);
    };
    let Some(text) = text_in(alloc, text)? else {
        return Ok(None);
    };
    match column_in(column) {
        Some(column) => Ok(Some(Ident {
            length,
            text: Listed::from_vec(text),
            column,
        })),
        None => Ok(None),
    }
}

#[tactic(auto, unfolding(crate::specs::Requests::ident_among))]
fn ident_among(alloc: Global, items: &[Value]) -> Result<Option<Ident>, AllocError>
    ensures { IfOk result (λ found. found ≡ ident_among (trees (map value_view items.now))) }
{
    let (length, behind) = first_item(items);
    let (text, last) = first_item(behind);
    let (column, rest) = first_item(last);
    if is_end(rest) {
        ident_of(alloc, length, text, column)
    } else {
        Ok(None)
    }
}

#[tactic(auto, unfolding(crate::specs::Requests::ident_in))]
fn ident_in(alloc: Global, value: &Value) -> Result<Option<Ident>, AllocError>
    ensures { IfOk result (λ found. found ≡ ident_in (value_view value.now)) }
{
    match value.as_list() {
        Some(items) => ident_among(alloc, items),
        None => Ok(None),
    }
}

// Where a field comes from.
#[tactic(auto, unfolding(crate::specs::Requests::origin_in))]
fn origin_in(alloc: Global, value: Option<&Value>) -> Result<Option<Origin>, AllocError>
    ensures { IfOk result (λ found. found ≡ origin_in (seen (option_map (λ v. v.now) value.entry))) }
{
    if let Some(text) = text_in(alloc, value)? {
        return Ok(Some(Origin::Text(Listed::from_vec(text))));
    }
    match column_in(value) {
        Some(column) => Ok(Some(Origin::Column(column))),
        None => Ok(None),
    }
}

#[tactic(auto, unfolding(crate::specs::Requests::field_of))]
fn field_of(
    alloc: Global,
    length: Option<&Value>,
    from: Option<&Value>,
    third: Option<&Value>,
    to: Option<&Value>,
) -> Result<Option<Field>, AllocError>
    ensures { IfOk result (λ found. found ≡ field_of (seen (option_map (λ v. v.now) length.entry)) (seen (option_map (λ v. v.now) from.entry)) (seen (option_map (λ v. v.now) third.entry)) (seen (option_map (λ v. v.now) to.entry))) }
{
    if !is_nothing(third) {
        return Ok(None);
    }
    let Some(length) = number_or(LENGTH, length) else {
        return Ok(None);
    };
    let Some(from) = origin_in(alloc, from)? else {
        return Ok(None);
    };
    match column_in(to) {
        Some(to) => Ok(Some(Field { length, from, to })),
        None => Ok(None),
    }
}

#[tactic(auto, unfolding(crate::specs::Requests::field_among))]
fn field_among(alloc: Global, items: &[Value]) -> Result<Option<Field>, AllocError>
    ensures { IfOk result (λ found. found ≡ field_among (trees (map value_view items.now))) }
{
    let (length, behind) = first_item(items);
    let (from, behind) = first_item(behind);
    let (third, behind) = first_item(behind);
    let (to, rest) = first_item(behind);
    if is_end(rest) {
        field_of(alloc, length, from, third, to)
    } else {
        Ok(None)
    }
}

#[tactic(auto, unfolding(crate::specs::Requests::field_in))]
fn field_in(alloc: Global, value: &Value) -> Result<Option<Field>, AllocError>
    ensures { IfOk result (λ found. found ≡ field_in (value_view value.now)) }
{
    match value.as_list() {
        Some(items) => field_among(alloc, items),
        None => field_of(alloc, Some(value), None, None, None),
    }
}

// The fields among operands, in their order.
fn fields_among(alloc: Global, operands: &[Operand]) -> Result<Option<Vec<Field>>, AllocError>
    ensures { IfOk result (λ found. option_map (λ v. v.items) found ≡ fields_among (map operand_view operands.now)) }
{
    let mut fields = Vec::new(alloc);
    for operand in operands {
        if has_keyword(operand, b"FIELD") {
            match field_in(alloc, &operand.value)? {
                Some(field) => fields.push(field)?,
                None => return Ok(None),
            }
        }
    }
    Ok(Some(fields))
}

// How many operands have this keyword.
fn keyword_count(operands: &[Operand], word: &[u8]) -> usize
    ensures { result ≡ count_by (has_keyword word.now) (map operand_view operands.now) }
{
    operands
        .iter()
        .filter(|operand| has_keyword(operand, word))
        .count()
}

// What IDENT says, if it is given.
#[tactic(auto, unfolding(util_syntax::specs::Forms::if_given))]
fn ident_if_given(alloc: Global, operands: &[Operand]) -> Result<Option<Option<Ident>>, AllocError>
    ensures { IfOk result (λ found. found ≡ if_given ident_in (codes "IDENT") (map operand_view operands.now)) }
{
    if keyword_count(operands, b"IDENT") == 0 {
        return Ok(Some(None));
    }
    let Some(value) = value_of(operands, b"IDENT") else {
        return Ok(None);
    };
    match ident_in(alloc, value)? {
        Some(ident) => Ok(Some(Some(ident))),
        None => Ok(None),
    }
}

fn is_record_operand(operand: &Operand) -> bool
    ensures { result ≡ is_record_operand (operand_view operand.now) }
{
    has_keyword(operand, b"IDENT") || has_keyword(operand, b"FIELD")
}

// Whether RECORD takes each of these operands.
fn each_of_record(operands: &[Operand]) -> bool
    ensures { result ≡ list_all (λ (o : Operand). is_record_operand (operand_view o)) operands.now }
{
    operands.iter().all(|operand| is_record_operand(operand))
}

// The same over the views of the operands.
fn all_of_record(operands: &[Operand]) -> bool
    ensures { result ≡ list_all is_record_operand (map operand_view operands.now) }
{
    each_of_record(operands)
}

#[tactic(auto, unfolding(crate::specs::Requests::record_of))]
fn record_of(alloc: Global, operands: &[Operand]) -> Result<Option<Edit>, AllocError>
    ensures { IfOk result (λ found. found ≡ record_of (map operand_view operands.now)) }
{
    if !all_of_record(operands) {
        return Ok(None);
    }
    let Some(ident) = ident_if_given(alloc, operands)? else {
        return Ok(None);
    };
    match fields_among(alloc, operands)? {
        Some(fields) => Ok(Some(Edit {
            ident,
            fields: Listed::from_vec(fields),
        })),
        None => Ok(None),
    }
}

// Whether a value is a number.
fn is_number(value: &Value) -> bool
    ensures { result ≡ is_some (option_and_then number_of (as_word (value_view value.now))) }
{
    match value.as_word() {
        Some(text) => number_of(text).is_some(),
        None => false,
    }
}

fn is_limit(operand: &Operand) -> bool
    ensures { result ≡ is_limit (operand_view operand.now) }
{
    (has_keyword(operand, b"MAXNAME")
        || has_keyword(operand, b"MAXFLDS")
        || has_keyword(operand, b"MAXGPS")
        || has_keyword(operand, b"MAXLITS"))
        && is_number(&operand.value)
}

// Whether GENERATE takes each of these operands.
fn each_of_generate(operands: &[Operand]) -> bool
    ensures { result ≡ list_all (λ (o : Operand). is_limit (operand_view o)) operands.now }
{
    operands.iter().all(|operand| is_limit(operand))
}

// The same over the views of the operands.
fn all_of_generate(operands: &[Operand]) -> bool
    ensures { result ≡ list_all is_limit (map operand_view operands.now) }
{
    each_of_generate(operands)
}

// Whether one operand has this keyword at most.
fn stands_once(operands: &[Operand], word: &[u8]) -> bool
    ensures { result ≡ stands_once word.now (map operand_view operands.now) }
{
    keyword_count(operands, word) <= 1
}

#[tactic(auto, unfolding(crate::specs::Requests::is_generate))]
fn is_generate(operands: &[Operand]) -> bool
    ensures { result ≡ is_generate (map operand_view operands.now) }
{
    all_of_generate(operands)
        && stands_once(operands, b"MAXNAME")
        && stands_once(operands, b"MAXFLDS")
        && stands_once(operands, b"MAXGPS")
        && stands_once(operands, b"MAXLITS")
}

// The name of one level that a value is.
fn name_in(value: &Value) -> Option<Name8>
    ensures { result ≡ name_in (value_view value.now) }
{
    match value.as_word() {
        Some(text) => name_of(text),
        None => None,
    }
}

// The names that values are.
fn names_among(alloc: Global, items: &[Value]) -> Result<Option<Vec<Name8>>, AllocError>
    ensures { IfOk result (λ found. option_map (λ v. v.items) found ≡ names_among (trees (map value_view items.now))) }
{
    let mut names = Vec::new(alloc);
    for item in items {
        match name_in(item) {
            Some(name) => names.push(name)?,
            None => return Ok(None),
        }
    }
    Ok(Some(names))
}

// A member's own name with its other names, if all are given.
fn names_with(name: Option<Name8>, aliases: Option<Vec<Name8>>) -> Option<Names>
    ensures { result ≡ names_with name (option_map (λ v. v.items) aliases) }
{
    match name {
        Some(name) => match aliases {
            Some(aliases) => Some(Names {
                name,
                aliases: Listed::from_vec(aliases),
            }),
            None => None,
        },
        None => None,
    }
}

#[tactic(auto, unfolding(crate::specs::Requests::names_listed))]
fn names_listed(alloc: Global, items: &[Value]) -> Result<Option<Names>, AllocError>
    ensures { IfOk result (λ found. found ≡ names_listed (trees (map value_view items.now))) }
{
    match items.split_first() {
        Some((name, aliases)) => Ok(names_with(name_in(name), names_among(alloc, aliases)?)),
        None => Ok(None),
    }
}

#[tactic(auto, unfolding(crate::specs::Requests::names_in))]
fn names_in(alloc: Global, value: &Value) -> Result<Option<Names>, AllocError>
    ensures { IfOk result (λ found. found ≡ names_in (value_view value.now)) }
{
    match value.as_list() {
        Some(items) => names_listed(alloc, items),
        None => Ok(names_with(name_in(value), Some(Vec::new(alloc)))),
    }
}

// Whether each of these operands has the keyword NAME.
fn each_of_member(operands: &[Operand]) -> bool
    ensures { result ≡ list_all (λ (o : Operand). has_keyword (codes "NAME") (operand_view o)) operands.now }
{
    operands.iter().all(|operand| has_keyword(operand, b"NAME"))
}

// The same over the views of the operands.
fn all_of_member(operands: &[Operand]) -> bool
    ensures { result ≡ list_all (has_keyword (codes "NAME")) (map operand_view operands.now) }
{
    each_of_member(operands)
}

#[tactic(auto, unfolding(crate::specs::Requests::member_of))]
fn member_of(alloc: Global, operands: &[Operand]) -> Result<Option<Names>, AllocError>
    ensures { IfOk result (λ found. found ≡ member_of (map operand_view operands.now)) }
{
    if !all_of_member(operands) {
        return Ok(None);
    }
    match value_of(operands, b"NAME") {
        Some(value) => names_in(alloc, value),
        None => Ok(None),
    }
}

/// What a statement asks for; `None` where it hasn't the form of its operation, or its operation isn't one of these:
///
/// - `GENERATE MAXNAME=n,MAXFLDS=n,MAXGPS=n,MAXLITS=n`, each once at most
/// - `RECORD IDENT=(length,'text',column),FIELD=(length,from,,to)`, IDENT once at most
/// - `MEMBER NAME=(name,alias,..)`
///
/// `from` is a column or a text in quotes. A number that is missing is 80 for a length and 1 for a column. The one error
/// is want of memory.
#[tactic(auto, unfolding(crate::specs::Requests::request_of))]
pub fn request_of(alloc: Global, statement: &Statement) -> Result<Option<Request>, AllocError>
    ensures { IfOk result (λ found. found ≡ request_of (statement_view statement.now)) }
{
    if is_named(&statement.op, b"GENERATE") {
        if is_generate(&statement.operands) {
            return Ok(Some(Request::Generate));
        }
        return Ok(None);
    }
    if is_named(&statement.op, b"RECORD") {
        return match record_of(alloc, &statement.operands)? {
            Some(edit) => Ok(Some(Request::Record(edit))),
            None => Ok(None),
        };
    }
    if !is_named(&statement.op, b"MEMBER") {
        return Ok(None);
    }
    match member_of(alloc, &statement.operands)? {
        Some(names) => Ok(Some(Request::Member(names))),
        None => Ok(None),
    }
}
