//! What the statements of IEBCOPY ask for.
ghost use Rattle.std.specs.Prelude.{◌≡◌, codes, map, option_map, option_and_then, true, false, IfOk};
ghost use Rattle.std.specs.List.{list_all};
ghost use Rattle.card_text.specs.declared.operands.Operand.{Operand};
ghost use Rattle.card_text.specs.Operands.{operand_view};
ghost use Rattle.card_text.specs.Tree.{trees, value_view};
ghost use Rattle.util_syntax.specs.Forms.{has_keyword, value_of};
ghost use Rattle.util_syntax.specs.Program.{statement_view};
ghost use Rattle.iebcopy_util.specs.Requests.{copy_of, input_among, input_in, input_of, inputs_among, inputs_in, is_copy_operand, is_inputs_first, is_replace, members_value, name_in, names_among, names_in, new_name, pick_among, pick_in, pick_with, picks_among, picks_in, request_of};

use card_text::name_of;
use ebcdic_names::Name8;
use std::alloc::{AllocError, Global};
use util_syntax::{Operand, Statement, Value, has_keyword, is_named, value_of};
use vol_model::Listed;

/// An input of COPY.
#[derive(Clone, Copy, Debug, PartialEq, Eq)]
pub struct InputDd {
    /// The name of its DD.
    pub dd: Name8,
    /// Whether all its members replace others of their names.
    pub replace: bool,
}

/// A member that SELECT names.
#[derive(Clone, Copy, Debug, PartialEq, Eq)]
pub struct Pick {
    /// Its name.
    pub name: Name8,
    /// The name of its copy.
    pub new: Name8,
    /// Whether the copy replaces a member of that name.
    pub replace: bool,
}

/// The DDs that COPY names.
#[derive(Debug, Drop)]
pub struct CopyDds {
    /// That of the output.
    pub out: Name8,
    /// Those of the inputs, in their order.
    pub inputs: Listed<InputDd>,
    /// Whether the inputs stand in front of the output on the card.
    pub inputs_first: bool,
}

/// What a statement asks for.
#[derive(Debug, Drop)]
pub enum Request {
    /// COPY: members are copied.
    Copy(CopyDds),
    /// SELECT: these members alone.
    Select(Listed<Pick>),
    /// EXCLUDE: all members but these.
    Exclude(Listed<Name8>),
}

// The name of one level that a value is.
fn name_in(value: &Value) -> Option<Name8>
    ensures { result ≡ name_in (value_view value.now) }
{
    match value.as_word() {
        Some(text) => name_of(text),
        None => None,
    }
}

// Whether a value is the word R.
fn is_replace(value: &Value) -> bool
    ensures { result ≡ is_replace (value_view value.now) }
{
    match value.as_word() {
        Some(text) => b"R".as_slice() == text,
        None => false,
    }
}

// The names that values are.
fn names_among(alloc: Global, items: &[Value]) -> Result<Option<Vec<Name8>>, AllocError>
    ensures { IfOk result (λ found. option_map (λ v. v.items) found ≡ names_among (trees (map value_view items.now))) }
{
    let mut names = Vec::new(alloc);
    for item in items {
        match name_in(item) {
            Some(name) => names.push(name)?,
            None => return Ok(None),
        }
    }
    Ok(Some(names))
}

#[tactic(auto, unfolding(crate::specs::Requests::names_in))]
fn names_in(alloc: Global, value: &Value) -> Result<Option<Vec<Name8>>, AllocError>
    ensures { IfOk result (λ found. option_map (λ v. v.items) found ≡ names_in (value_view value.now)) }
{
    if let Some(items) = value.as_list() {
        return names_among(alloc, items);
    }
    match name_in(value) {
        Some(name) => {
            let mut names = Vec::new(alloc);
            names.push(name)?;
            Ok(Some(names))
        }
        None => Ok(None),
    }
}

// An input by the name of its DD.
fn input_of(replace: bool, name: Option<Name8>) -> Option<InputDd>
    ensures { result ≡ input_of replace name }
{
    match name {
        Some(dd) => Some(InputDd { dd, replace }),
        None => None,
    }
}

#[tactic(auto, unfolding(crate::specs::Requests::input_among))]
fn input_among(items: &[Value]) -> Option<InputDd>
    ensures { result ≡ input_among (trees (map value_view items.now)) }
{
    let (name, behind) = items.split_first()?;
    let (mark, rest) = behind.split_first()?;
    if let Some(_) = rest.split_first() {
        return None;
    }
    if is_replace(mark) {
        input_of(true, name_in(name))
    } else {
        None
    }
}

#[tactic(auto, unfolding(crate::specs::Requests::input_in))]
fn input_in(value: &Value) -> Option<InputDd>
    ensures { result ≡ input_in (value_view value.now) }
{
    match value.as_list() {
        Some(items) => input_among(items),
        None => input_of(false, name_in(value)),
    }
}

// The inputs that values are.
fn inputs_among(alloc: Global, items: &[Value]) -> Result<Option<Vec<InputDd>>, AllocError>
    ensures { IfOk result (λ found. option_map (λ v. v.items) found ≡ inputs_among (trees (map value_view items.now))) }
{
    let mut inputs = Vec::new(alloc);
    for item in items {
        match input_in(item) {
            Some(input) => inputs.push(input)?,
            None => return Ok(None),
        }
    }
    Ok(Some(inputs))
}

#[tactic(auto, unfolding(crate::specs::Requests::inputs_in))]
fn inputs_in(alloc: Global, value: &Value) -> Result<Option<Vec<InputDd>>, AllocError>
    ensures { IfOk result (λ found. option_map (λ v. v.items) found ≡ inputs_in (value_view value.now)) }
{
    if let Some(items) = value.as_list() {
        return inputs_among(alloc, items);
    }
    match input_of(false, name_in(value)) {
        Some(input) => {
            let mut inputs = Vec::new(alloc);
            inputs.push(input)?;
            Ok(Some(inputs))
        }
        None => Ok(None),
    }
}

fn is_copy_operand(operand: &Operand) -> bool
    ensures { result ≡ is_copy_operand (operand_view operand.now) }
{
    has_keyword(operand, b"OUTDD") || has_keyword(operand, b"INDD")
}

// Whether COPY takes each of these operands.
fn each_of_copy(operands: &[Operand]) -> bool
    ensures { result ≡ list_all (λ (o : Operand). is_copy_operand (operand_view o)) operands.now }
{
    operands.iter().all(|operand| is_copy_operand(operand))
}

// The same over the views of the operands.
fn all_of_copy(operands: &[Operand]) -> bool
    ensures { result ≡ list_all is_copy_operand (map operand_view operands.now) }
{
    each_of_copy(operands)
}

// Whether the first operand names the inputs.
fn is_inputs_first(operands: &[Operand]) -> bool
    ensures { result ≡ is_inputs_first (map operand_view operands.now) }
{
    match operands.split_first() {
        Some((first, _)) => has_keyword(first, b"INDD"),
        None => false,
    }
}

// The name of the output's DD.
fn out_in(operands: &[Operand]) -> Option<Name8>
    ensures { result ≡ option_and_then name_in (value_of (codes "OUTDD") (map operand_view operands.now)) }
{
    match value_of(operands, b"OUTDD") {
        Some(value) => name_in(value),
        None => None,
    }
}

// The inputs.
fn inputs_of(alloc: Global, operands: &[Operand]) -> Result<Option<Vec<InputDd>>, AllocError>
    ensures { IfOk result (λ found. option_map (λ v. v.items) found ≡ option_and_then inputs_in (value_of (codes "INDD") (map operand_view operands.now))) }
{
    match value_of(operands, b"INDD") {
        Some(value) => inputs_in(alloc, value),
        None => Ok(None),
    }
}

#[tactic(auto, unfolding(crate::specs::Requests::copy_of))]
fn copy_of(alloc: Global, operands: &[Operand]) -> Result<Option<CopyDds>, AllocError>
    ensures { IfOk result (λ found. found ≡ copy_of (map operand_view operands.now)) }
{
    if !all_of_copy(operands) {
        return Ok(None);
    }
    let Some(out) = out_in(operands) else {
        return Ok(None);
    };
    match inputs_of(alloc, operands)? {
        Some(inputs) => Ok(Some(CopyDds {
            out,
            inputs: Listed::from_vec(inputs),
            inputs_first: is_inputs_first(operands),
        })),
        None => Ok(None),
    }
}

// A member under a name, if both are given.
fn pick_with(replace: bool, name: Option<Name8>, new: Option<Name8>) -> Option<Pick>
    ensures { result ≡ pick_with replace name new }
{
    match name {
        Some(name) => match new {
            Some(new) => Some(Pick { name, new, replace }),
            None => None,
        },
        None => None,
    }
}

// The new name, which is the old one where nothing stands.
fn new_name(name: &Value, new: &Value) -> Option<Name8>
    ensures { result ≡ new_name (value_view name.now) (value_view new.now) }
{
    match new {
        Value::Empty => name_in(name),
        Value::Word(text) => name_of(text.as_slice()),
        _ => None,
    }
}

#[tactic(auto, unfolding(crate::specs::Requests::pick_among))]
fn pick_among(items: &[Value]) -> Option<Pick>
    ensures { result ≡ pick_among (trees (map value_view items.now)) }
{
    let (name, behind) = items.split_first()?;
    let (new, last) = behind.split_first()?;
    let Some((mark, rest)) = last.split_first() else {
        return pick_with(false, name_in(name), name_in(new));
    };
    if let Some(_) = rest.split_first() {
        return None;
    }
    if is_replace(mark) {
        pick_with(true, name_in(name), new_name(name, new))
    } else {
        None
    }
}

#[tactic(auto, unfolding(crate::specs::Requests::pick_in))]
fn pick_in(value: &Value) -> Option<Pick>
    ensures { result ≡ pick_in (value_view value.now) }
{
    match value.as_list() {
        Some(items) => pick_among(items),
        None => pick_with(false, name_in(value), name_in(value)),
    }
}

// The members that values are.
fn picks_among(alloc: Global, items: &[Value]) -> Result<Option<Vec<Pick>>, AllocError>
    ensures { IfOk result (λ found. option_map (λ v. v.items) found ≡ picks_among (trees (map value_view items.now))) }
{
    let mut picks = Vec::new(alloc);
    for item in items {
        match pick_in(item) {
            Some(pick) => picks.push(pick)?,
            None => return Ok(None),
        }
    }
    Ok(Some(picks))
}

#[tactic(auto, unfolding(crate::specs::Requests::picks_in))]
fn picks_in(alloc: Global, value: &Value) -> Result<Option<Vec<Pick>>, AllocError>
    ensures { IfOk result (λ found. option_map (λ v. v.items) found ≡ picks_in (value_view value.now)) }
{
    if let Some(items) = value.as_list() {
        return picks_among(alloc, items);
    }
    match pick_with(false, name_in(value), name_in(value)) {
        Some(pick) => {
            let mut picks = Vec::new(alloc);
            picks.push(pick)?;
            Ok(Some(picks))
        }
        None => Ok(None),
    }
}

// Whether each of these operands is MEMBER.
fn each_is_member(operands: &[Operand]) -> bool
    ensures { result ≡ list_all (λ (o : Operand). has_keyword (codes "MEMBER") (operand_view o)) operands.now }
{
    operands
        .iter()
        .all(|operand| has_keyword(operand, b"MEMBER"))
}

// The same over the views of the operands.
fn all_are_member(operands: &[Operand]) -> bool
    ensures { result ≡ list_all (has_keyword (codes "MEMBER")) (map operand_view operands.now) }
{
    each_is_member(operands)
}

#[tactic(auto, unfolding(crate::specs::Requests::members_value))]
fn members_value(operands: &[Operand]) -> Option<&Value>
    ensures { option_map (λ v. value_view v.now) result ≡ members_value (map operand_view operands.now) }
{
    if all_are_member(operands) {
        value_of(operands, b"MEMBER")
    } else {
        None
    }
}

// The members that SELECT names.
fn selected(alloc: Global, operands: &[Operand]) -> Result<Option<Vec<Pick>>, AllocError>
    ensures { IfOk result (λ found. option_map (λ v. v.items) found ≡ option_and_then picks_in (members_value (map operand_view operands.now))) }
{
    match members_value(operands) {
        Some(value) => picks_in(alloc, value),
        None => Ok(None),
    }
}

// The members that EXCLUDE names.
fn excluded(alloc: Global, operands: &[Operand]) -> Result<Option<Vec<Name8>>, AllocError>
    ensures { IfOk result (λ found. option_map (λ v. v.items) found ≡ option_and_then names_in (members_value (map operand_view operands.now))) }
{
    match members_value(operands) {
        Some(value) => names_in(alloc, value),
        None => Ok(None),
    }
}

// What SELECT asks for.
fn select_of(alloc: Global, operands: &[Operand]) -> Result<Option<Request>, AllocError>
    ensures { IfOk result (λ found. found ≡ option_map Request.Select (option_and_then picks_in (members_value (map operand_view operands.now)))) }
{
    match selected(alloc, operands)? {
        Some(picks) => Ok(Some(Request::Select(Listed::from_vec(picks)))),
        None => Ok(None),
    }
}

// What EXCLUDE asks for.
fn exclude_of(alloc: Global, operands: &[Operand]) -> Result<Option<Request>, AllocError>
    ensures { IfOk result (λ found. found ≡ option_map Request.Exclude (option_and_then names_in (members_value (map operand_view operands.now)))) }
{
    match excluded(alloc, operands)? {
        Some(names) => Ok(Some(Request::Exclude(Listed::from_vec(names)))),
        None => Ok(None),
    }
}

/// What a statement asks for; `None` where it hasn't the form of its operation, or its operation
/// isn't one of these:
///
/// - `COPY OUTDD=dd,INDD=(dd,(dd,R),..)`, each operand once
/// - `SELECT MEMBER=(name,(name,new),(name,,R),(name,new,R),..)`
/// - `EXCLUDE MEMBER=(name,..)`
///
/// A list of one name may stand without its parentheses. The one error is want of memory.
#[tactic(auto, unfolding(crate::specs::Requests::request_of))]
pub fn request_of(alloc: Global, statement: &Statement) -> Result<Option<Request>, AllocError>
    ensures { IfOk result (λ found. found ≡ request_of (statement_view statement.now)) }
{
    if is_named(&statement.op, b"SELECT") {
        return select_of(alloc, &statement.operands);
    }
    if is_named(&statement.op, b"EXCLUDE") {
        return exclude_of(alloc, &statement.operands);
    }
    if !is_named(&statement.op, b"COPY") {
        return Ok(None);
    }
    match copy_of(alloc, &statement.operands)? {
        Some(dds) => Ok(Some(Request::Copy(dds))),
        None => Ok(None),
    }
}
