//! Records that are edited, group by group.
ghost use Rattle.std.specs.Prelude.{◌≡◌, ◌∷◌, option_map, if◌then◌else◌, IfOk, Some, None};
ghost use Rattle.iebgener_util.specs.Editing.{bytes_at, edited_record, ends_group, groups_behind, has_fields, have_fields, is_any_field, laid, sized, with_field_laid, with_fields};

use crate::requests::{Edit, Field, Ident, Origin};
use std::alloc::{AllocError, Global};

// The blank in EBCDIC.
const BLANK: u8 = 0x40;

// A text of so many bytes: it is cut, or filled with blanks.
fn sized(alloc: Global, count: usize, text: &[u8]) -> Result<Vec<u8>, AllocError>
    ensures { IfOk result (λ bytes. bytes.items ≡ sized count text.now) }
{
    let mut bytes = Vec::from_slice(alloc, &text[..count.min(text.len())])?;
    bytes.resize(count, BLANK)?;
    Ok(bytes)
}

// So many bytes of a record from a column on, if it has them.
fn bytes_at(rec: &[u8], column: u32, count: u32) -> Option<&[u8]>
    ensures { option_map (λ bytes. bytes.now) result ≡ bytes_at count column rec.now }
{
    let from = column.saturating_sub(1) as usize;
    let behind = from + count as usize;
    if behind > rec.len() {
        return None;
    }
    Some(&rec[from..behind])
}

// Lays bytes over a record from a column on; false where it doesn't reach as far, and is as before.
#[tactic(auto, unfolding(crate::specs::Editing::laid))]
fn lay(new: &mut [u8], column: u32, bytes: &[u8]) -> bool
    ensures laid { laid column bytes.now new.old ≡ (if result then Some new.new else None) }
{
    let from = column.saturating_sub(1) as usize;
    let behind = from + bytes.len();
    if behind > new.len() {
        return false;
    }
    new[from..behind].copy_from_slice(bytes);
    true
}

// Lays a field of a record over another; false where it passes the end of either, and nothing is laid.
#[tactic(auto, unfolding(crate::specs::Editing::with_field_laid, crate::specs::Editing::field_bytes))]
fn lay_field(alloc: Global, field: &Field, rec: &[u8], new: &mut [u8]) -> Result<bool, AllocError>
    ensures { IfOk result (λ fits. with_field_laid field.now rec.now new.old ≡ (if fits then Some new.new else None)) }
{
    match &field.from {
        Origin::Column(column) => match bytes_at(rec, *column, field.length) {
            Some(bytes) => Ok(lay(new, field.to, bytes)),
            None => Ok(false),
        },
        Origin::Text(text) => {
            let count = field.length as usize;
            if count > new.len() {
                return Ok(false);
            }
            let bytes = sized(alloc, count, text.as_slice())?;
            Ok(lay(new, field.to, &bytes))
        }
    }
}

// Lays fields of a record over another, in their order; false where one passes the end of either.
fn lay_fields(
    alloc: Global,
    fields: &[Field],
    rec: &[u8],
    new: &mut [u8],
) -> Result<bool, AllocError>
    ensures { IfOk result (λ fits. with_fields fields.now rec.now new.old ≡ (if fits then Some new.new else None)) }
{
    for field in fields {
        if !lay_field(alloc, field, rec, new)? {
            return Ok(false);
        }
    }
    Ok(true)
}

// Whether there are fields.
fn is_any_field(fields: &[Field]) -> bool
    ensures { result ≡ is_any_field fields.now }
{
    match fields.split_first() {
        Some(_) => true,
        None => false,
    }
}

// Whether a group has fields.
fn has_fields(edit: &Edit) -> bool
    ensures { result ≡ has_fields edit.now }
{
    is_any_field(edit.fields.as_slice())
}

/// Whether one of these groups has fields.
pub fn have_fields(edits: &[Edit]) -> bool
    ensures { result ≡ have_fields edits.now }
{
    edits.iter().any(|edit| has_fields(edit))
}

/// A record of so many bytes, of blanks with the fields of another laid over them; the other as it is where its group has
/// no fields, and `None` where a field passes the end of either record. The one error is want of memory.
#[tactic(auto, unfolding(crate::specs::Editing::edited_record))]
pub fn edited_record(
    alloc: Global,
    lrecl: u16,
    edit: &Edit,
    rec: &[u8],
) -> Result<Option<Vec<u8>>, AllocError>
    ensures { IfOk result (λ new. option_map (λ v. v.items) new ≡ edited_record lrecl edit.now rec.now) }
{
    if !has_fields(edit) {
        return Ok(Some(Vec::from_slice(alloc, rec)?));
    }
    let mut new = sized(alloc, usize::from(lrecl), &[])?;
    if lay_fields(alloc, edit.fields.as_slice(), rec, &mut new)? {
        Ok(Some(new))
    } else {
        Ok(None)
    }
}

/// Whether a record is the last of its group. The one error is want of memory.
#[tactic(auto, unfolding(crate::specs::Editing::ends_group))]
pub fn ends_group(alloc: Global, ident: &Option<Ident>, rec: &[u8]) -> Result<bool, AllocError>
    ensures { IfOk result (λ ends. ends ≡ ends_group ident.now rec.now) }
{
    let Some(ident) = ident else {
        return Ok(false);
    };
    let from = ident.column.saturating_sub(1) as usize;
    let rest = &rec[from.min(rec.len())..];
    let count = ident.length as usize;
    if count > rest.len() {
        return Ok(false);
    }
    let text = sized(alloc, count, ident.text.as_slice())?;
    Ok(rest.starts_with(&text))
}

/// The groups after a record of the first: the others where it ends that one. The one error is want of memory.
pub fn groups_behind<'a>(
    alloc: Global,
    edit: &Edit,
    groups: &'a [Edit],
    others: &'a [Edit],
    rec: &[u8],
) -> Result<&'a [Edit], AllocError>
    requires { groups.now ≡ edit.now ∷ others.now }
    ensures { IfOk result (λ left. left.now ≡ groups_behind edit.now others.now rec.now) }
{
    if ends_group(alloc, &edit.ident, rec)? {
        Ok(others)
    } else {
        Ok(groups)
    }
}
