//! The data sets of a copy.
ghost use Rattle.std.specs.Prelude.{◌≡◌, option_map, IfOk};
ghost use Rattle.std.specs.Result.{result_map_both};
ghost use Rattle.iebcopy_util.specs.Sets.{inputs_named, is_among, is_same, set_in, set_named, sets_of, sets_with};

use crate::requests::{CopyDds, InputDd};
use ebcdic_names::{Dsn, Name8};
use std::alloc::{AllocError, Global};
use util_steps::SetRef;
use util_syntax::{DdIn, StepIn};
use vol_model::{Kind, Listed, Machine, Refusal, SetInfo, Stop, WorkErr, is_catalog};

/// An input of a copy.
#[derive(Clone, Copy, Debug, PartialEq, Eq)]
pub struct Input {
    /// Its data set.
    pub set: SetRef,
    /// Whether all its members replace others of their names.
    pub replace: bool,
}

/// The data sets of a copy.
#[derive(Debug, Drop)]
pub struct Sets {
    /// The output.
    pub out: SetRef,
    /// The inputs, in their order.
    pub inputs: Listed<Input>,
}

// The data set of a DD; a member that it names isn't meant.
fn set_in(dd: Option<&DdIn>) -> Option<SetRef>
    ensures { result ≡ set_in (option_map (λ d. d.now) dd.entry) }
{
    match dd {
        Some(DdIn::Set { v, dsn, .. }) => Some(SetRef { v: *v, dsn: *dsn }),
        _ => None,
    }
}

// The data set of the DD of this name, or that name.
fn set_named(step: &StepIn, name: Name8) -> Result<SetRef, Name8>
    ensures { result ≡ set_named step.now.dds name }
{
    match set_in(step.dds.get(&name)) {
        Some(set) => Ok(set),
        None => Err(name),
    }
}

// The data sets of inputs, or the name of the first DD that isn't there.
fn inputs_named(
    alloc: Global,
    step: &StepIn,
    inputs: &[InputDd],
) -> Result<Result<Vec<Input>, Name8>, AllocError>
    ensures { IfOk result (λ found. result_map_both (λ v. v.items) (λ name. name) found ≡ inputs_named step.now.dds inputs.now) }
{
    let mut found = Vec::new(alloc);
    for input in inputs {
        match set_named(step, input.dd) {
            Ok(set) => found.push(Input {
                set,
                replace: input.replace,
            })?,
            Err(name) => return Ok(Err(name)),
        }
    }
    Ok(Ok(found))
}

// Both, or the name that is met first.
fn sets_with(
    inputs_first: bool,
    out: Result<SetRef, Name8>,
    inputs: Result<Vec<Input>, Name8>,
) -> Result<Sets, Name8>
    ensures { result ≡ sets_with inputs_first out (result_map_both (λ v. v.items) (λ name. name) inputs) }
{
    match out {
        Ok(out) => match inputs {
            Ok(inputs) => Ok(Sets {
                out,
                inputs: Listed::from_vec(inputs),
            }),
            Err(name) => Err(name),
        },
        Err(name) => match inputs {
            Ok(_) => Err(name),
            Err(other) => Err(if inputs_first { other } else { name }),
        },
    }
}

/// The data sets of a copy, or the name of the first DD that is no data set, in the order of the
/// card.
///
/// The one error is want of memory.
#[tactic(auto, unfolding(crate::specs::Sets::sets_of))]
pub fn sets_of(
    alloc: Global,
    step: &StepIn,
    dds: &CopyDds,
) -> Result<Result<Sets, Name8>, AllocError>
    ensures { IfOk result (λ found. found ≡ sets_of step.now.dds dds.now) }
{
    let inputs = inputs_named(alloc, step, dds.inputs.as_slice())?;
    Ok(sets_with(dds.inputs_first, set_named(step, dds.out), inputs))
}

// Whether two data sets are one.
fn is_same(a: &SetRef, b: &SetRef) -> bool
    ensures { result ≡ is_same a.now b.now }
{
    a.v == b.v && a.dsn == b.dsn
}

/// Whether one of the inputs is this data set.
#[tactic(auto, unfolding(crate::specs::Sets::is_among))]
pub fn is_among(out: &SetRef, inputs: &[Input]) -> bool
    ensures { result ≡ is_among out.now inputs.now }
{
    inputs.iter().any(|input| is_same(&input.set, out))
}
