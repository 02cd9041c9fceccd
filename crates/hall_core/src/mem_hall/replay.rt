//! What a stop leaves of a hall in memory, from the record of its calls.
ghost use Rattle.std.specs.Prelude.{◌≡◌, ◌+◌, ◌<◌, ◌≤◌, ◌∷◌, ◌++◌, ◌^◌, [], ℕ, List, take, drop, false, length, if◌then◌else◌, IfOk, OnOk, slice_index_or};
ghost use Rattle.hall_core.specs.History.{with_changes, kept};
ghost use Rattle.hall_core.specs.Held.{files_of};
ghost use Rattle.hall_core.specs.Replay.{IsPendingFrom, ArePrinted, IsRedoable, AreRedoable, HasRedone, changes_in, done_of, prints_at, text_needed, files_made, is_write, is_done_write, is_kept_step, pending_place};

use super::pairs::{new_pair, write_file};
use super::step::Step;
use std::alloc::{AllocError, Global};

// What the steps of a hall speak of: its units, as places of files, its files as they are now, and all
// bytes that were written.
#[derive(Drop)]
pub(super) struct Record<'a> {
    pub(super) units: &'a [usize],
    pub(super) files: &'a [(String, Vec<u8>)],
    pub(super) pool: &'a [u8],
}

// Whether a step is a write.
fn writes(step: Step) -> bool
    ensures { result ≡ is_write step }
{
    match step {
        Step::Write { .. } => true,
        Step::Create { .. } => false,
        Step::Sync => false,
        Step::Print { .. } => false,
        Step::Pass => false,
    }
}

// Whether a step is a write that was done.
fn wrote(step: Step) -> bool
    ensures { result ≡ is_done_write step }
{
    match step {
        Step::Write { is_done, .. } => is_done,
        Step::Create { .. } => false,
        Step::Sync => false,
        Step::Print { .. } => false,
        Step::Pass => false,
    }
}

// The place from which on writes are pending after the i-th step.
fn pending_after(step: Step, i: usize, from: usize) -> usize
    requires { i + 1 < 2 ^ 64 }
    ensures { result ≡ pending_place step i from }
{
    match step {
        Step::Write { .. } => from,
        Step::Create { .. } => from,
        Step::Sync => i + 1,
        Step::Print { .. } => from,
        Step::Pass => from,
    }
}

// The place after the last sync among the steps, from which on the writes are pending.
pub(super) fn pending_from(steps: &[Step]) -> usize
    ensures { IsPendingFrom steps.now result }
{
    let mut from = 0;
    for (i, step) in steps.iter().enumerate() {
        from = pending_after(*step, i, from);
    }
    from
}

// Makes a file again, or a write where it is to be kept. Any other step does nothing.
fn redo(
    alloc: Global,
    files: &mut Vec<(String, Vec<u8>)>,
    step: Step,
    source: &Record,
    is_kept: bool,
) -> Result<(), AllocError>
    requires { IsRedoable source.now.files.now source.now.units.now (length source.now.pool.now)
        files.old.items step }
    ensures { OnOk result (HasRedone source.now.files.now files.old.items files.new.items
        (if is_kept_step step is_kept then
        changes_in source.now.files.now source.now.units.now source.now.pool.now (step ∷ []) else [])
        (files_made (step ∷ []))) }
{
    match step {
        Step::Write {
            unit,
            at,
            start,
            len,
            ..
        } => {
            let bytes = &source.pool[start..start + len];
            write_file(files, source.units[unit as usize], at, bytes, is_kept);
        }
        Step::Create { unit } => {
            let pair = new_pair(alloc, &source.files[source.units[unit as usize]])?;
            files.push(pair)?;
        }
        Step::Sync => {}
        Step::Print { .. } => {}
        Step::Pass => {}
    }
    Ok(())
}

// Makes the files and the writes again that were done.
fn apply_done(
    alloc: Global,
    files: &mut Vec<(String, Vec<u8>)>,
    steps: &[Step],
    source: &Record,
) -> Result<(), AllocError>
    requires { AreRedoable source.now.files.now source.now.units.now (length source.now.pool.now)
        files.old.items steps.now }
    ensures { OnOk result (HasRedone source.now.files.now files.old.items files.new.items
        (done_of (changes_in source.now.files.now source.now.units.now source.now.pool.now steps.now))
        (files_made steps.now)) }
{
    for step in steps {
        redo(alloc, files, *step, source, wrote(*step))?;
    }
    Ok(())
}

// The flag at a place; a missing one counts as false.
fn flag_at(keep: &[bool], next: usize) -> bool
    ensures { result ≡ slice_index_or keep.now next false }
{
    next < keep.len() && keep[next]
}

// The place of the flag after that of a step.
fn next_flag(step: Step, next: usize) -> usize
    requires { next + 1 < 2 ^ 64 }
    ensures { result ≡ (if is_write step then next + 1 else next) }
{
    if writes(step) { next + 1 } else { next }
}

// Makes the files again, and the writes whose flag is true; a missing flag counts as false.
fn apply_kept(
    alloc: Global,
    files: &mut Vec<(String, Vec<u8>)>,
    steps: &[Step],
    source: &Record,
    keep: &[bool],
) -> Result<(), AllocError>
    requires { AreRedoable source.now.files.now source.now.units.now (length source.now.pool.now)
        files.old.items steps.now }
    ensures { OnOk result (files_of files.new.items ≡ with_changes (files_of files.old.items)
        (kept keep.now
        (changes_in source.now.files.now source.now.units.now source.now.pool.now steps.now))) }
{
    let mut next = 0;
    for step in steps {
        redo(alloc, files, *step, source, flag_at(keep, next))?;
        next = next_flag(*step, next);
    }
    Ok(())
}

// Makes the changes again that a stop leaves: those before a place that were done, and over them the
// files made from it on and the writes whose flag is true.
pub(super) fn apply_left(
    alloc: Global,
    files: &mut Vec<(String, Vec<u8>)>,
    steps: &[Step],
    from: usize,
    source: &Record,
    keep: &[bool],
) -> Result<(), AllocError>
    requires within { AreRedoable source.now.files.now source.now.units.now (length source.now.pool.now)
        files.old.items steps.now }
    requires inside { from ≤ length steps.now }
    ensures { OnOk result (files_of files.new.items ≡ with_changes
        (with_changes (files_of files.old.items)
        (done_of (changes_in source.now.files.now source.now.units.now source.now.pool.now (take from steps.now))))
        (kept keep.now
        (changes_in source.now.files.now source.now.units.now source.now.pool.now (drop from steps.now)))) }
{
    apply_done(alloc, files, &steps[..from], source)?;
    apply_kept(alloc, files, &steps[from..], source, keep)?;
    Ok(())
}

// Adds the bytes that a step printed.
fn add_printed(out: &mut Vec<u8>, step: Step, text: &[u8]) -> Result<(), AllocError>
    requires { text_needed step ≤ length text.now }
    ensures { OnOk result (out.new.items ≡ out.old.items ++ prints_at text.now (step ∷ [])) }
{
    if let Step::Print { start, len, .. } = step {
        out.extend_from_slice(&text[start..start + len])?;
    }
    Ok(())
}

// The bytes that the steps printed.
pub(super) fn text_printed(
    alloc: Global,
    steps: &[Step],
    text: &[u8],
) -> Result<Vec<u8>, AllocError>
    requires { ArePrinted (length text.now) steps.now }
    ensures { IfOk result (λ out. out.items ≡ prints_at text.now steps.now) }
{
    let mut out = Vec::new(alloc);
    for step in steps {
        add_printed(&mut out, *step, text)?;
    }
    Ok(out)
}
