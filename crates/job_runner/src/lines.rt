//! The lines that frame jobs and steps, and that of a job's fault.
ghost use Rattle.std.specs.Prelude.{◌≡◌, ◌++◌, Some, IfOk, OnOk};
ghost use Rattle.util_syntax.specs.Listing.{jcl_line};
ghost use Rattle.job_runner.specs.Lines.{code_digits, code_line, job_line, kind_words, name_text, step_line};

use ebcdic_names::{Name8, push_name_in_ascii, without_blanks};
use itoa::Buffer;
use job_deck::{JclErr, JclKind};
use std::alloc::{AllocError, Global};
use util_syntax::jcl_line;
use vol_model::Line;

// As many zeros as a code has digits.
const ZEROS: [u8; 4] = [b'0'; 4];

// Adds a condition code in four digits.
#[tactic(auto, unfolding(crate::specs::Lines::code_digits))]
fn push_code(line: &mut Vec<u8>, code: u8) -> Result<(), AllocError>
    ensures { OnOk result (line.new.items ≡ line.old.items ++ code_digits code) }
{
    let mut buffer = Buffer::new();
    let digits = buffer.format(code);
    line.extend_from_slice(&ZEROS[..ZEROS.len().saturating_sub(digits.len())])?;
    line.extend_from_slice(digits.as_bytes())
}

// Adds a name, or a hyphen where it is missing or blank.
fn push_name(line: &mut Vec<u8>, name: Option<Name8>) -> Result<(), AllocError>
    ensures { OnOk result (line.new.items ≡ line.old.items ++ name_text name) }
{
    match name {
        Some(name) => push_shown(line, &name),
        None => push_hyphen(line),
    }
}

// Adds a hyphen.
#[tactic(auto, unfolding(crate::specs::Lines::name_text))]
fn push_hyphen(line: &mut Vec<u8>) -> Result<(), AllocError>
    ensures { OnOk result (line.new.items ≡ line.old.items ++ name_text None) }
{
    line.push(b'-')?;
    Ok(())
}

// Adds a name, or a hyphen where it is blank.
fn push_shown(line: &mut Vec<u8>, name: &Name8) -> Result<(), AllocError>
    ensures { OnOk result (line.new.items ≡ line.old.items ++ name_text (Some name.now)) }
{
    if without_blanks(&name.bytes).is_empty() {
        push_hyphen(line)
    } else {
        push_name_in_ascii(line, &name.bytes)
    }
}

/// The first line of a job: `JOB name`, with a hyphen for a name that is blank. The one error is want of memory.
#[tactic(auto, unfolding(crate::specs::Lines::job_line))]
pub fn job_line(alloc: Global, name: &Name8) -> Result<Line, AllocError>
    ensures { IfOk result (λ line. line ≡ job_line name.now) }
{
    let mut line = Vec::new(alloc);
    line.extend_from_slice(b"JOB ".as_slice())?;
    push_name(&mut line, Some(*name))?;
    Line::ended(line)
}

/// The first line of a step: `STEP name pgm`, with a hyphen for a missing name. The one error is want of memory.
#[tactic(auto, unfolding(crate::specs::Lines::step_line))]
pub fn step_line(alloc: Global, name: Option<Name8>, pgm: &Name8) -> Result<Line, AllocError>
    ensures { IfOk result (λ line. line ≡ step_line name pgm.now) }
{
    let mut line = Vec::new(alloc);
    line.extend_from_slice(b"STEP ".as_slice())?;
    push_name(&mut line, name)?;
    line.push(b' ')?;
    push_name_in_ascii(&mut line, &pgm.bytes)?;
    Line::ended(line)
}

/// The last line of a job or of a step, by its word: `JOB name CODE nnnn`. The one error is want of memory.
#[tactic(auto, unfolding(crate::specs::Lines::code_line))]
pub fn code_line(
    alloc: Global,
    word: &str,
    name: Option<Name8>,
    code: u8,
) -> Result<Line, AllocError>
    ensures { IfOk result (λ line. line ≡ code_line word.now name code) }
{
    let mut line = Vec::new(alloc);
    line.extend_from_slice(word.as_bytes())?;
    line.push(b' ')?;
    push_name(&mut line, name)?;
    line.extend_from_slice(b" CODE ".as_slice())?;
    push_code(&mut line, code)?;
    Line::ended(line)
}

// What is wrong with a job, in words.
#[tactic(auto, unfolding(crate::specs::Lines::kind_words))]
fn kind_words(kind: JclKind) -> &'static str
    ensures { result.now ≡ kind_words kind }
{
    match kind {
        JclKind::NoJob => "NO-JOB",
        JclKind::Stray => "STRAY",
        JclKind::BadName => "BAD-NAME",
        JclKind::NoOperation => "NO-OPERATION",
        JclKind::BadOperation => "BAD-OPERATION",
        JclKind::BadOperand => "BAD-OPERAND",
        JclKind::Unbalanced => "UNBALANCED",
        JclKind::ContinuationMissing => "CONTINUATION-MISSING",
        JclKind::DuplicateDd => "DUPLICATE-DD",
        JclKind::NoProgram => "NO-PROGRAM",
    }
}

/// The line of the fault that refuses a job. The one error is want of memory.
pub fn fault_line(alloc: Global, fault: &JclErr) -> Result<Line, AllocError>
    ensures { IfOk result (λ line. line ≡ jcl_line fault.now.card fault.now.column (kind_words fault.now.kind)) }
{
    jcl_line(alloc, fault.card, fault.column, kind_words(fault.kind))
}
