//! The jobs of a deck.
ghost use Rattle.std.specs.Prelude.{◌≡◌, ◌≤◌, ◌++◌, [], ◌∷◌, length, map, Ok, IfOk, OnOk};
ghost use Rattle.std.specs.Option.{option_map_or};
ghost use Rattle.jcl_forms.specs.Dates.{IsDate};
ghost use Rattle.job_deck.specs.Deck.{groups, begins_step, begins_statement, data_of};
ghost use Rattle.job_deck.specs.Faults.{first_some, unless};
ghost use Rattle.job_deck.specs.Jobs.{stray_fault, statement_on, wrong_operation, job_fault, early_fault, head_fault, exec, same_name, has_dd, duplicate_faults, what_of_operands, what_of, left_by, dd_with, dd_of, with_statement, with_statements, step_of, all_steps, steps_of, job_of, outside, jobs_behind, divided, jobs_of};

use crate::dd_operands::{DdForm, DdOperands, dd_form_of, set_of};
use crate::deck::{
    DeckCard, Role, before_division, before_statement, before_step, begins_job, begins_statement,
    begins_step, cards_of, divides, is_comment_card, split_continuation, split_data,
};
use crate::exec_operands::program_of;
use crate::faults::{JclErr, JclKind, earliest, fault_at, unless, with_first_fault};
use crate::job::{Dd, DdWhat, Dds, Job, Step, Steps};
use crate::operands::{add_continuation_fault, balance_fault, pieces};
use crate::statements::{
    Operation, Statement, add_name_fault, blank_name, column_of, name_on, name_or_blank,
    operation_fault, statement_of,
};
use crate::taken::add_new_catalog_fault;
use card_text::{Card, Numbered, name_of};
use ebcdic_names::{Listed, Name8};
use std::alloc::{AllocError, Global};

// The fault of cards that are no JCL and that no DD takes.
fn stray_fault(cards: &[DeckCard]) -> Option<JclErr>
    ensures { result ≡ stray_fault cards.now }
{
    match cards.first() {
        Some(card) => Some(fault_at(column_of(&card.card, 1), JclKind::Stray)),
        None => None,
    }
}

// The statement that begins on a card, with those of the cards after it that continue it.
fn statement_on(
    alloc: Global,
    first: &DeckCard,
    others: &[DeckCard],
) -> Result<Statement, AllocError>
    ensures { IfOk result (λ s. s ≡ statement_on first.now others.now) }
{
    let (continuation, _) = split_continuation(others);
    statement_of(alloc, &first.card, continuation)
}

// The first fault of a statement that has no operation, or none that is taken.
#[tactic(auto, unfolding(crate::specs::Jobs::wrong_operation))]
fn wrong_operation(alloc: Global, statement: &Statement) -> Result<Option<JclErr>, AllocError>
    ensures { IfOk result (λ fault. fault ≡ wrong_operation statement.now) }
{
    let mut faults = Vec::new(alloc);
    add_name_fault(&mut faults, false, statement)?;
    faults.push(operation_fault(statement))?;
    Ok(earliest(&faults))
}

// Adds a fault, if there is one.
fn add_fault(faults: &mut Vec<JclErr>, fault: Option<JclErr>) -> Result<(), AllocError>
    ensures { OnOk result (faults.new.items ≡ faults.old.items ++ option_map_or (λ f. f ∷ []) fault []) }
{
    if let Some(fault) = fault {
        faults.push(fault)?;
    }
    Ok(())
}

// The first fault of a JOB, whose operands are read for their balance and their continuation alone.
#[tactic(auto, unfolding(crate::specs::Jobs::job_fault))]
fn job_fault(alloc: Global, statement: &Statement) -> Result<Option<JclErr>, AllocError>
    ensures { IfOk result (λ fault. fault ≡ job_fault statement.now) }
{
    let mut faults = Vec::new(alloc);
    add_name_fault(&mut faults, true, statement)?;
    let pieces = pieces(alloc, &statement.operands)?;
    add_fault(&mut faults, balance_fault(&pieces))?;
    add_continuation_fault(&mut faults, &statement.operands)?;
    Ok(earliest(&faults))
}

// The first fault of a statement in front of the first EXEC.
fn early_fault(
    alloc: Global,
    first: &DeckCard,
    others: &[DeckCard],
) -> Result<Option<JclErr>, AllocError>
    ensures { IfOk result (λ fault. fault ≡ early_fault first.now others.now first.now.role) }
{
    match first.role {
        Role::Comment => Ok(stray_fault(others)),
        Role::Statement(Operation::Dd) => Ok(Some(fault_at(
            column_of(&first.card, 1),
            JclKind::Stray,
        ))),
        _ => wrong_operation(alloc, &statement_on(alloc, first, others)?),
    }
}

// The first fault of the statements after a JOB, in front of the first EXEC.
fn early_faults(alloc: Global, cards: &[DeckCard]) -> Result<Option<JclErr>, AllocError>
    ensures { IfOk result (λ fault. fault
        ≡ first_some (map (λ s. early_fault s.0 s.1 s.0.role) (groups begins_statement cards.now))) }
{
    for (i, first) in cards.iter().enumerate() {
        if begins_statement(first) {
            let others = before_statement(&cards[i + 1..]);
            if let Some(fault) = early_fault(alloc, first, others)? {
                return Ok(Some(fault));
            }
        }
    }
    Ok(None)
}

// The first fault of a job in front of the first EXEC.
#[tactic(auto, unfolding(crate::specs::Jobs::head_fault))]
fn head_fault(
    alloc: Global,
    job: &DeckCard,
    others: &[DeckCard],
) -> Result<Option<JclErr>, AllocError>
    ensures { IfOk result (λ fault. fault ≡ head_fault job.now others.now) }
{
    let own = before_statement(others);
    if let Some(fault) = job_fault(alloc, &statement_on(alloc, job, own)?)? {
        return Ok(Some(fault));
    }
    let (_, behind) = split_continuation(own);
    if let Some(fault) = stray_fault(behind) {
        return Ok(Some(fault));
    }
    early_faults(alloc, others)
}

// The step of an EXEC, without its DDs.
#[tactic(auto, unfolding(crate::specs::Jobs::exec))]
fn exec(alloc: Global, statement: &Statement) -> Result<Result<Step, JclErr>, AllocError>
    ensures { IfOk result (λ read. read ≡ exec statement.now) }
{
    let mut faults = Vec::new(alloc);
    add_name_fault(&mut faults, false, statement)?;
    match with_first_fault(&faults, program_of(alloc, &statement.operands)?) {
        Err(fault) => Ok(Err(fault)),
        Ok(program) => Ok(Ok(Step {
            name: name_of(statement.name.as_slice()),
            card: statement.card.0,
            pgm: program.pgm,
            parm: program.parm,
            dds: Listed::new(alloc),
        })),
    }
}

fn same_name(name: &Name8, other: &Name8) -> bool
    ensures { result ≡ same_name name.now other.now }
{
    name.bytes == other.bytes
}

// Whether one of these DDs has the name.
fn has_dd(dds: &Dds, name: &Name8) -> bool
    ensures { result ≡ has_dd dds.now name.now }
{
    dds.as_slice().iter().any(|dd| same_name(&dd.name, name))
}

// Adds the fault of a DD whose name an earlier DD of the step has.
fn add_duplicate_fault(
    faults: &mut Vec<JclErr>,
    earlier: &Dds,
    statement: &Statement,
    name: Option<Name8>,
) -> Result<(), AllocError>
    ensures { OnOk result (faults.new.items
        ≡ faults.old.items ++ duplicate_faults earlier.now statement.now name) }
{
    if let Some(name) = name {
        if has_dd(earlier, &name) {
            let place = column_of(&statement.card, 3);
            faults.push(fault_at(place, JclKind::DuplicateDd))?;
        }
    }
    Ok(())
}

fn what_of_operands(operands: DdOperands) -> DdWhat
    ensures { result ≡ what_of_operands operands }
{
    match operands.dsn {
        Some(named) => DdWhat::Set(set_of(operands, named)),
        None => DdWhat::Dummy,
    }
}

// The cards of data, up to the delimiter.
fn data_cards(alloc: Global, behind: &[DeckCard]) -> Result<Vec<Numbered>, AllocError>
    ensures { IfOk result (λ cards. cards.items ≡ map (λ card. card.card) (data_of behind.now)) }
{
    let (cards, _) = split_data(behind);
    cards.iter().map(|card| card.card).collect(alloc)
}

// What a form defines, with these cards after the statement.
fn what_of(alloc: Global, form: DdForm, behind: &[DeckCard]) -> Result<DdWhat, AllocError>
    ensures { IfOk result (λ what. what ≡ what_of form behind.now) }
{
    match form {
        DdForm::Cards => Ok(DdWhat::Cards(Listed::from_vec(data_cards(alloc, behind)?))),
        DdForm::Sysout => Ok(DdWhat::Sysout),
        DdForm::Keyed(operands) => Ok(what_of_operands(operands)),
        _ => Ok(DdWhat::Dummy),
    }
}

// The first card after a DD that it doesn't take, as a fault.
fn left_fault(form: DdForm, behind: &[DeckCard]) -> Option<JclErr>
    ensures { result ≡ stray_fault (left_by form behind.now) }
{
    match form {
        DdForm::Cards => {
            let (_, others) = split_data(behind);
            stray_fault(others)
        }
        _ => stray_fault(behind),
    }
}

// The DD of a statement whose operands are read.
fn dd_with(
    alloc: Global,
    statement: &Statement,
    behind: &[DeckCard],
    form: Result<DdForm, JclErr>,
) -> Result<Result<Dd, JclErr>, AllocError>
    ensures { IfOk result (λ read. read ≡ dd_with statement.now behind.now form) }
{
    match form {
        Err(fault) => Ok(Err(fault)),
        Ok(form) => {
            let dd = Dd {
                name: name_or_blank(statement.name.as_slice()),
                card: statement.card.0,
                what: what_of(alloc, form, behind)?,
            };
            Ok(unless(left_fault(form, behind), dd))
        }
    }
}

// A DD, after the earlier ones of its step.
#[tactic(auto, unfolding(crate::specs::Jobs::dd_of))]
fn dd_of(
    alloc: Global,
    date: &[u8; 3],
    earlier: &Dds,
    first: &DeckCard,
    others: &[DeckCard],
) -> Result<Result<Dd, JclErr>, AllocError>
    requires { IsDate date.now }
    ensures { IfOk result (λ read. read ≡ dd_of date.now earlier.now first.now others.now) }
{
    let statement = statement_on(alloc, first, others)?;
    let (_, behind) = split_continuation(others);
    let mut faults = Vec::new(alloc);
    add_duplicate_fault(
        &mut faults,
        earlier,
        &statement,
        name_of(statement.name.as_slice()),
    )?;
    add_name_fault(&mut faults, true, &statement)?;
    add_new_catalog_fault(alloc, &mut faults, &pieces(alloc, &statement.operands)?)?;
    let form = with_first_fault(&faults, dd_form_of(alloc, date, &statement.operands)?);
    dd_with(alloc, &statement, behind, form)
}

// The DDs of a step with what a further statement adds, or its fault.
fn with_statement(
    alloc: Global,
    date: &[u8; 3],
    dds: Dds,
    first: &DeckCard,
    others: &[DeckCard],
) -> Result<Result<Dds, JclErr>, AllocError>
    requires { IsDate date.now }
    ensures { IfOk result (λ read. read ≡ with_statement date.now dds first.now others.now first.now.role) }
{
    match first.role {
        Role::Comment => Ok(unless(stray_fault(others), dds)),
        Role::Statement(Operation::Dd) => match dd_of(alloc, date, &dds, first, others)? {
            Err(fault) => Ok(Err(fault)),
            Ok(dd) => {
                let mut dds = dds;
                dds.push(dd)?;
                Ok(Ok(dds))
            }
        },
        _ => {
            let fault = wrong_operation(alloc, &statement_on(alloc, first, others)?)?;
            Ok(unless(fault, dds))
        }
    }
}

// The DDs of the statements after an EXEC, or the first fault.
#[tactic(auto, unfolding(crate::specs::Jobs::with_statements))]
fn dds_of(
    alloc: Global,
    date: &[u8; 3],
    cards: &[DeckCard],
) -> Result<Result<Dds, JclErr>, AllocError>
    requires { IsDate date.now }
    ensures { IfOk result (λ read. read ≡ with_statements date.now [] (groups begins_statement cards.now)) }
{
    let mut dds = Listed::new(alloc);
    for (i, first) in cards.iter().enumerate() {
        if begins_statement(first) {
            let others = before_statement(&cards[i + 1..]);
            match with_statement(alloc, date, dds, first, others)? {
                Err(fault) => return Ok(Err(fault)),
                Ok(more) => dds = more,
            }
        }
    }
    Ok(Ok(dds))
}

// A step: its EXEC and the statements after it.
#[tactic(auto, unfolding(crate::specs::Jobs::step_of))]
fn step_of(
    alloc: Global,
    date: &[u8; 3],
    first: &DeckCard,
    others: &[DeckCard],
) -> Result<Result<Step, JclErr>, AllocError>
    requires { IsDate date.now }
    ensures { IfOk result (λ read. read ≡ step_of date.now first.now others.now) }
{
    let own = before_statement(others);
    let step = match exec(alloc, &statement_on(alloc, first, own)?)? {
        Err(fault) => return Ok(Err(fault)),
        Ok(step) => step,
    };
    let (_, behind) = split_continuation(own);
    if let Some(fault) = stray_fault(behind) {
        return Ok(Err(fault));
    }
    match dds_of(alloc, date, others)? {
        Err(fault) => Ok(Err(fault)),
        Ok(dds) => {
            let mut step = step;
            step.dds = dds;
            Ok(Ok(step))
        }
    }
}

// The steps of the cards after a JOB, or the first fault.
#[tactic(auto, using(crate::proofs::Steps::steps_read), unfolding(crate::proofs::Steps::with_steps))]
fn all_steps(
    alloc: Global,
    date: &[u8; 3],
    cards: &[DeckCard],
) -> Result<Result<Steps, JclErr>, AllocError>
    requires { IsDate date.now }
    ensures { IfOk result (λ read. read
        ≡ all_steps (map (λ s. step_of date.now s.0 s.1) (groups begins_step cards.now))) }
{
    let mut steps = Listed::new(alloc);
    for (i, first) in cards.iter().enumerate() {
        if begins_step(first) {
            match step_of(alloc, date, first, before_step(&cards[i + 1..]))? {
                Err(fault) => return Ok(Err(fault)),
                Ok(step) => steps.push(step)?,
            }
        }
    }
    Ok(Ok(steps))
}

// The steps of a job, or its first fault.
#[tactic(auto, unfolding(crate::specs::Jobs::steps_of))]
fn steps_of(
    alloc: Global,
    date: &[u8; 3],
    job: &DeckCard,
    others: &[DeckCard],
) -> Result<Result<Steps, JclErr>, AllocError>
    requires { IsDate date.now }
    ensures { IfOk result (λ read. read ≡ steps_of date.now job.now others.now) }
{
    if let Some(fault) = head_fault(alloc, job, before_step(others))? {
        return Ok(Err(fault));
    }
    all_steps(alloc, date, others)
}

// A job: its JOB and the cards up to the next JOB or null statement.
#[tactic(auto, unfolding(crate::specs::Jobs::job_of))]
fn job_of(
    alloc: Global,
    date: &[u8; 3],
    job: &DeckCard,
    others: &[DeckCard],
) -> Result<Job, AllocError>
    requires { IsDate date.now }
    ensures { IfOk result (λ read. read ≡ job_of date.now job.now others.now) }
{
    let name = name_on(alloc, &job.card)?;
    Ok(Job {
        name: name_or_blank(&name),
        card: job.card.0,
        steps: steps_of(alloc, date, job, others)?,
    })
}

// Adds the refused job of the first of cards in no job that is no comment.
#[tactic(auto, unfolding(crate::specs::Jobs::outside))]
fn add_outside(jobs: &mut Vec<Job>, cards: &[DeckCard]) -> Result<(), AllocError>
    ensures { OnOk result (jobs.new.items ≡ jobs.old.items ++ outside cards.now) }
{
    for card in cards {
        if !is_comment_card(card) {
            jobs.push(Job {
                name: blank_name(),
                card: card.card.0,
                steps: Err(fault_at(column_of(&card.card, 1), JclKind::NoJob)),
            })?;
            return Ok(());
        }
    }
    Ok(())
}

// Adds what a JOB or a null statement begins.
fn add_jobs_behind(
    alloc: Global,
    date: &[u8; 3],
    jobs: &mut Vec<Job>,
    first: &DeckCard,
    others: &[DeckCard],
) -> Result<(), AllocError>
    requires { IsDate date.now }
    ensures { OnOk result (jobs.new.items ≡ jobs.old.items ++ jobs_behind date.now first.now others.now) }
{
    if begins_job(first) {
        jobs.push(job_of(alloc, date, first, others)?)?;
        Ok(())
    } else {
        add_outside(jobs, others)
    }
}

// The jobs of the cards of a deck.
fn divided(alloc: Global, date: &[u8; 3], cards: &[DeckCard]) -> Result<Vec<Job>, AllocError>
    requires { IsDate date.now }
    ensures { IfOk result (λ jobs. jobs.items ≡ divided date.now cards.now) }
{
    let mut jobs = Vec::new(alloc);
    add_outside(&mut jobs, before_division(cards))?;
    for (i, first) in cards.iter().enumerate() {
        if divides(first) {
            let others = before_division(&cards[i + 1..]);
            add_jobs_behind(alloc, date, &mut jobs, first, others)?;
        }
    }
    Ok(jobs)
}

/// The jobs of a deck of at most 100,000 cards, run on a date: the year since 1900 and a day of two bytes.
///
/// A job begins at its JOB card and ends in front of the next, at a card of two slashes and blanks, or with the deck. A card
/// that continues a statement is no JOB card. A job that has a fault is refused as a whole by the first. The first card
/// outside a job that is no comment makes a refused job of a blank name, as long as no job begins and none ends. The one
/// error is want of memory. The forms of cards and operands are this project's profile.
#[tactic(auto, unfolding(crate::specs::Jobs::jobs_of))]
pub fn jobs(alloc: Global, deck: &[Card], date: [u8; 3]) -> Result<Vec<Job>, AllocError>
    requires cards { length deck.now ≤ 100000 }
    requires date { IsDate date }
    ensures { IfOk result (λ jobs. jobs.items ≡ jobs_of date deck.now) }
{
    let cards = cards_of(alloc, deck)?;
    divided(alloc, &date, &cards)
}
