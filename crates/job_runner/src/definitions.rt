//! The DDs of a step, which are resolved in order.
ghost use Rattle.std.specs.Prelude.{◌≡◌, ◌≤◌, ◌<◌, ◌^◌, [], ◌∷◌, ◌++◌, is_some, IsTrue, IfOk, OnOk, Ok};
ghost use Rattle.std.specs.List.{filter_map};
ghost use Rattle.indexmap.specs.IndexMap.{insert_entry};
ghost use Rattle.util_syntax.specs.declared.step.DdIn.TheVariants as given;
ghost use Rattle.util_syntax.specs.Step.{same_name};
ghost use Rattle.vol_model.specs.declared.TheConstants.{MAX_DIR};
ghost use Rattle.vol_model.specs.Writing.{did_apply, set_on};
ghost use Rattle.util_steps.specs.Taking.{IsReady, Reads};
ghost use Rattle.job_runner.specs.DataSets.{allocation, definitions, found_on, if_done, is_mod, looked_for, makes, member_of, new_set, not_there, old_set, refuses, resolved, set_by, set_given};
ghost use Rattle.job_runner.specs.Dispositions.{deletion_for};
ghost use Rattle.job_runner.specs.Parts.{Does};
ghost use Rattle.job_runner.specs.Resolving.{Defines, Resolves};

use crate::dispositions::{Deletion, deletion_for};
use crate::new_sets::{NewSet, allocation, wanted};
use crate::operations::{Subject, answer, operate};
use card_text::Card;
use ebcdic_names::{Dsn, Name8};
use job_deck::{Dd, DdPart, DdSet, DdStatus, DdWhat};
use std::alloc::{AllocError, Global};
use util_steps::find_volume;
use util_syntax::{DdIn, DdTable};
use vol_model::{Listed, Machine, Refusal, Stop};

fn is_mod(status: DdStatus) -> bool
    ensures { result ≡ is_mod status }
{
    matches!(status, DdStatus::Mod)
}

fn member_of(part: DdPart) -> Option<Name8>
    ensures { result ≡ member_of part }
{
    match part {
        DdPart::Member(name) => Some(name),
        _ => None,
    }
}

// What a DD with a set on a volume gives.
fn set_given(set: &DdSet, v: u8) -> DdIn
    ensures { result ≡ set_given set.now v }
{
    DdIn::Set {
        v,
        dsn: set.dsn,
        member: member_of(set.part),
        append: is_mod(set.status),
        dcb: set.dcb,
    }
}

// Refuses a DD, and says so.
fn refuse<M: Machine>(
    alloc: Global,
    machine: &mut M,
    card: u32,
    dsn: &Dsn,
    word: &str,
    refusal: Refusal,
) -> Result<Option<DdIn>, Stop>
    requires { IsReady M.Machine machine.old }
    ensures { Does M.Machine (Resolves M.tells_prints (refuses word.now card dsn.now refusal)) machine.old machine.new result }
{
    let subject = Subject { card, dsn: *dsn };
    answer(alloc, machine, &subject, word, 12, Err(refusal))?;
    Ok(None)
}

// What a DD gives where its operation is done.
fn if_done(answer: Result<(), Refusal>, given: DdIn) -> Option<DdIn>
    ensures { result ≡ if_done answer given }
{
    match answer {
        Ok(()) => Some(given),
        Err(_) => None,
    }
}

// Makes a new set where it is wanted.
fn allocate<M: Machine>(
    alloc: Global,
    machine: &mut M,
    date: &[u8; 3],
    card: u32,
    set: &DdSet,
    wanted: &NewSet,
) -> Result<Option<DdIn>, Stop>
    requires ready { IsReady M.Machine machine.old }
    requires lawful { (wanted.now.dir ≤ MAX_DIR) × (wanted.now.request.secondary < 2 ^ 24) }
    ensures { Does M.Machine (Resolves M.tells_prints (makes card set.now.dsn (did_apply (M.meaning machine.old).state (allocation date.now set.now wanted.now)) (set_given set.now wanted.now.v))) machine.old machine.new result }
{
    let subject = Subject { card, dsn: set.dsn };
    let op = allocation(date, set, wanted);
    let done = operate(alloc, machine, &subject, "ALLOCATE", 12, &op)?;
    Ok(if_done(done, set_given(set, wanted.v)))
}

// A DD with a new set.
#[tactic(auto, unfolding(crate::specs::DataSets::new_set))]
fn make_set<M: Machine>(
    alloc: Global,
    machine: &mut M,
    date: &[u8; 3],
    card: u32,
    set: &DdSet,
) -> Result<Option<DdIn>, Stop>
    requires { IsReady M.Machine machine.old }
    ensures { Does M.Machine (Resolves M.tells_prints (new_set date.now card set.now (M.meaning machine.old).state)) machine.old machine.new result }
{
    match wanted(machine, set) {
        Ok(wanted) => allocate(alloc, machine, date, card, set, &wanted),
        Err(refusal) => refuse(alloc, machine, card, &set.dsn, "ALLOCATE", refusal),
    }
}

// The number of the volume on which a set is looked for, or why there is none.
#[tactic(auto, unfolding(crate::specs::DataSets::looked_for))]
fn looked_for<M: Machine>(machine: &M, set: &DdSet) -> Result<u8, Refusal>
    requires { IsTrue (M.status machine.now).is_sound }
    ensures { IsTrue M.tells → result ≡ looked_for set.now (M.meaning machine.now).state }
{
    match &set.serial {
        Some(serial) => find_volume(machine, serial).ok_or(Refusal::NoVolume),
        None => Err(Refusal::NoNode),
    }
}

// Whether a set is there.
fn is_there<M: Machine>(machine: &mut M, v: u8, dsn: &Dsn) -> Result<bool, Stop>
    requires { IsReady M.Machine machine.old }
    ensures { Reads M.Machine (λ shelf b. b ≡ is_some (set_on shelf v dsn.now.bytes)) machine.old machine.new result }
{
    Ok(machine.attr(v, dsn)?.is_some())
}

// A DD with a set that isn't on its volume: MOD makes it.
fn make_missing<M: Machine>(
    alloc: Global,
    machine: &mut M,
    date: &[u8; 3],
    card: u32,
    set: &DdSet,
) -> Result<Option<DdIn>, Stop>
    requires { IsReady M.Machine machine.old }
    ensures { Does M.Machine (Resolves M.tells_prints (not_there date.now card set.now (M.meaning machine.old).state)) machine.old machine.new result }
{
    if is_mod(set.status) {
        make_set(alloc, machine, date, card, set)
    } else {
        refuse(alloc, machine, card, &set.dsn, "FIND", Refusal::NoSet)
    }
}

// A DD with a set that is looked for on a volume.
fn find_on<M: Machine>(
    alloc: Global,
    machine: &mut M,
    date: &[u8; 3],
    card: u32,
    set: &DdSet,
    v: u8,
) -> Result<Option<DdIn>, Stop>
    requires { IsReady M.Machine machine.old }
    ensures { Does M.Machine (Resolves M.tells_prints (found_on date.now card set.now (M.meaning machine.old).state (Ok v))) machine.old machine.new result }
{
    if is_there(machine, v, &set.dsn)? {
        Ok(Some(set_given(set, v)))
    } else {
        make_missing(alloc, machine, date, card, set)
    }
}

// A DD with a set that is looked for.
#[tactic(auto, unfolding(crate::specs::DataSets::old_set))]
fn find_set<M: Machine>(
    alloc: Global,
    machine: &mut M,
    date: &[u8; 3],
    card: u32,
    set: &DdSet,
) -> Result<Option<DdIn>, Stop>
    requires { IsReady M.Machine machine.old }
    ensures { Does M.Machine (Resolves M.tells_prints (old_set date.now card set.now (M.meaning machine.old).state)) machine.old machine.new result }
{
    match looked_for(machine, set) {
        Ok(v) => find_on(alloc, machine, date, card, set, v),
        Err(refusal) => refuse(alloc, machine, card, &set.dsn, "FIND", refusal),
    }
}

// A DD with a set.
fn resolve_set<M: Machine>(
    alloc: Global,
    machine: &mut M,
    date: &[u8; 3],
    card: u32,
    set: &DdSet,
) -> Result<Option<DdIn>, Stop>
    requires { IsReady M.Machine machine.old }
    ensures { Does M.Machine (Resolves M.tells_prints (set_by date.now card set.now (M.meaning machine.old).state set.now.status)) machine.old machine.new result }
{
    match set.status {
        DdStatus::New => make_set(alloc, machine, date, card, set),
        _ => find_set(alloc, machine, date, card, set),
    }
}

// The cards of a DD once more.
fn copied_cards(alloc: Global, cards: &[(u32, Card)]) -> Result<DdIn, AllocError>
    ensures { IfOk result (λ dd. dd ≡ given.Cards cards.now) }
{
    Ok(DdIn::Cards(Listed::from_vec(cards.to_vec(alloc)?)))
}

// A DD, and what it gives to the program, unless it is refused.
#[tactic(auto, unfolding(crate::specs::DataSets::resolved))]
fn resolve<M: Machine>(
    alloc: Global,
    machine: &mut M,
    date: &[u8; 3],
    dd: &Dd,
) -> Result<Option<DdIn>, Stop>
    requires { IsReady M.Machine machine.old }
    ensures { Does M.Machine (Resolves M.tells_prints (resolved date.now dd.now (M.meaning machine.old).state)) machine.old machine.new result }
{
    match &dd.what {
        DdWhat::Dummy => Ok(Some(DdIn::Dummy)),
        DdWhat::Sysout => Ok(Some(DdIn::Sysout)),
        DdWhat::Cards(cards) => Ok(Some(copied_cards(alloc, cards.as_slice())?)),
        DdWhat::Set(set) => resolve_set(alloc, machine, date, dd.card, set),
    }
}

/// What the DDs of a step give, up to one that is refused.
#[derive(Drop)]
pub struct Defined {
    /// The DDs by their names.
    pub table: DdTable,
    /// The sets that they delete after the step.
    pub deletions: Vec<Deletion>,
    /// Whether a DD is refused.
    pub is_refused: bool,
}

impl Defined {
    // Adds what a DD gives.
    fn add(&mut self, dd: &Dd, given: DdIn) -> Result<(), AllocError>
        ensures table { OnOk result (self.new.table ≡ insert_entry same_name self.old.table dd.now.name given) }
        ensures deletions { OnOk result (self.new.deletions.items ≡ self.old.deletions.items ++ filter_map deletion_for ((dd.now, given) ∷ [])) }
        ensures refused { self.new.is_refused ≡ self.old.is_refused }
    {
        if let Some(deletion) = deletion_for(dd, &given) {
            self.deletions.push(deletion)?;
        }
        self.table.insert(dd.name, given)?;
        Ok(())
    }
}

/// Resolves the DDs of a step in order, up to one that is refused; the lines of those that have some are printed.
pub fn define<M: Machine>(
    alloc: Global,
    machine: &mut M,
    date: &[u8; 3],
    dds: &[Dd],
) -> Result<Defined, Stop>
    requires { IsReady M.Machine machine.old }
    ensures { Does M.Machine (Defines M.tells_prints (definitions date.now dds.now (M.meaning machine.old).state)) machine.old machine.new result }
{
    let mut defined = Defined {
        table: DdTable::new(alloc),
        deletions: Vec::new(alloc),
        is_refused: false,
    };
    let mut rest = dds;
    loop {
        let (dd, behind) = match rest.split_first() {
            Some(parts) => parts,
            None => return Ok(defined),
        };
        match resolve(alloc, machine, date, dd)? {
            Some(given) => {
                defined.add(dd, given)?;
                rest = behind;
            }
            None => {
                defined.is_refused = true;
                return Ok(defined);
            }
        }
    }
}
