//! Decks, and the jobs or the faults that they have.

use card_text::Card;
use ebcdic_names::{Dsn, Serial};
use job_deck::{
    Dcb, DdAfter, DdPart, DdSet, DdStatus, DdWhat, JclErr, JclKind, Job, Space, SpaceAsk, Step,
    jobs,
};
use std::alloc::{AllocError, Global};
use std::test::Fail;

fn card_of(line: &[u8]) -> Card {
    let mut bytes = [b' '; 80];
    for (to, from) in bytes.iter_mut().zip(line) {
        *to = *from;
    }
    Card { bytes }
}

// The jobs of the lines of a text on day 350 of 1974.
fn read(alloc: Global, text: &str) -> Result<Vec<Job>, AllocError> {
    let mut deck = Vec::new(alloc);
    for line in text.lines() {
        deck.push(card_of(line.as_bytes()))?;
    }
    if deck.len() > 1000 {
        return Ok(Vec::new(alloc));
    }
    jobs(alloc, &deck, [74, 1, 94])
}

// The fault of the first job.
fn fault_of(alloc: Global, text: &str) -> Result<Option<JclErr>, AllocError> {
    let jobs = read(alloc, text)?;
    match jobs.first() {
        Some(job) => Ok(job.steps.as_ref().err().copied()),
        None => Ok(None),
    }
}

#[test]
fn faults_stand_at_their_columns(rt: HostRuntime) -> Result<(), Fail> {
    let cases = [
        ("//S1 EXEC PGM=A", 1, 1, JclKind::NoJob),
        ("//J1 JOB\nHELLO", 2, 1, JclKind::Stray),
        ("//J1 JOB\n//D1 DD DUMMY", 2, 1, JclKind::Stray),
        ("// JOB", 1, 8, JclKind::BadName),
        ("// JOB A,\n//  B", 2, 7, JclKind::BadName),
        ("// JOB A,", 1, 11, JclKind::BadName),
        ("//J1 JOB\n//1S EXEC PGM=A", 2, 3, JclKind::BadName),
        ("//J1 JOB\n//S1", 2, 6, JclKind::NoOperation),
        ("//J1 JOB\n//S1 PROC", 2, 6, JclKind::BadOperation),
        (
            "//J1 JOB\n//S1 EXEC PGM=A,PGM=B",
            2,
            17,
            JclKind::BadOperand,
        ),
        (
            "//J1 JOB\n//S1 EXEC PGM=,PARM=(",
            2,
            11,
            JclKind::BadOperand,
        ),
        (
            "//J1 JOB\n//S1 EXEC PGM=A,PARM=(A",
            2,
            17,
            JclKind::Unbalanced,
        ),
        ("//J1 JOB A,", 1, 13, JclKind::ContinuationMissing),
        (
            "//J1 JOB\n//S1 EXEC PGM=A\n//D1 DD *\n/*\n//D1 DD *",
            5,
            3,
            JclKind::DuplicateDd,
        ),
        ("//J1 JOB\n//S1 EXEC", 2, 11, JclKind::NoProgram),
        (
            "//J1 JOB\n//S1 EXEC PARM=A,\n//  TIME=1",
            3,
            12,
            JclKind::NoProgram,
        ),
        (
            "//J1 JOB\n//S1 EXEC PGM=A\n//D1 DD SPACE=(TRK,(1,1,2001))",
            3,
            9,
            JclKind::BadOperand,
        ),
        (
            "//J1 JOB\n//S1 EXEC PGM=A\n//D1 DD UNIT=A,LABEL=RETPD=9999",
            3,
            16,
            JclKind::BadOperand,
        ),
        (
            "//J1 JOB\n//S1 EXEC PGM=A\n//D1 DD DSN=A(MEMBERTOO)",
            3,
            9,
            JclKind::BadOperand,
        ),
        (
            "//J1 JOB\n//S1 EXEC PGM=A\n//D1 DD UNIT=A,DSN=A(+1)",
            3,
            16,
            JclKind::BadOperand,
        ),
        (
            "//J1 JOB\n//S1 EXEC PGM=A\n//D1 DD DSN=A,DISP=(OLD,CATLG)",
            3,
            15,
            JclKind::BadOperand,
        ),
        (
            "//J1 JOB\n//S1 EXEC PGM=A\n//D1 DD DISP=(,UNCATLG)",
            3,
            9,
            JclKind::BadOperand,
        ),
        (
            "//J1 JOB\n//S1 EXEC PGM=A\n//D1 DD DSN=SYSCTLG,UNIT=(",
            3,
            9,
            JclKind::BadOperand,
        ),
        (
            "//J1 JOB\n//S1 EXEC PGM=A\n//D1 DD DISP=MOD,DSNAME=SYSCTLG",
            3,
            18,
            JclKind::BadOperand,
        ),
    ];
    for (text, card, column, kind) in cases {
        let want = Some(JclErr { card, column, kind });
        assert_eq!(rt; fault_of(rt.alloc(), text)?, want, "{text}");
    }
    Ok(())
}

const GENERATED_SET: &str = "//J1 JOB
//S1 EXEC PGM=IEBGENER
//SYSPRINT DD SYSOUT=A
//SYSIN DD DUMMY
//SYSUT2 DD DSN=TEST.CARDS,DISP=(NEW,KEEP),VOL=SER=WORK01,
//             UNIT=2314,SPACE=(TRK,(2,1)),
//             DCB=(RECFM=FB,LRECL=80,BLKSIZE=800)
//SYSUT1 DD *
HELLO
WORLD
/*
//S2 EXEC PGM=IEHLIST
//SYSPRINT DD SYSOUT=A
//SYSIN DD *
 LISTVTOC VOL=2314=WORK01,FORMAT
/*";

const TWO_JOBS: &str = "//J1 JOB
//S1 EXEC
//S2 EXEC PGM=A
//J2 JOB
//S1 EXEC PGM=IEFBR14,PARM='A''B'
//D1 DD DSNAME=PAY.LOG,DISP=(MOD,DELETE),VOLUME=SER=V,
//  LABEL=RETPD=30,SPACE=(CYL,(1,,0),,CONTIG)
//D2 DD DSN=SYSCTLG,DISP=SHR";

// Cards in no job on both sides of a null statement, a card that continues a statement and so is no JOB, a refused job with
// more statements, and a job without steps.
const DIVIDED: &str = "//* HELLO
HELLO
//D1 DD DSN=A,
//  JOB
//J1 JOB
//1S EXEC PGM=A
//S2 EXEC PGM=B
/*
//J2 JOB
//
//
//S1 EXEC PGM=A";

// The first cards of jobs.
fn first_cards(alloc: Global, jobs: &[Job]) -> Result<Vec<u32>, AllocError> {
    jobs.iter().map(|job| job.card).collect(alloc)
}

fn step_at(jobs: &[Job], job: usize, step: usize) -> Option<&Step> {
    match &jobs.get(job)?.steps {
        Ok(steps) => steps.get(step),
        Err(_) => None,
    }
}

fn set_at(step: &Step, dd: usize) -> Option<&DdSet> {
    match &step.dds.get(dd)?.what {
        DdWhat::Set(set) => Some(set),
        _ => None,
    }
}

// The number of the first data card of a DD, and how many there are.
fn data_at(step: &Step, dd: usize) -> Option<(u32, usize)> {
    match &step.dds.get(dd)?.what {
        DdWhat::Cards(cards) => Some((cards.get(0)?.0, cards.len())),
        _ => None,
    }
}

// The set that the first step of the first text makes.
fn is_generated(set: &DdSet) -> bool {
    let space = Space {
        ask: SpaceAsk::Tracks,
        primary: 2,
        secondary: 1,
        dir: 0,
        contig: false,
    };
    let dcb = Dcb {
        recfm: Some(0x90),
        lrecl: Some(80),
        blksize: Some(800),
        keylen: None,
        dsorg: None,
    };
    Some(set.dsn) == Dsn::read("TEST.CARDS").ok()
        && set.status == DdStatus::New
        && set.after == DdAfter::Keep
        && set.serial == Serial::read("WORK01").ok()
        && set.space == Some(space)
        && set.dcb == dcb
        && set.expires == [0, 0, 0]
}

// The set that the second text makes where it isn't there.
fn is_log(set: &DdSet) -> bool {
    let space = Space {
        ask: SpaceAsk::Cylinders,
        primary: 1,
        secondary: 0,
        dir: 0,
        contig: true,
    };
    set.part == DdPart::Whole
        && set.status == DdStatus::Mod
        && set.after == DdAfter::Delete
        && set.space == Some(space)
        && set.expires == [75, 0, 15]
}

// The catalog that is there.
fn is_old_catalog(set: &DdSet) -> bool {
    Some(set.dsn) == Dsn::read("SYSCTLG").ok()
        && set.status == DdStatus::Shr
        && set.after == DdAfter::Keep
}

#[test]
fn jobs_have_the_fields_of_their_cards(rt: HostRuntime) -> Result<(), Fail> {
    let jobs = read(rt.alloc(), GENERATED_SET)?;
    let step = step_at(&jobs, 0, 0).ok_or("no step")?;
    assert!(rt; is_generated(set_at(step, 2).ok_or("no set")?));
    assert_eq!(rt; data_at(step, 3), Some((9, 2)));
    let step = step_at(&jobs, 0, 1).ok_or("no second step")?;
    assert_eq!(rt; data_at(step, 1), Some((15, 1)));
    let jobs = read(rt.alloc(), TWO_JOBS)?;
    assert_eq!(rt; jobs.len(), 2);
    assert!(rt; step_at(&jobs, 0, 0).is_none());
    let step = step_at(&jobs, 1, 0).ok_or("no step of the second job")?;
    assert_eq!(rt; step.parm.as_slice(), b"A'B".as_slice());
    assert!(rt; is_log(set_at(step, 0).ok_or("no log")?));
    assert!(rt; is_old_catalog(set_at(step, 1).ok_or("no catalog")?));
    let jobs = read(rt.alloc(), DIVIDED)?;
    let cards = first_cards(rt.alloc(), &jobs)?;
    assert_eq!(rt; cards.as_slice(), [2, 5, 9, 12].as_slice());
    Ok(())
}
