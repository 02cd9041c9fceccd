//! Histories of a hall in memory, and what a stop leaves of them.
ghost use Rattle.std.specs.Prelude.{◌≡◌, [], length, IfOk, OnOk};
ghost use Rattle.hall_core.specs.Memory.{facts_of};

use hall_core::{Hall, HallErr, Left, MemHall};
use std::alloc::{AllocError, Global};
use std::process::Abort;
use std::test::Fail;

fn file(alloc: Global, name: &str, bytes: &[u8]) -> Result<(String, Vec<u8>), AllocError> {
    Ok((String::from_str(alloc, name)?, bytes.to_vec(alloc)?))
}

// Three files, of which the last has the name of the first, and room for so many calls and bytes.
fn hall_with(alloc: Global, fails: &[u64], calls: u64, bytes: u64) -> Result<MemHall, AllocError>
    ensures { IfOk result (λ hall. (facts_of hall).units ≡ []) }
{
    let mut files = Vec::new(alloc);
    files.push(file(alloc, "FILE1", b"abcdef")?)?;
    files.push(file(alloc, "FILE2", b"ghij")?)?;
    files.push(file(alloc, "FILE1", b"second")?)?;
    let mut hall = MemHall::new(alloc, files, fails.to_vec(alloc)?);
    hall.room(calls, bytes)?;
    Ok(hall)
}

// Attaches a file and reads from its third byte on, where it is long enough; its size.
fn third_bytes<H: Hall>(hall: &mut H, name: &str, buf: &mut [u8; 3]) -> Result<u64, HallErr>
    requires { (H.facts hall.old).units ≡ [] }
{
    let unit = hall.attach(name)?;
    let size = hall.size(unit);
    if size >= 5 {
        hall.read(unit, 2, buf)?;
    }
    Ok(size)
}

// A name, the calls that are to fail, the room for calls and bytes; what `third_bytes` answers and
// leaves in its buffer, what a print of four bytes answers then, and how many calls are recorded.
type Case = (
    &'static str,
    &'static [u64],
    (u64, u64),
    Result<u64, HallErr>,
    [u8; 3],
    Result<(), HallErr>,
    usize,
);

const DONE: Result<(), HallErr> = Ok(());

const FAILED: Result<(), HallErr> = Err(HallErr::Failed);

const NOT_READ: Result<u64, HallErr> = Err(HallErr::Failed);

const CASES: [Case; 8] = [
    ("FILE1", &[], (3, 9), Ok(6), *b"cde", DONE, 3),
    ("FILE2", &[], (2, 9), Ok(4), *b"...", DONE, 2),
    (
        "FILE3",
        &[],
        (2, 9),
        Err(HallErr::Missing),
        *b"...",
        DONE,
        2,
    ),
    ("FILE1", &[5, 1], (3, 9), NOT_READ, *b"...", DONE, 3),
    ("FILE1", &[2], (3, 9), Ok(6), *b"cde", FAILED, 3),
    ("FILE1", &[], (3, 8), Ok(6), *b"cde", FAILED, 2),
    ("FILE1", &[], (2, 9), Ok(6), *b"cde", FAILED, 2),
    ("FILE1", &[0], (1, 4), NOT_READ, *b"...", FAILED, 1),
];

#[test]
fn borrowed_hall_fails_in_turn_and_without_room(rt: HostRuntime) -> Result<(), Fail> {
    for (i, (name, fails, (calls, bytes), read, want, print, recorded)) in CASES
        .into_iter()
        .enumerate()
    {
        let mut hall = hall_with(rt.alloc(), fails, calls, bytes)?;
        let mut buf = *b"...";
        assert_eq!(rt;
            third_bytes(&mut &mut hall, name, &mut buf),
            read,
            "case {i}"
        );
        assert_eq!(rt; buf, want, "case {i}");
        assert_eq!(rt; hall.print(b"text"), print, "case {i}");
        assert_eq!(rt; hall.calls().len(), recorded, "case {i}");
    }
    Ok(())
}

// A call on two attached units.
#[derive(Clone, Copy)]
enum Action {
    Write(u8, u8, &'static [u8]),
    Sync,
    Print(&'static [u8]),
}

// Attaches both files, the first as unit 0.
fn attach_both(hall: &mut MemHall) -> Result<(), HallErr>
    requires { (facts_of hall.old).units ≡ [] }
    ensures { OnOk result (length (facts_of hall.new).units ≡ 2) }
{
    hall.attach("FILE1")?;
    hall.attach("FILE2")?;
    Ok(())
}

// Makes the call; a write that isn't inside its unit is reported missing.
fn perform(hall: &mut MemHall, action: &Action) -> Result<(), HallErr>
    requires { length (facts_of hall.old).units ≡ 2 }
    ensures { length (facts_of hall.new).units ≡ 2 }
{
    match action {
        Action::Write(unit, at, bytes) => {
            if *unit >= 2 || hall.size(*unit) < *at as u64 + bytes.len() as u64 {
                return Err(HallErr::Missing);
            }
            hall.write(*unit, *at as u64, bytes)
        }
        Action::Sync => hall.sync(),
        Action::Print(bytes) => hall.print(bytes),
    }
}

// A moment and the flags of the writes that are kept; then the bytes of the first two files, and
// what is printed.
type Stop = (
    u64,
    &'static [bool],
    &'static [u8],
    &'static [u8],
    &'static [u8],
);

// What is left has these bytes in its first two files, and in the third what it was given.
fn expect_left(rt: &impl Abort, left: &Left, first: &[u8], second: &[u8], text: &[u8]) {
    assert_eq!(rt; left.files.len(), 3);
    assert_eq!(rt; left.files[0].0.as_str(), "FILE1");
    assert_eq!(rt; left.files[0].1.as_slice(), first);
    assert_eq!(rt; left.files[1].1.as_slice(), second);
    assert_eq!(rt; left.files[2].1.as_slice(), b"second".as_slice());
    assert_eq!(rt; left.printed.as_slice(), text);
}

// The hall reads so, and has printed this.
fn expect_now(rt: &impl Abort, hall: &MemHall, first: &[u8], second: &[u8], text: &[u8]) {
    assert_eq!(rt; hall.image("FILE1").unwrap_or(b"none".as_slice()), first);
    assert_eq!(rt; hall.image("FILE2").unwrap_or(b"none".as_slice()), second);
    assert_eq!(rt; hall.printed(), text);
}

// The calls behind the two that attach the files, and what they answer.
const HISTORY: [(Action, Result<(), HallErr>); 12] = [
    (Action::Write(0, 1, b"XY"), DONE),
    (Action::Write(1, 0, b"PQ"), DONE),
    (Action::Write(0, 2, b"Z"), DONE),
    (Action::Print(b"one"), DONE),
    (Action::Sync, DONE),
    (Action::Write(0, 0, b"12"), FAILED),
    (Action::Write(1, 3, b"!"), DONE),
    (Action::Sync, FAILED),
    (Action::Print(b"two"), DONE),
    (Action::Print(b"bad"), FAILED),
    (Action::Sync, DONE),
    (Action::Write(0, 5, b"."), DONE),
];

const STOPS: [Stop; 20] = [
    (0, &[], b"abcdef", b"ghij", b""),
    (2, &[true], b"abcdef", b"ghij", b""),
    (3, &[false], b"abcdef", b"ghij", b""),
    (3, &[true], b"aXYdef", b"ghij", b""),
    (5, &[false, false, false], b"abcdef", b"ghij", b""),
    (5, &[true, false, false], b"aXYdef", b"ghij", b""),
    (5, &[false, true, false], b"abcdef", b"PQij", b""),
    (5, &[false, false, true], b"abZdef", b"ghij", b""),
    (5, &[true, false, true], b"aXZdef", b"ghij", b""),
    (5, &[true, true, true], b"aXZdef", b"PQij", b""),
    (6, &[true], b"aXYdef", b"ghij", b"one"),
    (7, &[], b"aXZdef", b"PQij", b"one"),
    (8, &[true], b"12Zdef", b"PQij", b"one"),
    (9, &[false, true], b"aXZdef", b"PQi!", b"one"),
    (10, &[true, true], b"12Zdef", b"PQi!", b"one"),
    (11, &[true, false], b"12Zdef", b"PQij", b"onetwo"),
    (12, &[false, false], b"aXZdef", b"PQij", b"onetwo"),
    (13, &[], b"aXZdef", b"PQi!", b"onetwo"),
    (99, &[true], b"aXZde.", b"PQi!", b"onetwo"),
    (99, &[], b"aXZdef", b"PQi!", b"onetwo"),
];

// Stops leave what the table has.
fn expect_stops(rt: &impl Abort, hall: &MemHall) -> Result<(), Fail> {
    for (moment, keep, first, second, text) in STOPS {
        let left = hall.left_at(moment, keep)?;
        expect_left(rt, &left, first, second, text);
    }
    Ok(())
}

#[test]
fn stops_leave_what_the_history_says(rt: HostRuntime) -> Result<(), Fail> {
    let mut hall = hall_with(rt.alloc(), &[7, 9, 11], 14, 28)?;
    attach_both(&mut hall)?;
    for (action, want) in &HISTORY {
        assert_eq!(rt; perform(&mut hall, action), *want);
    }
    expect_stops(&rt, &hall)?;
    expect_now(&rt, &hall, b"aXZde.", b"PQi!", b"onetwo");
    Ok(())
}
