//! Statements on cards, with what is read of them, and the lines that answer them.
use ebcdic_names::{Dsn, Name8, Serial};
use std::alloc::{AllocError, Global};
use std::test::Fail;
use util_syntax::{
    Card, DdIn, DdTable, Item, Object, Outcome, SynErr, Value, item_line, jcl_line, no_dd_line,
    no_program_line, statements, syntax_line,
};
use vol_model::Refusal;

// A card of these characters, with blanks behind them.
fn card_of(text: &[u8]) -> Card {
    let mut bytes = [b' '; 80];
    let count = text.len().min(80);
    bytes[..count].copy_from_slice(&text[..count]);
    Card { bytes }
}

// The items on cards of these characters.
fn items_of(alloc: Global, lines: &[&[u8]]) -> Result<Vec<Item>, AllocError> {
    let mut cards = Vec::new(alloc);
    let mut number = 0u32;
    for line in lines {
        number = number.saturating_add(1);
        cards.push((number, card_of(line)))?;
    }
    statements(alloc, &cards)
}

// The first fault among items.
fn fault_of(items: &[Item]) -> Option<(u32, u8, SynErr)> {
    for item in items {
        if let Item::Fault { card, column, kind } = item {
            return Some((*card, *column, *kind));
        }
    }
    None
}

// Cards, and the card, the column and the kind of the fault on them.
type Faulty = (&'static [&'static [u8]], u32, u8, SynErr);

#[rattlefmt::skip]
const FAULTY: [Faulty; 22] = [
    // A part that is missing would begin in the second column behind the last.
    (&[b""], 1, 2, SynErr::NoOperation),
    (&[b"NAME"], 1, 6, SynErr::NoOperation),
    (&[b"* A COMMENT", b"NAME  "], 2, 6, SynErr::NoOperation),
    (&[b"9AME COPY A"], 1, 1, SynErr::BadOperand),
    (&[b" COPY-1 A"], 1, 2, SynErr::BadOperand),
    (&[b" COPY ABCDEFGHI=1"], 1, 7, SynErr::BadOperand),
    (&[b" COPY KEY="], 1, 7, SynErr::BadOperand),
    (&[b" COPY ,A"], 1, 7, SynErr::BadOperand),
    (&[b" COPY A,,B"], 1, 9, SynErr::BadOperand),
    (&[b" COPY 'A'B"], 1, 7, SynErr::BadOperand),
    (&[b" COPY A,(B,'C'),=D"], 1, 17, SynErr::BadOperand),
    // Eight lists in one another are read, nine aren't.
    (&[b" COPY ((((((((A)))))))),(((((((((A)))))))))"], 1, 25, SynErr::BadOperand),
    (&[b" COPY =A,(B"], 1, 7, SynErr::BadOperand),
    // The column is that of the operand, not of the parenthesis or the quote.
    (&[b" LISTVTOC (A"], 1, 11, SynErr::Unbalanced),
    (&[b" COPY A,B=(C"], 1, 9, SynErr::Unbalanced),
    (&[b" COPY A=)B"], 1, 7, SynErr::Unbalanced),
    (&[b" COPY A=('B)'"], 1, 7, SynErr::Unbalanced),
    (&[b" COPY A,", b"      (B"], 2, 7, SynErr::Unbalanced),
    (&[b" COPY A,"], 1, 10, SynErr::ContinuationMissing),
    (&[b" COPY A,", b"* A COMMENT"], 1, 10, SynErr::ContinuationMissing),
    (&[b" COPY A,", b"", b"      B,", b"NAME COPY C"], 3, 10, SynErr::ContinuationMissing),
    // A character in column 72.
    (&[b" COPY A                                                                X"], 1, 9, SynErr::ContinuationMissing),
];

#[test]
fn statements_and_their_faults(rt: HostRuntime) -> Result<(), Fail> {
    let alloc = rt.alloc();
    for (lines, card, column, kind) in FAULTY {
        let items = items_of(alloc, lines)?;
        assert_eq!(rt; fault_of(&items), Some((card, column, kind)));
    }
    let items = items_of(
        alloc,
        &[
            b"NAME1   RENAME DSNAME=A.B,VOL=2314=(PACK01,PACK02),   A REMARK".as_slice(),
            b"               TITLE=('IT''S',,C)   ANOTHER".as_slice(),
            b" COPY =A".as_slice(),
            b" COPY".as_slice(),
        ],
    )?;
    assert_eq!(rt; items.len(), 3);
    let Item::Stmt(first) = &items[0] else {
        return Err("a statement")?;
    };
    assert_eq!(rt; first.card, 1);
    assert_eq!(rt; first.name, Name8::read("NAME1").ok());
    assert_eq!(rt; Some(first.op), Name8::read("RENAME").ok());
    assert_eq!(rt; first.operands.len(), 3);
    assert_eq!(rt; first.operands[0].value.as_word(), Some(b"A.B".as_slice()));
    let volume = first.operands[1].value.as_list().ok_or("a list")?;
    assert_eq!(rt; volume.len(), 2);
    assert_eq!(rt; volume[0].as_word(), Some(b"2314".as_slice()));
    let serials = volume[1].as_list().ok_or("a list")?;
    assert_eq!(rt; serials.len(), 2);
    assert_eq!(rt; serials[1].as_word(), Some(b"PACK02".as_slice()));
    assert_eq!(rt; first.operands[2].key, Name8::read("TITLE").ok());
    let title = first.operands[2].value.as_list().ok_or("a list")?;
    assert_eq!(rt; title.len(), 3);
    let Value::Quoted(text) = &title[0] else {
        return Err("a text in quotes")?;
    };
    assert_eq!(rt; text.as_slice(), b"IT'S".as_slice());
    assert!(rt; matches!(title[1], Value::Empty));
    assert_eq!(rt; fault_of(&items), Some((3, 7, SynErr::BadOperand)));
    let Item::Stmt(last) = &items[2] else {
        return Err("a statement")?;
    };
    assert_eq!(rt; last.card, 4);
    assert_eq!(rt; last.operands.len(), 0);
    // A library that is made, of which a member goes, and that is copied: no card has a fault.
    let items = items_of(
        alloc,
        &[
            b"   ADD NAME=M00001".as_slice(),
            b"   ENDUP".as_slice(),
            b" SCRATCH DSNAME=DRILL.LIB,VOL=2314=WORK01,MEMBER=M00003".as_slice(),
            b" COPY OUTDD=SYSUT2,INDD=SYSUT1".as_slice(),
            b" SCRATCH DSNAME=DRILL.LIB,VOL=2314=WORK01,PURGE".as_slice(),
        ],
    )?;
    let mut operands = [0; 5];
    for (place, item) in items.iter().enumerate() {
        if let Item::Stmt(statement) = item {
            operands[place.min(4)] = statement.operands.len();
        }
    }
    assert_eq!(rt; operands, [1, 0, 3, 2, 3]);
    Ok(())
}

#[test]
fn lines_and_tables(rt: HostRuntime) -> Result<(), Fail> {
    let alloc = rt.alloc();
    let set = Dsn::read("A.B").ok().ok_or("a data set name")?;
    let name = Name8::read("SYSUT1").ok().ok_or("a name")?;
    let serial = Serial::read("ABC").ok().ok_or("a serial")?;
    let member = Object::Member { set, name };
    let refused = Outcome::Refused(Refusal::DirFull { blocks: 3 });
    assert_eq!(rt;
        item_line(alloc, 12, "SCRATCH", &member, refused)?.as_bytes(),
        b"00012 SCRATCH A.B(SYSUT1) DIR-FULL\n".as_slice()
    );
    assert_eq!(rt;
        item_line(alloc, 7, "LISTVTOC", &Object::Volume(serial), Outcome::Done)?.as_bytes(),
        b"00007 LISTVTOC ABC OK\n".as_slice()
    );
    assert_eq!(rt;
        syntax_line(alloc, 9, SynErr::Unbalanced)?.as_bytes(),
        b"00009 SYNTAX UNBALANCED\n".as_slice()
    );
    assert_eq!(rt;
        no_dd_line(alloc, 3, &name)?.as_bytes(),
        b"00003 NO-DD SYSUT1\n".as_slice()
    );
    assert_eq!(rt;
        no_program_line(alloc, 3, &name)?.as_bytes(),
        b"00003 NO-PROGRAM SYSUT1\n".as_slice()
    );
    assert_eq!(rt;
        jcl_line(alloc, 2, 11, "NO-PROGRAM")?.as_bytes(),
        b"00002 11 JCL NO-PROGRAM\n".as_slice()
    );
    let other = Name8::read("SYSIN").ok().ok_or("a name")?;
    let mut dds = DdTable::new(alloc);
    dds.insert(name, DdIn::Dummy)?;
    dds.insert(other, DdIn::Sysout)?;
    assert_eq!(rt; dds.len(), 2);
    assert!(rt; matches!(dds.get(&other), Some(DdIn::Sysout)));
    assert!(rt; dds.get_index(0).map(|dd| dd.0) == Some(name));
    Ok(())
}
