//! Lists, and room for a block, with memory to take; the words of refusals and the name of the catalog.
use ebcdic_names::Dsn;
use std::test::Fail;
use vol_model::{BlockBuf, Place, Refusal, Run, Runs, Text, is_catalog};

// What a listing says of each refusal.
const WORDS: [(Refusal, &str); 17] = [
    (Refusal::NoVolume, "NO-VOLUME"),
    (Refusal::NoSet, "NO-SET"),
    (Refusal::SetExists, "SET-EXISTS"),
    (Refusal::WrongKind, "WRONG-KIND"),
    (Refusal::Unreadable(3), "UNREADABLE"),
    (Refusal::NoSpace { asked: 5 }, "NO-SPACE"),
    (Refusal::ExtentsFull, "EXTENTS-FULL"),
    (Refusal::VtocFull { slots: 2 }, "VTOC-FULL"),
    (Refusal::NoRoom, "NO-ROOM"),
    (Refusal::NoMember, "NO-MEMBER"),
    (Refusal::MemberExists, "MEMBER-EXISTS"),
    (Refusal::DirFull { blocks: 4 }, "DIR-FULL"),
    (Refusal::NoCatalog, "NO-CATALOG"),
    (Refusal::NoNode, "NO-NODE"),
    (Refusal::NodeExists, "NODE-EXISTS"),
    (Refusal::NotEmpty, "NOT-EMPTY"),
    (Refusal::CatalogFull { blocks: 1 }, "CATALOG-FULL"),
];

const CATALOGS: [(&str, bool); 3] = [("SYSCTLG", true), ("SYSCTLGA", false), ("SYSCTLG.A", false)];

#[test]
fn lists_blocks_refusals_and_the_catalog(rt: HostRuntime) -> Result<(), Fail> {
    let mut text = Text::new(rt.alloc());
    assert!(rt; text.is_empty());
    text.push(0xC1)?;
    text.push(0xF1)?;
    assert_eq!(rt; text.len(), 2);
    assert_eq!(rt; text.get(1), Some(&0xF1));
    assert_eq!(rt; text.get(2), None);
    let runs = [Run { start: 10, len: 5 }, Run { start: 1, len: 2 }];
    let listed = Runs::from_vec(runs.to_vec(rt.alloc())?);
    assert_eq!(rt; listed.into_vec().as_slice(), runs.as_slice());
    let mut block = BlockBuf::new(rt.alloc())?;
    block.set(Place { tt: 1, r: 2 }, &[0xC1], &[0xF1, 0xF2]);
    assert_eq!(rt; block.place(), Place { tt: 1, r: 2 });
    assert_eq!(rt; block.key(), [0xC1].as_slice());
    assert_eq!(rt; block.payload(), [0xF1, 0xF2].as_slice());
    block.clear();
    assert!(rt; block.key().is_empty() && block.payload().is_empty());
    for (refusal, wanted) in WORDS {
        assert_eq!(rt; refusal.words(), wanted);
    }
    for (text, wanted) in CATALOGS {
        assert_eq!(rt;
            Dsn::read(text).is_ok_and(|name| is_catalog(&name)),
            wanted,
            "{text}"
        );
    }
    Ok(())
}
