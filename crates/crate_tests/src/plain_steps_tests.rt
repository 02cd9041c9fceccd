//! Why operations are refused: on a pack of 40 tracks each reason once, and the first of two by their order; and on a
//! shelf without packs.
use ckd_image::{DiskType, Geometry};
use ebcdic_names::{Dsn, Name8, Serial};
use map_machine::MapMachine;
use plain_steps::step_on;
use std::alloc::{AllocError, Global};
use std::test::Fail;
use vol_model::{
    Attr, Blocks, Body, CatBody, CatNode, CatPath, DataSet, DataSets, Entries, Entry, MachErr,
    Machine, Names, Nodes, Op, Place, Refusal, Request, Run, Runs, Shelf, SpaceUnit, Text, VolRefs,
    Volume, Volumes,
};

const SEQUENTIAL: u16 = 0x4000;

const PARTITIONED: u16 = 0x0200;

// The packs: one with free slots and a catalog, and one without either.
#[derive(Clone, Copy, Debug)]
enum Pack {
    Roomy,
    Tight,
}

// An operation on a pack, and why it is refused.
type Case = (Pack, Op, Refusal);

fn dsn(name: &str) -> Result<Dsn, Fail> {
    Ok(Dsn::read(name).ok().ok_or("a data set name")?)
}

fn member(name: &str) -> Result<Name8, Fail> {
    Ok(Name8::read(name).ok().ok_or("a name")?)
}

// Attributes with a secondary quantity of a track.
fn attr(dsorg: u16) -> Attr {
    Attr {
        volseq: 1,
        created: [70, 0, 1],
        expires: [0; 3],
        system: [0x40; 13],
        dsorg,
        recfm: 0x80,
        optcd: 0,
        blksize: 80,
        lrecl: 80,
        keylen: 0,
        rkp: 0,
        indicators: 0x80,
        scalo: 0x80,
        secondary: 1,
    }
}

// A data set on these tracks.
fn set(name: &str, dsorg: u16, extents: Runs, body: Body) -> Result<DataSet, Fail> {
    Ok(DataSet {
        name: dsn(name)?,
        attr: attr(dsorg),
        extents,
        body,
    })
}

// Runs of one track each.
fn tracks(alloc: Global, starts: &[u16]) -> Result<Runs, AllocError> {
    let mut runs = Runs::new(alloc);
    for start in starts {
        runs.push(Run {
            start: *start,
            len: 1,
        })?;
    }
    Ok(runs)
}

// An entry that takes 74 bytes of a directory block.
fn entry(alloc: Global, name: &str) -> Result<Entry, Fail> {
    Ok(Entry {
        name: member(name)?,
        place: Place { tt: 0, r: 3 },
        flags: 31,
        user: Text::from_vec([0; 62].to_vec(alloc)?),
    })
}

fn path(alloc: Global, names: &[&str]) -> Result<CatPath, Fail> {
    let mut way = Names::new(alloc);
    for name in names {
        way.push(member(name)?)?;
    }
    Ok(CatPath { names: way })
}

// The body of a partitioned set with a directory of one block, in which three entries stand.
fn members(alloc: Global) -> Result<Body, Fail> {
    let mut entries = Entries::new(alloc);
    for name in ["A", "B", "C"] {
        entries.push(entry(alloc, name)?)?;
    }
    Ok(Body::Part {
        dir: 1,
        end: Place { tt: 0, r: 2 },
        entries,
        blocks: Blocks::new(alloc),
    })
}

// A catalog of two blocks: for its root, and for an index in which a data set stands.
fn catalog(alloc: Global) -> Result<CatBody, Fail> {
    let mut nodes = Nodes::new(alloc);
    nodes.push((path(alloc, &["A"])?, CatNode::Index))?;
    let vols = VolRefs::new(alloc);
    nodes.push((path(alloc, &["A", "B"])?, CatNode::Set { vols }))?;
    Ok(CatBody::Tree { blocks: 2, nodes })
}

// A pack with four data sets, which need seven slots.
fn new_pack(alloc: Global, slots: u32, catalog: Option<CatBody>) -> Result<Volume, Fail> {
    let many = [2, 4, 6, 8, 10, 12, 14, 16, 18, 20, 22, 24, 26, 28, 30, 32];
    let full = Body::Seq(Blocks::new(alloc));
    let none = Body::Seq(Blocks::new(alloc));
    let mut sets = DataSets::new(alloc);
    sets.push(set("FULL", SEQUENTIAL, tracks(alloc, &many)?, full)?)?;
    sets.push(set("PO", PARTITIONED, tracks(alloc, &[34])?, members(alloc)?)?)?;
    sets.push(set("PS", SEQUENTIAL, tracks(alloc, &[35])?, none)?)?;
    let torn = Body::Unreadable(3);
    sets.push(set("TORN", SEQUENTIAL, tracks(alloc, &[36])?, torn)?)?;
    Ok(Volume {
        serial: Serial::read("PACK01").ok().ok_or("a serial")?,
        geometry: Geometry {
            device: DiskType::D2314,
            cylinders: 2,
            track_size: 7680,
        },
        vtoc: Run { start: 1, len: 1 },
        slots,
        sets,
        catalog,
    })
}

// The allocation of a new set.
fn allocate(name: &str, dsorg: u16, primary: u32, dir: u32) -> Result<Op, Fail> {
    Ok(Op::Allocate {
        v: 0,
        dsn: dsn(name)?,
        attr: attr(dsorg),
        request: Request {
            unit: SpaceUnit::Track,
            primary,
            secondary: 0,
            contig: false,
        },
        dir,
    })
}

fn rename(old: &str, new: &str) -> Result<Op, Fail> {
    Ok(Op::Rename {
        v: 0,
        old: dsn(old)?,
        new: dsn(new)?,
    })
}

// Allocations and extensions.
#[rattlefmt::skip]
fn space_cases(cases: &mut Vec<Case>) -> Result<(), Fail> {
    cases.push((Pack::Roomy, allocate("NEW", SEQUENTIAL, 100, 0)?, Refusal::NoSpace { asked: 100 }))?;
    cases.push((Pack::Roomy, allocate("NEW", PARTITIONED, 1, 100)?, Refusal::NoRoom))?;
    cases.push((Pack::Roomy, Op::Extend { v: 0, dsn: dsn("FULL")? }, Refusal::ExtentsFull))?;
    cases.push((Pack::Tight, allocate("NEW", SEQUENTIAL, 1, 0)?, Refusal::VtocFull { slots: 8 }))?;
    // A sequential set with a directory; too many tracks; and too large a directory.
    cases.push((Pack::Roomy, allocate("PS", SEQUENTIAL, 1, 1)?, Refusal::SetExists))?;
    cases.push((Pack::Tight, allocate("NEW", SEQUENTIAL, 100, 0)?, Refusal::NoSpace { asked: 100 }))?;
    cases.push((Pack::Tight, allocate("NEW", PARTITIONED, 1, 100)?, Refusal::VtocFull { slots: 8 }))?;
    Ok(())
}

// Other operations on data sets.
#[rattlefmt::skip]
fn set_cases(alloc: Global, cases: &mut Vec<Case>) -> Result<(), Fail> {
    let torn = dsn("TORN")?;
    cases.push((Pack::Roomy, Op::Scratch { v: 0, dsn: dsn("NONE")? }, Refusal::NoSet))?;
    cases.push((Pack::Roomy, rename("PS", "PO")?, Refusal::SetExists))?;
    cases.push((Pack::Roomy, rename("PS", "SYSCTLG")?, Refusal::WrongKind))?;
    cases.push((Pack::Roomy, Op::Fill { v: 0, dsn: torn, blocks: Blocks::new(alloc) }, Refusal::Unreadable(3)))?;
    // The body of a set of the wrong kind isn't looked at.
    cases.push((Pack::Roomy, Op::Area { v: 0, dsn: torn, blocks: Blocks::new(alloc) }, Refusal::WrongKind))?;
    Ok(())
}

// Operations on a directory.
#[rattlefmt::skip]
fn member_cases(alloc: Global, cases: &mut Vec<Case>) -> Result<(), Fail> {
    let dsn = dsn("PO")?;
    let (old, new) = (entry(alloc, "A")?, entry(alloc, "D")?);
    cases.push((Pack::Roomy, Op::Drop { v: 0, dsn, name: member("NONE")? }, Refusal::NoMember))?;
    cases.push((Pack::Roomy, Op::Enter { v: 0, dsn, entry: old, replace: false }, Refusal::MemberExists))?;
    cases.push((Pack::Roomy, Op::Enter { v: 0, dsn, entry: new, replace: false }, Refusal::DirFull { blocks: 2 }))?;
    Ok(())
}

// Operations on a catalog.
#[rattlefmt::skip]
fn node_cases(alloc: Global, cases: &mut Vec<Case>) -> Result<(), Fail> {
    cases.push((Pack::Tight, Op::BuildIndex { v: 0, path: path(alloc, &["C"])? }, Refusal::NoCatalog))?;
    cases.push((Pack::Roomy, Op::BuildIndex { v: 0, path: path(alloc, &["X", "Y"])? }, Refusal::NoNode))?;
    cases.push((Pack::Roomy, Op::BuildIndex { v: 0, path: path(alloc, &["A"])? }, Refusal::NodeExists))?;
    cases.push((Pack::Roomy, Op::DropNode { v: 0, path: path(alloc, &["A"])? }, Refusal::NotEmpty))?;
    cases.push((Pack::Roomy, Op::BuildIndex { v: 0, path: path(alloc, &["C"])? }, Refusal::CatalogFull { blocks: 3 }))?;
    Ok(())
}

#[test]
fn operations_are_refused_for_the_first_reason(rt: HostRuntime) -> Result<(), Fail> {
    let alloc = rt.alloc();
    let roomy = new_pack(alloc, 50, Some(catalog(alloc)?))?;
    let tight = new_pack(alloc, 7, None)?;
    let mut cases = Vec::new(alloc);
    space_cases(&mut cases)?;
    set_cases(alloc, &mut cases)?;
    member_cases(alloc, &mut cases)?;
    node_cases(alloc, &mut cases)?;
    for (pack, op, refusal) in &cases {
        let volume = match pack {
            Pack::Roomy => &roomy,
            Pack::Tight => &tight,
        };
        assert_eq!(rt;
            step_on(alloc, op, volume)?.err(),
            Some(*refusal),
            "{}",
            refusal.words()
        );
    }
    let shelf = Shelf {
        volumes: Volumes::new(alloc),
    };
    let mut machine = MapMachine::new(alloc, shelf);
    let refused = machine.apply(&Op::Scratch {
        v: 0,
        dsn: dsn("A.B")?,
    });
    assert_eq!(rt; refused, Err(MachErr::Refused(Refusal::NoVolume)));
    Ok(())
}
