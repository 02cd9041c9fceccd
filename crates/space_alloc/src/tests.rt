//! Free runs of 10, 9, 8, 7, 6 and 5 tracks, and a track taken from a run and given back.
use super::*;
use ckd_image::{DiskType, Geometry};
use std::test::Fail;
use vol_model::{Request, Run, SpaceUnit};

const FREE: [Run; 6] = [
    Run { start: 1, len: 10 },
    Run { start: 12, len: 9 },
    Run { start: 22, len: 8 },
    Run { start: 31, len: 7 },
    Run { start: 39, len: 6 },
    Run { start: 46, len: 5 },
];

const PACK: Geometry = Geometry {
    device: DiskType::D2314,
    cylinders: 200,
    track_size: 7680,
};

// A request for so many tracks, in one run or in several.
fn tracks(primary: u32, contig: bool) -> Request {
    Request {
        unit: SpaceUnit::Track,
        primary,
        secondary: 0,
        contig,
    }
}

#[test]
fn runs_are_chosen_taken_and_given_back(rt: HostRuntime) -> Result<(), Fail> {
    let found = choose(&FREE, &PACK, &tracks(40, false));
    assert!(rt;
        matches!(&found, Ok(extents) if extents.n == 5 && extents.runs.as_slice() == &FREE[..5])
    );
    assert_eq!(rt;
        choose(&FREE, &PACK, &tracks(41, false)),
        Err(NoSpace { asked: 41 })
    );
    assert_eq!(rt;
        choose(&FREE, &PACK, &tracks(11, true)),
        Err(NoSpace { asked: 11 })
    );
    let mut free = Vec::with_capacity(rt.alloc(), 3)?;
    free.push(Run { start: 5, len: 3 })?;
    remove(&mut free, Run { start: 6, len: 1 });
    assert_eq!(rt;
        free.as_slice(),
        [Run { start: 5, len: 1 }, Run { start: 7, len: 1 }].as_slice()
    );
    insert(&mut free, Run { start: 6, len: 1 });
    assert_eq!(rt; free.as_slice(), [Run { start: 5, len: 3 }].as_slice());
    Ok(())
}
