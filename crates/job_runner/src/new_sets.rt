//! New data sets: where they are made, and what they ask for.
ghost use Rattle.std.specs.Prelude.{◌≡◌, ◌≤◌, ◌<◌, ◌^◌, slice_get, IsTrue, IfOk, IfSome};
ghost use Rattle.job_runner.specs.DataSets.{allocation, new_number, wanted, wanted_on};
ghost use Rattle.job_runner.specs.Space.{blocks_per_track, in_blocks, new_attributes, organization_asked, request_by, request_in, request_on, takes_one_more};

use ckd_image::{DiskType, fits};
use job_deck::{DdSet, Space, SpaceAsk};
use util_steps::find_volume;
use vol_model::{Attr, MAX_DIR, Machine, Op, Refusal, Request, SpaceUnit};

/// Where a new data set is made, and what it asks for.
#[derive(Clone, Copy, Debug, PartialEq, Eq)]
pub struct NewSet {
    /// The number of its volume on the shelf, from 0.
    pub v: u8,
    /// The tracks that it asks for.
    pub request: Request,
    /// The blocks of its directory.
    pub dir: u32,
}

// Whether a track that has so many blocks of a length, without keys, takes one more.
fn takes_one_more(device: DiskType, len: u16, n: u32) -> bool
    requires { n < 255 }
    ensures { result ≡ takes_one_more device len n }
{
    let earlier = [(0, len); 255];
    fits(device, &earlier[..n as usize], 0, len)
}

// The number of blocks of a length, without keys, that a track takes.
#[tactic(auto, using(crate::proofs::SpaceLemmas::too_long))]
fn blocks_per_track(device: DiskType, len: u32) -> u32
    ensures { result ≡ blocks_per_track device len }
{
    if len > 65535 {
        0
    } else {
        short_blocks(device, len as u16)
    }
}

// That of blocks whose length a count can say.
#[tactic(auto, using(crate::proofs::SpaceLemmas::blocks_begin, crate::proofs::SpaceLemmas::one_fits, crate::proofs::SpaceLemmas::none_fits, crate::proofs::SpaceLemmas::all_fit))]
fn short_blocks(device: DiskType, len: u16) -> u32
    ensures { result ≡ blocks_per_track device len }
{
    for n in 0..255u32 {
        let more = takes_one_more(device, len, n);
        if !more {
            return n;
        }
    }
    255
}

// Quantities in tracks or cylinders.
fn request_in(unit: SpaceUnit, space: &Space) -> Request
    ensures { result ≡ request_in unit space.now }
{
    Request {
        unit,
        primary: space.primary,
        secondary: space.secondary,
        contig: space.contig,
    }
}

// Quantities of blocks, of which so many stand on a track.
fn request_by(per: u32, space: &Space) -> Request
    requires { 0 < per }
    ensures request { result ≡ request_by per space.now }
    ensures fewer { result.secondary ≤ space.now.secondary }
{
    Request {
        unit: SpaceUnit::Track,
        primary: space.primary.div_ceil(per),
        secondary: space.secondary.div_ceil(per),
        contig: space.contig,
    }
}

// Quantities of blocks, if one stands on a track at least.
fn in_blocks(per: u32, space: &Space) -> Option<Request>
    ensures request { result ≡ in_blocks space.now per }
    ensures fewer { IfSome result (λ request. request.secondary ≤ space.now.secondary) }
{
    if per == 0 {
        None
    } else {
        Some(request_by(per, space))
    }
}

// What a SPACE asks for on a device.
#[tactic(auto, unfolding(crate::specs::Space::request_on))]
fn request_on(device: DiskType, space: &Space) -> Option<Request>
    ensures request { result ≡ request_on device space.now }
    ensures lawful { IfSome result (λ request. (space.now.dir ≤ MAX_DIR) × (request.secondary < 2 ^ 24)) }
{
    if space.secondary >= 1 << 24 || space.dir > MAX_DIR {
        return None;
    }
    match space.ask {
        SpaceAsk::Tracks => Some(request_in(SpaceUnit::Track, space)),
        SpaceAsk::Cylinders => Some(request_in(SpaceUnit::Cylinder, space)),
        SpaceAsk::Length(len) => in_blocks(blocks_per_track(device, len), space),
    }
}

// What is asked for on the volume of this number.
fn wanted_on<M: Machine>(machine: &M, space: &Space, v: u8) -> Result<NewSet, Refusal>
    requires { IsTrue (M.status machine.now).is_sound }
    ensures wanted { IsTrue M.tells → result ≡ wanted_on space.now v (slice_get (M.meaning machine.now).state.volumes v) }
    ensures lawful { IfOk result (λ w. (w.dir ≤ MAX_DIR) × (w.request.secondary < 2 ^ 24)) }
{
    let Some(info) = machine.volume(v) else {
        return Err(Refusal::NoVolume);
    };
    match request_on(info.geometry.device, space) {
        Some(request) => Ok(NewSet {
            v,
            request,
            dir: space.dir,
        }),
        None => Err(Refusal::NoSpace { asked: 0 }),
    }
}

// The number of the volume of a new set: that of VOL, and else unit 0.
fn new_number<M: Machine>(machine: &M, set: &DdSet) -> Option<u8>
    requires { IsTrue (M.status machine.now).is_sound }
    ensures { IsTrue M.tells → result ≡ new_number set.now (M.meaning machine.now).state }
{
    match &set.serial {
        Some(serial) => find_volume(machine, serial),
        None => Some(0),
    }
}

/// Where a new data set is made and what it asks for, or why it isn't made: `NoSpace` without SPACE or where its blocks fit
/// no track, and `NoVolume` where the shelf doesn't have its volume.
#[tactic(auto, unfolding(crate::specs::DataSets::wanted))]
pub fn wanted<M: Machine>(machine: &M, set: &DdSet) -> Result<NewSet, Refusal>
    requires { IsTrue (M.status machine.now).is_sound }
    ensures wanted { IsTrue M.tells → result ≡ wanted set.now (M.meaning machine.now).state }
    ensures lawful { IfOk result (λ w. (w.dir ≤ MAX_DIR) × (w.request.secondary < 2 ^ 24)) }
{
    let Some(space) = set.space else {
        return Err(Refusal::NoSpace { asked: 0 });
    };
    match new_number(machine, set) {
        Some(v) => wanted_on(machine, &space, v),
        None => Err(Refusal::NoVolume),
    }
}

// The organization of a new set.
fn organization_asked(set: &DdSet, dir: u32) -> u16
    ensures { result ≡ organization_asked set.now dir }
{
    let usual = if dir == 0 { 0x4000 } else { 0x0200 };
    set.dcb.dsorg.unwrap_or(usual)
}

// The attributes of a new set that is made on a date.
#[tactic(auto, unfolding(crate::specs::Space::new_attributes))]
fn new_attributes(date: &[u8; 3], set: &DdSet, dir: u32) -> Attr
    ensures { result ≡ new_attributes date.now set.now dir }
{
    Attr {
        volseq: 0,
        created: *date,
        expires: set.expires,
        system: [0; 13],
        dsorg: organization_asked(set, dir),
        recfm: set.dcb.recfm.unwrap_or(0),
        optcd: 0,
        blksize: set.dcb.blksize.unwrap_or(0),
        lrecl: set.dcb.lrecl.unwrap_or(0),
        keylen: set.dcb.keylen.unwrap_or(0),
        rkp: 0,
        indicators: 0,
        scalo: 0,
        secondary: 0,
    }
}

/// The operation that makes a new data set on a date.
pub fn allocation(date: &[u8; 3], set: &DdSet, wanted: &NewSet) -> Op
    ensures { result ≡ allocation date.now set.now wanted.now }
{
    Op::Allocate {
        v: wanted.v,
        dsn: set.dsn,
        attr: new_attributes(date, set, wanted.dir),
        request: wanted.request,
        dir: wanted.dir,
    }
}
