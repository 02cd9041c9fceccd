//! What a command line asks for.
ghost use Rattle.std.specs.Prelude.{◌≡◌, ◌≤◌, ◌*◌, ◌-◌, min, IfOk, IfSome, map, option_map, string_bytes, is_some};
ghost use Rattle.std.specs.List.{list_any};
ghost use Rattle.ckd_image.specs.Device.{row_of};
ghost use Rattle.command_words.specs.Given.{parts_in};
ghost use Rattle.command_words.specs.Requests.{Check, IsProper, MakesProper, Names, cylinders_asked, file_alone, has_any, init_request, new_pack, only_file, request_in, request_in_parts, request_of, run_request};

use crate::action::{Action, NewPack};
use crate::command::{Given, parts_given};
use crate::values::{are_distinct, device_named, number_up_to, serial_word};
use ckd_image::{DiskType, Geometry};
use ebcdic_names::Serial;
use jcl_forms::date_in;
use std::alloc::{AllocError, Global};
use vol_model::MAX_UNITS;

/// What the words of the command line ask for, the program's name first; `None` where they are refused.
///
/// ```text
/// run --date yyddd FILE..
/// init --type DEVICE --serial SERIAL --vtoc TRACKS [--cyls CYLINDERS] FILE
/// names FILE
/// check FILE
/// ```
///
/// `clap` states what a list of words means. A run takes 1 to 8 files, no two alike. A date has a day from 001 to 366.
/// Numbers have one to six digits: TRACKS is 1 to 100 and less than the tracks of the pack, CYLINDERS 1 to the primary
/// cylinders of the device, which are the default.
#[tactic(auto, unfolding(crate::specs::Requests::request_of))]
pub fn action_of<'a>(alloc: Global, words: &'a [String]) -> Result<Option<Action<'a>>, AllocError>
    ensures request { IfOk result (λ found. option_map request_in found ≡ request_of (map string_bytes words.entry.now)) }
    ensures proper { IfOk result (λ found. IfSome found MakesProper) }
{
    match parts_given(alloc, words)? {
        None => Ok(None),
        Some(parts) => Ok(asked(parts)),
    }
}

// What the parts of a command line ask for.
#[tactic(auto, unfolding(crate::specs::Requests::request_in_parts, crate::specs::Requests::request_named))]
fn asked<'a>(parts: Given<'a>) -> Option<Action<'a>>
    ensures request { option_map request_in result ≡ request_in_parts (parts_in parts.entry) }
    ensures proper { IfSome result MakesProper }
{
    match parts.action? {
        "run" => run(parts),
        "init" => init(&parts),
        "names" => names(&parts),
        "check" => check(&parts),
        _ => None,
    }
}

// The action `run`: a date, and 1 to 8 files.
#[tactic(auto, unfolding(crate::specs::Requests::run_request))]
fn run<'a>(parts: Given<'a>) -> Option<Action<'a>>
    ensures request { option_map request_in result ≡ run_request (parts_in parts.entry) }
    ensures proper { IfSome result MakesProper }
{
    if has_any(&[
        parts.device,
        parts.serial,
        parts.vtoc,
        parts.cylinders,
        parts.count,
    ]) {
        return None;
    }
    if parts.files.len() > MAX_UNITS || !are_distinct(&parts.files) {
        return None;
    }
    let date = date_in(parts.date?.as_bytes())?;
    Some(Action::Run {
        date,
        files: parts.files,
    })
}

// The action `init`.
#[tactic(auto, unfolding(crate::specs::Requests::init_request))]
fn init<'a>(parts: &Given<'a>) -> Option<Action<'a>>
    ensures request { option_map request_in result ≡ init_request (parts_in parts.now) }
    ensures proper { IfSome result MakesProper }
{
    let pack = new_pack(parts)?;
    let file = only_file(&parts.files)?;
    Some(Action::Init { pack, file })
}

// The pack that `init` is to make: a type, a serial and the size of its VTOC, and its cylinders if wanted.
#[tactic(auto, unfolding(crate::specs::Requests::new_pack, crate::specs::Requests::pack_on, crate::specs::Requests::pack_of))]
fn new_pack(parts: &Given<'_>) -> Option<NewPack>
    ensures pack { result ≡ new_pack (parts_in parts.now) }
    ensures proper { IfSome result IsProper }
{
    if has_any(&[parts.date, parts.count]) {
        return None;
    }
    let device = device_named(parts.device?)?;
    let serial = serial_word(parts.serial?)?;
    let cylinders = cylinders_asked(device, parts.cylinders)?;
    let vtoc = number_up_to(most_tracks(device, cylinders), parts.vtoc?)?;
    Some(NewPack {
        geometry: Geometry {
            device,
            cylinders,
            track_size: device.written_track_size(),
        },
        serial,
        vtoc,
    })
}

// The cylinders of a new pack: all primary ones, unless a number of them is given.
#[tactic(auto, unfolding(crate::specs::Requests::cylinders_asked))]
fn cylinders_asked(device: DiskType, word: Option<&str>) -> Option<u16>
    ensures value { result ≡ cylinders_asked device (option_map (λ w. w.now) word.entry) }
    ensures some { IfSome result (λ n. 1 ≤ n) }
    ensures most { IfSome result (λ n. n ≤ (row_of device).primary_cylinders) }
{
    let most = device.primary_cylinders();
    match word {
        None => Some(most),
        Some(word) => number_up_to(most, word),
    }
}

// The most tracks of a VTOC: 100, and one less than the pack has.
fn most_tracks(device: DiskType, cylinders: u16) -> u16
    requires { cylinders ≤ (row_of device).primary_cylinders }
    ensures { result ≡ min 100 (cylinders * (row_of device).heads - 1) }
{
    (cylinders * device.heads()).saturating_sub(1).min(100)
}

// The action `names`.
fn names<'a>(parts: &Given<'a>) -> Option<Action<'a>>
    ensures request { option_map request_in result ≡ option_map Names (file_alone (parts_in parts.now)) }
    ensures proper { IfSome result MakesProper }
{
    Some(Action::Names {
        file: file_alone(parts)?,
    })
}

// The action `check`.
fn check<'a>(parts: &Given<'a>) -> Option<Action<'a>>
    ensures request { option_map request_in result ≡ option_map Check (file_alone (parts_in parts.now)) }
    ensures proper { IfSome result MakesProper }
{
    Some(Action::Check {
        file: file_alone(parts)?,
    })
}

// The file of an action that takes no options.
#[tactic(auto, unfolding(crate::specs::Requests::file_alone))]
fn file_alone<'a>(parts: &Given<'a>) -> Option<&'a str>
    ensures { option_map (λ file. file.now) result ≡ file_alone (parts_in parts.now) }
{
    if has_any(&[
        parts.date,
        parts.device,
        parts.serial,
        parts.vtoc,
        parts.cylinders,
        parts.count,
    ]) {
        return None;
    }
    only_file(&parts.files)
}

// The file, where there is but one.
fn only_file<'a>(files: &[&'a str]) -> Option<&'a str>
    ensures { option_map (λ file. file.now) result ≡ only_file (map (λ f. f.now) files.now) }
{
    match files {
        [file] => Some(*file),
        _ => None,
    }
}

// Whether one of these options is given.

fn has_any(options: &[Option<&str>]) -> bool
    ensures { result ≡ has_any (map (option_map (λ w. w.now)) options.now) }
{
    holds_some(options)
}

// Whether there is an option among these.
fn holds_some(options: &[Option<&str>]) -> bool
    ensures { result ≡ list_any is_some options.now }
{
    options.iter().any(|option| option.is_some())
}
