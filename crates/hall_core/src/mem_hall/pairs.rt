//! Files of a hall in memory: pairs of a name and bytes.
ghost use Rattle.std.specs.Prelude.{◌≡◌, ◌+◌, ◌≤◌, length, take, drop, MatchOption, IfOk, None, true, vec_len, vec_capacity};
ghost use Rattle.std.specs.List.{All};
ghost use Rattle.hall_core.specs.Images.{zeros_named};
ghost use Rattle.hall_core.specs.Facts.{unit_of};
ghost use Rattle.stop_model.specs.Files.{file_of, patched};
ghost use Rattle.hall_core.specs.Held.{file_of_pair, files_of, attached_as, shapes_of, with_bytes, IsFirst, IsFirstNamed, IsSpare};
ghost use Rattle.hall_core.specs.Replay.{new_file};

use std::alloc::{AllocError, Global};

// The place of the first file of this name.
pub(super) fn first_named(files: &[(String, Vec<u8>)], name: &str) -> Option<usize>
    ensures { MatchOption result (file_of (files_of files.now) name.now ≡ None)
        (λ place. IsFirstNamed (shapes_of (files_of files.now)) place name.now) }
{
    for (place, file) in files.iter().enumerate() {
        if file.0.as_str() == name {
            return Some(place);
        }
    }
    None
}

// Fills the buffer with the bytes from an offset on.
pub(super) fn copy_at(image: &[u8], at: usize, buf: &mut [u8])
    requires { at + length buf.old ≤ length image.now }
    ensures { buf.new ≡ take (length buf.new) (drop at image.now) }
{
    buf.copy_from_slice(&image[at..at + buf.len()]);
}

// Writes the bytes over those of an image, from an offset on.
fn patch(image: &mut [u8], at: usize, bytes: &[u8])
    requires { at + length bytes.now ≤ length image.old }
    ensures { image.new ≡ patched image.old at bytes.now }
{
    image[at..at + bytes.len()].copy_from_slice(bytes);
}

// Writes the bytes over those of the file at a place, from an offset on.
pub(super) fn patch_file(files: &mut Vec<(String, Vec<u8>)>, place: usize, at: usize, bytes: &[u8])
    requires first { IsFirst (shapes_of (files_of files.old.items)) place }
    requires inside { at + length bytes.now
        ≤ (unit_of (shapes_of (files_of files.old.items)) place).size }
    ensures done { files_of files.new.items
        ≡ with_bytes (files_of files.old.items) place at bytes.now true }
    ensures shapes { shapes_of (files_of files.new.items) ≡ shapes_of (files_of files.old.items) }
    ensures len { vec_len files.new ≡ vec_len files.old }
    ensures capacity { vec_capacity files.new ≡ vec_capacity files.old }
{
    let file = &mut files[place];
    patch(&mut file.1, at, bytes);
}

// Makes a write over the file at a place, where it is to be done.
pub(super) fn write_file(
    files: &mut Vec<(String, Vec<u8>)>,
    place: usize,
    at: usize,
    bytes: &[u8],
    is_done: bool,
)
    requires first { IsFirst (shapes_of (files_of files.old.items)) place }
    requires inside { at + length bytes.now
        ≤ (unit_of (shapes_of (files_of files.old.items)) place).size }
    ensures done { files_of files.new.items
        ≡ with_bytes (files_of files.old.items) place at bytes.now is_done }
    ensures shapes { shapes_of (files_of files.new.items) ≡ shapes_of (files_of files.old.items) }
    ensures len { vec_len files.new ≡ vec_len files.old }
    ensures capacity { vec_capacity files.new ≡ vec_capacity files.old }
{
    if is_done {
        patch_file(files, place, at, bytes);
    }
}

// A file again, in memory of its own.
fn copy_pair(alloc: Global, file: &(String, Vec<u8>)) -> Result<(String, Vec<u8>), AllocError>
    ensures { IfOk result (λ copy. file_of_pair copy ≡ file_of_pair file.now) }
{
    let name = String::from_str(alloc, file.0.as_str())?;
    let bytes = file.1.as_slice().to_vec(alloc)?;
    Ok((name, bytes))
}

// So many empty pairs, each with room for a name and bytes of a length.
pub(super) fn new_spares(
    alloc: Global,
    count: usize,
    room: usize,
) -> Result<Vec<(String, Vec<u8>)>, AllocError>
    ensures number { IfOk result (λ spares. vec_len spares ≡ count) }
    ensures spare { IfOk result (λ spares. All (IsSpare room) spares.items) }
{
    let mut spares = Vec::new(alloc);
    for _ in 0..count {
        let mut name = String::new(alloc);
        name.reserve(room)?;
        let mut bytes = Vec::new(alloc);
        bytes.reserve(room)?;
        spares.push((name, bytes))?;
    }
    Ok(spares)
}

// A file of this name, of so many zeros, in the memory of an empty pair.
pub(super) fn filled(spare: (String, Vec<u8>), name: &str, len: usize) -> (String, Vec<u8>)
    requires { IsSpare (length name.now + len) spare }
    ensures { file_of_pair result ≡ zeros_named name.now len }
{
    let (mut file_name, mut bytes) = spare;
    file_name.push_str(name).unwrap();
    bytes.resize(len, 0).unwrap();
    (file_name, bytes)
}

// A file again as it was made, of zeros, in memory of its own.
pub(super) fn new_pair(
    alloc: Global,
    file: &(String, Vec<u8>),
) -> Result<(String, Vec<u8>), AllocError>
    ensures { IfOk result (λ pair. file_of_pair pair ≡ new_file (attached_as (file_of_pair file.now))) }
{
    let name = String::from_str(alloc, file.0.as_str())?;
    let mut bytes = Vec::new(alloc);
    bytes.resize(file.1.len(), 0)?;
    Ok((name, bytes))
}

// The files again, in memory of their own.
pub(super) fn copy_of(
    alloc: Global,
    files: &[(String, Vec<u8>)],
) -> Result<Vec<(String, Vec<u8>)>, AllocError>
    ensures { IfOk result (λ copy. files_of copy.items ≡ files_of files.now) }
{
    let mut copy = Vec::new(alloc);
    for file in files {
        let pair = copy_pair(alloc, file)?;
        copy.push(pair)?;
    }
    Ok(copy)
}
