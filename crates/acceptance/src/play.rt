//! The lines of a file of cases.

ghost use Rattle.std.specs.Prelude.{◌≤◌, length};

use crate::bench::{Bench, Mode};
use crate::run::{closed_status, end_of, fails, report, run, stops};
use case_images::{Cursor, Named, blank, bytes_of, number, put, unread};
use hall_core::Left;
use std::alloc::Global;
use std::io::{ErrorKind, Print, Result};

/// Does what the lines of a text say, and prints what the runs answer. A line that can't be read is printed.
pub fn play<R: Print + AllocGlobal>(rt: &R, bench: &mut Bench, text: &str) -> Result<()> {
    for line in text.lines() {
        match play_line(rt, bench, line) {
            Ok(()) => {}
            Err(error) if error.kind() == ErrorKind::InvalidInput => println!(rt; "?? {line}")?,
            Err(error) => return Err(error),
        }
    }
    Ok(())
}

// Does what a line says.
fn play_line<R: Print + AllocGlobal>(rt: &R, bench: &mut Bench, line: &str) -> Result<()> {
    let alloc = rt.alloc();
    if let Some(card) = line.strip_prefix('|') {
        return bench.add_card(card, "\n");
    }
    if let Some(card) = line.strip_prefix('+') {
        return bench.add_card(card, "");
    }
    if let Some(card) = line.strip_prefix('&') {
        return bench.add_next_card(card);
    }
    let words: Vec<&str> = line.split_whitespace().collect(alloc)?;
    match words.as_slice() {
        [] | ["#", ..] => Ok(()),
        ["case", ..] => {
            bench.clear();
            bench.files.clear();
            println!(rt; "{line}")
        }
        [">", words @ ..] => {
            println!(rt; "{line}")?;
            play_run(rt, bench, words)
        }
        ["pack" | "bytes", ..] => make(alloc, bench, words.as_slice()),
        ["track" | "record" | "alter" | "put" | "size", ..] => build(
            alloc,
            bench,
            words.as_slice(),
        ),
        _ => set(alloc, bench, words.as_slice()),
    }
}

// Makes a pack, or bytes with a name.
fn make(alloc: Global, bench: &mut Bench, words: &[&str]) -> Result<()> {
    match words {
        ["pack", name, "like", other] => {
            let image = bench.copy_of(alloc, other)?;
            bench.add_pack(alloc, name, image)
        }
        ["pack", name, device, cylinders] => {
            let cylinders = (number(cylinders)? % 1000) as u16;
            bench.add_pack(alloc, name, blank(alloc, device, cylinders)?)
        }
        ["bytes", name, words @ ..] => {
            let bytes = bytes_of(alloc, words, &bench.named)?;
            bench.named.push((String::from_str(alloc, name)?, bytes))?;
            Ok(())
        }
        _ => unread(),
    }
}

// Writes on the file that is built on, or else on the pack.
fn build(alloc: Global, bench: &mut Bench, words: &[&str]) -> Result<()> {
    if let Some(file) = bench.files.last_mut() {
        return write_on(alloc, &mut file.1, &mut bench.cursor, &bench.named, words);
    }
    match bench.packs.last_mut() {
        Some(pack) => write_on(alloc, &mut pack.1, &mut bench.cursor, &bench.named, words),
        None => unread(),
    }
}

// Writes on an image.
fn write_on(
    alloc: Global,
    image: &mut Vec<u8>,
    cursor: &mut Cursor,
    named: &[Named],
    words: &[&str],
) -> Result<()> {
    match words {
        ["track", cylinder, head] => *cursor = track(image, cylinder, head)?,
        ["record", words @ ..] => {
            let (key, content) = words.split_at(bar_at(words));
            let key = bytes_of(alloc, key, named)?;
            let content = bytes_of(alloc, content, named)?;
            cursor.write(image, &key, &content);
        }
        ["alter", cylinder, head, place, at, words @ ..] => {
            let place = (number(place)? % 256) as u8;
            let key = track(image, cylinder, head)?.key_of(image, place);
            let at = key.saturating_add(number(at)? as usize);
            put(image, at, &bytes_of(alloc, words, named)?);
        }
        ["put", at, words @ ..] => put(
            image,
            number(at)? as usize,
            &bytes_of(alloc, words, named)?,
        ),
        ["size", len] => image.resize(number(len)? as usize, 0)?,
        _ => return unread(),
    }
    Ok(())
}

// The begin of a track.
fn track(image: &[u8], cylinder: &str, head: &str) -> Result<Cursor> {
    let cylinder = (number(cylinder)? % 1000) as u16;
    Ok(Cursor::on(image, cylinder, (number(head)? % 100) as u8))
}

// The number of words before a bar.
fn bar_at(words: &[&str]) -> usize
    ensures { result ≤ length words.now }
{
    match words.iter().position(|word| *word == "|") {
        Some(at) => at,
        None => words.len(),
    }
}

// Sets what the next run begins with.
fn set(alloc: Global, bench: &mut Bench, words: &[&str]) -> Result<()> {
    match words {
        ["disk", file, pack] => bench.add_file(alloc, file, pack)?,
        ["fail", call] => bench.fails.push(number(call)?)?,
        ["fail-read", call] => bench.card_fails.push(number(call)?)?,
        ["sound-reads", count] => bench.sound_reads = number(count)?,
        ["cut", len] => bench.cut = Some(number(len)? as usize),
        ["closed"] => bench.is_closed = true,
        ["calls"] => bench.shows_calls = true,
        ["room", calls, bytes] => bench.room = (number(calls)?, number(bytes)?),
        ["deck", words @ ..] => {
            let bytes = bytes_of(alloc, words, &bench.named)?;
            bench.deck.extend_from_slice(&bytes)?;
        }
        ["stops", words @ ..] => {
            bench.mode = Mode::Stops;
            bench.next = next_called(alloc, words)?;
        }
        ["fails", words @ ..] => {
            bench.mode = Mode::Fails;
            bench.next = next_called(alloc, words)?;
        }
        _ => return unread(),
    }
    Ok(())
}

// The words of a call, the program's name first, where two quotes stand for an empty word.
fn called(alloc: Global, words: &[&str]) -> Result<Vec<String>> {
    let mut owned = Vec::new(alloc);
    owned.push(String::from_str(alloc, "volman")?)?;
    for word in words {
        let text = if *word == "''" { "" } else { *word };
        owned.push(String::from_str(alloc, text)?)?;
    }
    Ok(owned)
}

// The words of a call that comes after another, or none.
fn next_called(alloc: Global, words: &[&str]) -> Result<Vec<String>> {
    if words.is_empty() {
        return Ok(Vec::new(alloc));
    }
    called(alloc, words)
}

// Does a run, prints what it answers, and leaves the files as they are then.
fn play_run<R: Print + AllocGlobal>(rt: &R, bench: &mut Bench, words: &[&str]) -> Result<()> {
    let alloc = rt.alloc();
    let words = called(alloc, words)?;
    if bench.is_closed {
        bench.clear();
        return println!(rt; "= {}", closed_status(alloc, &words));
    }
    let (status, hall) = run(alloc, bench, &words, &bench.fails)?;
    let left = end_of(&hall)?;
    print!(rt; "{}", report(alloc, bench, status, &hall, &left)?)?;
    match bench.mode {
        Mode::Once => {}
        Mode::Stops => print!(rt; "{}", stops(alloc, bench, &hall)?)?,
        Mode::Fails => print!(rt; "{}", fails(alloc, bench, &words, hall.calls().len())?)?,
    }
    let Left { files, printed: _ } = left;
    bench.files = files;
    bench.clear();
    Ok(())
}
