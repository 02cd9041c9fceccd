//! The files of the system as units, and the standard output.
//!
//! What the system does can't be proved. It is taken on trust that reads give what the file holds,
//! writes before them included; that a sync of a file's data makes every write before it durable; that
//! a stop leaves each write since then whole or not at all; that two names are two files, and that a
//! file is missing, or there already, where the system says so. It is trusted too that a new file that
//! is set to a length reads as zeros, and that a sync of it and of its folder makes it durable by its
//! name. What is proved is what the hall answers and counts: each
//! call of the hall that answers `Failed` counts a fault, once, and else `differs` alone does.
ghost use Rattle.std.specs.Prelude.{◌≡◌, ◌+◌, ◌-◌, ◌^◌, ◌<◌, ◌≤◌, ◌↔◌, min, length, refl, Err, IfOk, IfErr, OnOk, OnErr, IsErrOf, IsTrue, true, false, []};
ghost use Rattle.stop_model.specs.Counts.{Rose};
ghost use Rattle.hall_files.specs.FileHall.{SaysExists, SaysMissing, SaysReadOnly};

use hall_core::{Hall, HallErr, fault};
use std::alloc::Global;
use std::fs::{File, Files, OpenOptions};
use std::io::{self, Error, ErrorKind, Print};
use std::os::unix::fs::FileExt;
use std::path::Path;

// An attached file, its size in bytes as of then, and whether it may have been written since the last
// sync that was done.
#[derive(Drop)]
struct Unit {
    name: String,
    file: File,
    size: u64,
    is_written: bool,
}

/// The files of the system as units, and its standard output.
///
/// It tells nothing of what they hold. A unit is a regular file, opened for reading and writing, or
/// for reading alone where no more is allowed: to attach a directory, a device or a pipe fails, and so
/// does a write to a unit that may only be read. Its size is that of when it was attached, and it is
/// read and written also once its name is gone.
///
/// A write is done whole before `write` answers, and what is printed before `print` does. A sync makes
/// the data of those units durable that were written since the last sync that was done, whether the
/// write was done or failed; where that fails for one of them, all are left for the next.
#[derive(Drop)]
pub struct FileHall<'a, R> {
    rt: &'a R,
    alloc: Global,
    units: Vec<Unit>,
    dev_faults: u64,
    print_faults: u64,
}

// Opens a regular file, for reading alone where no more is allowed, and answers its size in bytes.
//
// Where a standard stream is closed, its descriptor goes to the file that is opened next, and what
// is printed would overwrite the file. A clone's descriptor is never that of a standard stream.
fn open<R: Files<File = File>>(rt: &R, name: &str) -> io::Result<(File, u64)> {
    if !rt.metadata(name)?.is_file() {
        return Err(Error::from(ErrorKind::InvalidInput));
    }
    let opened = match OpenOptions::new().read(true).write(true).open(rt, name) {
        Ok(file) => file,
        Err(error) if is_read_only(error) => File::open(rt, name)?,
        Err(error) => return Err(error),
    };
    let file = opened.try_clone()?;
    let size = file.metadata()?.len();
    Ok((file, size))
}

// Makes an empty file, where none has the name. The descriptor is never that of a standard stream.
fn open_new<R: Files<File = File>>(rt: &R, name: &str) -> io::Result<File> {
    let made = OpenOptions::new()
        .read(true)
        .write(true)
        .create_new(true)
        .open(rt, name)?;
    made.try_clone()
}

// The folder in which a file of this name stands.
fn folder_of(name: &str) -> Path<'_> {
    match Path::new(name).parent() {
        Some(folder) if !folder.as_str().is_empty() => folder,
        _ => Path::new("."),
    }
}

// Sets a new file to a length, in bytes, and makes it and its name durable.
fn fill_new<R: Files<File = File>>(rt: &R, name: &str, file: &File, len: u64) -> io::Result<()> {
    file.set_len(len)?;
    file.sync_all()?;
    File::open(rt, folder_of(name))?.sync_all()
}

// Whether the file may not be written, but perhaps be read.
fn is_read_only(error: Error) -> bool
    ensures { IsTrue result ↔ SaysReadOnly error }
{
    matches!(
        error.kind(),
        ErrorKind::PermissionDenied | ErrorKind::ReadOnlyFilesystem
    )
}

// Whether no file has the name: there is no entry of that name, or what should be its folder is none.
fn is_missing(error: Error) -> bool
    ensures { IsTrue result ↔ SaysMissing error }
{
    matches!(error.kind(), ErrorKind::NotFound | ErrorKind::NotADirectory)
}

// Whether a file has the name already.
fn is_there(error: Error) -> bool
    ensures { IsTrue result ↔ SaysExists error }
{
    matches!(error.kind(), ErrorKind::AlreadyExists)
}

// What the making of a file comes to: a file that is there already is no fault, and any other failure is
// counted once.
fn made(outcome: io::Result<File>, faults: &mut u64) -> Result<File, HallErr>
    ensures ok { IfOk outcome (λ file. result ≡ Ok file) }
    ensures exists { IfErr outcome (λ e. SaysExists e → result ≡ Err HallErr.Exists) }
    ensures failed { IfErr outcome (λ e. ¬ SaysExists e → result ≡ Err HallErr.Failed) }
    ensures memory { ¬ IsErrOf result HallErr.Memory }
    ensures never_missing { ¬ IsErrOf result HallErr.Missing }
    ensures count { IsErrOf result HallErr.Failed → Rose faults.old faults.new }
    ensures others { ¬ IsErrOf result HallErr.Failed → faults.new ≡ faults.old }
    ensures later { faults.old ≤ faults.new }
{
    match outcome {
        Ok(file) => Ok(file),
        Err(error) if is_there(error) => Err(HallErr::Exists),
        Err(_) => Err(fault(faults)),
    }
}

// What an opening comes to: a file that is missing is no fault, and any other failure is counted once.
fn opened(outcome: io::Result<(File, u64)>, faults: &mut u64) -> Result<(File, u64), HallErr>
    ensures ok { IfOk outcome (λ found. result ≡ Ok found) }
    ensures missing { IfErr outcome (λ e. SaysMissing e → result ≡ Err HallErr.Missing) }
    ensures failed { IfErr outcome (λ e. ¬ SaysMissing e → result ≡ Err HallErr.Failed) }
    ensures memory { ¬ IsErrOf result HallErr.Memory }
    ensures never_exists { ¬ IsErrOf result HallErr.Exists }
    ensures count { IsErrOf result HallErr.Failed → Rose faults.old faults.new }
    ensures others { ¬ IsErrOf result HallErr.Failed → faults.new ≡ faults.old }
    ensures later { faults.old ≤ faults.new }
{
    match outcome {
        Ok(found) => Ok(found),
        Err(error) if is_missing(error) => Err(HallErr::Missing),
        Err(_) => Err(fault(faults)),
    }
}

// What a call of the system that is done or failed comes to; one that failed is counted once.
fn counted(outcome: io::Result<()>, faults: &mut u64) -> Result<(), HallErr>
    ensures ok { OnOk outcome ((result ≡ Ok tt) × (faults.new ≡ faults.old)) }
    ensures err { OnErr outcome ((result ≡ Err HallErr.Failed) × Rose faults.old faults.new) }
    ensures later { faults.old ≤ faults.new }
{
    match outcome {
        Ok(()) => Ok(()),
        Err(_) => Err(fault(faults)),
    }
}

impl<'a, R: Files<File = File> + Print> FileHall<'a, R> {
    ghost use Rattle.std.specs.Prelude.{set, IsFalse};
    ghost use Rattle.std.specs.List.{All};
    ghost use Rattle.hall_files.specs.FileHall.{facts_of, notes_of, units_in};

    /// A hall with no unit.
    pub fn new(alloc: Global, rt: &'a R) -> FileHall<'a, R>
        ensures { facts_of result ≡ record {
          units = [];
          references = [];
          dev_faults = 0;
          print_faults = 0;
        } }
    {
        FileHall {
            rt,
            alloc,
            units: Vec::new(alloc),
            dev_faults: 0,
            print_faults: 0,
        }
    }

    // Notes whether the unit may have been written since the last sync, and changes no other note.
    fn set_written(&mut self, unit: usize, is_written: bool)
        requires { unit < length (units_in self.old) }
        ensures facts { facts_of self.new ≡ facts_of self.old }
        ensures notes { notes_of self.new ≡ set (notes_of self.old) unit is_written }
        ensures len { length (units_in self.new) ≡ length (units_in self.old) }
    {
        self.units[unit].is_written = is_written;
    }

    // Makes the data of each unit durable that may have been written since the last sync, and of no
    // other: where there is none the system isn't asked, and so can't fail.
    fn sync_written(&self) -> io::Result<()>
        ensures none { All IsFalse (notes_of self.now) → result ≡ Ok tt }
    {
        for unit in &self.units {
            if unit.is_written {
                unit.file.sync_data()?;
            }
        }
        Ok(())
    }

    // Notes that no unit was written since the last sync.
    fn set_synced(&mut self)
        ensures facts { facts_of self.new ≡ facts_of self.old }
        ensures notes { All IsFalse (notes_of self.new) }
    {
        for unit in 0..self.units.len() {
            self.set_written(unit, false);
        }
    }
}

impl<R: Files<File = File> + Print> Hall for FileHall<'_, R> {
    ghost use Rattle.std.specs.Prelude.{◌++◌, ◌∷◌, set, IsFalse};
    ghost use Rattle.std.specs.List.{All};
    ghost use Rattle.std.proofs.lemmas.Bool.{false≢true};
    ghost use Rattle.hall_core.specs.Facts.{unit_of, IsAttached, DeviceCall, PrintCall, AttachCall, CreateCall, NotedCall};
    ghost use Rattle.hall_core.specs.Images.{untold, Attaches, Creates};
    ghost use Rattle.stop_model.specs.Counts.{Rose};
    ghost use Rattle.stop_model.specs.Files.{HasBytesAt, AfterWrite, AfterSync, AfterPrint};
    ghost use Rattle.stop_model.specs.Moments.{Same};
    ghost use Rattle.hall_files.specs.FileHall.{facts_of, notes_of};

    ghost tells = { false };

    ghost meaning = { λ _. untold };

    ghost facts = { λ hall. facts_of hall };

    ghost leaves_state = { λ _. tt };

    ghost counts_now = { λ _ _ _ _ _. refl };

    ghost only_now = { λ _ _ _ none. (tt, none) };

    ghost whole = { λ _ told. absurd (false≢true told) };

    ghost none_pending = { λ _ told. absurd (false≢true told) };

    // To the trait's clauses, of which those on content say nothing here, each call adds what becomes of
    // the units' notes.
    fn attach(&mut self, name: &str) -> Result<u8, HallErr>
        requires few { length (facts_of self.old).units < 255 }
        requires once { ¬ IsAttached (facts_of self.old).units name.now }
        ensures files { IsTrue false → Attaches name.now untold untold result }
        ensures faults { AttachCall name.now (facts_of self.old) (facts_of self.new) result }
        ensures notes { IfOk result (λ _. notes_of self.new ≡ notes_of self.old ++ false ∷ []) }
        ensures kept { OnErr result (notes_of self.new ≡ notes_of self.old) }
    {
        let name_copy = String::from_str(self.alloc, name).map_err(|_| HallErr::Memory)?;
        self.units.reserve(1).map_err(|_| HallErr::Memory)?;
        let (file, size) = opened(open(self.rt, name), &mut self.dev_faults)?;
        let unit = self.units.len() as u8;
        self.units
            .push(Unit {
                name: name_copy,
                file,
                size,
                is_written: false,
            })
            .unwrap();
        Ok(unit)
    }

    fn create(&mut self, name: &str, len: u64) -> Result<u8, HallErr>
        requires few { length (facts_of self.old).units < 255 }
        requires once { ¬ IsAttached (facts_of self.old).units name.now }
        ensures files { IsTrue false → Creates name.now len untold untold result }
        ensures faults { CreateCall name.now len (facts_of self.old) (facts_of self.new) result }
        ensures notes { IfOk result (λ _. notes_of self.new ≡ notes_of self.old ++ false ∷ []) }
        ensures kept { OnErr result (notes_of self.new ≡ notes_of self.old) }
    {
        let name_copy = String::from_str(self.alloc, name).map_err(|_| HallErr::Memory)?;
        self.units.reserve(1).map_err(|_| HallErr::Memory)?;
        let file = made(open_new(self.rt, name), &mut self.dev_faults)?;
        let filled = fill_new(self.rt, name, &file, len);
        counted(filled, &mut self.dev_faults)?;
        let unit = self.units.len() as u8;
        self.units
            .push(Unit {
                name: name_copy,
                file,
                size: len,
                is_written: false,
            })
            .unwrap();
        Ok(unit)
    }

    fn size(&self, unit: u8) -> u64 {
        self.units[unit as usize].size
    }

    fn read(&mut self, unit: u8, at: u64, buf: &mut [u8]) -> Result<(), HallErr>
        requires attached { unit < length (facts_of self.old).units }
        requires inside { at + length buf.old ≤ (unit_of (facts_of self.old).units unit).size }
        ensures bytes { IsTrue false
            → OnOk result (HasBytesAt untold.state (unit_of (facts_of self.old).units unit).name at
            buf.new) }
        ensures files { IsTrue false → Same untold untold }
        ensures faults { DeviceCall (facts_of self.old) (facts_of self.new) result }
        ensures error { IfErr result (λ e. e ≡ HallErr.Failed) }
        ensures notes { notes_of self.new ≡ notes_of self.old }
    {
        let outcome = self.units[unit as usize].file.read_exact_at(buf, at);
        counted(outcome, &mut self.dev_faults)
    }

    fn write(&mut self, unit: u8, at: u64, bytes: &[u8]) -> Result<(), HallErr>
        requires attached { unit < length (facts_of self.old).units }
        requires inside { at + length bytes.now ≤ (unit_of (facts_of self.old).units unit).size }
        ensures files { IsTrue false
            → AfterWrite (unit_of (facts_of self.old).units unit).name at bytes.now untold untold
            result }
        ensures faults { DeviceCall (facts_of self.old) (facts_of self.new) result }
        ensures error { IfErr result (λ e. e ≡ HallErr.Failed) }
        ensures notes { notes_of self.new ≡ set (notes_of self.old) unit true }
    {
        self.set_written(unit as usize, true);
        let written = self.units[unit as usize].file.write_all_at(bytes, at);
        counted(written, &mut self.dev_faults)
    }

    fn sync(&mut self) -> Result<(), HallErr>
        ensures files { IsTrue false → AfterSync untold untold result }
        ensures faults { DeviceCall (facts_of self.old) (facts_of self.new) result }
        ensures error { IfErr result (λ e. e ≡ HallErr.Failed) }
        ensures none { All IsFalse (notes_of self.old) → result ≡ Ok tt }
        ensures notes { OnOk result (All IsFalse (notes_of self.new)) }
        ensures kept { OnErr result (notes_of self.new ≡ notes_of self.old) }
    {
        let synced = self.sync_written();
        counted(synced, &mut self.dev_faults)?;
        self.set_synced();
        Ok(())
    }

    fn print(&mut self, bytes: &[u8]) -> Result<(), HallErr>
        ensures files { IsTrue false → AfterPrint bytes.now untold untold result }
        ensures faults { PrintCall (facts_of self.old) (facts_of self.new) result }
        ensures error { IfErr result (λ e. e ≡ HallErr.Failed) }
        ensures notes { notes_of self.new ≡ notes_of self.old }
    {
        let printed = self.rt.write_all(bytes);
        counted(printed, &mut self.print_faults)
    }

    fn differs(&mut self, unit: u8, track: u16)
        requires { unit < length (facts_of self.old).units }
        ensures rose { IsFalse false → Rose (facts_of self.old).dev_faults (facts_of self.new).dev_faults }
        ensures faults { NotedCall (facts_of self.old) (facts_of self.new) }
        ensures files { IsTrue false → Same untold untold }
        ensures clock { IsTrue false → untold.clock ≡ untold.clock }
        ensures facts { IsTrue false → facts_of self.new ≡ facts_of self.old }
        ensures notes { notes_of self.new ≡ notes_of self.old }
    {
        let _ = fault(&mut self.dev_faults);
    }
}

#[cfg(test)]
mod tests {
    use super::*;
    use std::fs;
    use std::test::Fail;

    // A name, why it can't be attached, and the count of faults then.
    const REFUSED: &[(&str, HallErr, u64)] = &[
        ("no_such_file", HallErr::Missing, 0),
        ("no_such_folder/pack", HallErr::Missing, 0),
        ("/dev/null/pack", HallErr::Missing, 0),
        ("", HallErr::Missing, 0),
        (".", HallErr::Failed, 1),
        ("/dev/null", HallErr::Failed, 1),
    ];

    #[test]
    fn refuses_what_is_no_file(rt: HostRuntime) {
        for (name, want, faults) in REFUSED {
            let mut hall = FileHall::new(rt.alloc(), &rt);
            assert_eq!(rt; hall.attach(name), Err(*want), "at {name}");
            assert_eq!(rt; hall.dev_faults, *faults, "at {name}");
        }
    }

    // A new file of zeros, which is there then, and one in a folder that is not.
    #[test]
    fn makes_a_file_where_there_is_none(rt: HostRuntime) -> Result<(), Fail> {
        let name = "file_hall_makes.tmp";
        let mut hall = FileHall::new(rt.alloc(), &rt);
        let unit = hall.create(name, 5)?;
        assert_eq!(rt; (unit, hall.size(unit)), (0, 5));
        let mut other = FileHall::new(rt.alloc(), &rt);
        assert_eq!(rt; other.create(name, 9), Err(HallErr::Exists));
        assert_eq!(rt; other.dev_faults, 0);
        assert_eq!(rt;
            other.create("no_such_folder/pack", 9),
            Err(HallErr::Failed)
        );
        assert_eq!(rt; other.dev_faults, 1);
        hall.write(unit, 2, b"ab")?;
        hall.sync()?;
        assert_eq!(rt; fs::read(&rt, name)?.as_slice(), b"\0\0ab\0".as_slice());
        fs::remove_file(&rt, name)?;
        Ok(())
    }

    // A sync after no write, a write, of which one has no bytes and stands at the end, and a sync.
    #[test]
    fn reads_back_what_it_writes(rt: HostRuntime) -> Result<(), Fail> {
        let name = "file_hall_writes.tmp";
        fs::write(&rt, name, "01234567")?;
        for (at, bytes, want) in [
            (2, b"abcd".as_slice(), b"01abcd67"),
            (5, b"XYZ".as_slice(), b"01abcXYZ"),
            (8, b"".as_slice(), b"01abcXYZ"),
        ] {
            let mut hall = FileHall::new(rt.alloc(), &rt);
            let unit = hall.attach(name)?;
            hall.sync()?;
            assert_eq!(rt; hall.size(unit), 8);
            hall.write(unit, at, bytes)?;
            let mut buf = [0u8; 8];
            hall.read(unit, 0, &mut buf)?;
            assert_eq!(rt; buf, *want);
            hall.sync()?;
            hall.sync()?;
            assert_eq!(rt; fs::read(&rt, name)?.as_slice(), want.as_slice());
            hall.differs(unit, 0);
            assert_eq!(rt; (hall.dev_faults, hall.print_faults), (1, 0));
        }
        fs::remove_file(&rt, name)?;
        Ok(())
    }

    // A file and the null device, which is opened for reading: it takes no write, and its data can't be
    // made durable. So a sync fails where it is one of the units that may have been written, and only
    // there.
    #[test]
    fn faults_leave_the_units_to_the_next_sync(rt: HostRuntime) -> Result<(), Fail> {
        let name = "file_hall_syncs.tmp";
        fs::write(&rt, name, "01234567")?;
        let mut hall = FileHall::new(rt.alloc(), &rt);
        let file = hall.attach(name)?;
        hall.units.push(Unit {
            name: String::from_str(rt.alloc(), "/dev/null")?,
            file: File::open(&rt, "/dev/null")?,
            size: 8,
            is_written: false,
        })?;
        assert_eq!(rt; (hall.size(file), hall.size(1)), (8, 8));
        hall.write(file, 6, b"ab")?;
        hall.sync()?;
        assert_eq!(rt; hall.write(1, 6, b"67"), Err(HallErr::Failed));
        hall.write(file, 0, b"cd")?;
        for faults in 2..4 {
            assert_eq!(rt; hall.sync(), Err(HallErr::Failed));
            assert_eq!(rt; hall.dev_faults, faults);
            assert!(rt; hall.units.iter().all(|unit| unit.is_written));
        }
        hall.set_synced();
        hall.sync()?;
        assert_eq!(rt; (hall.dev_faults, hall.print_faults), (3, 0));
        fs::remove_file(&rt, name)?;
        Ok(())
    }
}
