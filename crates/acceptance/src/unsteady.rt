//! A hall in memory whose content may change by itself, and whose prints may be cut.
ghost use Rattle.std.specs.Prelude.{◌≡◌, []};
ghost use Rattle.hall_core.specs.Memory.{facts_of};

use hall_core::{Hall, HallErr, MemHall, fault};

/// A hall in memory that tells nothing: reads may give zeros, and prints may fail after a part.
#[derive(Drop)]
pub struct Unsteady {
    /// What takes the calls.
    pub hall: MemHall,
    sound_reads: u64,
    cut: Option<usize>,
    dev_faults: u64,
    print_faults: u64,
}

impl Unsteady {
    /// A hall of which so many reads give what its file holds, and those after them zeros; and of which each
    /// print fails after so many bytes, if there is a number.
    pub fn over(hall: MemHall, sound_reads: u64, cut: Option<usize>) -> Unsteady
        ensures { result.hall ≡ hall }
    {
        Unsteady {
            hall,
            sound_reads,
            cut,
            dev_faults: 0,
            print_faults: 0,
        }
    }
}

impl Hall for Unsteady {
    ghost use Rattle.std.proofs.lemmas.Bool.{false≢true};
    ghost use Rattle.std.specs.Prelude.{false, refl};
    ghost use Rattle.hall_core.specs.Images.{untold};

    ghost tells = { false };

    ghost meaning = { λ _. untold };

    ghost facts = { λ h. record (facts_of h.hall) { dev_faults = h.dev_faults; print_faults = h.print_faults } };

    ghost leaves_state = { λ _. tt };

    ghost counts_now = { λ _ _ _ _ _. refl };

    ghost only_now = { λ _ _ _ none. (tt, none) };

    ghost whole = { λ _ told. absurd (false≢true told) };

    ghost none_pending = { λ _ told. absurd (false≢true told) };

    fn attach(&mut self, name: &str) -> Result<u8, HallErr> {
        match self.hall.attach(name) {
            Ok(unit) => Ok(unit),
            Err(HallErr::Missing) => Err(HallErr::Missing),
            Err(_) => Err(fault(&mut self.dev_faults)),
        }
    }

    fn create(&mut self, name: &str, len: u64) -> Result<u8, HallErr> {
        match self.hall.create(name, len) {
            Ok(unit) => Ok(unit),
            Err(HallErr::Exists) => Err(HallErr::Exists),
            Err(_) => Err(fault(&mut self.dev_faults)),
        }
    }

    fn size(&self, unit: u8) -> u64 {
        self.hall.size(unit)
    }

    fn read(&mut self, unit: u8, at: u64, buf: &mut [u8]) -> Result<(), HallErr> {
        let Ok(()) = self.hall.read(unit, at, buf) else {
            return Err(fault(&mut self.dev_faults));
        };
        match self.sound_reads.checked_sub(1) {
            Some(further) => self.sound_reads = further,
            None => buf.fill(0),
        }
        Ok(())
    }

    fn write(&mut self, unit: u8, at: u64, bytes: &[u8]) -> Result<(), HallErr> {
        let Ok(()) = self.hall.write(unit, at, bytes) else {
            return Err(fault(&mut self.dev_faults));
        };
        Ok(())
    }

    fn sync(&mut self) -> Result<(), HallErr> {
        let Ok(()) = self.hall.sync() else {
            return Err(fault(&mut self.dev_faults));
        };
        Ok(())
    }

    fn print(&mut self, bytes: &[u8]) -> Result<(), HallErr> {
        let text = match self.cut {
            Some(len) => &bytes[..len.min(bytes.len())],
            None => bytes,
        };
        match self.hall.print(text) {
            Ok(()) if self.cut.is_none() => Ok(()),
            _ => Err(fault(&mut self.print_faults)),
        }
    }

    fn differs(&mut self, _unit: u8, _track: u16) {
        let _ = fault(&mut self.dev_faults);
    }
}
