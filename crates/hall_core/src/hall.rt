//! The trait of the outside, which a device and a test fixture implement alike.
ghost use Rattle.std.specs.Prelude.{◌≡◌, ◌+◌, ◌<◌, ◌≤◌, [], ◌∷◌, ℕ, List, Bool, length, IsTrue, IsFalse, OnOk, IfErr, ◌-◌, ◌^◌, min};
ghost use Rattle.hall_core.specs.Facts.{Facts, name_in, size_in, IsAttached, DeviceCall, NotedCall, PrintCall, AttachCall, CreateCall};
ghost use Rattle.stop_model.specs.Counts.{Rose};
ghost use Rattle.stop_model.specs.Moments.{Meaning, LeftNow, IsDurable, Same};
ghost use Rattle.stop_model.specs.Files.{File, HasBytesAt, AfterWrite, AfterSync, AfterPrint};
ghost use Rattle.hall_core.specs.Images.{AreWhole, Attaches, Creates};

/// Why a call failed.
#[derive(Clone, Copy, Debug, PartialEq, Eq)]
pub enum HallErr {
    /// No file has the name. Only an attachment answers so.
    Missing,
    /// A file has the name already. Only a creation answers so.
    Exists,
    /// The device failed, or in a print the printer, and its count of faults rose.
    Failed,
    /// Memory ran out, and nothing changed. Only an attachment or a creation answers so.
    Memory,
}

/// Counts a fault of a device or a printer, and answers `Failed`, as a call that failed does.
///
/// The count grows by one, and at 2^64 - 1 it stands still.
pub fn fault(count: &mut u64) -> HallErr
    ensures error { result ≡ HallErr.Failed }
    ensures count { count.new ≡ min (count.old + 1) (2 ^ 64 - 1) }
    ensures later { count.old ≤ count.new }
{
    *count = count.saturating_add(1);
    HallErr::Failed
}

/// Files that are attached as units, numbered from 0 in their order, and a place to print on.
///
/// Writes are pending until a sync is done. A stop leaves the files as of the last sync that was
/// done, with any of the writes since then, in their order; each such write is whole or absent. A
/// stop during a print leaves a prefix of its bytes. So it is known after each call what a stop may
/// leave, now or at any moment since an earlier one.
///
/// A real device can't tell what it holds; clauses on content hold where `tells` is true. What
/// `facts` tells is always known.
pub trait Hall {
    /// Whether its content is told.
    ghost tells: { Bool };

    /// What it holds, where it tells: the files as they are read, and what a stop leaves of them.
    ghost meaning: { Self → Meaning (List File) };

    /// Its units, the references that lead to it, and its counts of faults.
    ghost facts: { Self → Facts };

    /// Attaches a file as the next unit, and gives the number of the unit.
    ///
    /// A unit keeps the size that its file has now. Of the errors, `Missing` says that there is no
    /// such file, and `Failed` that the count of device faults rose; after `Memory` all is as it
    /// was.
    /// No error adds a unit.
    fn attach(&mut self, name: &str) -> Result<u8, HallErr>
        requires few { length (facts self.old).units < 255 }
        requires once { ¬ IsAttached (facts self.old).units name.now }
        ensures files { IsTrue tells
            → Attaches name.now (meaning self.old) (meaning self.new) result }
        ensures faults { AttachCall name.now (facts self.old) (facts self.new) result };

    /// Makes a file of `len` zero bytes, attaches it as the next unit, and gives the number of the unit.
    ///
    /// Once it is done, every stop leaves the file. Where a file has the name, all stays as it was;
    /// `Exists` comes only there. A call that a stop ends, or that answers `Failed`, leaves else no
    /// file of the name, or one of at most `len` zero bytes; `Failed` comes only where the count of
    /// device faults rose. After `Memory` all is as it was. No error adds a unit.
    fn create(&mut self, name: &str, len: u64) -> Result<u8, HallErr>
        requires few { length (facts self.old).units < 255 }
        requires once { ¬ IsAttached (facts self.old).units name.now }
        ensures files { IsTrue tells
            → Creates name.now len (meaning self.old) (meaning self.new) result }
        ensures faults { CreateCall name.now len (facts self.old) (facts self.new) result };

    /// The size of a unit, in bytes.
    fn size(&self, unit: u8) -> u64
        requires { unit < length (facts self.now).units }
        ensures { result ≡ size_in (facts self.now) unit };

    /// Fills the buffer with the unit's bytes from the offset `at` on, which counts them from 0.
    ///
    /// The error is `Failed`, and the count of device faults rose. The buffer may then hold
    /// anything.
    fn read(&mut self, unit: u8, at: u64, buf: &mut [u8]) -> Result<(), HallErr>
        requires attached { unit < length (facts self.old).units }
        requires inside { at + length buf.old ≤ size_in (facts self.old) unit }
        ensures bytes { IsTrue tells → OnOk result
            (HasBytesAt (meaning self.old).state (name_in (facts self.old) unit) at buf.new) }
        ensures files { IsTrue tells → Same (meaning self.old) (meaning self.new) }
        ensures faults { DeviceCall (facts self.old) (facts self.new) result }
        ensures error { IfErr result (λ e. e ≡ HallErr.Failed) };

    /// Writes the bytes over those of the unit, from the offset `at` on, which counts them from 0.
    ///
    /// The write is pending until a sync is done. The error is `Failed`, and the count of device
    /// faults rose; the write is then pending too, or it was not begun.
    fn write(&mut self, unit: u8, at: u64, bytes: &[u8]) -> Result<(), HallErr>
        requires attached { unit < length (facts self.old).units }
        requires inside { at + length bytes.now ≤ size_in (facts self.old) unit }
        ensures files { IsTrue tells → AfterWrite (name_in (facts self.old) unit) at bytes.now
            (meaning self.old) (meaning self.new) result }
        ensures faults { DeviceCall (facts self.old) (facts self.new) result }
        ensures error { IfErr result (λ e. e ≡ HallErr.Failed) };

    /// Makes the writes to all units durable.
    ///
    /// The error is `Failed`, and the count of device faults rose. The writes are then pending as
    /// before.
    fn sync(&mut self) -> Result<(), HallErr>
        ensures files { IsTrue tells → AfterSync (meaning self.old) (meaning self.new) result }
        ensures faults { DeviceCall (facts self.old) (facts self.new) result }
        ensures error { IfErr result (λ e. e ≡ HallErr.Failed) };

    /// Prints the bytes, whatever they are.
    ///
    /// The error is `Failed`, and the count of print faults rose. A prefix of the bytes is then
    /// printed.
    fn print(&mut self, bytes: &[u8]) -> Result<(), HallErr>
        ensures files { IsTrue tells
            → AfterPrint bytes.now (meaning self.old) (meaning self.new) result }
        ensures faults { PrintCall (facts self.old) (facts self.new) result }
        ensures error { IfErr result (λ e. e ≡ HallErr.Failed) };

    /// Notes that a track of a unit isn't as it was read before, or can't be as it is read.
    ///
    /// A hall that tells its content never comes to that, and nothing changes; for any other it is
    /// a fault of the device, counted though nothing is answered. The track is counted from 0 over
    /// the unit.
    fn differs(&mut self, unit: u8, track: u16)
        requires { unit < length (facts self.old).units }
        ensures rose { IsFalse tells
            → Rose (facts self.old).dev_faults (facts self.new).dev_faults }
        ensures faults { NotedCall (facts self.old) (facts self.new) }
        ensures files { IsTrue tells → Same (meaning self.old) (meaning self.new) }
        ensures clock { IsTrue tells → (meaning self.new).clock ≡ (meaning self.old).clock }
        ensures facts { IsTrue tells → facts self.new ≡ facts self.old };

    /// A stop may leave the files as they are read.
    ghost leaves_state: { (h : Self) → (meaning h).left (meaning h).state };

    /// What a stop leaves now, one since any earlier moment may have left.
    ghost counts_now: { (h : Self) (t : ℕ) (j : List File) → t ≤ (meaning h).clock
        → (meaning h).left j → (meaning h).left_since t j (meaning h).printed };

    /// What a stop leaves that comes no earlier than now, one leaves now.
    ghost only_now: { (h : Self) (j : List File) (p : List ℕ)
        → (meaning h).left_since (meaning h).clock j p → LeftNow (meaning h) j p };

    /// Each unit is a file, of the unit's size.
    ghost whole: { (h : Self) → IsTrue tells → AreWhole (meaning h).state (facts h).units };

    /// Writes are made to units alone: without a unit none is pending.
    ghost none_pending: { (h : Self) → IsTrue tells
        → (facts h).units ≡ [] → IsDurable (meaning h) };
}

impl<H: Hall> Hall for &mut H {
    ghost tells = { H.tells };

    ghost meaning = { λ h. H.meaning h.now };

    ghost facts = { λ h. record (H.facts h.now)
        { references = h.ghost_name ∷ (H.facts h.now).references } };

    ghost leaves_state = { λ h. H.leaves_state h.now };

    ghost counts_now = { λ h. H.counts_now h.now };

    ghost only_now = { λ h. H.only_now h.now };

    ghost whole = { λ h. H.whole h.now };

    ghost none_pending = { λ h. H.none_pending h.now };

    fn attach(&mut self, name: &str) -> Result<u8, HallErr> {
        (**self).attach(name)
    }

    fn create(&mut self, name: &str, len: u64) -> Result<u8, HallErr> {
        (**self).create(name, len)
    }

    fn size(&self, unit: u8) -> u64 {
        (**self).size(unit)
    }

    fn read(&mut self, unit: u8, at: u64, buf: &mut [u8]) -> Result<(), HallErr> {
        (**self).read(unit, at, buf)
    }

    fn write(&mut self, unit: u8, at: u64, bytes: &[u8]) -> Result<(), HallErr> {
        (**self).write(unit, at, bytes)
    }

    fn sync(&mut self) -> Result<(), HallErr> {
        (**self).sync()
    }

    fn print(&mut self, bytes: &[u8]) -> Result<(), HallErr> {
        (**self).print(bytes)
    }

    fn differs(&mut self, unit: u8, track: u16) {
        (**self).differs(unit, track)
    }
}
