//! The standard input as a source of cards.
//!
//! A read gives what its reader gives, and takes no more of it. That the reader of the standard input
//! gives the bytes which come next there, and none of them exactly at the end, is the word of the
//! system; no contract says it.
ghost use Rattle.std.specs.Prelude.{◌≡◌, ◌+◌, ◌-◌, ◌^◌, ◌<◌, ◌≤◌, min, length, IfOk, OnOk, OnErr, false, []};
ghost use Rattle.std.specs.Io.KnownBytes.{ReadConsumes};
ghost use Rattle.stop_model.specs.Counts.{Rose};

use hall_core::{Cards, ReadFault};
use std::io::Read;

/// The cards on the standard input, or on another reader.
///
/// It tells nothing of what is still to come, and counts its faults. It reads ahead no more than the
/// reader does. A read that a signal interrupts is a fault, unless the reader tries it again.
#[derive(Drop)]
pub struct StdCards<R> {
    reader: R,
    faults: u64,
}

impl<R: Read> StdCards<R> {
    ghost use Rattle.hall_files.specs.StdCards.{reader_of, faults_counted};

    /// The cards that a reader gives.
    pub fn new(reader: R) -> StdCards<R>
        ensures reader { reader_of result ≡ reader }
        ensures faults { faults_counted result ≡ 0 }
    {
        StdCards { reader, faults: 0 }
    }
}

impl<R: Read> Cards for StdCards<R> {
    ghost use Rattle.hall_files.specs.StdCards.{reader_of, faults_counted};

    ghost tells = { false };

    ghost left = { λ _. [] };

    ghost faults = { λ cards. faults_counted cards };

    // Where the reader tells what is still to come, a read takes what it gives, and a fault nothing. Each
    // fault is counted once.
    fn read(&mut self, buf: &mut [u8]) -> Result<usize, ReadFault>
        requires { 0 < length buf.old }
        ensures within { IfOk result (λ n. n ≤ length buf.old) }
        ensures reads { ReadConsumes (R.remaining (reader_of self.old)) (R.remaining (reader_of self.new))
            result buf.new }
        ensures later { faults_counted self.old ≤ faults_counted self.new }
        ensures done { OnOk result (faults_counted self.new ≡ faults_counted self.old) }
        ensures failed { OnErr result (Rose (faults_counted self.old) (faults_counted self.new)) }
    {
        match self.reader.read(buf) {
            Ok(count) => Ok(count),
            Err(_) => {
                self.faults = self.faults.saturating_add(1);
                Err(ReadFault)
            }
        }
    }
}

#[cfg(test)]
mod tests {
    use super::*;
    use std::fs::File;
    use std::io::{Error, ErrorKind, Result as IoResult};
    use std::test::Fail;

    // A reader that gives these bytes, fails at one read, and then ends.
    #[derive(Drop)]
    struct Interrupted<'a> {
        front: &'a [u8],
        has_failed: bool,
    }

    impl Read for Interrupted<'_> {
        fn read(&mut self, buf: &mut [u8]) -> IoResult<usize> {
            if !self.front.is_empty() {
                return self.front.read(buf);
            }
            if self.has_failed {
                return Ok(0);
            }
            self.has_failed = true;
            Err(Error::from(ErrorKind::Interrupted))
        }
    }

    // Nor is it passed over after bytes that don't fill the buffer.
    #[test]
    fn a_failed_read_is_not_tried_again(rt: HostRuntime) {
        let mut cards = StdCards::new(Interrupted {
            front: b"A",
            has_failed: false,
        });
        let mut buf = [0u8; 2];
        for (read, faults) in [(Ok(1), 0), (Err(ReadFault), 1), (Ok(0), 1)] {
            assert_eq!(rt; cards.read(&mut buf), read);
            assert_eq!(rt; cards.faults, faults);
        }
    }

    // A slice ends, and a folder that was opened can't be read.
    #[test]
    fn reads_to_the_end_and_counts_faults(rt: HostRuntime) -> Result<(), Fail> {
        let mut cards = StdCards::new(b"//A".as_slice());
        let mut buf = [0u8; 2];
        for (count, held) in [(2, b"//"), (1, b"A/"), (0, b"A/")] {
            assert_eq!(rt; cards.read(&mut buf), Ok(count));
            assert_eq!(rt; buf, *held);
        }
        assert_eq!(rt; cards.faults, 0);
        let mut folder = StdCards::new(File::open(&rt, ".")?);
        for faults in 1..3 {
            assert_eq!(rt; folder.read(&mut buf), Err(ReadFault));
            assert_eq!(rt; folder.faults, faults);
        }
        Ok(())
    }
}
