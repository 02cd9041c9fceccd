//! A source of cards in memory, for tests of what stands on the trait.
ghost use Rattle.std.specs.Prelude.{◌≡◌, ◌≤◌, ◌<◌, ◌+◌, ◌-◌, length, take, drop, min};

use crate::cards::{Cards, ReadFault};

/// A source of cards in memory, which tells what is still to come and fails where it is told to.
///
/// A call that is to fail answers `ReadFault` and raises the count of faults; any other gives as
/// many bytes as there are, at most as many as the buffer has. None takes memory.
#[derive(Debug, Drop)]
pub struct MemCards {
    bytes: Vec<u8>,
    given: usize,
    fails: Vec<u64>,
    next_call: u64,
    faults: u64,
    ghost inside: { given ≤ length bytes.items },
}

impl MemCards {
    ghost use Rattle.hall_core.specs.MemoryCards.{bytes_left, failing_reads, number_of_reads, faults_counted};

    /// A source that gives these bytes. Its calls are numbered from 0, and those with a number in
    /// `fails` fail.
    pub fn new(bytes: Vec<u8>, fails: Vec<u64>) -> MemCards
        ensures left { bytes_left result ≡ bytes.items }
        ensures failing { failing_reads result ≡ fails.items }
        ensures number { number_of_reads result ≡ 0 }
        ensures faults { faults_counted result ≡ 0 }
    {
        MemCards {
            bytes,
            given: 0,
            fails,
            next_call: 0,
            faults: 0,
        }
    }
}

impl Cards for MemCards {
    ghost use Rattle.std.specs.Prelude.{IfOk, OnOk, OnErr, IsErr, Contains, ◌↔◌, true, ◌^◌};
    ghost use Rattle.stop_model.specs.Counts.{Rose};
    ghost use Rattle.hall_core.specs.Cards.{GivesNext};
    ghost use Rattle.hall_core.specs.MemoryCards.{bytes_left, failing_reads, number_of_reads, faults_counted, IsNextRead};

    ghost tells = { true };

    ghost left = { λ cards. bytes_left cards };

    ghost faults = { λ cards. faults_counted cards };

    fn read(&mut self, buf: &mut [u8]) -> Result<usize, ReadFault>
        requires { 0 < length buf.old }
        ensures within { IfOk result (λ n. n ≤ length buf.old) }
        ensures files { GivesNext (bytes_left self.old) (bytes_left self.new) buf.new result }
        ensures later { faults_counted self.old ≤ faults_counted self.new }
        ensures done { OnOk result (faults_counted self.new ≡ faults_counted self.old) }
        ensures failed { OnErr result (Rose (faults_counted self.old) (faults_counted self.new)) }
        ensures which { IsErr result
            ↔ Contains (failing_reads self.old) (number_of_reads self.old) }
        ensures most { IfOk result (λ n. n ≡ min (length buf.old) (length (bytes_left self.old))) }
        ensures next { IsNextRead self.old self.new result }
    {
        let fails = self.fails.contains(&self.next_call);
        self.next_call = self.next_call.saturating_add(1);
        if fails {
            self.faults = self.faults.saturating_add(1);
            return Err(ReadFault);
        }
        let count = buf.len().min(self.bytes.len() - self.given);
        let end = self.given + count;
        buf[..count].copy_from_slice(&self.bytes[self.given..end]);
        self.given = end;
        Ok(count)
    }
}
