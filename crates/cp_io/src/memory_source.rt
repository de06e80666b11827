// A source in memory, for tests and for replays.
ghost use Rattle.std.specs.Prelude.{◌≡◌, ◌<◌, ◌≤◌, ◌++◌, length, take, drop, Some};
ghost use Rattle.cp_io.specs.Counting.{counted, Rose};
ghost use Rattle.cp_io.specs.Source.{ReadDid, count_of};
ghost use Rattle.cp_io.specs.Memory.{Supply, read_answer, after_read, read_count};

use crate::failing::is_next_listed;
use crate::{Got, Source};
use cp_base::Bytes;
use std::marker::Model;

/// A source in memory: its bytes, how many of them one read gives at most, and which of its calls fail,
/// by their numbers: the first call is number 1, and one behind number 2^32 - 1 cannot be listed. Its
/// count of faults begins at 0 and rises by one at each listed call.
#[derive(Debug, Drop)]
pub struct MemSource {
    bytes: Bytes,
    at: usize,
    most: u32,
    fails: Vec<u32>,
    calls: u32,
    faults: u64,
}

impl Model for MemSource {
    ghost use Rattle.std.specs.Prelude.{◌<◌, ◌≤◌, length, drop};
    ghost use Rattle.cp_io.specs.Memory.{Supply};

    ghost Value = { Supply };

    ghost view = { λ s. record { left = drop s.at s.bytes.items; given = s.at; most = s.most; fails = s.fails.items; calls = s.calls; faults = s.faults } };

    ghost invariant = { λ s. (s.at ≤ length s.bytes.items) × (0 < s.most) };
}

impl MemSource {
    /// A source that has these bytes left. It takes no memory.
    pub fn new(bytes: Bytes, most: u32, fails: Vec<u32>) -> MemSource
        requires { 0 < most }
        ensures { result
            ≡ record { left = bytes.items; given = 0; most = most; fails = fails.items; calls = 0; faults = 0 } }
    {
        MemSource {
            bytes,
            at: 0,
            most,
            fails,
            calls: 0,
            faults: 0,
        }
    }
}

impl Source for MemSource {
    ghost left = { λ s. Some s.left };

    ghost faults = { λ s. s.faults };

    ghost given = { λ s. s.given };

    /// Gives as many bytes as there are, up to `most` and the length of the slice; what stands
    /// behind them in the slice stays.
    fn read(&mut self, into: &mut [u8]) -> Got
        requires { 0 < length into.old }
        ensures this { ReadDid (Some self.old.left) (Some self.new.left) result into.new }
        ensures given { self.new.given ≡ counted self.old.given (count_of result) }
        ensures later { self.old.faults ≤ self.new.faults }
        ensures failed { result ≡ Got.Failed → Rose self.old.faults self.new.faults }

        ensures answer { result ≡ read_answer self.old (length into.old) }
        ensures after { self.new ≡ after_read self.old (length into.old) }
        ensures slice { into.new ≡ take (count_of result) self.old.left ++ drop (count_of result) into.old }
    {
        let listed = is_next_listed(&self.fails, self.calls);
        self.calls = self.calls.saturating_add(1);
        if listed {
            self.faults = self.faults.saturating_add(1);
            return Got::Failed;
        }
        let left = &self.bytes.as_slice()[self.at..];
        if left.is_empty() {
            return Got::End;
        }
        let count = into.len().min((self.most as usize).min(left.len()));
        into[..count].copy_from_slice(&left[..count]);
        self.at += count;
        Got::Count(count)
    }
}
