// A sink in memory, for tests and for replays.
ghost use Rattle.std.specs.Prelude.{◌≡◌, ◌<◌, ◌≤◌, [], length, Some, IfOk};
ghost use Rattle.cp_io.specs.Counting.{Rose};
ghost use Rattle.cp_io.specs.Sink.{WriteDid};
ghost use Rattle.cp_io.specs.Memory.{Store, write_answer, after_write};

use crate::failing::is_next_listed;
use crate::{Sink, Took};
use cp_base::{Bytes, NoMemory};
use std::alloc::Global;
use std::marker::Model;

/// How many bytes a sink in memory has room for.
const ROOM: usize = 1_048_576;

/// A sink in memory: what it holds, and which of its calls fail, by their numbers: the first call is
/// number 1, and one behind number 2^32 - 1 cannot be listed. It has room for 1,048,576 bytes, and of
/// a write that is too long for what is left it takes the front. Its count of faults begins at 0 and
/// rises by one at each listed call, and where nothing fits.
#[derive(Debug, Drop)]
pub struct MemSink {
    bytes: Bytes,
    fails: Vec<u32>,
    calls: u32,
    faults: u64,
}

impl Model for MemSink {
    ghost use Rattle.std.specs.Prelude.{◌+◌, ◌≤◌, length};
    ghost use Rattle.cp_io.specs.Memory.{Store, sink_room};

    ghost Value = { Store };

    ghost view = { λ s. record { held = s.bytes.items; fails = s.fails.items; calls = s.calls; faults = s.faults } };

    ghost invariant = { λ s. (length s.bytes.items ≤ sink_room) × (sink_room ≤ length s.bytes.items + s.bytes.spare) };
}

impl MemSink {
    /// An empty sink, with all its room taken.
    pub fn new(alloc: Global, fails: Vec<u32>) -> Result<MemSink, NoMemory>
        ensures { IfOk result (λ sink. sink ≡ record { held = []; fails = fails.items; calls = 0; faults = 0 }) }
    {
        let mut bytes = Bytes::new(alloc);
        bytes.reserve(ROOM as u64)?;
        Ok(MemSink {
            bytes,
            fails,
            calls: 0,
            faults: 0,
        })
    }

    /// The bytes that the sink holds.
    pub fn held(&self) -> &[u8]
        ensures { result.now ≡ self.now.held }
    {
        self.bytes.as_slice()
    }
}

impl Sink for MemSink {
    ghost held = { λ s. Some s.held };

    ghost faults = { λ s. s.faults };

    /// Takes as many bytes of the piece as fit.
    fn write(&mut self, piece: &[u8]) -> Took
        requires { 0 < length piece.now }
        ensures this { WriteDid (Some self.old.held) (Some self.new.held) result piece.now }
        ensures later { self.old.faults ≤ self.new.faults }
        ensures failed { result ≡ Took.Failed → Rose self.old.faults self.new.faults }

        ensures answer { result ≡ write_answer self.old (length piece.now) }
        ensures after { self.new ≡ after_write self.old piece.now }
    {
        let listed = is_next_listed(&self.fails, self.calls);
        self.calls = self.calls.saturating_add(1);
        let room = ROOM - self.bytes.as_slice().len();
        if listed || room == 0 {
            self.faults = self.faults.saturating_add(1);
            return Took::Failed;
        }
        let count = piece.len().min(room);
        self.bytes.append(&piece[..count]);
        Took::Count(count)
    }
}
