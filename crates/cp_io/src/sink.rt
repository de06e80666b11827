// A sink of bytes, and the writing of a whole text.
ghost use Rattle.std.specs.Prelude.{◌≡◌, ◌≤◌, ◌<◌, ℕ, List, Option, length, OnOk, OnErr};
ghost use Rattle.std.specs.Io.KnownBytes.{Appends};
ghost use Rattle.cp_io.specs.Counting.{Rose};
ghost use Rattle.cp_io.specs.Sink.{WriteDid, AppendsFront};

use thiserror::Error;

/// What a write answers.
#[derive(Clone, Copy, Debug, PartialEq, Eq)]
pub enum Took {
    /// So many bytes of the piece, at least 1, were appended.
    Count(usize),
    /// The sink failed. It appended nothing, and its count of faults rose.
    Failed,
}

/// Where bytes go.
pub trait Sink {
    /// What it holds, where the sink tells it.
    ghost held: { Self → Option (List ℕ) };

    /// How often it has failed.
    ghost faults: { Self → ℕ };

    /// Appends a piece, which is not empty, or a front of it.
    fn write(&mut self, piece: &[u8]) -> Took
        requires { 0 < length piece.now }
        ensures this { WriteDid (held self.old) (held self.new) result piece.now }
        ensures later { faults self.old ≤ faults self.new }
        ensures failed { result ≡ Took.Failed → Rose (faults self.old) (faults self.new) };
}

/// A text was not written whole, since the sink failed.
#[derive(Clone, Copy, Debug, PartialEq, Eq, Error)]
#[error("the sink failed")]
pub struct WriteFault;

/// Gives a text to a sink: all of it at first, and after each write that took less, what is left.
pub fn write_all<K: Sink>(sink: &mut K, text: &[u8]) -> Result<(), WriteFault>
    ensures all { OnOk result (Appends (K.held sink.old) (K.held sink.new) text.now) }
    ensures front { OnErr result (AppendsFront (K.held sink.old) (K.held sink.new) text.now) }
    ensures fault { OnErr result (Rose (K.faults sink.old) (K.faults sink.new)) }
    ensures later { K.faults sink.old ≤ K.faults sink.new }
{
    let mut written = 0;
    while written < text.len() {
        match sink.write(&text[written..]) {
            Took::Count(n) => written += n,
            Took::Failed => return Err(WriteFault),
        }
    }
    Ok(())
}
