// A source of bytes, and the reading of all that it has.
ghost use Rattle.std.specs.Prelude.{◌≡◌, ◌+◌, ◌<◌, ◌≤◌, ◌↔◌, ℕ, List, Option, ◌++◌, length, IfOk, IfSome, OnOk, IsErrOf};
ghost use Rattle.std.specs.Io.KnownBytes.{IsAtEnd};
ghost use Rattle.cp_io.specs.Counting.{counted, Rose};
ghost use Rattle.cp_io.specs.declared.source.ReadEnd.TheVariants.{NoMemory};
ghost use Rattle.cp_io.specs.Source.{ReadDid, Gave, count_of};

use cp_base::{Bytes, NoMemory};
use std::alloc::{AllocError, Global};
use thiserror::Error;

/// The most bytes that `read_all` asks for at once.
const PIECE: usize = 65_536;

/// What a read answers.
#[derive(Clone, Copy, Debug, PartialEq, Eq)]
pub enum Got {
    /// So many bytes, at least 1, left the front of the source and stand in the slice.
    Count(usize),
    /// Nothing is left.
    End,
    /// The source failed. It gave nothing, and its count of faults rose.
    Failed,
}

/// Where bytes come from.
pub trait Source {
    /// What is left, where the source tells it.
    ghost left: { Self → Option (List ℕ) };

    /// How often it has failed.
    ghost faults: { Self → ℕ };

    /// How many bytes it has given.
    ghost given: { Self → ℕ };

    /// Puts bytes from the front of the source into a slice, which has room for at least one. What
    /// stands in the slice behind them is not told.
    fn read(&mut self, into: &mut [u8]) -> Got
        requires { 0 < length into.old }
        ensures this { ReadDid (left self.old) (left self.new) result into.new }
        ensures given { given self.new ≡ counted (given self.old) (count_of result) }
        ensures later { faults self.old ≤ faults self.new }
        ensures failed { result ≡ Got.Failed → Rose (faults self.old) (faults self.new) };
}

/// Why the bytes of a source were not all read.
#[derive(Clone, Copy, Debug, PartialEq, Eq, Error)]
pub enum ReadEnd {
    /// More bytes came than the limit allows.
    #[error("too many bytes")]
    TooLong,
    /// The source failed.
    #[error("the source failed")]
    Fault,
    /// The memory for the bytes is not there.
    #[error("out of memory")]
    NoMemory,
}

impl From<NoMemory> for ReadEnd {
    ghost from_gives = { λ _ end. end ≡ NoMemory };

    fn from(_: NoMemory) -> ReadEnd {
        ReadEnd::NoMemory
    }
}

impl From<AllocError> for ReadEnd {
    ghost from_gives = { λ _ end. end ≡ NoMemory };

    fn from(_: AllocError) -> ReadEnd {
        ReadEnd::NoMemory
    }
}

/// Reads all bytes of a source up to its end. Bytes that came before a refusal are lost.
pub fn read_all<S: Source>(alloc: Global, source: &mut S, limit: u64) -> Result<Bytes, ReadEnd>
    ensures whole { IfOk result (λ read. IfSome (S.left source.old) (λ left. read.items ≡ left)) }
    ensures end { OnOk result (IsAtEnd (S.left source.new)) }
    ensures within { IfOk result (λ read. length read.items ≤ limit) }
    ensures gave { IfOk result (λ read. Gave (S.left source.old) (S.left source.new)
        (S.given source.old) (S.given source.new) read.items) }

    // In each case some bytes came, and there were too many exactly where it is said so.
    ensures came { (came : List ℕ) × Gave (S.left source.old) (S.left source.new)
        (S.given source.old) (S.given source.new) came
        × (IsErrOf result ReadEnd.TooLong ↔ (limit < length came)) }

    ensures fault { IsErrOf result ReadEnd.Fault → Rose (S.faults source.old) (S.faults source.new) }
    ensures later { S.faults source.old ≤ S.faults source.new }
{
    let mut piece = Vec::new(alloc);
    piece.resize(PIECE, 0)?;
    let mut read = Bytes::new(alloc);
    loop {
        let rest = limit - read.len();
        let asked = rest.min(PIECE as u64 - 1) as usize + 1;
        let into = &mut piece[..asked];
        match source.read(into) {
            Got::Count(n) => {
                if n as u64 > rest {
                    return Err(ReadEnd::TooLong);
                }
                add(&mut read, &into[..n])?;
            }
            Got::End => return Ok(read),
            Got::Failed => return Err(ReadEnd::Fault),
        }
    }
}

// Adds bytes at the end. Where room has to be made, it is made for twice as many as there are, so
// that each byte is moved only a few times.
fn add(to: &mut Bytes, from: &[u8]) -> Result<(), NoMemory>
    ensures added { OnOk result (to.new.items ≡ to.old.items ++ from.now) }
{
    let needed = from.len() as u64;
    if to.spare() < needed {
        to.reserve(needed.max(to.len()))?;
    }
    to.append(from);
    Ok(())
}
