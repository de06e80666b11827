// A source and a sink over a reader and a writer of std, as standard input and output.
ghost use Rattle.std.specs.Prelude.{◌≡◌, ◌≤◌, ◌<◌, None, length};
ghost use Rattle.cp_io.specs.Counting.{counted, Rose};
ghost use Rattle.cp_io.specs.Source.{ReadDid, count_of};
ghost use Rattle.cp_io.specs.Sink.{WriteDid};

use crate::{Got, Sink, Source, Took};
use std::io::{ErrorKind, Read, Write};

/// How often one call is tried again after an interruption.
const TRIES: u32 = 1_000_000;

/// A source over a reader of std. It does not tell its bytes. A read of 0 bytes is the end. Its
/// count of faults rises at each error of the reader, also at an interruption, after which the read
/// is tried again.
#[derive(Debug, Drop)]
pub struct StdSource<R> {
    reader: R,
    given: u64,
    faults: u64,
}

impl<R> StdSource<R> {
    ghost use Rattle.cp_io.specs.Standard.{reader_of, given_of, read_faults};

    /// A source of the bytes that the reader gives from here on.
    pub fn new(reader: R) -> StdSource<R>
        ensures reader { reader_of result ≡ reader }
        ensures given { given_of result ≡ 0 }
        ensures faults { read_faults result ≡ 0 }
    {
        StdSource {
            reader,
            given: 0,
            faults: 0,
        }
    }
}

impl<R: Read> Source for StdSource<R> {
    ghost use Rattle.cp_io.specs.Standard.{reader_of, given_of, read_faults};

    ghost left = { λ _. None };

    ghost faults = { read_faults };

    ghost given = { given_of };

    // `reader`: a reader that tells std its bytes loses those that came.
    fn read(&mut self, into: &mut [u8]) -> Got
        requires { 0 < length into.old }
        ensures this { ReadDid None None result into.new }
        ensures given { given_of self.new ≡ counted (given_of self.old) (count_of result) }
        ensures later { read_faults self.old ≤ read_faults self.new }
        ensures failed { result ≡ Got.Failed → Rose (read_faults self.old) (read_faults self.new) }
        ensures reader { ReadDid (R.remaining (reader_of self.old)) (R.remaining (reader_of self.new)) result into.new }
    {
        for _ in 0..TRIES {
            match self.reader.read(into) {
                Ok(0) => return Got::End,
                Ok(n) => {
                    self.given = self.given.saturating_add(n as u64);
                    return Got::Count(n);
                }
                Err(error) => {
                    self.faults = self.faults.saturating_add(1);
                    if error.kind() != ErrorKind::Interrupted {
                        return Got::Failed;
                    }
                }
            }
        }
        Got::Failed
    }
}

/// A sink over a writer of std. It does not tell its bytes. Its count of faults rises at each error
/// of the writer, also at an interruption, after which the write is tried again, and at a write of 0
/// bytes, which is a failure. It does not flush: standard output holds no bytes back, and a writer
/// that does may be passed as a `&mut` and flushed by its owner.
#[derive(Debug, Drop)]
pub struct StdSink<W> {
    writer: W,
    faults: u64,
}

impl<W> StdSink<W> {
    ghost use Rattle.cp_io.specs.Standard.{writer_of, write_faults};

    /// A sink that appends to what the writer holds.
    pub fn new(writer: W) -> StdSink<W>
        ensures writer { writer_of result ≡ writer }
        ensures faults { write_faults result ≡ 0 }
    {
        StdSink { writer, faults: 0 }
    }
}

impl<W: Write> Sink for StdSink<W> {
    ghost use Rattle.cp_io.specs.Standard.{writer_of, write_faults};

    ghost held = { λ _. None };

    ghost faults = { write_faults };

    // `writer`: a writer that tells std its bytes gains those that were taken.
    fn write(&mut self, piece: &[u8]) -> Took
        requires { 0 < length piece.now }
        ensures this { WriteDid None None result piece.now }
        ensures later { write_faults self.old ≤ write_faults self.new }
        ensures failed { result ≡ Took.Failed → Rose (write_faults self.old) (write_faults self.new) }
        ensures writer { WriteDid (W.contents (writer_of self.old)) (W.contents (writer_of self.new)) result piece.now }
    {
        for _ in 0..TRIES {
            match self.writer.write(piece) {
                Ok(0) => {
                    self.faults = self.faults.saturating_add(1);
                    return Took::Failed;
                }
                Ok(n) => return Took::Count(n),
                Err(error) => {
                    self.faults = self.faults.saturating_add(1);
                    if error.kind() != ErrorKind::Interrupted {
                        return Took::Failed;
                    }
                }
            }
        }
        Took::Failed
    }
}
