// Worked cases: failures in mid-stream, what does not fit, and the adapters over std.
ghost use Rattle.std.specs.Prelude.{Some};

use cp_base::Bytes;
use cp_io::{
    Got, MemSink, MemSource, ReadEnd, Sink, Source, StdSink, StdSource, Took, read_all, write_all,
};
use std::alloc::{AllocError, Global};
use std::io;
use std::io::{ErrorKind, Read, Write};
use std::process::Abort;
use std::test::Fail;

// A source in memory, and no memory as the one error.
fn source(alloc: Global, bytes: &[u8], most: u32, fails: &[u32]) -> Result<MemSource, AllocError> {
    let fails = fails.to_vec(alloc)?;
    match Bytes::from_slice(alloc, bytes) {
        Ok(bytes) => Ok(MemSource::new(bytes, most.max(1), fails)),
        Err(_) => Err(AllocError),
    }
}

// Reads once, and compares the answer and the bytes that came.
fn expect_read<S: Source>(rt: &impl Abort, source: &mut S, answer: Got, bytes: &[u8]) {
    let mut into = [0; 8];
    let got = source.read(&mut into);
    assert_eq!(rt; got, answer);
    if let Got::Count(n) = got {
        assert_eq!(rt; &into[..n], bytes);
    }
}

fn expect_write<K: Sink>(rt: &impl Abort, sink: &mut K, piece: &[u8], answer: Took) {
    assert!(rt; !piece.is_empty());
    let took = sink.write(piece);
    assert_eq!(rt; took, answer);
}

// Reads all, and compares the bytes, or the cause of a refusal.
fn expect_all<S: Source>(
    rt: &impl Abort,
    alloc: Global,
    source: &mut S,
    limit: u64,
    answer: Result<&[u8], ReadEnd>,
) {
    match read_all(alloc, source, limit) {
        Ok(read) => assert_eq!(rt; Ok(read.as_slice()), answer),
        Err(end) => assert_eq!(rt; Err(end), answer),
    }
}

#[test]
fn a_source_fails_at_its_listed_calls(rt: HostRuntime) -> Result<(), Fail> {
    let mut source = source(rt.alloc(), b"abcd", 3, &[1, 3])?;
    expect_read(&rt, &mut source, Got::Failed, b"");
    expect_read(&rt, &mut source, Got::Count(3), b"abc");
    expect_read(&rt, &mut source, Got::Failed, b"");
    expect_read(&rt, &mut source, Got::Count(1), b"d");
    expect_read(&rt, &mut source, Got::End, b"");
    Ok(())
}

#[test]
fn a_sink_fails_at_its_second_write(rt: HostRuntime) -> Result<(), Fail> {
    let fails = [2].to_vec(rt.alloc())?;
    let mut sink = MemSink::new(rt.alloc(), fails)?;
    expect_write(&rt, &mut sink, b"ab", Took::Count(2));
    expect_write(&rt, &mut sink, b"cd", Took::Failed);
    expect_write(&rt, &mut sink, b"ef", Took::Count(2));
    assert_eq!(rt; sink.held(), b"abef".as_slice());
    Ok(())
}

#[test]
fn a_sink_takes_only_what_fits(rt: HostRuntime) -> Result<(), Fail> {
    let alloc = rt.alloc();
    let mut sink = MemSink::new(alloc, Vec::new(alloc))?;
    let mut piece = Vec::new(alloc);
    piece.resize(1_048_570, 7)?;
    expect_write(&rt, &mut sink, &piece, Took::Count(1_048_570));
    expect_write(&rt, &mut sink, &piece, Took::Count(6));
    expect_write(&rt, &mut sink, &piece, Took::Failed);
    assert_eq!(rt; sink.held().len(), 1_048_576);
    Ok(())
}

#[test]
fn all_is_read_up_to_the_limit(rt: HostRuntime) -> Result<(), Fail> {
    let alloc = rt.alloc();
    for (most, limit, is_enough) in [
        (9, 4, true),
        (9, 3, false),
        (1, 4, true),
        (1, 3, false),
        (9, u64::MAX, true),
    ] {
        let mut source = source(alloc, b"abcd", most, &[])?;
        let answer = if is_enough {
            Ok(b"abcd".as_slice())
        } else {
            Err(ReadEnd::TooLong)
        };
        expect_all(&rt, alloc, &mut source, limit, answer);
    }
    Ok(())
}

#[test]
fn nothing_is_read_up_to_the_limit(rt: HostRuntime) -> Result<(), Fail> {
    let alloc = rt.alloc();
    expect_all(&rt, alloc, &mut source(alloc, b"", 1, &[])?, 0, Ok(b""));
    expect_all(
        &rt,
        alloc,
        &mut source(alloc, b"a", 1, &[])?,
        0,
        Err(ReadEnd::TooLong),
    );
    Ok(())
}

#[test]
fn a_failed_read_ends_the_reading(rt: HostRuntime) -> Result<(), Fail> {
    let alloc = rt.alloc();
    for fails in [1, 3, 5] {
        let mut source = source(alloc, b"abcd", 1, &[fails])?;
        expect_all(&rt, alloc, &mut source, 4, Err(ReadEnd::Fault));
    }
    Ok(())
}

#[test]
fn many_pieces_are_joined(rt: HostRuntime) -> Result<(), Fail> {
    let alloc = rt.alloc();
    let mut bytes = Vec::new(alloc);
    for i in 0..200_000u32 {
        bytes.push((i % 251) as u8)?;
    }
    for most in [1000, 100_000] {
        let mut source = source(alloc, &bytes, most, &[])?;
        expect_all(&rt, alloc, &mut source, 200_000, Ok(&bytes));
    }
    Ok(())
}

// Takes one byte at a time, and no more than it may.
#[derive(Drop)]
struct Narrow {
    held: Vec<u8>,
    most: usize,
    faults: u64,
}

impl Sink for Narrow {
    ghost held = { λ s. Some s.held.items };

    ghost faults = { λ s. s.faults };

    fn write(&mut self, piece: &[u8]) -> Took {
        if self.held.len() < self.most && self.held.push(piece[0]).is_ok() {
            return Took::Count(1);
        }
        self.faults = self.faults.saturating_add(1);
        Took::Failed
    }
}

fn expect_offered(rt: &impl Abort, alloc: Global, most: usize, held: &[u8], is_whole: bool) {
    let mut sink = Narrow {
        held: Vec::new(alloc),
        most,
        faults: 0,
    };
    assert_eq!(rt; write_all(&mut sink, b"abcde").is_ok(), is_whole);
    assert_eq!(rt; sink.held.as_slice(), held);
}

#[test]
fn a_text_is_offered_until_all_is_taken(rt: HostRuntime) {
    expect_offered(&rt, rt.alloc(), 5, b"abcde", true);
    expect_offered(&rt, rt.alloc(), 4, b"abcd", false);
    expect_offered(&rt, rt.alloc(), 0, b"", false);
}

// Interrupts thousands of times, gives or takes one byte, fails, and then is at its end.
#[derive(Drop)]
struct Stumbling {
    interruptions: u32,
    turn: u8,
}

impl Stumbling {
    fn new() -> Self {
        Stumbling {
            interruptions: 5_000,
            turn: 0,
        }
    }

    fn next(&mut self) -> io::Result<usize> {
        if let Some(left) = self.interruptions.checked_sub(1) {
            self.interruptions = left;
            return Err(ErrorKind::Interrupted.into());
        }
        self.turn = self.turn.saturating_add(1);
        match self.turn {
            1 => Ok(1),
            2 => Err(ErrorKind::Other.into()),
            _ => Ok(0),
        }
    }
}

impl Read for Stumbling {
    fn read(&mut self, buf: &mut [u8]) -> io::Result<usize> {
        let count = self.next()?;
        Ok(count.min(buf.len()))
    }
}

impl Write for Stumbling {
    fn write(&mut self, buf: &[u8]) -> io::Result<usize> {
        let count = self.next()?;
        Ok(count.min(buf.len()))
    }

    fn flush(&mut self) -> io::Result<()> {
        Ok(())
    }
}

#[test]
fn interruptions_are_tried_again(rt: HostRuntime) {
    let mut source = StdSource::new(Stumbling::new());
    expect_read(&rt, &mut source, Got::Count(1), &[0]);
    expect_read(&rt, &mut source, Got::Failed, b"");
    expect_read(&rt, &mut source, Got::End, b"");

    let mut sink = StdSink::new(Stumbling::new());
    expect_write(&rt, &mut sink, b"abcd", Took::Count(1));
    expect_write(&rt, &mut sink, b"abcd", Took::Failed);
    expect_write(&rt, &mut sink, b"abcd", Took::Failed);
}

#[test]
fn bytes_pass_through_the_std_adapters(rt: HostRuntime) {
    let mut source = StdSource::new(b"hello".as_slice());
    expect_all(&rt, rt.alloc(), &mut source, 5, Ok(b"hello"));
    let mut written = Vec::new(rt.alloc());
    assert_eq!(rt;
        write_all(&mut StdSink::new(&mut written), b"hello"),
        Ok(())
    );
    assert_eq!(rt; written.as_slice(), b"hello".as_slice());
}

#[test]
fn std_streams_are_read_and_written(rt: HostRuntime) {
    expect_read(&rt, &mut StdSource::new(rt.stdin()), Got::End, b"");
    let mut output = StdSink::new(rt.stdout());
    assert_eq!(rt;
        write_all(&mut output, b"written through the standard sink\n"),
        Ok(())
    );
}
