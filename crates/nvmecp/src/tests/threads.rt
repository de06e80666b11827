// Runs by threads: what no clause says, and that each printed text is that of a legal history.
use super::hostile::stored_script;
use super::{FILL_AND_ABORT, TWO_FILLS, WRITE, ran, sink, source, words_of};
use crate::serve::serve;
use cp_io::{MemSink, MemSource};
use std::alloc::Global;
use std::sync::Wait;
use std::sync::atomic::{AtomicU64, Ordering};
use std::test::Fail;
use std::thread::Threads;
use workers::{Gate, NoGate};

// The status of a run of these words by threads.
fn ran_by_threads<R: Threads + Wait + Sync, G: Gate>(
    rt: &R,
    alloc: Global,
    words: &str,
    source: &mut MemSource,
    sink: &mut MemSink,
    gate: &G,
) -> Option<u8> {
    let words = words_of(alloc, words)?;
    Some(serve(rt, alloc, words.as_slice(), source, sink, gate))
}

// The status of a run of these words on an input by threads, and the sink at its end.
fn served<R: Threads + Wait + Sync, G: Gate>(
    rt: &R,
    alloc: Global,
    words: &str,
    input: &str,
    gate: &G,
) -> Option<(u8, MemSink)> {
    let mut source = source(alloc, input.as_bytes(), 64, &[])?;
    let mut sink = sink(alloc, &[])?;
    let status = ran_by_threads(rt, alloc, words, &mut source, &mut sink, gate)?;
    Some((status, sink))
}

// Whether a text is that of a legal history of a script.
pub(super) fn is_legal(alloc: Global, script: &str, text: &[u8]) -> Option<bool> {
    let mut input = Vec::from_slice(alloc, script.as_bytes()).ok()?;
    input.push(b'\n').ok()?;
    input.extend_from_slice(text).ok()?;
    let mut source = source(alloc, input.as_slice(), 4096, &[])?;
    let mut sink = sink(alloc, &[])?;
    let status = ran(alloc, "check", &mut source, &mut sink)?;
    Some(status == 0 && sink.held() == "legal\n".as_bytes())
}

// Whether a run of these words by threads is done, and prints so many lines, which are those of a legal history.
fn is_served<R: Threads + Wait + Sync>(
    rt: &R,
    alloc: Global,
    words: &str,
    script: &str,
    lines: usize,
) -> Option<bool> {
    let (status, sink) = served(rt, alloc, words, script, &NoGate)?;
    let text = sink.held();
    let count = text.iter().filter(|byte| **byte == b'\n').count();
    Some(status == 0 && count == lines && is_legal(alloc, script, text)?)
}

// A script in which each of 16 hosts fills 16 bytes 16 times, with a value of its own.
fn many_fills(alloc: Global) -> Option<String> {
    let mut script = String::from_str(
        alloc,
        "nvmecp 1 block=512 depth=16 budget=1\nmem 1 bytes=16\nphase\n",
    )
    .ok()?;
    for host in 1..17 {
        let part = format!(in alloc; "host {host}\n").ok()?;
        script.push_str(part.as_str()).ok()?;
        for cid in 0..16 {
            let line = format!(in alloc;
                "send {cid} memfill ns=1 at=0 len=16 value={host}\n"
            ).ok()?;
            script.push_str(line.as_str()).ok()?;
        }
    }
    script.push_str("show mem 1 at=0 len=16\n").ok()?;
    Some(script)
}

// A script in which each of eight hosts fills a byte and withdraws that, five times.
fn many_aborts(alloc: Global) -> Option<String> {
    let mut script = String::from_str(
        alloc,
        "nvmecp 1 block=512 depth=16 budget=1\nmem 1 bytes=16\nphase\n",
    )
    .ok()?;
    for host in 1..9 {
        let part = format!(in alloc; "host {host}\n").ok()?;
        script.push_str(part.as_str()).ok()?;
        for turn in 0..5 {
            let lines = format!(in alloc;
                "send 1 memfill ns=1 at={host} len=2 value={turn}\nsend 2 abort cid=1\ntake 1\ntake 2\n"
            ).ok()?;
            script.push_str(lines.as_str()).ok()?;
        }
    }
    script.push_str("show mem 1 at=0 len=16\n").ok()?;
    Some(script)
}

const ONE_WRITE: &str = "#1 h1 n1 c1 memwrite Ok r=0 d=\nshow mem 1 at=0 len=4 d=01020000\n";

#[test]
fn one_worker_writes(rt: HostRuntime) -> Result<(), Fail> {
    let Some((status, sink)) = served(&rt, rt.alloc(), "serve 1", WRITE, &NoGate) else {
        return Err("no memory".into());
    };
    assert_eq!(rt; status, 0);
    assert!(rt; sink.held() == ONE_WRITE.as_bytes());
    Ok(())
}

#[test]
fn histories_are_legal(rt: HostRuntime) {
    let alloc = rt.alloc();
    assert_eq!(rt; is_served(&rt, alloc, "serve 2", TWO_FILLS, 3), Some(true));
    assert_eq!(rt;
        is_served(&rt, alloc, "serve 2", FILL_AND_ABORT, 3),
        Some(true)
    );
    for (words, script, lines) in [
        ("serve 4", stored_script(alloc), 10),
        ("serve 16", many_fills(alloc), 257),
        ("serve 4", many_aborts(alloc), 81),
    ] {
        let is_legal = script.and_then(|script| is_served(
            &rt,
            alloc,
            words,
            script.as_str(),
            lines,
        ));
        assert_eq!(rt; is_legal, Some(true));
    }
}

// A gate that holds the first job until three were claimed. It keeps the ordinals of the first two.
#[derive(Drop)]
struct HoldFirst {
    calls: AtomicU64,
    first: AtomicU64,
    second: AtomicU64,
    in_time: AtomicU64,
}

impl HoldFirst {
    fn new() -> HoldFirst {
        HoldFirst {
            calls: AtomicU64::new(0),
            first: AtomicU64::new(0),
            second: AtomicU64::new(0),
            in_time: AtomicU64::new(0),
        }
    }
}

impl Gate for HoldFirst {
    fn opened(&self, _host: u32, ordinal: u32) {
        let call = self.calls.fetch_add(1, Ordering::SeqCst);
        if call == 1 {
            self.second.store(u64::from(ordinal), Ordering::SeqCst);
        }
        if call > 0 {
            return;
        }
        self.first.store(u64::from(ordinal), Ordering::SeqCst);
        for _ in 0..100_000_000 {
            if self.calls.load(Ordering::SeqCst) >= 3 {
                self.in_time.store(1, Ordering::SeqCst);
                return;
            }
        }
    }
}

const THREE_FILLS: &str = "nvmecp 1 block=512 depth=16 budget=1000\nmem 1 bytes=16\nphase\nhost 1\n\
    send 1 memfill ns=1 at=0 len=4 value=1\nsend 2 memfill ns=1 at=4 len=4 value=1\n\
    send 3 memfill ns=1 at=8 len=4 value=1\n";

// Whether a line of a history is that of the command of this ordinal, a digit, of a host of one digit.
fn is_of(line: &[u8], ordinal: u64) -> bool {
    match line.get(7) {
        Some(byte) => u64::from(*byte) == ordinal.wrapping_add(u64::from(b'0')),
        None => false,
    }
}

// The line, from 0, that tells the command of this ordinal of host 1.
fn line_of(text: &[u8], ordinal: u64) -> Option<usize> {
    text.split(|byte| *byte == b'\n')
        .position(|line| is_of(line, ordinal))
}

#[test]
fn two_jobs_open(rt: HostRuntime) -> Result<(), Fail> {
    let gate = HoldFirst::new();
    let Some((status, sink)) = served(&rt, rt.alloc(), "serve 1", THREE_FILLS, &gate) else {
        return Err("no memory".into());
    };
    assert_eq!(rt; status, 0);
    assert_eq!(rt; gate.calls.load(Ordering::SeqCst), 3);
    assert_eq!(rt; gate.in_time.load(Ordering::SeqCst), 1);
    let first = line_of(sink.held(), gate.first.load(Ordering::SeqCst));
    let second = line_of(sink.held(), gate.second.load(Ordering::SeqCst));
    assert!(rt; first.is_some() && second.is_some() && second < first);
    Ok(())
}

// The status of a run of these words on the script of one write by threads, over a source and a sink of which these calls
// fail, and how many bytes the sink holds.
fn failing<R: Threads + Wait + Sync>(
    rt: &R,
    alloc: Global,
    words: &str,
    reads: &[u32],
    writes: &[u32],
) -> Option<(u8, usize)> {
    let mut source = source(alloc, WRITE.as_bytes(), 64, reads)?;
    let mut sink = sink(alloc, writes)?;
    let status = ran_by_threads(rt, alloc, words, &mut source, &mut sink, &NoGate)?;
    Some((status, sink.held().len()))
}

#[test]
fn statuses_are_told(rt: HostRuntime) {
    let none: &[u32] = &[];
    for (words, reads, writes, status, held) in [
        ("serve 0", none, none, 1, 0),
        ("serve 17", none, none, 1, 0),
        ("serve", none, none, 1, 0),
        ("serve 1 0", none, none, 1, 0),
        ("step 1 0", none, none, 1, 0),
        ("serve 1", [1].as_slice(), none, 3, 0),
        ("serve 1", none, [1].as_slice(), 4, 0),
        ("serve 1", none, [2].as_slice(), 4, 31),
    ] {
        assert_eq!(rt;
            failing(&rt, rt.alloc(), words, reads, writes),
            Some((status, held)),
            "{words}"
        );
    }
}

#[test]
fn faulty_lines_are_told(rt: HostRuntime) -> Result<(), Fail> {
    for (script, line) in [
        ("x\n", "line 1: Word\n"),
        (
            "nvmecp 1 block=512 depth=16 budget=1000\nphase\nhost 1\ntake 1\n",
            "line 4: NotOutstanding\n",
        ),
    ] {
        let Some((status, sink)) = served(&rt, rt.alloc(), "serve 1", script, &NoGate) else {
            return Err("no memory".into());
        };
        assert_eq!(rt; status, 2);
        assert!(rt; sink.held() == line.as_bytes());
    }
    Ok(())
}
