// A longer script whose reads and writes fail, each in turn, and which is cut.
use super::{ran, sink, source};
use std::alloc::Global;

// The script of the stored run: blocks are written, copied to memory and summed up by a loaded program.
const BEFORE_DATA: &str = "nvmecp 1 block=512 depth=16 budget=100000\n\
    nvm 1 blocks=64\n\
    mem 1 bytes=65536\n\
    phase\n\
    host 1\n\
    send 1 nvmwrite ns=1 lba=0 data=";

const BEHIND_DATA: &str = "\n\
    take 1\n\
    send 2 memcopy ns=1 at=0 from=n1:0:4\n\
    send 3 setcreate ranges=1:0:2048,1:4096:512\n\
    send 4 load slot=0 size=104 at=0 data=18040000000000000000000001000000b700000000000000150105000000000071450000000000000f500000000000000704000001000000\n\
    send 5 load slot=0 size=104 at=56 data=17010000010000000500faff00000000180400000000000000000000020000007b040000000000009500000000000000\n\
    take 2\n\
    take 3\n\
    take 4\n\
    take 5\n\
    send 6 activate slot=0\n\
    take 6\n\
    send 7 execute slot=0 set=1 p1=2048 p2=0 budget=20000\n\
    take 7\n\
    send 8 nvmcopy ns=1 lba=8 from=m1:4096:512\n\
    take 8\n\
    send 9 nvmread ns=1 lba=8 count=1\n\
    show mem 1 at=4096 len=8\n";

pub fn stored_script(alloc: Global) -> Option<String> {
    let data = "01".repeat(alloc, 2048).ok()?;
    format!(in alloc; "{BEFORE_DATA}{data}{BEHIND_DATA}").ok()
}

// The status of a run of the stored script over a source of 64 bytes a read and a sink of which these calls fail, and what
// the sink holds.
fn failing(alloc: Global, reads: &[u32], writes: &[u32]) -> Option<(u8, Vec<u8>)> {
    let script = stored_script(alloc)?;
    let mut source = source(alloc, script.as_bytes(), 64, reads)?;
    let mut sink = sink(alloc, writes)?;
    let status = ran(alloc, "step 4 0", &mut source, &mut sink)?;
    Some((status, Vec::from_slice(alloc, sink.held()).ok()?))
}

// How many bytes the first lines of a text have.
fn front(text: &[u8], lines: usize) -> usize {
    let mut seen = 0;
    for (place, byte) in text.iter().enumerate() {
        if seen == lines {
            return place;
        }
        if *byte == b'\n' {
            seen = seen.saturating_add(1);
        }
    }
    text.len()
}

// Whether a write that fails, of this number from 1, leaves the lines before it and no more.
fn is_cut(alloc: Global, whole: &[u8], write: u32) -> Option<bool> {
    let (status, held) = failing(alloc, &[], &[write])?;
    let end = front(whole, write.saturating_sub(1) as usize);
    Some(status == 4 && held.len() == end && whole.starts_with(held.as_slice()))
}

#[test]
fn each_write_fails_in_turn(rt: HostRuntime) {
    let alloc = rt.alloc();
    let whole = failing(alloc, &[], &[]);
    assert_eq!(rt; whole.as_ref().map(|(status, _)| *status), Some(0));
    let whole = whole.map_or(Vec::new(alloc), |(_, text)| text);
    for write in 1..11 {
        assert_eq!(rt;
            is_cut(alloc, whole.as_slice(), write),
            Some(true),
            "write {write}"
        );
    }
    assert_eq!(rt; is_cut(alloc, whole.as_slice(), 11), Some(false));
}

// How many reads of 64 bytes the stored script takes, and one that finds its end.
fn reads(alloc: Global) -> Option<u32> {
    let script = stored_script(alloc)?;
    u32::try_from(script.len() / 64).ok()?.checked_add(2)
}

#[test]
fn each_read_fails_in_turn(rt: HostRuntime) {
    let alloc = rt.alloc();
    let count = reads(alloc);
    assert!(rt; count.is_some_and(|count| count > 60));
    for read in 1..count.unwrap_or(0).saturating_add(1) {
        let failed = failing(alloc, &[read], &[]).map(|(status, held)| (status, held.len()));
        assert_eq!(rt; failed, Some((3, 0)), "read {read}");
    }
}

// What two runs on one source give, whose first read fails: the statuses, and whether the second wrote what a run without
// a fault writes.
fn tried_again(alloc: Global) -> Option<(u8, u8, bool)> {
    let script = stored_script(alloc)?;
    let mut source = source(alloc, script.as_bytes(), 64, &[1])?;
    let mut sink = sink(alloc, &[])?;
    let first = ran(alloc, "step 4 0", &mut source, &mut sink)?;
    let second = ran(alloc, "step 4 0", &mut source, &mut sink)?;
    let (_, whole) = failing(alloc, &[], &[])?;
    Some((first, second, sink.held() == whole.as_slice()))
}

#[test]
fn a_failed_read_may_be_tried_again(rt: HostRuntime) {
    assert_eq!(rt; tried_again(rt.alloc()), Some((3, 0, true)));
}

// What a run gives of the stored script up to so many bytes behind its first lines: the status, and the text where it is
// a line that tells a fault.
fn cut(alloc: Global, lines: usize, more: usize) -> Option<(u8, Vec<u8>)> {
    let script = stored_script(alloc)?;
    let text = script.as_bytes();
    let end = front(text, lines).saturating_add(more).min(text.len());
    let mut source = source(alloc, &text[..end], 4096, &[])?;
    let mut sink = sink(alloc, &[])?;
    let status = ran(alloc, "step 4 0", &mut source, &mut sink)?;
    let told = if status == 2 { sink.held() } else { &[] };
    Some((status, Vec::from_slice(alloc, told).ok()?))
}

// Whether a run of the stored script, cut so, tells this line.
fn tells(alloc: Global, lines: usize, more: usize, line: &str) -> Option<bool> {
    let (status, told) = cut(alloc, lines, more)?;
    Some(status == 2 && told.as_slice() == line.as_bytes())
}

// Whether a cut inside each of some lines is told as a fault of that line.
fn tells_each_line(alloc: Global) -> Option<bool> {
    for lines in 0..23usize {
        let line = format!(in alloc; "line {}: Word\n", lines.saturating_add(1)).ok()?;
        if !tells(alloc, lines, 3, line.as_str())? {
            return Some(false);
        }
    }
    Some(true)
}

#[test]
fn cut_scripts_are_told(rt: HostRuntime) {
    let alloc = rt.alloc();
    assert_eq!(rt; tells(alloc, 0, 0, "line 1: Order\n"), Some(true));
    assert_eq!(rt; tells(alloc, 4, 0, "line 4: NoHosts\n"), Some(true));
    assert_eq!(rt; tells_each_line(alloc), Some(true));
    for lines in [1, 2, 3, 5, 6, 7, 22, 23] {
        assert_eq!(rt;
            cut(alloc, lines, 0).map(|(status, _)| status),
            Some(0),
            "{lines} lines"
        );
    }
}
