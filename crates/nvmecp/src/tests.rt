// Worked runs: what no clause says, and that a run succeeds where there is memory.
ghost use Rattle.std.specs.Prelude.{Some};

mod hostile;
mod programs;
mod threads;
mod traces;

use crate::run::run;
use cp_base::Bytes;
use cp_io::{MemSink, MemSource, Sink, Took};
use std::alloc::Global;

const WRITE: &str =
    "nvmecp 1 block=512 depth=16 budget=1000\nmem 1 bytes=16\nphase\nhost 1\nsend 1 memwrite ns=1 at=0 data=0102\nshow mem 1 at=0 len=4\n";

// The words of a line, one space between two.
fn words_of(alloc: Global, line: &str) -> Option<Vec<String>> {
    let mut words = Vec::new(alloc);
    for word in line.split(' ') {
        words.push(String::from_str(alloc, word).ok()?).ok()?;
    }
    Some(words)
}

// A source in memory whose calls of these numbers fail.
fn source(alloc: Global, input: &[u8], most: u32, fails: &[u32]) -> Option<MemSource> {
    let bytes = Bytes::from_slice(alloc, input).ok()?;
    let fails = Vec::from_slice(alloc, fails).ok()?;
    if most == 0 {
        return None;
    }
    Some(MemSource::new(bytes, most, fails))
}

// A sink in memory whose calls of these numbers fail.
fn sink(alloc: Global, fails: &[u32]) -> Option<MemSink> {
    MemSink::new(alloc, Vec::from_slice(alloc, fails).ok()?).ok()
}

// The status of a run, and whether the sink holds this text at its end.
fn ran(alloc: Global, words: &str, source: &mut MemSource, sink: &mut MemSink) -> Option<u8> {
    Some(run(alloc, words_of(alloc, words)?.as_slice(), source, sink))
}

// The status of a run of these words on an input, and whether exactly this text is held.
fn given(alloc: Global, words: &str, input: &str, output: &str) -> Option<(u8, bool)> {
    let mut source = source(alloc, input.as_bytes(), 64, &[])?;
    let mut sink = sink(alloc, &[])?;
    let status = ran(alloc, words, &mut source, &mut sink)?;
    Some((status, sink.held() == output.as_bytes()))
}

// What an input gives: the status, and the text that is written.
const CASES: [(&str, u8, &str); 37] = [
    (
        WRITE,
        0,
        "#1 h1 n1 c1 memwrite Ok r=0 d=\nshow mem 1 at=0 len=4 d=01020000\n",
    ),
    (
        "nvmecp 1 block=512 depth=16 budget=1000\nmem 1 bytes=16\nphase\nhost 1\nsend 1 memwrite ns=1 at=16 data=01\nshow mem 1 at=0 len=4\n",
        0,
        "#1 h1 n1 c1 memwrite OutOfRange r=0 d=\nshow mem 1 at=0 len=4 d=00000000\n",
    ),
    (
        "nvmecp 1 block=512 depth=16 budget=1000\nmem 1 bytes=16\nphase\nhost 1\nsend 1 memwrite ns=1 at=15 data=01\nshow mem 1 at=12 len=4\n",
        0,
        "#1 h1 n1 c1 memwrite Ok r=0 d=\nshow mem 1 at=12 len=4 d=00000001\n",
    ),
    (
        "nvmecp 1 block=512 depth=16 budget=1000\nmem 1 bytes=16\nphase\nhost 1\nsend 1 memwrite ns=1 at=18446744073709551615 data=01\nshow mem 1 at=0 len=4\n",
        0,
        "#1 h1 n1 c1 memwrite OutOfRange r=0 d=\nshow mem 1 at=0 len=4 d=00000000\n",
    ),
    (
        "nvmecp 1 block=512 depth=16 budget=1000\nmem 1 bytes=16\nphase\nhost 1\nsend 1 memwrite ns=2 at=0 data=01\nshow mem 1 at=0 len=4\n",
        0,
        "#1 h1 n1 c1 memwrite BadNamespace r=0 d=\nshow mem 1 at=0 len=4 d=00000000\n",
    ),
    // Two hosts in two phases: the second reads what both wrote.
    (
        "nvmecp 1 block=512 depth=16 budget=1000\nmem 1 bytes=16\nphase\nhost 1\nsend 1 memwrite ns=1 at=0 data=01\nhost 2\nsend 1 memwrite ns=1 at=1 data=02\nphase\nhost 2\nsend 1 memread ns=1 at=0 len=2\n",
        0,
        "#1 h1 n1 c1 memwrite Ok r=0 d=\n#2 h2 n1 c1 memwrite Ok r=0 d=\n#3 h2 n2 c1 memread Ok r=0 d=0102\n",
    ),
    // A host of a higher number acts in the earlier phase.
    (
        "nvmecp 1 block=512 depth=16 budget=1000\nmem 1 bytes=16\nphase\nhost 2\nsend 1 memwrite ns=1 at=0 data=07\nphase\nhost 1\nsend 1 memread ns=1 at=0 len=1\n",
        0,
        "#1 h2 n1 c1 memwrite Ok r=0 d=\n#2 h1 n1 c1 memread Ok r=0 d=07\n",
    ),
    // No host acts.
    ("nvmecp 1 block=512 depth=16 budget=1000\n", 0, ""),
    (
        "nvmecp 1 block=512 depth=16 budget=1000\nmem 1 bytes=16\nshow mem 1 at=12 len=4\n",
        0,
        "show mem 1 at=12 len=4 d=00000000\n",
    ),
    // The bounds of a transfer.
    (
        "nvmecp 1 block=512 depth=16 budget=1000\nmem 1 bytes=16384\nphase\nhost 1\nsend 1 memread ns=1 at=0 len=0\nsend 2 memread ns=1 at=0 len=8193\nsend 3 memread ns=1 at=16383 len=1\nsend 4 memread ns=1 at=16383 len=2\n",
        0,
        "#1 h1 n1 c1 memread BadLength r=0 d=\n#2 h1 n2 c2 memread TooLong r=0 d=\n#3 h1 n3 c3 memread Ok r=0 d=00\n#4 h1 n4 c4 memread OutOfRange r=0 d=\n",
    ),
    // An identifier is used again after its command was taken.
    (
        "nvmecp 1 block=512 depth=1 budget=1\nmem 1 bytes=16\nphase\nhost 1\nsend 1 memwrite ns=1 at=0 data=01\ntake 1\nsend 1 memwrite ns=1 at=0 data=02\nshow mem 1 at=0 len=1\n",
        0,
        "#1 h1 n1 c1 memwrite Ok r=0 d=\n#2 h1 n2 c1 memwrite Ok r=0 d=\nshow mem 1 at=0 len=1 d=02\n",
    ),
    // Lines that are faulty by themselves, by their place or by a limit.
    ("", 2, "line 1: Order\n"),
    (
        "nvmecp 1 block=513 depth=16 budget=1\n",
        2,
        "line 1: Limit\n",
    ),
    (
        "nvmecp 1 block=0512 depth=16 budget=1\n",
        2,
        "line 1: Number\n",
    ),
    (
        "nvmecp 2 block=512 depth=16 budget=1\n",
        2,
        "line 1: Field\n",
    ),
    (
        "nvmecp 1 block=512 depth=16 budget=1000\nmem 1 bytes=16",
        2,
        "line 2: Word\n",
    ),
    (
        "nvmecp 1 block=512 depth=16 budget=1000\n\n",
        2,
        "line 2: Word\n",
    ),
    (
        "nvmecp 1 block=512 depth=16 budget=1000\nmem 2 bytes=16\nmem 1 bytes=8\n",
        2,
        "line 3: Order\n",
    ),
    (
        "nvmecp 1 block=512 depth=16 budget=1000\nmem 1 bytes=16\nphase\nhost 1\nsend 1 memwrite ns=1 at=0 data=0A\nshow mem 1 at=0 len=4\n",
        2,
        "line 5: Hex\n",
    ),
    (
        "nvmecp 1 block=512 depth=16 budget=1000\nmem 1 bytes=16\nshow mem 1 at=13 len=4\n",
        2,
        "line 3: Limit\n",
    ),
    // Lines that break a rule of queues.
    (
        "nvmecp 1 block=512 depth=1 budget=1\nmem 1 bytes=16\nphase\nhost 1\nsend 1 memwrite ns=1 at=0 data=01\nsend 2 memwrite ns=1 at=0 data=01\n",
        2,
        "line 6: QueueFull\n",
    ),
    (
        "nvmecp 1 block=512 depth=2 budget=1\nmem 1 bytes=16\nphase\nhost 1\nsend 1 memread ns=1 at=0 len=1\nsend 2 memread ns=1 at=0 len=1\nsend 3 memread ns=1 at=0 len=1\n",
        2,
        "line 7: QueueFull\n",
    ),
    (
        "nvmecp 1 block=512 depth=2 budget=1\nmem 1 bytes=16\nphase\nhost 1\nsend 1 memread ns=1 at=0 len=1\nsend 1 memread ns=1 at=0 len=1\n",
        2,
        "line 6: CidBusy\n",
    ),
    (
        "nvmecp 1 block=512 depth=2 budget=1\nmem 1 bytes=16\nphase\nhost 1\ntake 5\n",
        2,
        "line 5: NotOutstanding\n",
    ),
    (
        "nvmecp 1 block=512 depth=2 budget=1\nmem 1 bytes=16\nphase\n",
        2,
        "line 3: NoHosts\n",
    ),
    // A line that is faulty by itself is told before an earlier one that breaks a rule of queues.
    (
        "nvmecp 1 block=512 depth=1 budget=1\nmem 1 bytes=16\nphase\nhost 1\nsend 1 memread ns=1 at=0 len=1\nsend 2 memread ns=1 at=0 len=1\ntake 1\ntake x\n",
        2,
        "line 8: Number\n",
    ),
    // Aborts that come after what they name was carried out, and that name nothing.
    (
        FILL_AND_ABORT,
        0,
        "#1 h1 n1 c1 memfill Ok r=0 d=\n#2 h1 n2 c2 abort Ok r=1 d=\nshow mem 1 at=0 len=4 d=01010101\n",
    ),
    (
        "nvmecp 1 block=512 depth=1 budget=1\nmem 1 bytes=16\nphase\nhost 1\nsend 1 abort cid=1\n",
        0,
        "#1 h1 n1 c1 abort Ok r=1 d=\n",
    ),
    (
        "nvmecp 1 block=512 depth=1 budget=1\nmem 1 bytes=16\nphase\nhost 1\nsend 1 abort cid=1:2\n",
        2,
        "line 5: Number\n",
    ),
    (
        "nvmecp 1 block=512 depth=1 budget=1\nmem 1 bytes=16\nphase\nhost 1\nsend 1 abort cid=65536\n",
        2,
        "line 5: Limit\n",
    ),
    // Sets take the least free number.
    (
        "nvmecp 1 block=512 depth=16 budget=1000\nmem 1 bytes=16\nphase\nhost 1\nsend 1 setcreate ranges=1:0:8,1:4:8\ntake 1\nsend 2 setcreate ranges=1:0:8,1:8:8\ntake 2\nsend 3 setcreate ranges=1:8:9\ntake 3\nsend 4 setdelete set=2\ntake 4\nsend 5 setdelete set=1\ntake 5\nsend 6 setcreate ranges=1:15:1:r\ntake 6\n",
        0,
        "#1 h1 n1 c1 setcreate RangeOverlap r=0 d=\n#2 h1 n2 c2 setcreate Ok r=1 d=\n#3 h1 n3 c3 setcreate OutOfRange r=0 d=\n#4 h1 n4 c4 setdelete NoSuchSet r=0 d=\n#5 h1 n5 c5 setdelete Ok r=0 d=\n#6 h1 n6 c6 setcreate Ok r=1 d=\n",
    ),
    // A slot in each of its states.
    (
        "nvmecp 1 block=512 depth=16 budget=1000\nmem 1 bytes=16\nphase\nhost 1\nsend 1 activate slot=3\ntake 1\nsend 2 load slot=3 size=16 at=8 data=9500000000000000\ntake 2\nsend 3 load slot=3 size=16 at=8 data=9500000000000000\ntake 3\nsend 4 load slot=3 size=24 at=0 data=b700000007000000\ntake 4\nsend 5 activate slot=3\ntake 5\nsend 6 load slot=3 size=16 at=0 data=b700000007000000\ntake 6\nsend 7 load slot=3 size=16 at=0 data=b700000007000000\ntake 7\nsend 8 deactivate slot=3\ntake 8\nsend 9 activate slot=3\ntake 9\nsend 10 unload slot=3\ntake 10\nsend 11 activate slot=64\ntake 11\n",
        0,
        "#1 h1 n1 c1 activate SlotEmpty r=0 d=\n#2 h1 n2 c2 load Ok r=0 d=\n#3 h1 n3 c3 load PieceOverlap r=0 d=\n#4 h1 n4 c4 load SizeDiffers r=0 d=\n#5 h1 n5 c5 activate SlotPartial r=0 d=\n#6 h1 n6 c6 load Ok r=0 d=\n#7 h1 n7 c7 load SlotComplete r=0 d=\n#8 h1 n8 c8 deactivate SlotInactive r=0 d=\n#9 h1 n9 c9 activate Ok r=0 d=\n#10 h1 n10 c10 unload SlotActive r=0 d=\n#11 h1 n11 c11 activate NoSuchSlot r=0 d=\n",
    ),
    // Programs that are none.
    (
        "nvmecp 1 block=512 depth=16 budget=1000\nmem 1 bytes=16\nphase\nhost 1\nsend 1 load slot=0 size=8 at=0 data=ff00000000000000\ntake 1\nsend 2 activate slot=0\ntake 2\nsend 3 setcreate ranges=1:0:1\ntake 3\nsend 4 execute slot=0 set=1 p1=0 p2=0 budget=10\ntake 4\nsend 5 unload slot=0\ntake 5\nsend 6 load slot=0 size=16 at=0 data=b7000000010000001800000000000000\ntake 6\nsend 7 activate slot=0\ntake 7\nsend 8 execute slot=68 set=1 p1=0 p2=0 budget=10\ntake 8\n",
        0,
        "#1 h1 n1 c1 load Ok r=0 d=\n#2 h1 n2 c2 activate BadProgram r=0 d=\n#3 h1 n3 c3 setcreate Ok r=1 d=\n#4 h1 n4 c4 execute SlotInactive r=0 d=\n#5 h1 n5 c5 unload Ok r=0 d=\n#6 h1 n6 c6 load Ok r=0 d=\n#7 h1 n7 c7 activate BadProgram r=1 d=\n#8 h1 n8 c8 execute NoSuchSlot r=0 d=\n",
    ),
    // Programs of the device whose second range may only be read, and that have one range only.
    (
        "nvmecp 1 block=512 depth=16 budget=1000\nmem 1 bytes=32\nphase\nhost 1\nsend 1 memwrite ns=1 at=0 data=000102030405060708090a0b0c0d0e0f\ntake 1\nsend 2 setcreate ranges=1:0:16,1:16:16:r\ntake 2\nsend 3 execute slot=66 set=1 p1=0 p2=0 budget=16\ntake 3\nsend 4 execute slot=67 set=1 p1=3 p2=5 budget=16\nshow mem 1 at=16 len=16\n",
        0,
        "#1 h1 n1 c1 memwrite Ok r=0 d=\n#2 h1 n2 c2 setcreate Ok r=1 d=\n#3 h1 n3 c3 execute Ok r=1 d=\n#4 h1 n4 c4 execute BadAccess r=0 d=\nshow mem 1 at=16 len=16 d=00000000000000000000000000000000\n",
    ),
    (
        "nvmecp 1 block=512 depth=16 budget=1000\nmem 1 bytes=32\nphase\nhost 1\nsend 1 memwrite ns=1 at=0 data=000102030405060708090a0b0c0d0e0f\ntake 1\nsend 2 setcreate ranges=1:0:16\ntake 2\nsend 3 execute slot=66 set=1 p1=0 p2=0 budget=16\ntake 3\nsend 4 execute slot=67 set=1 p1=3 p2=5 budget=16\nshow mem 1 at=0 len=16\n",
        0,
        "#1 h1 n1 c1 memwrite Ok r=0 d=\n#2 h1 n2 c2 setcreate Ok r=1 d=\n#3 h1 n3 c3 execute Ok r=18446744073709551615 d=\n#4 h1 n4 c4 execute Ok r=0 d=\nshow mem 1 at=0 len=16 d=000102030405060708090a0b0c0d0e0f\n",
    ),
    // NVM namespaces stand before those of memory.
    (
        "nvmecp 1 block=512 depth=1 budget=1\nmem 1 bytes=16\nnvm 1 blocks=8\n",
        2,
        "line 3: Order\n",
    ),
    // Copies, of which each source is read from the old bytes.
    (
        "nvmecp 1 block=512 depth=16 budget=1000\nnvm 1 blocks=8\nmem 1 bytes=16\nphase\nhost 1\nsend 1 memwrite ns=1 at=0 data=000102030405\ntake 1\nsend 2 memcopy ns=1 at=4 from=m1:0:8\ntake 2\nsend 3 memcopy ns=1 at=8 from=m1:0:4,m1:2:4\ntake 3\nsend 4 nvmcopy ns=1 lba=0 from=m1:0:16\ntake 4\nsend 5 nvmzeroes ns=1 lba=7 count=2\nshow mem 1 at=8 len=8\n",
        0,
        "#1 h1 n1 c1 memwrite Ok r=0 d=\n#2 h1 n2 c2 memcopy CopyOverlap r=0 d=\n#3 h1 n3 c3 memcopy Ok r=0 d=\n#4 h1 n4 c4 nvmcopy BadLength r=0 d=\n#5 h1 n5 c5 nvmzeroes OutOfRange r=0 d=\nshow mem 1 at=8 len=8 d=0001020302030405\n",
    ),
];

#[test]
fn scripts_give_their_texts(rt: HostRuntime) {
    for (input, status, output) in CASES {
        assert_eq!(rt;
            given(rt.alloc(), "step 1 0", input, output),
            Some((status, true)),
            "{input}"
        );
    }
}

// The first four lines of a script with two queues for a host, each for one command, and a send to each.
const TWO_QUEUES: &str =
    "nvmecp 2 block=512 queues=2 depth=1 budget=1\nmem 1 bytes=16\nphase\nhost 1\nsend 1:7 memfill ns=1 at=0 len=1 value=1\nsend 2:7 memfill ns=1 at=1 len=1 value=2\n";

#[test]
fn hosts_have_several_queues(rt: HostRuntime) {
    let alloc = rt.alloc();
    let deep =
        "nvmecp 2 block=512 queues=2 depth=2 budget=1\nmem 1 bytes=16\nphase\nhost 1\nsend 1:7 memfill ns=1 at=0 len=1 value=1\nsend 2:7 memfill ns=1 at=1 len=1 value=2\n";
    for (front, more, status, output) in [
        (
            TWO_QUEUES,
            "show mem 1 at=0 len=4\n",
            0,
            "#1 h1 n1 c7 memfill Ok r=0 d=\n#2 h1 n2 c65543 memfill Ok r=0 d=\nshow mem 1 at=0 len=4 d=01020000\n",
        ),
        (
            TWO_QUEUES,
            "send 2:8 memfill ns=1 at=0 len=1 value=1\n",
            2,
            "line 7: QueueFull\n",
        ),
        (
            deep,
            "send 1:7 memfill ns=1 at=0 len=1 value=1\n",
            2,
            "line 7: CidBusy\n",
        ),
        (TWO_QUEUES, "send 3:7 unload slot=0\n", 2, "line 7: Limit\n"),
        (TWO_QUEUES, "send 7 unload slot=0\n", 2, "line 7: Field\n"),
        (TWO_QUEUES, "take 01:7\n", 2, "line 7: Number\n"),
        (TWO_QUEUES, "take 1:8\n", 2, "line 7: NotOutstanding\n"),
    ] {
        let input = format!(in alloc; "{front}{more}").ok();
        assert_eq!(rt;
            input.and_then(|input| given(alloc, "step 1 0", input.as_str(), output)),
            Some((status, true)),
            "{more}"
        );
    }
}

#[test]
fn scripts_are_upgraded(rt: HostRuntime) {
    let write =
        "nvmecp 2 block=512 queues=1 depth=16 budget=1000\nmem 1 bytes=16\nphase\nhost 1\nsend 1:1 memwrite ns=1 at=0 data=0102\nshow mem 1 at=0 len=4\n";
    let aborts =
        "nvmecp 2 block=512 queues=1 depth=16 budget=1000\nmem 1 bytes=16\nphase\nhost 1\nsend 1:1 memfill ns=1 at=0 len=4 value=1\nsend 1:2 abort cid=1:1\nshow mem 1 at=0 len=4\n";
    for (input, status, output) in [
        (WRITE, 0, write),
        (write, 0, write),
        (FILL_AND_ABORT, 0, aborts),
        (TWO_QUEUES, 0, TWO_QUEUES),
        (
            "nvmecp 1 block=512 depth=1 budget=1\nphase\nhost 1\ntake 5\n",
            2,
            "line 4: NotOutstanding\n",
        ),
        (
            "nvmecp 1 block=513 depth=1 budget=1\n",
            2,
            "line 1: Limit\n",
        ),
    ] {
        assert_eq!(rt;
            given(rt.alloc(), "upgrade", input, output),
            Some((status, true)),
            "{input}"
        );
    }
}

// Two hosts fill bytes of which they share two.
const TWO_FILLS: &str =
    "nvmecp 1 block=512 depth=16 budget=1000\nmem 1 bytes=16\nphase\nhost 1\nsend 1 memfill ns=1 at=0 len=4 value=1\nhost 2\nsend 1 memfill ns=1 at=2 len=4 value=2\nshow mem 1 at=0 len=8\n";

// A host fills and withdraws the fill.
const FILL_AND_ABORT: &str =
    "nvmecp 1 block=512 depth=16 budget=1000\nmem 1 bytes=16\nphase\nhost 1\nsend 1 memfill ns=1 at=0 len=4 value=1\nsend 2 abort cid=1\nshow mem 1 at=0 len=4\n";

#[test]
fn choices_select_the_history(rt: HostRuntime) {
    let first =
        "#1 h1 n1 c1 memfill Ok r=0 d=\n#2 h2 n1 c1 memfill Ok r=0 d=\nshow mem 1 at=0 len=8 d=0101020202020000\n";
    let second =
        "#1 h2 n1 c1 memfill Ok r=0 d=\n#2 h1 n1 c1 memfill Ok r=0 d=\nshow mem 1 at=0 len=8 d=0101010102020000\n";
    let in_time =
        "#1 h1 n2 c2 abort Ok r=0 d=\n#2 h1 n1 c1 memfill Aborted r=0 d=\nshow mem 1 at=0 len=4 d=00000000\n";
    for (words, input, output) in [
        ("step 2 0", TWO_FILLS, first),
        ("step 2 1", TWO_FILLS, second),
        ("step 1 1", TWO_FILLS, second),
        ("step 1 2", FILL_AND_ABORT, in_time),
    ] {
        assert_eq!(rt;
            given(rt.alloc(), words, input, output),
            Some((0, true)),
            "{words}"
        );
    }
}

#[test]
fn code_is_assembled_and_disassembled(rt: HostRuntime) {
    let wide = "lddw r1 4294967296\nldxb r0 r1 -1\njeq32 r0 -5 -2\nexit\n";
    let wide_code =
        "180100000000000000000000010000007110ffff000000001600fefffbffffff9500000000000000\n";
    for (words, input, status, output) in [
        (
            "asm",
            "mov64 r0 7\nexit\n",
            0,
            "b7000000070000009500000000000000\n",
        ),
        (
            "dis",
            "b7000000070000009500000000000000\n",
            0,
            "mov64 r0 7\nexit\n",
        ),
        ("asm", wide, 0, wide_code),
        ("dis", wide_code, 0, wide),
        ("asm", "mov64 r10 7\n", 2, "line 1: Asm\n"),
        ("asm", "mov64 r0 -0\n", 2, "line 1: Asm\n"),
        ("asm", "", 2, "line 1: Asm\n"),
        ("asm", "exit\nexit", 2, "line 2: Asm\n"),
        ("dis", "ff00000000000000\n", 2, "place 0: BadInsn\n"),
        (
            "dis",
            "b700000001000000ff00000000000000\n",
            2,
            "place 1: BadInsn\n",
        ),
        ("dis", "b7\n", 2, "place 0: BadInsn\n"),
        ("dis", "\n", 2, "place 0: BadInsn\n"),
        ("dis", "B7\n", 2, "line 1: Hex\n"),
        ("dis", "9500000000000000", 2, "line 1: Hex\n"),
        ("dis", "9500000000000000\n\n", 2, "line 1: Hex\n"),
        ("dis", "", 2, "line 1: Hex\n"),
    ] {
        assert_eq!(rt;
            given(rt.alloc(), words, input, output),
            Some((status, true)),
            "{words}: {input}"
        );
    }
}

// The status of a run of `dis` on so many instructions `exit`, and how many bytes the sink holds.
fn exits(alloc: Global, count: usize, writes: &[u32]) -> Option<(u8, usize)> {
    let code = "9500000000000000".repeat(alloc, count).ok()?;
    let input = format!(in alloc; "{code}\n").ok()?;
    let mut source = source(alloc, input.as_bytes(), 4096, &[])?;
    let mut sink = sink(alloc, writes)?;
    let status = ran(alloc, "dis", &mut source, &mut sink)?;
    Some((status, sink.held().len()))
}

#[test]
fn long_code_is_written_line_by_line(rt: HostRuntime) {
    let none: &[u32] = &[];
    for (count, writes, status, held) in [
        (8192, none, 0, 8192 * 5),
        // `line 1: Limit` and a newline.
        (8193, none, 2, 14),
        // Each `exit` and its newline is one call of the sink.
        (8192, [1001].as_slice(), 4, 5000),
    ] {
        assert_eq!(rt; exits(rt.alloc(), count, writes), Some((status, held)));
    }
}

// The status of a run on the lines that a function writes, and how many bytes the sink holds.
fn long(alloc: Global, lines: String) -> Option<(u8, usize)> {
    let mut source = source(alloc, lines.as_bytes(), 4096, &[])?;
    let mut sink = sink(alloc, &[])?;
    let status = ran(alloc, "step 1 0", &mut source, &mut sink)?;
    Some((status, sink.held().len()))
}

// A script of one host with a write of so many bytes.
fn write_of(alloc: Global, bytes: usize) -> Option<String> {
    let data = "01".repeat(alloc, bytes).ok()?;
    let head =
        "nvmecp 1 block=512 depth=16 budget=1000\nmem 1 bytes=16384\nphase\nhost 1\nsend 1 memwrite ns=1 at=0 data=";
    format!(in alloc; "{head}{data}\n").ok()
}

// A script of 16 hosts, each with a write.
fn sixteen_hosts(alloc: Global) -> Option<String> {
    let mut lines = String::from_str(
        alloc,
        "nvmecp 1 block=512 depth=1 budget=1\nmem 1 bytes=16\nphase\n",
    )
    .ok()?;
    for host in 1..17 {
        let part = format!(in alloc; "host {host}\nsend 1 memwrite ns=1 at=0 data=01\n").ok()?;
        lines.push_str(part.as_str()).ok()?;
    }
    Some(lines)
}

// A script that shows 8,192 bytes 63 times.
fn many_shows(alloc: Global) -> Option<String> {
    let shows = "show mem 1 at=0 len=8192\n".repeat(alloc, 63).ok()?;
    format!(in alloc; "nvmecp 1 block=512 depth=1 budget=1\nmem 1 bytes=8192\n{shows}").ok()
}

#[test]
fn long_scripts_are_carried_out(rt: HostRuntime) {
    let alloc = rt.alloc();
    for (script, status, held) in [
        // `#1 h1 n1 c1 memwrite Ok r=0 d=` and a newline; `TooLong` has five letters more.
        (write_of(alloc, 8192), 0, 31),
        (write_of(alloc, 8193), 0, 36),
        // Nine lines of one digit and seven of two in each of two places.
        (sixteen_hosts(alloc), 0, 16 * 31 + 2 * 7),
        // `show mem 1 at=0 len=8192 d=`, the bytes and a newline.
        (many_shows(alloc), 0, 63 * (28 + 16_384)),
    ] {
        assert_eq!(rt;
            script.and_then(|lines| long(alloc, lines)),
            Some((status, held))
        );
    }
}

// The status of a run of these words on the script of one write, and how many bytes the sink holds.
fn worded(alloc: Global, words: &str) -> Option<(u8, usize)> {
    let mut source = source(alloc, WRITE.as_bytes(), 64, &[])?;
    let mut sink = sink(alloc, &[])?;
    let status = ran(alloc, words, &mut source, &mut sink)?;
    Some((status, sink.held().len()))
}

#[test]
fn wrong_words_touch_nothing(rt: HostRuntime) {
    for words in [
        "step 0 0",
        "step 1",
        "step 1 00",
        "step -- 1 0",
        "step 1 18446744073709551616",
        "help",
        "",
        "step 17 0",
        "serve 1",
        "make 0 8193",
        "asm 1",
        "dis dis",
        "upgrade 1",
        "check 1",
        "-asm",
        "step 1 0 0",
        "--help",
    ] {
        assert_eq!(rt; worded(rt.alloc(), words), Some((1, 0)), "{words}");
    }
    assert_eq!(rt;
        worded(rt.alloc(), "step 1 18446744073709551615"),
        Some((0, 64))
    );
}

// The status of a run over a source and a sink of which these calls fail, and what the sink holds.
fn failing(alloc: Global, reads: &[u32], writes: &[u32]) -> Option<(u8, usize)> {
    let mut source = source(alloc, WRITE.as_bytes(), 64, reads)?;
    let mut sink = sink(alloc, writes)?;
    let status = ran(alloc, "step 1 0", &mut source, &mut sink)?;
    Some((status, sink.held().len()))
}

#[test]
fn faults_are_told(rt: HostRuntime) {
    let none: &[u32] = &[];
    for (reads, writes, status, held) in [
        ([1].as_slice(), none, 3, 0),
        ([2].as_slice(), none, 3, 0),
        (none, [1].as_slice(), 4, 0),
        (none, [2].as_slice(), 4, 31),
    ] {
        assert_eq!(rt; failing(rt.alloc(), reads, writes), Some((status, held)));
    }
}

// The status of a run on three writes and a show over a sink whose n-th call fails, and how many bytes
// the sink holds.
fn cut_at(alloc: Global, call: u32) -> Option<(u8, usize)> {
    let script =
        "nvmecp 1 block=512 depth=16 budget=1000\nmem 1 bytes=16\nphase\nhost 1\nsend 1 memwrite ns=1 at=0 data=01\nsend 2 memwrite ns=1 at=0 data=01\nsend 3 memwrite ns=1 at=0 data=01\nshow mem 1 at=0 len=4\n";
    let mut source = source(alloc, script.as_bytes(), 64, &[])?;
    let mut sink = sink(alloc, &[call])?;
    let status = ran(alloc, "step 1 0", &mut source, &mut sink)?;
    Some((status, sink.held().len()))
}

#[test]
fn each_line_is_one_call(rt: HostRuntime) {
    for (call, status, held) in [(1, 4, 0), (2, 4, 31), (3, 4, 62), (4, 4, 93), (5, 0, 126)] {
        assert_eq!(rt;
            cut_at(rt.alloc(), call),
            Some((status, held)),
            "call {call}"
        );
    }
}

// The status of a run on so many bytes, and how many bytes the sink holds.
fn sized(alloc: Global, len: u64) -> Option<(u8, usize)> {
    let bytes = Bytes::filled(alloc, len, b'x').ok()?;
    let mut source = MemSource::new(bytes, 65_536, Vec::new(alloc));
    let mut sink = sink(alloc, &[])?;
    let status = ran(alloc, "step 1 0", &mut source, &mut sink)?;
    Some((status, sink.held().len()))
}

#[test]
fn too_many_bytes_are_told(rt: HostRuntime) {
    assert_eq!(rt; sized(rt.alloc(), 33_554_433), Some((2, 9)), "too long");
    assert_eq!(rt; sized(rt.alloc(), 33_554_432), Some((2, 13)), "no newline");
}

// A sink that takes at most so many bytes at a time, and holds what it took.
#[derive(Drop)]
struct Drip {
    bytes: Bytes,
    most: usize,
    faults: u64,
}

impl Sink for Drip {
    ghost held = { λ s. Some s.bytes.items };

    ghost faults = { λ s. s.faults };

    fn write(&mut self, piece: &[u8]) -> Took {
        let count = piece.len().min(self.most.max(1));
        if self.bytes.reserve(count as u64).is_err() {
            self.faults = self.faults.saturating_add(1);
            return Took::Failed;
        }
        self.bytes.append(&piece[..count]);
        Took::Count(count)
    }
}

// The status of a run over a source of one byte a read and a sink of at most so many bytes a write, and
// how many bytes the sink holds.
fn dripped(alloc: Global, most: usize) -> Option<(u8, u64)> {
    let mut source = source(alloc, WRITE.as_bytes(), 1, &[])?;
    let mut sink = Drip {
        bytes: Bytes::new(alloc),
        most,
        faults: 0,
    };
    let words = words_of(alloc, "step 1 7")?;
    let status = run(alloc, words.as_slice(), &mut source, &mut sink);
    let held = sink.bytes.len();
    Some((status, held))
}

#[test]
fn short_reads_and_writes_are_taken_up(rt: HostRuntime) {
    for most in [1, 7] {
        assert_eq!(rt; dripped(rt.alloc(), most), Some((0, 64)));
    }
}
