// Histories that are held against their scripts.
use super::{FILL_AND_ABORT, TWO_FILLS, WRITE, given};
use std::alloc::Global;

// A script, what stands behind it, the status, and the line that is written.
const CASES: [(&str, &str, u8, &str); 15] = [
    (
        WRITE,
        "\n#1 h1 n1 c1 memwrite Ok r=0 d=\nshow mem 1 at=0 len=4 d=01020000\n",
        0,
        "legal\n",
    ),
    (
        WRITE,
        "\n#1 h1 n1 c1 memwrite NoMemory r=0 d=\nshow mem 1 at=0 len=4 d=00000000\n",
        0,
        "legal\n",
    ),
    (
        WRITE,
        "\n#1 h1 n1 c1 memwrite Ok r=0 d=\nshow mem 1 at=0 len=4 d=00000000\n",
        6,
        "history line 2: NotLegal\n",
    ),
    (
        WRITE,
        "\n#1 h1 n1 c1 memwrite Ok r=0 d=\n",
        6,
        "history line 2: NotLegal\n",
    ),
    (
        WRITE,
        "\n#1 h1 n1 c1 memwrite Ok r=0 d=\nshow mem 1 at=0 len=4 d=01020000\n\n",
        6,
        "history line 3: NotLegal\n",
    ),
    (WRITE, "\n", 6, "history line 1: NotLegal\n"),
    (WRITE, "", 2, "no history\n"),
    ("", "", 2, "no history\n"),
    ("", "\n", 2, "line 1: Order\n"),
    ("x\n", "", 2, "no history\n"),
    ("x\n", "\n", 2, "line 1: Word\n"),
    (
        "nvmecp 1 block=512 depth=16 budget=1000\nphase\nhost 1\ntake 1\n",
        "\n",
        2,
        "line 4: NotOutstanding\n",
    ),
    (
        "nvmecp 1 block=512 depth=16 budget=1000\nphase\nhost 1\nsend 1 setdelete set=1\n",
        "\n#1 h1 n1 c1 setdelete NoMemory r=0 d=\n",
        6,
        "history line 1: NotLegal\n",
    ),
    (
        TWO_FILLS,
        "\n#1 h2 n1 c1 memfill Ok r=0 d=\n#2 h1 n1 c1 memfill Ok r=0 d=\nshow mem 1 at=0 len=8 d=0101010102020000\n",
        0,
        "legal\n",
    ),
    (
        TWO_FILLS,
        "\n#1 h1 n1 c1 memfill Ok r=0 d=\n#2 h2 n1 c1 memfill Ok r=0 d=\nshow mem 1 at=0 len=8 d=0101010102020000\n",
        6,
        "history line 3: NotLegal\n",
    ),
];

// A host withdraws the command of the identifier under which the Abort itself is sent.
const ONE_ABORT: &str =
    "nvmecp 1 block=512 depth=16 budget=1000\nmem 1 bytes=16\nphase\nhost 1\nsend 1 abort cid=1\n";

// A host withdraws what it sends only then.
const ABORT_AND_FILL: &str =
    "nvmecp 1 block=512 depth=16 budget=1000\nmem 1 bytes=16\nphase\nhost 1\nsend 2 abort cid=1\nsend 1 memfill ns=1 at=0 len=4 value=1\nshow mem 1 at=0 len=4\n";

// A host fills and withdraws the fill twice.
const TWO_ABORTS: &str =
    "nvmecp 1 block=512 depth=16 budget=1000\nmem 1 bytes=16\nphase\nhost 1\nsend 1 memfill ns=1 at=0 len=4 value=1\nsend 2 abort cid=1\nsend 3 abort cid=1\nshow mem 1 at=0 len=4\n";

// A host fills, withdraws the fill, and withdraws that.
const ABORT_OF_ABORT: &str =
    "nvmecp 1 block=512 depth=16 budget=1000\nmem 1 bytes=16\nphase\nhost 1\nsend 1 memfill ns=1 at=0 len=4 value=1\nsend 2 abort cid=1\nsend 3 abort cid=2\nshow mem 1 at=0 len=4\n";

// A host withdraws a fill that it has sent in the phase before.
const LATER_ABORT: &str =
    "nvmecp 1 block=512 depth=16 budget=1000\nmem 1 bytes=16\nphase\nhost 1\nsend 1 memfill ns=1 at=0 len=4 value=1\nphase\nhost 1\nsend 2 abort cid=1\nshow mem 1 at=0 len=4\n";

// A host withdraws a fill, takes it, and sends another one under its identifier.
const TWO_FILLS_AND_ABORT: &str =
    "nvmecp 1 block=512 depth=16 budget=1000\nmem 1 bytes=16\nphase\nhost 1\nsend 1 memfill ns=1 at=0 len=4 value=1\nsend 2 abort cid=1\ntake 1\nsend 1 memfill ns=1 at=0 len=4 value=2\nshow mem 1 at=0 len=4\n";

// A host fills, and another one withdraws under the same identifier, where it has sent nothing itself.
const ABORT_OF_ANOTHER: &str =
    "nvmecp 1 block=512 depth=16 budget=1000\nmem 1 bytes=16\nphase\nhost 1\nsend 1 memfill ns=1 at=0 len=4 value=1\nhost 2\nsend 2 abort cid=1\nshow mem 1 at=0 len=4\n";

// A host fills by its first queue, and withdraws that by its second queue.
const ABORT_OF_ANOTHER_QUEUE: &str =
    "nvmecp 2 block=512 queues=2 depth=1 budget=1\nmem 1 bytes=16\nphase\nhost 1\nsend 1:1 memfill ns=1 at=0 len=4 value=1\nsend 2:1 abort cid=1:1\n";

// The same, where the Abort names the identifier of its own queue, which the fill does not have.
const ABORT_IN_QUEUE: &str =
    "nvmecp 2 block=512 queues=2 depth=1 budget=1\nmem 1 bytes=16\nphase\nhost 1\nsend 1:1 memfill ns=1 at=0 len=4 value=1\nsend 2:1 abort cid=2:1\n";

// The same of scripts with Aborts.
const ABORTS: [(&str, &str, u8, &str); 48] = [
    // What devices may answer: an Abort is told 1 at any place.
    (
        FILL_AND_ABORT,
        "\n#1 h1 n1 c1 memfill Ok r=0 d=\n#2 h1 n2 c2 abort Ok r=1 d=\nshow mem 1 at=0 len=4 d=01010101\n",
        0,
        "legal\n",
    ),
    (
        FILL_AND_ABORT,
        "\n#1 h1 n2 c2 abort Ok r=0 d=\n#2 h1 n1 c1 memfill Aborted r=0 d=\nshow mem 1 at=0 len=4 d=00000000\n",
        0,
        "legal\n",
    ),
    (
        FILL_AND_ABORT,
        "\n#1 h1 n2 c2 abort Ok r=1 d=\n#2 h1 n1 c1 memfill Ok r=0 d=\nshow mem 1 at=0 len=4 d=01010101\n",
        0,
        "legal\n",
    ),
    (
        FILL_AND_ABORT,
        "\n#1 h1 n2 c2 abort Ok r=1 d=\n#2 h1 n1 c1 memfill NoMemory r=0 d=\nshow mem 1 at=0 len=4 d=00000000\n",
        0,
        "legal\n",
    ),
    // What none answers to the first command.
    (
        FILL_AND_ABORT,
        "\n#1 h1 n2 c2 abort Ok r=2 d=\n#2 h1 n1 c1 memfill Ok r=0 d=\nshow mem 1 at=0 len=4 d=01010101\n",
        6,
        "history line 1: NotLegal\n",
    ),
    (
        FILL_AND_ABORT,
        "\n#1 h1 n2 c2 abort NoMemory r=0 d=\n#2 h1 n1 c1 memfill Ok r=0 d=\nshow mem 1 at=0 len=4 d=01010101\n",
        6,
        "history line 1: NotLegal\n",
    ),
    (
        FILL_AND_ABORT,
        "\n#1 h1 n2 c2 abort Aborted r=0 d=\n#2 h1 n1 c1 memfill Ok r=0 d=\nshow mem 1 at=0 len=4 d=01010101\n",
        6,
        "history line 1: NotLegal\n",
    ),
    (
        FILL_AND_ABORT,
        "\n#1 h1 n1 c1 memfill Aborted r=0 d=\n#2 h1 n2 c2 abort Ok r=0 d=\nshow mem 1 at=0 len=4 d=00000000\n",
        6,
        "history line 1: NotLegal\n",
    ),
    (
        FILL_AND_ABORT,
        "\n#1 h1 n1 c1 memfill Aborted r=0 d=\n#2 h1 n2 c2 abort Ok r=1 d=\nshow mem 1 at=0 len=4 d=00000000\n",
        6,
        "history line 1: NotLegal\n",
    ),
    // What none answers to the second one. An Abort in time needs the line of its fill directly below.
    (
        FILL_AND_ABORT,
        "\n#1 h1 n1 c1 memfill Ok r=0 d=\n#2 h1 n2 c2 abort Ok r=0 d=\nshow mem 1 at=0 len=4 d=01010101\n",
        6,
        "history line 2: NotLegal\n",
    ),
    (
        FILL_AND_ABORT,
        "\n#1 h1 n2 c2 abort Ok r=0 d=\n#2 h1 n1 c1 memfill Ok r=0 d=\nshow mem 1 at=0 len=4 d=01010101\n",
        6,
        "history line 2: NotLegal\n",
    ),
    (
        FILL_AND_ABORT,
        "\n#1 h1 n2 c2 abort Ok r=0 d=\n#2 h1 n1 c1 memfill NoMemory r=0 d=\nshow mem 1 at=0 len=4 d=00000000\n",
        6,
        "history line 2: NotLegal\n",
    ),
    (
        FILL_AND_ABORT,
        "\n#1 h1 n2 c2 abort Ok r=0 d=\n#2 h1 n1 c1 memfill Aborted r=1 d=\nshow mem 1 at=0 len=4 d=00000000\n",
        6,
        "history line 2: NotLegal\n",
    ),
    (
        FILL_AND_ABORT,
        "\n#1 h1 n2 c2 abort Ok r=1 d=\n#2 h1 n1 c1 memfill Aborted r=0 d=\nshow mem 1 at=0 len=4 d=00000000\n",
        6,
        "history line 2: NotLegal\n",
    ),
    (
        FILL_AND_ABORT,
        "\n#1 h1 n2 c2 abort Ok r=0 d=\n",
        6,
        "history line 2: NotLegal\n",
    ),
    (
        FILL_AND_ABORT,
        "\n#1 h1 n2 c2 abort Ok r=0 d=\n#2 h1 n1 c1 memfill Aborted r=0 d=\nshow mem 1 at=0 len=4 d=01010101\n",
        6,
        "history line 3: NotLegal\n",
    ),
    // An Abort that names nothing: not itself, and nothing that is sent later.
    (ONE_ABORT, "\n#1 h1 n1 c1 abort Ok r=1 d=\n", 0, "legal\n"),
    (
        ONE_ABORT,
        "\n#1 h1 n1 c1 abort Ok r=0 d=\n",
        6,
        "history line 1: NotLegal\n",
    ),
    (
        ABORT_AND_FILL,
        "\n#1 h1 n1 c2 abort Ok r=1 d=\n#2 h1 n2 c1 memfill Ok r=0 d=\nshow mem 1 at=0 len=4 d=01010101\n",
        0,
        "legal\n",
    ),
    (
        ABORT_AND_FILL,
        "\n#1 h1 n2 c1 memfill Ok r=0 d=\n#2 h1 n1 c2 abort Ok r=1 d=\nshow mem 1 at=0 len=4 d=01010101\n",
        0,
        "legal\n",
    ),
    (
        ABORT_AND_FILL,
        "\n#1 h1 n1 c2 abort Ok r=0 d=\n#2 h1 n2 c1 memfill Aborted r=0 d=\nshow mem 1 at=0 len=4 d=00000000\n",
        6,
        "history line 1: NotLegal\n",
    ),
    // Two Aborts, of which one at most is in time.
    (
        TWO_ABORTS,
        "\n#1 h1 n2 c2 abort Ok r=0 d=\n#2 h1 n1 c1 memfill Aborted r=0 d=\n#3 h1 n3 c3 abort Ok r=1 d=\nshow mem 1 at=0 len=4 d=00000000\n",
        0,
        "legal\n",
    ),
    (
        TWO_ABORTS,
        "\n#1 h1 n3 c3 abort Ok r=0 d=\n#2 h1 n1 c1 memfill Aborted r=0 d=\n#3 h1 n2 c2 abort Ok r=1 d=\nshow mem 1 at=0 len=4 d=00000000\n",
        0,
        "legal\n",
    ),
    (
        TWO_ABORTS,
        "\n#1 h1 n2 c2 abort Ok r=1 d=\n#2 h1 n3 c3 abort Ok r=0 d=\n#3 h1 n1 c1 memfill Aborted r=0 d=\nshow mem 1 at=0 len=4 d=00000000\n",
        0,
        "legal\n",
    ),
    (
        TWO_ABORTS,
        "\n#1 h1 n2 c2 abort Ok r=1 d=\n#2 h1 n1 c1 memfill Ok r=0 d=\n#3 h1 n3 c3 abort Ok r=1 d=\nshow mem 1 at=0 len=4 d=01010101\n",
        0,
        "legal\n",
    ),
    (
        TWO_ABORTS,
        "\n#1 h1 n2 c2 abort Ok r=0 d=\n#2 h1 n3 c3 abort Ok r=1 d=\n#3 h1 n1 c1 memfill Aborted r=0 d=\nshow mem 1 at=0 len=4 d=00000000\n",
        6,
        "history line 2: NotLegal\n",
    ),
    (
        TWO_ABORTS,
        "\n#1 h1 n2 c2 abort Ok r=0 d=\n#2 h1 n1 c1 memfill Aborted r=0 d=\n#3 h1 n3 c3 abort Ok r=0 d=\nshow mem 1 at=0 len=4 d=00000000\n",
        6,
        "history line 3: NotLegal\n",
    ),
    (
        TWO_ABORTS,
        "\n#1 h1 n2 c2 abort Ok r=0 d=\n#2 h1 n1 c1 memfill Aborted r=0 d=\n",
        6,
        "history line 3: NotLegal\n",
    ),
    // An Abort that is withdrawn.
    (
        ABORT_OF_ABORT,
        "\n#1 h1 n3 c3 abort Ok r=0 d=\n#2 h1 n2 c2 abort Aborted r=0 d=\n#3 h1 n1 c1 memfill Ok r=0 d=\nshow mem 1 at=0 len=4 d=01010101\n",
        0,
        "legal\n",
    ),
    (
        ABORT_OF_ABORT,
        "\n#1 h1 n2 c2 abort Ok r=0 d=\n#2 h1 n1 c1 memfill Aborted r=0 d=\n#3 h1 n3 c3 abort Ok r=1 d=\nshow mem 1 at=0 len=4 d=00000000\n",
        0,
        "legal\n",
    ),
    (
        ABORT_OF_ABORT,
        "\n#1 h1 n3 c3 abort Ok r=0 d=\n#2 h1 n2 c2 abort Ok r=0 d=\n#3 h1 n1 c1 memfill Aborted r=0 d=\nshow mem 1 at=0 len=4 d=00000000\n",
        6,
        "history line 2: NotLegal\n",
    ),
    (
        ABORT_OF_ABORT,
        "\n#1 h1 n3 c3 abort Ok r=0 d=\n#2 h1 n1 c1 memfill Aborted r=0 d=\n#3 h1 n2 c2 abort Ok r=1 d=\nshow mem 1 at=0 len=4 d=00000000\n",
        6,
        "history line 2: NotLegal\n",
    ),
    (
        ABORT_OF_ABORT,
        "\n#1 h1 n3 c3 abort Ok r=0 d=\n#2 h1 n2 c2 abort Aborted r=0 d=\n#3 h1 n1 c1 memfill Aborted r=0 d=\nshow mem 1 at=0 len=4 d=00000000\n",
        6,
        "history line 3: NotLegal\n",
    ),
    // A fill of the phase before is taken when the phase ends.
    (
        LATER_ABORT,
        "\n#1 h1 n1 c1 memfill Ok r=0 d=\n#2 h1 n2 c2 abort Ok r=1 d=\nshow mem 1 at=0 len=4 d=01010101\n",
        0,
        "legal\n",
    ),
    (
        LATER_ABORT,
        "\n#1 h1 n1 c1 memfill Ok r=0 d=\n#2 h1 n2 c2 abort Ok r=0 d=\nshow mem 1 at=0 len=4 d=01010101\n",
        6,
        "history line 2: NotLegal\n",
    ),
    (
        LATER_ABORT,
        "\n#1 h1 n2 c2 abort Ok r=1 d=\n#2 h1 n1 c1 memfill Ok r=0 d=\nshow mem 1 at=0 len=4 d=01010101\n",
        6,
        "history line 1: NotLegal\n",
    ),
    // The Abort names the first of two fills.
    (
        TWO_FILLS_AND_ABORT,
        "\n#1 h1 n2 c2 abort Ok r=0 d=\n#2 h1 n1 c1 memfill Aborted r=0 d=\n#3 h1 n3 c1 memfill Ok r=0 d=\nshow mem 1 at=0 len=4 d=02020202\n",
        0,
        "legal\n",
    ),
    (
        TWO_FILLS_AND_ABORT,
        "\n#1 h1 n1 c1 memfill Ok r=0 d=\n#2 h1 n3 c1 memfill Ok r=0 d=\n#3 h1 n2 c2 abort Ok r=1 d=\nshow mem 1 at=0 len=4 d=02020202\n",
        0,
        "legal\n",
    ),
    (
        TWO_FILLS_AND_ABORT,
        "\n#1 h1 n1 c1 memfill Ok r=0 d=\n#2 h1 n3 c1 memfill NoMemory r=0 d=\n#3 h1 n2 c2 abort Ok r=1 d=\nshow mem 1 at=0 len=4 d=01010101\n",
        0,
        "legal\n",
    ),
    (
        TWO_FILLS_AND_ABORT,
        "\n#1 h1 n2 c2 abort Ok r=0 d=\n#2 h1 n3 c1 memfill Aborted r=0 d=\n#3 h1 n1 c1 memfill Ok r=0 d=\nshow mem 1 at=0 len=4 d=01010101\n",
        6,
        "history line 2: NotLegal\n",
    ),
    (
        TWO_FILLS_AND_ABORT,
        "\n#1 h1 n1 c1 memfill Ok r=0 d=\n#2 h1 n2 c2 abort Ok r=0 d=\n#3 h1 n3 c1 memfill Aborted r=0 d=\nshow mem 1 at=0 len=4 d=01010101\n",
        6,
        "history line 2: NotLegal\n",
    ),
    (
        TWO_FILLS_AND_ABORT,
        "\n#1 h1 n1 c1 memfill Ok r=0 d=\n#2 h1 n2 c2 abort Ok r=1 d=\n#3 h1 n3 c1 memfill Aborted r=0 d=\nshow mem 1 at=0 len=4 d=01010101\n",
        6,
        "history line 3: NotLegal\n",
    ),
    // Other hosts, and other queues.
    (
        ABORT_OF_ANOTHER,
        "\n#1 h2 n1 c2 abort Ok r=1 d=\n#2 h1 n1 c1 memfill Ok r=0 d=\nshow mem 1 at=0 len=4 d=01010101\n",
        0,
        "legal\n",
    ),
    (
        ABORT_OF_ANOTHER,
        "\n#1 h2 n1 c2 abort Ok r=0 d=\n#2 h1 n1 c1 memfill Aborted r=0 d=\nshow mem 1 at=0 len=4 d=00000000\n",
        6,
        "history line 1: NotLegal\n",
    ),
    (
        ABORT_OF_ANOTHER_QUEUE,
        "\n#1 h1 n2 c65537 abort Ok r=0 d=\n#2 h1 n1 c1 memfill Aborted r=0 d=\n",
        0,
        "legal\n",
    ),
    (
        ABORT_OF_ANOTHER_QUEUE,
        "\n#1 h1 n1 c1 memfill Ok r=0 d=\n#2 h1 n2 c65537 abort Ok r=1 d=\n",
        0,
        "legal\n",
    ),
    (
        ABORT_IN_QUEUE,
        "\n#1 h1 n2 c65537 abort Ok r=1 d=\n#2 h1 n1 c1 memfill Ok r=0 d=\n",
        0,
        "legal\n",
    ),
    (
        ABORT_IN_QUEUE,
        "\n#1 h1 n2 c65537 abort Ok r=0 d=\n#2 h1 n1 c1 memfill Aborted r=0 d=\n",
        6,
        "history line 1: NotLegal\n",
    ),
];

// The status of `check` on a script and what stands behind it, and whether exactly this text is held.
fn held_against(alloc: Global, script: &str, behind: &str, output: &str) -> Option<(u8, bool)> {
    let input = format!(in alloc; "{script}{behind}").ok()?;
    given(alloc, "check", input.as_str(), output)
}

#[test]
fn histories_are_held_against_scripts(rt: HostRuntime) {
    for (script, behind, status, output) in CASES {
        assert_eq!(rt;
            held_against(rt.alloc(), script, behind, output),
            Some((status, true)),
            "{script}{behind}"
        );
    }
}

#[test]
fn histories_tell_which_aborts_came_in_time(rt: HostRuntime) {
    for (script, behind, status, output) in ABORTS {
        assert_eq!(rt;
            held_against(rt.alloc(), script, behind, output),
            Some((status, true)),
            "{script}{behind}"
        );
    }
}
