// Programs that are loaded, activated and executed by scripts.
use super::given;
use super::threads::is_legal;
use std::alloc::Global;

// A program on a set of one range: its code in hex, the range, the value of both parameters and the budget; what `execute` is
// told, and the 16 bytes of the namespace at the end.
type Row = (
    &'static str,
    &'static str,
    u64,
    u64,
    &'static str,
    &'static str,
);

const ROWS: [Row; 29] = [
    (
        "b7000000070000009500000000000000",
        "1:0:1",
        0,
        2,
        "Ok r=7",
        "00000000000000000000000000000000",
    ),
    (
        "b7000000070000009500000000000000",
        "1:0:1",
        0,
        1,
        "BudgetSpent r=1",
        "00000000000000000000000000000000",
    ),
    (
        "b7000000070000009500000000000000",
        "1:0:1",
        0,
        0,
        "BudgetRange r=0",
        "00000000000000000000000000000000",
    ),
    (
        "b7000000070000009500000000000000",
        "1:0:1",
        0,
        1001,
        "BudgetRange r=0",
        "00000000000000000000000000000000",
    ),
    (
        "0500ffff00000000",
        "1:0:1",
        0,
        1000,
        "BudgetSpent r=1000",
        "00000000000000000000000000000000",
    ),
    (
        "18010000000000000000000001000000720100005500000071100000000000009500000000000000",
        "1:0:1",
        0,
        10,
        "Ok r=85",
        "55000000000000000000000000000000",
    ),
    (
        "1801000000000000000000000100000072010100550000009500000000000000",
        "1:0:1",
        0,
        10,
        "BadAccess r=2",
        "00000000000000000000000000000000",
    ),
    (
        "18010000000000000000000001000000720100005500000072010100550000009500000000000000",
        "1:0:1",
        0,
        10,
        "BadAccess r=3",
        "55000000000000000000000000000000",
    ),
    (
        "b70000000700000037000000000000009500000000000000",
        "1:0:1",
        0,
        10,
        "Ok r=0",
        "00000000000000000000000000000000",
    ),
    (
        "b7000000ffffffff94000000000000009500000000000000",
        "1:0:1",
        0,
        10,
        "Ok r=4294967295",
        "00000000000000000000000000000000",
    ),
    (
        "0500010000000000180000000000000000000000000000009500000000000000",
        "1:0:1",
        0,
        10,
        "BadJump r=0",
        "00000000000000000000000000000000",
    ),
    (
        "b700000001000000",
        "1:0:1",
        0,
        1,
        "BadJump r=0",
        "00000000000000000000000000000000",
    ),
    (
        "1501020000000000170100000100000085100000fdffffff9500000000000000",
        "1:0:1",
        7,
        30,
        "Ok r=0",
        "00000000000000000000000000000000",
    ),
    (
        "1501020000000000170100000100000085100000fdffffff9500000000000000",
        "1:0:1",
        7,
        29,
        "BudgetSpent r=29",
        "00000000000000000000000000000000",
    ),
    (
        "1501020000000000170100000100000085100000fdffffff9500000000000000",
        "1:0:1",
        8,
        100,
        "CallDepth r=2",
        "00000000000000000000000000000000",
    ),
    (
        "b70100000000000085000000010000009500000000000000",
        "1:0:16",
        0,
        10,
        "Ok r=16",
        "00000000000000000000000000000000",
    ),
    (
        "b70100000100000085000000010000009500000000000000",
        "1:0:16",
        0,
        10,
        "Ok r=18446744073709551615",
        "00000000000000000000000000000000",
    ),
    (
        "180100000000000000000000010000007a01000009000000b702000005000000db21000001000000bf200000000000009500000000000000",
        "1:0:16",
        0,
        10,
        "Ok r=9",
        "0e000000000000000000000000000000",
    ),
    (
        "18010000000000000000000001000000720100005500000071100000000000009500000000000000",
        "1:0:1:r",
        0,
        10,
        "BadAccess r=2",
        "00000000000000000000000000000000",
    ),
    (
        "1801000000000000000000000100000071100000000000009500000000000000",
        "1:0:1:r",
        0,
        10,
        "Ok r=0",
        "00000000000000000000000000000000",
    ),
    (
        "18010000000000000000000001000000b700000001000000b702000005000000db210000f10000009500000000000000",
        "1:0:16:r",
        0,
        10,
        "BadAccess r=4",
        "00000000000000000000000000000000",
    ),
    (
        "18010000000000000000000001000000b700000001000000b702000005000000db210000f10000009500000000000000",
        "1:0:16",
        0,
        10,
        "Ok r=0",
        "00000000000000000000000000000000",
    ),
    (
        "b70000000700000097000000000000009500000000000000",
        "1:0:1",
        0,
        10,
        "Ok r=7",
        "00000000000000000000000000000000",
    ),
    (
        "1800000000000000000000000000008037000100ffffffff9500000000000000",
        "1:0:1",
        0,
        10,
        "Ok r=9223372036854775808",
        "00000000000000000000000000000000",
    ),
    (
        "1800000000000000000000000000008097000100ffffffff9500000000000000",
        "1:0:1",
        0,
        10,
        "Ok r=0",
        "00000000000000000000000000000000",
    ),
    (
        "b700000034120000dc000000100000009500000000000000",
        "1:0:1",
        0,
        10,
        "Ok r=13330",
        "00000000000000000000000000000000",
    ),
    (
        "1501020000000000170100000100000085100000fdffffff5500010000000000bfa00000000000009500000000000000",
        "1:0:1",
        7,
        60,
        "Ok r=281474976711168",
        "00000000000000000000000000000000",
    ),
    (
        "bf100000000000009500000000000000",
        "1:0:1",
        u64::MAX,
        10,
        "Ok r=18446744073709551615",
        "00000000000000000000000000000000",
    ),
    (
        "bf200000000000009500000000000000",
        "1:0:1",
        u64::MAX,
        10,
        "Ok r=18446744073709551615",
        "00000000000000000000000000000000",
    ),
];

// A script that executes a program.
fn script(alloc: Global, row: &Row) -> Option<String> {
    let (code, range, value, budget, _, _) = *row;
    let size = code.len() / 2;
    let head = "nvmecp 1 block=512 depth=16 budget=1000\nmem 1 bytes=16\nphase\nhost 1\n";
    let load = format!(in alloc;
        "send 1 setcreate ranges={range}\ntake 1\nsend 2 load slot=0 size={size} at=0 data={code}\ntake 2\n"
    ).ok()?;
    let execute = format!(in alloc;
        "send 3 activate slot=0\ntake 3\nsend 4 execute slot=0 set=1 p1={value} p2={value} budget={budget}\n"
    ).ok()?;
    format!(in alloc; "{head}{load}{execute}show mem 1 at=0 len=16\n").ok()
}

// What the script gives.
fn text(alloc: Global, row: &Row) -> Option<String> {
    let (_, _, _, _, told, shown) = *row;
    let front =
        "#1 h1 n1 c1 setcreate Ok r=1 d=\n#2 h1 n2 c2 load Ok r=0 d=\n#3 h1 n3 c3 activate Ok r=0 d=\n";
    format!(in alloc;
        "{front}#4 h1 n4 c4 execute {told} d=\nshow mem 1 at=0 len=16 d={shown}\n"
    ).ok()
}

// The status of a run of the script, and whether exactly its text is held.
fn executed(alloc: Global, row: &Row) -> Option<(u8, bool)> {
    let input = script(alloc, row)?;
    let output = text(alloc, row)?;
    given(alloc, "step 1 0", input.as_str(), output.as_str())
}

#[test]
fn programs_are_executed(rt: HostRuntime) {
    for row in ROWS {
        assert_eq!(rt; executed(rt.alloc(), &row), Some((0, true)), "{row:?}");
    }
}

// Codes whose bytes SplitMix64 draws from the seeds 1, 6, 12, 15, 19, 24 and 32, as `tools/hostile.py` draws 200.
const DRAWN: [&str; 7] = [
    "67ec8e65a18debbe5e5532fbeea293f8",
    "99df5139b29d4172",
    "57a4a89d26aa80f0ee767f2fd7d7173cc969e6900288a3e76effb8f2e78727da",
    "501fa8bb7717b8c7334e76191cb27d8f475df4620b86463772cd961c1c95dd2dd80b681958b148e913de17415457b1c9",
    "3ad9c6d7cd4fdb1dddacee2f2432155d51b34d09795e2b15deafd34dd93bb7c8d3ead09b5add57f5",
    "abcb15b88b746aa52e07bb5f79c22407f7e17fdb119ade90a413f269738e85d8ea4d30be07c01b81",
    "e4399ef855971298d9f4d2bc39f0e248",
];

// Whether a drawn code is refused where it is activated, and each command is told; and the history is legal.
fn is_refused(alloc: Global, code: &'static str) -> Option<bool> {
    let input = script(alloc, &(code, "1:0:16", 0, 1000, "", ""))?;
    let front = "#1 h1 n1 c1 setcreate Ok r=1 d=\n#2 h1 n2 c2 load Ok r=0 d=\n";
    let rest = "#3 h1 n3 c3 activate BadProgram r=0 d=\n#4 h1 n4 c4 execute SlotInactive r=0 d=\n";
    let output = format!(in alloc;
        "{front}{rest}show mem 1 at=0 len=16 d=00000000000000000000000000000000\n"
    ).ok()?;
    let ran = given(alloc, "step 1 0", input.as_str(), output.as_str())?;
    Some(ran == (0, true) && is_legal(alloc, input.as_str(), output.as_bytes())?)
}

#[test]
fn drawn_codes_are_refused(rt: HostRuntime) {
    for code in DRAWN {
        assert_eq!(rt; is_refused(rt.alloc(), code), Some(true), "{code}");
    }
}
