//! Worked programs: how they end, and the first byte of their range afterwards.
ghost use Rattle.std.specs.Prelude.{◌≡◌, ◌<◌, ◌^◌, IfSome, length, replicate};

use bpf_decode::decode;
use bpf_exec::{End, run};
use bpf_isa::Size;
use confined_view::{View, Window};
use cp_base::Bytes;
use std::alloc::Global;
use std::process::Abort;

// A view of one window and a stack of zeros.
fn view_of(alloc: Global, window: Window) -> Option<View>
    requires { length window.bytes.items < 2 ^ 32 }
    ensures { IfSome result (λ view. view.stack ≡ replicate 4096 0) }
{
    let stack = Bytes::filled(alloc, 4096, 0).ok()?;
    Some(View::new(vec![in alloc; window].ok()?, stack))
}

// How a program ends that has one range of so many zeros, which is writable or not, a first parameter and
// a budget, and the first byte of its range then; `None` for want of memory.
fn outcome_on(
    alloc: Global,
    code: &[u8],
    len: u32,
    writable: bool,
    p1: u64,
    budget: u64,
) -> Option<(End, u64)> {
    if code.len() > 65_536 || budget < 1 {
        return None;
    }
    let decoded = decode(alloc, &Bytes::from_slice(alloc, code).ok()?).ok()?;
    let bytes = Bytes::filled(alloc, u64::from(len), 0).ok()?;
    let mut view = view_of(alloc, Window { bytes, writable })?;
    let end = run(&decoded, &mut view, p1, 0, budget);
    Some((end, view.load(0x1_0000_0000, Size::B)?))
}

// The same with a range that is writable.
fn outcome_of(alloc: Global, code: &[u8], len: u32, p1: u64, budget: u64) -> Option<(End, u64)> {
    outcome_on(alloc, code, len, true, p1, budget)
}

// Expects that a program of such a range ends so, with this first byte of the range then.
fn expect_outcome(
    rt: &impl Abort,
    alloc: Global,
    code: &[u8],
    len: u32,
    p1: u64,
    budget: u64,
    wanted: (End, u64),
) {
    let found = outcome_of(alloc, code, len, p1, budget);
    assert_eq!(rt; found, Some(wanted), "with {p1} and the budget {budget}");
}

// How a program ends that adds up 2,048 ones of range 0, which is read-only, and the sum that it stores in range 1.
fn summed(alloc: Global, budget: u64) -> Option<(End, u64)> {
    if budget < 1 {
        return None;
    }
    let code =
        b"\x18\x04\0\0\0\0\0\0\0\0\0\0\x01\0\0\0\xb7\0\0\0\0\0\0\0\x15\x01\x05\0\0\0\0\0\x71\x45\0\0\0\0\0\0\x0f\x50\0\0\0\0\0\0\x07\x04\0\0\x01\0\0\0\
        \x17\x01\0\0\x01\0\0\0\x05\0\xfa\xff\0\0\0\0\x18\x04\0\0\0\0\0\0\0\0\0\0\x02\0\0\0\x7b\x04\0\0\0\0\0\0\x95\0\0\0\0\0\0\0";
    let decoded = decode(alloc, &Bytes::from_slice(alloc, code).ok()?).ok()?;
    let ones = Window {
        bytes: Bytes::filled(alloc, 2048, 1).ok()?,
        writable: false,
    };
    let sum = Window {
        bytes: Bytes::filled(alloc, 512, 0).ok()?,
        writable: true,
    };
    let stack = Bytes::filled(alloc, 4096, 0).ok()?;
    let mut view = View::new(vec![in alloc; ones, sum].ok()?, stack);
    let end = run(&decoded, &mut view, 2048, 0, budget);
    Some((end, view.load(0x2_0000_0000, Size::D)?))
}

#[test]
fn ones_are_summed(rt: HostRuntime) {
    for (budget, end) in [(12_294, End::Exit(2048)), (12_293, End::BudgetSpent)] {
        let found = summed(rt.alloc(), budget);
        assert_eq!(rt; found, Some((end, 2048)), "with the budget {budget}");
    }
}

#[test]
fn programs_exit(rt: HostRuntime) {
    for (code, len, p1, budget, end, byte) in [
        // mov64 r0 7, exit
        (
            b"\xb7\0\0\0\x07\0\0\0\x95\0\0\0\0\0\0\0".as_slice(),
            1,
            0,
            2,
            End::Exit(7),
            0,
        ),
        (
            b"\xb7\0\0\0\x07\0\0\0\x95\0\0\0\0\0\0\0".as_slice(),
            1,
            0,
            1,
            End::BudgetSpent,
            0,
        ),
        // ja -1
        (
            b"\x05\0\xff\xff\0\0\0\0".as_slice(),
            1,
            0,
            1000,
            End::BudgetSpent,
            0,
        ),
    ] {
        expect_outcome(&rt, rt.alloc(), code, len, p1, budget, (end, byte));
    }
}

#[test]
fn stores_stay(rt: HostRuntime) {
    for (code, len, p1, budget, end, byte) in [
        // lddw r1 4294967296, stb r1 0 85, ldxb r0 r1 0, exit
        (
            b"\x18\x01\0\0\0\0\0\0\0\0\0\0\x01\0\0\0\x72\x01\0\0\x55\0\0\0\x71\x10\0\0\0\0\0\0\x95\0\0\0\0\0\0\0".as_slice(),
            1,
            0,
            10,
            End::Exit(85),
            85,
        ),
        // lddw r1 4294967296, stb r1 1 85, exit
        (
            b"\x18\x01\0\0\0\0\0\0\0\0\0\0\x01\0\0\0\x72\x01\x01\0\x55\0\0\0\x95\0\0\0\0\0\0\0".as_slice(),
            1,
            0,
            10,
            End::BadAccess(2),
            0,
        ),
        // lddw r1 4294967296, stb r1 0 85, stb r1 1 85, exit
        (
            b"\x18\x01\0\0\0\0\0\0\0\0\0\0\x01\0\0\0\x72\x01\0\0\x55\0\0\0\x72\x01\x01\0\x55\0\0\0\x95\0\0\0\0\0\0\0".as_slice(),
            1,
            0,
            10,
            End::BadAccess(3),
            85,
        ),
    ] {
        expect_outcome(&rt, rt.alloc(), code, len, p1, budget, (end, byte));
    }
}

#[test]
fn zero_divisors_are_no_faults(rt: HostRuntime) {
    for (code, len, p1, budget, end, byte) in [
        // mov64 r0 7, div64 r0 0, exit
        (
            b"\xb7\0\0\0\x07\0\0\0\x37\0\0\0\0\0\0\0\x95\0\0\0\0\0\0\0".as_slice(),
            1,
            0,
            10,
            End::Exit(0),
            0,
        ),
        // mov64 r0 7, mod64 r0 0, exit
        (
            b"\xb7\0\0\0\x07\0\0\0\x97\0\0\0\0\0\0\0\x95\0\0\0\0\0\0\0".as_slice(),
            1,
            0,
            10,
            End::Exit(7),
            0,
        ),
        // mov64 r0 -1, mod32 r0 0, exit
        (
            b"\xb7\0\0\0\xff\xff\xff\xff\x94\0\0\0\0\0\0\0\x95\0\0\0\0\0\0\0".as_slice(),
            1,
            0,
            10,
            End::Exit(4_294_967_295),
            0,
        ),
    ] {
        expect_outcome(&rt, rt.alloc(), code, len, p1, budget, (end, byte));
    }
}

#[test]
fn the_least_number_is_divided_by_minus_one(rt: HostRuntime) {
    for (code, len, p1, budget, end, byte) in [
        // lddw r0 9223372036854775808, sdiv64 r0 -1, exit
        (
            b"\x18\0\0\0\0\0\0\0\0\0\0\0\0\0\0\x80\x37\0\x01\0\xff\xff\xff\xff\x95\0\0\0\0\0\0\0".as_slice(),
            1,
            0,
            10,
            End::Exit(9_223_372_036_854_775_808),
            0,
        ),
        // lddw r0 9223372036854775808, smod64 r0 -1, exit
        (
            b"\x18\0\0\0\0\0\0\0\0\0\0\0\0\0\0\x80\x97\0\x01\0\xff\xff\xff\xff\x95\0\0\0\0\0\0\0".as_slice(),
            1,
            0,
            10,
            End::Exit(0),
            0,
        ),
    ] {
        expect_outcome(&rt, rt.alloc(), code, len, p1, budget, (end, byte));
    }
}

#[test]
fn jumps_are_faults_where_no_instruction_starts(rt: HostRuntime) {
    for (code, len, p1, budget, end, byte) in [
        // ja 1, lddw r0 0, exit
        (
            b"\x05\0\x01\0\0\0\0\0\x18\0\0\0\0\0\0\0\0\0\0\0\0\0\0\0\x95\0\0\0\0\0\0\0".as_slice(),
            1,
            0,
            10,
            End::BadJump(0),
            0,
        ),
        // mov64 r0 1
        (
            b"\xb7\0\0\0\x01\0\0\0".as_slice(),
            1,
            0,
            1,
            End::BadJump(0),
            0,
        ),
        // ja 32767
        (
            b"\x05\0\xff\x7f\0\0\0\0".as_slice(),
            1,
            0,
            10,
            End::BadJump(0),
            0,
        ),
        // jal 2147483647
        (
            b"\x06\0\0\0\xff\xff\xff\x7f".as_slice(),
            1,
            0,
            10,
            End::BadJump(0),
            0,
        ),
    ] {
        expect_outcome(&rt, rt.alloc(), code, len, p1, budget, (end, byte));
    }
}

#[test]
fn calls_are_at_most_eight_deep(rt: HostRuntime) {
    for (code, len, p1, budget, end, byte) in [
        // jeq64 r1 0 2, sub64 r1 1, callp -3, exit
        (
            b"\x15\x01\x02\0\0\0\0\0\x17\x01\0\0\x01\0\0\0\x85\x10\0\0\xfd\xff\xff\xff\x95\0\0\0\0\0\0\0".as_slice(),
            1,
            7,
            30,
            End::Exit(0),
            0,
        ),
        (
            b"\x15\x01\x02\0\0\0\0\0\x17\x01\0\0\x01\0\0\0\x85\x10\0\0\xfd\xff\xff\xff\x95\0\0\0\0\0\0\0".as_slice(),
            1,
            7,
            29,
            End::BudgetSpent,
            0,
        ),
        (
            b"\x15\x01\x02\0\0\0\0\0\x17\x01\0\0\x01\0\0\0\x85\x10\0\0\xfd\xff\xff\xff\x95\0\0\0\0\0\0\0".as_slice(),
            1,
            8,
            100,
            End::CallDepth(2),
            0,
        ),
    ] {
        expect_outcome(&rt, rt.alloc(), code, len, p1, budget, (end, byte));
    }
}

#[test]
fn endless_calls_are_at_most_eight_deep(rt: HostRuntime) {
    for (code, len, p1, budget, end, byte) in [
        // callp -1
        (
            b"\x85\x10\0\0\xff\xff\xff\xff".as_slice(),
            1,
            0,
            8,
            End::CallDepth(0),
            0,
        ),
        (
            b"\x85\x10\0\0\xff\xff\xff\xff".as_slice(),
            1,
            0,
            7,
            End::BudgetSpent,
            0,
        ),
    ] {
        expect_outcome(&rt, rt.alloc(), code, len, p1, budget, (end, byte));
    }
}

#[test]
fn helper_and_swap(rt: HostRuntime) {
    for (code, len, p1, budget, end, byte) in [
        // mov64 r1 0, call 1, exit
        (
            b"\xb7\x01\0\0\0\0\0\0\x85\0\0\0\x01\0\0\0\x95\0\0\0\0\0\0\0".as_slice(),
            16,
            0,
            10,
            End::Exit(16),
            0,
        ),
        // mov64 r1 1, call 1, exit
        (
            b"\xb7\x01\0\0\x01\0\0\0\x85\0\0\0\x01\0\0\0\x95\0\0\0\0\0\0\0".as_slice(),
            16,
            0,
            10,
            End::Exit(u64::MAX),
            0,
        ),
        // mov64 r0 4660, be r0 16, exit
        (
            b"\xb7\0\0\0\x34\x12\0\0\xdc\0\0\0\x10\0\0\0\x95\0\0\0\0\0\0\0".as_slice(),
            1,
            0,
            10,
            End::Exit(13_330),
            0,
        ),
    ] {
        expect_outcome(&rt, rt.alloc(), code, len, p1, budget, (end, byte));
    }
}

#[test]
fn atomic_fetch(rt: HostRuntime) {
    for (code, len, p1, budget, end, byte) in [
        // lddw r1 4294967296, std r1 0 9, mov64 r2 5, afaddd r1 0 r2, mov64 r0 r2, exit
        (
            b"\x18\x01\0\0\0\0\0\0\0\0\0\0\x01\0\0\0\x7a\x01\0\0\x09\0\0\0\xb7\x02\0\0\x05\0\0\0\xdb\x21\0\0\x01\0\0\0\xbf\x20\0\0\0\0\0\0\x95\0\0\0\0\0\0\0".as_slice(),
            16,
            0,
            10,
            End::Exit(9),
            14,
        ),
    ] {
        expect_outcome(&rt, rt.alloc(), code, len, p1, budget, (end, byte));
    }
}

#[test]
fn stores_are_confined_to_the_stack(rt: HostRuntime) {
    for (code, len, p1, budget, end, byte) in [
        // stb r10 0 1, exit
        (
            b"\x72\x0a\0\0\x01\0\0\0\x95\0\0\0\0\0\0\0".as_slice(),
            1,
            0,
            10,
            End::BadAccess(0),
            0,
        ),
        // stb r10 -1 1, exit
        (
            b"\x72\x0a\xff\xff\x01\0\0\0\x95\0\0\0\0\0\0\0".as_slice(),
            1,
            0,
            10,
            End::Exit(0),
            0,
        ),
    ] {
        expect_outcome(&rt, rt.alloc(), code, len, p1, budget, (end, byte));
    }
}

#[test]
fn loads_are_confined_to_ranges(rt: HostRuntime) {
    for (code, len, p1, budget, end, byte) in [
        // lddw r1 4294967296, ldxd r0 r1 0, exit
        (
            b"\x18\x01\0\0\0\0\0\0\0\0\0\0\x01\0\0\0\x79\x10\0\0\0\0\0\0\x95\0\0\0\0\0\0\0".as_slice(),
            7,
            0,
            10,
            End::BadAccess(2),
            0,
        ),
        (
            b"\x18\x01\0\0\0\0\0\0\0\0\0\0\x01\0\0\0\x79\x10\0\0\0\0\0\0\x95\0\0\0\0\0\0\0".as_slice(),
            8,
            0,
            10,
            End::Exit(0),
            0,
        ),
        // mov64 r1 -1, ldxb r0 r1 1, exit
        (
            b"\xb7\x01\0\0\xff\xff\xff\xff\x71\x10\x01\0\0\0\0\0\x95\0\0\0\0\0\0\0".as_slice(),
            1,
            0,
            10,
            End::BadAccess(1),
            0,
        ),
    ] {
        expect_outcome(&rt, rt.alloc(), code, len, p1, budget, (end, byte));
    }
}

#[test]
fn read_only_ranges(rt: HostRuntime) {
    for (code, writable, end, byte) in [
        // lddw r1 4294967296, stb r1 0 85, ldxb r0 r1 0, exit
        (
            b"\x18\x01\0\0\0\0\0\0\0\0\0\0\x01\0\0\0\x72\x01\0\0\x55\0\0\0\x71\x10\0\0\0\0\0\0\x95\0\0\0\0\0\0\0".as_slice(),
            false,
            End::BadAccess(2),
            0,
        ),
        // lddw r1 4294967296, ldxb r0 r1 0, exit
        (
            b"\x18\x01\0\0\0\0\0\0\0\0\0\0\x01\0\0\0\x71\x10\0\0\0\0\0\0\x95\0\0\0\0\0\0\0".as_slice(),
            false,
            End::Exit(0),
            0,
        ),
        // lddw r1 4294967296, mov64 r0 1, mov64 r2 5, acmpxchgd r1 0 r2, exit: the comparison fails
        (
            b"\x18\x01\0\0\0\0\0\0\0\0\0\0\x01\0\0\0\xb7\0\0\0\x01\0\0\0\xb7\x02\0\0\x05\0\0\0\xdb\x21\0\0\xf1\0\0\0\x95\0\0\0\0\0\0\0".as_slice(),
            false,
            End::BadAccess(4),
            0,
        ),
        (
            b"\x18\x01\0\0\0\0\0\0\0\0\0\0\x01\0\0\0\xb7\0\0\0\x01\0\0\0\xb7\x02\0\0\x05\0\0\0\xdb\x21\0\0\xf1\0\0\0\x95\0\0\0\0\0\0\0".as_slice(),
            true,
            End::Exit(0),
            0,
        ),
        // lddw r1 4294967296, mov64 r2 5, acmpxchgd r1 0 r2, exit: the comparison holds
        (
            b"\x18\x01\0\0\0\0\0\0\0\0\0\0\x01\0\0\0\xb7\x02\0\0\x05\0\0\0\xdb\x21\0\0\xf1\0\0\0\x95\0\0\0\0\0\0\0".as_slice(),
            false,
            End::BadAccess(3),
            0,
        ),
        (
            b"\x18\x01\0\0\0\0\0\0\0\0\0\0\x01\0\0\0\xb7\x02\0\0\x05\0\0\0\xdb\x21\0\0\xf1\0\0\0\x95\0\0\0\0\0\0\0".as_slice(),
            true,
            End::Exit(0),
            5,
        ),
    ] {
        let found = outcome_on(rt.alloc(), code, 16, writable, 0, 10);
        assert_eq!(rt; found, Some((end, byte)), "writable: {writable}");
    }
}
