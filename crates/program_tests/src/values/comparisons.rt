//! Comparisons.
use bpf_alu::{holds32, holds64};
use bpf_isa::JumpOp;
use std::process::Abort;

// The pairs of a destination and an operand that each comparison is asked of.
const PAIRS: [[u64; 2]; 9] = [
    [0, 0],
    [1, 0],
    [0, 1],
    [0xffff_ffff_ffff_ffff, 1],
    [0x8000_0000_0000_0000, 0xffff_ffff_ffff_ffff],
    [0x7fff_ffff_ffff_ffff, 0x8000_0000_0000_0000],
    [0x8000_0000, 0x7fff_ffff],
    [0x1_0000_0000, 0xffff_ffff],
    [6, 8],
];

// For each pair, whether the comparison holds at 64 and at 32 bits.
fn holds(rt: &impl Abort, op: JumpOp, wide: [bool; 9], narrow: [bool; 9]) {
    for (k, [a, b]) in PAIRS.iter().enumerate() {
        assert_eq!(rt;
            holds64(op, *a, *b),
            wide[k],
            "64 bits: {op:?} {a:#x} {b:#x}"
        );
        assert_eq!(rt;
            holds32(op, *a, *b),
            narrow[k],
            "32 bits: {op:?} {a:#x} {b:#x}"
        );
    }
}

const YES: bool = true;

const NO: bool = false;

#[test]
fn equality_and_common_bits(rt: HostRuntime) {
    holds(
        &rt,
        JumpOp::Jeq,
        [YES, NO, NO, NO, NO, NO, NO, NO, NO],
        [YES, NO, NO, NO, NO, NO, NO, NO, NO],
    );
    holds(
        &rt,
        JumpOp::Jne,
        [NO, YES, YES, YES, YES, YES, YES, YES, YES],
        [NO, YES, YES, YES, YES, YES, YES, YES, YES],
    );
    holds(
        &rt,
        JumpOp::Jset,
        [NO, NO, NO, YES, YES, NO, NO, NO, NO],
        [NO, NO, NO, YES, NO, NO, NO, NO, NO],
    );
}

#[test]
fn unsigned_orders(rt: HostRuntime) {
    holds(
        &rt,
        JumpOp::Jgt,
        [NO, YES, NO, YES, NO, NO, YES, YES, NO],
        [NO, YES, NO, YES, NO, YES, YES, NO, NO],
    );
    holds(
        &rt,
        JumpOp::Jge,
        [YES, YES, NO, YES, NO, NO, YES, YES, NO],
        [YES, YES, NO, YES, NO, YES, YES, NO, NO],
    );
    holds(
        &rt,
        JumpOp::Jlt,
        [NO, NO, YES, NO, YES, YES, NO, NO, YES],
        [NO, NO, YES, NO, YES, NO, NO, YES, YES],
    );
    holds(
        &rt,
        JumpOp::Jle,
        [YES, NO, YES, NO, YES, YES, NO, NO, YES],
        [YES, NO, YES, NO, YES, NO, NO, YES, YES],
    );
}

#[test]
fn signed_orders(rt: HostRuntime) {
    holds(
        &rt,
        JumpOp::Jsgt,
        [NO, YES, NO, NO, NO, YES, YES, YES, NO],
        [NO, YES, NO, NO, YES, NO, NO, YES, NO],
    );
    holds(
        &rt,
        JumpOp::Jsge,
        [YES, YES, NO, NO, NO, YES, YES, YES, NO],
        [YES, YES, NO, NO, YES, NO, NO, YES, NO],
    );
    holds(
        &rt,
        JumpOp::Jslt,
        [NO, NO, YES, YES, YES, NO, NO, NO, YES],
        [NO, NO, YES, YES, NO, YES, YES, NO, YES],
    );
    holds(
        &rt,
        JumpOp::Jsle,
        [YES, NO, YES, YES, YES, NO, NO, NO, YES],
        [YES, NO, YES, YES, NO, YES, YES, NO, YES],
    );
}
