//! Arithmetic.
use bpf_alu::{alu32, alu64};
use bpf_isa::AluOp;
use std::process::Abort;

// Each row: the destination, the operand, and the values at 64 and at 32 bits.
fn values(rt: &impl Abort, op: AluOp, rows: &[[u64; 4]]) {
    for [a, b, wide, narrow] in rows {
        assert_eq!(rt; alu64(op, *a, *b), *wide, "64 bits: {op:?} {a:#x} {b:#x}");
        assert_eq!(rt; alu32(op, *a, *b), *narrow, "32 bits: {op:?} {a:#x} {b:#x}");
    }
}

#[test]
fn sums_and_differences(rt: HostRuntime) {
    values(
        &rt,
        AluOp::Add,
        &[
            [0, 0, 0, 0],
            [1, 0xffff_ffff_ffff_ffff, 0, 0],
            [0xffff_ffff_ffff_ffff, 1, 0, 0],
            [0x8000_0000_0000_0000, 0x8000_0000_0000_0000, 0, 0],
            [0x7fff_ffff_ffff_ffff, 1, 0x8000_0000_0000_0000, 0],
            [0x7fff_ffff, 1, 0x8000_0000, 0x8000_0000],
            [0x8000_0000, 0x8000_0000, 0x1_0000_0000, 0],
            [0xffff_ffff, 0xffff_ffff, 0x1_ffff_fffe, 0xffff_fffe],
            [0x1_0000_0000, 0xffff_ffff, 0x1_ffff_ffff, 0xffff_ffff],
        ],
    );
    values(
        &rt,
        AluOp::Sub,
        &[
            [0, 0, 0, 0],
            [1, 0xffff_ffff_ffff_ffff, 2, 2],
            [0xffff_ffff_ffff_ffff, 1, 0xffff_ffff_ffff_fffe, 0xffff_fffe],
            [0x8000_0000_0000_0000, 0x8000_0000_0000_0000, 0, 0],
            [0x7fff_ffff_ffff_ffff, 1, 0x7fff_ffff_ffff_fffe, 0xffff_fffe],
            [0x7fff_ffff, 1, 0x7fff_fffe, 0x7fff_fffe],
            [0x8000_0000, 0x8000_0000, 0, 0],
            [0xffff_ffff, 0xffff_ffff, 0, 0],
            [0x1_0000_0000, 0xffff_ffff, 1, 1],
        ],
    );
}

#[test]
fn products(rt: HostRuntime) {
    values(
        &rt,
        AluOp::Mul,
        &[
            [0, 0, 0, 0],
            [1, 0xffff_ffff_ffff_ffff, 0xffff_ffff_ffff_ffff, 0xffff_ffff],
            [0xffff_ffff_ffff_ffff, 1, 0xffff_ffff_ffff_ffff, 0xffff_ffff],
            [0x8000_0000_0000_0000, 0x8000_0000_0000_0000, 0, 0],
            [0x7fff_ffff_ffff_ffff, 1, 0x7fff_ffff_ffff_ffff, 0xffff_ffff],
            [0x7fff_ffff, 1, 0x7fff_ffff, 0x7fff_ffff],
            [0x8000_0000, 0x8000_0000, 0x4000_0000_0000_0000, 0],
            [0xffff_ffff, 0xffff_ffff, 0xffff_fffe_0000_0001, 1],
            [0x1_0000_0000, 0xffff_ffff, 0xffff_ffff_0000_0000, 0],
        ],
    );
}

#[test]
fn negations(rt: HostRuntime) {
    values(
        &rt,
        AluOp::Neg,
        &[
            [0, 5, 0, 0],
            [1, 5, 0xffff_ffff_ffff_ffff, 0xffff_ffff],
            [0xffff_ffff_ffff_ffff, 0, 1, 1],
            [0x8000_0000_0000_0000, 0, 0x8000_0000_0000_0000, 0],
            [0x7fff_ffff, 0, 0xffff_ffff_8000_0001, 0x8000_0001],
            [0x8000_0000, 0, 0xffff_ffff_8000_0000, 0x8000_0000],
            [0x1_0000_0000, 0, 0xffff_ffff_0000_0000, 0],
        ],
    );
}

#[test]
fn unsigned_quotients_and_remainders(rt: HostRuntime) {
    values(
        &rt,
        AluOp::Div,
        &[
            [7, 0, 0, 0],
            [0xffff_ffff_ffff_ffff, 0, 0, 0],
            [0, 0xffff_ffff_ffff_ffff, 0, 0],
            [0xffff_ffff_ffff_ffff, 0xffff_ffff_ffff_ffff, 1, 1],
            [0x8000_0000_0000_0000, 0xffff_ffff_ffff_ffff, 0, 0],
            [0xffff_ffff_0000_0007, 0, 0, 0],
            [7, 0x1_0000_0000, 0, 0],
            [0x1_0000_0007, 3, 0x5555_5557, 2],
            [0xffff_ffff_ffff_ffff, 2, 0x7fff_ffff_ffff_ffff, 0x7fff_ffff],
            [0x8000_0000, 0xffff_ffff, 0, 0],
        ],
    );
    values(
        &rt,
        AluOp::Mod,
        &[
            [7, 0, 7, 7],
            [0xffff_ffff_ffff_ffff, 0, 0xffff_ffff_ffff_ffff, 0xffff_ffff],
            [0, 0xffff_ffff_ffff_ffff, 0, 0],
            [0xffff_ffff_ffff_ffff, 0xffff_ffff_ffff_ffff, 0, 0],
            [
                0x8000_0000_0000_0000,
                0xffff_ffff_ffff_ffff,
                0x8000_0000_0000_0000,
                0,
            ],
            [0xffff_ffff_0000_0007, 0, 0xffff_ffff_0000_0007, 7],
            [7, 0x1_0000_0000, 7, 7],
            [0x1_0000_0007, 3, 2, 1],
            [0xffff_ffff_ffff_ffff, 2, 1, 1],
            [0x8000_0000, 0xffff_ffff, 0x8000_0000, 0x8000_0000],
        ],
    );
}

#[test]
fn signed_quotients(rt: HostRuntime) {
    values(
        &rt,
        AluOp::Sdiv,
        &[
            [7, 0, 0, 0],
            [0x8000_0000_0000_0000, 0, 0, 0],
            [
                0x8000_0000_0000_0000,
                0xffff_ffff_ffff_ffff,
                0x8000_0000_0000_0000,
                0,
            ],
            [0x8000_0000_0000_0000, 1, 0x8000_0000_0000_0000, 0],
            [0x8000_0000, 0xffff_ffff, 0, 0x8000_0000],
            [0x7fff_ffff, 0xffff_ffff, 0, 0x8000_0001],
            [0xffff_ffff_ffff_fff9, 2, 0xffff_ffff_ffff_fffd, 0xffff_fffd],
            [7, 0xffff_ffff_ffff_fffe, 0xffff_ffff_ffff_fffd, 0xffff_fffd],
            [0xffff_ffff_ffff_fff9, 0xffff_ffff_ffff_fffe, 3, 3],
            [0xffff_ffff_ffff_fff9, 3, 0xffff_ffff_ffff_fffe, 0xffff_fffe],
            [0x1_0000_0007, 0x1_ffff_fffe, 0, 0xffff_fffd],
        ],
    );
}

#[test]
fn signed_remainders(rt: HostRuntime) {
    values(
        &rt,
        AluOp::Smod,
        &[
            [7, 0, 7, 7],
            [0x8000_0000_0000_0000, 0, 0x8000_0000_0000_0000, 0],
            [0x8000_0000_0000_0000, 0xffff_ffff_ffff_ffff, 0, 0],
            [0x8000_0000_0000_0000, 1, 0, 0],
            [0x8000_0000, 0xffff_ffff, 0x8000_0000, 0],
            [0x7fff_ffff, 0xffff_ffff, 0x7fff_ffff, 0],
            [0xffff_ffff_ffff_fff9, 2, 0xffff_ffff_ffff_ffff, 0xffff_ffff],
            [7, 0xffff_ffff_ffff_fffe, 1, 1],
            [
                0xffff_ffff_ffff_fff9,
                0xffff_ffff_ffff_fffe,
                0xffff_ffff_ffff_ffff,
                0xffff_ffff,
            ],
            [0xffff_ffff_ffff_fff9, 3, 0xffff_ffff_ffff_ffff, 0xffff_ffff],
            [0x1_0000_0007, 0x1_ffff_fffe, 0x1_0000_0007, 1],
        ],
    );
}

#[test]
fn bitwise_or(rt: HostRuntime) {
    values(
        &rt,
        AluOp::Or,
        &[
            [0, 0, 0, 0],
            [1, 0xffff_ffff_ffff_ffff, 0xffff_ffff_ffff_ffff, 0xffff_ffff],
            [0xffff_ffff_ffff_ffff, 1, 0xffff_ffff_ffff_ffff, 0xffff_ffff],
            [
                0x8000_0000_0000_0000,
                0x8000_0000_0000_0000,
                0x8000_0000_0000_0000,
                0,
            ],
            [0x7fff_ffff_ffff_ffff, 1, 0x7fff_ffff_ffff_ffff, 0xffff_ffff],
            [0x7fff_ffff, 1, 0x7fff_ffff, 0x7fff_ffff],
            [0x8000_0000, 0x8000_0000, 0x8000_0000, 0x8000_0000],
            [0xffff_ffff, 0xffff_ffff, 0xffff_ffff, 0xffff_ffff],
            [0x1_0000_0000, 0xffff_ffff, 0x1_ffff_ffff, 0xffff_ffff],
        ],
    );
}

#[test]
fn bitwise_and(rt: HostRuntime) {
    values(
        &rt,
        AluOp::And,
        &[
            [0, 0, 0, 0],
            [1, 0xffff_ffff_ffff_ffff, 1, 1],
            [0xffff_ffff_ffff_ffff, 1, 1, 1],
            [
                0x8000_0000_0000_0000,
                0x8000_0000_0000_0000,
                0x8000_0000_0000_0000,
                0,
            ],
            [0x7fff_ffff_ffff_ffff, 1, 1, 1],
            [0x7fff_ffff, 1, 1, 1],
            [0x8000_0000, 0x8000_0000, 0x8000_0000, 0x8000_0000],
            [0xffff_ffff, 0xffff_ffff, 0xffff_ffff, 0xffff_ffff],
            [0x1_0000_0000, 0xffff_ffff, 0, 0],
        ],
    );
}

#[test]
fn bitwise_xor(rt: HostRuntime) {
    values(
        &rt,
        AluOp::Xor,
        &[
            [0, 0, 0, 0],
            [1, 0xffff_ffff_ffff_ffff, 0xffff_ffff_ffff_fffe, 0xffff_fffe],
            [0xffff_ffff_ffff_ffff, 1, 0xffff_ffff_ffff_fffe, 0xffff_fffe],
            [0x8000_0000_0000_0000, 0x8000_0000_0000_0000, 0, 0],
            [0x7fff_ffff_ffff_ffff, 1, 0x7fff_ffff_ffff_fffe, 0xffff_fffe],
            [0x7fff_ffff, 1, 0x7fff_fffe, 0x7fff_fffe],
            [0x8000_0000, 0x8000_0000, 0, 0],
            [0xffff_ffff, 0xffff_ffff, 0, 0],
            [0x1_0000_0000, 0xffff_ffff, 0x1_ffff_ffff, 0xffff_ffff],
        ],
    );
}

#[test]
fn logical_shifts(rt: HostRuntime) {
    values(
        &rt,
        AluOp::Lsh,
        &[
            [1, 0, 1, 1],
            [1, 0x1f, 0x8000_0000, 0x8000_0000],
            [1, 0x20, 0x1_0000_0000, 1],
            [1, 0x3f, 0x8000_0000_0000_0000, 0x8000_0000],
            [1, 0x40, 1, 1],
            [0xffff_ffff_ffff_ffff, 1, 0xffff_ffff_ffff_fffe, 0xffff_fffe],
            [0x8000_0000_0000_0000, 0x3f, 0, 0],
            [0x8000_0000_0000_0000, 0x41, 0, 0],
            [0x8000_0000, 0x1f, 0x4000_0000_0000_0000, 0],
            [0x8000_0000, 0x21, 0, 0],
            [0x1_8000_0000, 0x20, 0x8000_0000_0000_0000, 0x8000_0000],
        ],
    );
    values(
        &rt,
        AluOp::Rsh,
        &[
            [1, 0, 1, 1],
            [1, 0x1f, 0, 0],
            [1, 0x20, 0, 1],
            [1, 0x3f, 0, 0],
            [1, 0x40, 1, 1],
            [0xffff_ffff_ffff_ffff, 1, 0x7fff_ffff_ffff_ffff, 0x7fff_ffff],
            [0x8000_0000_0000_0000, 0x3f, 1, 0],
            [0x8000_0000_0000_0000, 0x41, 0x4000_0000_0000_0000, 0],
            [0x8000_0000, 0x1f, 1, 1],
            [0x8000_0000, 0x21, 0, 0x4000_0000],
            [0x1_8000_0000, 0x20, 1, 0x8000_0000],
        ],
    );
}

#[test]
fn arithmetic_shifts(rt: HostRuntime) {
    values(
        &rt,
        AluOp::Arsh,
        &[
            [1, 0, 1, 1],
            [1, 0x1f, 0, 0],
            [1, 0x20, 0, 1],
            [1, 0x3f, 0, 0],
            [1, 0x40, 1, 1],
            [0xffff_ffff_ffff_ffff, 1, 0xffff_ffff_ffff_ffff, 0xffff_ffff],
            [0x8000_0000_0000_0000, 0x3f, 0xffff_ffff_ffff_ffff, 0],
            [0x8000_0000_0000_0000, 0x41, 0xc000_0000_0000_0000, 0],
            [0x8000_0000, 0x1f, 1, 0xffff_ffff],
            [0x8000_0000, 0x21, 0, 0xc000_0000],
            [0x1_8000_0000, 0x20, 1, 0x8000_0000],
        ],
    );
}

#[test]
fn moves(rt: HostRuntime) {
    values(
        &rt,
        AluOp::Mov,
        &[
            [5, 0, 0, 0],
            [5, 1, 1, 1],
            [5, 0xffff_ffff_ffff_ffff, 0xffff_ffff_ffff_ffff, 0xffff_ffff],
            [0, 0x8000_0000_0000_0000, 0x8000_0000_0000_0000, 0],
            [0, 0xffff_ffff, 0xffff_ffff, 0xffff_ffff],
            [0, 0x1_0000_0000, 0x1_0000_0000, 0],
        ],
    );
}

#[test]
fn moves_that_sign_extend(rt: HostRuntime) {
    values(
        &rt,
        AluOp::Movsx8,
        &[
            [9, 0x7f, 0x7f, 0x7f],
            [9, 0x80, 0xffff_ffff_ffff_ff80, 0xffff_ff80],
            [9, 0xff, 0xffff_ffff_ffff_ffff, 0xffff_ffff],
            [9, 0x100, 0, 0],
            [0, 0, 0, 0],
            [0, 0xffff_ffff_ffff_ffff, 0xffff_ffff_ffff_ffff, 0xffff_ffff],
        ],
    );
    values(
        &rt,
        AluOp::Movsx16,
        &[
            [9, 0x7fff, 0x7fff, 0x7fff],
            [9, 0x8000, 0xffff_ffff_ffff_8000, 0xffff_8000],
            [9, 0xffff, 0xffff_ffff_ffff_ffff, 0xffff_ffff],
            [9, 0x1_0000, 0, 0],
            [0, 0, 0, 0],
            [0, 0xffff_ffff_ffff_ffff, 0xffff_ffff_ffff_ffff, 0xffff_ffff],
        ],
    );
    values(
        &rt,
        AluOp::Movsx32,
        &[
            [9, 0x7fff_ffff, 0x7fff_ffff, 0x7fff_ffff],
            [9, 0x8000_0000, 0xffff_ffff_8000_0000, 0x8000_0000],
            [9, 0xffff_ffff, 0xffff_ffff_ffff_ffff, 0xffff_ffff],
            [9, 0x1_0000_0000, 0, 0],
            [0, 0, 0, 0],
            [0, 0xffff_ffff_ffff_ffff, 0xffff_ffff_ffff_ffff, 0xffff_ffff],
        ],
    );
}
