//! Byte swaps and atomic operations.
use bpf_alu::{atomic_new, byte_swap};
use bpf_isa::{AtomicOp, Size, SwapOp, Width};
use std::process::Abort;

// Each row: the register and its value.
fn swaps(rt: &impl Abort, op: SwapOp, bits: Width, rows: &[[u64; 2]]) {
    for [a, swapped] in rows {
        assert_eq!(rt; byte_swap(op, bits, *a), *swapped, "{op:?} {bits:?} {a:#x}");
    }
}

// Each row: the old value, the source, R0 and the value stored.
fn words(rt: &impl Abort, op: AtomicOp, rows: &[[u64; 4]]) {
    for [old, source, r0, new] in rows {
        assert!(rt; *old < 0x1_0000_0000);
        let memory = atomic_new(op, Size::W, *old, *source, *r0);
        assert_eq!(rt; memory, *new, "{op:?} {old:#x} {source:#x} {r0:#x}");
    }
}

// Each row: the old value, the source, R0 and the value stored.
fn double_words(rt: &impl Abort, op: AtomicOp, rows: &[[u64; 4]]) {
    for [old, source, r0, new] in rows {
        let memory = atomic_new(op, Size::D, *old, *source, *r0);
        assert_eq!(rt; memory, *new, "{op:?} {old:#x} {source:#x} {r0:#x}");
    }
}

#[test]
fn swaps_to_little_endian(rt: HostRuntime) {
    swaps(
        &rt,
        SwapOp::ToLittle,
        Width::Bits16,
        &[
            [0x1122_3344_5566_7788, 0x7788],
            [0xff, 0xff],
            [0xffff_ffff_ffff_0000, 0],
        ],
    );
    swaps(
        &rt,
        SwapOp::ToLittle,
        Width::Bits32,
        &[
            [0x1122_3344_5566_7788, 0x5566_7788],
            [0xff, 0xff],
            [0xffff_ffff_ffff_0000, 0xffff_0000],
        ],
    );
    swaps(
        &rt,
        SwapOp::ToLittle,
        Width::Bits64,
        &[
            [0x1122_3344_5566_7788, 0x1122_3344_5566_7788],
            [0xff, 0xff],
            [0xffff_ffff_ffff_0000, 0xffff_ffff_ffff_0000],
        ],
    );
}

#[test]
fn swaps_to_big_endian(rt: HostRuntime) {
    swaps(
        &rt,
        SwapOp::ToBig,
        Width::Bits16,
        &[
            [0x1122_3344_5566_7788, 0x8877],
            [0xff, 0xff00],
            [0xffff_ffff_ffff_0000, 0],
        ],
    );
    swaps(
        &rt,
        SwapOp::ToBig,
        Width::Bits32,
        &[
            [0x1122_3344_5566_7788, 0x8877_6655],
            [0xff, 0xff00_0000],
            [0xffff_ffff_ffff_0000, 0xffff],
        ],
    );
    swaps(
        &rt,
        SwapOp::ToBig,
        Width::Bits64,
        &[
            [0x1122_3344_5566_7788, 0x8877_6655_4433_2211],
            [0xff, 0xff00_0000_0000_0000],
            [0xffff_ffff_ffff_0000, 0xffff_ffff_ffff],
        ],
    );
}

#[test]
fn unconditional_swaps(rt: HostRuntime) {
    swaps(
        &rt,
        SwapOp::Swap,
        Width::Bits16,
        &[
            [0x1122_3344_5566_7788, 0x8877],
            [0xff, 0xff00],
            [0xffff_ffff_ffff_0000, 0],
        ],
    );
    swaps(
        &rt,
        SwapOp::Swap,
        Width::Bits32,
        &[
            [0x1122_3344_5566_7788, 0x8877_6655],
            [0xff, 0xff00_0000],
            [0xffff_ffff_ffff_0000, 0xffff],
        ],
    );
    swaps(
        &rt,
        SwapOp::Swap,
        Width::Bits64,
        &[
            [0x1122_3344_5566_7788, 0x8877_6655_4433_2211],
            [0xff, 0xff00_0000_0000_0000],
            [0xffff_ffff_ffff_0000, 0xffff_ffff_ffff],
        ],
    );
}

#[test]
fn atomic_sums_of_words(rt: HostRuntime) {
    words(
        &rt,
        AtomicOp::Add,
        &[
            [0, 0, 0, 0],
            [0xffff_ffff, 1, 0xffff_ffff, 0],
            [0x8000_0000, 0xffff_ffff_ffff_ffff, 0, 0x7fff_ffff],
            [5, 0x1_0000_0009, 0xffff_ffff_0000_0005, 0xe],
        ],
    );
}

#[test]
fn atomic_bit_operations_on_words(rt: HostRuntime) {
    words(
        &rt,
        AtomicOp::Or,
        &[
            [0, 0, 0, 0],
            [0xffff_ffff, 1, 0xffff_ffff, 0xffff_ffff],
            [0x8000_0000, 0xffff_ffff_ffff_ffff, 0, 0xffff_ffff],
            [5, 0x1_0000_0009, 0xffff_ffff_0000_0005, 0xd],
        ],
    );
    words(
        &rt,
        AtomicOp::And,
        &[
            [0, 0, 0, 0],
            [0xffff_ffff, 1, 0xffff_ffff, 1],
            [0x8000_0000, 0xffff_ffff_ffff_ffff, 0, 0x8000_0000],
            [5, 0x1_0000_0009, 0xffff_ffff_0000_0005, 1],
        ],
    );
    words(
        &rt,
        AtomicOp::Xor,
        &[
            [0, 0, 0, 0],
            [0xffff_ffff, 1, 0xffff_ffff, 0xffff_fffe],
            [0x8000_0000, 0xffff_ffff_ffff_ffff, 0, 0x7fff_ffff],
            [5, 0x1_0000_0009, 0xffff_ffff_0000_0005, 0xc],
        ],
    );
}

#[test]
fn atomic_exchanges_of_words(rt: HostRuntime) {
    words(
        &rt,
        AtomicOp::Xchg,
        &[
            [0, 0, 0, 0],
            [0xffff_ffff, 1, 0xffff_ffff, 1],
            [0x8000_0000, 0xffff_ffff_ffff_ffff, 0, 0xffff_ffff],
            [5, 0x1_0000_0009, 0xffff_ffff_0000_0005, 9],
        ],
    );
    words(
        &rt,
        AtomicOp::Cmpxchg,
        &[
            [0, 0, 0, 0],
            [0xffff_ffff, 1, 0xffff_ffff, 1],
            [0x8000_0000, 0xffff_ffff_ffff_ffff, 0, 0x8000_0000],
            [5, 0x1_0000_0009, 0xffff_ffff_0000_0005, 9],
        ],
    );
}

#[test]
fn atomic_sums_of_double_words(rt: HostRuntime) {
    double_words(
        &rt,
        AtomicOp::Add,
        &[
            [0, 0, 0, 0],
            [0xffff_ffff_ffff_ffff, 1, 0xffff_ffff_ffff_ffff, 0],
            [
                0x8000_0000_0000_0000,
                0xffff_ffff_ffff_ffff,
                0,
                0x7fff_ffff_ffff_ffff,
            ],
            [5, 0x1_0000_0009, 0xffff_ffff_0000_0005, 0x1_0000_000e],
        ],
    );
}

#[test]
fn atomic_or_of_double_words(rt: HostRuntime) {
    double_words(
        &rt,
        AtomicOp::Or,
        &[
            [0, 0, 0, 0],
            [
                0xffff_ffff_ffff_ffff,
                1,
                0xffff_ffff_ffff_ffff,
                0xffff_ffff_ffff_ffff,
            ],
            [
                0x8000_0000_0000_0000,
                0xffff_ffff_ffff_ffff,
                0,
                0xffff_ffff_ffff_ffff,
            ],
            [5, 0x1_0000_0009, 0xffff_ffff_0000_0005, 0x1_0000_000d],
        ],
    );
}

#[test]
fn atomic_and_of_double_words(rt: HostRuntime) {
    double_words(
        &rt,
        AtomicOp::And,
        &[
            [0, 0, 0, 0],
            [0xffff_ffff_ffff_ffff, 1, 0xffff_ffff_ffff_ffff, 1],
            [
                0x8000_0000_0000_0000,
                0xffff_ffff_ffff_ffff,
                0,
                0x8000_0000_0000_0000,
            ],
            [5, 0x1_0000_0009, 0xffff_ffff_0000_0005, 1],
        ],
    );
}

#[test]
fn atomic_xor_of_double_words(rt: HostRuntime) {
    double_words(
        &rt,
        AtomicOp::Xor,
        &[
            [0, 0, 0, 0],
            [
                0xffff_ffff_ffff_ffff,
                1,
                0xffff_ffff_ffff_ffff,
                0xffff_ffff_ffff_fffe,
            ],
            [
                0x8000_0000_0000_0000,
                0xffff_ffff_ffff_ffff,
                0,
                0x7fff_ffff_ffff_ffff,
            ],
            [5, 0x1_0000_0009, 0xffff_ffff_0000_0005, 0x1_0000_000c],
        ],
    );
}

#[test]
fn atomic_exchanges_of_double_words(rt: HostRuntime) {
    double_words(
        &rt,
        AtomicOp::Xchg,
        &[
            [0, 0, 0, 0],
            [0xffff_ffff_ffff_ffff, 1, 0xffff_ffff_ffff_ffff, 1],
            [
                0x8000_0000_0000_0000,
                0xffff_ffff_ffff_ffff,
                0,
                0xffff_ffff_ffff_ffff,
            ],
            [5, 0x1_0000_0009, 0xffff_ffff_0000_0005, 0x1_0000_0009],
        ],
    );
    double_words(
        &rt,
        AtomicOp::Cmpxchg,
        &[
            [0, 0, 0, 0],
            [0xffff_ffff_ffff_ffff, 1, 0xffff_ffff_ffff_ffff, 1],
            [
                0x8000_0000_0000_0000,
                0xffff_ffff_ffff_ffff,
                0,
                0x8000_0000_0000_0000,
            ],
            [5, 0x1_0000_0009, 0xffff_ffff_0000_0005, 5],
        ],
    );
}
