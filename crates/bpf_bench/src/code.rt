//! The programs. R1 has the number of rounds and R2 the length of the range.
ghost use Rattle.std.specs.Prelude.{◌≡◌, ◌≤◌, ◌*◌, length, IfOk};
ghost use Rattle.bpf_bench.specs.Programs.{encoded, program_for, spread_out};

use crate::workload::Workload;
use cp_base::{Bytes, NoMemory};
use cp_text::push_piece;
use std::alloc::Global;

static LOOP: [u8; 32] = [
    0xb7, 0, 0, 0, 0, 0, 0, 0, // mov64 r0 0
    0x07, 0, 0, 0, 1, 0, 0, 0, // add64 r0 1
    0xad, 0x10, 0xfe, 0xff, 0, 0, 0, 0, // jlt64 r0 r1 -2
    0x95, 0, 0, 0, 0, 0, 0, 0, // exit
];

static SUM: [u8; 104] = [
    0xb7, 0, 0, 0, 0, 0, 0, 0, // mov64 r0 0
    0x18, 0x04, 0, 0, 0, 0, 0, 0, 0, 0, 0, 0, 1, 0, 0, 0, // lddw r4 4294967296
    0xbf, 0x45, 0, 0, 0, 0, 0, 0, // mov64 r5 r4
    0x0f, 0x25, 0, 0, 0, 0, 0, 0, // add64 r5 r2
    0xbf, 0x43, 0, 0, 0, 0, 0, 0, // mov64 r3 r4
    0x71, 0x36, 0, 0, 0, 0, 0, 0, // ldxb r6 r3 0
    0x0f, 0x60, 0, 0, 0, 0, 0, 0, // add64 r0 r6
    0x07, 0x03, 0, 0, 1, 0, 0, 0, // add64 r3 1
    0xad, 0x53, 0xfc, 0xff, 0, 0, 0, 0, // jlt64 r3 r5 -4
    0x07, 0x01, 0, 0, 0xff, 0xff, 0xff, 0xff, // add64 r1 -1
    0x55, 0x01, 0xf9, 0xff, 0, 0, 0, 0, // jne64 r1 0 -7
    0x95, 0, 0, 0, 0, 0, 0, 0, // exit
];

static STORE: [u8; 96] = [
    0xb7, 0, 0, 0, 0, 0, 0, 0, // mov64 r0 0
    0x18, 0x04, 0, 0, 0, 0, 0, 0, 0, 0, 0, 0, 1, 0, 0, 0, // lddw r4 4294967296
    0xbf, 0x45, 0, 0, 0, 0, 0, 0, // mov64 r5 r4
    0x0f, 0x25, 0, 0, 0, 0, 0, 0, // add64 r5 r2
    0xbf, 0x43, 0, 0, 0, 0, 0, 0, // mov64 r3 r4
    0x7b, 0x03, 0, 0, 0, 0, 0, 0, // stxdw r3 0 r0
    0x07, 0x03, 0, 0, 8, 0, 0, 0, // add64 r3 8
    0xad, 0x53, 0xfd, 0xff, 0, 0, 0, 0, // jlt64 r3 r5 -3
    0x07, 0, 0, 0, 1, 0, 0, 0, // add64 r0 1
    0xad, 0x10, 0xfa, 0xff, 0, 0, 0, 0, // jlt64 r0 r1 -6
    0x95, 0, 0, 0, 0, 0, 0, 0, // exit
];

static EXIT: [u8; 8] = [0x95, 0, 0, 0, 0, 0, 0, 0];

/// The code of a workload's program.
pub fn code_of(alloc: Global, workload: Workload) -> Result<Bytes, NoMemory>
    ensures code { IfOk result (λ code. code.items ≡ encoded (program_for workload)) }
    ensures len { IfOk result (λ code. length code.items ≤ 65536) }
{
    match workload {
        Workload::Loop => Bytes::from_slice(alloc, &LOOP),
        Workload::Sum => Bytes::from_slice(alloc, &SUM),
        Workload::Store => Bytes::from_slice(alloc, &STORE),
        Workload::Near => spread(alloc, 128),
        Workload::Far => spread(alloc, 8192),
    }
}

// The counting loop spread over so many units: its first instructions stand at the start of the code, and
// its last ones at the end.
fn spread(alloc: Global, units: u16) -> Result<Bytes, NoMemory>
    requires some { 5 ≤ units }
    requires few { units ≤ 8192 }
    ensures code { IfOk result (λ code. code.items ≡ encoded (spread_out units)) }
    ensures len { IfOk result (λ code. length code.items ≡ 8 * units) }
{
    let [low, high] = (units - 5).to_le_bytes();
    let [back_low, back_high] = 0u16.wrapping_sub(units - 2).to_le_bytes();
    let mut code = Bytes::new(alloc);
    push_piece(&mut code, &LOOP[..16])?;
    push_piece(&mut code, &[0x05, 0, low, high, 0, 0, 0, 0])?;
    for _ in 5..units {
        push_piece(&mut code, &EXIT)?;
    }
    push_piece(&mut code, &[0xad, 0x10, back_low, back_high, 0, 0, 0, 0])?;
    push_piece(&mut code, &EXIT)?;
    Ok(code)
}
