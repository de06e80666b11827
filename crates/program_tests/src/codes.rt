//! Codes and instructions by the table of forms, with values from the format and not from the program.
use bpf_decode::{DecodeEnd, decode, encode};
use bpf_isa::{Insn, Reg, Size};
use cp_base::{Bytes, MAX_PROGRAM};
use std::alloc::Global;
use std::process::Abort;

/// What `decode` says of a code: the number of its units, or the bad place.
fn outcome(rt: &impl Abort, alloc: Global, code: &[u8]) -> Result<u32, u32> {
    assert!(rt; code.len() as u64 <= MAX_PROGRAM);
    let code = Bytes::from_slice(alloc, code).expect(rt, "memory for the code");
    match decode(alloc, &code) {
        Ok(decoded) => Ok(decoded.units()),
        Err(DecodeEnd::BadInsn { place }) => Err(place),
        Err(DecodeEnd::NoMemory) => Err(u32::MAX),
    }
}

#[test]
fn bad_places(rt: HostRuntime) {
    let cases: [(&[u8], Result<u32, u32>); 7] = [
        (&[0xb7, 0x0b, 0, 0, 0, 0, 0, 0], Err(0)),
        (&[0xb7], Err(0)),
        (&[0x18, 0, 0, 0, 0, 0, 0, 0, 1, 0, 0, 0, 0, 0, 0, 0], Err(0)),
        (
            &[0xb7, 0, 0, 0, 1, 0, 0, 0, 0x18, 0, 0, 0, 0, 0, 0, 0],
            Err(1),
        ),
        (&[], Err(0)),
        (&[0x95, 0, 0, 0, 0, 0, 0, 0], Ok(1)),
        (&[0x95, 0, 0, 0, 0, 0, 0, 0, 0x95], Err(1)),
    ];
    for (code, want) in cases {
        assert_eq!(rt; outcome(&rt, rt.alloc(), code), want);
    }
}

/// Units by the bytes in their order, and whether they have a form: each row of the table at its least
/// and greatest fields, and a step outside each.
const UNITS: [(u64, bool); 96] = [
    // ADD to ARSH: R10, a source, an offset
    (0x0400_0000_0000_0000, true),
    (0xc709_0000_ffff_ffff, true),
    (0xc70a_0000_ffff_ffff, false),
    (0x0710_0000_0000_0000, false),
    (0x0700_0100_0000_0000, false),
    // with a register: source 11, R10, an immediate
    (0x0c00_0000_0000_0000, true),
    (0xcfa9_0000_0000_0000, true),
    (0xcfb9_0000_0000_0000, false),
    (0xcf0a_0000_0000_0000, false),
    (0x0f00_0000_0100_0000, false),
    // division: offset 2, R10
    (0x3400_0000_0000_0000, true),
    (0x9709_0100_ffff_ffff, true),
    (0x3700_0200_0100_0000, false),
    (0x370a_0000_0100_0000, false),
    // by a register: offset 2, an immediate
    (0x3c00_0000_0000_0000, true),
    (0x9fa9_0100_0000_0000, true),
    (0x3f00_0200_0000_0000, false),
    (0x3f00_0000_0100_0000, false),
    // NEG: R10, an immediate, a source, the source bit
    (0x8400_0000_0000_0000, true),
    (0x8709_0000_0000_0000, true),
    (0x870a_0000_0000_0000, false),
    (0x8700_0000_0100_0000, false),
    (0x8710_0000_0000_0000, false),
    (0x8c00_0000_0000_0000, false),
    // MOV of an immediate: R10, an offset
    (0xb400_0000_0000_0000, true),
    (0xb709_0000_ffff_ffff, true),
    (0xb70a_0000_0700_0000, false),
    (0xb700_0800_0000_0000, false),
    // MOV of a register: source 11, R10, offset 1
    (0xbc00_0000_0000_0000, true),
    (0xbfa9_0000_0000_0000, true),
    (0xbfb0_0000_0000_0000, false),
    (0xbf0a_0000_0000_0000, false),
    (0xbf00_0100_0000_0000, false),
    // MOVSX to 32 bits: of 32 bits
    (0xbc00_0800_0000_0000, true),
    (0xbca9_1000_0000_0000, true),
    (0xbc00_2000_0000_0000, false),
    // MOVSX to 64 bits: of 64 bits, an immediate
    (0xbf00_0800_0000_0000, true),
    (0xbfa9_2000_0000_0000, true),
    (0xbf00_4000_0000_0000, false),
    (0xbf00_0800_0100_0000, false),
    // END: of 8 bits, R10, of 24 bits
    (0xd400_0000_1000_0000, true),
    (0xd409_0000_4000_0000, true),
    (0xd400_0000_0800_0000, false),
    (0xdc00_0000_1000_0000, true),
    (0xdc09_0000_4000_0000, true),
    (0xdc0a_0000_4000_0000, false),
    (0xd700_0000_1000_0000, true),
    (0xd709_0000_4000_0000, true),
    (0xd700_0000_1800_0000, false),
    // JA: an immediate, a destination; by the immediate: an offset
    (0x0500_0080_0000_0000, true),
    (0x0500_ff7f_0000_0000, true),
    (0x0500_0000_0100_0000, false),
    (0x0501_0000_0000_0000, false),
    (0x0600_0000_0000_0080, true),
    (0x0600_0000_ffff_ff7f, true),
    (0x0600_0100_0000_0000, false),
    // conditional jumps: destination 11, a source, an unknown code
    (0x1500_0080_0000_0080, true),
    (0xd60a_ff7f_ffff_ff7f, true),
    (0x150b_0000_0000_0000, false),
    (0x1510_0000_0000_0000, false),
    (0xe500_0000_0000_0000, false),
    // on a register: source 11, an immediate
    (0x1d00_0080_0000_0000, true),
    (0xdeaa_ff7f_0000_0000, true),
    (0x1db0_0000_0000_0000, false),
    (0x1d00_0000_0100_0000, false),
    // CALL: helpers 0 and 2, source 2, an offset; EXIT: an immediate, the other class
    (0x8500_0000_0100_0000, true),
    (0x8500_0000_0000_0000, false),
    (0x8500_0000_0200_0000, false),
    (0x8510_0000_0000_0080, true),
    (0x8520_0000_0000_0000, false),
    (0x8510_0100_0000_0000, false),
    (0x9500_0000_0000_0000, true),
    (0x9500_0000_0100_0000, false),
    (0x9600_0000_0000_0000, false),
    // LDX MEM: R10, an immediate; MEMSX: of 64 bits
    (0x6100_0080_0000_0000, true),
    (0x79a9_ff7f_0000_0000, true),
    (0x790a_0000_0000_0000, false),
    (0x6100_0000_0100_0000, false),
    (0x8100_0080_0000_0000, true),
    (0x91a9_ff7f_0000_0000, true),
    (0x9900_0000_0000_0000, false),
    // ST MEM: a source; STX MEM: destination 11
    (0x6200_0080_0000_0080, true),
    (0x7a0a_ff7f_ffff_ff7f, true),
    (0x6210_0000_0000_0000, false),
    (0x6300_0080_0000_0000, true),
    (0x7baa_ff7f_0000_0000, true),
    (0x630b_0000_0000_0000, false),
    // ATOMIC: of 8 bits, XCHG without FETCH
    (0xc300_0080_0000_0000, true),
    (0xdbaa_ff7f_a000_0000, true),
    (0xd300_0000_0000_0000, false),
    (0xdb00_0000_e000_0000, false),
    // with FETCH: into R10; CMPXCHG: without FETCH
    (0xdb9a_ff7f_e100_0000, true),
    (0xdbaa_0000_e100_0000, false),
    (0xdbaa_ff7f_f100_0000, true),
    (0xdb00_0000_f000_0000, false),
    // nothing
    (0xff00_0000_0000_0000, false),
];

#[test]
fn each_form_at_its_edges(rt: HostRuntime) {
    for (unit, has_form) in UNITS {
        let want = if has_form { Ok(1) } else { Err(0) };
        assert_eq!(rt;
            outcome(&rt, rt.alloc(), &unit.to_be_bytes()),
            want,
            "at {unit:x}"
        );
    }
}

/// Pairs of units, and whether they are a load of 64 bits: R10, a source, a second unit with an opcode.
const WIDE_LOADS: [(u64, u64, bool); 6] = [
    (0x1800_0000_0000_0000, 0, true),
    (0x1809_0000_ffff_ffff, 0x0000_0000_ffff_ffff, true),
    (0x180a_0000_0000_0000, 0, false),
    (0x1810_0000_0000_0000, 0, false),
    (0x1800_0100_0000_0000, 0, false),
    (0x1800_0000_0000_0000, 0x0000_0100_0000_0000, false),
];

#[test]
fn wide_loads_at_their_edges(rt: HostRuntime) {
    for (first, second, has_form) in WIDE_LOADS {
        let mut code = [0; 16];
        code[..8].copy_from_slice(&first.to_be_bytes());
        code[8..].copy_from_slice(&second.to_be_bytes());
        let want = if has_form { Ok(2) } else { Err(0) };
        assert_eq!(rt; outcome(&rt, rt.alloc(), &code), want, "at {first:x}");
    }
}

#[test]
fn instructions_by_place(rt: HostRuntime) {
    // lddw r1 4294967296, stb r1 0 85
    let code = [
        0x18, 1, 0, 0, 0, 0, 0, 0, 0, 0, 0, 0, 1, 0, 0, 0, 0x72, 1, 0, 0, 0x55, 0, 0, 0,
    ];
    let alloc = rt.alloc();
    let code = Bytes::from_slice(alloc, &code).expect(&rt, "memory for the code");
    let decoded = decode(alloc, &code).ok().expect(&rt, "well formed code");
    let dst = Reg::new(1).expect(&rt, "register 1");
    let load = Insn::LoadImm {
        dst,
        value: 1 << 32,
    };
    let store = Insn::StoreImm {
        size: Size::B,
        dst,
        offset: 0,
        imm: 85,
    };
    assert_eq!(rt; decoded.units(), 3);
    assert_eq!(rt; decoded.at(0).copied(), Some(load));
    assert_eq!(rt; decoded.at(2).copied(), Some(store));
    for place in [i64::MIN, -1, 1, 3, i64::MAX] {
        assert!(rt; decoded.at(place).is_none(), "at {place}");
    }
    let mut written = Bytes::new(alloc);
    assert!(rt; written.reserve(24).is_ok());
    encode(&load, &mut written);
    encode(&store, &mut written);
    assert_eq!(rt; written.as_slice(), code.as_slice());
}

#[test]
fn the_longest_code(rt: HostRuntime) {
    // 8,190 times exit, and lddw r1 18446744073709551615 in the last two units
    let alloc = rt.alloc();
    let dst = Reg::new(1).expect(&rt, "register 1");
    let load = Insn::LoadImm {
        dst,
        value: u64::MAX,
    };
    let mut code = Bytes::new(alloc);
    for _ in 0..8190 {
        assert!(rt; code.reserve(8).is_ok());
        encode(&Insn::Exit, &mut code);
    }
    assert!(rt; code.reserve(16).is_ok());
    encode(&load, &mut code);
    assert_eq!(rt; code.len(), MAX_PROGRAM);
    let decoded = decode(alloc, &code).ok().expect(&rt, "well formed code");
    assert_eq!(rt; decoded.units(), 8192);
    assert_eq!(rt; decoded.at(8189).copied(), Some(Insn::Exit));
    assert_eq!(rt; decoded.at(8190).copied(), Some(load));
    assert!(rt; decoded.at(8191).is_none());
}
