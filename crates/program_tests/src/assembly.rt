use bpf_asm::{AsmEnd, assemble, disassemble};
use bpf_decode::DecodeEnd;
use cp_base::{Bytes, MAX_PROGRAM};
use cp_text::push_piece;
use std::alloc::Global;
use std::process::Abort;
use std::test::Fail;

// The lines of arithmetic, and the bytes of their instructions by the table of forms.
const ARITHMETIC_TEXT: &str = "\
add64 r1 -1000
add32 r2 -2000
sub64 r3 r7
sub32 r4 r6
mul64 r5 -5000
mul32 r6 -6000
div64 r7 r3
div32 r8 r2
sdiv64 r9 -9000
sdiv32 r0 -10000
or64 r1 r9
or32 r2 r8
and64 r3 -13000
and32 r4 -14000
lsh64 r5 r5
lsh32 r6 r4
rsh64 r7 -17000
rsh32 r8 -18000
mod64 r9 r1
mod32 r0 r10
smod64 r1 -21000
smod32 r2 -22000
xor64 r3 r7
xor32 r4 r6
mov64 r5 -25000
mov32 r6 -26000
arsh64 r7 r3
arsh32 r8 r2
mov64 r9 r10
mov64 r0 2147483647
neg64 r9
neg32 r0
";

const ARITHMETIC_CODE: [u64; 32] = [
    0x0701_0000_18fc_ffff,
    0x0402_0000_30f8_ffff,
    0x1f73_0000_0000_0000,
    0x1c64_0000_0000_0000,
    0x2705_0000_78ec_ffff,
    0x2406_0000_90e8_ffff,
    0x3f37_0000_0000_0000,
    0x3c28_0000_0000_0000,
    0x3709_0100_d8dc_ffff,
    0x3400_0100_f0d8_ffff,
    0x4f91_0000_0000_0000,
    0x4c82_0000_0000_0000,
    0x5703_0000_38cd_ffff,
    0x5404_0000_50c9_ffff,
    0x6f55_0000_0000_0000,
    0x6c46_0000_0000_0000,
    0x7707_0000_98bd_ffff,
    0x7408_0000_b0b9_ffff,
    0x9f19_0000_0000_0000,
    0x9ca0_0000_0000_0000,
    0x9701_0100_f8ad_ffff,
    0x9402_0100_10aa_ffff,
    0xaf73_0000_0000_0000,
    0xac64_0000_0000_0000,
    0xb705_0000_589e_ffff,
    0xb406_0000_709a_ffff,
    0xcf37_0000_0000_0000,
    0xcc28_0000_0000_0000,
    0xbfa9_0000_0000_0000,
    0xb700_0000_ffff_ff7f,
    0x8709_0000_0000_0000,
    0x8400_0000_0000_0000,
];

// The lines of moves that sign-extend and byte swaps, and the bytes of their instructions by the table of forms.
const MOVES_TEXT: &str = "\
movsx64 r1 r10 8
movsx64 r1 r10 16
movsx64 r1 r10 32
movsx32 r9 r2 8
movsx32 r9 r2 16
le r3 16
be r4 16
swap r5 16
le r3 32
be r4 32
swap r5 32
le r3 64
be r4 64
swap r5 64
";

const MOVES_CODE: [u64; 14] = [
    0xbfa1_0800_0000_0000,
    0xbfa1_1000_0000_0000,
    0xbfa1_2000_0000_0000,
    0xbc29_0800_0000_0000,
    0xbc29_1000_0000_0000,
    0xd403_0000_1000_0000,
    0xdc04_0000_1000_0000,
    0xd705_0000_1000_0000,
    0xd403_0000_2000_0000,
    0xdc04_0000_2000_0000,
    0xd705_0000_2000_0000,
    0xd403_0000_4000_0000,
    0xdc04_0000_4000_0000,
    0xd705_0000_4000_0000,
];

// The lines of accesses to memory, and the bytes of their instructions by the table of forms.
const ACCESSES_TEXT: &str = "\
ldxw r9 r10 -32768
ldsxw r0 r1 32767
stw r10 -8 -2147483648
stxw r10 -8 r10
ldxh r9 r10 -32768
ldsxh r0 r1 32767
sth r10 -8 -2147483648
stxh r10 -8 r10
ldxb r9 r10 -32768
ldsxb r0 r1 32767
stb r10 -8 -2147483648
stxb r10 -8 r10
ldxd r9 r10 -32768
std r10 -8 -2147483648
stxd r10 -8 r10
";

const ACCESSES_CODE: [u64; 15] = [
    0x61a9_0080_0000_0000,
    0x8110_ff7f_0000_0000,
    0x620a_f8ff_0000_0080,
    0x63aa_f8ff_0000_0000,
    0x69a9_0080_0000_0000,
    0x8910_ff7f_0000_0000,
    0x6a0a_f8ff_0000_0080,
    0x6baa_f8ff_0000_0000,
    0x71a9_0080_0000_0000,
    0x9110_ff7f_0000_0000,
    0x720a_f8ff_0000_0080,
    0x73aa_f8ff_0000_0000,
    0x79a9_0080_0000_0000,
    0x7a0a_f8ff_0000_0080,
    0x7baa_f8ff_0000_0000,
];

// The lines of atomic operations, and the bytes of their instructions by the table of forms.
const ATOMIC_TEXT: &str = "\
aaddw r10 -16 r10
aaddd r10 -16 r10
aorw r10 -16 r10
aord r10 -16 r10
aandw r10 -16 r10
aandd r10 -16 r10
axorw r10 -16 r10
axord r10 -16 r10
afaddw r10 -16 r9
afaddd r10 -16 r9
aforw r10 -16 r9
aford r10 -16 r9
afandw r10 -16 r9
afandd r10 -16 r9
afxorw r10 -16 r9
afxord r10 -16 r9
xchgw r10 -16 r9
xchgd r10 -16 r9
cmpxchgw r10 -16 r10
cmpxchgd r10 -16 r10
";

const ATOMIC_CODE: [u64; 20] = [
    0xc3aa_f0ff_0000_0000,
    0xdbaa_f0ff_0000_0000,
    0xc3aa_f0ff_4000_0000,
    0xdbaa_f0ff_4000_0000,
    0xc3aa_f0ff_5000_0000,
    0xdbaa_f0ff_5000_0000,
    0xc3aa_f0ff_a000_0000,
    0xdbaa_f0ff_a000_0000,
    0xc39a_f0ff_0100_0000,
    0xdb9a_f0ff_0100_0000,
    0xc39a_f0ff_4100_0000,
    0xdb9a_f0ff_4100_0000,
    0xc39a_f0ff_5100_0000,
    0xdb9a_f0ff_5100_0000,
    0xc39a_f0ff_a100_0000,
    0xdb9a_f0ff_a100_0000,
    0xc39a_f0ff_e100_0000,
    0xdb9a_f0ff_e100_0000,
    0xc3aa_f0ff_f100_0000,
    0xdbaa_f0ff_f100_0000,
];

// The lines of jumps and calls, and the bytes of their instructions by the table of forms.
const JUMPS_TEXT: &str = "\
jeq64 r10 2147483647 -2
jeq32 r10 2147483647 -2
jgt64 r10 r9 3
jgt32 r10 r9 3
jge64 r10 2147483647 -2
jge32 r10 2147483647 -2
jset64 r10 r9 3
jset32 r10 r9 3
jne64 r10 2147483647 -2
jne32 r10 2147483647 -2
jsgt64 r10 r9 3
jsgt32 r10 r9 3
jsge64 r10 2147483647 -2
jsge32 r10 2147483647 -2
jlt64 r10 r9 3
jlt32 r10 r9 3
jle64 r10 2147483647 -2
jle32 r10 2147483647 -2
jslt64 r10 r9 3
jslt32 r10 r9 3
jsle64 r10 2147483647 -2
jsle32 r10 2147483647 -2
ja -32768
jal -2147483648
call 1
callp -3
exit
";

const JUMPS_CODE: [u64; 27] = [
    0x150a_feff_ffff_ff7f,
    0x160a_feff_ffff_ff7f,
    0x2d9a_0300_0000_0000,
    0x2e9a_0300_0000_0000,
    0x350a_feff_ffff_ff7f,
    0x360a_feff_ffff_ff7f,
    0x4d9a_0300_0000_0000,
    0x4e9a_0300_0000_0000,
    0x550a_feff_ffff_ff7f,
    0x560a_feff_ffff_ff7f,
    0x6d9a_0300_0000_0000,
    0x6e9a_0300_0000_0000,
    0x750a_feff_ffff_ff7f,
    0x760a_feff_ffff_ff7f,
    0xad9a_0300_0000_0000,
    0xae9a_0300_0000_0000,
    0xb50a_feff_ffff_ff7f,
    0xb60a_feff_ffff_ff7f,
    0xcd9a_0300_0000_0000,
    0xce9a_0300_0000_0000,
    0xd50a_feff_ffff_ff7f,
    0xd60a_feff_ffff_ff7f,
    0x0500_0080_0000_0000,
    0x0600_0000_0000_0080,
    0x8500_0000_0100_0000,
    0x8510_0000_fdff_ffff,
    0x9500_0000_0000_0000,
];

// Lines that are nearly those of instructions.
const MISSES: &str = "\
mov64  r0 7
MOV64 r0 7
mov64 r0
mov64
mov64 r0 7 8
exit 0
exit 
 exit
mov64 r11 7
mov64 r10 7
mov64 r00 7
mov64 R0 7
mov64 r 7
mov64 r0 r11
mov64 r0 -0
mov64 r0 +7
mov64 r0 07
mov64 r0 0x7
mov64 r0 2147483648
mov64 r0 -2147483649
mov16 r0 7
mov r0 7
neg64 r0 1
neg64 7
movsx32 r0 r1 32
movsx64 r0 r1 64
movsx64 r0 1 8
le r0 8
be r0
lddw r0 -1
lddw r0 18446744073709551616
lddw r10 1
ldxb r0 r1
ldxb r0 r1 32768
ldxb r0 r1 -32769
ldxq r0 r1 0
ldsxd r0 r1 0
ldxb r10 r1 0
stb r0 0 r1
stxb r0 0 1
aaddb r0 0 r1
afaddd r1 0 r10
xchgd r1 0 r10
afxchgd r0 0 r1
jeq64 r0 5
jeq16 r0 5 1
jeq64 r0 5 40000
jeq64 r0 1 5 2
ja 32768
jal 2147483648
call 2
call r1
callp r1

";

// The code of a text, or the number of its first faulty line.
fn code_of(rt: &impl Abort, alloc: Global, text: &[u8]) -> Result<Bytes, u32> {
    let text = Bytes::from_slice(alloc, text).expect(rt, "memory for the text");
    match assemble(alloc, &text) {
        Ok(code) => Ok(code),
        Err(AsmEnd::Fault { line }) => Err(line),
        Err(AsmEnd::NoMemory) => Err(u32::MAX),
    }
}

// The text of a code, or its bad place.
fn text_of(rt: &impl Abort, alloc: Global, code: &[u8]) -> Result<Bytes, u32> {
    assert!(rt; code.len() as u64 <= MAX_PROGRAM);
    let code = Bytes::from_slice(alloc, code).expect(rt, "memory for the code");
    match disassemble(alloc, &code) {
        Ok(text) => Ok(text),
        Err(DecodeEnd::BadInsn { place }) => Err(place),
        Err(DecodeEnd::NoMemory) => Err(u32::MAX),
    }
}

// A text is of the code of these units, and the code has this text.
fn both_ways(rt: &impl Abort, alloc: Global, text: &[u8], units: &[u64]) -> Result<(), Fail> {
    let mut code = Bytes::new(alloc);
    for unit in units {
        push_piece(&mut code, &unit.to_be_bytes())?;
    }
    let read = code_of(rt, alloc, text).ok().ok_or("no code")?;
    assert_eq!(rt; read.as_slice(), code.as_slice());
    let written = text_of(rt, alloc, code.as_slice()).ok().ok_or("no text")?;
    assert_eq!(rt; written.as_slice(), text);
    Ok(())
}

#[test]
fn arithmetic_both_ways(rt: HostRuntime) -> Result<(), Fail> {
    both_ways(
        &rt,
        rt.alloc(),
        ARITHMETIC_TEXT.as_bytes(),
        &ARITHMETIC_CODE,
    )
}

#[test]
fn moves_both_ways(rt: HostRuntime) -> Result<(), Fail> {
    both_ways(&rt, rt.alloc(), MOVES_TEXT.as_bytes(), &MOVES_CODE)
}

#[test]
fn accesses_both_ways(rt: HostRuntime) -> Result<(), Fail> {
    both_ways(&rt, rt.alloc(), ACCESSES_TEXT.as_bytes(), &ACCESSES_CODE)
}

#[test]
fn atomic_both_ways(rt: HostRuntime) -> Result<(), Fail> {
    both_ways(&rt, rt.alloc(), ATOMIC_TEXT.as_bytes(), &ATOMIC_CODE)
}

#[test]
fn jumps_both_ways(rt: HostRuntime) -> Result<(), Fail> {
    both_ways(&rt, rt.alloc(), JUMPS_TEXT.as_bytes(), &JUMPS_CODE)
}

#[test]
fn a_wide_load_has_two_units(rt: HostRuntime) -> Result<(), Fail> {
    let text = b"lddw r1 4294967296\nldxb r0 r1 -1\njeq32 r0 -5 -2\nexit\n";
    let units = [
        0x1801_0000_0000_0000,
        0x0000_0000_0100_0000,
        0x7110_ffff_0000_0000,
        0x1600_feff_fbff_ffff,
        0x9500_0000_0000_0000,
    ];
    both_ways(&rt, rt.alloc(), text, &units)
}

#[test]
fn near_misses_are_faulty(rt: HostRuntime) -> Result<(), Fail> {
    for miss in MISSES.lines() {
        let mut text = Bytes::from_slice(rt.alloc(), miss.as_bytes())?;
        push_piece(&mut text, b"\n")?;
        assert!(rt;
            code_of(&rt, rt.alloc(), text.as_slice()).err() == Some(1),
            "at {miss:?}"
        );
    }
    Ok(())
}

#[test]
fn the_first_faulty_line_is_told(rt: HostRuntime) {
    for (text, line) in [
        ("", 1),
        ("exit", 1),
        ("exit\r\n", 1),
        ("exit\n\n", 2),
        ("exit\nexit", 2),
        ("exit\nmov64 r10 7\nno line\n", 2),
    ] {
        assert!(rt;
            code_of(&rt, rt.alloc(), text.as_bytes()).err() == Some(line),
            "at {text:?}"
        );
    }
}

// 8,191 lines, whose code has 65,528 bytes.
fn one_line_short(rt: &impl Abort, alloc: Global) -> Bytes {
    let mut text = Bytes::new(alloc);
    for _ in 0..8191 {
        assert!(rt; push_piece(&mut text, b"exit\n").is_ok());
    }
    text
}

#[test]
fn the_longest_code_both_ways(rt: HostRuntime) -> Result<(), Fail> {
    let mut text = one_line_short(&rt, rt.alloc());
    push_piece(&mut text, b"exit\n")?;
    let mut code = Bytes::new(rt.alloc());
    for _ in 0..8192 {
        push_piece(&mut code, &[0x95, 0, 0, 0, 0, 0, 0, 0])?;
    }
    let read = code_of(&rt, rt.alloc(), text.as_slice())
        .ok()
        .ok_or("no code")?;
    assert_eq!(rt; read.len(), MAX_PROGRAM);
    assert!(rt; read.as_slice() == code.as_slice());
    let written = text_of(&rt, rt.alloc(), code.as_slice())
        .ok()
        .ok_or("no text")?;
    assert!(rt; written.as_slice() == text.as_slice());
    Ok(())
}

#[test]
fn a_longer_code_is_told_at_its_line(rt: HostRuntime) -> Result<(), Fail> {
    let mut text = one_line_short(&rt, rt.alloc());
    push_piece(&mut text, b"lddw r0 0\nno line\n")?;
    assert!(rt; code_of(&rt, rt.alloc(), text.as_slice()).err() == Some(8192));
    Ok(())
}

#[test]
fn bad_code_has_no_text(rt: HostRuntime) {
    assert!(rt; text_of(&rt, rt.alloc(), &[0xff, 0, 0, 0, 0, 0, 0, 0]).err() == Some(0));
    assert!(rt; text_of(&rt, rt.alloc(), &[0xb7]).err() == Some(0));
}
