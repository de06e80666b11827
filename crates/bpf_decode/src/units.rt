//! The fields of a unit, read off its bytes, and the tests that forms share.
ghost use Rattle.std.specs.Prelude.{◌≡◌, ◌≤◌, ◌↔◌, IsSome, IfSome, OnSome, length};
ghost use Rattle.bpf_model.specs.Form.{unit_fields, class_of, operand_of, operation_code, width_of, mode_of, offset_of, imm_of};

use bpf_isa::Reg;
use bpf_model::Fields;
use byteorder::{ByteOrder, LittleEndian};

/// The fields of the unit that the bytes begin with, or `None` where fewer than 8 are left (RFC 9669,
/// section 3.1).
pub(crate) fn read_fields(bytes: &[u8]) -> Option<Fields>
    ensures fields { result ≡ unit_fields bytes.now }
    ensures long { OnSome result (8 ≤ length bytes.now) }
{
    if bytes.len() < 8 {
        return None;
    }
    Some(Fields {
        opcode: bytes[0],
        dst: bytes[1] % 16,
        src: bytes[1] / 16,
        offset: LittleEndian::read_u16(&bytes[2..4]),
        imm: LittleEndian::read_u32(&bytes[4..8]),
    })
}

/// The class of the opcode, 0 to 7.
pub(crate) fn class(f: &Fields) -> u8
    ensures { result ≡ class_of f.now }
{
    f.opcode % 8
}

/// Whether the second operand is the immediate, 0, or the source register, 1.
pub(crate) fn operand(f: &Fields) -> u8
    ensures { result ≡ operand_of f.now }
{
    f.opcode / 8 % 2
}

/// The code of an arithmetic operation or a jump.
pub(crate) fn code(f: &Fields) -> u8
    ensures { result ≡ operation_code f.now }
{
    f.opcode / 16
}

/// The width bits of an access to memory.
pub(crate) fn width(f: &Fields) -> u8
    ensures { result ≡ width_of f.now }
{
    f.opcode / 8 % 4
}

/// The mode of an access to memory.
pub(crate) fn mode(f: &Fields) -> u8
    ensures { result ≡ mode_of f.now }
{
    f.opcode / 32
}

/// The offset in two's complement.
pub(crate) fn offset(f: &Fields) -> i16
    ensures { result ≡ offset_of f.now }
{
    f.offset.cast_signed()
}

/// The immediate in two's complement.
pub(crate) fn imm(f: &Fields) -> i32
    ensures { result ≡ imm_of f.now }
{
    f.imm.cast_signed()
}

/// The register of a number that an instruction writes: not R10, the frame pointer.
pub(crate) fn writable(number: u8) -> Option<Reg>
    ensures known { IsSome result ↔ (number ≤ 9) }
    ensures value { IfSome result (λ r. r ≡ number) }
{
    if number > 9 { None } else { Reg::new(number) }
}
