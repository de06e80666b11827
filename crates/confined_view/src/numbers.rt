//! Numbers of 1, 2, 4 or 8 bytes in little-endian order.
ghost use Rattle.std.specs.Prelude.{◌≡◌, ◌+◌, ◌*◌, ◌^◌, ◌<◌, ◌≤◌, length, take};
ghost use Rattle.byteorder.specs.Endian.{little_number, little_bytes};
ghost use Rattle.cp_base.specs.Pieces.{piece, patched};
ghost use Rattle.bpf_isa.specs.Size.{byte_count};

use bpf_isa::Size;
use byteorder::{ByteOrder, LittleEndian};
use cp_base::Bytes;

/// The number of this size that the bytes have from an offset on.
pub(crate) fn number_at(bytes: &Bytes, offset: usize, size: Size) -> u64
    requires { offset + byte_count size ≤ length bytes.now.items }
    ensures number { result ≡ little_number (byte_count size) (piece bytes.now.items offset (byte_count size)) }
    ensures fits { result < 2 ^ (8 * byte_count size) }
{
    let bytes = bytes.as_slice();
    match size {
        Size::B => u64::from(bytes[offset]),
        Size::H => u64::from(LittleEndian::read_u16(&bytes[offset..offset + 2])),
        Size::W => u64::from(LittleEndian::read_u32(&bytes[offset..offset + 4])),
        Size::D => LittleEndian::read_u64(&bytes[offset..offset + 8]),
    }
}

/// Puts the low bytes of a number over those from an offset on. Each size has a write of its own, whose
/// length the compiler knows.
pub(crate) fn put_number(bytes: &mut Bytes, offset: usize, size: Size, number: u64)
    requires { offset + byte_count size ≤ length bytes.old.items }
    ensures items { bytes.new.items ≡ patched bytes.old.items offset (little_bytes (byte_count size) number) }
    ensures len { length bytes.new.items ≡ length bytes.old.items }
    ensures spare { bytes.new.spare ≡ bytes.old.spare }
{
    let mut low = [0; 8];
    LittleEndian::write_u64(&mut low, number);
    let at = offset as u64;
    match size {
        Size::B => bytes.write(at, &low[..1]),
        Size::H => bytes.write(at, &low[..2]),
        Size::W => bytes.write(at, &low[..4]),
        Size::D => bytes.write(at, &low),
    }
}
