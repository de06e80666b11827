//! The low bits of a register.
ghost use Rattle.std.specs.Prelude.{◌≡◌, ◌%◌, ◌^◌};

/// The low 8 bits.
#[inline(always)]
pub fn low8(n: u64) -> u8
    ensures { result ≡ n % 2 ^ 8 }
{
    (n % 0x100) as u8
}

/// The low 16 bits.
#[inline(always)]
pub fn low16(n: u64) -> u16
    ensures { result ≡ n % 2 ^ 16 }
{
    (n % 0x1_0000) as u16
}

/// The low 32 bits.
#[inline(always)]
pub fn low32(n: u64) -> u32
    ensures { result ≡ n % 2 ^ 32 }
{
    (n % 0x1_0000_0000) as u32
}
