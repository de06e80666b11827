//! What instructions name beside their operation: registers and widths.
ghost use Rattle.std.specs.Prelude.{◌≡◌, ℕ, ◌≤◌, ◌↔◌, IsSome, IfSome};

use std::marker::Model;

/// A register, R0 to R10 (RFC 9669, section 3.1), which contracts see as its number.
///
/// R10 is the frame pointer.
#[derive(Clone, Copy, Debug, PartialEq, Eq)]
pub struct Reg {
    number: u8,
}

impl Model for Reg {
    ghost Value = { ℕ };

    ghost view = { λ r. r.number };

    ghost invariant = { λ r. r.number ≤ 10 };

    ghost inverse = { λ n. record { number = n } };
}

impl Reg {
    /// The register of this number, or `None` where there is none: above 10.
    pub fn new(n: u8) -> Option<Reg>
        ensures known { IsSome result ↔ (n ≤ 10) }
        ensures value { IfSome result (λ r. r ≡ n) }
    {
        if n <= 10 {
            Some(Reg { number: n })
        } else {
            None
        }
    }

    /// The register's number, 0 to 10.
    pub fn number(&self) -> u8
        ensures value { result ≡ self.now }
        ensures at_most_10 { result ≤ 10 }
    {
        self.number
    }
}

/// How much memory an access reads or writes (RFC 9669, section 5).
#[derive(Clone, Copy, Debug, PartialEq, Eq)]
pub enum Size {
    /// One byte.
    B,
    /// Two bytes, a half word.
    H,
    /// Four bytes, a word.
    W,
    /// Eight bytes, a double word.
    D,
}

impl Size {
    ghost use Rattle.std.specs.Prelude.{◌≡◌};
    ghost use Rattle.bpf_isa.specs.Size.{byte_count};

    /// The number of bytes of an access: 1, 2, 4 or 8.
    pub fn bytes(self) -> u8
        ensures { result ≡ byte_count self }
    {
        match self {
            Size::B => 1,
            Size::H => 2,
            Size::W => 4,
            Size::D => 8,
        }
    }
}

/// How many low bits of a register a byte swap reads (RFC 9669, section 4.2).
#[derive(Clone, Copy, Debug, PartialEq, Eq)]
pub enum Width {
    /// 16 bits.
    Bits16,
    /// 32 bits.
    Bits32,
    /// 64 bits.
    Bits64,
}

impl Width {
    ghost use Rattle.std.specs.Prelude.{◌≡◌};
    ghost use Rattle.bpf_isa.specs.Width.{bits_of};

    /// The number of bits: 16, 32 or 64.
    pub fn bits(self) -> u8
        ensures { result ≡ bits_of self }
    {
        match self {
            Width::Bits16 => 16,
            Width::Bits32 => 32,
            Width::Bits64 => 64,
        }
    }
}
