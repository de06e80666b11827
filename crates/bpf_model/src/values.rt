//! Worked examples and laws of the values of operations.
ghost use Rattle.std.specs.Prelude.{◌≡◌, ℕ, ◌*◌, ◌%◌, ◌^◌, ◌<◌, bit_and, true, false};
ghost use Rattle.bpf_isa.specs.Size.{byte_count};
ghost use Rattle.bpf_isa.specs.Width.{bits_of};
ghost use Rattle.bpf_isa.specs.declared.operand.Size.{Size};
ghost use Rattle.bpf_isa.specs.declared.operand.Width.{Width};
ghost use Rattle.bpf_isa.specs.declared.operation.AluOp.{AluOp};
ghost use Rattle.bpf_isa.specs.declared.operation.AtomicOp.{AtomicOp};
ghost use Rattle.bpf_isa.specs.declared.operation.SwapOp.{SwapOp};
ghost use Rattle.bpf_model.specs.Value.{value_of, swapped, compares, stored_by};

use bpf_isa::{AluOp, AtomicOp, JumpOp, Size, SwapOp, Width};

/// Values of operations that were worked out by hand.
pub fn values_by_example()
    ensures difference { value_of AluOp.Sub 64 0 1 ≡ 0xffff_ffff_ffff_ffff }
    ensures quotient_by_zero { value_of AluOp.Div 32 0xffff_ffff_ffff_ffff 0 ≡ 0 }
    ensures remainder_by_zero { value_of AluOp.Mod 32 0xffff_ffff_0000_0007 0 ≡ 7 }

    // -7 by 3 and by 2, and the least number by -1
    ensures signed_remainder { value_of AluOp.Smod 64 0xffff_ffff_ffff_fff9 3 ≡ 0xffff_ffff_ffff_ffff }
    ensures signed_quotient { value_of AluOp.Sdiv 64 0xffff_ffff_ffff_fff9 2 ≡ 0xffff_ffff_ffff_fffd }
    ensures least_quotient_64 { value_of AluOp.Sdiv 64 0x8000_0000_0000_0000 0xffff_ffff_ffff_ffff
        ≡ 0x8000_0000_0000_0000 }
    ensures least_remainder_64 { value_of AluOp.Smod 64 0x8000_0000_0000_0000 0xffff_ffff_ffff_ffff ≡ 0 }
    ensures least_quotient_32 { value_of AluOp.Sdiv 32 0x8000_0000 0xffff_ffff ≡ 0x8000_0000 }
    ensures least_remainder_32 { value_of AluOp.Smod 32 0x8000_0000 0xffff_ffff ≡ 0 }

    ensures signed_shift { value_of AluOp.Arsh 32 0x8000_0000 0x23 ≡ 0xf000_0000 }
    ensures masked_shift { value_of AluOp.Lsh 64 1 0x40 ≡ 1 }
    ensures negation { value_of AluOp.Neg 32 1 0 ≡ 0xffff_ffff }
    ensures sign_extension { value_of AluOp.Movsx8 32 0 0x80 ≡ 0xffff_ff80 }
    ensures little_end { swapped SwapOp.ToLittle Width.Bits16 0x1122_3344_5566_7788 ≡ 0x7788 }
    ensures big_end { swapped SwapOp.ToBig Width.Bits32 0x1122_3344_5566_7788 ≡ 0x8877_6655 }
    ensures signed_test { compares JumpOp.Jsgt 32 0x1_0000_0000 0xffff_ffff ≡ true }
    ensures bit_test { compares JumpOp.Jset 64 6 8 ≡ false }
    ensures low_r0 { stored_by AtomicOp.Cmpxchg Size.W 5 9 0xffff_ffff_0000_0005 ≡ 9 }
    ensures whole_r0 { stored_by AtomicOp.Cmpxchg Size.D 5 9 0xffff_ffff_0000_0005 ≡ 5 }
{}

/// Laws of the values of operations, for all operands.
pub fn laws_of_values()
    // A result has the width of its operation, and what is stored the size of its access.
    ensures value_fits { (op : AluOp) → (width a b : ℕ) → value_of op width a b < 2 ^ width }
    ensures swap_fits { (op : SwapOp) → (bits : Width) → (a : ℕ) → swapped op bits a < 2 ^ bits_of bits }
    ensures store_fits { (op : AtomicOp) → (size : Size) → (old source r0 : ℕ) → old < 2 ^ (8 * byte_count size)
        → stored_by op size old source r0 < 2 ^ (8 * byte_count size) }

    // SMOD is `a - b * (a SDIV b)`, for every divisor.
    ensures remainder_64 { (a b : ℕ)
        → value_of AluOp.Smod 64 a b ≡ value_of AluOp.Sub 64 a (value_of AluOp.Mul 64 b (value_of AluOp.Sdiv 64 a b)) }
    ensures remainder_32 { (a b : ℕ)
        → value_of AluOp.Smod 32 a b ≡ value_of AluOp.Sub 32 a (value_of AluOp.Mul 32 b (value_of AluOp.Sdiv 32 a b)) }

    // The amount of a shift is the operand under the mask 0x3f or 0x1f.
    ensures shift_64 { (a b : ℕ) → value_of AluOp.Lsh 64 a b ≡ (a * 2 ^ bit_and b 0x3f) % 2 ^ 64 }
    ensures shift_32 { (a b : ℕ) → value_of AluOp.Lsh 32 a b ≡ (a * 2 ^ bit_and b 0x1f) % 2 ^ 32 }

    // To reverse bytes twice leaves the low bits.
    ensures swapped_twice { (bits : Width) → (a : ℕ)
        → swapped SwapOp.Swap bits (swapped SwapOp.Swap bits a) ≡ swapped SwapOp.ToLittle bits a }
{}
