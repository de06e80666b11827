//! Arithmetic and byte swaps.
ghost use Rattle.std.specs.Prelude.{◌≡◌};
ghost use Rattle.bpf_model.specs.Machine.{register, with_register};
ghost use Rattle.bpf_model.specs.Step.{arithmetic, effect, next, width_in_bits};
ghost use Rattle.bpf_model.specs.Value.{value_of, swapped};
ghost use Rattle.confined_view.specs.Touched.{Touched};
ghost use Rattle.bpf_exec.specs.Seen.{machine_of, effect_seen};

use crate::processor::{Next, Processor};
use bpf_alu::{alu32, alu64, byte_swap};
use bpf_isa::{AluOp, Insn, Reg, SwapOp, Width};

/// What an arithmetic operation of either width gives.
#[inline(always)]
fn computed(op: AluOp, wide: bool, a: u64, b: u64) -> u64
    ensures { result ≡ value_of op (width_in_bits wide) a b }
{
    if wide {
        alu64(op, a, b)
    } else {
        alu32(op, a, b)
    }
}

impl Processor {
    /// An arithmetic operation on the destination and an operand.
    #[inline(always)]
    pub fn compute(&mut self, op: AluOp, wide: bool, dst: Reg, operand: u64) -> Next
        ensures effect { (t : Touched)
            → arithmetic (machine_of self.old t) op wide dst operand ≡ effect_seen result self.new t }
        ensures place { self.new.place ≡ self.old.place }
    {
        let value = computed(op, wide, self.get(dst), operand);
        self.set(dst, value);
        Next::Behind
    }

    /// A byte swap of the destination.
    #[inline(always)]
    pub fn swap(&mut self, op: SwapOp, bits: Width, dst: Reg) -> Next
        ensures effect { (t : Touched) → let m = machine_of self.old t in
            next (with_register m dst (swapped op bits (register m dst))) ≡ effect_seen result self.new t }
        ensures place { self.new.place ≡ self.old.place }
    {
        let value = byte_swap(op, bits, self.get(dst));
        self.set(dst, value);
        Next::Behind
    }

    /// A load of a number of 64 bits, the only instruction of two units.
    #[inline(always)]
    pub fn put(&mut self, dst: Reg, value: u64) -> Next
        ensures effect { (t : Touched)
            → effect (Insn.LoadImm dst value) (machine_of self.old t) ≡ effect_seen result self.new t }
        ensures place { self.new.place ≡ self.old.place }
    {
        self.set(dst, value);
        Next::By(1)
    }
}
