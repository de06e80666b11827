//! Jumps.
ghost use Rattle.std.specs.Prelude.{◌≡◌};
ghost use Rattle.bpf_model.specs.Step.{branch, width_in_bits};
ghost use Rattle.bpf_model.specs.Value.{compares};
ghost use Rattle.confined_view.specs.Touched.{Touched};
ghost use Rattle.bpf_exec.specs.Seen.{machine_of, effect_seen};

use crate::processor::{Next, Processor};
use bpf_alu::{holds32, holds64};
use bpf_isa::{JumpOp, Reg};

/// Whether a comparison of either width holds.
#[inline(always)]
fn holds(op: JumpOp, wide: bool, a: u64, b: u64) -> bool
    ensures { result ≡ compares op (width_in_bits wide) a b }
{
    if wide {
        holds64(op, a, b)
    } else {
        holds32(op, a, b)
    }
}

impl Processor {
    /// A jump where a comparison of the destination and an operand holds.
    #[inline(always)]
    pub fn branch(&self, op: JumpOp, wide: bool, dst: Reg, operand: u64, offset: i16) -> Next
        ensures { (t : Touched)
            → branch (machine_of self.now t) op wide dst operand offset ≡ effect_seen result self.now t }
    {
        if holds(op, wide, self.get(dst), operand) {
            Next::By(i32::from(offset))
        } else {
            Next::Behind
        }
    }
}
