//! The instructions of the BPF profile: registers, operations, and one variant of `Insn` for each form
//! that an instruction may have (RFC 9669); and how the execution of a program ends. What instructions do, and which operations and registers a
//! form allows, is said elsewhere.
#![tactic(auto)]

mod end;
mod insn;
mod operand;
mod operation;

pub use end::End;
pub use insn::Insn;
pub use operand::{Reg, Size, Width};
pub use operation::{AluOp, AtomicOp, JumpOp, SwapOp};
