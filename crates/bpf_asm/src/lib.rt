//! The assembly text of code: one line for each instruction, written and read.
#![tactic(auto)]

mod assembler;
mod disassembler;
mod laws;
mod line;
mod mnemonic;
mod operand;
mod parts;
mod reading;
mod source;

pub use assembler::{AsmEnd, assemble};
pub use disassembler::disassemble;
pub use laws::{assembly_laws, lines_by_example, one_answer};
pub use line::{LINE_ROOM, append_line, push_line};
