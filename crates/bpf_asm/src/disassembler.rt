//! The text of code.
ghost use Rattle.std.specs.Prelude.{◌≡◌, ◌*◌, ◌≤◌, ◌++◌, false, ℕ, length, IfOk, OnOk, IsOkUnless, option_copied};
ghost use Rattle.bpf_model.specs.Walk.{IsWellFormed, is_well_formed, bad_place};
ghost use Rattle.bpf_asm.specs.Text.{line_at, text_of_code};

use crate::line::push_line;
use bpf_decode::{DecodeEnd, decode};
use bpf_isa::Insn;
use cp_base::{Bytes, MAX_PROGRAM, NoMemory};
use std::alloc::Global;

/// The one text of the code of a program: a line for each instruction.
///
/// It fails where the code is not well formed (RFC 9669, section 3), at the first place without a form, as
/// `decode` does. Memory is taken for the decoded code and for the text.
pub fn disassemble(alloc: Global, code: &Bytes) -> Result<Bytes, DecodeEnd>
    requires { length code.now.items ≤ MAX_PROGRAM }
    ensures well_formed { OnOk result (IsWellFormed code.now.items) }
    ensures text { IfOk result (λ text. text.items ≡ text_of_code code.now.items) }
    ensures bad { (place : ℕ) → result ≡ Err (DecodeEnd.BadInsn place) →
        (is_well_formed code.now.items ≡ false) × (place ≡ bad_place code.now.items) }
{
    let decoded = decode(alloc, code)?;
    let mut text = Bytes::new(alloc);
    for place in 0..decoded.units() {
        push_line_at(&mut text, decoded.at(place as i64))?;
    }
    Ok(text)
}

// Adds the line of an instruction, where there is one.
fn push_line_at(text: &mut Bytes, insn: Option<&Insn>) -> Result<(), DecodeEnd>
    ensures ok { OnOk result (text.new.items ≡ text.old.items ++ line_at (option_copied insn.entry)) }
    ensures no_memory { IsOkUnless result DecodeEnd.NoMemory }
{
    if let Some(insn) = insn {
        match push_line(text, insn) {
            Ok(()) => {}
            Err(NoMemory) => return Err(DecodeEnd::NoMemory),
        }
    }
    Ok(())
}
