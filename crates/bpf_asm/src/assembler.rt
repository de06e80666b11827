//! The code of a text.
ghost use Rattle.std.specs.Prelude.{◌≡◌, ℕ, ◌<◌, ◌≤◌, ◌++◌, length, IfOk, OnOk};
ghost use Rattle.cp_text.specs.HexText.{AreBytes};
ghost use Rattle.bpf_model.specs.Encoding.{encoding};
ghost use Rattle.bpf_model.specs.Walk.{IsWellFormed};
ghost use Rattle.bpf_asm.specs.Assembly.{Adds, AddsNothing};
ghost use Rattle.bpf_asm.specs.Text.{text_of_code, IsFaultyAt};

use crate::reading::read_line;
use bpf_decode::encode;
use bpf_isa::Insn;
use cp_base::{Bytes, MAX_PROGRAM, NoMemory};
use cp_text::next_line;
use std::alloc::Global;
use thiserror::Error;

/// Why a text was not assembled.
#[derive(Clone, Copy, Debug, PartialEq, Eq, Error)]
pub enum AsmEnd {
    /// The first faulty line, counted from 1: it is no line of an instruction, it is not ended by a newline,
    /// or with its bytes the code would be longer than a program's. A text without any line is faulty at 1.
    #[error("line {line}: no instruction")]
    Fault { line: u32 },
    /// The memory for the code is not there.
    #[error("memory is wanting")]
    NoMemory,
}

impl From<NoMemory> for AsmEnd {
    ghost use Rattle.std.specs.Prelude.{◌≡◌};
    ghost use Rattle.bpf_asm.specs.declared.assembler.AsmEnd.TheVariants as ends;

    ghost from_gives = { λ _ e. e ≡ ends.NoMemory };

    fn from(_: NoMemory) -> AsmEnd {
        AsmEnd::NoMemory
    }
}

/// The code of a text: the program whose one text this is.
///
/// It fails where the text is of no code, at the first faulty line. Memory is taken for the code.
pub fn assemble(alloc: Global, text: &Bytes) -> Result<Bytes, AsmEnd>
    ensures bytes { IfOk result (λ code. AreBytes code.items) }
    ensures well_formed { IfOk result (λ code. IsWellFormed code.items) }
    ensures limit { IfOk result (λ code. length code.items ≤ MAX_PROGRAM) }
    ensures text { IfOk result (λ code. text_of_code code.items ≡ text.now.items) }
    ensures no_fault { OnOk result ((line : ℕ) → IsFaultyAt text.now.items line → ⊥) }
    ensures fault { (line : ℕ) → result ≡ Err (AsmEnd.Fault line) → IsFaultyAt text.now.items line }
{
    let mut code = Bytes::new(alloc);
    let mut rest = text.as_slice();
    let mut line: u32 = 1;
    'lines: while let Some((first, after)) = next_line(rest) {
        add_line(&mut code, first, line)?;
        line += 1;
        rest = after;
    }
    let bytes = code.as_slice();
    if !rest.is_empty() || bytes.is_empty() {
        return Err(AsmEnd::Fault { line });
    }
    Ok(code)
}

// Adds the bytes of the line of this number.
fn add_line(code: &mut Bytes, line: &[u8], number: u32) -> Result<(), AsmEnd>
    ensures added { OnOk result (Adds line.now code.old.items code.new.items) }
    ensures fault { (n : ℕ) → result ≡ Err (AsmEnd.Fault n) → (n ≡ number) × AddsNothing line.now code.old.items }
{
    match read_line(line) {
        Some(insn) => add_insn(code, &insn, number),
        None => Err(AsmEnd::Fault { line: number }),
    }
}

// Adds the bytes of the instruction of the line of this number.
fn add_insn(code: &mut Bytes, insn: &Insn, number: u32) -> Result<(), AsmEnd>
    ensures added { OnOk result (code.new.items ≡ code.old.items ++ encoding insn.now) }
    ensures limit { OnOk result (length code.new.items ≤ MAX_PROGRAM) }
    ensures fault { (n : ℕ) → result ≡ Err (AsmEnd.Fault n) →
        (n ≡ number) × (MAX_PROGRAM < length (code.old.items ++ encoding insn.now)) }
{
    let len = code_len(insn);
    if code.len() > MAX_PROGRAM - len {
        return Err(AsmEnd::Fault { line: number });
    }
    code.reserve(len)?;
    encode(insn, code);
    Ok(())
}

// How many bytes an instruction has: 16 for the load of 64 bits, 8 for each other.
fn code_len(insn: &Insn) -> u64
    ensures len { result ≡ length (encoding insn.now) }
    ensures most { result ≤ 16 }
{
    match insn {
        Insn::LoadImm { .. } => 16,
        _ => 8,
    }
}
