// The word `asm`: assembly text is made code.
ghost use Rattle.std.specs.Prelude.{◌≡◌, IfOk};
ghost use Rattle.nvmecp.specs.Asm.{asm_task};
ghost use Rattle.nvmecp.specs.Code.{hex_line};
ghost use Rattle.nvmecp.specs.Ends.{EndsBy};

use crate::ending::Ending;
use crate::printing::answer_lines;
use crate::refusing::refuse_line;
use bpf_asm::{AsmEnd, assemble};
use cp_base::{Bytes, NoMemory};
use cp_io::Sink;
use cp_text::{push_hex, push_piece};
use std::alloc::Global;

// Code in hex, with its newline.
fn hex_of(alloc: Global, code: &Bytes) -> Result<Bytes, NoMemory>
    ensures { IfOk result (λ text. text.items ≡ hex_line code.now.items) }
{
    let mut text = Bytes::new(alloc);
    push_hex(&mut text, code.as_slice())?;
    push_piece(&mut text, b"\n")?;
    Ok(text)
}

/// Answers an input that is to be assembly text: its code is written in hex, or the first faulty line is
/// told.
pub fn answer<K: Sink>(alloc: Global, input: &Bytes, sink: &mut K) -> Ending
    ensures ends { EndsBy (asm_task.Answers input.now.items)
        (asm_task.Refuses input.now.items) K.held K.faults sink.old sink.new result }
    ensures accepted { asm_task.Accepts input.now.items → result ≡ Ending.Refused → ⊥ }
    ensures rejected { asm_task.Rejects input.now.items → result ≡ Ending.Done → ⊥ }
{
    let code = match assemble(alloc, input) {
        Ok(code) => code,
        Err(AsmEnd::Fault { line }) => return refuse_line(alloc, sink, line, "Asm"),
        Err(AsmEnd::NoMemory) => return Ending::NoMemory,
    };
    match hex_of(alloc, &code) {
        Ok(text) => answer_lines(sink, text.as_slice()),
        Err(NoMemory) => Ending::NoMemory,
    }
}
