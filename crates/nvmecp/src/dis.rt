// The word `dis`: code in hex is made assembly text.
ghost use Rattle.std.specs.Prelude.{◌≡◌, IfOk, option_map};
ghost use Rattle.nvmecp.specs.Code.{code_in};
ghost use Rattle.nvmecp.specs.Dis.{dis_task};
ghost use Rattle.nvmecp.specs.Ends.{EndsBy};

use crate::ending::Ending;
use crate::printing::answer_lines;
use crate::refusing::{refuse_line, refuse_place};
use bpf_asm::disassemble;
use bpf_decode::DecodeEnd;
use cp_base::{Bytes, MAX_PROGRAM, NoMemory};
use cp_io::Sink;
use cp_text::hex_bytes;
use std::alloc::Global;

// The code that an input is in hex, with one newline behind it. `None` where it is none.
fn code_of(alloc: Global, input: &[u8]) -> Result<Option<Bytes>, NoMemory>
    ensures { IfOk result (λ code. option_map (λ b. b.items) code ≡ code_in input.now) }
{
    match input.split_last() {
        Some((b'\n', digits)) => hex_bytes(alloc, digits),
        _ => Ok(None),
    }
}

/// Answers an input that is to be code in hex: its assembly text is written, or what is wrong is told.
pub fn answer<K: Sink>(alloc: Global, input: &Bytes, sink: &mut K) -> Ending
    ensures ends { EndsBy (dis_task.Answers input.now.items)
        (dis_task.Refuses input.now.items) K.held K.faults sink.old sink.new result }
    ensures accepted { dis_task.Accepts input.now.items → result ≡ Ending.Refused → ⊥ }
    ensures rejected { dis_task.Rejects input.now.items → result ≡ Ending.Done → ⊥ }
{
    let code = match code_of(alloc, input.as_slice()) {
        Ok(Some(code)) => code,
        Ok(None) => return refuse_line(alloc, sink, 1, "Hex"),
        Err(NoMemory) => return Ending::NoMemory,
    };
    if code.len() > MAX_PROGRAM {
        return refuse_line(alloc, sink, 1, "Limit");
    }
    match disassemble(alloc, &code) {
        Ok(text) => answer_lines(sink, text.as_slice()),
        Err(DecodeEnd::BadInsn { place }) => refuse_place(alloc, sink, place),
        Err(DecodeEnd::NoMemory) => Ending::NoMemory,
    }
}
