// A device that carried out a plan, and the memory that printing takes.
ghost use Rattle.std.specs.Prelude.{IfOk};
ghost use Rattle.cp_base.specs.declared.limits.TheConstants.{MAX_TRANSFER};
ghost use Rattle.replay_print.specs.declared.laws.TheConstants.{LONGEST_LINE};
ghost use Rattle.nvmecp.specs.Shown.{HasRoomFor};

use cp_base::{Bytes, MAX_TRANSFER, NoMemory};
use device_core::Core;
use replay_print::LONGEST_LINE;
use std::alloc::Global;

/// A device that carried out all commands of a plan, and the buffers for a line and for the bytes of a show.
#[derive(Drop)]
pub struct Finished {
    pub core: Core,
    pub line: Bytes,
    pub shown: Bytes,
}

/// A buffer with room for each line.
pub fn line_buffer(alloc: Global) -> Result<Bytes, NoMemory>
    ensures { IfOk result (HasRoomFor LONGEST_LINE) }
{
    let mut line = Bytes::new(alloc);
    line.reserve(LONGEST_LINE)?;
    Ok(line)
}

/// A buffer with room for the bytes of each show.
pub fn show_buffer(alloc: Global) -> Result<Bytes, NoMemory>
    ensures { IfOk result (HasRoomFor MAX_TRANSFER) }
{
    let mut shown = Bytes::new(alloc);
    shown.reserve(MAX_TRANSFER)?;
    Ok(shown)
}
