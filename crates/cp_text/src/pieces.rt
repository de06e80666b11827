// Bytes at the end of a buffer, with memory taken only where room is missing.
ghost use Rattle.cp_base.specs.Growth.{Pushed};

use cp_base::{Bytes, NoMemory};

/// Adds bytes at the end. It is refused only where there is less room than they need.
pub fn push_piece(out: &mut Bytes, piece: &[u8]) -> Result<(), NoMemory>
    ensures { Pushed result out.old out.new piece.now }
{
    out.reserve(piece.len() as u64)?;
    out.append(piece);
    Ok(())
}
