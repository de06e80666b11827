//! Lone bytes of a program, loaded backwards.
ghost use Rattle.std.specs.Prelude.{◌≡◌, ◌-◌, ◌*◌, ◌<◌, ◌≤◌, None, [], ◌∷◌, ◌++◌, length, replicate, slice_get, IfSome, OnOk};
ghost use Rattle.device_model.specs.Effect.{begun};
ghost use Rattle.parts_bench.specs.Parts.{lone_bytes};

use cp_base::{Bytes, Refusal};
use program_slots::Slots;
use std::alloc::Global;

// The byte of each piece, with which `exit` begins.
const BYTE: u8 = 0x95;

// Loads so many bytes of a program of this size, of which none is loaded yet: the one at place 0 last, and each two
// places before the one that was loaded before it.
fn load_backwards(slots: &mut Slots, piece: &Bytes, size: u64, count: u64) -> Result<(), Refusal>
    requires piece { piece.now.items ≡ BYTE ∷ [] }
    requires slots { 0 < length slots.old }
    requires none { begun (slice_get slots.old 0) size ≡ replicate size None }
    requires fits { 2 * count ≤ size }
    ensures { OnOk result (begun (slice_get slots.new 0) size ≡ lone_bytes count ++ replicate (size - 2 * count) None) }
{
    let mut left = count;
    'loading: while left > 0 {
        left -= 1;
        slots.load(0, size, 2 * left, piece)?;
    }
    Ok(())
}

/// Loads so many lone bytes of a program of a size, and answers how many. `None` where they have no place or one is
/// refused.
pub fn load(alloc: Global, size: u64, count: u64) -> Option<u64>
    ensures { IfSome result (λ loaded. loaded ≡ count) }
{
    if count > size / 2 {
        return None;
    }
    let mut slots = Slots::new(alloc).ok()?;
    let piece = Bytes::from_slice(alloc, &[BYTE]).ok()?;
    load_backwards(&mut slots, &piece, size, count).ok()?;
    Some(count)
}
