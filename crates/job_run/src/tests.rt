// Worked examples: the slots of the device's own programs, marks over a part of a buffer, and a fill as work.
ghost use Rattle.std.specs.Prelude.{◌≡◌, ◌∷◌, [], IfSome};
ghost use Rattle.std.specs.Arc.{arc_value};
ghost use Rattle.job_run.specs.Works.{piece_regions, region_bytes};

use crate::own::{OwnProgram, mark, own_program};
use crate::{Work, Worked};
use cp_base::{ByteRange, Bytes, Command, Piece, SpaceId, Status};
use std::alloc::Global;
use std::sync::Arc;

#[test]
fn slots_of_own_programs(rt: HostRuntime) {
    for (slot, program) in [
        (0, None),
        (63, None),
        (64, Some(OwnProgram::Count)),
        (65, Some(OwnProgram::Sum)),
        (66, Some(OwnProgram::Compare)),
        (67, Some(OwnProgram::Classes)),
        (68, None),
    ] {
        assert_eq!(rt; own_program(slot), program, "slot {slot}");
    }
}

// Four bytes after marks for three, and how many of the three lie in the class from 3 to 5.
fn marked(alloc: Global) -> Option<(u64, Bytes)> {
    let mut into = Bytes::from_slice(alloc, &[9, 9, 9, 9]).ok()?;
    let number = mark(&[2, 3, 5], &mut into, 3, 5);
    Some((number, into))
}

#[test]
fn marks_lie_over_the_first_bytes(rt: HostRuntime) {
    let Some((number, bytes)) = marked(rt.alloc()) else {
        panic!(rt; "no memory");
    };
    assert_eq!(rt; number, 2);
    assert_eq!(rt; bytes.as_slice(), [0u8, 1, 1, 9].as_slice());
}

// The bytes 4 and 5 of memory namespace 1, both zero, as the only piece.
fn two_zeros(alloc: Global) -> Option<Vec<Piece>>
    ensures regions { IfSome result (λ ps. piece_regions ps.items ≡ record { space = SpaceId.Mem 1; start = 4; len = 2 } ∷ []) }
    ensures bytes { IfSome result (λ ps. region_bytes ps.items ≡ record { region = record { space = SpaceId.Mem 1; start = 4; len = 2 }; bytes = 0 ∷ 0 ∷ [] } ∷ []) }
{
    let range = ByteRange::new(SpaceId::Mem(1), 4, 2)?;
    let bytes = Bytes::filled(alloc, 2, 0).ok()?;
    let mut pieces = Vec::new(alloc);
    pieces.push(Piece { range, bytes }).ok()?;
    Some(pieces)
}

// A fill of these bytes with nines.
fn nines(alloc: Global) -> Option<Arc<Command>>
    ensures { IfSome result (λ c. arc_value c ≡ Command.MemFill 1 4 2 9) }
{
    let command = Command::MemFill {
        ns: 1,
        at: 4,
        len: 2,
        value: 9,
    };
    Arc::new(alloc, command).ok()
}

// What the work of that fill leaves.
fn worked(alloc: Global) -> Option<Worked> {
    let work = Work {
        command: nines(alloc)?,
        block: 512,
        pieces: two_zeros(alloc)?,
        windows: Vec::new(alloc),
        set: None,
        code: None,
        stack: Bytes::new(alloc),
        reply: Bytes::new(alloc),
    };
    Some(work.run())
}

#[test]
fn a_fill_leaves_its_bytes(rt: HostRuntime) {
    let Some(worked) = worked(rt.alloc()) else {
        panic!(rt; "no memory");
    };
    assert_eq!(rt; worked.reply.status, Status::Ok);
    assert_eq!(rt; worked.pieces.len(), 1);
    assert_eq!(rt; worked.pieces[0].bytes.as_slice(), [9u8, 9].as_slice());
}
