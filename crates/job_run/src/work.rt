// Work, and what it leaves.
ghost use Rattle.std.specs.Prelude.{◌≡◌, ◌≤◌, ◌∷◌, [], ℕ, length, map, option_map, replicate, vec_capacity};
ghost use Rattle.cp_base.specs.Answer.{only_status};
ghost use Rattle.cp_base.specs.Checks.{destination_of};
ghost use Rattle.cp_base.specs.Configuration.{Configuration};
ghost use Rattle.cp_base.specs.declared.limits.TheConstants.{MAX_ITEMS};
ghost use Rattle.device_model.specs.Execution.{Executable, outcome_on, told_of};
ghost use Rattle.device_model.specs.State.{State};
ghost use Rattle.trail_model.specs.LocalEffects.{ranges_with};
ghost use Rattle.trail_model.specs.Pieces.{RegionBytes, carried, gathered_joined};
ghost use Rattle.job_run.specs.Works.{IsWork, IsWorkDone, byte_counts, memory_in, piece_holding, pieces_with, region_bytes};
ghost use Rattle.job_run.specs.private.Kinds.{IsCopyable, IsExecutable, IsReadable, IsWritable, Leaves, source_regions};

use crate::copies::copy;
use crate::own::execute_own;
use crate::pieces::{fill, only, write};
use crate::programs::execute;
use bpf_decode::Decoded;
use confined_view::Window;
use cp_base::{Bytes, Command, CopySource, MemRange, Piece, RangeList, Reply, SpaceId, Status};
use std::sync::Arc;

/// The work of a claimed command: all that it needs to be carried out with nothing else at hand.
#[derive(Debug, Drop)]
pub struct Work {
    /// The command, which moves bytes and passes its checks.
    pub command: Arc<Command>,
    /// The length of a block, in bytes.
    pub block: u32,
    /// The bytes that the command carries: for an execution the ranges of its set in their order, otherwise
    /// the runs that it may write and those that it reads, in one order.
    pub pieces: Vec<Piece>,
    /// No window, with room for one on each piece of an execution.
    pub windows: Vec<Window>,
    /// The ranges of an execution's set.
    pub set: Option<RangeList>,
    /// The program of an execution, unless it is one of the device.
    pub code: Option<Arc<Decoded>>,
    /// The stack of an execution, all zero.
    pub stack: Bytes,
    /// No byte, with room for those that are read.
    pub reply: Bytes,
}

/// What work leaves: the pieces with their new bytes, and the answer.
#[derive(Debug, Drop)]
pub struct Worked {
    pub pieces: Vec<Piece>,
    pub reply: Reply,
}

// What a host asks of an execution.
#[derive(Clone, Copy, Debug)]
struct Asked {
    slot: u32,
    p1: u64,
    p2: u64,
    budget: u64,
}

impl Work {
    /// Carries the command out on its pieces, and takes no memory. The answer is that of the command's local
    /// effect; the pieces that it writes have their new bytes, and each other is as it was.
    pub fn run(self) -> Worked
        requires { (c : Configuration) × (s : State) × IsWork c s self }
        ensures { (c : Configuration) (s : State) → IsWork c s self → IsWorkDone c s self result }
    {
        let Work {
            command,
            block,
            pieces,
            windows,
            set,
            code,
            stack,
            reply,
        } = self;
        let unit = u64::from(block);
        match &*command {
            Command::NvmRead { .. } => read(pieces, reply),
            Command::NvmWrite { bytes, .. } => written(pieces, reply, bytes.as_slice()),
            Command::NvmZeroes { .. } => filled(pieces, reply, 0),
            Command::NvmCopy { ns, lba, from } => {
                let start = *lba * unit;
                copied(
                    pieces,
                    reply,
                    block,
                    SpaceId::Nvm(*ns),
                    start,
                    from.as_slice(),
                )
            }
            Command::MemRead { .. } => read(pieces, reply),
            Command::MemWrite { bytes, .. } => written(pieces, reply, bytes.as_slice()),
            Command::MemFill { value, .. } => filled(pieces, reply, *value),
            Command::MemCopy { ns, at, from } => {
                copied(
                    pieces,
                    reply,
                    block,
                    SpaceId::Mem(*ns),
                    *at,
                    from.as_slice(),
                )
            }
            Command::Execute {
                slot,
                p1,
                p2,
                budget,
                ..
            } => {
                let Some(ranges) = &set else {
                    return leave(pieces, Status::Ok, 0, reply);
                };
                let asked = Asked {
                    slot: *slot,
                    p1: *p1,
                    p2: *p2,
                    budget: *budget,
                };
                executed(
                    pieces,
                    reply,
                    ranges.as_slice(),
                    windows,
                    code,
                    stack,
                    asked,
                )
            }
            Command::SetCreate { .. }
            | Command::SetDelete { .. }
            | Command::Load { .. }
            | Command::Unload { .. }
            | Command::Activate { .. }
            | Command::Deactivate { .. }
            | Command::Abort { .. } => leave(pieces, Status::Ok, 0, reply),
        }
    }
}

// What a read leaves.
fn read(pieces: Vec<Piece>, reply: Bytes) -> Worked
    requires { IsReadable pieces.items reply }
    ensures { (piece : RegionBytes) → region_bytes pieces.items ≡ piece ∷ []
        → Leaves result (record { status = Status.Ok; result = 0; bytes = piece.bytes }) (region_bytes pieces.items) }
{
    let mut reply = reply;
    reply.append(only(&pieces));
    leave(pieces, Status::Ok, 0, reply)
}

// What a write of bytes leaves.
fn written(pieces: Vec<Piece>, reply: Bytes, bytes: &[u8]) -> Worked
    requires { IsWritable pieces.items reply (length bytes.now) }
    ensures { Leaves result (only_status Status.Ok) (map (piece_holding bytes.now) (region_bytes pieces.items)) }
{
    let mut pieces = pieces;
    write(&mut pieces, bytes);
    leave(pieces, Status::Ok, 0, reply)
}

// What one byte in all places leaves.
fn filled(pieces: Vec<Piece>, reply: Bytes, value: u8) -> Worked
    requires { (len : ℕ) × IsWritable pieces.items reply len }
    ensures { (len : ℕ) → byte_counts (region_bytes pieces.items) ≡ len ∷ []
        → Leaves result (only_status Status.Ok)
        (map (piece_holding (replicate len value)) (region_bytes pieces.items)) }
{
    let mut pieces = pieces;
    fill(&mut pieces, value);
    leave(pieces, Status::Ok, 0, reply)
}

// What a copy of sources to a place leaves.
fn copied(
    pieces: Vec<Piece>,
    reply: Bytes,
    block: u32,
    space: SpaceId,
    start: u64,
    from: &[CopySource],
) -> Worked
    requires { IsCopyable pieces.items reply block space start from.now }
    ensures { Leaves result (only_status Status.Ok) (pieces_with (record {
      region = destination_of space start (source_regions block from.now);
      bytes = gathered_joined (carried (region_bytes pieces.items)) (source_regions block from.now);
    }) (region_bytes pieces.items)) }
{
    let mut pieces = pieces;
    copy(&mut pieces, block, space, start, from);
    leave(pieces, Status::Ok, 0, reply)
}

// What an execution leaves: of the code that is given, and where there is none of the device's own program.
fn executed(
    pieces: Vec<Piece>,
    reply: Bytes,
    ranges: &[MemRange],
    windows: Vec<Window>,
    code: Option<Arc<Decoded>>,
    stack: Bytes,
    asked: Asked,
) -> Worked
    requires few { length ranges.now ≤ MAX_ITEMS }
    requires empty { reply.items ≡ [] }
    requires ready { (runs : Executable)
        × IsExecutable runs ranges.now pieces.items windows.items (vec_capacity windows)
        (option_map (λ decoded. decoded.value) code) stack asked.slot asked.budget }
    ensures { (runs : Executable) → IsExecutable runs ranges.now pieces.items windows.items (vec_capacity windows)
        (option_map (λ decoded. decoded.value) code) stack asked.slot asked.budget
        → Leaves result
        (told_of asked.budget (outcome_on runs ranges.now (memory_in pieces.items) asked.p1 asked.p2 asked.budget).ending)
        (ranges_with (outcome_on runs ranges.now (memory_in pieces.items) asked.p1 asked.p2 asked.budget).memory ranges.now) }
{
    let mut pieces = pieces;
    let Asked {
        slot,
        p1,
        p2,
        budget,
    } = asked;
    match &code {
        Some(code) => {
            let (status, value) = execute(
                &mut pieces,
                ranges,
                windows,
                code,
                stack,
                p1,
                p2,
                budget,
            );
            leave(pieces, status, value, reply)
        }
        None => {
            let (status, value) = execute_own(&mut pieces, ranges, slot, p1, p2, budget);
            leave(pieces, status, value, reply)
        }
    }
}

// What work leaves, of its parts.
fn leave(pieces: Vec<Piece>, status: Status, value: u64, bytes: Bytes) -> Worked
    ensures { Leaves result (record { status = status; result = value; bytes = bytes.items })
        (region_bytes pieces.items) }
{
    Worked {
        pieces,
        reply: Reply {
            status,
            result: value,
            bytes,
        },
    }
}
