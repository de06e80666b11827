// Worked calls of the core, step by step: what each answers where works are held while other calls are made.
use super::{Held, Running, none_by};
use cp_base::{
    Access, Bytes, Command, Config, MAX_COMMANDS, MAX_HOSTS, MemRange, SetRanges, SpaceId, Status,
};
use device_core::{Core, Picked};
use queue_pairs::{SendCause, TakeCause};
use std::alloc::Global;
use std::sync::Arc;

const MEMORY: SpaceId = SpaceId::Mem(1);

// A program that ends with 7.
const SEVEN: [u8; 16] = [0xb7, 0, 0, 0, 7, 0, 0, 0, 0x95, 0, 0, 0, 0, 0, 0, 0];

// What a host asks for, on memory namespace 1 and slot 0.
#[derive(Clone, Copy, Debug)]
enum Asks {
    // A set of four bytes from a place on.
    Set(u64, Access),
    DropSet(u32),
    // The program that ends with 7.
    Load,
    Unload,
    Activate,
    Deactivate,
    // The program of a slot on a set.
    Execute(u32, u32),
    Read(u64, u64),
    Fill(u64, u64, u8),
    Abort(u32),
}

// What a party's turn comes to.
#[derive(Clone, Copy, Debug, PartialEq, Eq)]
enum Turn {
    Claimed,
    Did,
    Nothing,
    Rested,
}

// A call, and what it has to answer.
#[derive(Clone, Copy, Debug)]
enum Step {
    // A host submits a command under an identifier.
    Send(u32, u32, Asks, Result<u32, SendCause>),
    // A party turns to the command of a number.
    Turn(u32, u32, Turn),
    // The open claim of an index is carried out and ends.
    End(usize),
    // A host takes the reply to the command of an identifier.
    Take(u32, u32, Result<u32, TakeCause>),
    Rest,
    Pickable(u32),
    Byte(u64, Option<u8>),
    Ended(u32),
    // The entry of a number: its host, its ordinal, and what it was told. Where that is not `Ok` it has no data.
    Entry(u32, u32, u32, Status, u64),
}

// The command that a host asks for.
fn command(alloc: Global, asks: Asks) -> Option<Command> {
    Some(match asks {
        Asks::Set(at, access) => {
            let range = MemRange {
                ns: 1,
                at,
                len: 4,
                access,
            };
            Command::SetCreate {
                ranges: SetRanges::new(alloc, &[range]).ok()??,
            }
        }
        Asks::DropSet(set) => Command::SetDelete { set },
        Asks::Load => Command::Load {
            slot: 0,
            size: 16,
            at: 0,
            bytes: Bytes::from_slice(alloc, &SEVEN).ok()?,
        },
        Asks::Unload => Command::Unload { slot: 0 },
        Asks::Activate => Command::Activate { slot: 0 },
        Asks::Deactivate => Command::Deactivate { slot: 0 },
        Asks::Execute(slot, set) => Command::Execute {
            slot,
            set,
            p1: 0,
            p2: 0,
            budget: 1000,
        },
        Asks::Read(at, len) => Command::MemRead { ns: 1, at, len },
        Asks::Fill(at, len, value) => Command::MemFill {
            ns: 1,
            at,
            len,
            value,
        },
        Asks::Abort(cid) => Command::Abort { cid },
    })
}

// Whether a submit of a host is answered so.
fn sends(
    running: &mut Running,
    host: u32,
    cid: u32,
    command: Arc<Command>,
    answer: Result<u32, SendCause>,
) -> bool {
    if host == 0 || host > MAX_HOSTS {
        return false;
    }
    match running.core.submit(host, cid, command) {
        Ok(place) => answer == Ok(place),
        Err(refused) => answer == Err(refused.cause),
    }
}

// Whether a take of a host is answered so.
fn takes(running: &mut Running, host: u32, cid: u32, answer: Result<u32, TakeCause>) -> bool {
    if host == 0 || host > MAX_HOSTS {
        return false;
    }
    match running.core.take(host, cid) {
        Ok(place) => answer == Ok(place),
        Err(cause) => answer == Err(cause),
    }
}

// Whether the turn of a party comes to this. Not where the party has an open claim.
fn turns(running: &mut Running, by: u32, skip: u32, comes_to: Turn) -> bool {
    if by == 0 || by > 2 * MAX_HOSTS {
        return false;
    }
    if !none_by(&running.held, by) {
        return false;
    }
    if running.held.reserve(1).is_err() {
        return false;
    }
    match running.core.claim(by, skip) {
        Picked::Claimed { work, claim } => {
            running.held.push_reserved(Held { by, claim, work });
            comes_to == Turn::Claimed
        }
        Picked::Did => comes_to == Turn::Did,
        Picked::Nothing => comes_to == Turn::Nothing,
        Picked::Rested => comes_to == Turn::Rested,
    }
}

// Whether there is an open claim of an index, which ends.
fn ends(running: &mut Running, index: usize) -> bool {
    if index >= running.open() {
        return false;
    }
    running.finish(index);
    true
}

// Whether the entry of a number is this.
fn tells(running: &Running, k: u32, host: u32, ordinal: u32, status: Status, number: u64) -> bool {
    match running.core().entry(k) {
        Some(entry) => {
            entry.host == host
                && entry.ordinal == ordinal
                && entry.reply.status == status
                && entry.reply.result == number
                && (status == Status::Ok || entry.reply.bytes.is_empty())
        }
        None => false,
    }
}

// Whether a host's command is answered so, where there is memory for it.
fn submits(
    running: &mut Running,
    alloc: Global,
    host: u32,
    cid: u32,
    asks: Asks,
    answer: Result<u32, SendCause>,
) -> bool {
    let Some(command) = command(alloc, asks) else {
        return false;
    };
    match Arc::new(alloc, command) {
        Ok(command) => sends(running, host, cid, command, answer),
        Err(_) => false,
    }
}

// Whether a step is answered as it says.
fn follows(running: &mut Running, alloc: Global, step: Step) -> bool {
    match step {
        Step::Send(host, cid, asks, answer) => submits(running, alloc, host, cid, asks, answer),
        Step::Turn(by, skip, comes_to) => turns(running, by, skip, comes_to),
        Step::End(index) => ends(running, index),
        Step::Take(host, cid, answer) => takes(running, host, cid, answer),
        Step::Rest => {
            running.rest();
            true
        }
        Step::Pickable(count) => running.core().pickable() == count,
        Step::Byte(at, byte) => running.core().byte(MEMORY, at) == byte,
        Step::Ended(count) => running.core().ended() == count,
        Step::Entry(k, host, ordinal, status, number) => {
            tells(running, k, host, ordinal, status, number)
        }
    }
}

// How many steps of a list are answered as they say, up to the first that is not, on a new device for so many
// commands, with queues of a depth and 16 bytes of memory namespace 1.
fn followed(alloc: Global, depth: u32, commands: u32, steps: &[Step]) -> Option<usize> {
    if commands > MAX_COMMANDS {
        return None;
    }
    let config = Config::new(512, depth, 1000)?.with_size(MEMORY, 16)?;
    let core = Core::new(alloc, &config, commands).ok()?;
    let mut running = Running::new(alloc, core, 32).ok()?;
    for (index, step) in steps.iter().enumerate() {
        if !follows(&mut running, alloc, *step) {
            return Some(index);
        }
    }
    Some(steps.len())
}

// Of five commands three make a set and an active program; the set cannot be deleted while it is in use.
const FIVE: [Step; 25] = [
    Step::Send(1, 1, Asks::Set(0, Access::ReadOnly), Ok(0)),
    Step::Send(1, 2, Asks::Load, Ok(1)),
    Step::Send(1, 3, Asks::Activate, Ok(2)),
    Step::Send(1, 4, Asks::Execute(0, 1), Ok(3)),
    Step::Send(1, 5, Asks::DropSet(1), Ok(4)),
    Step::Send(1, 6, Asks::Load, Err(SendCause::Spent)),
    Step::Pickable(5),
    Step::Turn(17, 0, Turn::Did),
    Step::Turn(17, 0, Turn::Did),
    Step::Turn(17, 0, Turn::Did),
    Step::Turn(17, 0, Turn::Claimed),
    Step::Pickable(0),
    Step::Turn(18, 0, Turn::Nothing),
    Step::Take(1, 4, Err(TakeCause::NotYet)),
    Step::End(0),
    Step::Turn(18, 0, Turn::Did),
    Step::Ended(5),
    Step::Entry(3, 1, 4, Status::Ok, 7),
    Step::Entry(4, 1, 5, Status::Ok, 0),
    Step::Turn(17, 0, Turn::Nothing),
    Step::Rest,
    Step::Turn(17, 0, Turn::Rested),
    Step::Take(1, 4, Ok(9)),
    Step::Take(1, 4, Err(TakeCause::NotOutstanding)),
    Step::Take(1, 5, Ok(10)),
];

// Two reads of the same bytes are carried out at once, and leave them at home; a fill waits for both.
const READS: [Step; 13] = [
    Step::Send(1, 1, Asks::Read(0, 4), Ok(0)),
    Step::Send(2, 1, Asks::Read(0, 4), Ok(1)),
    Step::Send(1, 2, Asks::Fill(1, 1, 9), Ok(2)),
    Step::Turn(17, 0, Turn::Claimed),
    Step::Turn(18, 0, Turn::Claimed),
    Step::Byte(1, Some(0)),
    Step::Turn(19, 0, Turn::Nothing),
    Step::End(0),
    Step::Turn(17, 0, Turn::Nothing),
    Step::End(0),
    Step::Turn(17, 0, Turn::Claimed),
    Step::Byte(1, None),
    Step::End(0),
];

// Two executions on one read-only set run at once, on a read-write set one after the other.
const SETS: [Step; 16] = [
    Step::Send(1, 1, Asks::Set(0, Access::ReadOnly), Ok(0)),
    Step::Send(1, 2, Asks::Set(8, Access::ReadWrite), Ok(1)),
    Step::Send(1, 3, Asks::Execute(64, 1), Ok(2)),
    Step::Send(2, 1, Asks::Execute(64, 1), Ok(3)),
    Step::Send(1, 4, Asks::Execute(64, 2), Ok(4)),
    Step::Send(2, 2, Asks::Execute(64, 2), Ok(5)),
    Step::Turn(17, 0, Turn::Did),
    Step::Turn(17, 0, Turn::Did),
    Step::Turn(17, 0, Turn::Claimed),
    Step::Turn(18, 0, Turn::Claimed),
    Step::Turn(19, 0, Turn::Claimed),
    Step::Turn(20, 0, Turn::Nothing),
    Step::Byte(0, Some(0)),
    Step::Byte(8, None),
    Step::End(2),
    Step::Turn(20, 0, Turn::Claimed),
];

// The second of three is picked, and a host's commands end in another order than they were sent.
const SECOND: [Step; 14] = [
    Step::Send(1, 1, Asks::Fill(0, 4, 1), Ok(0)),
    Step::Send(1, 2, Asks::Fill(4, 4, 2), Ok(1)),
    Step::Send(1, 3, Asks::Fill(8, 4, 3), Ok(2)),
    Step::Turn(17, 3, Turn::Nothing),
    Step::Turn(17, 1, Turn::Claimed),
    Step::Byte(0, Some(0)),
    Step::Byte(4, None),
    Step::End(0),
    Step::Byte(4, Some(2)),
    Step::Turn(17, 0, Turn::Claimed),
    Step::End(0),
    Step::Entry(0, 1, 2, Status::Ok, 0),
    Step::Entry(1, 1, 1, Status::Ok, 0),
    Step::Take(1, 2, Ok(4)),
];

// A full queue is told before an identifier in use.
const FULL: [Step; 6] = [
    Step::Send(1, 1, Asks::Abort(9), Ok(0)),
    Step::Send(1, 1, Asks::Abort(9), Err(SendCause::CidBusy)),
    Step::Send(1, 2, Asks::Abort(9), Ok(1)),
    Step::Send(1, 1, Asks::Abort(9), Err(SendCause::QueueFull)),
    Step::Send(1, 3, Asks::Abort(9), Err(SendCause::QueueFull)),
    Step::Send(2, 1, Asks::Abort(9), Ok(2)),
];

// An Abort withdraws a fill that waits; both replies are posted at its place.
const WITHDRAWN: [Step; 8] = [
    Step::Send(1, 1, Asks::Fill(0, 4, 1), Ok(0)),
    Step::Send(1, 2, Asks::Abort(1), Ok(1)),
    Step::Turn(17, 1, Turn::Did),
    Step::Ended(2),
    Step::Entry(0, 1, 2, Status::Ok, 0),
    Step::Entry(1, 1, 1, Status::Aborted, 0),
    Step::Take(1, 1, Ok(2)),
    Step::Take(1, 2, Ok(2)),
];

// A load that is withdrawn puts nothing into its slot.
const LOAD_WITHDRAWN: [Step; 9] = [
    Step::Send(1, 1, Asks::Load, Ok(0)),
    Step::Send(1, 2, Asks::Abort(1), Ok(1)),
    Step::Send(1, 3, Asks::Activate, Ok(2)),
    Step::Turn(17, 1, Turn::Did),
    Step::Entry(0, 1, 2, Status::Ok, 0),
    Step::Entry(1, 1, 1, Status::Aborted, 0),
    Step::Turn(17, 0, Turn::Did),
    Step::Entry(2, 1, 3, Status::SlotEmpty, 0),
    Step::Take(1, 1, Ok(3)),
];

// Of a set whose making is withdrawn nothing is there, and its number is that of the next set.
const SET_WITHDRAWN: [Step; 12] = [
    Step::Send(1, 1, Asks::Set(0, Access::ReadOnly), Ok(0)),
    Step::Send(1, 2, Asks::Abort(1), Ok(1)),
    Step::Send(1, 3, Asks::DropSet(1), Ok(2)),
    Step::Send(1, 4, Asks::Set(0, Access::ReadOnly), Ok(3)),
    Step::Turn(17, 1, Turn::Did),
    Step::Entry(0, 1, 2, Status::Ok, 0),
    Step::Entry(1, 1, 1, Status::Aborted, 0),
    Step::Turn(17, 0, Turn::Did),
    Step::Entry(2, 1, 3, Status::NoSuchSet, 0),
    Step::Turn(17, 0, Turn::Did),
    Step::Entry(3, 1, 4, Status::Ok, 1),
    Step::Take(1, 1, Ok(4)),
];

// A read that is withdrawn gives no data, and nobody can turn to it any more.
const READ_WITHDRAWN: [Step; 10] = [
    Step::Send(1, 1, Asks::Read(0, 4), Ok(0)),
    Step::Send(1, 2, Asks::Abort(1), Ok(1)),
    Step::Pickable(2),
    Step::Turn(17, 1, Turn::Did),
    Step::Entry(0, 1, 2, Status::Ok, 0),
    Step::Entry(1, 1, 1, Status::Aborted, 0),
    Step::Pickable(0),
    Step::Turn(17, 0, Turn::Nothing),
    Step::Ended(2),
    Step::Take(1, 1, Ok(2)),
];

// A set whose deletion is withdrawn is still there, and can be deleted.
const DELETION_WITHDRAWN: [Step; 12] = [
    Step::Send(1, 1, Asks::Set(0, Access::ReadOnly), Ok(0)),
    Step::Send(1, 2, Asks::DropSet(1), Ok(1)),
    Step::Send(1, 3, Asks::Abort(2), Ok(2)),
    Step::Send(1, 4, Asks::DropSet(1), Ok(3)),
    Step::Turn(17, 0, Turn::Did),
    Step::Entry(0, 1, 1, Status::Ok, 1),
    Step::Turn(17, 1, Turn::Did),
    Step::Entry(1, 1, 3, Status::Ok, 0),
    Step::Entry(2, 1, 2, Status::Aborted, 0),
    Step::Turn(17, 0, Turn::Did),
    Step::Entry(3, 1, 4, Status::Ok, 0),
    Step::Take(1, 2, Ok(5)),
];

// A program whose activation is withdrawn cannot be executed, and can be activated later.
const ACTIVATION_WITHDRAWN: [Step; 14] = [
    Step::Send(1, 1, Asks::Load, Ok(0)),
    Step::Send(1, 2, Asks::Activate, Ok(1)),
    Step::Send(1, 3, Asks::Abort(2), Ok(2)),
    Step::Send(1, 4, Asks::Execute(0, 1), Ok(3)),
    Step::Send(1, 5, Asks::Activate, Ok(4)),
    Step::Turn(17, 0, Turn::Did),
    Step::Turn(17, 1, Turn::Did),
    Step::Entry(1, 1, 3, Status::Ok, 0),
    Step::Entry(2, 1, 2, Status::Aborted, 0),
    Step::Turn(17, 0, Turn::Did),
    Step::Entry(3, 1, 4, Status::SlotInactive, 0),
    Step::Turn(17, 0, Turn::Did),
    Step::Entry(4, 1, 5, Status::Ok, 0),
    Step::Take(1, 2, Ok(6)),
];

// A program of which an unload is withdrawn can be activated; when its deactivation is withdrawn too, it is active.
const SLOT_STAYS: [Step; 16] = [
    Step::Send(1, 1, Asks::Load, Ok(0)),
    Step::Send(1, 2, Asks::Unload, Ok(1)),
    Step::Send(1, 3, Asks::Abort(2), Ok(2)),
    Step::Send(1, 4, Asks::Activate, Ok(3)),
    Step::Send(1, 5, Asks::Deactivate, Ok(4)),
    Step::Send(1, 6, Asks::Abort(5), Ok(5)),
    Step::Send(1, 7, Asks::Unload, Ok(6)),
    Step::Turn(17, 0, Turn::Did),
    Step::Turn(17, 1, Turn::Did),
    Step::Entry(2, 1, 2, Status::Aborted, 0),
    Step::Turn(17, 0, Turn::Did),
    Step::Entry(3, 1, 4, Status::Ok, 0),
    Step::Turn(17, 1, Turn::Did),
    Step::Entry(5, 1, 5, Status::Aborted, 0),
    Step::Turn(17, 0, Turn::Did),
    Step::Entry(6, 1, 7, Status::SlotActive, 0),
];

// An execution that is withdrawn does not hold its set, which can be deleted at once.
const EXECUTION_WITHDRAWN: [Step; 12] = [
    Step::Send(1, 1, Asks::Set(0, Access::ReadOnly), Ok(0)),
    Step::Send(1, 2, Asks::Execute(64, 1), Ok(1)),
    Step::Send(1, 3, Asks::Abort(2), Ok(2)),
    Step::Send(1, 4, Asks::DropSet(1), Ok(3)),
    Step::Turn(17, 0, Turn::Did),
    Step::Turn(17, 1, Turn::Did),
    Step::Entry(1, 1, 3, Status::Ok, 0),
    Step::Entry(2, 1, 2, Status::Aborted, 0),
    Step::Turn(17, 0, Turn::Did),
    Step::Entry(3, 1, 4, Status::Ok, 0),
    Step::Take(1, 2, Ok(5)),
    Step::Take(1, 3, Ok(5)),
];

// A fill that has to wait for another one cannot be picked, and can be withdrawn. The other one is carried out.
const BLOCKED: [Step; 14] = [
    Step::Send(1, 1, Asks::Fill(0, 4, 1), Ok(0)),
    Step::Send(1, 2, Asks::Fill(2, 4, 2), Ok(1)),
    Step::Send(1, 3, Asks::Abort(2), Ok(2)),
    Step::Turn(17, 0, Turn::Claimed),
    Step::Pickable(1),
    Step::Turn(18, 0, Turn::Did),
    Step::Entry(0, 1, 3, Status::Ok, 0),
    Step::Entry(1, 1, 2, Status::Aborted, 0),
    Step::Byte(5, Some(0)),
    Step::End(0),
    Step::Entry(2, 1, 1, Status::Ok, 0),
    Step::Byte(3, Some(1)),
    Step::Byte(5, Some(0)),
    Step::Turn(17, 0, Turn::Nothing),
];

// An Abort comes too late for a fill that is claimed.
const LATE: [Step; 8] = [
    Step::Send(1, 1, Asks::Fill(0, 4, 1), Ok(0)),
    Step::Send(1, 2, Asks::Abort(1), Ok(1)),
    Step::Turn(17, 0, Turn::Claimed),
    Step::Turn(18, 0, Turn::Did),
    Step::Ended(1),
    Step::Entry(0, 1, 2, Status::Ok, 1),
    Step::End(0),
    Step::Entry(1, 1, 1, Status::Ok, 0),
];

// An Abort comes too late for an execution that is claimed: it counts the four zeros of its set, and holds that until it
// ends.
const EXECUTION_CLAIMED: [Step; 14] = [
    Step::Send(1, 1, Asks::Set(0, Access::ReadOnly), Ok(0)),
    Step::Send(1, 2, Asks::Execute(64, 1), Ok(1)),
    Step::Send(1, 3, Asks::Abort(2), Ok(2)),
    Step::Send(1, 4, Asks::DropSet(1), Ok(3)),
    Step::Turn(17, 0, Turn::Did),
    Step::Turn(17, 0, Turn::Claimed),
    Step::Turn(18, 0, Turn::Did),
    Step::Entry(1, 1, 3, Status::Ok, 1),
    Step::Turn(18, 0, Turn::Nothing),
    Step::End(0),
    Step::Entry(2, 1, 2, Status::Ok, 4),
    Step::Turn(18, 0, Turn::Did),
    Step::Entry(3, 1, 4, Status::Ok, 0),
    Step::Take(1, 2, Ok(7)),
];

// An Abort withdraws nothing of a fill that is done, whose reply stays where it was posted.
const DONE: [Step; 10] = [
    Step::Send(1, 1, Asks::Fill(0, 4, 1), Ok(0)),
    Step::Turn(17, 0, Turn::Claimed),
    Step::End(0),
    Step::Send(1, 2, Asks::Abort(1), Ok(3)),
    Step::Turn(17, 0, Turn::Did),
    Step::Entry(0, 1, 1, Status::Ok, 0),
    Step::Entry(1, 1, 2, Status::Ok, 1),
    Step::Byte(0, Some(1)),
    Step::Take(1, 1, Ok(2)),
    Step::Take(1, 2, Ok(4)),
];

// An Abort withdraws nothing of a fill that is taken before the Abort is done, or before it is sent.
const TAKEN: [Step; 13] = [
    Step::Send(1, 1, Asks::Fill(0, 4, 1), Ok(0)),
    Step::Send(1, 2, Asks::Abort(1), Ok(1)),
    Step::Turn(17, 0, Turn::Claimed),
    Step::End(0),
    Step::Take(1, 1, Ok(3)),
    Step::Send(1, 3, Asks::Abort(1), Ok(5)),
    Step::Turn(17, 0, Turn::Did),
    Step::Turn(17, 0, Turn::Did),
    Step::Entry(0, 1, 1, Status::Ok, 0),
    Step::Entry(1, 1, 2, Status::Ok, 1),
    Step::Entry(2, 1, 3, Status::Ok, 1),
    Step::Byte(0, Some(1)),
    Step::Take(1, 1, Err(TakeCause::NotOutstanding)),
];

// A fill that is sent under the identifier of a taken one is not what an Abort of before names, and is carried out.
const REUSED: [Step; 14] = [
    Step::Send(1, 1, Asks::Fill(0, 4, 1), Ok(0)),
    Step::Send(1, 2, Asks::Abort(1), Ok(1)),
    Step::Turn(17, 0, Turn::Claimed),
    Step::End(0),
    Step::Take(1, 1, Ok(3)),
    Step::Send(1, 1, Asks::Fill(4, 4, 2), Ok(5)),
    Step::Turn(17, 0, Turn::Did),
    Step::Entry(1, 1, 2, Status::Ok, 1),
    Step::Turn(17, 0, Turn::Claimed),
    Step::End(0),
    Step::Entry(2, 1, 3, Status::Ok, 0),
    Step::Byte(4, Some(2)),
    Step::Take(1, 1, Ok(8)),
    Step::Take(1, 2, Ok(6)),
];

// After a fill was withdrawn and taken, an Abort names the fill that is sent under its identifier then.
const NAMED_ANEW: [Step; 14] = [
    Step::Send(1, 1, Asks::Fill(0, 4, 1), Ok(0)),
    Step::Send(1, 2, Asks::Abort(1), Ok(1)),
    Step::Turn(17, 1, Turn::Did),
    Step::Take(1, 1, Ok(2)),
    Step::Send(1, 1, Asks::Fill(4, 4, 2), Ok(4)),
    Step::Send(1, 3, Asks::Abort(1), Ok(5)),
    Step::Turn(17, 1, Turn::Did),
    Step::Entry(1, 1, 1, Status::Aborted, 0),
    Step::Entry(2, 1, 4, Status::Ok, 0),
    Step::Entry(3, 1, 3, Status::Aborted, 0),
    Step::Byte(4, Some(0)),
    Step::Take(1, 1, Ok(6)),
    Step::Take(1, 2, Ok(2)),
    Step::Take(1, 3, Ok(6)),
];

// An Abort names no command of another host, whose fill is carried out, and one of its own host under the same
// identifier.
const OTHER_HOST: [Step; 15] = [
    Step::Send(1, 1, Asks::Fill(0, 4, 1), Ok(0)),
    Step::Send(2, 2, Asks::Abort(1), Ok(1)),
    Step::Send(2, 1, Asks::Fill(4, 4, 2), Ok(2)),
    Step::Send(2, 3, Asks::Abort(1), Ok(3)),
    Step::Turn(17, 1, Turn::Did),
    Step::Entry(0, 2, 1, Status::Ok, 1),
    Step::Turn(17, 2, Turn::Did),
    Step::Entry(1, 2, 3, Status::Ok, 0),
    Step::Entry(2, 2, 2, Status::Aborted, 0),
    Step::Turn(17, 0, Turn::Claimed),
    Step::End(0),
    Step::Entry(3, 1, 1, Status::Ok, 0),
    Step::Byte(0, Some(1)),
    Step::Byte(4, Some(0)),
    Step::Take(1, 1, Ok(7)),
];

// The identifiers of a host's second queue begin at 65,536. An Abort names a command of that queue from the first one, and
// none that has the same number in its own queue.
const OTHER_QUEUE: [Step; 16] = [
    Step::Send(1, 1, Asks::Fill(0, 4, 1), Ok(0)),
    Step::Send(1, 2, Asks::Abort(65_537), Ok(1)),
    Step::Send(1, 65_537, Asks::Fill(4, 4, 2), Ok(2)),
    Step::Send(1, 3, Asks::Abort(65_537), Ok(3)),
    Step::Turn(17, 1, Turn::Did),
    Step::Entry(0, 1, 2, Status::Ok, 1),
    Step::Turn(17, 2, Turn::Did),
    Step::Entry(1, 1, 4, Status::Ok, 0),
    Step::Entry(2, 1, 3, Status::Aborted, 0),
    Step::Turn(17, 0, Turn::Claimed),
    Step::End(0),
    Step::Entry(3, 1, 1, Status::Ok, 0),
    Step::Byte(0, Some(1)),
    Step::Byte(4, Some(0)),
    Step::Take(1, 65_537, Ok(5)),
    Step::Take(1, 1, Ok(7)),
];

// An Abort that is withdrawn withdraws nothing: the fill that it names is carried out.
const ABORT_WITHDRAWN: [Step; 13] = [
    Step::Send(1, 1, Asks::Fill(0, 4, 1), Ok(0)),
    Step::Send(1, 2, Asks::Abort(1), Ok(1)),
    Step::Send(1, 3, Asks::Abort(2), Ok(2)),
    Step::Turn(17, 2, Turn::Did),
    Step::Entry(0, 1, 3, Status::Ok, 0),
    Step::Entry(1, 1, 2, Status::Aborted, 0),
    Step::Pickable(1),
    Step::Turn(17, 0, Turn::Claimed),
    Step::End(0),
    Step::Entry(2, 1, 1, Status::Ok, 0),
    Step::Byte(0, Some(1)),
    Step::Take(1, 2, Ok(3)),
    Step::Take(1, 1, Ok(5)),
];

// An Abort is withdrawn, and then another one withdraws the fill that both name.
const WITHDRAWN_BY_ANOTHER: [Step; 14] = [
    Step::Send(1, 1, Asks::Fill(0, 4, 1), Ok(0)),
    Step::Send(1, 2, Asks::Abort(1), Ok(1)),
    Step::Send(1, 3, Asks::Abort(2), Ok(2)),
    Step::Send(1, 4, Asks::Abort(1), Ok(3)),
    Step::Turn(17, 2, Turn::Did),
    Step::Entry(0, 1, 3, Status::Ok, 0),
    Step::Entry(1, 1, 2, Status::Aborted, 0),
    Step::Turn(17, 1, Turn::Did),
    Step::Entry(2, 1, 4, Status::Ok, 0),
    Step::Entry(3, 1, 1, Status::Aborted, 0),
    Step::Pickable(0),
    Step::Byte(0, Some(0)),
    Step::Take(1, 2, Ok(4)),
    Step::Take(1, 1, Ok(5)),
];

// Of two Aborts of one fill the first that is done withdraws it. An Abort of its own identifier names nothing.
const NAMED_TWICE: [Step; 14] = [
    Step::Send(1, 1, Asks::Fill(0, 4, 1), Ok(0)),
    Step::Send(1, 2, Asks::Abort(1), Ok(1)),
    Step::Send(1, 3, Asks::Abort(1), Ok(2)),
    Step::Send(1, 4, Asks::Abort(4), Ok(3)),
    Step::Turn(17, 2, Turn::Did),
    Step::Entry(0, 1, 3, Status::Ok, 0),
    Step::Entry(1, 1, 1, Status::Aborted, 0),
    Step::Turn(17, 0, Turn::Did),
    Step::Entry(2, 1, 2, Status::Ok, 1),
    Step::Turn(17, 0, Turn::Did),
    Step::Entry(3, 1, 4, Status::Ok, 1),
    Step::Byte(0, Some(0)),
    Step::Take(1, 1, Ok(4)),
    Step::Take(1, 2, Ok(5)),
];

#[test]
fn calls_are_answered(rt: HostRuntime) {
    let alloc = rt.alloc();
    assert_eq!(rt; followed(alloc, 16, 5, &FIVE), Some(FIVE.len()));
    assert_eq!(rt; followed(alloc, 16, 3, &READS), Some(READS.len()));
    assert_eq!(rt; followed(alloc, 16, 6, &SETS), Some(SETS.len()));
    assert_eq!(rt; followed(alloc, 16, 3, &SECOND), Some(SECOND.len()));
    assert_eq!(rt; followed(alloc, 2, 4, &FULL), Some(FULL.len()));
}

#[test]
fn commands_of_each_kind_are_withdrawn(rt: HostRuntime) {
    for (what, steps) in [
        ("a fill", WITHDRAWN.as_slice()),
        ("a load", LOAD_WITHDRAWN.as_slice()),
        ("a setcreate", SET_WITHDRAWN.as_slice()),
        ("a memread", READ_WITHDRAWN.as_slice()),
        ("a setdelete", DELETION_WITHDRAWN.as_slice()),
        ("an activate", ACTIVATION_WITHDRAWN.as_slice()),
        ("an unload and a deactivate", SLOT_STAYS.as_slice()),
        ("an execute", EXECUTION_WITHDRAWN.as_slice()),
        ("a fill that meets a claim", BLOCKED.as_slice()),
        ("an Abort", ABORT_WITHDRAWN.as_slice()),
        (
            "an Abort, and then its fill",
            WITHDRAWN_BY_ANOTHER.as_slice(),
        ),
    ] {
        assert_eq!(rt;
            followed(rt.alloc(), 16, 7, steps),
            Some(steps.len()),
            "{what}"
        );
    }
}

#[test]
fn aborts_withdraw_what_they_name_and_still_waits(rt: HostRuntime) {
    for (what, depth, steps) in [
        ("a fill that is claimed", 16, LATE.as_slice()),
        (
            "an execution that is claimed",
            16,
            EXECUTION_CLAIMED.as_slice(),
        ),
        ("a fill that is done", 16, DONE.as_slice()),
        ("a fill that is taken", 16, TAKEN.as_slice()),
        ("a later fill", 16, REUSED.as_slice()),
        ("a fill after another one", 16, NAMED_ANEW.as_slice()),
        ("a fill of another host", 16, OTHER_HOST.as_slice()),
        // Two queues of two commands each.
        ("a fill of another queue", 4, OTHER_QUEUE.as_slice()),
        ("one fill twice", 16, NAMED_TWICE.as_slice()),
    ] {
        assert_eq!(rt;
            followed(rt.alloc(), depth, 4, steps),
            Some(steps.len()),
            "{what}"
        );
    }
}
