// What no clause says: worked examples, the states against the commands, and the limits at their edges.
use cp_base::{Bytes, Refusal, Status};
use program_slots::Slots;
use std::alloc::Global;

// R0 is set to 7; the exit.
const SET: [u8; 8] = [0xb7, 0, 0, 0, 7, 0, 0, 0];

const EXIT: [u8; 8] = [0x95, 0, 0, 0, 0, 0, 0, 0];

// A command on one slot.
#[derive(Clone, Copy, Debug)]
enum Step {
    Load(u64, u64, [u8; 8]),
    Unload,
    Activate,
    Deactivate,
}

// What a host is told.
fn told(answer: Result<(), Refusal>) -> (Status, u64) {
    match answer {
        Ok(()) => (Status::Ok, 0),
        Err(refusal) => (refusal.status, refusal.result),
    }
}

// What a host is told of a piece.
fn loaded(
    alloc: Global,
    slots: &mut Slots,
    slot: u32,
    size: u64,
    at: u64,
    piece: &[u8],
) -> Option<(Status, u64)> {
    let bytes = Bytes::from_slice(alloc, piece).ok()?;
    Some(told(slots.load(slot, size, at, &bytes)))
}

// What a host is told of a command on a slot.
fn done(alloc: Global, slots: &mut Slots, slot: u32, step: Step) -> Option<(Status, u64)> {
    match step {
        Step::Load(size, at, piece) => loaded(alloc, slots, slot, size, at, &piece),
        Step::Unload => Some(told(slots.unload(slot))),
        Step::Activate => Some(told(slots.activate(slot))),
        Step::Deactivate => Some(told(slots.deactivate(slot))),
    }
}

#[test]
fn a_program_is_loaded_in_two_pieces(rt: HostRuntime) {
    let mut slots = Slots::new(rt.alloc()).ok().expect(&rt, "room");
    for (step, status) in [
        (Step::Activate, Status::SlotEmpty),
        (Step::Load(16, 8, EXIT), Status::Ok),
        (Step::Load(16, 8, EXIT), Status::PieceOverlap),
        (Step::Load(24, 0, SET), Status::SizeDiffers),
        (Step::Activate, Status::SlotPartial),
        (Step::Load(16, 0, SET), Status::Ok),
        (Step::Load(16, 0, SET), Status::SlotComplete),
        (Step::Deactivate, Status::SlotInactive),
        (Step::Activate, Status::Ok),
        (Step::Unload, Status::SlotActive),
    ] {
        let answer = done(rt.alloc(), &mut slots, 3, step);
        assert_eq!(rt; answer, Some((status, 0)), "{step:?}");
    }
    let code = slots.code(3).ok().expect(&rt, "an active program");
    assert_eq!(rt; code.units(), 2);
    assert_eq!(rt; told(slots.activate(64)), (Status::NoSuchSlot, 0));
}

// The program that a slot holds in a state: none, one with a missing byte, a complete one, an active one.
const STEPS_TO: [Step; 3] = [
    Step::Load(16, 8, EXIT),
    Step::Load(16, 0, SET),
    Step::Activate,
];

// What a host is told of a command in a state.
fn told_in(alloc: Global, state: usize, step: Step) -> Option<(Status, u64)> {
    let mut slots = Slots::new(alloc).ok()?;
    for made in STEPS_TO.iter().take(state) {
        done(alloc, &mut slots, 63, *made)?;
    }
    done(alloc, &mut slots, 63, step)
}

#[test]
fn each_state_meets_each_command(rt: HostRuntime) {
    for (step, statuses) in [
        (
            Step::Load(16, 0, SET),
            [
                Status::Ok,
                Status::Ok,
                Status::SlotComplete,
                Status::SlotActive,
            ],
        ),
        (
            Step::Unload,
            [
                Status::SlotEmpty,
                Status::Ok,
                Status::Ok,
                Status::SlotActive,
            ],
        ),
        (
            Step::Activate,
            [
                Status::SlotEmpty,
                Status::SlotPartial,
                Status::Ok,
                Status::SlotActive,
            ],
        ),
        (
            Step::Deactivate,
            [
                Status::SlotEmpty,
                Status::SlotInactive,
                Status::SlotInactive,
                Status::Ok,
            ],
        ),
    ] {
        for (state, status) in statuses.iter().enumerate() {
            let answer = told_in(rt.alloc(), state, step);
            assert_eq!(rt; answer, Some((*status, 0)), "{step:?} in state {state}");
        }
    }
}

#[test]
fn bad_programs_stay_complete(rt: HostRuntime) {
    let mut slots = Slots::new(rt.alloc()).ok().expect(&rt, "room");
    for (step, answer) in [
        (
            Step::Load(8, 0, [0xff, 0, 0, 0, 0, 0, 0, 0]),
            (Status::Ok, 0),
        ),
        (Step::Activate, (Status::BadProgram, 0)),
        (Step::Load(8, 0, EXIT), (Status::SlotComplete, 0)),
        (Step::Unload, (Status::Ok, 0)),
        (
            Step::Load(16, 0, [0xb7, 0, 0, 0, 1, 0, 0, 0]),
            (Status::Ok, 0),
        ),
        (
            Step::Load(16, 8, [0x18, 0, 0, 0, 0, 0, 0, 0]),
            (Status::Ok, 0),
        ),
        (Step::Activate, (Status::BadProgram, 1)),
        (Step::Deactivate, (Status::SlotInactive, 0)),
        (Step::Unload, (Status::Ok, 0)),
        (Step::Load(8, 0, EXIT), (Status::Ok, 0)),
        (Step::Activate, (Status::Ok, 0)),
    ] {
        let found = done(rt.alloc(), &mut slots, 0, step);
        assert_eq!(rt; found, Some(answer), "{step:?}");
    }
}

// What a host is told of a piece of so many zeros.
fn zeros_loaded(
    alloc: Global,
    slots: &mut Slots,
    size: u64,
    at: u64,
    len: u64,
) -> Option<(Status, u64)> {
    let bytes = Bytes::filled(alloc, len, 0).ok()?;
    Some(told(slots.load(1, size, at, &bytes)))
}

#[test]
fn pieces_keep_their_limits(rt: HostRuntime) {
    let mut slots = Slots::new(rt.alloc()).ok().expect(&rt, "room");
    for (size, at, len, status) in [
        (0, 0, 1, Status::BadLength),
        (7, 0, 1, Status::BadLength),
        (12, 0, 1, Status::BadLength),
        (8, 0, 0, Status::BadLength),
        (65_544, 0, 1, Status::TooLong),
        (65_536, 0, 8193, Status::TooLong),
        (65_536, u64::MAX, 1, Status::OutOfRange),
        (65_536, 65_536, 1, Status::OutOfRange),
        (8, 1, 8, Status::OutOfRange),
        (65_536, 57_344, 8192, Status::Ok),
        (65_536, 0, 8192, Status::Ok),
        (65_536, 8192, 1, Status::Ok),
        (65_536, 8194, 1, Status::Ok),
        (65_536, 8193, 2, Status::PieceOverlap),
        (65_536, 8193, 1, Status::Ok),
        (65_536, 8191, 1, Status::PieceOverlap),
    ] {
        let answer = zeros_loaded(rt.alloc(), &mut slots, size, at, len);
        assert_eq!(rt; answer, Some((status, 0)), "{len} bytes at {at} of {size}");
    }
}

// How many of 32,768 lone bytes are loaded, each before the one that came before it.
fn lone_bytes(alloc: Global) -> Option<u64> {
    let mut slots = Slots::new(alloc).ok()?;
    let byte = Bytes::from_slice(alloc, &[0x95]).ok()?;
    let mut count = 0u64;
    for k in 0..32_768u64 {
        if slots.load(5, 65_536, 2 * (32_767 - k), &byte).is_ok() {
            count = count.saturating_add(1);
        }
    }
    Some(count)
}

#[test]
fn lone_bytes_come_backwards(rt: HostRuntime) {
    let count = lone_bytes(rt.alloc());
    assert_eq!(rt; count, Some(32_768));
}

// How many of the 64 slots hold a program at once.
fn filled(alloc: Global) -> Option<u32> {
    let mut slots = Slots::new(alloc).ok()?;
    let mut active = 0u32;
    for slot in 0..64 {
        loaded(alloc, &mut slots, slot, 8, 0, &EXIT)?;
        slots.activate(slot).ok()?;
    }
    for slot in 0..64 {
        if slots.code(slot).is_ok() {
            active = active.saturating_add(1);
        }
    }
    Some(active)
}

#[test]
fn all_slots_are_held_at_once(rt: HostRuntime) {
    let active = filled(rt.alloc());
    assert_eq!(rt; active, Some(64));
}
