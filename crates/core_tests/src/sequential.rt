// What no clause says: that calls succeed where there is memory, and worked examples.
use cp_base::{
    Access, Bytes, Command, Config, CopySource, MemRange, SetRanges, SourceList, SpaceId, Status,
};
use seq_device::SeqDevice;
use std::alloc::Global;

// A device with memory namespace 1 of so many bytes.
fn device(alloc: Global, bytes: u32) -> Option<SeqDevice> {
    let config = Config::new(512, 16, 1000)?.with_size(SpaceId::Mem(1), bytes)?;
    SeqDevice::new(alloc, &config).ok()
}

// What a command is told: its status and its result.
fn answer(device: &mut SeqDevice, command: &Command) -> (Status, u64) {
    let reply = device.step(command);
    (reply.status, reply.result)
}

// The status of a write of so many bytes, each 1, and the first byte after it.
fn write(alloc: Global, bytes: u32, ns: u32, at: u64, len: u64) -> Option<(Status, Option<u8>)> {
    let mut device = device(alloc, bytes)?;
    let bytes = Bytes::filled(alloc, len, 1).ok()?;
    let (status, _) = answer(&mut device, &Command::MemWrite { ns, at, bytes });
    Some((status, device.byte(SpaceId::Mem(1), at)))
}

#[test]
fn writes_are_checked_in_order(rt: HostRuntime) {
    for (bytes, ns, at, len, status, byte) in [
        (16, 1, 0, 2, Status::Ok, Some(1)),
        (16, 1, 15, 1, Status::Ok, Some(1)),
        (16, 1, 16, 1, Status::OutOfRange, None),
        (16, 1, u64::MAX, 1, Status::OutOfRange, None),
        (16, 2, 0, 1, Status::BadNamespace, Some(0)),
        (16, 1, 0, 0, Status::BadLength, Some(0)),
        (16_384, 1, 0, 8192, Status::Ok, Some(1)),
        (16_384, 1, 0, 8193, Status::TooLong, Some(0)),
    ] {
        let answer = write(rt.alloc(), bytes, ns, at, len);
        assert_eq!(rt; answer, Some((status, byte)), "{len} bytes at {at} of {ns}");
    }
}

// What a read answers after `01 02` was written at place 0: its status, how many bytes, and the last.
fn read(alloc: Global, len: u64) -> Option<(Status, u64, Option<u8>)> {
    let mut device = device(alloc, 16_384)?;
    let bytes = Bytes::from_slice(alloc, &[1, 2]).ok()?;
    let _ = answer(
        &mut device,
        &Command::MemWrite {
            ns: 1,
            at: 0,
            bytes,
        },
    );
    let reply = device.step(&Command::MemRead { ns: 1, at: 0, len });
    let read = reply.bytes.len();
    Some((reply.status, read, reply.bytes.get(read.saturating_sub(1))))
}

#[test]
fn reads_give_what_was_written(rt: HostRuntime) {
    for (len, status, count, last) in [
        (2, Status::Ok, 2, Some(2)),
        (3, Status::Ok, 3, Some(0)),
        (0, Status::BadLength, 0, None),
        (8193, Status::TooLong, 0, None),
    ] {
        assert_eq!(rt;
            read(rt.alloc(), len),
            Some((status, count, last)),
            "{len} bytes"
        );
    }
}

// What a copy to place `at` answers after `000102030405` was written at place 0, and the bytes at 8 and 15.
fn copy(
    alloc: Global,
    at: u64,
    sources: &[CopySource],
) -> Option<(Status, Option<u8>, Option<u8>)> {
    let mut device = device(alloc, 16)?;
    let bytes = Bytes::from_slice(alloc, &[0, 1, 2, 3, 4, 5]).ok()?;
    let _ = answer(
        &mut device,
        &Command::MemWrite {
            ns: 1,
            at: 0,
            bytes,
        },
    );
    let from = SourceList::new(alloc, sources).ok()??;
    let (status, _) = answer(&mut device, &Command::MemCopy { ns: 1, at, from });
    let space = SpaceId::Mem(1);
    Some((status, device.byte(space, 8), device.byte(space, 15)))
}

#[test]
fn copies_read_the_old_bytes(rt: HostRuntime) {
    let part = |at, len| CopySource::Mem { ns: 1, at, len };
    for (at, sources, status, first, last) in [
        (
            4,
            [part(0, 4), part(4, 4)],
            Status::CopyOverlap,
            Some(0),
            Some(0),
        ),
        (8, [part(0, 4), part(2, 4)], Status::Ok, Some(0), Some(5)),
        (8, [part(2, 4), part(0, 4)], Status::Ok, Some(2), Some(3)),
        (
            9,
            [part(0, 4), part(2, 4)],
            Status::OutOfRange,
            Some(0),
            Some(0),
        ),
        (
            8,
            [part(0, 4), part(2, 0)],
            Status::BadLength,
            Some(0),
            Some(0),
        ),
    ] {
        let answer = copy(rt.alloc(), at, &sources);
        assert_eq!(rt; answer, Some((status, first, last)), "to {at}");
    }
}

// What a fill of memory, zeroes and a read of blocks answer on 16 bytes and 8 blocks.
fn spans(alloc: Global, len: u64, lba: u64, count: u64) -> Option<(Status, Status, Status, u64)> {
    let config = Config::new(512, 16, 1000)?
        .with_size(SpaceId::Nvm(1), 8)?
        .with_size(SpaceId::Mem(1), 16)?;
    let mut device = SeqDevice::new(alloc, &config).ok()?;
    let (fill, _) = answer(
        &mut device,
        &Command::MemFill {
            ns: 1,
            at: 0,
            len,
            value: 9,
        },
    );
    let (zeroes, _) = answer(&mut device, &Command::NvmZeroes { ns: 1, lba, count });
    let read = device.step(&Command::NvmRead { ns: 1, lba, count });
    Some((fill, zeroes, read.status, read.bytes.len()))
}

#[test]
fn fills_and_blocks_are_checked(rt: HostRuntime) {
    for (len, lba, count, fill, zeroes, bytes) in [
        (0, 0, 1, Status::BadLength, Status::Ok, 512),
        (16, 7, 1, Status::Ok, Status::Ok, 512),
        (17, 7, 2, Status::OutOfRange, Status::OutOfRange, 0),
        (1_048_577, 0, 0, Status::TooLong, Status::BadLength, 0),
    ] {
        let answer = spans(rt.alloc(), len, lba, count);
        assert_eq!(rt;
            answer,
            Some((fill, zeroes, zeroes, bytes)),
            "{len} bytes, {count} blocks"
        );
    }
}

// `mov64 r0 7`, and `exit`.
const SET: [u8; 8] = [0xb7, 0, 0, 0, 7, 0, 0, 0];

const EXIT: [u8; 8] = [0x95, 0, 0, 0, 0, 0, 0, 0];

// A command that moves no bytes of namespaces: on a set, on a slot, or none of both.
#[derive(Clone, Copy, Debug)]
enum Step {
    Create(MemRange),
    CreateOfTwo(MemRange, MemRange),
    Delete(u32),
    Load(u32, u64, u64, [u8; 8]),
    Unload(u32),
    Activate(u32),
    Deactivate(u32),
    Abort(u32),
}

fn range(at: u64, len: u64) -> MemRange {
    MemRange {
        ns: 1,
        at,
        len,
        access: Access::ReadWrite,
    }
}

// The command of a step. `None` where there is no memory.
fn command_of(alloc: Global, step: Step) -> Option<Command> {
    match step {
        Step::Create(range) => Some(Command::SetCreate {
            ranges: SetRanges::new(alloc, &[range]).ok()??,
        }),
        Step::CreateOfTwo(first, second) => Some(Command::SetCreate {
            ranges: SetRanges::new(alloc, &[first, second]).ok()??,
        }),
        Step::Delete(set) => Some(Command::SetDelete { set }),
        Step::Load(slot, size, at, piece) => Some(Command::Load {
            slot,
            size,
            at,
            bytes: Bytes::from_slice(alloc, &piece).ok()?,
        }),
        Step::Unload(slot) => Some(Command::Unload { slot }),
        Step::Activate(slot) => Some(Command::Activate { slot }),
        Step::Deactivate(slot) => Some(Command::Deactivate { slot }),
        Step::Abort(cid) => Some(Command::Abort { cid }),
    }
}

// What a step is told.
fn told(alloc: Global, device: &mut SeqDevice, step: Step) -> Option<(Status, u64)> {
    let command = command_of(alloc, step)?;
    Some(answer(device, &command))
}

#[test]
fn sets_are_numbered(rt: HostRuntime) {
    let mut device = device(rt.alloc(), 16).expect(&rt, "room for 16 bytes");
    for (step, answer) in [
        (
            Step::CreateOfTwo(range(0, 8), range(4, 8)),
            (Status::RangeOverlap, 0),
        ),
        (Step::CreateOfTwo(range(0, 8), range(8, 8)), (Status::Ok, 1)),
        (Step::Create(range(8, 9)), (Status::OutOfRange, 0)),
        (Step::Delete(2), (Status::NoSuchSet, 0)),
        (Step::Delete(1), (Status::Ok, 0)),
        (Step::Create(range(15, 1)), (Status::Ok, 1)),
        (Step::Abort(1), (Status::Ok, 1)),
        (Step::Create(range(15, 1)), (Status::Ok, 2)),
    ] {
        let found = told(rt.alloc(), &mut device, step);
        assert_eq!(rt; found, Some(answer), "{step:?}");
    }
}

#[test]
fn slots_hold_programs(rt: HostRuntime) {
    let mut device = device(rt.alloc(), 16).expect(&rt, "room for 16 bytes");
    for (step, answer) in [
        (Step::Unload(3), (Status::SlotEmpty, 0)),
        (Step::Load(3, 16, 8, EXIT), (Status::Ok, 0)),
        (Step::Load(3, 16, 8, EXIT), (Status::PieceOverlap, 0)),
        (Step::Load(3, 24, 0, SET), (Status::SizeDiffers, 0)),
        (Step::Activate(3), (Status::SlotPartial, 0)),
        (Step::Load(3, 16, 0, SET), (Status::Ok, 0)),
        (Step::Load(3, 16, 0, SET), (Status::SlotComplete, 0)),
        (Step::Deactivate(3), (Status::SlotInactive, 0)),
        (Step::Activate(3), (Status::Ok, 0)),
        (Step::Unload(3), (Status::SlotActive, 0)),
        (Step::Activate(64), (Status::NoSuchSlot, 0)),
        (
            Step::Load(0, 8, 0, [0xff, 0, 0, 0, 0, 0, 0, 0]),
            (Status::Ok, 0),
        ),
        (Step::Activate(0), (Status::BadProgram, 0)),
        (
            Step::Load(1, 16, 0, [0xb7, 0, 0, 0, 1, 0, 0, 0]),
            (Status::Ok, 0),
        ),
        (
            Step::Load(1, 16, 8, [0x18, 0, 0, 0, 0, 0, 0, 0]),
            (Status::Ok, 0),
        ),
        (Step::Activate(1), (Status::BadProgram, 1)),
        (Step::Deactivate(3), (Status::Ok, 0)),
        (Step::Unload(3), (Status::Ok, 0)),
    ] {
        let found = told(rt.alloc(), &mut device, step);
        assert_eq!(rt; found, Some(answer), "{step:?}");
    }
}

// What the execution of a program answers on a range of a memory of 16 bytes that begins with 1, 2, 3, 4, where p1
// is 4, and the bytes at the places 0 and 8 afterwards.
fn executed(
    alloc: Global,
    code: &[u8],
    range: MemRange,
    budget: u64,
) -> Option<(Status, u64, Option<u8>, Option<u8>)> {
    let mut device = device(alloc, 16)?;
    let bytes = Bytes::from_slice(alloc, &[1, 2, 3, 4]).ok()?;
    let _ = answer(
        &mut device,
        &Command::MemWrite {
            ns: 1,
            at: 0,
            bytes,
        },
    );
    let _ = told(alloc, &mut device, Step::Create(range));
    let load = Command::Load {
        slot: 0,
        size: code.len() as u64,
        at: 0,
        bytes: Bytes::from_slice(alloc, code).ok()?,
    };
    let _ = answer(&mut device, &load);
    let _ = told(alloc, &mut device, Step::Activate(0));
    let execute = Command::Execute {
        slot: 0,
        set: 1,
        p1: 4,
        p2: 0,
        budget,
    };
    let (status, result) = answer(&mut device, &execute);
    let memory = SpaceId::Mem(1);
    Some((
        status,
        result,
        device.byte(memory, 0),
        device.byte(memory, 8),
    ))
}

#[test]
fn programs_are_executed(rt: HostRuntime) {
    // adds up as many bytes of range 0 as p1 says
    let sum =
        b"\x18\x04\0\0\0\0\0\0\0\0\0\0\x01\0\0\0\xb7\0\0\0\0\0\0\0\x15\x01\x05\0\0\0\0\0\x71\x45\0\0\0\0\0\0\x0f\x50\0\0\0\0\0\0\x07\x04\0\0\x01\0\0\0\
        \x17\x01\0\0\x01\0\0\0\x05\0\xfa\xff\0\0\0\0\x95\0\0\0\0\0\0\0"
            .as_slice();
    // lddw r1 4294967296, stb r1 0 85, stb r1 8 85, exit
    let bytes =
        b"\x18\x01\0\0\0\0\0\0\0\0\0\0\x01\0\0\0\x72\x01\0\0\x55\0\0\0\x72\x01\x08\0\x55\0\0\0\x95\0\0\0\0\0\0\0";
    let stores = bytes.as_slice();
    let locked = MemRange {
        access: Access::ReadOnly,
        ..range(0, 16)
    };
    for (code, range, budget, status, result, first, ninth) in [
        (sum, range(0, 4), 28, Status::Ok, 10, 1, 0),
        (sum, locked, 27, Status::BudgetSpent, 27, 1, 0),
        (sum, range(1, 2), 100, Status::BadAccess, 4, 1, 0),
        (stores, range(0, 16), 4, Status::Ok, 0, 85, 85),
        (stores, range(0, 8), 4, Status::BadAccess, 3, 85, 0),
        (stores, range(0, 16), 2, Status::BudgetSpent, 2, 85, 0),
        (stores, locked, 4, Status::BadAccess, 2, 1, 0),
        (stores, range(0, 16), 0, Status::BudgetRange, 0, 1, 0),
        (stores, range(0, 16), 1001, Status::BudgetRange, 0, 1, 0),
        (stores, range(0, 17), 4, Status::NoSuchSet, 0, 1, 0),
        (&bytes[..15], range(0, 16), 4, Status::SlotEmpty, 0, 1, 0),
        (&bytes[..8], range(0, 16), 4, Status::SlotInactive, 0, 1, 0),
    ] {
        let found = executed(rt.alloc(), code, range, budget);
        assert_eq!(rt;
            found,
            Some((status, result, Some(first), Some(ninth))),
            "{range:?}, budget {budget}"
        );
    }
}

// What a program of the device answers on a memory of 32 bytes that begins with 0 to 15, whose first 16 are range 0
// and whose last 16 are range 1 with this access, where there is one, and the bytes at the places 18, 19, 21 and 22.
fn executed_own(
    alloc: Global,
    second: Option<Access>,
    slot: u32,
    p1: u64,
    p2: u64,
    budget: u64,
) -> Option<(Status, u64, [Option<u8>; 4])> {
    let mut device = device(alloc, 32)?;
    let bytes = [0, 1, 2, 3, 4, 5, 6, 7, 8, 9, 10, 11, 12, 13, 14, 15];
    let bytes = Bytes::from_slice(alloc, &bytes).ok()?;
    let _ = answer(
        &mut device,
        &Command::MemWrite {
            ns: 1,
            at: 0,
            bytes,
        },
    );
    let ranges = match second {
        Some(access) => {
            let last = MemRange {
                access,
                ..range(16, 16)
            };
            Step::CreateOfTwo(range(0, 16), last)
        }
        None => Step::Create(range(0, 16)),
    };
    let _ = told(alloc, &mut device, ranges);
    let execute = Command::Execute {
        slot,
        set: 1,
        p1,
        p2,
        budget,
    };
    let (status, result) = answer(&mut device, &execute);
    let bytes = [18, 19, 21, 22].map(|place| device.byte(SpaceId::Mem(1), place));
    Some((status, result, bytes))
}

#[test]
fn own_programs_are_executed(rt: HostRuntime) {
    let both = Some(Access::ReadWrite);
    let locked = Some(Access::ReadOnly);
    for (second, slot, p1, p2, budget, status, result, mark) in [
        (both, 64, 0, 0, 32, Status::Ok, 17, 0),
        (both, 64, 0, 0, 31, Status::BudgetSpent, 31, 0),
        (both, 65, 0, 0, 32, Status::Ok, 120, 0),
        (both, 66, 0, 0, 16, Status::Ok, 1, 0),
        (both, 68, 0, 0, 16, Status::NoSuchSlot, 0, 0),
        (both, 67, 3, 5, 16, Status::Ok, 3, 1),
        (both, 67, 259, 5, 15, Status::BudgetSpent, 15, 0),
        (locked, 67, 3, 5, 16, Status::BadAccess, 0, 0),
        (None, 66, 0, 0, 16, Status::Ok, u64::MAX, 0),
        (None, 67, 0, 0, 16, Status::Ok, 0, 0),
    ] {
        let found = executed_own(rt.alloc(), second, slot, p1, p2, budget);
        let marks = [Some(0), Some(mark), Some(mark), Some(0)];
        assert_eq!(rt;
            found,
            Some((status, result, marks)),
            "slot {slot}, budget {budget}"
        );
    }
}
