// What no clause says: worked examples, and that the table has its room.
use cp_base::{Access, Config, MemRange, RangeList, SpaceId, Status};
use range_sets::Sets;
use std::alloc::Global;

// A device with memory namespace 1 of 16 bytes.
fn small() -> Option<Config> {
    Config::new(512, 16, 1000)?.with_size(SpaceId::Mem(1), 16)
}

fn range(at: u64, len: u64) -> MemRange {
    MemRange {
        ns: 1,
        at,
        len,
        access: Access::ReadWrite,
    }
}

fn read_only(at: u64, len: u64) -> MemRange {
    MemRange {
        access: Access::ReadOnly,
        ..range(at, len)
    }
}

// What a new set of these ranges answers.
fn created(alloc: Global, sets: &mut Sets, ranges: &[MemRange]) -> Option<Result<u32, Status>> {
    let ranges = RangeList::new(alloc, ranges)?;
    Some(sets.create(&small()?, &ranges))
}

#[test]
fn sets_are_made_and_deleted(rt: HostRuntime) {
    let mut sets = Sets::new(rt.alloc()).ok().expect(&rt, "room for the sets");
    let shared = created(rt.alloc(), &mut sets, &[range(0, 8), range(4, 8)]);
    assert_eq!(rt; shared, Some(Err(Status::RangeOverlap)));
    let shared = created(rt.alloc(), &mut sets, &[read_only(0, 8), range(7, 1)]);
    assert_eq!(rt; shared, Some(Err(Status::RangeOverlap)));
    let adjacent = created(rt.alloc(), &mut sets, &[range(8, 8), range(0, 8)]);
    assert_eq!(rt; adjacent, Some(Ok(1)));
    let outside = created(rt.alloc(), &mut sets, &[range(8, 9)]);
    assert_eq!(rt; outside, Some(Err(Status::OutOfRange)));
    assert_eq!(rt; sets.delete(2), Err(Status::NoSuchSet));
    assert_eq!(rt; sets.delete(1), Ok(()));
    let last = created(rt.alloc(), &mut sets, &[range(15, 1)]);
    assert_eq!(rt; last, Some(Ok(1)));
}

// The number of the first set that is refused after so many, with its status; a number that a set has once
// the set of that number was deleted.
fn filled(alloc: Global, free: u32) -> Option<(u32, Status, u32)> {
    let mut sets = Sets::new(alloc).ok()?;
    for number in 1..300 {
        match created(alloc, &mut sets, &[range(0, 16)])? {
            Ok(made) if made == number => {}
            Ok(_) => return None,
            Err(status) => {
                sets.delete(free).ok()?;
                let again = created(alloc, &mut sets, &[range(0, 1)])?.ok()?;
                return Some((number, status, again));
            }
        }
    }
    None
}

#[test]
fn the_256th_set_finds_no_place(rt: HostRuntime) {
    let found = filled(rt.alloc(), 7);
    assert_eq!(rt; found, Some((256, Status::SetTableFull, 7)));
}
