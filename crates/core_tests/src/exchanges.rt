// What no clause says: that calls succeed where there is memory, and worked examples.
ghost use Rattle.std.specs.Prelude.{true, ◌≡◌};
ghost use Rattle.extents.specs.Homes.{IsAtHome};

use cp_base::{ByteRange, Bytes, Config, SpaceId};
use extents::Extents;
use std::alloc::Global;

const MEMORY: SpaceId = SpaceId::Mem(1);

// The bytes of memory namespace 1 of so many bytes, all at home.
fn memory_1(alloc: Global, bytes: u32) -> Option<Extents> {
    let config = Config::new(512, 16, 1000)?.with_size(MEMORY, bytes)?;
    Extents::new(alloc, &config).ok()
}

// Whether all bytes of a range are at home.
fn is_home(extents: &Extents, range: &ByteRange) -> bool
    ensures { result ≡ true → IsAtHome extents.now range.now }
{
    let start = range.start();
    let end = start + range.len();
    let space = range.space();
    for at in start..end {
        if extents.byte(space, at).is_none() {
            return false;
        }
    }
    true
}

// The first four bytes that are taken out of a range at home, and what is then seen before, in and behind the first
// four places; the range is put back with other bytes.
fn exchanged(
    alloc: Global,
    extents: &mut Extents,
    at: u64,
    filling: &[u8],
) -> Option<([Option<u8>; 4], [Option<u8>; 3])> {
    let range = ByteRange::new(MEMORY, at, filling.len() as u64)?;
    if !is_home(extents, &range) {
        return None;
    }
    let filling = Bytes::from_slice(alloc, filling).ok()?;
    let taken = extents.take(&range).ok()?;
    let before = at.checked_sub(1)?;
    let seen = [before, at + 1, at + 4].map(|place| extents.byte(MEMORY, place));
    extents.put(&range, filling);
    Some(([0, 1, 2, 3].map(|i| taken.get(i)), seen))
}

// A copy of two bytes at home, to which they are appended once more.
fn copied_twice(extents: &Extents, at: u64) -> Option<[Option<u8>; 4]> {
    let range = ByteRange::new(MEMORY, at, 2)?;
    if !is_home(extents, &range) {
        return None;
    }
    let mut bytes = extents.copy(&range).ok()?;
    bytes.reserve(2).ok()?;
    extents.append(&range, &mut bytes);
    Some([0, 1, 2, 3].map(|i| bytes.get(i)))
}

#[test]
fn bytes_are_exchanged(rt: HostRuntime) {
    let mut extents = memory_1(rt.alloc(), 16).expect(&rt, "memory");
    let zero = Some(0);
    let zeros = exchanged(rt.alloc(), &mut extents, 4, &[1, 2, 3, 4]);
    assert_eq!(rt; zeros, Some(([zero, zero, zero, zero], [zero, None, zero])));
    let mixed = exchanged(rt.alloc(), &mut extents, 2, &[0, 0, 1, 2]);
    assert_eq!(rt;
        mixed,
        Some(([zero, zero, Some(1), Some(2)], [zero, None, Some(3)]))
    );
    let twice = copied_twice(&extents, 6);
    assert_eq!(rt; twice, Some([Some(3), Some(4), Some(3), Some(4)]));
}

#[test]
fn ranges_over_several_extents_are_joined(rt: HostRuntime) {
    let mut extents = memory_1(rt.alloc(), 200_000).expect(&rt, "memory");
    let zero = Some(0);
    let part = exchanged(rt.alloc(), &mut extents, 65_534, &[1, 2, 3, 4]);
    assert_eq!(rt; part, Some(([zero, zero, zero, zero], [zero, None, zero])));
    let again = exchanged(rt.alloc(), &mut extents, 65_535, &[5, 6, 7, 8, 9]);
    assert_eq!(rt;
        again,
        Some(([Some(2), Some(3), Some(4), zero], [Some(1), None, None]))
    );
    let twice = copied_twice(&extents, 65_535);
    assert_eq!(rt; twice, Some([Some(5), Some(6), Some(5), Some(6)]));
}
