// What no clause says: that calls succeed where there is memory, and the limits at their edges.
use cp_base::{
    ByteRange, Bytes, Config, CopySource, MAX_RUNS, MemRange, RangeList, SetRanges, SourceList,
    SpaceId, Spans,
};
use std::alloc::Global;
use std::test::Fail;

#[test]
fn buffers_take_memory(rt: HostRuntime) {
    let made = buffers(rt.alloc());
    assert_eq!(rt; made, Some((3, Some(9), None)));
}

// Every call that takes memory, once: how many bytes there are, one of them, and one past the end.
fn buffers(alloc: Global) -> Option<(u64, Option<u8>, Option<u8>)> {
    let mut bytes = Bytes::new(alloc);
    bytes.push(7).ok()?;
    bytes.reserve(2).ok()?;
    if bytes.spare() < 2 {
        return None;
    }
    bytes.append(&[8, 9]);
    let copied = Bytes::from_slice(alloc, bytes.as_slice()).ok()?;
    let mut filled = Bytes::filled(alloc, 3, 1).ok()?;
    if copied.len() != 3 || filled.len() != 3 {
        return None;
    }
    filled.write(0, copied.as_slice());
    Some((filled.len(), filled.get(2), filled.get(3)))
}

// The bytes 1, 2, 3 split at a place: how many stay, how many are taken, and the first of each.
fn split(alloc: Global, at: u64) -> Option<(u64, u64, Option<u8>, Option<u8>)> {
    let mut bytes = Bytes::from_slice(alloc, &[1, 2, 3]).ok()?;
    if at > bytes.len() {
        return None;
    }
    let rest = bytes.split_off(at).ok()?;
    Some((bytes.len(), rest.len(), bytes.get(0), rest.get(0)))
}

#[test]
fn buffers_are_split(rt: HostRuntime) {
    for (at, parts) in [
        (0, (0, 3, None, Some(1))),
        (1, (1, 2, Some(1), Some(2))),
        (3, (3, 0, Some(1), None)),
    ] {
        assert_eq!(rt; split(rt.alloc(), at), Some(parts), "at {at}");
    }
}

// The bytes 1, 2, 3 after some of them were filled with 9.
fn filled(alloc: Global, at: u64, n: u64) -> Option<[Option<u8>; 3]> {
    let mut bytes = Bytes::from_slice(alloc, &[1, 2, 3]).ok()?;
    if at > bytes.len() || n > bytes.len() - at {
        return None;
    }
    bytes.fill(at, n, 9);
    Some([bytes.get(0), bytes.get(1), bytes.get(2)])
}

#[test]
fn buffers_are_filled(rt: HostRuntime) {
    for (at, n, after) in [
        (0, 0, [1, 2, 3]),
        (3, 0, [1, 2, 3]),
        (0, 1, [9, 2, 3]),
        (1, 1, [1, 9, 3]),
        (2, 1, [1, 2, 9]),
        (0, 3, [9, 9, 9]),
    ] {
        let wanted = after.map(Some);
        assert_eq!(rt;
            filled(rt.alloc(), at, n),
            Some(wanted),
            "{n} bytes at {at}"
        );
    }
}

// Whether the bytes 4 to 7 of memory namespace 1 overlap a range, and whether they contain it.
fn compared(space: SpaceId, start: u64, len: u64) -> Option<(bool, bool)> {
    let middle = ByteRange::new(SpaceId::Mem(1), 4, 4)?;
    let other = ByteRange::new(space, start, len)?;
    Some((middle.overlaps(&other), middle.contains(&other)))
}

#[test]
fn ranges_are_compared_byte_by_byte(rt: HostRuntime) {
    for (space, start, len, overlaps, contains) in [
        (SpaceId::Mem(1), 4, 4, true, true),
        (SpaceId::Mem(1), 7, 1, true, true),
        (SpaceId::Mem(1), 3, 2, true, false),
        (SpaceId::Mem(1), 7, 2, true, false),
        (SpaceId::Mem(1), 0, 16, true, false),
        (SpaceId::Mem(1), 0, 4, false, false),
        (SpaceId::Mem(1), 8, 1, false, false),
        (SpaceId::Mem(2), 4, 4, false, false),
        (SpaceId::Nvm(1), 4, 4, false, false),
    ] {
        let found = compared(space, start, len);
        assert_eq!(rt;
            found,
            Some((overlaps, contains)),
            "{len} bytes at {start} of {space:?}"
        );
    }
}

// How many runs so many ranges of one byte have, which begin at multiples of a number.
fn runs_of_bytes(alloc: Global, count: usize, step: u8) -> Option<usize> {
    let mut ranges = [ByteRange::default(); MAX_RUNS + 1];
    for (i, range) in ranges.iter_mut().enumerate() {
        *range = ByteRange::new(SpaceId::Mem(1), i as u64 * u64::from(step), 1)?;
    }
    let runs = Spans::of(alloc, ranges.get(..count)?)?;
    Some(runs.as_slice().len())
}

#[test]
fn runs_are_formed_of_at_most_20_ranges(rt: HostRuntime) {
    for (count, step, runs) in [
        (0, 1, Some(0)),
        (1, 1, Some(1)),
        (20, 0, Some(1)),
        (20, 1, Some(1)),
        (20, 2, Some(20)),
        (21, 1, None),
    ] {
        let found = runs_of_bytes(rt.alloc(), count, step);
        assert_eq!(rt; found, runs, "{count} ranges {step} apart");
    }
}

#[test]
fn ranges_end_with_the_largest_namespace(rt: HostRuntime) {
    let space = SpaceId::Mem(1);
    for (start, len, is_range) in [
        (0, 1, true),
        (0, 0, false),
        (16_777_215, 1, true),
        (16_777_215, 2, false),
        (u64::MAX, 1, false),
        (1, u64::MAX, false),
    ] {
        let range = ByteRange::new(space, start, len);
        assert_eq!(rt; range.is_some(), is_range, "{len} bytes from {start} on");
    }
}

#[test]
fn configurations_keep_their_limits(rt: HostRuntime) {
    for (block, depth, budget, is_config) in [
        (512, 16, 1000, true),
        (4096, 4096, 100_000_000, true),
        (513, 16, 1000, false),
        (512, 0, 1000, false),
        (512, 4097, 1000, false),
        (512, 16, 0, false),
        (512, 16, 100_000_001, false),
    ] {
        let config = Config::new(block, depth, budget);
        assert_eq!(rt; config.is_some(), is_config, "{block} {depth} {budget}");
    }
}

// The size that a namespace has after it was asked for, from a block of 4,096 bytes.
fn sized(space: SpaceId, size: u32) -> Option<u64> {
    Config::new(4096, 1, 1)?.with_size(space, size)?.size(space)
}

#[test]
fn namespaces_keep_their_limits(rt: HostRuntime) {
    for (space, size, bytes) in [
        (SpaceId::Nvm(1), 4096, Some(16_777_216)),
        (SpaceId::Nvm(8), 1, Some(4096)),
        (SpaceId::Nvm(1), 4097, None),
        (SpaceId::Mem(1), 16_777_216, Some(16_777_216)),
        (SpaceId::Mem(1), 16_777_217, None),
        (SpaceId::Mem(0), 1, None),
        (SpaceId::Mem(9), 1, None),
    ] {
        assert_eq!(rt; sized(space, size), bytes, "{size} in {space:?}");
    }
}

#[test]
fn lists_have_one_to_sixteen_items(rt: HostRuntime) {
    let sources = [CopySource::default(); 17];
    let ranges = [MemRange::default(); 17];
    for (count, is_list) in [(0, false), (1, true), (16, true), (17, false)] {
        let copies = SourceList::new(rt.alloc(), &sources[..count]).ok();
        assert_eq!(rt;
            copies.map(|list| list.is_some()),
            Some(is_list),
            "{count} sources"
        );
        let asked = SetRanges::new(rt.alloc(), &ranges[..count]).ok();
        assert_eq!(rt;
            asked.map(|list| list.is_some()),
            Some(is_list),
            "{count} ranges asked for"
        );
        let set = RangeList::new(rt.alloc(), &ranges[..count]);
        assert_eq!(rt; set.is_some(), is_list, "{count} ranges");
    }
}
