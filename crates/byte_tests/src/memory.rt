// What no clause says: that calls succeed where there is memory, and worked examples.
use cp_base::{ByteRange, Bytes, Config, MAX_TRANSFER, SpaceId, Status};
use slm_bytes::{Flat, bytes_to_range};
use std::alloc::Global;

// A device with memory namespace 1 of so many bytes.
fn memory_1(bytes: u32) -> Option<Config> {
    Config::new(512, 16, 1000)?.with_size(SpaceId::Mem(1), bytes)
}

// What the checks of a range answer; `Ok` where they pass.
fn checked(bytes: u32, ns: u32, at: u64, len: u64) -> Option<Status> {
    match bytes_to_range(&memory_1(bytes)?, ns, at, len, MAX_TRANSFER) {
        Ok(_) => Some(Status::Ok),
        Err(status) => Some(status),
    }
}

#[test]
fn ranges_are_checked_in_order(rt: HostRuntime) {
    for (bytes, ns, at, len, status) in [
        (16, 1, 0, 2, Status::Ok),
        (16, 1, 15, 1, Status::Ok),
        (16, 1, 16, 1, Status::OutOfRange),
        (16, 1, u64::MAX, 1, Status::OutOfRange),
        (16, 2, 0, 1, Status::BadNamespace),
        (16, 0, 0, 0, Status::BadNamespace),
        (16_384, 1, 0, 0, Status::BadLength),
        (16_384, 1, 0, MAX_TRANSFER, Status::Ok),
        (16_384, 1, 16_384, MAX_TRANSFER + 1, Status::TooLong),
    ] {
        let answer = checked(bytes, ns, at, len);
        assert_eq!(rt; answer, Some(status), "{len} bytes at {at} of {ns}");
    }
}

// How many bytes a piece has before they are written over, and the first three bytes afterwards, of a
// memory of 16 bytes.
fn written(alloc: Global, from: &[u8]) -> Option<(u64, [Option<u8>; 3])> {
    let memory = SpaceId::Mem(1);
    let mut flat = Flat::new(alloc, &memory_1(16)?).ok()?;
    let bytes = Bytes::from_slice(alloc, from).ok()?;
    let range = ByteRange::new(memory, 0, bytes.len())?;
    if range.end() > 16 || flat.byte(memory, 15) != Some(0) {
        return None;
    }
    let before = flat.piece(&range).ok()?;
    flat.patch(&range, &bytes);
    let after = [
        flat.byte(memory, 0),
        flat.byte(memory, 1),
        flat.byte(memory, 2),
    ];
    Some((before.len(), after))
}

#[test]
fn bytes_are_kept(rt: HostRuntime) {
    let found = written(rt.alloc(), &[1, 2]);
    assert_eq!(rt; found, Some((2, [Some(1), Some(2), Some(0)])));
}

// The bytes of a memory of 4 bytes after some of them were filled with 7, and a byte past them.
fn filled(alloc: Global, at: u64, len: u64) -> Option<[Option<u8>; 5]> {
    let memory = SpaceId::Mem(1);
    let mut flat = Flat::new(alloc, &memory_1(4)?).ok()?;
    let range = ByteRange::new(memory, at, len)?;
    if range.end() > 4 || flat.byte(memory, 3) != Some(0) {
        return None;
    }
    flat.fill(&range, 7);
    Some([0, 1, 2, 3, 4].map(|place| flat.byte(memory, place)))
}

#[test]
fn ranges_are_filled(rt: HostRuntime) {
    for (at, len, bytes) in [
        (0, 1, [7, 0, 0, 0]),
        (1, 2, [0, 7, 7, 0]),
        (3, 1, [0, 0, 0, 7]),
        (0, 4, [7, 7, 7, 7]),
    ] {
        let [a, b, c, d] = bytes.map(Some);
        assert_eq!(rt;
            filled(rt.alloc(), at, len),
            Some([a, b, c, d, None]),
            "{len} at {at}"
        );
    }
}
