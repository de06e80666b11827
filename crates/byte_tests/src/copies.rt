// Worked examples: the order of the checks, and numbers at their edges.
use copy_ranges::check_copy;
use cp_base::{Command, Config, CopySource, SourceList, SpaceId, Status};
use std::alloc::Global;
use std::process::Abort;

// A device with 8 blocks of 512 bytes in NVM namespace 1 and 16 bytes in memory namespace 1, and with
// large ones of number 2.
fn device() -> Option<Config> {
    Config::new(512, 16, 1000)?
        .with_size(SpaceId::Nvm(1), 8)?
        .with_size(SpaceId::Nvm(2), 8192)?
        .with_size(SpaceId::Mem(1), 16)?
        .with_size(SpaceId::Mem(2), 4_194_304)
}

fn mem(ns: u32, at: u64, len: u64) -> CopySource {
    CopySource::Mem { ns, at, len }
}

fn nvm(ns: u32, lba: u64, count: u64) -> CopySource {
    CopySource::Nvm { ns, lba, count }
}

// The first place that the copy writes, how many bytes, and how many sources there are; or the status.
fn told(alloc: Global, command: &Command) -> Option<Result<(u64, u64, usize), Status>> {
    if !matches!(command, Command::NvmCopy { .. } | Command::MemCopy { .. }) {
        return None;
    }
    let config = device()?;
    match check_copy(alloc, &config, command) {
        Ok(plan) => Some(Ok((
            plan.to.start(),
            plan.to.len(),
            plan.sources.as_slice().len(),
        ))),
        Err(status) => Some(Err(status)),
    }
}

// What the checks of a copy to memory answer.
fn to_memory(
    alloc: Global,
    ns: u32,
    at: u64,
    sources: &[CopySource],
) -> Option<Result<(u64, u64, usize), Status>> {
    let from = SourceList::new(alloc, sources).ok()??;
    told(alloc, &Command::MemCopy { ns, at, from })
}

// What the checks of a copy to blocks answer.
fn to_blocks(
    alloc: Global,
    ns: u32,
    lba: u64,
    sources: &[CopySource],
) -> Option<Result<(u64, u64, usize), Status>> {
    let from = SourceList::new(alloc, sources).ok()??;
    told(alloc, &Command::NvmCopy { ns, lba, from })
}

// Expects that the checks of a copy to memory answer so.
fn expect_to_memory(
    rt: &impl Abort,
    alloc: Global,
    ns: u32,
    at: u64,
    sources: [CopySource; 2],
    wanted: Result<(u64, u64, usize), Status>,
) {
    let found = to_memory(alloc, ns, at, &sources);
    assert_eq!(rt; found, Some(wanted), "to {at} of {ns} from {sources:?}");
}

#[test]
fn copies_to_memory_are_kept_apart_and_in_range(rt: HostRuntime) {
    for (ns, at, first, second, wanted) in [
        (1, 8, mem(1, 0, 4), mem(1, 2, 4), Ok((8, 8, 2))),
        (1, 4, mem(1, 0, 2), mem(1, 2, 2), Ok((4, 4, 2))),
        (1, 4, mem(1, 0, 2), mem(1, 2, 3), Err(Status::CopyOverlap)),
        (1, 4, mem(2, 0, 2), mem(1, 7, 2), Err(Status::CopyOverlap)),
        (1, 8, mem(1, 0, 4), mem(1, 12, 5), Err(Status::OutOfRange)),
        (1, 13, mem(1, 0, 2), mem(1, 2, 2), Err(Status::OutOfRange)),
        (
            1,
            u64::MAX,
            mem(1, 0, 2),
            mem(1, 2, 2),
            Err(Status::OutOfRange),
        ),
        (
            1,
            8,
            mem(1, u64::MAX, 4),
            mem(1, 2, 2),
            Err(Status::OutOfRange),
        ),
    ] {
        expect_to_memory(&rt, rt.alloc(), ns, at, [first, second], wanted);
    }
}

#[test]
fn copies_to_memory_are_bounded_in_length(rt: HostRuntime) {
    for (ns, at, first, second, wanted) in [
        (
            2,
            0,
            mem(2, 2_097_152, 1_048_575),
            nvm(1, 0, 1),
            Err(Status::TooLong),
        ),
        (
            2,
            0,
            mem(2, 2_097_152, 1_048_064),
            nvm(1, 0, 1),
            Ok((0, 1_048_576, 2)),
        ),
        (
            1,
            0,
            mem(1, 0, u64::MAX),
            mem(1, 0, 1),
            Err(Status::TooLong),
        ),
        (
            1,
            0,
            nvm(1, 0, u64::MAX),
            nvm(1, 0, u64::MAX),
            Err(Status::TooLong),
        ),
    ] {
        expect_to_memory(&rt, rt.alloc(), ns, at, [first, second], wanted);
    }
}

#[test]
fn copies_to_memory_are_checked_in_order(rt: HostRuntime) {
    for (ns, at, first, second, wanted) in [
        (
            1,
            0,
            mem(1, 0, u64::MAX),
            mem(1, 16, 0),
            Err(Status::BadLength),
        ),
        (1, 0, mem(1, 0, 0), mem(3, 0, 1), Err(Status::BadNamespace)),
        (3, 0, mem(1, 0, 0), mem(1, 0, 1), Err(Status::BadNamespace)),
    ] {
        expect_to_memory(&rt, rt.alloc(), ns, at, [first, second], wanted);
    }
}

#[test]
fn copies_to_blocks_are_checked_in_order(rt: HostRuntime) {
    for (ns, lba, first, second, wanted) in [
        (1, 2, nvm(1, 0, 1), nvm(1, 1, 1), Ok((1024, 1024, 2))),
        (1, 1, mem(2, 0, 500), mem(1, 0, 12), Ok((512, 512, 2))),
        (1, 0, mem(1, 0, 8), mem(1, 8, 8), Err(Status::BadLength)),
        (1, 1, nvm(2, 0, 1), nvm(1, 2, 1), Err(Status::CopyOverlap)),
        (1, 7, nvm(2, 0, 1), nvm(1, 2, 1), Err(Status::OutOfRange)),
        (
            1,
            u64::MAX,
            nvm(2, 0, 1),
            nvm(1, 2, 1),
            Err(Status::OutOfRange),
        ),
        (
            2,
            4096,
            nvm(2, 0, 2047),
            nvm(1, 0, 1),
            Ok((2_097_152, 1_048_576, 2)),
        ),
        (2, 4096, nvm(2, 0, 2048), nvm(1, 0, 1), Err(Status::TooLong)),
        (9, 0, nvm(1, 0, 1), nvm(1, 0, 0), Err(Status::BadNamespace)),
    ] {
        let found = to_blocks(rt.alloc(), ns, lba, &[first, second]);
        assert_eq!(rt;
            found,
            Some(wanted),
            "to {lba} of {ns} from {first:?}, {second:?}"
        );
    }
}

#[test]
fn one_and_sixteen_sources_are_copied(rt: HostRuntime) {
    let overlapping = to_memory(rt.alloc(), 1, 4, &[mem(1, 0, 8)]);
    assert_eq!(rt; overlapping, Some(Err(Status::CopyOverlap)));
    let sixteen = to_memory(rt.alloc(), 1, 0, &[mem(2, 5, 1); 16]);
    assert_eq!(rt; sixteen, Some(Ok((0, 16, 16))));
}
