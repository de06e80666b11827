// Worked examples: the order of the checks, and numbers at their edges.
use cp_base::{ByteRange, Config, MAX_SPAN, MAX_TRANSFER, SpaceId, Status};
use nvm_blocks::{blocks_to_range, write_to_range};

// A device with NVM namespace 1 of so many blocks.
fn device(block: u32, blocks: u32) -> Option<Config> {
    Config::new(block, 16, 1000)?.with_size(SpaceId::Nvm(1), blocks)
}

// What the checks answer: the first byte and how many, or the status.
fn told(range: Result<ByteRange, Status>) -> Result<(u64, u64), Status> {
    let range = range?;
    Ok((range.start(), range.len()))
}

// The checks of blocks, of which a command may move at most so many bytes.
fn blocks(
    config: (u32, u32),
    at: (u32, u64, u64),
    most: u64,
) -> Option<Result<(u64, u64), Status>> {
    let device = device(config.0, config.1)?;
    Some(told(blocks_to_range(&device, at.0, at.1, at.2, most)))
}

// The checks of a write of so many bytes.
fn write(config: (u32, u32), at: (u32, u64, u64)) -> Option<Result<(u64, u64), Status>> {
    let device = device(config.0, config.1)?;
    Some(told(write_to_range(&device, at.0, at.1, at.2, MAX_TRANSFER)))
}

#[test]
fn blocks_are_checked_in_order(rt: HostRuntime) {
    let small = (512, 8);
    let large = (4096, 4096);
    for (config, at, most, wanted) in [
        (small, (1, 0, 1), MAX_TRANSFER, Ok((0, 512))),
        (small, (1, 7, 1), MAX_TRANSFER, Ok((3584, 512))),
        (small, (1, 7, 2), MAX_SPAN, Err(Status::OutOfRange)),
        (small, (1, 8, 1), MAX_SPAN, Err(Status::OutOfRange)),
        (small, (1, u64::MAX, 1), MAX_SPAN, Err(Status::OutOfRange)),
        (small, (1, 1, u64::MAX), MAX_SPAN, Err(Status::TooLong)),
        (
            small,
            (1, u64::MAX, u64::MAX),
            u64::MAX,
            Err(Status::TooLong),
        ),
        (small, (1, u64::MAX, 0), MAX_SPAN, Err(Status::BadLength)),
        (small, (2, 0, 0), MAX_SPAN, Err(Status::BadNamespace)),
        (small, (0, 0, 1), MAX_SPAN, Err(Status::BadNamespace)),
        (small, (1, 0, 17), MAX_TRANSFER, Err(Status::TooLong)),
        (large, (1, 0, 2), MAX_TRANSFER, Ok((0, 8192))),
        (large, (1, 0, 3), MAX_TRANSFER, Err(Status::TooLong)),
        (large, (1, 3840, 256), MAX_SPAN, Ok((15_728_640, 1_048_576))),
        (large, (1, 3841, 256), MAX_SPAN, Err(Status::OutOfRange)),
        (large, (1, 0, 257), MAX_SPAN, Err(Status::TooLong)),
    ] {
        assert_eq!(rt;
            blocks(config, at, most),
            Some(wanted),
            "{at:?} at most {most}"
        );
    }
}

#[test]
fn writes_are_checked_in_order(rt: HostRuntime) {
    let small = (512, 32);
    let large = (4096, 4);
    for (config, at, wanted) in [
        (small, (1, 0, 512), Ok((0, 512))),
        (small, (1, 16, 8192), Ok((8192, 8192))),
        (small, (1, 17, 8192), Err(Status::OutOfRange)),
        (small, (1, u64::MAX, 512), Err(Status::OutOfRange)),
        (small, (1, u64::MAX, 8704), Err(Status::TooLong)),
        (small, (1, u64::MAX, 8193), Err(Status::BadLength)),
        (small, (1, 0, 0), Err(Status::BadLength)),
        (small, (1, 0, 511), Err(Status::BadLength)),
        (small, (2, 0, 511), Err(Status::BadNamespace)),
        (large, (1, 2, 8192), Ok((8192, 8192))),
        (large, (1, 3, 8192), Err(Status::OutOfRange)),
        (large, (1, 0, 512), Err(Status::BadLength)),
    ] {
        assert_eq!(rt; write(config, at), Some(wanted), "{at:?}");
    }
}
