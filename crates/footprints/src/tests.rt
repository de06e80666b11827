// What no clause says: each command once, at its sizes' edges.
ghost use Rattle.std.specs.Prelude.{◌≡◌, ◌==◌, false, IsTrue, None};
ghost use Rattle.cp_base.specs.Sharing.{is_outside, range_region};
ghost use Rattle.device_model.specs.Checks.{refusal_of};
ghost use Rattle.device_model.specs.State.{State};

use crate::touched::executing;
use crate::{check_touched, footprint};
use cp_base::{
    Access, Bytes, Command, Config, CopySource, MemRange, Nature, RangeList, SourceList, SpaceId,
    Spans,
};
use std::alloc::Global;

// A device with 4,096 blocks of 512 bytes in NVM namespace 1 and as many bytes in memory namespace 1.
fn device() -> Option<Config> {
    Config::new(512, 16, 1000)?
        .with_size(SpaceId::Nvm(1), 4096)?
        .with_size(SpaceId::Mem(1), 2_097_152)
}

// Whether a command that is no execution moves bytes and passes its checks.
fn is_checked(alloc: Global, config: &Config, command: &Command) -> bool
    ensures { IsTrue result → (s : State) × (refusal_of config.now s command.now ≡ None) }
{
    match command.nature() {
        Nature::Reads | Nature::Writes | Nature::Copies => {
            check_touched(alloc, config, command).is_ok()
        }
        Nature::Executes { .. }
        | Nature::Builds
        | Nature::Arranges
        | Nature::Deletes { .. }
        | Nature::Stops { .. }
        | Nature::Withdraws { .. } => false,
    }
}

// How many runs there are, the first place of the first and the place behind the last.
fn outline(spans: &Spans) -> (usize, u64, u64) {
    let runs = spans.as_slice();
    let first = runs.first().map(|run| run.start()).unwrap_or(0);
    let end = runs.last().map(|run| run.end()).unwrap_or(0);
    (runs.len(), first, end)
}

// The runs that a command reads and that it may write, where it passes its checks.
fn told(alloc: Global, command: &Command) -> Option<((usize, u64, u64), (usize, u64, u64))> {
    let config = device()?;
    if !is_checked(alloc, &config, command) {
        return None;
    }
    let touched = footprint(alloc, &config, command, None);
    Some((outline(&touched.reads), outline(&touched.writes)))
}

fn mem(at: u64, len: u64) -> CopySource {
    CopySource::Mem { ns: 1, at, len }
}

// The runs that a copy of two sources reads, and that it writes: to block 2048, or to place 1,048,576.
fn copied(
    alloc: Global,
    to_blocks: bool,
    first: CopySource,
    second: CopySource,
) -> Option<((usize, u64, u64), (usize, u64, u64))> {
    let from = SourceList::new(alloc, &[first, second]).ok()??;
    let (ns, lba, at) = (1, 2048, 1_048_576);
    if to_blocks {
        return told(alloc, &Command::NvmCopy { ns, lba, from });
    }
    told(alloc, &Command::MemCopy { ns, at, from })
}

#[test]
fn a_command_reads_or_writes_one_run(rt: HostRuntime) {
    let block = Bytes::filled(rt.alloc(), 512, 7).ok().expect(&rt, "room");
    let byte = Bytes::filled(rt.alloc(), 1, 7).ok().expect(&rt, "room");
    let nothing = (0, 0, 0);
    for (command, reads, writes) in [
        (
            Command::NvmRead {
                ns: 1,
                lba: 2,
                count: 1,
            },
            (1, 1024, 1536),
            nothing,
        ),
        (
            Command::NvmRead {
                ns: 1,
                lba: 4080,
                count: 16,
            },
            (1, 2_088_960, 2_097_152),
            nothing,
        ),
        (
            Command::NvmWrite {
                ns: 1,
                lba: 1,
                bytes: block,
            },
            nothing,
            (1, 512, 1024),
        ),
        (
            Command::NvmZeroes {
                ns: 1,
                lba: 1,
                count: 2048,
            },
            nothing,
            (1, 512, 1_049_088),
        ),
        (
            Command::MemRead {
                ns: 1,
                at: 2_097_151,
                len: 1,
            },
            (1, 2_097_151, 2_097_152),
            nothing,
        ),
        (
            Command::MemWrite {
                ns: 1,
                at: 0,
                bytes: byte,
            },
            nothing,
            (1, 0, 1),
        ),
        (
            Command::MemFill {
                ns: 1,
                at: 5,
                len: 1_048_576,
                value: 1,
            },
            nothing,
            (1, 5, 1_048_581),
        ),
    ] {
        assert_eq!(rt; told(rt.alloc(), &command), Some((reads, writes)));
    }
}

#[test]
fn sources_form_runs(rt: HostRuntime) {
    for (first, second, reads, len) in [
        (mem(0, 256), mem(256, 256), (1, 0, 512), 512),
        (mem(256, 256), mem(0, 256), (1, 0, 512), 512),
        (mem(0, 511), mem(0, 1), (1, 0, 511), 512),
        (mem(0, 500), mem(490, 12), (1, 0, 502), 512),
        (mem(0, 256), mem(257, 256), (2, 0, 513), 512),
        (
            mem(0, 524_288),
            mem(524_288, 524_288),
            (1, 0, 1_048_576),
            1_048_576,
        ),
    ] {
        let writes = (1, 1_048_576, 1_048_576 + len);
        for to_blocks in [true, false] {
            let found = copied(rt.alloc(), to_blocks, first, second);
            assert_eq!(rt; found, Some((reads, writes)), "{to_blocks}");
        }
    }
}

// Whether a range has bytes and lies inside its namespace.
fn lies(config: &Config, range: &MemRange) -> bool
    ensures some { IsTrue result → (range.now.len == 0) ≡ false }
    ensures inside { IsTrue result → is_outside config.now (range_region range.now) ≡ false }
{
    let size = config.size(SpaceId::Mem(range.ns)).unwrap_or(0);
    range.len > 0 && range.at <= size && range.len <= size - range.at
}

// The runs of an execution on two ranges, and what it holds.
fn executed(
    alloc: Global,
    first: MemRange,
    second: MemRange,
) -> Option<
    (
        (usize, u64, u64),
        (usize, u64, u64),
        Option<u32>,
        Option<u32>,
    ),
> {
    let config = device()?;
    if !lies(&config, &first) || !lies(&config, &second) {
        return None;
    }
    let set = RangeList::new(alloc, &[first, second])?;
    let touched = executing(alloc, &config, 7, 1, set.as_slice());
    Some((
        outline(&touched.reads),
        outline(&touched.writes),
        touched.slot,
        touched.set,
    ))
}

fn range(at: u64, len: u64, access: Access) -> MemRange {
    MemRange {
        ns: 1,
        at,
        len,
        access,
    }
}

#[test]
fn an_execution_writes_what_is_read_write(rt: HostRuntime) {
    let (readable, writable) = (Access::ReadOnly, Access::ReadWrite);
    for (first, second, reads, writes) in [
        (
            range(0, 4, readable),
            range(4, 4, writable),
            (1, 0, 8),
            (1, 4, 8),
        ),
        (
            range(4, 4, writable),
            range(0, 4, writable),
            (1, 0, 8),
            (1, 0, 8),
        ),
        (
            range(0, 1, readable),
            range(2, 1, readable),
            (2, 0, 3),
            (0, 0, 0),
        ),
    ] {
        let found = executed(rt.alloc(), first, second);
        assert_eq!(rt; found, Some((reads, writes, Some(7), Some(1))));
    }
}
