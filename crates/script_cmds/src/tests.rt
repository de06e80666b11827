// Texts that are no scripts, and one that is.
use super::*;
use cp_base::{
    Access, ByteRange, Bytes, Command, Config, CopySource, MemRange, Sequence, SetRanges,
    SourceList, SpaceId,
};
use script_line::{TextCause, Version};
use std::alloc::Global;
use std::sync::Arc;
use std::test::Fail;

// The texts of the header and of what stands before most lines.
const FRONT: &str = "nvmecp 1 block=512 depth=16 budget=1000\nmem 1 bytes=64\nphase\nhost 1\n";

// The first lines of a script with two queues for a host.
const QUEUES: &str = "nvmecp 2 block=512 queues=2 depth=16 budget=1\nphase\nhost 1\n";

// The first four lines of a script with as many outstanding commands as a host may have.
const DEEP: &str =
    "nvmecp 2 block=512 queues=4 depth=1024 budget=1\nmem 1 bytes=64\nphase\nhost 1\n";

const HEADER: &str = "nvmecp 1 block=512 depth=1 budget=1\n";

// Parses the front and more lines, which are short.
fn parsed(alloc: Global, front: &str, more: &str) -> Result<Result<Script, ParseEnd>, Fail> {
    let text = format!(in alloc; "{front}{more}")?;
    outcome(alloc, text.as_str().as_bytes())
}

// Parses a text of less than 2 MB.
fn outcome(alloc: Global, text: &[u8]) -> Result<Result<Script, ParseEnd>, Fail> {
    if text.len() > 2_000_000 {
        return Ok(Err(ParseEnd::NoMemory));
    }
    let bytes = Bytes::from_slice(alloc, text)?;
    Ok(parse(alloc, &bytes))
}

#[test]
fn faults(rt: HostRuntime) -> Result<(), Fail> {
    let table = [
        ("", "", 1, TextCause::Order),
        ("", "\n", 1, TextCause::Word),
        (
            "",
            "nvmecp 1 block=513 depth=16 budget=1000\n",
            1,
            TextCause::Limit,
        ),
        (
            "",
            "nvmecp 1 block=0512 depth=16 budget=1000\n",
            1,
            TextCause::Number,
        ),
        (
            "",
            "nvmecp 2 block=512 depth=16 budget=1000\n",
            1,
            TextCause::Field,
        ),
        (
            "",
            "nvmecp 1 block=512 depth=257 budget=1000\n",
            1,
            TextCause::Limit,
        ),
        (
            "",
            "nvmecp 1 block=512 depth=1 budget=10000001\n",
            1,
            TextCause::Limit,
        ),
        ("", "nvmecp 1 block=0512 depth=16\n", 1, TextCause::Field),
        (
            "",
            "nvmecp 1 block=512 depth=16 budget=1",
            1,
            TextCause::Word,
        ),
        ("", "mem 1 bytes=64\n", 1, TextCause::Order),
        (
            FRONT,
            "send 1 memwrite ns=1 at=0 data=0A\n",
            5,
            TextCause::Hex,
        ),
        (
            FRONT,
            "send 1 memwrite ns=01 at=0 data=0A\n",
            5,
            TextCause::Number,
        ),
        (
            FRONT,
            "send 1 memwrite ns=01 at=0 date=0A\n",
            5,
            TextCause::Field,
        ),
        (
            FRONT,
            "send 1 memwrote ns=01 at=0 date=0A\n",
            5,
            TextCause::Word,
        ),
        (FRONT, "send 1 abort cid=1:2\n", 5, TextCause::Number),
        (FRONT, "send 1 abort cid=01\n", 5, TextCause::Number),
        (FRONT, "send 1 abort cid=65536\n", 5, TextCause::Limit),
        (FRONT, "send 1 abort\n", 5, TextCause::Field),
        (
            FRONT,
            "send  1 memread ns=1 at=0 len=1\n",
            5,
            TextCause::Word,
        ),
        (FRONT, "send 1 \n", 5, TextCause::Word),
        (FRONT, "send 1\n", 5, TextCause::Field),
        (FRONT, "send\n", 5, TextCause::Field),
        (FRONT, "show \n", 5, TextCause::Word),
        (FRONT, "show\n", 5, TextCause::Field),
        (FRONT, "phase \n", 5, TextCause::Field),
        (FRONT, " take 1\n", 5, TextCause::Word),
        (FRONT, "take 1 \n", 5, TextCause::Field),
        (FRONT, "take 18446744073709551616\n", 5, TextCause::Number),
        (FRONT, "take 65536\n", 5, TextCause::Limit),
        (FRONT, "host 0\n", 5, TextCause::Order),
        (FRONT, "phase\nhost 0\n", 6, TextCause::Limit),
        (FRONT, "host 17\n", 5, TextCause::Limit),
        (FRONT, "mem 2 bytes=1\n", 5, TextCause::Order),
        (
            "",
            "nvmecp 2 block=512 queues=5 depth=820 budget=1\n",
            1,
            TextCause::Limit,
        ),
        (QUEUES, "send 3:7 setdelete set=1\n", 4, TextCause::Limit),
        (QUEUES, "send 7 setdelete set=1\n", 4, TextCause::Field),
        (QUEUES, "send 1:7 abort cid=3:1\n", 4, TextCause::Limit),
        (QUEUES, "send 1:7 abort cid=0:1\n", 4, TextCause::Limit),
        (QUEUES, "send 1:7 abort cid=1:65536\n", 4, TextCause::Limit),
        (QUEUES, "send 1:7 abort cid=1\n", 4, TextCause::Field),
        (QUEUES, "send 1:7 abort cid=1:2:3\n", 4, TextCause::Field),
        (QUEUES, "send 1:7 abort cid=:1\n", 4, TextCause::Number),
        (QUEUES, "take 3:1\n", 4, TextCause::Limit),
        (QUEUES, "take 0:7\n", 4, TextCause::Limit),
        (QUEUES, "take 1:65536\n", 4, TextCause::Limit),
        (QUEUES, "take 1:7:\n", 4, TextCause::Field),
        (QUEUES, "take :7\n", 4, TextCause::Number),
        (QUEUES, "take 01:7\n", 4, TextCause::Number),
        (
            QUEUES,
            "nvmecp 1 block=512 depth=1 budget=1\n",
            4,
            TextCause::Order,
        ),
        (
            HEADER,
            "nvmecp 2 block=512 queues=1 depth=1 budget=1\n",
            2,
            TextCause::Order,
        ),
        (HEADER, "nvm 1 blocks=32769\n", 2, TextCause::Limit),
        (HEADER, "nvm 1 blocks=0\n", 2, TextCause::Limit),
        (HEADER, "nvm 9 blocks=1\n", 2, TextCause::Limit),
        (
            HEADER,
            "nvm 2 blocks=1\nnvm 2 blocks=1\n",
            3,
            TextCause::Order,
        ),
        (
            HEADER,
            "mem 2 bytes=1\nnvm 3 blocks=1\n",
            3,
            TextCause::Order,
        ),
        (
            HEADER,
            "mem 1 bytes=1\nnvmecp 1 block=512 depth=1 budget=1\n",
            3,
            TextCause::Order,
        ),
        (
            HEADER,
            "nvm 1 blocks=1\nshow nvm 1 at=1 len=512\n",
            3,
            TextCause::Limit,
        ),
        (
            HEADER,
            "nvm 1 blocks=1\nshow mem 1 at=0 len=1\n",
            3,
            TextCause::Limit,
        ),
        (FRONT, "show mem 1 at=60 len=5\n", 5, TextCause::Limit),
        (FRONT, "show mem 2 at=0 len=1\n", 5, TextCause::Limit),
        (FRONT, "show mem 1 at=0 len=0\n", 5, TextCause::Limit),
        (FRONT, "show mem 1 at=0 len=1\nphase\n", 6, TextCause::Order),
        (
            FRONT,
            "send 1 memread ns=4294967296 at=0 len=1\n",
            5,
            TextCause::Limit,
        ),
        (FRONT, "take 1\u{0}\n", 5, TextCause::Number),
        (FRONT, "tak\u{e9} 1\n", 5, TextCause::Word),
    ];
    for (front, more, line, cause) in table {
        let fault = match parsed(rt.alloc(), front, more)? {
            Err(ParseEnd::Fault(fault)) => Some(fault),
            Ok(_) | Err(ParseEnd::NoMemory) => None,
        };
        assert_eq!(rt; fault, Some(ScriptFault { line, cause }), "{more}");
    }
    Ok(())
}

#[test]
fn scripts(rt: HostRuntime) -> Result<(), Fail> {
    let table = [
        "nvmecp 1 block=4096 depth=256 budget=10000000\n",
        "nvmecp 1 block=512 depth=1 budget=1\nnvm 1 blocks=32768\nnvm 3 blocks=1\nmem 2 bytes=1\nshow nvm 3 at=511 len=1\n",
        "nvmecp 1 block=512 depth=1 budget=1\nmem 8 bytes=16777216\nphase\nphase\nhost 16\ntake 65535\nshow mem 8 at=16769024 len=8192\n",
        "nvmecp 2 block=512 queues=16 depth=256 budget=100000000\nmem 1 bytes=16\nphase\nhost 1\nsend 1:7 memread ns=1 at=0 len=1\nsend 16:65535 abort cid=1:7\ntake 16:65535\n",
        "nvmecp 1 block=512 depth=1 budget=1\nphase\nhost 1\nsend 0 memread ns=4294967295 at=18446744073709551615 len=0\nsend 1 memwrite ns=0 at=0 data=\n",
    ];
    for text in table {
        let script = parsed(rt.alloc(), "", text)?.ok().ok_or("no script")?;
        assert_eq!(rt; print(rt.alloc(), &script)?.as_slice(), text.as_bytes());
    }
    Ok(())
}

// Adds a send of a command.
fn add(alloc: Global, items: &mut Vec<Item>, command: Command) -> Result<(), Fail> {
    let command = Arc::new(alloc, command)?;
    items.push(Item::Send { cid: 7, command })?;
    Ok(())
}

// Adds a send of each command on namespaces.
fn add_commands(alloc: Global, items: &mut Vec<Item>) -> Result<(), Fail> {
    let (ns, lba, at, count, len) = (1, 0, 0, 2, 2);
    let blocks = CopySource::Nvm {
        ns: 2,
        lba: 0,
        count: u64::MAX,
    };
    let sources = [blocks, CopySource::Mem { ns: 1, at: 5, len }];
    let from = SourceList::new(alloc, &sources)?.ok_or("no list")?;
    let bytes = Bytes::from_slice(alloc, &[0, 255])?;
    add(alloc, items, Command::NvmRead { ns, lba, count })?;
    add(alloc, items, Command::NvmWrite { ns, lba, bytes })?;
    add(alloc, items, Command::NvmZeroes { ns, lba, count })?;
    add(alloc, items, Command::NvmCopy { ns, lba, from })?;
    let from = SourceList::new(alloc, &[blocks])?.ok_or("no list")?;
    let bytes = Bytes::new(alloc);
    let value = 255;
    add(alloc, items, Command::MemRead { ns, at, len })?;
    add(alloc, items, Command::MemWrite { ns, at, bytes })?;
    add(alloc, items, Command::MemFill { ns, at, len, value })?;
    add(alloc, items, Command::MemCopy { ns, at, from })
}

// Adds a send of each command on sets and slots, and of an Abort.
fn add_programs(alloc: Global, items: &mut Vec<Item>) -> Result<(), Fail> {
    let (slot, set, size, at) = (1, u32::MAX, 8, 0);
    let range = MemRange {
        ns: 1,
        at: 2,
        len: 3,
        access: Access::ReadWrite,
    };
    let constant = MemRange {
        access: Access::ReadOnly,
        ..range
    };
    let ranges = SetRanges::new(alloc, &[range, constant])?.ok_or("no list")?;
    let bytes = Bytes::from_slice(alloc, &[149])?;
    add(alloc, items, Command::SetCreate { ranges })?;
    add(alloc, items, Command::SetDelete { set })?;
    add(
        alloc,
        items,
        Command::Load {
            slot,
            size,
            at,
            bytes,
        },
    )?;
    add(alloc, items, Command::Unload { slot })?;
    add(alloc, items, Command::Activate { slot })?;
    add(alloc, items, Command::Deactivate { slot })?;
    let (p1, p2, budget) = (3, 4, 5);
    add(
        alloc,
        items,
        Command::Execute {
            slot,
            set,
            p1,
            p2,
            budget,
        },
    )?;
    add(alloc, items, Command::Abort { cid: 65_535 })
}

// A script with a line of each kind and a send of each command.
fn full_script(alloc: Global) -> Result<Script, Fail> {
    let config = Config::new(512, 16, 1000).ok_or("no header")?;
    let config = config.with_size(SpaceId::Nvm(2), 8).ok_or("no nvm")?;
    let config = config.with_size(SpaceId::Mem(1), 64).ok_or("no mem")?;
    let mut items = Vec::new(alloc);
    add_commands(alloc, &mut items)?;
    add_programs(alloc, &mut items)?;
    items.push(Item::Take { cid: 7 })?;
    let mut hosts = Vec::new(alloc);
    let items = Sequence::new(items);
    hosts.push(HostPart { host: 3, items })?;
    let mut phases = Vec::new(alloc);
    let hosts = Sequence::new(hosts);
    phases.push(Phase { hosts })?;
    let mut shows = Vec::new(alloc);
    for (space, start, len) in [(SpaceId::Nvm(2), 0, 512), (SpaceId::Mem(1), 60, 4)] {
        let range = ByteRange::new(space, start, len).ok_or("no range")?;
        shows.push(Show { range })?;
    }
    let phases = Sequence::new(phases);
    let shows = Sequence::new(shows);
    Ok(Script {
        form: Form {
            version: Version::One,
            queues: 1,
        },
        config,
        phases,
        shows,
    })
}

#[test]
fn each_line_is_printed(rt: HostRuntime) -> Result<(), Fail> {
    let wanted =
        "nvmecp 1 block=512 depth=16 budget=1000\nnvm 2 blocks=8\nmem 1 bytes=64\nphase\nhost 3\n\
        send 7 nvmread ns=1 lba=0 count=2\nsend 7 nvmwrite ns=1 lba=0 data=00ff\n\
        send 7 nvmzeroes ns=1 lba=0 count=2\n\
        send 7 nvmcopy ns=1 lba=0 from=n2:0:18446744073709551615,m1:5:2\n\
        send 7 memread ns=1 at=0 len=2\nsend 7 memwrite ns=1 at=0 data=\n\
        send 7 memfill ns=1 at=0 len=2 value=255\n\
        send 7 memcopy ns=1 at=0 from=n2:0:18446744073709551615\n\
        send 7 setcreate ranges=1:2:3,1:2:3:r\nsend 7 setdelete set=4294967295\n\
        send 7 load slot=1 size=8 at=0 data=95\nsend 7 unload slot=1\n\
        send 7 activate slot=1\nsend 7 deactivate slot=1\n\
        send 7 execute slot=1 set=4294967295 p1=3 p2=4 budget=5\n\
        send 7 abort cid=65535\ntake 7\n\
        show nvm 2 at=0 len=512\nshow mem 1 at=60 len=4\n";
    let script = full_script(rt.alloc())?;
    let text = print(rt.alloc(), &script)?;
    assert_eq!(rt; text.as_slice(), wanted.as_bytes());
    Ok(())
}

#[test]
fn counts(rt: HostRuntime) -> Result<(), Fail> {
    let table: [(&str, &str, u32); 6] = [
        (FRONT, "send 1 memread ns=1 at=0 len=1\n", 16_384),
        (FRONT, "phase\n", 1_023),
        (FRONT, "show mem 1 at=0 len=1\n", 1_024),
        (DEEP, "send 4:1 unload slot=0\n", 65_536),
        (DEEP, "phase\n", 4_095),
        (DEEP, "show mem 1 at=0 len=1\n", 4_096),
    ];
    for (front, line, most) in table {
        let mut text = Vec::from_slice(rt.alloc(), front.as_bytes())?;
        for _ in 0..most {
            text.extend_from_slice(line.as_bytes())?;
        }
        assert!(rt; outcome(rt.alloc(), text.as_slice())?.is_ok(), "{line}");
        text.extend_from_slice(line.as_bytes())?;
        let fault = match outcome(rt.alloc(), text.as_slice())? {
            Err(ParseEnd::Fault(fault)) => Some(fault),
            Ok(_) | Err(ParseEnd::NoMemory) => None,
        };
        let wanted = ScriptFault {
            line: most + 5,
            cause: TextCause::Limit,
        };
        assert_eq!(rt; fault, Some(wanted), "{line}");
    }
    Ok(())
}

#[test]
fn long_scripts_are_read_and_printed(rt: HostRuntime) -> Result<(), Fail> {
    let mut text = Vec::from_slice(rt.alloc(), FRONT.as_bytes())?;
    for _ in 0..16_382 {
        text.extend_from_slice(b"send 65535 memwrite ns=1 at=0 data=00\ntake 65535\n")?;
    }
    let script = outcome(rt.alloc(), text.as_slice())?
        .ok()
        .ok_or("no script")?;
    let printed = print(rt.alloc(), &script)?;
    assert!(rt; printed.as_slice() == text.as_slice(), "32,768 lines");
    Ok(())
}
