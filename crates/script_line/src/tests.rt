// Lines both ways.
use super::*;
use cp_base::{Access, Bytes, Command, CommandWord};
use std::alloc::Global;
use std::test::Fail;

// What a text is read as: whether what it says keeps its limits, or its cause.
fn judged(alloc: Global, version: Version, text: &str) -> Result<Result<bool, TextCause>, Fail> {
    match read_line(alloc, version, text.as_bytes()) {
        Ok(line) => Ok(Ok(fits(&line))),
        Err(LineEnd::Fault(cause)) => Ok(Err(cause)),
        Err(LineEnd::NoMemory) => Err(Fail::from("memory is wanting")),
    }
}

#[test]
fn lines_are_read(rt: HostRuntime) -> Result<(), Fail> {
    let table = [
        ("", Err(TextCause::Word)),
        ("nvm", Err(TextCause::Field)),
        ("nvm 1 blocks=1", Ok(true)),
        ("nvm 9 blocks=1", Ok(false)),
        ("nvm 0 blocks=1", Ok(false)),
        ("nvm 8 blocks=0", Ok(false)),
        ("nvm 8 bytes=1", Err(TextCause::Field)),
        ("mem 8 bytes=16777216", Ok(true)),
        ("mem 8 bytes=16777217", Ok(false)),
        ("host 16", Ok(true)),
        ("host 17", Ok(false)),
        ("take 65535", Ok(true)),
        ("take 65536", Ok(false)),
        ("show nvm 1 at=18446744073709551615 len=8192", Ok(true)),
        ("show nvm 1 at=0 len=8193", Ok(false)),
        ("show mem 1 at=0 len=0", Ok(false)),
        ("show ram 1 at=0 len=0", Err(TextCause::Word)),
        ("show", Err(TextCause::Field)),
        ("send 1", Err(TextCause::Field)),
        ("send 1 memwrote", Err(TextCause::Word)),
        ("send x memread ns=0 at=0 len=0", Err(TextCause::Number)),
        ("send x memread ns=0 at=0", Err(TextCause::Field)),
        ("send 65536 memread ns=0 at=0 len=0", Ok(false)),
        ("send 1 memread ns=4294967295 at=0 len=0", Ok(true)),
        ("send 1 memread ns=4294967296 at=0 len=0", Ok(false)),
        ("send 1 memwrite ns=0 at=0 data=0A", Err(TextCause::Hex)),
        ("send 1 memwrite ns=00 at=0 data=0A", Err(TextCause::Number)),
        ("send 1 memwrite ns=00 at=0 data=0A ", Err(TextCause::Field)),
        ("send 1 abort cid=65535", Ok(true)),
        ("send 1 abort cid=65536", Ok(false)),
        ("send 1 abort cid=01", Err(TextCause::Number)),
        ("send 1 abort cid=1:2", Err(TextCause::Number)),
        ("send 1 abort 1", Err(TextCause::Field)),
        ("nvmecp 1 block=1 depth=256 budget=10000000", Ok(true)),
        ("nvmecp 1 block=1 depth=257 budget=10000000", Ok(false)),
        ("nvmecp 1 block=1 depth=256 budget=10000001", Ok(false)),
        ("nvmecp 1 block=1 depth=0 budget=1", Ok(false)),
        ("nvmecp 2 block=1 depth=1 budget=1", Err(TextCause::Field)),
    ];
    for (text, wanted) in table {
        assert_eq!(rt; judged(rt.alloc(), Version::One, text)?, wanted, "{text}");
    }
    Ok(())
}

#[test]
fn lines_of_version_2_are_read(rt: HostRuntime) -> Result<(), Fail> {
    let table = [
        (
            "nvmecp 2 block=1 queues=16 depth=1024 budget=100000000",
            Ok(true),
        ),
        ("nvmecp 2 block=1 queues=17 depth=1 budget=1", Ok(false)),
        ("nvmecp 2 block=1 queues=1 depth=1025 budget=1", Ok(false)),
        (
            "nvmecp 2 block=1 queues=1 depth=1 budget=100000001",
            Ok(false),
        ),
        ("nvmecp 2 block=1 queues=0 depth=1 budget=1", Ok(false)),
        (
            "nvmecp 1 block=1 queues=1 depth=1 budget=1",
            Err(TextCause::Field),
        ),
        ("nvmecp 3 block=1 depth=1 budget=1", Err(TextCause::Field)),
        ("nvmecp 1 block=1 depth=1 budget=1", Ok(true)),
        ("take 1:7", Ok(true)),
        ("take 16:65535", Ok(true)),
        ("take 17:0", Ok(false)),
        ("take 0:7", Ok(false)),
        ("take 1:65536", Ok(false)),
        ("take 7", Err(TextCause::Field)),
        ("take 1:7:", Err(TextCause::Field)),
        ("take :7", Err(TextCause::Number)),
        ("take 01:7", Err(TextCause::Number)),
        ("send 2:7 abort cid=1:65535", Ok(true)),
        ("send 2:7 abort cid=1", Err(TextCause::Field)),
        ("send 2:7 abort cid=1:2:3", Err(TextCause::Field)),
        ("send 2:7 abort cid=:1", Err(TextCause::Number)),
        ("send 2:7 abort cid=0:1", Ok(false)),
        ("send 2:7 abort cid=1:65536", Ok(false)),
        ("send 7 setdelete set=1", Err(TextCause::Field)),
    ];
    for (text, wanted) in table {
        assert_eq!(rt; judged(rt.alloc(), Version::Two, text)?, wanted, "{text}");
    }
    Ok(())
}

#[test]
fn queues_are_printed(rt: HostRuntime) -> Result<(), Fail> {
    let mut out = Bytes::new(rt.alloc());
    push_send(&mut out, Version::Two, 65_543, &Command::Abort { cid: 7 })?;
    push_take(&mut out, Version::Two, 65_543)?;
    assert_eq!(rt;
        out.as_slice(),
        b"send 2:7 abort cid=1:7\ntake 2:7\n".as_slice()
    );
    Ok(())
}

#[test]
fn lists_are_made(rt: HostRuntime) -> Result<(), Fail> {
    let triple = Triple {
        ns: 1,
        start: 2,
        len: 3,
    };
    let mut ranges = Vec::new(rt.alloc());
    ranges.push(RangeText {
        triple,
        access: Access::ReadOnly,
    })?;
    let mut values = Vec::new(rt.alloc());
    values.push(FieldValue::Count(7))?;
    values.push(FieldValue::Covered(ranges))?;
    let command = command_of(rt.alloc(), Version::One, CommandWord::SetCreate, values)?;
    let mut out = Bytes::new(rt.alloc());
    push_send(&mut out, Version::One, 7, &command)?;
    assert_eq!(rt;
        out.as_slice(),
        b"send 7 setcreate ranges=1:2:3:r\n".as_slice()
    );
    Ok(())
}
