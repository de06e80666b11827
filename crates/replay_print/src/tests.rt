use super::*;
use cp_base::{ByteRange, Bytes, CommandWord, SpaceId, Status};
use script_cmds::Show;
use std::test::Fail;

// An entry without data.
fn entry(host: u32, ordinal: u32, word: CommandWord, status: Status) -> EntryLine<'static> {
    EntryLine {
        host,
        ordinal,
        cid: 1,
        word,
        status,
        result: 0,
        bytes: b"",
    }
}

#[test]
fn entries_are_printed(rt: HostRuntime) -> Result<(), Fail> {
    let mut out = Bytes::new(rt.alloc());
    let write = entry(1, 1, CommandWord::MemWrite, Status::Ok);
    push_entry(&mut out, 1, &write)?;
    let refused = entry(1, 1, CommandWord::MemWrite, Status::OutOfRange);
    push_entry(&mut out, 1, &refused)?;
    let mut read = entry(2, 2, CommandWord::MemRead, Status::Ok);
    read.bytes = b"\x01\x02";
    push_entry(&mut out, 3, &read)?;
    let wanted =
        b"#1 h1 n1 c1 memwrite Ok r=0 d=\n#1 h1 n1 c1 memwrite OutOfRange r=0 d=\n#3 h2 n2 c1 memread Ok r=0 d=0102\n";
    assert_eq!(rt; out.as_slice(), wanted.as_slice());
    Ok(())
}

#[test]
fn longest_entry_fills_the_longest_line(rt: HostRuntime) -> Result<(), Fail> {
    let bytes = Bytes::filled(rt.alloc(), 8192, 255)?;
    let longest = EntryLine {
        host: u32::MAX,
        ordinal: u32::MAX,
        cid: u32::MAX,
        word: CommandWord::Deactivate,
        status: Status::BadNamespace,
        result: u64::MAX,
        bytes: bytes.as_slice(),
    };
    let mut out = Bytes::new(rt.alloc());
    out.reserve(LONGEST_LINE)?;
    push_entry(&mut out, u32::MAX, &longest)?;
    assert_eq!(rt; out.len(), LONGEST_LINE);
    assert_eq!(rt; out.spare(), 0);
    let front =
        b"#4294967295 h4294967295 n4294967295 c4294967295 deactivate BadNamespace r=18446744073709551615 d=ff";
    assert!(rt; out.as_slice().starts_with(front));
    Ok(())
}

#[test]
fn shows_are_printed(rt: HostRuntime) -> Result<(), Fail> {
    let mut out = Bytes::new(rt.alloc());
    let range = ByteRange::new(SpaceId::Mem(1), 0, 4).ok_or("no range")?;
    push_show(&mut out, &Show { range }, b"\x01\x02\x00\x00")?;
    let range = ByteRange::new(SpaceId::Nvm(8), 16_777_215, 1).ok_or("no range")?;
    push_show(&mut out, &Show { range }, b"\xff")?;
    let wanted = b"show mem 1 at=0 len=4 d=01020000\nshow nvm 8 at=16777215 len=1 d=ff\n";
    assert_eq!(rt; out.as_slice(), wanted.as_slice());
    Ok(())
}

#[test]
fn summaries_are_printed(rt: HostRuntime) -> Result<(), Fail> {
    let mut out = Bytes::new(rt.alloc());
    let worked = Summary {
        commands: 4,
        ok: 4,
        other: 0,
        sum: 3,
    };
    push_summary(&mut out, &worked)?;
    let largest = Summary {
        commands: u32::MAX,
        ok: 1,
        other: 4_294_967_294,
        sum: u64::MAX,
    };
    push_summary(&mut out, &largest)?;
    let wanted =
        b"commands 4\nok 4\nother 0\nsum 3\ncommands 4294967295\nok 1\nother 4294967294\nsum 18446744073709551615\n";
    assert_eq!(rt; out.as_slice(), wanted.as_slice());
    Ok(())
}

#[test]
fn statuses_have_their_names(rt: HostRuntime) -> Result<(), Fail> {
    for status in [
        Status::Ok,
        Status::BadNamespace,
        Status::BadLength,
        Status::TooLong,
        Status::OutOfRange,
        Status::CopyOverlap,
        Status::SetTableFull,
        Status::RangeOverlap,
        Status::NoSuchSet,
        Status::NoSuchSlot,
        Status::SlotEmpty,
        Status::SlotPartial,
        Status::SlotComplete,
        Status::SlotActive,
        Status::SlotInactive,
        Status::SizeDiffers,
        Status::PieceOverlap,
        Status::BadProgram,
        Status::BudgetRange,
        Status::BadAccess,
        Status::BadJump,
        Status::CallDepth,
        Status::BudgetSpent,
        Status::NoMemory,
        Status::Aborted,
    ] {
        let name = format!(in rt.alloc(); "{status:?}")?;
        assert_eq!(rt; status_name(status), name.as_str());
    }
    Ok(())
}
