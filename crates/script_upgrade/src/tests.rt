// A script of each version, upgraded and printed.
use crate::upgrade;
use cp_base::Bytes;
use script_cmds::{parse, print};
use script_line::Version;
use std::alloc::Global;
use std::test::Fail;

const FIRST: &str =
    "nvmecp 1 block=512 depth=16 budget=1000\nmem 1 bytes=16\nphase\nhost 1\nsend 7 memwrite ns=1 at=0 data=0102\nsend 8 abort cid=7\ntake 7\nshow mem 1 at=0 len=4\n";

const SECOND: &str =
    "nvmecp 2 block=512 queues=1 depth=16 budget=1000\nmem 1 bytes=16\nphase\nhost 1\nsend 1:7 memwrite ns=1 at=0 data=0102\nsend 1:8 abort cid=1:7\ntake 1:7\nshow mem 1 at=0 len=4\n";

const QUEUES: &str =
    "nvmecp 2 block=512 queues=3 depth=5 budget=1\nphase\nhost 1\nsend 3:7 unload slot=0\ntake 3:7\n";

// The upgraded text of a script of less than 1,000 bytes.
fn upgraded(alloc: Global, text: &str) -> Result<Bytes, Fail> {
    if text.len() > 1_000 {
        return Err("the script is too long".into());
    }
    let text = Bytes::from_slice(alloc, text.as_bytes())?;
    let script = upgrade(parse(alloc, &text).ok().ok_or("no script")?);
    if script.form.version != Version::Two {
        return Err("another version".into());
    }
    Ok(print(alloc, &script)?)
}

#[test]
fn texts_are_upgraded(rt: HostRuntime) -> Result<(), Fail> {
    for (text, wanted) in [(FIRST, SECOND), (SECOND, SECOND), (QUEUES, QUEUES)] {
        let text = upgraded(rt.alloc(), text)?;
        assert!(rt; text.as_slice() == wanted.as_bytes());
    }
    Ok(())
}
