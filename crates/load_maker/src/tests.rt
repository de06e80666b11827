use super::*;
use cp_base::Bytes;
use cp_line::MAX_MADE;
use cp_text::{push_hex, push_piece};
use std::test::Fail;

// The device and the first phase.
const READY: &str = "nvmecp 1 block=512 depth=16 budget=1000
nvm 1 blocks=64
mem 1 bytes=65536
phase
host 1
send 1 setcreate ranges=1:0:256
take 1
send 2 setcreate ranges=1:1024:256,1:0:16
take 2
send 3 load slot=0 size=48 at=0 data=180100000000000000000000010000007110000000000000070000000100000073010000000000009500000000000000
take 3
send 4 activate slot=0
take 4
phase
host 1
";

#[test]
fn no_command_leaves_four_empty_parts(rt: HostRuntime) -> Result<(), Fail> {
    let text = make(rt.alloc(), 0, 0)?;
    let mut wanted = Bytes::from_slice(rt.alloc(), READY.as_bytes())?;
    push_piece(&mut wanted, b"host 2\nhost 3\nhost 4\n")?;
    assert_eq!(rt; text.as_slice(), wanted.as_slice());
    Ok(())
}

// The first twenty lines of a load, whose whole text is the same each time and inside the limit of scripts.
#[test]
fn first_commands_of_seed_7_are_made(rt: HostRuntime) -> Result<(), Fail> {
    let text = make(rt.alloc(), 7, MAX_MADE)?;
    let again = make(rt.alloc(), 7, MAX_MADE)?;
    assert!(rt; text.as_slice() == again.as_slice());
    assert!(rt; text.len() < 9_500_000);
    let mut wanted = Bytes::from_slice(rt.alloc(), READY.as_bytes())?;
    push_piece(
        &mut wanted,
        b"send 0 execute slot=0 set=1 p1=0 p2=0 budget=100\n",
    )?;
    push_piece(&mut wanted, b"send 1 memread ns=1 at=50235 len=256\n")?;
    push_piece(&mut wanted, b"send 2 nvmwrite ns=1 lba=44 data=")?;
    push_hex(
        &mut wanted,
        Bytes::filled(rt.alloc(), 512, 0x7a)?.as_slice(),
    )?;
    push_piece(
        &mut wanted,
        b"\nsend 3 nvmcopy ns=1 lba=41 from=m1:46697:512\n",
    )?;
    push_piece(
        &mut wanted,
        b"send 4 execute slot=0 set=2 p1=0 p2=0 budget=100\n",
    )?;
    assert!(rt; text.as_slice().starts_with(wanted.as_slice()));
    Ok(())
}
