// Plans of small scripts, and the first lines that break a rule.
ghost use Rattle.std.specs.Prelude.{◌≡◌, ◌≤◌, [], IfOk, length, vec_len};
ghost use Rattle.history_model.specs.Plan.{lines_of_parts};
ghost use Rattle.script_cmds.specs.Text.{lines_of};

use crate::count::configuration_lines;
use crate::{Plan, PlanCause, PlanEnd, PlanFault, plan};
use cp_base::{Bytes, Command, Config, Sequence, SpaceId};
use script_cmds::{Form, HostPart, Item, Phase, Script, parse};
use script_line::Version;
use std::alloc::{AllocError, Global};
use std::sync::Arc;
use std::test::Fail;

// A send or a take of an identifier.
#[derive(Clone, Copy, Debug, PartialEq, Eq)]
enum Act {
    Send(u32),
    Take(u32),
}

use Act::{Send, Take};

// What a host does by these words.
fn part(alloc: Global, host: u32, acts: &[Act]) -> Result<HostPart, AllocError>
    requires { length acts.now ≤ 1000 }
    ensures { IfOk result (λ part. length part.items ≡ length acts.now) }
{
    let mut items = Vec::new(alloc);
    for act in acts {
        let item = match *act {
            Send(cid) => Item::Send {
                cid,
                command: Arc::new(alloc, Command::Unload { slot: cid })?,
            },
            Take(cid) => Item::Take { cid },
        };
        items.push(item)?;
    }
    let items = Sequence::new(items);
    Ok(HostPart { host, items })
}

// A script of a device with one memory namespace, whose hosts act in one phase.
fn script(alloc: Global, config: Config, parts: Vec<HostPart>) -> Result<Script, AllocError>
    requires { lines_of_parts parts.items ≤ 3000 }
    ensures { IfOk result (λ script. length (lines_of script) ≤ 4294967294) }
{
    // Called for its clause that the lines are few.
    let _lines = configuration_lines(&config);
    let mut phases = Vec::new(alloc);
    let hosts = Sequence::new(parts);
    phases.push(Phase { hosts })?;
    let phases = Sequence::new(phases);
    let shows = Sequence::new(Vec::new(alloc));
    let form = Form {
        version: Version::One,
        queues: 1,
    };
    Ok(Script {
        form,
        config,
        phases,
        shows,
    })
}

// Whether the items are these acts, each send with the command of its own.
fn are_acts(items: &[Item], acts: &[Act]) -> bool {
    items.len() == acts.len()
        && items.iter().zip(acts).all(|(item, act)| match (item, *act) {
            (Item::Send { cid, command }, Send(sent)) => {
                let own = match &**command {
                    Command::Unload { slot } => *slot == sent,
                    Command::MemRead { at, .. } => *at == u64::from(sent),
                    _ => false,
                };
                *cid == sent && own
            }
            (Item::Take { cid }, Take(taken)) => *cid == taken,
            _ => false,
        })
}

#[test]
fn plans_one_host(rt: HostRuntime) -> Result<(), AllocError> {
    let alloc = rt.alloc();
    let fault = |line, cause| Err(PlanFault { line, cause });
    let cases: [(u32, &[Act], Result<&[Act], PlanFault>); 8] = [
        (1, &[Send(1), Send(2)], fault(6, PlanCause::QueueFull)),
        (
            2,
            &[Send(1), Send(2), Send(3)],
            fault(7, PlanCause::QueueFull),
        ),
        (2, &[Send(1), Send(1)], fault(6, PlanCause::CidBusy)),
        (1, &[Send(1), Send(1)], fault(6, PlanCause::QueueFull)),
        (1, &[Take(5)], fault(5, PlanCause::NotOutstanding)),
        (
            1,
            &[Send(1), Take(1), Take(1)],
            fault(7, PlanCause::NotOutstanding),
        ),
        (
            1,
            &[Send(1), Take(1), Send(1)],
            Ok(&[Send(1), Take(1), Send(1), Take(1)]),
        ),
        (
            3,
            &[Send(3), Send(1), Send(2), Take(1)],
            Ok(&[Send(3), Send(1), Send(2), Take(1), Take(3), Take(2)]),
        ),
    ];
    for (depth, acts, want) in cases {
        assert!(rt; acts.len() <= 1000);
        let config = Config::new(512, depth, 1).expect(&rt, "the header keeps the limits");
        let config = config
            .with_size(SpaceId::Mem(1), 16)
            .expect(&rt, "a small namespace");
        let mut parts = Vec::new(alloc);
        parts.push(part(alloc, 1, acts)?)?;
        let script = script(alloc, config, parts)?;
        match plan(alloc, &script) {
            Ok(plan) => {
                let wanted = want.expect(&rt, "a plan is not wanted");
                let phases = plan.phases.as_slice();
                assert!(rt; phases.len() == 1 && phases[0].hosts.as_slice().len() == 1);
                assert!(rt;
                    are_acts(phases[0].hosts.as_slice()[0].items.as_slice(), wanted),
                    "{acts:?}"
                );
            }
            Err(PlanEnd::Fault(told)) => assert_eq!(rt; want, Err(told), "{acts:?}"),
            Err(PlanEnd::NoMemory) => return Err(AllocError),
        }
    }
    Ok(())
}

#[test]
fn plans_hosts_apart(rt: HostRuntime) -> Result<(), AllocError> {
    let alloc = rt.alloc();
    let config = Config::new(4096, 1, 1).expect(&rt, "the header keeps the limits");
    let mut parts = Vec::new(alloc);
    parts.push(part(alloc, 2, &[Send(1)])?)?;
    parts.push(part(alloc, 16, &[Send(1)])?)?;
    let script = script(alloc, config, parts)?;
    let plan = plan(alloc, &script)
        .ok()
        .expect(&rt, "the hosts have queues of their own");
    assert_eq!(rt; plan.commands, 2);
    for phase in plan.phases.as_slice() {
        for part in phase.hosts.as_slice() {
            assert!(rt; are_acts(part.items.as_slice(), &[Send(1), Take(1)]));
        }
    }
    Ok(())
}

#[test]
fn refuses_a_phase_without_hosts(rt: HostRuntime) -> Result<(), AllocError> {
    let alloc = rt.alloc();
    let config = Config::new(512, 256, 1).expect(&rt, "the header keeps the limits");
    let config = config
        .with_size(SpaceId::Mem(8), 16)
        .expect(&rt, "a small namespace");
    let script = script(alloc, config, Vec::new(alloc))?;
    let want = PlanFault {
        line: 3,
        cause: PlanCause::NoHosts,
    };
    assert!(rt; plan(alloc, &script).err() == Some(PlanEnd::Fault(want)));
    Ok(())
}

// The plan of a script of less than 100,000 bytes.
fn planned(alloc: Global, text: &[u8]) -> Result<Result<Plan, PlanEnd>, Fail> {
    if text.len() > 100_000 {
        return Err("the script is too long".into());
    }
    let text = Bytes::from_slice(alloc, text)?;
    let script = parse(alloc, &text).ok().ok_or("no script")?;
    Ok(plan(alloc, &script))
}

#[test]
fn a_host_comes_back(rt: HostRuntime) -> Result<(), Fail> {
    let front = "nvmecp 1 block=512 depth=2 budget=1\nmem 1 bytes=16\nphase\nhost 1\n\
        send 1 memread ns=1 at=1 len=1\nsend 2 memread ns=1 at=2 len=1\nphase\nhost 1\n";
    let more = "send 1 memread ns=1 at=1 len=1\ntake 1\n";
    let text = format!(in rt.alloc(); "{front}{more}")?;
    let plan = planned(rt.alloc(), text.as_str().as_bytes())?
        .ok()
        .ok_or("no plan")?;
    assert_eq!(rt; plan.commands, 3);
    let wanted: [&[Act]; 2] = [&[Send(1), Send(2), Take(1), Take(2)], &[Send(1), Take(1)]];
    assert_eq!(rt; plan.phases.as_slice().len(), 2);
    for (phase, acts) in plan.phases.as_slice().iter().zip(wanted) {
        assert_eq!(rt; phase.hosts.as_slice().len(), 1);
        for part in phase.hosts.as_slice() {
            assert!(rt; are_acts(part.items.as_slice(), acts), "{acts:?}");
        }
    }
    let text = format!(in rt.alloc(); "{front}take 2\n")?;
    let want = PlanFault {
        line: 9,
        cause: PlanCause::NotOutstanding,
    };
    let told = planned(rt.alloc(), text.as_str().as_bytes())?.err();
    assert!(rt; told == Some(PlanEnd::Fault(want)));
    Ok(())
}

#[test]
fn the_deepest_queue_fills(rt: HostRuntime) -> Result<(), Fail> {
    let front = "nvmecp 1 block=512 depth=256 budget=1\nmem 1 bytes=16\nphase\nhost 1\n";
    let mut text = Vec::from_slice(rt.alloc(), front.as_bytes())?;
    let mut acts = Vec::new(rt.alloc());
    for cid in 0..256u32 {
        let line = format!(in rt.alloc(); "send {cid} memread ns=1 at={cid} len=1\n")?;
        text.extend_from_slice(line.as_str().as_bytes())?;
        acts.push(Send(cid))?;
    }
    for cid in 0..256 {
        acts.push(Take(cid))?;
    }
    let plan = planned(rt.alloc(), text.as_slice())?.ok().ok_or("no plan")?;
    assert_eq!(rt; plan.commands, 256);
    for phase in plan.phases.as_slice() {
        for part in phase.hosts.as_slice() {
            assert!(rt; are_acts(part.items.as_slice(), acts.as_slice()));
        }
    }
    text.extend_from_slice(b"send 256 memread ns=1 at=0 len=1\n")?;
    let want = PlanFault {
        line: 261,
        cause: PlanCause::QueueFull,
    };
    let told = planned(rt.alloc(), text.as_slice())?.err();
    assert!(rt; told == Some(PlanEnd::Fault(want)));
    Ok(())
}

#[test]
fn each_queue_has_its_own_depth(rt: HostRuntime) -> Result<(), Fail> {
    let front = "nvmecp 2 block=512 queues=2 depth=1 budget=1\nmem 1 bytes=16\nphase\nhost 1\n\
        send 1:7 unload slot=0\nsend 2:7 unload slot=0\n";
    let fault = |cause| Some(PlanEnd::Fault(PlanFault { line: 7, cause }));
    for (more, wanted) in [
        ("", None),
        ("take 1:7\nsend 1:8 unload slot=0\n", None),
        ("take 2:7\nsend 2:7 unload slot=0\ntake 1:7\n", None),
        ("send 2:8 unload slot=0\n", fault(PlanCause::QueueFull)),
        ("send 1:7 unload slot=0\n", fault(PlanCause::QueueFull)),
        ("take 1:8\n", fault(PlanCause::NotOutstanding)),
    ] {
        let text = format!(in rt.alloc(); "{front}{more}")?;
        let told = planned(rt.alloc(), text.as_str().as_bytes())?.err();
        assert!(rt; told == wanted, "{more}");
    }
    Ok(())
}
