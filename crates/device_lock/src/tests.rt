// What no clause says: that a try in the turn of another party comes back, and that threads carry out all commands.
ghost use Rattle.std.specs.Prelude.{◌≡◌, ◌≤◌, ◌≢◌, [], ℕ, IfSome, None, Some};
ghost use Rattle.cp_base.specs.declared.limits.TheConstants.{MAX_COMMANDS, MAX_HOSTS};
ghost use Rattle.seat_lock.specs.Passes.{at_home, party_of, seats_in};
ghost use Rattle.device_lock.specs.Answers.{IsOffered};
ghost use Rattle.device_lock.specs.Passes.{AreAllOfDevice, AreIdle, IsIdle, IsOfDevice};

use crate::{Device, Offer, Pass, Passes, Sent, TryOffer, TryTaken};
use cp_base::{Command, Config, SpaceId};
use device_core::Core;
use queue_pairs::SendCause;
use std::alloc::Global;
use std::sync::{Arc, Wait};
use std::thread::{Threads, join};

// The core of a device with 4,096 bytes of memory, for so many commands.
fn core(alloc: Global, commands: u32) -> Option<Core>
    requires { commands ≤ MAX_COMMANDS }
    ensures { IfSome result (λ core. (core.trail ≡ []) × (core.commands ≡ commands)) }
{
    let config = Config::new(512, 256, 1000)?.with_size(SpaceId::Mem(1), 4096)?;
    Core::new(alloc, &config, commands).ok()
}

// A new device with one worker, for so many commands.
fn device(alloc: Global, commands: u32) -> Option<(Device, Passes)>
    requires { commands ≤ MAX_COMMANDS }
    ensures all { IfSome result (λ r. AreAllOfDevice r.0 r.1) }
    ensures idle { IfSome result (λ r. AreIdle r.1) }
    ensures seats { IfSome result (λ r. 2 ≤ seats_in r.1) }
{
    let core = core(alloc, commands)?;
    Device::new(alloc, core, 1).ok()
}

// The fill of one byte.
fn fill(alloc: Global, at: u64) -> Option<Arc<Command>> {
    let command = Command::MemFill {
        ns: 1,
        at,
        len: 1,
        value: 1,
    };
    Arc::new(alloc, command).ok()
}

// A party carries out one command, if it is offered one.
fn serve<R: Wait>(rt: &R, device: &Device, pass: Pass) -> Pass
    requires pass { IsOfDevice device.now pass }
    requires idle { IsIdle pass }
    ensures pass { IsOfDevice device.entry.now result }
    ensures idle { IsIdle result }
    ensures party { party_of result ≡ party_of pass }
{
    match device.claim(rt, pass) {
        Offer::Claimed(job) => device.complete(rt, job.run()),
        Offer::Did(pass) => pass,
        Offer::Nothing(pass) => pass,
        Offer::Rested(pass) => pass,
    }
}

// A host submits the fill of a byte, where there is memory for it.
fn submit<R: Wait>(rt: &R, alloc: Global, device: &Device, pass: Pass, cid: u32) -> Pass
    requires pass { IsOfDevice device.now pass }
    requires host { party_of pass ≤ MAX_HOSTS }
    ensures pass { IsOfDevice device.entry.now result }
    ensures idle { IsIdle pass → IsIdle result }
    ensures party { party_of result ≡ party_of pass }
{
    let Some(command) = fill(alloc, u64::from(cid)) else {
        return pass;
    };
    match device.submit(rt, pass, cid, command) {
        Sent::Placed { pass, place: _ } => pass,
        Sent::Refused {
            pass,
            cause: _,
            command: _,
        } => pass,
    }
}

// A host fills so many bytes, each by a command, and carries out as many commands.
fn work<R: Wait>(rt: &R, alloc: Global, device: &Device, pass: Pass, count: u32) -> Pass
    requires pass { IsOfDevice device.now pass }
    requires host { party_of pass ≤ MAX_HOSTS }
    requires idle { IsIdle pass }
    ensures pass { IsOfDevice device.entry.now result }
    ensures idle { IsIdle result }
    ensures party { party_of result ≡ party_of pass }
{
    let mut pass = pass;
    for cid in 0..count {
        pass = submit(rt, alloc, device, pass, cid);
        pass = serve(rt, device, pass);
    }
    pass
}

// Two hosts work, each in a thread of its own.
fn work_both<R: Threads + Wait + Sync>(
    rt: &R,
    alloc: Global,
    device: &Device,
    first: Pass,
    second: Pass,
    count: u32,
) -> (Pass, Pass)
    requires first { IsOfDevice device.now first × (party_of first ≤ MAX_HOSTS) × IsIdle first }
    requires second { IsOfDevice device.now second × (party_of second ≤ MAX_HOSTS) × IsIdle second }
    ensures first { IsOfDevice device.entry.now result.0 × IsIdle result.0 × (party_of result.0 ≡ party_of first) }
    ensures second { IsOfDevice device.entry.now result.1 × IsIdle result.1 × (party_of result.1 ≡ party_of second) }
{
    join(
        rt,
        move || work(rt, alloc, device, first, count),
        move || work(rt, alloc, device, second, count),
    )
}

// Carries out up to so many commands.
fn drain<R: Wait>(rt: &R, device: &Device, pass: Pass, count: u32) -> Pass
    requires pass { IsOfDevice device.now pass }
    requires idle { IsIdle pass }
    ensures pass { IsOfDevice device.entry.now result }
    ensures party { party_of result ≡ party_of pass }
{
    let mut pass = pass;
    for _ in 0..count {
        pass = serve(rt, device, pass);
    }
    pass
}

// The passes of the hosts 1 and 2.
fn two_hosts(device: &Device, passes: &mut Passes) -> (Pass, Pass)
    requires all { AreAllOfDevice device.now passes.old }
    requires idle { AreIdle passes.old }
    requires two { 2 ≤ seats_in passes.old }
    ensures first { IsOfDevice device.entry.now result.0 × IsIdle result.0 × (party_of result.0 ≡ 1) }
    ensures second { IsOfDevice device.entry.now result.1 × IsIdle result.1 × (party_of result.1 ≡ 2) }
    ensures empty { (at_home passes.new 1 ≡ None) × (at_home passes.new 2 ≡ None) }
    ensures others { (n : ℕ) → n ≢ 1 → n ≢ 2 → at_home passes.new n ≡ at_home passes.old n }
    ensures seats { seats_in passes.new ≡ seats_in passes.old }
{
    let _ = device;
    let first = passes.lend(1);
    let second = passes.lend(2);
    (first, second)
}

// The hosts 1 and 2 submit so many commands each from threads of their own, and all are carried out.
fn run_both<R: Threads + Wait + Sync>(
    rt: &R,
    alloc: Global,
    device: &Device,
    passes: &mut Passes,
    count: u32,
)
    requires all { AreAllOfDevice device.now passes.old }
    requires idle { AreIdle passes.old }
    requires two { 2 ≤ seats_in passes.old }
    ensures { AreAllOfDevice device.entry.now passes.new }
{
    let (first, second) = two_hosts(device, passes);
    let (first, second) = work_both(rt, alloc, device, first, second, count);
    let first = drain(rt, device, first, count);
    let second = drain(rt, device, second, count);
    passes.give(first);
    passes.give(second);
}

// One try of a host to take a reply: the word that was read, or 0 for a turn.
fn try_taking(device: &Device, pass: Pass) -> (Pass, u64)
    requires pass { IsOfDevice device.now pass }
    requires host { party_of pass ≤ MAX_HOSTS }
    requires idle { IsIdle pass }
    ensures pass { IsOfDevice device.entry.now result.0 }
    ensures idle { IsIdle result.0 }
    ensures party { party_of result.0 ≡ party_of pass }
{
    match device.try_take(pass, 1) {
        TryTaken::Reply { pass, place: _ } => (pass, 0),
        TryTaken::Refused { pass, cause: _ } => (pass, 0),
        TryTaken::Busy { pass, word } => (pass, word),
    }
}

// One try of a party to claim a command: the word that was read, or 0 for a turn.
fn try_claiming<R: Wait>(rt: &R, device: &Device, pass: Pass) -> (Pass, u64)
    requires pass { IsOfDevice device.now pass }
    requires idle { IsIdle pass }
    ensures pass { IsOfDevice device.entry.now result.0 }
    ensures idle { IsIdle result.0 }
    ensures party { party_of result.0 ≡ party_of pass }
{
    match device.try_claim(pass) {
        TryOffer::Claimed(job) => (device.complete(rt, job.run()), 0),
        TryOffer::Did(pass) => (pass, 0),
        TryOffer::Nothing(pass) => (pass, 0),
        TryOffer::Rested(pass) => (pass, 0),
        TryOffer::Busy { pass, word } => (pass, word),
    }
}

// A party claims a command in another thread, and its job comes back from there.
fn claim_in_a_thread<R: Threads + Wait + Sync>(rt: &R, device: &Device, pass: Pass) -> Offer
    requires pass { IsOfDevice device.now pass }
    requires idle { IsIdle pass }
    ensures { IsOffered device.entry.now pass result }
{
    let claimed = join(
        rt,
        move || -> Offer
            requires { IsOfDevice device.now pass × IsIdle pass }
            ensures { IsOffered device.entry.now pass result }
        { device.claim(rt, pass) },
        || (),
    );
    claimed.0
}

// The cause of a refused submit, and whether the command came back that was sent. None for a submit that was not refused.
fn refusal<R: Wait>(
    rt: &R,
    device: &Device,
    pass: Pass,
    command: Arc<Command>,
) -> Option<(SendCause, bool)>
    requires pass { IsOfDevice device.now pass }
    requires host { party_of pass ≤ MAX_HOSTS }
{
    match device.submit(rt, pass, 1, command) {
        Sent::Placed { .. } => None,
        Sent::Refused { cause, command, .. } => {
            Some((cause, matches!(&*command, Command::MemFill { at: 7, .. })))
        }
    }
}

#[test]
fn a_held_turn_is_told_to_others(rt: HostRuntime) {
    let (device, mut passes) = device(rt.alloc(), 4).expect(&rt, "there is memory");
    let (first, second) = two_hosts(&device, &mut passes);
    let turn = device.enter(&rt, first);
    let (second, taking) = try_taking(&device, second);
    let (second, claiming) = try_claiming(&rt, &device, second);
    let first = turn.leave();
    let (second, free_taking) = try_taking(&device, second);
    let (second, free_claiming) = try_claiming(&rt, &device, second);
    assert!(rt; (taking, claiming) == (1, 1) && (free_taking, free_claiming) == (0, 0));
    assert!(rt; first.party() == 1 && second.party() == 2);
}

#[test]
fn a_refused_submit_gives_the_command_back(rt: HostRuntime) {
    let (device, mut passes) = device(rt.alloc(), 0).expect(&rt, "there is memory");
    let (first, _second) = two_hosts(&device, &mut passes);
    let command = fill(rt.alloc(), 7).expect(&rt, "there is memory");
    let refused = refusal(&rt, &device, first, command);
    assert!(rt; refused == Some((SendCause::Spent, true)));
}

#[test]
fn a_job_ends_in_another_thread_than_it_began(rt: HostRuntime) {
    let (device, mut passes) = device(rt.alloc(), 1).expect(&rt, "there is memory");
    let (first, second) = two_hosts(&device, &mut passes);
    let command = fill(rt.alloc(), 7).expect(&rt, "there is memory");
    let sent = match device.submit(&rt, first, 1, command) {
        Sent::Placed { place, .. } => Some(place),
        Sent::Refused { .. } => None,
    };
    let claimed = match claim_in_a_thread(&rt, &device, second) {
        Offer::Claimed(job) => {
            let command = (job.host(), job.ordinal());
            let done = job.run();
            Some((command, device.complete(&rt, done).party()))
        }
        Offer::Did(_) => None,
        Offer::Nothing(_) => None,
        Offer::Rested(_) => None,
    };
    assert!(rt; sent == Some(0) && claimed == Some(((1, 1), 2)));
}

#[test]
fn two_threads_carry_out_a_hundred_commands_each(rt: HostRuntime) {
    let (device, mut passes) = device(rt.alloc(), 200).expect(&rt, "there is memory");
    run_both(&rt, rt.alloc(), &device, &mut passes, 100);
    let core = device.close(passes);
    assert!(rt; core.ended() == 200 && core.byte(SpaceId::Mem(1), 99) == Some(1));
}
