//! The loads.
ghost use Rattle.std.specs.Prelude.{◌≡◌, ◌≤◌, ◌<◌, ◌+◌, ◌-◌, [], ◌∷◌, ◌++◌, IfSome, OnSome};
ghost use Rattle.std.specs.Arc.{arc_value};
ghost use Rattle.core_bench.specs.Loads.{IsByOne, IsInTurn, claims_where, command_at, command_of, fill_at, place_of, plain_config, read_first, sent_in_turn};
ghost use Rattle.core_bench.specs.Progress.{AreSent, ComesTo, IsLater, open_on, over_on, sent_as, sent_on};

use crate::device::Device;
use crate::workload::Places;
use cp_base::{
    Bytes, Command, Config, MAX_COMMANDS, MAX_HOSTS, MAX_NAMESPACE, MAX_SPAN, MAX_TRANSFER, SpaceId,
};
use rand_core::SeedableRng;
use rand_core::utils::NextWord;
use rand_xoshiro::SplitMix64;
use std::alloc::Global;
use std::sync::Arc;

// How many commands each host has outstanding in a deep queue, and how many all hosts have.
const DEPTH: u32 = 256;

pub const OUTSTANDING: u32 = DEPTH * MAX_HOSTS;

// The bytes of a small command, and how far apart the places of two are.
const SMALL: u64 = 16;

const NEXT: u64 = 64;

// A device with one memory namespace, the largest there can be, for so many commands.
fn device(alloc: Global, commands: u32) -> Option<Device>
    requires { commands ≤ MAX_COMMANDS }
    ensures { IfSome result
        (λ device. device ≡ record { config = plain_config MAX_NAMESPACE; commands = commands; trail = [] }) }
{
    let config = Config::new(512, DEPTH, 1000)?.with_size(SpaceId::Mem(1), MAX_NAMESPACE as u32)?;
    Device::new(alloc, &config, commands)
}

// A write of a few bytes at a place.
fn write(alloc: Global, at: u64) -> Option<Arc<Command>>
    ensures { IfSome result (λ command. arc_value command ≡ command_at at) }
{
    let bytes = Bytes::filled(alloc, SMALL, 7).ok()?;
    Arc::new(alloc, Command::MemWrite { ns: 1, at, bytes }).ok()
}

// The fill of the largest span with a value.
fn fill(alloc: Global, value: u8) -> Option<Arc<Command>>
    ensures { IfSome result (λ command. arc_value command ≡ fill_at value) }
{
    let command = Command::MemFill {
        ns: 1,
        at: 0,
        len: MAX_SPAN,
        value,
    };
    Arc::new(alloc, command).ok()
}

// The largest read.
fn read(alloc: Global) -> Option<Arc<Command>>
    ensures { IfSome result (λ command. arc_value command ≡ read_first) }
{
    let command = Command::MemRead {
        ns: 1,
        at: 0,
        len: MAX_TRANSFER,
    };
    Arc::new(alloc, command).ok()
}

// The command of a number, or of a word where places are random.
fn command(alloc: Global, places: Places, number: u32, word: u64) -> Option<Arc<Command>>
    ensures { IfSome result (λ command. arc_value command ≡ command_of places number word) }
{
    match places {
        Places::One => write(alloc, 0),
        Places::Random => write(alloc, word % (MAX_NAMESPACE - SMALL)),
        Places::Ascending => write(alloc, u64::from(number) * NEXT % MAX_NAMESPACE),
        Places::Span => fill(alloc, (number % 256) as u8),
        Places::Read => read(alloc),
    }
}

// Host 1 submits a command, which it claims, carries out and takes the reply of.
fn carry_out(device: &mut Device, command: Arc<Command>) -> Option<()>
    ensures later { IsLater device.old device.new }
    ensures sent { OnSome result (sent_on device.new ≡ sent_on device.old ++ sent_as 1 1 (arc_value command) ∷ []) }
    ensures open { OnSome result (open_on device.new ≡ open_on device.old) }
    ensures over { OnSome result (over_on device.new ≡ over_on device.old + 1) }
{
    if device.submit(1, 1, command) && device.claim(1) && device.finish() && device.take(1, 1) {
        Some(())
    } else {
        None
    }
}

/// Carries out so many commands, each before the next one is submitted. Answers how many are over. `None` where there is
/// no memory, or a command was refused.
pub fn one_by_one(alloc: Global, places: Places, rounds: u32) -> Option<u32>
    requires { rounds ≤ MAX_COMMANDS }
    ensures told { IfSome result (λ over. over ≡ rounds) }
    ensures done { OnSome result (ComesTo (plain_config MAX_NAMESPACE) rounds 0 rounds (IsByOne places)) }
{
    let mut device = device(alloc, rounds)?;
    let mut words = SplitMix64::seed_from_u64(1);
    for number in 0..rounds {
        let word: u64 = words.next_word();
        carry_out(&mut device, command(alloc, places, number, word)?)?;
    }
    Some(device.over())
}

// Where the command of a number writes in a deep queue.
fn place(apart: bool, number: u32) -> u64
    ensures { result ≡ place_of apart number }
{
    if apart {
        NEXT * u64::from(number % OUTSTANDING)
    } else {
        0
    }
}

// How many claims are open beside a deep queue.
fn claims(apart: bool) -> u32
    ensures value { result ≡ claims_where apart }
    ensures few { result ≤ MAX_HOSTS }
{
    if apart { MAX_HOSTS } else { 1 }
}

// The host of a number sends the command of the number, under an identifier that is not outstanding where that of 4,096
// numbers before is taken.
fn send(alloc: Global, device: &mut Device, apart: bool, number: u32) -> Option<()>
    ensures later { IsLater device.old device.new }
    ensures sent { OnSome result (sent_on device.new ≡ sent_on device.old ++ sent_in_turn apart number ∷ []) }
    ensures open { open_on device.new ≡ open_on device.old }
    ensures over { over_on device.new ≡ over_on device.old }
{
    let command = write(alloc, place(apart, number))?;
    let host = 1 + number % MAX_HOSTS;
    if device.submit(host, number / MAX_HOSTS % DEPTH, command) {
        Some(())
    } else {
        None
    }
}

// All hosts fill their queues.
fn fill_queues(alloc: Global, device: &mut Device, apart: bool) -> Option<()>
    requires { sent_on device.old ≡ [] }
    ensures later { IsLater device.old device.new }
    ensures sent { OnSome result (AreSent (IsInTurn apart) OUTSTANDING (sent_on device.new)) }
    ensures open { open_on device.new ≡ open_on device.old }
    ensures over { over_on device.new ≡ over_on device.old }
{
    for number in 0..OUTSTANDING {
        send(alloc, device, apart, number)?;
    }
    Some(())
}

// So many hosts claim a command each.
fn claim_first(device: &mut Device, claims: u32) -> Option<()>
    requires { claims ≤ MAX_HOSTS }
    ensures later { IsLater device.old device.new }
    ensures sent { sent_on device.new ≡ sent_on device.old }
    ensures open { OnSome result (open_on device.new ≡ open_on device.old + claims) }
    ensures over { OnSome result (over_on device.new ≡ over_on device.old) }
{
    for host in 1..claims + 1 {
        if !device.claim(host) {
            return None;
        }
    }
    Some(())
}

// The command of a number ends, its host takes the reply, sends another command and claims the first that may be picked.
fn go_on(alloc: Global, device: &mut Device, apart: bool, number: u32) -> Option<()>
    requires { number < MAX_COMMANDS }
    ensures later { IsLater device.old device.new }
    ensures sent { OnSome result
        (sent_on device.new ≡ sent_on device.old ++ sent_in_turn apart (number + OUTSTANDING) ∷ []) }
    ensures open { OnSome result (open_on device.new ≡ open_on device.old) }
    ensures over { OnSome result (over_on device.new ≡ over_on device.old + 1) }
{
    let host = 1 + number % MAX_HOSTS;
    if !device.finish() || !device.take(host, number / MAX_HOSTS % DEPTH) {
        return None;
    }
    send(alloc, device, apart, number + OUTSTANDING)?;
    if device.claim(host) { Some(()) } else { None }
}

/// Lets 16 hosts have 256 commands outstanding each, and so many of them end, the first submitted first. Where their places
/// are apart, 16 claims are open; else all write the same bytes, and one claim is open. Answers how many are over. `None`
/// where there is no memory, or a command was refused.
pub fn deep(alloc: Global, apart: bool, rounds: u32) -> Option<u32>
    requires { rounds ≤ MAX_COMMANDS - OUTSTANDING }
    ensures told { IfSome result (λ over. over ≡ rounds) }
    ensures done { OnSome result
        (ComesTo (plain_config MAX_NAMESPACE) (rounds + OUTSTANDING) (claims_where apart) rounds (IsInTurn apart)) }
{
    let mut device = device(alloc, rounds + OUTSTANDING)?;
    fill_queues(alloc, &mut device, apart)?;
    claim_first(&mut device, claims(apart))?;
    for number in 0..rounds {
        go_on(alloc, &mut device, apart, number)?;
    }
    Some(device.over())
}

/// Fills so many bytes so many times, with nothing else. Answers how many times. `None` where there is no memory.
pub fn fill_alone(alloc: Global, len: u64, rounds: u32) -> Option<u32>
    ensures { IfSome result (λ filled. filled ≡ rounds) }
{
    let mut bytes = Bytes::filled(alloc, len, 0).ok()?;
    let mut filled = 0;
    for number in 0..rounds {
        bytes.fill(0, len, (number % 256) as u8);
        filled += 1;
    }
    Some(filled)
}
