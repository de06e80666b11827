// A host that does its part of a phase.
ghost use Rattle.std.specs.Prelude.{◌≡◌, ◌<◌, ◌≤◌, [], ◌∷◌, Contains, length};
ghost use Rattle.std.specs.Arc.{arc_value};
ghost use Rattle.cp_base.specs.declared.limits.TheConstants.{MAX_HOSTS};
ghost use Rattle.history_model.specs.Plain.{Sends, Takes, plain_items};
ghost use Rattle.history_model.specs.Rules.{KeepsQueue};
ghost use Rattle.seat_lock.specs.Passes.{party_of};
ghost use Rattle.device_lock.specs.Passes.{IsIdle, IsOfDevice};
ghost use Rattle.workers.specs.Further.{IsFurther, cids_by, outstanding_by};

use crate::gates::Gate;
use crate::patience::Patience;
use crate::serving::{Served, serve_one};
use cp_base::Command;
use crossbeam_utils::Backoff;
use device_lock::{Device, Pass, Sent, Taken};
use queue_pairs::{SendCause, TakeCause};
use script_cmds::{HostPart, Item};
use std::sync::{Arc, Wait};

// A host submits a command, for which its queue has a place. Where all hosts have submitted as many as may be, it
// tries again.
fn send<R: Wait>(rt: &R, device: &Device, pass: Pass, cid: u32, command: Arc<Command>) -> Pass
    requires pass { IsOfDevice device.now pass }
    requires idle { IsIdle pass }
    requires host { party_of pass ≤ MAX_HOSTS }
    requires room { length (cids_by pass) < device.now.config.depth }
    requires free { Contains (cids_by pass) cid → ⊥ }
    ensures { IsFurther 0 device.now pass result (Sends cid (arc_value command) ∷ []) }
{
    let backoff = Backoff::new();
    let mut pass = pass;
    let mut command = command;
    for _ in rt.forever() {
        match device.submit(rt, pass, cid, command) {
            Sent::Placed { pass, place: _ } => return pass,
            Sent::Refused {
                pass: back,
                cause,
                command: refused,
            } => {
                let SendCause::Spent = cause else {
                    unreachable!("the queue has a place");
                };
                pass = back;
                command = refused;
            }
        }
        backoff.snooze();
    }
    unreachable!()
}

// A host that waits carries out one command itself. It backs off where it finds none.
fn wait<R: Wait, G: Gate>(
    rt: &R,
    device: &Device,
    pass: Pass,
    gate: &G,
    patience: &mut Patience,
) -> Pass
    requires pass { IsOfDevice device.now pass }
    requires idle { IsIdle pass }
    ensures { IsFurther 0 device.now pass result [] }
{
    match serve_one(rt, device, pass, gate) {
        Served::Did(pass) => {
            patience.reset();
            pass
        }
        Served::Nothing(pass) | Served::Rested(pass) => {
            patience.wait();
            pass
        }
    }
}

// A host takes the reply to an outstanding command, and waits for it where it is not posted yet.
fn take<R: Wait, G: Gate>(rt: &R, device: &Device, pass: Pass, cid: u32, gate: &G) -> Pass
    requires pass { IsOfDevice device.now pass }
    requires idle { IsIdle pass }
    requires host { party_of pass ≤ MAX_HOSTS }
    requires outstanding { Contains (cids_by pass) cid }
    ensures { IsFurther 0 device.now pass result (Takes cid ∷ []) }
{
    let mut patience = Patience::new();
    let mut pass = pass;
    for _ in rt.forever() {
        match device.take(rt, pass, cid) {
            Taken::Reply { pass, place: _ } => return pass,
            Taken::Refused { pass: back, cause } => {
                let TakeCause::NotYet = cause else {
                    unreachable!("the command is outstanding");
                };
                pass = wait(rt, device, back, gate, &mut patience);
            }
        }
    }
    unreachable!()
}

/// A host does the items of its part of a phase, in order, and nothing else of its own; while it waits for a reply it
/// carries out commands. It returns only where others let it. Each command moves into its submit: no further owner of
/// it is made. Where there is no memory for a command that the host carries out, the command is answered so.
///
/// None of the host's commands is outstanding before, and the items keep the rules of its queue: so none is
/// outstanding afterwards.
pub fn host_loop<R: Wait, G: Gate>(
    rt: &R,
    device: &Device,
    part: HostPart,
    pass: Pass,
    gate: &G,
) -> Pass
    requires pass { IsOfDevice device.now pass }
    requires idle { IsIdle pass }
    requires host { (party_of pass ≡ part.host) × (part.host ≤ MAX_HOSTS) }
    requires none { outstanding_by pass ≡ [] }
    requires queue { KeepsQueue device.now.config.depth [] part.items }
    ensures further { IsFurther 0 device.now pass result (plain_items part.items) }
    ensures none { outstanding_by result ≡ [] }
{
    let mut pass = pass;
    for item in part.items.into_vec() {
        pass = match item {
            Item::Send { cid, command } => send(rt, device, pass, cid, command),
            Item::Take { cid } => take(rt, device, pass, cid, gate),
        };
    }
    pass
}
