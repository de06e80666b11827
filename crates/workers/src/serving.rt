// A party that carries out commands.
ghost use Rattle.std.specs.Prelude.{[]};
ghost use Rattle.device_lock.specs.Answers.{IsFirstClaimed};
ghost use Rattle.device_lock.specs.Jobs.{IsJobOf};
ghost use Rattle.device_lock.specs.Passes.{DevicePass, IsIdle, IsOfDevice};
ghost use Rattle.workers.specs.Further.{IsFurther, SeesRest};
ghost use Rattle.workers.specs.Serving.{IsBackServed};

use crate::gates::Gate;
use crate::patience::Patience;
use device_lock::{Device, Job, Offer, Pass};
use std::sync::Wait;

/// What becomes of a party that asked for one command.
#[derive(Drop)]
pub(crate) enum Served {
    /// It carried one out.
    Did(Pass),
    /// None may be picked now.
    Nothing(Pass),
    /// All are picked, and the hosts send nothing more for now.
    Rested(Pass),
}

// Carries a claimed command out, behind the gate.
fn carry_out<R: Wait, G: Gate>(rt: &R, device: &Device, job: Job, gate: &G) -> Pass
    requires job { IsJobOf device.now job }
    ensures { (p : DevicePass) → IsFirstClaimed device.now p job → IsFurther 0 device.now p result [] }
{
    gate.opened(job.host(), job.ordinal());
    device.complete(rt, job.run())
}

/// An idle party asks for one command, and carries it out.
pub(crate) fn serve_one<R: Wait, G: Gate>(rt: &R, device: &Device, pass: Pass, gate: &G) -> Served
    requires pass { IsOfDevice device.now pass }
    requires idle { IsIdle pass }
    ensures { IsBackServed device.now pass result }
{
    match device.claim(rt, pass) {
        Offer::Claimed(job) => Served::Did(carry_out(rt, device, job, gate)),
        Offer::Did(pass) => Served::Did(pass),
        Offer::Nothing(pass) => Served::Nothing(pass),
        Offer::Rested(pass) => Served::Rested(pass),
    }
}

/// A party carries out commands until nothing is queued and the device rests. It returns only then. It adds
/// claims, finishes and dos alone. Where there is no memory for a command, the command is answered so.
pub fn work_loop<R: Wait, G: Gate>(rt: &R, device: &Device, pass: Pass, gate: &G) -> Pass
    requires pass { IsOfDevice device.now pass }
    requires idle { IsIdle pass }
    ensures further { IsFurther 0 device.now pass result [] }
    ensures rested { SeesRest device.now result }
{
    let mut patience = Patience::new();
    let mut pass = pass;
    for _ in rt.forever() {
        match serve_one(rt, device, pass, gate) {
            Served::Did(back) => {
                pass = back;
                patience.reset();
            }
            Served::Nothing(back) => {
                pass = back;
                patience.wait();
            }
            Served::Rested(back) => return back,
        }
    }
    unreachable!()
}
