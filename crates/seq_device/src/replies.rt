// Replies.
ghost use Rattle.std.specs.Prelude.{◌≡◌, IfErr, OnOk};
ghost use Rattle.cp_base.specs.Answer.{answer_of, only_status};
ghost use Rattle.device_model.specs.Execution.{tells};
ghost use Rattle.program_slots.specs.Refusals.{told_by_refusal};

use cp_base::{Bytes, Refusal, Reply, Status};
use std::alloc::Global;

/// A reply of a status alone.
pub(crate) fn only(alloc: Global, status: Status) -> Reply
    ensures { answer_of result ≡ only_status status }
{
    told(alloc, status, 0)
}

/// A reply of a status and a number.
pub(crate) fn told(alloc: Global, status: Status, number: u64) -> Reply
    ensures { answer_of result ≡ tells status number }
{
    Reply {
        status,
        result: number,
        bytes: Bytes::new(alloc),
    }
}

/// The reply to a command that was done, or else was refused so.
pub(crate) fn done_or_refused(alloc: Global, answer: Result<(), Refusal>) -> Reply
    ensures done { OnOk answer (answer_of result ≡ only_status Status.Ok) }
    ensures refused { IfErr answer (λ refusal. answer_of result ≡ told_by_refusal refusal) }
{
    match answer {
        Ok(()) => only(alloc, Status::Ok),
        Err(refusal) => told(alloc, refusal.status, refusal.result),
    }
}

/// A reply with bytes that were read.
pub(crate) fn read(bytes: Bytes) -> Reply
    ensures { answer_of result ≡ record { status = Status.Ok; result = 0; bytes = bytes.items } }
{
    Reply {
        status: Status::Ok,
        result: 0,
        bytes,
    }
}
