// The plan of a script, and why there may be none.
use cp_base::{NoMemory, Sequence};
use script_cmds::Phase;
use std::alloc::{AllocError, AllocFailed};
use thiserror::Error;

/// What the hosts do, phase by phase, with the takes that the end of each host's part adds.
#[derive(Debug, Drop)]
pub struct Plan {
    pub phases: Sequence<Phase>,
    /// How many commands are sent.
    pub commands: u32,
}

/// The rule of queues that a line breaks.
#[derive(Clone, Copy, Debug, PartialEq, Eq, Error)]
pub enum PlanCause {
    /// A `send` while as many commands as a queue's depth are outstanding in its queue.
    #[error("the host's queue is full")]
    QueueFull,
    /// A `send` under the identifier of an outstanding command of its host.
    #[error("the command identifier is in use")]
    CidBusy,
    /// A `take` of an identifier that no outstanding command of its host has.
    #[error("no outstanding command has the identifier")]
    NotOutstanding,
    /// A `phase` in which no host acts.
    #[error("the phase has no host")]
    NoHosts,
}

/// The first line of a script that breaks a rule, counted from 1, and the rule.
#[derive(Clone, Copy, Debug, PartialEq, Eq, Error)]
#[error("line {line}: {cause}")]
pub struct PlanFault {
    pub line: u32,
    pub cause: PlanCause,
}

/// Why there is no plan: a line breaks a rule, or memory was wanting.
#[derive(Clone, Copy, Debug, PartialEq, Eq, Error)]
pub enum PlanEnd {
    #[error("{0}")]
    Fault(PlanFault),
    #[error("out of memory")]
    NoMemory,
}

impl From<NoMemory> for PlanEnd {
    ghost use Rattle.std.specs.Prelude.{◌≡◌};
    ghost use Rattle.script_plan.specs.declared.answer.PlanEnd.TheVariants as ended;

    ghost from_gives = { λ _ e. e ≡ ended.NoMemory };

    fn from(_: NoMemory) -> PlanEnd {
        PlanEnd::NoMemory
    }
}

impl From<AllocError> for PlanEnd {
    ghost use Rattle.std.specs.Prelude.{◌≡◌};
    ghost use Rattle.script_plan.specs.declared.answer.PlanEnd.TheVariants as ended;

    ghost from_gives = { λ _ e. e ≡ ended.NoMemory };

    fn from(_: AllocError) -> PlanEnd {
        PlanEnd::NoMemory
    }
}

impl<T: Drop> From<AllocFailed<T>> for PlanEnd {
    ghost use Rattle.std.specs.Prelude.{◌≡◌};
    ghost use Rattle.script_plan.specs.declared.answer.PlanEnd.TheVariants as ended;

    ghost from_gives = { λ _ e. e ≡ ended.NoMemory };

    fn from(_: AllocFailed<T>) -> PlanEnd {
        PlanEnd::NoMemory
    }
}
