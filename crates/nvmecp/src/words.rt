// The words of the command line.
ghost use Rattle.std.specs.Prelude.{◌≡◌, ◌≤◌, ◌⊎◌, IfSome, length, map};
ghost use Rattle.std.specs.String.{string_bytes};
ghost use Rattle.cp_line.specs.Orders.{IsInTable};
ghost use Rattle.nvmecp.specs.Ends.{EndsOn};
ghost use Rattle.nvmecp.specs.Words.{HasWorkers, IsInRange, errand_by, errand_of, task_of};

use crate::ending::Ending;
use crate::{asm, check, dis, step, upgrade};
use cp_base::Bytes;
use cp_io::Sink;
use cp_line::Order;
use script_line::VERSION_1;
use std::alloc::Global;

/// What is asked of an input.
#[derive(Clone, Copy, Debug)]
pub enum Asked {
    /// A script is carried out by so many workers in turn. The choices select an interleaving.
    Step { workers: u32, choices: u64 },
    /// Assembly text is made code.
    Asm,
    /// Code is made assembly text.
    Dis,
    /// A script is written as version 2.
    Upgrade,
    /// A history is held against its script.
    Check,
}

// The most bytes of a script and a history together.
const MAX_TRACE: u64 = 268_435_456;

/// The load that is to be made: the seed of its words, and how many commands it has behind those that prepare the device.
#[derive(Clone, Copy, Debug)]
pub struct Load {
    pub seed: u64,
    pub commands: u32,
}

/// What the words of the command line want to be done.
#[derive(Clone, Copy, Debug)]
pub enum Errand {
    /// An input is read whole and answered.
    Answer(Asked),
    /// A load is made and carried out, and its history summed up.
    Make(Load),
}

impl Asked {
    /// The most bytes of an input.
    pub fn limit(self) -> u64
        ensures { result ≡ (task_of self).limit }
    {
        match self {
            Asked::Step { .. } | Asked::Asm | Asked::Dis | Asked::Upgrade => VERSION_1.bytes,
            Asked::Check => MAX_TRACE,
        }
    }

    /// Answers an input that was read whole.
    pub fn answer<K: Sink>(self, alloc: Global, input: &Bytes, sink: &mut K) -> Ending
        requires within { length input.now.items ≤ (task_of self).limit }
        requires workers { HasWorkers self }
        ensures ends { EndsOn ((task_of self).Answers input.now.items) ((task_of self).Refuses input.now.items)
            ((task_of self).Denies input.now.items) K.held K.faults sink.old sink.new result }
        ensures accepted { (task_of self).Accepts input.now.items → (result ≡ Ending.Refused) ⊎ (result ≡ Ending.Denied)
            → ⊥ }
        ensures rejected { (task_of self).Rejects input.now.items → (result ≡ Ending.Done) ⊎ (result ≡ Ending.Denied)
            → ⊥ }
        ensures belied { (task_of self).Belies input.now.items → (result ≡ Ending.Done) ⊎ (result ≡ Ending.Refused)
            → ⊥ }
    {
        match self {
            Asked::Step { workers, choices } => {
                step::answer(alloc, input, workers, choices, sink)
            }
            Asked::Asm => asm::answer(alloc, input, sink),
            Asked::Dis => dis::answer(alloc, input, sink),
            Asked::Upgrade => upgrade::answer(alloc, input, sink),
            Asked::Check => check::answer(alloc, input, sink),
        }
    }
}

// What `run` does on an order. `None` for threads, which are of `serve`.
fn errand_by(order: Order) -> Option<Errand>
    requires { IsInTable order }
    ensures errand { result ≡ errand_by order }
    ensures range { IfSome result IsInRange }
{
    match order {
        Order::Step { workers, choices } => {
            Some(Errand::Answer(Asked::Step { workers, choices }))
        }
        Order::Make { seed, commands } => Some(Errand::Make(Load { seed, commands })),
        Order::Asm => Some(Errand::Answer(Asked::Asm)),
        Order::Dis => Some(Errand::Answer(Asked::Dis)),
        Order::Upgrade => Some(Errand::Answer(Asked::Upgrade)),
        Order::Check => Some(Errand::Answer(Asked::Check)),
        Order::Serve { .. } => None,
    }
}

/// What `run` does on words. `None` where they are no order, or one for threads.
pub fn read_words(words: &[String]) -> Option<Errand>
    ensures errand { result ≡ errand_of (map string_bytes words.now) }
    ensures range { IfSome result IsInRange }
{
    errand_by(cp_line::read_words(words)?)
}
