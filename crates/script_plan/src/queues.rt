// How many commands of a host are outstanding in each of its queues.
ghost use Rattle.std.specs.Prelude.{◌≡◌, ℕ, ◌+◌, ◌-◌, ◌<◌, [], length, get_or, set, OnOk};

use cp_base::NoMemory;
use std::alloc::Global;
use std::marker::Model;

/// The number of outstanding commands of each queue, from queue 0 on. A queue behind the last has none.
#[derive(Drop)]
pub(crate) struct QueueCounts {
    counts: Vec<u32>,
}

impl Model for QueueCounts {
    ghost use Rattle.std.specs.Prelude.{List, ℕ};

    ghost Value = { List ℕ };

    ghost view = { λ c. c.counts.items };
}

impl QueueCounts {
    /// No command yet.
    pub(crate) fn new(alloc: Global) -> QueueCounts
        ensures { result ≡ [] }
    {
        QueueCounts {
            counts: Vec::new(alloc),
        }
    }

    /// How many commands of a queue are outstanding.
    pub(crate) fn of(&self, queue: u32) -> u32
        ensures { result ≡ get_or self.now queue 0 }
    {
        self.counts.get(queue as usize).copied().unwrap_or(0)
    }

    /// Has a place for the number of a queue.
    pub(crate) fn reach(&mut self, queue: u32) -> Result<(), NoMemory>
        ensures same { (other : ℕ) → get_or self.new other 0 ≡ get_or self.old other 0 }
        ensures reached { OnOk result (queue < length self.new) }
    {
        while self.counts.len() <= queue as usize {
            self.counts.push(0)?;
        }
        Ok(())
    }

    /// One more command of a queue, whose number has a place.
    pub(crate) fn add_one(&mut self, queue: u32)
        requires reached { queue < length self.old }
        requires few { get_or self.old queue 0 < 4294967295 }
        ensures { self.new ≡ set self.old queue (get_or self.old queue 0 + 1) }
    {
        self.counts[queue as usize] += 1;
    }

    /// One command of a queue less.
    pub(crate) fn take_one(&mut self, queue: u32)
        requires reached { queue < length self.old }
        requires some { 0 < get_or self.old queue 0 }
        ensures { self.new ≡ set self.old queue (get_or self.old queue 0 - 1) }
    {
        self.counts[queue as usize] -= 1;
    }
}
