// The outstanding commands of a host, by their identifiers.
ghost use Rattle.std.specs.Prelude.{◌≡◌, ◌<◌, ◌++◌, ◌∷◌, [], false, OnOk, OnErr, IsTrue};
ghost use Rattle.script_cmds.specs.Queues.{queue_of_cid};
ghost use Rattle.history_model.specs.Plan.{in_queue, is_outstanding};
ghost use Rattle.history_model.specs.Rules.{without};

use crate::queues::QueueCounts;
use cp_base::NoMemory;
use indexmap::IndexSet;
use script_line::QUEUE_CIDS;
use std::alloc::Global;
use std::marker::Model;

/// The identifiers of the outstanding commands of a host, in order of sending.
#[derive(Drop)]
pub(crate) struct Outstanding {
    cids: IndexSet<u32>,
    queues: QueueCounts,
}

// The queue of an identifier, counted from 0: each has 65,536 identifiers.
fn queue_of(cid: u32) -> u32
    ensures { result ≡ queue_of_cid cid }
{
    cid / QUEUE_CIDS as u32
}

impl Model for Outstanding {
    ghost use Rattle.std.specs.Prelude.{List, ℕ, nat_eq};
    ghost use Rattle.std.specs.List.{IsDistinct};
    ghost use Rattle.script_plan.specs.Counted.{AreCounts};

    ghost Value = { List ℕ };

    ghost view = { λ o. o.cids.keys };

    ghost invariant = { λ o. IsDistinct nat_eq o.cids.keys × AreCounts o.queues o.cids.keys };
}

impl Outstanding {
    /// No command yet.
    pub(crate) fn new(alloc: Global) -> Outstanding
        ensures { result ≡ [] }
    {
        Outstanding {
            cids: IndexSet::new(alloc),
            queues: QueueCounts::new(alloc),
        }
    }

    /// How many outstanding commands are those of the queue of an identifier.
    pub(crate) fn in_queue_of(&self, cid: u32) -> u32
        ensures { result ≡ in_queue (queue_of_cid cid) self.now }
    {
        self.queues.of(queue_of(cid))
    }

    /// Whether an outstanding command has the identifier.
    pub(crate) fn contains(&self, cid: u32) -> bool
        ensures { result ≡ is_outstanding cid self.now }
    {
        self.cids.contains(&cid)
    }

    /// One more command, under an identifier that no other has.
    pub(crate) fn add(&mut self, cid: u32) -> Result<(), NoMemory>
        requires free { is_outstanding cid self.old ≡ false }
        requires few { in_queue (queue_of_cid cid) self.old < 4294967295 }
        ensures ok { OnOk result (self.new ≡ self.old ++ cid ∷ []) }
        ensures err { OnErr result (self.new ≡ self.old) }
    {
        let queue = queue_of(cid);
        self.queues.reach(queue)?;
        self.cids.insert(cid)?;
        self.queues.add_one(queue);
        Ok(())
    }

    /// The command of an identifier is outstanding no more. Whether there was one.
    pub(crate) fn remove(&mut self, cid: u32) -> bool
        ensures found { result ≡ is_outstanding cid self.old }
        ensures after { self.new ≡ without cid self.old }
    {
        let found = self.cids.shift_remove(&cid);
        if found {
            self.queues.take_one(queue_of(cid));
        }
        found
    }

    /// The identifiers in order of sending.
    pub(crate) fn as_slice(&self) -> &[u32]
        ensures { result.now ≡ self.now }
    {
        self.cids.as_slice()
    }
}
