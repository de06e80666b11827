// Which commands of a plan have an entry, and which can have the next.
ghost use Rattle.std.specs.Prelude.{◌≡◌, ◌<◌, ◌≤◌, ◌^◌, IfOk, IsFalse, IsTrue, Some, false, length, replicate, slice_get, slice_set, true};
ghost use Rattle.history_model.specs.Sent.{sends_of};
ghost use Rattle.history_check.specs.Readiness.{AreEarlierOver, AreOverBetween, AreTakenOver, IsKept, IsReady, IsTakeOver};
ghost use Rattle.history_check.specs.Table.{sends_in};

use crate::table::Table;
use cp_base::NoMemory;
use script_cmds::Phase;
use std::alloc::Global;
use std::collections::BTreeMap;

/// The commands of a plan, and which of them are over: these have an entry.
#[derive(Debug, Drop)]
pub(crate) struct Awaiting {
    pub table: Table,
    /// Whether a command is over, place by place.
    pub over: Vec<bool>,
    /// So many commands at the front of the text are known to be over.
    pub front: usize,
    /// How far in the table's list what a host takes is known to be over, by the host and where the takes of the
    /// part begin.
    pub reached: BTreeMap<(u32, usize), usize>,
}

impl Awaiting {
    /// The commands of a plan's phases, none of which is over.
    pub fn new(alloc: Global, phases: &[Phase]) -> Result<Awaiting, NoMemory>
        requires { length (sends_of phases.now) < 2 ^ 32 }
        ensures kept { IfOk result (λ awaiting. IsKept awaiting) }
        ensures sends { IfOk result (λ awaiting. sends_in awaiting.table ≡ sends_of phases.now) }
        ensures over { IfOk result (λ awaiting. awaiting.over.items ≡ replicate (length (sends_of phases.now)) false) }
    {
        let table = Table::of_phases(alloc, phases)?;
        let mut over = Vec::new(alloc);
        over.resize(table.commands.len(), false)?;
        Ok(Awaiting {
            table,
            over,
            front: 0,
            reached: BTreeMap::new(alloc),
        })
    }

    /// Whether a command is over.
    pub fn is_over(&self, place: usize) -> bool
        requires kept { IsKept self.now }
        requires within { place < length (sends_in self.now.table) }
        ensures { slice_get self.now.over.items place ≡ Some result }
    {
        self.over[place]
    }

    // Whether what a host takes is over.
    fn is_take_over(&self, host: u32, ordinal: u32) -> bool
        requires { IsKept self.now }
        ensures yes { IsTrue result → IsTakeOver (sends_in self.now.table) self.now.over.items host ordinal }
        ensures no { IsFalse result → IsTakeOver (sends_in self.now.table) self.now.over.items host ordinal → ⊥ }
    {
        match self.table.find(u64::from(host), u64::from(ordinal)) {
            Some(place) => self.over[place],
            None => true,
        }
    }

    // Goes on behind the commands at the front of the text that are over.
    fn advance(&mut self)
        requires { IsKept self.old }
        ensures kept { IsKept self.new }
        ensures same { (self.new.table ≡ self.old.table) × (self.new.over.items ≡ self.old.over.items) }
        ensures bound { self.new.front ≤ length self.old.over.items }
        ensures stops { self.new.front < length self.old.over.items
            → slice_get self.old.over.items self.new.front ≡ Some false }
    {
        let mut front = self.front;
        while front < self.over.len() && self.over[front] {
            front += 1;
        }
        self.front = front;
    }

    // Whether all commands of the phases before that of a command are over.
    fn are_earlier_over(&mut self, place: usize) -> bool
        requires kept { IsKept self.old }
        requires within { place < length (sends_in self.old.table) }
        ensures kept { IsKept self.new }
        ensures same { (self.new.table ≡ self.old.table) × (self.new.over.items ≡ self.old.over.items) }
        ensures yes { IsTrue result → AreEarlierOver (sends_in self.old.table) self.old.over.items place }
        ensures no { IsFalse result → AreEarlierOver (sends_in self.old.table) self.old.over.items place → ⊥ }
    {
        self.advance();
        self.front == self.over.len()
            || self.table.get(self.front).phase >= self.table.get(place).phase
    }

    // Whether what a host takes from one place of the table's list to another is over.
    fn are_over_between(&self, host: u32, from: usize, to: usize) -> bool
        requires kept { IsKept self.now }
        requires ends { to ≤ length self.now.table.takes.items }
        ensures yes { IsTrue result → AreOverBetween self.now.table self.now.over.items host from to }
        ensures no { IsFalse result → AreOverBetween self.now.table self.now.over.items host from to → ⊥ }
    {
        let mut at = from;
        while at < to {
            if !self.is_take_over(host, self.table.takes[at]) {
                return false;
            }
            at += 1;
        }
        true
    }

    // Whether all that a command's host takes before it is over.
    fn are_taken_over(&mut self, place: usize) -> Result<bool, NoMemory>
        requires kept { IsKept self.old }
        requires within { place < length (sends_in self.old.table) }
        ensures kept { IsKept self.new }
        ensures same { (self.new.table ≡ self.old.table) × (self.new.over.items ≡ self.old.over.items) }
        ensures yes { IfOk result
            (λ over. IsTrue over → AreTakenOver (sends_in self.old.table) self.old.over.items place) }
        ensures no { IfOk result
            (λ over. IsFalse over → AreTakenOver (sends_in self.old.table) self.old.over.items place → ⊥) }
    {
        let awaited = self.table.get(place);
        let (host, begin, end) = (awaited.host, awaited.begin, awaited.end);
        let reached = self.reached_from(host, begin);
        if !self.are_over_between(host, reached, end) {
            return Ok(false);
        }
        if reached < end {
            self.reached.insert((host, begin), end)?;
        }
        Ok(true)
    }

    // How far in the table's list what a host takes is known to be over, where the takes of its part begin here.
    fn reached_from(&self, host: u32, begin: usize) -> usize
        requires { IsKept self.now }
        ensures behind { begin ≤ result }
        ensures over { AreOverBetween self.now.table self.now.over.items host begin result }
    {
        match self.reached.get(&(host, begin)) {
            Some(end) => *end,
            None => begin,
        }
    }

    /// Whether the next entry can be that of a command: it is not over, and all that has to be over before it is
    /// sent is.
    pub fn is_ready(&mut self, place: usize) -> Result<bool, NoMemory>
        requires kept { IsKept self.old }
        requires within { place < length (sends_in self.old.table) }
        ensures kept { IsKept self.new }
        ensures same { (self.new.table ≡ self.old.table) × (self.new.over.items ≡ self.old.over.items) }
        ensures yes { IfOk result
            (λ ready. IsTrue ready → IsReady (sends_in self.old.table) self.old.over.items place) }
        ensures no { IfOk result
            (λ ready. IsFalse ready → IsReady (sends_in self.old.table) self.old.over.items place → ⊥) }
    {
        if self.is_over(place) || !self.are_earlier_over(place) {
            return Ok(false);
        }
        self.are_taken_over(place)
    }

    /// A command is over.
    pub fn end(&mut self, place: usize)
        requires kept { IsKept self.old }
        requires within { place < length (sends_in self.old.table) }
        ensures kept { IsKept self.new }
        ensures table { self.new.table ≡ self.old.table }
        ensures over { self.new.over.items ≡ slice_set self.old.over.items place true }
    {
        self.over[place] = true;
    }
}
