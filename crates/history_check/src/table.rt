// The table of the commands of a plan.
ghost use Rattle.std.specs.Prelude.{◌≡◌, ◌+◌, ◌<◌, ◌≤◌, ◌^◌, ◌++◌, [], IfOk, IfSome, None, OnOk, Some, length, slice_get, ℕ};
ghost use Rattle.history_model.specs.Sent.{named_in, next_ordinal, sends_of, sends_of_items, sends_of_parts};
ghost use Rattle.script_cmds.specs.declared.item.Item.TheVariants as item;
ghost use Rattle.history_check.specs.Table.{HasGoneOn, IsAt, IsTable, is_sent, sends_by, sends_in, sent_in, waiting_of};

use cp_base::{Command, Nature, NoMemory};
use script_cmds::{HostPart, Item, Phase};
use std::alloc::Global;
use std::collections::BTreeMap;
use std::sync::Arc;

/// A command of a plan, as its host sends it.
#[derive(Debug, Drop)]
pub(crate) struct Awaited {
    pub host: u32,
    /// Which of its host's commands it is, from 1 on over all phases.
    pub ordinal: u32,
    pub cid: u32,
    /// The number of its phase, from 1 on.
    pub phase: u64,
    pub command: Arc<Command>,
    /// Where those that its host takes before it in its part begin in the table's list of takes, and where they end.
    pub begin: usize,
    pub end: usize,
    /// For an Abort, the ordinal of the command that it names.
    pub named: Option<u32>,
}

/// An outstanding command of a host.
#[derive(Clone, Copy, Debug, PartialEq, Eq)]
pub(crate) struct Outstanding {
    pub cid: u32,
    pub ordinal: u32,
}

/// A host in its part of a phase.
#[derive(Debug, Drop)]
pub(crate) struct Sender {
    pub host: u32,
    pub phase: u64,
    /// Where the takes of the part begin in the table's list.
    pub begin: usize,
    /// What it has sent and not taken yet, in order of sending.
    pub outstanding: Vec<Outstanding>,
}

/// The commands of a plan. A command's place is its number in the order of the script's text, from 0 on.
#[derive(Debug, Drop)]
pub(crate) struct Table {
    pub commands: Vec<Awaited>,
    /// The ordinals of what the hosts take, part by part.
    pub takes: Vec<u32>,
    /// The place of each command by its host and its ordinal.
    pub places: BTreeMap<(u64, u64), usize>,
    /// How many commands each host sends.
    pub counts: BTreeMap<u32, u32>,
}

// The ordinal of the last outstanding command under an identifier.
fn last_under(cid: u32, outstanding: &[Outstanding]) -> Option<u32>
    ensures { result ≡ named_in (waiting_of outstanding.now) (Command.Abort cid) }
{
    let mut last = None;
    for sent in outstanding {
        if sent.cid == cid {
            last = Some(sent.ordinal);
        }
    }
    last
}

// The ordinal of the command that an Abort names.
fn named_by(command: &Command, outstanding: &[Outstanding]) -> Option<u32>
    ensures { result ≡ named_in (waiting_of outstanding.now) command.now }
{
    match command.nature() {
        Nature::Withdraws { cid } => last_under(cid, outstanding),
        Nature::Reads
        | Nature::Writes
        | Nature::Copies
        | Nature::Executes { .. }
        | Nature::Builds
        | Nature::Arranges
        | Nature::Deletes { .. }
        | Nature::Stops { .. } => None,
    }
}

impl Table {
    // A table of no commands.
    fn new(alloc: Global) -> Table
        ensures none { sends_in result ≡ [] }
        ensures table { IsTable result }
    {
        Table {
            commands: Vec::new(alloc),
            takes: Vec::new(alloc),
            places: BTreeMap::new(alloc),
            counts: BTreeMap::new(alloc),
        }
    }

    // How many commands of a host are in the table.
    fn sent_by(&self, host: u32) -> u32
        requires { IsTable self.now }
        ensures { result ≡ sends_by host (sends_in self.now) }
    {
        match self.counts.get(&host) {
            Some(count) => *count,
            None => 0,
        }
    }

    // Adds a command that a host sends.
    fn add_send(
        &mut self,
        sender: &mut Sender,
        cid: u32,
        command: &Arc<Command>,
    ) -> Result<(), NoMemory>
        requires table { IsTable self.old }
        requires few { length (sends_in self.old) + 1 < 2 ^ 32 }
        requires begun { sender.old.begin ≤ length self.old.takes.items }
        ensures table { OnOk result (IsTable self.new) }
        ensures more { OnOk result (HasGoneOn self.old sender.old (item.Send cid command.now) self.new sender.new) }
    {
        let place = self.commands.len();
        let ordinal = self.sent_by(sender.host) + 1;
        let named = named_by(command, sender.outstanding.as_slice());
        self.commands.push(Awaited {
            host: sender.host,
            ordinal,
            cid,
            phase: sender.phase,
            command: Arc::try_clone(command)?,
            begin: sender.begin,
            end: self.takes.len(),
            named,
        })?;
        self.places
            .insert((u64::from(sender.host), u64::from(ordinal)), place)?;
        self.counts.insert(sender.host, ordinal)?;
        sender.outstanding.push(Outstanding { cid, ordinal })?;
        Ok(())
    }

    // Adds what a host takes under an identifier.
    fn add_take(&mut self, sender: &mut Sender, cid: u32) -> Result<(), NoMemory>
        requires table { IsTable self.old }
        requires begun { sender.old.begin ≤ length self.old.takes.items }
        ensures table { OnOk result (IsTable self.new) }
        ensures more { OnOk result (HasGoneOn self.old sender.old (item.Take cid) self.new sender.new) }
    {
        let outstanding = sender.outstanding.as_slice();
        for sent in outstanding {
            if sent.cid == cid {
                self.takes.push(sent.ordinal)?;
            }
        }
        sender.outstanding.retain(|sent| sent.cid != cid);
        Ok(())
    }

    // Adds what a host does by one item.
    fn add_item(&mut self, sender: &mut Sender, item: &Item) -> Result<(), NoMemory>
        requires table { IsTable self.old }
        requires few { is_sent item.now + length (sends_in self.old) < 2 ^ 32 }
        requires begun { sender.old.begin ≤ length self.old.takes.items }
        ensures table { OnOk result (IsTable self.new) }
        ensures more { OnOk result (HasGoneOn self.old sender.old item.now self.new sender.new) }
    {
        match item {
            Item::Send { cid, command } => self.add_send(sender, *cid, command),
            Item::Take { cid } => self.add_take(sender, *cid),
        }
    }

    // Adds what a host does in its part of a phase.
    fn add_part(&mut self, alloc: Global, phase: u64, part: &HostPart) -> Result<(), NoMemory>
        requires table { IsTable self.old }
        requires few { length (sends_in self.old ++ sends_of_items part.now.host phase (next_ordinal part.now.host (sends_in self.old)) [] [] part.now.items) < 2 ^ 32 }
        ensures table { OnOk result (IsTable self.new) }
        ensures sends { OnOk result
            (sends_in self.new ≡ sends_in self.old ++ sends_of_items part.now.host phase (next_ordinal part.now.host (sends_in self.old)) [] [] part.now.items) }
    {
        let mut sender = Sender {
            host: part.host,
            phase,
            begin: self.takes.len(),
            outstanding: Vec::new(alloc),
        };
        let items = part.items.as_slice();
        for item in items {
            self.add_item(&mut sender, item)?;
        }
        Ok(())
    }

    // Adds the parts of a phase.
    fn add_phase(&mut self, alloc: Global, phase: u64, parts: &[HostPart]) -> Result<(), NoMemory>
        requires table { IsTable self.old }
        requires few { length (sends_of_parts phase (sends_in self.old) parts.now) < 2 ^ 32 }
        ensures table { OnOk result (IsTable self.new) }
        ensures sends { OnOk result (sends_in self.new ≡ sends_of_parts phase (sends_in self.old) parts.now) }
    {
        for part in parts {
            self.add_part(alloc, phase, part)?;
        }
        Ok(())
    }

    /// The commands of a plan's phases.
    pub fn of_phases(alloc: Global, phases: &[Phase]) -> Result<Table, NoMemory>
        requires { length (sends_of phases.now) < 2 ^ 32 }
        ensures table { IfOk result (λ table. IsTable table) }
        ensures sends { IfOk result (λ table. sends_in table ≡ sends_of phases.now) }
    {
        let mut table = Table::new(alloc);
        for index in 0..phases.len() {
            table.add_phase(alloc, index as u64 + 1, phases[index].hosts.as_slice())?;
        }
        Ok(table)
    }

    /// The place of a host's command of this ordinal.
    pub fn find(&self, host: u64, ordinal: u64) -> Option<usize>
        requires { IsTable self.now }
        ensures found { IfSome result (IsAt (sends_in self.now) host ordinal) }
        ensures none { result ≡ None → (place : ℕ) → IsAt (sends_in self.now) host ordinal place → ⊥ }
    {
        match self.places.get(&(host, ordinal)) {
            Some(place) => Some(*place),
            None => None,
        }
    }

    /// The command at a place.
    pub fn get(&self, place: usize) -> &Awaited
        requires { place < length (sends_in self.now) }
        ensures sent { slice_get (sends_in self.now) place ≡ Some (sent_in self.now.takes.items result.now) }
        ensures ends { IsTable self.now → result.now.end ≤ length self.now.takes.items }
    {
        &self.commands[place]
    }
}
