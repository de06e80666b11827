// The checker between two lines: a sequential device goes through the entries of a history.
ghost use Rattle.std.specs.Prelude.{◌≡◌, ◌∷◌, ◌++◌, ◌<◌, ◌≤◌, ◌+◌, ◌^◌, [], IfOk, IfSome, IsFalse, IsSomeAnd, IsTrue, List, None, length, unwrap_or, ℕ};
ghost use Rattle.cp_base.specs.Answer.{only_status};
ghost use Rattle.cp_base.specs.Contents.{bytes_in};
ghost use Rattle.cp_base.specs.Configuration.{size_of};
ghost use Rattle.cp_base.specs.Commands.{word_of};
ghost use Rattle.history_model.specs.Entry.{Entry};
ghost use Rattle.history_model.specs.Sent.{sends_of};
ghost use Rattle.history_model.specs.Text.{line_of_entry, shown_text};
ghost use Rattle.history_check.specs.Name.{IsNamed};
ghost use Rattle.history_check.specs.Readiness.{IsKept};
ghost use Rattle.history_check.specs.SizedPlan.{IsSizedPlan};
ghost use Rattle.history_check.specs.Standing.{IsNextRefused, IsNextTold, IsPlaceOf, IsReplyRefused, IsReplyTold, IsTellingOf, Judges, NamesLeft, Stands, TellsAnswer, TellsNoMemory, TellsWithdrawal};
ghost use Rattle.history_check.specs.Table.{sends_in};
ghost use Rattle.seq_device.specs.Standing.{Standing};

use crate::awaiting::Awaiting;
use crate::names::name_in;
use crate::table::Awaited;
use cp_base::{Bytes, Config, NoMemory, Status};
use replay_print::{EntryLine, LONGEST_LINE, push_entry, push_show};
use script_cmds::{Phase, Show};
use seq_device::SeqDevice;
use std::alloc::Global;

// Whether a line, to which a newline is added, is the text of the buffer.
fn is_text(buffer: &Bytes, line: &[u8]) -> bool
    ensures yes { IsTrue result → buffer.now.items ≡ line.now ++ 10 ∷ [] }
    ensures no { IsFalse result → buffer.now.items ≡ line.now ++ 10 ∷ [] → ⊥ }
{
    match buffer.as_slice().split_last() {
        Some((last, text)) => *last == b'\n' && text == line,
        None => false,
    }
}

// Whether line `k` tells that a command was answered so.
fn is_entry(
    buffer: &mut Bytes,
    k: u32,
    sent: &Awaited,
    status: Status,
    value: u64,
    bytes: &[u8],
    line: &[u8],
) -> Result<bool, NoMemory>
    ensures yes { IfOk result
        (λ told. IsTrue told
        → line_of_entry k sent.now.host sent.now.ordinal sent.now.cid (word_of sent.now.command.value) status value bytes.now ≡ line.now ++ 10 ∷ []) }
    ensures no { IfOk result
        (λ told. IsFalse told
        → line_of_entry k sent.now.host sent.now.ordinal sent.now.cid (word_of sent.now.command.value) status value bytes.now ≡ line.now ++ 10 ∷ [] → ⊥) }
{
    buffer.clear();
    push_entry(
        buffer,
        k,
        &EntryLine {
            host: sent.host,
            ordinal: sent.ordinal,
            cid: sent.cid,
            word: sent.command.word(),
            status,
            result: value,
            bytes,
        },
    )?;
    Ok(is_text(buffer, line))
}

/// What the checker knows between two lines: the sequential device that has carried out the entries so far, and
/// which commands are over.
#[derive(Drop)]
pub(crate) struct Checker {
    pub device: SeqDevice,
    pub awaiting: Awaiting,
    /// The place of the command that the Abort of the last entry has withdrawn.
    pub withdrawn: Option<usize>,
    pub buffer: Bytes,
}

impl Checker {
    /// A checker that has read no entry of a plan's history.
    pub fn new(alloc: Global, config: &Config, phases: &[Phase]) -> Result<Checker, NoMemory>
        requires { length (sends_of phases.now) < 2 ^ 32 }
        ensures { IfOk result (λ checker. Stands config.now phases.now [] checker) }
    {
        let mut buffer = Bytes::new(alloc);
        buffer.reserve(LONGEST_LINE)?;
        Ok(Checker {
            device: SeqDevice::new(alloc, config)?,
            awaiting: Awaiting::new(alloc, phases)?,
            withdrawn: None,
            buffer,
        })
    }

    // Whether line `k` tells a status alone of the command at a place.
    fn tells(&mut self, k: u32, place: usize, status: Status, line: &[u8]) -> Result<bool, NoMemory>
        requires kept { IsKept self.old.awaiting }
        requires within { place < length (sends_in self.old.awaiting.table) }
        ensures same { (self.new.device ≡ self.old.device) × (self.new.awaiting ≡ self.old.awaiting)
            × (self.new.withdrawn ≡ self.old.withdrawn) }
        ensures yes { IfOk result (λ told. IsTrue told → IsTellingOf self.old place k (only_status status) line.now) }
        ensures no { IfOk result
            (λ told. IsFalse told → IsTellingOf self.old place k (only_status status) line.now → ⊥) }
    {
        let sent = self.awaiting.table.get(place);
        is_entry(&mut self.buffer, k, sent, status, 0, &[], line)
    }

    // Whether line `k` tells that the command at a place found no memory, which changes nothing.
    fn tells_no_memory(&mut self, k: u32, place: usize, line: &[u8]) -> Result<bool, NoMemory>
        requires kept { IsKept self.old.awaiting }
        requires within { place < length (sends_in self.old.awaiting.table) }
        ensures same { (self.new.device ≡ self.old.device) × (self.new.awaiting ≡ self.old.awaiting)
            × (self.new.withdrawn ≡ self.old.withdrawn) }
        ensures yes { IfOk result (λ told. IsTrue told → TellsNoMemory self.old place k line.now) }
        ensures no { IfOk result (λ told. IsFalse told → TellsNoMemory self.old place k line.now → ⊥) }
    {
        let sent = self.awaiting.table.get(place);
        if !self.device.takes_memory(&sent.command) {
            return Ok(false);
        }
        self.tells(k, place, Status::NoMemory, line)
    }

    // The place of the command that the Abort at a place names, where it is not over.
    fn named_left(&self, place: usize) -> Option<usize>
        requires kept { IsKept self.now.awaiting }
        requires within { place < length (sends_in self.now.awaiting.table) }
        ensures some { IfSome result (λ named. NamesLeft self.now.awaiting place named) }
        ensures none { result ≡ None → (named : ℕ) → NamesLeft self.now.awaiting place named → ⊥ }
    {
        let sent = self.awaiting.table.get(place);
        let named = self
            .awaiting
            .table
            .find(u64::from(sent.host), u64::from(sent.named?))?;
        if self.awaiting.is_over(named) {
            return None;
        }
        Some(named)
    }

    // Whether line `k` tells that the Abort at a place has withdrawn the command that it names, which then has no
    // entry yet. Its own entry has to follow.
    fn tells_withdrawal(&mut self, k: u32, place: usize, line: &[u8]) -> Result<bool, NoMemory>
        requires kept { IsKept self.old.awaiting }
        requires within { place < length (sends_in self.old.awaiting.table) }
        ensures same { (self.new.device ≡ self.old.device) × (self.new.awaiting ≡ self.old.awaiting) }
        ensures yes { IfOk result
            (λ told. IsTrue told
            → IsSomeAnd self.new.withdrawn (λ named. TellsWithdrawal self.old place named k line.now)) }
        ensures no { IfOk result
            (λ told. IsFalse told
            → (self.new.withdrawn ≡ self.old.withdrawn)
            × ((named : ℕ) → TellsWithdrawal self.old place named k line.now → ⊥)) }
    {
        let Some(named) = self.named_left(place) else {
            return Ok(false);
        };
        if !self.tells(k, place, Status::Ok, line)? {
            return Ok(false);
        }
        self.withdrawn = Some(named);
        Ok(true)
    }

    // Whether line `k` tells what the device answers to the command at a place.
    fn tells_answer(&mut self, k: u32, place: usize, line: &[u8]) -> Result<bool, NoMemory>
        requires kept { IsKept self.old.awaiting }
        requires within { place < length (sends_in self.old.awaiting.table) }
        ensures same { (self.new.awaiting ≡ self.old.awaiting) × (self.new.withdrawn ≡ self.old.withdrawn) }
        ensures yes { IfOk result (λ told. IsTrue told → TellsAnswer self.old place k line.now self.new.device) }
        ensures no { IfOk result
            (λ told. IsFalse told → (after : Standing) → TellsAnswer self.old place k line.now after → ⊥) }
    {
        let sent = self.awaiting.table.get(place);
        let reply = self.device.step(&sent.command);
        if reply.status == Status::NoMemory {
            return Err(NoMemory);
        }
        let bytes = reply.bytes.as_slice();
        is_entry(
            &mut self.buffer,
            k,
            sent,
            reply.status,
            reply.result,
            bytes,
            line,
        )
    }

    // Whether line `k` tells an answer to the command at a place, where none is withdrawn.
    fn tells_reply(&mut self, k: u32, place: usize, line: &[u8]) -> Result<bool, NoMemory>
        requires kept { IsKept self.old.awaiting }
        requires within { place < length (sends_in self.old.awaiting.table) }
        ensures same { self.new.awaiting ≡ self.old.awaiting }
        ensures yes { IfOk result (λ told. IsTrue told → IsReplyTold self.old place k line.now self.new) }
        ensures no { IfOk result (λ told. IsFalse told → IsReplyRefused self.old place k line.now) }
    {
        Ok(
            self.tells_no_memory(k, place, line)?
                || self.tells_withdrawal(k, place, line)?
                || self.tells_answer(k, place, line)?,
        )
    }

    // Whether line `k` tells that the command at a place, which was withdrawn, is aborted.
    fn tells_aborted(
        &mut self,
        k: u32,
        place: usize,
        withdrawn: usize,
        line: &[u8],
    ) -> Result<bool, NoMemory>
        requires kept { IsKept self.old.awaiting }
        requires within { place < length (sends_in self.old.awaiting.table) }
        ensures same { (self.new.device ≡ self.old.device) × (self.new.awaiting ≡ self.old.awaiting)
            × (self.new.withdrawn ≡ None) }
        ensures yes { IfOk result
            (λ told. IsTrue told
            → (place ≡ withdrawn) × IsTellingOf self.old place k (only_status Status.Aborted) line.now) }
        ensures no { IfOk result
            (λ told. IsFalse told → place ≡ withdrawn
            → IsTellingOf self.old place k (only_status Status.Aborted) line.now → ⊥) }
    {
        self.withdrawn = None;
        Ok(place == withdrawn && self.tells(k, place, Status::Aborted, line)?)
    }

    // The place of the command that a line names.
    fn place_in(&self, line: &[u8]) -> Option<usize>
        requires { IsKept self.now.awaiting }
        ensures some { IfSome result (λ place. place < length (sends_in self.now.awaiting.table)) }
        ensures named { (host ordinal : ℕ) → IsNamed line.now host ordinal
            → IsPlaceOf (sends_in self.now.awaiting.table) host ordinal result }
    {
        let (host, ordinal) = name_in(line)?;
        self.awaiting.table.find(host, ordinal)
    }

    // Whether line `k` tells of the command at a place what its entry can be.
    fn tells_next(&mut self, k: u32, place: usize, line: &[u8]) -> Result<bool, NoMemory>
        requires kept { IsKept self.old.awaiting }
        requires within { place < length (sends_in self.old.awaiting.table) }
        ensures same { self.new.awaiting ≡ self.old.awaiting }
        ensures yes { IfOk result
            (λ told. IsTrue told → IsNextTold self.old.withdrawn self.old place k line.now self.new) }
        ensures no { IfOk result (λ told. IsFalse told → IsNextRefused self.old.withdrawn self.old place k line.now) }
    {
        match self.withdrawn {
            Some(withdrawn) => self.tells_aborted(k, place, withdrawn, line),
            None => self.tells_reply(k, place, line),
        }
    }

    /// Whether line `k` is that of an entry with which a legal history goes on. Then its command is over.
    pub fn accepts(&mut self, k: u32, line: &[u8]) -> Result<bool, NoMemory>
        requires { IsKept self.old.awaiting }
        ensures { (c : _) (plan : _) (entries : List Entry) → IsSizedPlan c plan → Stands c plan entries self.old
            → k ≡ length entries + 1
            → IfOk result (λ accepted. Judges c plan entries line.now self.new accepted) }
    {
        let Some(place) = self.place_in(line) else {
            return Ok(false);
        };
        if !self.awaiting.is_ready(place)? {
            return Ok(false);
        }
        if !self.tells_next(k, place, line)? {
            return Ok(false);
        }
        self.awaiting.end(place);
        Ok(true)
    }

    /// Whether a line is that of a show in the state of the device.
    pub fn shows(&mut self, show: &Show, line: &[u8]) -> Result<bool, NoMemory>
        requires { show.now.range.start + show.now.range.len ≤ unwrap_or (size_of self.old.device.config show.now.range.space) 0 }
        ensures same { self.new.device ≡ self.old.device }
        ensures yes { IfOk result
            (λ shown. IsTrue shown
            → shown_text show.now (bytes_in self.old.device.state.contents show.now.range) ≡ line.now ++ 10 ∷ []) }
        ensures no { IfOk result
            (λ shown. IsFalse shown
            → shown_text show.now (bytes_in self.old.device.state.contents show.now.range) ≡ line.now ++ 10 ∷ []
            → ⊥) }
    {
        self.buffer.clear();
        push_show(&mut self.buffer, show, self.device.slice(&show.range))?;
        Ok(is_text(&self.buffer, line))
    }
}
