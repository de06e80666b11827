// A script while it is read.
ghost use Rattle.std.specs.Prelude.{◌≡◌, ◌+◌, ◌≤◌, ◌++◌, ◌∷◌, [], Ok, true, false, map, IfOk, IfErr, OnOk};
ghost use Rattle.cp_base.specs.Configuration.{IsWithinLimits};
ghost use Rattle.cp_base.specs.declared.limits.TheConstants.{MAX_NAMESPACE};
ghost use Rattle.script_line.specs.Fits.{values_fit};
ghost use Rattle.script_line.specs.Line.{fields_of};
ghost use Rattle.script_line.specs.Sized.{IsLine};
ghost use Rattle.script_line.specs.Values.{Fails, line_view, number_at, value_view};
ghost use Rattle.script_line.specs.Versions.{IsOfVersion};
ghost use Rattle.script_line.specs.declared.kind.LineKind.TheVariants as line_kind;
ghost use Rattle.script_cmds.specs.Fault.{judged, read_line};
ghost use Rattle.script_cmds.specs.Progress.{is_start, is_within_limits, start};
ghost use Rattle.script_cmds.specs.Text.{lines_of, lines_text};
ghost use Rattle.script_cmds.specs.private.Drafts.{IsDraft, draft_lines};
ghost use Rattle.script_cmds.specs.private.Stored.{AddsItem, AddsShow, EndsPart, EndsPhase, Stored};

use crate::limits::space_of;
use crate::progress::{Progress, Stage};
use crate::{HostPart, Item, Phase, Script, Show};
use cp_base::{ByteRange, CommandWord, NoMemory, Sequence};
use script_line::{
    FieldValue, LineEnd, LineKind, ReadLine, SpaceKind, Version, command_of, identifier_at,
    number_at, read_line,
};
use std::alloc::Global;
use std::marker::Model;
use std::mem;
use std::sync::Arc;

/// The script of the lines so far: what has ended, and the phase and the host's part that are open.
#[derive(Drop)]
pub struct Draft {
    progress: Progress,
    phases: Vec<Phase>,
    hosts: Vec<HostPart>,
    items: Vec<Item>,
    shows: Vec<Show>,
}

impl Model for Draft {
    ghost use Rattle.script_cmds.specs.private.Drafts.{Drafted};

    ghost Value = { Drafted };

    ghost view = { λ d. record { progress = d.progress; phases = d.phases.items; hosts = d.hosts.items; items = d.items.items; shows = d.shows.items } };
}

impl Draft {
    /// No line yet.
    pub fn new(alloc: Global) -> Draft
        ensures draft { IsDraft result }
        ensures lines { draft_lines result ≡ [] }
        ensures progress { result.progress ≡ start }
    {
        Draft {
            progress: Progress::start(),
            phases: Vec::new(alloc),
            hosts: Vec::new(alloc),
            items: Vec::new(alloc),
            shows: Vec::new(alloc),
        }
    }

    /// Whether there is no line.
    pub fn is_empty(&self) -> bool
        ensures { result ≡ is_start self.now.progress.stage }
    {
        self.progress.stage.is_start()
    }

    /// Adds a line by its text, without its newline.
    pub fn add(&mut self, alloc: Global, text: &[u8]) -> Result<(), LineEnd>
        requires { IsDraft self.old }
        ensures draft { OnOk result (IsDraft self.new) }
        ensures text { OnOk result
            (lines_text (draft_lines self.new) ≡ lines_text (draft_lines self.old) ++ (text.now ++ 10 ∷ [])) }
        ensures read { OnOk result (read_line self.old.progress text.now ≡ Ok self.new.progress) }
        ensures fault { IfErr result (λ end. Fails end (read_line self.old.progress text.now)) }
    {
        let line = read_line(alloc, self.progress.form.version, text)?;
        let after = match self.progress.after(&line) {
            Ok(after) => after,
            Err(cause) => return Err(LineEnd::Fault(cause)),
        };
        self.put(alloc, line, after)?;
        Ok(())
    }

    // Adds what a line says, behind which the script stands there.
    fn put(&mut self, alloc: Global, line: ReadLine, after: Progress) -> Result<(), NoMemory>
        requires draft { IsDraft self.old }
        requires after { judged self.old.progress (line_view line) ≡ Ok after }
        requires line { IsLine (line_view line) }
        requires version { IsOfVersion self.old.progress.form.version line.kind }
        ensures draft { OnOk result (IsDraft self.new) }
        ensures lines { OnOk result (draft_lines self.new ≡ draft_lines self.old ++ line_view line ∷ []) }
        ensures progress { OnOk result (self.new.progress ≡ after) }
    {
        self.store(alloc, line)?;
        self.stand(after);
        Ok(())
    }

    // Says where the script stands.
    fn stand(&mut self, after: Progress)
        ensures { self.new ≡ record self.old { progress = after } }
    {
        self.progress = after;
    }

    // Keeps what a line says.
    fn store(&mut self, alloc: Global, line: ReadLine) -> Result<(), NoMemory>
        requires limits { IsWithinLimits self.old.progress.config }
        requires judged { is_within_limits self.old.progress (line_view line) ≡ true }
        requires line { IsLine (line_view line) }
        requires version { IsOfVersion self.old.progress.form.version line.kind }
        ensures { OnOk result (Stored line.kind (line_view line).values self.old self.new) }
    {
        match line.kind {
            LineKind::Header(_) | LineKind::Namespace(_) => Ok(()),
            LineKind::Phase => self.close_phase(alloc),
            LineKind::Host => self.close_part(alloc),
            LineKind::Send(version, word) => self.send(alloc, version, word, line.values),
            LineKind::Take(version) => self.take(version, line.values.as_slice()),
            LineKind::Show(kind) => self.show(alloc, kind, line.values.as_slice()),
        }
    }

    // Closes the part that is open, if one is.
    #[tactic(auto, using(crate::proofs::OneMore::part_one_more))]
    fn close_part(&mut self, alloc: Global) -> Result<(), NoMemory>
        ensures ended { OnOk result (EndsPart self.old self.new) }
        ensures progress { OnOk result (self.new.progress ≡ self.old.progress) }
    {
        let items = mem::replace(&mut self.items, Vec::new(alloc));
        match self.progress.stage {
            Stage::InPart(host) => {
                self.hosts.push(HostPart {
                    host,
                    items: Sequence::new(items),
                })?;
                Ok(())
            }
            Stage::AtStart
            | Stage::AfterHeader
            | Stage::AfterNamespace(_, _)
            | Stage::InPhase
            | Stage::AfterShow => Ok(()),
        }
    }

    // Closes the phase that is open, if one is, and its part.
    #[tactic(auto, using(crate::proofs::OneMore::phase_one_more))]
    fn close_phase(&mut self, alloc: Global) -> Result<(), NoMemory>
        ensures ended { OnOk result (EndsPhase self.old self.new) }
        ensures progress { OnOk result (self.new.progress ≡ self.old.progress) }
    {
        self.close_part(alloc)?;
        let hosts = mem::replace(&mut self.hosts, Vec::new(alloc));
        match self.progress.stage {
            Stage::InPhase | Stage::InPart(_) => {
                self.phases.push(Phase {
                    hosts: Sequence::new(hosts),
                })?;
                Ok(())
            }
            Stage::AtStart | Stage::AfterHeader | Stage::AfterNamespace(_, _) | Stage::AfterShow =>
                Ok(()),
        }
    }

    // Adds a command that the open host sends.
    #[tactic(auto, using(crate::proofs::OneMore::item_one_more, crate::proofs::Meanings::send_says))]
    fn send(
        &mut self,
        alloc: Global,
        version: Version,
        word: CommandWord,
        values: Vec<FieldValue>,
    ) -> Result<(), NoMemory>
        requires version { version ≡ self.old.progress.form.version }
        requires line { IsLine (record { kind = line_kind.Send version word; values = map value_view values.items }) }
        requires fits { values_fit (fields_of (line_kind.Send version word)) (map value_view values.items) ≡ true }
        ensures { OnOk result
            (AddsItem (record { kind = line_kind.Send version word; values = map value_view values.items }) self.old self.new) }
    {
        let cid = identifier_at(values.as_slice(), 0) as u32;
        let command = command_of(alloc, version, word, values)?;
        let command = Arc::new(alloc, command)?;
        self.items.push(Item::Send { cid, command })?;
        Ok(())
    }

    // Adds a reply that the open host takes.
    #[tactic(auto, using(crate::proofs::OneMore::item_one_more, crate::proofs::Meanings::take_says))]
    fn take(&mut self, version: Version, values: &[FieldValue]) -> Result<(), NoMemory>
        requires version { version ≡ self.old.progress.form.version }
        requires line { IsLine (record { kind = line_kind.Take version; values = map value_view values.now }) }
        requires fits { values_fit (fields_of (line_kind.Take version)) (map value_view values.now) ≡ true }
        ensures { OnOk result
            (AddsItem (record { kind = line_kind.Take version; values = map value_view values.now }) self.old self.new) }
    {
        let cid = identifier_at(values, 0) as u32;
        self.items.push(Item::Take { cid })?;
        Ok(())
    }

    // Adds bytes that are shown.
    #[tactic(auto, using(crate::proofs::OneMore::show_one_more))]
    fn show(
        &mut self,
        alloc: Global,
        kind: SpaceKind,
        values: &[FieldValue],
    ) -> Result<(), NoMemory>
        requires line { IsLine (record { kind = line_kind.Show kind; values = map value_view values.now }) }
        requires fits { values_fit (fields_of (line_kind.Show kind)) (map value_view values.now) ≡ true }
        requires inside { number_at (map value_view values.now) 1 + number_at (map value_view values.now) 2 ≤ MAX_NAMESPACE }
        ensures { OnOk result
            (AddsShow (record { kind = line_kind.Show kind; values = map value_view values.now }) self.old self.new) }
    {
        let space = space_of(kind, number_at(values, 0) as u32);
        let range = ByteRange::new(space, number_at(values, 1), number_at(values, 2)).unwrap();
        self.close_phase(alloc)?;
        self.shows.push(Show { range })?;
        Ok(())
    }

    /// The script, where no line is to follow.
    pub fn finish(mut self, alloc: Global) -> Result<Script, NoMemory>
        requires draft { IsDraft self }
        requires some { is_start self.progress.stage ≡ false }
        ensures lines { IfOk result (λ script. lines_of script ≡ draft_lines self) }
        ensures form { IfOk result (λ script. script.form ≡ self.progress.form) }
        ensures config { IfOk result (λ script. script.config ≡ self.progress.config) }
    {
        self.close_phase(alloc)?;
        Ok(Script {
            form: self.progress.form,
            config: self.progress.config,
            phases: Sequence::new(self.phases),
            shows: Sequence::new(self.shows),
        })
    }
}
