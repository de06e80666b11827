// What a reader of a script has to know of the lines so far: which line may follow, and how much has
// been used of each limit.
ghost use Rattle.std.specs.Prelude.{◌≡◌, ◌+◌, ◌&&◌, nat_le, nat_lt, true, Some, None, if◌then◌else◌, map};
ghost use Rattle.std.specs.List.{list_all};
ghost use Rattle.cp_base.specs.Configuration.{IsWithinLimits};
ghost use Rattle.script_line.specs.Field.{IsShaped};
ghost use Rattle.script_line.specs.Fits.{values_fit};
ghost use Rattle.script_line.specs.Line.{fields_of};
ghost use Rattle.script_line.specs.Values.{line_view, queue_in, value_view};
ghost use Rattle.script_line.specs.Versions.{limits_of};
ghost use Rattle.script_cmds.specs.Fault.{judged};
ghost use Rattle.script_cmds.specs.Progress.{advanced, follows, has_room, header_budget, header_depth, header_queues, host_follows, is_after_show, is_in_order, is_in_part, is_start, names_queues, namespace_follows, same_version, start};
ghost use Rattle.script_line.specs.declared.field.FieldValue.{FieldValue};
ghost use Rattle.script_line.specs.declared.kind.LineKind.TheVariants as line_kind;
ghost use Rattle.script_cmds.specs.declared.progress.Stage.TheVariants as stage;

use crate::Form;
use crate::limits::{bare, has_bytes, with_namespace};
use cp_base::Config;
use script_line::{
    FieldValue, LineKind, ReadLine, ScriptLimits, SpaceKind, TextCause, Version, fits, number_at,
    queue_at,
};

/// Where a script stands after a line.
#[derive(Clone, Copy, Debug)]
pub enum Stage {
    /// Before the first line.
    AtStart,
    /// After the header.
    AfterHeader,
    /// After the line of a namespace of this kind and number.
    AfterNamespace(SpaceKind, u64),
    /// In a phase that has no host yet.
    InPhase,
    /// In the part of the host with this number.
    InPart(u32),
    /// After a line that shows bytes.
    AfterShow,
}

// Whether a namespace may follow one, NVM namespaces first.
fn follows(last: SpaceKind, before: u64, kind: SpaceKind, number: u64) -> bool
    ensures { result ≡ follows last before kind number }
{
    match (last, kind) {
        (SpaceKind::Nvm, SpaceKind::Nvm) | (SpaceKind::Mem, SpaceKind::Mem) => before < number,
        (SpaceKind::Nvm, SpaceKind::Mem) => true,
        (SpaceKind::Mem, SpaceKind::Nvm) => false,
    }
}

// Whether each queue that is named is one of so many.
fn are_within(queues: u64, values: &[FieldValue]) -> bool
    ensures { result
        ≡ list_all (λ (value : FieldValue). nat_le (queue_in (Some (value_view value))) queues) values.now }
{
    values.iter().all(|value| value.queue() <= queues)
}

impl Stage {
    /// Whether no line was read.
    pub fn is_start(self) -> bool
        ensures { result ≡ is_start self }
    {
        match self {
            Stage::AtStart => true,
            Stage::AfterHeader
            | Stage::AfterNamespace(_, _)
            | Stage::InPhase
            | Stage::InPart(_)
            | Stage::AfterShow => false,
        }
    }

    fn is_after_show(self) -> bool
        ensures { result ≡ is_after_show self }
    {
        match self {
            Stage::AfterShow => true,
            Stage::AtStart
            | Stage::AfterHeader
            | Stage::AfterNamespace(_, _)
            | Stage::InPhase
            | Stage::InPart(_) => false,
        }
    }

    fn is_in_part(self) -> bool
        ensures { result ≡ is_in_part self }
    {
        match self {
            Stage::InPart(_) => true,
            Stage::AtStart
            | Stage::AfterHeader
            | Stage::AfterNamespace(_, _)
            | Stage::InPhase
            | Stage::AfterShow => false,
        }
    }

    fn namespace_follows(self, kind: SpaceKind, number: u64) -> bool
        ensures { result ≡ namespace_follows self kind number }
    {
        match self {
            Stage::AfterHeader => true,
            Stage::AfterNamespace(last, before) => follows(last, before, kind, number),
            Stage::AtStart | Stage::InPhase | Stage::InPart(_) | Stage::AfterShow => false,
        }
    }

    fn host_follows(self, host: u64) -> bool
        ensures { result ≡ host_follows self host }
    {
        match self {
            Stage::InPhase => true,
            Stage::InPart(before) => u64::from(before) < host,
            Stage::AtStart | Stage::AfterHeader | Stage::AfterNamespace(_, _) | Stage::AfterShow =>
                false,
        }
    }

    // Whether a line may stand here.
    fn is_in_order(self, version: Version, kind: LineKind, values: &[FieldValue]) -> bool
        ensures { result ≡ is_in_order version self kind (map value_view values.now) }
    {
        match kind {
            LineKind::Header(_) => self.is_start(),
            LineKind::Namespace(kind) => self.namespace_follows(kind, number_at(values, 0)),
            LineKind::Phase => !self.is_start() && !self.is_after_show(),
            LineKind::Host => self.host_follows(number_at(values, 0)),
            LineKind::Send(own, _) | LineKind::Take(own) => self.is_in_part() && own == version,
            LineKind::Show(_) => !self.is_start(),
        }
    }
}

/// The stage, the form of the script, the configuration so far, and how many send, phase and
/// show lines there were.
#[derive(Clone, Copy, Debug)]
pub struct Progress {
    pub stage: Stage,
    pub form: Form,
    pub config: Config,
    pub sends: u32,
    pub phases: u32,
    pub shows: u32,
}

impl Progress {
    /// Before the first line.
    pub fn start() -> Progress
        ensures value { result ≡ start }
        ensures limits { IsWithinLimits result.config }
    {
        Progress {
            stage: Stage::AtStart,
            form: Form {
                version: Version::One,
                queues: 1,
            },
            config: Config::new(512, 1, 1).unwrap(),
            sends: 0,
            phases: 0,
            shows: 0,
        }
    }

    /// What there is after one more line, or what is wrong with its place or its limits.
    pub fn after(&self, line: &ReadLine) -> Result<Progress, TextCause>
        requires limits { IsWithinLimits self.now.config }
        requires shape { IsShaped (fields_of line.now.kind) (line_view line.now).values }
        ensures { result ≡ judged self.now (line_view line.now) }
    {
        if !self
            .stage
            .is_in_order(self.form.version, line.kind, line.values.as_slice())
        {
            return Err(TextCause::Order);
        }
        if !fits(line) {
            return Err(TextCause::Limit);
        }
        match self.advanced(line.kind, line.values.as_slice()) {
            Some(after) => Ok(after),
            None => Err(TextCause::Limit),
        }
    }

    // What there is after one more line, for which there is room.
    fn advanced(&self, kind: LineKind, values: &[FieldValue]) -> Option<Progress>
        requires limits { IsWithinLimits self.now.config }
        requires shape { IsShaped (fields_of kind) (map value_view values.now) }
        requires fits { values_fit (fields_of kind) (map value_view values.now) ≡ true }
        ensures { result ≡ (if has_room self.now kind (map value_view values.now)
            then Some (advanced self.now kind (map value_view values.now))
            else None) }
    {
        let first = number_at(values, 0);
        let second = number_at(values, 1);
        let third = number_at(values, 2);
        match kind {
            LineKind::Header(version) => self.with_header(version, values),
            LineKind::Namespace(kind) => Some(Progress {
                stage: Stage::AfterNamespace(kind, first),
                config: with_namespace(&self.config, kind, first, second)?,
                ..*self
            }),
            LineKind::Phase => self.with_phase(),
            LineKind::Host => Some(Progress {
                stage: Stage::InPart(first as u32),
                ..*self
            }),
            LineKind::Send(_, _) => self.with_send(values),
            LineKind::Take(_) => self.with_take(values),
            LineKind::Show(kind) => {
                self.with_show(has_bytes(&self.config, kind, first, second, third))
            }
        }
    }

    // After a header of this version.
    fn with_header(&self, version: Version, values: &[FieldValue]) -> Option<Progress>
        requires shape { IsShaped (fields_of (line_kind.Header version)) (map value_view values.now) }
        requires fits { values_fit (fields_of (line_kind.Header version)) (map value_view values.now) ≡ true }
        ensures { result ≡ (if has_room self.now (line_kind.Header version) (map value_view values.now)
            then Some (advanced self.now (line_kind.Header version) (map value_view values.now))
            else None) }
    {
        let (queues, behind) = match version {
            Version::One => (1, 1),
            Version::Two => (number_at(values, 1), 2),
        };
        let depth = queues * number_at(values, behind);
        if depth > version.limits().outstanding {
            return None;
        }
        Some(Progress {
            stage: Stage::AfterHeader,
            form: Form {
                version,
                queues: queues as u32,
            },
            config: bare(number_at(values, 0), depth, number_at(values, behind + 1))?,
            ..*self
        })
    }

    // The limits of the script's version.
    fn limits(&self) -> ScriptLimits
        ensures { result ≡ limits_of self.now.form.version }
    {
        self.form.version.limits()
    }

    // Whether each queue that a line names is one of the script's.
    fn has_queues(&self, values: &[FieldValue]) -> bool
        ensures { result ≡ names_queues self.now.form.queues (map value_view values.now) }
    {
        let queues = u64::from(self.form.queues);
        are_within(queues, values)
    }

    fn with_phase(&self) -> Option<Progress>
        ensures { result
            ≡ (if nat_lt self.now.phases (limits_of self.now.form.version).phases then Some (record self.now { stage = stage.InPhase; phases = self.now.phases + 1 }) else None) }
    {
        if self.phases >= self.limits().phases {
            return None;
        }
        Some(Progress {
            stage: Stage::InPhase,
            phases: self.phases + 1,
            ..*self
        })
    }

    fn with_send(&self, values: &[FieldValue]) -> Option<Progress>
        ensures { result
            ≡ (if nat_lt self.now.sends (limits_of self.now.form.version).sends && names_queues self.now.form.queues (map value_view values.now) then Some (record self.now { sends = self.now.sends + 1 }) else None) }
    {
        if self.sends >= self.limits().sends || !self.has_queues(values) {
            return None;
        }
        Some(Progress {
            sends: self.sends + 1,
            ..*self
        })
    }

    fn with_take(&self, values: &[FieldValue]) -> Option<Progress>
        ensures { result
            ≡ (if names_queues self.now.form.queues (map value_view values.now) then Some self.now else None) }
    {
        if self.has_queues(values) {
            Some(*self)
        } else {
            None
        }
    }

    fn with_show(&self, are_there: bool) -> Option<Progress>
        ensures { result
            ≡ (if nat_lt self.now.shows (limits_of self.now.form.version).shows && are_there then Some (record self.now { stage = stage.AfterShow; shows = self.now.shows + 1 }) else None) }
    {
        if self.shows >= self.limits().shows || !are_there {
            return None;
        }
        Some(Progress {
            stage: Stage::AfterShow,
            shows: self.shows + 1,
            ..*self
        })
    }
}
