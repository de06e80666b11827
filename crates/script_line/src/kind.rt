// The kinds of line, by their words, and the table of their fields.
ghost use Rattle.std.specs.Prelude.{◌≡◌, ◌<◌, ◌≤◌, ◌∷◌, [], None, length, map, option_map, IfOk, codes};
ghost use Rattle.cp_text.specs.Parts.{parts_between, parts_in};
ghost use Rattle.script_line.specs.Line.{fields_of, identifier_field};
ghost use Rattle.script_line.specs.Reading.{changed, header_kind, kind_of, read_fields, send_kind, show_kind};
ghost use Rattle.script_line.specs.declared.kind.LineKind.TheVariants as line_kind;
ghost use Rattle.script_line.specs.private.Outcomes.{field_view, fields_behind, known_fields, read_rest, version_of};

use crate::commands::send_fields;
use crate::field::Field;
use crate::limits::{MAX_64, MAX_CID, VERSION_1, VERSION_2};
use crate::{TextCause, Version};
use cp_base::{CommandWord, MAX_HOSTS, MAX_NAMESPACE, MAX_TRANSFER, NAMESPACES};
use cp_text::split_part;

/// A kind of namespace.
#[derive(Clone, Copy, Debug, PartialEq, Eq)]
pub enum SpaceKind {
    /// NVM namespaces, whose sizes are in blocks.
    Nvm,
    /// Memory namespaces, whose sizes are in bytes.
    Mem,
}

/// The kind of a line, by its words.
#[derive(Clone, Copy, Debug, PartialEq, Eq)]
pub enum LineKind {
    /// The first line, with the block's size, the number of queues in version 2, their depth and the largest
    /// budget.
    Header(Version),
    /// A namespace and its size.
    Namespace(SpaceKind),
    /// The beginning of a phase.
    Phase,
    /// The beginning of what a host does in the phase.
    Host,
    /// A command that the host sends, under an identifier of this version.
    Send(Version, CommandWord),
    /// A reply that the host takes, by an identifier of this version.
    Take(Version),
    /// Bytes of a namespace that are shown at the end.
    Show(SpaceKind),
}

/// A line of which the words are read: its kind, the text of the identifier where it sends a command, and
/// the text of the fields behind them, where there are any.
#[derive(Clone, Copy, Debug)]
pub struct CutLine<'a> {
    pub kind: LineKind,
    pub identifier: Option<&'a [u8]>,
    pub rest: Option<&'a [u8]>,
}

const TAKE: Field = Field::Word(b"take");

const SHOW: Field = Field::Word(b"show");

const NVM: Field = Field::Word(b"nvm");

const MEM: Field = Field::Word(b"mem");

pub const AT: Field = Field::Number(b"at=", 0, MAX_64);

const HEADER: Field = Field::Word(b"nvmecp");

const SPACE: Field = Field::Number(b"", 1, NAMESPACES as u64);

const SHOWN: Field = Field::Number(b"len=", 1, MAX_TRANSFER);

const BLOCK: Field = Field::Number(b"block=", 0, MAX_64);

pub const CID: Field = Field::Number(b"", 0, MAX_CID);

pub const QUEUED: Field = Field::Identifier(b"");

/// The field of the identifier of a command that is sent.
pub fn identifier_field(version: Version) -> Field
    ensures { field_view result ≡ identifier_field version [] }
{
    match version {
        Version::One => CID,
        Version::Two => QUEUED,
    }
}

impl LineKind {
    /// The kind of a line of a script of this version. The cause is `Word` where one of its words is none, and `Field` where it is
    /// missing.
    pub fn cut(version: Version, line: &[u8]) -> Result<CutLine, TextCause>
        ensures kind { changed (λ cut. cut.kind) result ≡ kind_of version (parts_between 32 line.now) }
        ensures rest { IfOk result
            (λ cut. read_fields (fields_of cut.kind) (parts_between 32 line.now) ≡ read_rest cut) }
    {
        let (word, rest) = split_part(line, b' ');
        if word == b"nvmecp".as_slice() {
            Ok(cut_behind(LineKind::Header(stated_version(rest)), rest))
        } else if word == b"nvm".as_slice() {
            Ok(cut_behind(LineKind::Namespace(SpaceKind::Nvm), rest))
        } else if word == b"mem".as_slice() {
            Ok(cut_behind(LineKind::Namespace(SpaceKind::Mem), rest))
        } else if word == b"phase".as_slice() {
            Ok(cut_behind(LineKind::Phase, rest))
        } else if word == b"host".as_slice() {
            Ok(cut_behind(LineKind::Host, rest))
        } else if word == b"send".as_slice() {
            cut_send(version, rest)
        } else if word == b"take".as_slice() {
            Ok(cut_behind(LineKind::Take(version), rest))
        } else if word == b"show".as_slice() {
            cut_show(rest)
        } else {
            Err(TextCause::Word)
        }
    }

    /// The version of the identifier of a line that sends a command; version 1 of every other line.
    pub fn version(self) -> Version
        ensures { result ≡ version_of self }
    {
        match self {
            LineKind::Send(version, _) => version,
            LineKind::Header(_)
            | LineKind::Namespace(_)
            | LineKind::Phase
            | LineKind::Host
            | LineKind::Take(_)
            | LineKind::Show(_) => Version::One,
        }
    }

    /// The fields that are read when the kind is known.
    pub fn fields_behind(self) -> &'static [Field]
        ensures { map field_view result.now ≡ fields_behind self }
    {
        let fields = self.fields();
        &fields[self.known_fields()..]
    }

    // How many fields are read before the kind is known.
    fn known_fields(self) -> usize
        ensures number { result ≡ known_fields self }
        ensures some { result ≤ length (fields_of self) }
    {
        match self {
            LineKind::Send(_, _) => 3,
            LineKind::Show(_) => 2,
            LineKind::Header(_)
            | LineKind::Namespace(_)
            | LineKind::Phase
            | LineKind::Host
            | LineKind::Take(_) => 1,
        }
    }

    /// The fields of a line in their order, with the limits of what they say.
    pub fn fields(self) -> &'static [Field]
        ensures fields { map field_view result.now ≡ fields_of self }
        ensures some { 0 < length result.now }
    {
        match self {
            LineKind::Header(version) => header_fields(version),
            LineKind::Namespace(SpaceKind::Nvm) => {
                &[NVM, SPACE, Field::Number(b"blocks=", 1, MAX_NAMESPACE)]
            }
            LineKind::Namespace(SpaceKind::Mem) => {
                &[MEM, SPACE, Field::Number(b"bytes=", 1, MAX_NAMESPACE)]
            }
            LineKind::Phase => &[Field::Word(b"phase")],
            LineKind::Host => &[
                Field::Word(b"host"),
                Field::Number(b"", 1, MAX_HOSTS as u64),
            ],
            LineKind::Send(version, word) => send_fields(version, word),
            LineKind::Take(Version::One) => &[TAKE, CID],
            LineKind::Take(Version::Two) => &[TAKE, QUEUED],
            LineKind::Show(SpaceKind::Nvm) => &[SHOW, NVM, SPACE, AT, SHOWN],
            LineKind::Show(SpaceKind::Mem) => &[SHOW, MEM, SPACE, AT, SHOWN],
        }
    }
}

// The fields of a header, in their order.
fn header_fields(version: Version) -> &'static [Field]
    ensures fields { map field_view result.now ≡ fields_of (line_kind.Header version) }
    ensures some { 0 < length result.now }
{
    match version {
        Version::One => &[
            HEADER,
            Field::Word(b"1"),
            BLOCK,
            Field::Number(b"depth=", 1, VERSION_1.depth),
            Field::Number(b"budget=", 1, VERSION_1.budget),
        ],
        Version::Two => &[
            HEADER,
            Field::Word(b"2"),
            BLOCK,
            Field::Number(b"queues=", 1, VERSION_2.queues),
            Field::Number(b"depth=", 1, VERSION_2.depth),
            Field::Number(b"budget=", 1, VERSION_2.budget),
        ],
    }
}

// A line of this kind, of which only the words in front are read.
fn cut_behind(kind: LineKind, rest: Option<&[u8]>) -> CutLine
    ensures { result ≡ record { kind = kind; identifier = None; rest = rest.entry } }
{
    CutLine {
        kind,
        identifier: None,
        rest,
    }
}

// The version that a header states, by what stands behind its first field.
fn stated_version(rest: Option<&[u8]>) -> Version
    ensures { line_kind.Header result ≡ header_kind (parts_in 32 (option_map (λ text. text.now) rest.entry)) }
{
    let Some(fields) = rest else {
        return Version::One;
    };
    let (number, _) = split_part(fields, b' ');
    if number == b"2".as_slice() {
        Version::Two
    } else {
        Version::One
    }
}

// A send line, by what stands behind its first field.
#[tactic(auto, using(crate::proofs::Heads::send_rest))]
fn cut_send(version: Version, rest: Option<&[u8]>) -> Result<CutLine, TextCause>
    ensures kind { changed (λ cut. cut.kind) result
        ≡ send_kind version (parts_in 32 (option_map (λ text. text.now) rest.entry)) }
    ensures rest { IfOk result
        (λ cut. read_fields (fields_of cut.kind) (codes "send" ∷ parts_in 32 (option_map (λ text. text.now) rest.entry)) ≡ read_rest cut) }
{
    let Some(fields) = rest else {
        return Err(TextCause::Field);
    };
    let (identifier, rest) = split_part(fields, b' ');
    let Some(fields) = rest else {
        return Err(TextCause::Field);
    };
    let (text, rest) = split_part(fields, b' ');
    match CommandWord::of(text) {
        Some(word) => Ok(CutLine {
            kind: LineKind::Send(version, word),
            identifier: Some(identifier),
            rest,
        }),
        None => Err(TextCause::Word),
    }
}

// A show line, by what stands behind its first field.
#[tactic(auto, using(crate::proofs::Heads::word_first, crate::proofs::Heads::nothing_first))]
fn cut_show(rest: Option<&[u8]>) -> Result<CutLine, TextCause>
    ensures kind { changed (λ cut. cut.kind) result
        ≡ show_kind (parts_in 32 (option_map (λ text. text.now) rest.entry)) }
    ensures rest { IfOk result
        (λ cut. read_fields (fields_of cut.kind) (codes "show" ∷ parts_in 32 (option_map (λ text. text.now) rest.entry)) ≡ read_rest cut) }
{
    let Some(fields) = rest else {
        return Err(TextCause::Field);
    };
    let (space, rest) = split_part(fields, b' ');
    if space == b"nvm".as_slice() {
        Ok(cut_behind(LineKind::Show(SpaceKind::Nvm), rest))
    } else if space == b"mem".as_slice() {
        Ok(cut_behind(LineKind::Show(SpaceKind::Mem), rest))
    } else {
        Err(TextCause::Word)
    }
}
