// Laws of the texts of lines, and worked examples. The functions do nothing; their clauses are the laws.
ghost use Rattle.std.specs.Prelude.{◌≡◌, ℕ, ◌+◌, ◌^◌, List, true, Some, Ok, Err, codes};
ghost use Rattle.cp_base.specs.declared.commands.Command.{Command};
ghost use Rattle.cp_base.specs.declared.lists.Access.TheVariants as access;
ghost use Rattle.cp_text.specs.Parts.{lacks};
ghost use Rattle.script_line.specs.Field.{IsShaped, Queued};
ghost use Rattle.script_line.specs.Line.{Line, fields_of, identifier_value, line_text, send_line, take_line};
ghost use Rattle.script_line.specs.Reading.{line_of, read_queued, read_range};
ghost use Rattle.script_line.specs.Sized.{IsLine};
ghost use Rattle.script_line.specs.Values.{identifier_in};
ghost use Rattle.script_line.specs.Versions.{IsOfVersion};
ghost use Rattle.script_line.specs.declared.fault.TextCause.TheVariants as cause;
ghost use Rattle.script_line.specs.declared.limits.TheConstants.{MAX_32, MAX_64, MAX_CID, MAX_VALUE, QUEUE_CIDS, VERSION_1, VERSION_2};

use crate::Version;

/// In a script of a version a text is read as a line exactly where it is the one text of that line, which sends or takes
/// under an identifier of this version, if it does either. This text has no newline, and another line has another. A
/// command has a line, and so has a reply that is taken.
pub fn line_laws()
    ensures spelled_so { (version : Version) (text : List ℕ) (line : Line) → line_of version text ≡ Ok line
        → (line_text line ≡ text) × IsLine line × IsOfVersion version line.kind }
    ensures read_so { (version : Version) (line : Line) → IsLine line → IsOfVersion version line.kind
        → line_of version (line_text line) ≡ Ok line }
    ensures one_line { (version : Version) (a b : Line) → IsLine a → IsLine b → IsOfVersion version a.kind
        → IsOfVersion version b.kind
        → line_text a ≡ line_text b → a ≡ b }
    ensures no_newline { (line : Line) → IsLine line → lacks 10 (line_text line) ≡ true }
    ensures sent { (version : Version) (cid : ℕ) (command : Command)
        → IsShaped (fields_of (send_line version cid command).kind) (send_line version cid command).values }
    ensures taken { (version : Version) (cid : ℕ)
        → IsShaped (fields_of (take_line version cid).kind) (take_line version cid).values }
{}

/// Texts of a queue and an identifier in it, and the identifiers of the device that they say.
pub fn identifiers_by_example()
    ensures first { read_queued (codes "1:7") ≡ Ok (Queued 1 7) }
    ensures second { identifier_in (Some (Queued 2 7)) ≡ 65543 }
    ensures back { identifier_value Version.Two 65543 ≡ Queued 2 7 }
    ensures no_colon { read_queued (codes "7") ≡ Err cause.Field }
    ensures three { read_queued (codes "1:7:") ≡ Err cause.Field }
    ensures no_queue { read_queued (codes ":7") ≡ Err cause.Number }
    ensures leading_zero { read_queued (codes "01:7") ≡ Err cause.Number }
{}

/// Texts of ranges: read-write, read only, and forms that are neither.
pub fn range_examples()
    ensures both { read_range (codes "1:0:8") ≡ Ok (record { ns = 1; at = 0; len = 8; access = access.ReadWrite }) }
    ensures read { read_range (codes "1:0:8:r") ≡ Ok (record { ns = 1; at = 0; len = 8; access = access.ReadOnly }) }
    ensures write { read_range (codes "1:0:8:w") ≡ Err cause.Field }
    ensures nothing { read_range (codes "1:0:8:") ≡ Err cause.Field }
    ensures long { read_range (codes "1:0:8:rr") ≡ Err cause.Field }
    ensures five { read_range (codes "1:0:8:r:") ≡ Err cause.Field }
    ensures short { read_range (codes "1:0") ≡ Err cause.Field }
    ensures no_number { read_range (codes "1:0:08:r") ≡ Err cause.Number }
    ensures form_first { read_range (codes "1:0:08:w") ≡ Err cause.Field }
{}

/// The values of the limits.
pub fn limits_by_example()
    ensures cid { MAX_CID ≡ 65535 }
    ensures queue { QUEUE_CIDS ≡ MAX_CID + 1 }
    ensures value { MAX_VALUE ≡ 255 }
    ensures small { MAX_32 + 1 ≡ 2 ^ 32 }
    ensures large { MAX_64 + 1 ≡ 2 ^ 64 }
    ensures version_1 { VERSION_1
        ≡ record { bytes = 33554432; sends = 16384; phases = 1024; shows = 1024; queues = 1; depth = 256; outstanding = 256; budget = 10000000 } }
    ensures version_2 { VERSION_2
        ≡ record { bytes = 33554432; sends = 65536; phases = 4096; shows = 4096; queues = 16; depth = 1024; outstanding = 4096; budget = 100000000 } }
{}
