// The names of statuses.
ghost use Rattle.std.specs.Prelude.{◌≡◌, ◌≤◌, length};
ghost use Rattle.history_model.specs.Text.{status_text};

use cp_base::Status;

/// The name of a status, as it stands in a history.
pub fn status_name(status: Status) -> &'static str
    ensures text { result.now ≡ status_text status }
    ensures short { length result.now ≤ 12 }
{
    match status {
        Status::Ok => "Ok",
        Status::BadNamespace => "BadNamespace",
        Status::BadLength => "BadLength",
        Status::TooLong => "TooLong",
        Status::OutOfRange => "OutOfRange",
        Status::CopyOverlap => "CopyOverlap",
        Status::SetTableFull => "SetTableFull",
        Status::RangeOverlap => "RangeOverlap",
        Status::NoSuchSet => "NoSuchSet",
        Status::NoSuchSlot => "NoSuchSlot",
        Status::SlotEmpty => "SlotEmpty",
        Status::SlotPartial => "SlotPartial",
        Status::SlotComplete => "SlotComplete",
        Status::SlotActive => "SlotActive",
        Status::SlotInactive => "SlotInactive",
        Status::SizeDiffers => "SizeDiffers",
        Status::PieceOverlap => "PieceOverlap",
        Status::BadProgram => "BadProgram",
        Status::BudgetRange => "BudgetRange",
        Status::BadAccess => "BadAccess",
        Status::BadJump => "BadJump",
        Status::CallDepth => "CallDepth",
        Status::BudgetSpent => "BudgetSpent",
        Status::NoMemory => "NoMemory",
        Status::Aborted => "Aborted",
    }
}
