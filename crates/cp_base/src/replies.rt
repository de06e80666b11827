// What the device answers.
use crate::{ByteRange, Bytes};

/// The status of a command that was carried out or refused. This project's own words.
#[derive(Clone, Copy, Debug, PartialEq, Eq)]
pub enum Status {
    /// Carried out.
    Ok,
    /// A namespace that the command names does not exist.
    BadNamespace,
    /// A length is 0, or no whole number of blocks or units.
    BadLength,
    /// More bytes than one command may move.
    TooLong,
    /// A byte lies outside its namespace or program.
    OutOfRange,
    /// The destination of a copy shares a byte with a source.
    CopyOverlap,
    /// There are 255 sets already.
    SetTableFull,
    /// Two ranges of a set share a byte.
    RangeOverlap,
    /// There is no set of that number.
    NoSuchSet,
    /// A slot number is above 63.
    NoSuchSlot,
    /// Nothing is loaded in the slot.
    SlotEmpty,
    /// A byte of the program is missing.
    SlotPartial,
    /// No byte of the program is missing.
    SlotComplete,
    /// The program is active.
    SlotActive,
    /// The program is not active.
    SlotInactive,
    /// The slot holds a program of another size.
    SizeDiffers,
    /// A byte of the piece is loaded already.
    PieceOverlap,
    /// The program has a place that is no instruction. The result is that place.
    BadProgram,
    /// The budget is 0 or above the device's.
    BudgetRange,
    /// The program reached for bytes that it may not touch. The result is the instruction's place.
    BadAccess,
    /// The program went on where no instruction starts. The result is the instruction's place.
    BadJump,
    /// The program called itself too deep. The result is the instruction's place.
    CallDepth,
    /// The budget's instructions were executed and the program has not ended. The result is the budget.
    BudgetSpent,
    /// The device had no memory for the command, which changed nothing.
    NoMemory,
    /// The command was withdrawn before it was carried out, and changed nothing.
    Aborted,
}

/// The answer to a command: its status, a number, and the bytes that were read.
#[derive(Debug, Drop)]
pub struct Reply {
    pub status: Status,
    pub result: u64,
    pub bytes: Bytes,
}

/// The answer to a command that was refused: its status and a number.
#[derive(Clone, Copy, Debug, PartialEq, Eq)]
pub struct Refusal {
    pub status: Status,
    pub result: u64,
}

/// A range with its bytes.
#[derive(Debug, Drop)]
pub struct Piece {
    pub range: ByteRange,
    pub bytes: Bytes,
}
