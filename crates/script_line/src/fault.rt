// Why a text is no line of a script.
ghost use Rattle.std.specs.Prelude.{◌≡◌};
ghost use Rattle.script_line.specs.declared.fault.LineEnd.TheVariants as variant;
ghost use Rattle.script_line.specs.Reading.{first_of_two};

use cp_base::NoMemory;
use std::alloc::{AllocError, AllocFailed};
use thiserror::Error;

/// What is wrong with a line. Where several hold, the first of this order is told.
#[derive(Clone, Copy, Debug, PartialEq, Eq, Error)]
pub enum TextCause {
    /// A word that begins no line, command or show, or a line that is not ended.
    #[error("a word is none of those that may stand there, or the line is not ended")]
    Word,
    /// Fields are missing or too many, or one has not the form of its kind.
    #[error("a field is missing, is too many or has another form")]
    Field,
    /// What stands in the place of a number is none.
    #[error("a number is none")]
    Number,
    /// What stands in the place of data is none.
    #[error("data is none")]
    Hex,
    /// The line stands in the wrong place.
    #[error("the line stands in the wrong place")]
    Order,
    /// A value is outside its limit.
    #[error("a value is outside its limit")]
    Limit,
}

/// Why there is nothing of a line: a cause, or memory was wanting.
#[derive(Clone, Copy, Debug, PartialEq, Eq)]
pub enum LineEnd {
    Fault(TextCause),
    NoMemory,
}

impl From<NoMemory> for LineEnd {
    ghost from_gives = { λ _ e. e ≡ variant.NoMemory };

    fn from(_: NoMemory) -> LineEnd {
        LineEnd::NoMemory
    }
}

impl From<AllocError> for LineEnd {
    ghost from_gives = { λ _ e. e ≡ variant.NoMemory };

    fn from(_: AllocError) -> LineEnd {
        LineEnd::NoMemory
    }
}

impl<T: Drop> From<AllocFailed<T>> for LineEnd {
    ghost from_gives = { λ _ e. e ≡ variant.NoMemory };

    fn from(_: AllocFailed<T>) -> LineEnd {
        LineEnd::NoMemory
    }
}

impl TextCause {
    /// The first of two causes in the order in which they are told.
    pub fn first_of_two(self, other: TextCause) -> TextCause
        ensures { result ≡ first_of_two self other }
    {
        if self as u8 <= other as u8 {
            self
        } else {
            other
        }
    }
}
