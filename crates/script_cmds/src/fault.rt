// Why a text is no script.
ghost use Rattle.std.specs.Prelude.{◌≡◌};
ghost use Rattle.script_cmds.specs.declared.fault.ParseEnd.TheVariants as told;

use cp_base::NoMemory;
use script_line::TextCause;
use thiserror::Error;

/// The first faulty line of a text, counted from 1, and its first cause.
#[derive(Clone, Copy, Debug, PartialEq, Eq)]
pub struct ScriptFault {
    pub line: u32,
    pub cause: TextCause,
}

/// Why there is no script: the text is none, or memory was wanting.
#[derive(Clone, Copy, Debug, PartialEq, Eq, Error)]
pub enum ParseEnd {
    #[error("line {}: {}", .0.line, .0.cause)]
    Fault(ScriptFault),
    #[error("memory is wanting")]
    NoMemory,
}

impl From<NoMemory> for ParseEnd {
    ghost from_gives = { λ _ e. e ≡ told.NoMemory };

    fn from(_: NoMemory) -> ParseEnd {
        ParseEnd::NoMemory
    }
}
