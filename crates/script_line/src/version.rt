// The versions of scripts.
ghost use Rattle.std.specs.Prelude.{◌≡◌};
ghost use Rattle.script_line.specs.Versions.{limits_of};

use crate::limits::{ScriptLimits, VERSION_1, VERSION_2};

/// A version of scripts, as the header states it.
#[derive(Clone, Copy, Debug, PartialEq, Eq)]
pub enum Version {
    /// Each host has one queue.
    One,
    /// Each host has as many queues as the header says.
    Two,
}

impl Version {
    /// The limits of scripts of this version.
    pub fn limits(self) -> ScriptLimits
        ensures { result ≡ limits_of self }
    {
        match self {
            Version::One => VERSION_1,
            Version::Two => VERSION_2,
        }
    }
}
