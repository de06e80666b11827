// How a run of the program ends.
ghost use Rattle.std.specs.Prelude.{◌≡◌};
ghost use Rattle.nvmecp.specs.Ends.{status_of};

/// How a run ended.
#[derive(Clone, Copy, Debug, PartialEq, Eq)]
pub enum Ending {
    /// The whole text is written.
    Done,
    /// The words ask for nothing that the program does.
    Usage,
    /// The input is refused, and a line that tells it is written.
    Refused,
    /// What the input says does not hold, and a line that tells it is written.
    Denied,
    /// The source failed, and nothing is written.
    ReadFault,
    /// The sink failed.
    WriteFault,
    /// Memory is wanting, and nothing is written.
    NoMemory,
}

impl Ending {
    /// The status of the program.
    pub fn status(self) -> u8
        ensures { result ≡ status_of self }
    {
        match self {
            Ending::Done => 0,
            Ending::Usage => 1,
            Ending::Refused => 2,
            Ending::ReadFault => 3,
            Ending::WriteFault => 4,
            Ending::NoMemory => 5,
            Ending::Denied => 6,
        }
    }
}
