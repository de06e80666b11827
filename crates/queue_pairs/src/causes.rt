// Why a host's call is refused.

/// Why a command is not sent.
#[derive(Clone, Copy, Debug, PartialEq, Eq)]
pub enum SendCause {
    /// The device has taken as many commands as it was made for. A queue never says so.
    Spent,
    /// As many commands of the host are outstanding as may be.
    QueueFull,
    /// A command of the host is outstanding under the identifier.
    CidBusy,
}

/// Why there is no answer to take.
#[derive(Clone, Copy, Debug, PartialEq, Eq)]
pub enum TakeCause {
    /// The command is outstanding, and its answer is not posted yet.
    NotYet,
    /// No command of the host is outstanding under the identifier.
    NotOutstanding,
}
