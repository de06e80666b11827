//! How an execution ends.

/// How the execution of a program ends. Each fault names the place of the instruction that caused it,
/// the number of units of code before it. The faults are this project's own.
#[derive(Clone, Copy, Debug, PartialEq, Eq)]
pub enum End {
    /// The program has returned, with this value in R0 (RFC 9669, section 4.3).
    Exit(u64),
    /// An access to memory that lies neither in one range nor in the stack.
    BadAccess(u32),
    /// No instruction starts at the next place.
    BadJump(u32),
    /// A local call in the deepest frame.
    CallDepth(u32),
    /// As many instructions were executed as the budget allows, and none of them ended the execution.
    BudgetSpent,
}
