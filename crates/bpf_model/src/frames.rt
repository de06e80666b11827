//! What a call of a local function saves.

/// What is saved of the calling function while a local function runs (RFC 9669, section 4.3.2).
#[derive(Clone, Copy, Debug, PartialEq, Eq)]
pub struct SavedFrame {
    /// The registers R6 to R10.
    pub registers: [u64; 5],
    /// The place that the call returns to, in units of code.
    pub return_place: u32,
}
