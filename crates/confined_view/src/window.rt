//! Windows.
use cp_base::Bytes;

/// The bytes of a range, and what a program may do with them.
#[derive(Debug, Drop)]
pub struct Window {
    /// The bytes of the range, in order.
    pub bytes: Bytes,
    /// Whether a program may store into them; it may load them in any case.
    pub writable: bool,
}
