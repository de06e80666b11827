//! What the operations of BPF instructions give: arithmetic, byte swaps, comparisons and atomic operations
//! (RFC 9669, sections 4 and 5.3), by the machine's own operations.
#![tactic(auto)]

mod atomic;
mod low;
mod narrow;
mod swap;
mod wide;

pub use atomic::atomic_new;
pub use narrow::{alu32, holds32};
pub use swap::byte_swap;
pub use wide::{alu64, holds64};
