//! Values at the edges of each width, worked out from the text of RFC 9669 and not by this code.

mod arithmetic;
mod comparisons;
mod memory;
