//! Texts of numbers and of bytes: which text is one, and how each is written; and texts cut at a byte.
#![tactic(auto)]

mod hexadecimal;
mod laws;
mod numbers;
mod parts;
mod pieces;
mod signed_numbers;

pub use hexadecimal::{append_hex, hex_bytes, push_hex};
pub use laws::{
    hex_examples, hex_laws, number_examples, number_laws, part_examples, part_laws,
    signed_examples, signed_laws,
};
pub use numbers::{append_number, number, push_number};
pub use parts::{next_line, split_part};
pub use pieces::push_piece;
pub use signed_numbers::{append_signed, push_signed, signed};
