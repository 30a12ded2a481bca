//! Texts: lines, the words of a line, and numbers in decimal.
//! `specs/Lines.antt`, `specs/Words.antt` and `specs/Decimals.antt` say what these are.
#![tactic(auto)]

mod decimal;
mod parts;
mod print;
#[cfg(test)]
mod tests;

pub use decimal::{number_prefix, read_decimal, read_number};
pub use parts::{count_lines, cut, first_line};
pub use print::{prepend_bytes, prepend_number, prepend_wide_number, print_number};
