//! The text of a number: its printed form, and texts as they are read.
#![tactic(auto)]

mod denominator;
mod laws;
mod limits;
mod order;
mod print;
mod read;
mod scaled;
mod shape;
mod terms;
mod zero;

pub use laws::{printed_numbers_are_read, texts_read_in_one_way};
pub use limits::{COEFFICIENT_LIMIT, DENOMINATOR_LIMIT};
pub use print::print_number;
pub use read::{Measured, NumberError, read_measured, read_number};

#[cfg(test)]
mod tests;
