//! Runs of decimal digits, as all readers of texts take them, and laws of the printed forms of whole numbers.
//! A digit is one of the bytes `0` to `9`. Nothing here allocates.
#![tactic(auto)]

mod laws;
mod runs;

pub use laws::{decimal_digits, unique_numbers};
pub use runs::{capped_value, digit_run};

#[cfg(test)]
mod tests;
