//! Coordinate triplets: the texts of an operation, and its printed form.
#![tactic(auto)]

mod component;
mod laws;
mod print;
mod reading;
mod shape;
mod slots;
mod term;
mod values;
mod written;

pub use laws::{one_operation_is_written, printed_triplets_are_read, unique_triplets};
pub use print::print_triplet;
pub use reading::{COEFFICIENT_LIMIT, TripletError, read_triplet};

#[cfg(test)]
mod tests;
