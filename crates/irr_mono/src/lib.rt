//! Monomial matrices: one power of z in each row and in each column. They are multiplied without a product of numbers.
#![tactic(auto)]

mod columns;
mod laws;
mod monomial;
#[cfg(test)]
mod tests;

pub use irr_memory::Memory;
pub use laws::{rows_and_powers_of_monomial_matrix, size_of_monomial_matrix};
pub use monomial::Mono;
