//! Numbers of order N that keep only their terms: exponents with coefficients that are not 0, over one denominator.
#![tactic(auto)]

mod combinations;
mod lowest;
mod numbers;
mod parts;
mod terms;

pub use numbers::Sparse;
