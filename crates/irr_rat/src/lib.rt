//! Exact fractions, and vectors of three fractions over a common denominator.
#![tactic(auto)]

mod divisors;
mod fraction;
mod lowest;
mod ratio;
mod vec3;

pub use divisors::{gcd, lcm_checked};
pub use fraction::Fraction;
pub use lowest::lowest_terms;
pub use ratio::Ratio;
pub use vec3::Vec3;

#[cfg(test)]
mod tests;
