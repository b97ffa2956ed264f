//! Numbers of order N, for N up to a limit: the trait of the exact arithmetic, and the numbers that keep all coefficients.
#![tactic(auto)]

mod coefficients;
mod lowest;
mod orders;
mod polynomials;
mod reduction;
mod scalars;

pub use coefficients::Dense;
pub use irr_memory::Memory;
pub use orders::{ORDER_LIMIT, Order};
pub use scalars::{Canon, Lift, Scalar};
