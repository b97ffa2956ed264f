//! Eigenvalues of small representations, read off their characters.
#![tactic(auto)]

mod choice;
mod eigenvalues;
mod extensions;
mod place_powers;
mod positions;
mod powers;
mod products;
mod repeated;
mod sandwich;
mod solutions;
mod sums;
mod trace_sums;
mod turned;

pub use eigenvalues::eigen_exponents;
pub use extensions::choose;
pub use irr_memory::Memory;
