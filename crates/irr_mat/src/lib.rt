//! Matrices of numbers of order N, over any exact arithmetic: sums, products, traces, Kronecker products, and
//! the rank of a projection.
#![tactic(auto)]

mod laws;
mod matrices;
mod ranks;
#[cfg(test)]
mod tests;

pub use irr_memory::Memory;
pub use laws::{length_of_spanning_list, sizes_of_matrices, trace_of_projection};
pub use matrices::Mat;
pub use ranks::projection_rank;
