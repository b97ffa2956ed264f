//! Made inputs: the generators of a space group, followed by products of earlier lines that a number draws.
#![tactic(auto)]

mod drawing;
mod group;
mod laws;
mod lines;
mod made;
mod symmetry;
mod waves;

pub use irr_memory::Memory;
pub use laws::one_made_input;
pub use made::{Made, make};
pub use waves::made_wave;

#[cfg(test)]
mod tests;
