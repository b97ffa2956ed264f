//! The full representation that a small one of a little group induces (Bradley and Cracknell, sections 3.7 and 3.8).
#![tactic(auto)]

mod copies;
mod full;
mod induction;
mod laws;
mod listing;
mod lists;
mod matrices;
mod shifts;
mod traces;

pub use full::{Full, has_small_vector};
pub use induction::induce;
pub use irr_memory::Memory;
pub use laws::{
    blocks_of_full_representations, full_representations_of_groups, limits_of_arms,
    operations_of_equal_groups, sizes_of_full_representations, stars_of_lists,
};
pub use lists::Block;
pub use traces::arm_part;

#[cfg(test)]
mod tests;
