//! A complete list of small representations of a table of phases: up a chain of subgroups, from the unit.
#![tactic(auto)]

mod climb;
mod complete;
mod extensions;
mod families;
mod induced;
mod laws;
mod order;
mod splits;
mod step;
mod turns;

pub use complete::{ClimbError, small_reps};
pub use irr_memory::Memory;
pub use laws::numbers_over_less_denominators;
