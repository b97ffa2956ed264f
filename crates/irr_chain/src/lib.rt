//! Chains of normal subgroups, each of index 2 or 3 in the next.
#![tactic(auto)]

mod closure;
mod cyclic;
mod level;
mod marks;
mod quotient;
mod series;

pub use cyclic::levels_are_cyclic;
pub use series::{ChainError, Level, Series, chain};
