//! Space group operations (R|v) in the Seitz notation, exact: products, inverses, orders of rotations.
#![tactic(auto)]

mod op;
mod phase;
mod rotation;

pub use op::Op;
pub use phase::Phase;

#[cfg(test)]
mod tests;
