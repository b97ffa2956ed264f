//! The types of full representations: real, quaternionic or complex (Bradley and Cracknell, sections 4.6 and 7.6).
#![tactic(auto)]

mod laws;
mod places;
mod squares;
mod sums;
mod types;
mod waves;

pub use irr_memory::Memory;
pub use laws::{full_representations, short_entries_have_traces, stars_of_tables};
pub use types::reality;

#[cfg(test)]
mod tests;
