//! Verdicts on reports of small representations: whether a report has the right order, operations and
//! characters, and a complete list of representations, or what is wrong first.
#![tactic(auto)]

mod families;
mod fault;
mod laws;
mod operations;
mod pairs;
mod report;
mod verdict;

pub use irr_memory::Memory;
pub use laws::{a_yes_is_complete, one_verdict_on_a_report, verdicts_as_they_are_meant};
pub use report::check;
pub use verdict::{CheckError, Clause, Verdict};

#[cfg(test)]
mod tests;
