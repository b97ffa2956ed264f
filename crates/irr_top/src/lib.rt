//! The top call: words, an input and what is written.
#![tactic(auto)]

mod answer;
mod check;
mod compat;
mod full;
mod laws;
mod made;
mod product;
mod real;
mod refusal;
mod reply;
mod report;
mod request;
mod site;
mod small;
mod square;
mod star;
mod status;
mod subduce;
mod task;
mod tensor;
mod top;

pub use check::text_verdict;
pub use irr_check::{Clause, Verdict};
pub use irr_input::Reason;
pub use laws::{
    an_outcome_status_by_status, one_star_of_a_wave_vector, one_status_is_asked_for,
    yes_is_for_complete_reports,
};
pub use made::text_gen;
pub use refusal::text_refusal;
pub use star::text_star;
pub use status::{Kind, Status};
pub use top::run;

#[cfg(test)]
mod tests;
