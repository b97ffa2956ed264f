//! The lines of a text.
#![tactic(auto)]

mod laws;
mod line;

pub use laws::one_list_of_lines;
pub use line::next_line;

#[cfg(test)]
mod tests;
