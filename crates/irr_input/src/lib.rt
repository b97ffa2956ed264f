//! What a user hands in: the words of a command, and the lines of an input.
#![tactic(auto)]

mod arguments;
mod form;
mod input;
mod keyword;
mod laws;
mod lines;
mod point;
mod section;
mod subgroup;
mod verb;
mod words;

pub use form::Form;
pub use input::{GenLine, Input, InputError, Reason, SubSpec, read_input};
pub use laws::{bytes_mean_one_input, words_mean_one_command};
pub use words::{Command, Usage, read_words};

#[cfg(test)]
mod tests;
