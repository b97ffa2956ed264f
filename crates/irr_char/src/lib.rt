//! Characters of small representations: the laws on them, and their rows in canonical order, as they are labelled.
#![tactic(auto)]

mod characters;
mod forms;
mod laws;
mod numbers;
mod rows;

pub use characters::{average, character, whole_number};
pub use irr_memory::Memory;
pub use laws::{dimensions_of_intertwiners, simple_representations};
pub use rows::order_rows;
