//! Squares of full representations, tensors, and their texts.
#![tactic(auto)]

mod doubles;
mod entries;
mod forms;
mod halves;
mod meetings;
mod orders;
mod parts;
mod returns;
mod rows;
mod squares;
mod targets;
mod tensors;
mod text;

pub use irr_input::Form;
pub use irr_mult::{Memory, Part, WorkError};
pub use orders::wave_order;
pub use parts::{SquareParts, TensorParts};
pub use squares::square;
pub use tensors::tensor;
pub use text::{text_square, text_tensor};

#[cfg(test)]
mod tests;
