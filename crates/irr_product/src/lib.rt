//! Direct products of the full representations at two wave vectors, and their text.
#![tactic(auto)]

mod meetings;
mod orders;
mod pairs;
mod products;
mod rows;
mod sums;
mod text;

pub use irr_mult::{Memory, PairParts, Part, WorkError};
pub use orders::pair_order;
pub use products::product;
pub use rows::part_row;
pub use sums::arm_sums;
pub use text::{push_parts, text_product};
