//! The text of compatibility relations.
#![tactic(auto)]

mod lines;
mod rows;
mod text;

pub use irr_memory::Memory;
pub use text::text_compat;
