//! The text of the full representations at a wave vector.
#![tactic(auto)]

mod blocks;
mod generating;
mod laws;
mod lines;
mod numbers;
mod representations;
mod text;

pub use generating::generators;
pub use irr_memory::Memory;
pub use laws::{
    contents_of_complete_lists, contents_of_generated_groups, full_representations_of_lists,
    printed_stars,
};
pub use text::text_full;
