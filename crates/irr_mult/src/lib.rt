//! The parts of representations of space groups: how often the full representation of each small one stands in one.
#![tactic(auto)]

mod characters;
mod comparison;
mod dimension;
mod equivalents;
mod error;
mod lifting;
mod listing;
mod ordered;
mod part;
mod star;
mod stars;

pub use characters::{
    characters_at, complete_list, little_table, small_characters, star_characters,
};
pub use comparison::is_same;
pub use dimension::multiplicity;
pub use equivalents::places_of;
pub use error::WorkError;
pub use irr_memory::Memory;
pub use listing::{all_parts, push_parts};
pub use part::{PairParts, Part, RepParts};
pub use star::{SmallCharacter, StarCharacters};
pub use stars::representatives;

#[cfg(test)]
mod tests;
