//! Subgroups of a space group in a setting of their own, and restriction to them.
#![tactic(auto)]

mod entries;
mod error;
mod images;
mod meetings;
mod orders;
mod restrictions;
mod rows;
mod sub;
mod subgroups;
mod text;
mod waves;

pub use error::SubError;
pub use irr_mult::{Memory, Part, RepParts, WorkError};
pub use irr_setting::Setting;
pub use orders::order_at;
pub use restrictions::subduce;
pub use sub::Sub;
pub use subgroups::subgroup;
pub use text::text_subduce;

#[cfg(test)]
mod tests;
