//! Tables of phases in the program: the products and phases of a little group's operations modulo the
//! translations.
#![tactic(auto)]

mod cleared;
mod cycle;
mod defects;
mod family;
mod generators;
mod lists;
mod subgroup;
mod table;

pub use cycle::cycles_of_places;
pub use defects::first_defect;
pub use family::{Defect, Family, representations_at_own_order, traces_of_representations};
pub use lists::lists_of_tables;
pub use subgroup::restrictions_are_subtables;
pub use table::{PLACES_LIMIT, Twisted};
