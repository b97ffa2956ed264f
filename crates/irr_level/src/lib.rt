//! One level of a chain of a table of phases: the restriction to the smaller subgroup as a subgroup of that to the larger one, its
//! cyclic quotient, and that each family that is equivalent to its conjugate extends. So each table whose subgroups have steps has a
//! full list. The functions here state laws and do nothing.
#![tactic(auto)]

mod extension;
mod list;
mod quotient;
mod root;
mod subgroup;
mod traces;

pub use extension::extensions_exist;
pub use list::full_lists_exist;
pub use quotient::{last_level_is_whole, levels_are_cyclic_quotients};
pub use root::{phases_by_exponents, roots_of_scalars};
pub use subgroup::restrictions_are_subgroups;
pub use traces::traces_above_level;
