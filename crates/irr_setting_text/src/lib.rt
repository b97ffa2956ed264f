//! The lines of a setting, a change of basis and origin: how they are written and read.
#![tactic(auto)]

mod laws;
mod places;
mod read;
mod row;
mod shape;
mod values;

pub use laws::setting_lines_mean_one;
pub use read::{BASIS_LIMIT, Basis, ORIGIN_LIMIT, SettingError, read_basis, read_origin};

#[cfg(test)]
mod tests;
