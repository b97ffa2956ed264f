//! Compatibility relations: how the small representations at the points of a line or a plane of wave vectors restrict to
//! the group of the line.
#![tactic(auto)]

mod laws;
mod line;
mod points;
mod reading;
mod relations;
mod table;
mod turns;

pub use irr_memory::Memory;
pub use laws::line_tables_have_steps;
pub use relations::compat;
pub use table::{LinePart, LineTable, PointRow};
