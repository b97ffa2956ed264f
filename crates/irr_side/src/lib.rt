//! One wave vector's side of a product or a restriction: its star, the full representations of a complete list there, and
//! their traces, arm by arm.
#![tactic(auto)]

mod sides;
mod traces;

pub use sides::{Side, side_of};
pub use traces::{arm_rows, arm_trace, operations, tables};
