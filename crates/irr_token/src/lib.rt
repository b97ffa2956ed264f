//! Texts of tokens with blanks between: bytes and their kinds, blanks, and fractions as they are written.
#![tactic(auto)]

mod common;
mod faults;
mod kind;
mod laws;
mod read;

pub use common::{Value, over_least_denominator, value_of_quotient};
pub use faults::{DENOMINATOR_LIMIT, beyond_place, is_above, zero_place};
pub use kind::{Kind, kind_of_byte};
pub use laws::one_list_of_tokens;
pub use read::{
    Number, Quotient, Rest, begins_with, behind, behind_mark, front_number, front_quotient,
};
