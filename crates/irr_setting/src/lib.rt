//! Changes of basis and origin: determinants, wave vectors and operations in another setting.
#![tactic(auto)]

mod images;
mod matrix;
mod narrowing;
mod quotient;
mod setting;
mod shift;

pub use images::image;
pub use setting::Setting;

#[cfg(test)]
mod tests;
