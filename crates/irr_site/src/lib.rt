//! The representations that the sites of a point bring to a wave vector: those that representations of its site group
//! induce, and that of the displacements of atoms there (R. A. Evarestov and V. P. Smirnov, Site Symmetry in Crystals;
//! Bradley and Cracknell, section 3.7).
#![tactic(auto)]

mod answer;
mod characters;
mod coordinates;
mod listing;
mod operations;
mod orbits;
mod part;
mod products;
mod rest;
mod rests;
mod table;
mod traces;

pub use answer::site;
pub use irr_memory::Memory;
pub use irr_mult::WorkError;
pub use part::{SiteParts, Sites, SmallPart};

#[cfg(test)]
mod tests;
