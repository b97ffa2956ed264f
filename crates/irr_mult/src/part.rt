// Parts of representations.
use irr_kvec::Wave;

/// A full representation that stands in another one: the representative of its star, the label of its small
/// representation in the canonical order there, from 1, how often it stands there, and its number of rows.
#[derive(Clone, Copy, Debug)]
pub struct Part {
    pub wave: Wave,
    pub label: u32,
    pub mult: u32,
    pub dim: u32,
}

/// The parts of a representation with a label.
#[derive(Debug, Drop)]
pub struct RepParts {
    pub label: u32,
    pub dim: u32,
    pub parts: Vec<Part>,
}

/// The parts of the direct product of two representations with the labels a and b.
#[derive(Debug, Drop)]
pub struct PairParts {
    pub a: u32,
    pub b: u32,
    pub dim: u32,
    pub parts: Vec<Part>,
}
