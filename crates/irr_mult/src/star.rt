// Small characters at the representatives of stars.
use irr_cyc::Scalar;
use irr_kvec::Wave;
use irr_rep::Twisted;

/// The number of rows of a small representation, and its character: the traces, by place.
#[derive(Drop)]
pub struct SmallCharacter<S: Scalar> {
    pub dim: u32,
    pub row: Vec<S>,
}

/// A star on which representations stand: its representative, the table of the little group there, the number of
/// arms, and the characters of the small representations there, in canonical order. All numbers have one order.
#[derive(Drop)]
pub struct StarCharacters<S: Scalar> {
    pub wave: Wave,
    pub table: Twisted,
    pub arms: u32,
    pub characters: Vec<SmallCharacter<S>>,
}
