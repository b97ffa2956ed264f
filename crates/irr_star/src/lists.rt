// What a full representation keeps, and its blocks.
use irr_seitz::Op;

/// The product h_i g_p of the operation of an arm and the one of a place of the little group.
#[derive(Clone, Copy, Debug)]
pub struct Product {
    pub arm: u32,
    pub place: u32,
    pub op: Op,
}

/// The block of a full representation that is not 0 in a column of blocks: in the row `row` it is z^`exponent` times
/// the matrix of the small representation at `place`.
#[derive(Clone, Copy, Debug)]
pub struct Block {
    pub row: u32,
    pub place: u32,
    pub exponent: u32,
}
