// The parts of squares and of tensors.
use irr_mult::Part;

/// The squares of the full representation with a label: how many rows the symmetric and the antisymmetric one have,
/// and the full representations that stand in them.
#[derive(Debug, Drop)]
pub struct SquareParts {
    pub label: u32,
    pub sym_dim: u32,
    pub anti_dim: u32,
    pub sym: Vec<Part>,
    pub anti: Vec<Part>,
}

/// The tensors of a form: their number of components, and the full representations that stand in them.
#[derive(Debug, Drop)]
pub struct TensorParts {
    pub dim: u32,
    pub parts: Vec<Part>,
}
