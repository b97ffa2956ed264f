// Tables of compatibility relations.
use irr_cyc::Scalar;
use irr_rep::Twisted;

/// A small representation of a line group that stands in a restricted one: its label in the canonical order, from 1, how
/// often it stands there, and its number of rows.
#[derive(Clone, Copy, Debug)]
pub struct LinePart {
    pub label: u32,
    pub mult: u32,
    pub dim: u32,
}

/// A small representation at a point, from 0, with its label there, from 1, its number of rows, and its parts on the
/// line, by label.
#[derive(Debug, Drop)]
pub struct PointRow {
    pub point: u32,
    pub label: u32,
    pub dim: u32,
    pub parts: Vec<LinePart>,
}

/// The table of the line group of points, the numbers of rows and the characters of its small representations in
/// canonical order, and the parts of the small representations at each point, by point and label.
#[derive(Drop)]
pub struct LineTable<S: Scalar> {
    pub line: Twisted,
    pub dims: Vec<u32>,
    pub chars: Vec<Vec<S>>,
    pub rows: Vec<PointRow>,
}
