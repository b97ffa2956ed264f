// The parts of the families of a site.
use irr_rat::Vec3;
use irr_seitz::Op;

/// A small representation that stands in a family: its label in the canonical order, from 1, how often it stands
/// there, and its number of rows.
#[derive(Clone, Copy, Debug)]
pub struct SmallPart {
    pub label: u32,
    pub mult: u32,
    pub dim: u32,
}

/// The parts of a family: that which the representation of the site group with a label induces, or that of the
/// displacements, where the label is 0. The number of rows of the family is `dim`.
#[derive(Debug, Drop)]
pub struct SiteParts {
    pub label: u32,
    pub dim: u32,
    pub parts: Vec<SmallPart>,
}

/// A site group and the sites of its point, with the parts of their families at a wave vector.
#[derive(Debug, Drop)]
pub struct Sites {
    /// The operations of the site group, in the order of their rotations.
    pub ops: Vec<Op>,
    /// The sites, each brought into the unit cell.
    pub points: Vec<Vec3>,
    /// For each representation of the site group, the parts of the family that it induces.
    pub induced: Vec<SiteParts>,
    /// The parts of the family of displacements.
    pub displace: SiteParts,
}
