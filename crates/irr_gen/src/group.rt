// The groups of made inputs, and their generators.
ghost use Rattle.std.specs.Prelude.{◌≡◌, ◌%◌, IfOk, map};
ghost use Rattle.std.specs.List.{All};
ghost use Rattle.irr_seitz.specs.OperationMeaning.{operation};
ghost use Rattle.irr_gen.specs.Groups.{group_of, generators};
ghost use Rattle.irr_gen.specs.Signed.{IsSigned};
ghost use Rattle.irr_gen.specs.declared.group.SpaceGroup.TheVariants.{Orthorhombic, BodyCentred, Cubic, Diamond};

use crate::symmetry::Axis::{MinusX, MinusY, MinusZ, X, Y, Z};
use crate::symmetry::symmetry;
use irr_memory::Memory;
use irr_seitz::Op;
use std::alloc::Global;

/// The space groups of made inputs: P2_12_12_1, I2_13, Pm-3m and Fd-3m.
#[derive(Clone, Copy, Debug, PartialEq, Eq)]
pub(crate) enum SpaceGroup {
    Orthorhombic,
    BodyCentred,
    Cubic,
    Diamond,
}

/// The group of the input of a number.
pub(crate) fn group_of(n: u32) -> SpaceGroup
    ensures { result ≡ group_of (n % 4) }
{
    let place = n % 4;
    if place == 0 {
        return SpaceGroup::Orthorhombic;
    }
    if place == 1 {
        return SpaceGroup::BodyCentred;
    }
    if place == 2 {
        return SpaceGroup::Cubic;
    }
    SpaceGroup::Diamond
}

/// The generators of a group.
pub(crate) fn generators(alloc: Global, group: SpaceGroup) -> Result<Vec<Op>, Memory>
    ensures are { IfOk result (λ gs. map operation gs.items ≡ generators group) }
    ensures signed { IfOk result (λ gs. All IsSigned gs.items) }
{
    match group {
        SpaceGroup::Orthorhombic => orthorhombic(alloc),
        SpaceGroup::BodyCentred => body_centred(alloc),
        SpaceGroup::Cubic => cubic(alloc),
        SpaceGroup::Diamond => diamond(alloc),
    }
}

// P2_12_12_1.
fn orthorhombic(alloc: Global) -> Result<Vec<Op>, Memory>
    ensures are { IfOk result (λ gs. map operation gs.items ≡ generators Orthorhombic) }
    ensures signed { IfOk result (λ gs. All IsSigned gs.items) }
{
    let mut made = Vec::new(alloc);
    made.push(symmetry(X, MinusY, MinusZ, [2, 2, 0]))?;
    made.push(symmetry(MinusX, Y, MinusZ, [0, 2, 2]))?;
    Ok(made)
}

// I2_13.
fn body_centred(alloc: Global) -> Result<Vec<Op>, Memory>
    ensures are { IfOk result (λ gs. map operation gs.items ≡ generators BodyCentred) }
    ensures signed { IfOk result (λ gs. All IsSigned gs.items) }
{
    let mut made = Vec::new(alloc);
    made.push(symmetry(X, Y, Z, [2, 2, 2]))?;
    made.push(symmetry(MinusX, MinusY, Z, [2, 0, 2]))?;
    made.push(symmetry(MinusX, Y, MinusZ, [0, 2, 2]))?;
    made.push(symmetry(Z, X, Y, [0, 0, 0]))?;
    Ok(made)
}

// Pm-3m.
fn cubic(alloc: Global) -> Result<Vec<Op>, Memory>
    ensures are { IfOk result (λ gs. map operation gs.items ≡ generators Cubic) }
    ensures signed { IfOk result (λ gs. All IsSigned gs.items) }
{
    let mut made = Vec::new(alloc);
    made.push(symmetry(MinusY, X, Z, [0, 0, 0]))?;
    made.push(symmetry(Z, X, Y, [0, 0, 0]))?;
    made.push(symmetry(MinusX, MinusY, MinusZ, [0, 0, 0]))?;
    Ok(made)
}

// Fd-3m.
fn diamond(alloc: Global) -> Result<Vec<Op>, Memory>
    ensures are { IfOk result (λ gs. map operation gs.items ≡ generators Diamond) }
    ensures signed { IfOk result (λ gs. All IsSigned gs.items) }
{
    let mut made = Vec::new(alloc);
    made.push(symmetry(X, Y, Z, [0, 2, 2]))?;
    made.push(symmetry(X, Y, Z, [2, 0, 2]))?;
    made.push(symmetry(MinusX, MinusY, Z, [3, 1, 2]))?;
    made.push(symmetry(MinusX, Y, MinusZ, [1, 2, 3]))?;
    made.push(symmetry(Z, X, Y, [0, 0, 0]))?;
    made.push(symmetry(Y, X, MinusZ, [3, 1, 2]))?;
    made.push(symmetry(MinusX, MinusY, MinusZ, [0, 0, 0]))?;
    Ok(made)
}
