// The exponent of the rotations of a group.
ghost use Rattle.std.specs.Prelude.{ℕ, ◌≡◌, ◌<◌, ◌≤◌, ◌↔◌, IsTrue};
ghost use Rattle.std.specs.List.{All};
ghost use Rattle.irr_algebra.specs.Matrix.{unit};
ghost use Rattle.irr_number.specs.Integers.{integers};
ghost use Rattle.irr_theory.specs.Extension.{matrix_power};
ghost use Rattle.irr_seitz.specs.Rotation.{IsWithin};
ghost use Rattle.irr_seitz.specs.OperationMeaning.{operation};
ghost use Rattle.irr_close.specs.Exponent.{HaveSmallPowers, Return, IsLeastReturn};

use irr_seitz::Op;

// Whether the n-th power of the rotation is the unit.
fn returns(op: &Op, n: u32) -> bool
    requires positive { 0 < n }
    requires powers { (k : ℕ) → IsWithin 9 (matrix_power (operation op.now).rotation k) }
    ensures { IsTrue result ↔ (matrix_power (operation op.now).rotation n ≡ unit integers 3) }
{
    match op.finite_order(n) {
        Some(order) => n % order == 0,
        None => false,
    }
}

// Whether the n-th power of each rotation is the unit.
fn all_return(ops: &[Op], n: u32) -> bool
    requires positive { 0 < n }
    requires powers { HaveSmallPowers ops.now }
    ensures { IsTrue result ↔ Return ops.now n }
{
    for op in ops {
        if !returns(op, n) {
            return false;
        }
    }
    true
}

/// The least positive power that is the unit for each rotation.
pub fn exponent(ops: &[Op]) -> u32
    requires powers { HaveSmallPowers ops.now }
    requires some { (h : ℕ) × (0 < h) × (h ≤ 48) × Return ops.now h }
    ensures least { IsLeastReturn ops.now result }
    ensures small { result ≤ 48 }
{
    let mut n = 1;
    while !all_return(ops, n) {
        n += 1;
    }
    n
}
