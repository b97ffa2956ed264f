// The squares of canonical operations.
ghost use Rattle.std.specs.Prelude.{◌≡◌, ◌<◌, ◌≤◌, ◌^◌, length, slice_index, Contains};
ghost use Rattle.std.specs.Int.{◌∣◌};
ghost use Rattle.irr_algebra.specs.Matrix.{◌⊖◌};
ghost use Rattle.irr_rat.specs.VectorMeaning.{vector, Fits};
ghost use Rattle.irr_seitz.specs.OperationMeaning.{operation, AreWithin};
ghost use Rattle.irr_kvec.specs.WaveMeaning.{wave_vector};
ghost use Rattle.irr_kvec.specs.Centrings.{IsWithinLimits};
ghost use Rattle.irr_cyc.specs.declared.orders.TheConstants.{ORDER_LIMIT};
ghost use Rattle.irr_rep.specs.Twisted.{operation_places, phase_table, place_count};
ghost use Rattle.irr_little.specs.Products.{IsProduct};
ghost use Rattle.irr_little.specs.Table.{IsLittleTable};
ghost use Rattle.irr_real.specs.Places.{IsReversingPlace};
ghost use Rattle.irr_real.specs.Squares.{IsSquareAt};

use irr_close::Group;
use irr_kvec::Wave;
use irr_little::theta;
use irr_rat::Vec3;
use irr_rep::Twisted;
use irr_seitz::Op;

/// A translation times the canonical operation with a number.
#[derive(Clone, Copy)]
struct Shifted {
    op: u32,
    shift: Vec3,
}

/// D(g g) as z^`exponent` times the matrix at `place`.
#[derive(Clone, Copy)]
pub(crate) struct PhasedPlace {
    pub place: u32,
    pub exponent: u32,
}

// The square of the canonical operation with a number.
fn doubled(group: &Group, i: usize) -> Shifted
    requires { i < length group.now.ops.items }
    ensures product { IsProduct group.now i i result.op (vector result.shift) }
    ensures small { AreWithin (10 ^ 12) result.shift.num }
{
    let ops = group.ops();
    let both = ops[i].compose(&ops[i]);
    let op = group.canonical(&both.rot).unwrap();
    let place = op as usize;
    let shift = difference(&both, &ops[place]);
    Shifted { op, shift }
}

// The difference of the vectors of two operations.
fn difference(g: &Op, h: &Op) -> Vec3
    requires { Fits ((operation g.now).vector ⊖ (operation h.now).vector) }
    ensures { vector result ≡ (operation g.now).vector ⊖ (operation h.now).vector }
{
    shift(g).sub(&shift(h))
}

fn shift(op: &Op) -> Vec3
    ensures { vector result ≡ (operation op.now).vector }
{
    let num = op.num;
    Vec3 { num, den: op.den }
}

// The first place of the table whose operation has this number.
fn place_of(t: &Twisted, number: u32) -> u32
    requires { Contains (operation_places t.now) number }
    ensures within { result < place_count t.now }
    ensures number { slice_index (operation_places t.now) result ≡ number }
{
    for place in 0..t.len() {
        if t.place(place) == number {
            return place;
        }
    }
    unreachable!()
}

/// The square of the canonical operation with the number `place`, which carries k to a vector equivalent to -k; z has
/// the order n.
pub(crate) fn square(group: &Group, k: &Wave, t: &Twisted, n: u32, place: usize) -> PhasedPlace
    requires limits { IsWithinLimits k.now }
    requires table { IsLittleTable group.now (wave_vector k.now) (operation_places t.now) (phase_table t.now) }
    requires divides { (phase_table t.now).order ∣ n }
    requires positive { 0 < n }
    requires within { n ≤ ORDER_LIMIT }
    requires place { place < length group.now.ops.items }
    requires reverses { IsReversingPlace group.now (wave_vector k.now) place }
    ensures place { result.place < place_count t.now }
    ensures exponent { result.exponent < n }
    ensures square { IsSquareAt group.now (wave_vector k.now) t.now n place result.place result.exponent }
{
    let both = doubled(group, place);
    let exponent = theta(group, n, k, &both.shift);
    PhasedPlace {
        place: place_of(t, both.op),
        exponent,
    }
}
