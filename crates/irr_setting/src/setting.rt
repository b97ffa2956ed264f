// A setting: a change of basis and origin.
ghost use Rattle.std.specs.Prelude.{◌<◌};

use crate::matrix::{determinant, dot, wide};
use crate::narrowing::narrowed;
use irr_kvec::Wave;
use irr_rat::Vec3;

/// A change of basis and origin (P,p): the new basis is (a',b',c') = (a,b,c)P, and a point x is P x' + p (International Tables A, section
/// 1.5). `num` has the rows of P over the common denominator `den`, and `shift` is p.
#[derive(Clone, Copy, Debug)]
pub struct Setting {
    pub num: [[i64; 3]; 3],
    pub den: u32,
    pub shift: Vec3,
    pub ghost positive: { 0 < den },
}

impl Setting {
    ghost use Rattle.std.specs.Prelude.{ℕ, ◌≡◌, ◌<◌, ◌≤◌, ◌^◌, ◌*◌, ◌↔◌, IsTrue, unsigned_abs, pos, [], slice_index_or};
    ghost use Rattle.irr_algebra.specs.Fin.{Fin, to_nat};
    ghost use Rattle.irr_rational.specs.Ratio.{entry};
    ghost use Rattle.irr_algebra.specs.Matrix.{◌·◌};
    ghost use Rattle.irr_seitz.specs.OperationMeaning.{AreWithin};
    ghost use Rattle.irr_kvec.specs.WaveMeaning.{wave_vector};
    ghost use Rattle.irr_kvec.specs.Centrings.{IsWithinLimits};
    ghost use Rattle.irr_setting.specs.Determinant.{column_dot};
    ghost use Rattle.irr_setting.specs.Setting.{basis, IsSingular, IsSmallSetting};

    /// Whether the determinant of P is 0.
    pub fn det_is_zero(&self) -> bool
        requires { IsSmallSetting self.now }
        ensures { IsTrue result ↔ IsSingular self.now }
    {
        determinant(&self.num) == 0
    }
    /// The wave vector k in the new basis: kP.
    pub fn wave(&self, k: &Wave) -> Wave
        requires setting { IsSmallSetting self.now }
        requires numerators { AreWithin (10 ^ 9) k.now.num }
        requires denominator { k.now.den ≤ 100000 }
        ensures wave { wave_vector result ≡ wave_vector k.now · basis self.now }
        ensures limits { IsWithinLimits result }
    {
        let products = self.row_products(&wide(&k.num));
        let den = self.denominator(k);
        let made = narrowed(products, den);
        made
    }

    fn denominator(&self, k: &Wave) -> u64
        requires setting { IsSmallSetting self.now }
        requires denominator { k.now.den ≤ 100000 }
        ensures value { result ≡ k.now.den * self.now.den }
        ensures positive { 0 < result }
        ensures small { result ≤ 10 ^ 7 }
    {
        u64::from(k.den) * u64::from(self.den)
    }

    // A row times the numerators of P.
    fn row_products(&self, row: &[i128; 3]) -> [i128; 3]
        requires setting { IsSmallSetting self.now }
        requires row { AreWithin (10 ^ 9) row.now }
        ensures value { (j : Fin 3) → entry result j ≡ column_dot row.now self.now.num (to_nat j) }
        ensures small { AreWithin (3 * 10 ^ 13) result }
    {
        [
            self.row_product(row, 0),
            self.row_product(row, 1),
            self.row_product(row, 2),
        ]
    }

    // The column of the numerators of P at a place.
    fn column(&self, j: usize) -> [i128; 3]
        requires { j < 3 }
        ensures { (i : Fin 3) → entry result i ≡ slice_index_or (slice_index_or self.now.num (to_nat i) []) j (pos 0) }
    {
        [
            i128::from(self.num[0][j]),
            i128::from(self.num[1][j]),
            i128::from(self.num[2][j]),
        ]
    }

    // A row times a column of the numerators of P.
    fn row_product(&self, row: &[i128; 3], j: usize) -> i128
        requires j { j < 3 }
        requires setting { IsSmallSetting self.now }
        requires row { AreWithin (10 ^ 9) row.now }
        ensures value { result ≡ column_dot row.now self.now.num j }
        ensures small { unsigned_abs result ≤ 3 * 10 ^ 13 }
    {
        dot(row, &self.column(j))
    }
}
