// Which member of a full list the conjugate of a member by the generator is equivalent to.
ghost use Rattle.std.specs.Prelude.{ℕ, ◌≡◌, ◌<◌, List, map, length, IfOk, slice_index, IsTrue, ◌↔◌};
ghost use Rattle.irr_algebra.specs.Fin.{Fin, to_nat};
ghost use Rattle.irr_algebra.specs.Matrix.{trace};
ghost use Rattle.irr_algebra.specs.Action.{Equivalent};
ghost use Rattle.irr_theory.specs.FactorSystem.{Representation};
ghost use Rattle.irr_theory.specs.Representations.{IsFull, Representations};
ghost use Rattle.irr_clifford.specs.Cyclic.{conjugate};
ghost use Rattle.irr_rep.specs.Twisted.{phase_table, place_count};
ghost use Rattle.irr_number.specs.Number.{numbers};
ghost use Rattle.irr_level.specs.Scalar.{conjugate_exponent, phase_number};
ghost use Rattle.irr_char.specs.Rows.{row_of};
ghost use Rattle.irr_char.specs.Characters.{IsRowOf, IsSmallRow};
ghost use Rattle.irr_climb.specs.Families.{AreRows};
ghost use Rattle.irr_climb.specs.Steps.{AreTurns, IsStep, small};

use crate::step::Step;
use irr_cyc::{Order, Scalar};
use irr_memory::Memory;
use std::alloc::Global;

// Whether two rows have the same numbers.
fn is_same_row<S: Scalar>(left: &[S], right: &[S]) -> bool
    requires { (M : ℕ) × (h : ℕ) × IsSmallRow S.order_of S.value M h left.now × IsSmallRow S.order_of S.value M h right.now }
    ensures { (M h : ℕ) → IsSmallRow S.order_of S.value M h left.now → IsSmallRow S.order_of S.value M h right.now
        → IsTrue result ↔ ((i : Fin h) → row_of M (map (S.value M) left.now) i ≡ row_of M (map (S.value M) right.now) i) }
{
    for i in 0..left.len() {
        if !left[i].equal(&right[i]) {
            return false;
        }
    }
    true
}

impl Step {
    // The number of the member n' with n g = g n', for the member n with the number i.
    fn conjugate_member(&self, i: u32) -> u32
        requires step { (M : ℕ) × IsStep M self.now }
        requires place { i < place_count self.now.inner }
        ensures within { result < place_count self.now.inner }
        ensures member { (M : ℕ) (step : IsStep M self.now) (p : Fin (place_count self.now.inner)) → to_nat p ≡ i
            → result ≡ to_nat (step.quotient.conj p) }
    {
        let product = self.outer.table(self.members[i as usize], self.generator);
        self.parts[product as usize]
    }

    // The exponent x(n,g) - x(g,n') of the conjugate, up to multiples of the order.
    fn conjugate_exponent(&self, i: u32) -> u32
        requires step { (M : ℕ) × IsStep M self.now }
        requires place { i < place_count self.now.inner }
        ensures { (M : ℕ) (step : IsStep M self.now) (p : Fin (place_count self.now.inner)) → to_nat p ≡ i
            → result ≡ conjugate_exponent (phase_table self.now.outer) (step.part.place p) step.quotient.generator
            (step.part.place (step.quotient.conj p)) }
    {
        let image = self.conjugate_member(i);
        let behind = self.outer.phase(self.members[i as usize], self.generator);
        let before = self
            .outer
            .phase(self.generator, self.members[image as usize]);
        behind + (self.outer.order() - 1) * before
    }

    // One number of the character of the conjugate.
    fn conjugate_entry<S: Scalar>(
        &self,
        alloc: Global,
        order: &Order,
        row: &[S],
        i: u32,
    ) -> Result<S, Memory>
        requires admitted { S.admits order.now.n }
        requires step { IsStep order.now.n self.now }
        requires row { IsSmallRow S.order_of S.value order.now.n (place_count self.now.inner) row.now }
        requires place { i < place_count self.now.inner }
        ensures order { IfOk result (λ x. S.order_of x ≡ order.now.n) }
        ensures value { let M = order.now.n in (step : IsStep M self.now) (p : Fin (place_count self.now.inner)) → to_nat p ≡ i
            → IfOk result (λ x. S.value M x ≡ (numbers M).mul
            (phase_number (phase_table self.now.outer) M (conjugate_exponent (phase_table self.now.outer) (step.part.place p) step.quotient.generator
            (step.part.place (step.quotient.conj p)))) (row_of M (map (S.value M) row.now) (step.quotient.conj p))) }
    {
        let exponent = self.conjugate_exponent(i) % self.outer.order()
            * (order.n() / self.outer.order());
        let root = S::root(alloc, order, exponent)?;
        let image = self.conjugate_member(i);
        root.mul(alloc, &row[image as usize])
    }

    /// The character of the conjugate of a family, from the character of the family: at n it is z^(x(n,g) - x(g,n'))
    /// times the trace at n', where n g = g n'. The error is want of memory.
    pub(crate) fn conjugate_row<S: Scalar>(
        &self,
        alloc: Global,
        row: &[S],
    ) -> Result<Vec<S>, Memory>
        requires { (M : ℕ) × IsStep M self.now × IsSmallRow S.order_of S.value M (place_count self.now.inner) row.now }
        ensures small { (M : ℕ) → IsStep M self.now → IsSmallRow S.order_of S.value M (place_count self.now.inner) row.now
            → IfOk result (λ c. IsSmallRow S.order_of S.value M (place_count self.now.inner) c.items) }
        ensures conjugate { (M : ℕ) (step : IsStep M self.now) (d : ℕ) (D : Representation (small step) d)
            → IsRowOf S.order_of S.value M (λ i. trace (D.at i)) row.now
            → IfOk result (λ c. IsRowOf S.order_of S.value M (λ i. trace (conjugate step.quotient D i)) c.items) }
    {
        let order = Order::new(alloc, row[0].order())?;
        let mut conjugate = Vec::new(alloc);
        for i in 0..self.inner.len() {
            let entry = self.conjugate_entry(alloc, &order, row, i)?;
            conjugate.push(entry)?;
        }
        Ok(conjugate)
    }

    /// The place in a full list of the member that the conjugate of the member l is equivalent to, by their characters.
    /// The error is want of memory.
    pub(crate) fn turn<S: Scalar>(
        &self,
        alloc: Global,
        rows: &[Vec<S>],
        l: u32,
    ) -> Result<u32, Memory>
        requires list { (M : ℕ) × (step : IsStep M self.now) × (L : Representations (small step)) × IsFull L
            × AreRows S.order_of S.value M (small step) L (map (λ row. row.items) rows.now) }
        requires place { l < length rows.now }
        ensures within { IfOk result (λ m. m < length rows.now) }
        ensures turn { (M : ℕ) (step : IsStep M self.now) (L : Representations (small step)) → IsFull L
            → AreRows S.order_of S.value M (small step) L (map (λ row. row.items) rows.now)
            → (a b : Fin L.count) → to_nat a ≡ l
            → IfOk result (λ m. to_nat b ≡ m → Equivalent (conjugate step.quotient (L.member a)) (L.member b).at) }
    {
        let conjugate = self.conjugate_row(alloc, rows[l as usize].as_slice())?;
        let mut m = 0;
        while !is_same_row(conjugate.as_slice(), rows[m as usize].as_slice()) {
            m += 1;
        }
        Ok(m)
    }

    /// The turn of each member. The error is want of memory.
    pub(crate) fn turns<S: Scalar>(
        &self,
        alloc: Global,
        rows: &[Vec<S>],
    ) -> Result<Vec<u32>, Memory>
        requires { (M : ℕ) × (step : IsStep M self.now) × (L : Representations (small step)) × IsFull L
            × AreRows S.order_of S.value M (small step) L (map (λ row. row.items) rows.now) }
        ensures within { IfOk result (λ turns. length turns.items ≡ length rows.now) }
        ensures turns { (M : ℕ) (step : IsStep M self.now) (L : Representations (small step)) → IsFull L
            → AreRows S.order_of S.value M (small step) L (map (λ row. row.items) rows.now)
            → IfOk result (λ turns. AreTurns step L turns.items) }
    {
        let mut turns = Vec::new(alloc);
        for l in 0..rows.len() as u32 {
            let turn = self.turn(alloc, rows, l)?;
            turns.push(turn)?;
        }
        Ok(turns)
    }
}
