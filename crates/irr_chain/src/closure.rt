// The subgroup that marked places generate.
ghost use Rattle.std.specs.Prelude.{ℕ, ◌≡◌, ◌<◌, true, false, length};
ghost use Rattle.irr_algebra.specs.Fin.{Fin, to_nat};
ghost use Rattle.irr_rep.specs.Twisted.{phase_table, place_count};
ghost use Rattle.irr_chain.specs.Marks.{IsMarked, Marked, Grows, unmarked};
ghost use Rattle.irr_chain.specs.Quotient.{IsClosed};

use crate::marks::mark;
use irr_rep::Twisted;

// Marks the subgroup that the marked places generate.
pub(crate) fn close(t: &Twisted, marks: &mut [bool])
    requires count { length marks.old ≡ place_count t.now }
    requires unit { IsMarked marks.old 0 }
    ensures closed { IsClosed (phase_table t.now) (Marked marks.new) }
    ensures grows { Grows (phase_table t.now) marks.old marks.new }
{
    while mark_products(t, marks) {}
}

// Marks the products of pairs of marked places; whether one of them is new.
fn mark_products(t: &Twisted, marks: &mut [bool]) -> bool
    requires { length marks.old ≡ place_count t.now }
    ensures grows { Grows (phase_table t.now) marks.old marks.new }
    ensures closed { result ≡ false → (i j : Fin (place_count t.now)) → Marked marks.new i → Marked marks.new j
        → Marked marks.new ((phase_table t.now).product i j) }
    ensures fewer { result ≡ true → unmarked marks.new < unmarked marks.old }
{
    let mut grown = false;
    for i in 0..t.len() {
        for j in 0..t.len() {
            if mark_product(t, marks, i, j) {
                grown = true;
            }
        }
    }
    grown
}

// Marks the product of two places where both are marked; whether it is new.
fn mark_product(t: &Twisted, marks: &mut [bool], i: u32, j: u32) -> bool
    requires count { length marks.old ≡ place_count t.now }
    requires row { i < place_count t.now }
    requires column { j < place_count t.now }
    ensures grows { Grows (phase_table t.now) marks.old marks.new }
    ensures product { (p q : Fin (place_count t.now)) → to_nat p ≡ i → to_nat q ≡ j → Marked marks.new p → Marked marks.new q
        → Marked marks.new ((phase_table t.now).product p q) }
    ensures same { result ≡ false → marks.new ≡ marks.old }
    ensures fewer { result ≡ true → unmarked marks.new < unmarked marks.old }
{
    marks[i as usize] && marks[j as usize] && mark(marks, t.table(i, j))
}
