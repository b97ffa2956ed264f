// Powers, commutators and cosets.
ghost use Rattle.std.specs.Prelude.{ℕ, ◌≡◌, ◌<◌, ◌↔◌, length, vec_len, IsTrue, IfOk};
ghost use Rattle.irr_algebra.specs.Fin.{Fin, to_nat};
ghost use Rattle.irr_rep.specs.Twisted.{phase_table, place_count};
ghost use Rattle.irr_rep.specs.Subgroup.{IsSubgroup};
ghost use Rattle.irr_chain.specs.NormalSubgroup.{In};
ghost use Rattle.irr_chain.specs.Marks.{Marked, Generators};
ghost use Rattle.irr_chain.specs.Quotient as Quotient;

use crate::marks::mark;
use irr_memory::Memory;
use irr_rep::Twisted;
use std::alloc::Global;

// Marks the p-th powers and the commutators of the members.
pub(crate) fn powers_and_commutators(
    alloc: Global,
    t: &Twisted,
    members: &[u32],
    p: u32,
) -> Result<Vec<bool>, Memory>
    requires { IsSubgroup (phase_table t.now) members.now }
    ensures count { IfOk result (λ v. vec_len v ≡ place_count t.now) }
    ensures generators { IfOk result (λ v. Generators (phase_table t.now) (In members.now) p v.items) }
{
    let mut marks = Vec::from_elem(alloc, false, t.len() as usize)?;
    for &i in members {
        mark(&mut marks, power(t, i, p));
        for &j in members {
            mark(&mut marks, commutator(t, i, j));
        }
    }
    Ok(marks)
}

// Marks the places in the cosets of the powers of g below the p-th.
pub(crate) fn covered(
    alloc: Global,
    t: &Twisted,
    inner: &[bool],
    g: u32,
    p: u32,
) -> Result<Vec<bool>, Memory>
    requires count { length inner.now ≡ place_count t.now }
    requires generator { g < place_count t.now }
    ensures count { IfOk result (λ v. vec_len v ≡ place_count t.now) }
    ensures cosets { IfOk result (λ v. (a i : Fin (place_count t.now)) → to_nat a ≡ g
        → Marked v.items i ↔ Quotient.Cover (phase_table t.now) (Marked inner.now) p a i) }
{
    let mut marks = Vec::with_capacity(alloc, t.len() as usize)?;
    for i in 0..t.len() {
        marks.push(is_covered(t, inner, g, p, i))?;
    }
    Ok(marks)
}

// Whether the place i is in the coset of a power of g below the p-th.
fn is_covered(t: &Twisted, inner: &[bool], g: u32, p: u32, i: u32) -> bool
    requires count { length inner.now ≡ place_count t.now }
    requires generator { g < place_count t.now }
    requires place { i < place_count t.now }
    ensures { (a b : Fin (place_count t.now)) → to_nat a ≡ g → to_nat b ≡ i
        → IsTrue result ↔ Quotient.Cover (phase_table t.now) (Marked inner.now) p a b }
{
    let back = t.inverse(g);
    let mut part = i;
    for _e in 0..p {
        if inner[part as usize] {
            return true;
        }
        part = t.table(back, part);
    }
    false
}

// The n-th power of the place i.
fn power(t: &Twisted, i: u32, n: u32) -> u32
    requires { i < place_count t.now }
    ensures within { result < place_count t.now }
    ensures power { (q : Fin (place_count t.now)) → to_nat q ≡ i → result ≡ to_nat (Quotient.power (phase_table t.now) q n) }
{
    let mut power = 0;
    for _e in 0..n {
        power = t.table(i, power);
    }
    power
}

// The commutator of the places i and j.
fn commutator(t: &Twisted, i: u32, j: u32) -> u32
    requires first { i < place_count t.now }
    requires second { j < place_count t.now }
    ensures within { result < place_count t.now }
    ensures commutator { (q r : Fin (place_count t.now)) → to_nat q ≡ i → to_nat r ≡ j
        → result ≡ to_nat (Quotient.commutator (phase_table t.now) q r) }
{
    t.table(t.table(i, j), t.table(t.inverse(i), t.inverse(j)))
}
