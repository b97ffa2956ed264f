// Places of a table whose products are all its places.
ghost use Rattle.std.specs.Prelude.{ℕ, ◌≡◌, ◌<◌, All, IfOk, length, not, slice_index_or, slice_set, true, false};
ghost use Rattle.irr_rep.specs.Generators.{Generate, Grows};
ghost use Rattle.irr_rep.specs.Twisted.{phase_table, place_count};

use crate::table::Twisted;
use irr_memory::Memory;
use std::alloc::Global;

// Generators of the places: again and again the first place that is no product of those before. As each at least
// doubles the products, there are at most 5 of them for 48 places. The error is want of memory.
pub(crate) fn generators(alloc: Global, t: &Twisted) -> Result<Vec<u32>, Memory>
    ensures below { IfOk result (λ v. All (λ k. k < place_count t.now) v.items) }
    ensures generate { IfOk result (λ v. Generate (phase_table t.now) v.items) }
{
    let mut generators = Vec::new(alloc);
    let mut marks = Vec::from_elem(alloc, false, t.len() as usize)?;
    for i in 1..t.len() {
        if marks[i as usize] {
            continue;
        }
        generators.push(i)?;
        marks[i as usize] = true;
        close(t, generators.as_slice(), &mut marks);
    }
    Ok(generators)
}

// Marks the products of marked places with generators, until none is new.
fn close(t: &Twisted, generators: &[u32], marks: &mut [bool])
    requires count { length marks.old ≡ place_count t.now }
    requires below { All (λ k. k < place_count t.now) generators.now }
    ensures { Grows (phase_table t.now) generators.now marks.old marks.new }
{
    for _ in 0..t.len() {
        if !mark_products(t, generators, marks) {
            return;
        }
    }
}

// Marks the products of marked places with generators; whether one is new.
fn mark_products(t: &Twisted, generators: &[u32], marks: &mut [bool]) -> bool
    requires count { length marks.old ≡ place_count t.now }
    requires below { All (λ k. k < place_count t.now) generators.now }
    ensures { Grows (phase_table t.now) generators.now marks.old marks.new }
{
    let mut grown = false;
    for i in 0..t.len() {
        if mark_row(t, generators, marks, i) {
            grown = true;
        }
    }
    grown
}

// Marks the products of a place with generators if it is marked; whether one is new.
fn mark_row(t: &Twisted, generators: &[u32], marks: &mut [bool], i: u32) -> bool
    requires count { length marks.old ≡ place_count t.now }
    requires below { All (λ k. k < place_count t.now) generators.now }
    requires place { i < place_count t.now }
    ensures { Grows (phase_table t.now) generators.now marks.old marks.new }
{
    if !marks[i as usize] {
        return false;
    }
    let mut grown = false;
    for g in generators {
        if mark(marks, t.table(i, *g)) {
            grown = true;
        }
    }
    grown
}

// Marks the place k; whether it is new.
fn mark(marks: &mut [bool], k: u32) -> bool
    requires { k < length marks.old }
    ensures marked { marks.new ≡ slice_set marks.old k true }
    ensures new { result ≡ not (slice_index_or marks.old k false) }
{
    let is_new = !marks[k as usize];
    marks[k as usize] = true;
    is_new
}

#[cfg(test)]
mod tests;
