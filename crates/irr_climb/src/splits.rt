// The places of a table as powers of one place times members of a subgroup.
ghost use Rattle.std.specs.Prelude.{ℕ, ◌≡◌, ◌<◌, ◌≤◌, length, slice_index, Contains, MatchOption, IfOk};
ghost use Rattle.irr_algebra.specs.Fin.{Fin, to_nat};
ghost use Rattle.irr_rep.specs.declared.table.TheConstants.{PLACES_LIMIT};
ghost use Rattle.irr_rep.specs.Twisted.{phase_table, place_count};
ghost use Rattle.irr_climb.specs.Splits.{HasSplit, IsSplit};

use irr_memory::Memory;
use irr_rep::Twisted;
use std::alloc::Global;

/// For each place x of a table the exponent e and the number n of the member with x = g^e times this member.
#[derive(Debug, Drop)]
pub(crate) struct Splits {
    pub(crate) exponents: Vec<u32>,
    pub(crate) parts: Vec<u32>,
}

// The position of a value in a list.
pub(crate) fn position(list: &[u32], value: u32) -> u32
    requires short { length list.now ≤ PLACES_LIMIT }
    requires inside { Contains list.now value }
    ensures within { result < length list.now }
    ensures value { slice_index list.now result ≡ value }
{
    list.iter().position(|entry| *entry == value).unwrap() as u32
}

/// The positions in a list of some of its entries. The error is want of memory.
pub(crate) fn positions(alloc: Global, list: &[u32], values: &[u32]) -> Result<Vec<u32>, Memory>
    requires short { length list.now ≤ PLACES_LIMIT }
    requires inside { (a : ℕ) → a < length values.now → Contains list.now (slice_index values.now a) }
    ensures count { IfOk result (λ at. length at.items ≡ length values.now) }
    ensures within { IfOk result (λ at. (a : ℕ) → a < length values.now → slice_index at.items a < length list.now) }
    ensures values { IfOk result (λ at. (a : ℕ) → a < length values.now
        → slice_index list.now (slice_index at.items a) ≡ slice_index values.now a) }
{
    let mut at = Vec::new(alloc);
    for &value in values {
        at.push(position(list, value))?;
    }
    Ok(at)
}

// The number of the member whose product with the place `left` is x.
fn member_for(t: &Twisted, members: &[u32], left: u32, x: u32) -> Option<u32>
    requires few { length members.now ≤ PLACES_LIMIT }
    requires members { (a : ℕ) → a < length members.now → slice_index members.now a < place_count t.now }
    requires left { left < place_count t.now }
    ensures { MatchOption result
        ((n : ℕ) → n < length members.now → (a b : Fin (place_count t.now)) → to_nat a ≡ left → to_nat b ≡ slice_index members.now n
        → to_nat ((phase_table t.now).product a b) ≡ x → ⊥)
        (λ n. (n < length members.now) × ((a b : Fin (place_count t.now)) → to_nat a ≡ left → to_nat b ≡ slice_index members.now n
        → to_nat ((phase_table t.now).product a b) ≡ x)) }
{
    for n in 0..members.len() {
        if t.table(left, members[n]) == x {
            return Some(n as u32);
        }
    }
    None
}

// The exponent and the number of the member of one place.
fn split(t: &Twisted, members: &[u32], g: u32, p: u32, x: u32) -> (u32, u32)
    requires few { length members.now ≤ PLACES_LIMIT }
    requires members { (a : ℕ) → a < length members.now → slice_index members.now a < place_count t.now }
    requires generator { g < place_count t.now }
    requires exists { HasSplit (phase_table t.now) members.now g p x }
    ensures { IsSplit (phase_table t.now) members.now g p x result.0 result.1 }
{
    let mut power = 0;
    for e in 0..p {
        match member_for(t, members, power, x) {
            Some(n) => return (e, n),
            None => {}
        }
        power = t.table(g, power);
    }
    unreachable!()
}

/// The exponents and the members of all places. The error is want of memory.
pub(crate) fn split_all(
    alloc: Global,
    t: &Twisted,
    members: &[u32],
    g: u32,
    p: u32,
) -> Result<Splits, Memory>
    requires few { length members.now ≤ PLACES_LIMIT }
    requires members { (a : ℕ) → a < length members.now → slice_index members.now a < place_count t.now }
    requires generator { g < place_count t.now }
    requires exist { (x : ℕ) → x < place_count t.now → HasSplit (phase_table t.now) members.now g p x }
    ensures exponents { IfOk result (λ s. length s.exponents.items ≡ place_count t.now) }
    ensures parts { IfOk result (λ s. length s.parts.items ≡ place_count t.now) }
    ensures splits { IfOk result (λ s. (x : ℕ) → x < place_count t.now
        → IsSplit (phase_table t.now) members.now g p x (slice_index s.exponents.items x) (slice_index s.parts.items x)) }
{
    let mut exponents = Vec::new(alloc);
    let mut parts = Vec::new(alloc);
    for x in 0..t.len() {
        let (e, n) = split(t, members, g, p, x);
        exponents.push(e)?;
        parts.push(n)?;
    }
    Ok(Splits { exponents, parts })
}
