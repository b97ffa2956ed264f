// The entries of pairs of labels.
ghost use Rattle.std.specs.Prelude.{ℕ, ◌≡◌, ◌<◌, ◌*◌, ◌+◌, List, IfOk, length, slice_index_or};
ghost use Rattle.irr_space.specs.Operation.{WaveVector};
ghost use Rattle.irr_kvec.specs.declared.wave.Wave.{Wave};
ghost use Rattle.irr_close.specs.declared.group.Group.{Group};
ghost use Rattle.irr_mult.specs.declared.star.StarCharacters.{StarCharacters};
ghost use Rattle.irr_product.specs.declared.meetings.Meeting.{Meeting};
ghost use Rattle.irr_product.specs.Meetings.{AreEntries, ArePairRows, HasPairRows, IsEntry, IsPairRow, Setting};

use crate::meetings::Meeting;
use crate::rows::part_row;
use irr_cyc::{Lift, Order};
use irr_memory::Memory;
use irr_mult::{PairParts, StarCharacters, all_parts};
use irr_side::Side;
use std::alloc::Global;

/// The entries of all pairs of members of two lists, in the order (1,1), (1,2), .. The error is want of memory.
pub(crate) fn pairs<S: Lift>(
    alloc: Global,
    order: &Order,
    left: &Side<S>,
    right: &Side<S>,
    stars: &[StarCharacters<S>],
    meetings: &[Meeting<S>],
) -> Result<Vec<PairParts>, Memory>
    requires { (group : Group) × (k : WaveVector) × (l : WaveVector) × (sums : List Wave)
        × Setting group k l order.now.n left.now right.now sums stars.now meetings.now }
    ensures { (group : Group) (k l : WaveVector) (sums : List Wave)
        (s : Setting group k l order.now.n left.now right.now sums stars.now meetings.now) → IfOk result (λ pairs.
        AreEntries order.now.n s.given.left s.given.right
        (length left.now.fulls.items * length right.now.fulls.items) pairs.items) }
{
    let mut pairs = Vec::new(alloc);
    for a in 0..left.fulls.len() {
        push_pairs(alloc, order, left, right, stars, meetings, a, &mut pairs)?;
    }
    Ok(pairs)
}

// Appends the entries of a member of the first list with each of the others.
fn push_pairs<S: Lift>(
    alloc: Global,
    order: &Order,
    left: &Side<S>,
    right: &Side<S>,
    stars: &[StarCharacters<S>],
    meetings: &[Meeting<S>],
    a: usize,
    pairs: &mut Vec<PairParts>,
) -> Result<(), Memory>
    requires first { a < length left.now.fulls.items }
    requires setting { (group : Group) × (k : WaveVector) × (l : WaveVector) × (sums : List Wave)
        × Setting group k l order.now.n left.now right.now sums stars.now meetings.now }
    ensures { (group : Group) (k l : WaveVector) (sums : List Wave)
        (s : Setting group k l order.now.n left.now right.now sums stars.now meetings.now)
        → AreEntries order.now.n s.given.left s.given.right (a * length right.now.fulls.items) pairs.old.items
        → IfOk result (λ _. AreEntries order.now.n s.given.left s.given.right
        ((a + 1) * length right.now.fulls.items) pairs.new.items) }
{
    for b in 0..right.fulls.len() {
        let pair = pair_at(alloc, order, left, right, stars, meetings, a, b)?;
        pairs.push(pair)?;
    }
    Ok(())
}

// The entry of two members.
fn pair_at<S: Lift>(
    alloc: Global,
    order: &Order,
    left: &Side<S>,
    right: &Side<S>,
    stars: &[StarCharacters<S>],
    meetings: &[Meeting<S>],
    a: usize,
    b: usize,
) -> Result<PairParts, Memory>
    requires first { a < length left.now.fulls.items }
    requires second { b < length right.now.fulls.items }
    requires setting { (group : Group) × (k : WaveVector) × (l : WaveVector) × (sums : List Wave)
        × Setting group k l order.now.n left.now right.now sums stars.now meetings.now }
    ensures { (group : Group) (k l : WaveVector) (sums : List Wave)
        (s : Setting group k l order.now.n left.now right.now sums stars.now meetings.now)
        → IfOk result (IsEntry order.now.n s.given.left s.given.right a b) }
{
    let traces = star_rows(alloc, order, stars, meetings, a, b)?;
    let parts = all_parts(alloc, stars, traces.as_slice())?;
    let first = &left.fulls[a];
    let second = &right.fulls[b];
    let rows = first.dim();
    let dim = rows * second.dim();
    Ok(PairParts {
        a: a as u32 + 1,
        b: b as u32 + 1,
        dim,
        parts,
    })
}

// The traces of the parts of a direct product, star by star.
fn star_rows<S: Lift>(
    alloc: Global,
    order: &Order,
    stars: &[StarCharacters<S>],
    meetings: &[Meeting<S>],
    a: usize,
    b: usize,
) -> Result<Vec<Vec<S>>, Memory>
    requires count { length meetings.now ≡ length stars.now }
    requires rows { (i : ℕ) (c : StarCharacters S) (t : Meeting S) → i < length stars.now
        → HasPairRows S.order_of S.value order.now.n a b (slice_index_or stars.now i c)
        (slice_index_or meetings.now i t) }
    ensures { IfOk result (λ rows.
        ArePairRows S.order_of S.value order.now.n a b stars.now meetings.now rows.items) }
{
    let mut rows = Vec::new(alloc);
    for i in 0..stars.len() {
        let row = pair_row(alloc, order, &stars[i], &meetings[i], a, b)?;
        rows.push(row)?;
    }
    Ok(rows)
}

// Those at one star.
fn pair_row<S: Lift>(
    alloc: Global,
    order: &Order,
    star: &StarCharacters<S>,
    meeting: &Meeting<S>,
    a: usize,
    b: usize,
) -> Result<Vec<S>, Memory>
    requires { HasPairRows S.order_of S.value order.now.n a b star.now meeting.now }
    ensures { IfOk result (λ row.
        IsPairRow S.order_of S.value order.now.n a b star.now meeting.now row.items) }
{
    let places = star.table.len() as usize;
    let left = &meeting.left[a];
    let right = &meeting.right[b];
    let classes = meeting.classes.as_slice();
    let row = part_row(
        alloc,
        order,
        places,
        left.as_slice(),
        right.as_slice(),
        classes,
    )?;
    Ok(row)
}
