// A full list in canonical order.
ghost use Rattle.std.specs.Prelude.{ℕ, ◌≡◌, ◌<◌, None, Some, map, length, slice_index, slice_index_or, slice_set, IfOk};
ghost use Rattle.std.specs.Int.{◌∣◌};
ghost use Rattle.irr_space.specs.PhaseTable.{phases_over};
ghost use Rattle.irr_rep.specs.Twisted.{phase_table, place_count};
ghost use Rattle.irr_climb.specs.Lists.{IsFullyRead, IsSmallList};
ghost use Rattle.irr_climb.specs.Sizes.{AreSized};

use crate::families::characters;
use irr_char::order_rows;
use irr_cyc::Scalar;
use irr_memory::Memory;
use irr_rep::{Family, Twisted};
use std::alloc::Global;

// Each item in a slot.
fn slots_of<T: Drop>(alloc: Global, items: Vec<T>) -> Result<Vec<Option<T>>, Memory>
    ensures { IfOk result (λ slots. slots.items ≡ map Some items.items) }
{
    let mut slots = Vec::new(alloc);
    for item in items {
        slots.push(Some(item))?;
    }
    Ok(slots)
}

// The item of a slot, which is empty then.
fn take_slot<T: Drop>(slots: &mut [Option<T>], place: u32) -> T
    requires inside { place < length slots.old }
    requires filled { (x : T) × (slice_index_or slots.old place None ≡ Some x) }
    ensures item { slice_index_or slots.old place None ≡ Some result }
    ensures empty { slots.new ≡ slice_set slots.old place None }
{
    slots[place as usize].take().unwrap()
}

// The items at some places, no two of them the same, in the order of the places.
fn rearranged<T: Drop>(alloc: Global, items: Vec<T>, places: &[u32]) -> Result<Vec<T>, Memory>
    requires within { (a : ℕ) → a < length places.now → slice_index places.now a < length items.items }
    requires distinct { (a b : ℕ) → a < b → b < length places.now → slice_index places.now a ≡ slice_index places.now b → ⊥ }
    ensures count { IfOk result (λ v. length v.items ≡ length places.now) }
    ensures items { IfOk result (λ v. (a : ℕ) (e : T) → a < length places.now
        → slice_index_or v.items a e ≡ slice_index_or items.items (slice_index places.now a) e) }
{
    let mut slots = slots_of(alloc, items)?;
    let mut taken = Vec::new(alloc);
    for &place in places {
        let item = take_slot(&mut slots, place);
        taken.push(item)?;
    }
    Ok(taken)
}

/// The families of a full list in the canonical order of their characters. The error is want of memory.
pub(crate) fn in_order<S: Scalar>(
    alloc: Global,
    t: &Twisted,
    families: Vec<Family<S>>,
) -> Result<Vec<Family<S>>, Memory>
    requires full { (v : (phase_table t.now).order ∣ (phase_table t.now).order)
        × IsFullyRead (phase_table t.now).order (phases_over (phase_table t.now) (phase_table t.now).order v) families.items }
    requires sized { AreSized (phase_table t.now).order (place_count t.now) families.items }
    ensures { IfOk result (λ fs. IsSmallList (phase_table t.now) fs.items) }
{
    let rows = characters(alloc, families.as_slice())?;
    let places = order_rows(alloc, rows.as_slice())?;
    let ordered = rearranged(alloc, families, places.as_slice())?;
    Ok(ordered)
}
