// The order of rows, by their canonical forms.
ghost use Rattle.std.specs.Prelude.{ℕ, ◌≡◌, ◌<◌, ◌≤◌, ◌^◌, List, length, map, All, IfOk, slice_index};
ghost use Rattle.std.specs.List.{range_with_len};
ghost use Rattle.std.specs.List.Sorted.{IsPermutation};
ghost use Rattle.std.specs.Ordering.{MatchOrdering};
ghost use Rattle.irr_algebra.specs.Fin.{Fin, to_nat};
ghost use Rattle.irr_number.specs.Number.{Number};
ghost use Rattle.irr_space.specs.CompleteList.{IsRowBefore};
ghost use Rattle.irr_char.specs.Rows.{IsFormOf, AreFormsOf, AreRowsOf, AreRows, AreInOrder, row_of, row_at};

use crate::forms::Form;
use crate::numbers::compare_numbers;
use irr_cyc::{Canon, Scalar};
use irr_memory::Memory;
use std::alloc::{AllocError, Global};
use std::cmp::Ordering;

// Which of two rows stands first: the one whose first entry comes later, and of rows with one first entry the
// one whose number comes first at the first place at which they differ.
fn compare_rows(xs: &[Form], ys: &[Form]) -> Ordering
    ensures { (n h : ℕ) (f g : Fin h → Number n) (start : Fin h) → to_nat start ≡ 0 → 0 < n → AreFormsOf n f xs.now → AreFormsOf n g ys.now
        → MatchOrdering result (IsRowBefore n start f g) ((i : Fin h) → f i ≡ g i) (IsRowBefore n start g f) }
{
    let common = xs.len().min(ys.len());
    if common == 0 {
        return Ordering::Equal;
    }
    let first = compare_numbers(&ys[0], &xs[0]);
    if first != Ordering::Equal {
        return first;
    }
    for k in 1..common {
        let order = compare_numbers(&xs[k], &ys[k]);
        if order != Ordering::Equal {
            return order;
        }
    }
    Ordering::Equal
}

// Which of two places stands first, by its row. Places past the end come last.
fn compare_places(rows: &[Vec<Form>], a: u32, b: u32) -> Ordering
    ensures rows { a < length rows.now → b < length rows.now → (n h : ℕ) (f : ℕ → Fin h → Number n) (start : Fin h) → to_nat start ≡ 0 → 0 < n
        → AreRowsOf n f (map (λ row. row.items) rows.now) → MatchOrdering result (IsRowBefore n start (f a) (f b)) ((i : Fin h) → f a i ≡ f b i) (IsRowBefore n start (f b) (f a)) }
    ensures first { a < length rows.now → length rows.now ≤ b → result ≡ Ordering.Less }
    ensures last { length rows.now ≤ a → b < length rows.now → result ≡ Ordering.Greater }
    ensures neither { length rows.now ≤ a → length rows.now ≤ b → result ≡ Ordering.Equal }
{
    let a = a as usize;
    let b = b as usize;
    if a < rows.len() && b < rows.len() {
        return compare_rows(rows[a].as_slice(), rows[b].as_slice());
    }
    (a >= rows.len()).cmp(&(b >= rows.len()))
}

// The places below a number.
fn places_below(alloc: Global, count: u32) -> Result<Vec<u32>, AllocError>
    ensures { IfOk result (λ places. places.items ≡ range_with_len 0 count) }
{
    (0..count).collect(alloc)
}

// The places of the rows, in the order of the rows.
fn sorted_places(alloc: Global, rows: &[Vec<Form>]) -> Result<Vec<u32>, Memory>
    requires { length rows.now < 2 ^ 32 }
    ensures permutation { IfOk result (λ places. IsPermutation (range_with_len 0 (length rows.now)) places.items) }
    ensures sorted { IfOk result (λ places. (n h : ℕ) (f : ℕ → Fin h → Number n) (start : Fin h) → to_nat start ≡ 0 → 0 < n
        → AreRowsOf n f (map (λ row. row.items) rows.now) → (i j : ℕ) → i < j → j < length places.items
        → IsRowBefore n start (f (slice_index places.items j)) (f (slice_index places.items i)) → ⊥) }
{
    let mut places = places_below(alloc, rows.len() as u32)?;
    places.sort_by(|a, b| compare_places(rows, *a, *b))?;
    Ok(places)
}

// The canonical form of a number.
fn form_of<S: Scalar>(alloc: Global, x: &S) -> Result<Form, Memory>
    ensures { IfOk result (λ form. (n : ℕ) → S.order_of x.now ≡ n → IsFormOf n (S.value n x.now) form.den form.terms.items) }
{
    let Canon { den, terms } = x.canonical(alloc)?;
    Ok(Form { den, terms })
}

// The canonical forms of the numbers of a row.
fn forms_of<S: Scalar>(alloc: Global, row: &[S]) -> Result<Vec<Form>, Memory>
    ensures { IfOk result (λ forms. (n h : ℕ) → length row.now ≡ h → All (λ x. S.order_of x ≡ n) row.now → AreFormsOf {h = h} n (row_of n (map (S.value n) row.now)) forms.items) }
{
    let mut forms = Vec::with_capacity(alloc, row.len())?;
    for x in row {
        forms.push(form_of(alloc, x)?)?;
    }
    Ok(forms)
}

// The canonical forms of rows.
fn forms_of_rows<S: Scalar>(alloc: Global, rows: &[Vec<S>]) -> Result<Vec<Vec<Form>>, Memory>
    ensures len { IfOk result (λ forms. length forms.items ≡ length rows.now) }
    ensures forms { IfOk result (λ forms. (n h : ℕ) → let lists = map (λ row. row.items) rows.now in All (λ row. length row ≡ h) lists → All (All (λ x. S.order_of x ≡ n)) lists
        → AreRowsOf {h = h} n (row_at n (map (map (S.value n)) lists)) (map (λ row. row.items) forms.items)) }
{
    let mut forms = Vec::with_capacity(alloc, rows.len())?;
    for row in rows {
        forms.push(forms_of(alloc, row.as_slice())?)?;
    }
    Ok(forms)
}

/// The places of the rows, in the order of the rows: the row whose first entry comes later stands first, which
/// for characters is the one of the smaller dimension, and of rows with one first entry the one whose number
/// comes first at the first place at which they differ. Of two numbers the one with the greater coefficient, in
/// the basis, at the first exponent at which they differ comes first.
///
/// The order is promised for rows of one length and numbers of one order, no two of them the same. The error is
/// want of memory.
pub fn order_rows<S: Scalar>(alloc: Global, rows: &[Vec<S>]) -> Result<Vec<u32>, Memory>
    requires { length rows.now < 2 ^ 32 }
    ensures permutation { IfOk result (λ places. IsPermutation (range_with_len 0 (length rows.now)) places.items) }
    ensures ordered { IfOk result (λ places. (n h : ℕ) (start : Fin h) → let lists = map (λ row. row.items) rows.now in to_nat start ≡ 0 → AreRows S.order_of n h (S.value n) lists
        → AreInOrder n start (map (map (S.value n)) lists) places.items) }
{
    let forms = forms_of_rows(alloc, rows)?;
    sorted_places(alloc, forms.as_slice())
}

#[cfg(test)]
mod tests;
