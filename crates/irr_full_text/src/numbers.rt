// Numbers in the text.
ghost use Rattle.std.specs.Prelude.{ℕ, ◌≡◌, ◌<◌, ◌≤◌, ◌^◌, ◌++◌, OnOk};
ghost use Rattle.irr_number.specs.Number.{numbers, root_power};
ghost use Rattle.irr_canonical.specs.Coefficient.{denominator, size};
ghost use Rattle.irr_text.specs.ReportText.{pieces};
ghost use Rattle.irr_full_text.specs.Lines.{number_word};

use irr_cyc::{Order, Scalar};
use irr_memory::Memory;
use irr_numeral::print_number;
use std::alloc::Global;

/// Appends a blank and a number. The error is want of memory.
pub(crate) fn push_value<S: Scalar>(alloc: Global, text: &mut Vec<u8>, x: &S) -> Result<(), Memory>
    ensures { (M : ℕ) → S.order_of x.now ≡ M → OnOk result (text.new.items ≡ text.old.items
        ++ number_word M (S.value M x.now)) }
{
    if x.is_zero() {
        text.extend_from_slice(b" 0")?;
        return Ok(());
    }
    let number = print_number(alloc, x)?;
    text.push(b' ')?;
    text.extend_from_slice(&number)?;
    Ok(())
}

/// Appends a blank and z^e times a number. The error is want of memory.
pub(crate) fn push_turned<S: Scalar>(
    alloc: Global,
    text: &mut Vec<u8>,
    order: &Order,
    e: u32,
    x: &S,
) -> Result<(), Memory>
    requires order { S.order_of x.now ≡ order.now.n }
    requires below { e < order.now.n }
    requires denominator { let n = order.now.n in denominator n (S.value n x.now) ≤ 2 ^ 60 }
    requires size { let n = order.now.n in size n (S.value n x.now) ≤ 2 ^ 80 }
    ensures { let n = order.now.n in OnOk result (text.new.items ≡ text.old.items
        ++ number_word n ((numbers n).mul (root_power n e) (S.value n x.now))) }
{
    if e == 0 {
        push_value(alloc, text, x)?;
        return Ok(());
    }
    if x.is_zero() {
        push_value(alloc, text, x)?;
        return Ok(());
    }
    let root = S::root(alloc, order, e)?;
    let turned = root.mul(alloc, x)?;
    push_value(alloc, text, &turned)?;
    Ok(())
}

/// Appends a number 0, `count` times. The error is want of memory.
pub(crate) fn push_zeros(text: &mut Vec<u8>, count: u32) -> Result<(), Memory>
    ensures { (M d : ℕ) → 0 < M → count ≡ d → OnOk result (text.new.items ≡ text.old.items
        ++ pieces d (λ c. number_word M (numbers M).zero)) }
{
    for _ in 0..count {
        text.extend_from_slice(b" 0")?;
    }
    Ok(())
}
