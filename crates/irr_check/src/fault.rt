// What is wrong first in one representation of a report.
ghost use Rattle.std.specs.Prelude.{ℕ, ◌≡◌, ◌<◌, ◌≤◌, length, IfOk, IfSome};
ghost use Rattle.irr_algebra.specs.Fin.{Fin};
ghost use Rattle.irr_cyc.specs.declared.orders.TheConstants.{ORDER_LIMIT};
ghost use Rattle.irr_number.specs.Number.{Number};
ghost use Rattle.irr_rep.specs.Defects.{IsFirstFailure};
ghost use Rattle.irr_rep.specs.Twisted.{phase_table, place_count};
ghost use Rattle.irr_char.specs.Characters.{IsRowOf, IsSmallRow};
ghost use Rattle.irr_report.specs.Limits.{IsChecked, IsLimitedRow};
ghost use Rattle.irr_check.specs.Faults.{IsFirstFault};

use irr_char::{average, character};
use irr_cyc::Scalar;
use irr_memory::Memory;
use irr_rep::{Defect, Twisted, first_defect};
use irr_report::RepText;
use std::alloc::Global;

/// What is wrong first in one representation.
#[derive(Clone, Copy, Debug, PartialEq, Eq)]
pub(crate) enum Fault {
    /// The family is no small representation.
    Defect(Defect),
    /// The character at an operation is not the trace.
    Char(u32),
    /// Not only the multiples of one matrix intertwine the family with itself.
    Reducible,
}

/// What is wrong first in a representation, or none. The error is want of memory.
pub(crate) fn first_fault<S: Scalar>(
    alloc: Global,
    t: &Twisted,
    rep: &RepText<S>,
) -> Result<Option<Fault>, Memory>
    requires checked { IsChecked (phase_table t.now).order (place_count t.now) rep.now }
    requires within { (phase_table t.now).order ≤ ORDER_LIMIT }
    ensures { IfOk result (λ fault. IsFirstFault (phase_table t.now) rep.now fault) }
{
    if let Some(defect) = first_defect(alloc, t, &rep.family)? {
        return Ok(Some(Fault::Defect(defect)));
    }
    let traces = character(alloc, &rep.family)?;
    if let Some(i) = first_difference(&traces, &rep.chars) {
        return Ok(Some(Fault::Char(i)));
    }
    if average(alloc, t, &rep.chars, &rep.chars)? != 1 {
        return Ok(Some(Fault::Reducible));
    }
    Ok(None)
}

// The first place at which two rows of numbers differ.
fn first_difference<S: Scalar>(traces: &[S], chars: &[S]) -> Option<u32>
    requires { (n : ℕ) × (h : ℕ) × (e : ℕ) × IsSmallRow S.order_of S.value n h traces.now × IsLimitedRow S.order_of S.value n h e chars.now
        × (e ≤ 4096) × (h ≤ 48) }
    ensures { (n h : ℕ) (f g : Fin h → Number n) → IsRowOf S.order_of S.value n f traces.now → IsRowOf S.order_of S.value n g chars.now
        → IsFirstFailure (λ i. g i ≡ f i) result }
{
    for i in 0..traces.len() {
        if !traces[i].equal(&chars[i]) {
            return Some(i as u32);
        }
    }
    None
}
