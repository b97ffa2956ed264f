// Pairs of representations of a report, and the sum of their squared dimensions.
ghost use Rattle.std.specs.Prelude.{ℕ, ◌≡◌, ◌<◌, ◌≤◌, ◌*◌, All, length, sum_by, IfOk};
ghost use Rattle.irr_cyc.specs.declared.orders.TheConstants.{ORDER_LIMIT};
ghost use Rattle.irr_rep.specs.Twisted.{phase_table, place_count};
ghost use Rattle.irr_check.specs.Faults.{IsSound};
ghost use Rattle.irr_report.specs.Limits.{IsChecked};
ghost use Rattle.irr_check.specs.Pairs.{AreApartBelow, IsFirstBehind, IsFirstPair};

use irr_char::average;
use irr_cyc::Scalar;
use irr_memory::Memory;
use irr_rep::Twisted;
use irr_report::RepText;
use std::alloc::Global;

/// Two representations of a list.
#[derive(Clone, Copy, Debug, PartialEq, Eq)]
pub(crate) struct Pair {
    pub(crate) first: u32,
    pub(crate) second: u32,
}

/// The first pair of representations, in lexicographic order, that some matrix other than 0 intertwines. The
/// error is want of memory.
pub(crate) fn first_pair<S: Scalar>(
    alloc: Global,
    t: &Twisted,
    reps: &[RepText<S>],
) -> Result<Option<Pair>, Memory>
    requires checked { All (IsChecked (phase_table t.now).order (place_count t.now)) reps.now }
    requires sound { All (IsSound (phase_table t.now)) reps.now }
    requires few { length reps.now ≤ 48 }
    ensures { IfOk result (λ pair. IsFirstPair (phase_table t.now) reps.now pair) }
{
    for first in 0..reps.len() as u32 {
        if let Some(second) = first_behind(alloc, t, reps, first)? {
            return Ok(Some(Pair { first, second }));
        }
    }
    Ok(None)
}

// The first representation behind another that some matrix other than 0 intertwines with it.
fn first_behind<S: Scalar>(
    alloc: Global,
    t: &Twisted,
    reps: &[RepText<S>],
    a: u32,
) -> Result<Option<u32>, Memory>
    requires checked { All (IsChecked (phase_table t.now).order (place_count t.now)) reps.now }
    requires sound { All (IsSound (phase_table t.now)) reps.now }
    requires few { length reps.now ≤ 48 }
    requires inside { a < length reps.now }
    ensures { IfOk result (λ b. IsFirstBehind (phase_table t.now) reps.now a b) }
{
    for b in a + 1..reps.len() as u32 {
        let dimension = average(alloc, t, &reps[a as usize].chars, &reps[b as usize].chars)?;
        if dimension != 0 {
            return Ok(Some(b));
        }
    }
    Ok(None)
}

/// The sum of the squared dimensions.
pub(crate) fn sum_of_squares<S: Scalar>(reps: &[RepText<S>]) -> u32
    requires few { length reps.now ≤ 48 }
    requires small { All (λ t. t.family.dim ≤ 48) reps.now }
    ensures { result ≡ sum_by (λ t. t.family.dim * t.family.dim) reps.now }
{
    let mut sum = 0;
    for rep in reps {
        sum += rep.family.dim * rep.family.dim;
    }
    sum
}
