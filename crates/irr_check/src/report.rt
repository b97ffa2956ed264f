// The verdict on a report.
ghost use Rattle.std.specs.Prelude.{ℕ, ◌≡◌, ◌≤◌, IfOk, IfErr};
ghost use Rattle.irr_space.specs.Reciprocal.{IsOrder};
ghost use Rattle.irr_cyc.specs.declared.orders.TheConstants.{ORDER_LIMIT};
ghost use Rattle.irr_rep.specs.Twisted.{phase_table, operation_places};
ghost use Rattle.irr_seitz.specs.PhaseMeaning.{sign_of};
ghost use Rattle.irr_kvec.specs.WaveMeaning.{wave_vector};
ghost use Rattle.irr_close.specs.StandsFor.{stands_for};
ghost use Rattle.irr_little.specs.Table.{IsLittleTable};
ghost use Rattle.irr_report.specs.Content.{content_of};
ghost use Rattle.irr_check.specs.Limits.{IsCheckRefusal};
ghost use Rattle.irr_report.specs.Limits.{IsWithinLimits};
ghost use Rattle.irr_check.specs.Trials.Reading.{dimensions, meaning};
ghost use Rattle.irr_check.specs.Verdict.{IsCompleteReport, IsVerdict};
ghost use Rattle.irr_check.specs.declared.verdict.Verdict.TheVariants.{Yes};

use crate::families::families_verdict;
use crate::operations::first_other;
use crate::verdict::{CheckError, Clause, Verdict};
use irr_close::Group;
use irr_cyc::Scalar;
use irr_little::{LittleError, little};
use irr_memory::Memory;
use irr_rep::Twisted;
use irr_report::Report;
use std::alloc::Global;

/// Whether a report is that of a complete list of small representations of a group (Bradley and Cracknell,
/// sections 3.7 and 3.8) at its wave vector, or what is wrong first. The order of the representations and the
/// basis of their matrices are free, and the wave vector need not be reduced.
///
/// The report is one that can be read: it fits together, and its numbers are within the limits. The error is
/// an order of the wave vector above `ORDER_LIMIT`, or want of memory.
pub fn check<S: Scalar>(
    alloc: Global,
    group: &Group,
    report: &Report<S>,
) -> Result<Verdict, CheckError>
    requires { IsWithinLimits report.now }
    ensures tried { IfOk result (λ v. IsVerdict dimensions (sign_of group.now.phase) (stands_for group.now) (content_of report.now) v) }
    ensures verdict { IfOk result (λ v. IsVerdict meaning (sign_of group.now.phase) (stands_for group.now) (content_of report.now) v) }
    ensures yes { IfOk result (λ v. v ≡ Yes → IsCompleteReport (sign_of group.now.phase) (stands_for group.now) (content_of report.now)) }
    ensures accepted { IfOk result (λ v. (n : ℕ) → IsOrder (stands_for group.now) (wave_vector report.now.wave) n → n ≤ ORDER_LIMIT) }
    ensures refused { IfErr result (IsCheckRefusal group.now (wave_vector report.now.wave)) }
{
    match little(alloc, group, &report.wave) {
        Ok(t) => {
            let verdict = verdict_on(alloc, group, &t, report)?;
            Ok(verdict)
        }
        Err(LittleError::OrderTooLarge(order)) => Err(CheckError::OrderTooLarge(order)),
        Err(LittleError::Memory) => Err(CheckError::Memory),
    }
}

// The verdict, with the table of phases of the little group of the report's wave vector.
fn verdict_on<S: Scalar>(
    alloc: Global,
    group: &Group,
    t: &Twisted,
    report: &Report<S>,
) -> Result<Verdict, Memory>
    requires limits { IsWithinLimits report.now }
    requires table { IsLittleTable group.now (wave_vector report.now.wave) (operation_places t.now) (phase_table t.now) }
    requires within { (phase_table t.now).order ≤ ORDER_LIMIT }
    ensures { IfOk result (λ v. IsVerdict dimensions (sign_of group.now.phase) (stands_for group.now) (content_of report.now) v) }
{
    if report.order != t.order() {
        return Ok(Verdict::No {
            clause: Clause::Order,
            rep: 0,
            i: t.order(),
            j: 0,
        });
    }
    if let Some(i) = first_other(group, t, &report.ops) {
        return Ok(Verdict::No {
            clause: Clause::Ops,
            rep: 0,
            i: i + 1,
            j: 0,
        });
    }
    let verdict = families_verdict(alloc, t, &report.reps)?;
    Ok(verdict)
}
