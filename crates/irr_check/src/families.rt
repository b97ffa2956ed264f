// The verdict on the families of a report.
ghost use Rattle.std.specs.Prelude.{ℕ, ◌≡◌, ◌<◌, ◌≤◌, All, length, IfOk};
ghost use Rattle.irr_cyc.specs.declared.orders.TheConstants.{ORDER_LIMIT};
ghost use Rattle.irr_rep.specs.Twisted.{phase_table, place_count};
ghost use Rattle.irr_check.specs.Faults.{IsFirstFault, IsSound};
ghost use Rattle.irr_report.specs.Limits.{IsChecked};
ghost use Rattle.irr_check.specs.Listed.{IsFirstFaulty, IsSmallFault, families_of, fault_verdict};
ghost use Rattle.irr_check.specs.declared.fault.Fault.TheVariants.{Defect as FamilyDefect};
ghost use Rattle.irr_check.specs.Trials.Reading.{dimensions};
ghost use Rattle.irr_check.specs.Verdict.{IsFamiliesVerdict};

use crate::fault::{Fault, first_fault};
use crate::pairs::{first_pair, sum_of_squares};
use crate::verdict::{Clause, Verdict};
use irr_cyc::Scalar;
use irr_memory::Memory;
use irr_rep::{Defect, Twisted};
use irr_report::RepText;
use std::alloc::Global;

/// A representation of a list, and what is wrong first in it.
#[derive(Clone, Copy, Debug, PartialEq, Eq)]
pub(crate) struct Faulty {
    pub(crate) rep: u32,
    pub(crate) fault: Fault,
}

/// The verdict on the families of a report on a table of phases. The error is want of memory.
pub(crate) fn families_verdict<S: Scalar>(
    alloc: Global,
    t: &Twisted,
    reps: &[RepText<S>],
) -> Result<Verdict, Memory>
    requires checked { All (IsChecked (phase_table t.now).order (place_count t.now)) reps.now }
    requires within { (phase_table t.now).order ≤ ORDER_LIMIT }
    requires few { length reps.now ≤ 48 }
    ensures { IfOk result (λ v. IsFamiliesVerdict dimensions (phase_table t.now) (families_of (phase_table t.now) reps.now) v) }
{
    if let Some(faulty) = first_faulty(alloc, t, reps)? {
        let verdict = faulty.verdict();
        return Ok(verdict);
    }
    if let Some(pair) = first_pair(alloc, t, reps)? {
        return Ok(Verdict::No {
            clause: Clause::Equivalent,
            rep: pair.first + 1,
            i: pair.second + 1,
            j: 0,
        });
    }
    if sum_of_squares(reps) != t.len() {
        return Ok(Verdict::No {
            clause: Clause::Missing,
            rep: 0,
            i: 0,
            j: 0,
        });
    }
    Ok(Verdict::Yes)
}

// The first representation with which something is wrong by itself.
fn first_faulty<S: Scalar>(
    alloc: Global,
    t: &Twisted,
    reps: &[RepText<S>],
) -> Result<Option<Faulty>, Memory>
    requires checked { All (IsChecked (phase_table t.now).order (place_count t.now)) reps.now }
    requires within { (phase_table t.now).order ≤ ORDER_LIMIT }
    requires few { length reps.now ≤ 48 }
    ensures { IfOk result (λ faulty. IsFirstFaulty (phase_table t.now) reps.now faulty) }
{
    for rep in 0..reps.len() as u32 {
        if let Some(fault) = first_fault(alloc, t, &reps[rep as usize])? {
            return Ok(Some(Faulty { rep, fault }));
        }
    }
    Ok(None)
}

impl Faulty {
    // The verdict where this is wrong first.
    fn verdict(&self) -> Verdict
        requires rep { self.now.rep < 48 }
        requires fault { IsSmallFault self.now.fault }
        ensures { result ≡ fault_verdict self.now.rep self.now.fault }
    {
        let rep = self.rep + 1;
        match self.fault {
            Fault::Defect(defect) => defect_verdict(self.rep, defect),
            Fault::Char(i) => Verdict::No {
                clause: Clause::Char,
                rep,
                i: i + 1,
                j: 0,
            },
            Fault::Reducible => Verdict::No {
                clause: Clause::Reducible,
                rep,
                i: 0,
                j: 0,
            },
        }
    }
}

// The verdict where a representation is the first that is no small representation.
fn defect_verdict(rep: u32, defect: Defect) -> Verdict
    requires rep { rep < 48 }
    requires defect { IsSmallFault (FamilyDefect defect) }
    ensures { result ≡ fault_verdict rep (FamilyDefect defect) }
{
    match defect {
        Defect::Unit => Verdict::No {
            clause: Clause::Unit,
            rep: rep + 1,
            i: 0,
            j: 0,
        },
        Defect::Product { i, j } => Verdict::No {
            clause: Clause::Multiply,
            rep: rep + 1,
            i: i + 1,
            j: j + 1,
        },
    }
}
