// How a report is read.
ghost use Rattle.std.specs.Prelude.{ℕ, ◌≡◌, ◌<◌, ◌≤◌, IfErr, IfOk, IfSome, IsNone};
ghost use Rattle.irr_cyc.specs.declared.orders.TheConstants.{ORDER_LIMIT};
ghost use Rattle.irr_report.specs.Content.{content_of};
ghost use Rattle.irr_report.specs.Limits.{IsWithinLimits};
ghost use Rattle.irr_report.specs.ReportFault.{IsFault, IsReportText};
ghost use Rattle.irr_report.specs.ReportStages.{IsUnended, error_at};
ghost use Rattle.irr_report.specs.declared.stage.Stage.TheVariants.{Closed};

use crate::report::{Report, ReportError};
use crate::stage::{Stage, StepError};
use crate::steps::step;
use irr_cyc::Scalar;
use irr_lines::next_line;
use std::alloc::Global;

/// The report that a text writes (version 1, a form of this project's own).
///
/// The lines `report 1`, `wave WAVE`, `order N`, `ops H`; `op I TRIPLET` for each operation; `reps R`, and for each
/// representation `rep SJ dim D`, `char VALUE ..` and a line `mat I VALUE ..` for each operation, row by row; then
/// `end`, behind which only empty lines may follow. The order is at most `ORDER_LIMIT`; H, R and D are at most 48;
/// the numbers of the wave vector are at most 400,000 over a common denominator of at most 100,000; the values
/// are numbers of the order as `read_number` takes them, and those of one representation together have a common
/// denominator of at most 4,096, over which each has a size of at most 1,073,741,824.
pub fn read_report<S: Scalar>(alloc: Global, text: &[u8]) -> Result<Report<S>, ReportError>
    requires { (n : ℕ) → 0 < n → n ≤ ORDER_LIMIT → S.admits n }
    ensures report { IfOk result (λ r. IsReportText text.now (content_of r)) }
    ensures limits { IfOk result IsWithinLimits }
    ensures fault { IfErr result (IsFault text.now) }
{
    let mut rest = text;
    let mut number = 0u64;
    let mut stage = Stage::Untitled;
    while !rest.is_empty() {
        let (line, behind) = next_line(rest);
        number += 1;
        match step(alloc, stage, line) {
            Ok(next) => stage = next,
            Err(error) => return Err(at_line(error, number)),
        }
        rest = behind;
    }
    match closed(stage) {
        Some(report) => Ok(report),
        None => Err(ReportError::Line(number + 1)),
    }
}

// The error of the line of this number.
fn at_line(error: StepError, number: u64) -> ReportError
    ensures { result ≡ error_at number error }
{
    match error {
        StepError::Line => ReportError::Line(number),
        StepError::Range => ReportError::Range(number),
        StepError::Memory => ReportError::Memory,
    }
}

// The report, where its end is read.
fn closed<S: Scalar>(stage: Stage<S>) -> Option<Report<S>>
    ensures some { IfSome result (λ r. stage ≡ Closed r) }
    ensures none { IsNone result → IsUnended stage }
{
    match stage {
        Stage::Closed(report) => Some(report),
        Stage::Untitled
        | Stage::Titled
        | Stage::Waved(_)
        | Stage::Ordered(_, _)
        | Stage::Listing(_)
        | Stage::Counting(_)
        | Stage::Sizing(_, _)
        | Stage::Filling(_, _) => None,
    }
}
