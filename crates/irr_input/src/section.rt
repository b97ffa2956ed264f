// The report at the end of an input.
ghost use Rattle.std.specs.Prelude.{ℕ, ◌≡◌, ◌<◌, ◌≤◌, ◌+◌, ◌^◌, List, length, IfOk, IfErr, IfSome};
ghost use Rattle.irr_cyc.specs.declared.orders.TheConstants.{ORDER_LIMIT};
ghost use Rattle.irr_report.specs.Content.{content_of};
ghost use Rattle.irr_report.specs.Limits.{IsWithinLimits};
ghost use Rattle.irr_report.specs.ReportFault.{IsFault, IsReportText};
ghost use Rattle.irr_input.specs.InputLines.{HasLines, IsRest, content};
ghost use Rattle.irr_input.specs.LineReading.{IsEndFault};
ghost use Rattle.irr_input.specs.SectionReading.{IsSectionFault, FitsBehind};

use crate::input::{InputError, Reason};
use crate::keyword::Keyword;
use crate::lines::{Left, is_at};
use irr_cyc::Scalar;
use irr_lines::next_line;
use irr_report::{Report, ReportError, read_report};
use std::alloc::Global;

// The report at the end of what is left, if there is one, and how many lines there are in all.
pub(crate) fn read_end<S: Scalar>(
    alloc: Global,
    left: Left<'_>,
) -> Result<(Option<Report<S>>, u64), InputError>
    requires orders { (n : ℕ) → 0 < n → n ≤ ORDER_LIMIT → S.admits n }
    requires fits { left.lines + length left.text.now + 1 < 2 ^ 64 }
    ensures rest { IfOk result (λ r. IsRest left.entry.text.now (content r.0)) }
    ensures limits { IfOk result (λ r. IfSome r.0 IsWithinLimits) }
    ensures lines { IfOk result (λ r. (m : ℕ) × HasLines left.entry.text.now m × (r.1 ≡ left.entry.lines + m)) }
    ensures fault { IfErr result (IsEndFault left.entry.lines left.entry.text.now) }
{
    if left.text.is_empty() {
        return Ok((None, left.lines));
    }
    if !is_at(left.text, Keyword::Report) {
        return Err(InputError::Bad {
            line: left.lines + 1,
            reason: Reason::Shape(0),
        });
    }
    let report = read_section(alloc, left.text, left.lines)?;
    let lines = left.lines + count_lines(left.text);
    Ok((Some(report), lines))
}

// The report that a text writes, where so many lines of an input stand before it.
fn read_section<S: Scalar>(alloc: Global, text: &[u8], before: u64) -> Result<Report<S>, InputError>
    requires orders { (n : ℕ) → 0 < n → n ≤ ORDER_LIMIT → S.admits n }
    requires fits { before + length text.now + 1 < 2 ^ 64 }
    ensures report { IfOk result (λ r. IsReportText text.now (content_of r)) }
    ensures limits { IfOk result IsWithinLimits }
    ensures fault { IfErr result (IsSectionFault before text.now) }
{
    match read_report(alloc, text) {
        Ok(report) => Ok(report),
        Err(error) => Err(behind_lines(error, before)),
    }
}

// What an error of a report says of an input with so many lines before the report.
fn behind_lines(error: ReportError, before: u64) -> InputError
    requires { FitsBehind before error }
    ensures { (text : List ℕ) → IsFault text error → IsSectionFault before text result }
{
    match error {
        ReportError::Line(n) => InputError::Bad {
            line: before + n,
            reason: Reason::Report,
        },
        ReportError::Range(n) => InputError::ReportRange { line: before + n },
        ReportError::Memory => InputError::Memory,
    }
}

// How many lines a text has.
fn count_lines(text: &[u8]) -> u64
    ensures lines { HasLines text.now result }
    ensures few { result ≤ length text.now }
{
    let mut lines = 0u64;
    let mut rest = text;
    while !rest.is_empty() {
        let (_, behind) = next_line(rest);
        lines += 1;
        rest = behind;
    }
    lines
}
