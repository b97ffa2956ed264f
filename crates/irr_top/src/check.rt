// `check`: the verdict on a report of small representations.
ghost use Rattle.std.specs.Prelude.{◌≡◌, List, IfOk, IfErr, string_bytes};
ghost use Rattle.irr_seitz.specs.declared.op.Op.{Op};
ghost use Rattle.irr_report.specs.Content.{content_of};
ghost use Rattle.irr_report.specs.Limits.{IsWithinLimits};
ghost use Rattle.irr_check.specs.declared.verdict.Verdict.TheVariants.{No};
ghost use Rattle.irr_top.specs.GroupOf.{IsGroupOf, group_of};
ghost use Rattle.irr_top.specs.Question.Question.{check as asked};
ghost use Rattle.irr_top.specs.Answer.{IsReplied, IsNoReply};
ghost use Rattle.irr_top.specs.CheckCommand.{verdict_status, verdict_text};

use crate::reply::{NoReply, Reply};
use crate::status::Status;
use crate::task::Number;
use irr_check::{CheckError, Clause, Verdict, check};
use irr_close::Group;
use irr_memory::Memory;
use irr_report::Report;
use std::alloc::{AllocError, Global};

/// Replies to `check` on a report, with this group.
pub(crate) fn check_reply(
    alloc: Global,
    group: &Group,
    report: &Report<Number>,
) -> Result<Reply, NoReply>
    requires group { (gens : List Op) × IsGroupOf group.now gens }
    requires limits { IsWithinLimits report.now }
    ensures reply { (gens : List Op) → IsGroupOf group.now gens
        → IfOk result (IsReplied (asked (content_of report.now)) (group_of gens)) }
    ensures none { (gens : List Op) → IsGroupOf group.now gens
        → IfErr result (IsNoReply (asked (content_of report.now)) (group_of gens)) }
{
    match check(alloc, group, report) {
        Ok(verdict) => {
            let reply = told(alloc, verdict)?;
            Ok(reply)
        }
        Err(CheckError::OrderTooLarge(order)) => Err(NoReply::OrderTooLarge(order)),
        Err(CheckError::Memory) => Err(NoReply::Memory),
    }
}

// The reply that tells a verdict.
fn told(alloc: Global, verdict: Verdict) -> Result<Reply, Memory>
    ensures status { IfOk result (λ r. r.status ≡ verdict_status verdict) }
    ensures text { IfOk result (λ r. r.text.items ≡ verdict_text verdict) }
{
    let text = text_verdict(alloc, &verdict)?;
    let status = status_of(verdict);
    Ok(Reply { status, text })
}

// The status with which a verdict ends.
fn status_of(verdict: Verdict) -> Status
    ensures { result ≡ verdict_status verdict }
{
    match verdict {
        Verdict::Yes => Status::Done,
        Verdict::No { clause, rep, i, j } => Status::Rejected { clause, rep, i, j },
    }
}

/// The line of a verdict, with its line feed.
pub fn text_verdict(alloc: Global, verdict: &Verdict) -> Result<Vec<u8>, Memory>
    ensures { IfOk result (λ text. text.items ≡ verdict_text verdict.now) }
{
    Ok(line(alloc, *verdict)?.into_bytes())
}

fn line(alloc: Global, verdict: Verdict) -> Result<String, AllocError>
    ensures { IfOk result (λ text. string_bytes text ≡ verdict_text verdict) }
{
    match verdict {
        Verdict::Yes => format!(in alloc; "yes\n"),
        Verdict::No { clause, rep, i, j } => no_line(alloc, clause, rep, i, j),
    }
}

// The line of a verdict of no.
fn no_line(alloc: Global, clause: Clause, rep: u32, i: u32, j: u32) -> Result<String, AllocError>
    ensures { IfOk result (λ text. string_bytes text ≡ verdict_text (No clause rep i j)) }
{
    match clause {
        Clause::Order => format!(in alloc; "no order {i}\n"),
        Clause::Ops => format!(in alloc; "no ops {i}\n"),
        Clause::Unit => format!(in alloc; "no unit S{rep}\n"),
        Clause::Multiply => format!(in alloc; "no multiply S{rep} {i} {j}\n"),
        Clause::Char => format!(in alloc; "no char S{rep} {i}\n"),
        Clause::Reducible => format!(in alloc; "no reducible S{rep}\n"),
        Clause::Equivalent => format!(in alloc; "no equivalent S{rep} S{i}\n"),
        Clause::Missing => format!(in alloc; "no missing\n"),
    }
}
